ghost use Rattle.std.specs.Prelude.{◌≡◌};

use pool_memory::RuntimeMemoryCreator;
use pool_pages::PageMaker;
use std::marker::PhantomData;

/// An allocator that makes each memory, table and stack for the call that asks for it, and drops it when it is given back.
/// The creator makes its memories, and `M` the regions.
#[derive(Drop)]
pub struct OnDemandInstanceAllocator<M, C> {
    pub creator: C,
    /// How many usable bytes a stack has, which are rounded up to pages.
    pub stack_size: usize,
    /// Whether stacks are to be given back zeroed.
    pub stack_zeroing: bool,
    maker: PhantomData<M>,
}

impl<M: PageMaker, C: RuntimeMemoryCreator<M>> OnDemandInstanceAllocator<M, C> {
    pub fn new(creator: C, stack_size: usize, stack_zeroing: bool) -> Self
        ensures creator { result.creator ≡ creator }
        ensures stack_size { result.stack_size ≡ stack_size }
        ensures stack_zeroing { result.stack_zeroing ≡ stack_zeroing }
    {
        OnDemandInstanceAllocator {
            creator,
            stack_size,
            stack_zeroing,
            maker: PhantomData,
        }
    }
}
