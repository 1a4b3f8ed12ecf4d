//! Stacks that are made on demand and counted against a limit.
ghost use Rattle.std.specs.Prelude.{◌≡◌, ◌+◌, ◌-◌, ◌<◌, ◌≤◌, ◌==◌, [], length, None, MatchResult};
ghost use Rattle.pool_memory.specs.Creators.{IsSameMaker};
ghost use Rattle.pool_on_demand.specs.Answers.{Allocates};
ghost use Rattle.pool_on_demand.specs.CountedStacks.{IsCountedStack, counted_refused};
ghost use Rattle.pool_on_demand.specs.Stacks.{AsksForStack, stack_room};

use crate::stack::{make_guarded, stack_room};
use pool_images::Ranges;
use pool_pages::{PageMaker, Pages};
use pool_slots::{AllocError, ConcurrencyKind, PoolConcurrencyLimitError, Stack};
use pool_types::{PageSize, PoolingAllocationConfig};
use std::alloc::Global;
use std::marker::{Model, PhantomData};

/// A pool of stacks that keeps none: each is made for the call that asks for it, and dropped when it is given back (Wasmtime's
/// `generic_stack_pool`, for systems on which a stack can't be used again). At most so many are live at once. A stack that
/// is dropped in place of being given back stays counted.
#[derive(Drop)]
pub struct StackPool<P: Pages> {
    page: PageSize,
    stack_size: usize,
    zeroing: bool,
    limit: u32,
    live: u32,
    region: PhantomData<P>,
}

impl<P: Pages> Model for StackPool<P> {
    ghost use Rattle.std.specs.Prelude.{◌≤◌};
    ghost use Rattle.pool_on_demand.specs.CountedStacks.{CountedStacks};

    ghost Value = { CountedStacks };

    ghost view = { λ s. record { page = s.page; stack_size = s.stack_size; zeroing = s.zeroing; limit = s.limit; live = s.live } };

    ghost invariant = { λ s. s.live ≤ s.limit };
}

impl<P: Pages> StackPool<P> {
    /// A pool with no stack. Of the configuration it takes the size of stacks, whether they are zeroed, and how many there may be.
    /// Its regions are to have this page size.
    pub fn new(config: &PoolingAllocationConfig, page: PageSize) -> Self
        ensures { result ≡ record { page = page; stack_size = config.now.stack_size; zeroing = config.now.async_stack_zeroing; limit = config.now.limits.total_stacks; live = 0 } }
    {
        StackPool {
            page,
            stack_size: config.stack_size,
            zeroing: config.async_stack_zeroing,
            limit: config.limits.total_stacks,
            live: 0,
            region: PhantomData,
        }
    }

    /// Whether no stack is live.
    pub fn is_empty(&self) -> bool
        ensures { result ≡ (self.now.live == 0) }
    {
        self.live == 0
    }

    /// Makes a stack behind a guard page, in a region of its own. Refused with `StacksDisabled` where stacks have no bytes, and
    /// else with `Limit` where as many are live as there may be: then nothing is asked of the maker. Refused with `Memory` where
    /// the maker has none or addresses don't reach the region's end, and with `PageFault` where the region can't be made or its
    /// guard page not be hidden. Its index is the greatest `u32`, since it is in no slot.
    pub fn allocate<M: PageMaker<Region = P>>(
        &mut self,
        alloc: Global,
        maker: &mut M,
    ) -> Result<Stack<P>, AllocError>
        requires page { (M.told maker.old).page ≡ self.old.page }
        ensures answer { Allocates (counted_refused self.old) (IsCountedStack self.old (M.told maker.old)) result (M.told maker.old) (M.told maker.new) }
        ensures live { MatchResult result (λ _. self.new ≡ record self.old { live = self.old.live + 1 }) (λ _. self.new ≡ self.old) }
        ensures borrows { M.borrows maker.new ≡ M.borrows maker.old }
        ensures maker { IsSameMaker (M.told maker.old) (M.told maker.new) }
        ensures asks { AsksForStack (counted_refused self.old) (stack_room self.old.page self.old.stack_size).bytes result (M.told maker.old) (M.told maker.new) }
    {
        if self.stack_size == 0 {
            return Err(AllocError::StacksDisabled);
        }
        if self.live == self.limit {
            return Err(AllocError::Limit(PoolConcurrencyLimitError {
                limit: self.limit as usize,
                kind: ConcurrencyKind::Fibers,
            }));
        }
        let Some(len) = stack_room(self.page, self.stack_size) else {
            return Err(AllocError::Memory);
        };
        match make_guarded(alloc, maker, len, self.stack_size, self.zeroing) {
            Ok(made) => {
                self.live += 1;
                Ok(made.stack)
            }
            Err(refusal) => Err(refusal),
        }
    }

    /// Does nothing and answers 0, whether stacks are zeroed or not: no stack is used again, and a new one is zero.
    pub fn zero_stack(&self, _stack: &mut Stack<P>, _ranges: &mut Ranges) -> usize
        ensures value { result ≡ 0 }
        ensures stack { _stack.new ≡ _stack.old }
        ensures ranges { _ranges.new ≡ _ranges.old }
    {
        0
    }

    /// Takes a stack back, and drops it with its region. How many of its bytes are resident doesn't matter. Any stack counts one down, also
    /// one that this pool didn't make.
    pub fn deallocate(&mut self, _stack: Stack<P>, _bytes: usize)
        requires live { 0 < self.old.live }
        ensures live { self.new ≡ record self.old { live = self.old.live - 1 } }
    {
        self.live -= 1;
    }

    /// Takes all these stacks back, each with its resident bytes, and leaves the list empty.
    pub fn deallocate_many(&mut self, items: &mut Vec<(Stack<P>, usize)>)
        requires live { length items.old.items ≤ self.old.live }
        ensures live { self.new ≡ record self.old { live = self.old.live - length items.old.items } }
        ensures items { items.new.items ≡ [] }
    {
        let left = self.live as usize - items.len();
        items.clear();
        self.live = left as u32;
    }

    /// How many slots are warm: none, since a stack keeps no slot.
    pub fn unused_warm_slots(&self) -> u32
        ensures { result ≡ 0 }
    {
        0
    }

    /// How many bytes unused slots keep resident: none are kept, so it isn't told.
    pub fn unused_bytes_resident(&self) -> Option<usize>
        ensures { result ≡ None }
    {
        None
    }
}
