ghost use Rattle.std.specs.Prelude.{◌≡◌, ◌^◌, ◌<◌, is_ok, IfOk, IfErr, IfSome, OnOk};
ghost use Rattle.std.specs.Option.{SomeIff};
ghost use Rattle.pool_pages.specs.Told.{passes};
ghost use Rattle.pool_types.specs.Count.{count};
ghost use Rattle.pool_pages.specs.MakerTold.{made_region};
ghost use Rattle.pool_memory.specs.Creators.{IsSameMaker};
ghost use Rattle.pool_memory.specs.Moving.{IsAsked, IsMadeRegion, IsRegionRefused, next_name};
ghost use Rattle.pool_on_demand.specs.Answers.{Allocates, GrantsOrGives};
ghost use Rattle.pool_on_demand.specs.Refusals.{stack_refused};
ghost use Rattle.pool_alloc.specs.GuardPages.{IsOpen, guarding};
ghost use Rattle.pool_on_demand.specs.Stacks.{IsStackMade, AsksForStack, stack_room, stack_behaviour, stack_in};

use crate::lease::OnDemandStack;
use crate::on_demand::OnDemandInstanceAllocator;
use pool_memory::RuntimeMemoryCreator;
use pool_pages::{MakeFault, PageFault, PageMaker, Pages, RegionName};
use pool_slots::{AllocError, Stack};
use pool_types::{DecommitBehavior, HostAlignedByteCount, PageSize};
use std::alloc::Global;

impl<M: PageMaker, C: RuntimeMemoryCreator<M>> OnDemandInstanceAllocator<M, C> {
    // A stack behind a guard page.
    pub(crate) fn make_stack(
        &self,
        alloc: Global,
        maker: &mut M,
    ) -> Result<OnDemandStack<M::Region>, AllocError>
        ensures answer { Allocates (stack_refused self.now.stack_size) (IsStackMade self.now.stack_size self.now.stack_zeroing (M.told maker.old)) result (M.told maker.old) (M.told maker.new) }
        ensures borrows { M.borrows maker.new ≡ M.borrows maker.old }
        ensures maker { IsSameMaker (M.told maker.old) (M.told maker.new) }
        ensures asks { AsksForStack (stack_refused self.now.stack_size) (stack_room (M.told maker.old).page self.now.stack_size).bytes result (M.told maker.old) (M.told maker.new) }
    {
        if self.stack_size == 0 {
            return Err(AllocError::StacksDisabled);
        }
        let Some(len) = stack_room(maker.page(), self.stack_size) else {
            return Err(AllocError::Memory);
        };
        make_guarded(alloc, maker, len, self.stack_size, self.stack_zeroing)
    }
}

// How long the region of a stack is, where addresses reach the end of it.
pub(crate) fn stack_room(page: PageSize, stack_size: usize) -> Option<HostAlignedByteCount>
    ensures { SomeIff result ((stack_room page stack_size).bytes < 2 ^ 64) (stack_room page stack_size) }
{
    let guard = one_page(page);
    match HostAlignedByteCount::new_rounded_up(page, stack_size) {
        Ok(stack) => guard.checked_add(stack).ok(),
        Err(_) => None,
    }
}

fn one_page(page: PageSize) -> HostAlignedByteCount
    ensures { result ≡ count page page }
{
    HostAlignedByteCount::new_unchecked(page, page.get())
}

// The stack in a region of this length that is made for it.
pub(crate) fn make_guarded<P: Pages, M: PageMaker<Region = P>>(
    alloc: Global,
    maker: &mut M,
    len: HostAlignedByteCount,
    stack_size: usize,
    zeroing: bool,
) -> Result<OnDemandStack<P>, AllocError>
    requires { len ≡ stack_room (M.told maker.old).page stack_size }
    ensures answer { GrantsOrGives (IsStackMade stack_size zeroing (M.told maker.old)) result (M.told maker.old) (M.told maker.new) }
    ensures borrows { M.borrows maker.new ≡ M.borrows maker.old }
    ensures asked { IsAsked (M.told maker.old) (M.told maker.new) }
{
    match make_region(alloc, maker, len, zeroing) {
        Ok(region) => match guard_stack(region, zeroing) {
            Ok(stack) => Ok(OnDemandStack { stack }),
            Err(PageFault) => Err(AllocError::PageFault),
        },
        Err(MakeFault::Memory) => Err(AllocError::Memory),
        Err(MakeFault::PageFault) => Err(AllocError::PageFault),
    }
}

// A region of this length, all of which can be reached.
fn make_region<P: Pages, M: PageMaker<Region = P>>(
    alloc: Global,
    maker: &mut M,
    len: HostAlignedByteCount,
    zeroing: bool,
) -> Result<P, MakeFault>
    ensures region { IfOk result (λ region. P.told region ≡ made_region (next_name (M.told maker.old)) (stack_behaviour zeroing) len len (M.told maker.old)) }
    ensures borrows { M.borrows maker.new ≡ M.borrows maker.old }
    ensures made { OnOk result (IsMadeRegion (M.told maker.old) (M.told maker.new)) }
    ensures refused { IfErr result (λ e. IsRegionRefused e (M.told maker.old) (M.told maker.new)) }
{
    let name = RegionName::OnDemand(maker.next());
    match maker.make(alloc, name, stack_behaviour(zeroing), len, len) {
        Ok(region) => Ok(region),
        Err(fault) => Err(fault),
    }
}

fn stack_behaviour(zeroing: bool) -> DecommitBehavior
    ensures { result ≡ stack_behaviour zeroing }
{
    if zeroing {
        DecommitBehavior::Zero
    } else {
        DecommitBehavior::RestoreOriginalMapping
    }
}

// The stack in a region all of whose pages can be reached. The first of them is hidden.
fn guard_stack<P: Pages>(region: P, zeroing: bool) -> Result<Stack<P>, PageFault>
    requires { IsOpen (P.told region) }
    ensures stack { IfOk result (λ s. s ≡ stack_in (P.told region) zeroing) }
    ensures planned { IfSome (P.told region).plan (λ plan. is_ok result ≡ passes plan (guarding (P.told region).page) (P.told region)) }
{
    let mut region = region;
    let guard = one_page(region.page());
    let _len = region.len().byte_count();
    region.hide(guard.page().zero(), guard)?;
    Ok(Stack::new(u32::MAX, region, guard, zeroing))
}
