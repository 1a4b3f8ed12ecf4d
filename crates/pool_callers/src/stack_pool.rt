//! The pool of stacks: what an allocator does for the stacks of fibers alone.
ghost use Rattle.std.specs.Prelude.{◌≡◌, IfSome, ◌<◌, ◌≤◌, ◌%◌, ◌^◌, ◌==◌, [], is_some, map, true, All, IfOk, IfErr};
ghost use Rattle.pool_hall.specs.Seat.{view};
ghost use Rattle.pool_hall.specs.Tally.{all_portions};
ghost use Rattle.pool_hall.specs.declared.unit_name.SlotKind.TheVariants as kind;
ghost use Rattle.pool_images.specs.Slots.{IsClean, IsPart, decommitted_all, size_of};
ghost use Rattle.pool_slots.specs.PlainSlots.{stack_kept, stack_ranges, stack_zeroed};
ghost use Rattle.pool_alloc.specs.Places.{counted_object};
ghost use Rattle.pool_alloc.specs.declared.frame.Asked.TheVariants as asked;
ghost use Rattle.pool_alloc.specs.declared.frame.Grant.TheVariants as grant;
ghost use Rattle.pool_driver.specs.Looking.{HasLooked, slots_of_kind};
ghost use Rattle.pool_driver.specs.Refusing.{StackRefused};
ghost use Rattle.pool_driver.specs.Spending.{ColdWithin};
ghost use Rattle.pool_callers.specs.Callers.{Gives, IsAllocator, IsCaller, IsGivenBack, IsGranted, IsKept, IsRefused, about_pool, left_counted};
ghost use Rattle.pool_callers.specs.GivingMany.{AreGivenBack, GivesAll};
ghost use Rattle.pool_callers.specs.WarmTold.{AreResident, AreWarm};

use crate::allocator::PoolingInstanceAllocator;
use crate::metrics::PoolingAllocatorMetrics;
use crate::seat::CallerSeat;
use pool_alloc::StackLease;
use pool_driver::{PoolHall, PoolSeat};
use pool_images::Ranges;
use pool_index::ShardId;
use pool_pages::{PageMaker, Pages};
use pool_slots::{AllocError, GcHeap, Stack};
use std::alloc::Global;
use std::sync::Wait;

/// The stacks of an allocator (Wasmtime's `unix_stack_pool.rs`). It borrows the allocator, and has no state of its own: what it grants and
/// takes back is the allocator's, and may be given back by either.
#[derive(Drop)]
pub struct StackPool<'a, P: Pages, H: GcHeap, M: PageMaker> {
    allocator: &'a PoolingInstanceAllocator<PoolHall<P, H, M>, P, H>,
}

impl<'a, P: Pages, H: GcHeap, M: PageMaker> StackPool<'a, P, H, M> {
    pub fn new(allocator: &'a PoolingInstanceAllocator<PoolHall<P, H, M>, P, H>) -> Self
        ensures { result.allocator.now ≡ allocator.now }
    {
        StackPool { allocator }
    }

    /// Where stacks are zeroed, zeroes the top of a stack by hand, as much as is kept resident, and leaves the rest in `ranges`, to be
    /// decommitted, also where it is empty. Answers how many bytes were zeroed. Where stacks aren't zeroed, does nothing and answers 0.
    /// `ranges` must be empty. A stack that is given back is zeroed so by the allocator.
    pub fn zero_stack(&self, stack: &mut Stack<P>, ranges: &mut Ranges) -> usize
        requires pool { IsAllocator M.told self.now.allocator.now }
        requires page { stack.old.slot.region.page ≡ self.now.allocator.now.pool.settings.page }
        requires zeroing { stack.old.zeroing ≡ self.now.allocator.now.pool.settings.stack_zeroing }
        requires empty { ranges.old ≡ [] }
        ensures resident { result ≡ stack_kept self.now.allocator.now.pool.settings.stack_zeroing self.now.allocator.now.pool.settings.stack_keep_resident.bytes stack.old }
        ensures ranges { ranges.new ≡ stack_ranges self.now.allocator.now.pool.settings.stack_zeroing self.now.allocator.now.pool.settings.stack_keep_resident.bytes stack.old }
        ensures value { stack.new ≡ stack_zeroed self.now.allocator.now.pool.settings.stack_zeroing self.now.allocator.now.pool.settings.stack_keep_resident.bytes stack.old }
        ensures parts { All (IsPart stack.new.slot.region.page (size_of stack.new.slot)) ranges.new }
        ensures clean_after { self.now.allocator.now.pool.settings.stack_zeroing ≡ true → IsClean (decommitted_all ranges.new stack.new.slot) }
    {
        stack.zero(self.allocator.pool.settings.stack_keep_resident, ranges)
    }

    /// Whether no stack is granted, as the counter says that all callers count on. Slots that wait in a queue, or that a call under way has
    /// picked, don't count.
    pub fn is_empty(&self, seat: &mut CallerSeat<PoolSeat<P, H, M>, P, H>) -> bool
        requires pool { IsAllocator M.told self.now.allocator.now }
        requires seat { IsCaller M.told self.now.allocator.now seat.old }
        ensures seat { IsCaller M.told self.now.allocator.now seat.new }
        ensures frame { seat.new.frame ≡ seat.old.frame }
        ensures view { view seat.new.seat ≡ view seat.old.seat }
        ensures exact { (view seat.old.seat).portions ≡ all_portions → result ≡ (left_counted (view seat.old.seat) (counted_object kind.Stack) % 2 ^ 64 == 0) }
    {
        PoolingAllocatorMetrics::new(self.allocator).stacks(seat) == 0
    }

    /// As `PoolingInstanceAllocator::allocate_fiber_stack`.
    pub fn allocate<R: Wait>(
        &self,
        rt: &R,
        alloc: Global,
        home: ShardId,
        seat: &mut CallerSeat<PoolSeat<P, H, M>, P, H>,
    ) -> Result<StackLease<P>, AllocError>
        requires pool { IsAllocator M.told self.now.allocator.now }
        requires seat { IsCaller M.told self.now.allocator.now seat.old }
        ensures seat { IsCaller M.told self.now.allocator.now seat.new }
        ensures stripe { seat.new.frame.stripe ≡ seat.old.frame.stripe }
        ensures granted { IfOk result (λ lease. IsGranted {P = P} {H = H} (about_pool M.told self.now.allocator.now) asked.Stack (grant.Stack lease) (view seat.old.seat) (view seat.new.seat)) }
        ensures refused { IfErr result (λ e. IsRefused (about_pool M.told self.now.allocator.now) home.0 seat.old.frame.stripe asked.Stack e (view seat.old.seat) (view seat.new.seat)) }
        ensures enabled { IfOk result (λ lease. 0 < self.now.allocator.now.pool.settings.stack_size) }
        ensures reason { IfErr result (StackRefused self.now.allocator.now.pool.settings) }
        ensures cold { IfOk result (λ lease. ColdWithin (view seat.old.seat) (view seat.new.seat) self.now.allocator.now.pool.plan 1) }
        ensures none_cold { IfErr result (λ e. ColdWithin (view seat.old.seat) (view seat.new.seat) self.now.allocator.now.pool.plan 0) }
    {
        self.allocator.allocate_fiber_stack(rt, alloc, home, seat)
    }

    /// As `PoolingInstanceAllocator::deallocate_fiber_stack`.
    pub fn deallocate<R: Wait>(
        &self,
        rt: &R,
        alloc: Global,
        home: ShardId,
        seat: &mut CallerSeat<PoolSeat<P, H, M>, P, H>,
        stack: StackLease<P>,
    )
        requires pool { IsAllocator M.told self.now.allocator.now }
        requires seat { IsCaller M.told self.now.allocator.now seat.old }
        requires gives { Gives {P = P} {H = H} (about_pool M.told self.now.allocator.now) (grant.Stack stack) (view seat.old.seat) }
        ensures seat { IsCaller M.told self.now.allocator.now seat.new }
        ensures stripe { seat.new.frame.stripe ≡ seat.old.frame.stripe }
        ensures returned { IsGivenBack {P = P} {H = H} (about_pool M.told self.now.allocator.now) (grant.Stack stack) (view seat.old.seat) (view seat.new.seat) }
    {
        self.allocator
            .deallocate_fiber_stack(rt, alloc, home, seat, stack);
    }

    /// Takes stacks back, one after the other, in their order. Never refused; takes no memory.
    pub fn deallocate_many<R: Wait>(
        &self,
        rt: &R,
        alloc: Global,
        home: ShardId,
        seat: &mut CallerSeat<PoolSeat<P, H, M>, P, H>,
        stacks: Vec<StackLease<P>>,
    )
        requires pool { IsAllocator M.told self.now.allocator.now }
        requires seat { IsCaller M.told self.now.allocator.now seat.old }
        requires gives { GivesAll {P = P} {H = H} (about_pool M.told self.now.allocator.now) (map grant.Stack stacks.items) (view seat.old.seat) }
        ensures seat { IsCaller M.told self.now.allocator.now seat.new }
        ensures stripe { seat.new.frame.stripe ≡ seat.old.frame.stripe }
        ensures returned { AreGivenBack {P = P} {H = H} (about_pool M.told self.now.allocator.now) (map grant.Stack stacks.items) (view seat.old.seat) (view seat.new.seat) }
    {
        for stack in stacks {
            self.allocator
                .deallocate_fiber_stack(rt, alloc, home, seat, stack);
        }
    }

    /// As `PoolingAllocatorMetrics::unused_warm_stacks`.
    pub fn unused_warm_slots<R: Wait>(
        &self,
        rt: &R,
        seat: &mut CallerSeat<PoolSeat<P, H, M>, P, H>,
    ) -> u32
        requires pool { IsAllocator M.told self.now.allocator.now }
        requires seat { IsCaller M.told self.now.allocator.now seat.old }
        ensures seat { IsCaller M.told self.now.allocator.now seat.new }
        ensures frame { seat.new.frame ≡ seat.old.frame }
        ensures looked { HasLooked (view seat.old.seat) (view seat.new.seat) }
        ensures kept { IsKept (view seat.old.seat) (view seat.new.seat) }
        ensures most { result ≤ slots_of_kind self.now.allocator.now.pool.plan kind.Stack }
        ensures warm { AreWarm M.told self.now.allocator.now (view seat.old.seat) kind.Stack result }
    {
        PoolingAllocatorMetrics::new(self.allocator).unused_warm_stacks(rt, seat)
    }

    /// As `PoolingAllocatorMetrics::unused_stack_bytes_resident`.
    pub fn unused_bytes_resident<R: Wait>(
        &self,
        rt: &R,
        seat: &mut CallerSeat<PoolSeat<P, H, M>, P, H>,
    ) -> Option<usize>
        requires pool { IsAllocator M.told self.now.allocator.now }
        requires seat { IsCaller M.told self.now.allocator.now seat.old }
        ensures seat { IsCaller M.told self.now.allocator.now seat.new }
        ensures frame { seat.new.frame ≡ seat.old.frame }
        ensures looked { HasLooked (view seat.old.seat) (view seat.new.seat) }
        ensures kept { IsKept (view seat.old.seat) (view seat.new.seat) }
        ensures some { is_some result ≡ self.now.allocator.now.pool.settings.stack_zeroing }
        ensures warm { IfSome result (AreResident M.told self.now.allocator.now (view seat.old.seat) kind.Stack) }
    {
        PoolingAllocatorMetrics::new(self.allocator).unused_stack_bytes_resident(rt, seat)
    }
}
