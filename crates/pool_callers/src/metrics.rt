//! The numbers of an allocator.
ghost use Rattle.std.specs.Prelude.{◌≡◌, ◌%◌, ◌^◌, ◌<◌, ◌≤◌, is_some, IfSome};
ghost use Rattle.pool_hall.specs.Seat.{view};
ghost use Rattle.pool_hall.specs.Tally.{all_portions};
ghost use Rattle.pool_hall.specs.declared.unit_name.SlotKind.TheVariants as kind;
ghost use Rattle.pool_alloc.specs.Places.{counted_component, counted_instance, counted_object};
ghost use Rattle.pool_driver.specs.Counts.{count_in, counter_total};
ghost use Rattle.pool_driver.specs.Looking.{HasLooked, slots_of_kind};
ghost use Rattle.pool_callers.specs.Callers.{IsAllocator, IsCaller, IsKept, left_counted};
ghost use Rattle.pool_callers.specs.WarmTold.{AreResident, AreWarm, IsWarmSum};

use crate::allocator::PoolingInstanceAllocator;
use crate::seat::CallerSeat;
use pool_driver::{PoolHall, PoolSeat, WarmSlots};
use pool_index::SlotKind;
use pool_pages::{PageMaker, Pages};
use pool_slots::GcHeap;
use std::sync::Wait;

/// The numbers of an allocator. Each is read in the seat of the caller who asks. How many of a kind there are is read from a counter that all
/// callers count on, and is what that was at some moment of the call. Where one seat has all portions, nobody else counts, and the number is
/// what that seat has counted. How many slots are warm, and how many bytes these keep resident, is a sum over shards, each of which is read at
/// another moment: with one caller at the same one, which no clause says. A sum stands still at the end of its type.
#[derive(Drop)]
pub struct PoolingAllocatorMetrics<'a, P: Pages, H: GcHeap, M: PageMaker> {
    allocator: &'a PoolingInstanceAllocator<PoolHall<P, H, M>, P, H>,
}

impl<'a, P: Pages, H: GcHeap, M: PageMaker> PoolingAllocatorMetrics<'a, P, H, M> {
    pub fn new(allocator: &'a PoolingInstanceAllocator<PoolHall<P, H, M>, P, H>) -> Self
        ensures { result.allocator.now ≡ allocator.now }
    {
        PoolingAllocatorMetrics { allocator }
    }

    /// How many instances of modules there are, with those that are being made or given back.
    pub fn core_instances(&self, seat: &mut CallerSeat<PoolSeat<P, H, M>, P, H>) -> u64
        requires pool { IsAllocator M.told self.now.allocator.now }
        requires seat { IsCaller M.told self.now.allocator.now seat.old }
        ensures seat { IsCaller M.told self.now.allocator.now seat.new }
        ensures frame { seat.new.frame ≡ seat.old.frame }
        ensures view { view seat.new.seat ≡ view seat.old.seat }
        ensures exact { (view seat.old.seat).portions ≡ all_portions → result ≡ left_counted (view seat.old.seat) counted_instance % 2 ^ 64 }
    {
        self.count(seat, 1)
    }

    /// How many instances of components there are.
    pub fn component_instances(&self, seat: &mut CallerSeat<PoolSeat<P, H, M>, P, H>) -> u64
        requires pool { IsAllocator M.told self.now.allocator.now }
        requires seat { IsCaller M.told self.now.allocator.now seat.old }
        ensures seat { IsCaller M.told self.now.allocator.now seat.new }
        ensures frame { seat.new.frame ≡ seat.old.frame }
        ensures view { view seat.new.seat ≡ view seat.old.seat }
        ensures exact { (view seat.old.seat).portions ≡ all_portions → result ≡ left_counted (view seat.old.seat) counted_component % 2 ^ 64 }
    {
        self.count(seat, 2)
    }

    /// How many memories there are.
    pub fn memories(&self, seat: &mut CallerSeat<PoolSeat<P, H, M>, P, H>) -> u64
        requires pool { IsAllocator M.told self.now.allocator.now }
        requires seat { IsCaller M.told self.now.allocator.now seat.old }
        ensures seat { IsCaller M.told self.now.allocator.now seat.new }
        ensures frame { seat.new.frame ≡ seat.old.frame }
        ensures view { view seat.new.seat ≡ view seat.old.seat }
        ensures exact { (view seat.old.seat).portions ≡ all_portions → result ≡ left_counted (view seat.old.seat) (counted_object kind.Memory) % 2 ^ 64 }
    {
        self.count(seat, 3)
    }

    /// How many tables there are.
    pub fn tables(&self, seat: &mut CallerSeat<PoolSeat<P, H, M>, P, H>) -> u64
        requires pool { IsAllocator M.told self.now.allocator.now }
        requires seat { IsCaller M.told self.now.allocator.now seat.old }
        ensures seat { IsCaller M.told self.now.allocator.now seat.new }
        ensures frame { seat.new.frame ≡ seat.old.frame }
        ensures view { view seat.new.seat ≡ view seat.old.seat }
        ensures exact { (view seat.old.seat).portions ≡ all_portions → result ≡ left_counted (view seat.old.seat) (counted_object kind.Table) % 2 ^ 64 }
    {
        self.count(seat, 4)
    }

    /// How many stacks there are.
    pub fn stacks(&self, seat: &mut CallerSeat<PoolSeat<P, H, M>, P, H>) -> u64
        requires pool { IsAllocator M.told self.now.allocator.now }
        requires seat { IsCaller M.told self.now.allocator.now seat.old }
        ensures seat { IsCaller M.told self.now.allocator.now seat.new }
        ensures frame { seat.new.frame ≡ seat.old.frame }
        ensures view { view seat.new.seat ≡ view seat.old.seat }
        ensures exact { (view seat.old.seat).portions ≡ all_portions → result ≡ left_counted (view seat.old.seat) (counted_object kind.Stack) % 2 ^ 64 }
    {
        self.count(seat, 5)
    }

    /// How many heaps there are.
    pub fn gc_heaps(&self, seat: &mut CallerSeat<PoolSeat<P, H, M>, P, H>) -> u64
        requires pool { IsAllocator M.told self.now.allocator.now }
        requires seat { IsCaller M.told self.now.allocator.now seat.old }
        ensures seat { IsCaller M.told self.now.allocator.now seat.new }
        ensures frame { seat.new.frame ≡ seat.old.frame }
        ensures view { view seat.new.seat ≡ view seat.old.seat }
        ensures exact { (view seat.old.seat).portions ≡ all_portions → result ≡ left_counted (view seat.old.seat) (counted_object kind.Heap) % 2 ^ 64 }
    {
        self.count(seat, 6)
    }

    /// How many slots of memories are free and were used before. Waits for each shard of memories, one at a time.
    pub fn unused_warm_memories<R: Wait>(
        &self,
        rt: &R,
        seat: &mut CallerSeat<PoolSeat<P, H, M>, P, H>,
    ) -> u32
        requires pool { IsAllocator M.told self.now.allocator.now }
        requires seat { IsCaller M.told self.now.allocator.now seat.old }
        ensures seat { IsCaller M.told self.now.allocator.now seat.new }
        ensures frame { seat.new.frame ≡ seat.old.frame }
        ensures looked { HasLooked (view seat.old.seat) (view seat.new.seat) }
        ensures kept { IsKept (view seat.old.seat) (view seat.new.seat) }
        ensures most { result ≤ slots_of_kind self.now.allocator.now.pool.plan kind.Memory }
        ensures warm { AreWarm M.told self.now.allocator.now (view seat.old.seat) kind.Memory result }
    {
        self.warm(rt, seat, SlotKind::Memory).slots
    }

    /// How many bytes these slots keep resident. Waits likewise.
    pub fn unused_memory_bytes_resident<R: Wait>(
        &self,
        rt: &R,
        seat: &mut CallerSeat<PoolSeat<P, H, M>, P, H>,
    ) -> usize
        requires pool { IsAllocator M.told self.now.allocator.now }
        requires seat { IsCaller M.told self.now.allocator.now seat.old }
        ensures seat { IsCaller M.told self.now.allocator.now seat.new }
        ensures frame { seat.new.frame ≡ seat.old.frame }
        ensures looked { HasLooked (view seat.old.seat) (view seat.new.seat) }
        ensures kept { IsKept (view seat.old.seat) (view seat.new.seat) }
        ensures warm { AreResident M.told self.now.allocator.now (view seat.old.seat) kind.Memory result }
    {
        self.warm(rt, seat, SlotKind::Memory).bytes_resident
    }

    /// How many slots of tables are free and were used before. Waits for each shard of tables, one at a time.
    pub fn unused_warm_tables<R: Wait>(
        &self,
        rt: &R,
        seat: &mut CallerSeat<PoolSeat<P, H, M>, P, H>,
    ) -> u32
        requires pool { IsAllocator M.told self.now.allocator.now }
        requires seat { IsCaller M.told self.now.allocator.now seat.old }
        ensures seat { IsCaller M.told self.now.allocator.now seat.new }
        ensures frame { seat.new.frame ≡ seat.old.frame }
        ensures looked { HasLooked (view seat.old.seat) (view seat.new.seat) }
        ensures kept { IsKept (view seat.old.seat) (view seat.new.seat) }
        ensures most { result ≤ slots_of_kind self.now.allocator.now.pool.plan kind.Table }
        ensures warm { AreWarm M.told self.now.allocator.now (view seat.old.seat) kind.Table result }
    {
        self.warm(rt, seat, SlotKind::Table).slots
    }

    /// How many bytes these slots keep resident. Waits likewise.
    pub fn unused_table_bytes_resident<R: Wait>(
        &self,
        rt: &R,
        seat: &mut CallerSeat<PoolSeat<P, H, M>, P, H>,
    ) -> usize
        requires pool { IsAllocator M.told self.now.allocator.now }
        requires seat { IsCaller M.told self.now.allocator.now seat.old }
        ensures seat { IsCaller M.told self.now.allocator.now seat.new }
        ensures frame { seat.new.frame ≡ seat.old.frame }
        ensures looked { HasLooked (view seat.old.seat) (view seat.new.seat) }
        ensures kept { IsKept (view seat.old.seat) (view seat.new.seat) }
        ensures warm { AreResident M.told self.now.allocator.now (view seat.old.seat) kind.Table result }
    {
        self.warm(rt, seat, SlotKind::Table).bytes_resident
    }

    /// How many slots of stacks are free and were used before. Waits for each shard of stacks, one at a time.
    pub fn unused_warm_stacks<R: Wait>(
        &self,
        rt: &R,
        seat: &mut CallerSeat<PoolSeat<P, H, M>, P, H>,
    ) -> u32
        requires pool { IsAllocator M.told self.now.allocator.now }
        requires seat { IsCaller M.told self.now.allocator.now seat.old }
        ensures seat { IsCaller M.told self.now.allocator.now seat.new }
        ensures frame { seat.new.frame ≡ seat.old.frame }
        ensures looked { HasLooked (view seat.old.seat) (view seat.new.seat) }
        ensures kept { IsKept (view seat.old.seat) (view seat.new.seat) }
        ensures most { result ≤ slots_of_kind self.now.allocator.now.pool.plan kind.Stack }
        ensures warm { AreWarm M.told self.now.allocator.now (view seat.old.seat) kind.Stack result }
    {
        self.warm(rt, seat, SlotKind::Stack).slots
    }

    /// How many bytes these slots keep resident; None, and nothing is waited for, where stacks aren't zeroed. Else waits likewise.
    pub fn unused_stack_bytes_resident<R: Wait>(
        &self,
        rt: &R,
        seat: &mut CallerSeat<PoolSeat<P, H, M>, P, H>,
    ) -> Option<usize>
        requires pool { IsAllocator M.told self.now.allocator.now }
        requires seat { IsCaller M.told self.now.allocator.now seat.old }
        ensures seat { IsCaller M.told self.now.allocator.now seat.new }
        ensures frame { seat.new.frame ≡ seat.old.frame }
        ensures looked { HasLooked (view seat.old.seat) (view seat.new.seat) }
        ensures kept { IsKept (view seat.old.seat) (view seat.new.seat) }
        ensures some { is_some result ≡ self.now.allocator.now.pool.settings.stack_zeroing }
        ensures warm { IfSome result (AreResident M.told self.now.allocator.now (view seat.old.seat) kind.Stack) }
    {
        if !self.allocator.pool.settings.stack_zeroing {
            return None;
        }
        Some(self.warm(rt, seat, SlotKind::Stack).bytes_resident)
    }

    // Looks at the shards of a kind.
    fn warm<R: Wait>(
        &self,
        rt: &R,
        seat: &mut CallerSeat<PoolSeat<P, H, M>, P, H>,
        kind: SlotKind,
    ) -> WarmSlots
        requires pool { IsAllocator M.told self.now.allocator.now }
        requires seat { IsCaller M.told self.now.allocator.now seat.old }
        ensures seat { IsCaller M.told self.now.allocator.now seat.new }
        ensures frame { seat.new.frame ≡ seat.old.frame }
        ensures looked { HasLooked (view seat.old.seat) (view seat.new.seat) }
        ensures kept { IsKept (view seat.old.seat) (view seat.new.seat) }
        ensures most { result.slots ≤ slots_of_kind self.now.allocator.now.pool.plan kind }
        ensures warm { IsWarmSum M.told self.now.allocator.now (view seat.old.seat) kind result }
    {
        self.allocator.pool.warm_slots(rt, &mut seat.seat, kind)
    }

    // Reads a counter.
    fn count(&self, seat: &mut CallerSeat<PoolSeat<P, H, M>, P, H>, counter: u32) -> u64
        requires pool { IsAllocator M.told self.now.allocator.now }
        requires seat { IsCaller M.told self.now.allocator.now seat.old }
        requires counter { counter < counter_total }
        ensures seat { IsCaller M.told self.now.allocator.now seat.new }
        ensures frame { seat.new.frame ≡ seat.old.frame }
        ensures view { view seat.new.seat ≡ view seat.old.seat }
        ensures exact { (view seat.old.seat).portions ≡ all_portions → result ≡ count_in (view seat.old.seat) counter }
    {
        self.allocator.pool.hall.load(&mut seat.seat, counter)
    }
}
