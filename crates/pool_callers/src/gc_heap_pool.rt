//! The pool of heaps: what an allocator does for the heaps of collectors alone.
ghost use Rattle.std.specs.Prelude.{◌≡◌, ◌<◌, ◌%◌, ◌^◌, ◌==◌, IfOk, IfErr};
ghost use Rattle.pool_hall.specs.Seat.{view};
ghost use Rattle.pool_hall.specs.Tally.{all_portions};
ghost use Rattle.pool_hall.specs.declared.unit_name.SlotKind.TheVariants as kind;
ghost use Rattle.pool_alloc.specs.HeapLeases.{memory_noted};
ghost use Rattle.pool_alloc.specs.Places.{counted_object};
ghost use Rattle.pool_alloc.specs.declared.frame.Asked.TheVariants as asked;
ghost use Rattle.pool_alloc.specs.declared.frame.Grant.TheVariants as grant;
ghost use Rattle.pool_driver.specs.Refusing.{HeapPasses, HeapRefused};
ghost use Rattle.pool_callers.specs.Callers.{Gives, HasAskedMaker, IsAllocator, IsCaller, IsGivenBack, IsGranted, IsRefused, about_pool, left_counted, outcome_of};

use crate::allocator::PoolingInstanceAllocator;
use crate::metrics::PoolingAllocatorMetrics;
use crate::seat::CallerSeat;
use pool_alloc::HeapLease;
use pool_driver::{PoolHall, PoolSeat};
use pool_index::ShardId;
use pool_pages::{PageMaker, Pages};
use pool_slots::{AllocError, GcHeap, HeapMaker, MemoryAllocationIndex};
use std::alloc::Global;
use std::sync::Wait;

/// The heaps of an allocator (Wasmtime's `gc_heap_pool.rs`). It borrows the allocator, and has no state of its own: what it grants and takes
/// back is the allocator's, and may be given back by either.
#[derive(Drop)]
pub struct GcHeapPool<'a, P: Pages, H: GcHeap, M: PageMaker> {
    allocator: &'a PoolingInstanceAllocator<PoolHall<P, H, M>, P, H>,
}

impl<'a, P: Pages, H: GcHeap, M: PageMaker> GcHeapPool<'a, P, H, M> {
    pub fn new(allocator: &'a PoolingInstanceAllocator<PoolHall<P, H, M>, P, H>) -> Self
        ensures { result.allocator.now ≡ allocator.now }
    {
        GcHeapPool { allocator }
    }

    /// Whether no heap is granted, as the counter says that all callers count on. Slots that wait in a queue, or that a call under way has
    /// picked, don't count.
    pub fn is_empty(&self, seat: &mut CallerSeat<PoolSeat<P, H, M>, P, H>) -> bool
        requires pool { IsAllocator M.told self.now.allocator.now }
        requires seat { IsCaller M.told self.now.allocator.now seat.old }
        ensures seat { IsCaller M.told self.now.allocator.now seat.new }
        ensures frame { seat.new.frame ≡ seat.old.frame }
        ensures view { view seat.new.seat ≡ view seat.old.seat }
        ensures exact { (view seat.old.seat).portions ≡ all_portions → result ≡ (left_counted (view seat.old.seat) (counted_object kind.Heap) % 2 ^ 64 == 0) }
    {
        PoolingAllocatorMetrics::new(self.allocator).gc_heaps(seat) == 0
    }

    /// As `PoolingInstanceAllocator::allocate_gc_heap_over`.
    pub fn allocate<R: Wait, K: HeapMaker<Heap = H>>(
        &self,
        rt: &R,
        alloc: Global,
        home: ShardId,
        seat: &mut CallerSeat<PoolSeat<P, H, M>, P, H>,
        heaps: &mut K,
        memory: MemoryAllocationIndex,
    ) -> Result<HeapLease<H>, AllocError>
        requires pool { IsAllocator M.told self.now.allocator.now }
        requires seat { IsCaller M.told self.now.allocator.now seat.old }
        ensures seat { IsCaller M.told self.now.allocator.now seat.new }
        ensures stripe { seat.new.frame.stripe ≡ seat.old.frame.stripe }
        ensures granted { IfOk result (λ lease. IsGranted {P = P} {H = H} (about_pool M.told self.now.allocator.now) (asked.HeapOver memory) (grant.HeapOver lease) (view seat.old.seat) (view seat.new.seat)) }
        ensures notes { IfOk result (λ lease. memory_noted lease ≡ memory.0) }
        ensures refused { IfErr result (λ e. IsRefused (about_pool M.told self.now.allocator.now) home.0 seat.old.frame.stripe (asked.HeapOver memory) e (view seat.old.seat) (view seat.new.seat)) }
        ensures tested { IfOk result (λ lease. HeapPasses self.now.allocator.now.pool.settings (asked.HeapOver memory)) }
        ensures reason { IfErr result (HeapRefused self.now.allocator.now.pool.settings (asked.HeapOver memory)) }
        ensures asked { HasAskedMaker (K.told heaps.old) (K.told heaps.new) (outcome_of {P = P} {H = H} grant.HeapOver result) }
    {
        self.allocator
            .allocate_gc_heap_over(rt, alloc, home, seat, heaps, memory)
    }

    /// As `PoolingInstanceAllocator::deallocate_gc_heap_over`.
    pub fn deallocate<R: Wait>(
        &self,
        rt: &R,
        alloc: Global,
        home: ShardId,
        seat: &mut CallerSeat<PoolSeat<P, H, M>, P, H>,
        heap: HeapLease<H>,
    ) -> MemoryAllocationIndex
        requires pool { IsAllocator M.told self.now.allocator.now }
        requires seat { IsCaller M.told self.now.allocator.now seat.old }
        requires gives { Gives {P = P} {H = H} (about_pool M.told self.now.allocator.now) (grant.HeapOver heap) (view seat.old.seat) }
        ensures seat { IsCaller M.told self.now.allocator.now seat.new }
        ensures stripe { seat.new.frame.stripe ≡ seat.old.frame.stripe }
        ensures returned { IsGivenBack {P = P} {H = H} (about_pool M.told self.now.allocator.now) (grant.HeapOver heap) (view seat.old.seat) (view seat.new.seat) }
        ensures memory { result.0 ≡ memory_noted heap }
    {
        self.allocator
            .deallocate_gc_heap_over(rt, alloc, home, seat, heap)
    }
}
