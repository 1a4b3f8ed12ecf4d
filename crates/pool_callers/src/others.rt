//! Requests for the heaps of collectors, and what else a caller may ask for: a stripe, a purge, and a release.
ghost use Rattle.std.specs.Prelude.{◌≡◌, ◌<◌, is_some, IfOk, IfErr, IfSome};
ghost use Rattle.pool_hall.specs.Seat.{view};
ghost use Rattle.pool_alloc.specs.HeapLeases.{memory_noted};
ghost use Rattle.pool_alloc.specs.declared.frame.Asked.TheVariants as asked;
ghost use Rattle.pool_alloc.specs.declared.frame.Grant.TheVariants as grant;
ghost use Rattle.pool_alloc.specs.declared.frame.Call.TheVariants as call;
ghost use Rattle.pool_slots.specs.declared.errors.AllocError.TheVariants as refusal;
ghost use Rattle.pool_driver.specs.Asking.{CallAsks, HasAsked};
ghost use Rattle.pool_driver.specs.Calling.{draws_key, purges, releases};
ghost use Rattle.pool_driver.specs.Purging.{HasMissed};
ghost use Rattle.pool_driver.specs.Refusing.{HeapPasses, HeapRefused};
ghost use Rattle.pool_driver.specs.Releasing.{HasTakenWarm};
ghost use Rattle.pool_driver.specs.UnknownPuts.{UnknownCaused};
ghost use Rattle.pool_callers.specs.Callers.{Gives, HasAskedMaker, IsAllocator, IsBounded, IsCaller, IsGivenBack, IsGranted, IsKept, IsRefused, about_pool, outcome_of};

use crate::allocator::PoolingInstanceAllocator;
use crate::calls::NoHeaps;
use crate::seat::CallerSeat;
use pool_alloc::{Call, Grant, HeapLease, MemoryLease, Outcome};
use pool_driver::{PoolHall, PoolSeat};
use pool_index::ShardId;
use pool_limits::{ResourceLimiter, Unlimited};
use pool_pages::{PageMaker, Pages};
use pool_slots::{AllocError, GcHeap, HeapMaker, MemoryAllocationIndex};
use pool_types::{CompiledModuleId, MemoryType};
use std::alloc::Global;
use std::sync::Wait;

impl<P: Pages, H: GcHeap, M: PageMaker> PoolingInstanceAllocator<PoolHall<P, H, M>, P, H> {
    /// A heap of a collector, and the memory of this type that it lies in. The memory is allocated first, and the limiter asked of it; a
    /// heap is made only where the heap's slot has none yet. Refused with `HeapsDisabled` where there is no collector. Takes memory for the
    /// list of the memory, and what the maker takes.
    pub fn allocate_gc_heap<R: Wait, L: ResourceLimiter, K: HeapMaker<Heap = H>>(
        &self,
        rt: &R,
        alloc: Global,
        home: ShardId,
        seat: &mut CallerSeat<PoolSeat<P, H, M>, P, H>,
        ty: MemoryType,
        limiter: &mut L,
        heaps: &mut K,
    ) -> Result<(HeapLease<H>, MemoryLease<P>), AllocError>
        requires pool { IsAllocator M.told self.now }
        requires seat { IsCaller M.told self.now seat.old }
        requires page { ty.page_size_log2 < 64 }
        ensures seat { IsCaller M.told self.now seat.new }
        ensures stripe { seat.new.frame.stripe ≡ seat.old.frame.stripe }
        ensures granted { IfOk result (λ both. IsGranted {P = P} {H = H} (about_pool M.told self.now) (asked.Heap ty) (grant.Heap both.0 both.1) (view seat.old.seat) (view seat.new.seat)) }
        ensures refused { IfErr result (λ e. IsRefused (about_pool M.told self.now) home.0 seat.old.frame.stripe (asked.Heap ty) e (view seat.old.seat) (view seat.new.seat)) }
        ensures tested { IfOk result (λ both. HeapPasses self.now.pool.settings (asked.Heap ty)) }
        ensures reason { IfErr result (HeapRefused self.now.pool.settings (asked.Heap ty)) }
        ensures asked { HasAsked L.leads ⊥ (Unit {0}) (CallAsks {P = P} {H = H} (call.Heap ty) (outcome_of (λ both. grant.Heap both.0 both.1) result)) limiter.old limiter.new (record { limiter = L.told limiter.old; heaps = K.told heaps.old }) (record { limiter = L.told limiter.new; heaps = K.told heaps.new }) (outcome_of {P = P} {H = H} (λ both. grant.Heap both.0 both.1) result) }
    {
        match self.call(rt, alloc, home, seat, Call::Heap(ty), limiter, heaps) {
            Outcome::Granted(Grant::Heap(heap, memory)) => Ok((heap, memory)),
            Outcome::Refused(refusal) => Err(refusal),
            _ => unreachable!(),
        }
    }

    /// Takes a heap back, which stays in its slot for the next request, and then its memory. Never refused; takes no memory.
    pub fn deallocate_gc_heap<R: Wait>(
        &self,
        rt: &R,
        alloc: Global,
        home: ShardId,
        seat: &mut CallerSeat<PoolSeat<P, H, M>, P, H>,
        heap: HeapLease<H>,
        memory: MemoryLease<P>,
    )
        requires pool { IsAllocator M.told self.now }
        requires seat { IsCaller M.told self.now seat.old }
        requires gives { Gives {P = P} {H = H} (about_pool M.told self.now) (grant.Heap heap memory) (view seat.old.seat) }
        ensures seat { IsCaller M.told self.now seat.new }
        ensures stripe { seat.new.frame.stripe ≡ seat.old.frame.stripe }
        ensures returned { IsGivenBack {P = P} {H = H} (about_pool M.told self.now) (grant.Heap heap memory) (view seat.old.seat) (view seat.new.seat) }
    {
        self.call(
            rt,
            alloc,
            home,
            seat,
            Call::GiveBack(Grant::Heap(heap, memory)),
            &mut Unlimited,
            &mut NoHeaps::new(),
        );
    }

    /// A heap of a collector over the memory with this index, which the caller has and keeps: the heap's slot notes the index, and nothing is
    /// asked of the memory. A heap is made only where the slot has none yet. Refused with `HeapsDisabled` where there is no collector, with
    /// `Limit` where no slot for a heap is left, and with `HeapFault` or `Memory` where the maker makes none. Takes no memory but what the
    /// maker takes.
    pub fn allocate_gc_heap_over<R: Wait, K: HeapMaker<Heap = H>>(
        &self,
        rt: &R,
        alloc: Global,
        home: ShardId,
        seat: &mut CallerSeat<PoolSeat<P, H, M>, P, H>,
        heaps: &mut K,
        memory: MemoryAllocationIndex,
    ) -> Result<HeapLease<H>, AllocError>
        requires pool { IsAllocator M.told self.now }
        requires seat { IsCaller M.told self.now seat.old }
        ensures seat { IsCaller M.told self.now seat.new }
        ensures stripe { seat.new.frame.stripe ≡ seat.old.frame.stripe }
        ensures granted { IfOk result (λ lease. IsGranted {P = P} {H = H} (about_pool M.told self.now) (asked.HeapOver memory) (grant.HeapOver lease) (view seat.old.seat) (view seat.new.seat)) }
        ensures notes { IfOk result (λ lease. memory_noted lease ≡ memory.0) }
        ensures refused { IfErr result (λ e. IsRefused (about_pool M.told self.now) home.0 seat.old.frame.stripe (asked.HeapOver memory) e (view seat.old.seat) (view seat.new.seat)) }
        ensures tested { IfOk result (λ lease. HeapPasses self.now.pool.settings (asked.HeapOver memory)) }
        ensures reason { IfErr result (HeapRefused self.now.pool.settings (asked.HeapOver memory)) }
        ensures asked { HasAskedMaker (K.told heaps.old) (K.told heaps.new) (outcome_of {P = P} {H = H} grant.HeapOver result) }
    {
        match self.call(
            rt,
            alloc,
            home,
            seat,
            Call::HeapOver(memory),
            &mut Unlimited,
            heaps,
        ) {
            Outcome::Granted(Grant::HeapOver(heap)) => Ok(heap),
            Outcome::Refused(refusal) => Err(refusal),
            _ => unreachable!(),
        }
    }

    /// Takes such a heap back, which stays in its slot for the next request, and answers the index of its memory, which stays with the
    /// caller. Never refused; takes no memory.
    pub fn deallocate_gc_heap_over<R: Wait>(
        &self,
        rt: &R,
        alloc: Global,
        home: ShardId,
        seat: &mut CallerSeat<PoolSeat<P, H, M>, P, H>,
        heap: HeapLease<H>,
    ) -> MemoryAllocationIndex
        requires pool { IsAllocator M.told self.now }
        requires seat { IsCaller M.told self.now seat.old }
        requires gives { Gives {P = P} {H = H} (about_pool M.told self.now) (grant.HeapOver heap) (view seat.old.seat) }
        ensures seat { IsCaller M.told self.now seat.new }
        ensures stripe { seat.new.frame.stripe ≡ seat.old.frame.stripe }
        ensures returned { IsGivenBack {P = P} {H = H} (about_pool M.told self.now) (grant.HeapOver heap) (view seat.old.seat) (view seat.new.seat) }
        ensures memory { result.0 ≡ memory_noted heap }
    {
        let memory = heap.memory();
        self.call(
            rt,
            alloc,
            home,
            seat,
            Call::GiveBack(Grant::HeapOver(heap)),
            &mut Unlimited,
            &mut NoHeaps::new(),
        );
        memory
    }

    /// Takes all slots that nobody uses and that the module's memories were in last, and forgets what they hold of it. Answers how many.
    /// Takes no memory.
    pub fn purge_module<R: Wait>(
        &self,
        rt: &R,
        alloc: Global,
        home: ShardId,
        seat: &mut CallerSeat<PoolSeat<P, H, M>, P, H>,
        id: CompiledModuleId,
    ) -> u64
        requires pool { IsAllocator M.told self.now }
        requires seat { IsCaller M.told self.now seat.old }
        ensures seat { IsCaller M.told self.now seat.new }
        ensures kept { IsKept (view seat.old.seat) (view seat.new.seat) }
        ensures stripe { seat.new.frame.stripe ≡ seat.old.frame.stripe }
        ensures bounds { IsBounded self.now.pool.plan purges asked.Nothing (view seat.old.seat) (view seat.new.seat) }
        ensures missed { HasMissed (view seat.old.seat) (view seat.new.seat) self.now.pool.plan self.now.pool.settings.max_memories_per_module result }
        ensures unknown { UnknownCaused (view seat.old.seat) (view seat.new.seat) self.now.pool.plan }
    {
        match self.call(
            rt,
            alloc,
            home,
            seat,
            Call::Purge(id),
            &mut Unlimited,
            &mut NoHeaps::new(),
        ) {
            Outcome::Purged(slots) => slots,
            _ => unreachable!(),
        }
    }

    /// Gives the memory back that the warm slots of memories keep resident, and answers how many bytes that were. They stay warm, and keep
    /// nothing. Takes memory for a list of them before it takes one; refused with `Memory` alone.
    pub fn release_resident_unused_memory<R: Wait>(
        &self,
        rt: &R,
        alloc: Global,
        home: ShardId,
        seat: &mut CallerSeat<PoolSeat<P, H, M>, P, H>,
    ) -> Result<u64, AllocError>
        requires pool { IsAllocator M.told self.now }
        requires seat { IsCaller M.told self.now seat.old }
        ensures seat { IsCaller M.told self.now seat.new }
        ensures kept { IsKept (view seat.old.seat) (view seat.new.seat) }
        ensures stripe { seat.new.frame.stripe ≡ seat.old.frame.stripe }
        ensures reason { IfErr result (λ e. e ≡ refusal.Memory) }
        ensures bounds { IsBounded self.now.pool.plan releases asked.Nothing (view seat.old.seat) (view seat.new.seat) }
        ensures taken { IfOk result (λ bytes. HasTakenWarm (view seat.old.seat) (view seat.new.seat) self.now.pool.plan) }
        ensures unknown { IfErr result (λ e. UnknownCaused (view seat.old.seat) (view seat.new.seat) self.now.pool.plan) }
    {
        match self.call(
            rt,
            alloc,
            home,
            seat,
            Call::Release,
            &mut Unlimited,
            &mut NoHeaps::new(),
        ) {
            Outcome::Released(bytes) => Ok(bytes),
            Outcome::Refused(refusal) => Err(refusal),
            _ => unreachable!(),
        }
    }

    /// The stripe for the seat's next memories, one after the other for all callers; None, and nothing is done, where there are no protection
    /// keys. The seat keeps the stripe until it asks for another one. Takes no memory.
    pub fn next_available_pkey<R: Wait>(
        &self,
        rt: &R,
        alloc: Global,
        home: ShardId,
        seat: &mut CallerSeat<PoolSeat<P, H, M>, P, H>,
    ) -> Option<u32>
        requires pool { IsAllocator M.told self.now }
        requires seat { IsCaller M.told self.now seat.old }
        ensures seat { IsCaller M.told self.now seat.new }
        ensures kept { IsKept (view seat.old.seat) (view seat.new.seat) }
        ensures stripe { IfSome result (λ stripe. (stripe < self.now.pool.settings.num_stripes) × (stripe ≡ seat.new.frame.stripe)) }
        ensures bounds { IsBounded self.now.pool.plan draws_key asked.Nothing (view seat.old.seat) (view seat.new.seat) }
        ensures some { is_some result ≡ self.now.has_keys }
        ensures unknown { UnknownCaused (view seat.old.seat) (view seat.new.seat) self.now.pool.plan }
    {
        if !self.has_keys {
            return None;
        }
        self.call(
            rt,
            alloc,
            home,
            seat,
            Call::Key,
            &mut Unlimited,
            &mut NoHeaps::new(),
        );
        Some(seat.frame.stripe)
    }

    /// Puts the seat into this stripe, in which the memories of its next calls lie. A stripe is asked for by `next_available_pkey`, and may be
    /// used by any seat.
    pub fn set_stripe(&self, seat: &mut CallerSeat<PoolSeat<P, H, M>, P, H>, stripe: u32)
        requires pool { IsAllocator M.told self.now }
        requires seat { IsCaller M.told self.now seat.old }
        requires stripe { stripe < self.now.pool.settings.num_stripes }
        ensures seat { IsCaller M.told self.now seat.new }
        ensures same { seat.new ≡ record seat.old { frame = record seat.old.frame { stripe = stripe } } }
    {
        seat.frame.stripe = stripe;
    }
}
