//! The pool of memories: what an allocator does for memories alone.
ghost use Rattle.std.specs.Prelude.{◌≡◌, ◌<◌, ◌≤◌, ◌%◌, ◌^◌, ◌==◌, is_some, map, None, IfOk, IfErr, IfSome};
ghost use Rattle.pool_types.specs.MemoryTypes.{minimum_byte_size};
ghost use Rattle.pool_hall.specs.Seat.{view};
ghost use Rattle.pool_hall.specs.Tally.{all_portions};
ghost use Rattle.pool_hall.specs.declared.unit_name.SlotKind.TheVariants as kind;
ghost use Rattle.pool_images.specs.Slots.{FitsInto};
ghost use Rattle.pool_slots.specs.Slabs.{IsLayout};
ghost use Rattle.pool_alloc.specs.CanStep.{CanValidate};
ghost use Rattle.pool_alloc.specs.Places.{counted_object};
ghost use Rattle.pool_alloc.specs.Refusals.{memories_refused, type_refused};
ghost use Rattle.pool_alloc.specs.declared.frame.Asked.TheVariants as asked;
ghost use Rattle.pool_alloc.specs.declared.frame.Call.TheVariants as call;
ghost use Rattle.pool_alloc.specs.declared.frame.Grant.TheVariants as grant;
ghost use Rattle.pool_slots.specs.declared.errors.AllocError.TheVariants as refusal;
ghost use Rattle.pool_driver.specs.Asking.{CallAsks, HasAsked};
ghost use Rattle.pool_driver.specs.Calling.{draws_key, purges, releases};
ghost use Rattle.pool_driver.specs.Looking.{HasLooked, slots_of_kind};
ghost use Rattle.pool_driver.specs.Purging.{HasMissed};
ghost use Rattle.pool_driver.specs.Refusing.{FailsMemory};
ghost use Rattle.pool_driver.specs.Releasing.{HasTakenWarm};
ghost use Rattle.pool_driver.specs.UnknownPuts.{UnknownCaused};
ghost use Rattle.pool_callers.specs.Callers.{Gives, IsAllocator, IsBounded, IsCaller, IsGivenBack, IsGranted, IsKept, IsRefused, about_pool, left_counted, outcome_of};
ghost use Rattle.pool_callers.specs.GivingMany.{AreGivenBack, GivesAll};
ghost use Rattle.pool_callers.specs.NoHeapsTold.{nobody_told};
ghost use Rattle.pool_callers.specs.Rules.{unless_broken};
ghost use Rattle.pool_callers.specs.WarmTold.{AreResident, AreWarm};

use crate::allocator::PoolingInstanceAllocator;
use crate::metrics::PoolingAllocatorMetrics;
use crate::rules::unless_broken;
use crate::seat::CallerSeat;
use pool_alloc::{MemoryCall, MemoryLease, memories_refused, type_refused};
use pool_driver::{PoolHall, PoolSeat};
use pool_index::ShardId;
use pool_limits::ResourceLimiter;
use pool_pages::{PageMaker, Pages};
use pool_slots::{AllocError, GcHeap, SlabLayout};
use pool_types::{CompiledModuleId, HostAlignedByteCount, MemoryType, ModuleInfo, Unsupported};
use std::alloc::Global;
use std::sync::Wait;

/// The memories of an allocator (Wasmtime's `memory_pool.rs`). It borrows the allocator, and has no state of its own: what it grants and
/// takes back is the allocator's, and may be given back by either.
#[derive(Drop)]
pub struct MemoryPool<'a, P: Pages, H: GcHeap, M: PageMaker> {
    allocator: &'a PoolingInstanceAllocator<PoolHall<P, H, M>, P, H>,
}

impl<'a, P: Pages, H: GcHeap, M: PageMaker> MemoryPool<'a, P, H, M> {
    pub fn new(allocator: &'a PoolingInstanceAllocator<PoolHall<P, H, M>, P, H>) -> Self
        ensures { result.allocator.now ≡ allocator.now }
    {
        MemoryPool { allocator }
    }

    /// Where the memory slots of a pool with these settings lie in one slab.
    pub fn layout(&self) -> SlabLayout
        requires pool { IsAllocator M.told self.now.allocator.now }
        ensures value { result ≡ self.now.allocator.now.layout }
        ensures sound { IsLayout result }
        ensures stripes { result.num_stripes ≡ self.now.allocator.now.pool.settings.num_stripes }
    {
        self.allocator.layout
    }

    /// How many bytes of a memory a reset keeps resident, in whole pages.
    pub fn keep_resident(&self) -> HostAlignedByteCount
        ensures { result ≡ self.now.allocator.now.pool.settings.keep_resident }
    {
        self.allocator.pool.settings.keep_resident
    }

    /// Tests the memories of a module: first where their images begin, then whether each minimum is within its maximum, how many there are,
    /// and whether each fits a slot and isn't shared. Tells the first rule that is broken.
    pub fn validate_memories(&self, module: &ModuleInfo) -> Result<(), Unsupported>
        requires { CanValidate module.now.memories }
        ensures { result ≡ unless_broken (memories_refused self.now.allocator.now.pool.settings module.now.memories) }
    {
        unless_broken(memories_refused(&self.allocator.pool.settings, module.memories.as_slice()))
    }

    /// Tests the type of a memory: whether its minimum is within its maximum, and whether it fits a slot and isn't shared.
    pub fn validate_memory(&self, ty: &MemoryType) -> Result<(), Unsupported>
        requires { ty.now.page_size_log2 < 64 }
        ensures { result ≡ unless_broken (type_refused self.now.allocator.now.pool.settings ty.now) }
    {
        unless_broken(type_refused(&self.allocator.pool.settings, ty))
    }

    /// Whether no memory is granted, as the counter says that all callers count on. Slots that wait in a queue, or that a call under way has
    /// picked, don't count.
    pub fn is_empty(&self, seat: &mut CallerSeat<PoolSeat<P, H, M>, P, H>) -> bool
        requires pool { IsAllocator M.told self.now.allocator.now }
        requires seat { IsCaller M.told self.now.allocator.now seat.old }
        ensures seat { IsCaller M.told self.now.allocator.now seat.new }
        ensures frame { seat.new.frame ≡ seat.old.frame }
        ensures view { view seat.new.seat ≡ view seat.old.seat }
        ensures exact { (view seat.old.seat).portions ≡ all_portions → result ≡ (left_counted (view seat.old.seat) (counted_object kind.Memory) % 2 ^ 64 == 0) }
    {
        PoolingAllocatorMetrics::new(self.allocator).memories(seat) == 0
    }

    /// As `PoolingInstanceAllocator::allocate_memory`.
    pub fn allocate<R: Wait, L: ResourceLimiter>(
        &self,
        rt: &R,
        alloc: Global,
        home: ShardId,
        seat: &mut CallerSeat<PoolSeat<P, H, M>, P, H>,
        request: MemoryCall,
        limiter: &mut L,
    ) -> Result<MemoryLease<P>, AllocError>
        requires pool { IsAllocator M.told self.now.allocator.now }
        requires seat { IsCaller M.told self.now.allocator.now seat.old }
        requires page { request.ty.page_size_log2 < 64 }
        requires passes { type_refused self.now.allocator.now.pool.settings request.ty ≡ None }
        requires image { IfSome request.image (FitsInto self.now.allocator.now.pool.settings.page (minimum_byte_size request.ty)) }
        ensures seat { IsCaller M.told self.now.allocator.now seat.new }
        ensures stripe { seat.new.frame.stripe ≡ seat.old.frame.stripe }
        ensures granted { IfOk result (λ lease. IsGranted {P = P} {H = H} (about_pool M.told self.now.allocator.now) (asked.Memory request) (grant.Memory lease) (view seat.old.seat) (view seat.new.seat)) }
        ensures refused { IfErr result (λ e. IsRefused (about_pool M.told self.now.allocator.now) home.0 seat.old.frame.stripe (asked.Memory request) e (view seat.old.seat) (view seat.new.seat)) }
        ensures reason { IfErr result FailsMemory }
        ensures asked { HasAsked L.leads ⊥ ⊥ (CallAsks {P = P} {H = H} (call.Memory request) (outcome_of grant.Memory result)) limiter.old limiter.new (record { limiter = L.told limiter.old; heaps = nobody_told }) (record { limiter = L.told limiter.new; heaps = nobody_told }) (outcome_of {P = P} {H = H} grant.Memory result) }
    {
        self.allocator
            .allocate_memory(rt, alloc, home, seat, request, limiter)
    }

    /// As `PoolingInstanceAllocator::deallocate_memory`.
    pub fn deallocate<R: Wait>(
        &self,
        rt: &R,
        alloc: Global,
        home: ShardId,
        seat: &mut CallerSeat<PoolSeat<P, H, M>, P, H>,
        memory: MemoryLease<P>,
    )
        requires pool { IsAllocator M.told self.now.allocator.now }
        requires seat { IsCaller M.told self.now.allocator.now seat.old }
        requires gives { Gives {P = P} {H = H} (about_pool M.told self.now.allocator.now) (grant.Memory memory) (view seat.old.seat) }
        ensures seat { IsCaller M.told self.now.allocator.now seat.new }
        ensures stripe { seat.new.frame.stripe ≡ seat.old.frame.stripe }
        ensures returned { IsGivenBack {P = P} {H = H} (about_pool M.told self.now.allocator.now) (grant.Memory memory) (view seat.old.seat) (view seat.new.seat) }
    {
        self.allocator
            .deallocate_memory(rt, alloc, home, seat, memory);
    }

    /// Takes memories back, one after the other, in their order. Never refused; takes no memory.
    pub fn deallocate_many<R: Wait>(
        &self,
        rt: &R,
        alloc: Global,
        home: ShardId,
        seat: &mut CallerSeat<PoolSeat<P, H, M>, P, H>,
        memories: Vec<MemoryLease<P>>,
    )
        requires pool { IsAllocator M.told self.now.allocator.now }
        requires seat { IsCaller M.told self.now.allocator.now seat.old }
        requires gives { GivesAll {P = P} {H = H} (about_pool M.told self.now.allocator.now) (map grant.Memory memories.items) (view seat.old.seat) }
        ensures seat { IsCaller M.told self.now.allocator.now seat.new }
        ensures stripe { seat.new.frame.stripe ≡ seat.old.frame.stripe }
        ensures returned { AreGivenBack {P = P} {H = H} (about_pool M.told self.now.allocator.now) (map grant.Memory memories.items) (view seat.old.seat) (view seat.new.seat) }
    {
        for memory in memories {
            self.allocator
                .deallocate_memory(rt, alloc, home, seat, memory);
        }
    }

    /// As `PoolingInstanceAllocator::purge_module`.
    pub fn purge_module<R: Wait>(
        &self,
        rt: &R,
        alloc: Global,
        home: ShardId,
        seat: &mut CallerSeat<PoolSeat<P, H, M>, P, H>,
        id: CompiledModuleId,
    ) -> u64
        requires pool { IsAllocator M.told self.now.allocator.now }
        requires seat { IsCaller M.told self.now.allocator.now seat.old }
        ensures seat { IsCaller M.told self.now.allocator.now seat.new }
        ensures kept { IsKept (view seat.old.seat) (view seat.new.seat) }
        ensures stripe { seat.new.frame.stripe ≡ seat.old.frame.stripe }
        ensures bounds { IsBounded self.now.allocator.now.pool.plan purges asked.Nothing (view seat.old.seat) (view seat.new.seat) }
        ensures missed { HasMissed (view seat.old.seat) (view seat.new.seat) self.now.allocator.now.pool.plan self.now.allocator.now.pool.settings.max_memories_per_module result }
        ensures unknown { UnknownCaused (view seat.old.seat) (view seat.new.seat) self.now.allocator.now.pool.plan }
    {
        self.allocator.purge_module(rt, alloc, home, seat, id)
    }

    /// As `PoolingInstanceAllocator::release_resident_unused_memory`.
    pub fn release_resident_unused_memory<R: Wait>(
        &self,
        rt: &R,
        alloc: Global,
        home: ShardId,
        seat: &mut CallerSeat<PoolSeat<P, H, M>, P, H>,
    ) -> Result<u64, AllocError>
        requires pool { IsAllocator M.told self.now.allocator.now }
        requires seat { IsCaller M.told self.now.allocator.now seat.old }
        ensures seat { IsCaller M.told self.now.allocator.now seat.new }
        ensures kept { IsKept (view seat.old.seat) (view seat.new.seat) }
        ensures stripe { seat.new.frame.stripe ≡ seat.old.frame.stripe }
        ensures reason { IfErr result (λ e. e ≡ refusal.Memory) }
        ensures bounds { IsBounded self.now.allocator.now.pool.plan releases asked.Nothing (view seat.old.seat) (view seat.new.seat) }
        ensures taken { IfOk result (λ bytes. HasTakenWarm (view seat.old.seat) (view seat.new.seat) self.now.allocator.now.pool.plan) }
        ensures unknown { IfErr result (λ e. UnknownCaused (view seat.old.seat) (view seat.new.seat) self.now.allocator.now.pool.plan) }
    {
        self.allocator
            .release_resident_unused_memory(rt, alloc, home, seat)
    }

    /// As `PoolingInstanceAllocator::next_available_pkey`.
    pub fn next_available_pkey<R: Wait>(
        &self,
        rt: &R,
        alloc: Global,
        home: ShardId,
        seat: &mut CallerSeat<PoolSeat<P, H, M>, P, H>,
    ) -> Option<u32>
        requires pool { IsAllocator M.told self.now.allocator.now }
        requires seat { IsCaller M.told self.now.allocator.now seat.old }
        ensures seat { IsCaller M.told self.now.allocator.now seat.new }
        ensures kept { IsKept (view seat.old.seat) (view seat.new.seat) }
        ensures stripe { IfSome result (λ stripe. (stripe < self.now.allocator.now.pool.settings.num_stripes) × (stripe ≡ seat.new.frame.stripe)) }
        ensures bounds { IsBounded self.now.allocator.now.pool.plan draws_key asked.Nothing (view seat.old.seat) (view seat.new.seat) }
        ensures some { is_some result ≡ self.now.allocator.now.has_keys }
        ensures unknown { UnknownCaused (view seat.old.seat) (view seat.new.seat) self.now.allocator.now.pool.plan }
    {
        self.allocator.next_available_pkey(rt, alloc, home, seat)
    }

    /// As `PoolingAllocatorMetrics::unused_warm_memories`.
    pub fn unused_warm_slots<R: Wait>(
        &self,
        rt: &R,
        seat: &mut CallerSeat<PoolSeat<P, H, M>, P, H>,
    ) -> u32
        requires pool { IsAllocator M.told self.now.allocator.now }
        requires seat { IsCaller M.told self.now.allocator.now seat.old }
        ensures seat { IsCaller M.told self.now.allocator.now seat.new }
        ensures frame { seat.new.frame ≡ seat.old.frame }
        ensures looked { HasLooked (view seat.old.seat) (view seat.new.seat) }
        ensures kept { IsKept (view seat.old.seat) (view seat.new.seat) }
        ensures most { result ≤ slots_of_kind self.now.allocator.now.pool.plan kind.Memory }
        ensures warm { AreWarm M.told self.now.allocator.now (view seat.old.seat) kind.Memory result }
    {
        PoolingAllocatorMetrics::new(self.allocator).unused_warm_memories(rt, seat)
    }

    /// As `PoolingAllocatorMetrics::unused_memory_bytes_resident`.
    pub fn unused_bytes_resident<R: Wait>(
        &self,
        rt: &R,
        seat: &mut CallerSeat<PoolSeat<P, H, M>, P, H>,
    ) -> usize
        requires pool { IsAllocator M.told self.now.allocator.now }
        requires seat { IsCaller M.told self.now.allocator.now seat.old }
        ensures seat { IsCaller M.told self.now.allocator.now seat.new }
        ensures frame { seat.new.frame ≡ seat.old.frame }
        ensures looked { HasLooked (view seat.old.seat) (view seat.new.seat) }
        ensures kept { IsKept (view seat.old.seat) (view seat.new.seat) }
        ensures warm { AreResident M.told self.now.allocator.now (view seat.old.seat) kind.Memory result }
    {
        PoolingAllocatorMetrics::new(self.allocator).unused_memory_bytes_resident(rt, seat)
    }
}
