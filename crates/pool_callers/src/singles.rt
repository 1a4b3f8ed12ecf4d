//! Requests for one memory or one table by itself.
ghost use Rattle.std.specs.Prelude.{◌≡◌, ◌<◌, None, IfOk, IfErr, IfSome};
ghost use Rattle.pool_hall.specs.Seat.{view};
ghost use Rattle.pool_types.specs.MemoryTypes.{minimum_byte_size, refused_limits};
ghost use Rattle.pool_images.specs.Slots.{FitsInto};
ghost use Rattle.pool_alloc.specs.Refusals.{type_refused};
ghost use Rattle.pool_alloc.specs.declared.frame.Asked.TheVariants as asked;
ghost use Rattle.pool_alloc.specs.declared.frame.Grant.TheVariants as grant;
ghost use Rattle.pool_alloc.specs.declared.frame.Call.TheVariants as call;
ghost use Rattle.pool_driver.specs.Asking.{CallAsks, HasAsked};
ghost use Rattle.pool_driver.specs.Refusing.{FailsMemory, FailsTable};
ghost use Rattle.pool_callers.specs.NoHeapsTold.{nobody_told};
ghost use Rattle.pool_callers.specs.Callers.{Gives, IsAllocator, IsCaller, IsGivenBack, IsGranted, IsRefused, about_pool, outcome_of};

use crate::allocator::PoolingInstanceAllocator;
use crate::calls::NoHeaps;
use crate::seat::CallerSeat;
use pool_alloc::{Call, Grant, MemoryCall, MemoryLease, Outcome, TableLease};
use pool_driver::{PoolHall, PoolSeat};
use pool_index::ShardId;
use pool_limits::{ResourceLimiter, Unlimited};
use pool_pages::{PageMaker, Pages};
use pool_slots::{AllocError, GcHeap};
use pool_types::TableType;
use std::alloc::Global;
use std::sync::Wait;

impl<P: Pages, H: GcHeap, M: PageMaker> PoolingInstanceAllocator<PoolHall<P, H, M>, P, H> {
    /// A memory by itself, of a type that passes `validate_memory`. It begins with its image, where it has one, which ends within its
    /// minimum, and is zeros otherwise. The limiter is asked of it. No instance is counted. Takes no memory.
    pub fn allocate_memory<R: Wait, L: ResourceLimiter>(
        &self,
        rt: &R,
        alloc: Global,
        home: ShardId,
        seat: &mut CallerSeat<PoolSeat<P, H, M>, P, H>,
        request: MemoryCall,
        limiter: &mut L,
    ) -> Result<MemoryLease<P>, AllocError>
        requires pool { IsAllocator M.told self.now }
        requires seat { IsCaller M.told self.now seat.old }
        requires page { request.ty.page_size_log2 < 64 }
        requires passes { type_refused self.now.pool.settings request.ty ≡ None }
        requires image { IfSome request.image (FitsInto self.now.pool.settings.page (minimum_byte_size request.ty)) }
        ensures seat { IsCaller M.told self.now seat.new }
        ensures stripe { seat.new.frame.stripe ≡ seat.old.frame.stripe }
        ensures granted { IfOk result (λ lease. IsGranted {P = P} {H = H} (about_pool M.told self.now) (asked.Memory request) (grant.Memory lease) (view seat.old.seat) (view seat.new.seat)) }
        ensures refused { IfErr result (λ e. IsRefused (about_pool M.told self.now) home.0 seat.old.frame.stripe (asked.Memory request) e (view seat.old.seat) (view seat.new.seat)) }
        ensures reason { IfErr result FailsMemory }
        ensures asked { HasAsked L.leads ⊥ ⊥ (CallAsks {P = P} {H = H} (call.Memory request) (outcome_of grant.Memory result)) limiter.old limiter.new (record { limiter = L.told limiter.old; heaps = nobody_told }) (record { limiter = L.told limiter.new; heaps = nobody_told }) (outcome_of {P = P} {H = H} grant.Memory result) }
    {
        match self.call(
            rt,
            alloc,
            home,
            seat,
            Call::Memory(request),
            limiter,
            &mut NoHeaps::new(),
        ) {
            Outcome::Granted(Grant::Memory(lease)) => Ok(lease),
            Outcome::Refused(refusal) => Err(refusal),
            _ => unreachable!(),
        }
    }

    /// Takes a memory back. What its reset leaves to be decommitted lies in the home queue until that is flushed. Never refused; takes no
    /// memory.
    pub fn deallocate_memory<R: Wait>(
        &self,
        rt: &R,
        alloc: Global,
        home: ShardId,
        seat: &mut CallerSeat<PoolSeat<P, H, M>, P, H>,
        memory: MemoryLease<P>,
    )
        requires pool { IsAllocator M.told self.now }
        requires seat { IsCaller M.told self.now seat.old }
        requires gives { Gives {P = P} {H = H} (about_pool M.told self.now) (grant.Memory memory) (view seat.old.seat) }
        ensures seat { IsCaller M.told self.now seat.new }
        ensures stripe { seat.new.frame.stripe ≡ seat.old.frame.stripe }
        ensures returned { IsGivenBack {P = P} {H = H} (about_pool M.told self.now) (grant.Memory memory) (view seat.old.seat) (view seat.new.seat) }
    {
        self.call(
            rt,
            alloc,
            home,
            seat,
            Call::GiveBack(Grant::Memory(memory)),
            &mut Unlimited,
            &mut NoHeaps::new(),
        );
    }

    /// A table by itself, of a type that may begin with its minimum; all its elements are empty. The limiter is asked of it. Refused with
    /// `Unsupported` where the pool's tables are shorter. Takes no memory.
    pub fn allocate_table<R: Wait, L: ResourceLimiter>(
        &self,
        rt: &R,
        alloc: Global,
        home: ShardId,
        seat: &mut CallerSeat<PoolSeat<P, H, M>, P, H>,
        ty: TableType,
        limiter: &mut L,
    ) -> Result<TableLease<P>, AllocError>
        requires pool { IsAllocator M.told self.now }
        requires seat { IsCaller M.told self.now seat.old }
        requires limits { refused_limits ty.limits ≡ None }
        ensures seat { IsCaller M.told self.now seat.new }
        ensures stripe { seat.new.frame.stripe ≡ seat.old.frame.stripe }
        ensures granted { IfOk result (λ lease. IsGranted {P = P} {H = H} (about_pool M.told self.now) (asked.Table ty) (grant.Table lease) (view seat.old.seat) (view seat.new.seat)) }
        ensures refused { IfErr result (λ e. IsRefused (about_pool M.told self.now) home.0 seat.old.frame.stripe (asked.Table ty) e (view seat.old.seat) (view seat.new.seat)) }
        ensures reason { IfErr result FailsTable }
        ensures asked { HasAsked L.leads ⊥ ⊥ (CallAsks {P = P} {H = H} (call.Table ty) (outcome_of grant.Table result)) limiter.old limiter.new (record { limiter = L.told limiter.old; heaps = nobody_told }) (record { limiter = L.told limiter.new; heaps = nobody_told }) (outcome_of {P = P} {H = H} grant.Table result) }
    {
        match self.call(
            rt,
            alloc,
            home,
            seat,
            Call::Table(ty),
            limiter,
            &mut NoHeaps::new(),
        ) {
            Outcome::Granted(Grant::Table(lease)) => Ok(lease),
            Outcome::Refused(refusal) => Err(refusal),
            _ => unreachable!(),
        }
    }

    /// Takes a table back, whose elements it empties. Never refused; takes no memory.
    pub fn deallocate_table<R: Wait>(
        &self,
        rt: &R,
        alloc: Global,
        home: ShardId,
        seat: &mut CallerSeat<PoolSeat<P, H, M>, P, H>,
        table: TableLease<P>,
    )
        requires pool { IsAllocator M.told self.now }
        requires seat { IsCaller M.told self.now seat.old }
        requires gives { Gives {P = P} {H = H} (about_pool M.told self.now) (grant.Table table) (view seat.old.seat) }
        ensures seat { IsCaller M.told self.now seat.new }
        ensures stripe { seat.new.frame.stripe ≡ seat.old.frame.stripe }
        ensures returned { IsGivenBack {P = P} {H = H} (about_pool M.told self.now) (grant.Table table) (view seat.old.seat) (view seat.new.seat) }
    {
        self.call(
            rt,
            alloc,
            home,
            seat,
            Call::GiveBack(Grant::Table(table)),
            &mut Unlimited,
            &mut NoHeaps::new(),
        );
    }
}
