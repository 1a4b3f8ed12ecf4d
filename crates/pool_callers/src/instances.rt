//! Requests for instances of modules.
ghost use Rattle.std.specs.Prelude.{◌≡◌, None, IfOk, IfErr, IfSome};
ghost use Rattle.pool_hall.specs.Seat.{view};
ghost use Rattle.pool_alloc.specs.Requests.{AreImagesOf, IsModule};
ghost use Rattle.pool_alloc.specs.declared.frame.Asked.TheVariants as asked;
ghost use Rattle.pool_alloc.specs.declared.frame.Grant.TheVariants as grant;
ghost use Rattle.pool_alloc.specs.Refusals.{module_refused};
ghost use Rattle.pool_alloc.specs.declared.frame.Call.TheVariants as call;
ghost use Rattle.pool_driver.specs.Asking.{CallAsks, HasAsked};
ghost use Rattle.pool_driver.specs.Refusing.{ModuleRefused};
ghost use Rattle.pool_callers.specs.NoHeapsTold.{nobody_told};
ghost use Rattle.pool_callers.specs.Callers.{Gives, IsAllocator, IsCaller, IsGivenBack, IsGranted, IsRefused, about_pool, outcome_of};

use crate::allocator::PoolingInstanceAllocator;
use crate::calls::NoHeaps;
use crate::seat::CallerSeat;
use pool_alloc::{Call, Grant, InstanceLease, ModuleCall, Outcome};
use pool_driver::{PoolHall, PoolSeat};
use pool_index::ShardId;
use pool_limits::{ResourceLimiter, Unlimited};
use pool_pages::{PageMaker, Pages};
use pool_slots::{AllocError, GcHeap};
use std::alloc::Global;
use std::sync::Wait;

impl<P: Pages, H: GcHeap, M: PageMaker> PoolingInstanceAllocator<PoolHall<P, H, M>, P, H> {
    /// An instance of a module: tests the module, counts the instance, and then allocates its memories in order and its tables in order, of
    /// each of which the limiter is asked. On a refusal it gives all back, the memories and then the tables, and counts down. The images,
    /// where they are given, are those of the module at the page of the pool's regions. It may wait for other callers, each time while they
    /// hold one part; the limiter is asked while no part is held. Takes memory for the lists of the lease, and for nothing else.
    pub fn allocate_module<R: Wait, L: ResourceLimiter>(
        &self,
        rt: &R,
        alloc: Global,
        home: ShardId,
        seat: &mut CallerSeat<PoolSeat<P, H, M>, P, H>,
        request: ModuleCall,
        limiter: &mut L,
    ) -> Result<InstanceLease<P>, AllocError>
        requires pool { IsAllocator M.told self.now }
        requires seat { IsCaller M.told self.now seat.old }
        requires request { IsModule request.info }
        requires images { IfSome request.images (AreImagesOf self.now.pool.settings.page request.info) }
        ensures seat { IsCaller M.told self.now seat.new }
        ensures stripe { seat.new.frame.stripe ≡ seat.old.frame.stripe }
        ensures granted { IfOk result (λ lease. IsGranted {P = P} {H = H} (about_pool M.told self.now) (asked.Module request) (grant.Instance lease) (view seat.old.seat) (view seat.new.seat)) }
        ensures refused { IfErr result (λ e. IsRefused (about_pool M.told self.now) home.0 seat.old.frame.stripe (asked.Module request) e (view seat.old.seat) (view seat.new.seat)) }
        ensures tested { IfOk result (λ lease. module_refused self.now.pool.settings self.now.pool.plan.totals.table request.info ≡ None) }
        ensures reason { IfErr result (ModuleRefused self.now.pool.settings self.now.pool.plan request.info) }
        ensures asked { HasAsked L.leads ⊥ ⊥ (CallAsks {P = P} {H = H} (call.Module request) (outcome_of grant.Instance result)) limiter.old limiter.new (record { limiter = L.told limiter.old; heaps = nobody_told }) (record { limiter = L.told limiter.new; heaps = nobody_told }) (outcome_of {P = P} {H = H} grant.Instance result) }
    {
        match self.call(
            rt,
            alloc,
            home,
            seat,
            Call::Module(request),
            limiter,
            &mut NoHeaps::new(),
        ) {
            Outcome::Granted(Grant::Instance(lease)) => Ok(lease),
            Outcome::Refused(refusal) => Err(refusal),
            _ => unreachable!(),
        }
    }

    /// Takes an instance back: its memories and its tables in order, and then it counts the instance down. What a reset leaves to be
    /// decommitted lies in the home queue until that is flushed. Never refused; takes no memory.
    pub fn deallocate_module<R: Wait>(
        &self,
        rt: &R,
        alloc: Global,
        home: ShardId,
        seat: &mut CallerSeat<PoolSeat<P, H, M>, P, H>,
        instance: InstanceLease<P>,
    )
        requires pool { IsAllocator M.told self.now }
        requires seat { IsCaller M.told self.now seat.old }
        requires gives { Gives {P = P} {H = H} (about_pool M.told self.now) (grant.Instance instance) (view seat.old.seat) }
        ensures seat { IsCaller M.told self.now seat.new }
        ensures stripe { seat.new.frame.stripe ≡ seat.old.frame.stripe }
        ensures returned { IsGivenBack {P = P} {H = H} (about_pool M.told self.now) (grant.Instance instance) (view seat.old.seat) (view seat.new.seat) }
    {
        self.call(
            rt,
            alloc,
            home,
            seat,
            Call::GiveBack(Grant::Instance(instance)),
            &mut Unlimited,
            &mut NoHeaps::new(),
        );
    }
}
