//! Requests for the stacks of fibers.
ghost use Rattle.std.specs.Prelude.{◌≡◌, ◌<◌, IfOk, IfErr};
ghost use Rattle.pool_hall.specs.Seat.{view};
ghost use Rattle.pool_alloc.specs.declared.frame.Asked.TheVariants as asked;
ghost use Rattle.pool_alloc.specs.declared.frame.Grant.TheVariants as grant;
ghost use Rattle.pool_driver.specs.Refusing.{StackRefused};
ghost use Rattle.pool_driver.specs.Spending.{ColdWithin};
ghost use Rattle.pool_callers.specs.Callers.{Gives, IsAllocator, IsCaller, IsGivenBack, IsGranted, IsRefused, about_pool};

use crate::allocator::PoolingInstanceAllocator;
use crate::calls::NoHeaps;
use crate::seat::CallerSeat;
use pool_alloc::{Call, Grant, Outcome, StackLease};
use pool_driver::{PoolHall, PoolSeat};
use pool_index::ShardId;
use pool_limits::Unlimited;
use pool_pages::{PageMaker, Pages};
use pool_slots::{AllocError, GcHeap};
use std::alloc::Global;
use std::sync::Wait;

impl<P: Pages, H: GcHeap, M: PageMaker> PoolingInstanceAllocator<PoolHall<P, H, M>, P, H> {
    /// A stack, all of whose usable bytes are zero where stacks are zeroed. The search begins at the home shard. It may wait for other
    /// callers, each time while they hold one part. Refused with `StacksDisabled` where the size of stacks is 0, or for want of room. Takes
    /// no memory.
    pub fn allocate_fiber_stack<R: Wait>(
        &self,
        rt: &R,
        alloc: Global,
        home: ShardId,
        seat: &mut CallerSeat<PoolSeat<P, H, M>, P, H>,
    ) -> Result<StackLease<P>, AllocError>
        requires pool { IsAllocator M.told self.now }
        requires seat { IsCaller M.told self.now seat.old }
        ensures seat { IsCaller M.told self.now seat.new }
        ensures stripe { seat.new.frame.stripe ≡ seat.old.frame.stripe }
        ensures granted { IfOk result (λ lease. IsGranted {P = P} {H = H} (about_pool M.told self.now) asked.Stack (grant.Stack lease) (view seat.old.seat) (view seat.new.seat)) }
        ensures refused { IfErr result (λ e. IsRefused (about_pool M.told self.now) home.0 seat.old.frame.stripe asked.Stack e (view seat.old.seat) (view seat.new.seat)) }
        ensures enabled { IfOk result (λ lease. 0 < self.now.pool.settings.stack_size) }
        ensures reason { IfErr result (StackRefused self.now.pool.settings) }
        ensures cold { IfOk result (λ lease. ColdWithin (view seat.old.seat) (view seat.new.seat) self.now.pool.plan 1) }
        ensures none_cold { IfErr result (λ e. ColdWithin (view seat.old.seat) (view seat.new.seat) self.now.pool.plan 0) }
    {
        match self.call(
            rt,
            alloc,
            home,
            seat,
            Call::Stack,
            &mut Unlimited,
            &mut NoHeaps::new(),
        ) {
            Outcome::Granted(Grant::Stack(lease)) => Ok(lease),
            Outcome::Refused(refusal) => Err(refusal),
            _ => unreachable!(),
        }
    }

    /// Takes a stack back. Zeroes it first, where stacks are zeroed. Never refused; takes no memory.
    pub fn deallocate_fiber_stack<R: Wait>(
        &self,
        rt: &R,
        alloc: Global,
        home: ShardId,
        seat: &mut CallerSeat<PoolSeat<P, H, M>, P, H>,
        stack: StackLease<P>,
    )
        requires pool { IsAllocator M.told self.now }
        requires seat { IsCaller M.told self.now seat.old }
        requires gives { Gives {P = P} {H = H} (about_pool M.told self.now) (grant.Stack stack) (view seat.old.seat) }
        ensures seat { IsCaller M.told self.now seat.new }
        ensures stripe { seat.new.frame.stripe ≡ seat.old.frame.stripe }
        ensures returned { IsGivenBack {P = P} {H = H} (about_pool M.told self.now) (grant.Stack stack) (view seat.old.seat) (view seat.new.seat) }
    {
        self.call(
            rt,
            alloc,
            home,
            seat,
            Call::GiveBack(Grant::Stack(stack)),
            &mut Unlimited,
            &mut NoHeaps::new(),
        );
    }
}
