//! A call in a seat.
ghost use Rattle.std.specs.Prelude.{◌≡◌, length, Some};
ghost use Rattle.pool_hall.specs.Seat.{made_with, view};
ghost use Rattle.pool_alloc.specs.Calls.{MayBegin};
ghost use Rattle.pool_driver.specs.Asking.{CallAsks, CallWants, HasAsked, IfRefused, IsForHeap, IsQuiet};
ghost use Rattle.pool_driver.specs.Calling.{HasEnded, MayAnswer, kind_of};
ghost use Rattle.pool_driver.specs.Driving.{IsDriven};
ghost use Rattle.pool_driver.specs.Refusing.{AnswersCall};
ghost use Rattle.pool_callers.specs.NoHeapsTold.{nobody_told, told_of};
ghost use Rattle.pool_callers.specs.Callers.{IsAllocator, IsCaller, Brings, about_pool, begun_from, given_for};

use crate::allocator::PoolingInstanceAllocator;
use crate::seat::CallerSeat;
use pool_alloc::{Call, Outcome};
use pool_driver::{PoolHall, PoolSeat};
use pool_index::ShardId;
use pool_limits::ResourceLimiter;
use pool_pages::{PageMaker, Pages};
use pool_slots::{GcHeap, HeapMakeFault, HeapMaker};
use std::alloc::Global;
use std::marker::PhantomData;
use std::sync::Wait;

impl<P: Pages, H: GcHeap, M: PageMaker> PoolingInstanceAllocator<PoolHall<P, H, M>, P, H> {
    // Makes a call in a seat, from a home on.
    pub(crate) fn call<R: Wait, L: ResourceLimiter, K: HeapMaker<Heap = H>>(
        &self,
        rt: &R,
        alloc: Global,
        home: ShardId,
        seat: &mut CallerSeat<PoolSeat<P, H, M>, P, H>,
        call: Call<P, H>,
        limiter: &mut L,
        heaps: &mut K,
    ) -> Outcome<P, H>
        requires pool { IsAllocator M.told self.now }
        requires seat { IsCaller M.told self.now seat.old }
        requires begins { MayBegin (about_pool M.told self.now).maker self.now.pool.settings self.now.pool.plan call (record seat.old.frame { home = home.0 }) }
        requires brings { Brings (about_pool M.told self.now) call (view seat.old.seat) }
        ensures seat { IsCaller M.told self.now seat.new }
        ensures driven { IsDriven (length (made_with self.now.pool.hall)) (given_for (about_pool M.told self.now) call (view seat.old.seat)) (view seat.new.seat) seat.new.frame (Some result) }
        ensures ended { HasEnded (about_pool M.told self.now) (view seat.old.seat) (view seat.new.seat) (begun_from home.0 call seat.old.frame) seat.new.frame result }
        ensures kind { MayAnswer (kind_of call) result }
        ensures answers { AnswersCall self.now.pool.settings self.now.pool.plan call result }
        ensures asked { HasAsked L.leads (IsQuiet call) (IsForHeap call) (CallAsks call result) limiter.old limiter.new (record { limiter = L.told limiter.old; heaps = K.told heaps.old }) (record { limiter = L.told limiter.new; heaps = K.told heaps.new }) result }
        ensures wants { IfRefused (CallWants call (K.told heaps.old) (K.told heaps.new)) result }
    {
        seat.frame.home = home.0;
        self.pool.call(
            rt,
            &mut seat.seat,
            alloc,
            &mut seat.frame,
            call,
            limiter,
            heaps,
        )
    }
}

/// A maker of heaps for calls that need none. It makes none: asked for one, it answers want of memory.
#[derive(Drop)]
pub(crate) struct NoHeaps<H> {
    asked: u64,
    heap: PhantomData<H>,
}

impl<H> NoHeaps<H> {
    pub(crate) fn new() -> Self
        ensures { told_of result ≡ nobody_told }
    {
        NoHeaps {
            asked: 0,
            heap: PhantomData,
        }
    }
}

impl<H: GcHeap> HeapMaker for NoHeaps<H> {
    type Heap = H;

    ghost use Rattle.pool_callers.specs.NoHeapsTold.{told_of};

    ghost told = { told_of };

    fn faults(&self) -> u64 {
        0
    }

    fn new_gc_heap(&mut self, _alloc: Global) -> Result<H, HeapMakeFault> {
        self.asked = self.asked.saturating_add(1);
        Err(HeapMakeFault::Memory)
    }
}
