//! Whole calls of a caller, on a pool that many callers share.
ghost use Rattle.std.specs.Prelude.{◌≡◌, length, None, Some};
ghost use Rattle.pool_hall.specs.Seat.{made_with, view, IsSeatOf, IsFree};
ghost use Rattle.pool_alloc.specs.CallStages.{stage_of};
ghost use Rattle.pool_alloc.specs.Calls.{MayBegin, begun_call};
ghost use Rattle.pool_alloc.specs.StepReads.{heaps_wanted};
ghost use Rattle.pool_driver.specs.Asking.{AnsweredAfter, AskedSince, AsksNobody, CallAsks, CallWants, HasAsked, IfRefused, IsForHeap, IsQuiet, WantsOfMaker};
ghost use Rattle.pool_driver.specs.Calling.{GoesOnSince, HasEnded, MayAnswer, asks_for, brought, kind_at, kind_of};
ghost use Rattle.pool_driver.specs.Driving.{Given, IsDriven};
ghost use Rattle.pool_driver.specs.Pools.{IsSharedOf};
ghost use Rattle.pool_driver.specs.Refusing.{AnswersCall};

use crate::part::HallPart;
use crate::shared_pool::{PoolHall, SharedPool};
use pool_alloc::{Call, Frame, Outcome};
use pool_hall::HallSeat;
use pool_limits::ResourceLimiter;
use pool_pages::{PageMaker, Pages};
use pool_slots::{GcHeap, HeapMaker};
use std::alloc::Global;
use std::sync::Wait;

impl<P: Pages, H: GcHeap, M: PageMaker> SharedPool<PoolHall<P, H, M>> {
    /// Makes a call, step by step, and answers its outcome. It may wait for other callers, each time while they hold one part; nothing is
    /// promised of how long that takes. A grant is the caller's until it gives it back, by this seat or by one that it was joined to.
    pub fn call<R: Wait, L: ResourceLimiter, K: HeapMaker<Heap = H>>(
        &self,
        rt: &R,
        seat: &mut HallSeat<HallPart<P, H, M>>,
        alloc: Global,
        frame: &mut Frame<P, H>,
        call: Call<P, H>,
        limiter: &mut L,
        heaps: &mut K,
    ) -> Outcome<P, H>
        ghost given: { Given }
        requires pool { IsSharedOf M.told given.about self.now }
        requires own { IsSeatOf self.now.hall seat.old }
        requires free { IsFree seat.old }
        requires begins { MayBegin given.about.maker given.about.settings given.about.plan call frame.old }
        requires driven { IsDriven (length (made_with self.now.hall)) given (view seat.old) frame.old (brought call) }
        ensures own { IsSeatOf self.now.hall seat.new }
        ensures free { IsFree seat.new }
        ensures driven { IsDriven (length (made_with self.now.hall)) given (view seat.new) frame.new (Some result) }
        ensures ended { HasEnded given.about (view seat.old) (view seat.new) (begun_call call frame.old) frame.new result }
        ensures kind { MayAnswer (kind_of call) result }
        ensures answers { AnswersCall given.about.settings given.about.plan call result }
        ensures asked { HasAsked L.leads (IsQuiet call) (IsForHeap call) (CallAsks call result) limiter.old limiter.new (record { limiter = L.told limiter.old; heaps = K.told heaps.old }) (record { limiter = L.told limiter.new; heaps = K.told heaps.new }) result }
        ensures wants { IfRefused (CallWants call (K.told heaps.old) (K.told heaps.new)) result }
    {
        frame.begin(call);
        self.run(rt, seat, alloc, frame, limiter, heaps)
    }

    // Makes the steps of a call that has begun.
    fn run<R: Wait, L: ResourceLimiter, K: HeapMaker<Heap = H>>(
        &self,
        rt: &R,
        seat: &mut HallSeat<HallPart<P, H, M>>,
        alloc: Global,
        frame: &mut Frame<P, H>,
        limiter: &mut L,
        heaps: &mut K,
    ) -> Outcome<P, H>
        ghost given: { Given }
        requires pool { IsSharedOf M.told given.about self.now }
        requires own { IsSeatOf self.now.hall seat.old }
        requires free { IsFree seat.old }
        requires driven { IsDriven (length (made_with self.now.hall)) given (view seat.old) frame.old None }
        requires begun { GoesOnSince given.about (view seat.old) (view seat.old) frame.old frame.old }
        requires unasked { AskedSince L.leads limiter.old limiter.old (record { limiter = L.told limiter.old; heaps = K.told heaps.old }) (record { limiter = L.told limiter.old; heaps = K.told heaps.old }) frame.old frame.old }
        ensures own { IsSeatOf self.now.hall seat.new }
        ensures free { IsFree seat.new }
        ensures driven { IsDriven (length (made_with self.now.hall)) given (view seat.new) frame.new (Some result) }
        ensures ended { HasEnded given.about (view seat.old) (view seat.new) frame.old frame.new result }
        ensures asked { HasAsked L.leads (AsksNobody (stage_of frame.old)) (heaps_wanted frame.old.asked ≡ 1) (AnsweredAfter frame.old.asked result) limiter.old limiter.new (record { limiter = L.told limiter.old; heaps = K.told heaps.old }) (record { limiter = L.told limiter.new; heaps = K.told heaps.new }) result }
        ensures wants { kind_at (stage_of frame.old) ≡ asks_for → IfRefused (WantsOfMaker H frame.old.asked (K.told heaps.old) (K.told heaps.new)) result }
    {
        let mut outcome = None;
        for _ in rt.forever() {
            self.step(rt, seat, alloc, frame, limiter, heaps, &mut outcome);
            if let Some(answer) = outcome.take() {
                return answer;
            }
        }
        unreachable!()
    }
}
