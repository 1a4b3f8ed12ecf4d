//! The steps of a caller's call, on a pool that many callers share.
ghost use Rattle.std.specs.Prelude.{◌≡◌, length, None};
ghost use Rattle.pool_hall.specs.Seat.{made_with, view, IsSeatOf, IsFree};
ghost use Rattle.pool_limits.specs.Exchanges.{Exchanged};
ghost use Rattle.pool_alloc.specs.Targets.{next_target};
ghost use Rattle.pool_alloc.specs.declared.step.targets.Target.TheVariants.{Part, Up, Down};
ghost use Rattle.pool_driver.specs.Beside.{StepsBeside, StepsBesideAlike};
ghost use Rattle.pool_driver.specs.Driving.{Given, IsDriven, SeesAlike, SeesStep, counter_number};
ghost use Rattle.pool_driver.specs.Origins.{about_of, inner_of};
ghost use Rattle.pool_driver.specs.Placed.{IsSmall};
ghost use Rattle.pool_driver.specs.Pools.{IsSharedOf};

use crate::part::HallPart;
use crate::shared_pool::{PoolHall, SharedPool};
use pool_alloc::{
    CounterName, Frame, Outcome, Target, next_target, step_alone, step_counted, step_part,
};
use pool_hall::HallSeat;
use pool_limits::ResourceLimiter;
use pool_pages::{PageMaker, Pages};
use pool_slots::{GcHeap, HeapMaker, PoolPart};
use std::alloc::Global;
use std::sync::Wait;

impl<P: Pages, H: GcHeap, M: PageMaker> SharedPool<PoolHall<P, H, M>> {
    /// Makes one step of the frame's call, as `PoolCore::step` does. It waits for the part that it changes, and holds no other. A step
    /// that changes no part holds none: so neither the limiter nor the maker of heaps is asked while a part is locked. Puts the outcome, if
    /// the call ends with the step, where the caller has a place for it.
    pub fn step<R: Wait, L: ResourceLimiter, K: HeapMaker<Heap = H>>(
        &self,
        rt: &R,
        seat: &mut HallSeat<HallPart<P, H, M>>,
        alloc: Global,
        frame: &mut Frame<P, H>,
        limiter: &mut L,
        heaps: &mut K,
        outcome: &mut Option<Outcome<P, H>>,
    )
        ghost given: { Given }
        requires pool { IsSharedOf M.told given.about self.now }
        requires own { IsSeatOf self.now.hall seat.old }
        requires free { IsFree seat.old }
        requires driven { IsDriven (length (made_with self.now.hall)) given (view seat.old) frame.old None }
        requires unanswered { outcome.old ≡ None }
        ensures own { IsSeatOf self.now.hall seat.new }
        ensures free { IsFree seat.new }
        ensures driven { IsDriven (length (made_with self.now.hall)) given (view seat.new) frame.new outcome.new }
        ensures sees { SeesStep (about_of M.told) inner_of (λ passed. Exchanged L.leads passed limiter.old limiter.new) (record { limiter = L.told limiter.old; heaps = K.told heaps.old }) (record { limiter = L.told limiter.new; heaps = K.told heaps.new }) given.about (view seat.old) (view seat.new) frame.old frame.new outcome.new }
        ensures beside { StepsBeside (λ passed. Exchanged L.leads passed limiter.old limiter.new) (record { limiter = L.told limiter.old; heaps = K.told heaps.old }) (record { limiter = L.told limiter.new; heaps = K.told heaps.new }) given frame.old frame.new outcome.new }
    {
        match next_target(&self.settings, &self.plan, frame) {
            Target::Part(place) => self.step_at(rt, seat, place, alloc, frame, outcome),
            Target::Up(name) => self.step_up(seat, name, alloc, frame, outcome),
            Target::Down(name) => self.step_down(seat, name, alloc, frame, outcome),
            Target::Alone => {
                step_alone(
                    &self.settings,
                    &self.plan,
                    alloc,
                    frame,
                    limiter,
                    heaps,
                    outcome,
                )
            }
        }
    }

    // The step on the part at a place.
    fn step_at<R: Wait>(
        &self,
        rt: &R,
        seat: &mut HallSeat<HallPart<P, H, M>>,
        place: u32,
        alloc: Global,
        frame: &mut Frame<P, H>,
        outcome: &mut Option<Outcome<P, H>>,
    )
        ghost given: { Given }
        requires pool { IsSharedOf M.told given.about self.now }
        requires own { IsSeatOf self.now.hall seat.old }
        requires free { IsFree seat.old }
        requires driven { IsDriven (length (made_with self.now.hall)) given (view seat.old) frame.old None }
        requires target { next_target given.about.settings given.about.plan frame.old.phase frame.old ≡ Part place }
        requires unanswered { outcome.old ≡ None }
        ensures own { IsSeatOf self.now.hall seat.new }
        ensures free { IsFree seat.new }
        ensures driven { IsDriven (length (made_with self.now.hall)) given (view seat.new) frame.new outcome.new }
        ensures sees { SeesAlike (about_of M.told) inner_of given.about (view seat.old) (view seat.new) frame.old frame.new outcome.new }
        ensures beside { StepsBesideAlike given frame.old frame.new outcome.new }
    {
        self.hall.take(rt, seat, place);
        let held = seat.part(&self.hall);
        step_part(
            &mut held.part,
            &self.settings,
            &self.plan,
            alloc,
            frame,
            outcome,
        );
        counts_fit(&held.part);
        self.hall.put(seat);
    }

    // The step that counts up at a counter.
    fn step_up(
        &self,
        seat: &mut HallSeat<HallPart<P, H, M>>,
        name: CounterName,
        alloc: Global,
        frame: &mut Frame<P, H>,
        outcome: &mut Option<Outcome<P, H>>,
    )
        ghost given: { Given }
        requires pool { IsSharedOf M.told given.about self.now }
        requires own { IsSeatOf self.now.hall seat.old }
        requires free { IsFree seat.old }
        requires driven { IsDriven (length (made_with self.now.hall)) given (view seat.old) frame.old None }
        requires target { next_target given.about.settings given.about.plan frame.old.phase frame.old ≡ Up name }
        requires unanswered { outcome.old ≡ None }
        ensures own { IsSeatOf self.now.hall seat.new }
        ensures free { IsFree seat.new }
        ensures driven { IsDriven (length (made_with self.now.hall)) given (view seat.new) frame.new outcome.new }
        ensures sees { SeesAlike (about_of M.told) inner_of given.about (view seat.old) (view seat.new) frame.old frame.new outcome.new }
        ensures beside { StepsBesideAlike given frame.old frame.new outcome.new }
    {
        let found = self.hall.add(seat, counter_number(name));
        step_counted(found, &self.settings, &self.plan, alloc, frame, outcome);
    }

    // The step that counts down at a counter. Whatever the number there, it goes on alike.
    fn step_down(
        &self,
        seat: &mut HallSeat<HallPart<P, H, M>>,
        name: CounterName,
        alloc: Global,
        frame: &mut Frame<P, H>,
        outcome: &mut Option<Outcome<P, H>>,
    )
        ghost given: { Given }
        requires pool { IsSharedOf M.told given.about self.now }
        requires own { IsSeatOf self.now.hall seat.old }
        requires free { IsFree seat.old }
        requires driven { IsDriven (length (made_with self.now.hall)) given (view seat.old) frame.old None }
        requires target { next_target given.about.settings given.about.plan frame.old.phase frame.old ≡ Down name }
        requires unanswered { outcome.old ≡ None }
        ensures own { IsSeatOf self.now.hall seat.new }
        ensures free { IsFree seat.new }
        ensures driven { IsDriven (length (made_with self.now.hall)) given (view seat.new) frame.new outcome.new }
        ensures sees { SeesAlike (about_of M.told) inner_of given.about (view seat.old) (view seat.new) frame.old frame.new outcome.new }
        ensures beside { StepsBesideAlike given frame.old frame.new outcome.new }
    {
        self.hall.subtract(seat, counter_number(name));
        step_counted(0, &self.settings, &self.plan, alloc, frame, outcome);
    }
}

// The number of a counter in the hall.
fn counter_number(name: CounterName) -> u32
    ensures { result ≡ counter_number name }
{
    match name {
        CounterName::Key => 0,
        CounterName::CoreInstances => 1,
        CounterName::ComponentInstances => 2,
        CounterName::Memories => 3,
        CounterName::Tables => 4,
        CounterName::Stacks => 5,
        CounterName::GcHeaps => 6,
    }
}

// What is so of the counts of each part: they fit 64 bits. It changes nothing.
fn counts_fit<P: Pages, H: GcHeap>(part: &PoolPart<P, H>)
    ensures { IsSmall part.now }
{
    // Reads, at which the proof learns what each kind of part keeps.
    match part {
        PoolPart::Shard(shard) => {
            let _used = shard.len();
        }
        PoolPart::Memory(cell) | PoolPart::Table(cell) | PoolPart::Stack(cell) => {
            let _numbers = cell.numbers();
        }
        PoolPart::Queue(queue) => {
            let _counts = (queue.takes(), queue.appended());
        }
        PoolPart::Heaps(_) => {}
    }
}
