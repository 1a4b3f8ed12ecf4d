//! A step of a call: what it changes is found, and the step is made on it.
ghost use Rattle.std.specs.Prelude.{◌≡◌, false, None};
ghost use Rattle.std.specs.Option.{option_copied_mut};
ghost use Rattle.pool_pages.specs.MakerTold.{MakerTold};
ghost use Rattle.pool_limits.specs.LimiterTold.{limiter_told, option_left};
ghost use Rattle.pool_limits.specs.Exchanges.{Exchanged, IfExchanged};
ghost use Rattle.pool_alloc.specs.CanStep.{CanStepAt};
ghost use Rattle.pool_alloc.specs.SoundSteps.{IsSoundStep};
ghost use Rattle.pool_alloc.specs.Stepping.{CanStep, CanCount, StepsTo, StepsAsking, makes_heap};

pub(crate) mod alone;
pub(crate) mod on_counters;
pub(crate) mod on_parts;
pub(crate) mod targets;

use crate::frame::{Frame, Outcome};
use crate::pool_core::PoolCore;
use crate::step::alone::step_alone;
use crate::step::on_counters::step_counted;
use crate::step::on_parts::step_part;
use crate::step::targets::{Target, next_target};
use pool_limits::{ResourceLimiter, Unlimited};
use pool_pages::Pages;
use pool_slots::{GcHeap, HeapMaker};
use std::alloc::Global;

impl<P: Pages, H: GcHeap> PoolCore<P, H> {
    /// Makes one step of the frame's call, as the step table says. Answers Some exactly where the call ends with it. A
    /// step of a frame without a call changes nothing. Only the making of a memory or a table asks the limiter; without one it is
    /// granted. Only the making of a heap asks the maker of heaps.
    pub fn step<R: ResourceLimiter, K: HeapMaker<Heap = H>>(
        &mut self,
        alloc: Global,
        frame: &mut Frame<P, H>,
        limiter: Option<&mut R>,
        heaps: &mut K,
    ) -> Option<Outcome<P, H>>
        ghost maker: { MakerTold }
        requires can { CanStep maker self.old frame.old }
        requires counts { CanCount self.old }
        ensures row { StepsTo (record { limiter = limiter_told R.told (option_copied_mut limiter.entry); heaps = K.told heaps.old }) (record { limiter = limiter_told R.told (option_left limiter.exit); heaps = K.told heaps.new }) self.old frame.old (record { core = self.new; frame = frame.new; outcome = result }) }
        ensures asks { StepsAsking (λ passed. IfExchanged R.leads passed (option_copied_mut limiter.entry) (option_left limiter.exit)) (record { limiter = limiter_told R.told (option_copied_mut limiter.entry); heaps = K.told heaps.old }) (record { limiter = limiter_told R.told (option_left limiter.exit); heaps = K.told heaps.new }) self.old frame.old (record { core = self.new; frame = frame.new; outcome = result }) }
        ensures heaps { makes_heap frame.old.phase ≡ false → heaps.new ≡ heaps.old }
        ensures sound { IsSoundStep maker (record { limiter = limiter_told R.told (option_copied_mut limiter.entry); heaps = K.told heaps.old }) (record { limiter = limiter_told R.told (option_left limiter.exit); heaps = K.told heaps.new }) self.old frame.old (record { core = self.new; frame = frame.new; outcome = result }) }
    {
        match limiter {
            Some(limiter) => self.advance_answering(alloc, frame, limiter, heaps),
            None => self.advance_answering(alloc, frame, &mut Unlimited, heaps),
        }
    }

    /// The same, which puts the outcome where the caller has a place for it. A run has one place for all its steps: most of them
    /// answer nothing.
    pub fn step_into<R: ResourceLimiter, K: HeapMaker<Heap = H>>(
        &mut self,
        alloc: Global,
        frame: &mut Frame<P, H>,
        limiter: Option<&mut R>,
        heaps: &mut K,
        outcome: &mut Option<Outcome<P, H>>,
    )
        ghost maker: { MakerTold }
        requires can { CanStep maker self.old frame.old }
        requires counts { CanCount self.old }
        requires unanswered { outcome.old ≡ None }
        ensures row { StepsTo (record { limiter = limiter_told R.told (option_copied_mut limiter.entry); heaps = K.told heaps.old }) (record { limiter = limiter_told R.told (option_left limiter.exit); heaps = K.told heaps.new }) self.old frame.old (record { core = self.new; frame = frame.new; outcome = outcome.new }) }
        ensures asks { StepsAsking (λ passed. IfExchanged R.leads passed (option_copied_mut limiter.entry) (option_left limiter.exit)) (record { limiter = limiter_told R.told (option_copied_mut limiter.entry); heaps = K.told heaps.old }) (record { limiter = limiter_told R.told (option_left limiter.exit); heaps = K.told heaps.new }) self.old frame.old (record { core = self.new; frame = frame.new; outcome = outcome.new }) }
        ensures heaps { makes_heap frame.old.phase ≡ false → heaps.new ≡ heaps.old }
        ensures sound { IsSoundStep maker (record { limiter = limiter_told R.told (option_copied_mut limiter.entry); heaps = K.told heaps.old }) (record { limiter = limiter_told R.told (option_left limiter.exit); heaps = K.told heaps.new }) self.old frame.old (record { core = self.new; frame = frame.new; outcome = outcome.new }) }
    {
        match limiter {
            Some(limiter) => self.advance(alloc, frame, limiter, heaps, outcome),
            None => self.advance(alloc, frame, &mut Unlimited, heaps, outcome),
        }
    }

    // One step of the frame's call, over a limiter: on the part or the counter that it changes, or on neither.
    pub(crate) fn advance<L: ResourceLimiter, K: HeapMaker<Heap = H>>(
        &mut self,
        alloc: Global,
        frame: &mut Frame<P, H>,
        limiter: &mut L,
        heaps: &mut K,
        outcome: &mut Option<Outcome<P, H>>,
    )
        requires can { CanStepAt frame.old.phase self.old frame.old }
        requires unanswered { outcome.old ≡ None }
        ensures row { StepsAsking (λ passed. Exchanged L.leads passed limiter.old limiter.new) (record { limiter = L.told limiter.old; heaps = K.told heaps.old }) (record { limiter = L.told limiter.new; heaps = K.told heaps.new }) self.old frame.old (record { core = self.new; frame = frame.new; outcome = outcome.new }) }
        ensures heaps { makes_heap frame.old.phase ≡ false → heaps.new ≡ heaps.old }
    {
        match next_target(&self.settings, &self.plan, frame) {
            Target::Part(place) => {
                let part = self.parts.at(place);
                step_part(part, &self.settings, &self.plan, alloc, frame, outcome)
            }
            Target::Up(name) => {
                let found = self.counters.up(name);
                step_counted(found, &self.settings, &self.plan, alloc, frame, outcome)
            }
            Target::Down(name) => {
                let found = self.counters.down(name);
                step_counted(found, &self.settings, &self.plan, alloc, frame, outcome)
            }
            Target::Alone => step_alone(
                &self.settings,
                &self.plan,
                alloc,
                frame,
                limiter,
                heaps,
                outcome,
            ),
        }
    }

    // The same, which answers the outcome.
    fn advance_answering<L: ResourceLimiter, K: HeapMaker<Heap = H>>(
        &mut self,
        alloc: Global,
        frame: &mut Frame<P, H>,
        limiter: &mut L,
        heaps: &mut K,
    ) -> Option<Outcome<P, H>>
        requires { CanStepAt frame.old.phase self.old frame.old }
        ensures row { StepsAsking (λ passed. Exchanged L.leads passed limiter.old limiter.new) (record { limiter = L.told limiter.old; heaps = K.told heaps.old }) (record { limiter = L.told limiter.new; heaps = K.told heaps.new }) self.old frame.old (record { core = self.new; frame = frame.new; outcome = result }) }
        ensures heaps { makes_heap frame.old.phase ≡ false → heaps.new ≡ heaps.old }
    {
        let mut outcome = None;
        self.advance(alloc, frame, limiter, heaps, &mut outcome);
        outcome
    }
}
