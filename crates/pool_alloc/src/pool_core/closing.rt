//! A pool is closed: its queues are flushed, and its parts come back.
ghost use Rattle.std.specs.Prelude.{◌≡◌, ◌+◌, ◌<◌, ◌≤◌, ◌^◌, true, false, not, Some, None};
ghost use Rattle.pool_pages.specs.MakerTold.{MakerTold};
ghost use Rattle.pool_slots.specs.Parts.{IsAt};
ghost use Rattle.pool_slots.specs.SlotQueues.{IsSpareOf, after_take, taken_into};
ghost use Rattle.pool_slots.specs.declared.part.PoolPart.{PoolPart};
ghost use Rattle.pool_alloc.specs.StepBounds.{steps_left};
ghost use Rattle.pool_alloc.specs.Calls.{lists_made};
ghost use Rattle.pool_alloc.specs.CanStep.{CanStepAt, CanTryQueue};
ghost use Rattle.pool_alloc.specs.Closing.{Closer, AreAtHome, ArePartsOf, all_free, IsGivenBack, IsClosingAt, IsClosing, IsClosed, queue_taken, frame_closing, nth_queue};
ghost use Rattle.pool_alloc.specs.PartyTold.{PartyTold};
ghost use Rattle.pool_alloc.specs.StepTable.{flush_step};
ghost use Rattle.pool_alloc.specs.BetweenSteps.{IsCore};
ghost use Rattle.pool_alloc.specs.StepReads.{IsQueuePart, queue_at, queue_in, queues_searched};
ghost use Rattle.pool_alloc.specs.Stepping.{StepsTo, is_idle};
ghost use Rattle.pool_alloc.specs.StepsAlone.{CanFlushAlone};
ghost use Rattle.pool_alloc.specs.PoolAndHolders.{IsUntouched};
ghost use Rattle.pool_alloc.specs.declared.frame.Phase.TheVariants.{Flush};
ghost use Rattle.pool_alloc.specs.declared.pool_core.PoolCore.{PoolCore};

use crate::decommit_queue::flush_alone;
use crate::frame::{Asked, Ending, Frame, FrameLists, Outcome, Phase};
use crate::parts::Parts;
use crate::pool_core::PoolCore;
use crate::pool_core::making::frame_over;
use crate::step::on_counters::step_counted;
use crate::step::on_parts::step_part;
use crate::step::targets::{Target, next_target};
use pool_index::SlotKind;
use pool_pages::Pages;
use pool_slots::{DecommitQueue, GcHeap, PoolPart};
use std::alloc::Global;

impl<P: Pages, H: GcHeap> PoolCore<P, H> {
    /// Ends the pool: flushes all queues, and finds every slot free. Each slot that was given out has to be back in a
    /// queue by then, with its region, and nothing may be counted. Answers what the pool was made of, of which the caller
    /// may still ask the numbers. Takes no memory.
    pub fn close(self, alloc: Global) -> Parts<P, H>
        ghost maker: { MakerTold }
        requires core { IsCore maker self }
        requires spare { self.spare ≡ Some (lists_made self.settings) }
        requires returned { IsGivenBack self }
        ensures home { AreAtHome result }
        ensures parts { ArePartsOf maker self.settings self.plan result }
    {
        let mut pool = self;
        let lists = pool.take_spare();
        let mut frame = frame_over(alloc, 0, lists);
        pool.flush_queues(alloc, &mut frame);
        find_free(&pool.parts);
        pool.parts
    }

    /// A law, which does nothing: nobody has anything of a pool as it is made.
    pub fn made_law(&self)
        ensures { IsUntouched self.now → IsGivenBack self.now }
    {}

    // Takes the spare lists.
    fn take_spare(&mut self) -> FrameLists<P>
        requires { self.old.spare ≡ Some (lists_made self.old.settings) }
        ensures lists { result ≡ lists_made self.old.settings }
        ensures core { self.new ≡ record self.old { spare = None } }
    {
        match self.spare.take() {
            Some(lists) => lists,
            None => unreachable!(),
        }
    }

    // Flushes all queues. All is at home then.
    fn flush_queues(&mut self, alloc: Global, frame: &mut Frame<P, H>)
        ghost maker: { MakerTold }
        requires { IsClosed maker 0 self.old frame.old }
        ensures home { AreAtHome self.new.parts }
        ensures parts { ArePartsOf maker self.old.settings self.old.plan self.new.parts }
    {
        for at in 0..self.plan.queues_for(SlotKind::Memory) {
            self.flush_queue(alloc, frame, at);
        }
    }

    // Flushes one queue.
    fn flush_queue(&mut self, alloc: Global, frame: &mut Frame<P, H>, at: u32)
        ghost of: { Closer }
        requires closed { IsClosed of.maker at self.old frame.old }
        requires number { of.emptied ≡ at + 1 }
        requires queue { at < queues_searched self.old.plan }
        ensures closed { IsClosed of.maker (at + 1) self.new frame.new }
        ensures settings { self.new.settings ≡ self.old.settings }
        ensures plan { self.new.plan ≡ self.old.plan }
    {
        self.begin_flush(frame, at);
        while frame.is_busy() {
            self.closing_step(alloc, frame);
        }
    }

    // A step of the flush of a queue.
    fn closing_step(&mut self, alloc: Global, frame: &mut Frame<P, H>)
        ghost of: { Closer }
        requires closing { IsClosing of.maker of.emptied self.old frame.old }
        requires busy { is_idle frame.old.phase ≡ false }
        ensures closing { IsClosing of.maker of.emptied self.new frame.new }
        ensures fewer { steps_left self.new frame.new + 1 ≤ steps_left self.old frame.old }
        ensures settings { self.new.settings ≡ self.old.settings }
        ensures plan { self.new.plan ≡ self.old.plan }
    {
        let mut outcome = None;
        self.flush_on(alloc, frame, &mut outcome);
        drop_outcome(outcome);
    }

    // The same as a step of the call that is under way. It asks nobody, whoever that would be.
    fn flush_on(
        &mut self,
        alloc: Global,
        frame: &mut Frame<P, H>,
        outcome: &mut Option<Outcome<P, H>>,
    )
        requires can { CanStepAt frame.old.phase self.old frame.old }
        requires closing { IsClosingAt frame.old.phase }
        requires busy { is_idle frame.old.phase ≡ false }
        requires unanswered { outcome.old ≡ None }
        ensures { (told : PartyTold) → StepsTo told told self.old frame.old (record { core = self.new; frame = frame.new; outcome = outcome.new }) }
    {
        match next_target(&self.settings, &self.plan, frame) {
            Target::Part(place) => {
                let part = self.parts.at(place);
                step_part(part, &self.settings, &self.plan, alloc, frame, outcome)
            }
            Target::Down(name) => {
                let found = self.counters.down(name);
                step_counted(found, &self.settings, &self.plan, alloc, frame, outcome)
            }
            Target::Alone => flush_resting(alloc, frame, outcome),
            Target::Up(_) => unreachable!(),
        }
    }

    // The frame takes the queue, and gives back an instance of nothing, for which the queue is flushed.
    fn begin_flush(&mut self, frame: &mut Frame<P, H>, at: u32)
        requires queues { CanTryQueue self.old.plan }
        requires queue { IsAt IsQueuePart (nth_queue at self.old) self.old.parts }
        requires spare { IsSpareOf (queue_at (nth_queue at self.old) self.old) frame.old.local }
        requires counts { self.old.counters.core_instances + 1 < 2 ^ 64 }
        ensures core { self.new ≡ queue_taken (nth_queue at self.old) self.old }
        ensures frame { frame.new ≡ frame_closing (queue_at (nth_queue at self.old) self.old) frame.old }
    {
        let place = self.plan.queue_tried(0, at);
        take_whole(self.parts.at(place), &mut frame.local);
        self.counters.core_instances += 1;
        frame.asked = Asked::Nothing;
        frame.ending = Ending::Returned;
        let phase = if frame.is_flushed() {
            Phase::UncountInstance
        } else {
            Phase::Flush
        };
        frame.go(phase);
    }
}

impl<P: Pages, H: GcHeap> Frame<P, H> {
    // Whether a call is under way.
    fn is_busy(&self) -> bool
        ensures { result ≡ not (is_idle self.now.phase) }
    {
        !matches!(self.phase, Phase::Idle)
    }
}

// Finds every slot free.
fn find_free<P: Pages, H: GcHeap>(parts: &Parts<P, H>)
    requires { all_free parts.now ≡ true }
{
    if !parts.is_empty() {
        unreachable!()
    }
}

// A step of a flush that changes no part. It asks nobody.
fn flush_resting<P: Pages, H: GcHeap>(
    alloc: Global,
    frame: &mut Frame<P, H>,
    outcome: &mut Option<Outcome<P, H>>,
)
    requires flush { frame.old.phase ≡ Flush }
    requires can { CanFlushAlone (flush_step frame.old.local frame.old.freed.items) frame.old }
    requires unanswered { outcome.old ≡ None }
    ensures { (told : PartyTold) (c : PoolCore P H) → StepsTo told told c frame.old (record { core = c; frame = frame.new; outcome = outcome.new }) }
{
    frame.rest();
    flush_alone(alloc, frame, outcome)
}

// The answer to a give-back, which tells nothing.
fn drop_outcome<P: Pages, H: GcHeap>(_outcome: Option<Outcome<P, H>>) {}

// Takes all that a queue of the pool holds into an empty one.
fn take_whole<P: Pages, H: GcHeap>(part: &mut PoolPart<P, H>, spare: &mut DecommitQueue<P>)
    requires queue { IsQueuePart part.old }
    requires spare { IsSpareOf (queue_in part.old) spare.old }
    ensures part { part.new ≡ PoolPart.Queue (after_take (queue_in part.old)) }
    ensures spare { spare.new ≡ taken_into spare.old (queue_in part.old) }
{
    match part {
        PoolPart::Queue(queue) => queue.take(spare),
        _ => unreachable!(),
    }
}
