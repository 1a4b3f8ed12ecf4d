//! How a step's turn takes the call on.
ghost use Rattle.std.specs.Prelude.{◌≡◌, ◌<◌, length, [], false, None};
ghost use Rattle.pool_alloc.specs.StepReads.{allocator_for};
ghost use Rattle.pool_alloc.specs.Turns.{Left, next, flush, search, slot_search, limit_of, after, goes_to, ends_with, failing, granted_next, returned_next, all_returned, answer_of, next_by, is_flushed, resting};
ghost use Rattle.pool_alloc.specs.CanStep.{HasAllocators};
ghost use Rattle.pool_alloc.specs.InHand.{holds_region};

use crate::frame::{Asked, Ending, Frame, Grant, Object, Outcome, Phase};
use crate::leases::instance::InstanceLease;
use pool_index::SlotKind;
use pool_pages::Pages;
use pool_slots::{AllocError, Allocator, ConcurrencyKind, GcHeap, Plan, PoolConcurrencyLimitError};
use std::alloc::Global;
use std::mem;

// How a step's turn takes the call on. A turn changes no part of the pool.
impl<P: Pages, H: GcHeap> Frame<P, H> {
    // The call fails: what it was granted so far is what it gives back.
    pub(crate) fn fail(&mut self, error: AllocError)
        ensures { self.new ≡ failing error self.old }
    {
        self.ending = Ending::Refused(error);
    }

    // The call goes on with this phase. Nothing is answered.
    pub(crate) fn go(&mut self, phase: Phase<P, H>)
        ensures { ◌≡◌ {A = Left P H} (record { frame = self.new; outcome = None }) (goes_to self.old phase) }
    {
        self.step_count = self.step_count.wrapping_add(1);
        self.enter(phase);
    }

    // The phase is this one. A step has taken out what the one before held, so that there is nothing to drop, and no room for
    // it is prepared.
    pub(crate) fn enter(&mut self, phase: Phase<P, H>)
        ensures { self.new ≡ record self.old { phase = phase } }
    {
        match &self.phase {
            Phase::Idle => mem::forget(mem::replace(&mut self.phase, phase)),
            _ => drop_phase(mem::replace(&mut self.phase, phase)),
        }
    }

    // A step is made of a phase that holds nothing: it leaves the next one.
    pub(crate) fn rest(&mut self)
        requires { holds_region self.old.phase ≡ false }
        ensures { self.new ≡ resting self.old }
    {
        mem::forget(mem::replace(&mut self.phase, Phase::Idle));
    }

    // The call ends with this answer, and leaves nothing of itself but the number of its steps. The answer is written once: the
    // steps of a call hand on where it is to lie.
    pub(crate) fn end(&mut self, answer: Outcome<P, H>, outcome: &mut Option<Outcome<P, H>>)
        ensures { ◌≡◌ {A = Left P H} (record { frame = self.new; outcome = outcome.new }) (ends_with self.old answer) }
    {
        self.step_count = self.step_count.wrapping_add(1);
        self.enter(Phase::Idle);
        self.asked = Asked::Nothing;
        self.ending = Ending::Returned;
        self.queues = 0;
        *outcome = Some(answer);
    }

    // What the ending says is next.
    pub(crate) fn next(&mut self, alloc: Global, outcome: &mut Option<Outcome<P, H>>)
        requires unanswered { outcome.old ≡ None }
        ensures { ◌≡◌ {A = Left P H} (record { frame = self.new; outcome = outcome.new }) (after self.old next) }
    {
        match self.ending {
            Ending::Granted => self.grant_next(alloc, outcome),
            Ending::Returned => self.return_next(outcome),
            Ending::Refused(_) => self.return_next(outcome),
        }
    }

    // A slot is picked for the next object of the instance, or the instance is granted.
    fn grant_next(&mut self, alloc: Global, outcome: &mut Option<Outcome<P, H>>)
        requires unanswered { outcome.old ≡ None }
        ensures { ◌≡◌ {A = Left P H} (record { frame = self.new; outcome = outcome.new }) (granted_next self.old) }
    {
        let granted = self.objects.memories.len() as u128 + self.objects.tables.len() as u128;
        if granted < self.objects_wanted() {
            return self.go(Phase::Pick(0));
        }
        let lease = mem::replace(&mut self.objects, InstanceLease::none(alloc));
        self.end(Outcome::Granted(Grant::Instance(lease)), outcome)
    }

    // The next object is given back, or else the instance.
    pub(crate) fn return_next(&mut self, outcome: &mut Option<Outcome<P, H>>)
        requires unanswered { outcome.old ≡ None }
        ensures { ◌≡◌ {A = Left P H} (record { frame = self.new; outcome = outcome.new }) (returned_next self.old.objects.memories.items self.old.objects.tables.items self.old) }
    {
        match self.objects.memories.pop_first() {
            Some(lease) => self.go(Phase::UncountObject(Object::Memory(lease))),
            None => self.return_table(outcome),
        }
    }

    // The same where no memory is left.
    fn return_table(&mut self, outcome: &mut Option<Outcome<P, H>>)
        requires unanswered { outcome.old ≡ None }
        ensures { ◌≡◌ {A = Left P H} (record { frame = self.new; outcome = outcome.new }) (returned_next [] self.old.objects.tables.items self.old) }
    {
        match self.objects.tables.pop_first() {
            Some(lease) => self.go(Phase::UncountObject(Object::Table(lease))),
            None => self.return_all(outcome),
        }
    }

    // Where no object is left, the instance is given back. A call for an object by itself counts none, and ends.
    fn return_all(&mut self, outcome: &mut Option<Outcome<P, H>>)
        requires unanswered { outcome.old ≡ None }
        ensures { ◌≡◌ {A = Left P H} (record { frame = self.new; outcome = outcome.new }) (all_returned self.old.asked self.old) }
    {
        match &self.asked {
            Asked::Nothing | Asked::Module(_) => self.go(Phase::UncountInstance),
            _ => self.end(answer_of(self.ending), outcome),
        }
    }

    // The next part of a flush, or what is next once it is done.
    pub(crate) fn flush(&mut self, alloc: Global, outcome: &mut Option<Outcome<P, H>>)
        requires unanswered { outcome.old ≡ None }
        ensures { ◌≡◌ {A = Left P H} (record { frame = self.new; outcome = outcome.new }) (after self.old flush) }
    {
        if self.is_flushed() {
            return self.next(alloc, outcome);
        }
        self.go(Phase::Flush)
    }

    pub(crate) fn is_flushed(&self) -> bool
        ensures { result ≡ is_flushed self.now }
    {
        self.local.is_empty() && self.freed.is_empty()
    }

    // The search for a slot goes on.
    pub(crate) fn search_slot(&mut self, plan: &Plan, outcome: &mut Option<Outcome<P, H>>)
        requires can { HasAllocators plan.now self.old.stripe }
        requires unanswered { outcome.old ≡ None }
        ensures { ◌≡◌ {A = Left P H} (record { frame = self.new; outcome = outcome.new }) (after self.old (slot_search plan.now self.old)) }
    {
        let refusal = AllocError::Limit(PoolConcurrencyLimitError {
            limit: self.allocator(plan).capacity as usize,
            kind: limit_of(self.kind_next(), self.stripe),
        });
        self.search(plan.queues_for(self.kind_next()), refusal, outcome)
    }

    // The next queue of a search through so many, or this refusal after the last.
    fn search(&mut self, queues: u32, refusal: AllocError, outcome: &mut Option<Outcome<P, H>>)
        requires unanswered { outcome.old ≡ None }
        ensures { ◌≡◌ {A = Left P H} (record { frame = self.new; outcome = outcome.new }) (after self.old (search queues refusal)) }
    {
        if self.queues < queues {
            return self.go(Phase::TakeQueue);
        }
        self.fail(refusal);
        self.return_next(outcome)
    }

    // The allocator of what is allocated.
    pub(crate) fn allocator(&self, plan: &Plan) -> Allocator
        requires { HasAllocators plan.now self.now.stripe }
        ensures { result ≡ allocator_for plan.now self.now }
    {
        match self.kind_next() {
            SlotKind::Table => plan.tables.as_slice()[0],
            SlotKind::Stack => plan.stacks.as_slice()[0],
            SlotKind::Heap => plan.heaps.as_slice()[0],
            _ => plan.memories.as_slice()[self.stripe as usize],
        }
    }
}

// The answer that a call ends with once all is given back.
pub(crate) fn answer_of<P: Pages, H: GcHeap>(ending: Ending) -> Outcome<P, H>
    ensures { result ≡ answer_of ending }
{
    match ending {
        Ending::Refused(error) => Outcome::Refused(error),
        _ => Outcome::Returned,
    }
}

// What it is that the pool has no more of.
fn limit_of(kind: SlotKind, stripe: u32) -> ConcurrencyKind
    ensures { result ≡ limit_of kind stripe }
{
    match kind {
        SlotKind::Table => ConcurrencyKind::Tables,
        SlotKind::Stack => ConcurrencyKind::Fibers,
        SlotKind::Heap => ConcurrencyKind::GcHeaps,
        _ => ConcurrencyKind::MemoryStripe(stripe),
    }
}

// Drops a phase that was left before it was over, or that isn't entered.
#[cold]
#[inline(never)]
pub(crate) fn drop_phase<P: Pages, H: GcHeap>(left: Phase<P, H>) {
    mem::drop(left);
}
