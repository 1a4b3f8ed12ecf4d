//! What the steps of a run did and cost.
ghost use Rattle.std.specs.Prelude.{◌≡◌};
ghost use Rattle.pool_view_summary.specs.Costs.{costs_with, flushes_with, is_same, kinds_with, longest_with, no_costs, picked_with, picks_with, put_with, resident_with};
ghost use Rattle.pool_view_summary.specs.Marks.{marks_of};

use crate::kinds::Kinds;
use crate::made::{Made, frees};
use crate::marks::{Marks, SlotPast, begins_flush, wanted_for};
use crate::seen::{Doing, MemoryOf};

/// How slots were picked: never used before, used before, and used for the same memory of a module before; and how often a shard
/// had none.
#[derive(Clone, Copy, Debug, PartialEq, Eq)]
pub struct Picks {
    pub cold: u64,
    pub warm: u64,
    pub affine: u64,
    pub full: u64,
}

/// How many flushes there were, how many slots they put back, and how many the largest did.
#[derive(Clone, Copy, Debug, PartialEq, Eq)]
pub struct Flushes {
    pub count: u64,
    pub slots: u64,
    pub most: u64,
}

/// What the steps of a run did and cost.
#[derive(Clone, Copy, Debug, PartialEq, Eq)]
pub struct Costs {
    pub kinds: Kinds,
    pub picks: Picks,
    pub flushes: Flushes,
    /// The most slots that a queue had.
    pub longest: u64,
    /// The most bytes that free slots kept resident.
    pub resident: u64,
}

// Whether both are the same memory of a module.
fn is_same(a: Option<MemoryOf>, b: Option<MemoryOf>) -> bool
    ensures { result ≡ is_same a b }
{
    match (a, b) {
        (Some(a), Some(b)) => a.id.0 == b.id.0 && a.index == b.index,
        _ => false,
    }
}

impl Picks {
    // A slot with this past was picked for this memory.
    fn picked(&mut self, past: SlotPast, wanted: Option<MemoryOf>)
        ensures { self.new ≡ picked_with past wanted self.old }
    {
        if !past.used {
            self.cold = self.cold.saturating_add(1);
        } else if is_same(past.affine, wanted) {
            self.affine = self.affine.saturating_add(1);
        } else {
            self.warm = self.warm.saturating_add(1);
        }
    }

    // Counts what a step picked, if it was to do that.
    fn add(&mut self, made: &Made, marks: &Marks)
        ensures { self.new ≡ picks_with made.now.before made.now.after (marks_of marks.now) self.old }
    {
        match (made.before, made.after) {
            (Doing::Pick(wanted), Doing::Take(name)) => {
                self.picked(marks.past_of(name), wanted_for(name.kind, wanted))
            }
            (Doing::Pick(_), _) => self.full = self.full.saturating_add(1),
            _ => {}
        }
    }
}

impl Flushes {
    // A flush put a slot back, which is so many then.
    fn put(&mut self, slots: u64)
        ensures { self.new ≡ put_with slots self.old }
    {
        self.slots = self.slots.saturating_add(1);
        self.most = self.most.max(slots);
    }

    // Counts a flush that begins, and a slot that is put back.
    fn add(&mut self, made: &Made, marks: &Marks)
        ensures { self.new ≡ flushes_with made.now (marks_of marks.now) self.old }
    {
        if begins_flush(made.before, made.after) {
            self.count = self.count.saturating_add(1);
            return;
        }
        if let Doing::PutBack = made.before {
            self.put(marks.flushed_by(made.party).saturating_add(1))
        }
    }
}

fn add_kind(kinds: &mut Kinds, made: &Made)
    ensures { kinds.new ≡ kinds_with made.now.kind made.now.calls made.now.steps made.now.bound kinds.old }
{
    if let Some(kind) = made.kind {
        let entry = kinds.of_kind(kind);
        kinds.set(kind, entry.with_step(made.calls, made.steps, made.bound))
    }
}

// The most slots that a queue had, with a step.
fn longest_with(made: &Made, marks: &Marks, longest: u64) -> u64
    ensures { result ≡ longest_with made.now.before made.now.queue (marks_of marks.now) longest }
{
    match made.before {
        Doing::Append => longest.max(marks.queue_length(made.queue).saturating_add(1)),
        _ => longest,
    }
}

fn resident_with(made: &Made, resident: u64) -> u64
    ensures { result ≡ resident_with made.now resident }
{
    if frees(made.before) {
        resident.max(made.resident)
    } else {
        resident
    }
}

impl Costs {
    /// Nothing was done yet.
    pub fn none() -> Self
        ensures { result ≡ no_costs }
    {
        Costs {
            kinds: Kinds::none(),
            picks: Picks {
                cold: 0,
                warm: 0,
                affine: 0,
                full: 0,
            },
            flushes: Flushes {
                count: 0,
                slots: 0,
                most: 0,
            },
            longest: 0,
            resident: 0,
        }
    }

    /// Adds a step, by what is remembered from before it.
    pub fn add(&mut self, made: &Made, marks: &Marks)
        ensures { self.new ≡ costs_with made.now (marks_of marks.now) self.old }
    {
        add_kind(&mut self.kinds, made);
        self.picks.add(made, marks);
        self.flushes.add(made, marks);
        self.longest = longest_with(made, marks, self.longest);
        self.resident = resident_with(made, self.resident);
    }
}
