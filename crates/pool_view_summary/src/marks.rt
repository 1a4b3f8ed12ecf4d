//! What is remembered of a run, so that its next steps can be counted.
ghost use Rattle.std.specs.Prelude.{◌≡◌, ◌<◌, length, replicate, slice_index_or, slice_set, IfOk};
ghost use Rattle.pool_view_summary.specs.Marks.{begins_flush, fresh, flushed_by, flushes_marked, is_flush, length_left, marked, marks_of, no_marks, past_of, queue_length, queues_marked, slots_marked, wanted_for, with_flushing, with_past, with_queued};

use crate::made::Made;
use crate::seen::{Doing, MemoryOf};
use pool_index::SlotKind;
use pool_run::Input;
use pool_slots::SlotName;
use std::alloc::{AllocError, Global};

/// What is known of a slot from the picks so far.
#[derive(Clone, Copy)]
pub struct SlotPast {
    pub used: bool,
    /// The memory of a module that it was picked for last, unless a purge found it since.
    pub affine: Option<MemoryOf>,
}

/// What is known of each slot, how many slots each queue has, and how many the flush of each party put back so far.
#[derive(Drop)]
pub struct Marks {
    pub memories: Vec<SlotPast>,
    pub tables: Vec<SlotPast>,
    pub stacks: Vec<SlotPast>,
    pub heaps: Vec<SlotPast>,
    pub queued: Vec<u64>,
    pub flushing: Vec<u64>,
}

impl SlotPast {
    /// It was never picked.
    pub fn fresh() -> Self
        ensures { result ≡ fresh }
    {
        SlotPast {
            used: false,
            affine: None,
        }
    }
}

fn fresh_slots(alloc: Global, count: u32) -> Result<Vec<SlotPast>, AllocError>
    ensures { IfOk result (λ v. v.items ≡ replicate count fresh) }
{
    let mut pasts = Vec::with_capacity(alloc, count as usize)?;
    for slot in 0..count {
        pasts.push(SlotPast::fresh())?;
    }
    Ok(pasts)
}

fn zeros(alloc: Global, count: usize) -> Result<Vec<u64>, AllocError>
    ensures { IfOk result (λ v. v.items ≡ replicate count 0) }
{
    let mut all = Vec::with_capacity(alloc, count)?;
    for at in 0..count {
        all.push(0)?;
    }
    Ok(all)
}

fn put_past(list: &mut Vec<SlotPast>, at: u32, past: SlotPast)
    ensures { list.new.items ≡ slice_set list.old.items at past }
{
    let at = at as usize;
    if at < list.len() {
        list[at] = past;
    }
}

fn put_number(list: &mut Vec<u64>, at: usize, number: u64)
    ensures { list.new.items ≡ slice_set list.old.items at number }
{
    if at < list.len() {
        list[at] = number;
    }
}

fn past_at(list: &[SlotPast], at: u32) -> SlotPast
    ensures { result ≡ slice_index_or list.now at fresh }
{
    match list.get(at as usize) {
        None => SlotPast::fresh(),
        Some(past) => *past,
    }
}

fn number_at(list: &[u64], at: usize) -> u64
    ensures { result ≡ slice_index_or list.now at 0 }
{
    match list.get(at) {
        None => 0,
        Some(number) => *number,
    }
}

impl Marks {
    /// As a run of the input begins.
    pub fn new(alloc: Global, input: &Input) -> Result<Self, AllocError>
        ensures { IfOk result (λ m. marks_of m ≡ no_marks input.now) }
    {
        let limits = &input.config.limits;
        Ok(Marks {
            memories: fresh_slots(alloc, limits.total_memories)?,
            tables: fresh_slots(alloc, limits.total_tables)?,
            stacks: fresh_slots(alloc, limits.total_stacks)?,
            heaps: fresh_slots(alloc, limits.total_gc_heaps)?,
            queued: zeros(alloc, input.shards as usize)?,
            flushing: zeros(alloc, input.parties.len())?,
        })
    }

    /// What is known of a slot.
    pub fn past_of(&self, name: SlotName) -> SlotPast
        ensures { result ≡ past_of name (marks_of self.now) }
    {
        match name.kind {
            SlotKind::Memory => past_at(self.memories.as_slice(), name.slot),
            SlotKind::Table => past_at(self.tables.as_slice(), name.slot),
            SlotKind::Stack => past_at(self.stacks.as_slice(), name.slot),
            SlotKind::Heap => past_at(self.heaps.as_slice(), name.slot),
        }
    }

    /// How many slots a queue has.
    pub fn queue_length(&self, queue: u32) -> u64
        ensures { result ≡ queue_length queue (marks_of self.now) }
    {
        number_at(self.queued.as_slice(), queue as usize)
    }

    /// How many slots the flush of a party put back so far, or its last one.
    pub fn flushed_by(&self, party: usize) -> u64
        ensures { result ≡ flushed_by party (marks_of self.now) }
    {
        number_at(self.flushing.as_slice(), party)
    }

    // This is known of a slot now.
    fn put_past(&mut self, name: SlotName, past: SlotPast)
        ensures { marks_of self.new ≡ with_past name past (marks_of self.old) }
    {
        match name.kind {
            SlotKind::Memory => put_past(&mut self.memories, name.slot, past),
            SlotKind::Table => put_past(&mut self.tables, name.slot, past),
            SlotKind::Stack => put_past(&mut self.stacks, name.slot, past),
            SlotKind::Heap => put_past(&mut self.heaps, name.slot, past),
        }
    }

    fn put_queued(&mut self, queue: u32, length: u64)
        ensures { marks_of self.new ≡ with_queued queue length (marks_of self.old) }
    {
        put_number(&mut self.queued, queue as usize, length)
    }

    fn put_flushing(&mut self, party: usize, slots: u64)
        ensures { marks_of self.new ≡ with_flushing party slots (marks_of self.old) }
    {
        put_number(&mut self.flushing, party, slots)
    }

    // What a step that picked a slot leaves known of it.
    fn mark_slots(&mut self, made: &Made)
        ensures { marks_of self.new ≡ slots_marked made.now.before made.now.after (marks_of self.old) }
    {
        match (made.before, made.after) {
            (Doing::Pick(wanted), Doing::Take(name)) => {
                let past = SlotPast {
                    used: true,
                    affine: wanted_for(name.kind, wanted),
                };
                self.put_past(name, past)
            }
            (Doing::PurgePick, Doing::PurgeTake(name)) => {
                let past = SlotPast {
                    used: true,
                    affine: None,
                };
                self.put_past(name, past)
            }
            _ => {}
        }
    }

    // How many slots the queue of a step has after it.
    fn mark_queues(&mut self, made: &Made)
        ensures { marks_of self.new ≡ queues_marked made.now (marks_of self.old) }
    {
        match made.before {
            Doing::Append => {
                let length = self.queue_length(made.queue).saturating_add(1);
                self.put_queued(made.queue, length_left(made.after, length))
            }
            Doing::TakeQueue(_) => self.put_queued(made.queue, 0),
            _ => {}
        }
    }

    // How many slots the party's flush put back after a step.
    fn mark_flushes(&mut self, made: &Made)
        ensures { marks_of self.new ≡ flushes_marked made.now (marks_of self.old) }
    {
        if begins_flush(made.before, made.after) {
            return self.put_flushing(made.party, 0);
        }
        if let Doing::PutBack = made.before {
            let slots = self.flushed_by(made.party).saturating_add(1);
            self.put_flushing(made.party, slots)
        }
    }

    /// What a step leaves to be remembered.
    pub fn mark(&mut self, made: &Made)
        ensures { marks_of self.new ≡ marked made.now (marks_of self.old) }
    {
        self.mark_slots(made);
        self.mark_queues(made);
        self.mark_flushes(made)
    }
}

/// The memory that a picked slot of this kind is for: only memories are affine.
pub fn wanted_for(kind: SlotKind, wanted: Option<MemoryOf>) -> Option<MemoryOf>
    ensures { result ≡ wanted_for kind wanted }
{
    match kind {
        SlotKind::Memory => wanted,
        _ => None,
    }
}

/// Whether a step is one of a flush.
pub fn is_flush(doing: Doing) -> bool
    ensures { result ≡ is_flush doing }
{
    matches!(doing, Doing::Clean | Doing::PutBack | Doing::FreeAll)
}

/// Whether a flush begins between two steps.
pub fn begins_flush(before: Doing, after: Doing) -> bool
    ensures { result ≡ begins_flush before after }
{
    is_flush(after) && !is_flush(before)
}

// The length of a queue that has come to this length, by what comes next: a flush takes all of it.
fn length_left(after: Doing, length: u64) -> u64
    ensures { result ≡ length_left after length }
{
    if is_flush(after) { 0 } else { length }
}
