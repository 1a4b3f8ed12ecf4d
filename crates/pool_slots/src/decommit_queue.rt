ghost use Rattle.std.specs.Prelude.{◌≡◌, ◌+◌, ◌<◌, ◌≤◌, ◌==◌, ◌^◌, [], ◌∷◌, ◌++◌, length, ℕ, List, false, true, is_ok, is_some, IfOk, IfSome, OnOk, OnErr, option_map, slice_index_or};
ghost use Rattle.std.specs.List.{HoldsAt, list_any};
ghost use Rattle.pool_images.specs.declared.ranges.ByteRange.{ByteRange};
ghost use Rattle.pool_slots.specs.Listed.{QueueFailsAsListed};
ghost use Rattle.pool_slots.specs.SlotNames.{slot_kind};
ghost use Rattle.pool_slots.specs.QueueMerges.{CanMerge, fills, merged, merged_local};
ghost use Rattle.pool_slots.specs.SlotQueues.{Queued, Queue, empty_queue, drained, owner, holds, HasOwners, AreDistinct, AreApart, LeavesClean, IsGivenBack, IsReset, ForgetsNothing, with_range, with_ranges, with_slot, after_append, after_take, taken_into, IsSpareOf, after_run, after_run_of, IsFaulted, IsSettled, calls_held, first_slot, first_of_kind, others_of_kind, is_to_zero, first_zeroed};
ghost use Rattle.pool_slots.specs.SlotOrders.{run_of, first_of, AreInOrder};
ghost use Rattle.pool_slots.specs.SlotSteps.{begins_with, after_first};

use crate::queued_range::{QueueKind, QueuedRange};
use crate::queued_slot::QueuedSlot;
use crate::range_items::RangeItems;
use crate::slot_items::SlotItems;
use crate::slot_name::{SlotName, same_slot};
use pool_images::ByteRange;
use pool_index::{SlotId, SlotKind};
use pool_pages::{PageCalls, PageFault, Pages};
use pool_types::HostAlignedByteCount;
use std::alloc::{AllocError, Global};
use std::marker::Model;
use std::mem;

/// The slots of every kind that were given back and not reset yet, with the ranges of them that are to be decommitted
/// (Wasmtime's `decommit_queue.rs`). A slot's ranges are pushed before the slot. All memory is taken when the queue is made.
///
/// A flush is made in its parts: one `decommit_run` for each run of ranges of one slot, up to the first fault; then, for
/// memories, tables and stacks in turn, one `zero_next` for each slot that is still to be zeroed by hand, and one
/// `pop` for each slot.
#[derive(Drop)]
pub struct DecommitQueue<P: Pages> {
    ranges: RangeItems,
    slots: SlotItems<P>,
    takes: u64,
    appended: u64,
}

impl<P: Pages> Model for DecommitQueue<P> {
    ghost use Rattle.pool_slots.specs.SlotQueues.{Queue, IsQueue};

    ghost Value = { Queue };

    ghost view = { λ q. record { ranges = q.ranges.items; slots = q.slots.items; range_room = q.ranges.room; slot_room = q.slots.room; takes = q.takes; appended = q.appended } };

    ghost invariant = { λ q. IsQueue (record { ranges = q.ranges.items; slots = q.slots.items; range_room = q.ranges.room; slot_room = q.slots.room; takes = q.takes; appended = q.appended }) };
}

impl<P: Pages> DecommitQueue<P> {
    /// An empty queue with room for so many ranges and slots.
    pub fn new(alloc: Global, ranges: usize, slots: usize) -> Result<Self, AllocError>
        ensures { IfOk result (λ q. q ≡ empty_queue ranges slots) }
    {
        let slots = SlotItems::new(alloc, slots)?;
        let ranges = RangeItems::new(alloc, ranges)?;
        Ok(DecommitQueue {
            ranges,
            slots,
            takes: 0,
            appended: 0,
        })
    }

    /// Notes a range of a slot, counted from the slot's base, before the slot itself is pushed.
    pub fn push_raw(
        &mut self,
        kind: QueueKind,
        slot: SlotId,
        start: HostAlignedByteCount,
        len: HostAlignedByteCount,
    )
        requires room { length self.old.ranges < self.old.range_room }
        requires not_held { holds (record { kind = slot_kind kind; slot = slot.0 }) self.old.slots ≡ false }
        ensures { self.new ≡ with_range (record { kind = kind; slot = slot; range = record { start = start.bytes; len = len.bytes } }) self.old }
    {
        let range = ByteRange {
            start: start.byte_count(),
            len: len.byte_count(),
        };
        self.push_range(QueuedRange { kind, slot, range });
    }

    /// Notes ranges of a slot, in order, before the slot itself is pushed.
    pub fn push_ranges(&mut self, kind: QueueKind, slot: SlotId, ranges: &[ByteRange])
        requires room { length self.old.ranges + length ranges.now ≤ self.old.range_room }
        requires not_held { holds (record { kind = slot_kind kind; slot = slot.0 }) self.old.slots ≡ false }
        ensures { self.new ≡ with_ranges kind slot.0 ranges.now self.old }
    {
        for at in 0..ranges.len() {
            self.push_range(QueuedRange {
                kind,
                slot,
                range: range_at(ranges, at),
            });
        }
    }

    fn push_range(&mut self, range: QueuedRange)
        requires room { length self.old.ranges < self.old.range_room }
        requires not_held { holds (owner range) self.old.slots ≡ false }
        ensures { self.new ≡ with_range range self.old }
    {
        self.ranges.push(range);
    }

    /// Takes a slot that is clean once the ranges that were pushed for it are decommitted. Of a stack that isn't zeroed
    /// nothing needs to be known. Only a decommit that fails makes a queue forget what it knows of a slot.
    pub fn push(&mut self, item: QueuedSlot<P>)
        requires room { length self.old.slots < self.old.slot_room }
        requires not_held { holds item.name self.old.slots ≡ false }
        requires clean { LeavesClean self.old.ranges item }
        requires known { IsGivenBack item }
        ensures { self.new ≡ with_slot item self.old }
    {
        self.slots.push(item);
        self.appended = self.appended.wrapping_add(1);
    }

    /// Takes a slot behind the ranges that its reset left, in order.
    pub fn push_reset(&mut self, kind: QueueKind, item: QueuedSlot<P>, ranges: &[ByteRange])
        requires kind { item.name.kind ≡ slot_kind kind }
        requires range_room { length self.old.ranges + length ranges.now ≤ self.old.range_room }
        requires slot_room { length self.old.slots < self.old.slot_room }
        requires owners { HasOwners self.old }
        requires not_held { holds item.name self.old.slots ≡ false }
        requires reset { IsReset ranges.now item }
        requires known { IsGivenBack item }
        ensures pushed { self.new ≡ with_slot item (with_ranges kind item.name.slot ranges.now self.old) }
        ensures owners { HasOwners self.new }
    {
        let slot = item.number();
        self.push_ranges(kind, SlotId(slot), ranges);
        self.push(item);
    }

    /// What holds of each queue, for a proof to cite: nothing of a known slot is forgotten. It does nothing.
    pub fn queue_law(&self)
        ensures forgets_nothing { ForgetsNothing self.now }
        ensures distinct { AreDistinct self.now.slots }
        ensures range_room { length self.now.ranges ≤ self.now.range_room }
        ensures slot_room { length self.now.slots ≤ self.now.slot_room }
    {
        // A read, at which the proof learns what the queue keeps.
        let _ranges = self.ranges.len();
    }

    /// How often the whole queue was taken, modulo 2^64. `take` alone raises it, by one.
    pub fn takes(&self) -> u64
        ensures { result ≡ self.now.takes }
    {
        self.takes
    }

    /// How many slots were ever pushed or appended, modulo 2^64. `push` raises it by one, and `append` by the number of the
    /// slots that come in. What leaves the queue doesn't lower it.
    pub fn appended(&self) -> u64
        ensures { result ≡ self.now.appended }
    {
        self.appended
    }

    /// The number of ranges.
    pub fn raw_len(&self) -> usize
        ensures value { result ≡ length self.now.ranges }
        ensures within { length self.now.ranges ≤ self.now.range_room }
    {
        self.ranges.len()
    }

    /// Whether no slot is held.
    pub fn is_empty(&self) -> bool
        ensures value { result ≡ (length self.now.slots == 0) }
        ensures within { length self.now.slots ≤ self.now.slot_room }
        ensures distinct { AreDistinct self.now.slots }
    {
        self.slots.is_empty()
    }

    /// The calls made so far on the regions of the slots, together.
    pub fn page_calls(&self) -> PageCalls
        ensures { result ≡ calls_held self.now.slots }
    {
        let mut calls = PageCalls::none();
        for at in 0..self.slots.len() {
            calls = calls.plus(self.slots.get(at).page_calls());
        }
        calls
    }

    // What holds of the region of each slot. It does nothing.
    pub(crate) fn failures_law(&self)
        ensures { QueueFailsAsListed self.now }
    {
        for at in 0..self.slots.len() {
            self.slots.get(at).failures_law();
        }
    }

    /// Moves the other queue's ranges behind these, and its slots of each kind behind those of that kind. The other queue is
    /// empty then.
    pub fn append(&mut self, other: &mut DecommitQueue<P>)
        requires range_room { length self.old.ranges + length other.old.ranges ≤ self.old.range_room }
        requires slot_room { length self.old.slots + length other.old.slots ≤ self.old.slot_room }
        requires owners { HasOwners self.old }
        requires other_owners { HasOwners other.old }
        requires apart { AreApart self.old.slots other.old.slots }
        ensures joined { self.new ≡ after_append self.old other.old }
        ensures empty { other.new ≡ drained other.old }
        ensures owners { HasOwners self.new }
    {
        self.appended = self.appended.wrapping_add(other.slots.len() as u64);
        self.slots.append(&mut other.slots);
        self.ranges.append(&mut other.ranges);
    }

    /// Takes all ranges and slots at once, into an empty queue with the same room, and counts the take.
    pub fn take(&mut self, spare: &mut DecommitQueue<P>)
        requires { IsSpareOf self.old spare.old }
        ensures after { self.new ≡ after_take self.old }
        ensures taken { spare.new ≡ taken_into spare.old self.old }
    {
        self.swap(spare);
        self.takes = self.takes.wrapping_add(1);
    }

    /// Moves all ranges and slots into an empty queue with the same room, as a merge does that makes a batch full. It
    /// doesn't count as a take.
    pub fn swap(&mut self, spare: &mut DecommitQueue<P>)
        requires { IsSpareOf self.old spare.old }
        ensures after { self.new ≡ drained self.old }
        ensures taken { spare.new ≡ taken_into spare.old self.old }
    {
        mem::swap(&mut self.ranges, &mut spare.ranges);
        mem::swap(&mut self.slots, &mut spare.slots);
    }

    /// Appends the local queue, and moves the whole queue into it where there are as many ranges as a batch then. Answers
    /// whether it did. That is no take.
    pub fn merge(&mut self, local: &mut DecommitQueue<P>, batch: usize) -> bool
        requires { CanMerge self.old local.old }
        ensures value { result ≡ fills batch local.old self.old }
        ensures after { self.new ≡ merged result local.old self.old }
        ensures local { local.new ≡ merged_local result local.old self.old }
    {
        self.append(local);
        let full = self.raw_len() >= batch;
        if full {
            self.swap(local);
        }
        full
    }

    /// Decommits the ranges at the front that are of one slot, in order. Ranges of no length make no page call. Where a
    /// decommit fails, the further ranges are dropped, and nothing is known of any slot that is held.
    ///
    /// The slot is looked for from that of the run before on its kind, so that a flush goes through the slots once where the
    /// runs on a kind stand in the order of its slots.
    pub fn decommit_run(&mut self) -> Result<(), PageFault>
        requires some { 0 < length self.old.ranges }
        requires owners { HasOwners self.old }
        ensures ok { OnOk result (self.new ≡ after_run self.old) }
        ensures err { OnErr result (IsFaulted self.old self.new) }
        ensures order { AreInOrder (first_slot self.old.ranges) (run_of (first_slot self.old.ranges) self.old.ranges) (is_ok result) self.old.slots self.new.slots }
        ensures owners { HasOwners self.new }
    {
        let slot = self.first_slot();
        let at = self.slots.place_of(slot);
        self.decommit_all_of(slot, at)
    }

    fn first_slot(&self) -> SlotName
        requires { 0 < length self.now.ranges }
        ensures { result ≡ first_slot self.now.ranges }
    {
        let Some(first) = self.ranges.first() else {
            unreachable!()
        };
        owner(first)
    }

    // Decommits the ranges at the front that are of the slot at this place.
    fn decommit_all_of(&mut self, slot: SlotName, at: usize) -> Result<(), PageFault>
        requires first { first_slot self.old.ranges ≡ slot }
        requires inside { at < length self.old.slots }
        requires index { HoldsAt (λ m. m.name ≡ slot) self.old.slots at }
        requires owners { HasOwners self.old }
        ensures ok { OnOk result (self.new ≡ after_run_of slot self.old) }
        ensures err { OnErr result (IsFaulted self.old self.new) }
        ensures order { AreInOrder slot (run_of slot self.old.ranges) (is_ok result) self.old.slots self.new.slots }
        ensures owners { HasOwners self.new }
    {
        while self.continues(slot) {
            self.decommit_first(at)?;
        }
        Ok(())
    }

    // Decommits the first range, which is of the slot at this place.
    fn decommit_first(&mut self, at: usize) -> Result<(), PageFault>
        requires inside { at < length self.old.slots }
        requires some { 0 < length self.old.ranges }
        requires index { HoldsAt (λ m. begins_with m.name self.old.ranges ≡ true) self.old.slots at }
        ensures ok { OnOk result (self.new ≡ after_first self.old) }
        ensures err { OnErr result (IsFaulted self.old self.new) }
        ensures order { AreInOrder (first_slot self.old.ranges) (first_of self.old.ranges) (is_ok result) self.old.slots self.new.slots }
    {
        let Some(first) = self.ranges.pop_front() else {
            unreachable!()
        };
        match self.slots.decommit(at, first.range) {
            Ok(()) => Ok(()),
            Err(fault) => {
                self.ranges.clear();
                self.slots.forget();
                Err(fault)
            }
        }
    }

    // Whether the first range is of this slot.
    fn continues(&self, slot: SlotName) -> bool
        ensures { result ≡ begins_with slot self.now.ranges }
    {
        match self.ranges.first() {
            Some(range) => same_slot(owner(range), slot),
            None => false,
        }
    }

    /// Whether a slot of a kind is held.
    pub fn holds_kind(&self, kind: SlotKind) -> bool
        ensures { result ≡ is_some (first_of_kind kind self.now.slots) }
    {
        self.slots.holds_kind(kind)
    }

    /// The name of the first slot of a kind, which `pop` takes out.
    pub fn first_name(&self, kind: SlotKind) -> Option<SlotName>
        ensures { result ≡ option_map (λ m. m.name) (first_of_kind kind self.now.slots) }
    {
        self.slots.first_name(kind)
    }

    /// Whether a slot of a kind is to be zeroed by hand, so that `zero_next` zeroes one. Unless a decommit failed this takes no
    /// look at the slots.
    pub fn has_to_zero(&self, kind: SlotKind) -> bool
        ensures { result ≡ list_any (is_to_zero kind) self.now.slots }
    {
        self.slots.has_to_zero(kind)
    }

    /// Zeroes by hand the first slot of a kind of which nothing is known since a decommit failed, where its kind is zeroed so.
    /// It is clean then. Answers whether there was one.
    pub fn zero_next(&mut self, kind: SlotKind) -> bool
        requires { self.old.ranges ≡ [] }
        ensures value { result ≡ list_any (is_to_zero kind) self.old.slots }
        ensures zeroed { self.new ≡ record self.old { slots = first_zeroed kind self.old.slots } }
    {
        self.slots.zero_first(kind)
    }

    /// Takes out the first slot of a kind. It is clean where it is known. The others keep their order.
    pub fn pop(&mut self, kind: SlotKind) -> Option<QueuedSlot<P>>
        requires { self.old.ranges ≡ [] }
        ensures value { result ≡ first_of_kind kind self.old.slots }
        ensures others { self.new ≡ record self.old { slots = others_of_kind kind self.old.slots } }
        ensures settled { IfSome result IsSettled }
    {
        self.slots.take_first(kind)
    }
}

// The slot that a range is of.
fn owner(range: QueuedRange) -> SlotName
    ensures { result ≡ owner range }
{
    SlotName {
        kind: range.kind.slot_kind(),
        slot: range.slot.0,
    }
}

fn range_at(ranges: &[ByteRange], at: usize) -> ByteRange
    requires { at < length ranges.now }
    ensures { (d : ByteRange) → result ≡ slice_index_or ranges.now at d }
{
    ranges[at]
}
