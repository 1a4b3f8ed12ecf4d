ghost use Rattle.std.specs.Prelude.{◌≡◌, ◌+◌, ◌≤◌, [], length, replicate, slice_range, true, All, IfSome};
ghost use Rattle.pool_images.specs.Slots.{IsPart, IsClean, size_of, decommitted_all};
ghost use Rattle.pool_slots.specs.PlainSlots.{IsPlain, plain_written, stack_kept, stack_ranges, stack_zeroed};
ghost use Rattle.pool_slots.specs.SlotQueues.{IsGivenBack, plain_slot};
ghost use Rattle.pool_slots.specs.HeldSlots.{stack_item};

use crate::plain_slot::PlainSlot;
use crate::queued_slot::{HeldSlot, PlainHeld, QueuedSlot};
use crate::slot_name::RegionNumbers;
use pool_images::Ranges;
use pool_pages::{PageCalls, Pages};
use pool_types::HostAlignedByteCount;
use std::marker::Model;

/// A fiber's stack: the usable bytes of its region, which lie behind the guard page.
#[derive(Drop)]
pub struct Stack<P: Pages> {
    index: u32,
    slot: PlainSlot<P>,
    // Whether it is given back zeroed.
    zeroing: bool,
}

impl<P: Pages> Model for Stack<P> {
    ghost use Rattle.pool_slots.specs.PlainSlots.{StackState};

    ghost Value = { StackState };

    ghost view = { λ s. record { index = s.index; slot = s.slot; zeroing = s.zeroing } };
}

impl<P: Pages> Stack<P> {
    /// The stack in a slot's region whose first page is the guard page, which can't be reached.
    pub fn new(index: u32, region: P, guard: HostAlignedByteCount, zeroing: bool) -> Self
        requires { IsPlain (plain_slot guard.bytes (P.told region)) }
        ensures { result ≡ record { index = index; slot = plain_slot guard.bytes (P.told region); zeroing = zeroing } }
    {
        Stack {
            index,
            slot: PlainSlot::new(region, guard),
            zeroing,
        }
    }

    /// The slot that the stack is in.
    pub fn index(&self) -> u32
        ensures { result ≡ self.now.index }
    {
        self.index
    }

    /// The usable bytes.
    pub fn len(&self) -> usize
        ensures value { result ≡ self.now.slot.static_size }
        ensures plain { IsPlain self.now.slot }
    {
        self.slot.len()
    }

    /// Reads usable bytes from `at` on.
    pub fn read(&self, at: usize, out: &mut [u8])
        requires { at + length out.old ≤ self.now.slot.static_size }
        ensures { IfSome self.now.slot.region.contents (λ c. out.new ≡ slice_range c.bytes (self.now.slot.base.bytes + at) (self.now.slot.base.bytes + at + length out.old)) }
    {
        self.slot.read(at, out)
    }

    /// Writes usable bytes from `at` on.
    pub fn write(&mut self, at: usize, bytes: &[u8])
        requires { at + length bytes.now ≤ self.old.slot.static_size }
        ensures { self.new ≡ record self.old { slot = plain_written at bytes.now self.old.slot } }
    {
        self.slot.write(at, bytes);
    }

    /// Sets `len` usable bytes from `at` on to one value, as a write of them all does.
    pub fn fill(&mut self, at: usize, len: usize, byte: u8)
        requires { at + len ≤ self.old.slot.static_size }
        ensures { self.new ≡ record self.old { slot = plain_written at (replicate len byte) self.old.slot } }
    {
        self.slot.fill(at, len, byte);
    }

    /// The calls made so far on the stack's region.
    pub fn page_calls(&self) -> PageCalls
        ensures { result ≡ self.now.slot.region.calls }
    {
        self.slot.page_calls()
    }

    /// Zeroes the stack where it is given back zeroed (Wasmtime's `zero_stack`): the top of it by hand, as much as is kept
    /// resident, and the rest is left in `ranges`, also where it is empty. Otherwise does nothing and answers 0. `ranges` must
    /// be empty.
    pub fn zero(&mut self, keep_resident: HostAlignedByteCount, ranges: &mut Ranges) -> usize
        requires page { keep_resident.page ≡ self.old.slot.region.page }
        requires empty { ranges.old ≡ [] }
        ensures resident { result ≡ stack_kept self.old.zeroing keep_resident.bytes self.old }
        ensures ranges { ranges.new ≡ stack_ranges self.old.zeroing keep_resident.bytes self.old }
        ensures value { self.new ≡ stack_zeroed self.old.zeroing keep_resident.bytes self.old }
        ensures parts { All (IsPart self.new.slot.region.page (size_of self.new.slot)) ranges.new }
        ensures clean_after { self.old.zeroing ≡ true → IsClean (decommitted_all ranges.new self.new.slot) }
    {
        if !self.zeroing {
            return 0;
        }
        self.slot.reset_below_top(keep_resident, ranges)
    }

    /// The stack on its way back: it is clean once its ranges are decommitted, and all of it is zeroed by hand where a decommit
    /// fails. Nothing is known of one that isn't given back zeroed.
    pub fn into_queued(self, bytes: usize, numbers: RegionNumbers) -> QueuedSlot<P>
        ensures item { result ≡ stack_item self bytes numbers }
        ensures known { IsGivenBack result }
    {
        let len = self.slot.len();
        let by_hand = if self.zeroing { Some(len) } else { None };
        let (region, base) = self.slot.into_parts();
        QueuedSlot {
            slot: self.index,
            held: HeldSlot::Stack(PlainHeld {
                region,
                base,
                by_hand,
            }),
            known: self.zeroing,
            bytes,
            numbers,
        }
    }
}
