ghost use Rattle.std.specs.Prelude.{◌≡◌, ◌+◌, ◌<◌, ◌≤◌, ◌==◌, ◌^◌, [], ◌∷◌, ◌++◌, ◌↔◌, length, map, slice_index_or, slice_set, false, true, ℕ, ◌||◌, is_ok, IsSome, IfOk, IfSome, OnOk, OnErr, MatchOption, option_map, slice_get};
ghost use Rattle.std.specs.List.{AllByRecursion, HoldsAt, list_any};
ghost use Rattle.std.specs.Option.{option_to_list};
ghost use Rattle.pool_images.specs.Orders.{Follows};
ghost use Rattle.pool_images.specs.Slots.{IsPart, IsSlot, size_of};
ghost use Rattle.pool_slots.specs.SlotQueues.{decommitted_at, Queued, CanBeZeroed, same_slot, holds, forgotten, IsLeftItem, is_to_zero, AreNoted, first_zeroed, zeroed};
ghost use Rattle.pool_slots.specs.SlotOrders.{decommits};

use crate::queued_slot::QueuedSlot;
use crate::slot_name::{SlotName, same_slot};
use pool_images::ByteRange;
use pool_index::SlotKind;
use pool_pages::{PageFault, Pages};
use std::alloc::{AllocError, Global};
use std::collections::VecDeque;
use std::marker::Model;

/// The slots of one kind in a queue, in order, with room for so many. What is pushed within the room takes no memory. Where no
/// decommit failed, the slots aren't looked through for one that is to be zeroed by hand.
#[derive(Drop)]
pub(crate) struct KindItems<P: Pages> {
    list: VecDeque<QueuedSlot<P>>,
    room: usize,
    // Where the search for the slot of a run of ranges begins.
    cursor: usize,
    // Whether a slot may be held that is to be zeroed by hand. Unless it is noted so, none is.
    noted: bool,
}

impl<P: Pages> Model for KindItems<P> {
    ghost use Rattle.std.specs.Prelude.{◌≤◌, length};
    ghost use Rattle.std.specs.VecDeque.{deque_capacity};
    ghost use Rattle.pool_slots.specs.SlotQueues.{QueuedList, AreNoted};

    ghost Value = { QueuedList };

    ghost view = { λ l. record { items = l.list.items; room = l.room } };

    ghost invariant = { λ l. (length l.list.items ≤ l.room) × (l.room ≤ deque_capacity l.list) × AreNoted l.noted l.list.items };
}

impl<P: Pages> KindItems<P> {
    pub(crate) fn new(alloc: Global, room: usize) -> Result<Self, AllocError>
        ensures { IfOk result (λ l. l ≡ record { items = []; room = room }) }
    {
        let list = VecDeque::with_capacity(alloc, room)?;
        Ok(KindItems {
            list,
            room,
            cursor: 0,
            noted: false,
        })
    }

    pub(crate) fn len(&self) -> usize
        ensures value { result ≡ length self.now.items }
        ensures within { length self.now.items ≤ self.now.room }
        ensures bounded { self.now.room < 2 ^ 64 }
    {
        self.list.len()
    }

    pub(crate) fn is_empty(&self) -> bool
        ensures { result ≡ (length self.now.items == 0) }
    {
        self.list.is_empty()
    }

    pub(crate) fn get(&self, at: usize) -> &QueuedSlot<P>
        requires { at < length self.now.items }
        ensures { result.now ≡ slice_index_or self.now.items at result.now }
    {
        &self.list[at]
    }

    /// The name of the first slot.
    pub(crate) fn first_name(&self) -> Option<SlotName>
        ensures { result ≡ option_map (λ m. m.name) (slice_get self.now.items 0) }
    {
        if self.is_empty() {
            return None;
        }
        Some(self.get(0).name())
    }

    pub(crate) fn push(&mut self, item: QueuedSlot<P>)
        requires { length self.old.items < self.old.room }
        ensures { self.new ≡ record self.old { items = self.old.items ++ item ∷ [] } }
    {
        self.noted = either(self.may_be_unzeroed(), item.is_unzeroed());
        self.list.push_back_reserved(item);
    }

    // Whether a slot may be held that is to be zeroed by hand: none is in an empty list.
    fn may_be_unzeroed(&self) -> bool
        ensures { AreNoted result self.now.items }
    {
        self.noted && !self.list.is_empty()
    }

    /// Takes out the first slot, if there is one.
    pub(crate) fn pop_front(&mut self) -> Option<QueuedSlot<P>>
        ensures items { self.old.items ≡ option_to_list result ++ self.new.items }
        ensures variant { IsSome result ↔ (0 < length self.old.items) }
        ensures room { self.new.room ≡ self.old.room }
    {
        self.cursor = 0;
        self.list.pop_front()
    }

    /// The place of the slot with this name. It is looked for from the slot before on that a range of was decommitted.
    pub(crate) fn place_of(&self, slot: SlotName) -> usize
        requires { holds slot self.now.items ≡ true }
        ensures inside { result < length self.now.items }
        ensures index { HoldsAt (λ m. m.name ≡ slot) self.now.items result }
    {
        let len = self.len();
        let from = self.cursor.min(len);
        match self.place_within(slot, from, len) {
            Some(at) => at,
            None => match self.place_within(slot, 0, from) {
                Some(at) => at,
                None => unreachable!(),
            },
        }
    }

    // The place of the slot with this name, among some.
    #[tactic(auto, using(crate::proofs::SlotNames::slot_at_last))]
    fn place_within(&self, slot: SlotName, from: usize, to: usize) -> Option<usize>
        requires { to ≤ length self.now.items }
        ensures { MatchOption result ((k : ℕ) → from ≤ k → k < to → HoldsAt (λ m. same_slot slot m.name ≡ false) self.now.items k) (λ at. (at < to) × HoldsAt (λ m. m.name ≡ slot) self.now.items at) }
    {
        for at in from..to {
            if same_slot(slot, self.get(at).name()) {
                return Some(at);
            }
        }
        None
    }

    /// Moves all of the other list behind these.
    pub(crate) fn append(&mut self, other: &mut KindItems<P>)
        requires { length self.old.items + length other.old.items ≤ self.old.room }
        ensures value { self.new ≡ record self.old { items = self.old.items ++ other.old.items } }
        ensures other { other.new ≡ record other.old { items = [] } }
    {
        self.noted = either(self.may_be_unzeroed(), other.may_be_unzeroed());
        other.noted = false;
        let Ok(()) = self.list.append(&mut other.list) else {
            unreachable!()
        };
    }

    // Decommits a range of the slot at a place.
    pub(crate) fn decommit(&mut self, at: usize, range: ByteRange) -> Result<(), PageFault>
        requires inside { at < length self.old.items }
        requires part { HoldsAt (λ m. IsPart m.slot.region.page (size_of m.slot) range × IsSlot m.slot) self.old.items at }
        ensures ok { OnOk result (HoldsAt (λ m. self.new ≡ record self.old { items = slice_set self.old.items at (record m { slot = decommitted_at range m.slot }) }) self.old.items at) }
        ensures err { OnErr result (HoldsAt (λ m. (n : Queued) × IsLeftItem range m n × (self.new ≡ record self.old { items = slice_set self.old.items at n })) self.old.items at) }
        ensures order { HoldsAt (λ m. HoldsAt (λ n. Follows (decommits m.slot.base.bytes (range ∷ [])) (is_ok result) m.slot.region n.slot.region) self.new.items at) self.old.items at }
    {
        self.cursor = at;
        let item = &mut self.list[at];
        item.decommit(range)
    }

    // Nothing is known of any slot from now on.
    pub(crate) fn forget(&mut self)
        ensures { self.new ≡ record self.old { items = map forgotten self.old.items } }
    {
        for at in 0..self.list.len() {
            self.forget_at(at);
        }
    }

    // Nothing is known of the slot at a place from now on.
    fn forget_at(&mut self, at: usize)
        requires { at < length self.old.items }
        ensures { HoldsAt (λ m. self.new ≡ record self.old { items = slice_set self.old.items at (forgotten m) }) self.old.items at }
    {
        let item = &mut self.list[at];
        item.forget();
        self.noted = either(self.noted, item.is_unzeroed());
    }

    /// Zeroes by hand the first slot of a kind that is still to be zeroed. Answers whether there was one.
    pub(crate) fn zero_first(&mut self, kind: SlotKind) -> bool
        requires { AllByRecursion (λ m. IfSome m.by_hand (λ n. CanBeZeroed n m.slot)) self.old.items }
        ensures value { result ≡ list_any (is_to_zero kind) self.old.items }
        ensures zeroed { self.new ≡ record self.old { items = first_zeroed kind self.old.items } }
    {
        if self.may_be_unzeroed() {
            self.look_and_zero(kind)
        } else {
            false
        }
    }

    // Looks for the first slot of a kind that is still to be zeroed by hand, and zeroes it.
    fn look_and_zero(&mut self, kind: SlotKind) -> bool
        requires { AllByRecursion (λ m. IfSome m.by_hand (λ n. CanBeZeroed n m.slot)) self.old.items }
        ensures value { result ≡ list_any (is_to_zero kind) self.old.items }
        ensures zeroed { self.new ≡ record self.old { items = first_zeroed kind self.old.items } }
    {
        let len = self.len();
        match self.place_to_zero(kind, len) {
            Some(at) => {
                self.zero_at(at);
                true
            }
            None => false,
        }
    }

    /// Whether a slot of a kind is still to be zeroed by hand.
    pub(crate) fn has_to_zero(&self, kind: SlotKind) -> bool
        ensures { result ≡ list_any (is_to_zero kind) self.now.items }
    {
        if self.may_be_unzeroed() {
            self.finds_to_zero(kind)
        } else {
            false
        }
    }

    // Looks whether a slot of a kind is still to be zeroed by hand.
    fn finds_to_zero(&self, kind: SlotKind) -> bool
        ensures { result ≡ list_any (is_to_zero kind) self.now.items }
    {
        match self.place_to_zero(kind, self.len()) {
            Some(_) => true,
            None => false,
        }
    }

    // The place of the first slot of a kind that is still to be zeroed, among the first ones.
    fn place_to_zero(&self, kind: SlotKind, to: usize) -> Option<usize>
        requires { to ≤ length self.now.items }
        ensures { MatchOption result ((k : ℕ) → k < to → HoldsAt (λ m. is_to_zero kind m ≡ false) self.now.items k) (λ at. (at < to) × ((k : ℕ) → k < at → HoldsAt (λ m. is_to_zero kind m ≡ false) self.now.items k) × HoldsAt (λ m. is_to_zero kind m ≡ true) self.now.items at) }
    {
        for at in 0..to {
            if self.is_to_zero(at, kind) {
                return Some(at);
            }
        }
        None
    }

    // Whether the slot at a place is of this kind and still to be zeroed.
    fn is_to_zero(&self, at: usize, kind: SlotKind) -> bool
        requires { at < length self.now.items }
        ensures { HoldsAt (λ m. result ≡ is_to_zero kind m) self.now.items at }
    {
        self.list[at].is_to_zero(kind)
    }

    // Zeroes by hand the slot at a place.
    fn zero_at(&mut self, at: usize)
        requires inside { at < length self.old.items }
        requires can { HoldsAt (λ m. IfSome m.by_hand (λ n. CanBeZeroed n m.slot)) self.old.items at }
        ensures { HoldsAt (λ m. self.new ≡ record self.old { items = slice_set self.old.items at (zeroed m) }) self.old.items at }
    {
        let item = &mut self.list[at];
        item.zero();
    }
}

fn either(one: bool, other: bool) -> bool
    ensures { result ≡ (one || other) }
{
    one || other
}
