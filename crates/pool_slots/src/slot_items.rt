ghost use Rattle.std.specs.Prelude.{◌≡◌, ◌+◌, ◌<◌, ◌≤◌, ◌==◌, [], ◌∷◌, ◌++◌, length, map, slice_index_or, slice_set, true, is_ok, is_some, IfOk, IfSome, OnOk, OnErr, option_map};
ghost use Rattle.std.specs.List.{AllByRecursion, HoldsAt, list_any};
ghost use Rattle.pool_images.specs.Orders.{Follows};
ghost use Rattle.pool_images.specs.Slots.{IsPart, IsSlot, size_of};
ghost use Rattle.pool_slots.specs.SlotQueues.{decommitted_at, Queued, CanBeZeroed, holds, by_kind, first_of_kind, others_of_kind, forgotten, IsLeftItem, is_to_zero, first_zeroed};
ghost use Rattle.pool_slots.specs.SlotOrders.{decommits};

use crate::kind_items::KindItems;
use crate::queued_range::QueueKind;
use crate::queued_slot::QueuedSlot;
use crate::slot_name::SlotName;
use pool_images::ByteRange;
use pool_index::SlotKind;
use pool_pages::{PageFault, Pages};
use std::alloc::{AllocError, Global};
use std::marker::Model;

/// Slots kind by kind, those of a kind in order, with room for so many. What is pushed within the room takes no memory: each
/// kind has a list with room for all. The first of a kind is found and taken out without a look at another slot.
#[derive(Drop)]
pub struct SlotItems<P: Pages> {
    memories: KindItems<P>,
    tables: KindItems<P>,
    stacks: KindItems<P>,
}

impl<P: Pages> Model for SlotItems<P> {
    ghost use Rattle.std.specs.Prelude.{◌++◌};
    ghost use Rattle.pool_slots.specs.SlotQueues.{QueuedList};
    ghost use Rattle.pool_slots.specs.KindLists.{AreKindLists};

    ghost Value = { QueuedList };

    ghost view = { λ l. record { items = l.memories.items ++ (l.tables.items ++ l.stacks.items); room = l.memories.room } };

    ghost invariant = { λ l. AreKindLists l.memories l.tables l.stacks };
}

impl<P: Pages> SlotItems<P> {
    pub fn new(alloc: Global, room: usize) -> Result<Self, AllocError>
        ensures { IfOk result (λ l. l ≡ record { items = []; room = room }) }
    {
        let memories = KindItems::new(alloc, room)?;
        let tables = KindItems::new(alloc, room)?;
        let stacks = KindItems::new(alloc, room)?;
        Ok(SlotItems {
            memories,
            tables,
            stacks,
        })
    }

    pub fn len(&self) -> usize
        ensures value { result ≡ length self.now.items }
        ensures within { length self.now.items ≤ self.now.room }
    {
        self.memories.len() + self.tables.len() + self.stacks.len()
    }

    pub fn is_empty(&self) -> bool
        ensures { result ≡ (length self.now.items == 0) }
    {
        self.memories.is_empty() && self.tables.is_empty() && self.stacks.is_empty()
    }

    pub fn get(&self, at: usize) -> &QueuedSlot<P>
        requires { at < length self.now.items }
        ensures { result.now ≡ slice_index_or self.now.items at result.now }
    {
        let memories = self.memories.len();
        let tables = self.tables.len();
        if at < memories {
            self.memories.get(at)
        } else if at - memories < tables {
            self.tables.get(at - memories)
        } else {
            self.stacks.get(at - memories - tables)
        }
    }

    /// Adds a slot behind the last of its kind.
    pub fn push(&mut self, item: QueuedSlot<P>)
        requires { length self.old.items < self.old.room }
        ensures { self.new ≡ record self.old { items = by_kind (self.old.items ++ item ∷ []) } }
    {
        match item.queue_kind() {
            QueueKind::Memory => self.memories.push(item),
            QueueKind::Table => self.tables.push(item),
            QueueKind::Stack => self.stacks.push(item),
        }
    }

    /// Takes out the first slot of a kind. The others keep their order.
    pub fn take_first(&mut self, kind: SlotKind) -> Option<QueuedSlot<P>>
        ensures value { result ≡ first_of_kind kind self.old.items }
        ensures others { self.new ≡ record self.old { items = others_of_kind kind self.old.items } }
    {
        match kind {
            SlotKind::Memory => self.memories.pop_front(),
            SlotKind::Table => self.tables.pop_front(),
            SlotKind::Stack => self.stacks.pop_front(),
            SlotKind::Heap => None,
        }
    }

    /// Whether there is a slot of a kind.
    pub fn holds_kind(&self, kind: SlotKind) -> bool
        ensures { result ≡ is_some (first_of_kind kind self.now.items) }
    {
        match kind {
            SlotKind::Memory => !self.memories.is_empty(),
            SlotKind::Table => !self.tables.is_empty(),
            SlotKind::Stack => !self.stacks.is_empty(),
            SlotKind::Heap => false,
        }
    }

    /// The name of the first slot of a kind.
    pub(crate) fn first_name(&self, kind: SlotKind) -> Option<SlotName>
        ensures { result ≡ option_map (λ m. m.name) (first_of_kind kind self.now.items) }
    {
        match kind {
            SlotKind::Memory => self.memories.first_name(),
            SlotKind::Table => self.tables.first_name(),
            SlotKind::Stack => self.stacks.first_name(),
            SlotKind::Heap => None,
        }
    }

    /// Moves all of the other list in, kind by kind, those of a kind behind these.
    pub fn append(&mut self, other: &mut SlotItems<P>)
        requires { length self.old.items + length other.old.items ≤ self.old.room }
        ensures value { self.new ≡ record self.old { items = by_kind (self.old.items ++ other.old.items) } }
        ensures other { other.new ≡ record other.old { items = [] } }
    {
        self.memories.append(&mut other.memories);
        self.tables.append(&mut other.tables);
        self.stacks.append(&mut other.stacks);
    }

    // The place of the slot with this name.
    pub(crate) fn place_of(&self, slot: SlotName) -> usize
        requires { holds slot self.now.items ≡ true }
        ensures inside { result < length self.now.items }
        ensures index { HoldsAt (λ m. m.name ≡ slot) self.now.items result }
    {
        let memories = self.memories.len();
        let tables = self.tables.len();
        match slot.kind {
            SlotKind::Memory => self.memories.place_of(slot),
            SlotKind::Table => memories + self.tables.place_of(slot),
            SlotKind::Stack => memories + tables + self.stacks.place_of(slot),
            SlotKind::Heap => unreachable!(),
        }
    }

    // Decommits a range of the slot at a place.
    pub(crate) fn decommit(&mut self, at: usize, range: ByteRange) -> Result<(), PageFault>
        requires inside { at < length self.old.items }
        requires part { HoldsAt (λ m. IsPart m.slot.region.page (size_of m.slot) range × IsSlot m.slot) self.old.items at }
        ensures ok { OnOk result (HoldsAt (λ m. self.new ≡ record self.old { items = slice_set self.old.items at (record m { slot = decommitted_at range m.slot }) }) self.old.items at) }
        ensures err { OnErr result (HoldsAt (λ m. (n : Queued) × IsLeftItem range m n × (self.new ≡ record self.old { items = slice_set self.old.items at n })) self.old.items at) }
        ensures order { HoldsAt (λ m. HoldsAt (λ n. Follows (decommits m.slot.base.bytes (range ∷ [])) (is_ok result) m.slot.region n.slot.region) self.new.items at) self.old.items at }
    {
        let memories = self.memories.len();
        let tables = self.tables.len();
        if at < memories {
            self.memories.decommit(at, range)
        } else if at - memories < tables {
            self.tables.decommit(at - memories, range)
        } else {
            self.stacks.decommit(at - memories - tables, range)
        }
    }

    // Nothing is known of any slot from now on.
    pub(crate) fn forget(&mut self)
        ensures { self.new ≡ record self.old { items = map forgotten self.old.items } }
    {
        self.memories.forget();
        self.tables.forget();
        self.stacks.forget();
    }

    /// Whether a slot of a kind is still to be zeroed by hand.
    pub(crate) fn has_to_zero(&self, kind: SlotKind) -> bool
        ensures { result ≡ list_any (is_to_zero kind) self.now.items }
    {
        match kind {
            SlotKind::Memory => self.memories.has_to_zero(kind),
            SlotKind::Table => self.tables.has_to_zero(kind),
            SlotKind::Stack => self.stacks.has_to_zero(kind),
            SlotKind::Heap => false,
        }
    }

    /// Zeroes by hand the first slot of a kind that is still to be zeroed. Answers whether there was one.
    pub(crate) fn zero_first(&mut self, kind: SlotKind) -> bool
        requires { AllByRecursion (λ m. IfSome m.by_hand (λ n. CanBeZeroed n m.slot)) self.old.items }
        ensures value { result ≡ list_any (is_to_zero kind) self.old.items }
        ensures zeroed { self.new ≡ record self.old { items = first_zeroed kind self.old.items } }
    {
        match kind {
            SlotKind::Memory => self.memories.zero_first(kind),
            SlotKind::Table => self.tables.zero_first(kind),
            SlotKind::Stack => self.stacks.zero_first(kind),
            SlotKind::Heap => false,
        }
    }
}
