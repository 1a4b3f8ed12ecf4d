ghost use Rattle.std.specs.Prelude.{◌≡◌, ◌+◌, ◌∷◌, [], is_ok, is_some, IfSome, OnOk, OnErr};
ghost use Rattle.std.specs.Option.{option_map_or};
ghost use Rattle.pool_pages.specs.Told.{Faulted, TellsShaped, succeeded, decommitting};
ghost use Rattle.pool_images.specs.Orders.{Follows};
ghost use Rattle.pool_images.specs.Slots.{IsPart, IsSlot, CallFaulted, size_of};
ghost use Rattle.pool_slots.specs.SlotQueues.{decommitted_at, plain_slot, CanBeZeroed, IsLeftSlot, IsLeftItem, zeroed_slot, is_to_zero, is_unzeroed, zeroed, forgotten, forgotten_slot};
ghost use Rattle.pool_slots.specs.SlotNames.{slot_kind};
ghost use Rattle.pool_slots.specs.SlotOrders.{decommits};
ghost use Rattle.pool_slots.specs.HeldSlots.{held_slot, held_kind, by_hand_of};

use crate::queued_range::QueueKind;
use crate::slot_name::{RegionNumbers, SlotName, same_kind};
use pool_images::{ByteRange, MemoryImageSlot};
use pool_index::SlotKind;
use pool_pages::{PageCalls, PageFault, PageRegion, Pages};
use pool_types::HostAlignedByteCount;
use std::marker::Model;

/// What a queue holds of a slot.
#[derive(Drop)]
pub enum HeldSlot<P: Pages> {
    /// The slot of a memory, with the image that is mapped in it.
    Memory(MemoryImageSlot<P>),
    /// The region of a table.
    Table(PlainHeld<P>),
    /// The region of a stack.
    Stack(PlainHeld<P>),
}

/// What a queue holds of the slot of a table or a stack.
#[derive(Drop)]
pub struct PlainHeld<P: Pages> {
    pub region: PageRegion<P>,
    /// The byte of the region that the slot begins at.
    pub base: HostAlignedByteCount,
    /// How many bytes from there on are zeroed by hand where a decommit fails, unless it isn't zeroed at all.
    pub by_hand: Option<usize>,
}

/// A slot on its way back to its pool.
#[derive(Drop)]
pub struct QueuedSlot<P: Pages> {
    /// The slot's number among those of its kind.
    pub slot: u32,
    pub held: HeldSlot<P>,
    /// Whether the slot is clean, once its ranges in the same queue are decommitted.
    pub known: bool,
    /// How many bytes the slot keeps resident.
    pub bytes: usize,
    /// What the unit of the slot's region tells.
    pub numbers: RegionNumbers,
}

impl<P: Pages> Model for QueuedSlot<P> {
    ghost use Rattle.pool_slots.specs.SlotQueues.{Queued};

    ghost Value = { Queued };

    ghost use Rattle.pool_slots.specs.HeldSlots.{held_slot, held_kind, by_hand_of};

    ghost view = { λ m. record { name = record { kind = held_kind m.held; slot = m.slot }; slot = held_slot m.held; known = m.known; bytes = m.bytes; by_hand = by_hand_of m.held; numbers = m.numbers } };
}

impl<P: Pages> QueuedSlot<P> {
    /// The slot's number among those of its kind.
    pub fn number(&self) -> u32
        ensures { result ≡ self.now.name.slot }
    {
        self.slot
    }

    pub fn name(&self) -> SlotName
        ensures { result ≡ self.now.name }
    {
        SlotName {
            kind: self.held.kind(),
            slot: self.slot,
        }
    }

    // What the slot is for.
    pub(crate) fn queue_kind(&self) -> QueueKind
        ensures { slot_kind result ≡ self.now.name.kind }
    {
        self.held.queue_kind()
    }

    /// The calls made so far on the slot's region.
    pub fn page_calls(&self) -> PageCalls
        ensures { result ≡ self.now.slot.region.calls }
    {
        match &self.held {
            HeldSlot::Memory(slot) => slot.region().calls(),
            HeldSlot::Table(held) => held.region.calls(),
            HeldSlot::Stack(held) => held.region.calls(),
        }
    }

    // Decommits a range of the slot.
    pub(crate) fn decommit(&mut self, range: ByteRange) -> Result<(), PageFault>
        requires part { IsPart self.old.slot.region.page (size_of self.old.slot) range }
        requires fits { IsSlot self.old.slot }
        ensures ok { OnOk result (self.new ≡ record self.old { slot = decommitted_at range self.old.slot }) }
        ensures err { OnErr result (IsLeftItem range self.old self.new) }
        ensures order { Follows (decommits self.old.slot.base.bytes (range ∷ [])) (is_ok result) self.old.slot.region self.new.slot.region }
    {
        decommit_held(&mut self.held, range)
    }

    // Whether the slot is of this kind and still to be zeroed by hand.
    pub(crate) fn is_to_zero(&self, kind: SlotKind) -> bool
        ensures { result ≡ is_to_zero kind self.now }
    {
        same_kind(kind, self.held.kind()) && self.is_unzeroed()
    }

    // Whether the slot is still to be zeroed by hand.
    pub(crate) fn is_unzeroed(&self) -> bool
        ensures { result ≡ is_unzeroed self.now }
    {
        self.is_zeroed_by_hand() && !self.known
    }

    fn is_zeroed_by_hand(&self) -> bool
        ensures { result ≡ is_some self.now.by_hand }
    {
        match &self.held {
            HeldSlot::Memory(_) => false,
            HeldSlot::Table(held) => held.by_hand.is_some(),
            HeldSlot::Stack(held) => held.by_hand.is_some(),
        }
    }

    // Nothing is known of the slot from now on.
    pub(crate) fn forget(&mut self)
        ensures { self.new ≡ forgotten self.old }
    {
        self.known = false;
        forget_held(&mut self.held);
    }

    // Zeroes the slot by hand, where it is one that is zeroed so.
    pub(crate) fn zero(&mut self)
        requires { IfSome self.old.by_hand (λ n. CanBeZeroed n self.old.slot) }
        ensures { self.new ≡ zeroed self.old }
    {
        if zero_held(&mut self.held) {
            self.known = true;
        }
    }
}

impl<P: Pages> HeldSlot<P> {
    /// What the slot is for.
    pub fn kind(&self) -> SlotKind
        ensures { result ≡ held_kind self.now }
    {
        self.queue_kind().slot_kind()
    }

    // What the slot is for.
    fn queue_kind(&self) -> QueueKind
        ensures { slot_kind result ≡ held_kind self.now }
    {
        match self {
            HeldSlot::Memory(_) => QueueKind::Memory,
            HeldSlot::Table(_) => QueueKind::Table,
            HeldSlot::Stack(_) => QueueKind::Stack,
        }
    }
}

// Nothing is known of what is held from now on.
fn forget_held<P: Pages>(held: &mut HeldSlot<P>)
    ensures slot { held_slot held.new ≡ forgotten_slot (held_kind held.old) (held_slot held.old) }
    ensures kind { held_kind held.new ≡ held_kind held.old }
    ensures by_hand { by_hand_of held.new ≡ by_hand_of held.old }
{
    if let HeldSlot::Memory(slot) = held {
        slot.forget();
    }
}

// Decommits a range of what is held.
fn decommit_held<P: Pages>(held: &mut HeldSlot<P>, range: ByteRange) -> Result<(), PageFault>
    requires part { IsPart (held_slot held.old).region.page (size_of (held_slot held.old)) range }
    requires fits { IsSlot (held_slot held.old) }
    ensures ok { OnOk result (held_slot held.new ≡ decommitted_at range (held_slot held.old)) }
    ensures err { OnErr result (IsLeftSlot range (held_slot held.old) (held_slot held.new)) }
    ensures order { Follows (decommits (held_slot held.old).base.bytes (range ∷ [])) (is_ok result) (held_slot held.old).region (held_slot held.new).region }
    ensures kind { held_kind held.new ≡ held_kind held.old }
    ensures by_hand { by_hand_of held.new ≡ by_hand_of held.old }
{
    match held {
        HeldSlot::Memory(slot) => decommit_image(slot, range),
        HeldSlot::Table(held) => decommit_plain(&mut held.region, held.base, range),
        HeldSlot::Stack(held) => decommit_plain(&mut held.region, held.base, range),
    }
}

// Decommits a range of a memory's slot.
fn decommit_image<P: Pages>(
    slot: &mut MemoryImageSlot<P>,
    range: ByteRange,
) -> Result<(), PageFault>
    requires { IsPart slot.old.region.page (size_of slot.old) range }
    ensures ok { OnOk result (slot.new ≡ decommitted_at range slot.old) }
    ensures err { OnErr result (IsLeftSlot range slot.old slot.new) }
    ensures order { Follows (decommits slot.old.base.bytes (range ∷ [])) (is_ok result) slot.old.region slot.new.region }
{
    decommit_in_slot(slot, range)
}

fn decommit_in_slot<P: Pages>(
    slot: &mut MemoryImageSlot<P>,
    range: ByteRange,
) -> Result<(), PageFault>
    requires { IsPart slot.old.region.page (size_of slot.old) range }
    ensures ok { OnOk result (slot.new ≡ decommitted_at range slot.old) }
    ensures fault { OnErr result (CallFaulted (decommitting (slot.old.base.bytes + range.start) range.len) slot.old slot.new) }
    ensures order { Follows (decommits slot.old.base.bytes (range ∷ [])) (is_ok result) slot.old.region slot.new.region }
    ensures fits { IsSlot slot.new }
{
    let page = slot.region().page();
    let start = HostAlignedByteCount::new_unchecked(page, range.start);
    let len = HostAlignedByteCount::new_unchecked(page, range.len);
    let done = slot.decommit(start, len);
    let _fits = slot.accessible();
    done
}

// Decommits a range of a region that is seen as a slot from a byte on.
fn decommit_plain<P: Pages>(
    region: &mut PageRegion<P>,
    base: HostAlignedByteCount,
    range: ByteRange,
) -> Result<(), PageFault>
    requires part { IsPart region.old.page (size_of (plain_slot base.bytes region.old)) range }
    requires fits { IsSlot (plain_slot base.bytes region.old) }
    ensures ok { OnOk result (plain_slot base.bytes region.new ≡ decommitted_at range (plain_slot base.bytes region.old)) }
    ensures err { OnErr result (IsLeftSlot range (plain_slot base.bytes region.old) (plain_slot base.bytes region.new)) }
    ensures order { Follows (decommits base.bytes (range ∷ [])) (is_ok result) region.old region.new }
{
    decommit_from(region, base, range)
}

#[tactic(auto, using(crate::proofs::ByHand::plain_start))]
fn decommit_from<P: Pages>(
    region: &mut PageRegion<P>,
    base: HostAlignedByteCount,
    range: ByteRange,
) -> Result<(), PageFault>
    requires part { IsPart region.old.page (size_of (plain_slot base.bytes region.old)) range }
    requires fits { IsSlot (plain_slot base.bytes region.old) }
    ensures ok { OnOk result (region.new ≡ succeeded (decommitting (base.bytes + range.start) range.len) region.old) }
    ensures fault { OnErr result (Faulted (decommitting (base.bytes + range.start) range.len) region.old region.new) }
    ensures order { Follows (decommits base.bytes (range ∷ [])) (is_ok result) region.old region.new }
    ensures shaped { TellsShaped region.new }
{
    let page = region.page();
    let start = HostAlignedByteCount::new_unchecked(page, base.byte_count() + range.start);
    let len = HostAlignedByteCount::new_unchecked(page, range.len);
    region.decommit(start, len)
}

// Zeroes by hand what is held, where it is zeroed so, and answers whether it is.
fn zero_held<P: Pages>(held: &mut HeldSlot<P>) -> bool
    requires { IfSome (by_hand_of held.old) (λ n. CanBeZeroed n (held_slot held.old)) }
    ensures value { result ≡ is_some (by_hand_of held.old) }
    ensures slot { held_slot held.new ≡ option_map_or (λ n. zeroed_slot n (held_slot held.old)) (by_hand_of held.old) (held_slot held.old) }
    ensures kind { held_kind held.new ≡ held_kind held.old }
    ensures by_hand { by_hand_of held.new ≡ by_hand_of held.old }
{
    match held {
        HeldSlot::Memory(_) => false,
        HeldSlot::Table(held) => zero_plain(&mut held.region, held.base, held.by_hand),
        HeldSlot::Stack(held) => zero_plain(&mut held.region, held.base, held.by_hand),
    }
}

fn zero_plain<P: Pages>(
    region: &mut PageRegion<P>,
    base: HostAlignedByteCount,
    by_hand: Option<usize>,
) -> bool
    requires { IfSome by_hand (λ n. CanBeZeroed n (plain_slot base.bytes region.old)) }
    ensures value { result ≡ is_some by_hand }
    ensures slot { plain_slot base.bytes region.new ≡ option_map_or (λ n. zeroed_slot n (plain_slot base.bytes region.old)) by_hand (plain_slot base.bytes region.old) }
{
    let Some(len) = by_hand else {
        return false;
    };
    region.fill(base.byte_count(), len, 0);
    true
}
