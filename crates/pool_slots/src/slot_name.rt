ghost use Rattle.std.specs.Prelude.{◌≡◌};
ghost use Rattle.pool_slots.specs.SlotNames.{of_kind, slot_kind};
ghost use Rattle.pool_slots.specs.SlotQueues.{same_kind, same_slot};

use crate::queued_range::QueueKind;
use pool_index::SlotKind;

/// The name of a slot of the pool: what it is for, and its number among the slots of that kind.
#[derive(Clone, Copy, Debug, PartialEq, Eq)]
pub struct SlotName {
    pub kind: SlotKind,
    pub slot: u32,
}

/// A number for each kind of slot.
#[derive(Clone, Copy, Debug, PartialEq, Eq)]
pub struct OfKinds {
    pub memory: u32,
    pub table: u32,
    pub stack: u32,
    pub heap: u32,
}

impl OfKinds {
    pub fn of(&self, kind: SlotKind) -> u32
        ensures { result ≡ of_kind kind self.now }
    {
        match kind {
            SlotKind::Memory => self.memory,
            SlotKind::Table => self.table,
            SlotKind::Stack => self.stack,
            SlotKind::Heap => self.heap,
        }
    }
}

/// What a region's unit tells of it since it left its cell: how often calls on it had failed then, and how often it had
/// been erased, once more where nothing was known of it.
#[derive(Clone, Copy, Debug, PartialEq, Eq)]
pub struct RegionNumbers {
    pub faults: u64,
    pub erases: u64,
}

impl QueueKind {
    /// The kind of the slots that a queue holds under this kind. A queue holds no heaps.
    pub fn slot_kind(self) -> SlotKind
        ensures { result ≡ slot_kind self }
    {
        match self {
            QueueKind::Memory => SlotKind::Memory,
            QueueKind::Table => SlotKind::Table,
            QueueKind::Stack => SlotKind::Stack,
        }
    }
}

/// Whether the kinds are one.
pub(crate) fn same_kind(a: SlotKind, b: SlotKind) -> bool
    ensures { result ≡ same_kind a b }
{
    match a {
        SlotKind::Memory => matches!(b, SlotKind::Memory),
        SlotKind::Table => matches!(b, SlotKind::Table),
        SlotKind::Stack => matches!(b, SlotKind::Stack),
        SlotKind::Heap => matches!(b, SlotKind::Heap),
    }
}

/// Whether the names are one.
pub(crate) fn same_slot(a: SlotName, b: SlotName) -> bool
    ensures { result ≡ same_slot a b }
{
    same_kind(a.kind, b.kind) && a.slot == b.slot
}
