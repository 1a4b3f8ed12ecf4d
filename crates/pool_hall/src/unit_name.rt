//! The names of units.

/// What a slot is for.
#[derive(Clone, Copy, Debug, PartialEq, Eq)]
pub enum SlotKind {
    Memory,
    Table,
    Stack,
    Heap,
}

/// The name of a unit: a right to a slot. A slot has a pick unit, and units for its region that tell two numbers.
/// Contracts alone see it: no value of it is made.
pub struct UnitName {
    pub kind: SlotKind,
    pub slot: u32,
    pub region: bool,
    pub first: u64,
    pub second: u64,
}
