use crate::ids::{MemoryInModule, SlotId};

/// A slot that was used and is free, as contracts see it.
#[derive(Clone, Copy, Debug, PartialEq, Eq)]
pub struct WarmSlot {
    pub slot: SlotId,
    /// What the slot was picked for last.
    pub affinity: Option<MemoryInModule>,
    /// The bytes that the slot keeps resident.
    pub bytes: usize,
}
