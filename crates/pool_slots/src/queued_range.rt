ghost use Rattle.std.specs.Prelude.{◌≡◌};

use pool_images::ByteRange;
use pool_index::SlotId;

/// What a queued slot is a slot for.
#[derive(Clone, Copy, Debug, PartialEq, Eq)]
pub enum QueueKind {
    Memory,
    Table,
    Stack,
}

/// A range of a slot that is to be decommitted.
#[derive(Clone, Copy, Debug, PartialEq, Eq)]
pub struct QueuedRange {
    pub kind: QueueKind,
    pub slot: SlotId,
    pub range: ByteRange,
}

impl Default for QueuedRange {
    ghost is_default = { λ r. r.range.len ≡ 0 };

    /// A range of no length, which stands where a list has none.
    fn default() -> Self {
        QueuedRange {
            kind: QueueKind::Memory,
            slot: SlotId(0),
            range: ByteRange::default(),
        }
    }
}
