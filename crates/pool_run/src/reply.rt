use pool_alloc::Element;
use pool_limits::Trap;
use pool_slots::AllocError;
use pool_types::{ByteList, PlainList};

/// The slots of a grant, in order.
pub type SlotList = PlainList<u32>;

/// The replies to one party's commands, in order.
pub type ReplyList = PlainList<Reply>;

/// Why a command was refused.
#[derive(Clone, Copy, Debug, PartialEq, Eq)]
pub enum Refusal {
    /// The command named was refused, or its grant was given back.
    NoSuchGrant,
    /// A call on the party's store failed. The elements that were set before that stay set.
    GcStoreFault,
    Alloc(AllocError),
}

/// The reply to a command.
#[derive(Debug, Drop)]
pub enum Reply {
    Instance {
        memories: SlotList,
        tables: SlotList,
    },
    Component,
    /// Of a stack, its slot.
    Stack(u32),
    /// The slot of a heap, and that of its memory.
    Heap {
        heap: u32,
        memory: u32,
    },
    Bytes(ByteList),
    Done,
    /// Of a memory in bytes, of a table in elements.
    Size(u64),
    /// Likewise the size before a growth, or None where there was none.
    Grown(Option<u64>),
    Element(Element),
    Returned,
    /// How many slots were found that kept a memory of the module.
    Purged(u64),
    /// How many bytes are no longer resident.
    Released(u64),
    Refused(Refusal),
    Trap(Trap),
}
