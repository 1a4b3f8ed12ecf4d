use pool_limits::Trap;
use pool_shared::WaitStep;
use pool_types::ByteList;

/// The reply to an event on a shared memory.
#[derive(Debug, Drop)]
pub enum SharedReply {
    /// How the wait stands that was begun, or was asked for.
    Wait(WaitStep),
    /// The waiter can't begin a wait, since it is parked or marked.
    WaiterBusy,
    /// The waiter has no wait to ask for: it is neither parked nor marked.
    WaiterIdle,
    /// How many waiters were marked.
    Notified(u32),
    Bytes(ByteList),
    Done,
    /// The size before a growth, in bytes, or None where there was none.
    Grown(Option<u64>),
    /// In bytes.
    Size(u64),
    Trap(Trap),
}
