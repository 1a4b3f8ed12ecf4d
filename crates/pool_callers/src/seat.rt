//! A caller's seat.

use pool_alloc::Frame;
use pool_pages::Pages;
use pool_slots::GcHeap;

/// One caller's place at an allocator: its seat of the hall, a `PoolSeat`, and the frame in which its calls are made. A seat makes one
/// call at a time. One that is dropped takes its portions with it: the allocator can't be closed then, and goes on for all others.
#[derive(Drop)]
pub struct CallerSeat<S: Drop, P: Pages, H: GcHeap> {
    pub(crate) seat: S,
    pub(crate) frame: Frame<P, H>,
}
