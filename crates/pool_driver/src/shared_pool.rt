//! What all callers of a pool share.

use crate::part::HallPart;
use pool_alloc::Settings;
use pool_hall::{Hall, HallSeat};
use pool_slots::Plan;

/// The hall of a pool's parts.
pub type PoolHall<P, H, M> = Hall<HallPart<P, H, M>>;

/// A seat of such a hall.
pub type PoolSeat<P, H, M> = HallSeat<HallPart<P, H, M>>;

/// The parts of a pool, behind one lock each, and what never changes. Callers on many threads share it; each has a seat and a frame
/// of its own. The hall, a `PoolHall`, is a parameter: whether threads may share the pool hangs on the hall alone.
#[derive(Drop)]
pub struct SharedPool<A: Drop> {
    pub hall: A,
    pub settings: Settings,
    pub plan: Plan,
}
