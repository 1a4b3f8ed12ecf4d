//! A part of a pool, as a part of a hall.

use pool_alloc::Settings;
use pool_hall::Part;
use pool_pages::{PageMaker, Pages};
use pool_slots::{GcHeap, Plan, PoolPart};
use std::snapshot::Snapshot;

/// Which pool a part is of. Only contracts see it, and it takes no bytes.
#[derive(Drop)]
pub struct Origin<M> {
    pub(crate) maker: Snapshot<M>,
    pub(crate) settings: Snapshot<Settings>,
    pub(crate) plan: Snapshot<Plan>,
}

/// A part of a pool that tells of which pool it is. A hall accepts it only at its own place, and only where it
/// tells the hall's own maker, settings and plan.
#[derive(Drop)]
pub struct HallPart<P: Pages, H: GcHeap, M> {
    pub(crate) part: PoolPart<P, H>,
    pub(crate) origin: Origin<M>,
}

impl<P: Pages, H: GcHeap, M: PageMaker> Part for HallPart<P, H, M> {
    ghost use Rattle.pool_driver.specs.Placed.{pool_meaning};
    ghost use Rattle.pool_driver.specs.Origins.{about_of, inner_of};

    ghost meaning = { pool_meaning (about_of M.told) inner_of };
}
