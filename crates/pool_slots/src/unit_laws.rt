ghost use Rattle.pool_slots.specs.ListUnits.{AwayFollows, KeptFollows, AwayOnce};
ghost use Rattle.pool_slots.specs.PartUnits.{PicksCount, FreesCount, TakesCount, PutsCount, AppendsCount, QueueTakesCount};

use crate::heap_maker::GcHeap;
use pool_pages::Pages;

/// No unit is made or lost where slots are picked and freed, where regions leave their cells and come back, and where
/// queues are appended and taken. It does nothing.
#[tactic(auto, using(crate::proofs::PartUnits::takes_count, crate::proofs::PartUnits::puts_count, crate::proofs::PartUnits::appends_count, crate::proofs::PartUnits::queue_takes_count))]
pub fn units_follow_parts()
    ensures picked { PicksCount }
    ensures freed { FreesCount }
    ensures taken { TakesCount }
    ensures put { PutsCount }
    ensures appended { AppendsCount }
    ensures queue_taken { QueueTakesCount }
{}

/// What one part of a pool gives out, takes back or keeps, all parts together do. It does nothing.
#[tactic(auto, using(crate::proofs::ListUnits::away_follows, crate::proofs::ListUnits::kept_follows))]
pub fn units_follow_lists<P: Pages, H: GcHeap>()
    ensures away { AwayFollows P H }
    ensures kept { KeptFollows P H }
{}

/// Over a pool whose parts stand where a right plan has them, no slot is given out twice, and no region of a slot, whatever
/// numbers their units tell. It does nothing.
pub fn units_are_out_once<P: Pages, H: GcHeap>()
    ensures { AwayOnce P H }
{}
