//! How a pool is closed whose parts lie in a hall.
ghost use Rattle.std.specs.Prelude.{◌≡◌, ◌≤◌, [], length, map, vec_capacity};
ghost use Rattle.std.specs.List.{AllByRecursion};
ghost use Rattle.pool_hall.specs.Seat.{made_with, limits_of, view, IsSeatOf, IsFree};
ghost use Rattle.pool_hall.specs.Tally.{all_portions};
ghost use Rattle.pool_slots.specs.Listed.{PartFailsAsListed};
ghost use Rattle.pool_alloc.specs.Closing.{AreAtHome, ArePartsOf};
ghost use Rattle.pool_driver.specs.Counts.{counter_total, counts_in, IsEven};
ghost use Rattle.pool_driver.specs.Ending.{HasNoted};
ghost use Rattle.pool_driver.specs.Origins.{about_of, inner_of};
ghost use Rattle.pool_driver.specs.Placed.{About, pool_meaning};
ghost use Rattle.pool_driver.specs.Pools.{IsOpen, ClosesWith};

use crate::open_pool::OpenPool;
use crate::part::HallPart;
use crate::shared_pool::SharedPool;
use pool_alloc::{Counters, Parts, PoolCore};
use pool_hall::{Hall, HallSeat, Part};
use pool_pages::{PageMaker, Pages};
use pool_slots::{GcHeap, PoolPart};
use std::alloc::Global;

impl<P: Pages, H: GcHeap, M: PageMaker> OpenPool<P, H, M> {
    /// Ends the pool: reads the counters, ends the hall, flushes all queues, and finds every slot free and every count 0.
    /// All seats were joined to the pool's before, and what was granted was given back. Answers what the pool was made
    /// of. Takes no memory.
    pub fn close(self, alloc: Global) -> Parts<P, H>
        ghost about: { About }
        requires open { IsOpen M.told about self }
        requires portions { (view self.seat).portions ≡ all_portions }
        requires units { (view self.seat).units ≡ [] }
        requires even { IsEven (view self.seat) }
        ensures home { AreAtHome result }
        ensures parts { ArePartsOf about.maker about.settings about.plan result }
        ensures told { ClosesWith (pool_meaning (about_of M.told) inner_of) self.pool.hall (view self.seat) }
        ensures noted { HasNoted about (length (made_with self.pool.hall)) (view self.seat) }
    {
        let OpenPool {
            pool,
            seat,
            lists,
            room,
        } = self;
        let SharedPool {
            hall,
            settings,
            plan,
        } = pool;
        let mut seat = seat;
        let counters = counts_in(&hall, &mut seat);
        let list = without_origin(hall.close(seat), room);
        failures_law(list.as_slice());
        let core = PoolCore {
            parts: Parts::new(list),
            counters,
            settings,
            plan,
            spare: Some(lists),
        };
        core.close(alloc)
    }
}

// Reads all counters of a pool's hall.
fn counts_in<T: Part>(hall: &Hall<T>, seat: &mut HallSeat<T>) -> Counters
    requires own { IsSeatOf hall.now seat.old }
    requires counters { length (limits_of hall.now) ≡ counter_total }
    ensures own { IsSeatOf hall.now seat.new }
    ensures view { view seat.new ≡ view seat.old }
    ensures still_free { IsFree seat.old → IsFree seat.new }
    ensures counts { (view seat.old).portions ≡ all_portions → result ≡ counts_in (view seat.old) }
{
    Counters {
        key: hall.load(seat, 0),
        core_instances: hall.load(seat, 1),
        component_instances: hall.load(seat, 2),
        memories: hall.load(seat, 3),
        tables: hall.load(seat, 4),
        stacks: hall.load(seat, 5),
        gc_heaps: hall.load(seat, 6),
    }
}

// Moves the parts of the pool, without what tells of it, into a list that has room for them.
fn without_origin<P: Pages, H: GcHeap, M>(
    wrapped: Vec<HallPart<P, H, M>>,
    room: Vec<PoolPart<P, H>>,
) -> Vec<PoolPart<P, H>>
    requires empty { room.items ≡ [] }
    requires room { length wrapped.items ≤ vec_capacity room }
    ensures { result.items ≡ map inner_of wrapped.items }
{
    let mut list = room;
    for part in wrapped {
        list.push_reserved(part.part);
    }
    list
}

// What holds of each region in the parts, for the proof to cite: where it tells its plan, no more of its calls failed than that lists.
// It does nothing.
fn failures_law<P: Pages, H: GcHeap>(parts: &[PoolPart<P, H>])
    ensures { AllByRecursion PartFailsAsListed parts.now }
{
    for part in parts {
        part.failures_law();
    }
}
