//! A pool whose parts lie in a hall, and how it is made of a core.
ghost use Rattle.std.specs.Prelude.{◌≡◌, ◌+◌, ◌^◌, ◌<◌, ◌≤◌, [], IfOk, length, map, vec_capacity};
ghost use Rattle.std.specs.List.{AllByRecursion};
ghost use Rattle.pool_hall.specs.Rule.{first_view};
ghost use Rattle.pool_hall.specs.Seat.{made_with, limits_of, view};
ghost use Rattle.pool_alloc.specs.BetweenSteps.{IsCore};
ghost use Rattle.pool_alloc.specs.PoolAndHolders.{IsUntouched};
ghost use Rattle.pool_driver.specs.Counts.{counter_limits, counter_total};
ghost use Rattle.pool_driver.specs.Driving.{DrivesFirst};
ghost use Rattle.pool_driver.specs.Origins.{about_of, inner_of};
ghost use Rattle.pool_driver.specs.Placed.{about_by};
ghost use Rattle.pool_driver.specs.Pools.{IsAsMade, IsOpen, about_core};

use crate::part::{HallPart, Origin};
use crate::shared_pool::{PoolHall, SharedPool};
use pool_alloc::{FrameLists, PoolCore, Settings};
use pool_hall::{Hall, HallSeat};
use pool_pages::{PageMaker, Pages};
use pool_slots::{GcHeap, Plan, PoolPart};
use std::alloc::{AllocError, Global};
use std::snapshot::Snapshot;

/// A pool whose parts lie in a hall, with its first seat, and what it is closed with.
#[derive(Drop)]
pub struct OpenPool<P: Pages, H: GcHeap, M: PageMaker> {
    pub pool: SharedPool<PoolHall<P, H, M>>,
    /// The first seat, or the one that all others were joined to.
    pub seat: HallSeat<HallPart<P, H, M>>,
    /// The lists of a frame that no party has. The pool is closed with them.
    pub lists: FrameLists<P>,
    /// An empty list with room for all parts, so that closing takes no memory.
    pub room: Vec<PoolPart<P, H>>,
}

impl<P: Pages, H: GcHeap, M: PageMaker> OpenPool<P, H, M> {
    /// Puts the parts of a core, as it is made, into a hall. Where there is no memory for that, the pool is dropped.
    pub fn new(alloc: Global, core: PoolCore<P, H>, maker: &M) -> Result<Self, AllocError>
        requires made { IsAsMade (M.told maker.now) core }
        requires core { IsCore (M.told maker.now) core }
        requires untouched { IsUntouched core }
        requires few { length core.parts + counter_total < 2 ^ 32 }
        ensures open { IfOk result (IsOpen M.told (about_core (M.told maker.now) core)) }
        ensures parts { IfOk result (λ o. map inner_of (made_with o.pool.hall) ≡ core.parts) }
        ensures view { IfOk result (λ o. view o.seat ≡ first_view (made_with o.pool.hall) (limits_of o.pool.hall)) }
        ensures drives { IfOk result (DrivesFirst M.told) }
    {
        let PoolCore {
            parts,
            counters: _,
            settings,
            plan,
            spare,
        } = core;
        let Some(lists) = spare else { unreachable!() };
        let list = parts.into_list();
        let room = Vec::with_capacity(alloc, list.len())?;
        let empty = Vec::with_capacity(alloc, list.len())?;
        let wrapped = with_origin(list, empty, maker, &settings, &plan);
        let limits = counter_limits(alloc, &settings)?;
        let (hall, seat) = Hall::new(alloc, wrapped, limits, packed(&plan))?;
        let pool = SharedPool {
            hall,
            settings,
            plan,
        };
        Ok(OpenPool {
            pool,
            seat,
            lists,
            room,
        })
    }
}

// Moves the parts into a list that has room for them, each with the pool that it is of.
fn with_origin<P: Pages, H: GcHeap, M: PageMaker>(
    parts: Vec<PoolPart<P, H>>,
    empty: Vec<HallPart<P, H, M>>,
    maker: &M,
    settings: &Settings,
    plan: &Plan,
) -> Vec<HallPart<P, H, M>>
    requires empty { empty.items ≡ [] }
    requires room { length parts.items ≤ vec_capacity empty }
    ensures parts { map inner_of result.items ≡ parts.items }
    ensures about { AllByRecursion (λ x. about_of M.told x ≡ about_by (M.told maker.now) settings.now plan.now) result.items }
{
    let mut wrapped = empty;
    for part in parts {
        wrapped.push_reserved(of_pool(part, maker, settings, plan));
    }
    wrapped
}

// A part with the pool that it is of.
fn of_pool<P: Pages, H: GcHeap, M: PageMaker>(
    part: PoolPart<P, H>,
    maker: &M,
    settings: &Settings,
    plan: &Plan,
) -> HallPart<P, H, M>
    ensures part { inner_of result ≡ part }
    ensures about { about_of M.told result ≡ about_by (M.told maker.now) settings.now plan.now }
{
    let origin = Origin {
        maker: Snapshot::of(maker),
        settings: Snapshot::of(settings),
        plan: Snapshot::of(plan),
    };
    HallPart { part, origin }
}

// The limits of the counters.
fn counter_limits(alloc: Global, settings: &Settings) -> Result<Vec<u64>, AllocError>
    ensures { IfOk result (λ v. v.items ≡ counter_limits settings.now) }
{
    let instances = settings.max_core_instances;
    let components = settings.max_component_instances;
    let none = u64::MAX;
    Ok(vec![in alloc; none, instances, components, none, none, none, none]?)
}

// At how many places in front locks may share cache lines: at those of the cells, where these come first. Threads fight
// for the locks of shards and queues.
fn packed(plan: &Plan) -> u32 {
    if plan.cells.memory == 0 {
        plan.first_queue
    } else {
        0
    }
}
