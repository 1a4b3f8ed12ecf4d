//! Two stacks at a time, again and again.
ghost use Rattle.std.specs.Prelude.{◌≡◌};
ghost use Rattle.pool_hall.specs.Seat.{view};
ghost use Rattle.pool_callers.specs.Callers.{IsAllocator, IsCaller, Keeps};

use pool_callers::{CallerSeat, PoolingInstanceAllocator};
use pool_driver::{PoolHall, PoolSeat};
use pool_index::ShardId;
use pool_pages::{PageMaker, Pages};
use pool_slots::GcHeap;
use std::alloc::Global;
use std::sync::Wait;

/// Asks for a stack, and for another one while it has the first, and gives them back in that order. Answers in which slots they were; one that was refused is in none.
pub fn hold_two<P: Pages, H: GcHeap, M: PageMaker, R: Wait>(
    rt: &R,
    alloc: Global,
    allocator: &PoolingInstanceAllocator<PoolHall<P, H, M>, P, H>,
    home: ShardId,
    seat: &mut CallerSeat<PoolSeat<P, H, M>, P, H>,
) -> (Option<u32>, Option<u32>)
    requires pool { IsAllocator M.told allocator.now }
    requires seat { IsCaller M.told allocator.now seat.old }
    ensures seat { IsCaller M.told allocator.now seat.new }
    ensures keeps { Keeps (view seat.old.seat) (view seat.new.seat) }
    ensures portions { (view seat.new.seat).portions ≡ (view seat.old.seat).portions }
{
    let Ok(first) = allocator.allocate_fiber_stack(rt, alloc, home, seat) else {
        return (None, None);
    };
    let index = first.index();
    let Ok(second) = allocator.allocate_fiber_stack(rt, alloc, home, seat) else {
        allocator.deallocate_fiber_stack(rt, alloc, home, seat, first);
        return (Some(index), None);
    };
    let other = second.index();
    allocator.deallocate_fiber_stack(rt, alloc, home, seat, first);
    allocator.deallocate_fiber_stack(rt, alloc, home, seat, second);
    (Some(index), Some(other))
}

// Does so once more, where one of the slots 0 and 1 is still to come. Answers which of the two it was in by now.
fn turn<P: Pages, H: GcHeap, M: PageMaker, R: Wait>(
    rt: &R,
    alloc: Global,
    allocator: &PoolingInstanceAllocator<PoolHall<P, H, M>, P, H>,
    home: ShardId,
    seat: &mut CallerSeat<PoolSeat<P, H, M>, P, H>,
    found: (bool, bool),
) -> (bool, bool)
    requires pool { IsAllocator M.told allocator.now }
    requires seat { IsCaller M.told allocator.now seat.old }
    ensures seat { IsCaller M.told allocator.now seat.new }
    ensures keeps { Keeps (view seat.old.seat) (view seat.new.seat) }
    ensures portions { (view seat.new.seat).portions ≡ (view seat.old.seat).portions }
{
    let (zero, one) = found;
    if zero && one {
        return found;
    }
    let (first, second) = hold_two(rt, alloc, allocator, home, seat);
    let is_zero = first == Some(0) || second == Some(0);
    let is_one = first == Some(1) || second == Some(1);
    (zero || is_zero, one || is_one)
}

/// Does so until it was in the slots 0 and 1, each at least once, but no more than so many times. Answers which of the two it was in.
pub fn hold_each<P: Pages, H: GcHeap, M: PageMaker, R: Wait>(
    rt: &R,
    alloc: Global,
    allocator: &PoolingInstanceAllocator<PoolHall<P, H, M>, P, H>,
    home: ShardId,
    seat: CallerSeat<PoolSeat<P, H, M>, P, H>,
    times: u32,
) -> (CallerSeat<PoolSeat<P, H, M>, P, H>, (bool, bool))
    requires pool { IsAllocator M.told allocator.now }
    requires seat { IsCaller M.told allocator.now seat }
    ensures seat { IsCaller M.told allocator.now result.0 }
    ensures keeps { Keeps (view seat.seat) (view result.0.seat) }
    ensures portions { (view result.0.seat).portions ≡ (view seat.seat).portions }
{
    let mut seat = seat;
    let mut found = (false, false);
    for _ in 0..times {
        found = turn(rt, alloc, allocator, home, &mut seat, found);
    }
    (seat, found)
}
