//! One instance after another, from one caller.
ghost use Rattle.std.specs.Prelude.{◌≡◌};
ghost use Rattle.pool_hall.specs.Seat.{view};
ghost use Rattle.pool_callers.specs.Callers.{IsAllocator, IsCaller, Keeps};
ghost use Rattle.pool_uses.specs.Requests.{IsRequest};

use crate::instances::{once_more, write_and_drop};
use pool_alloc::ModuleCall;
use pool_callers::{CallerSeat, PoolingInstanceAllocator};
use pool_driver::{PoolHall, PoolSeat};
use pool_index::ShardId;
use pool_limits::Unlimited;
use pool_pages::{PageMaker, Pages};
use pool_slots::GcHeap;
use std::alloc::Global;
use std::sync::Wait;

// An instance is made, eight bytes are written into its first memory, and it goes back. Answers whether that was done.
fn cycle<P: Pages, H: GcHeap, M: PageMaker, R: Wait>(
    rt: &R,
    alloc: Global,
    allocator: &PoolingInstanceAllocator<PoolHall<P, H, M>, P, H>,
    home: ShardId,
    seat: &mut CallerSeat<PoolSeat<P, H, M>, P, H>,
    call: &ModuleCall,
) -> bool
    requires pool { IsAllocator M.told allocator.now }
    requires seat { IsCaller M.told allocator.now seat.old }
    requires request { IsRequest allocator.now.pool.settings.page call.now }
    ensures seat { IsCaller M.told allocator.now seat.new }
    ensures keeps { Keeps (view seat.old.seat) (view seat.new.seat) }
    ensures portions { (view seat.new.seat).portions ≡ (view seat.old.seat).portions }
{
    let Ok(request) = once_more(call) else {
        return false;
    };
    let written = write_and_drop(
        rt,
        alloc,
        allocator,
        home,
        seat,
        request,
        &mut Unlimited,
        0,
        b"8 bytes.",
    );
    matches!(written, Ok(Ok(())))
}

/// Makes an instance, writes eight bytes into its first memory, and gives it back, so many times. Answers how often that was done: a request that is
/// refused isn't counted.
pub fn cycles<P: Pages, H: GcHeap, M: PageMaker, R: Wait>(
    rt: &R,
    alloc: Global,
    allocator: &PoolingInstanceAllocator<PoolHall<P, H, M>, P, H>,
    home: ShardId,
    seat: CallerSeat<PoolSeat<P, H, M>, P, H>,
    call: &ModuleCall,
    times: u32,
) -> (CallerSeat<PoolSeat<P, H, M>, P, H>, u32)
    requires pool { IsAllocator M.told allocator.now }
    requires seat { IsCaller M.told allocator.now seat }
    requires request { IsRequest allocator.now.pool.settings.page call.now }
    ensures seat { IsCaller M.told allocator.now result.0 }
    ensures keeps { Keeps (view seat.seat) (view result.0.seat) }
    ensures portions { (view result.0.seat).portions ≡ (view seat.seat).portions }
{
    let mut seat = seat;
    let mut done: u32 = 0;
    for _ in 0..times {
        if cycle(rt, alloc, allocator, home, &mut seat, call) {
            done = done.wrapping_add(1);
        }
    }
    (seat, done)
}
