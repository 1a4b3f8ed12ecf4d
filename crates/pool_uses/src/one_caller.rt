//! One caller of an allocator.
ghost use Rattle.std.specs.Prelude.{◌≡◌, IfOk};
ghost use Rattle.pool_hall.specs.Seat.{view};
ghost use Rattle.pool_callers.specs.Callers.{IsAllocator, IsCaller, Keeps};
ghost use Rattle.pool_alloc.specs.Closing.{AreAtHome};

use pool_alloc::Parts;
use pool_callers::{CallerSeat, PoolingInstanceAllocator};
use pool_driver::{PoolHall, PoolSeat};
use pool_index::ShardId;
use pool_pages::{PageMaker, Pages};
use pool_slots::{AllocError, GcHeap, PoolNewError};
use pool_types::{Offered, PageSize, PoolingAllocationConfig, Tunables};
use std::alloc::Global;
use std::sync::Wait;

/// Asks for a stack, fills it, and gives it back. Answers how many usable bytes it had, or why there was none.
pub fn use_a_stack<P: Pages, H: GcHeap, M: PageMaker, R: Wait>(
    rt: &R,
    alloc: Global,
    allocator: &PoolingInstanceAllocator<PoolHall<P, H, M>, P, H>,
    seat: &mut CallerSeat<PoolSeat<P, H, M>, P, H>,
    home: ShardId,
) -> Result<usize, AllocError>
    requires pool { IsAllocator M.told allocator.now }
    requires seat { IsCaller M.told allocator.now seat.old }
    ensures seat { IsCaller M.told allocator.now seat.new }
    ensures keeps { Keeps (view seat.old.seat) (view seat.new.seat) }
    ensures portions { (view seat.new.seat).portions ≡ (view seat.old.seat).portions }
{
    let mut stack = allocator.allocate_fiber_stack(rt, alloc, home, seat)?;
    let len = stack.len();
    stack.fill(0, len, 7);
    allocator.deallocate_fiber_stack(rt, alloc, home, seat, stack);
    Ok(len)
}

/// Makes an allocator, uses one of its stacks, and closes it: every slot is free then, whatever the stack's request was answered.
pub fn run_one_caller<P: Pages, H: GcHeap, M: PageMaker<Region = P>, R: Wait>(
    rt: &R,
    alloc: Global,
    config: &PoolingAllocationConfig,
    page: PageSize,
    maker: &mut M,
) -> Result<(Result<usize, AllocError>, Parts<P, H>), PoolNewError>
    requires page { page ≡ (M.told maker.old).page }
    ensures home { IfOk result (λ r. AreAtHome r.1) }
{
    let (allocator, mut seat) = PoolingInstanceAllocator::new(
        alloc,
        config,
        &Tunables::default(),
        page,
        1,
        &Offered::default(),
        maker,
    )?;
    let used = use_a_stack(rt, alloc, &allocator, &mut seat, ShardId(0));
    Ok((used, allocator.close(alloc, seat)))
}
