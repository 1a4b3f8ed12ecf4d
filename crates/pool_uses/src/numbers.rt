//! The number of warm slots, from one caller.
ghost use Rattle.std.specs.Prelude.{◌≡◌, IfSome};
ghost use Rattle.pool_hall.specs.Seat.{view};
ghost use Rattle.pool_alloc.specs.Requests.{AreImagesOf, IsModule};
ghost use Rattle.pool_callers.specs.Callers.{IsAllocator, IsCaller, Keeps};

use crate::instances::two_at_once;
use pool_alloc::ModuleCall;
use pool_callers::{CallerSeat, PoolingAllocatorMetrics, PoolingInstanceAllocator};
use pool_driver::{PoolHall, PoolSeat};
use pool_index::ShardId;
use pool_limits::{ResourceLimiter, Unlimited};
use pool_pages::{PageMaker, Pages};
use pool_slots::{AllocError, GcHeap, PoolNewError};
use pool_types::{Offered, PageSize, PoolingAllocationConfig, Tunables};
use std::alloc::Global;
use std::sync::Wait;

/// How many slots of memories are warm. The seat has what it had.
pub fn warm_now<P: Pages, H: GcHeap, M: PageMaker, R: Wait>(
    rt: &R,
    allocator: &PoolingInstanceAllocator<PoolHall<P, H, M>, P, H>,
    seat: &mut CallerSeat<PoolSeat<P, H, M>, P, H>,
) -> u32
    requires pool { IsAllocator M.told allocator.now }
    requires seat { IsCaller M.told allocator.now seat.old }
    ensures seat { IsCaller M.told allocator.now seat.new }
    ensures keeps { Keeps (view seat.old.seat) (view seat.new.seat) }
    ensures portions { (view seat.new.seat).portions ≡ (view seat.old.seat).portions }
{
    PoolingAllocatorMetrics::new(allocator).unused_warm_memories(rt, seat)
}

/// The same while an instance is live, which comes and goes.
pub fn warm_beside<P: Pages, H: GcHeap, M: PageMaker, R: Wait, L: ResourceLimiter>(
    rt: &R,
    alloc: Global,
    allocator: &PoolingInstanceAllocator<PoolHall<P, H, M>, P, H>,
    home: ShardId,
    seat: &mut CallerSeat<PoolSeat<P, H, M>, P, H>,
    request: ModuleCall,
    limiter: &mut L,
) -> Result<u32, AllocError>
    requires pool { IsAllocator M.told allocator.now }
    requires seat { IsCaller M.told allocator.now seat.old }
    requires request { IsModule request.info }
    requires images { IfSome request.images (AreImagesOf allocator.now.pool.settings.page request.info) }
    ensures seat { IsCaller M.told allocator.now seat.new }
    ensures keeps { Keeps (view seat.old.seat) (view seat.new.seat) }
    ensures portions { (view seat.new.seat).portions ≡ (view seat.old.seat).portions }
{
    let instance = allocator.allocate_module(rt, alloc, home, seat, request, limiter)?;
    let warm = warm_now(rt, allocator, seat);
    allocator.deallocate_module(rt, alloc, home, seat, instance);
    Ok(warm)
}

/// The number of warm slots at first, after two instances came and went, while a third one is live, and after that; and what the requests
/// for two instances answer.
pub fn count_warm<P: Pages, H: GcHeap, M: PageMaker, R: Wait, L: ResourceLimiter>(
    rt: &R,
    alloc: Global,
    allocator: &PoolingInstanceAllocator<PoolHall<P, H, M>, P, H>,
    home: ShardId,
    seat: &mut CallerSeat<PoolSeat<P, H, M>, P, H>,
    first: ModuleCall,
    second: ModuleCall,
    third: ModuleCall,
    limiter: &mut L,
) -> (
    u32,
    Result<(), AllocError>,
    u32,
    Result<u32, AllocError>,
    u32,
)
    requires pool { IsAllocator M.told allocator.now }
    requires seat { IsCaller M.told allocator.now seat.old }
    requires first { IsModule first.info }
    requires first_images { IfSome first.images (AreImagesOf allocator.now.pool.settings.page first.info) }
    requires second { IsModule second.info }
    requires second_images { IfSome second.images (AreImagesOf allocator.now.pool.settings.page second.info) }
    requires third { IsModule third.info }
    requires third_images { IfSome third.images (AreImagesOf allocator.now.pool.settings.page third.info) }
    ensures seat { IsCaller M.told allocator.now seat.new }
    ensures keeps { Keeps (view seat.old.seat) (view seat.new.seat) }
{
    let none = warm_now(rt, allocator, seat);
    let both = two_at_once(rt, alloc, allocator, home, seat, first, second, limiter);
    let two = warm_now(rt, allocator, seat);
    let one = warm_beside(rt, alloc, allocator, home, seat, third, limiter);
    let again = warm_now(rt, allocator, seat);
    (none, both, two, one, again)
}

/// Makes an allocator with this configuration and so many shards, and counts its warm slots as `count_warm` does.
pub fn make_and_count<P: Pages, H: GcHeap, M: PageMaker<Region = P>, R: Wait>(
    rt: &R,
    alloc: Global,
    config: &PoolingAllocationConfig,
    page: PageSize,
    shards: u32,
    maker: &mut M,
    first: ModuleCall,
    second: ModuleCall,
    third: ModuleCall,
) -> Result<
    (
        u32,
        Result<(), AllocError>,
        u32,
        Result<u32, AllocError>,
        u32,
    ),
    PoolNewError,
>
    requires page { page ≡ (M.told maker.old).page }
    requires first { IsModule first.info }
    requires first_images { IfSome first.images (AreImagesOf page first.info) }
    requires second { IsModule second.info }
    requires second_images { IfSome second.images (AreImagesOf page second.info) }
    requires third { IsModule third.info }
    requires third_images { IfSome third.images (AreImagesOf page third.info) }
{
    let (allocator, mut seat) = PoolingInstanceAllocator::<PoolHall<P, H, M>, P, H>::new(
        alloc,
        config,
        &Tunables::default(),
        page,
        shards,
        &Offered::default(),
        maker,
    )?;
    let limiter = &mut Unlimited;
    let home = ShardId(0);
    Ok(count_warm(
        rt, alloc, &allocator, home, &mut seat, first, second, third, limiter,
    ))
}
