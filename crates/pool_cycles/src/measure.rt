//! An allocator is made, used by one thread or by four, and closed.
ghost use Rattle.std.specs.Prelude.{◌≡◌, IfOk};
ghost use Rattle.pool_hall.specs.Seat.{view};
ghost use Rattle.pool_hall.specs.Tally.{all_portions};
ghost use Rattle.pool_callers.specs.Callers.{HasNothing, IsAllocator, IsCaller};
ghost use Rattle.pool_uses.specs.Requests.{IsRequest};

use pool_alloc::ModuleCall;
use pool_callers::PoolingInstanceAllocator;
use pool_pages::MemoryPages;
use pool_slots::PoolNewError;
use pool_types::{CompiledModuleId, Offered, PageSize, PoolingAllocationConfig, Tunables};
use pool_uses::{MemoryAllocator, MemoryCaller, Worker, four_work, module_call, module_with, work};
use std::alloc::{AllocError, Global};
use std::sync::Wait;
use std::thread::Threads;

// What each worker asks with: a module with one memory of one page and an image of four bytes. Each has its own, so that threads don't
// share the counts of handles.
fn request(
    alloc: Global,
    maker: &mut MemoryPages,
    page: PageSize,
) -> Result<ModuleCall, PoolNewError>
    ensures request { IfOk result (IsRequest page) }
    ensures page { maker.new.page ≡ maker.old.page }
{
    let info = match module_with(alloc, b"init") {
        Ok(info) => info,
        Err(_) => return Err(PoolNewError::Memory),
    };
    match module_call(alloc, maker, page, CompiledModuleId(0), info) {
        Ok(call) => Ok(call),
        Err(_) => Err(PoolNewError::Memory),
    }
}

// One worker, from home 0.
fn alone<R: Wait>(
    rt: &R,
    alloc: Global,
    allocator: MemoryAllocator,
    seat: MemoryCaller,
    call: ModuleCall,
    times: u32,
) -> u64
    requires pool { IsAllocator (λ m. m) allocator }
    requires seat { IsCaller (λ m. m) allocator seat }
    requires nothing { HasNothing (view seat.seat) }
    requires portions { (view seat.seat).portions ≡ all_portions }
    requires call { IsRequest allocator.pool.settings.page call }
{
    let worker = Worker {
        seat,
        call,
        home: 0,
    };
    let (seat, done) = work(rt, alloc, &allocator, worker, times);
    let _parts = allocator.close(alloc, seat);
    done as u64
}

// Four workers, each on a thread of its own and from a home of its own.
fn together<R: Threads + Wait + Sync>(
    rt: &R,
    alloc: Global,
    allocator: MemoryAllocator,
    seat: MemoryCaller,
    calls: (ModuleCall, ModuleCall, ModuleCall, ModuleCall),
    times: u32,
) -> Result<u64, AllocError>
    requires pool { IsAllocator (λ m. m) allocator }
    requires seat { IsCaller (λ m. m) allocator seat }
    requires nothing { HasNothing (view seat.seat) }
    requires portions { (view seat.seat).portions ≡ all_portions }
    requires first { IsRequest allocator.pool.settings.page calls.0 }
    requires second { IsRequest allocator.pool.settings.page calls.1 }
    requires third { IsRequest allocator.pool.settings.page calls.2 }
    requires fourth { IsRequest allocator.pool.settings.page calls.3 }
{
    let mut seat = seat;
    let second = allocator.split_seat(alloc, &mut seat, 1)?;
    let third = allocator.split_seat(alloc, &mut seat, 1)?;
    let fourth = allocator.split_seat(alloc, &mut seat, 1)?;
    let (one, two, three, four) = calls;
    let (((mut seat, a), (second, b)), ((third, c), (fourth, d))) = four_work(
        rt,
        alloc,
        &allocator,
        Worker {
            seat,
            call: one,
            home: 0,
        },
        Worker {
            seat: second,
            call: two,
            home: 1,
        },
        Worker {
            seat: third,
            call: three,
            home: 2,
        },
        Worker {
            seat: fourth,
            call: four,
            home: 3,
        },
        times,
    );
    allocator.join_seat(&mut seat, second);
    allocator.join_seat(&mut seat, third);
    allocator.join_seat(&mut seat, fourth);
    let _parts = allocator.close(alloc, seat);
    Ok(a as u64 + b as u64 + c as u64 + d as u64)
}

/// Makes an allocator of 256 slots for memories, lets one thread go through so many cycles, or four threads through so many each, and closes it.
/// Answers how many cycles were done.
pub fn measure<R: Threads + Wait + Sync>(
    rt: &R,
    alloc: Global,
    four: bool,
    shards: u32,
    times: u32,
) -> Result<u64, PoolNewError> {
    let Ok(page) = PageSize::new(4096) else {
        return Err(PoolNewError::Memory);
    };
    let mut config = PoolingAllocationConfig::default();
    config.limits.total_memories = 256;
    config.limits.max_memory_size = 1 << 16;
    let mut maker = MemoryPages::new(page);
    let one = request(alloc, &mut maker, page)?;
    let two = request(alloc, &mut maker, page)?;
    let three = request(alloc, &mut maker, page)?;
    let last = request(alloc, &mut maker, page)?;
    let (allocator, seat) = PoolingInstanceAllocator::new(
        alloc,
        &config,
        &Tunables::default(),
        page,
        shards,
        &Offered::default(),
        &mut maker,
    )?;
    if !four {
        return Ok(alone(rt, alloc, allocator, seat, one, times));
    }
    match together(rt, alloc, allocator, seat, (one, two, three, last), times) {
        Ok(done) => Ok(done),
        Err(_) => Err(PoolNewError::Memory),
    }
}
