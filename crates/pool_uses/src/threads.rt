//! Callers on threads of their own, at an allocator over regions in memory.
//!
//! Threads share the allocator, and each has a seat. A thread's closure says what its caller needs of both, and what the seat is when
//! the thread comes back.
ghost use Rattle.std.specs.Prelude.{◌≡◌};
ghost use Rattle.std.specs.Thread.{IsSync};
ghost use Rattle.pool_callers.specs.Callers.{IsAllocator, IsCaller};
ghost use Rattle.pool_uses.specs.Threads.{ComesBack, MayAsk};

use crate::turnover::cycles;
use crate::two_stacks::hold_each;
use pool_alloc::ModuleCall;
use pool_callers::{CallerSeat, PoolingInstanceAllocator};
use pool_driver::{PoolHall, PoolSeat};
use pool_index::ShardId;
use pool_pages::{MadeRegion, MemoryPages};
use pool_slots::PlainHeap;
use std::alloc::Global;
use std::sync::Wait;
use std::thread;
use std::thread::Threads;

/// An allocator over regions in memory.
pub type MemoryAllocator = PoolingInstanceAllocator<
    PoolHall<MadeRegion, PlainHeap, MemoryPages>,
    MadeRegion,
    PlainHeap,
>;

/// A seat of such an allocator.
pub type MemoryCaller = CallerSeat<
    PoolSeat<MadeRegion, PlainHeap, MemoryPages>,
    MadeRegion,
    PlainHeap,
>;

/// Two callers hold two stacks each at a time (`hold_each`), each on a thread of its own and from a home of its own. Answers each one's
/// seat, and in which of the slots 0 and 1 it was.
pub fn both_hold_each<R: Threads + Wait + Sync>(
    rt: &R,
    alloc: Global,
    allocator: &MemoryAllocator,
    one: MemoryCaller,
    other: MemoryCaller,
    times: u32,
) -> ((MemoryCaller, (bool, bool)), (MemoryCaller, (bool, bool)))
    requires pool { IsAllocator (λ m. m) allocator.now }
    requires one { IsCaller (λ m. m) allocator.now one }
    requires other { IsCaller (λ m. m) allocator.now other }
    ensures one { ComesBack (λ m. m) allocator.now one result.0.0 }
    ensures other { ComesBack (λ m. m) allocator.now other result.1.0 }
{
    thread::join(
        rt,
        move || -> (MemoryCaller, (bool, bool))
            requires { IsSync R.row × IsAllocator (λ m. m) allocator.now × IsCaller (λ m. m) allocator.now one }
            ensures { ComesBack (λ m. m) allocator.entry.now one result.0 }
        { hold_each(rt, alloc, allocator, ShardId(0), one, times) },
        move || -> (MemoryCaller, (bool, bool))
            requires { IsSync R.row × IsAllocator (λ m. m) allocator.now × IsCaller (λ m. m) allocator.now other }
            ensures { ComesBack (λ m. m) allocator.entry.now other result.0 }
        { hold_each(rt, alloc, allocator, ShardId(1), other, times) },
    )
}

/// A caller with what it asks for, and its home.
#[derive(Drop)]
pub struct Worker {
    pub seat: MemoryCaller,
    pub call: ModuleCall,
    pub home: u32,
}

/// One worker goes through `cycles`. Answers its seat, and how often it did.
pub fn work<R: Wait>(
    rt: &R,
    alloc: Global,
    allocator: &MemoryAllocator,
    worker: Worker,
    times: u32,
) -> (MemoryCaller, u32)
    requires pool { IsAllocator (λ m. m) allocator.now }
    requires worker { MayAsk (λ m. m) allocator.now worker.seat worker.call }
    ensures worker { ComesBack (λ m. m) allocator.now worker.seat result.0 }
{
    let Worker { seat, call, home } = worker;
    cycles(rt, alloc, allocator, ShardId(home), seat, &call, times)
}

/// Two workers, each on a thread of its own.
pub fn both_work<R: Threads + Wait + Sync>(
    rt: &R,
    alloc: Global,
    allocator: &MemoryAllocator,
    one: Worker,
    other: Worker,
    times: u32,
) -> ((MemoryCaller, u32), (MemoryCaller, u32))
    requires pool { IsAllocator (λ m. m) allocator.now }
    requires one { MayAsk (λ m. m) allocator.now one.seat one.call }
    requires other { MayAsk (λ m. m) allocator.now other.seat other.call }
    ensures one { ComesBack (λ m. m) allocator.now one.seat result.0.0 }
    ensures other { ComesBack (λ m. m) allocator.now other.seat result.1.0 }
{
    thread::join(
        rt,
        move || -> (MemoryCaller, u32)
            requires { IsSync R.row × IsAllocator (λ m. m) allocator.now × MayAsk (λ m. m) allocator.now one.seat one.call }
            ensures { ComesBack (λ m. m) allocator.entry.now one.seat result.0 }
        { work(rt, alloc, allocator, one, times) },
        move || -> (MemoryCaller, u32)
            requires { IsSync R.row × IsAllocator (λ m. m) allocator.now × MayAsk (λ m. m) allocator.now other.seat other.call }
            ensures { ComesBack (λ m. m) allocator.entry.now other.seat result.0 }
        { work(rt, alloc, allocator, other, times) },
    )
}

/// Four workers, each on a thread of its own.
pub fn four_work<R: Threads + Wait + Sync>(
    rt: &R,
    alloc: Global,
    allocator: &MemoryAllocator,
    first: Worker,
    second: Worker,
    third: Worker,
    fourth: Worker,
    times: u32,
) -> (
    ((MemoryCaller, u32), (MemoryCaller, u32)),
    ((MemoryCaller, u32), (MemoryCaller, u32)),
)
    requires pool { IsAllocator (λ m. m) allocator.now }
    requires first { MayAsk (λ m. m) allocator.now first.seat first.call }
    requires second { MayAsk (λ m. m) allocator.now second.seat second.call }
    requires third { MayAsk (λ m. m) allocator.now third.seat third.call }
    requires fourth { MayAsk (λ m. m) allocator.now fourth.seat fourth.call }
    ensures first { ComesBack (λ m. m) allocator.now first.seat result.0.0.0 }
    ensures second { ComesBack (λ m. m) allocator.now second.seat result.0.1.0 }
    ensures third { ComesBack (λ m. m) allocator.now third.seat result.1.0.0 }
    ensures fourth { ComesBack (λ m. m) allocator.now fourth.seat result.1.1.0 }
{
    thread::join(
        rt,
        move || -> ((MemoryCaller, u32), (MemoryCaller, u32))
            requires { IsSync R.row × IsAllocator (λ m. m) allocator.now × MayAsk (λ m. m) allocator.now first.seat first.call × MayAsk (λ m. m) allocator.now second.seat second.call }
            ensures { ComesBack (λ m. m) allocator.entry.now first.seat result.0.0 × ComesBack (λ m. m) allocator.entry.now second.seat result.1.0 }
        { both_work(rt, alloc, allocator, first, second, times) },
        move || -> ((MemoryCaller, u32), (MemoryCaller, u32))
            requires { IsSync R.row × IsAllocator (λ m. m) allocator.now × MayAsk (λ m. m) allocator.now third.seat third.call × MayAsk (λ m. m) allocator.now fourth.seat fourth.call }
            ensures { ComesBack (λ m. m) allocator.entry.now third.seat result.0.0 × ComesBack (λ m. m) allocator.entry.now fourth.seat result.1.0 }
        { both_work(rt, alloc, allocator, third, fourth, times) },
    )
}
