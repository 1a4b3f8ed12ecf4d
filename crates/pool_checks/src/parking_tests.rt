//! Threads that wait on a parking spot, and on a shared memory whose contracts know with how many bytes it was made.
ghost use Rattle.std.specs.Prelude.{◌≡◌, ◌*◌, ◌<◌};

use pool_limits::WaitResult;
use pool_memory::MmapMemory;
use pool_pages::{MadeRegion, MemoryPages};
use pool_shared::{Clock, ParkingSpot, SharedMemory, SizeAsMade, Waiter, Words};
use pool_types::{IndexType, Limits, MemoryKind, MemoryTunables, MemoryType, PageSize, Tunables};
use std::alloc::Global;
use std::marker::Brand;
use std::sync::Wait;
use std::test::*;
use std::thread;
use std::thread::Threads;
use std::time::Clock as HostClock;

// How often a thread looks before it gives up.
const TURNS: u64 = 10_000_000;

const ADDRESS: u64 = 8;

#[derive(Drop)]
struct Zeros;

impl Words for Zeros {
    fn word32(&self, _addr: u64) -> u32 {
        0
    }

    fn word64(&self, _addr: u64) -> u64 {
        0
    }
}

// A clock that tells how often it was asked.
#[derive(Drop)]
struct Looks {
    count: u64,
}

impl Clock for Looks {
    ghost told = { λ c. c.count };

    fn now(&mut self) -> u64 {
        self.count = self.count.saturating_add(1);
        self.count
    }

    fn last(&self) -> u64 {
        self.count
    }
}

// A thread waits until another notifies it, and then waits end with no notify.
fn parks_at_a_spot<R: Threads + Wait + HostClock + Sync>(
    rt: &R,
    spot: &ParkingSpot<Zeros>,
) -> Result<(), Fail> {
    let (waited, notified) = thread::join(
        rt,
        || {
            let (mut waiter, mut clock) = (Waiter::new(0), Looks { count: 0 });
            spot.wait32(rt, ADDRESS, 0, Some(TURNS), &mut waiter, &mut clock)
        },
        || {
            let mut notified = 0;
            for _ in 0..TURNS {
                notified = spot.notify(rt, ADDRESS, 1);
                if notified > 0 {
                    break;
                }
                thread::yield_now();
            }
            notified
        },
    );
    if notified != 1 || !matches!(waited, Ok(WaitResult::Ok)) {
        return Err(Fail::new("the thread isn't notified"));
    }
    let (mut waiter, mut clock) = (Waiter::new(0), Looks { count: 0 });
    let unequal = spot.wait32(rt, ADDRESS, 1, None, &mut waiter, &mut clock);
    let late = spot.wait64(rt, ADDRESS, 0, Some(0), &mut waiter, &mut clock);
    if !matches!(unequal, Ok(WaitResult::Mismatch)) || !matches!(late, Ok(WaitResult::TimedOut)) {
        return Err(Fail::new("a wait doesn't end"));
    }
    Ok(())
}

// The same in a shared memory. The first write and read are within what the memory was made with, so they can't be refused.
fn parks_in_a_memory<S: SizeAsMade + Send, R: Threads + Wait + HostClock + Sync>(
    rt: &R,
    alloc: Global,
    pages: u64,
) -> Result<(), Fail>
    requires some { 0 < pages }
    requires few { pages < 8 }
    requires size { S.size ≡ pages * 65536 }
{
    let mut maker = MemoryPages::new(PageSize::new(4096)?);
    let ty = MemoryType {
        idx_type: IndexType::I32,
        limits: Limits {
            min: pages,
            max: Some(pages),
        },
        shared: true,
        page_size_log2: 16,
    };
    let tunables = MemoryTunables::new(&Tunables::default(), MemoryKind::LinearMemory);
    let memory: SharedMemory<MemoryPages, MmapMemory<MadeRegion>, S> = SharedMemory::new(
        alloc, &mut maker, &ty, &tunables, true,
    )?;
    let last = pages * 65_536 - 4;
    let mut bytes = [9; 4];
    let Ok(()) = memory.write(rt, last, &[1, 2, 3, 4]) else {
        unreachable!();
    };
    let Ok(()) = memory.read(rt, last, &mut bytes) else {
        unreachable!();
    };
    let (waited, notified) = thread::join(
        rt,
        || {
            let (mut waiter, mut clock) = (Waiter::new(0), Looks { count: 0 });
            memory.atomic_wait32(rt, ADDRESS, 0, Some(TURNS), &mut waiter, &mut clock)
        },
        || {
            let mut notified = Ok(0);
            for _ in 0..TURNS {
                notified = memory.atomic_notify(rt, ADDRESS, 1);
                if notified != Ok(0) {
                    break;
                }
                thread::yield_now();
            }
            notified
        },
    );
    if notified != Ok(1) || waited != Ok(WaitResult::Ok) || bytes != [1, 2, 3, 4] {
        return Err(Fail::new("the thread isn't notified"));
    }
    let (mut waiter, mut clock) = (Waiter::new(0), Looks { count: 0 });
    let late = memory.atomic_wait64(rt, ADDRESS, 0, Some(0), &mut waiter, &mut clock);
    let size = memory.byte_size(rt);
    let grown = memory.grow(rt, &mut maker, 0);
    if late != Ok(WaitResult::TimedOut)
        || grown != Ok(Some((size, size)))
        || !memory.needs_init(rt)
    {
        return Err(Fail::new("the memory isn't as it was made"));
    }
    Ok(())
}

#[test]
fn threads_wait_and_are_notified(rt: HostRuntime) -> Result<(), Fail> {
    let spot = ParkingSpot::new(rt.alloc(), Zeros);
    parks_at_a_spot(&rt, &spot)?;
    parks_in_a_memory::<Brand, _>(&rt, rt.alloc(), 1)
}
