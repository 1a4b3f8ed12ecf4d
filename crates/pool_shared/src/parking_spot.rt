ghost use Rattle.std.specs.Prelude.{◌≡◌, ◌<◌, ◌≤◌, true, Ok};
ghost use Rattle.pool_limits.specs.declared.errors.WaitResult.TheVariants as ended;
ghost use Rattle.pool_shared.specs.Spot.{has_passed};

use crate::clock::Clock;
use crate::hold::{Asked, Held, WaitRequest, wait_on};
use crate::spot_state::SpotState;
use crate::wait_fault::WaitFault;
use crate::wait_step::WaitStep;
use crate::waiter::Waiter;
use pool_limits::WaitResult;
use std::alloc::{AllocError, Global};
use std::sync::{Condvar, Mutex, Wait};
use std::time::Clock as HostClock;

/// The words that waits compare, by their addresses. They are read under the spot's lock.
pub trait Words: Drop {
    /// The word of four bytes at the address.
    fn word32(&self, addr: u64) -> u32;

    /// The word of eight bytes at the address.
    fn word64(&self, addr: u64) -> u64;
}

// A spot with the words that it compares.
#[derive(Drop)]
struct Parked<W: Words> {
    spot: SpotState,
    words: W,
}

impl<W: Words> Held for Parked<W> {
    ghost use Rattle.std.specs.Prelude.{◌≡◌, Ok};
    ghost use Rattle.pool_shared.specs.Spot.{recheck_answer, after_recheck};
    ghost use Rattle.pool_shared.specs.Spots.{SpotWaits, IsWantOfMemory};

    ghost spot = { λ p. p.spot };

    ghost valid = { λ asked p. Ok tt };

    ghost begins = { λ asked waiter deadline now old new result. SpotWaits asked waiter deadline now old.spot new.spot result };

    ghost rechecks = { λ waiter now old new step. (step ≡ recheck_answer waiter now old.spot) × (new.spot ≡ after_recheck waiter now old.spot) };

    ghost refuses = { λ asked fault. IsWantOfMemory fault };

    ghost accepts = { λ asked. Unit {0} };

    fn is_waiting(&self, waiter: u32) -> bool {
        self.spot.is_waiting(waiter)
    }

    fn validate(&self, _asked: &Asked) -> Result<(), WaitFault> {
        Ok(())
    }

    fn begin(
        &mut self,
        asked: &Asked,
        waiter: u32,
        deadline: Option<u64>,
        now: u64,
    ) -> Result<WaitStep, WaitFault> {
        let (addr, same) = match *asked {
            Asked::Word32 { addr, expected } => (addr, self.words.word32(addr) == expected),
            Asked::Word64 { addr, expected } => (addr, self.words.word64(addr) == expected),
        };
        match self.spot.wait(addr, waiter, same, deadline, now) {
            Ok(step) => Ok(step),
            Err(_) => Err(WaitFault::Memory),
        }
    }

    fn recheck(&mut self, waiter: u32, now: u64) -> WaitStep {
        self.spot.recheck(waiter, now)
    }
}

/// Where threads wait for words to change, and are notified of it. Each hold of its lock makes one call on who waits.
#[derive(Drop)]
pub struct ParkingSpot<W: Words> {
    parked: Mutex<Parked<W>>,
    changed: Condvar,
}

impl<W: Words> ParkingSpot<W> {
    /// Nobody waits. Takes no memory.
    pub fn new(alloc: Global, words: W) -> ParkingSpot<W> {
        ParkingSpot {
            parked: Mutex::new(Parked {
                spot: SpotState::new(alloc),
                words,
            }),
            changed: Condvar::new(),
        }
    }

    /// Waits at the address for a notify, if the word of four bytes there is the expected one. The deadline is in
    /// nanoseconds of the clock.
    pub fn wait32<C: Clock, R: Wait + HostClock>(
        &self,
        rt: &R,
        addr: u64,
        expected: u32,
        deadline: Option<u64>,
        waiter: &mut Waiter,
        clock: &mut C,
    ) -> Result<WaitResult, AllocError>
        ensures late { result ≡ Ok ended.TimedOut → has_passed (C.told clock.new) deadline ≡ true }
    {
        self.wait(
            rt,
            Asked::Word32 { addr, expected },
            deadline,
            waiter,
            clock,
        )
    }

    /// As `wait32`, for a word of eight bytes.
    pub fn wait64<C: Clock, R: Wait + HostClock>(
        &self,
        rt: &R,
        addr: u64,
        expected: u64,
        deadline: Option<u64>,
        waiter: &mut Waiter,
        clock: &mut C,
    ) -> Result<WaitResult, AllocError>
        ensures late { result ≡ Ok ended.TimedOut → has_passed (C.told clock.new) deadline ≡ true }
    {
        self.wait(
            rt,
            Asked::Word64 { addr, expected },
            deadline,
            waiter,
            clock,
        )
    }

    fn wait<C: Clock, R: Wait + HostClock>(
        &self,
        rt: &R,
        asked: Asked,
        deadline: Option<u64>,
        waiter: &mut Waiter,
        clock: &mut C,
    ) -> Result<WaitResult, AllocError>
        ensures late { result ≡ Ok ended.TimedOut → has_passed (C.told clock.new) deadline ≡ true }
    {
        let wait = WaitRequest {
            asked,
            waiter: waiter.number(),
            deadline,
        };
        match wait_on(rt, &self.parked, &self.changed, &wait, clock) {
            Ok(result) => Ok(result),
            Err(WaitFault::Memory) => Err(AllocError),
            Err(WaitFault::Trap(_trap)) => unreachable!(),
        }
    }

    /// Notifies the first `n` waiters at the address, or all where they are fewer, and tells how many. Where there are none
    /// nobody wakes.
    pub fn notify<R: Wait>(&self, rt: &R, addr: u64, n: u32) -> u32
        ensures at_most { result ≤ n }
    {
        let notified = self.parked.lock(rt).spot.notify(addr, n);
        if notified > 0 {
            self.changed.notify_all();
        }
        notified
    }
}
