ghost use Rattle.std.specs.Prelude.{◌≡◌, ◌≤◌, ℕ, List, Option, Bool, true, false, Result, Ok, Err, IfOk, IfErr, OnOk};
ghost use Rattle.pool_limits.specs.declared.errors.WaitResult.TheVariants as ended;
ghost use Rattle.pool_shared.specs.Spot.{is_waiting, has_passed};
ghost use Rattle.pool_shared.specs.Holds.{turn_of, FirstHold, LaterHold};
ghost use Rattle.pool_shared.specs.declared.hold.Asked.{Asked};
ghost use Rattle.pool_shared.specs.declared.hold.Turn.TheVariants as turn;
ghost use Rattle.pool_shared.specs.declared.wait_fault.WaitFault.{WaitFault};
ghost use Rattle.pool_shared.specs.declared.wait_step.WaitStep.{WaitStep};
ghost use Rattle.pool_shared.specs.declared.waiting.Waiting.{Waiting};

use crate::clock::Clock;
use crate::wait_fault::WaitFault;
use crate::wait_step::WaitStep;
use crate::waiting::has_passed;
use pool_limits::WaitResult;
use std::sync::{Condvar, CondvarTimeouts, Mutex, MutexGuard, Wait};
use std::time::{Clock as HostClock, Duration};

// The longest that a wait with a deadline sleeps before it looks at its clock again, in nanoseconds.
const LONGEST_SLEEP: u64 = 1_000_000;

/// The word that a wait is for, and what it is to be.
#[derive(Clone, Copy)]
pub enum Asked {
    Word32 { addr: u64, expected: u32 },
    Word64 { addr: u64, expected: u64 },
}

/// What one hold of a wait came to.
#[derive(Clone, Copy)]
pub enum Turn {
    /// The wait is over.
    Ended(WaitResult),
    /// The number of its waiter is in use still.
    Busy,
    /// Its waiter is parked.
    Parked,
}

/// What stands behind a lock where waits are made.
pub trait Held: Drop {
    ghost spot: { Self → List Waiting };

    // why a wait for a word is refused before it begins
    ghost valid: { Asked → Self → Result (Unit {0}) WaitFault };

    // what the call that begins a wait, and the one that asks how it stands, answer and leave
    ghost begins: { Asked → ℕ → Option ℕ → ℕ → Self → Self → Result WaitStep WaitFault → Type 0 };

    ghost rechecks: { ℕ → ℕ → Self → Self → WaitStep → Type 0 };

    // what is always so of a refusal, and of a word that isn't refused
    ghost refuses: { Asked → WaitFault → Type 0 };

    ghost accepts: { Asked → Type 0 };

    fn is_waiting(&self, waiter: u32) -> bool
        ensures { result ≡ is_waiting waiter (spot self.now) };

    fn validate(&self, asked: &Asked) -> Result<(), WaitFault>
        ensures value { result ≡ valid asked.now self.now }
        ensures ok { OnOk result (accepts asked.now) }
        ensures err { IfErr result (refuses asked.now) };

    fn begin(
        &mut self,
        asked: &Asked,
        waiter: u32,
        deadline: Option<u64>,
        now: u64,
    ) -> Result<WaitStep, WaitFault>
        requires { is_waiting waiter (spot self.old) ≡ false }
        ensures begins { begins asked.now waiter deadline now self.old self.new result }
        ensures err { IfErr result (refuses asked.now) };

    fn recheck(&mut self, waiter: u32, now: u64) -> WaitStep
        requires { is_waiting waiter (spot self.old) ≡ true }
        ensures { rechecks waiter now self.old self.new result };
}

/// A wait: for which word, of which waiter, and until when.
#[derive(Clone, Copy)]
pub struct WaitRequest {
    pub asked: Asked,
    pub waiter: u32,
    pub deadline: Option<u64>,
}

// What a step is to a wait whose own deadline has passed, or hasn't.
fn turn_of(late: bool, step: WaitStep) -> Turn
    ensures value { result ≡ turn_of late step }
    ensures late { result ≡ turn.Ended ended.TimedOut → late ≡ true }
{
    match step {
        WaitStep::Ok => Turn::Ended(WaitResult::Ok),
        WaitStep::Mismatch => Turn::Ended(WaitResult::Mismatch),
        WaitStep::TimedOut if late => Turn::Ended(WaitResult::TimedOut),
        WaitStep::TimedOut | WaitStep::Parked => Turn::Parked,
    }
}

// The hold of a wait that hasn't begun.
fn first_hold<H: Held>(held: &mut H, wait: &WaitRequest, now: u64) -> Result<Turn, WaitFault>
    ensures hold { FirstHold (H.valid wait.now.asked held.old) (is_waiting wait.now.waiter (H.spot held.old)) (has_passed now wait.now.deadline) (H.begins wait.now.asked wait.now.waiter wait.now.deadline now held.old) held.old held.new result }
    ensures late { result ≡ Ok (turn.Ended ended.TimedOut) → has_passed now wait.now.deadline ≡ true }
    ensures ok { OnOk result (H.accepts wait.now.asked) }
    ensures err { IfErr result (H.refuses wait.now.asked) }
{
    held.validate(&wait.asked)?;
    let late = has_passed(wait.deadline, now);
    if held.is_waiting(wait.waiter) {
        return Ok(if late {
            Turn::Ended(WaitResult::TimedOut)
        } else {
            Turn::Busy
        });
    }
    let step = held.begin(&wait.asked, wait.waiter, wait.deadline, now)?;
    Ok(turn_of(late, step))
}

// The hold of a wait that was parked.
fn later_hold<H: Held>(held: &mut H, wait: &WaitRequest, now: u64) -> Turn
    ensures late { result ≡ turn.Ended ended.TimedOut → has_passed now wait.now.deadline ≡ true }
    ensures hold { LaterHold (is_waiting wait.now.waiter (H.spot held.old)) (has_passed now wait.now.deadline) (H.rechecks wait.now.waiter now held.old) held.old held.new result }
{
    if !held.is_waiting(wait.waiter) {
        return Turn::Ended(WaitResult::Ok);
    }
    let step = held.recheck(wait.waiter, now);
    turn_of(has_passed(wait.deadline, now), step)
}

// Sleeps until something changes, or until it is time to look at the clock again.
fn sleep<T: Drop, R: Wait + HostClock>(
    rt: &R,
    changed: &Condvar,
    held: MutexGuard<'_, T>,
    deadline: Option<u64>,
    now: u64,
) {
    match deadline {
        None => drop(changed.wait(rt, held)),
        Some(deadline) => {
            let left = deadline.saturating_sub(now).min(LONGEST_SLEEP);
            let (held, _timed_out) = changed.wait_timeout(rt, held, Duration::from_nanos(left));
            drop(held);
        },
    }
}

// Takes the lock until the wait has begun, or is over.
fn begin<H: Held, C: Clock, R: Wait + HostClock>(
    rt: &R,
    lock: &Mutex<H>,
    changed: &Condvar,
    wait: &WaitRequest,
    clock: &mut C,
) -> Result<Turn, WaitFault>
    ensures late { result ≡ Ok (turn.Ended ended.TimedOut) → has_passed (C.told clock.new) wait.now.deadline ≡ true }
    ensures ok { OnOk result (H.accepts wait.now.asked) }
    ensures err { IfErr result (H.refuses wait.now.asked) }
{
    for _ in rt.forever() {
        let now = clock.now();
        let mut held = lock.lock(rt);
        match first_hold(&mut *held, wait, now) {
            Err(fault) => return Err(fault),
            Ok(Turn::Busy) => sleep(rt, changed, held, wait.deadline, now),
            Ok(turn) => return Ok(turn),
        }
    }
    unreachable!()
}

// Takes the lock until a wait that was parked is over.
fn finish<H: Held, C: Clock, R: Wait + HostClock>(
    rt: &R,
    lock: &Mutex<H>,
    changed: &Condvar,
    wait: &WaitRequest,
    clock: &mut C,
) -> WaitResult
    ensures late { result ≡ ended.TimedOut → has_passed (C.told clock.new) wait.now.deadline ≡ true }
{
    for _ in rt.forever() {
        let now = clock.now();
        let mut held = lock.lock(rt);
        match later_hold(&mut *held, wait, now) {
            Turn::Ended(result) => return result,
            Turn::Busy | Turn::Parked => sleep(rt, changed, held, wait.deadline, now),
        }
    }
    unreachable!()
}

// Waits: takes the lock again and again until the wait is over. Its number is free for others then.
pub(crate) fn wait_on<H: Held, C: Clock, R: Wait + HostClock>(
    rt: &R,
    lock: &Mutex<H>,
    changed: &Condvar,
    wait: &WaitRequest,
    clock: &mut C,
) -> Result<WaitResult, WaitFault>
    ensures late { result ≡ Ok ended.TimedOut → has_passed (C.told clock.new) wait.now.deadline ≡ true }
    ensures ok { OnOk result (H.accepts wait.now.asked) }
    ensures err { IfErr result (H.refuses wait.now.asked) }
{
    match begin(rt, lock, changed, wait, clock) {
        Err(fault) => Err(fault),
        Ok(Turn::Ended(result)) => Ok(result),
        Ok(Turn::Busy | Turn::Parked) => {
            let result = finish(rt, lock, changed, wait, clock);
            changed.notify_all();
            Ok(result)
        },
    }
}
