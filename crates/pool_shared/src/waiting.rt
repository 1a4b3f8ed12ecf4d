ghost use Rattle.std.specs.Prelude.{◌≡◌, ◌||◌};
ghost use Rattle.pool_shared.specs.Spot.{has_passed, is_parked_at, step_of};

use crate::wait_step::WaitStep;

/// A wait that has begun and not ended. Its times are in nanoseconds.
#[derive(Clone, Copy)]
pub struct Waiting {
    pub addr: u64,
    pub waiter: u32,
    pub deadline: Option<u64>,
    /// Whether its waiter was notified. Until then it is parked at its address.
    pub marked: bool,
}

impl Waiting {
    /// Whether it is parked at the address.
    pub(crate) fn is_parked_at(&self, addr: u64) -> bool
        ensures { result ≡ is_parked_at addr self.now }
    {
        self.addr == addr && !self.marked
    }

    /// Whether its deadline is at most `now`.
    pub(crate) fn is_late(&self, now: u64) -> bool
        ensures { result ≡ has_passed now self.now.deadline }
    {
        has_passed(self.deadline, now)
    }

    /// Whether a recheck ends it.
    pub(crate) fn ends(&self, now: u64) -> bool
        ensures { result ≡ (self.now.marked || has_passed now self.now.deadline) }
    {
        self.marked || self.is_late(now)
    }

    /// How it stands: notified, else past its deadline, else parked.
    pub(crate) fn step(&self, now: u64) -> WaitStep
        ensures { result ≡ step_of self.now.marked (has_passed now self.now.deadline) }
    {
        if self.marked {
            WaitStep::Ok
        } else if self.is_late(now) {
            WaitStep::TimedOut
        } else {
            WaitStep::Parked
        }
    }
}

/// Whether a deadline is at most `now`. Where there is none it never is.
pub(crate) fn has_passed(deadline: Option<u64>, now: u64) -> bool
    ensures { result ≡ has_passed now deadline }
{
    match deadline {
        None => false,
        Some(deadline) => deadline <= now,
    }
}
