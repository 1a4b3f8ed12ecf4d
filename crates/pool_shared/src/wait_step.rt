/// What one call of a wait finds.
#[derive(Clone, Copy, Debug, PartialEq, Eq)]
pub enum WaitStep {
    /// The waiter was notified.
    Ok,
    /// The word isn't the expected one.
    Mismatch,
    /// The deadline is at most the time of the call.
    TimedOut,
    /// The waiter waits on.
    Parked,
}
