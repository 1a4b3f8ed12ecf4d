ghost use Rattle.std.specs.Prelude.{◌≡◌, ◌≤◌, ℕ};

/// A clock that tells nanoseconds. It never goes back.
pub trait Clock {
    // the last time that it told
    ghost told: { Self → ℕ };

    /// Tells the time, and keeps it as the last one.
    fn now(&mut self) -> u64
        ensures value { result ≡ told self.new }
        ensures rises { told self.old ≤ told self.new };

    /// The last time that it told.
    fn last(&self) -> u64
        ensures { result ≡ told self.now };
}
