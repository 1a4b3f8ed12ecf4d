ghost use Rattle.std.specs.Prelude.{◌≡◌};

/// Who waits, by a number. Whoever owns it lends it to one wait at a time; of two with one number one waits for the other.
#[derive(Debug, Drop)]
pub struct Waiter {
    number: u32,
}

impl Waiter {
    /// The waiter of this number.
    pub fn new(number: u32) -> Waiter
        ensures { result.number ≡ number }
    {
        Waiter { number }
    }

    pub(crate) fn number(&self) -> u32
        ensures { result ≡ self.now.number }
    {
        self.number
    }
}
