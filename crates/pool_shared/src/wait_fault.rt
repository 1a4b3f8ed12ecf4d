use pool_limits::Trap;

/// Why a wait isn't begun.
#[derive(Clone, Copy, Debug, PartialEq, Eq)]
pub enum WaitFault {
    /// No memory was to be had for its waiter.
    Memory,
    /// The address isn't one of a word of the memory.
    Trap(Trap),
}

impl From<Trap> for WaitFault {
    ghost use Rattle.std.specs.Prelude.{◌≡◌};
    ghost use Rattle.pool_shared.specs.declared.wait_fault.WaitFault.TheVariants as fault;

    ghost from_gives = { λ trap f. f ≡ fault.Trap trap };

    fn from(trap: Trap) -> WaitFault {
        WaitFault::Trap(trap)
    }
}
