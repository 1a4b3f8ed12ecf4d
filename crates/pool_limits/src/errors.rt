ghost use Rattle.std.specs.Prelude.{Some};
ghost use Rattle.pool_limits.specs.Texts.{limiter_text};

use std::error::Error;
use std::fmt;

/// Why a limiter refuses with an error. Sizes are in bytes for a memory, and in elements for a table.
#[derive(Clone, Copy, Debug, PartialEq, Eq)]
pub enum LimiterError {
    /// A memory was to grow to this size.
    MemoryGrow { desired: usize },
    /// A table was to grow to this size.
    TableGrow { desired: usize },
    /// The growth of a memory failed.
    MemoryGrowFailed,
    /// The growth of a table failed.
    TableGrowFailed,
    /// A limiter's own error, by its code.
    Other(u32),
}

impl fmt::Display for LimiterError {
    ghost output = { λ e. Some (limiter_text e) };

    fn fmt<W: fmt::Write>(&self, f: &mut fmt::Formatter<W>) -> fmt::Result {
        match self {
            LimiterError::MemoryGrow { desired } => {
                write!(f, "forcing trap when growing memory to {desired} bytes")
            }
            LimiterError::TableGrow { desired } => {
                write!(f, "forcing trap when growing table to {desired} elements")
            }
            LimiterError::MemoryGrowFailed => {
                write!(f, "forcing a memory growth failure to be a trap")
            }
            LimiterError::TableGrowFailed => {
                write!(f, "forcing a table growth failure to be a trap")
            }
            LimiterError::Other(code) => write!(f, "limiter error {code}"),
        }
    }
}

impl Error for LimiterError {}

/// Why a memory or a table didn't grow, as a limiter is told.
#[derive(Clone, Copy, Debug, PartialEq, Eq)]
pub enum GrowError {
    /// The size is past what its type can have at all.
    TypeLimit,
    /// The size is past the maximum, or past the room of what may not move.
    MaximumExceeded,
    /// A call on pages failed.
    PageFault,
    /// No memory was to be had.
    Memory,
    /// The sizes of a new region leave their type.
    Overflow,
}

/// Why a growth gave no answer.
#[derive(Clone, Copy, Debug, PartialEq, Eq)]
pub enum GrowFault {
    /// No memory was to be had.
    Memory,
    /// The limiter refused with an error, or made a failure one.
    LimiterFault(LimiterError),
}

impl From<LimiterError> for GrowFault {
    ghost use Rattle.std.specs.Prelude.{◌≡◌};
    ghost use Rattle.pool_limits.specs.declared.errors.GrowFault.TheVariants.{LimiterFault};

    ghost from_gives = { λ e fault. fault ≡ LimiterFault e };

    fn from(e: LimiterError) -> GrowFault {
        GrowFault::LimiterFault(e)
    }
}

/// Why an access to a memory or a table doesn't happen.
#[derive(Clone, Copy, Debug, PartialEq, Eq)]
pub enum Trap {
    MemoryOutOfBounds,
    TableOutOfBounds,
    /// The address of an atomic access is no multiple of its width.
    HeapMisaligned,
    /// A wait on a memory that isn't shared, so that nobody could wake it.
    AtomicWaitNonSharedMemory,
}

/// How a wait on a shared memory ended.
#[derive(Clone, Copy, Debug, PartialEq, Eq)]
pub enum WaitResult {
    /// It was woken.
    Ok,
    /// The word wasn't the expected one, so there was no wait.
    Mismatch,
    TimedOut,
}
