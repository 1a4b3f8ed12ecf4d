use pool_limits::LimiterError;
use pool_types::Unsupported;

/// Why a table isn't made.
#[derive(Clone, Copy, Debug, PartialEq, Eq)]
pub enum TableError {
    /// No memory was to be had.
    Memory,
    /// The allocator can't make such a table.
    Unsupported(Unsupported),
    /// The limiter said no to a table of `min` elements.
    LimiterDenied { min: u64 },
    /// The limiter refused with an error.
    LimiterFault(LimiterError),
}
