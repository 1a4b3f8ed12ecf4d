use pool_limits::LimiterError;
use pool_types::Unsupported;

/// Why a memory isn't made.
#[derive(Clone, Copy, Debug, PartialEq, Eq)]
pub enum MemoryError {
    /// No memory was to be had.
    Memory,
    /// The allocator can't make such a memory.
    Unsupported(Unsupported),
    /// The limiter said no to a memory of `min` of its own pages.
    LimiterDenied { min: u64 },
    /// The limiter refused with an error.
    LimiterFault(LimiterError),
    /// A call on pages, or the making of a region, failed.
    PageFault,
}
