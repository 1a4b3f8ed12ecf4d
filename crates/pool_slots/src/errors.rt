ghost use Rattle.std.specs.Prelude.{Some};
ghost use Rattle.pool_slots.specs.Texts.{kind_text, limit_text};

use pool_limits::LimiterError;
use pool_types::{BadConfig, Unsupported};
use std::error::Error;
use std::fmt;

/// What there is a greatest number of at once.
#[derive(Clone, Copy, Debug, PartialEq, Eq)]
pub enum ConcurrencyKind {
    /// Memories of the stripe with this number.
    MemoryStripe(u32),
    Tables,
    Fibers,
    GcHeaps,
    CoreInstances,
    ComponentInstances,
}

impl fmt::Display for ConcurrencyKind {
    ghost output = { λ kind. Some (kind_text kind) };

    fn fmt<W: fmt::Write>(&self, f: &mut fmt::Formatter<W>) -> fmt::Result {
        match self {
            ConcurrencyKind::MemoryStripe(stripe) => write!(f, "memory stripe {stripe}"),
            ConcurrencyKind::Tables => write!(f, "tables"),
            ConcurrencyKind::Fibers => write!(f, "fibers"),
            ConcurrencyKind::GcHeaps => write!(f, "GC heaps"),
            ConcurrencyKind::CoreInstances => write!(f, "core instances"),
            ConcurrencyKind::ComponentInstances => write!(f, "component instances"),
        }
    }
}

/// As many of a kind are live as the pool has.
#[derive(Clone, Copy, Debug, PartialEq, Eq)]
pub struct PoolConcurrencyLimitError {
    pub limit: usize,
    pub kind: ConcurrencyKind,
}

impl fmt::Display for PoolConcurrencyLimitError {
    ghost output = { λ e. Some (limit_text e) };

    fn fmt<W: fmt::Write>(&self, f: &mut fmt::Formatter<W>) -> fmt::Result {
        let limit = self.limit;
        let kind = self.kind;
        write!(f, "maximum concurrent limit of {limit} for {kind} reached")
    }
}

impl Error for PoolConcurrencyLimitError {}

/// Why an allocation was refused.
#[derive(Clone, Copy, Debug, PartialEq, Eq)]
pub enum AllocError {
    /// No memory was to be had.
    Memory,
    /// The pool can't have such a module or memory.
    Unsupported(Unsupported),
    /// No slot is free, or a counter is at its limit.
    Limit(PoolConcurrencyLimitError),
    /// The pool's stacks have no bytes.
    StacksDisabled,
    /// No collector is set.
    HeapsDisabled,
    /// The limiter said no to a memory of `min` pages of its own, or to a table of `min` elements.
    LimiterDenied { table: bool, min: u64 },
    /// The limiter answered an error.
    LimiterFault(LimiterError),
    /// A call on the pages of the slot failed.
    PageFault,
    /// The heap couldn't be made.
    HeapFault,
}

/// Why a pool can't be made.
#[derive(Clone, Copy, Debug, PartialEq, Eq)]
pub enum PoolNewError {
    BadConfig(BadConfig),
    /// A region couldn't be made, or a call on it failed.
    PageFault,
    Memory,
}
