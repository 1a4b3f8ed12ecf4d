//! Resource limiters: who is asked before a memory or a table grows, and who is told when growth fails.
//!
//! Read the trait `ResourceLimiter` first. `StoreLimits`, made by `StoreLimitsBuilder`, is the one with fixed limits;
//! `Unlimited` allows all; a type that only decides growth implements `GrowthLimiter`. A `LimiterError` is a limiter's
//! refusal with an error, a `GrowError` is why a growth failed, as the limiter is told, and a `GrowFault` is an error
//! that a growth answers. `report_failure` is the one way in which memories and tables report a growth that failed.
//! `Trap` and `WaitResult` stand here, since memories, tables and waits share them.
//!
//! From Wasmtime: `limits.rs`. It stands on `pool_types` alone, and doesn't know where what grows lies.
//!
//! ```rust
//! let limits = StoreLimitsBuilder::new().memory_size(65536).trap_on_grow_failure(true).build();
//! ```
#![tactic(auto)]

// Limiters
mod resource_limiter;
mod store_limits;

// Growth that fails
mod growing;

// Errors and traps
mod errors;

pub use errors::{GrowError, GrowFault, LimiterError, Trap, WaitResult};
pub use growing::{Growable, report_failure};
pub use resource_limiter::{
    DEFAULT_INSTANCE_LIMIT, DEFAULT_MEMORY_LIMIT, DEFAULT_TABLE_LIMIT, GrowthLimiter,
    ResourceLimiter, Unlimited,
};
pub use store_limits::{StoreLimits, StoreLimitsBuilder};
