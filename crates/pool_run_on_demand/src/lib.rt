//! A run without a pool: the commands of `pool_run` over the allocator on demand.
//!
//! `run_on_demand` takes the same `Input` as `run_schedule`, and answers a `RunOutput` too. Each command is one step;
//! each memory, table, stack and heap is made for the request that asks for it, and dropped when it is given back. The
//! pool's settings are tested and not used.
//!
//! `allocators_agree` is the law that the pool and the allocator on demand give the same replies to the commands on a
//! grant that both gave. It does nothing when it is called: its contract is what it is for.
//!
//! It is ours and no port. It stands on `pool_run`, for input, commands and replies, and on `pool_on_demand`.
//!
//! ```rust
//! let output = run_on_demand(alloc, &input, &mut pages)?;
//! ```
#![tactic(auto)]

// A run from its input to its output
mod run;

// A party, and its commands
mod act;
mod grant;
mod party;

// Requests, and giving back
mod give_back;
mod request;

// What is done with a table
mod tables;

// Laws
mod laws;

pub use laws::{allocators_agree, heap_faults_on_demand_are_listed};
pub use run::run_on_demand;
