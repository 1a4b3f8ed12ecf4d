//! All parties of an input side by side, each on a thread of its own.
//!
//! It is ours and no port. It stands on `pool_threads` and the crates below it.
#![tactic(auto)]

mod jobs;
mod joins;
mod padding;
mod threads;
mod worker;
mod workers;

pub use threads::{run_over, run_threads, run_threads_with};
pub use worker::Worker;
