//! The load generator: the input of a load, made from a seed.
//!
//! `load_input` draws numbers one after another (`draws.rt`) and makes the parties' commands and the schedule of them
//! (`input.rt`). The same seed gives the same input.
//!
//! It is ours and no port. It stands on `pool_run` for what an input is, and runs nothing.
//!
//! ```rust
//! let input = load_input(alloc, 7)?;
//! ```
#![tactic(auto)]

mod draws;
mod input;

pub use input::load_input;
