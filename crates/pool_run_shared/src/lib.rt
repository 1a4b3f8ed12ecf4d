//! Events on one shared memory, one after the other.
//!
//! Read `SharedInput` first: a memory's type, and a list of `SharedEvent`. `run_shared` makes the memory and has the
//! events happen on it in order, and answers a `SharedReply` for each. `is_valid_shared` is the test of an input. No
//! thread sleeps: a waiter that parks is a number, and an event asks again how its wait stands.
//!
//! It is ours and no port. It stands on `SharedState` of `pool_shared`, and of `pool_run` it takes `RunFault` and the
//! greatest number of bytes of a run.
//!
//! ```rust
//! let replies = run_shared(alloc, &input, &mut pages)?;
//! ```
#![tactic(auto)]

// The input, and whether it is valid
mod input;
mod validity;

// What is replied
mod reply;

// The run, and an event of it
mod events;
mod run;

pub use input::{SharedEvent, SharedInput};
pub use reply::SharedReply;
pub use run::run_shared;
pub use validity::{MOST_EVENTS, MOST_MINIMUM, WAITERS, is_valid_shared};
