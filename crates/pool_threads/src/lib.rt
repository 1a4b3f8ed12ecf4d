//! Parties on threads of their own: the commands of one party, over a pool that others use at the same time.
//!
//! `run_party` makes the commands of a party, one after the other, by the turns of `pool_run`, whose steps are those of `pool_driver`. So its
//! replies are those of a run over bytes and elements that only this party has, as the replies of `run_schedule` are.
//!
//! It is ours and no port. It stands on `pool_run` and `pool_driver` and the crates below them.
#![tactic(auto)]

mod gate;
mod party;

pub use gate::{Gate, OpenGate};
pub use party::{party_at, run_party};
