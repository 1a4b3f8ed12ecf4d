//! Locks: parts behind one lock each, and counters, which threads share. The index allocators for threads stand on it
//! (`pool_index`), and so does the whole pool for threads (`pool_driver`, `pool_callers`).
//!
//! The pool without locks uses `SlotKind` alone, and in contracts `UnitName`: the name of a right to a slot, or to its
//! region, by which the crates above say that none is given out twice.
//!
//! Read `Part` first, what lies behind a lock; then `Hall`, which has the parts and counters, and `HallSeat`, the token
//! with which a thread calls. `View` is what a thread knows, and `PartCall` is one call on a part while its lock is
//! held. Nothing is promised of how long a wait for a lock takes.
//!
//! It is ours and no port; it stands on `atomic_table` of the toolchain and on no crate of ours.
//!
//! ```rust
//! let answer = hall.hold(rt, seat, place, &mut call);
//! ```
#![tactic(auto)]

// Kinds of slots, and the names of rights to them
mod unit_name;

// The hall: parts and counters
mod ends;
mod hall;
mod law;
mod part;
mod room;

// What threads call
mod calls;
mod counters;
mod holds;
mod layout;
mod lends;
mod seats;

// What a thread knows
mod sums;
mod view;

pub use hall::{Hall, HallSeat};
pub use holds::PartCall;
pub use part::Part;
pub use sums::sums_follow;
pub use unit_name::{SlotKind, UnitName};
pub use view::{CountRise, HeldPart, View};
