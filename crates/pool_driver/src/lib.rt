//! A pool for threads: its parts lie in a hall, behind one lock each.
//!
//! Read `HallPart` first: a part of a pool that tells of which pool it is. The hall accepts it only where it belongs.
//! A `SharedPool` is a hall with the parts of a whole pool, its settings and its plan. Callers share it, and each has a
//! seat and a frame: `SharedPool::call` makes a call, step by step, by the functions by which a `PoolCore` of
//! `pool_alloc` makes its own. An `OpenPool` has the first seat besides. It is made of a `PoolCore` as that is made, and
//! it is closed as a core again, which flushes the queues and finds every slot free.
//!
//! It is ours and no port; it stands on `pool_hall` and `pool_alloc` and the crates below them.
//!
//! ```rust
//! let mut open = OpenPool::make(alloc, config, tunables, page, shards, offered, maker)?;
//! let outcome = open.pool.call(&rt, &mut open.seat, alloc, &mut frame, Call::Stack, &mut limiter, &mut heaps);
//! let parts = open.close(alloc);
//! ```
#![tactic(auto)]

// A part of the hall, and what callers share
mod part;
mod shared_pool;

// The hall of a whole pool, and its end
mod closing;
mod making;
mod open_pool;

// Calls, step by step
mod calls;
mod steps;

// Looks at parts
mod looking;

// Laws
mod laws;

pub use laws::{moments_are_cores, steps_may_put, what_fits_stands};
pub use looking::WarmSlots;
pub use open_pool::OpenPool;
pub use part::{HallPart, Origin};
pub use shared_pool::{PoolHall, PoolSeat, SharedPool};
