//! Shared memories, and waiting on their words.
//!
//! Plain data here, locks there. `SharedState` is a shared memory with who waits on it, and `SpotState` is who waits at
//! which address and who was notified: both are plain data, and nobody sleeps. The program's events are calls on
//! `SharedState`. `SharedMemory` and `ParkingSpot` have such a state behind a lock, for threads, and no pool and no
//! program uses them yet.
//!
//! Each call of a wait finds a `WaitStep`; why none can begin is a `WaitFault`. Over the locks a wait is made by a
//! `Waiter` and reads a `Clock`, and `Words` is what a parking spot compares.
//!
//! From Wasmtime: `vm/memory/shared_memory.rs` and `vm/parking_spot.rs`. It stands on `pool_types`, `pool_pages`,
//! `pool_limits` and `pool_memory`, and not on the pool.
//!
//! ```rust
//! let step = state.wait32(addr, waiter, expected, deadline, now)?;
//! ```
#![tactic(auto)]

// Plain data: a shared memory, and who waits
mod shared_state;
mod shared_waits;
mod spot_state;
mod wait_fault;
mod wait_step;
mod waiting;

// Locks: the same for threads
mod clock;
mod hold;
mod kept;
mod parking_spot;
mod shared_memory;
mod waiter;

// Laws
mod laws;

pub use clock::Clock;
pub use kept::SizeAsMade;
pub use laws::{notified_waiters_come_first, order_of_arrival_is_kept};
pub use parking_spot::{ParkingSpot, Words};
pub use shared_memory::SharedMemory;
pub use shared_state::SharedState;
pub use spot_state::SpotState;
pub use wait_fault::WaitFault;
pub use wait_step::WaitStep;
pub use waiter::Waiter;
pub use waiting::Waiting;
