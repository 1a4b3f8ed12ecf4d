//! The pooling allocator for threads as an `InstanceAllocator`: `WaitingAllocator`.
//!
//! A call of `PoolingInstanceAllocator` is made with the handle of the thread that makes it, since it may wait. A call of the trait
//! `InstanceAllocator` has no such handle. `WaitingAllocator` has one, so the pool for threads has the trait's calls as the allocator
//! on demand has them. It copies or shares what a request lends, and keeps no state of its own.
//!
//! ```rust
//! let waiting = WaitingAllocator::new(&rt, alloc, &allocator);
//! let instance = waiting.allocate_module(alloc, home, &mut seat, &mut request)?;
//! ```
#![tactic(auto)]

mod instance_allocator;
mod waiting;

pub use waiting::WaitingAllocator;
