//! The pooling allocator for threads: `PoolingInstanceAllocator`, with one call for each request.
//!
//! Read `PoolingInstanceAllocator` first. `new` makes it with the first seat. Callers share it, and each makes its calls in
//! a `CallerSeat` of its own, which `split_seat` cuts from another one and `join_seat` gives back. What a call grants is a
//! lease, read and written without the allocator, and given back by the matching call, in the seat that got it or in one
//! that this seat was joined to. `close` ends it, once all is given back and all seats are joined to one.
//! `PoolingAllocatorMetrics` tells its numbers. `MemoryPool`, `TablePool`, `StackPool` and `GcHeapPool` are the allocator's calls on one kind
//! of slot.
//!
//! From Wasmtime: `vm/instance/allocator/pooling.rs` and `pooling/metrics.rs`. It stands on `pool_driver`, which makes the
//! steps of a call, and keeps no state of its own: a seat is a seat of the hall with a frame.
//!
//! ```rust
//! let (allocator, mut seat) = PoolingInstanceAllocator::new(alloc, config, tunables, page, shards, offered, maker)?;
//! let stack = allocator.allocate_fiber_stack(&rt, alloc, home, &mut seat)?;
//! allocator.deallocate_fiber_stack(&rt, alloc, home, &mut seat, stack);
//! let parts = allocator.close(alloc, seat);
//! ```
#![tactic(auto)]

// The allocator, its seats and its end
mod allocator;
mod seat;

// Requests
mod calls;
mod counts;
mod instances;
mod others;
mod singles;
mod stacks;

// Its numbers
mod metrics;

// What it does for one kind of slot
mod gc_heap_pool;
mod memory_pool;
mod rules;
mod stack_pool;
mod table_pool;

pub use allocator::PoolingInstanceAllocator;
pub use gc_heap_pool::GcHeapPool;
pub use memory_pool::MemoryPool;
pub use metrics::PoolingAllocatorMetrics;
pub use seat::CallerSeat;
pub use stack_pool::StackPool;
pub use table_pool::TablePool;
