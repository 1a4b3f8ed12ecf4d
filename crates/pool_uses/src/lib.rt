//! Proved callers of `PoolingInstanceAllocator`: how a program uses the pool for threads.
//!
//! `use_a_stack` asks for a stack, writes into it, and gives it back; `run_one_caller` makes an allocator, does that in its
//! first seat, and closes it. A caller says in its contract what it needs of the allocator and of its seat, and gives back
//! what it was granted. `both_hold_each`, `both_work` and `four_work` start threads, on each of which a caller does such work in
//! a seat of its own.
//!
//! It has what a program may copy, and is no port. `pool_cycles` is a program of these callers, and `pool_checks` has their tests.
//!
//! ```rust
//! let used = use_a_stack(&rt, alloc, &allocator, &mut seat, ShardId(0));
//! ```
#![tactic(auto)]

// One caller
mod any_allocator;
mod instances;
mod numbers;
mod one_caller;
mod singles;

// Callers beside others
mod threads;
mod turnover;
mod two_stacks;

pub use any_allocator::write_at_any;
pub use instances::{module_call, module_with, once_more, two_at_once, write_and_drop};
pub use numbers::{count_warm, make_and_count, warm_beside, warm_now};
pub use one_caller::{run_one_caller, use_a_stack};
pub use singles::{
    fill_a_table, look_at_a_table, memory_call, read_a_memory, read_one_of, write_a_memory,
};
pub use threads::{
    MemoryAllocator, MemoryCaller, Worker, both_hold_each, both_work, four_work, work,
};
pub use turnover::cycles;
pub use two_stacks::{hold_each, hold_two};
