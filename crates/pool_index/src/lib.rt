//! Which slot an allocation gets: numbers of slots, and nothing of what is in them.
//!
//! `Shard` is the live half, which the pool stands on: slots of one kind that are cold, used or warm, with the memory
//! that each warm one was used for (`MemoryInModule`). `Shard::pick` is the policy of the pool: affine slots first,
//! then cold ones or warm ones by the budget. `ShardLayout` splits slots among shards, `Taken` has slots that a purge
//! or a release took, and `Steps` counts accesses in contracts.
//!
//! The index allocators behind locks are halls of shards by themselves: `ModuleAffinityIndexAllocator`,
//! `SimpleIndexAllocator`, and the round over shards (`probe_shards`). The pool for threads has its shards in a hall of its own.
//!
//! From Wasmtime: `vm/instance/allocator/pooling/index_allocator.rs`. It stands on `pool_types` and `pool_hall`.
//!
//! ```rust
//! let (slot, resident) = shard.pick(Some(memory), &mut steps)?;
//! ```
#![tactic(auto)]

// Numbers
mod ids;

// A shard: the live half
mod laws;
mod layout;
mod shard;
mod steps;
mod taken;
mod warm_slot;

// What a shard keeps of its slots
mod affinity_table;
mod slot_lists;
mod slot_row;

// Index allocators behind locks, for the pool of threads
mod alloc_calls;
mod allocator;
mod counting;
mod free_call;
mod many_calls;
mod simple;

// The round over shards, and calls on one, behind locks
mod part;
mod probe;
mod round;
mod shard_calls;

pub use allocator::{FullNotes, IndexSeat, ModuleAffinityIndexAllocator};
pub use counting::{CountSlots, ShardCounts, TakeWarm};
pub use free_call::{FreeSlot, FreeSlots};
pub use ids::{MemoryInModule, ShardId, SlotId};
pub use laws::{affine_slots_are_filtered, taken_slots_come_back};
pub use layout::ShardLayout;
pub use part::{MaybeShard, OnShard};
pub use pool_hall::SlotKind;
pub use probe::Probe;
pub use round::{ShardPlaces, probe_shards};
pub use shard::{FullNote, Shard};
pub use shard_calls::{ShardAt, count_in, free_in, free_many_in, take_warm_in};
pub use simple::SimpleIndexAllocator;
pub use steps::Steps;
pub use taken::Taken;
pub use warm_slot::WarmSlot;
