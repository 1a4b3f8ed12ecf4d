//! The index allocators: slots in shards, each shard behind a lock of its own (Wasmtime's `index_allocator.rs`).
ghost use Rattle.pool_hall.specs.Seat.{made_with, limits_of};
ghost use Rattle.pool_index.specs.MadeShards.{AreMade};

use crate::shard::Shard;
use pool_hall::{Hall, HallSeat};

/// A seat of an index allocator, with which a thread makes its calls. It has the pick units of the slots that were
/// allocated with it and not freed since.
pub type IndexSeat = HallSeat<Shard>;

/// That no shard had a free slot when it was asked. Only a round over all shards makes one.
#[derive(Debug, Drop)]
pub struct FullNotes {
    pub(crate) full: (),
}

/// Hands out numbers of slots. A slot that was used for a memory of a module is handed out for that memory again where
/// it may be. Threads share the allocator, each with a seat of its own.
#[derive(Drop)]
pub struct ModuleAffinityIndexAllocator {
    pub(crate) hall: Hall<Shard>,
    pub(crate) capacity: u32,
    pub(crate) warm: u32,
    pub(crate) slots_per_shard: u32,
    pub(crate) shards: u32,
    ghost made: { AreMade (made_with hall) (limits_of hall) capacity warm slots_per_shard shards },
}
