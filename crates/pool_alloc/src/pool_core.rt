//! The core of a pool: its parts, its counters and its settings.

mod closing;
mod laws;
mod making;
pub(crate) mod validations;

use crate::frame::FrameLists;
use crate::parts::Parts;
use pool_pages::Pages;
use pool_slots::{GcHeap, Plan};
use pool_types::{DecommitBehavior, HostAlignedByteCount, MemoryTunables, PageSize};

/// How many grants of a kind there are, and how many calls on the key counter there were.
#[derive(Clone, Copy, Debug, PartialEq, Eq)]
pub struct Counters {
    /// Counts modulo 2^64.
    pub key: u64,
    pub core_instances: u64,
    pub component_instances: u64,
    pub memories: u64,
    pub tables: u64,
    pub stacks: u64,
    pub gc_heaps: u64,
}

/// What is the same for the whole life of a core.
#[derive(Clone, Copy, Debug, PartialEq, Eq)]
pub struct Settings {
    /// The page of the core's regions.
    pub page: PageSize,
    /// What a decommit leaves on a page of them.
    pub behaviour: DecommitBehavior,
    /// In how many stripes the memory slots lie: slot `i` is of stripe `i % num_stripes`. From two on, the pages of a slot
    /// have the colour of its stripe.
    pub num_stripes: u32,
    /// The greatest size of a memory, in bytes.
    pub max_memory_size: usize,
    /// How many bytes of a memory a reset keeps resident.
    pub keep_resident: HostAlignedByteCount,
    /// Whether resets go by the dirty marks of pages.
    pub dirty_pages: bool,
    /// At how many ranges a queue is flushed.
    pub batch: usize,
    pub max_core_instances: u64,
    pub max_component_instances: u64,
    /// How many bytes the state of an instance may take, a multiple of 16.
    pub core_instance_size: usize,
    /// How many bytes the state of a component may take, with that of all its instances.
    pub component_instance_size: usize,
    pub max_core_instances_per_component: u32,
    pub max_memories_per_component: u32,
    pub max_tables_per_component: u32,
    pub max_memories_per_module: u32,
    pub max_tables_per_module: u32,
    /// How many elements a table may have.
    pub table_elements: usize,
    /// The size of a table's slot, in bytes.
    pub table_slot: usize,
    /// How many bytes of a table a reset keeps resident.
    pub table_keep_resident: HostAlignedByteCount,
    /// How many usable bytes a stack has, 0 where there are no stacks.
    pub stack_size: usize,
    /// Whether stacks are given back zeroed.
    pub stack_zeroing: bool,
    /// How many bytes of a stack stay resident where it is given back zeroed.
    pub stack_keep_resident: HostAlignedByteCount,
    pub tunables: MemoryTunables,
}

/// A pooling allocator without locks: its parts and its counters. Parties make
/// calls on it step by step, each in a frame of its own.
#[derive(Drop)]
pub struct PoolCore<P: Pages, H: GcHeap> {
    /// The shards, the cells of the slots, the queues, and the list of heaps, where the plan has them.
    pub parts: Parts<P, H>,
    pub counters: Counters,
    pub settings: Settings,
    /// Each stripe has an allocator of memories.
    pub plan: Plan,
    /// The lists of a frame that no party has. The pool is closed with them, so that this takes no memory.
    pub spare: Option<FrameLists<P>>,
}
