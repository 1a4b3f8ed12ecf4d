//! What a pool is made of: the plan of its parts, cells with regions, decommit queues, stacks and heaps.
//!
//! Read `Plan` first: it says at which place each shard, cell and queue stands, and never changes. A `PoolPart` is one
//! of them, and `make_parts` makes all with their regions. A `RegionCell` holds the region of a free slot
//! (`ImageSlot`). A `DecommitQueue` holds slots on their way back, with the ranges that are to be decommitted. `Stack`
//! is a fiber's stack, and `HeapList` has the heaps that a `HeapMaker` made. `AllocError` and `PoolNewError` say why a
//! pool refuses.
//!
//! From Wasmtime, under `vm/instance/allocator/pooling/`: `decommit_queue.rs`, the pools of memories, tables, stacks
//! and heaps as data, and the errors of `pooling.rs`. It knows no callers: who asks, and when, is `pool_alloc`.
//!
//! ```rust
//! let home = plan.home_of(SlotName { kind: SlotKind::Memory, slot: 3 });
//! ```
#![tactic(auto)]

// Numbers and names of slots
mod allocation_index;
mod slot_name;
mod striping;
mod unit_laws;

// The plan: which part stands where
mod plan;
mod plan_maker;
mod striped_plan;

// The parts, and how they are made
mod colouring;
mod failures;
mod part;
mod part_maker;
mod slot_regions;

// How memory slots are laid out in one slab
mod slab;

// Cells
mod cells;
mod region_cell;

// The decommit queue
mod decommit_queue;
mod flush;
mod kind_items;
mod queued_range;
mod queued_slot;
mod range_items;
mod slot_items;
mod slot_return;

// Tables and stacks in a slot
mod plain_slot;
mod stack;
mod table_sizes;

// Heaps
mod heap_list;
mod heap_maker;
mod listed_heaps;

// Why a pool refuses
mod errors;

pub use allocation_index::{GcHeapAllocationIndex, MemoryAllocationIndex, TableAllocationIndex};
pub use cells::ImageSlot;
pub use colouring::{coloured_regions_are_fresh, stripe_colour};
pub use decommit_queue::DecommitQueue;
pub use errors::{AllocError, ConcurrencyKind, PoolConcurrencyLimitError, PoolNewError};
pub use heap_list::{HeapEntry, HeapList, heap_units_are_of_out_slots, heaps_keep_to_their_slots};
pub use heap_maker::{GcHeap, HeapMakeFault, HeapMaker};
pub use listed_heaps::{ListedHeaps, PlainHeap};
pub use part::PoolPart;
pub use part_maker::{PartSettings, make_parts};
pub use plain_slot::{PlainSlot, zeroed_slots_read_zeros};
pub use plan::{Allocator, Home, Plan, slots_are_at_home};
pub use plan_maker::PlanSettings;
pub use queued_range::{QueueKind, QueuedRange};
pub use queued_slot::{HeldSlot, PlainHeld, QueuedSlot};
pub use region_cell::{RegionCell, StackCell, TableCell};
pub use slab::{SlabConstraints, SlabLayout, calculate, settings_speak_of_layouts};
pub use slot_items::SlotItems;
pub use slot_name::{OfKinds, RegionNumbers, SlotName};
pub use slot_return::SlotReturn;
pub use stack::Stack;
pub use striped_plan::{StripedPlanSettings, make_striped_plan};
pub use striping::{StripedAllocationIndex, numberings_agree};
pub use table_sizes::data_size;
pub use unit_laws::{units_are_out_once, units_follow_lists, units_follow_parts};
