ghost use Rattle.std.specs.Prelude.{◌≡◌, ◌^◌, ◌<◌, ◌∷◌, [], IfOk};
ghost use Rattle.pool_slots.specs.PlansMade.{shards_from, shards_planned, cells_from, queues_from, heaps_from, places_planned, allocator_planned, IsPlanWith};

use crate::plan::{Allocator, Plan};
use crate::slot_name::OfKinds;
use pool_index::SlotKind;
use pool_types::PlainList;
use std::alloc::{AllocError, Global};

/// How many slots of each kind a pool has, and how they are divided among shards, where each kind has one allocator.
#[derive(Clone, Copy, Debug, PartialEq, Eq)]
pub struct PlanSettings {
    pub totals: OfKinds,
    /// The number of shards of each kind.
    pub shards: OfKinds,
    /// The number of slots of each shard of a kind but the last, which has the rest.
    pub slots_per_shard: OfKinds,
    pub queues: u32,
}

// The plan with these allocators of memories, where its places are numbers of 32 bits.
pub(crate) fn lay_out(
    alloc: Global,
    settings: &PlanSettings,
    memories: PlainList<Allocator>,
) -> Result<Plan, AllocError>
    requires { places_planned settings.now < 2 ^ 32 }
    ensures plan { IfOk result (IsPlanWith settings.now memories) }
{
    let cells = settings.cells();
    Ok(Plan {
        memories,
        tables: one_allocator(alloc, settings.allocator(SlotKind::Table))?,
        stacks: one_allocator(alloc, settings.allocator(SlotKind::Stack))?,
        heaps: one_allocator(alloc, settings.allocator(SlotKind::Heap))?,
        cells,
        totals: settings.totals,
        // Heaps have no cells: the place after the other cells.
        first_queue: cells.heap,
        queues: settings.queues,
        heap_list: cells.heap + settings.queues,
    })
}

impl PlanSettings {
    /// The number of parts of the pool.
    pub fn places(&self) -> u64
        ensures { result ≡ places_planned self.now }
    {
        let shards = self.shards.memory as u64
            + self.shards.table as u64
            + self.shards.stack as u64
            + self.shards.heap as u64;
        let cells = self.totals.memory as u64 + self.totals.table as u64 + self.totals.stack as u64;
        shards + cells + self.queues as u64 + self.totals.heap.min(1) as u64
    }

    // The place of the first cell of each kind, and for heaps the place after the cells.
    fn cells(&self) -> OfKinds
        requires { places_planned self.now < 2 ^ 32 }
        ensures { result ≡ cells_from self.now }
    {
        let shards = self.first_shards();
        let memory = shards.heap + self.shards.heap;
        let table = memory + self.totals.memory;
        let stack = table + self.totals.table;
        let heap = stack + self.totals.stack;
        OfKinds {
            memory,
            table,
            stack,
            heap,
        }
    }

    // The place of the first shard of each kind.
    fn first_shards(&self) -> OfKinds
        requires { places_planned self.now < 2 ^ 32 }
        ensures { result ≡ shards_from self.now }
    {
        let table = self.shards.memory;
        let stack = table + self.shards.table;
        let heap = stack + self.shards.stack;
        OfKinds {
            memory: 0,
            table,
            stack,
            heap,
        }
    }

    fn allocator(&self, kind: SlotKind) -> Allocator
        requires { places_planned self.now < 2 ^ 32 }
        ensures { result ≡ allocator_planned self.now kind }
    {
        Allocator {
            kind,
            first_place: self.first_shards().of(kind),
            shards: self.shards.of(kind),
            slots_per_shard: self.slots_per_shard.of(kind),
            first: 0,
            step: 1,
            capacity: self.totals.of(kind),
        }
    }
}

fn one_allocator(alloc: Global, allocator: Allocator) -> Result<PlainList<Allocator>, AllocError>
    ensures ok { IfOk result (λ l. l ≡ allocator ∷ []) }
{
    let mut list = Vec::with_capacity(alloc, 1)?;
    list.push(allocator)?;
    Ok(PlainList::from_vec(list))
}
