//! The numbers of a pool.
ghost use Rattle.std.specs.Prelude.{◌≡◌, List, Some, None, if◌then◌else◌};
ghost use Rattle.pool_alloc.specs.PoolAndHolders.{CountsGrants, IsPartitioned, held_by_grant};
ghost use Rattle.pool_alloc.specs.PoolTotals.{metrics_of, calls_kept, resident_sum};
ghost use Rattle.pool_alloc.specs.declared.frame.Grant.{Grant};

use crate::pool_core::PoolCore;
use pool_index::SlotKind;
use pool_pages::{PageCalls, Pages};
use pool_slots::GcHeap;

/// The numbers of a pool: how many of each thing are live, how many free slots were used before, and how many bytes
/// those keep resident.
#[derive(Clone, Copy, Debug, PartialEq, Eq)]
pub struct Metrics {
    pub core_instances: u64,
    pub component_instances: u64,
    pub memories: usize,
    pub tables: usize,
    pub stacks: usize,
    pub gc_heaps: usize,
    pub unused_warm_memories: u32,
    pub unused_memory_bytes_resident: usize,
    pub unused_warm_tables: u32,
    pub unused_table_bytes_resident: usize,
    pub unused_warm_stacks: u32,
    /// None where stacks aren't zeroed.
    pub unused_stack_bytes_resident: Option<usize>,
}

impl<P: Pages, H: GcHeap> PoolCore<P, H> {
    /// The pool's numbers. A call under way counts what it holds, as if that were granted.
    pub fn metrics(&self) -> Metrics
        ensures numbers { result ≡ metrics_of self.now }
        ensures grants { (grants : List (Grant P H)) → IsPartitioned held_by_grant self.now grants → CountsGrants grants result }
    {
        Metrics {
            core_instances: self.counters.core_instances,
            component_instances: self.counters.component_instances,
            memories: self.counters.memories as usize,
            tables: self.counters.tables as usize,
            stacks: self.counters.stacks as usize,
            gc_heaps: self.counters.gc_heaps as usize,
            unused_warm_memories: self.parts.unused_warm_slots(SlotKind::Memory),
            unused_memory_bytes_resident: self.parts.unused_bytes_resident(SlotKind::Memory),
            unused_warm_tables: self.parts.unused_warm_slots(SlotKind::Table),
            unused_table_bytes_resident: self.parts.unused_bytes_resident(SlotKind::Table),
            unused_warm_stacks: self.parts.unused_warm_slots(SlotKind::Stack),
            unused_stack_bytes_resident: self.stack_bytes_resident(),
        }
    }

    fn stack_bytes_resident(&self) -> Option<usize>
        ensures { result ≡ (if self.now.settings.stack_zeroing then Some (resident_sum SlotKind.Stack self.now.parts) else None) }
    {
        if self.settings.stack_zeroing {
            Some(self.parts.unused_bytes_resident(SlotKind::Stack))
        } else {
            None
        }
    }

    /// The calls made so far on the regions in the cells and the queues, together.
    pub fn page_calls(&self) -> PageCalls
        ensures { result ≡ calls_kept self.now }
    {
        self.parts.page_calls()
    }
}
