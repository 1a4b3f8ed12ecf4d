ghost use Rattle.std.specs.Prelude.{◌≡◌, false};
ghost use Rattle.pool_slots.specs.HeapsTold.{listed_heaps};

use crate::heap_maker::{GcHeap, HeapMakeFault, HeapMaker};
use pool_table::FailingNumbers;
use pool_types::PlainList;
use std::alloc::Global;

/// A heap in name alone, which no store uses.
#[derive(Drop)]
pub struct PlainHeap;

impl GcHeap for PlainHeap {
    ghost attached = { λ _. false };

    fn is_attached(&self) -> bool {
        false
    }
}

/// A maker of heaps in name alone, with a list of the numbers of its makings that fail. They are numbered from 1.
#[derive(Debug, Drop)]
pub struct ListedHeaps {
    failing: FailingNumbers,
    made: u64,
    faults: u64,
}

impl ListedHeaps {
    /// No heap was asked for yet. Sorts the list, and takes no memory.
    pub fn new(failing: PlainList<u64>) -> Self
        ensures { ⟦<ListedHeaps as HeapMaker>⟧.told result ≡ listed_heaps failing 0 0 }
    {
        ListedHeaps {
            failing: FailingNumbers::new(failing),
            made: 0,
            faults: 0,
        }
    }
}

impl HeapMaker for ListedHeaps {
    type Heap = PlainHeap;

    ghost told = { λ m. listed_heaps m.failing m.made m.faults };

    fn faults(&self) -> u64 {
        self.faults
    }

    fn new_gc_heap(&mut self, _alloc: Global) -> Result<PlainHeap, HeapMakeFault> {
        self.made = self.made.saturating_add(1);
        if self.failing.lists(self.made) {
            self.faults = self.faults.saturating_add(1);
            return Err(HeapMakeFault::HeapFault);
        }
        Ok(PlainHeap)
    }
}
