ghost use Rattle.std.specs.Prelude.{◌≡◌, Bool, false, true, IfErr, IfOk, IfSome, IsSome, MatchResult};
ghost use Rattle.pool_types.specs.Rising.{risen};
ghost use Rattle.pool_slots.specs.HeapsTold.{HeapsTold, RaisesHeapFaults, fails_next};

use std::alloc::Global;

/// A heap of a garbage collector.
pub trait GcHeap: Drop {
    ghost attached: { Self → Bool };

    /// Whether a store uses the heap.
    fn is_attached(&self) -> bool
        ensures { result ≡ attached self.now };
}

/// Why a heap can't be made.
#[derive(Clone, Copy, Debug, PartialEq, Eq)]
pub enum HeapMakeFault {
    Memory,
    HeapFault,
}

/// Makes heaps for a garbage collector.
///
/// A making that answers `HeapFault` raises `faults`, and each other leaves it. A maker may tell contracts which
/// makings fail. Each of those raises `faults` by one then, and each other succeeds: such a maker doesn't answer `Memory`.
pub trait HeapMaker {
    type Heap: GcHeap;

    ghost told: { Self → HeapsTold };

    /// How many makings have failed. Never falls, and stands still at the end of its type.
    fn faults(&self) -> u64
        ensures { result ≡ (told self.now).faults };

    /// A heap that no store uses.
    fn new_gc_heap(&mut self, alloc: Global) -> Result<Self::Heap, HeapMakeFault>
        ensures heap { IfOk result (λ heap. Self.Heap.attached heap ≡ false) }
        ensures maker { told self.new ≡ record (told self.old) { made = risen (told self.old).made; faults = (told self.new).faults } }
        ensures faults { MatchResult result (λ _. (told self.new).faults ≡ (told self.old).faults) (RaisesHeapFaults (told self.old).faults (told self.new).faults) }
        ensures planned { IfSome (told self.old).plan (λ plan. MatchResult result (λ _. fails_next plan (told self.old) ≡ false) (λ e. e ≡ HeapMakeFault.HeapFault → fails_next plan (told self.old) ≡ true)) }
        ensures wants { IsSome (told self.old).plan → IfErr result (λ e. (e ≡ HeapMakeFault.HeapFault) × ((told self.new).faults ≡ risen (told self.old).faults)) };
}
