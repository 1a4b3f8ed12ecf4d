//! A heap that was granted.
ghost use Rattle.std.specs.Prelude.{◌≡◌, false};
ghost use Rattle.pool_alloc.specs.HeapLeases.{memory_noted};

use pool_slots::{GcHeap, GcHeapAllocationIndex, MemoryAllocationIndex, RegionNumbers};
use std::marker::Model;

/// A heap that was granted, and its slot. It must be given back, or its slot stays used for good. No store uses the heap while
/// it lies in its lease: who gives it to a store takes it out, and makes the lease anew to give it back.
#[derive(Drop)]
pub struct HeapLease<H: GcHeap> {
    index: GcHeapAllocationIndex,
    heap: H,
    numbers: RegionNumbers,
}

impl<H: GcHeap> Model for HeapLease<H> {
    ghost use Rattle.std.specs.Prelude.{◌≡◌, false};
    ghost use Rattle.pool_alloc.specs.HeapLeases.{LeasedHeap};

    ghost Value = { LeasedHeap H };

    ghost view = { λ l. record { index = l.index.0; heap = l.heap; numbers = l.numbers } };

    ghost invariant = { λ l. H.attached l.heap ≡ false };
}

impl<H: GcHeap> HeapLease<H> {
    /// The lease of a heap that no store uses. The numbers are what the unit of the slot tells since it is out: the first
    /// is the index of the heap's memory.
    pub fn new(index: GcHeapAllocationIndex, heap: H, numbers: RegionNumbers) -> Self
        requires { H.attached heap ≡ false }
        ensures { result ≡ record { index = index.0; heap = heap; numbers = numbers } }
    {
        HeapLease {
            index,
            heap,
            numbers,
        }
    }

    /// The slot that the heap is in.
    pub fn index(&self) -> GcHeapAllocationIndex
        ensures { result.0 ≡ self.now.index }
    {
        self.index
    }

    /// What the unit of the slot tells since it is out.
    pub fn numbers(&self) -> RegionNumbers
        ensures { result ≡ self.now.numbers }
    {
        self.numbers
    }

    /// The index of the heap's memory.
    pub fn memory(&self) -> MemoryAllocationIndex
        ensures { result.0 ≡ memory_noted self.now }
    {
        MemoryAllocationIndex((self.numbers.faults % 0x1_0000_0000) as u32)
    }

    pub fn heap(&self) -> &H
        ensures value { result.now ≡ self.now.heap }
        ensures detached { H.attached result.now ≡ false }
    {
        &self.heap
    }

    /// Takes the heap out.
    pub fn into_heap(self) -> H
        ensures value { result ≡ self.heap }
        ensures detached { H.attached result ≡ false }
    {
        self.heap
    }
}
