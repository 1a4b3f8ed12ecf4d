ghost use Rattle.std.specs.Prelude.{◌≡◌, ◌<◌, false, length, IfOk, IfSome};
ghost use Rattle.pool_slots.specs.HeapLists.{heap_entry, heap_in, memory_of, IsHere, IsOut, heaps_made, heap_taken, heap_returned, IsSoundHeapList};
ghost use Rattle.pool_slots.specs.HeapUnits.{HeapsKeepToTheirSlots, NoHeapsOutAtFirst, HeapTakesCount, HeapReturnsCount, HeapUnitsAreOfOutSlots};

use crate::allocation_index::MemoryAllocationIndex;
use crate::heap_maker::GcHeap;
use std::alloc::{AllocError, Global};
use std::marker::Model;
use std::mem;

/// What the list of heaps has of one slot.
#[derive(Drop)]
pub enum HeapEntry<H: GcHeap> {
    /// The slot is in the list, with its heap, or with none where none was made yet.
    Here(Option<H>),
    /// The slot is out, and notes the memory of its heap.
    Out(MemoryAllocationIndex),
}

/// The heaps of a pool, an entry for each slot. A heap that was made stays with its slot when it comes back.
#[derive(Drop)]
pub struct HeapList<H: GcHeap> {
    entries: Vec<HeapEntry<H>>,
}

impl<H: GcHeap> Model for HeapList<H> {
    ghost use Rattle.std.specs.Prelude.{List};
    ghost use Rattle.pool_slots.specs.HeapLists.{IsSoundHeapList};
    ghost use Rattle.pool_slots.specs.declared.heap_list.HeapEntry.{HeapEntry};

    ghost Value = { List (HeapEntry H) };

    ghost view = { λ l. l.entries.items };

    ghost invariant = { λ l. IsSoundHeapList H H.attached l.entries.items };
}

impl<H: GcHeap> HeapList<H> {
    /// The list of so many slots. No other call takes memory.
    pub fn new(alloc: Global, total: u32) -> Result<Self, AllocError>
        ensures { IfOk result (λ l. l ≡ heaps_made total) }
    {
        let mut entries = Vec::with_capacity(alloc, total as usize)?;
        for _ in 0..total {
            entries.push(HeapEntry::Here(None))?;
        }
        Ok(HeapList { entries })
    }

    /// What the list has of a slot.
    pub fn entry(&self, slot: u32) -> &HeapEntry<H>
        requires { slot < length self.now }
        ensures entry { result.now ≡ heap_entry slot self.now }
        ensures sound { IsSoundHeapList H H.attached self.now }
    {
        &self.entries[slot as usize]
    }

    /// Takes a slot out, with its heap where one was made. Its entry notes the memory that the heap is to have.
    pub fn take(&mut self, slot: u32, memory: MemoryAllocationIndex) -> Option<H>
        requires inside { slot < length self.old }
        requires here { IsHere slot self.old }
        ensures heap { result ≡ heap_in slot self.old }
        ensures detached { IfSome result (λ heap. H.attached heap ≡ false) }
        ensures after { self.new ≡ heap_taken slot memory self.old }
    {
        match mem::replace(&mut self.entries[slot as usize], HeapEntry::Out(memory)) {
            HeapEntry::Here(heap) => heap,
            HeapEntry::Out(_) => unreachable!(),
        }
    }

    /// Puts a slot back, with its heap, or with none where none could be made. Gives the memory that its entry noted.
    pub fn put(&mut self, slot: u32, heap: Option<H>) -> MemoryAllocationIndex
        requires out { IsOut slot self.old }
        requires detached { IfSome heap (λ heap. H.attached heap ≡ false) }
        ensures memory { result ≡ memory_of slot self.old }
        ensures after { self.new ≡ heap_returned slot heap self.old }
    {
        match mem::replace(&mut self.entries[slot as usize], HeapEntry::Here(heap)) {
            HeapEntry::Out(memory) => memory,
            HeapEntry::Here(_) => unreachable!(),
        }
    }
}

/// A call on a slot of a list of heaps changes the slot's own entry alone. It does nothing.
#[tactic(auto, using(crate::proofs::HeapUnits::keep_to_their_slots))]
pub fn heaps_keep_to_their_slots<H: GcHeap>()
    ensures { HeapsKeepToTheirSlots H }
{}

/// A list of heaps has given out the units of the slots that are out, and each once. It does nothing.
#[tactic(auto, using(crate::proofs::HeapUnits::none_at_first, crate::proofs::HeapUnits::takes_count, crate::proofs::HeapUnits::returns_count, crate::proofs::HeapUnits::units_of_out_slots))]
pub fn heap_units_are_of_out_slots<H: GcHeap>()
    ensures first { NoHeapsOutAtFirst H }
    ensures taken { HeapTakesCount H }
    ensures returned { HeapReturnsCount H }
    ensures out { HeapUnitsAreOfOutSlots H }
{}
