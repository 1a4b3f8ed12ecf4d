//! The pool of heaps: a heap is tested for, and made.
ghost use Rattle.std.specs.Prelude.{◌≡◌, ◌<◌, false, Bool, IfSome, Result, None, Some};
ghost use Rattle.pool_slots.specs.HeapUnits.{heap_slot};
ghost use Rattle.pool_slots.specs.declared.heap_maker.HeapMakeFault.{HeapMakeFault as Fault};
ghost use Rattle.pool_alloc.specs.HeapLeases.{memory_under};
ghost use Rattle.pool_alloc.specs.Leases.{first_index};
ghost use Rattle.pool_alloc.specs.MemorySteps.{heap_refusal};
ghost use Rattle.pool_alloc.specs.PartyTold.{MakesHeap};
ghost use Rattle.pool_alloc.specs.Refusals.{heap_refused};
ghost use Rattle.pool_alloc.specs.StepReads.{IsHeapAsked, under};
ghost use Rattle.pool_alloc.specs.StepTable.{heap_freed, heap_next, make_heap_row, memory_tested, test_heap_row, validated};
ghost use Rattle.pool_alloc.specs.Turns.{After, goes, stepped};
ghost use Rattle.pool_alloc.specs.declared.pool_core.PoolCore.{PoolCore};

use crate::frame::{Asked, Frame, Outcome, Phase, TakenSlot};
use crate::leases::heap::HeapLease;
use crate::leases::instance::InstanceLease;
use crate::leases::memory::MemoryLease;
use crate::memory_pool::rules::type_refused;
use crate::pool_core::Settings;
use crate::validate::{refuse_at_once, reserve_grants};
use pool_index::SlotKind;
use pool_pages::Pages;
use pool_slots::{
    AllocError, GcHeap, GcHeapAllocationIndex, HeapMakeFault, HeapMaker, MemoryAllocationIndex,
    SlotName,
};
use pool_types::Unsupported;
use std::alloc::Global;

// Tests whether there is a collector, and then the heap's memory.
#[inline(never)]
pub(crate) fn test_heap<P: Pages, H: GcHeap>(
    settings: &Settings,
    alloc: Global,
    frame: &mut Frame<P, H>,
    outcome: &mut Option<Outcome<P, H>>,
)
    requires can { IsHeapAsked frame.old.asked }
    requires unanswered { outcome.old ≡ None }
    ensures { (wants : Bool) × ((c : PoolCore P H) → ◌≡◌ {A = After P H} (record { core = under settings.now c.plan c; frame = frame.new; outcome = outcome.new }) (stepped (test_heap_row wants (under settings.now c.plan c) frame.old))) }
{
    if !settings.tunables.tunables.collector {
        return refuse_at_once(frame, AllocError::HeapsDisabled, outcome);
    }
    test_memory(settings, alloc, frame, outcome)
}

// Tests the type of a memory that is to be allocated for the heap, and reserves the list for it. For a heap over a memory that there
// is a slot is picked at once.
fn test_memory<P: Pages, H: GcHeap>(
    settings: &Settings,
    alloc: Global,
    frame: &mut Frame<P, H>,
    outcome: &mut Option<Outcome<P, H>>,
)
    requires can { IsHeapAsked frame.old.asked }
    requires unanswered { outcome.old ≡ None }
    ensures { (wants : Bool) × ((c : PoolCore P H) → ◌≡◌ {A = After P H} (record { core = under settings.now c.plan c; frame = frame.new; outcome = outcome.new }) (stepped (memory_tested frame.old.asked wants (under settings.now c.plan c) frame.old))) }
{
    match &frame.asked {
        Asked::HeapOver(_) => frame.go(Phase::Pick(0)),
        _ => test_type(settings, alloc, frame, outcome),
    }
}

fn test_type<P: Pages, H: GcHeap>(
    settings: &Settings,
    alloc: Global,
    frame: &mut Frame<P, H>,
    outcome: &mut Option<Outcome<P, H>>,
)
    requires can { IsHeapAsked frame.old.asked }
    requires unanswered { outcome.old ≡ None }
    ensures { (wants : Bool) × ((c : PoolCore P H) → ◌≡◌ {A = After P H} (record { core = under settings.now c.plan c; frame = frame.new; outcome = outcome.new }) (stepped (validated (heap_refused settings.now frame.old.asked) wants (Phase.Pick 0) (under settings.now c.plan c) frame.old))) }
{
    match heap_refused(settings, frame) {
        Some(rule) => refuse_at_once(frame, AllocError::Unsupported(rule), outcome),
        None => reserve_grants(alloc, frame, Phase::Pick(0), outcome),
    }
}

// The first rule that the heap's memory breaks.
fn heap_refused<P: Pages, H: GcHeap>(
    settings: &Settings,
    frame: &Frame<P, H>,
) -> Option<Unsupported>
    requires { IsHeapAsked frame.now.asked }
    ensures { result ≡ heap_refused settings.now frame.now.asked }
{
    match &frame.asked {
        Asked::Heap(ty) => type_refused(settings, ty),
        _ => None,
    }
}

// Makes a heap for a slot that had none.
#[inline(never)]
pub(crate) fn make_heap<P: Pages, H: GcHeap, K: HeapMaker<Heap = H>>(
    alloc: Global,
    frame: &mut Frame<P, H>,
    at: TakenSlot,
    heaps: &mut K,
)
    ensures { (answer : Result H Fault) × MakesHeap answer (K.told heaps.old) (K.told heaps.new) × ((c : PoolCore P H) → ◌≡◌ {A = After P H} (record { core = c; frame = frame.new; outcome = None }) (stepped (make_heap_row answer at c frame.old))) }
{
    let phase = match heaps.new_gc_heap(alloc) {
        Ok(heap) => heap_next(at, Some(heap)),
        Err(fault) => {
            frame.fail(heap_refusal(fault));
            Phase::PutNoHeap(at)
        }
    };
    frame.go(phase)
}

// The index of the memory that the heap is over.
pub(crate) fn memory_under<P: Pages, H: GcHeap>(frame: &Frame<P, H>) -> MemoryAllocationIndex
    ensures { result.0 ≡ memory_under frame.now.asked frame.now.objects.memories.items }
{
    match &frame.asked {
        Asked::HeapOver(memory) => *memory,
        _ => first_index(&frame.objects),
    }
}

// The index of the first memory that was granted, or that of none.
fn first_index<P: Pages>(objects: &InstanceLease<P>) -> MemoryAllocationIndex
    ensures { result.0 ≡ first_index objects.now.memories.items }
{
    if objects.memories.is_empty() {
        return MemoryAllocationIndex(0);
    }
    objects.memories.get(0).index
}

// The name of a heap's slot.
pub(crate) fn heap_slot(slot: u32) -> SlotName
    ensures { result ≡ heap_slot slot }
{
    SlotName {
        kind: SlotKind::Heap,
        slot,
    }
}

// What comes next with a slot that is out of the list of heaps, and with its heap.
pub(crate) fn heap_next<P: Pages, H: GcHeap>(at: TakenSlot, heap: Option<H>) -> Phase<P, H>
    requires { IfSome heap (λ heap. H.attached heap ≡ false) }
    ensures { goes result ≡ heap_next at heap }
{
    match heap {
        Some(heap) => {
            let index = GcHeapAllocationIndex(at.name.slot);
            Phase::CountHeap(HeapLease::new(index, heap, at.numbers))
        }
        None => Phase::MakeHeap(at),
    }
}

// What comes next once a heap is back in the list of heaps: its slot is freed, and then the memory that was granted with it is given
// back, if one was.
pub(crate) fn heap_freed<P: Pages, H: GcHeap>(
    name: SlotName,
    memory: Option<MemoryLease<P>>,
) -> Phase<P, H>
    ensures { result ≡ heap_freed name memory }
{
    match memory {
        Some(memory) => Phase::FreeHeap(name, memory),
        None => Phase::FreeOne(name),
    }
}

// Why an allocation is refused whose heap isn't made.
fn heap_refusal(fault: HeapMakeFault) -> AllocError
    ensures { result ≡ heap_refusal fault }
{
    match fault {
        HeapMakeFault::Memory => AllocError::Memory,
        HeapMakeFault::HeapFault => AllocError::HeapFault,
    }
}
