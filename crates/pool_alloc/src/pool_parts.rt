//! The steps that change one part, on that part alone. Those of a purge and of a release stand in `purge/affine.rt` and in
//! `release/warm.rt`.
ghost use Rattle.std.specs.Prelude.{◌≡◌, ◌+◌, ◌<◌, ◌^◌, ◌≤◌, false, All, length, IsSome, IfSome, None, Some};
ghost use Rattle.pool_index.specs.Shard.{use_of, after_free};
ghost use Rattle.pool_slots.specs.CellOf.{cell_of};
ghost use Rattle.pool_slots.specs.Cells.{is_taken, unmapped, IsCleanOnceUsed};
ghost use Rattle.pool_slots.specs.HeapLists.{IsHere, IsOut, heap_in, heap_taken, heap_returned};
ghost use Rattle.pool_slots.specs.HeapUnits.{heap_slot};
ghost use Rattle.pool_slots.specs.Parts.{IsShardPart, IsCellPart, cell_of_part};
ghost use Rattle.pool_slots.specs.Plans.{home_of};
ghost use Rattle.pool_slots.specs.QueueMerges.{CanMerge};
ghost use Rattle.pool_slots.specs.RegionCells.{IsAwaited, cell_numbers, cell_emptied, cell_filled};
ghost use Rattle.pool_slots.specs.SlotQueues.{IsSpareOf, IsSettled};
ghost use Rattle.pool_slots.specs.declared.part.PoolPart.{PoolPart};
ghost use Rattle.pool_alloc.specs.CanStep.{CanTryShard, CanUnmap, HasAllocators};
ghost use Rattle.pool_alloc.specs.Freeing.{AreUsedInTurn, HasHome, CanBeFreed};
ghost use Rattle.pool_alloc.specs.Purges.{image_in};
ghost use Rattle.pool_alloc.specs.StepReads.{cell_returned, IsHeapsPart, IsQueuePart, heaps_in, shard_in, queue_in, part_holding, freed_of, allocator_for};
ghost use Rattle.pool_alloc.specs.StepTable.{pick_on, free_one_on, free_on, take_region_on, put_back_on, region_put, take_queue_on, merge_on, take_heap_on, put_heap_on, heap_freed, free_heap_on};
ghost use Rattle.pool_alloc.specs.Turns.{PartAfter, part_after, lifted};

use crate::frame::{Frame, Outcome, Phase, TakenSlot};
use crate::gc_heap_pool::{heap_freed, heap_next, heap_slot, memory_under};
use crate::leases::heap::HeapLease;
use crate::leases::memory::MemoryLease;
use crate::pool_core::Settings;
use crate::shards::free_of;
use crate::{cells, decommit_queue, shards};
use pool_index::{Shard, SlotId};
use pool_pages::Pages;
use pool_slots::{
    GcHeap, ImageSlot, MemoryAllocationIndex, Plan, PoolPart, QueuedSlot, RegionCell,
    RegionNumbers, SlotName,
};
use std::alloc::Global;
use std::marker::Brand;
use std::sync::ledger::Blank;

pub(crate) fn pick<P: Pages, H: GcHeap>(
    part: &mut PoolPart<P, H>,
    plan: &Plan,
    frame: &mut Frame<P, H>,
    tried: u32,
    outcome: &mut Option<Outcome<P, H>>,
)
    requires shard { IsShardPart part.old }
    requires plan { HasAllocators plan.now frame.old.stripe }
    requires tries { CanTryShard plan.now (allocator_for plan.now frame.old) tried }
    requires few { length frame.old.objects.memories.items < 2 ^ 32 }
    requires unanswered { outcome.old ≡ None }
    ensures { ◌≡◌ {A = PartAfter (PoolPart P H) P H} (record { part = part.new; frame = frame.new; outcome = outcome.new }) (part_after (lifted (λ x. PoolPart.Shard x) (pick_on plan.now tried (shard_in part.old) frame.old))) }
{
    match part {
        PoolPart::Shard(shard) => shards::pick(shard, plan, frame, tried, outcome),
        _ => unreachable!(),
    }
}

pub(crate) fn free_one<P: Pages, H: GcHeap>(
    part: &mut PoolPart<P, H>,
    plan: &Plan,
    alloc: Global,
    frame: &mut Frame<P, H>,
    name: SlotName,
    outcome: &mut Option<Outcome<P, H>>,
)
    requires shard { IsShardPart part.old }
    requires home { HasHome plan.now name }
    requires used { IsSome (use_of (shard_in part.old) (home_of plan.now name).local.0) }
    requires unanswered { outcome.old ≡ None }
    ensures { ◌≡◌ {A = PartAfter (PoolPart P H) P H} (record { part = part.new; frame = frame.new; outcome = outcome.new }) (part_after (lifted (λ x. PoolPart.Shard x) (free_one_on plan.now name (shard_in part.old) frame.old))) }
{
    match part {
        PoolPart::Shard(shard) => shards::free_one(shard, plan, alloc, frame, name, outcome),
        _ => unreachable!(),
    }
}

pub(crate) fn free<P: Pages, H: GcHeap>(
    part: &mut PoolPart<P, H>,
    plan: &Plan,
    alloc: Global,
    frame: &mut Frame<P, H>,
    place: u32,
    outcome: &mut Option<Outcome<P, H>>,
)
    requires shard { IsShardPart part.old }
    requires used { AreUsedInTurn plan.now (freed_of plan.now place frame.old.freed.items) (shard_in part.old) }
    requires each { All (CanBeFreed plan.now) frame.old.freed.items }
    requires unanswered { outcome.old ≡ None }
    ensures { ◌≡◌ {A = PartAfter (PoolPart P H) P H} (record { part = part.new; frame = frame.new; outcome = outcome.new }) (part_after (lifted (λ x. PoolPart.Shard x) (free_on plan.now place (shard_in part.old) frame.old))) }
{
    match part {
        PoolPart::Shard(shard) => shards::free(shard, plan, alloc, frame, place, outcome),
        _ => unreachable!(),
    }
}

pub(crate) fn take_region<P: Pages, H: GcHeap>(
    part: &mut PoolPart<P, H>,
    settings: &Settings,
    frame: &mut Frame<P, H>,
    name: SlotName,
)
    requires cell { IsCellPart part.old }
    requires there { is_taken (cell_of_part part.old).holds ≡ false }
    requires fresh { (region : _) → (cell_of_part part.old).holds ≡ unmapped region → CanUnmap settings.now name region }
    ensures { ◌≡◌ {A = PartAfter (PoolPart P H) P H} (record { part = part.new; frame = frame.new; outcome = None }) (part_after (lifted (λ x. part_holding x part.old) (take_region_on settings.now name (cell_of_part part.old) frame.old))) }
{
    match part {
        PoolPart::Memory(cell) => cells::take_region(cell, settings, frame, name),
        PoolPart::Table(cell) => cells::take_region(cell, settings, frame, name),
        PoolPart::Stack(cell) => cells::take_region(cell, settings, frame, name),
        _ => unreachable!(),
    }
}

pub(crate) fn put_back<P: Pages, H: GcHeap>(
    part: &mut PoolPart<P, H>,
    frame: &mut Frame<P, H>,
    name: SlotName,
    held: ImageSlot<P>,
)
    requires cell { IsCellPart part.old }
    requires clean { IsCleanOnceUsed (cell_of held) }
    requires own { IsAwaited (cell_of held) (cell_of_part part.old) }
    ensures { ◌≡◌ {A = PartAfter (PoolPart P H) P H} (record { part = part.new; frame = frame.new; outcome = None }) (part_after (lifted (λ x. part_holding x part.old) (put_back_on name (cell_of held) (cell_of_part part.old) frame.old))) }
{
    match part {
        PoolPart::Memory(cell) => cells::put_back(cell, frame, name, held),
        PoolPart::Table(cell) => cells::put_back(cell, frame, name, held),
        PoolPart::Stack(cell) => cells::put_back(cell, frame, name, held),
        _ => unreachable!(),
    }
}

pub(crate) fn put_region<P: Pages, H: GcHeap>(
    part: &mut PoolPart<P, H>,
    alloc: Global,
    frame: &mut Frame<P, H>,
    item: QueuedSlot<P>,
    outcome: &mut Option<Outcome<P, H>>,
)
    requires cell { IsCellPart part.old }
    requires settled { IsSettled item }
    requires own { IsAwaited (cell_returned item) (cell_of_part part.old) }
    requires room { length frame.old.freed.items < frame.old.freed.room }
    requires unanswered { outcome.old ≡ None }
    ensures { ◌≡◌ {A = PartAfter (PoolPart P H) P H} (record { part = part.new; frame = frame.new; outcome = outcome.new }) (part_after (lifted (λ x. part_holding x part.old) (region_put item (cell_of_part part.old) frame.old))) }
{
    match part {
        PoolPart::Memory(cell) => cells::put_region(cell, alloc, frame, item, outcome),
        PoolPart::Table(cell) => cells::put_region(cell, alloc, frame, item, outcome),
        PoolPart::Stack(cell) => cells::put_region(cell, alloc, frame, item, outcome),
        _ => unreachable!(),
    }
}

pub(crate) fn take_queue<P: Pages, H: GcHeap>(
    part: &mut PoolPart<P, H>,
    plan: &Plan,
    alloc: Global,
    frame: &mut Frame<P, H>,
    outcome: &mut Option<Outcome<P, H>>,
)
    requires queue { IsQueuePart part.old }
    requires spare { IsSpareOf (queue_in part.old) frame.old.local }
    requires taken { frame.old.queues + 1 < 2 ^ 32 }
    requires plan { HasAllocators plan.now frame.old.stripe }
    requires unanswered { outcome.old ≡ None }
    ensures { ◌≡◌ {A = PartAfter (PoolPart P H) P H} (record { part = part.new; frame = frame.new; outcome = outcome.new }) (part_after (lifted (λ x. PoolPart.Queue x) (take_queue_on plan.now (queue_in part.old) frame.old))) }
{
    match part {
        PoolPart::Queue(queue) => decommit_queue::take_queue(queue, plan, alloc, frame, outcome),
        _ => unreachable!(),
    }
}

pub(crate) fn merge<P: Pages, H: GcHeap>(
    part: &mut PoolPart<P, H>,
    settings: &Settings,
    alloc: Global,
    frame: &mut Frame<P, H>,
    outcome: &mut Option<Outcome<P, H>>,
)
    requires queue { IsQueuePart part.old }
    requires can { CanMerge (queue_in part.old) frame.old.local }
    requires unanswered { outcome.old ≡ None }
    ensures { ◌≡◌ {A = PartAfter (PoolPart P H) P H} (record { part = part.new; frame = frame.new; outcome = outcome.new }) (part_after (lifted (λ x. PoolPart.Queue x) (merge_on settings.now (queue_in part.old) frame.old))) }
{
    match part {
        PoolPart::Queue(queue) => decommit_queue::merge(queue, settings, alloc, frame, outcome),
        _ => unreachable!(),
    }
}

pub(crate) fn take_heap<P: Pages, H: GcHeap>(
    part: &mut PoolPart<P, H>,
    frame: &mut Frame<P, H>,
    name: SlotName,
)
    requires list { IsHeapsPart part.old }
    requires inside { name.slot < length (heaps_in part.old) }
    requires here { IsHere name.slot (heaps_in part.old) }
    ensures { ◌≡◌ {A = PartAfter (PoolPart P H) P H} (record { part = part.new; frame = frame.new; outcome = None }) (part_after (lifted (λ x. PoolPart.Heaps x) (take_heap_on name (heaps_in part.old) frame.old))) }
{
    let memory = memory_under(frame);
    let heap = take_heap_in(part, name.slot, memory);
    let numbers = RegionNumbers {
        faults: memory.0 as u64,
        erases: 0,
    };
    frame.go(heap_next(TakenSlot { name, numbers }, heap))
}

fn take_heap_in<P: Pages, H: GcHeap>(
    part: &mut PoolPart<P, H>,
    slot: u32,
    memory: MemoryAllocationIndex,
) -> Option<H>
    requires list { IsHeapsPart part.old }
    requires inside { slot < length (heaps_in part.old) }
    requires here { IsHere slot (heaps_in part.old) }
    ensures heap { result ≡ heap_in slot (heaps_in part.old) }
    ensures detached { IfSome result (λ heap. H.attached heap ≡ false) }
    ensures after { part.new ≡ PoolPart.Heaps (heap_taken slot memory (heaps_in part.old)) }
{
    match part {
        PoolPart::Heaps(heaps) => heaps.take(slot, memory),
        _ => unreachable!(),
    }
}

pub(crate) fn put_heap<P: Pages, H: GcHeap>(
    part: &mut PoolPart<P, H>,
    frame: &mut Frame<P, H>,
    lease: HeapLease<H>,
    memory: Option<MemoryLease<P>>,
)
    requires list { IsHeapsPart part.old }
    requires out { IsOut lease.index (heaps_in part.old) }
    ensures { ◌≡◌ {A = PartAfter (PoolPart P H) P H} (record { part = part.new; frame = frame.new; outcome = None }) (part_after (lifted (λ x. PoolPart.Heaps x) (put_heap_on lease.index (Some lease.heap) (heap_freed (heap_slot lease.index) memory) (heaps_in part.old) frame.old))) }
{
    let slot = lease.index().0;
    put_heap_in(part, slot, Some(lease.into_heap()));
    frame.go(heap_freed(heap_slot(slot), memory))
}

pub(crate) fn put_no_heap<P: Pages, H: GcHeap>(
    part: &mut PoolPart<P, H>,
    frame: &mut Frame<P, H>,
    name: SlotName,
)
    requires list { IsHeapsPart part.old }
    requires out { IsOut name.slot (heaps_in part.old) }
    ensures { ◌≡◌ {A = PartAfter (PoolPart P H) P H} (record { part = part.new; frame = frame.new; outcome = None }) (part_after (lifted (λ x. PoolPart.Heaps x) (put_heap_on name.slot None (Phase.FreeOne name) (heaps_in part.old) frame.old))) }
{
    put_heap_in(part, name.slot, None);
    frame.go(Phase::FreeOne(name))
}

fn put_heap_in<P: Pages, H: GcHeap>(part: &mut PoolPart<P, H>, slot: u32, heap: Option<H>)
    requires list { IsHeapsPart part.old }
    requires out { IsOut slot (heaps_in part.old) }
    requires detached { IfSome heap (λ heap. H.attached heap ≡ false) }
    ensures { part.new ≡ PoolPart.Heaps (heap_returned slot heap (heaps_in part.old)) }
{
    match part {
        PoolPart::Heaps(heaps) => {
            let _memory = heaps.put(slot, heap);
        }
        _ => unreachable!(),
    }
}

pub(crate) fn free_heap<P: Pages, H: GcHeap>(
    part: &mut PoolPart<P, H>,
    plan: &Plan,
    frame: &mut Frame<P, H>,
    name: SlotName,
    memory: MemoryLease<P>,
)
    requires shard { IsShardPart part.old }
    requires home { HasHome plan.now name }
    requires used { IsSome (use_of (shard_in part.old) (home_of plan.now name).local.0) }
    ensures { ◌≡◌ {A = PartAfter (PoolPart P H) P H} (record { part = part.new; frame = frame.new; outcome = None }) (part_after (lifted (λ x. PoolPart.Shard x) (free_heap_on plan.now name memory (shard_in part.old) frame.old))) }
{
    match part {
        PoolPart::Shard(shard) => shards::free_heap(shard, plan, frame, name, memory),
        _ => unreachable!(),
    }
}

// Frees a used slot of a shard, which keeps so many bytes resident.
pub(crate) fn free_in<P: Pages, H: GcHeap>(part: &mut PoolPart<P, H>, slot: SlotId, bytes: usize)
    requires shard { IsShardPart part.old }
    requires used { IsSome (use_of (shard_in part.old) slot.0) }
    requires bytes { bytes ≤ 2 ^ 32 }
    ensures { part.new ≡ PoolPart.Shard (after_free slot bytes (shard_in part.old)) }
{
    match part {
        PoolPart::Shard(shard) => free_of::<Brand>(shard, slot, bytes, Blank::new(1)),
        _ => unreachable!(),
    }
}

// Takes what a cell holds, with the numbers of its region.
pub(crate) fn take_image_in<P: Pages, H: GcHeap>(
    part: &mut PoolPart<P, H>,
) -> (ImageSlot<P>, RegionNumbers)
    requires cell { IsCellPart part.old }
    ensures held { result.0 ≡ image_in (cell_of_part part.old).holds }
    ensures numbers { result.1 ≡ cell_numbers (cell_of_part part.old) }
    ensures after { part.new ≡ part_holding (cell_emptied (cell_of_part part.old)) part.old }
{
    match part {
        PoolPart::Memory(cell) => take_image(cell),
        PoolPart::Table(cell) => take_image(cell),
        PoolPart::Stack(cell) => take_image(cell),
        _ => unreachable!(),
    }
}

fn take_image<P: Pages>(cell: &mut RegionCell<P>) -> (ImageSlot<P>, RegionNumbers)
    ensures held { result.0 ≡ image_in cell.old.holds }
    ensures numbers { result.1 ≡ cell_numbers cell.old }
    ensures after { cell.new ≡ cell_emptied cell.old }
{
    cell.take()
}

// Puts it back.
pub(crate) fn put_image_in<P: Pages, H: GcHeap>(part: &mut PoolPart<P, H>, held: ImageSlot<P>)
    requires cell { IsCellPart part.old }
    requires clean { IsCleanOnceUsed (cell_of held) }
    requires own { IsAwaited (cell_of held) (cell_of_part part.old) }
    ensures { part.new ≡ part_holding (cell_filled (cell_of held) (cell_of_part part.old)) part.old }
{
    match part {
        PoolPart::Memory(cell) => cell.put(held),
        PoolPart::Table(cell) => cell.put(held),
        PoolPart::Stack(cell) => cell.put(held),
        _ => unreachable!(),
    }
}
