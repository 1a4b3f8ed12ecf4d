//! An object that is given back is reset into the local queue.
ghost use Rattle.std.specs.Prelude.{◌≡◌, ◌^◌, ◌<◌, ◌≤◌, [], Bool, true, None, IfSome};
ghost use Rattle.pool_pages.specs.Told.{TellsMarks};
ghost use Rattle.pool_images.specs.Slots.{Slot};
ghost use Rattle.pool_memory.specs.Memories.{slot_of};
ghost use Rattle.pool_alloc.specs.CanStep.{CanReset, CanResetObject, CanResetStack, CanResetTable};
ghost use Rattle.pool_alloc.specs.Leases.{memory_slot, slot_taken};
ghost use Rattle.pool_alloc.specs.PageCallAnswers.{Resets, FollowsReset, ResetTold, ResetPlanned};
ghost use Rattle.pool_alloc.specs.StepReads.{StepGiven, under};
ghost use Rattle.pool_alloc.specs.StepTable.{was_reset, reset_turn, table_reset_row, stack_reset_row, reset_row};
ghost use Rattle.pool_alloc.specs.Turns.{After, Left, after, stepped};
ghost use Rattle.pool_alloc.specs.declared.pool_core.PoolCore.{PoolCore};

use crate::frame::{Frame, Object, Outcome, Phase, TakenSlot};
use crate::leases::memory::MemoryLease;
use crate::leases::stack::StackLease;
use crate::leases::table::TableLease;
use crate::pool_core::Settings;
use crate::shards::memory_slot;
use crate::{stack_pool, table_pool};
use pool_images::{MemoryImageSlot, Ranges};
use pool_pages::Pages;
use pool_slots::{GcHeap, HeldSlot, ImageSlot, QueueKind, QueuedSlot};
use std::alloc::Global;

// Resets an object into the local queue.
#[inline(never)]
pub(crate) fn reset<P: Pages, H: GcHeap>(
    settings: &Settings,
    alloc: Global,
    frame: &mut Frame<P, H>,
    object: Object<P>,
    outcome: &mut Option<Outcome<P, H>>,
)
    requires can { CanResetObject settings.now object frame.old.local }
    requires unanswered { outcome.old ≡ None }
    ensures { (g : StepGiven H) × ResetTold settings.now g object × ResetPlanned settings.now g object × ((c : PoolCore P H) → ◌≡◌ {A = After P H} (record { core = under settings.now c.plan c; frame = frame.new; outcome = outcome.new }) (stepped (reset_row g object (under settings.now c.plan c) frame.old))) }
{
    match object {
        Object::Memory(lease) => reset_memory(settings, alloc, frame, lease, outcome),
        Object::Table(lease) => reset_table(settings, alloc, frame, lease, outcome),
        Object::Stack(lease) => reset_stack(settings, alloc, frame, lease, outcome),
    }
}

// Resets a table into the local queue, likewise. That makes no page call.
fn reset_table<P: Pages, H: GcHeap>(
    settings: &Settings,
    alloc: Global,
    frame: &mut Frame<P, H>,
    lease: TableLease<P>,
    outcome: &mut Option<Outcome<P, H>>,
)
    requires can { CanResetTable settings.now lease frame.old.local }
    requires unanswered { outcome.old ≡ None }
    ensures marks { IfSome lease.table.region TellsMarks }
    ensures row { (c : PoolCore P H) → ◌≡◌ {A = After P H} (record { core = under settings.now c.plan c; frame = frame.new; outcome = outcome.new }) (stepped (table_reset_row lease (under settings.now c.plan c) frame.old)) }
{
    let keep = settings.table_keep_resident;
    let dirty = settings.dirty_pages;
    table_pool::reset_table(settings.page, dirty, keep, lease, &mut frame.local);
    was_reset(alloc, settings.batch, frame, outcome)
}

// Resets a stack into the local queue, likewise.
fn reset_stack<P: Pages, H: GcHeap>(
    settings: &Settings,
    alloc: Global,
    frame: &mut Frame<P, H>,
    lease: StackLease<P>,
    outcome: &mut Option<Outcome<P, H>>,
)
    requires can { CanResetStack settings.now lease frame.old.local }
    requires unanswered { outcome.old ≡ None }
    ensures { (c : PoolCore P H) → ◌≡◌ {A = After P H} (record { core = under settings.now c.plan c; frame = frame.new; outcome = outcome.new }) (stepped (stack_reset_row lease (under settings.now c.plan c) frame.old)) }
{
    let keep = settings.stack_keep_resident;
    stack_pool::reset_stack(keep, lease, &mut frame.local);
    was_reset(alloc, settings.batch, frame, outcome)
}

// Resets a memory into the local queue. That is flushed where it has no range or as many as a batch, and else goes
// to the home queue. Where a page call of the reset failed, nothing is known of the slot.
fn reset_memory<P: Pages, H: GcHeap>(
    settings: &Settings,
    alloc: Global,
    frame: &mut Frame<P, H>,
    lease: MemoryLease<P>,
    outcome: &mut Option<Outcome<P, H>>,
)
    requires can { CanReset settings.now (slot_of lease.memory) frame.old.local }
    requires unanswered { outcome.old ≡ None }
    ensures { (fault : Bool) × (after : Slot) × Resets fault settings.now.dirty_pages settings.now.keep_resident.bytes (slot_taken lease) (slot_of lease.memory) after × FollowsReset settings.now.dirty_pages settings.now.keep_resident.bytes fault (slot_of lease.memory) after × ((c : PoolCore P H) → ◌≡◌ {A = After P H} (record { core = under settings.now c.plan c; frame = frame.new; outcome = outcome.new }) (stepped (was_reset fault after lease (under settings.now c.plan c) frame.old))) }
{
    let at = slot_taken(&lease);
    let mut slot = lease.memory.unwrap_static_image();
    let mut ranges = Ranges::new();
    let keep = settings.keep_resident;
    let Ok(kept) = slot.clear_and_remain_ready(settings.dirty_pages, keep, &mut ranges) else {
        slot.forget();
        return frame.go(Phase::PutBack(at, ImageSlot::Unknown(slot)));
    };
    let item = memory_queued(at, slot, kept);
    let _few = ranges.len();
    let listed = ranges.as_slice();
    frame.local.push_reset(QueueKind::Memory, item, listed);
    was_reset(alloc, settings.batch, frame, outcome)
}

// A memory's slot on its way back, which is clean once its ranges are decommitted, and keeps so many bytes resident.
fn memory_queued<P: Pages>(at: TakenSlot, slot: MemoryImageSlot<P>, kept: usize) -> QueuedSlot<P>
    ensures { result ≡ record { name = memory_slot at.name.slot; slot = slot; known = true; bytes = kept; by_hand = None; numbers = at.numbers } }
{
    QueuedSlot {
        slot: at.name.slot,
        held: HeldSlot::Memory(slot),
        known: true,
        bytes: kept,
        numbers: at.numbers,
    }
}

// The slot of a memory, and what the unit of its region tells.
fn slot_taken<P: Pages>(lease: &MemoryLease<P>) -> TakenSlot
    ensures { result ≡ slot_taken lease.now }
{
    TakenSlot {
        name: memory_slot(lease.index.0),
        numbers: lease.numbers,
    }
}

// What comes after a reset.
fn was_reset<P: Pages, H: GcHeap>(
    alloc: Global,
    batch: usize,
    frame: &mut Frame<P, H>,
    outcome: &mut Option<Outcome<P, H>>,
)
    requires unanswered { outcome.old ≡ None }
    ensures { ◌≡◌ {A = Left P H} (record { frame = frame.new; outcome = outcome.new }) (after frame.old (reset_turn batch frame.old.local)) }
{
    let ranges = frame.local.raw_len();
    if ranges == 0 || batch <= ranges {
        return frame.flush(alloc, outcome);
    }
    frame.go(Phase::Merge)
}
