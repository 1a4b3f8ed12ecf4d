//! What is done to a queue: it is taken whole, merged, and flushed, one run of ranges or one slot at a time.
ghost use Rattle.std.specs.Prelude.{◌≡◌, ◌+◌, ◌<◌, ◌^◌, None, [], length, Bool};
ghost use Rattle.pool_slots.specs.QueueMerges.{CanMerge};
ghost use Rattle.pool_slots.specs.SlotQueues.{Queue, IsSpareOf, HasOwners};
ghost use Rattle.pool_alloc.specs.CanStep.{HasAllocators};
ghost use Rattle.pool_alloc.specs.PageCallAnswers.{FlushTold, FlushPlanned, Decommits, FollowsRun};
ghost use Rattle.pool_alloc.specs.StepReads.{StepGiven};
ghost use Rattle.pool_alloc.specs.StepTable.{take_queue_on, merge_on, flush_kinds, kind_queued, kind_settled, flush_step, decommit_row, zero_row, flush_row};
ghost use Rattle.pool_alloc.specs.StepsAlone.{CanFlushAlone};
ghost use Rattle.pool_alloc.specs.Turns.{PartAfter, part_after, After, stepped};
ghost use Rattle.pool_alloc.specs.declared.pool_core.PoolCore.{PoolCore};

use crate::frame::{Frame, FreedSlot, Outcome};
use crate::pool_core::Settings;
use crate::reserved::ReservedList;
use pool_index::SlotKind;
use pool_pages::Pages;
use pool_slots::{DecommitQueue, GcHeap, Plan};
use std::alloc::Global;

// Takes a whole queue. It is flushed where it holds something.
pub(crate) fn take_queue<P: Pages, H: GcHeap>(
    queue: &mut DecommitQueue<P>,
    plan: &Plan,
    alloc: Global,
    frame: &mut Frame<P, H>,
    outcome: &mut Option<Outcome<P, H>>,
)
    requires spare { IsSpareOf queue.old frame.old.local }
    requires taken { frame.old.queues + 1 < 2 ^ 32 }
    requires plan { HasAllocators plan.now frame.old.stripe }
    requires unanswered { outcome.old ≡ None }
    ensures { ◌≡◌ {A = PartAfter Queue P H} (record { part = queue.new; frame = frame.new; outcome = outcome.new }) (part_after (take_queue_on plan.now queue.old frame.old)) }
{
    queue.take(&mut frame.local);
    frame.queues += 1;
    if frame.local.is_empty() {
        frame.search_slot(plan, outcome)
    } else {
        frame.flush(alloc, outcome)
    }
}

// Appends the local queue to the home queue. Where that has as many ranges as a batch then, it is flushed whole.
pub(crate) fn merge<P: Pages, H: GcHeap>(
    queue: &mut DecommitQueue<P>,
    settings: &Settings,
    alloc: Global,
    frame: &mut Frame<P, H>,
    outcome: &mut Option<Outcome<P, H>>,
)
    requires can { CanMerge queue.old frame.old.local }
    requires unanswered { outcome.old ≡ None }
    ensures { ◌≡◌ {A = PartAfter Queue P H} (record { part = queue.new; frame = frame.new; outcome = outcome.new }) (part_after (merge_on settings.now queue.old frame.old)) }
{
    if queue.merge(&mut frame.local, settings.batch) {
        frame.flush(alloc, outcome)
    } else {
        frame.next(alloc, outcome)
    }
}

// A step of a flush that changes no part: the next ranges of one slot are decommitted, or a slot is zeroed by hand.
#[inline(never)]
pub(crate) fn flush_alone<P: Pages, H: GcHeap>(
    alloc: Global,
    frame: &mut Frame<P, H>,
    outcome: &mut Option<Outcome<P, H>>,
)
    requires can { CanFlushAlone (flush_step frame.old.local frame.old.freed.items) frame.old }
    requires unanswered { outcome.old ≡ None }
    ensures { (g : StepGiven H) × FlushTold (flush_step frame.old.local frame.old.freed.items) g frame.old.local × FlushPlanned (flush_step frame.old.local frame.old.freed.items) g frame.old.local × ((c : PoolCore P H) → ◌≡◌ {A = After P H} (record { core = c; frame = frame.new; outcome = outcome.new }) (stepped (flush_row (flush_step frame.old.local frame.old.freed.items) g.queue c frame.old))) }
{
    if frame.local.raw_len() > 0 {
        return decommit(alloc, frame, outcome);
    }
    let kind = kind_settled(&frame.local, &frame.freed);
    zero(alloc, frame, kind, outcome)
}

// Decommits the next ranges of one slot.
fn decommit<P: Pages, H: GcHeap>(
    alloc: Global,
    frame: &mut Frame<P, H>,
    outcome: &mut Option<Outcome<P, H>>,
)
    requires some { 0 < length frame.old.local.ranges }
    requires owners { HasOwners frame.old.local }
    requires unanswered { outcome.old ≡ None }
    ensures { (fault : Bool) × (queue : Queue) × Decommits fault frame.old.local queue × FollowsRun fault frame.old.local queue × ((c : PoolCore P H) → ◌≡◌ {A = After P H} (record { core = c; frame = frame.new; outcome = outcome.new }) (stepped (decommit_row queue c frame.old))) }
{
    let _fault = frame.local.decommit_run().is_err();
    frame.flush(alloc, outcome)
}

// Zeroes the next slot of a kind that has to be zeroed by hand.
fn zero<P: Pages, H: GcHeap>(
    alloc: Global,
    frame: &mut Frame<P, H>,
    kind: SlotKind,
    outcome: &mut Option<Outcome<P, H>>,
)
    requires none { frame.old.local.ranges ≡ [] }
    requires unanswered { outcome.old ≡ None }
    ensures { (c : PoolCore P H) → ◌≡◌ {A = After P H} (record { core = c; frame = frame.new; outcome = outcome.new }) (stepped (zero_row kind c frame.old)) }
{
    let _zeroed = frame.local.zero_next(kind);
    frame.flush(alloc, outcome)
}

// The kind of the slots that go back: of those that wait to be freed, or else the first that is queued.
pub(crate) fn kind_settled<P: Pages>(
    local: &DecommitQueue<P>,
    freed: &ReservedList<FreedSlot>,
) -> SlotKind
    ensures { result ≡ kind_settled local.now.slots freed.now.items }
{
    if freed.is_empty() {
        return kind_queued(local);
    }
    freed.get(0).name.kind
}

// Memories go back before tables, and tables before stacks.
fn kind_queued<P: Pages>(local: &DecommitQueue<P>) -> SlotKind
    ensures { result ≡ kind_queued flush_kinds local.now.slots }
{
    if local.holds_kind(SlotKind::Memory) {
        return SlotKind::Memory;
    }
    if local.holds_kind(SlotKind::Table) {
        return SlotKind::Table;
    }
    if local.holds_kind(SlotKind::Stack) {
        return SlotKind::Stack;
    }
    SlotKind::Memory
}
