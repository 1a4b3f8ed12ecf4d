//! What is done to the cell of a slot: its region is taken, and put back.
ghost use Rattle.std.specs.Prelude.{◌≡◌, ◌<◌, length, true, false, List, if◌then◌else◌, None};
ghost use Rattle.pool_images.specs.Slots.{IsClean};
ghost use Rattle.pool_slots.specs.Cells.{is_taken, unmapped, unknown, previously_used, IsCleanOnceUsed};
ghost use Rattle.pool_slots.specs.RegionCells.{CellState, IsAwaited};
ghost use Rattle.pool_slots.specs.CellOf.{cell_of};
ghost use Rattle.pool_slots.specs.SlotQueues.{Queued, IsSettled};
ghost use Rattle.pool_alloc.specs.CanStep.{CanBeImage, CanUnmap};
ghost use Rattle.pool_alloc.specs.MemorySteps.{image_made};
ghost use Rattle.pool_alloc.specs.StepReads.{cell_returned};
ghost use Rattle.pool_alloc.specs.StepTable.{take_region_on, put_back_on, region_put, unmapped_next};
ghost use Rattle.pool_alloc.specs.Turns.{PartAfter, part_after, goes};

use crate::frame::{Frame, FreedSlot, Object, Outcome, Phase, TakenSlot};
use crate::pool_core::Settings;
use crate::stack_pool::stack_made;
use pool_images::MemoryImageSlot;
use pool_index::SlotKind;
use pool_pages::{PageRegion, Pages};
use pool_slots::{GcHeap, HeldSlot, ImageSlot, QueuedSlot, RegionCell, SlotName, stripe_colour};
use std::alloc::Global;

// Takes the region of a slot out of its cell. An image slot is made of a region that was never used.
pub(crate) fn take_region<P: Pages, H: GcHeap>(
    cell: &mut RegionCell<P>,
    settings: &Settings,
    frame: &mut Frame<P, H>,
    name: SlotName,
)
    requires there { is_taken cell.old.holds ≡ false }
    requires fresh { (region : _) → cell.old.holds ≡ unmapped region → CanUnmap settings.now name region }
    ensures { ◌≡◌ {A = PartAfter CellState P H} (record { part = cell.new; frame = frame.new; outcome = None }) (part_after (take_region_on settings.now name cell.old frame.old)) }
{
    let (held, numbers) = cell.take();
    let at = TakenSlot { name, numbers };
    let phase = match held {
        ImageSlot::Unmapped(region) => unmapped_next(settings, at, region),
        ImageSlot::Unknown(held) => Phase::Empty(at, held),
        ImageSlot::PreviouslyUsed(held) => Phase::Instantiate(at, held),
        ImageSlot::Taken => unreachable!(),
    };
    frame.go(phase)
}

// What comes next with a region that lies in its cell as it was made, or that is a table's or a stack's. Heaps have no cells.
fn unmapped_next<P: Pages, H: GcHeap>(
    settings: &Settings,
    at: TakenSlot,
    region: PageRegion<P>,
) -> Phase<P, H>
    requires { CanUnmap settings.now at.name region }
    ensures { goes result ≡ unmapped_next settings.now at.name.kind at region }
{
    match at.name.kind {
        SlotKind::Memory => Phase::Instantiate(at, image_slot_of(settings, at.name.slot, region)),
        SlotKind::Table => Phase::MakeTable(at, region),
        SlotKind::Stack => Phase::CountObject(Object::Stack(stack_made(settings, at, region))),
        SlotKind::Heap => Phase::Idle,
    }
}

// The image slot of a region that was never used, in the colour of its stripe.
fn image_slot_of<P: Pages>(
    settings: &Settings,
    slot: u32,
    region: PageRegion<P>,
) -> MemoryImageSlot<P>
    requires { CanBeImage settings.now slot region }
    ensures { result ≡ image_made settings.now slot region }
{
    let none = settings.page.zero();
    let colour = stripe_colour(slot, settings.num_stripes);
    MemoryImageSlot::create(
        region.into_pages(),
        none,
        none,
        settings.max_memory_size,
        colour,
    )
}

// Puts the region of a slot back after a failure.
pub(crate) fn put_back<P: Pages, H: GcHeap>(
    cell: &mut RegionCell<P>,
    frame: &mut Frame<P, H>,
    name: SlotName,
    held: ImageSlot<P>,
)
    requires clean { IsCleanOnceUsed (cell_of held) }
    requires own { IsAwaited (cell_of held) cell.old }
    ensures { ◌≡◌ {A = PartAfter CellState P H} (record { part = cell.new; frame = frame.new; outcome = None }) (part_after (put_back_on name (cell_of held) cell.old frame.old)) }
{
    cell.put(held);
    frame.go(Phase::FreeOne(name))
}

// Puts the region of a slot back that was in the local queue. The slot waits to be freed then.
pub(crate) fn put_region<P: Pages, H: GcHeap>(
    cell: &mut RegionCell<P>,
    alloc: Global,
    frame: &mut Frame<P, H>,
    item: QueuedSlot<P>,
    outcome: &mut Option<Outcome<P, H>>,
)
    requires settled { IsSettled item }
    requires own { IsAwaited (cell_returned item) cell.old }
    requires room { length frame.old.freed.items < frame.old.freed.room }
    requires unanswered { outcome.old ≡ None }
    ensures { ◌≡◌ {A = PartAfter CellState P H} (record { part = cell.new; frame = frame.new; outcome = outcome.new }) (part_after (region_put item cell.old frame.old)) }
{
    let name = item.name();
    let bytes = item.bytes;
    cell.put(cell_returned(item));
    frame.freed.push(FreedSlot { name, bytes });
    frame.flush(alloc, outcome)
}

// What a region's cell holds once its memory, its table or its stack is given back.
fn cell_returned<P: Pages>(item: QueuedSlot<P>) -> ImageSlot<P>
    requires settled { IsSettled item }
    ensures value { cell_of result ≡ cell_returned item }
    ensures clean { IsCleanOnceUsed (cell_of result) }
{
    let known = item.known;
    match item.held {
        HeldSlot::Memory(slot) => slot_returned(known, slot),
        HeldSlot::Table(held) => ImageSlot::Unmapped(held.region),
        HeldSlot::Stack(held) => ImageSlot::Unmapped(held.region),
    }
}

fn slot_returned<P: Pages>(known: bool, slot: MemoryImageSlot<P>) -> ImageSlot<P>
    requires { known ≡ true → IsClean slot }
    ensures value { cell_of result ≡ (if known then previously_used slot else unknown slot) }
    ensures clean { IsCleanOnceUsed (cell_of result) }
{
    if known {
        ImageSlot::PreviouslyUsed(slot)
    } else {
        ImageSlot::Unknown(slot)
    }
}
