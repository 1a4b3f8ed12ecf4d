//! The steps of a release that change no part, and where one goes on.
ghost use Rattle.std.specs.Prelude.{◌≡◌, ◌+◌, ◌<◌, ◌≤◌, ◌^◌, ◌∷◌, ◌||◌, [], length, not, false, Bool, None};
ghost use Rattle.pool_pages.specs.Told.{decommitting};
ghost use Rattle.pool_images.specs.Orders.{Follows};
ghost use Rattle.pool_images.specs.Slots.{Slot, IsClean};
ghost use Rattle.pool_slots.specs.Cells.{is_taken};
ghost use Rattle.pool_slots.specs.CellOf.{cell_of};
ghost use Rattle.pool_alloc.specs.CanStep.{CanDecommit, CanDrain, CanEndStripe};
ghost use Rattle.pool_alloc.specs.PageCallAnswers.{DecommitsWhole, Drains, FollowsDrain, ReleaseTold, ReleasePlanned};
ghost use Rattle.pool_alloc.specs.Releases.{slots_in, after_decommit, behind_stripe, free_first, drain_from, reserve_row, release_row};
ghost use Rattle.pool_alloc.specs.StepReads.{StepGiven, under};
ghost use Rattle.pool_alloc.specs.StepsAlone.{CanReleaseAlone};
ghost use Rattle.pool_alloc.specs.Turns.{After, Left, after, goes, stepped};
ghost use Rattle.pool_alloc.specs.declared.pool_core.PoolCore.{PoolCore};

use crate::frame::{Frame, Outcome, Phase, TakenSlot};
use crate::pool_core::Settings;
use crate::release::{ReleaseCursor, ReleaseStep};
use crate::reserved::ReservedList;
use pool_images::MemoryImageSlot;
use pool_index::Taken;
use pool_pages::Pages;
use pool_slots::{AllocError, Allocator, GcHeap, ImageSlot, Plan};
use pool_types::HostAlignedByteCount;
use std::alloc::Global;

// A step of a release that changes no part: its lists are reserved, and the region of a slot is decommitted.
#[inline(never)]
pub(crate) fn release_alone<P: Pages, H: GcHeap>(
    settings: &Settings,
    plan: &Plan,
    alloc: Global,
    frame: &mut Frame<P, H>,
    step: ReleaseStep<P>,
    outcome: &mut Option<Outcome<P, H>>,
)
    requires can { CanReleaseAlone settings.now plan.now step }
    requires unanswered { outcome.old ≡ None }
    ensures { (g : StepGiven H) × ReleaseTold settings.now g step × ReleasePlanned settings.now g step × ((c : PoolCore P H) → ◌≡◌ {A = After P H} (record { core = under settings.now plan.now c; frame = frame.new; outcome = outcome.new }) (stepped (release_row g step (under settings.now plan.now c) frame.old))) }
{
    match step {
        ReleaseStep::Reserve => reserve(plan, alloc, frame, outcome),
        ReleaseStep::Decommit(cursor, at, slot, held) => {
            decommit(settings, frame, cursor, at, slot, held)
        }
        _ => unreachable!(),
    }
}

// Reserves room for the slots of all stripes.
pub(crate) fn reserve<P: Pages, H: GcHeap>(
    plan: &Plan,
    alloc: Global,
    frame: &mut Frame<P, H>,
    outcome: &mut Option<Outcome<P, H>>,
)
    requires can { length plan.now.memories < 2 ^ 32 }
    requires unanswered { outcome.old ≡ None }
    ensures { (wants : Bool) × ((c : PoolCore P H) → ◌≡◌ {A = After P H} (record { core = under c.settings plan.now c; frame = frame.new; outcome = outcome.new }) (stepped (reserve_row wants (under c.settings plan.now c) frame.old))) }
{
    let room = slots_in(plan.memories.as_slice());
    let Ok(local) = Taken::new(alloc, room) else {
        return frame.end(Outcome::Refused(AllocError::Memory), outcome);
    };
    let Ok(taken) = ReservedList::with_room(alloc, room) else {
        return frame.end(Outcome::Refused(AllocError::Memory), outcome);
    };
    let cursor = ReleaseCursor {
        stripe: 0,
        local,
        taken,
        failed: false,
        released: 0,
    };
    frame.go(Phase::Release(ReleaseStep::TakeWarm(cursor, 0)))
}

// How many slots these allocators have.
fn slots_in(allocators: &[Allocator]) -> usize
    requires { length allocators.now < 2 ^ 32 }
    ensures { result ≡ slots_in allocators.now }
{
    let mut slots = 0usize;
    for allocator in allocators {
        slots += allocator.capacity as usize;
    }
    slots
}

// The next slot with resident bytes is decommitted, from this place on, or else all are freed.
pub(crate) fn drain_from<P: Pages, H: GcHeap>(
    plan: &Plan,
    frame: &mut Frame<P, H>,
    cursor: ReleaseCursor,
    from: usize,
    outcome: &mut Option<Outcome<P, H>>,
)
    requires going { CanEndStripe plan.now cursor }
    requires inside { from ≤ length cursor.taken.items }
    requires unanswered { outcome.old ≡ None }
    ensures { ◌≡◌ {A = Left P H} (record { frame = frame.new; outcome = outcome.new }) (after frame.old (drain_from plan.now cursor from)) }
{
    let next = cursor.next_resident(from);
    if next < cursor.taken.len() {
        return frame.go(Phase::Release(ReleaseStep::TakeRegion(cursor, next)));
    }
    free_first(plan, frame, cursor, outcome)
}

// The first slot is freed, or the stripe is done.
pub(crate) fn free_first<P: Pages, H: GcHeap>(
    plan: &Plan,
    frame: &mut Frame<P, H>,
    cursor: ReleaseCursor,
    outcome: &mut Option<Outcome<P, H>>,
)
    requires can { CanEndStripe plan.now cursor }
    requires unanswered { outcome.old ≡ None }
    ensures { ◌≡◌ {A = Left P H} (record { frame = frame.new; outcome = outcome.new }) (after frame.old (free_first plan.now cursor.taken.items cursor)) }
{
    let mut cursor = cursor;
    match cursor.taken.pop_first() {
        Some(slot) => frame.go(Phase::Release(ReleaseStep::Free(cursor, slot))),
        None => behind_stripe(plan, frame, cursor, outcome),
    }
}

// The next stripe follows, or the release ends.
fn behind_stripe<P: Pages, H: GcHeap>(
    plan: &Plan,
    frame: &mut Frame<P, H>,
    cursor: ReleaseCursor,
    outcome: &mut Option<Outcome<P, H>>,
)
    requires going { CanEndStripe plan.now cursor }
    requires none { cursor.taken.items ≡ [] }
    requires unanswered { outcome.old ≡ None }
    ensures { ◌≡◌ {A = Left P H} (record { frame = frame.new; outcome = outcome.new }) (after frame.old (behind_stripe plan.now cursor)) }
{
    let mut cursor = cursor;
    if cursor.stripe + 1 < plan.memories.len() as u32 {
        cursor.stripe += 1;
        cursor.failed = false;
        return frame.go(Phase::Release(ReleaseStep::TakeWarm(cursor, 0)));
    }
    frame.end(Outcome::Released(cursor.released), outcome)
}

// The whole region of a slot is decommitted.
fn decommit<P: Pages, H: GcHeap>(
    settings: &Settings,
    frame: &mut Frame<P, H>,
    cursor: ReleaseCursor,
    at: usize,
    slot: TakenSlot,
    held: ImageSlot<P>,
)
    requires can { CanDrain settings.now held }
    requires there { is_taken (cell_of held) ≡ false }
    ensures { (fault : Bool) × (left : Slot) × Drains settings.now fault held left × FollowsDrain settings.now fault held left × (◌≡◌ {A = Left P H} (record { frame = frame.new; outcome = None }) (after frame.old (goes (Phase.Release (ReleaseStep.PutRegion (record cursor { failed = cursor.failed || fault }) at slot (after_decommit held left)))))) }
{
    let mut cursor = cursor;
    let (fault, left) = drained(settings, held);
    cursor.failed = cursor.failed || fault;
    frame.go(Phase::Release(ReleaseStep::PutRegion(cursor, at, slot, left)))
}

// Whether the decommit failed, and the slot in the state that it had.
fn drained<P: Pages>(settings: &Settings, held: ImageSlot<P>) -> (bool, ImageSlot<P>)
    requires can { CanDrain settings.now held }
    requires there { is_taken (cell_of held) ≡ false }
    ensures { (left : Slot) × Drains settings.now result.0 held left × FollowsDrain settings.now result.0 held left × (result.1 ≡ after_decommit held left) }
{
    match held {
        ImageSlot::Unmapped(region) => (false, ImageSlot::Unmapped(region)),
        ImageSlot::Unknown(slot) => {
            let (fault, slot) = drained_slot(settings, slot);
            (fault, ImageSlot::Unknown(slot))
        }
        ImageSlot::PreviouslyUsed(slot) => {
            let (fault, slot) = drained_slot(settings, slot);
            (fault, ImageSlot::PreviouslyUsed(slot))
        }
        ImageSlot::Taken => unreachable!(),
    }
}

fn drained_slot<P: Pages>(
    settings: &Settings,
    held: MemoryImageSlot<P>,
) -> (bool, MemoryImageSlot<P>)
    requires { CanDecommit settings.now held }
    ensures told { DecommitsWhole settings.now result.0 held result.1 }
    ensures order { Follows (decommitting held.base.bytes settings.now.max_memory_size ∷ []) (not result.0) held.region result.1.region }
    ensures clean { IsClean held → IsClean result.1 }
{
    let mut held = held;
    let page = settings.page;
    let whole = HostAlignedByteCount::new_unchecked(page, settings.max_memory_size);
    match held.decommit(page.zero(), whole) {
        Ok(()) => (false, held),
        Err(_) => (true, held),
    }
}
