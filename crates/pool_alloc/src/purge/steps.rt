//! The steps of a purge that change no part, and where one goes on.
ghost use Rattle.std.specs.Prelude.{◌≡◌, ◌+◌, ◌<◌, nat_lt, not, false, Bool, if◌then◌else◌, None};
ghost use Rattle.pool_images.specs.Orders.{Follows, wiping, removing};
ghost use Rattle.pool_images.specs.Slots.{Slot, IsClean};
ghost use Rattle.pool_slots.specs.Cells.{is_taken};
ghost use Rattle.pool_slots.specs.CellOf.{cell_of};
ghost use Rattle.pool_alloc.specs.PageCallAnswers.{Empties, Forgets, FollowsForget, RemovesImage, PurgeTold, PurgePlanned};
ghost use Rattle.pool_alloc.specs.Leases.{memory_slot};
ghost use Rattle.pool_alloc.specs.CanStep.{CanForget, CanGoOn};
ghost use Rattle.pool_alloc.specs.Purges.{has_turns, purged_stripe, found_one, behind_memory, after_forgetting, known_after, purge_to, purge_row};
ghost use Rattle.pool_alloc.specs.StepReads.{StepGiven};
ghost use Rattle.pool_alloc.specs.StepsAlone.{CanPurgeAlone};
ghost use Rattle.pool_alloc.specs.Turns.{After, Left, after, goes, stepped};
ghost use Rattle.pool_alloc.specs.declared.pool_core.PoolCore.{PoolCore};
ghost use Rattle.pool_alloc.specs.declared.pool_core.Settings.{Settings};
ghost use Rattle.pool_slots.specs.declared.plan.Plan.{Plan};

use crate::frame::{Frame, Outcome, Phase, TakenSlot};
use crate::pool_core::Settings;
use crate::purge::{PurgeCursor, PurgeStep};
use crate::shards::memory_slot;
use pool_images::MemoryImageSlot;
use pool_pages::Pages;
use pool_slots::{GcHeap, ImageSlot, Plan};

// A step of a purge that changes no part: a purge without turns ends, and what a slot holds is forgotten.
#[inline(never)]
pub(crate) fn purge_alone<P: Pages, H: GcHeap>(
    frame: &mut Frame<P, H>,
    cursor: PurgeCursor,
    step: PurgeStep<P>,
    outcome: &mut Option<Outcome<P, H>>,
)
    requires can { (s : Settings) × (plan : Plan) × CanPurgeAlone s plan step }
    requires unanswered { outcome.old ≡ None }
    ensures { (g : StepGiven H) × PurgeTold g step × PurgePlanned g step × ((c : PoolCore P H) → CanPurgeAlone c.settings c.plan step → ◌≡◌ {A = After P H} (record { core = c; frame = frame.new; outcome = outcome.new }) (stepped (purge_row g cursor step c frame.old))) }
{
    match step {
        PurgeStep::Pick(_tried) => frame.end(Outcome::Purged(cursor.purged), outcome),
        PurgeStep::Forget(at, held) => forget(frame, cursor, at, held),
        _ => unreachable!(),
    }
}

// Whether a purge has turns.
pub(crate) fn has_turns(settings: &Settings, plan: &Plan) -> bool
    ensures { result ≡ has_turns settings.now.max_memories_per_module plan.now }
{
    plan.totals.memory > 0 && settings.max_memories_per_module > 0
}

// A slot was found.
pub(crate) fn found<P: Pages, H: GcHeap>(frame: &mut Frame<P, H>, cursor: PurgeCursor, slot: u32)
    ensures { ◌≡◌ {A = Left P H} (record { frame = frame.new; outcome = None }) (after frame.old (goes (Phase.Purge (found_one cursor) (PurgeStep.TakeRegion (memory_slot slot))))) }
{
    let step = PurgeStep::TakeRegion(memory_slot(slot));
    frame.go(Phase::Purge(cursor.found_one(), step))
}

// The shard had none: the next is tried, or after the last the purge goes on behind the memory.
pub(crate) fn missed<P: Pages, H: GcHeap>(
    settings: &Settings,
    plan: &Plan,
    frame: &mut Frame<P, H>,
    cursor: PurgeCursor,
    tried: u32,
    outcome: &mut Option<Outcome<P, H>>,
)
    requires going { CanGoOn settings.now plan.now cursor }
    requires tried { tried < (purged_stripe plan.now cursor).shards }
    requires unanswered { outcome.old ≡ None }
    ensures { ◌≡◌ {A = Left P H} (record { frame = frame.new; outcome = outcome.new }) (after frame.old (if nat_lt (tried + 1) (purged_stripe plan.now cursor).shards then goes (Phase.Purge cursor (PurgeStep.Pick (tried + 1))) else purge_to cursor (behind_memory settings.now.max_memories_per_module plan.now cursor))) }
{
    let shards = cursor.allocator(plan).shards;
    if tried + 1 < shards {
        return frame.go(Phase::Purge(cursor, PurgeStep::Pick(tried + 1)));
    }
    purge_to(frame, cursor, cursor.behind_memory(settings, plan), outcome)
}

// The purge goes on there, or ends.
pub(crate) fn purge_to<P: Pages, H: GcHeap>(
    frame: &mut Frame<P, H>,
    cursor: PurgeCursor,
    next: Option<PurgeCursor>,
    outcome: &mut Option<Outcome<P, H>>,
)
    requires unanswered { outcome.old ≡ None }
    ensures { ◌≡◌ {A = Left P H} (record { frame = frame.new; outcome = outcome.new }) (after frame.old (purge_to cursor next)) }
{
    match next {
        Some(next) => frame.go(Phase::Purge(next, PurgeStep::Pick(0))),
        None => frame.end(Outcome::Purged(cursor.purged), outcome),
    }
}

// What the slot holds is forgotten.
fn forget<P: Pages, H: GcHeap>(
    frame: &mut Frame<P, H>,
    cursor: PurgeCursor,
    at: TakenSlot,
    held: ImageSlot<P>,
)
    requires can { CanForget held }
    requires there { is_taken (cell_of held) ≡ false }
    ensures { (fault : Bool) × (slot : Slot) × Forgets fault held slot × FollowsForget fault held slot × (◌≡◌ {A = Left P H} (record { frame = frame.new; outcome = None }) (after frame.old (goes (Phase.Purge cursor (PurgeStep.PutRegion at (after_forgetting fault held slot)))))) }
{
    let left = forgotten(held);
    frame.go(Phase::Purge(cursor, PurgeStep::PutRegion(at, left)))
}

fn forgotten<P: Pages>(held: ImageSlot<P>) -> ImageSlot<P>
    requires can { CanForget held }
    requires there { is_taken (cell_of held) ≡ false }
    ensures { (fault : Bool) × (slot : Slot) × Forgets fault held slot × FollowsForget fault held slot × (result ≡ after_forgetting fault held slot) }
{
    match held {
        ImageSlot::Unmapped(region) => ImageSlot::Unmapped(region),
        ImageSlot::Unknown(slot) => emptied(slot),
        ImageSlot::PreviouslyUsed(slot) => without_image(slot),
        ImageSlot::Taken => unreachable!(),
    }
}

// A slot of which nothing is known is emptied.
fn emptied<P: Pages>(held: MemoryImageSlot<P>) -> ImageSlot<P>
    ensures { (fault : Bool) × (slot : Slot) × Empties fault held slot × Follows (wiping held) (not fault) held.region slot.region × (result ≡ known_after fault slot) }
{
    let mut held = held;
    match held.reset_with_anon_memory() {
        Ok(()) => ImageSlot::PreviouslyUsed(held),
        Err(_) => {
            held.forget();
            ImageSlot::Unknown(held)
        }
    }
}

// The image of a clean slot is removed.
fn without_image<P: Pages>(held: MemoryImageSlot<P>) -> ImageSlot<P>
    requires { IsClean held }
    ensures { (fault : Bool) × (slot : Slot) × RemovesImage fault held slot × Follows (removing held) (not fault) held.region slot.region × (result ≡ known_after fault slot) }
{
    let mut held = held;
    match held.remove_image() {
        Ok(()) => ImageSlot::PreviouslyUsed(held),
        Err(_) => {
            held.forget();
            ImageSlot::Unknown(held)
        }
    }
}
