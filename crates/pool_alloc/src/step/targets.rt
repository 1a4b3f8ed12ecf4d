//! What a frame's next step changes.
ghost use Rattle.std.specs.Prelude.{◌≡◌, ◌+◌, ◌<◌, true, if◌then◌else◌, Some};
ghost use Rattle.pool_slots.specs.Plans.{IsPlacedAllocator};
ghost use Rattle.pool_alloc.specs.CanStep.{CanGoOn};
ghost use Rattle.pool_alloc.specs.Purges.{has_turns, purged_stripe};
ghost use Rattle.pool_alloc.specs.StepTable.{flush_step, settled_step};
ghost use Rattle.pool_alloc.specs.Targets.{CanFindTarget, CanFindFlush, CanFindPurge, CanFindRelease, next_target, flush_target, object_counter, purge_target, release_target};

use crate::counters::CounterName;
use crate::decommit_queue::kind_settled;
use crate::frame::{Frame, FreedSlot, Object, Phase};
use crate::pool_core::Settings;
use crate::purge::steps::has_turns;
use crate::purge::{PurgeCursor, PurgeStep};
use crate::release::ReleaseStep;
use crate::reserved::ReservedList;
use crate::shards::{first_shard, home};
use pool_index::SlotKind;
use pool_pages::Pages;
use pool_slots::{DecommitQueue, GcHeap, Plan};

/// What a step changes. Of parts and counters it changes one at most.
#[derive(Clone, Copy, Debug, PartialEq, Eq)]
pub enum Target {
    /// The part at this place.
    Part(u32),
    /// A counter, which counts up.
    Up(CounterName),
    /// A counter, which counts down.
    Down(CounterName),
    /// Neither.
    Alone,
}

/// What the frame's next step changes. Whoever drives a pool asks it before each step, and then has the part or the counter for
/// itself: with it one calls `step_part` or `step_counted`, and without one `step_alone`. It looks at the frame alone, so that it
/// may be asked before anything is locked.
pub fn next_target<P: Pages, H: GcHeap>(
    settings: &Settings,
    plan: &Plan,
    frame: &Frame<P, H>,
) -> Target
    requires can { CanFindTarget settings.now plan.now frame.now.phase frame.now }
    ensures value { result ≡ next_target settings.now plan.now frame.now.phase frame.now }
{
    match &frame.phase {
        Phase::Key => Target::Up(CounterName::Key),
        Phase::CountInstance => Target::Up(CounterName::CoreInstances),
        Phase::Pick(tried) => Target::Part(frame.allocator(plan).shard_tried(frame.home, *tried)),
        Phase::TakeQueue => Target::Part(plan.queue_tried(frame.home, frame.queues)),
        Phase::TakeRegion(name) => Target::Part(plan.cell_place(*name)),
        Phase::CountObject(object) => Target::Up(object_counter(object)),
        Phase::TakeHeap(_) => Target::Part(plan.heap_list),
        Phase::CountHeap(_) => Target::Up(CounterName::GcHeaps),
        Phase::PutNoHeap(_) => Target::Part(plan.heap_list),
        Phase::PutBack(at, _) => Target::Part(plan.cell_place(at.name)),
        Phase::FreeOne(name) => Target::Part(home(plan, *name).place),
        Phase::UncountObject(object) => Target::Down(object_counter(object)),
        Phase::UncountHeap(_, _) => Target::Down(CounterName::GcHeaps),
        Phase::PutHeap(_, _) => Target::Part(plan.heap_list),
        Phase::FreeHeap(name, _) => Target::Part(home(plan, *name).place),
        Phase::Merge => Target::Part(plan.queue_tried(frame.home, 0)),
        Phase::Flush => flush_target(plan, &frame.local, &frame.freed),
        Phase::UncountInstance => Target::Down(CounterName::CoreInstances),
        Phase::CountComponent => Target::Up(CounterName::ComponentInstances),
        Phase::UncountComponent => Target::Down(CounterName::ComponentInstances),
        Phase::Purge(cursor, step) => purge_target(settings, plan, cursor, step),
        Phase::Release(step) => release_target(plan, step),
        _ => Target::Alone,
    }
}

// The counter of an object.
fn object_counter<P: Pages>(object: &Object<P>) -> CounterName
    ensures { result ≡ object_counter object.now }
{
    match object {
        Object::Memory(_) => CounterName::Memories,
        Object::Table(_) => CounterName::Tables,
        Object::Stack(_) => CounterName::Stacks,
    }
}

// A flush changes a part where it puts a slot back or frees some.
fn flush_target<P: Pages>(
    plan: &Plan,
    local: &DecommitQueue<P>,
    freed: &ReservedList<FreedSlot>,
) -> Target
    requires { CanFindFlush plan.now (flush_step local.now freed.now.items) local.now.slots freed.now.items }
    ensures { result ≡ flush_target plan.now (flush_step local.now freed.now.items) local.now.slots freed.now.items }
{
    if local.raw_len() > 0 {
        return Target::Alone;
    }
    settled_target(plan, local, freed, kind_settled(local, freed))
}

// The same where no ranges are left, of the kind of slots that goes back.
fn settled_target<P: Pages>(
    plan: &Plan,
    local: &DecommitQueue<P>,
    freed: &ReservedList<FreedSlot>,
    kind: SlotKind,
) -> Target
    requires { CanFindFlush plan.now (settled_step kind local.now.slots) local.now.slots freed.now.items }
    ensures { result ≡ flush_target plan.now (settled_step kind local.now.slots) local.now.slots freed.now.items }
{
    if local.has_to_zero(kind) {
        return Target::Alone;
    }
    match local.first_name(kind) {
        Some(name) => Target::Part(plan.cell_place(name)),
        None => Target::Part(first_shard(plan, freed)),
    }
}

fn purge_target<P: Pages>(
    settings: &Settings,
    plan: &Plan,
    cursor: &PurgeCursor,
    step: &PurgeStep<P>,
) -> Target
    requires { CanFindPurge settings.now plan.now cursor.now step.now }
    ensures { result ≡ purge_target settings.now plan.now cursor.now step.now }
{
    match step {
        PurgeStep::Pick(tried) => picked_target(settings, plan, cursor, *tried),
        PurgeStep::TakeRegion(name) => Target::Part(plan.cell_place(*name)),
        PurgeStep::PutRegion(at, _) => Target::Part(plan.cell_place(at.name)),
        PurgeStep::Free(name) => Target::Part(home(plan, *name).place),
        PurgeStep::Forget(_, _) => Target::Alone,
    }
}

// The shard that a purge picks from, if it has turns.
fn picked_target(settings: &Settings, plan: &Plan, cursor: &PurgeCursor, tried: u32) -> Target
    requires { has_turns settings.now.max_memories_per_module plan.now ≡ true → CanGoOn settings.now plan.now cursor.now × (tried < (purged_stripe plan.now cursor.now).shards) × IsPlacedAllocator (purged_stripe plan.now cursor.now) }
    ensures { result ≡ (if has_turns settings.now.max_memories_per_module plan.now then Target.Part ((purged_stripe plan.now cursor.now).first_place + tried) else Target.Alone) }
{
    if has_turns(settings, plan) {
        Target::Part(cursor.allocator(plan).first_place + tried)
    } else {
        Target::Alone
    }
}

fn release_target<P: Pages>(plan: &Plan, step: &ReleaseStep<P>) -> Target
    requires { CanFindRelease plan.now step.now }
    ensures { result ≡ release_target plan.now step.now }
{
    match step {
        ReleaseStep::TakeWarm(cursor, shard) => {
            Target::Part(cursor.allocator(plan).first_place + *shard)
        }
        ReleaseStep::TakeRegion(cursor, at) => Target::Part(plan.cell_place(cursor.slot(*at).name)),
        ReleaseStep::PutRegion(_, _, at, _) => Target::Part(plan.cell_place(at.name)),
        ReleaseStep::Free(_, slot) => Target::Part(home(plan, slot.name).place),
        ReleaseStep::Reserve | ReleaseStep::Decommit(..) => Target::Alone,
    }
}
