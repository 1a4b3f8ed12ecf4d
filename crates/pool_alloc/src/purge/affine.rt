//! The steps of a purge that change one part, on that part alone.
ghost use Rattle.std.specs.Prelude.{◌≡◌, ◌<◌, IsSome, None, option_map};
ghost use Rattle.pool_index.specs.Shard.{use_of, affine_answer, after_affine_pick, slot_number};
ghost use Rattle.pool_slots.specs.CellOf.{cell_of};
ghost use Rattle.pool_slots.specs.Cells.{IsCleanOnceUsed};
ghost use Rattle.pool_slots.specs.Parts.{IsShardPart, IsCellPart, cell_of_part};
ghost use Rattle.pool_slots.specs.Plans.{home_of};
ghost use Rattle.pool_slots.specs.RegionCells.{IsAwaited};
ghost use Rattle.pool_slots.specs.declared.part.PoolPart.{PoolPart};
ghost use Rattle.pool_alloc.specs.CanStep.{CanGoOn};
ghost use Rattle.pool_alloc.specs.Freeing.{HasHome};
ghost use Rattle.pool_alloc.specs.Purges.{purged_stripe, pick_affine_on, take_affine_on, put_affine_on, free_affine_on};
ghost use Rattle.pool_alloc.specs.StepReads.{shard_in, part_holding};
ghost use Rattle.pool_alloc.specs.Turns.{PartAfter, part_after, lifted};

use crate::frame::{Frame, Outcome, Phase, TakenSlot};
use crate::pool_core::Settings;
use crate::pool_parts::{free_in, put_image_in, take_image_in};
use crate::purge::steps::{found, missed, purge_to};
use crate::purge::{PurgeCursor, PurgeStep};
use crate::shards;
use crate::shards::home;
use pool_index::MemoryInModule;
use pool_pages::Pages;
use pool_slots::{GcHeap, ImageSlot, Plan, PoolPart, SlotName};
use std::marker::Brand;
use std::sync::ledger::Blank;

// Picks a slot of a shard by affinity. The shard is that of the purge's stripe with this number.
pub(crate) fn pick_affine<P: Pages, H: GcHeap>(
    part: &mut PoolPart<P, H>,
    settings: &Settings,
    plan: &Plan,
    frame: &mut Frame<P, H>,
    cursor: PurgeCursor,
    tried: u32,
    outcome: &mut Option<Outcome<P, H>>,
)
    requires shard { IsShardPart part.old }
    requires going { CanGoOn settings.now plan.now cursor }
    requires tried { tried < (purged_stripe plan.now cursor).shards }
    requires unanswered { outcome.old ≡ None }
    ensures { ◌≡◌ {A = PartAfter (PoolPart P H) P H} (record { part = part.new; frame = frame.new; outcome = outcome.new }) (part_after (lifted (λ x. PoolPart.Shard x) (pick_affine_on settings.now.max_memories_per_module plan.now cursor tried (shard_in part.old) frame.old))) }
{
    match pick_affine_in(part, cursor.wanted()) {
        Some(slot) => found(frame, cursor, slot),
        None => missed(settings, plan, frame, cursor, tried, outcome),
    }
}

// Picks a slot of a shard by affinity, and gives its number in the pool.
fn pick_affine_in<P: Pages, H: GcHeap>(part: &mut PoolPart<P, H>, of: MemoryInModule) -> Option<u32>
    requires shard { IsShardPart part.old }
    ensures answer { result ≡ option_map (λ k. slot_number (shard_in part.old) k.0) (affine_answer of (shard_in part.old)) }
    ensures after { part.new ≡ PoolPart.Shard (after_affine_pick of (shard_in part.old)) }
{
    match part {
        PoolPart::Shard(shard) => shards::pick_affine::<Brand>(shard, of, Blank::new(1)),
        _ => unreachable!(),
    }
}

// Takes the region of the slot that a purge found.
pub(crate) fn take_affine<P: Pages, H: GcHeap>(
    part: &mut PoolPart<P, H>,
    frame: &mut Frame<P, H>,
    cursor: PurgeCursor,
    name: SlotName,
)
    requires { IsCellPart part.old }
    ensures { ◌≡◌ {A = PartAfter (PoolPart P H) P H} (record { part = part.new; frame = frame.new; outcome = None }) (part_after (lifted (λ x. part_holding x part.old) (take_affine_on cursor name (cell_of_part part.old) frame.old))) }
{
    let (held, numbers) = take_image_in(part);
    let at = TakenSlot { name, numbers };
    frame.go(Phase::Purge(cursor, PurgeStep::Forget(at, held)))
}

// Puts it back.
pub(crate) fn put_affine<P: Pages, H: GcHeap>(
    part: &mut PoolPart<P, H>,
    frame: &mut Frame<P, H>,
    cursor: PurgeCursor,
    name: SlotName,
    held: ImageSlot<P>,
)
    requires cell { IsCellPart part.old }
    requires clean { IsCleanOnceUsed (cell_of held) }
    requires own { IsAwaited (cell_of held) (cell_of_part part.old) }
    ensures { ◌≡◌ {A = PartAfter (PoolPart P H) P H} (record { part = part.new; frame = frame.new; outcome = None }) (part_after (lifted (λ x. part_holding x part.old) (put_affine_on cursor name (cell_of held) (cell_of_part part.old) frame.old))) }
{
    put_image_in(part, held);
    frame.go(Phase::Purge(cursor, PurgeStep::Free(name)))
}

// Frees the slot. Nothing of it is resident.
pub(crate) fn free_affine<P: Pages, H: GcHeap>(
    part: &mut PoolPart<P, H>,
    settings: &Settings,
    plan: &Plan,
    frame: &mut Frame<P, H>,
    cursor: PurgeCursor,
    name: SlotName,
    outcome: &mut Option<Outcome<P, H>>,
)
    requires shard { IsShardPart part.old }
    requires going { CanGoOn settings.now plan.now cursor }
    requires home { HasHome plan.now name }
    requires used { IsSome (use_of (shard_in part.old) (home_of plan.now name).local.0) }
    requires unanswered { outcome.old ≡ None }
    ensures { ◌≡◌ {A = PartAfter (PoolPart P H) P H} (record { part = part.new; frame = frame.new; outcome = outcome.new }) (part_after (lifted (λ x. PoolPart.Shard x) (free_affine_on settings.now.max_memories_per_module plan.now cursor name (shard_in part.old) frame.old))) }
{
    let local = home(plan, name).local;
    free_in(part, local, 0);
    purge_to(frame, cursor, cursor.behind_turn(settings, plan), outcome)
}
