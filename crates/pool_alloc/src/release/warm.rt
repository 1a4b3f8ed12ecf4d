//! The steps of a release that change one part, on that part alone.
ghost use Rattle.std.specs.Prelude.{◌≡◌, ◌+◌, ◌<◌, ◌≤◌, ◌^◌, length, IsSome, None};
ghost use Rattle.pool_index.specs.Shard.{use_of, after_take_warm};
ghost use Rattle.pool_slots.specs.CellOf.{cell_of};
ghost use Rattle.pool_slots.specs.Cells.{IsCleanOnceUsed};
ghost use Rattle.pool_slots.specs.Parts.{IsShardPart, IsCellPart, cell_of_part};
ghost use Rattle.pool_slots.specs.Plans.{home_of};
ghost use Rattle.pool_slots.specs.RegionCells.{IsAwaited};
ghost use Rattle.pool_slots.specs.declared.part.PoolPart.{PoolPart};
ghost use Rattle.pool_alloc.specs.CanStep.{CanEndStripe};
ghost use Rattle.pool_alloc.specs.Freeing.{HasHome};
ghost use Rattle.pool_alloc.specs.Releases.{released_stripe, taking, take_warm_on, take_resident_on, put_resident_on, free_taken_on};
ghost use Rattle.pool_alloc.specs.StepReads.{shard_in, part_holding};
ghost use Rattle.pool_alloc.specs.Turns.{PartAfter, part_after, lifted};

use crate::frame::{Frame, FreedSlot, Outcome, Phase, TakenSlot};
use crate::pool_parts::{free_in, put_image_in, take_image_in};
use crate::release::steps::{drain_from, free_first};
use crate::release::{ReleaseCursor, ReleaseStep};
use crate::shards;
use crate::shards::home;
use pool_pages::Pages;
use pool_slots::{GcHeap, ImageSlot, Plan, PoolPart, SlotName};

// Takes all warm slots of a shard. The shard is that of the release's stripe with this number.
pub(crate) fn take_warm<P: Pages, H: GcHeap>(
    part: &mut PoolPart<P, H>,
    plan: &Plan,
    frame: &mut Frame<P, H>,
    cursor: ReleaseCursor,
    shard: u32,
    outcome: &mut Option<Outcome<P, H>>,
)
    requires shard { IsShardPart part.old }
    requires going { CanEndStripe plan.now cursor }
    requires inside { shard < (released_stripe plan.now cursor).shards }
    requires local { length cursor.local.items + length (shard_in part.old).warm ≤ cursor.local.room }
    requires taken { length cursor.taken.items + length (shard_in part.old).warm ≤ cursor.taken.room }
    requires unanswered { outcome.old ≡ None }
    ensures { ◌≡◌ {A = PartAfter (PoolPart P H) P H} (record { part = part.new; frame = frame.new; outcome = outcome.new }) (part_after (lifted (λ x. PoolPart.Shard x) (take_warm_on plan.now cursor shard (shard_in part.old) frame.old))) }
{
    let mut cursor = cursor;
    let shards = cursor.allocator(plan).shards;
    take_warm_in(part, &mut cursor);
    if shard + 1 < shards {
        return frame.go(Phase::Release(ReleaseStep::TakeWarm(cursor, shard + 1)));
    }
    drain_from(plan, frame, cursor, 0, outcome)
}

fn take_warm_in<P: Pages, H: GcHeap>(part: &mut PoolPart<P, H>, cursor: &mut ReleaseCursor)
    requires shard { IsShardPart part.old }
    requires local { length cursor.old.local.items + length (shard_in part.old).warm ≤ cursor.old.local.room }
    requires taken { length cursor.old.taken.items + length (shard_in part.old).warm ≤ cursor.old.taken.room }
    ensures cursor { cursor.new ≡ taking (shard_in part.old) cursor.old }
    ensures after { part.new ≡ PoolPart.Shard (after_take_warm (shard_in part.old)) }
{
    match part {
        PoolPart::Shard(shard) => shards::take_warm(shard, cursor),
        _ => unreachable!(),
    }
}

// Takes the region of a slot that keeps bytes resident. It is the slot at this place of those that were taken.
pub(crate) fn take_resident<P: Pages, H: GcHeap>(
    part: &mut PoolPart<P, H>,
    frame: &mut Frame<P, H>,
    cursor: ReleaseCursor,
    at: usize,
    name: SlotName,
)
    requires { IsCellPart part.old }
    ensures { ◌≡◌ {A = PartAfter (PoolPart P H) P H} (record { part = part.new; frame = frame.new; outcome = None }) (part_after (lifted (λ x. part_holding x part.old) (take_resident_on cursor at name (cell_of_part part.old) frame.old))) }
{
    let (held, numbers) = take_image_in(part);
    let slot = TakenSlot { name, numbers };
    frame.go(Phase::Release(ReleaseStep::Decommit(cursor, at, slot, held)))
}

// Puts it back, in the state that it had. The next slot with resident bytes follows.
pub(crate) fn put_resident<P: Pages, H: GcHeap>(
    part: &mut PoolPart<P, H>,
    plan: &Plan,
    frame: &mut Frame<P, H>,
    cursor: ReleaseCursor,
    at: usize,
    held: ImageSlot<P>,
    outcome: &mut Option<Outcome<P, H>>,
)
    requires cell { IsCellPart part.old }
    requires going { CanEndStripe plan.now cursor }
    requires inside { at < length cursor.taken.items }
    requires clean { IsCleanOnceUsed (cell_of held) }
    requires own { IsAwaited (cell_of held) (cell_of_part part.old) }
    requires unanswered { outcome.old ≡ None }
    ensures { ◌≡◌ {A = PartAfter (PoolPart P H) P H} (record { part = part.new; frame = frame.new; outcome = outcome.new }) (part_after (lifted (λ x. part_holding x part.old) (put_resident_on plan.now cursor at (cell_of held) (cell_of_part part.old) frame.old))) }
{
    put_image_in(part, held);
    drain_from(plan, frame, cursor, at + 1, outcome)
}

// Frees a slot that was taken. It keeps nothing resident where all decommits of the stripe succeeded.
pub(crate) fn free_taken<P: Pages, H: GcHeap>(
    part: &mut PoolPart<P, H>,
    plan: &Plan,
    frame: &mut Frame<P, H>,
    cursor: ReleaseCursor,
    slot: FreedSlot,
    outcome: &mut Option<Outcome<P, H>>,
)
    requires shard { IsShardPart part.old }
    requires going { CanEndStripe plan.now cursor }
    requires bytes { slot.bytes ≤ 2 ^ 32 }
    requires home { HasHome plan.now slot.name }
    requires used { IsSome (use_of (shard_in part.old) (home_of plan.now slot.name).local.0) }
    requires unanswered { outcome.old ≡ None }
    ensures { ◌≡◌ {A = PartAfter (PoolPart P H) P H} (record { part = part.new; frame = frame.new; outcome = outcome.new }) (part_after (lifted (λ x. PoolPart.Shard x) (free_taken_on plan.now cursor slot (shard_in part.old) frame.old))) }
{
    let mut cursor = cursor;
    let local = home(plan, slot.name).local;
    free_in(part, local, cursor.bytes_kept(slot));
    cursor.releasing(slot);
    free_first(plan, frame, cursor, outcome)
}
