//! A step that changes one part of the pool, made by whoever holds the part at its place.
ghost use Rattle.std.specs.Prelude.{◌≡◌, true, None};
ghost use Rattle.pool_alloc.specs.InHand.{holds_region};
ghost use Rattle.pool_alloc.specs.OnParts.{CanStepOn, CanFlushOn, CanPurgeOn, CanReleaseOn, row_on, flush_on, purge_on, release_on};
ghost use Rattle.pool_alloc.specs.StepTable.{flush_step};
ghost use Rattle.pool_alloc.specs.Turns.{PartAfter, part_after, resting};

use crate::decommit_queue::kind_settled;
use crate::frame::{Frame, Outcome, Phase};
use crate::pool_core::Settings;
use crate::pool_parts;
use crate::purge::{PurgeCursor, PurgeStep, affine};
use crate::release::{ReleaseStep, warm};
use crate::shards::first_shard;
use pool_pages::Pages;
use pool_slots::{GcHeap, Plan, PoolPart};
use std::alloc::Global;
use std::mem;

/// Makes the frame's step on the part that it changes. Whoever drives a pool calls it with the part at the place that
/// `next_target` names, and has that part for itself meanwhile. The step sees no other part and no counter.
// A phase that holds nothing is read where it lies.
#[inline(never)]
pub fn step_part<P: Pages, H: GcHeap>(
    part: &mut PoolPart<P, H>,
    settings: &Settings,
    plan: &Plan,
    alloc: Global,
    frame: &mut Frame<P, H>,
    outcome: &mut Option<Outcome<P, H>>,
)
    requires can { CanStepOn settings.now plan.now frame.old.phase part.old frame.old }
    requires unanswered { outcome.old ≡ None }
    ensures row { ◌≡◌ {A = PartAfter (PoolPart P H) P H} (record { part = part.new; frame = frame.new; outcome = outcome.new }) (part_after (row_on settings.now plan.now frame.old.phase part.old (resting frame.old))) }
{
    match frame.phase {
        Phase::Pick(tried) => {
            frame.rest();
            pool_parts::pick(part, plan, frame, tried, outcome)
        }
        Phase::TakeQueue => {
            frame.rest();
            pool_parts::take_queue(part, plan, alloc, frame, outcome)
        }
        Phase::TakeRegion(name) => {
            frame.rest();
            pool_parts::take_region(part, settings, frame, name)
        }
        Phase::TakeHeap(name) => {
            frame.rest();
            pool_parts::take_heap(part, frame, name)
        }
        Phase::PutNoHeap(at) => {
            frame.rest();
            pool_parts::put_no_heap(part, frame, at.name)
        }
        Phase::FreeOne(name) => {
            frame.rest();
            pool_parts::free_one(part, plan, alloc, frame, name, outcome)
        }
        Phase::Merge => {
            frame.rest();
            pool_parts::merge(part, settings, alloc, frame, outcome)
        }
        Phase::Flush => {
            frame.rest();
            flush_part(part, plan, alloc, frame, outcome)
        }
        _ => step_part_holding(part, settings, plan, frame, outcome),
    }
}

// The same where the step has a region, a heap or a cursor in hand, which it takes out of the frame.
#[inline(never)]
fn step_part_holding<P: Pages, H: GcHeap>(
    part: &mut PoolPart<P, H>,
    settings: &Settings,
    plan: &Plan,
    frame: &mut Frame<P, H>,
    outcome: &mut Option<Outcome<P, H>>,
)
    requires can { CanStepOn settings.now plan.now frame.old.phase part.old frame.old }
    requires holds { holds_region frame.old.phase ≡ true }
    requires unanswered { outcome.old ≡ None }
    ensures { ◌≡◌ {A = PartAfter (PoolPart P H) P H} (record { part = part.new; frame = frame.new; outcome = outcome.new }) (part_after (row_on settings.now plan.now frame.old.phase part.old (resting frame.old))) }
{
    let phase = mem::replace(&mut frame.phase, Phase::Idle);
    match phase {
        Phase::PutBack(at, held) => pool_parts::put_back(part, frame, at.name, held),
        Phase::PutHeap(lease, memory) => pool_parts::put_heap(part, frame, lease, memory),
        Phase::FreeHeap(name, memory) => pool_parts::free_heap(part, plan, frame, name, memory),
        Phase::Purge(cursor, step) => {
            purge_part(part, settings, plan, frame, cursor, step, outcome)
        }
        Phase::Release(step) => release_part(part, plan, frame, step, outcome),
        _ => unreachable!(),
    }
}

// A step of a flush that changes a part: the region of a slot is put back, or the slots of a shard are freed.
#[inline(never)]
fn flush_part<P: Pages, H: GcHeap>(
    part: &mut PoolPart<P, H>,
    plan: &Plan,
    alloc: Global,
    frame: &mut Frame<P, H>,
    outcome: &mut Option<Outcome<P, H>>,
)
    requires can { CanFlushOn plan.now (flush_step frame.old.local frame.old.freed.items) part.old frame.old }
    requires unanswered { outcome.old ≡ None }
    ensures { ◌≡◌ {A = PartAfter (PoolPart P H) P H} (record { part = part.new; frame = frame.new; outcome = outcome.new }) (part_after (flush_on plan.now (flush_step frame.old.local frame.old.freed.items) part.old frame.old)) }
{
    let kind = kind_settled(&frame.local, &frame.freed);
    match frame.local.pop(kind) {
        Some(item) => pool_parts::put_region(part, alloc, frame, item, outcome),
        None => {
            let place = first_shard(plan, &frame.freed);
            pool_parts::free(part, plan, alloc, frame, place, outcome)
        }
    }
}

// A step of a purge that changes a part.
fn purge_part<P: Pages, H: GcHeap>(
    part: &mut PoolPart<P, H>,
    settings: &Settings,
    plan: &Plan,
    frame: &mut Frame<P, H>,
    cursor: PurgeCursor,
    step: PurgeStep<P>,
    outcome: &mut Option<Outcome<P, H>>,
)
    requires can { CanPurgeOn settings.now plan.now cursor step part.old }
    requires unanswered { outcome.old ≡ None }
    ensures { ◌≡◌ {A = PartAfter (PoolPart P H) P H} (record { part = part.new; frame = frame.new; outcome = outcome.new }) (part_after (purge_on settings.now plan.now cursor step part.old frame.old)) }
{
    match step {
        PurgeStep::Pick(tried) => {
            affine::pick_affine(part, settings, plan, frame, cursor, tried, outcome)
        }
        PurgeStep::TakeRegion(name) => affine::take_affine(part, frame, cursor, name),
        PurgeStep::PutRegion(at, held) => affine::put_affine(part, frame, cursor, at.name, held),
        PurgeStep::Free(name) => {
            affine::free_affine(part, settings, plan, frame, cursor, name, outcome)
        }
        PurgeStep::Forget(_, _) => unreachable!(),
    }
}

// A step of a release that changes a part.
fn release_part<P: Pages, H: GcHeap>(
    part: &mut PoolPart<P, H>,
    plan: &Plan,
    frame: &mut Frame<P, H>,
    step: ReleaseStep<P>,
    outcome: &mut Option<Outcome<P, H>>,
)
    requires can { CanReleaseOn plan.now step part.old }
    requires unanswered { outcome.old ≡ None }
    ensures { ◌≡◌ {A = PartAfter (PoolPart P H) P H} (record { part = part.new; frame = frame.new; outcome = outcome.new }) (part_after (release_on plan.now step part.old frame.old)) }
{
    match step {
        ReleaseStep::TakeWarm(cursor, shard) => {
            warm::take_warm(part, plan, frame, cursor, shard, outcome)
        }
        ReleaseStep::TakeRegion(cursor, at) => {
            let name = cursor.slot(at).name;
            warm::take_resident(part, frame, cursor, at, name)
        }
        ReleaseStep::PutRegion(cursor, at, _, held) => {
            warm::put_resident(part, plan, frame, cursor, at, held, outcome)
        }
        ReleaseStep::Free(cursor, slot) => {
            warm::free_taken(part, plan, frame, cursor, slot, outcome)
        }
        ReleaseStep::Reserve | ReleaseStep::Decommit(..) => unreachable!(),
    }
}
