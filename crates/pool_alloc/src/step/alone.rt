//! A step that changes no part and counts nothing.
ghost use Rattle.std.specs.Prelude.{◌≡◌, false, true, None};
ghost use Rattle.pool_limits.specs.Exchanges.{Exchanged};
ghost use Rattle.pool_slots.specs.HeapsTold.{HeapsTold};
ghost use Rattle.pool_alloc.specs.InHand.{holds_region};
ghost use Rattle.pool_alloc.specs.Stepping.{makes_heap};
ghost use Rattle.pool_alloc.specs.StepsAlone.{CanStepAlone, StepsAlone};

use crate::decommit_queue::flush_alone;
use crate::frame::{Frame, Outcome, Phase};
use crate::gc_heap_pool::{make_heap, test_heap};
use crate::memory_pool::instantiate::{empty, instantiate};
use crate::memory_pool::make::make_memory;
use crate::pool_core::Settings;
use crate::purge::steps::purge_alone;
use crate::release::steps::release_alone;
use crate::reset::reset;
use crate::stack_pool::test_stack;
use crate::table_pool::make_table;
use crate::validate::{test_component, validate};
use pool_limits::ResourceLimiter;
use pool_pages::Pages;
use pool_slots::{GcHeap, HeapMaker, Plan};
use std::alloc::Global;
use std::mem;

/// Makes the frame's step where it changes no part and counts nothing. Whoever drives a pool calls it where `next_target` says
/// so, and needs nothing of the pool for it: the page calls on what the frame has in hand are made here, and the limiter and the
/// maker of heaps are asked.
// A phase that holds nothing is read where it lies. Neither this nor the step of a phase is inlined: what a step has in hand lies
// in the frame of its own function, and no other step prepares room for it.
#[inline(never)]
pub fn step_alone<P: Pages, H: GcHeap, L: ResourceLimiter, K: HeapMaker<Heap = H>>(
    settings: &Settings,
    plan: &Plan,
    alloc: Global,
    frame: &mut Frame<P, H>,
    limiter: &mut L,
    heaps: &mut K,
    outcome: &mut Option<Outcome<P, H>>,
)
    requires can { CanStepAlone settings.now plan.now frame.old.phase frame.old }
    requires unanswered { outcome.old ≡ None }
    ensures row { StepsAlone (λ passed. Exchanged L.leads passed limiter.old limiter.new) (record { limiter = L.told limiter.old; heaps = K.told heaps.old }) (record { limiter = L.told limiter.new; heaps = K.told heaps.new }) settings.now plan.now frame.old frame.new outcome.new }
    ensures heaps { makes_heap frame.old.phase ≡ false → heaps.new ≡ heaps.old }
{
    match frame.phase {
        Phase::Idle => {}
        Phase::Validate => {
            frame.rest();
            validate(settings, plan, alloc, frame, outcome)
        }
        Phase::TestStack => {
            frame.rest();
            test_stack(settings, alloc, frame, outcome)
        }
        Phase::TestHeap => {
            frame.rest();
            test_heap(settings, alloc, frame, outcome)
        }
        Phase::MakeHeap(at) => {
            frame.rest();
            make_heap(alloc, frame, at, heaps)
        }
        Phase::Flush => {
            frame.rest();
            flush_alone(alloc, frame, outcome)
        }
        Phase::ValidateComponent(info) => {
            frame.rest();
            test_component(settings, frame, &info, outcome)
        }
        _ => step_alone_holding(settings, plan, alloc, frame, limiter, outcome),
    }
}

// The same where the step has a region, an object or a cursor in hand, which it takes out of the frame.
#[inline(never)]
fn step_alone_holding<P: Pages, H: GcHeap, L: ResourceLimiter>(
    settings: &Settings,
    plan: &Plan,
    alloc: Global,
    frame: &mut Frame<P, H>,
    limiter: &mut L,
    outcome: &mut Option<Outcome<P, H>>,
)
    requires can { CanStepAlone settings.now plan.now frame.old.phase frame.old }
    requires holds { holds_region frame.old.phase ≡ true }
    requires unanswered { outcome.old ≡ None }
    ensures { (heaps : HeapsTold) → StepsAlone (λ passed. Exchanged L.leads passed limiter.old limiter.new) (record { limiter = L.told limiter.old; heaps = heaps }) (record { limiter = L.told limiter.new; heaps = heaps }) settings.now plan.now frame.old frame.new outcome.new }
{
    let phase = mem::replace(&mut frame.phase, Phase::Idle);
    match phase {
        Phase::Empty(at, held) => empty(frame, at, held),
        Phase::Instantiate(at, held) => instantiate(settings, frame, at, held),
        Phase::MakeMemory(at, held) => make_memory(settings, frame, at, held, limiter),
        Phase::MakeTable(at, region) => make_table(settings, frame, at, region, limiter),
        Phase::Reset(object) => reset(settings, alloc, frame, object, outcome),
        Phase::Purge(cursor, step) => purge_alone(frame, cursor, step, outcome),
        Phase::Release(step) => release_alone(settings, plan, alloc, frame, step, outcome),
        _ => unreachable!(),
    }
}
