//! A step that counts, made by whoever found the number at the counter.
ghost use Rattle.std.specs.Prelude.{◌≡◌, ◌<◌, ◌^◌, ℕ, true, None, length};
ghost use Rattle.pool_slots.specs.declared.plan.Plan.{Plan};
ghost use Rattle.pool_alloc.specs.CanStep.{CanKeepMemory, CanKeepTable, CanTakeMemory};
ghost use Rattle.pool_alloc.specs.InHand.{holds_object};
ghost use Rattle.pool_alloc.specs.OnCounters.{CanCountObject, CanStepCounted, counted_on, object_on, key_on, instance_on, heap_found, heap_on, component_on};
ghost use Rattle.pool_alloc.specs.Turns.{Left, after, ends, answer_of, left_by, resting};
ghost use Rattle.pool_alloc.specs.declared.pool_core.Settings.{Settings};

use crate::frame::turns::answer_of;
use crate::frame::{Asked, Frame, Grant, Object, Outcome, Phase};
use crate::leases::heap::HeapLease;
use crate::leases::instance::InstanceLease;
use crate::leases::memory::MemoryLease;
use crate::leases::stack::StackLease;
use crate::leases::table::TableLease;
use crate::pool_core::Settings;
use pool_pages::Pages;
use pool_slots::{AllocError, ConcurrencyKind, GcHeap, Plan, PoolConcurrencyLimitError, Stack};
use std::alloc::Global;
use std::mem;

/// Makes the frame's step where it counts. Whoever drives a pool calls it once it has counted up or down at the counter that
/// `next_target` names, with the number that it found there. The step doesn't see the counter, and changes the frame alone: what
/// others count in the meantime doesn't matter to it.
#[inline(never)]
pub fn step_counted<P: Pages, H: GcHeap>(
    found: u64,
    settings: &Settings,
    plan: &Plan,
    alloc: Global,
    frame: &mut Frame<P, H>,
    outcome: &mut Option<Outcome<P, H>>,
)
    requires can { CanStepCounted plan.now frame.old.phase frame.old }
    requires unanswered { outcome.old ≡ None }
    ensures row { ◌≡◌ {A = Left P H} (record { frame = frame.new; outcome = outcome.new }) (left_by (counted_on settings.now plan.now frame.old.phase found (resting frame.old))) }
{
    match frame.phase {
        Phase::Key => {
            frame.rest();
            draw_key(plan, found, frame, outcome)
        }
        Phase::CountInstance => {
            frame.rest();
            count_instance(settings, found, alloc, frame, outcome)
        }
        Phase::UncountInstance => {
            frame.rest();
            end_call(frame, outcome)
        }
        Phase::CountComponent => {
            frame.rest();
            count_component(settings, found, frame, outcome)
        }
        Phase::UncountComponent => {
            frame.rest();
            end_call(frame, outcome)
        }
        _ => step_counted_holding(alloc, frame, outcome),
    }
}

// The same where the step has an object or a heap in hand, which it takes out of the frame. Whatever the number, it goes on alike.
#[inline(never)]
fn step_counted_holding<P: Pages, H: GcHeap>(
    alloc: Global,
    frame: &mut Frame<P, H>,
    outcome: &mut Option<Outcome<P, H>>,
)
    requires can { (plan : Plan) × CanStepCounted plan frame.old.phase frame.old }
    requires holds { holds_object frame.old.phase ≡ true }
    requires unanswered { outcome.old ≡ None }
    ensures { (s : Settings) (plan : Plan) (found : ℕ) → ◌≡◌ {A = Left P H} (record { frame = frame.new; outcome = outcome.new }) (left_by (counted_on s plan frame.old.phase found (resting frame.old))) }
{
    let phase = mem::replace(&mut frame.phase, Phase::Idle);
    match phase {
        Phase::CountObject(object) => count_object(alloc, frame, object, outcome),
        Phase::CountHeap(lease) => count_heap(alloc, frame, lease, outcome),
        Phase::UncountObject(object) => frame.go(Phase::Reset(object)),
        Phase::UncountHeap(lease, memory) => frame.go(Phase::PutHeap(lease, memory)),
        _ => unreachable!(),
    }
}

// Grants an object that is counted.
#[inline(never)]
fn count_object<P: Pages, H: GcHeap>(
    alloc: Global,
    frame: &mut Frame<P, H>,
    object: Object<P>,
    outcome: &mut Option<Outcome<P, H>>,
)
    requires can { CanCountObject object frame.old }
    requires unanswered { outcome.old ≡ None }
    ensures { (found : ℕ) → ◌≡◌ {A = Left P H} (record { frame = frame.new; outcome = outcome.new }) (left_by (object_on object found frame.old)) }
{
    match object {
        Object::Memory(lease) => count_memory(alloc, frame, lease, outcome),
        Object::Table(lease) => count_table(alloc, frame, lease, outcome),
        Object::Stack(lease) => count_stack(frame, lease, outcome),
    }
}

// An instance or a component is counted off, and the call ends with its answer.
#[inline(never)]
fn end_call<P: Pages, H: GcHeap>(frame: &mut Frame<P, H>, outcome: &mut Option<Outcome<P, H>>)
    ensures { ◌≡◌ {A = Left P H} (record { frame = frame.new; outcome = outcome.new }) (after frame.old (ends (answer_of frame.old.ending))) }
{
    frame.end(answer_of(frame.ending), outcome)
}

// Draws a number from the key counter: it gives the party its stripe.
#[inline(never)]
pub(crate) fn draw_key<P: Pages, H: GcHeap>(
    plan: &Plan,
    found: u64,
    frame: &mut Frame<P, H>,
    outcome: &mut Option<Outcome<P, H>>,
)
    requires some { 0 < length plan.now.memories }
    requires few { length plan.now.memories < 2 ^ 32 }
    requires unanswered { outcome.old ≡ None }
    ensures { ◌≡◌ {A = Left P H} (record { frame = frame.new; outcome = outcome.new }) (left_by (key_on plan.now found frame.old)) }
{
    frame.stripe = (found % plan.memories.len() as u64) as u32;
    frame.end(Outcome::Key, outcome)
}

// Goes on with an instance that is counted as the one after so many, or refuses it where there are too many.
#[inline(never)]
pub(crate) fn count_instance<P: Pages, H: GcHeap>(
    settings: &Settings,
    found: u64,
    alloc: Global,
    frame: &mut Frame<P, H>,
    outcome: &mut Option<Outcome<P, H>>,
)
    requires unanswered { outcome.old ≡ None }
    ensures { ◌≡◌ {A = Left P H} (record { frame = frame.new; outcome = outcome.new }) (left_by (instance_on settings.now found frame.old)) }
{
    let limit = settings.max_core_instances;
    if found < limit {
        return frame.next(alloc, outcome);
    }
    frame.fail(AllocError::Limit(PoolConcurrencyLimitError {
        limit: limit as usize,
        kind: ConcurrencyKind::CoreInstances,
    }));
    frame.next(alloc, outcome)
}

// Grants a memory. The search for the next object's slot begins anew, or the memory was asked for by itself.
pub(crate) fn count_memory<P: Pages, H: GcHeap>(
    alloc: Global,
    frame: &mut Frame<P, H>,
    lease: MemoryLease<P>,
    outcome: &mut Option<Outcome<P, H>>,
)
    requires room { CanKeepMemory frame.old.asked frame.old.objects }
    requires unanswered { outcome.old ≡ None }
    ensures { (found : ℕ) → ◌≡◌ {A = Left P H} (record { frame = frame.new; outcome = outcome.new }) (left_by (object_on (Object.Memory lease) found frame.old)) }
{
    match &frame.asked {
        Asked::Memory(_) => frame.end(Outcome::Granted(Grant::Memory(lease)), outcome),
        _ => {
            frame.objects.memories.push(lease);
            frame.queues = 0;
            frame.next(alloc, outcome)
        }
    }
}

pub(crate) fn count_table<P: Pages, H: GcHeap>(
    alloc: Global,
    frame: &mut Frame<P, H>,
    lease: TableLease<P>,
    outcome: &mut Option<Outcome<P, H>>,
)
    requires room { CanKeepTable frame.old.asked frame.old.objects }
    requires unanswered { outcome.old ≡ None }
    ensures { (found : ℕ) → ◌≡◌ {A = Left P H} (record { frame = frame.new; outcome = outcome.new }) (left_by (object_on (Object.Table lease) found frame.old)) }
{
    match &frame.asked {
        Asked::Table(_) => frame.end(Outcome::Granted(Grant::Table(lease)), outcome),
        _ => {
            frame.objects.tables.push(lease);
            frame.queues = 0;
            frame.next(alloc, outcome)
        }
    }
}

// Grants a stack, with which its call ends.
pub(crate) fn count_stack<P: Pages, H: GcHeap>(
    frame: &mut Frame<P, H>,
    lease: StackLease<P>,
    outcome: &mut Option<Outcome<P, H>>,
)
    requires unanswered { outcome.old ≡ None }
    ensures { (found : ℕ) → ◌≡◌ {A = Left P H} (record { frame = frame.new; outcome = outcome.new }) (left_by (object_on (Object.Stack lease) found frame.old)) }
{
    frame.end(Outcome::Granted(Grant::Stack(lease)), outcome)
}

// Grants a heap that is counted, with its memory where that was granted for it.
#[inline(never)]
pub(crate) fn count_heap<P: Pages, H: GcHeap>(
    alloc: Global,
    frame: &mut Frame<P, H>,
    lease: HeapLease<H>,
    outcome: &mut Option<Outcome<P, H>>,
)
    requires memory { CanTakeMemory frame.old.asked frame.old.objects }
    requires unanswered { outcome.old ≡ None }
    ensures { (found : ℕ) → ◌≡◌ {A = Left P H} (record { frame = frame.new; outcome = outcome.new }) (left_by (heap_on lease found frame.old)) }
{
    match &frame.asked {
        Asked::HeapOver(_) => frame.end(Outcome::Granted(Grant::HeapOver(lease)), outcome),
        _ => grant_heap(alloc, frame, lease, outcome),
    }
}

// Grants it with the memory that was granted for it.
fn grant_heap<P: Pages, H: GcHeap>(
    alloc: Global,
    frame: &mut Frame<P, H>,
    lease: HeapLease<H>,
    outcome: &mut Option<Outcome<P, H>>,
)
    requires memory { 0 < length frame.old.objects.memories.items }
    requires unanswered { outcome.old ≡ None }
    ensures { (found : ℕ) → ◌≡◌ {A = Left P H} (record { frame = frame.new; outcome = outcome.new }) (left_by (heap_found frame.old.objects.memories.items lease found frame.old)) }
{
    let memory = frame.objects.memories.remove_first();
    frame.objects = InstanceLease::none(alloc);
    frame.end(Outcome::Granted(Grant::Heap(lease, memory)), outcome)
}

// Grants a component that is counted as the one after so many, or refuses it where there are too many.
#[inline(never)]
pub(crate) fn count_component<P: Pages, H: GcHeap>(
    settings: &Settings,
    found: u64,
    frame: &mut Frame<P, H>,
    outcome: &mut Option<Outcome<P, H>>,
)
    requires unanswered { outcome.old ≡ None }
    ensures { ◌≡◌ {A = Left P H} (record { frame = frame.new; outcome = outcome.new }) (left_by (component_on settings.now found frame.old)) }
{
    let limit = settings.max_component_instances;
    if found < limit {
        return frame.end(Outcome::Granted(Grant::Component), outcome);
    }
    frame.fail(AllocError::Limit(PoolConcurrencyLimitError {
        limit: limit as usize,
        kind: ConcurrencyKind::ComponentInstances,
    }));
    frame.go(Phase::UncountComponent)
}
