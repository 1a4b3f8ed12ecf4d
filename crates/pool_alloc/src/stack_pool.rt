//! The pool of stacks: a stack is tested for, made in its region, and reset.
ghost use Rattle.std.specs.Prelude.{◌≡◌, ◌≤◌, ◌^◌, None};
ghost use Rattle.pool_slots.specs.PlainSlots.{IsPlain};
ghost use Rattle.pool_slots.specs.SlotQueues.{plain_slot};
ghost use Rattle.pool_alloc.specs.PoolStacks.{stack_made, stack_reset};
ghost use Rattle.pool_alloc.specs.StackLeases.{stack_slot};
ghost use Rattle.pool_alloc.specs.StepReads.{under};
ghost use Rattle.pool_alloc.specs.StepTable.{test_stack_row};
ghost use Rattle.pool_alloc.specs.TableSteps.{CanQueue};
ghost use Rattle.pool_alloc.specs.Turns.{After, stepped};
ghost use Rattle.pool_alloc.specs.declared.pool_core.PoolCore.{PoolCore};

use crate::frame::{Frame, Outcome, Phase, TakenSlot};
use crate::leases::instance::InstanceLease;
use crate::leases::stack::StackLease;
use crate::pool_core::Settings;
use crate::validate::refuse_at_once;
use pool_images::Ranges;
use pool_pages::{PageRegion, Pages};
use pool_slots::{AllocError, DecommitQueue, GcHeap, QueueKind, Stack};
use pool_types::HostAlignedByteCount;
use std::alloc::Global;

// Tests whether stacks are enabled.
#[inline(never)]
pub(crate) fn test_stack<P: Pages, H: GcHeap>(
    settings: &Settings,
    alloc: Global,
    frame: &mut Frame<P, H>,
    outcome: &mut Option<Outcome<P, H>>,
)
    requires unanswered { outcome.old ≡ None }
    ensures { (c : PoolCore P H) → ◌≡◌ {A = After P H} (record { core = under settings.now c.plan c; frame = frame.new; outcome = outcome.new }) (stepped (test_stack_row (under settings.now c.plan c) frame.old)) }
{
    if settings.stack_size == 0 {
        return refuse_at_once(frame, AllocError::StacksDisabled, outcome);
    }
    frame.objects = InstanceLease::none(alloc);
    frame.go(Phase::Pick(0))
}

// The stack in the region of a slot, whose first page is the guard.
pub(crate) fn stack_made<P: Pages>(
    settings: &Settings,
    at: TakenSlot,
    region: PageRegion<P>,
) -> StackLease<P>
    requires { IsPlain (plain_slot settings.now.page region) }
    ensures { result ≡ stack_made settings.now at region }
{
    let guard = HostAlignedByteCount::new_unchecked(settings.page, settings.page.get());
    StackLease {
        stack: Stack::new(
            at.name.slot,
            region.into_pages(),
            guard,
            settings.stack_zeroing,
        ),
        numbers: at.numbers,
    }
}

// Resets a stack into a queue.
pub(crate) fn reset_stack<P: Pages>(
    keep_resident: HostAlignedByteCount,
    lease: StackLease<P>,
    local: &mut DecommitQueue<P>,
)
    requires page { keep_resident.page ≡ lease.stack.slot.region.page }
    requires few { lease.stack.slot.static_size ≤ 2 ^ 32 }
    requires room { CanQueue (stack_slot lease.stack.index) local.old }
    ensures { local.new ≡ stack_reset keep_resident.bytes lease local.old }
{
    let mut stack = lease.stack;
    let mut ranges = Ranges::new();
    let kept = stack.zero(keep_resident, &mut ranges);
    let _len = stack.len();
    let item = stack.into_queued(kept, lease.numbers);
    local.push_reset(QueueKind::Stack, item, ranges.as_slice());
}
