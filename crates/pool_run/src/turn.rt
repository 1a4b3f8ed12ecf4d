ghost use Rattle.std.specs.Prelude.{◌≡◌, ◌+◌, ◌^◌, ◌<◌, ◌≤◌, length, slice_get, None};
ghost use Rattle.pool_pages.specs.MakerTold.{MakerTold};
ghost use Rattle.pool_alloc.specs.Calls.{IsIdle};
ghost use Rattle.pool_alloc.specs.Stepping.{CanStep, CanCount, is_idle};
ghost use Rattle.pool_run.specs.PartyRules.{rule_of};
ghost use Rattle.pool_run.specs.Ties.{CanTurn, IsReserved};
ghost use Rattle.pool_run.specs.Turns.{StepsUnder, Steps, OpensNext, TurnsFrom, Turns};
ghost use Rattle.pool_run.specs.Worlds.{AreFit, NameModules};

use crate::begin::{Begun, begin_next};
use crate::command::Command;
use crate::input::PartyLimits;
use crate::limiter::limiter_of;
use crate::reply::Reply;
use crate::replying::answer;
use crate::running_party::RunningParty;
use crate::slot_lists::SlotLists;
use pool_alloc::{Frame, ModuleCall, Outcome, Phase, PoolCore};
use pool_limits::Unlimited;
use pool_pages::Pages;
use pool_slots::{ListedHeaps, PlainHeap};
use std::alloc::Global;

/// Makes a party's turn: the next step of its call, or the first of its next command, where there is one. Answers the reply to the
/// command that ends with it. A request begins once `slots` has room to list what it grants: for want of memory for it, it is refused.
pub fn turn_of<P: Pages>(
    alloc: Global,
    core: &mut PoolCore<P, PlainHeap>,
    modules: &[ModuleCall],
    commands: &[Command],
    party: &mut RunningParty<P>,
    slots: &mut SlotLists,
    outcome: &mut Option<Outcome<P, PlainHeap>>,
) -> Option<Reply>
    ghost maker: { MakerTold }
    requires can { CanTurn maker core.old party.old }
    requires counts { CanCount core.old }
    requires calls { AreFit core.old.settings modules.now }
    requires named { NameModules (length modules.now) commands.now }
    requires places { length commands.now ≤ length party.old.live }
    requires small { party.old.done + 1 < 2 ^ 64 }
    requires reserved { IsReserved party.old.frame slots.old }
    requires unanswered { outcome.old ≡ None }
    ensures turn { Turns modules.now commands.now core.old party.old (record { core = core.new; party = party.new; reply = result }) }
    ensures reserved { IsReserved party.new.frame slots.new }
    ensures unanswered { outcome.new ≡ None }
{
    if is_idle(&party.frame) {
        begin_turn(alloc, core, modules, commands, party, slots, outcome)
    } else {
        step_call(alloc, core, party, slots, outcome)
    }
}

// Begins the next command, and makes its first step where that is one of a call.
fn begin_turn<P: Pages>(
    alloc: Global,
    core: &mut PoolCore<P, PlainHeap>,
    modules: &[ModuleCall],
    commands: &[Command],
    party: &mut RunningParty<P>,
    slots: &mut SlotLists,
    outcome: &mut Option<Outcome<P, PlainHeap>>,
) -> Option<Reply>
    ghost maker: { MakerTold }
    requires can { CanTurn maker core.old party.old }
    requires counts { CanCount core.old }
    requires calls { AreFit core.old.settings modules.now }
    requires named { NameModules (length modules.now) commands.now }
    requires places { length commands.now ≤ length party.old.live }
    requires small { party.old.done + 1 < 2 ^ 64 }
    requires idle { IsIdle party.old.frame }
    requires reserved { IsReserved party.old.frame slots.old }
    requires unanswered { outcome.old ≡ None }
    ensures turn { TurnsFrom (OpensNext modules.now (slice_get commands.now party.old.done) party.old.keyed party.old) core.old party.old (record { core = core.new; party = party.new; reply = result }) }
    ensures reserved { IsReserved party.new.frame slots.new }
    ensures unanswered { outcome.new ≡ None }
{
    match begin_next(alloc, modules, commands, party, slots) {
        Begun::Rests => None,
        Begun::Replies(reply) => Some(reply),
        Begun::Calls => step_call(alloc, core, party, slots, outcome),
    }
}

// Whether no call is under way.
pub(crate) fn is_idle<P: Pages>(frame: &Frame<P, PlainHeap>) -> bool
    ensures { result ≡ is_idle frame.now.phase }
{
    matches!(&frame.phase, Phase::Idle)
}

// Makes the next step of the call that is under way.
fn step_call<P: Pages>(
    alloc: Global,
    core: &mut PoolCore<P, PlainHeap>,
    party: &mut RunningParty<P>,
    slots: &mut SlotLists,
    outcome: &mut Option<Outcome<P, PlainHeap>>,
) -> Option<Reply>
    ghost maker: { MakerTold }
    requires can { CanTurn maker core.old party.old }
    requires counts { CanCount core.old }
    requires small { party.old.done + 1 < 2 ^ 64 }
    requires reserved { IsReserved party.old.frame slots.old }
    requires unanswered { outcome.old ≡ None }
    ensures steps { Steps core.old party.old (record { core = core.new; party = party.new; reply = result }) }
    ensures reserved { IsReserved party.new.frame slots.new }
    ensures unanswered { outcome.new ≡ None }
{
    let heaps = &mut party.heaps;
    step_under(alloc, core, &mut party.frame, party.limits, heaps, outcome);
    answer(alloc, party, slots, outcome)
}

// A step of a call of a party with these limits and this maker of heaps.
fn step_under<P: Pages>(
    alloc: Global,
    core: &mut PoolCore<P, PlainHeap>,
    frame: &mut Frame<P, PlainHeap>,
    limits: Option<PartyLimits>,
    heaps: &mut ListedHeaps,
    outcome: &mut Option<Outcome<P, PlainHeap>>,
)
    ghost maker: { MakerTold }
    requires can { CanStep maker core.old frame.old }
    requires counts { CanCount core.old }
    requires unanswered { outcome.old ≡ None }
    ensures { StepsUnder (rule_of limits) heaps.old heaps.new core.old frame.old (record { core = core.new; frame = frame.new; outcome = outcome.new }) }
{
    match limits {
        None => {
            let nobody: Option<&mut Unlimited> = None;
            core.step_into(alloc, frame, nobody, heaps, outcome)
        }
        Some(limits) => {
            let mut limiter = limiter_of(limits);
            core.step_into(alloc, frame, Some(&mut limiter), heaps, outcome)
        }
    }
}
