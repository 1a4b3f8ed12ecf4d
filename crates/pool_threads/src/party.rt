//! One party's commands, over a pool that others use at the same time.
ghost use Rattle.std.specs.Prelude.{◌≡◌, ℕ, ◌+◌, ◌-◌, ◌^◌, ◌<◌, ◌≤◌, ◌∷◌, ◌++◌, List, [], length, slice_get, not, is_some, false, true, IfOk, OnErr, None, vec_capacity};
ghost use Rattle.pool_hall.specs.Seat.{made_with, view, IsSeatOf, IsFree};
ghost use Rattle.pool_alloc.specs.CallStages.{stage_of};
ghost use Rattle.pool_alloc.specs.Calls.{IsIdle};
ghost use Rattle.pool_callers.specs.Callers.{about_shared};
ghost use Rattle.pool_driver.specs.Calling.{GoesOnSince};
ghost use Rattle.pool_driver.specs.Driving.{IsDriven, Given, alone_of};
ghost use Rattle.pool_driver.specs.Pools.{IsSharedOf};
ghost use Rattle.pool_run.specs.PartyRules.{host_for, rule_of};
ghost use Rattle.pool_run.specs.Rooms.{IsPooledRun, in_stripe, under};
ghost use Rattle.pool_run.specs.RunsMade.{is_drawing, party_made_for};
ghost use Rattle.pool_run.specs.Ties.{IsReserved};
ghost use Rattle.pool_run.specs.Turns.{host_of_party, with_reply};
ghost use Rattle.pool_run.specs.Validity.{is_valid};
ghost use Rattle.pool_run.specs.Worlds.{AreCallsFor, NameModules};
ghost use Rattle.pool_run.specs.declared.command.Command.{Command};
ghost use Rattle.pool_run.specs.declared.reply.Reply.{Reply};
ghost use Rattle.pool_threads.specs.Asked.{asked, asked_at, at_next, faulted, faulted_by, faulted_in, refused, refused_by, refused_in};
ghost use Rattle.pool_threads.specs.GrowthFaults.{AreGrowthsPlanned};
ghost use Rattle.pool_threads.specs.Noted.{Notes, call_asks};
ghost use Rattle.pool_threads.specs.Sharing.{IsGround, NotesOf, job_of, party_in, party_world};
ghost use Rattle.pool_threads.specs.Working.{Job, IsJob, IsAtWork, IsToldSoFar, CallOf, NamesLive, StandsSomewhere, StaysSame, StepsHere, TellsOn, about_job, given_by};

use crate::gate::Gate;
use pool_alloc::{Frame, ModuleCall, Outcome};
use pool_driver::{PoolHall, PoolSeat, SharedPool};
use pool_limits::Unlimited;
use pool_pages::{PageMaker, Pages};
use pool_run::{
    Begun, Command, Input, Party, PartyLimits, Reply, ReplyList, RunningParty, SlotLists, answer,
    begin_next, limiter_of,
};
use pool_slots::{ListedHeaps, PlainHeap};
use pool_types::PlainList;
use std::alloc::{AllocError, Global};
use std::sync::Wait;

// A step of a call of a party with these limits and this maker of heaps.
fn step_under<P: Pages, M: PageMaker, R: Wait>(
    rt: &R,
    alloc: Global,
    pool: &SharedPool<PoolHall<P, PlainHeap, M>>,
    seat: &mut PoolSeat<P, PlainHeap, M>,
    frame: &mut Frame<P, PlainHeap>,
    limits: Option<PartyLimits>,
    heaps: &mut ListedHeaps,
    outcome: &mut Option<Outcome<P, PlainHeap>>,
)
    ghost given: { Given }
    requires pool { IsSharedOf M.told given.about pool.now }
    requires own { IsSeatOf pool.now.hall seat.old }
    requires free { IsFree seat.old }
    requires driven { IsDriven (length (made_with pool.now.hall)) given (view seat.old) frame.old None }
    requires unanswered { outcome.old ≡ None }
    requires somewhere { StandsSomewhere given frame.old }
    ensures own { IsSeatOf pool.now.hall seat.new }
    ensures free { IsFree seat.new }
    ensures driven { IsDriven (length (made_with pool.now.hall)) given (view seat.new) frame.new outcome.new }
    ensures steps { StepsHere given (rule_of limits) heaps.old heaps.new frame.old frame.new outcome.new }
    ensures tells { TellsOn given.about (view seat.old) (view seat.new) frame.old frame.new outcome.new }
{
    match limits {
        None => pool.step(rt, seat, alloc, frame, &mut Unlimited, heaps, outcome),
        Some(limits) => {
            let mut limiter = limiter_of(limits);
            pool.step(rt, seat, alloc, frame, &mut limiter, heaps, outcome)
        }
    }
}

// Makes the call that is under way, step by step, and replies to the command that ends with it. The call for the stripe is replied to by
// nothing.
fn run_call<P: Pages, M: PageMaker, R: Wait>(
    rt: &R,
    alloc: Global,
    pool: &SharedPool<PoolHall<P, PlainHeap, M>>,
    seat: &mut PoolSeat<P, PlainHeap, M>,
    party: &mut RunningParty<P>,
    slots: &mut SlotLists,
) -> Option<Reply>
    ghost of: { CallOf }
    requires pool { IsSharedOf M.told of.given.about pool.now }
    requires job { IsJob P of.job }
    requires own { IsSeatOf pool.now.hall seat.old }
    requires free { IsFree seat.old }
    requires work { IsAtWork of.job (length (made_with pool.now.hall)) (view seat.old) party.old }
    requires given { of.given ≡ given_by of.job party.old.live }
    requires keyed { is_drawing (stage_of party.old.frame) ≡ not party.old.keyed }
    requires begun { GoesOnSince (about_job of.job) (view seat.old) (view seat.old) party.old.frame party.old.frame }
    requires small { party.old.done + 1 < 2 ^ 64 }
    requires reserved { IsReserved party.old.frame slots.old }
    ensures own { IsSeatOf pool.now.hall seat.new }
    ensures free { IsFree seat.new }
    ensures work { IsAtWork of.job (length (made_with pool.now.hall)) (view seat.new) party.new }
    ensures told { (commands : List Command) (before : List Reply) → IsToldSoFar of.job commands before party.old → IsToldSoFar of.job commands (with_reply result before) party.new }
    ensures idle { IsIdle party.new.frame }
    ensures keyed { party.new.keyed ≡ true }
    ensures replied { is_some result ≡ party.old.keyed }
    ensures stays { StaysSame party.old party.new }
    ensures home { party.new.frame.home ≡ party.old.frame.home }
    ensures notes { Notes of.job.plan party.old.frame.home party.new.frame.stripe (λ k. call_asks party.old.frame k - refused_in k result) (λ k. refused_in k result) (faulted_in result) (view seat.old) (view seat.new) }
    ensures reserved { IsReserved party.new.frame slots.new }
{
    let mut outcome = None;
    for _ in rt.forever() {
        step_under(
            rt,
            alloc,
            pool,
            seat,
            &mut party.frame,
            party.limits,
            &mut party.heaps,
            &mut outcome,
        );
        if outcome.is_some() {
            return answer(alloc, party, slots, &mut outcome);
        }
    }
    unreachable!()
}

// The call for the party's stripe, before its first command.
fn draw_stripe<P: Pages, M: PageMaker, R: Wait>(
    rt: &R,
    alloc: Global,
    pool: &SharedPool<PoolHall<P, PlainHeap, M>>,
    seat: &mut PoolSeat<P, PlainHeap, M>,
    modules: &[ModuleCall],
    commands: &[Command],
    party: &mut RunningParty<P>,
    slots: &mut SlotLists,
)
    ghost job: { Job }
    requires pool { IsSharedOf M.told (about_job job) pool.now }
    requires job { IsJob P job }
    requires calls { AreCallsFor job.world.terms job.settings modules.now }
    requires named { NameModules (length modules.now) commands.now }
    requires own { IsSeatOf pool.now.hall seat.old }
    requires free { IsFree seat.old }
    requires work { IsAtWork job (length (made_with pool.now.hall)) (view seat.old) party.old }
    requires told { IsToldSoFar job commands.now [] party.old }
    requires idle { IsIdle party.old.frame }
    requires undrawn { party.old.keyed ≡ false }
    requires next { party.old.done < length commands.now }
    requires small { party.old.done + 1 < 2 ^ 64 }
    requires reserved { IsReserved party.old.frame slots.old }
    ensures own { IsSeatOf pool.now.hall seat.new }
    ensures free { IsFree seat.new }
    ensures work { IsAtWork job (length (made_with pool.now.hall)) (view seat.new) party.new }
    ensures told { IsToldSoFar job commands.now [] party.new }
    ensures idle { IsIdle party.new.frame }
    ensures keyed { party.new.keyed ≡ true }
    ensures host { host_of_party party.new ≡ host_of_party party.old }
    ensures home { party.new.frame.home ≡ party.old.frame.home }
    ensures notes { Notes job.plan party.old.frame.home party.new.frame.stripe (λ k. 0) (λ k. 0) 0 (view seat.old) (view seat.new) }
    ensures reserved { IsReserved party.new.frame slots.new }
{
    match begin_next(alloc, modules, commands, party, slots) {
        Begun::Rests => unreachable!(),
        Begun::Replies(_) => unreachable!(),
        Begun::Calls => {
            run_call(rt, alloc, pool, seat, party, slots);
        }
    }
}

// The party draws its stripe, if it has a command.
fn start<P: Pages, M: PageMaker, R: Wait>(
    rt: &R,
    alloc: Global,
    pool: &SharedPool<PoolHall<P, PlainHeap, M>>,
    seat: &mut PoolSeat<P, PlainHeap, M>,
    modules: &[ModuleCall],
    commands: &[Command],
    party: &mut RunningParty<P>,
    slots: &mut SlotLists,
)
    ghost job: { Job }
    requires pool { IsSharedOf M.told (about_job job) pool.now }
    requires job { IsJob P job }
    requires calls { AreCallsFor job.world.terms job.settings modules.now }
    requires named { NameModules (length modules.now) commands.now }
    requires few { length commands.now < 2 ^ 32 }
    requires own { IsSeatOf pool.now.hall seat.old }
    requires free { IsFree seat.old }
    requires work { IsAtWork job (length (made_with pool.now.hall)) (view seat.old) party.old }
    requires told { IsToldSoFar job commands.now [] party.old }
    requires idle { IsIdle party.old.frame }
    requires undrawn { party.old.keyed ≡ false }
    requires reserved { IsReserved party.old.frame slots.old }
    ensures own { IsSeatOf pool.now.hall seat.new }
    ensures free { IsFree seat.new }
    ensures work { IsAtWork job (length (made_with pool.now.hall)) (view seat.new) party.new }
    ensures told { IsToldSoFar job commands.now [] party.new }
    ensures idle { IsIdle party.new.frame }
    ensures drawn { 0 < length commands.now → party.new.keyed ≡ true }
    ensures host { host_of_party party.new ≡ host_of_party party.old }
    ensures home { party.new.frame.home ≡ party.old.frame.home }
    ensures notes { Notes job.plan party.old.frame.home party.new.frame.stripe (λ k. 0) (λ k. 0) 0 (view seat.old) (view seat.new) }
    ensures reserved { IsReserved party.new.frame slots.new }
{
    if commands.is_empty() {
        return;
    }
    draw_stripe(rt, alloc, pool, seat, modules, commands, party, slots);
}

// Makes the party's next command, whatever it needs of the pool.
fn run_command<P: Pages, M: PageMaker, R: Wait>(
    rt: &R,
    alloc: Global,
    pool: &SharedPool<PoolHall<P, PlainHeap, M>>,
    seat: &mut PoolSeat<P, PlainHeap, M>,
    modules: &[ModuleCall],
    commands: &[Command],
    party: &mut RunningParty<P>,
    slots: &mut SlotLists,
) -> Reply
    ghost job: { Job }
    requires pool { IsSharedOf M.told (about_job job) pool.now }
    requires job { IsJob P job }
    requires calls { AreCallsFor job.world.terms job.settings modules.now }
    requires named { NameModules (length modules.now) commands.now }
    requires own { IsSeatOf pool.now.hall seat.old }
    requires free { IsFree seat.old }
    requires work { IsAtWork job (length (made_with pool.now.hall)) (view seat.old) party.old }
    requires room { length party.old.live ≡ length commands.now }
    requires idle { IsIdle party.old.frame }
    requires keyed { party.old.keyed ≡ true }
    requires next { party.old.done < length commands.now }
    requires small { party.old.done + 1 < 2 ^ 64 }
    requires reserved { IsReserved party.old.frame slots.old }
    ensures own { IsSeatOf pool.now.hall seat.new }
    ensures free { IsFree seat.new }
    ensures work { IsAtWork job (length (made_with pool.now.hall)) (view seat.new) party.new }
    ensures told { (before : List Reply) → IsToldSoFar job commands.now before party.old → IsToldSoFar job commands.now (before ++ result ∷ []) party.new }
    ensures idle { IsIdle party.new.frame }
    ensures keyed { party.new.keyed ≡ true }
    ensures stays { StaysSame party.old party.new }
    ensures home { party.new.frame.home ≡ party.old.frame.home }
    ensures notes { Notes job.plan party.old.frame.home party.new.frame.stripe (λ k. at_next (asked_at k modules.now) (slice_get commands.now party.old.done) result) (λ k. at_next (refused_by k) (slice_get commands.now party.old.done) result) (at_next faulted_by (slice_get commands.now party.old.done) result) (view seat.old) (view seat.new) }
    ensures reserved { IsReserved party.new.frame slots.new }
{
    match begin_next(alloc, modules, commands, party, slots) {
        Begun::Rests => unreachable!(),
        Begun::Replies(reply) => reply,
        Begun::Calls => match run_call(rt, alloc, pool, seat, party, slots) {
            None => unreachable!(),
            Some(reply) => reply,
        },
    }
}

// Makes all commands of a party that has drawn its stripe, where it has any.
fn perform<P: Pages, M: PageMaker, R: Wait, G: Gate>(
    rt: &R,
    alloc: Global,
    pool: &SharedPool<PoolHall<P, PlainHeap, M>>,
    seat: &mut PoolSeat<P, PlainHeap, M>,
    modules: &[ModuleCall],
    commands: &[Command],
    party: &mut RunningParty<P>,
    slots: &mut SlotLists,
    replies: &mut Vec<Reply>,
    number: u32,
    gate: &G,
)
    ghost job: { Job }
    requires pool { IsSharedOf M.told (about_job job) pool.now }
    requires job { IsJob P job }
    requires calls { AreCallsFor job.world.terms job.settings modules.now }
    requires named { NameModules (length modules.now) commands.now }
    requires few { length commands.now < 2 ^ 32 }
    requires own { IsSeatOf pool.now.hall seat.old }
    requires free { IsFree seat.old }
    requires work { IsAtWork job (length (made_with pool.now.hall)) (view seat.old) party.old }
    requires told { IsToldSoFar job commands.now [] party.old }
    requires idle { IsIdle party.old.frame }
    requires drawn { 0 < length commands.now → party.old.keyed ≡ true }
    requires reserved { IsReserved party.old.frame slots.old }
    requires empty { replies.old.items ≡ [] }
    requires room { length commands.now ≤ vec_capacity replies.old }
    ensures own { IsSeatOf pool.now.hall seat.new }
    ensures free { IsFree seat.new }
    ensures work { IsAtWork job (length (made_with pool.now.hall)) (view seat.new) party.new }
    ensures told { IsToldSoFar job commands.now replies.new.items party.new }
    ensures all { length replies.new.items ≡ length commands.now }
    ensures idle { IsIdle party.new.frame }
    ensures host { host_of_party party.new ≡ host_of_party party.old }
    ensures stripe { party.new.frame.stripe ≡ party.old.frame.stripe }
    ensures notes { Notes job.plan party.old.frame.home party.old.frame.stripe (λ k. asked k modules.now commands.now replies.new.items) (λ k. refused k commands.now replies.new.items) (faulted commands.now replies.new.items) (view seat.old) (view seat.new) }
{
    let count = commands.len();
    for at in 0..count {
        gate.before(number, at as u32);
        let reply = run_command(rt, alloc, pool, seat, modules, commands, party, slots);
        gate.after(number, at as u32);
        replies.push_reserved(reply);
    }
}

// `run_party`, of the party that is given.
fn run_given<P: Pages, M: PageMaker, R: Wait, G: Gate>(
    rt: &R,
    alloc: Global,
    pool: &SharedPool<PoolHall<P, PlainHeap, M>>,
    seat: &mut PoolSeat<P, PlainHeap, M>,
    modules: &[ModuleCall],
    given: &Party,
    party: &mut RunningParty<P>,
    number: u32,
    gate: &G,
) -> Result<ReplyList, AllocError>
    ghost job: { Job }
    requires pool { IsSharedOf M.told (about_job job) pool.now }
    requires job { IsJob P job }
    requires calls { AreCallsFor job.world.terms job.settings modules.now }
    requires named { NameModules (length modules.now) given.now.commands }
    requires few { length given.now.commands < 2 ^ 32 }
    requires own { IsSeatOf pool.now.hall seat.old }
    requires free { IsFree seat.old }
    requires made { party.old ≡ party_made_for job.settings given.now }
    requires nothing { IsDriven (length (made_with pool.now.hall)) (alone_of (about_job job)) (view seat.old) party.old.frame None }
    ensures own { IsSeatOf pool.now.hall seat.new }
    ensures free { IsFree seat.new }
    ensures told { IfOk result (λ replies. IsPooledRun (in_stripe party.new.frame.stripe (under (host_for given.now) job.world)) given.now.commands replies) }
    ensures all { IfOk result (λ replies. length replies ≡ length given.now.commands) }
    ensures named { IfOk result (λ replies. NamesLive replies party.new.live) }
    ensures growths { IfOk result (λ replies. AreGrowthsPlanned (in_stripe party.new.frame.stripe (under (host_for given.now) job.world)) given.now.commands replies) }
    ensures notes { IfOk result (λ replies. Notes job.plan given.now.home party.new.frame.stripe (λ k. asked k modules.now given.now.commands replies) (λ k. refused k given.now.commands replies) (faulted given.now.commands replies) (view seat.old) (view seat.new)) }
    ensures work { IfOk result (λ _. IsAtWork job (length (made_with pool.now.hall)) (view seat.new) party.new) }
    ensures idle { IfOk result (λ _. IsIdle party.new.frame) }
    ensures seat { OnErr result (seat.new ≡ seat.old) }
    ensures same { OnErr result (party.new ≡ party.old) }
{
    let commands = given.commands.as_slice();
    let count = commands.len();
    let mut replies = Vec::with_capacity(alloc, count)?;
    let mut slots = SlotLists::none(alloc);
    start(rt, alloc, pool, seat, modules, commands, party, &mut slots);
    perform(
        rt,
        alloc,
        pool,
        seat,
        modules,
        commands,
        party,
        &mut slots,
        &mut replies,
        number,
        gate,
    );
    Ok(PlainList::from_vec(replies))
}

/// The party with this number.
pub fn party_at(input: &Input, party: usize) -> &Party
    requires { party < length input.now.parties }
    ensures { result.now ≡ party_in input.now party }
{
    &input.parties.as_slice()[party]
}

// `run_party`, of a job that is known.
fn run_numbered<P: Pages, M: PageMaker, R: Wait, G: Gate>(
    rt: &R,
    alloc: Global,
    pool: &SharedPool<PoolHall<P, PlainHeap, M>>,
    seat: &mut PoolSeat<P, PlainHeap, M>,
    input: &Input,
    modules: &[ModuleCall],
    number: usize,
    party: &mut RunningParty<P>,
    gate: &G,
) -> Result<ReplyList, AllocError>
    ghost job: { Job }
    requires pool { IsSharedOf M.told (about_job job) pool.now }
    requires job { IsJob P job }
    requires calls { AreCallsFor job.world.terms job.settings modules.now }
    requires valid { is_valid input.now ≡ true }
    requires count { length modules.now ≡ length input.now.modules }
    requires inside { number < length input.now.parties }
    requires own { IsSeatOf pool.now.hall seat.old }
    requires free { IsFree seat.old }
    requires made { party.old ≡ party_made_for job.settings (party_in input.now number) }
    requires nothing { IsDriven (length (made_with pool.now.hall)) (alone_of (about_job job)) (view seat.old) party.old.frame None }
    ensures own { IsSeatOf pool.now.hall seat.new }
    ensures free { IsFree seat.new }
    ensures told { IfOk result (λ replies. IsPooledRun (party_world job (party_in input.now number) party.new.frame.stripe) (party_in input.now number).commands replies) }
    ensures all { IfOk result (λ replies. length replies ≡ length (party_in input.now number).commands) }
    ensures named { IfOk result (λ replies. NamesLive replies party.new.live) }
    ensures growths { IfOk result (λ replies. AreGrowthsPlanned (party_world job (party_in input.now number) party.new.frame.stripe) (party_in input.now number).commands replies) }
    ensures notes { IfOk result (λ replies. NotesOf job.plan modules.now (party_in input.now number) party.new.frame.stripe replies (view seat.old) (view seat.new)) }
    ensures work { IfOk result (λ _. IsAtWork job (length (made_with pool.now.hall)) (view seat.new) party.new) }
    ensures idle { IfOk result (λ _. IsIdle party.new.frame) }
    ensures seat { OnErr result (seat.new ≡ seat.old) }
    ensures same { OnErr result (party.new ≡ party.old) }
{
    let given = party_at(input, number);
    run_given(
        rt,
        alloc,
        pool,
        seat,
        modules,
        given,
        party,
        number as u32,
        gate,
    )
}

/// Makes all commands of a party of the input, one after the other, over a pool that others use at the same time. The running party is as
/// it is made, and its seat has nothing; afterwards the seat has what the party's live grants are of. It may wait for others, each time
/// while they hold one part of the pool. Takes memory for the replies first: for want of it nothing is done. The gate is told before and
/// after each command.
pub fn run_party<P: Pages, M: PageMaker, R: Wait, G: Gate>(
    rt: &R,
    alloc: Global,
    pool: &SharedPool<PoolHall<P, PlainHeap, M>>,
    seat: &mut PoolSeat<P, PlainHeap, M>,
    input: &Input,
    modules: &[ModuleCall],
    party: usize,
    running: &mut RunningParty<P>,
    gate: &G,
) -> Result<ReplyList, AllocError>
    requires ground { IsGround M.told input.now modules.now pool.now }
    requires party { party < length input.now.parties }
    requires own { IsSeatOf pool.now.hall seat.old }
    requires free { IsFree seat.old }
    requires made { running.old ≡ party_made_for pool.now.settings (party_in input.now party) }
    requires nothing { IsDriven (length (made_with pool.now.hall)) (alone_of (about_shared M.told pool.now)) (view seat.old) running.old.frame None }
    ensures own { IsSeatOf pool.now.hall seat.new }
    ensures free { IsFree seat.new }
    ensures told { IfOk result (λ replies. IsPooledRun (party_world (job_of M.told input.now pool.now) (party_in input.now party) running.new.frame.stripe) (party_in input.now party).commands replies) }
    ensures all { IfOk result (λ replies. length replies ≡ length (party_in input.now party).commands) }
    ensures named { IfOk result (λ replies. NamesLive replies running.new.live) }
    ensures growths { IfOk result (λ replies. AreGrowthsPlanned (party_world (job_of M.told input.now pool.now) (party_in input.now party) running.new.frame.stripe) (party_in input.now party).commands replies) }
    ensures notes { IfOk result (λ replies. NotesOf pool.now.plan modules.now (party_in input.now party) running.new.frame.stripe replies (view seat.old) (view seat.new)) }
    ensures work { IfOk result (λ _. IsAtWork (job_of M.told input.now pool.now) (length (made_with pool.now.hall)) (view seat.new) running.new) }
    ensures idle { IfOk result (λ _. IsIdle running.new.frame) }
    ensures seat { OnErr result (seat.new ≡ seat.old) }
    ensures same { OnErr result (running.new ≡ running.old) }
{
    run_numbered(rt, alloc, pool, seat, input, modules, party, running, gate)
}
