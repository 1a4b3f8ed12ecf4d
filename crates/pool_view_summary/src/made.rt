//! What is known of a step that was made.
ghost use Rattle.std.specs.Prelude.{◌≡◌, ◌<◌, length, option_map, slice_get, IfSome};
ghost use Rattle.pool_alloc.specs.StepBounds.{PoolSizes, sizes_of};
ghost use Rattle.pool_run.specs.Bounds.{bounds_on, command_bound};
ghost use Rattle.pool_view_summary.specs.Made.{calls_made, calls_since, commands_at, frees, keeps_resident, kind_if, made_by, made_from, nth_queue, queue_of, resident_if, resident_of, steps_if, turn_number};

use crate::seen::{Doing, Seen, calls_at};
use pool_alloc::{PoolCore, Settings};
use pool_index::SlotKind;
use pool_pages::{PageCalls, Pages};
use pool_run::{Command, Input, Reply, Run, RunningParty, StepBounds};
use pool_slots::{PlainHeap, Plan};
use pool_view_steps::{CommandKind, command_of, kind_of};

/// A step that a party made, as far as it is counted.
#[derive(Clone, Copy)]
pub struct Made {
    pub party: usize,
    /// What the step was to do, and what the next one is to do.
    pub before: Doing,
    pub after: Doing,
    /// The page calls of the step.
    pub calls: PageCalls,
    /// Of what kind its command is, if there is one.
    pub kind: Option<CommandKind>,
    /// How many steps the call made, where its command ended with this one.
    pub steps: Option<u64>,
    /// How many steps the command makes at most, where that is known.
    pub bound: Option<u64>,
    /// The queue of the step, where it has to do with one.
    pub queue: u32,
    /// How many bytes free slots keep resident after it, where it freed some.
    pub resident: u64,
}

fn kind_if(command: Option<&Command>) -> Option<CommandKind>
    ensures { result ≡ kind_if (option_map (λ c. c.now) command.entry) }
{
    match command {
        None => None,
        Some(command) => Some(kind_of(command)),
    }
}

/// The calls of which some were made before.
pub fn calls_since(after: PageCalls, before: PageCalls) -> PageCalls
    ensures { result ≡ calls_since after before }
{
    PageCalls {
        expose: after.expose.saturating_sub(before.expose),
        hide: after.hide.saturating_sub(before.hide),
        map_image: after.map_image.saturating_sub(before.map_image),
        remap_zeros: after.remap_zeros.saturating_sub(before.remap_zeros),
        erase: after.erase.saturating_sub(before.erase),
        recolour: after.recolour.saturating_sub(before.recolour),
        decommit: after.decommit.saturating_sub(before.decommit),
    }
}

// The page calls of a step for this command, by what was seen before it.
fn calls_made<P: Pages>(
    before: &Seen,
    command: Option<&Command>,
    party: &RunningParty<P>,
) -> PageCalls
    ensures { result ≡ calls_made before.now (option_map (λ c. c.now) command.entry) party.now }
{
    match before.doing {
        Doing::Grow => calls_since(calls_at(command, party), before.calls),
        Doing::Clean => calls_since(calls_at(command, party), before.calls),
        Doing::Call => calls_since(calls_at(command, party), before.calls),
        _ => PageCalls::none(),
    }
}

// The queue that comes so many after the party's home queue.
fn nth_queue(home: u32, tried: u32, queues: u32) -> u32
    ensures { result ≡ nth_queue home tried queues }
{
    if queues == 0 {
        return 0;
    }
    ((home as u64 + tried as u64) % queues as u64) as u32
}

// The queue of a step of a party with this home.
fn queue_of(doing: Doing, home: u32, plan: &Plan) -> u32
    ensures { result ≡ queue_of doing home plan.now }
{
    match doing {
        Doing::TakeQueue(tried) => nth_queue(home, tried, plan.queues),
        _ => nth_queue(home, 0, plan.queues),
    }
}

// The bytes that free slots keep resident.
fn resident_of<P: Pages>(core: &PoolCore<P, PlainHeap>) -> u64
    ensures { result ≡ resident_of core.now }
{
    let memories = core.parts.unused_bytes_resident(SlotKind::Memory) as u64;
    let tables = core.parts.unused_bytes_resident(SlotKind::Table) as u64;
    let stacks = core.parts.unused_bytes_resident(SlotKind::Stack) as u64;
    memories.saturating_add(tables).saturating_add(stacks)
}

// Whether slots keep bytes resident by these settings.
fn keeps_resident(settings: &Settings) -> bool
    ensures { result ≡ keeps_resident settings.now }
{
    settings.keep_resident.byte_count() > 0
        || settings.table_keep_resident.byte_count() > 0
        || settings.stack_keep_resident.byte_count() > 0
}

/// Whether a step frees slots.
pub fn frees(doing: Doing) -> bool
    ensures { result ≡ frees doing }
{
    matches!(doing, Doing::Free | Doing::FreeAll)
}

// The bytes that free slots keep resident after a step that was to do this. They rise only with a step that frees slots.
fn resident_if<P: Pages>(doing: Doing, core: &PoolCore<P, PlainHeap>) -> u64
    ensures { result ≡ resident_if doing core.now }
{
    if frees(doing) && keeps_resident(&core.settings) {
        return resident_of(core);
    }
    0
}

// The bound of a command of a run that has these.
fn bound_in<P: Pages>(
    run: &Run<P>,
    bounds: &StepBounds,
    input: &Input,
    party: usize,
    command: usize,
) -> Option<u64>
    ghost z: { PoolSizes }
    requires { bounds.now ≡ bounds_on z }
    ensures { IfSome result (λ b. b ≡ command_bound z input.now.modules (commands_at input.now party) command) }
{
    let commands = input.parties.as_slice().get(party)?;
    bounds.of_command(
        input.modules.as_slice(),
        commands.commands.as_slice(),
        command,
    )
}

/// At most how many steps a command of a party takes, where its number is small enough.
pub fn bound_of<P: Pages>(run: &Run<P>, input: &Input, party: usize, command: usize) -> Option<u64>
    ensures { IfSome result (λ b. b ≡ command_bound (sizes_of run.now.core.settings run.now.core.plan) input.now.modules (commands_at input.now party) command) }
{
    let bounds = run.bounds()?;
    bound_in(run, &bounds, input, party, command)
}

fn steps_if(reply: &Option<Reply>, steps: u64) -> Option<u64>
    ensures { result ≡ steps_if reply.now steps }
{
    match reply {
        None => None,
        Some(_) => Some(steps),
    }
}

// The number of the command that a turn was of, where so many are done after it.
fn turn_number(reply: &Option<Reply>, done: usize) -> usize
    ensures { result ≡ turn_number reply.now done }
{
    match reply {
        None => done,
        Some(_) => done.saturating_sub(1),
    }
}

// The step that this party made, as it is after it.
fn made_from<P: Pages>(
    before: &Seen,
    after: &Seen,
    bound: Option<u64>,
    core: &PoolCore<P, PlainHeap>,
    running: &RunningParty<P>,
    input: &Input,
    party: usize,
    reply: &Option<Reply>,
) -> Made
    ensures { result ≡ made_from input.now before.now after.now bound core.now party reply.now running.now }
{
    let command = command_of(input, party, turn_number(reply, running.done));
    Made {
        party,
        before: before.doing,
        after: after.doing,
        calls: calls_made(before, command, running),
        kind: kind_if(command),
        steps: steps_if(reply, running.frame.steps()),
        bound,
        queue: queue_of(before.doing, running.frame.home, &core.plan),
        resident: resident_if(before.doing, core),
    }
}

/// The step that a party made, by what is seen of it before and after, and by the bound of its command.
pub fn made_by<P: Pages>(
    before: &Seen,
    after: &Seen,
    bound: Option<u64>,
    run: &Run<P>,
    input: &Input,
    party: usize,
    reply: &Option<Reply>,
) -> Made
    requires { party < length run.now.parties }
    ensures { result ≡ made_by input.now before.now after.now bound (record { party = party; run = run.now; reply = reply.now }) (slice_get run.now.parties party) }
{
    made_from(
        before,
        after,
        bound,
        run.core(),
        run.party(party),
        input,
        party,
        reply,
    )
}
