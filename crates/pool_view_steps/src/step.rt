ghost use Rattle.std.specs.Prelude.{◌≡◌, ◌<◌, length, option_map};
ghost use Rattle.pool_view_steps.specs.Commands.{command_of};

use crate::command_kind::{CommandKind, kind_of};
use crate::part::Part;
use crate::stage::{Stage, stage_of};
use pool_alloc::{Asked, Frame, Grant, Phase, PurgeStep};
use pool_index::{MemoryInModule, SlotKind};
use pool_pages::{PageCalls, Pages};
use pool_run::{Command, Input, Run, RunningParty};
use pool_slots::{PlainHeap, SlotName};
use pool_types::DefinedMemoryIndex;

/// What is seen of a run before a party's step.
#[derive(Clone, Copy, Debug, PartialEq, Eq)]
pub struct Look {
    pub stage: Stage,
    pub part: Part,
    /// The number of the party's next command, or of the one that is under way.
    pub command: usize,
    /// None where there is no such command.
    pub kind: Option<CommandKind>,
    /// The calls so far on the regions that the step may call.
    pub calls: PageCalls,
    /// The memory that a slot is looked for, where slots may be affine to it.
    pub wanted: Option<MemoryInModule>,
    /// How many slots of a flush are to be freed.
    pub to_free: usize,
}

/// What the call under way comes to next, once a step is made.
#[derive(Clone, Copy, Debug, PartialEq, Eq)]
pub enum Next {
    /// No call is under way.
    Idle,
    /// This slot was picked.
    Picked(SlotName),
    Flush,
    Merge,
    /// What the call has in hand goes back, or is counted down again.
    Undo,
    Other,
}

/// A step that was made: of which party and command, what it did and changed, and its page calls.
#[derive(Clone, Copy, Debug, PartialEq, Eq)]
pub struct Step {
    pub party: usize,
    pub look: Look,
    pub next: Next,
    pub calls: PageCalls,
    /// How many slots a flush freed with it.
    pub freed: usize,
    /// How many steps the call made so far.
    pub steps: u64,
}

/// Whether the step may make page calls.
fn may_call(stage: Stage) -> bool {
    matches!(
        stage,
        Stage::Erase(_)
            | Stage::Instantiate(_)
            | Stage::MakeMemory(_)
            | Stage::MakeTable(_)
            | Stage::Reset(_)
            | Stage::Decommit
            | Stage::Zero(_)
            | Stage::PurgeForget(_)
            | Stage::ReleaseDecommit(_)
    )
}

fn calls_of_grant<P: Pages>(grant: Option<&Grant<P, PlainHeap>>) -> PageCalls {
    match grant {
        Some(Grant::Instance(lease)) => lease.page_calls(),
        Some(Grant::Memory(lease)) => lease.page_calls(),
        Some(Grant::Table(lease)) => lease.page_calls(),
        Some(Grant::Stack(lease)) => lease.page_calls(),
        Some(Grant::Heap(_, memory)) => memory.page_calls(),
        _ => PageCalls::none(),
    }
}

// The calls so far on the regions of the grant that a command lets grow.
fn calls_of_grown<P: Pages>(party: &RunningParty<P>, command: Option<&Command>) -> PageCalls {
    match command {
        Some(Command::Grow { of, .. }) => calls_of_grant(party.live.get(*of)),
        Some(Command::TableGrow { of, .. }) => calls_of_grant(party.live.get(*of)),
        _ => PageCalls::none(),
    }
}

// The calls so far on the regions that such a step may call. All others stay as they are.
fn calls_before<P: Pages>(
    party: &RunningParty<P>,
    stage: Stage,
    command: Option<&Command>,
) -> PageCalls {
    if stage == Stage::AtOnce {
        return calls_of_grown(party, command);
    }
    if may_call(stage) {
        return party.frame.page_calls();
    }
    PageCalls::none()
}

fn wanted_of<P: Pages>(frame: &Frame<P, PlainHeap>) -> Option<MemoryInModule> {
    match &frame.asked {
        Asked::Module(call) => {
            let index = u32::try_from(frame.objects.memories.len()).ok()?;
            Some(MemoryInModule(call.id?, DefinedMemoryIndex(index)))
        }
        Asked::Memory(call) => call.affine,
        _ => None,
    }
}

/// Looks at a run before a step of a party.
pub fn look_at<P: Pages>(run: &Run<P>, input: &Input, party: usize) -> Look
    requires { party < length run.now.parties }
{
    let running = run.party(party);
    let command = command_of(input, party, running.done);
    let (stage, part) = stage_of(run.core(), running, command);
    Look {
        stage,
        part,
        command: running.done,
        kind: match command {
            None => None,
            Some(command) => Some(kind_of(command)),
        },
        calls: calls_before(running, stage, command),
        wanted: match stage {
            Stage::Pick(SlotKind::Memory) => wanted_of(&running.frame),
            _ => None,
        },
        to_free: running.frame.freed.len(),
    }
}

/// The command of a party with this number.
pub fn command_of(input: &Input, party: usize, command: usize) -> Option<&Command>
    ensures { option_map (λ c. c.now) result ≡ command_of input.now party command }
{
    let party = input.parties.as_slice().get(party)?;
    party.commands.as_slice().get(command)
}

fn next_of<P: Pages>(frame: &Frame<P, PlainHeap>) -> Next {
    match &frame.phase {
        Phase::Idle => Next::Idle,
        Phase::TakeRegion(name) => Next::Picked(*name),
        Phase::TakeHeap(name) => Next::Picked(*name),
        Phase::Purge(_, PurgeStep::TakeRegion(name)) => Next::Picked(*name),
        Phase::Flush => Next::Flush,
        Phase::Merge => Next::Merge,
        Phase::PutBack(_, _) => Next::Undo,
        Phase::PutNoHeap(_) => Next::Undo,
        Phase::UncountInstance => Next::Undo,
        Phase::UncountComponent => Next::Undo,
        _ => Next::Other,
    }
}

/// The calls of which some were made before.
pub fn calls_since(after: PageCalls, before: PageCalls) -> PageCalls {
    PageCalls {
        expose: after.expose.saturating_sub(before.expose),
        hide: after.hide.saturating_sub(before.hide),
        map_image: after.map_image.saturating_sub(before.map_image),
        remap_zeros: after.remap_zeros.saturating_sub(before.remap_zeros),
        erase: after.erase.saturating_sub(before.erase),
        recolour: after.recolour.saturating_sub(before.recolour),
        decommit: after.decommit.saturating_sub(before.decommit),
    }
}

/// The step that a party made, by what was seen before it and by the run after it.
pub fn step_made<P: Pages>(look: Look, run: &Run<P>, input: &Input, party: usize) -> Step
    requires { party < length run.now.parties }
{
    let running = run.party(party);
    let command = command_of(input, party, look.command);
    let after = calls_before(running, look.stage, command);
    Step {
        party,
        look,
        next: next_of(&running.frame),
        calls: calls_since(after, look.calls),
        freed: look.to_free.saturating_sub(running.frame.freed.len()),
        steps: running.frame.steps(),
    }
}
