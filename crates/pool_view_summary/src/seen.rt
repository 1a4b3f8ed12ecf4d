//! What is seen of a party between its turns.
ghost use Rattle.std.specs.Prelude.{◌≡◌, ◌<◌, length, option_map, slice_get};
ghost use Rattle.pool_alloc.specs.StepReads.{wanted_of};
ghost use Rattle.pool_alloc.specs.StepTable.{flush_kinds, flush_step, kind_queued, kind_settled};
ghost use Rattle.pool_run.specs.Numbers.{with_grant};
ghost use Rattle.pool_view_summary.specs.Seen.{calls_at, doing_at, doing_next, flush_doing, may_call, memory_of, purge_doing, release_doing, seen_by, seen_of, unseen};

use pool_alloc::{Asked, Frame, Grant, Phase, PurgeStep, ReleaseStep};
use pool_index::SlotKind;
use pool_pages::{PageCalls, Pages};
use pool_run::{Command, Input, Run, RunningParty};
use pool_slots::{PlainHeap, SlotName};
use pool_types::CompiledModuleId;
use pool_view_steps::command_of;

/// A memory of a compiled module, by its number among those of the module.
#[derive(Clone, Copy)]
pub struct MemoryOf {
    pub id: CompiledModuleId,
    pub index: usize,
}

/// What a party's next step is to do, as far as it is counted.
#[derive(Clone, Copy)]
pub enum Doing {
    /// A command begins that lets no memory and no table grow, or nothing is left.
    Begin,
    /// A memory or a table grows.
    Grow,
    /// A shard is asked for a slot. For a memory of an instance: which memory of its module that is.
    Pick(Option<MemoryOf>),
    /// This slot, which was picked, is taken.
    Take(SlotName),
    /// A queue is taken whole. So many were taken before it.
    TakeQueue(u32),
    /// The slot in hand is appended to the home queue.
    Append,
    /// A flush decommits ranges, or zeroes a slot.
    Clean,
    /// A flush puts the region of a slot back into its cell.
    PutBack,
    /// A flush frees the slots of one shard.
    FreeAll,
    /// A purge asks a shard for a slot.
    PurgePick,
    /// A purge takes this slot.
    PurgeTake(SlotName),
    /// One slot is freed.
    Free,
    /// The region in hand may be called.
    Call,
    Other,
}

/// What is seen of a party between two of its turns.
#[derive(Clone, Copy)]
pub struct Seen {
    /// What its next step is to do.
    pub doing: Doing,
    /// The calls so far on the regions that this step may call.
    pub calls: PageCalls,
}

// What a party's next command is to do at first. A party that hasn't drawn its stripe does that first.
fn doing_next(keyed: bool, command: Option<&Command>) -> Doing
    ensures { result ≡ doing_next keyed (option_map (λ c. c.now) command.entry) }
{
    if !keyed {
        return Doing::Begin;
    }
    match command {
        Some(Command::Grow { .. }) => Doing::Grow,
        Some(Command::TableGrow { .. }) => Doing::Grow,
        _ => Doing::Begin,
    }
}

// For which memory a slot is looked for, if it is for one of a module.
fn wanted_by<P: Pages>(frame: &Frame<P, PlainHeap>) -> Option<MemoryOf>
    ensures { result ≡ option_map memory_of (wanted_of frame.now.asked (length frame.now.objects.memories.items)) }
{
    match &frame.asked {
        Asked::Module(call) => match call.id {
            None => None,
            Some(id) => Some(MemoryOf {
                id,
                index: frame.objects.memories.len(),
            }),
        },
        Asked::Memory(call) => match call.affine {
            None => None,
            Some(memory) => Some(MemoryOf {
                id: memory.0,
                index: memory.1.0 as usize,
            }),
        },
        _ => None,
    }
}

// The kind of the slots that a flush puts back: that of the slots that wait to be freed, or of the first that is queued.
fn kind_settled<P: Pages>(frame: &Frame<P, PlainHeap>) -> SlotKind
    ensures { result ≡ kind_settled frame.now.local.slots frame.now.freed.items }
{
    if frame.freed.is_empty() {
        return kind_queued(frame);
    }
    frame.freed.get(0).name.kind
}

fn kind_queued<P: Pages>(frame: &Frame<P, PlainHeap>) -> SlotKind
    ensures { result ≡ kind_queued flush_kinds frame.now.local.slots }
{
    if frame.local.holds_kind(SlotKind::Memory) {
        return SlotKind::Memory;
    }
    if frame.local.holds_kind(SlotKind::Table) {
        return SlotKind::Table;
    }
    if frame.local.holds_kind(SlotKind::Stack) {
        return SlotKind::Stack;
    }
    SlotKind::Memory
}

fn flush_doing<P: Pages>(frame: &Frame<P, PlainHeap>) -> Doing
    ensures { result ≡ flush_doing (flush_step frame.now.local frame.now.freed.items) }
{
    if frame.local.raw_len() > 0 {
        return Doing::Clean;
    }
    let kind = kind_settled(frame);
    if frame.local.has_to_zero(kind) {
        return Doing::Clean;
    }
    if frame.local.holds_kind(kind) {
        return Doing::PutBack;
    }
    Doing::FreeAll
}

fn purge_doing<P: Pages>(step: &PurgeStep<P>) -> Doing
    ensures { result ≡ purge_doing step.now }
{
    match step {
        PurgeStep::Pick(_) => Doing::PurgePick,
        PurgeStep::TakeRegion(name) => Doing::PurgeTake(*name),
        PurgeStep::Forget(_, _) => Doing::Call,
        PurgeStep::PutRegion(_, _) => Doing::Other,
        PurgeStep::Free(_) => Doing::Free,
    }
}

fn release_doing<P: Pages>(step: &ReleaseStep<P>) -> Doing
    ensures { result ≡ release_doing step.now }
{
    match step {
        ReleaseStep::Decommit(_, _, _, _) => Doing::Call,
        ReleaseStep::Free(_, _) => Doing::Free,
        _ => Doing::Other,
    }
}

// What the frame's next step is to do, where its next command is to do this.
fn doing_at<P: Pages>(next: Doing, frame: &Frame<P, PlainHeap>) -> Doing
    ensures { result ≡ doing_at next frame.now frame.now.phase }
{
    match &frame.phase {
        Phase::Idle => next,
        Phase::Pick(_) => Doing::Pick(wanted_by(frame)),
        Phase::TakeQueue => Doing::TakeQueue(frame.queues),
        Phase::TakeRegion(name) => Doing::Take(*name),
        Phase::TakeHeap(name) => Doing::Take(*name),
        Phase::Empty(_, _) => Doing::Call,
        Phase::Instantiate(_, _) => Doing::Call,
        Phase::MakeMemory(_, _) => Doing::Call,
        Phase::MakeTable(_, _) => Doing::Call,
        Phase::FreeOne(_) => Doing::Free,
        Phase::FreeHeap(_, _) => Doing::Free,
        Phase::Reset(_) => Doing::Call,
        Phase::Merge => Doing::Append,
        Phase::Flush => flush_doing(frame),
        Phase::Purge(_, step) => purge_doing(step),
        Phase::Release(step) => release_doing(step),
        _ => Doing::Other,
    }
}

impl Seen {
    /// What is seen of a party that does nothing yet.
    pub fn none() -> Self
        ensures { result ≡ unseen }
    {
        Seen {
            doing: Doing::Begin,
            calls: PageCalls::none(),
        }
    }
}

fn may_call(doing: Doing) -> bool
    ensures { result ≡ may_call doing }
{
    matches!(doing, Doing::Grow | Doing::Clean | Doing::Call)
}

// The calls with those on the regions of a grant.
fn add_grant<P: Pages>(calls: PageCalls, grant: Option<&Grant<P, PlainHeap>>) -> PageCalls
    ensures { result ≡ with_grant calls (option_map (λ g. g.now) grant.entry) }
{
    match grant {
        Some(Grant::Instance(lease)) => calls.plus(lease.page_calls()),
        Some(Grant::Memory(lease)) => calls.plus(lease.page_calls()),
        Some(Grant::Table(lease)) => calls.plus(lease.page_calls()),
        Some(Grant::Stack(lease)) => calls.plus(lease.page_calls()),
        Some(Grant::Heap(_, memory)) => calls.plus(memory.page_calls()),
        _ => calls,
    }
}

/// The calls so far on the regions that a party's frame has, and on those that this command of it lets grow.
pub fn calls_at<P: Pages>(command: Option<&Command>, party: &RunningParty<P>) -> PageCalls
    ensures { result ≡ calls_at (option_map (λ c. c.now) command.entry) party.now }
{
    let calls = party.frame.page_calls();
    match command {
        Some(Command::Grow { of, .. }) => add_grant(calls, party.live.get(*of)),
        Some(Command::TableGrow { of, .. }) => add_grant(calls, party.live.get(*of)),
        _ => calls,
    }
}

// What is seen of a party whose next command is this.
fn seen_by<P: Pages>(command: Option<&Command>, party: &RunningParty<P>) -> Seen
    ensures { result ≡ seen_by (option_map (λ c. c.now) command.entry) party.now }
{
    let doing = doing_at(doing_next(party.keyed, command), &party.frame);
    let calls = if may_call(doing) {
        calls_at(command, party)
    } else {
        PageCalls::none()
    };
    Seen { doing, calls }
}

/// What is seen of a party of a run.
pub fn seen_of<P: Pages>(run: &Run<P>, input: &Input, party: usize) -> Seen
    requires { party < length run.now.parties }
    ensures { result ≡ seen_of input.now party (slice_get run.now.parties party) }
{
    let running = run.party(party);
    seen_by(command_of(input, party, running.done), running)
}
