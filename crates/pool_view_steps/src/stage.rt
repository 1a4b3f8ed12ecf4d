use crate::part::{Part, home_of, queue_tried, shard_of_stripe, shard_tried};
use pool_alloc::{
    Asked, CounterName, Frame, Grant, Object, Phase, PoolCore, PurgeCursor, PurgeStep, ReleaseStep,
};
use pool_index::SlotKind;
use pool_pages::Pages;
use pool_run::{Command, RunningParty};
use pool_slots::{PlainHeap, Plan, SlotName};

/// What a party's next step is to do.
#[derive(Clone, Copy, Debug, PartialEq, Eq)]
pub enum Stage {
    /// Nothing is left.
    Rest,
    /// The next command is done at once.
    AtOnce,
    DrawStripe,
    TestModule,
    TestStack,
    TestHeap,
    TestComponent,
    CountUp(CounterName),
    /// A slot of this kind is looked for.
    Pick(SlotKind),
    TakeQueue(u32),
    TakeRegion(SlotName),
    Erase(SlotName),
    Instantiate(SlotName),
    MakeMemory(SlotName),
    MakeTable(SlotName),
    TakeHeap(SlotName),
    MakeHeap(SlotName),
    PutNoHeap(SlotName),
    PutBack(SlotName),
    /// The slot is freed.
    Free(SlotName),
    CountDown(CounterName),
    PutHeap(SlotName),
    Reset(SlotName),
    Merge(u32),
    Decommit,
    Zero(SlotKind),
    /// A flush puts the region of a slot back.
    PutRegion(SlotName),
    /// A flush frees the slots of one shard.
    FreeAll,
    PurgePick,
    PurgeForget(SlotName),
    Reserve,
    TakeWarm,
    ReleaseDecommit(SlotName),
}

fn named(kind: SlotKind, slot: u32) -> SlotName {
    SlotName { kind, slot }
}

fn object_name<P: Pages>(object: &Object<P>) -> SlotName {
    match object {
        Object::Memory(lease) => named(SlotKind::Memory, lease.index.0),
        Object::Table(lease) => named(SlotKind::Table, lease.index.0),
        Object::Stack(lease) => named(SlotKind::Stack, lease.index()),
    }
}

fn counter_of(kind: SlotKind) -> CounterName {
    match kind {
        SlotKind::Memory => CounterName::Memories,
        SlotKind::Table => CounterName::Tables,
        SlotKind::Stack => CounterName::Stacks,
        SlotKind::Heap => CounterName::GcHeaps,
    }
}

fn counts_up(name: CounterName) -> (Stage, Part) {
    (Stage::CountUp(name), Part::Counter(name))
}

fn counts_down(name: CounterName) -> (Stage, Part) {
    (Stage::CountDown(name), Part::Counter(name))
}

fn alone(stage: Stage) -> (Stage, Part) {
    (stage, Part::Nothing)
}

fn on_cell(stage: Stage, name: SlotName) -> (Stage, Part) {
    (stage, Part::Cell(name))
}

fn frees(plan: &Plan, name: SlotName) -> (Stage, Part) {
    (Stage::Free(name), home_of(plan, name).1)
}

/// The kind of slot that a call looks for next.
pub fn kind_next<P: Pages>(frame: &Frame<P, PlainHeap>) -> SlotKind {
    match &frame.asked {
        Asked::Stack => SlotKind::Stack,
        Asked::Module(call) => {
            if frame.objects.memories.len() < call.info.memories.len() {
                SlotKind::Memory
            } else {
                SlotKind::Table
            }
        }
        Asked::Heap(_) => {
            if frame.objects.memories.is_empty() {
                SlotKind::Memory
            } else {
                SlotKind::Heap
            }
        }
        Asked::HeapOver(_) => SlotKind::Heap,
        Asked::Memory(_) => SlotKind::Memory,
        _ => SlotKind::Table,
    }
}

// The next part of a flush: memories go back before tables, and tables before stacks.
fn flush_stage<P: Pages>(plan: &Plan, frame: &Frame<P, PlainHeap>) -> (Stage, Part) {
    if frame.local.raw_len() > 0 {
        return alone(Stage::Decommit);
    }
    let kind = kind_flushed(frame);
    if frame.local.has_to_zero(kind) {
        return alone(Stage::Zero(kind));
    }
    match frame.local.first_name(kind) {
        Some(name) => on_cell(Stage::PutRegion(name), name),
        None => (Stage::FreeAll, first_home(plan, frame)),
    }
}

fn kind_flushed<P: Pages>(frame: &Frame<P, PlainHeap>) -> SlotKind {
    if !frame.freed.is_empty() {
        return frame.freed.get(0).name.kind;
    }
    for kind in [SlotKind::Memory, SlotKind::Table, SlotKind::Stack] {
        if frame.local.holds_kind(kind) {
            return kind;
        }
    }
    SlotKind::Memory
}

// The first shard of which slots are to be freed.
fn first_home<P: Pages>(plan: &Plan, frame: &Frame<P, PlainHeap>) -> Part {
    let mut first = (u32::MAX, Part::Nothing);
    for at in 0..frame.freed.len() {
        let home = home_of(plan, frame.freed.get(at).name);
        if home.0 < first.0 {
            first = home;
        }
    }
    first.1
}

fn purge_stage<P: Pages>(
    core: &PoolCore<P, PlainHeap>,
    cursor: &PurgeCursor,
    step: &PurgeStep<P>,
) -> (Stage, Part) {
    match step {
        PurgeStep::Pick(tried) => purge_pick(core, cursor.stripe, *tried),
        PurgeStep::TakeRegion(name) => on_cell(Stage::TakeRegion(*name), *name),
        PurgeStep::Forget(at, _) => alone(Stage::PurgeForget(at.name)),
        PurgeStep::PutRegion(at, _) => on_cell(Stage::PutBack(at.name), at.name),
        PurgeStep::Free(name) => frees(&core.plan, *name),
    }
}

// Without memories there is no shard to look into.
fn purge_pick<P: Pages>(core: &PoolCore<P, PlainHeap>, stripe: u32, tried: u32) -> (Stage, Part) {
    if core.plan.totals.memory == 0 || core.settings.max_memories_per_module == 0 {
        return alone(Stage::PurgePick);
    }
    (Stage::PurgePick, shard_of_stripe(&core.plan, stripe, tried))
}

fn release_stage<P: Pages>(plan: &Plan, step: &ReleaseStep<P>) -> (Stage, Part) {
    match step {
        ReleaseStep::Reserve => alone(Stage::Reserve),
        ReleaseStep::TakeWarm(cursor, shard) => (
            Stage::TakeWarm,
            shard_of_stripe(plan, cursor.stripe, *shard),
        ),
        ReleaseStep::TakeRegion(cursor, at) => {
            if *at >= cursor.taken.len() {
                return alone(Stage::TakeWarm);
            }
            let name = cursor.taken.get(*at).name;
            on_cell(Stage::TakeRegion(name), name)
        }
        ReleaseStep::Decommit(_, _, at, _) => alone(Stage::ReleaseDecommit(at.name)),
        ReleaseStep::PutRegion(_, _, at, _) => on_cell(Stage::PutBack(at.name), at.name),
        ReleaseStep::Free(_, slot) => frees(plan, slot.name),
    }
}

// The next step of the call that is under way.
fn stage_of_call<P: Pages>(
    core: &PoolCore<P, PlainHeap>,
    frame: &Frame<P, PlainHeap>,
) -> (Stage, Part) {
    let plan = &core.plan;
    match &frame.phase {
        Phase::Idle => alone(Stage::Rest),
        Phase::Key => (Stage::DrawStripe, Part::Counter(CounterName::Key)),
        Phase::Validate => alone(Stage::TestModule),
        Phase::TestStack => alone(Stage::TestStack),
        Phase::TestHeap => alone(Stage::TestHeap),
        Phase::ValidateComponent(_) => alone(Stage::TestComponent),
        Phase::CountInstance => counts_up(CounterName::CoreInstances),
        Phase::CountComponent => counts_up(CounterName::ComponentInstances),
        Phase::UncountInstance => counts_down(CounterName::CoreInstances),
        Phase::UncountComponent => counts_down(CounterName::ComponentInstances),
        Phase::Pick(tried) => {
            let kind = kind_next(frame);
            let part = shard_tried(plan, kind, frame.stripe, frame.home, *tried);
            (Stage::Pick(kind), part)
        }
        Phase::TakeQueue => {
            let queue = queue_tried(plan, frame.home, frame.queues);
            (Stage::TakeQueue(queue), Part::Queue(queue))
        }
        Phase::Merge => {
            let queue = queue_tried(plan, frame.home, 0);
            (Stage::Merge(queue), Part::Queue(queue))
        }
        Phase::Flush => flush_stage(plan, frame),
        Phase::Purge(cursor, step) => purge_stage(core, cursor, step),
        Phase::Release(step) => release_stage(plan, step),
        _ => stage_of_object(plan, frame),
    }
}

// The same of a step on one slot.
fn stage_of_object<P: Pages>(plan: &Plan, frame: &Frame<P, PlainHeap>) -> (Stage, Part) {
    match &frame.phase {
        Phase::TakeRegion(name) => on_cell(Stage::TakeRegion(*name), *name),
        Phase::Empty(at, _) => alone(Stage::Erase(at.name)),
        Phase::Instantiate(at, _) => alone(Stage::Instantiate(at.name)),
        Phase::MakeMemory(at, _) => alone(Stage::MakeMemory(at.name)),
        Phase::MakeTable(at, _) => alone(Stage::MakeTable(at.name)),
        Phase::CountObject(object) => counts_up(counter_of(object_name(object).kind)),
        Phase::TakeHeap(name) => (Stage::TakeHeap(*name), Part::Heaps),
        Phase::MakeHeap(at) => alone(Stage::MakeHeap(at.name)),
        Phase::CountHeap(_) => counts_up(CounterName::GcHeaps),
        Phase::PutNoHeap(at) => (Stage::PutNoHeap(at.name), Part::Heaps),
        Phase::PutBack(at, _) => on_cell(Stage::PutBack(at.name), at.name),
        Phase::FreeOne(name) => frees(plan, *name),
        Phase::UncountObject(object) => counts_down(counter_of(object_name(object).kind)),
        Phase::UncountHeap(_, _) => counts_down(CounterName::GcHeaps),
        Phase::PutHeap(lease, _) => (
            Stage::PutHeap(named(SlotKind::Heap, lease.index().0)),
            Part::Heaps,
        ),
        Phase::FreeHeap(name, _) => frees(plan, *name),
        Phase::Reset(object) => alone(Stage::Reset(object_name(object))),
        _ => alone(Stage::Rest),
    }
}

// The first step of the give-back of a grant.
fn stage_of_drop<P: Pages>(grant: Option<&Grant<P, PlainHeap>>) -> (Stage, Part) {
    match grant {
        None => alone(Stage::AtOnce),
        Some(Grant::Instance(lease)) => {
            if !lease.memories.is_empty() {
                return counts_down(CounterName::Memories);
            }
            if !lease.tables.is_empty() {
                return counts_down(CounterName::Tables);
            }
            counts_down(CounterName::CoreInstances)
        }
        Some(Grant::Component) => counts_down(CounterName::ComponentInstances),
        Some(Grant::Memory(_)) => counts_down(CounterName::Memories),
        Some(Grant::Table(_)) => counts_down(CounterName::Tables),
        Some(Grant::Stack(_)) => counts_down(CounterName::Stacks),
        Some(Grant::Heap(_, _)) | Some(Grant::HeapOver(_)) => counts_down(CounterName::GcHeaps),
    }
}

// The first step of a command.
fn stage_of_command<P: Pages>(
    core: &PoolCore<P, PlainHeap>,
    party: &RunningParty<P>,
    command: &Command,
) -> (Stage, Part) {
    match command {
        Command::Instantiate { .. } => alone(Stage::TestModule),
        Command::Component { .. } => alone(Stage::TestComponent),
        Command::Stack => alone(Stage::TestStack),
        Command::Heap { .. } => alone(Stage::TestHeap),
        Command::Drop { of } => stage_of_drop(party.live.get(*of)),
        Command::Purge { .. } => purge_pick(core, 0, 0),
        Command::Release => alone(Stage::Reserve),
        _ => alone(Stage::AtOnce),
    }
}

/// What the party's next step is to do, and what it changes. This is its next command, where no call is under way.
pub fn stage_of<P: Pages>(
    core: &PoolCore<P, PlainHeap>,
    party: &RunningParty<P>,
    command: Option<&Command>,
) -> (Stage, Part) {
    if !matches!(&party.frame.phase, Phase::Idle) {
        return stage_of_call(core, &party.frame);
    }
    match command {
        None => alone(Stage::Rest),
        Some(command) => {
            if party.keyed {
                stage_of_command(core, party, command)
            } else {
                (Stage::DrawStripe, Part::Counter(CounterName::Key))
            }
        }
    }
}
