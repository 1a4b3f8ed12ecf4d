ghost use Rattle.std.specs.Prelude.{◌<◌, length};

use pool_index::SlotKind;
use pool_pages::Pages;
use pool_run::{Command, Input, Reply, Run, SlotList, Watcher};
use pool_slots::SlotName;
use pool_view_steps::{Look, Next, Part, Stage, Step, command_of, home_of, look_at, step_made};
use std::alloc::{AllocError, Global};

/// What a slot is at a time.
#[derive(Clone, Copy, Debug, PartialEq, Eq)]
pub enum SlotState {
    Free,
    /// A call has picked it.
    Picked,
    Granted,
    /// It was given back, and waits for its flush, or is in one.
    Queued,
}

/// What a slot was from one step to another, and for which module.
#[derive(Clone, Copy, Debug, PartialEq, Eq)]
pub struct Span {
    pub slot: SlotName,
    pub from: u64,
    pub to: u64,
    pub state: SlotState,
    pub module: Option<usize>,
}

/// A command of a party from its first step to its last, and whether it was refused.
#[derive(Clone, Copy, Debug, PartialEq, Eq)]
pub struct CommandSpan {
    pub party: usize,
    pub command: usize,
    pub from: u64,
    pub to: u64,
    pub ended: bool,
    pub refused: bool,
}

/// How many slots of each kind a pool has.
#[derive(Clone, Copy, Debug, PartialEq, Eq)]
pub struct RowCounts {
    pub memories: usize,
    pub tables: usize,
    pub stacks: usize,
    pub heaps: usize,
}

/// A slot of which a flush of a party put the region back, and its shard.
#[derive(Clone, Copy, Debug, PartialEq, Eq)]
struct PutSlot {
    party: usize,
    slot: SlotName,
    home: Part,
}

/// Notes what a run does, for a picture of it.
#[derive(Drop)]
pub struct Chart {
    pub rows: RowCounts,
    pub parties: usize,
    pub steps: u64,
    pub spans: Vec<Span>,
    pub commands: Vec<CommandSpan>,
    // What each slot is now, and which command each party makes.
    now: Vec<Span>,
    going: Vec<Option<CommandSpan>>,
    put: Vec<PutSlot>,
    failed: bool,
}

impl RowCounts {
    fn of(input: &Input) -> Self {
        let limits = &input.config.limits;
        RowCounts {
            memories: limits.total_memories as usize,
            tables: limits.total_tables as usize,
            stacks: limits.total_stacks as usize,
            heaps: limits.total_gc_heaps as usize,
        }
    }

    // The same, without the kinds of which no slot was used.
    fn used(&self, spans: &[Span]) -> Self {
        let mut used = RowCounts {
            memories: 0,
            tables: 0,
            stacks: 0,
            heaps: 0,
        };
        for span in spans {
            match span.slot.kind {
                SlotKind::Memory => used.memories = self.memories,
                SlotKind::Table => used.tables = self.tables,
                SlotKind::Stack => used.stacks = self.stacks,
                SlotKind::Heap => used.heaps = self.heaps,
            }
        }
        used
    }

    /// How many rows there are.
    pub fn all(&self) -> usize {
        self.memories
            .saturating_add(self.tables)
            .saturating_add(self.stacks)
            .saturating_add(self.heaps)
    }

    /// How many rows come before those of the kind.
    pub fn before(&self, kind: SlotKind) -> usize {
        match kind {
            SlotKind::Memory => 0,
            SlotKind::Table => self.memories,
            SlotKind::Stack => self.memories.saturating_add(self.tables),
            SlotKind::Heap => self
                .memories
                .saturating_add(self.tables)
                .saturating_add(self.stacks),
        }
    }

    /// The row of a slot.
    pub fn row(&self, name: SlotName) -> usize {
        self.before(name.kind).saturating_add(name.slot as usize)
    }
}

fn module_of(command: Option<&Command>) -> Option<usize> {
    match command {
        Some(Command::Instantiate { module }) => Some(*module),
        Some(Command::Purge { module }) => Some(*module),
        _ => None,
    }
}

// Adds the slots of a kind, which are free.
fn push_free(now: &mut Vec<Span>, kind: SlotKind, count: u32) -> Result<(), AllocError> {
    for number in 0..count {
        now.push(Span {
            slot: SlotName { kind, slot: number },
            from: 0,
            to: 0,
            state: SlotState::Free,
            module: None,
        })?;
    }
    Ok(())
}

impl Chart {
    /// A chart of a run of the input that begins.
    pub fn new(alloc: Global, input: &Input) -> Result<Self, AllocError> {
        let rows = RowCounts::of(input);
        let limits = &input.config.limits;
        let mut now = Vec::new(alloc);
        push_free(&mut now, SlotKind::Memory, limits.total_memories)?;
        push_free(&mut now, SlotKind::Table, limits.total_tables)?;
        push_free(&mut now, SlotKind::Stack, limits.total_stacks)?;
        push_free(&mut now, SlotKind::Heap, limits.total_gc_heaps)?;
        let mut going = Vec::new(alloc);
        for _party in 0..input.parties.len() {
            going.push(None)?;
        }
        Ok(Chart {
            rows,
            parties: input.parties.len(),
            steps: 0,
            spans: Vec::new(alloc),
            commands: Vec::new(alloc),
            now,
            going,
            put: Vec::new(alloc),
            failed: false,
        })
    }

    // Sets what a slot is from this step on.
    fn set(
        &mut self,
        slot: SlotName,
        state: SlotState,
        module: Option<usize>,
    ) -> Result<(), AllocError> {
        let row = self.rows.row(slot);
        if row >= self.now.len() {
            return Ok(());
        }
        let before = self.now[row];
        if before.state != SlotState::Free {
            self.spans.push(Span {
                to: self.steps,
                ..before
            })?;
        }
        self.now[row] = Span {
            slot,
            from: self.steps,
            to: self.steps,
            state,
            module,
        };
        Ok(())
    }

    // The same of a slot that stays with its module.
    fn turn(&mut self, slot: SlotName, state: SlotState) -> Result<(), AllocError> {
        let module = match self.now.get(self.rows.row(slot)) {
            None => None,
            Some(span) => span.module,
        };
        self.set(slot, state, module)
    }

    fn grant_all(&mut self, kind: SlotKind, slots: &SlotList) -> Result<(), AllocError> {
        for slot in slots.as_slice() {
            self.grant(kind, *slot)?;
        }
        Ok(())
    }

    fn grant(&mut self, kind: SlotKind, slot: u32) -> Result<(), AllocError> {
        self.turn(SlotName { kind, slot }, SlotState::Granted)
    }

    // The slots of a grant are the party's.
    fn reply(&mut self, reply: &Reply) -> Result<(), AllocError> {
        match reply {
            Reply::Instance { memories, tables } => {
                self.grant_all(SlotKind::Memory, memories)?;
                self.grant_all(SlotKind::Table, tables)
            }
            Reply::Stack(slot) => self.grant(SlotKind::Stack, *slot),
            Reply::Heap { heap, memory } => {
                self.grant(SlotKind::Heap, *heap)?;
                self.grant(SlotKind::Memory, *memory)
            }
            _ => Ok(()),
        }
    }

    // Frees the slots of the shard that a flush of the party put back.
    fn free_put(&mut self, party: usize, home: Part) -> Result<(), AllocError> {
        let mut at = 0;
        for _ in 0..self.put.len() {
            if at >= self.put.len() {
                break;
            }
            let slot = self.put[at];
            if slot.party == party && slot.home == home {
                let _freed = self.put.swap_remove(at);
                self.turn(slot.slot, SlotState::Free)?;
            } else {
                at += 1;
            }
        }
        Ok(())
    }

    // What the step made of a slot.
    fn slot<P: Pages>(
        &mut self,
        run: &Run<P>,
        input: &Input,
        step: &Step,
    ) -> Result<(), AllocError> {
        if let Next::Picked(name) = step.next {
            let command = command_of(input, step.party, step.look.command);
            return self.set(name, SlotState::Picked, module_of(command));
        }
        match step.look.stage {
            Stage::Reset(name) => self.turn(name, SlotState::Queued),
            Stage::Free(name) => self.turn(name, SlotState::Free),
            Stage::PutRegion(name) => {
                self.put.push(PutSlot {
                    party: step.party,
                    slot: name,
                    home: home_of(&run.core().plan, name).1,
                })?;
                Ok(())
            }
            Stage::FreeAll => self.free_put(step.party, step.look.part),
            _ => Ok(()),
        }
    }

    // The step as one of its command.
    fn command(&mut self, step: &Step, reply: Option<&Reply>) -> Result<(), AllocError> {
        let party = step.party;
        if party >= self.going.len() {
            return Ok(());
        }
        let begun = match self.going[party] {
            Some(span) => span.from,
            None => self.steps.saturating_sub(1),
        };
        let span = CommandSpan {
            party,
            command: step.look.command,
            from: begun,
            to: self.steps,
            ended: reply.is_some(),
            refused: matches!(reply, Some(Reply::Refused(_))),
        };
        if reply.is_none() {
            self.going[party] = Some(span);
            return Ok(());
        }
        self.going[party] = None;
        self.commands.push(span)?;
        Ok(())
    }

    fn add<P: Pages>(
        &mut self,
        run: &Run<P>,
        input: &Input,
        step: &Step,
        reply: Option<&Reply>,
    ) -> Result<(), AllocError> {
        self.slot(run, input, step)?;
        if let Some(reply) = reply {
            self.reply(reply)?;
        }
        self.command(step, reply)
    }

    /// Ends the chart with the run. Err where there was no memory for all of it.
    pub fn end(&mut self) -> Result<(), AllocError> {
        if self.failed {
            return Err(AllocError);
        }
        for row in 0..self.now.len() {
            let Some(span) = self.now.get(row) else {
                return Ok(());
            };
            let slot = span.slot;
            self.turn(slot, SlotState::Free)?;
        }
        self.rows = self.rows.used(self.spans.as_slice());
        for party in 0..self.going.len() {
            if let Some(Some(span)) = self.going.get(party) {
                let span = *span;
                self.commands.push(span)?;
            }
        }
        Ok(())
    }
}

impl<P: Pages> Watcher<P> for Chart {
    type Note = Look;

    ghost leads = { λ input t old new. Unit {0} };

    fn look(&self, run: &Run<P>, input: &Input, party: usize) -> Look {
        look_at(run, input, party)
    }

    fn learn(
        &mut self,
        note: Look,
        run: &Run<P>,
        input: &Input,
        party: usize,
        reply: &Option<Reply>,
    ) {
        if self.failed {
            return;
        }
        self.steps = self.steps.saturating_add(1);
        let step = step_made(note, run, input, party);
        if self.add(run, input, &step, reply.as_ref()).is_err() {
            self.failed = true;
        }
    }
}
