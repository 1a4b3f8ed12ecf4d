ghost use Rattle.std.specs.Prelude.{◌≡◌, [], length, nat_le, nat_lt};
ghost use Rattle.std.specs.List.{list_all};
ghost use Rattle.pool_run.specs.Schedules.{turns_of};
ghost use Rattle.pool_run.specs.Acts.{act_at};
ghost use Rattle.pool_run.specs.AtOnce.{given_act, given_op, given_table_op, given_wanted};
ghost use Rattle.pool_run.specs.Validity.{is_valid, is_valid_memory, is_name_byte, is_named, is_valid_state, is_valid_module, are_valid_modules, is_valid_schedule, is_valid_party, is_valid_act, are_valid_after, is_short, is_on_stack, is_there, names_memory, can_be_set, suits, table_named, requests_grant, most_steps};

use crate::act::{Act, MemoryOp, TableOp, Wanted, act_of};
use crate::command::Command;
use crate::input::{Input, Party, ScheduleEntry};
use crate::table_values::is_value_of;
use pool_alloc::instance_size;
use pool_types::{MemoryDecl, ModuleInfo, Part, TableType};

/// How many modules an input may have.
pub const MOST_MODULES: usize = 1_000;

/// How many memories a module may have.
pub const MOST_MEMORIES: usize = 100;

/// How many tables a module may have.
pub const MOST_TABLES: usize = 100;

/// How many bytes the state of an instance of a module may take.
pub const MOST_INSTANCE_BYTES: u64 = 1 << 32;

/// How many parties an input may have.
pub const MOST_PARTIES: usize = 64;

/// The home of a party is a number below this.
pub const HOMES: u64 = 65_536;

/// How many steps a schedule may have.
pub const MOST_STEPS: u64 = 10_000_000;

/// How many commands a party may have.
pub const MOST_COMMANDS: usize = 100_000;

/// How many bytes a command may read or write, and an image may have.
pub const MOST_BYTES: usize = 1_048_576;

fn requests_grant(earlier: &[Command], of: usize) -> bool
    ensures { result ≡ requests_grant (act_at earlier.now of) }
{
    matches!(
        earlier.get(of),
        Some(
            Command::Instantiate { .. }
                | Command::Component { .. }
                | Command::Stack
                | Command::Heap { .. }
        )
    )
}

fn names_memory(
    modules: &[ModuleInfo],
    earlier: &[Command],
    op: &MemoryOp,
    of: usize,
    memory: usize,
) -> bool
    ensures { result ≡ names_memory modules.now earlier.now (given_op op.now) of memory }
{
    match earlier.get(of) {
        Some(Command::Instantiate { module }) => match modules.get(*module) {
            Some(info) => memory < info.memories.len(),
            None => false,
        },
        Some(Command::Stack) => is_on_stack(op, memory),
        Some(Command::Heap { .. }) => memory == 0,
        _ => false,
    }
}

// Whether the operation can be one on this memory of a stack's grant.
fn is_on_stack(op: &MemoryOp, memory: usize) -> bool
    ensures { result ≡ is_on_stack (given_op op.now) memory }
{
    match op {
        MemoryOp::Grow { .. } => false,
        _ => memory == 0,
    }
}

fn is_there(modules: usize, wanted: &Wanted) -> bool
    ensures { result ≡ is_there modules (given_wanted wanted.now) }
{
    match wanted {
        Wanted::Instance { module } => *module < modules,
        _ => true,
    }
}

fn is_short(op: &MemoryOp) -> bool
    ensures { result ≡ is_short (given_op op.now) }
{
    match op {
        MemoryOp::Read { len, .. } => *len <= MOST_BYTES,
        MemoryOp::Write { bytes, .. } => bytes.len() <= MOST_BYTES,
        _ => true,
    }
}

fn can_be_set(op: &TableOp, ty: &TableType) -> bool
    ensures { result ≡ can_be_set (given_table_op op.now) ty.now }
{
    match op {
        TableOp::Set { value, .. } => is_value_of(ty.element, *value),
        _ => true,
    }
}

fn suits_table(
    modules: &[ModuleInfo],
    earlier: &[Command],
    of: usize,
    table: usize,
    op: &TableOp,
) -> bool
    ensures { result ≡ suits (given_table_op op.now) (table_named modules.now earlier.now of table) }
{
    match earlier.get(of) {
        Some(Command::Instantiate { module }) => match modules.get(*module) {
            Some(info) => match info.tables.as_slice().get(table) {
                Some(ty) => can_be_set(op, ty),
                None => false,
            },
            None => false,
        },
        _ => false,
    }
}

fn is_valid_act(modules: &[ModuleInfo], earlier: &[Command], act: &Act) -> bool
    ensures { result ≡ is_valid_act modules.now earlier.now (given_act act.now) }
{
    match act {
        Act::Request(wanted) => is_there(modules.len(), wanted),
        Act::OnMemory { of, memory, op } => {
            is_short(op) && names_memory(modules, earlier, op, *of, *memory)
        }
        Act::OnTable { of, table, op } => suits_table(modules, earlier, *of, *table, op),
        Act::Drop { of } => requests_grant(earlier, *of),
        Act::Purge { module } => *module < modules.len(),
        Act::Release => true,
    }
}

fn are_valid(modules: &[ModuleInfo], commands: &[Command]) -> bool
    ensures { result ≡ are_valid_after modules.now [] commands.now }
{
    for (k, command) in commands.iter().enumerate() {
        if !is_valid_act(modules, &commands[..k], &act_of(command)) {
            return false;
        }
    }
    true
}

// Whether each is a number of a call. They are numbered from 1.
fn are_call_numbers(numbers: &[u64]) -> bool
    ensures { result ≡ list_all (nat_lt 0) numbers.now }
{
    numbers.iter().all(|&number| number > 0)
}

fn is_valid_party(modules: &[ModuleInfo], party: &Party) -> bool
    ensures { result ≡ is_valid_party modules.now party.now }
{
    are_call_numbers(party.gc_faults.as_slice())
        && are_call_numbers(party.heap_faults.as_slice())
        && party.home < HOMES
        && party.commands.len() <= MOST_COMMANDS
        && are_valid(modules, party.commands.as_slice())
}

fn are_valid_parties(modules: &[ModuleInfo], parties: &[Party]) -> bool
    ensures { result ≡ list_all (is_valid_party modules.now) parties.now }
{
    parties.iter().all(|party| is_valid_party(modules, party))
}

fn has_few_steps(schedule: &[ScheduleEntry]) -> bool
    ensures { result ≡ nat_le (length (turns_of schedule.now)) most_steps }
{
    let mut left = MOST_STEPS;
    for entry in schedule {
        if entry.times > left {
            return false;
        }
        left -= entry.times;
    }
    true
}

fn are_named(parties: usize, schedule: &[ScheduleEntry]) -> bool
    ensures { result ≡ list_all (λ entry. nat_lt entry.party parties) schedule.now }
{
    schedule.iter().all(|entry| entry.party < parties)
}

fn is_valid_schedule(parties: usize, schedule: &[ScheduleEntry]) -> bool
    ensures { result ≡ is_valid_schedule parties schedule.now }
{
    has_few_steps(schedule) && are_named(parties, schedule)
}

fn is_valid_memory(decl: &MemoryDecl) -> bool
    ensures { result ≡ is_valid_memory decl.now }
{
    match &decl.image {
        None => true,
        Some(image) => image.bytes.len() <= MOST_BYTES,
    }
}

fn are_valid_memories(memories: &[MemoryDecl]) -> bool
    ensures { result ≡ list_all is_valid_memory memories.now }
{
    memories.iter().all(|decl| is_valid_memory(decl))
}

fn is_name_byte(byte: u8) -> bool
    ensures { result ≡ is_name_byte byte }
{
    byte >= 32 && byte <= 126 && byte != 92
}

fn is_named(part: &Part) -> bool
    ensures { result ≡ is_named part.now }
{
    part.name.as_str().bytes().all(|byte| is_name_byte(byte))
}

fn are_named_parts(parts: &[Part]) -> bool
    ensures { result ≡ list_all is_named parts.now }
{
    parts.iter().all(|part| is_named(part))
}

fn is_valid_state(info: &ModuleInfo) -> bool
    ensures { result ≡ is_valid_state info.now }
{
    instance_size(info) <= MOST_INSTANCE_BYTES && are_named_parts(info.parts.as_slice())
}

fn is_valid_module(info: &ModuleInfo) -> bool
    ensures { result ≡ is_valid_module info.now }
{
    info.memories.len() <= MOST_MEMORIES
        && info.tables.len() <= MOST_TABLES
        && are_valid_memories(info.memories.as_slice())
        && is_valid_state(info)
}

fn is_each_valid(modules: &[ModuleInfo]) -> bool
    ensures { result ≡ list_all is_valid_module modules.now }
{
    modules.iter().all(|info| is_valid_module(info))
}

fn are_valid_modules(modules: &[ModuleInfo]) -> bool
    ensures { result ≡ are_valid_modules modules.now }
{
    modules.len() <= MOST_MODULES && is_each_valid(modules)
}

/// Whether the input can be run: its sizes are within the limits, and what it names is there.
pub fn is_valid(input: &Input) -> bool
    ensures { result ≡ is_valid input.now }
{
    let modules = input.modules.as_slice();
    let parties = input.parties.as_slice();
    are_valid_modules(modules)
        && parties.len() <= MOST_PARTIES
        && is_valid_schedule(parties.len(), input.schedule.as_slice())
        && are_valid_parties(modules, parties)
}
