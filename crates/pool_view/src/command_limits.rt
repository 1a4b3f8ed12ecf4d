use crate::limits::walk_bytes;
use pool_run::{Act, Command, MemoryOp, TableOp, TableValue, Wanted, act_of};
use pool_types::{ModuleInfo, TableElementType, TableType};
use pool_view_forms::{Step, Stop, Walk, within};
use std::alloc::{AllocError, Global};

/// What a command is called.
pub fn command_name(command: &Command) -> &'static str {
    match command {
        Command::Instantiate { .. } => "instantiate",
        Command::Component { .. } => "component",
        Command::Stack => "stack",
        Command::Heap { .. } => "heap",
        Command::Read { .. } => "read",
        Command::Write { .. } => "write",
        Command::Fill { .. } => "fill",
        Command::Grow { .. } => "grow",
        Command::Size { .. } => "size",
        Command::Get { .. } => "get",
        Command::Set { .. } => "set",
        Command::TableFill { .. } => "table_fill",
        Command::TableGrow { .. } => "table_grow",
        Command::TableSize { .. } => "table_size",
        Command::Drop { .. } => "drop",
        Command::Purge { .. } => "purge",
        Command::Release => "release",
    }
}

/// So many of something, of which the singular and the plural are these.
pub fn counted(alloc: Global, count: usize, one: &str, more: &str) -> Result<String, AllocError> {
    match count {
        0 => format!(in alloc; "no {one}"),
        1 => format!(in alloc; "1 {one}, number 0"),
        _ => {
            let last = count - 1;
            format!(in alloc; "{count} {more}, numbers 0 to {last}")
        }
    }
}

fn walk_module_number(alloc: Global, modules: usize, module: usize) -> Walk {
    if module < modules {
        return Ok(());
    }
    let count = counted(alloc, modules, "module", "modules")?;
    let cause = format!(in alloc; "there is no module {module}; the input has {count}")?;
    Err(Stop::at(alloc, "module", cause))
}

/// The cause of a number that is none of an earlier command. The party has so many commands, and this one is numbered `at`.
fn cause_of_later(
    alloc: Global,
    at: usize,
    commands: usize,
    of: usize,
) -> Result<String, AllocError> {
    if of == at {
        format!(in alloc; "command {of} is this command; an earlier one is wanted")
    } else if of < commands {
        format!(in alloc; "command {of} comes later")
    } else {
        let last = commands.saturating_sub(1);
        format!(in alloc; "there is no command {of}; the party's last one is {last}")
    }
}

/// The earlier command that is named.
fn earlier<'c>(
    alloc: Global,
    commands: &'c [Command],
    at: usize,
    of: usize,
) -> Result<&'c Command, Stop> {
    match commands.get(of) {
        Some(command) if of < at => Ok(command),
        _ => {
            let cause = cause_of_later(alloc, at, commands.len(), of)?;
            Err(Stop::at(alloc, "of", cause))
        }
    }
}

/// The stop at a command that isn't of the kind that is wanted.
fn other_kind(
    alloc: Global,
    of: usize,
    command: &Command,
    wanted: &str,
) -> Result<Stop, AllocError> {
    let name = command_name(command);
    let cause = format!(in alloc; "command {of} is {name}, and {wanted} is wanted")?;
    Ok(Stop::at(alloc, "of", cause))
}

fn walk_drop(alloc: Global, of: usize, command: &Command) -> Walk {
    match command {
        Command::Instantiate { .. }
        | Command::Component { .. }
        | Command::Stack
        | Command::Heap { .. } => Ok(()),
        _ => Err(other_kind(alloc, of, command, "instantiate, component, stack or heap")?),
    }
}

/// Stops where a module has no memory or no table with this number.
fn walk_place(alloc: Global, name: &str, module: usize, count: String, number: usize) -> Walk {
    let cause = format!(in alloc; "there is no {name} {number}; module {module} has {count}")?;
    Err(Stop::at(alloc, name, cause))
}

fn walk_memory_of_module(
    alloc: Global,
    modules: &[ModuleInfo],
    module: usize,
    memory: usize,
) -> Walk {
    let Some(info) = modules.get(module) else {
        return walk_module_number(alloc, modules.len(), module);
    };
    let memories = info.memories.len();
    if memory < memories {
        return Ok(());
    }
    let count = counted(alloc, memories, "memory", "memories")?;
    walk_place(alloc, "memory", module, count, memory)
}

/// Stops where the memory isn't the only one of a stack or a heap.
fn walk_only_memory(alloc: Global, memory: usize, owner: &str) -> Walk {
    if memory == 0 {
        return Ok(());
    }
    let cause = format!(in alloc; "there is no memory {memory}; {owner} has 1 memory, number 0")?;
    Err(Stop::at(alloc, "memory", cause))
}

fn walk_memory_of_stack(alloc: Global, of: usize, op: &MemoryOp<'_>, memory: usize) -> Walk {
    if let MemoryOp::Grow { .. } = op {
        let cause = format!(in alloc; "command {of} is stack, and a stack doesn't grow")?;
        return Err(Stop::at(alloc, "of", cause));
    }
    walk_only_memory(alloc, memory, "a stack")
}

fn walk_memory(
    alloc: Global,
    modules: &[ModuleInfo],
    of: usize,
    command: &Command,
    op: &MemoryOp<'_>,
    memory: usize,
) -> Walk {
    match command {
        Command::Instantiate { module } => walk_memory_of_module(alloc, modules, *module, memory),
        Command::Stack => walk_memory_of_stack(alloc, of, op, memory),
        Command::Heap { .. } => walk_only_memory(alloc, memory, "a heap"),
        _ => Err(other_kind(alloc, of, command, "instantiate, stack or heap")?),
    }
}

fn walk_op(alloc: Global, op: &MemoryOp<'_>) -> Walk {
    match op {
        MemoryOp::Read { len, .. } => walk_bytes(alloc, "len", *len),
        MemoryOp::Write { bytes, .. } => walk_bytes(alloc, "hex", bytes.len()),
        _ => Ok(()),
    }
}

fn suits(element: TableElementType, value: TableValue) -> bool {
    match (element, value) {
        (_, TableValue::Null) => true,
        (TableElementType::Func, TableValue::Number(name)) => name > 0 && name % 2 == 0,
        (TableElementType::GcRef, TableValue::Number(name)) => name > 0 && name < 1 << 32,
        (TableElementType::Cont, TableValue::Continuation(object)) => object.contref > 0,
        _ => false,
    }
}

/// What may stand in a table.
fn wanted_values(element: TableElementType) -> &'static str {
    match element {
        TableElementType::Func => "a func table holds null or an even number above 0",
        TableElementType::GcRef => "a gc table holds null or a number from 1 to 4294967295",
        TableElementType::Cont => {
            "a cont table holds null or a pair [contref, revision] with contref above 0"
        }
    }
}

fn walk_value(alloc: Global, ty: &TableType, op: &TableOp) -> Walk {
    match op {
        TableOp::Set { value, .. } if !suits(ty.element, *value) => {
            let cause = String::from_str(alloc, wanted_values(ty.element))?;
            Err(Stop::at(alloc, "value", cause))
        }
        _ => Ok(()),
    }
}

fn walk_table(
    alloc: Global,
    modules: &[ModuleInfo],
    of: usize,
    command: &Command,
    table: usize,
    op: &TableOp,
) -> Walk {
    let Command::Instantiate { module } = command else {
        return Err(other_kind(alloc, of, command, "instantiate")?);
    };
    let Some(info) = modules.get(*module) else {
        return walk_module_number(alloc, modules.len(), *module);
    };
    match info.tables.as_slice().get(table) {
        Some(ty) => walk_value(alloc, ty, op),
        None => {
            let count = counted(alloc, info.tables.len(), "table", "tables")?;
            walk_place(alloc, "table", *module, count, table)
        }
    }
}

/// Stops at what isn't valid in the command numbered `at`.
fn walk_command(
    alloc: Global,
    modules: &[ModuleInfo],
    commands: &[Command],
    at: usize,
    command: &Command,
) -> Walk {
    match act_of(command) {
        Act::Request(Wanted::Instance { module }) => {
            walk_module_number(alloc, modules.len(), module)
        }
        Act::Request(_) | Act::Release => Ok(()),
        Act::OnMemory { of, memory, op } => {
            walk_op(alloc, &op)?;
            let named = earlier(alloc, commands, at, of)?;
            walk_memory(alloc, modules, of, named, &op, memory)
        }
        Act::OnTable { of, table, op } => {
            let named = earlier(alloc, commands, at, of)?;
            walk_table(alloc, modules, of, named, table, &op)
        }
        Act::Drop { of } => walk_drop(alloc, of, earlier(alloc, commands, at, of)?),
        Act::Purge { module } => walk_module_number(alloc, modules.len(), module),
    }
}

/// Stops at the first command of a party that isn't valid.
pub fn walk_commands(alloc: Global, modules: &[ModuleInfo], commands: &[Command]) -> Walk {
    for (at, command) in commands.iter().enumerate() {
        within(
            alloc,
            Step::Item(at),
            walk_command(alloc, modules, commands, at, command),
        )?;
    }
    Ok(())
}
