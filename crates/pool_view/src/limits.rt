use crate::command_limits::{counted, walk_commands};
use pool_alloc::instance_size;
use pool_run::{
    HOMES, Input, MOST_BYTES, MOST_COMMANDS, MOST_INSTANCE_BYTES, MOST_MEMORIES, MOST_MODULES,
    MOST_PARTIES, MOST_STEPS, MOST_TABLES, Party, ScheduleEntry,
};
use pool_types::{MemoryDecl, ModuleInfo, Part};
use pool_view_forms::{Step, Stop, Walk, within};
use std::alloc::Global;

/// Stops where there are more of something than there may be.
pub fn walk_length(alloc: Global, name: &str, length: usize, most: usize) -> Walk {
    if length <= most {
        return Ok(());
    }
    let cause = format!(in alloc; "{length} of them, and there may be {most}")?;
    Err(Stop::at(alloc, name, cause))
}

/// Stops where there are more bytes than a command or an image may have.
pub fn walk_bytes(alloc: Global, name: &str, bytes: usize) -> Walk {
    if bytes <= MOST_BYTES {
        return Ok(());
    }
    let cause = format!(in alloc; "{bytes} bytes, and there may be {MOST_BYTES}")?;
    Err(Stop::at(alloc, name, cause))
}

fn walk_image(alloc: Global, memory: &MemoryDecl) -> Walk {
    match &memory.image {
        Some(image) => within(
            alloc,
            Step::Field("image"),
            walk_bytes(alloc, "hex", image.bytes.len()),
        ),
        None => Ok(()),
    }
}

fn walk_images(alloc: Global, memories: &[MemoryDecl]) -> Walk {
    for (at, memory) in memories.iter().enumerate() {
        within(alloc, Step::Item(at), walk_image(alloc, memory))?;
    }
    Ok(())
}

fn is_name_byte(byte: u8) -> bool {
    byte >= 32 && byte <= 126 && byte != b'\\'
}

fn walk_name(alloc: Global, part: &Part) -> Walk {
    if part.name.as_str().bytes().all(|byte| is_name_byte(byte)) {
        return Ok(());
    }
    let cause = String::from_str(
        alloc,
        "a name has ASCII characters from the space to ~, but no backslash",
    )?;
    Err(Stop::at(alloc, "[0]", cause))
}

fn walk_names(alloc: Global, parts: &[Part]) -> Walk {
    for (at, part) in parts.iter().enumerate() {
        within(alloc, Step::Item(at), walk_name(alloc, part))?;
    }
    Ok(())
}

fn walk_state(alloc: Global, module: &ModuleInfo) -> Walk {
    let bytes = instance_size(module);
    if bytes > MOST_INSTANCE_BYTES {
        let cause = format!(in alloc;
            "an instance has {bytes} bytes of state, parts included, and there may be {MOST_INSTANCE_BYTES}"
        )?;
        return Err(Stop::at(alloc, "state_bytes", cause));
    }
    within(
        alloc,
        Step::Field("parts"),
        walk_names(alloc, module.parts.as_slice()),
    )
}

fn walk_module(alloc: Global, module: &ModuleInfo) -> Walk {
    walk_length(alloc, "memories", module.memories.len(), MOST_MEMORIES)?;
    walk_length(alloc, "tables", module.tables.len(), MOST_TABLES)?;
    within(
        alloc,
        Step::Field("memories"),
        walk_images(alloc, module.memories.as_slice()),
    )?;
    walk_state(alloc, module)
}

fn walk_modules(alloc: Global, modules: &[ModuleInfo]) -> Walk {
    for (at, module) in modules.iter().enumerate() {
        within(alloc, Step::Item(at), walk_module(alloc, module))?;
    }
    Ok(())
}

/// Stops where a number of a call is 0.
fn walk_calls(alloc: Global, name: &str, numbers: &[u64]) -> Walk {
    match numbers.iter().position(|number| *number == 0) {
        Some(at) => {
            let cause = String::from_str(alloc, "calls are numbered from 1")?;
            let stop = Stop::at(alloc, "", cause).within(alloc, Step::Item(at));
            Err(stop.within(alloc, Step::Field(name)))
        }
        None => Ok(()),
    }
}

fn walk_home(alloc: Global, home: u64) -> Walk {
    if home < HOMES {
        return Ok(());
    }
    let greatest = HOMES - 1;
    let cause = format!(in alloc; "{home} is too large; the greatest is {greatest}")?;
    Err(Stop::at(alloc, "home", cause))
}

fn walk_party(alloc: Global, modules: &[ModuleInfo], party: &Party) -> Walk {
    walk_calls(alloc, "gc_faults", party.gc_faults.as_slice())?;
    walk_calls(alloc, "heap_faults", party.heap_faults.as_slice())?;
    walk_home(alloc, party.home)?;
    walk_length(alloc, "commands", party.commands.len(), MOST_COMMANDS)?;
    within(
        alloc,
        Step::Field("commands"),
        walk_commands(alloc, modules, party.commands.as_slice()),
    )
}

fn walk_parties(alloc: Global, modules: &[ModuleInfo], parties: &[Party]) -> Walk {
    for (at, party) in parties.iter().enumerate() {
        within(alloc, Step::Item(at), walk_party(alloc, modules, party))?;
    }
    Ok(())
}

/// Stops at the entry with which a schedule has more steps than it may have.
fn walk_steps(alloc: Global, schedule: &[ScheduleEntry]) -> Walk {
    let mut left = MOST_STEPS;
    for (at, entry) in schedule.iter().enumerate() {
        if entry.times > left {
            let cause = format!(in alloc;
                "a schedule has at most {MOST_STEPS} steps, and with this entry it has more"
            )?;
            return Err(Stop::at(alloc, "", cause).within(alloc, Step::Item(at)));
        }
        left -= entry.times;
    }
    Ok(())
}

/// Stops at an entry of a party that isn't there.
fn walk_entries(alloc: Global, parties: usize, schedule: &[ScheduleEntry]) -> Walk {
    match schedule.iter().position(|entry| entry.party >= parties) {
        Some(at) => {
            let party = schedule[at].party;
            let count = counted(alloc, parties, "party", "parties")?;
            let cause = format!(in alloc; "there is no party {party}; the input has {count}")?;
            Err(Stop::at(alloc, "", cause).within(alloc, Step::Item(at)))
        }
        None => Ok(()),
    }
}

/// Stops at the first thing for which the input of a run isn't valid.
pub fn walk_input(alloc: Global, input: &Input) -> Walk {
    let modules = input.modules.as_slice();
    let parties = input.parties.as_slice();
    let schedule = input.schedule.as_slice();
    walk_length(alloc, "modules", modules.len(), MOST_MODULES)?;
    within(alloc, Step::Field("modules"), walk_modules(alloc, modules))?;
    walk_length(alloc, "parties", parties.len(), MOST_PARTIES)?;
    within(alloc, Step::Field("schedule"), walk_steps(alloc, schedule))?;
    within(
        alloc,
        Step::Field("schedule"),
        walk_entries(alloc, parties.len(), schedule),
    )?;
    within(
        alloc,
        Step::Field("parties"),
        walk_parties(alloc, modules, parties),
    )
}
