use crate::command_shape::CommandShape;
use crate::kinds::{COUNT, Kind, NUMBER};
use crate::module_shape::{ModuleShape, walk_number};
use crate::problem::{Step, Stop, Walk, within};
use crate::settings_shape::{ConfigShape, FaultShape, OfferedShape, TunablesShape};
use crate::shapes::{Shape, optional, walk_list, walk_object, walk_part, walk_part_or_null};
use serde_json::Value;
use std::alloc::Global;

/// The input of a run.
pub struct InputShape;

impl Shape for InputShape {
    fn walk(alloc: Global, value: &Value) -> Walk {
        walk_object(
            alloc,
            value,
            &[
                optional("page", NUMBER),
                optional("shards", COUNT),
                optional("config", Kind::Object),
                optional("tunables", Kind::Object),
                optional("offered", Kind::Object),
                optional("modules", Kind::List),
                optional("parties", Kind::List),
                optional("schedule", Kind::List),
                optional("finish", Kind::Flag),
                optional("faults", Kind::List),
            ],
        )?;
        walk_part::<ConfigShape>(alloc, value, "config")?;
        walk_part::<TunablesShape>(alloc, value, "tunables")?;
        walk_part::<OfferedShape>(alloc, value, "offered")?;
        walk_list::<ModuleShape>(alloc, value, "modules")?;
        walk_list::<PartyShape>(alloc, value, "parties")?;
        walk_list::<EntryShape>(alloc, value, "schedule")?;
        walk_list::<FaultShape>(alloc, value, "faults")
    }
}

/// A party.
struct PartyShape;

impl Shape for PartyShape {
    fn walk(alloc: Global, value: &Value) -> Walk {
        walk_object(
            alloc,
            value,
            &[
                optional("home", NUMBER),
                optional("limits", Kind::Object),
                optional("gc_faults", Kind::List),
                optional("heap_faults", Kind::List),
                optional("commands", Kind::List),
            ],
        )?;
        walk_part_or_null::<LimitsShape>(alloc, value, "limits")?;
        walk_list::<NumberShape>(alloc, value, "gc_faults")?;
        walk_list::<NumberShape>(alloc, value, "heap_faults")?;
        walk_list::<CommandShape>(alloc, value, "commands")
    }
}

/// The limiter of a party.
struct LimitsShape;

impl Shape for LimitsShape {
    fn walk(alloc: Global, value: &Value) -> Walk {
        walk_object(
            alloc,
            value,
            &[
                optional("memory_size", Kind::NumberOrNull),
                optional("table_elements", Kind::NumberOrNull),
                optional("trap_on_grow_failure", Kind::Flag),
            ],
        )
    }
}

/// A whole number.
struct NumberShape;

impl Shape for NumberShape {
    fn walk(alloc: Global, value: &Value) -> Walk {
        walk_number(alloc, value)
    }
}

/// An entry of a schedule: a party, or a party and how many steps it makes.
struct EntryShape;

impl Shape for EntryShape {
    fn walk(alloc: Global, value: &Value) -> Walk {
        match value.as_array() {
            Some(items) => walk_pair(alloc, items.as_slice()),
            None => walk_number(alloc, value),
        }
    }
}

fn walk_pair(alloc: Global, items: &[Value]) -> Walk {
    let [party, times] = items else {
        let cause = String::from_str(
            alloc,
            "an entry is the number of a party, or a pair [party, steps]",
        )?;
        return Err(Stop::at(alloc, "", cause));
    };
    within(alloc, Step::Item(0), walk_number(alloc, party))?;
    within(alloc, Step::Item(1), walk_number(alloc, times))
}
