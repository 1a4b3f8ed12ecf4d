use crate::kinds::{Kind, NUMBER, cause_of_missing, type_name};
use crate::module_shape::walk_number;
use crate::names::push_advice;
use crate::problem::{Step, Stop, Walk, within};
use crate::shapes::{Shape, optional, required, walk_object};
use serde_json::Value;
use std::alloc::Global;

/// The names of all commands.
const COMMANDS: [&str; 17] = [
    "instantiate",
    "component",
    "stack",
    "heap",
    "drop",
    "read",
    "write",
    "fill",
    "grow",
    "size",
    "get",
    "set",
    "table_fill",
    "table_grow",
    "table_size",
    "purge",
    "release",
];

/// The name of what an object does, by its field `do`. It is one of these names.
pub fn walk_name<'v>(alloc: Global, value: &'v Value, names: &[&str]) -> Result<&'v str, Stop> {
    if !value.is_object() {
        let found = type_name(value);
        let cause = format!(in alloc; "an object is wanted, and this is {found}")?;
        return Err(Stop::at(alloc, "", cause));
    }
    let Some(name) = value.get("do") else {
        let cause = cause_of_missing(alloc, &Kind::Choice(names))?;
        return Err(Stop::at(alloc, "do", cause));
    };
    let Some(name) = name.as_str() else {
        let cause = String::from_str(alloc, "a text is wanted")?;
        return Err(Stop::at(alloc, "do", cause));
    };
    if names.iter().any(|known| *known == name) {
        return Ok(name);
    }
    let mut cause = format!(in alloc; "no such name: {name}")?;
    push_advice(alloc, &mut cause, names, name)?;
    Err(Stop::at(alloc, "do", cause))
}

/// A command of a party.
pub struct CommandShape;

impl Shape for CommandShape {
    fn walk(alloc: Global, value: &Value) -> Walk {
        let name = walk_name(alloc, value, &COMMANDS)?;
        match name {
            "instantiate" | "purge" => walk_of_module(alloc, value),
            "component" => walk_component(alloc, value),
            "heap" => walk_heap(alloc, value),
            "stack" | "release" => walk_object(alloc, value, &[required("do", Kind::Any)]),
            "drop" => walk_object(
                alloc,
                value,
                &[required("do", Kind::Any), required("of", NUMBER)],
            ),
            "read" | "write" | "fill" | "grow" | "size" => walk_on_memory(alloc, value, name),
            _ => walk_on_table(alloc, value, name),
        }
    }
}

fn walk_of_module(alloc: Global, value: &Value) -> Walk {
    walk_object(
        alloc,
        value,
        &[required("do", Kind::Any), required("module", NUMBER)],
    )
}

fn walk_component(alloc: Global, value: &Value) -> Walk {
    walk_object(
        alloc,
        value,
        &[
            required("do", Kind::Any),
            optional("core_instances", NUMBER),
            optional("memories", NUMBER),
            optional("tables", NUMBER),
            optional("core_bytes", NUMBER),
            optional("own_bytes", NUMBER),
        ],
    )
}

fn walk_heap(alloc: Global, value: &Value) -> Walk {
    walk_object(
        alloc,
        value,
        &[
            required("do", Kind::Any),
            required("min", NUMBER),
            optional("max", Kind::NumberOrNull),
        ],
    )
}

/// A command on a memory of a grant.
fn walk_on_memory(alloc: Global, value: &Value, name: &str) -> Walk {
    let command = required("do", Kind::Any);
    let of = required("of", NUMBER);
    let memory = optional("memory", NUMBER);
    let at = required("at", NUMBER);
    let len = required("len", NUMBER);
    match name {
        "read" => walk_object(
            alloc,
            value,
            &[command, of, memory, optional("at", NUMBER), len],
        ),
        "write" => walk_object(
            alloc,
            value,
            &[command, of, memory, at, required("hex", Kind::Bytes)],
        ),
        "fill" => walk_object(
            alloc,
            value,
            &[
                command,
                of,
                memory,
                at,
                len,
                required("byte", Kind::Number(255)),
            ],
        ),
        "grow" => walk_object(
            alloc,
            value,
            &[command, of, memory, required("pages", NUMBER)],
        ),
        _ => walk_object(alloc, value, &[command, of, memory]),
    }
}

/// A command on a table of a grant.
fn walk_on_table(alloc: Global, value: &Value, name: &str) -> Walk {
    let command = required("do", Kind::Any);
    let of = required("of", NUMBER);
    let table = optional("table", NUMBER);
    let at = required("at", NUMBER);
    let element = required("value", Kind::Any);
    match name {
        "get" => walk_object(alloc, value, &[command, of, table, at]),
        "set" => walk_object(alloc, value, &[command, of, table, at, element]),
        "table_fill" => walk_object(
            alloc,
            value,
            &[command, of, table, at, element, required("len", NUMBER)],
        ),
        "table_grow" => walk_object(alloc, value, &[command, of, table, required("by", NUMBER)]),
        _ => walk_object(alloc, value, &[command, of, table]),
    }?;
    walk_element(alloc, value)
}

/// The value of an element, where there is one.
fn walk_element(alloc: Global, value: &Value) -> Walk {
    match value.get("value") {
        Some(element) => within(
            alloc,
            Step::Field("value"),
            walk_value_of_element(alloc, element),
        ),
        None => Ok(()),
    }
}

fn walk_value_of_element(alloc: Global, value: &Value) -> Walk {
    match value {
        Value::Null => Ok(()),
        Value::Array(items) => walk_pair(alloc, items.as_slice()),
        _ => walk_number(alloc, value),
    }
}

fn walk_pair(alloc: Global, items: &[Value]) -> Walk {
    let [first, second] = items else {
        let cause = String::from_str(alloc, "a pair [contref, revision] has two numbers")?;
        return Err(Stop::at(alloc, "", cause));
    };
    within(alloc, Step::Item(0), walk_number(alloc, first))?;
    within(alloc, Step::Item(1), walk_number(alloc, second))
}
