use crate::command_shape::walk_name;
use crate::kinds::{COUNT, Kind, NUMBER};
use crate::module_shape::MemoryShape;
use crate::problem::Walk;
use crate::shapes::{Shape, optional, required, walk_list, walk_object, walk_part};
use serde_json::Value;
use std::alloc::Global;

/// The names of all events.
const EVENTS: [&str; 8] = [
    "wait32", "wait64", "wake", "notify", "read", "write", "grow", "size",
];

/// The input of events on a shared memory.
pub struct SharedInputShape;

impl Shape for SharedInputShape {
    fn walk(alloc: Global, value: &Value) -> Walk {
        walk_object(
            alloc,
            value,
            &[
                optional("page", NUMBER),
                required("memory", Kind::Object),
                required("events", Kind::List),
            ],
        )?;
        walk_part::<MemoryShape>(alloc, value, "memory")?;
        walk_list::<EventShape>(alloc, value, "events")
    }
}

/// An event.
struct EventShape;

impl Shape for EventShape {
    fn walk(alloc: Global, value: &Value) -> Walk {
        let command = required("do", Kind::Any);
        let at = required("at", NUMBER);
        match walk_name(alloc, value, &EVENTS)? {
            "wait32" => walk_wait(alloc, value, COUNT),
            "wait64" => walk_wait(alloc, value, NUMBER),
            "wake" => walk_object(
                alloc,
                value,
                &[command, required("waiter", NUMBER), required("now", NUMBER)],
            ),
            "notify" => walk_object(alloc, value, &[command, at, required("count", COUNT)]),
            "read" => walk_object(
                alloc,
                value,
                &[command, optional("at", NUMBER), required("len", NUMBER)],
            ),
            "write" => walk_object(alloc, value, &[command, at, required("hex", Kind::Bytes)]),
            "grow" => walk_object(alloc, value, &[command, required("pages", NUMBER)]),
            _ => walk_object(alloc, value, &[command]),
        }
    }
}

/// A wait for a word of this kind.
fn walk_wait(alloc: Global, value: &Value, expect: Kind<'_>) -> Walk {
    walk_object(
        alloc,
        value,
        &[
            required("do", Kind::Any),
            required("waiter", NUMBER),
            required("at", NUMBER),
            required("expect", expect),
            required("now", NUMBER),
            required("timeout", Kind::NumberOrNull),
        ],
    )
}
