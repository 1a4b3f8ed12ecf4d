use crate::kinds::{Kind, NUMBER, cause_of_kind, type_name};
use crate::problem::{Step, Stop, Walk, within};
use crate::shapes::{Shape, optional, required, walk_list, walk_object, walk_part_or_null};
use serde_json::Value;
use std::alloc::Global;

/// A module.
pub struct ModuleShape;

impl Shape for ModuleShape {
    fn walk(alloc: Global, value: &Value) -> Walk {
        walk_object(
            alloc,
            value,
            &[
                optional("memories", Kind::List),
                optional("tables", Kind::List),
                optional("state_bytes", NUMBER),
                optional("parts", Kind::List),
            ],
        )?;
        walk_list::<MemoryShape>(alloc, value, "memories")?;
        walk_list::<TableShape>(alloc, value, "tables")?;
        walk_list::<StatePartShape>(alloc, value, "parts")
    }
}

/// A memory of a module, or one that threads share.
pub struct MemoryShape;

impl Shape for MemoryShape {
    fn walk(alloc: Global, value: &Value) -> Walk {
        walk_object(
            alloc,
            value,
            &[
                optional("min", NUMBER),
                optional("max", Kind::NumberOrNull),
                optional("index", Kind::Choice(&["i32", "i64"])),
                optional("shared", Kind::Flag),
                optional("page_log2", Kind::Either(0, 16)),
                optional("image", Kind::Object),
            ],
        )?;
        walk_part_or_null::<ImageShape>(alloc, value, "image")
    }
}

/// The bytes that a memory begins with.
struct ImageShape;

impl Shape for ImageShape {
    fn walk(alloc: Global, value: &Value) -> Walk {
        walk_object(
            alloc,
            value,
            &[required("offset", NUMBER), required("hex", Kind::Bytes)],
        )
    }
}

/// A table of a module.
struct TableShape;

impl Shape for TableShape {
    fn walk(alloc: Global, value: &Value) -> Walk {
        walk_object(
            alloc,
            value,
            &[
                optional("kind", Kind::Choice(&["func", "gc", "cont"])),
                optional("min", NUMBER),
                optional("max", Kind::NumberOrNull),
                optional("index", Kind::Choice(&["i32", "i64"])),
            ],
        )
    }
}

/// A part of an instance's state: its name and its bytes.
struct StatePartShape;

impl Shape for StatePartShape {
    fn walk(alloc: Global, value: &Value) -> Walk {
        let Some([name, bytes]) = value.as_array().map(|items| items.as_slice()) else {
            let cause = String::from_str(alloc, "a pair [\"name\", bytes] is wanted")?;
            return Err(Stop::at(alloc, "", cause));
        };
        within(alloc, Step::Item(0), walk_text(alloc, name))?;
        within(alloc, Step::Item(1), walk_number(alloc, bytes))
    }
}

fn walk_text(alloc: Global, value: &Value) -> Walk {
    if value.is_string() {
        return Ok(());
    }
    let found = type_name(value);
    let cause = format!(in alloc; "a text is wanted, and this is {found}")?;
    Err(Stop::at(alloc, "", cause))
}

/// Stops where the value is no whole number.
pub fn walk_number(alloc: Global, value: &Value) -> Walk {
    match cause_of_kind(alloc, value, &NUMBER)? {
        Some(cause) => Err(Stop::at(alloc, "", cause)),
        None => Ok(()),
    }
}
