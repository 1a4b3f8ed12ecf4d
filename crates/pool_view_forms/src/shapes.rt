use crate::kinds::{Kind, cause_of_kind, cause_of_missing, type_name};
use crate::names::push_advice;
use crate::problem::{Step, Stop, Walk, within};
use serde_json::{Map, Value};
use std::alloc::{AllocError, Global};

/// A field of an object.
#[derive(Clone, Copy)]
pub struct Field<'a> {
    pub name: &'a str,
    pub required: bool,
    pub kind: Kind<'a>,
}

/// A field that must be there.
pub fn required<'a>(name: &'a str, kind: Kind<'a>) -> Field<'a> {
    Field {
        name,
        required: true,
        kind,
    }
}

/// A field that may be left out.
pub fn optional<'a>(name: &'a str, kind: Kind<'a>) -> Field<'a> {
    Field {
        name,
        required: false,
        kind,
    }
}

/// What an item of a list is to look like.
pub trait Shape {
    /// Goes over an item.
    fn walk(alloc: Global, value: &Value) -> Walk;
}

fn names_of<'a>(alloc: Global, fields: &[Field<'a>]) -> Result<Vec<&'a str>, AllocError> {
    let mut names = Vec::new(alloc);
    for field in fields {
        names.push(field.name)?;
    }
    Ok(names)
}

fn is_among(fields: &[Field<'_>], name: &str) -> bool {
    fields.iter().any(|field| field.name == name)
}

/// The cause of a field that isn't known.
fn unknown(alloc: Global, fields: &[Field<'_>], name: &str) -> Result<String, AllocError> {
    let mut cause = String::from_str(alloc, "no such field")?;
    let names = names_of(alloc, fields)?;
    push_advice(alloc, &mut cause, names.as_slice(), name)?;
    Ok(cause)
}

/// Stops at the first field that isn't one of these.
fn walk_names(alloc: Global, members: &Map<String, Value>, fields: &[Field<'_>]) -> Walk {
    for (name, _) in members {
        if !is_among(fields, name.as_str()) {
            let cause = unknown(alloc, fields, name.as_str())?;
            return Err(Stop::at(alloc, name.as_str(), cause));
        }
    }
    Ok(())
}

/// Stops where the field is missing or isn't of its kind.
fn walk_field(alloc: Global, value: &Value, field: &Field<'_>) -> Walk {
    let Some(found) = value.get(field.name) else {
        if field.required {
            let cause = cause_of_missing(alloc, &field.kind)?;
            return Err(Stop::at(alloc, field.name, cause));
        }
        return Ok(());
    };
    match cause_of_kind(alloc, found, &field.kind)? {
        Some(cause) => Err(Stop::at(alloc, field.name, cause)),
        None => Ok(()),
    }
}

/// Stops where the value is no object, at the first field that isn't one of these, and then at the first of these that is
/// missing or isn't of its kind.
pub fn walk_object(alloc: Global, value: &Value, fields: &[Field<'_>]) -> Walk {
    let Some(members) = value.as_object() else {
        let found = type_name(value);
        let cause = format!(in alloc; "an object is wanted, and this is {found}")?;
        return Err(Stop::at(alloc, "", cause));
    };
    walk_names(alloc, members, fields)?;
    for field in fields {
        walk_field(alloc, value, field)?;
    }
    Ok(())
}

fn walk_items<T: Shape>(alloc: Global, items: &[Value]) -> Walk {
    for (at, item) in items.iter().enumerate() {
        within(alloc, Step::Item(at), T::walk(alloc, item))?;
    }
    Ok(())
}

fn walk_value_of_list<T: Shape>(alloc: Global, value: &Value) -> Walk {
    match value.as_array() {
        Some(items) => walk_items::<T>(alloc, items.as_slice()),
        None => {
            let found = type_name(value);
            let cause = format!(in alloc; "a list is wanted, and this is {found}")?;
            Err(Stop::at(alloc, "", cause))
        }
    }
}

/// Goes over the items of a field that is a list, where it is there.
pub fn walk_list<T: Shape>(alloc: Global, value: &Value, name: &str) -> Walk {
    match value.get(name) {
        Some(list) => within(
            alloc,
            Step::Field(name),
            walk_value_of_list::<T>(alloc, list),
        ),
        None => Ok(()),
    }
}

/// Goes over a field that is an object, where it is there.
pub fn walk_part<T: Shape>(alloc: Global, value: &Value, name: &str) -> Walk {
    match value.get(name) {
        Some(part) => within(alloc, Step::Field(name), T::walk(alloc, part)),
        None => Ok(()),
    }
}

/// Goes over a field that is an object or null, where it is there.
pub fn walk_part_or_null<T: Shape>(alloc: Global, value: &Value, name: &str) -> Walk {
    match value.get(name) {
        Some(part) if part.is_null() => Ok(()),
        _ => walk_part::<T>(alloc, value, name),
    }
}
