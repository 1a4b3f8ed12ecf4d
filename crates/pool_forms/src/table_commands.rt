ghost use Rattle.std.specs.Prelude.{◌≡◌, option_map};
ghost use Rattle.serde_json.specs.View.{view, items_view};
ghost use Rattle.pool_forms.specs.Fields.{required};
ghost use Rattle.pool_forms.specs.Forms.{pair_value, number_value, value_form, get_form, set_form, table_fill_form, table_grow_form, table_size_form, form_on_table};

use crate::fields::{has_only, number, number_or, number_pair};
use crate::other_commands::command_without_grant;
use pool_run::{Command, TableValue};
use pool_table::VMContObj;
use serde_json::Value;

// A continuation, as a pair of numbers.
fn pair(items: &[Value]) -> Option<TableValue>
    ensures { result ≡ pair_value (items_view items.now) }
{
    let (contref, revision) = number_pair(items)?;
    Some(TableValue::Continuation(VMContObj { contref, revision }))
}

fn number_value(value: &Value) -> Option<TableValue>
    ensures { result ≡ number_value (view value.now) }
{
    Some(TableValue::Number(value.as_u64()?))
}

#[tactic(auto, unfolding(crate::specs::Forms::value_form))]
fn element(value: &Value) -> Option<TableValue>
    ensures { result ≡ value_form (view value.now) }
{
    if value.is_null() {
        return Some(TableValue::Null);
    }
    match value.as_array() {
        Some(items) => pair(items.as_slice()),
        None => number_value(value),
    }
}

// The value of an element, which must be there.
fn value_in(field: Option<&Value>) -> Option<TableValue>
    ensures { result ≡ required value_form (option_map (λ v. view v.now) field.entry) }
{
    element(field?)
}

#[tactic(auto, unfolding(crate::specs::Forms::get_form))]
fn get(value: &Value) -> Option<Command>
    ensures { result ≡ get_form (view value.now) }
{
    if !has_only(value, &["do", "of", "table", "at"]) {
        return None;
    }
    let of = number(value.get("of"))?;
    let table = number_or(0, value.get("table"))?;
    let at = number(value.get("at"))?;
    Some(Command::Get {
        of: of as usize,
        table: table as usize,
        at,
    })
}

#[tactic(auto, unfolding(crate::specs::Forms::set_form))]
fn set(value: &Value) -> Option<Command>
    ensures { result ≡ set_form (view value.now) }
{
    if !has_only(value, &["do", "of", "table", "at", "value"]) {
        return None;
    }
    let of = number(value.get("of"))?;
    let table = number_or(0, value.get("table"))?;
    let at = number(value.get("at"))?;
    let to = value_in(value.get("value"))?;
    Some(Command::Set {
        of: of as usize,
        table: table as usize,
        at,
        value: to,
    })
}

#[tactic(auto, unfolding(crate::specs::Forms::table_fill_form))]
fn table_fill(value: &Value) -> Option<Command>
    ensures { result ≡ table_fill_form (view value.now) }
{
    if !has_only(value, &["do", "of", "table", "at", "value", "len"]) {
        return None;
    }
    let of = number(value.get("of"))?;
    let table = number_or(0, value.get("table"))?;
    let at = number(value.get("at"))?;
    let to = value_in(value.get("value"))?;
    let len = number(value.get("len"))?;
    Some(Command::TableFill {
        of: of as usize,
        table: table as usize,
        at,
        value: to,
        len,
    })
}

#[tactic(auto, unfolding(crate::specs::Forms::table_grow_form))]
fn table_grow(value: &Value) -> Option<Command>
    ensures { result ≡ table_grow_form (view value.now) }
{
    if !has_only(value, &["do", "of", "table", "by"]) {
        return None;
    }
    let of = number(value.get("of"))?;
    let table = number_or(0, value.get("table"))?;
    let by = number(value.get("by"))?;
    Some(Command::TableGrow {
        of: of as usize,
        table: table as usize,
        by,
    })
}

#[tactic(auto, unfolding(crate::specs::Forms::table_size_form))]
fn table_size(value: &Value) -> Option<Command>
    ensures { result ≡ table_size_form (view value.now) }
{
    if !has_only(value, &["do", "of", "table"]) {
        return None;
    }
    let of = number(value.get("of"))?;
    let table = number_or(0, value.get("table"))?;
    Some(Command::TableSize {
        of: of as usize,
        table: table as usize,
    })
}

/// The command on a table of this name, or one that names no earlier one.
pub fn command_on_table(name: &str, value: &Value) -> Option<Command>
    ensures { result ≡ form_on_table name.now (view value.now) }
{
    if name == "get" {
        get(value)
    } else if name == "set" {
        set(value)
    } else if name == "table_fill" {
        table_fill(value)
    } else if name == "table_grow" {
        table_grow(value)
    } else if name == "table_size" {
        table_size(value)
    } else {
        command_without_grant(name, value)
    }
}
