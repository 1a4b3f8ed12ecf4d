ghost use Rattle.std.specs.Prelude.{◌≡◌};
ghost use Rattle.serde_json.specs.View.{view};
ghost use Rattle.pool_forms.specs.Fields.{IsOfForm};
ghost use Rattle.pool_forms.specs.Forms.{instantiate_form, read_form, write_form, fill_form, grow_form, size_form, drop_form, command_form};

use crate::fields::{bytes, has_only, number, number_or, text};
use crate::form_fault::FormFault;
use crate::from_json::FromJson;
use crate::table_commands::command_on_table;
use pool_run::Command;
use serde_json::Value;
use std::alloc::Global;

#[tactic(auto, unfolding(crate::specs::Forms::instantiate_form))]
fn instantiate(value: &Value) -> Option<Command>
    ensures { result ≡ instantiate_form (view value.now) }
{
    if !has_only(value, &["do", "module"]) {
        return None;
    }
    let module = number(value.get("module"))?;
    Some(Command::Instantiate {
        module: module as usize,
    })
}

#[tactic(auto, unfolding(crate::specs::Forms::read_form))]
fn read(value: &Value) -> Option<Command>
    ensures { result ≡ read_form (view value.now) }
{
    if !has_only(value, &["do", "of", "memory", "at", "len"]) {
        return None;
    }
    let of = number(value.get("of"))?;
    let memory = number_or(0, value.get("memory"))?;
    let at = number_or(0, value.get("at"))?;
    let len = number(value.get("len"))?;
    Some(Command::Read {
        of: of as usize,
        memory: memory as usize,
        at,
        len: len as usize,
    })
}

#[tactic(auto, unfolding(crate::specs::Forms::write_form))]
fn write(alloc: Global, value: &Value) -> Result<Command, FormFault>
    ensures { IsOfForm (write_form (view value.now)) result }
{
    if !has_only(value, &["do", "of", "memory", "at", "hex"]) {
        return Err(FormFault::OtherForm);
    }
    let of = number(value.get("of")).ok_or(FormFault::OtherForm)?;
    let memory = number_or(0, value.get("memory")).ok_or(FormFault::OtherForm)?;
    let at = number(value.get("at")).ok_or(FormFault::OtherForm)?;
    let hex = bytes(alloc, value.get("hex"))?;
    Ok(Command::Write {
        of: of as usize,
        memory: memory as usize,
        at,
        hex,
    })
}

#[tactic(auto, unfolding(crate::specs::Forms::fill_form))]
fn fill(value: &Value) -> Option<Command>
    ensures { result ≡ fill_form (view value.now) }
{
    if !has_only(value, &["do", "of", "memory", "at", "len", "byte"]) {
        return None;
    }
    let of = number(value.get("of"))?;
    let memory = number_or(0, value.get("memory"))?;
    let at = number(value.get("at"))?;
    let len = number(value.get("len"))?;
    let byte = number(value.get("byte"))?;
    Some(Command::Fill {
        of: of as usize,
        memory: memory as usize,
        at,
        len,
        byte: byte.min(255) as u8,
    })
}

#[tactic(auto, unfolding(crate::specs::Forms::grow_form))]
fn grow(value: &Value) -> Option<Command>
    ensures { result ≡ grow_form (view value.now) }
{
    if !has_only(value, &["do", "of", "memory", "pages"]) {
        return None;
    }
    let of = number(value.get("of"))?;
    let memory = number_or(0, value.get("memory"))?;
    let pages = number(value.get("pages"))?;
    Some(Command::Grow {
        of: of as usize,
        memory: memory as usize,
        pages,
    })
}

#[tactic(auto, unfolding(crate::specs::Forms::size_form))]
fn size(value: &Value) -> Option<Command>
    ensures { result ≡ size_form (view value.now) }
{
    if !has_only(value, &["do", "of", "memory"]) {
        return None;
    }
    let of = number(value.get("of"))?;
    let memory = number_or(0, value.get("memory"))?;
    Some(Command::Size {
        of: of as usize,
        memory: memory as usize,
    })
}

#[tactic(auto, unfolding(crate::specs::Forms::drop_form))]
fn give_back(value: &Value) -> Option<Command>
    ensures { result ≡ drop_form (view value.now) }
{
    if !has_only(value, &["do", "of"]) {
        return None;
    }
    let of = number(value.get("of"))?;
    Some(Command::Drop { of: of as usize })
}

impl FromJson for Command {
    ghost form = { command_form };

    #[tactic(auto, unfolding(crate::specs::Forms::command_form))]
    fn from_json(alloc: Global, value: &Value) -> Result<Command, FormFault> {
        let name = text(value.get("do")).ok_or(FormFault::OtherForm)?;
        if name == "instantiate" {
            instantiate(value).ok_or(FormFault::OtherForm)
        } else if name == "read" {
            read(value).ok_or(FormFault::OtherForm)
        } else if name == "write" {
            write(alloc, value)
        } else if name == "fill" {
            fill(value).ok_or(FormFault::OtherForm)
        } else if name == "grow" {
            grow(value).ok_or(FormFault::OtherForm)
        } else if name == "size" {
            size(value).ok_or(FormFault::OtherForm)
        } else if name == "drop" {
            give_back(value).ok_or(FormFault::OtherForm)
        } else {
            command_on_table(name, value).ok_or(FormFault::OtherForm)
        }
    }
}
