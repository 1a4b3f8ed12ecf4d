ghost use Rattle.std.specs.Prelude.{◌≡◌, option_map};
ghost use Rattle.serde_json.specs.View.{view};
ghost use Rattle.pool_forms.specs.Fields.{IsOfForm, required, or_null, whole_number};
ghost use Rattle.pool_forms.specs.SharedForms.{in_32_bits, wait32_form, wait64_form, wake_form, notify_form, shared_read_form, shared_write_form, shared_grow_form, shared_size_form, event_form};

use crate::fields::{bytes, has_only, number, number_or, number_or_null, text};
use crate::form_fault::FormFault;
use crate::from_json::FromJson;
use pool_run_shared::SharedEvent;
use serde_json::Value;
use std::alloc::Global;

/// The number, or the greatest that 32 bits can hold.
fn in_32_bits(number: u64) -> u32
    ensures { result ≡ in_32_bits number }
{
    number.min(0xffff_ffff) as u32
}

/// A timeout, which must be there, and may be null.
fn timeout(field: Option<&Value>) -> Option<Option<u64>>
    ensures { result ≡ required (or_null whole_number) (option_map (λ v. view v.now) field.entry) }
{
    number_or_null(field?)
}

#[tactic(auto, unfolding(crate::specs::SharedForms::wait32_form))]
fn wait32(value: &Value) -> Option<SharedEvent>
    ensures { result ≡ wait32_form (view value.now) }
{
    if !has_only(value, &["do", "waiter", "at", "expect", "now", "timeout"]) {
        return None;
    }
    let waiter = number(value.get("waiter"))?;
    let at = number(value.get("at"))?;
    let expect = number(value.get("expect"))?;
    let now = number(value.get("now"))?;
    let timeout = timeout(value.get("timeout"))?;
    Some(SharedEvent::Wait32 {
        waiter: in_32_bits(waiter),
        at,
        expect: in_32_bits(expect),
        now,
        timeout,
    })
}

#[tactic(auto, unfolding(crate::specs::SharedForms::wait64_form))]
fn wait64(value: &Value) -> Option<SharedEvent>
    ensures { result ≡ wait64_form (view value.now) }
{
    if !has_only(value, &["do", "waiter", "at", "expect", "now", "timeout"]) {
        return None;
    }
    let waiter = number(value.get("waiter"))?;
    let at = number(value.get("at"))?;
    let expect = number(value.get("expect"))?;
    let now = number(value.get("now"))?;
    let timeout = timeout(value.get("timeout"))?;
    Some(SharedEvent::Wait64 {
        waiter: in_32_bits(waiter),
        at,
        expect,
        now,
        timeout,
    })
}

#[tactic(auto, unfolding(crate::specs::SharedForms::wake_form))]
fn wake(value: &Value) -> Option<SharedEvent>
    ensures { result ≡ wake_form (view value.now) }
{
    if !has_only(value, &["do", "waiter", "now"]) {
        return None;
    }
    let waiter = number(value.get("waiter"))?;
    let now = number(value.get("now"))?;
    Some(SharedEvent::Wake {
        waiter: in_32_bits(waiter),
        now,
    })
}

#[tactic(auto, unfolding(crate::specs::SharedForms::notify_form))]
fn notify(value: &Value) -> Option<SharedEvent>
    ensures { result ≡ notify_form (view value.now) }
{
    if !has_only(value, &["do", "at", "count"]) {
        return None;
    }
    let at = number(value.get("at"))?;
    let count = number(value.get("count"))?;
    Some(SharedEvent::Notify {
        at,
        count: in_32_bits(count),
    })
}

#[tactic(auto, unfolding(crate::specs::SharedForms::shared_read_form))]
fn read(value: &Value) -> Option<SharedEvent>
    ensures { result ≡ shared_read_form (view value.now) }
{
    if !has_only(value, &["do", "at", "len"]) {
        return None;
    }
    let at = number_or(0, value.get("at"))?;
    let len = number(value.get("len"))?;
    Some(SharedEvent::Read {
        at,
        len: len as usize,
    })
}

#[tactic(auto, unfolding(crate::specs::SharedForms::shared_write_form))]
fn write(alloc: Global, value: &Value) -> Result<SharedEvent, FormFault>
    ensures { IsOfForm (shared_write_form (view value.now)) result }
{
    if !has_only(value, &["do", "at", "hex"]) {
        return Err(FormFault::OtherForm);
    }
    let at = number(value.get("at")).ok_or(FormFault::OtherForm)?;
    let hex = bytes(alloc, value.get("hex"))?;
    Ok(SharedEvent::Write { at, hex })
}

#[tactic(auto, unfolding(crate::specs::SharedForms::shared_grow_form))]
fn grow(value: &Value) -> Option<SharedEvent>
    ensures { result ≡ shared_grow_form (view value.now) }
{
    if !has_only(value, &["do", "pages"]) {
        return None;
    }
    let pages = number(value.get("pages"))?;
    Some(SharedEvent::Grow { pages })
}

#[tactic(auto, unfolding(crate::specs::SharedForms::shared_size_form))]
fn size(value: &Value) -> Option<SharedEvent>
    ensures { result ≡ shared_size_form (view value.now) }
{
    if !has_only(value, &["do"]) {
        return None;
    }
    Some(SharedEvent::Size)
}

impl FromJson for SharedEvent {
    ghost form = { event_form };

    #[tactic(auto, unfolding(crate::specs::SharedForms::event_form))]
    fn from_json(alloc: Global, value: &Value) -> Result<SharedEvent, FormFault> {
        let name = text(value.get("do")).ok_or(FormFault::OtherForm)?;
        if name == "wait32" {
            wait32(value).ok_or(FormFault::OtherForm)
        } else if name == "wait64" {
            wait64(value).ok_or(FormFault::OtherForm)
        } else if name == "wake" {
            wake(value).ok_or(FormFault::OtherForm)
        } else if name == "notify" {
            notify(value).ok_or(FormFault::OtherForm)
        } else if name == "read" {
            read(value).ok_or(FormFault::OtherForm)
        } else if name == "write" {
            write(alloc, value)
        } else if name == "grow" {
            grow(value).ok_or(FormFault::OtherForm)
        } else if name == "size" {
            size(value).ok_or(FormFault::OtherForm)
        } else {
            Err(FormFault::OtherForm)
        }
    }
}
