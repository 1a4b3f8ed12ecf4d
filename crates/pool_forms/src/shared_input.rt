ghost use Rattle.std.specs.Prelude.{◌≡◌, ◌^◌, option_map};
ghost use Rattle.std.specs.List.{list_all};
ghost use Rattle.serde_json.specs.View.{view, items_view};
ghost use Rattle.pool_forms.specs.Fields.{IsOfForm, required, list_of};
ghost use Rattle.pool_forms.specs.ModuleForms.{memory_form};
ghost use Rattle.pool_forms.specs.Ranges.{all_pass, each_passes};
ghost use Rattle.pool_forms.specs.SharedForms.{shared_form, event_form, waits32, event_fits, events_fit};

use crate::fields::{has_only, is_below, number_or, text};
use crate::form_fault::FormFault;
use crate::from_json::{FromJson, list};
use pool_run_shared::SharedInput;
use pool_types::MemoryDecl;
use serde_json::Value;
use std::alloc::Global;

/// A memory that must be there.
fn memory(alloc: Global, field: Option<&Value>) -> Result<MemoryDecl, FormFault>
    ensures { IsOfForm (required memory_form (option_map (λ v. view v.now) field.entry)) result }
{
    match field {
        Some(value) => MemoryDecl::from_json(alloc, value),
        None => Err(FormFault::OtherForm),
    }
}

impl FromJson for SharedInput {
    ghost form = { shared_form };

    #[tactic(auto, unfolding(crate::specs::SharedForms::shared_form))]
    fn from_json(alloc: Global, value: &Value) -> Result<SharedInput, FormFault> {
        if !has_only(value, &["page", "memory", "events"]) {
            return Err(FormFault::OtherForm);
        }
        let page = number_or(4096, value.get("page")).ok_or(FormFault::OtherForm)?;
        let memory = memory(alloc, value.get("memory"))?;
        let events = list(alloc, value.get("events"))?;
        Ok(SharedInput {
            page: page as usize,
            memory,
            events,
        })
    }
}

fn waits32(event: &Value) -> bool
    ensures { result ≡ waits32 (view event.now) }
{
    match text(event.get("do")) {
        Some(name) => name == "wait32",
        None => false,
    }
}

fn event_fits(event: &Value) -> bool
    ensures { result ≡ event_fits (view event.now) }
{
    is_below(1 << 32, event.get("count"))
        && (!waits32(event) || is_below(1 << 32, event.get("expect")))
}

fn each_event_fits(events: &[Value]) -> bool
    ensures { result ≡ list_all (λ event. event_fits (view event)) events.now }
{
    events.iter().all(|event| event_fits(event))
}

fn all_events_fit(events: &[Value]) -> bool
    ensures { result ≡ all_pass event_fits (items_view events.now) }
{
    each_event_fits(events)
}

/// Whether the types of their fields can hold all numbers of an input of events.
pub fn events_fit(value: &Value) -> bool
    ensures { result ≡ events_fit (view value.now) }
{
    match value.get("events") {
        None => true,
        Some(events) => match events.as_array() {
            Some(events) => all_events_fit(events.as_slice()),
            None => true,
        },
    }
}
