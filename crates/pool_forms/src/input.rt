ghost use Rattle.std.specs.Prelude.{◌≡◌, None, option_map};
ghost use Rattle.serde_json.specs.View.{view, items_view};
ghost use Rattle.pool_forms.specs.Fields.{optional, or_null};
ghost use Rattle.pool_forms.specs.Forms.{limits_form, party_form, step_form, pair_form, schedule_entry_form, input_form};

use crate::fields::{flag_or, has_only, number_or, number_or_none, number_pair};
use crate::form_fault::FormFault;
use crate::from_json::{FromJson, list_or_empty};
use crate::settings::{config, count_or, offered, tunables};
use pool_run::{Input, Party, PartyLimits, ScheduleEntry};
use serde_json::Value;
use std::alloc::Global;

#[tactic(auto, unfolding(crate::specs::Forms::limits_form))]
fn limits_of(value: &Value) -> Option<PartyLimits>
    ensures { result ≡ limits_form (view value.now) }
{
    if !has_only(
        value,
        &["memory_size", "table_elements", "trap_on_grow_failure"],
    ) {
        return None;
    }
    let size = number_or_none(value.get("memory_size"))?;
    let elements = number_or_none(value.get("table_elements"))?;
    let trap_on_grow_failure = flag_or(false, value.get("trap_on_grow_failure"))?;
    Some(PartyLimits {
        memory_size: size.map(|bytes| bytes as usize),
        table_elements: elements.map(|count| count as usize),
        trap_on_grow_failure,
    })
}

fn limits_or_null(value: &Value) -> Option<Option<PartyLimits>>
    ensures { result ≡ or_null limits_form (view value.now) }
{
    if value.is_null() {
        return Some(None);
    }
    Some(Some(limits_of(value)?))
}

/// Limits that may be left out, or be null.
fn limits(field: Option<&Value>) -> Option<Option<PartyLimits>>
    ensures { result ≡ optional None (or_null limits_form) (option_map (λ v. view v.now) field.entry) }
{
    match field {
        None => Some(None),
        Some(value) => limits_or_null(value),
    }
}

impl FromJson for Party {
    ghost form = { party_form };

    #[tactic(auto, unfolding(crate::specs::Forms::party_form))]
    fn from_json(alloc: Global, value: &Value) -> Result<Party, FormFault> {
        if !has_only(
            value,
            &["home", "limits", "gc_faults", "heap_faults", "commands"],
        ) {
            return Err(FormFault::OtherForm);
        }
        let home = number_or(0, value.get("home")).ok_or(FormFault::OtherForm)?;
        let limits = limits(value.get("limits")).ok_or(FormFault::OtherForm)?;
        let gc_faults = list_or_empty(alloc, value.get("gc_faults"))?;
        let heap_faults = list_or_empty(alloc, value.get("heap_faults"))?;
        let commands = list_or_empty(alloc, value.get("commands"))?;
        Ok(Party {
            home,
            limits,
            gc_faults,
            heap_faults,
            commands,
        })
    }
}

/// One step of a party, as the party's number.
#[tactic(auto, unfolding(crate::specs::Forms::step_form))]
fn step(value: &Value) -> Option<ScheduleEntry>
    ensures { result ≡ step_form (view value.now) }
{
    let party = value.as_u64()?;
    Some(ScheduleEntry {
        party: party as usize,
        times: 1,
    })
}

/// Steps of a party, as its number and how many they are.
fn pair(items: &[Value]) -> Option<ScheduleEntry>
    ensures { result ≡ pair_form (items_view items.now) }
{
    let (party, times) = number_pair(items)?;
    Some(ScheduleEntry {
        party: party as usize,
        times,
    })
}

impl FromJson for ScheduleEntry {
    ghost form = { schedule_entry_form };

    #[tactic(auto, unfolding(crate::specs::Forms::schedule_entry_form))]
    fn from_json(_alloc: Global, value: &Value) -> Result<ScheduleEntry, FormFault> {
        match value.as_array() {
            Some(items) => pair(items.as_slice()).ok_or(FormFault::OtherForm),
            None => step(value).ok_or(FormFault::OtherForm),
        }
    }
}

impl FromJson for Input {
    ghost form = { input_form };

    #[tactic(auto, unfolding(crate::specs::Forms::input_form))]
    fn from_json(alloc: Global, value: &Value) -> Result<Input, FormFault> {
        if !has_only(
            value,
            &[
                "page", "shards", "config", "tunables", "offered", "modules", "parties",
                "schedule", "finish", "faults",
            ],
        ) {
            return Err(FormFault::OtherForm);
        }
        let page = number_or(4096, value.get("page")).ok_or(FormFault::OtherForm)?;
        let shards = count_or(1, value.get("shards")).ok_or(FormFault::OtherForm)?;
        let config = config(value.get("config")).ok_or(FormFault::OtherForm)?;
        let tunables = tunables(value.get("tunables")).ok_or(FormFault::OtherForm)?;
        let offered = offered(value.get("offered")).ok_or(FormFault::OtherForm)?;
        let modules = list_or_empty(alloc, value.get("modules"))?;
        let parties = list_or_empty(alloc, value.get("parties"))?;
        let schedule = list_or_empty(alloc, value.get("schedule"))?;
        let finish = flag_or(true, value.get("finish")).ok_or(FormFault::OtherForm)?;
        let faults = list_or_empty(alloc, value.get("faults"))?;
        Ok(Input {
            page: page as usize,
            shards,
            config,
            tunables,
            offered,
            modules,
            parties,
            schedule,
            finish,
            faults,
        })
    }
}
