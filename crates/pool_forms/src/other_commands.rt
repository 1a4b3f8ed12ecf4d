ghost use Rattle.std.specs.Prelude.{◌≡◌};
ghost use Rattle.serde_json.specs.View.{view};
ghost use Rattle.pool_forms.specs.Forms.{component_form, heap_form, purge_form, bare_form, form_without_grant};

use crate::fields::{has_only, number, number_or, number_or_none};
use pool_run::Command;
use serde_json::Value;

#[tactic(auto, unfolding(crate::specs::Forms::component_form))]
fn component(value: &Value) -> Option<Command>
    ensures { result ≡ component_form (view value.now) }
{
    if !has_only(
        value,
        &[
            "do",
            "core_instances",
            "memories",
            "tables",
            "core_bytes",
            "own_bytes",
        ],
    ) {
        return None;
    }
    let core_instances = number_or(0, value.get("core_instances"))?;
    let memories = number_or(0, value.get("memories"))?;
    let tables = number_or(0, value.get("tables"))?;
    let core_bytes = number_or(0, value.get("core_bytes"))?;
    let own_bytes = number_or(0, value.get("own_bytes"))?;
    Some(Command::Component {
        core_instances,
        memories,
        tables,
        core_bytes,
        own_bytes,
    })
}

#[tactic(auto, unfolding(crate::specs::Forms::heap_form))]
fn heap(value: &Value) -> Option<Command>
    ensures { result ≡ heap_form (view value.now) }
{
    if !has_only(value, &["do", "min", "max"]) {
        return None;
    }
    let min = number(value.get("min"))?;
    let max = number_or_none(value.get("max"))?;
    Some(Command::Heap { min, max })
}

#[tactic(auto, unfolding(crate::specs::Forms::purge_form))]
fn purge(value: &Value) -> Option<Command>
    ensures { result ≡ purge_form (view value.now) }
{
    if !has_only(value, &["do", "module"]) {
        return None;
    }
    let module = number(value.get("module"))?;
    Some(Command::Purge {
        module: module as usize,
    })
}

// A command without fields.
fn bare(command: Command, value: &Value) -> Option<Command>
    ensures { result ≡ bare_form command (view value.now) }
{
    if !has_only(value, &["do"]) {
        return None;
    }
    Some(command)
}

/// The command of this name, which names no earlier one.
pub fn command_without_grant(name: &str, value: &Value) -> Option<Command>
    ensures { result ≡ form_without_grant name.now (view value.now) }
{
    if name == "component" {
        component(value)
    } else if name == "stack" {
        bare(Command::Stack, value)
    } else if name == "heap" {
        heap(value)
    } else if name == "purge" {
        purge(value)
    } else if name == "release" {
        bare(Command::Release, value)
    } else {
        None
    }
}
