use crate::plan::Settings;
use pool_types::{DecommitBehavior, Enabled, Offered, PoolingAllocationConfig, Tunables};
use serde_json::Value;
use std::alloc::AllocError;
use std::fmt::Write;

/// The value of a setting.
#[derive(Clone, Copy)]
enum Shown {
    Number(u64),
    Flag(bool),
    Word(&'static str),
}

/// A setting by its name.
#[derive(Clone, Copy)]
struct Setting {
    name: &'static str,
    value: Shown,
}

fn number(name: &'static str, value: u64) -> Setting {
    Setting {
        name,
        value: Shown::Number(value),
    }
}

fn count(name: &'static str, value: u32) -> Setting {
    number(name, value as u64)
}

fn size(name: &'static str, value: usize) -> Setting {
    number(name, value as u64)
}

fn flag(name: &'static str, value: bool) -> Setting {
    Setting {
        name,
        value: Shown::Flag(value),
    }
}

fn word(name: &'static str, value: &'static str) -> Setting {
    Setting {
        name,
        value: Shown::Word(value),
    }
}

fn enabled_name(enabled: Enabled) -> &'static str {
    match enabled {
        Enabled::Auto => "auto",
        Enabled::Yes => "yes",
        Enabled::No => "no",
    }
}

fn behaviour_name(behaviour: DecommitBehavior) -> &'static str {
    match behaviour {
        DecommitBehavior::RestoreOriginalMapping => "restore",
        DecommitBehavior::Zero => "zero",
    }
}

/// Whether the object has a field of this name.
fn origin_of(object: Option<&Value>, name: &str) -> &'static str {
    match object {
        Some(object) if object.get(name).is_some() => "given",
        _ => "default",
    }
}

/// Adds a line with a setting, its value, and whether the input has it.
fn push_setting(
    out: &mut String,
    object: Option<&Value>,
    part: &str,
    setting: &Setting,
) -> Result<(), AllocError> {
    let name = setting.name;
    let origin = origin_of(object, name);
    match setting.value {
        Shown::Number(value) => write!(out, "{part}{name} = {value} ({origin})\n"),
        Shown::Flag(value) => write!(out, "{part}{name} = {value} ({origin})\n"),
        Shown::Word(value) => write!(out, "{part}{name} = \"{value}\" ({origin})\n"),
    }
}

/// Adds the settings of an object, if it is there, after its name with a dot.
fn push_settings(
    out: &mut String,
    object: Option<&Value>,
    part: &str,
    settings: &[Setting],
) -> Result<(), AllocError> {
    for setting in settings {
        push_setting(out, object, part, setting)?;
    }
    Ok(())
}

fn push_totals(
    out: &mut String,
    object: Option<&Value>,
    config: &PoolingAllocationConfig,
) -> Result<(), AllocError> {
    let limits = &config.limits;
    push_settings(
        out,
        object,
        "config.",
        &[
            count("total_core_instances", limits.total_core_instances),
            count(
                "total_component_instances",
                limits.total_component_instances,
            ),
            count("total_memories", limits.total_memories),
            count("total_tables", limits.total_tables),
            count("total_stacks", limits.total_stacks),
            count("total_gc_heaps", limits.total_gc_heaps),
        ],
    )
}

fn push_shares(
    out: &mut String,
    object: Option<&Value>,
    config: &PoolingAllocationConfig,
) -> Result<(), AllocError> {
    let limits = &config.limits;
    push_settings(
        out,
        object,
        "config.",
        &[
            count("max_memories_per_module", limits.max_memories_per_module),
            count("max_tables_per_module", limits.max_tables_per_module),
            count(
                "max_core_instances_per_component",
                limits.max_core_instances_per_component,
            ),
            count(
                "max_memories_per_component",
                limits.max_memories_per_component,
            ),
            count("max_tables_per_component", limits.max_tables_per_component),
        ],
    )
}

fn push_sizes(
    out: &mut String,
    object: Option<&Value>,
    config: &PoolingAllocationConfig,
) -> Result<(), AllocError> {
    let limits = &config.limits;
    push_settings(
        out,
        object,
        "config.",
        &[
            size("max_memory_size", limits.max_memory_size),
            size("table_elements", limits.table_elements),
            size("core_instance_size", limits.core_instance_size),
            size("component_instance_size", limits.component_instance_size),
            size("stack_size", config.stack_size),
        ],
    )
}

fn push_reuse(
    out: &mut String,
    object: Option<&Value>,
    config: &PoolingAllocationConfig,
) -> Result<(), AllocError> {
    push_settings(
        out,
        object,
        "config.",
        &[
            count("max_unused_warm_slots", config.max_unused_warm_slots),
            size("decommit_batch_size", config.decommit_batch_size),
            size(
                "linear_memory_keep_resident",
                config.linear_memory_keep_resident,
            ),
            size("table_keep_resident", config.table_keep_resident),
            size(
                "async_stack_keep_resident",
                config.async_stack_keep_resident,
            ),
            flag("async_stack_zeroing", config.async_stack_zeroing),
            word(
                "memory_protection_keys",
                enabled_name(config.memory_protection_keys),
            ),
            size(
                "max_memory_protection_keys",
                config.max_memory_protection_keys,
            ),
            word("pagemap_scan", enabled_name(config.pagemap_scan)),
        ],
    )
}

fn push_memory_tunables(
    out: &mut String,
    object: Option<&Value>,
    tunables: &Tunables,
) -> Result<(), AllocError> {
    push_settings(
        out,
        object,
        "tunables.",
        &[
            number("memory_reservation", tunables.memory_reservation),
            number("memory_guard_size", tunables.memory_guard_size),
            number(
                "memory_reservation_for_growth",
                tunables.memory_reservation_for_growth,
            ),
            flag("memory_may_move", tunables.memory_may_move),
            flag(
                "guard_before_linear_memory",
                tunables.guard_before_linear_memory,
            ),
            flag("signals_based_traps", tunables.signals_based_traps),
            flag("memory_init_cow", tunables.memory_init_cow),
            flag("table_lazy_init", tunables.table_lazy_init),
        ],
    )
}

fn push_heap_tunables(
    out: &mut String,
    object: Option<&Value>,
    tunables: &Tunables,
) -> Result<(), AllocError> {
    push_settings(
        out,
        object,
        "tunables.",
        &[
            flag("collector", tunables.collector),
            number("gc_heap_reservation", tunables.gc_heap_reservation),
            number("gc_heap_guard_size", tunables.gc_heap_guard_size),
            number(
                "gc_heap_reservation_for_growth",
                tunables.gc_heap_reservation_for_growth,
            ),
            flag("gc_heap_may_move", tunables.gc_heap_may_move),
        ],
    )
}

fn push_offered(
    out: &mut String,
    object: Option<&Value>,
    offered: &Offered,
) -> Result<(), AllocError> {
    push_settings(
        out,
        object,
        "offered.",
        &[
            count("keys", offered.keys),
            flag("dirty_pages", offered.dirty_pages),
            word("behaviour", behaviour_name(offered.behaviour)),
        ],
    )
}

/// Adds all settings, a line each. The value is the input that they are of.
pub fn push_all_settings(
    out: &mut String,
    settings: &Settings<'_>,
    value: &Value,
) -> Result<(), AllocError> {
    let config = value.get("config");
    let tunables = value.get("tunables");
    let offered = value.get("offered");
    push_settings(
        out,
        Some(value),
        "",
        &[
            size("page", settings.page),
            count("shards", settings.shards),
        ],
    )?;
    push_totals(out, config, settings.config)?;
    push_shares(out, config, settings.config)?;
    push_sizes(out, config, settings.config)?;
    push_reuse(out, config, settings.config)?;
    push_memory_tunables(out, tunables, settings.tunables)?;
    push_heap_tunables(out, tunables, settings.tunables)?;
    push_offered(out, offered, settings.offered)
}
