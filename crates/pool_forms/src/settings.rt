ghost use Rattle.std.specs.Prelude.{◌≡◌, option_map};
ghost use Rattle.serde_json.specs.View.{view};
ghost use Rattle.pool_types.specs.Config.{default_config, default_offered, default_tunables};
ghost use Rattle.pool_types.specs.declared.config.Enabled.TheVariants.{No};
ghost use Rattle.pool_types.specs.declared.decommit_behavior.DecommitBehavior.TheVariants.{RestoreOriginalMapping};
ghost use Rattle.pool_forms.specs.Fields.{optional, required};
ghost use Rattle.pool_forms.specs.SettingsForms.{count_form, totals_form, shares_form, sizes_form, instance_limits_form, enabled_form, enabled_named, slots_form, stacks_form, system_form, config_form, memory_tunables_form, heap_tunables_form, tunables_form, behaviour_form, behaviour_named, offered_form, kind_form, kind_named, fault_form};

use crate::fields::{flag_or, has_only, number, number_or, text};
use crate::form_fault::FormFault;
use crate::from_json::FromJson;
use pool_pages::{Fault, FaultKind};
use pool_types::{
    DecommitBehavior, Enabled, InstanceLimits, Offered, PoolingAllocationConfig, Tunables,
};
use serde_json::Value;
use std::alloc::Global;

/// A number of things that may be left out.
pub fn count_or(default: u32, field: Option<&Value>) -> Option<u32>
    ensures { result ≡ optional default count_form (option_map (λ v. view v.now) field.entry) }
{
    match field {
        None => Some(default),
        Some(value) => Some(value.as_u64()?.min(u32::MAX as u64) as u32),
    }
}

/// How many there are of each thing.
#[tactic(auto, unfolding(crate::specs::SettingsForms::totals_form))]
fn totals(value: &Value) -> Option<InstanceLimits>
    ensures { result ≡ totals_form (view value.now) }
{
    let total_core_instances = count_or(1000, value.get("total_core_instances"))?;
    let total_component_instances = count_or(1000, value.get("total_component_instances"))?;
    let total_memories = count_or(10, value.get("total_memories"))?;
    let total_tables = count_or(10, value.get("total_tables"))?;
    let total_stacks = count_or(0, value.get("total_stacks"))?;
    let total_gc_heaps = count_or(0, value.get("total_gc_heaps"))?;
    let mut limits = InstanceLimits::default();
    limits.total_core_instances = total_core_instances;
    limits.total_component_instances = total_component_instances;
    limits.total_memories = total_memories;
    limits.total_tables = total_tables;
    limits.total_stacks = total_stacks;
    limits.total_gc_heaps = total_gc_heaps;
    Some(limits)
}

/// Beside these limits, how many things an instance of a module and one of a component may have.
#[tactic(auto, unfolding(crate::specs::SettingsForms::shares_form))]
fn with_shares(limits: InstanceLimits, value: &Value) -> Option<InstanceLimits>
    ensures { result ≡ shares_form limits (view value.now) }
{
    let memories = count_or(1, value.get("max_memories_per_module"))?;
    let tables = count_or(1, value.get("max_tables_per_module"))?;
    let instances = count_or(1000, value.get("max_core_instances_per_component"))?;
    let all_memories = count_or(1000, value.get("max_memories_per_component"))?;
    let all_tables = count_or(1000, value.get("max_tables_per_component"))?;
    let mut limits = limits;
    limits.max_memories_per_module = memories;
    limits.max_tables_per_module = tables;
    limits.max_core_instances_per_component = instances;
    limits.max_memories_per_component = all_memories;
    limits.max_tables_per_component = all_tables;
    Some(limits)
}

/// Beside these limits, how large each thing may be.
#[tactic(auto, unfolding(crate::specs::SettingsForms::sizes_form))]
fn with_sizes(limits: InstanceLimits, value: &Value) -> Option<InstanceLimits>
    ensures { result ≡ sizes_form limits (view value.now) }
{
    let memory = number_or(65536, value.get("max_memory_size"))?;
    let elements = number_or(100, value.get("table_elements"))?;
    let instance = number_or(1048576, value.get("core_instance_size"))?;
    let component = number_or(1048576, value.get("component_instance_size"))?;
    let mut limits = limits;
    limits.max_memory_size = memory as usize;
    limits.table_elements = elements as usize;
    limits.core_instance_size = instance as usize;
    limits.component_instance_size = component as usize;
    Some(limits)
}

fn instance_limits(value: &Value) -> Option<InstanceLimits>
    ensures { result ≡ instance_limits_form (view value.now) }
{
    with_sizes(with_shares(totals(value)?, value)?, value)
}

fn enabled_named(name: &str) -> Option<Enabled>
    ensures { result ≡ enabled_named name.now }
{
    if name == "auto" {
        Some(Enabled::Auto)
    } else if name == "yes" {
        Some(Enabled::Yes)
    } else if name == "no" {
        Some(Enabled::No)
    } else {
        None
    }
}

/// Whether a feature is used. It is not where this is left out.
fn enabled(field: Option<&Value>) -> Option<Enabled>
    ensures { result ≡ optional No enabled_form (option_map (λ v. view v.now) field.entry) }
{
    match field {
        None => Some(Enabled::No),
        Some(value) => enabled_named(value.as_str()?),
    }
}

/// Beside these settings, how many slots stay warm, how many ranges are decommitted together, and what a reset of a
/// memory and of a table keeps resident.
#[tactic(auto, unfolding(crate::specs::SettingsForms::slots_form))]
fn with_slots(config: PoolingAllocationConfig, value: &Value) -> Option<PoolingAllocationConfig>
    ensures { result ≡ slots_form config (view value.now) }
{
    let warm = count_or(100, value.get("max_unused_warm_slots"))?;
    let batch = number_or(1, value.get("decommit_batch_size"))?;
    let memory = number_or(0, value.get("linear_memory_keep_resident"))?;
    let table = number_or(0, value.get("table_keep_resident"))?;
    let mut config = config;
    config.max_unused_warm_slots = warm;
    config.decommit_batch_size = batch as usize;
    config.linear_memory_keep_resident = memory as usize;
    config.table_keep_resident = table as usize;
    Some(config)
}

/// Beside these settings, those of stacks.
#[tactic(auto, unfolding(crate::specs::SettingsForms::stacks_form))]
fn with_stacks(config: PoolingAllocationConfig, value: &Value) -> Option<PoolingAllocationConfig>
    ensures { result ≡ stacks_form config (view value.now) }
{
    let size = number_or(0, value.get("stack_size"))?;
    let zeroing = flag_or(false, value.get("async_stack_zeroing"))?;
    let kept = number_or(0, value.get("async_stack_keep_resident"))?;
    let mut config = config;
    config.stack_size = size as usize;
    config.async_stack_zeroing = zeroing;
    config.async_stack_keep_resident = kept as usize;
    Some(config)
}

/// Beside these settings, those of protection keys.
#[tactic(auto, unfolding(crate::specs::SettingsForms::system_form))]
fn with_system(config: PoolingAllocationConfig, value: &Value) -> Option<PoolingAllocationConfig>
    ensures { result ≡ system_form config (view value.now) }
{
    let keys = enabled(value.get("memory_protection_keys"))?;
    let most = number_or(15, value.get("max_memory_protection_keys"))?;
    let scan = enabled(value.get("pagemap_scan"))?;
    let mut config = config;
    config.memory_protection_keys = keys;
    config.max_memory_protection_keys = most as usize;
    config.pagemap_scan = scan;
    Some(config)
}

#[tactic(auto, unfolding(crate::specs::SettingsForms::config_form))]
fn config_of(value: &Value) -> Option<PoolingAllocationConfig>
    ensures { result ≡ config_form (view value.now) }
{
    if !has_only(
        value,
        &[
            "total_core_instances",
            "total_component_instances",
            "total_memories",
            "total_tables",
            "total_stacks",
            "total_gc_heaps",
            "max_memories_per_module",
            "max_tables_per_module",
            "max_core_instances_per_component",
            "max_memories_per_component",
            "max_tables_per_component",
            "max_unused_warm_slots",
            "max_memory_size",
            "table_elements",
            "core_instance_size",
            "component_instance_size",
            "decommit_batch_size",
            "stack_size",
            "async_stack_zeroing",
            "async_stack_keep_resident",
            "linear_memory_keep_resident",
            "table_keep_resident",
            "memory_protection_keys",
            "max_memory_protection_keys",
            "pagemap_scan",
        ],
    ) {
        return None;
    }
    let limits = instance_limits(value)?;
    let mut config = PoolingAllocationConfig::default();
    config.limits = limits;
    let config = with_slots(config, value)?;
    let config = with_stacks(config, value)?;
    with_system(config, value)
}

/// Settings of the pool that may be left out.
pub fn config(field: Option<&Value>) -> Option<PoolingAllocationConfig>
    ensures { result ≡ optional default_config config_form (option_map (λ v. view v.now) field.entry) }
{
    match field {
        None => Some(PoolingAllocationConfig::default()),
        Some(value) => config_of(value),
    }
}

/// The settings of memories and tables.
#[tactic(auto, unfolding(crate::specs::SettingsForms::memory_tunables_form))]
fn memory_tunables(value: &Value) -> Option<Tunables>
    ensures { result ≡ memory_tunables_form (view value.now) }
{
    let reservation = number_or(1048576, value.get("memory_reservation"))?;
    let guard = number_or(65536, value.get("memory_guard_size"))?;
    let growth = number_or(0, value.get("memory_reservation_for_growth"))?;
    let moves = flag_or(true, value.get("memory_may_move"))?;
    let before = flag_or(false, value.get("guard_before_linear_memory"))?;
    let signals = flag_or(true, value.get("signals_based_traps"))?;
    let cow = flag_or(true, value.get("memory_init_cow"))?;
    let lazy = flag_or(true, value.get("table_lazy_init"))?;
    let mut tunables = Tunables::default();
    tunables.memory_reservation = reservation;
    tunables.memory_guard_size = guard;
    tunables.memory_reservation_for_growth = growth;
    tunables.memory_may_move = moves;
    tunables.guard_before_linear_memory = before;
    tunables.signals_based_traps = signals;
    tunables.memory_init_cow = cow;
    tunables.table_lazy_init = lazy;
    Some(tunables)
}

/// Beside these settings, those of GC heaps, which are those of memories where they are left out.
#[tactic(auto, unfolding(crate::specs::SettingsForms::heap_tunables_form))]
fn with_heaps(tunables: Tunables, value: &Value) -> Option<Tunables>
    ensures { result ≡ heap_tunables_form tunables (view value.now) }
{
    let collector = flag_or(false, value.get("collector"))?;
    let reservation = number_or(
        tunables.memory_reservation,
        value.get("gc_heap_reservation"),
    )?;
    let guard = number_or(tunables.memory_guard_size, value.get("gc_heap_guard_size"))?;
    let growth = number_or(
        tunables.memory_reservation_for_growth,
        value.get("gc_heap_reservation_for_growth"),
    )?;
    let moves = flag_or(tunables.memory_may_move, value.get("gc_heap_may_move"))?;
    let mut tunables = tunables;
    tunables.collector = collector;
    tunables.gc_heap_reservation = reservation;
    tunables.gc_heap_guard_size = guard;
    tunables.gc_heap_reservation_for_growth = growth;
    tunables.gc_heap_may_move = moves;
    Some(tunables)
}

#[tactic(auto, unfolding(crate::specs::SettingsForms::tunables_form))]
fn tunables_of(value: &Value) -> Option<Tunables>
    ensures { result ≡ tunables_form (view value.now) }
{
    if !has_only(
        value,
        &[
            "memory_reservation",
            "memory_guard_size",
            "memory_reservation_for_growth",
            "memory_may_move",
            "guard_before_linear_memory",
            "signals_based_traps",
            "memory_init_cow",
            "table_lazy_init",
            "collector",
            "gc_heap_reservation",
            "gc_heap_guard_size",
            "gc_heap_reservation_for_growth",
            "gc_heap_may_move",
        ],
    ) {
        return None;
    }
    with_heaps(memory_tunables(value)?, value)
}

/// Settings of the engine that may be left out.
pub fn tunables(field: Option<&Value>) -> Option<Tunables>
    ensures { result ≡ optional default_tunables tunables_form (option_map (λ v. view v.now) field.entry) }
{
    match field {
        None => Some(Tunables::default()),
        Some(value) => tunables_of(value),
    }
}

fn behaviour_named(name: &str) -> Option<DecommitBehavior>
    ensures { result ≡ behaviour_named name.now }
{
    if name == "restore" {
        Some(DecommitBehavior::RestoreOriginalMapping)
    } else if name == "zero" {
        Some(DecommitBehavior::Zero)
    } else {
        None
    }
}

fn behaviour(field: Option<&Value>) -> Option<DecommitBehavior>
    ensures { result ≡ optional RestoreOriginalMapping behaviour_form (option_map (λ v. view v.now) field.entry) }
{
    match field {
        None => Some(DecommitBehavior::RestoreOriginalMapping),
        Some(value) => behaviour_named(value.as_str()?),
    }
}

#[tactic(auto, unfolding(crate::specs::SettingsForms::offered_form))]
fn offered_of(value: &Value) -> Option<Offered>
    ensures { result ≡ offered_form (view value.now) }
{
    if !has_only(value, &["keys", "dirty_pages", "behaviour"]) {
        return None;
    }
    let keys = count_or(0, value.get("keys"))?;
    let dirty_pages = flag_or(false, value.get("dirty_pages"))?;
    let behaviour = behaviour(value.get("behaviour"))?;
    let mut offered = Offered::default();
    offered.keys = keys;
    offered.dirty_pages = dirty_pages;
    offered.behaviour = behaviour;
    Some(offered)
}

/// What the system offers, which may be left out.
pub fn offered(field: Option<&Value>) -> Option<Offered>
    ensures { result ≡ optional default_offered offered_form (option_map (λ v. view v.now) field.entry) }
{
    match field {
        None => Some(Offered::default()),
        Some(value) => offered_of(value),
    }
}

fn kind_named(name: &str) -> Option<FaultKind>
    ensures { result ≡ kind_named name.now }
{
    if name == "memory" {
        Some(FaultKind::Memory)
    } else if name == "table" {
        Some(FaultKind::Table)
    } else if name == "stack" {
        Some(FaultKind::Stack)
    } else if name == "image" {
        Some(FaultKind::Image)
    } else if name == "ondemand" {
        Some(FaultKind::OnDemand)
    } else {
        None
    }
}

fn kind(field: Option<&Value>) -> Option<FaultKind>
    ensures { result ≡ required kind_form (option_map (λ v. view v.now) field.entry) }
{
    kind_named(text(field)?)
}

impl FromJson for Fault {
    ghost form = { fault_form };

    #[tactic(auto, unfolding(crate::specs::SettingsForms::fault_form))]
    fn from_json(_alloc: Global, value: &Value) -> Result<Fault, FormFault> {
        if !has_only(value, &["kind", "slot", "call"]) {
            return Err(FormFault::OtherForm);
        }
        let kind = kind(value.get("kind")).ok_or(FormFault::OtherForm)?;
        let slot = number(value.get("slot")).ok_or(FormFault::OtherForm)?;
        let call = number(value.get("call")).ok_or(FormFault::OtherForm)?;
        Ok(Fault { kind, slot, call })
    }
}
