use crate::kinds::{COUNT, Kind, NUMBER};
use crate::problem::Walk;
use crate::shapes::{Shape, optional, required, walk_object};
use serde_json::Value;
use std::alloc::Global;

// Whether something is used.
const ENABLED: &[&str] = &["auto", "yes", "no"];

/// The settings of a pool.
pub struct ConfigShape;

impl Shape for ConfigShape {
    fn walk(alloc: Global, value: &Value) -> Walk {
        walk_object(
            alloc,
            value,
            &[
                optional("total_core_instances", COUNT),
                optional("total_component_instances", COUNT),
                optional("total_memories", COUNT),
                optional("total_tables", COUNT),
                optional("total_stacks", COUNT),
                optional("total_gc_heaps", COUNT),
                optional("max_memories_per_module", COUNT),
                optional("max_tables_per_module", COUNT),
                optional("max_core_instances_per_component", COUNT),
                optional("max_memories_per_component", COUNT),
                optional("max_tables_per_component", COUNT),
                optional("max_memory_size", NUMBER),
                optional("table_elements", NUMBER),
                optional("core_instance_size", NUMBER),
                optional("component_instance_size", NUMBER),
                optional("max_unused_warm_slots", COUNT),
                optional("decommit_batch_size", NUMBER),
                optional("stack_size", NUMBER),
                optional("async_stack_zeroing", Kind::Flag),
                optional("async_stack_keep_resident", NUMBER),
                optional("linear_memory_keep_resident", NUMBER),
                optional("table_keep_resident", NUMBER),
                optional("memory_protection_keys", Kind::Choice(ENABLED)),
                optional("max_memory_protection_keys", NUMBER),
                optional("pagemap_scan", Kind::Choice(ENABLED)),
            ],
        )
    }
}

/// The settings of the engine.
pub struct TunablesShape;

impl Shape for TunablesShape {
    fn walk(alloc: Global, value: &Value) -> Walk {
        walk_object(
            alloc,
            value,
            &[
                optional("memory_reservation", NUMBER),
                optional("memory_guard_size", NUMBER),
                optional("memory_reservation_for_growth", NUMBER),
                optional("memory_may_move", Kind::Flag),
                optional("guard_before_linear_memory", Kind::Flag),
                optional("signals_based_traps", Kind::Flag),
                optional("memory_init_cow", Kind::Flag),
                optional("table_lazy_init", Kind::Flag),
                optional("collector", Kind::Flag),
                optional("gc_heap_reservation", NUMBER),
                optional("gc_heap_guard_size", NUMBER),
                optional("gc_heap_reservation_for_growth", NUMBER),
                optional("gc_heap_may_move", Kind::Flag),
            ],
        )
    }
}

/// What the system offers.
pub struct OfferedShape;

impl Shape for OfferedShape {
    fn walk(alloc: Global, value: &Value) -> Walk {
        walk_object(
            alloc,
            value,
            &[
                optional("keys", COUNT),
                optional("dirty_pages", Kind::Flag),
                optional("behaviour", Kind::Choice(&["restore", "zero"])),
            ],
        )
    }
}

/// A page call that fails.
pub struct FaultShape;

impl Shape for FaultShape {
    fn walk(alloc: Global, value: &Value) -> Walk {
        let kinds = Kind::Choice(&["memory", "table", "stack", "image", "ondemand"]);
        walk_object(
            alloc,
            value,
            &[
                required("kind", kinds),
                required("slot", NUMBER),
                required("call", NUMBER),
            ],
        )
    }
}
