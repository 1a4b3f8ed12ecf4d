ghost use Rattle.std.specs.Prelude.{◌≡◌, find};
ghost use Rattle.pool_types.specs.ConfigLimits.{limited_values, is_exceeded, first_too_great};

use crate::bad_config::{BadConfig, ConfigField as Field};
use crate::config::PoolingAllocationConfig;
use crate::offered::Offered;

// Each field that has a greatest value, beside its value, in the order in which they are tested.
fn limited_values(config: &PoolingAllocationConfig, offered: &Offered) -> [(Field, usize); 21]
    ensures { result ≡ limited_values config.now offered.now }
{
    let limits = &config.limits;
    [
        (
            Field::TotalCoreInstances,
            limits.total_core_instances as usize,
        ),
        (
            Field::TotalComponentInstances,
            limits.total_component_instances as usize,
        ),
        (Field::TotalMemories, limits.total_memories as usize),
        (Field::TotalTables, limits.total_tables as usize),
        (Field::TotalStacks, limits.total_stacks as usize),
        (Field::TotalGcHeaps, limits.total_gc_heaps as usize),
        (
            Field::MaxMemoriesPerModule,
            limits.max_memories_per_module as usize,
        ),
        (
            Field::MaxTablesPerModule,
            limits.max_tables_per_module as usize,
        ),
        (
            Field::MaxCoreInstancesPerComponent,
            limits.max_core_instances_per_component as usize,
        ),
        (
            Field::MaxMemoriesPerComponent,
            limits.max_memories_per_component as usize,
        ),
        (
            Field::MaxTablesPerComponent,
            limits.max_tables_per_component as usize,
        ),
        (Field::TableElements, limits.table_elements),
        (Field::CoreInstanceSize, limits.core_instance_size),
        (Field::ComponentInstanceSize, limits.component_instance_size),
        (
            Field::MaxUnusedWarmSlots,
            config.max_unused_warm_slots as usize,
        ),
        (Field::StackSize, config.stack_size),
        (
            Field::AsyncStackKeepResident,
            config.async_stack_keep_resident,
        ),
        (
            Field::LinearMemoryKeepResident,
            config.linear_memory_keep_resident,
        ),
        (Field::TableKeepResident, config.table_keep_resident),
        (
            Field::MaxMemoryProtectionKeys,
            config.max_memory_protection_keys,
        ),
        (Field::OfferedKeys, offered.keys as usize),
    ]
}

// The first field whose value exceeds its greatest, with that value.
fn first_exceeded(values: &[(Field, usize)]) -> Option<(Field, usize)>
    ensures { result ≡ find is_exceeded values.now }
{
    values
        .iter()
        .copied()
        .find(|&(field, value)| value > field.greatest())
}

/// The first field that exceeds its greatest value.
pub(crate) fn first_too_great(
    config: &PoolingAllocationConfig,
    offered: &Offered,
) -> Option<BadConfig>
    ensures { result ≡ first_too_great config.now offered.now }
{
    match first_exceeded(&limited_values(config, offered)) {
        Some((field, value)) => Some(BadConfig::TooGreat {
            field,
            value,
            greatest: field.greatest(),
        }),
        None => None,
    }
}
