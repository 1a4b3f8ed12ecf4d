/// Whether a feature of the system is used: where it is offered, always, or never.
#[derive(Clone, Copy, Debug, PartialEq, Eq)]
pub enum Enabled {
    Auto,
    Yes,
    No,
}

/// How many of each thing the pool has, and how large each may be. Sizes are in bytes.
#[derive(Clone, Copy, Debug, PartialEq, Eq)]
pub struct InstanceLimits {
    pub total_core_instances: u32,
    pub total_component_instances: u32,
    pub total_memories: u32,
    pub total_tables: u32,
    pub total_stacks: u32,
    pub total_gc_heaps: u32,
    pub max_memories_per_module: u32,
    pub max_tables_per_module: u32,
    pub max_core_instances_per_component: u32,
    pub max_memories_per_component: u32,
    pub max_tables_per_component: u32,
    pub max_memory_size: usize,
    /// In elements.
    pub table_elements: usize,
    pub core_instance_size: usize,
    pub component_instance_size: usize,
}

impl Default for InstanceLimits {
    ghost use Rattle.pool_types.specs.Config.{IsDefaultLimits};

    ghost is_default = { IsDefaultLimits };

    fn default() -> Self {
        InstanceLimits {
            total_core_instances: 1000,
            total_component_instances: 1000,
            total_memories: 10,
            total_tables: 10,
            total_stacks: 0,
            total_gc_heaps: 0,
            max_memories_per_module: 1,
            max_tables_per_module: 1,
            max_core_instances_per_component: 1000,
            max_memories_per_component: 1000,
            max_tables_per_component: 1000,
            max_memory_size: 65536,
            table_elements: 100,
            core_instance_size: 1 << 20,
            component_instance_size: 1 << 20,
        }
    }
}

/// The settings of a pool. Sizes are in bytes.
#[derive(Clone, Copy, Debug, PartialEq, Eq)]
pub struct PoolingAllocationConfig {
    pub limits: InstanceLimits,
    pub max_unused_warm_slots: u32,
    /// In ranges.
    pub decommit_batch_size: usize,
    pub stack_size: usize,
    pub async_stack_zeroing: bool,
    pub async_stack_keep_resident: usize,
    pub linear_memory_keep_resident: usize,
    pub table_keep_resident: usize,
    pub memory_protection_keys: Enabled,
    pub max_memory_protection_keys: usize,
    pub pagemap_scan: Enabled,
}

impl Default for PoolingAllocationConfig {
    ghost use Rattle.pool_types.specs.Config.{IsDefaultConfig};

    ghost is_default = { IsDefaultConfig };

    fn default() -> Self {
        PoolingAllocationConfig {
            limits: InstanceLimits::default(),
            max_unused_warm_slots: 100,
            decommit_batch_size: 1,
            stack_size: 0,
            async_stack_zeroing: false,
            async_stack_keep_resident: 0,
            linear_memory_keep_resident: 0,
            table_keep_resident: 0,
            memory_protection_keys: Enabled::No,
            max_memory_protection_keys: 15,
            pagemap_scan: Enabled::No,
        }
    }
}
