ghost use Rattle.std.specs.Prelude.{◌≡◌, Some, IfOk};
ghost use Rattle.pool_types.specs.ConfigLimits.{greatest};
ghost use Rattle.pool_types.specs.ConfigTexts.{field_text, tunable_text, bad_config_text};

use crate::numerals::Hexadecimal;
use crate::text::Text;
use std::alloc::{AllocError, Global};
use std::error::Error;
use std::fmt;

/// A field of the settings that has a greatest value, in the order in which they are tested.
#[derive(Clone, Copy, Debug, PartialEq, Eq)]
pub enum ConfigField {
    TotalCoreInstances,
    TotalComponentInstances,
    TotalMemories,
    TotalTables,
    TotalStacks,
    TotalGcHeaps,
    MaxMemoriesPerModule,
    MaxTablesPerModule,
    MaxCoreInstancesPerComponent,
    MaxMemoriesPerComponent,
    MaxTablesPerComponent,
    TableElements,
    CoreInstanceSize,
    ComponentInstanceSize,
    MaxUnusedWarmSlots,
    StackSize,
    AsyncStackKeepResident,
    LinearMemoryKeepResident,
    TableKeepResident,
    MaxMemoryProtectionKeys,
    /// The number of keys that the system offers, which is no field of the pool's own settings.
    OfferedKeys,
}

impl ConfigField {
    /// The greatest value that the field may have. Sizes are in bytes.
    pub fn greatest(self) -> usize
        ensures { result ≡ greatest self }
    {
        match self {
            ConfigField::MaxMemoriesPerModule | ConfigField::MaxTablesPerModule => 100,
            ConfigField::TableElements => 100_000_000,
            ConfigField::CoreInstanceSize
            | ConfigField::ComponentInstanceSize
            | ConfigField::StackSize
            | ConfigField::AsyncStackKeepResident
            | ConfigField::LinearMemoryKeepResident
            | ConfigField::TableKeepResident => 1 << 32,
            ConfigField::MaxMemoryProtectionKeys | ConfigField::OfferedKeys => 15,
            _ => 100_000,
        }
    }
}

impl fmt::Display for ConfigField {
    ghost output = { λ field. Some (field_text field) };

    fn fmt<W: fmt::Write>(&self, f: &mut fmt::Formatter<W>) -> fmt::Result {
        let name = match self {
            ConfigField::TotalCoreInstances => "total_core_instances",
            ConfigField::TotalComponentInstances => "total_component_instances",
            ConfigField::TotalMemories => "total_memories",
            ConfigField::TotalTables => "total_tables",
            ConfigField::TotalStacks => "total_stacks",
            ConfigField::TotalGcHeaps => "total_gc_heaps",
            ConfigField::MaxMemoriesPerModule => "max_memories_per_module",
            ConfigField::MaxTablesPerModule => "max_tables_per_module",
            ConfigField::MaxCoreInstancesPerComponent => "max_core_instances_per_component",
            ConfigField::MaxMemoriesPerComponent => "max_memories_per_component",
            ConfigField::MaxTablesPerComponent => "max_tables_per_component",
            ConfigField::TableElements => "table_elements",
            ConfigField::CoreInstanceSize => "core_instance_size",
            ConfigField::ComponentInstanceSize => "component_instance_size",
            ConfigField::MaxUnusedWarmSlots => "max_unused_warm_slots",
            ConfigField::StackSize => "stack_size",
            ConfigField::AsyncStackKeepResident => "async_stack_keep_resident",
            ConfigField::LinearMemoryKeepResident => "linear_memory_keep_resident",
            ConfigField::TableKeepResident => "table_keep_resident",
            ConfigField::MaxMemoryProtectionKeys => "max_memory_protection_keys",
            ConfigField::OfferedKeys => "offered.keys",
        };
        write!(f, "{name}")
    }
}

/// A setting that linear memories and GC heaps both have. Where a collector is set, a pool needs the two
/// to be equal, since heaps live in its memories.
#[derive(Clone, Copy, Debug, PartialEq, Eq)]
pub enum PairedTunable {
    Reservation,
    GuardSize,
    ReservationForGrowth,
    MayMove,
}

impl fmt::Display for PairedTunable {
    ghost output = { λ tunable. Some (tunable_text tunable) };

    fn fmt<W: fmt::Write>(&self, f: &mut fmt::Formatter<W>) -> fmt::Result {
        let name = match self {
            PairedTunable::Reservation => "reservation",
            PairedTunable::GuardSize => "guard_size",
            PairedTunable::ReservationForGrowth => "reservation_for_growth",
            PairedTunable::MayMove => "may_move",
        };
        write!(f, "{name}")
    }
}

/// Why a configuration is refused: the first rule that it breaks, with the numbers of its text. Sizes are in
/// bytes. Making one takes no memory.
#[derive(Clone, Copy, Debug, PartialEq, Eq)]
pub enum BadConfig {
    /// The page size is no power of two from 16 to 65,536.
    PageSize {
        size: usize,
    },
    /// The number of shards is not from 1 to 16.
    Shards {
        count: u32,
    },
    /// The number of ranges in a batch of the decommit queue is not from 1 to 4,096.
    DecommitBatch {
        size: usize,
    },
    /// A field exceeds its greatest value.
    TooGreat {
        field: ConfigField,
        value: usize,
        greatest: usize,
    },
    /// A memory of the greatest size doesn't fit the room that is reserved for it.
    Reservation {
        max: usize,
        reservation: u64,
    },
    /// Protection keys are asked for, and none is offered.
    KeysNotOffered,
    /// A sum, a product or a rounding of the memories' slab leaves the address space.
    SlabArithmetic,
    /// The same of the tables.
    TableArithmetic,
    /// A collector is set, and this setting of memories differs from that of GC heaps.
    CollectorPair {
        tunable: PairedTunable,
    },
    /// As `SlabArithmetic`, of the stacks.
    StackArithmetic,
    /// Dirty pages are asked for, and aren't offered.
    DirtyPagesNotOffered,
    /// All regions of the pool together have this many bytes, which is 2^32 or more.
    Regions {
        bytes: u128,
    },
}

impl fmt::Display for BadConfig {
    ghost output = { λ e. Some (bad_config_text e) };

    fn fmt<W: fmt::Write>(&self, f: &mut fmt::Formatter<W>) -> fmt::Result {
        match self {
            BadConfig::PageSize { size } => {
                write!(f, "page size {size} is not a power of two from 16 to 65536")
            }
            BadConfig::Shards { count } => write!(f, "shard count {count} is not from 1 to 16"),
            BadConfig::DecommitBatch { size } => {
                write!(f, "decommit batch size {size} is not from 1 to 4096")
            }
            BadConfig::TooGreat {
                field,
                value,
                greatest,
            } => write!(f, "{field} of {value} exceeds {greatest}"),
            BadConfig::Reservation { max, reservation } => {
                let max = Hexadecimal(*max as u64);
                let reservation = Hexadecimal(*reservation);
                write!(
                    f,
                    "maximum memory size of {max} bytes exceeds the configured memory reservation of {reservation} bytes"
                )
            }
            BadConfig::KeysNotOffered => write!(f, "mpk is disabled on this system"),
            BadConfig::SlabArithmetic => write!(
                f,
                "total size of memory reservation exceeds addressable memory"
            ),
            BadConfig::TableArithmetic => {
                write!(f, "total size of tables exceeds addressable memory")
            }
            BadConfig::CollectorPair { tunable } => write!(
                f,
                "pooling allocator requires memory_{tunable} == gc_heap_{tunable}"
            ),
            BadConfig::StackArithmetic => {
                write!(
                    f,
                    "total size of execution stacks exceeds addressable memory"
                )
            }
            BadConfig::DirtyPagesNotOffered => write!(
                f,
                "required to enable PAGEMAP_SCAN but this system does not support it"
            ),
            BadConfig::Regions { bytes } => {
                write!(f, "regions of {bytes} bytes exceed 4294967295")
            }
        }
    }
}

impl Error for BadConfig {}

impl BadConfig {
    pub fn text(&self, alloc: Global) -> Result<Text, AllocError>
        ensures { IfOk result (λ text. text ≡ bad_config_text self.now) }
    {
        Ok(Text::from_string(self.to_string(alloc)?))
    }
}
