//! The plain values that the crates above speak of: sizes, types of modules, settings, refusals.
//!
//! Read `PageSize` and `HostAlignedByteCount` first: a number of bytes that is whole pages of one size. Then
//! `ModuleInfo` with the types of its memories and tables, and `PoolingAllocationConfig` with `Tunables` and `Offered`,
//! which `check_rules` tests. What is refused is a `BadConfig` or an `Unsupported`; each prints its text. `PlainList`
//! and `Text` are lists and texts as contracts see them.
//!
//! From Wasmtime: `vm/byte_count.rs`, the settings and their rules in `vm/instance/allocator/pooling.rs`, and the types
//! of modules, which are a crate of their own there. It stands on no crate of ours, and no value here holds a region.
//!
//! ```rust
//! let page = PageSize::new(4096)?;
//! let size = HostAlignedByteCount::new_rounded_up(page, 5000)?;
//! ```
#![tactic(auto)]

// Byte counts
mod byte_count;
mod byte_count_errors;
mod byte_count_forms;
mod numerals;

// Modules and their types
mod copies;
mod module_types;
mod table_type;

// Settings and their rules
mod config;
mod decommit_behavior;
mod greatest_values;
mod offered;
mod settings_rules;

// What is refused, and its text
mod bad_config;
mod breakdown;
mod unsupported;

// Lists and texts
mod plain_list;
mod text;

pub use bad_config::{BadConfig, ConfigField, PairedTunable};
pub use byte_count::{HostAlignedByteCount, PageSize};
pub use byte_count_errors::{ByteCountNotAligned, ByteCountOutOfBounds};
pub use byte_count_forms::{CompareBytes, byte_counts_agree};
pub use config::{Enabled, InstanceLimits, PoolingAllocationConfig};
pub use decommit_behavior::DecommitBehavior;
pub use module_types::{
    CompiledModuleId, ComponentInfo, DefinedMemoryIndex, DefinedTableIndex, ImageDecl, IndexType,
    Limits, MemoryDecl, MemoryKind, MemoryTunables, MemoryType, ModuleInfo, Part, Tunables,
};
pub use offered::Offered;
pub use plain_list::{ByteList, PlainList};
pub use table_type::{TableElementType, TableType};
pub use text::Text;
pub use unsupported::Unsupported;
