//! Tables of functions, GC references and continuations.
//!
//! Read `Table` first. A table of the pool is static: `Table::new_static` makes it over a region that it then owns,
//! takes no memory, and it never moves. A table on demand is dynamic: `Table::new_dynamic` makes it in a list of its
//! own, which grows. Elements are `FuncTableElem` and `ContTableElem`, and a GC reference is a number; `set_gc_ref`
//! tells a `GcStore` of each write, which may fail. Why a table isn't made is a `TableError`.
//!
//! From Wasmtime: `vm/table.rs`. It stands on `pool_types`, `pool_pages` and `pool_limits`. It makes no region: a
//! caller brings one, and `into_region` hands it back.
//!
//! ```rust
//! let mut table = Table::<MadeRegion>::new_dynamic::<StoreLimits>(alloc, &ty, &tunables, None)?;
//! table.set_func(9, Some(16))?;
//! ```
#![tactic(auto)]

// A table, and the calls on it
mod growing;
mod table;
mod table_elements;
mod table_error;

// Elements, and their words
mod element;
mod element_rule;
mod failing_numbers;
mod gc_store;

// Static tables, over a region
mod making;
mod static_elements;
mod static_table;

// Dynamic tables, in a list
mod dynamic_elements;
mod dynamic_table;
mod listing;

pub use dynamic_elements::DynamicElements;
pub use dynamic_table::{DynamicContTable, DynamicFuncTable, DynamicGcRefTable, DynamicTable};
pub use element::{
    ContTableElem, ElementSize, FuncTableElem, NOMINAL_MAX_TABLE_ELEM_SIZE, VMContObj,
    words_read_back,
};
pub use element_rule::{ContRule, ElementRule, FuncRule, GcRefRule};
pub use failing_numbers::FailingNumbers;
pub use gc_store::{GcStore, GcStoreFault, GcTableError, ListedStore};
pub use making::made_regions_have_room;
pub use static_elements::StaticElements;
pub use static_table::{StaticContTable, StaticFuncTable, StaticGcRefTable, StaticTable};
pub use table::Table;
pub use table_error::TableError;
