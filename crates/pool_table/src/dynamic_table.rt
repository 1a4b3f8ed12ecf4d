ghost use Rattle.std.specs.Prelude.{◌≡◌, ◌↔◌, ◌-◌, ◌≤◌, ◌++◌, length, replicate, IsTrue, OnOk, OnErr};
ghost use Rattle.pool_table.specs.Elements.{empty};
ghost use Rattle.pool_table.specs.TableStates.{listed_table, listed_type};

use crate::dynamic_elements::DynamicElements;
use crate::element_rule::{ContRule, FuncRule, GcRefRule};
use pool_types::TableElementType;
use std::alloc::AllocError;

/// A table of functions in a list.
pub type DynamicFuncTable = DynamicElements<FuncRule>;

/// A table of GC references in a list.
pub type DynamicGcRefTable = DynamicElements<GcRefRule>;

/// A table of continuations in a list.
pub type DynamicContTable = DynamicElements<ContRule>;

/// A table that has its elements in a list of its own, and moves as it grows.
#[derive(Drop)]
pub enum DynamicTable {
    Func(DynamicElements<FuncRule>),
    GcRef(DynamicElements<GcRefRule>),
    Cont(DynamicElements<ContRule>),
}

impl From<DynamicElements<FuncRule>> for DynamicTable {
    ghost use Rattle.pool_table.specs.declared.dynamic_table.DynamicTable.TheVariants.{Func};

    ghost from_gives = { λ table made. made ≡ Func table };

    fn from(table: DynamicElements<FuncRule>) -> Self {
        DynamicTable::Func(table)
    }
}

impl From<DynamicElements<GcRefRule>> for DynamicTable {
    ghost use Rattle.pool_table.specs.declared.dynamic_table.DynamicTable.TheVariants.{GcRef};

    ghost from_gives = { λ table made. made ≡ GcRef table };

    fn from(table: DynamicElements<GcRefRule>) -> Self {
        DynamicTable::GcRef(table)
    }
}

impl From<DynamicElements<ContRule>> for DynamicTable {
    ghost use Rattle.pool_table.specs.declared.dynamic_table.DynamicTable.TheVariants.{Cont};

    ghost from_gives = { λ table made. made ≡ Cont table };

    fn from(table: DynamicElements<ContRule>) -> Self {
        DynamicTable::Cont(table)
    }
}

impl DynamicTable {
    pub fn element_type(&self) -> TableElementType
        ensures { result ≡ listed_type self.now }
    {
        match self {
            DynamicTable::Func(_) => TableElementType::Func,
            DynamicTable::GcRef(_) => TableElementType::GcRef,
            DynamicTable::Cont(_) => TableElementType::Cont,
        }
    }

    pub fn size(&self) -> usize
        ensures value { result ≡ length (listed_table self.now).elements }
        ensures within { length (listed_table self.now).elements ≤ (listed_table self.now).maximum }
    {
        match self {
            DynamicTable::Func(table) => table.size(),
            DynamicTable::GcRef(table) => table.size(),
            DynamicTable::Cont(table) => table.size(),
        }
    }

    pub fn maximum(&self) -> usize
        ensures { result ≡ (listed_table self.now).maximum }
    {
        match self {
            DynamicTable::Func(table) => table.maximum(),
            DynamicTable::GcRef(table) => table.maximum(),
            DynamicTable::Cont(table) => table.maximum(),
        }
    }

    /// Has so many elements, of which it may have so many. The new ones are empty. Without memory it is as it was.
    pub(crate) fn take_elements(&mut self, size: usize) -> Result<(), AllocError>
        requires more { length (listed_table self.old).elements ≤ size }
        requires room { size ≤ (listed_table self.old).maximum }
        ensures element_type { listed_type self.new ≡ listed_type self.old }
        ensures ok { OnOk result (listed_table self.new ≡ record (listed_table self.old) { elements = (listed_table self.old).elements ++ replicate (size - length (listed_table self.old).elements) (empty (listed_table self.old).kind) }) }
        ensures err { OnErr result (listed_table self.new ≡ listed_table self.old) }
    {
        match self {
            DynamicTable::Func(table) => table.take_elements(size),
            DynamicTable::GcRef(table) => table.take_elements(size),
            DynamicTable::Cont(table) => table.take_elements(size),
        }
    }

    /// All elements become empty.
    pub fn manually_memset_zeros(&mut self)
        ensures element_type { listed_type self.new ≡ listed_type self.old }
        ensures empty { listed_table self.new ≡ record (listed_table self.old) { elements = replicate (length (listed_table self.old).elements) (empty (listed_table self.old).kind) } }
    {
        match self {
            DynamicTable::Func(table) => table.manually_memset_zeros(),
            DynamicTable::GcRef(table) => table.manually_memset_zeros(),
            DynamicTable::Cont(table) => table.manually_memset_zeros(),
        }
    }

    /// Whether no element was set to another than the empty one.
    pub fn is_all_zero(&self) -> bool
        ensures { IsTrue result ↔ ((listed_table self.now).elements ≡ replicate (length (listed_table self.now).elements) (empty (listed_table self.now).kind)) }
    {
        match self {
            DynamicTable::Func(table) => table.is_all_zero(),
            DynamicTable::GcRef(table) => table.is_all_zero(),
            DynamicTable::Cont(table) => table.is_all_zero(),
        }
    }
}
