ghost use Rattle.std.specs.Prelude.{[], ◌≡◌, ◌↔◌, ◌+◌, ◌%◌, ◌-◌, ◌≤◌, is_ok, length, option_map, replicate, false, Some, None, IsTrue, IfSome, OnOk, OnErr};
ghost use Rattle.pool_pages.specs.Contents.{CanReach};
ghost use Rattle.pool_pages.specs.Told.{IsRange, Faulted, succeeded, passes, decommitting};
ghost use Rattle.pool_table.specs.Elements.{empty, functions};
ghost use Rattle.pool_table.specs.Tables.{IsTable, WordsAreZero};
ghost use Rattle.pool_table.specs.Views.{EmptiesTable, GrowsTable, ZeroesTable, IfRegions, LiesThere, state_in};
ghost use Rattle.pool_table.specs.TableStates.{table_view, element_type_of, is_static_table, IsStatic};

use crate::dynamic_elements::DynamicElements;
use crate::dynamic_table::DynamicTable;
use crate::element_rule::{ContRule, FuncRule, GcRefRule};
use crate::static_elements::StaticElements;
use crate::static_table::StaticTable;
use pool_pages::{PageFault, Pages};
use pool_types::{HostAlignedByteCount, TableElementType};
use std::alloc::{AllocError, Global};

/// A table of an instance: over a region, or with a list of its own. Calls by kind need a table of that kind, for which
/// `element_type` is the test. Calls on the region need a static table, for which `is_static` is.
#[derive(Drop)]
pub enum Table<P: Pages> {
    Static(StaticTable<P>),
    Dynamic(DynamicTable),
}

impl<P: Pages> From<StaticTable<P>> for Table<P> {
    ghost use Rattle.pool_table.specs.declared.table.Table.TheVariants.{Static};

    ghost from_gives = { λ table made. made ≡ Static table };

    fn from(table: StaticTable<P>) -> Self {
        Table::Static(table)
    }
}

impl<P: Pages> From<StaticElements<FuncRule, P>> for Table<P> {
    ghost use Rattle.pool_table.specs.declared.table.Table.TheVariants.{Static};
    ghost use Rattle.pool_table.specs.declared.static_table.StaticTable.TheVariants as over;

    ghost from_gives = { λ table made. made ≡ Static (over.Func table) };

    fn from(table: StaticElements<FuncRule, P>) -> Self {
        Table::Static(StaticTable::Func(table))
    }
}

impl<P: Pages> From<StaticElements<GcRefRule, P>> for Table<P> {
    ghost use Rattle.pool_table.specs.declared.table.Table.TheVariants.{Static};
    ghost use Rattle.pool_table.specs.declared.static_table.StaticTable.TheVariants as over;

    ghost from_gives = { λ table made. made ≡ Static (over.GcRef table) };

    fn from(table: StaticElements<GcRefRule, P>) -> Self {
        Table::Static(StaticTable::GcRef(table))
    }
}

impl<P: Pages> From<StaticElements<ContRule, P>> for Table<P> {
    ghost use Rattle.pool_table.specs.declared.table.Table.TheVariants.{Static};
    ghost use Rattle.pool_table.specs.declared.static_table.StaticTable.TheVariants as over;

    ghost from_gives = { λ table made. made ≡ Static (over.Cont table) };

    fn from(table: StaticElements<ContRule, P>) -> Self {
        Table::Static(StaticTable::Cont(table))
    }
}

impl<P: Pages> From<DynamicTable> for Table<P> {
    ghost use Rattle.pool_table.specs.declared.table.Table.TheVariants.{Dynamic};

    ghost from_gives = { λ table made. made ≡ Dynamic table };

    fn from(table: DynamicTable) -> Self {
        Table::Dynamic(table)
    }
}

impl<P: Pages> From<DynamicElements<FuncRule>> for Table<P> {
    ghost use Rattle.pool_table.specs.declared.table.Table.TheVariants.{Dynamic};
    ghost use Rattle.pool_table.specs.declared.dynamic_table.DynamicTable.TheVariants as listed;

    ghost from_gives = { λ table made. made ≡ Dynamic (listed.Func table) };

    fn from(table: DynamicElements<FuncRule>) -> Self {
        Table::Dynamic(DynamicTable::Func(table))
    }
}

impl<P: Pages> From<DynamicElements<GcRefRule>> for Table<P> {
    ghost use Rattle.pool_table.specs.declared.table.Table.TheVariants.{Dynamic};
    ghost use Rattle.pool_table.specs.declared.dynamic_table.DynamicTable.TheVariants as listed;

    ghost from_gives = { λ table made. made ≡ Dynamic (listed.GcRef table) };

    fn from(table: DynamicElements<GcRefRule>) -> Self {
        Table::Dynamic(DynamicTable::GcRef(table))
    }
}

impl<P: Pages> From<DynamicElements<ContRule>> for Table<P> {
    ghost use Rattle.pool_table.specs.declared.table.Table.TheVariants.{Dynamic};
    ghost use Rattle.pool_table.specs.declared.dynamic_table.DynamicTable.TheVariants as listed;

    ghost from_gives = { λ table made. made ≡ Dynamic (listed.Cont table) };

    fn from(table: DynamicElements<ContRule>) -> Self {
        Table::Dynamic(DynamicTable::Cont(table))
    }
}

impl<P: Pages> Table<P> {
    /// A table of no functions, which may have none. Takes no memory.
    pub fn empty(alloc: Global) -> Self
        ensures element_type { element_type_of result ≡ TableElementType.Func }
        ensures view { table_view result ≡ record { kind = functions false; size = 0; maximum = 0; elements = Some []; region = None } }
    {
        Table::from(DynamicElements::none(alloc, FuncRule { lazy: false }))
    }

    pub fn element_type(&self) -> TableElementType
        ensures { result ≡ element_type_of self.now }
    {
        match self {
            Table::Static(table) => table.element_type(),
            Table::Dynamic(table) => table.element_type(),
        }
    }

    /// How many elements the table has.
    pub fn size(&self) -> usize
        ensures value { result ≡ (table_view self.now).size }
        ensures within { (table_view self.now).size ≤ (table_view self.now).maximum }
    {
        match self {
            Table::Static(table) => table.size(),
            Table::Dynamic(table) => table.size(),
        }
    }

    /// How many elements it may have.
    pub fn maximum(&self) -> usize
        ensures { result ≡ (table_view self.now).maximum }
    {
        match self {
            Table::Static(table) => table.maximum(),
            Table::Dynamic(table) => table.maximum(),
        }
    }

    /// Whether its elements lie in a region that stays.
    pub fn is_static(&self) -> bool
        ensures { result ≡ is_static_table self.now }
    {
        match self {
            Table::Static(_) => true,
            Table::Dynamic(_) => false,
        }
    }

    /// Has so many elements, of which it may have so many. The new ones are empty. Only a dynamic table takes memory for
    /// them, and without it is as it was.
    pub(crate) fn take_elements(&mut self, size: usize) -> Result<(), AllocError>
        requires more { (table_view self.old).size ≤ size }
        requires room { size ≤ (table_view self.old).maximum }
        ensures element_type { element_type_of self.new ≡ element_type_of self.old }
        ensures form { is_static_table self.new ≡ is_static_table self.old }
        ensures ok { OnOk result (GrowsTable (size - (table_view self.old).size) (table_view self.old) (table_view self.new)) }
        ensures err { OnErr result (table_view self.new ≡ table_view self.old) }
        ensures memory { OnErr result ((table_view self.old).region ≡ None) }
    {
        match self {
            Table::Static(table) => {
                table.take_elements(size);
                Ok(())
            }
            Table::Dynamic(table) => table.take_elements(size),
        }
    }

    /// All elements become empty, in a region by a write.
    pub fn manually_memset_zeros(&mut self)
        ensures element_type { element_type_of self.new ≡ element_type_of self.old }
        ensures form { is_static_table self.new ≡ is_static_table self.old }
        ensures empty { EmptiesTable (table_view self.old) (table_view self.new) }
    {
        match self {
            Table::Static(table) => table.manually_memset_zeros(),
            Table::Dynamic(table) => table.manually_memset_zeros(),
        }
    }

    /// Whether no element's word in a region has a bit set, and whether each element of a list is the empty one.
    pub fn is_all_zero(&self) -> bool
        ensures words { IfSome (table_view self.now).region (λ r. IfSome r.contents (λ c. IsTrue result ↔ WordsAreZero (state_in r (table_view self.now)) c.bytes)) }
        ensures elements { (table_view self.now).region ≡ None → IfSome (table_view self.now).elements (λ es. IsTrue result ↔ (es ≡ replicate (length es) (empty (table_view self.now).kind))) }
    {
        match self {
            Table::Static(table) => table.is_all_zero(),
            Table::Dynamic(table) => table.is_all_zero(),
        }
    }

    /// The region in which the elements lie, of a static table.
    pub fn region(&self) -> &P
        requires { IsStatic self.now }
        ensures value { (table_view self.now).region ≡ Some (P.told result.now) }
        ensures holds { IsTable (state_in (P.told result.now) (table_view self.now)) }
        ensures lies { LiesThere (table_view self.now) }
    {
        match self {
            Table::Static(table) => {
                let _size = table.size();
                table.region()
            }
            Table::Dynamic(_) => unreachable!(),
        }
    }

    /// The region of a static table, in which the elements still lie.
    pub fn into_region(self) -> P
        requires { IsStatic self }
        ensures value { (table_view self).region ≡ Some (P.told result) }
        ensures holds { IsTable (state_in (P.told result) (table_view self)) }
        ensures lies { LiesThere (table_view self) }
    {
        match self {
            Table::Static(table) => table.into_region(),
            Table::Dynamic(_) => unreachable!(),
        }
    }

    /// These bytes of the region of a static table become zeros, by a write. `start` and `len` are multiples of 16, so that
    /// no element is zero in part.
    pub fn zero_range(&mut self, start: usize, len: usize)
        requires static_ { IsStatic self.old }
        requires whole { (start % 16 ≡ 0) × (len % 16 ≡ 0) }
        requires inside { IfSome (table_view self.old).region (λ r. start + len ≤ r.len) }
        requires reachable { IfSome (table_view self.old).region (λ r. IfSome r.contents (CanReach start len)) }
        ensures element_type { element_type_of self.new ≡ element_type_of self.old }
        ensures form { is_static_table self.new ≡ is_static_table self.old }
        ensures zeros { ZeroesTable start len (table_view self.old) (table_view self.new) }
    {
        match self {
            Table::Static(table) => table.zero_range(start, len),
            Table::Dynamic(_) => unreachable!(),
        }
    }

    /// As `Pages::decommit` of the region of a static table.
    pub fn decommit(
        &mut self,
        start: HostAlignedByteCount,
        len: HostAlignedByteCount,
    ) -> Result<(), PageFault>
        requires static_ { IsStatic self.old }
        requires range { IfSome (table_view self.old).region (IsRange start len) }
        ensures element_type { element_type_of self.new ≡ element_type_of self.old }
        ensures form { is_static_table self.new ≡ is_static_table self.old }
        ensures same { table_view self.new ≡ record (table_view self.old) { elements = (table_view self.new).elements; region = (table_view self.new).region } }
        ensures lies { LiesThere (table_view self.new) }
        ensures ok { OnOk result ((table_view self.new).region ≡ option_map (succeeded (decommitting start.bytes len.bytes)) (table_view self.old).region) }
        ensures fault { OnErr result (IfRegions (Faulted (decommitting start.bytes len.bytes)) (table_view self.old).region (table_view self.new).region) }
        ensures planned { IfSome (table_view self.old).region (λ r. IfSome r.plan (λ plan. is_ok result ≡ passes plan (decommitting start.bytes len.bytes) r)) }
    {
        match self {
            Table::Static(table) => table.decommit(start, len),
            Table::Dynamic(_) => unreachable!(),
        }
    }
}
