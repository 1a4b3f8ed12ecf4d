//! A table that was granted.
ghost use Rattle.std.specs.Prelude.{◌≡◌, ◌<◌, length, slice_index_or};
ghost use Rattle.pool_table.specs.Elements.{type_of};
ghost use Rattle.pool_alloc.specs.Leases.{IsChanged};
ghost use Rattle.pool_alloc.specs.TableLeases.{LeasedTable, type_now, element_of, CanBeSet, IsElementAt, IsFilled, IsLengthened};
ghost use Rattle.pool_alloc.specs.PoolTotals.{table_calls};

use crate::leases::element::{Element, element_at, set_elements};
use crate::reserved::ReservedList;
use pool_limits::{GrowFault, ResourceLimiter, Trap};
use pool_pages::{PageCalls, Pages};
use pool_slots::{RegionNumbers, TableAllocationIndex};
use pool_table::{GcStore, GcTableError, Table};
use pool_types::{IndexType, Limits, TableElementType, TableType};
use std::marker::Model;

/// A table that was granted, and its slot. It must be given back, or its slot stays used for good.
#[derive(Drop)]
pub struct TableLease<P: Pages> {
    pub index: TableAllocationIndex,
    pub table: Table<P>,
    /// What the unit of the table's region tells since it left its cell.
    pub numbers: RegionNumbers,
}

impl<P: Pages> Model for TableLease<P> {
    ghost use Rattle.pool_table.specs.TableStates.{table_view};
    ghost use Rattle.pool_alloc.specs.TableLeases.{LeasedTable, IsOverRegion};

    ghost Value = { LeasedTable };

    ghost view = { λ l. record { index = l.index.0; table = table_view l.table; numbers = l.numbers } };

    ghost invariant = { λ l. IsOverRegion l.table };
}

impl<P: Pages> TableLease<P> {
    pub fn element_type(&self) -> TableElementType
        ensures { result ≡ type_of self.now.table.kind }
    {
        self.table.element_type()
    }

    /// The type of the table as it stands: it begins with as many elements as the table has.
    pub fn type_now(&self) -> TableType
        ensures { result ≡ type_now self.now }
    {
        TableType {
            idx_type: IndexType::I32,
            limits: Limits {
                min: self.size() as u64,
                max: None,
            },
            element: self.element_type(),
        }
    }

    /// How many elements the table has.
    pub fn size(&self) -> usize
        ensures { result ≡ self.now.table.size }
    {
        self.table.size()
    }

    /// The calls made so far on the table's region.
    pub fn page_calls(&self) -> PageCalls
        ensures { result ≡ table_calls self.now }
    {
        self.table.region().calls()
    }

    /// The element at `at`.
    pub fn get(&self, at: u64) -> Result<Element, Trap>
        ensures { IsElementAt self.now.table at result }
    {
        element_at(&self.table, at)
    }

    /// Sets `len` elements from `at` on, or nothing where they pass the table's size. For each GC reference the store is
    /// asked first; the first call that fails ends it, and what was set before stays set.
    pub fn fill<G: GcStore>(
        &mut self,
        store: &mut G,
        at: u64,
        element: Element,
        len: u64,
    ) -> Result<(), GcTableError>
        requires { CanBeSet self.old.table.kind (element_of element) }
        ensures { IsFilled G.told G.leads at len (element_of element) self.old self.new store.old store.new result }
    {
        let result = set_elements(&mut self.table, store, at, element, len);
        let _region = self.table.region();
        result
    }

    /// Grows the table by so many elements, as `Table::grow` does. Takes no memory.
    pub fn grow<R: ResourceLimiter>(
        &mut self,
        delta: u64,
        limiter: &mut R,
    ) -> Result<Option<usize>, GrowFault>
        ensures { IsLengthened R.told R.leads delta self.old self.new limiter.old limiter.new result }
    {
        let result = self.table.grow(Some(limiter), delta);
        let _region = self.table.region();
        result
    }
}

impl<P: Pages> ReservedList<TableLease<P>> {
    /// Sets elements of the table at this place.
    pub fn fill<G: GcStore>(
        &mut self,
        place: usize,
        store: &mut G,
        at: u64,
        element: Element,
        len: u64,
    ) -> Result<(), GcTableError>
        requires place { place < length self.old.items }
        requires element { (d : LeasedTable) → CanBeSet (slice_index_or self.old.items place d).table.kind (element_of element) }
        ensures { IsChanged (λ l new. IsFilled G.told G.leads at len (element_of element) l new store.old store.new result) place self.old self.new }
    {
        let lease = &mut self.items[place];
        lease.fill(store, at, element, len)
    }

    /// Grows the table at this place.
    pub fn grow<R: ResourceLimiter>(
        &mut self,
        place: usize,
        delta: u64,
        limiter: &mut R,
    ) -> Result<Option<usize>, GrowFault>
        requires { place < length self.old.items }
        ensures { IsChanged (λ l new. IsLengthened R.told R.leads delta l new limiter.old limiter.new result) place self.old self.new }
    {
        let lease = &mut self.items[place];
        lease.grow(delta, limiter)
    }
}
