ghost use Rattle.std.specs.Prelude.{◌≡◌, ◌↔◌, ◌+◌, ◌-◌, ◌≤◌, is_ok, IsTrue, IfSome, OnOk, OnErr};
ghost use Rattle.pool_pages.specs.Contents.{CanReach};
ghost use Rattle.pool_pages.specs.Told.{IsRange, Faulted, succeeded, passes, decommitting};
ghost use Rattle.pool_table.specs.Tables.{IsTable, Empties, GrowsBy, ZeroesBytes, WordsAreZero};
ghost use Rattle.pool_table.specs.TableStates.{static_state, static_type};

use crate::element_rule::{ContRule, FuncRule, GcRefRule};
use crate::static_elements::StaticElements;
use pool_pages::{PageFault, Pages};
use pool_types::{HostAlignedByteCount, TableElementType};

/// A table of functions over a region.
pub type StaticFuncTable<P> = StaticElements<FuncRule, P>;

/// A table of GC references over a region.
pub type StaticGcRefTable<P> = StaticElements<GcRefRule, P>;

/// A table of continuations over a region.
pub type StaticContTable<P> = StaticElements<ContRule, P>;

/// A table over a region that it owns.
#[derive(Drop)]
pub enum StaticTable<P: Pages> {
    Func(StaticElements<FuncRule, P>),
    GcRef(StaticElements<GcRefRule, P>),
    Cont(StaticElements<ContRule, P>),
}

impl<P: Pages> From<StaticElements<FuncRule, P>> for StaticTable<P> {
    ghost use Rattle.pool_table.specs.declared.static_table.StaticTable.TheVariants.{Func};

    ghost from_gives = { λ table made. made ≡ Func table };

    fn from(table: StaticElements<FuncRule, P>) -> Self {
        StaticTable::Func(table)
    }
}

impl<P: Pages> From<StaticElements<GcRefRule, P>> for StaticTable<P> {
    ghost use Rattle.pool_table.specs.declared.static_table.StaticTable.TheVariants.{GcRef};

    ghost from_gives = { λ table made. made ≡ GcRef table };

    fn from(table: StaticElements<GcRefRule, P>) -> Self {
        StaticTable::GcRef(table)
    }
}

impl<P: Pages> From<StaticElements<ContRule, P>> for StaticTable<P> {
    ghost use Rattle.pool_table.specs.declared.static_table.StaticTable.TheVariants.{Cont};

    ghost from_gives = { λ table made. made ≡ Cont table };

    fn from(table: StaticElements<ContRule, P>) -> Self {
        StaticTable::Cont(table)
    }
}

impl<P: Pages> StaticTable<P> {
    pub fn element_type(&self) -> TableElementType
        ensures { result ≡ static_type self.now }
    {
        match self {
            StaticTable::Func(_) => TableElementType::Func,
            StaticTable::GcRef(_) => TableElementType::GcRef,
            StaticTable::Cont(_) => TableElementType::Cont,
        }
    }

    pub fn size(&self) -> usize
        ensures value { result ≡ (static_state self.now).size }
        ensures always { IsTable (static_state self.now) }
    {
        match self {
            StaticTable::Func(table) => table.size(),
            StaticTable::GcRef(table) => table.size(),
            StaticTable::Cont(table) => table.size(),
        }
    }

    pub fn maximum(&self) -> usize
        ensures value { result ≡ (static_state self.now).maximum }
        ensures always { IsTable (static_state self.now) }
    {
        match self {
            StaticTable::Func(table) => table.maximum(),
            StaticTable::GcRef(table) => table.maximum(),
            StaticTable::Cont(table) => table.maximum(),
        }
    }

    /// Has so many elements, of which it may have so many. The new ones are empty.
    pub(crate) fn take_elements(&mut self, size: usize)
        requires more { (static_state self.old).size ≤ size }
        requires room { size ≤ (static_state self.old).maximum }
        ensures element_type { static_type self.new ≡ static_type self.old }
        ensures growth { GrowsBy (size - (static_state self.old).size) (static_state self.old) (static_state self.new) }
    {
        match self {
            StaticTable::Func(table) => table.take_elements(size),
            StaticTable::GcRef(table) => table.take_elements(size),
            StaticTable::Cont(table) => table.take_elements(size),
        }
    }

    /// All elements become empty, by a write.
    pub fn manually_memset_zeros(&mut self)
        ensures element_type { static_type self.new ≡ static_type self.old }
        ensures empty { Empties (static_state self.old) (static_state self.new) }
    {
        match self {
            StaticTable::Func(table) => table.manually_memset_zeros(),
            StaticTable::GcRef(table) => table.manually_memset_zeros(),
            StaticTable::Cont(table) => table.manually_memset_zeros(),
        }
    }

    /// Whether no element's word has a bit set.
    pub fn is_all_zero(&self) -> bool
        ensures { IfSome (static_state self.now).region.contents (λ c. IsTrue result ↔ WordsAreZero (static_state self.now) c.bytes) }
    {
        match self {
            StaticTable::Func(table) => table.is_all_zero(),
            StaticTable::GcRef(table) => table.is_all_zero(),
            StaticTable::Cont(table) => table.is_all_zero(),
        }
    }

    /// The region in which the elements lie.
    pub fn region(&self) -> &P
        ensures { P.told result.now ≡ (static_state self.now).region }
    {
        match self {
            StaticTable::Func(table) => table.region(),
            StaticTable::GcRef(table) => table.region(),
            StaticTable::Cont(table) => table.region(),
        }
    }

    /// The region, in which the elements still lie.
    pub fn into_region(self) -> P
        ensures value { P.told result ≡ (static_state self).region }
        ensures holds { IsTable (static_state self) }
    {
        match self {
            StaticTable::Func(table) => table.into_region(),
            StaticTable::GcRef(table) => table.into_region(),
            StaticTable::Cont(table) => table.into_region(),
        }
    }

    /// These bytes of the region become zeros, by a write.
    pub fn zero_range(&mut self, start: usize, len: usize)
        requires inside { start + len ≤ (static_state self.old).region.len }
        requires reachable { IfSome (static_state self.old).region.contents (CanReach start len) }
        ensures element_type { static_type self.new ≡ static_type self.old }
        ensures zeros { ZeroesBytes start len (static_state self.old) (static_state self.new) }
    {
        match self {
            StaticTable::Func(table) => table.zero_range(start, len),
            StaticTable::GcRef(table) => table.zero_range(start, len),
            StaticTable::Cont(table) => table.zero_range(start, len),
        }
    }

    /// As `Pages::decommit` of the region.
    pub fn decommit(
        &mut self,
        start: HostAlignedByteCount,
        len: HostAlignedByteCount,
    ) -> Result<(), PageFault>
        requires { IsRange start len (static_state self.old).region }
        ensures element_type { static_type self.new ≡ static_type self.old }
        ensures same { static_state self.new ≡ record (static_state self.old) { region = (static_state self.new).region } }
        ensures ok { OnOk result ((static_state self.new).region ≡ succeeded (decommitting start.bytes len.bytes) (static_state self.old).region) }
        ensures fault { OnErr result (Faulted (decommitting start.bytes len.bytes) (static_state self.old).region (static_state self.new).region) }
        ensures planned { IfSome (static_state self.old).region.plan (λ plan. is_ok result ≡ passes plan (decommitting start.bytes len.bytes) (static_state self.old).region) }
    {
        match self {
            StaticTable::Func(table) => table.decommit(start, len),
            StaticTable::GcRef(table) => table.decommit(start, len),
            StaticTable::Cont(table) => table.decommit(start, len),
        }
    }
}
