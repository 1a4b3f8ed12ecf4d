ghost use Rattle.std.specs.Prelude.{◌≡◌, ◌+◌, ◌<◌, ◌≤◌, is_ok, nat_le, nat_lt, slice_get, Some, Err, IfSome, IfOk, IfErr, OnOk, OnErr};
ghost use Rattle.pool_types.specs.declared.table_type.TableElementType.TheVariants.{Func, GcRef, Cont};
ghost use Rattle.pool_limits.specs.declared.errors.Trap.TheVariants.{TableOutOfBounds};
ghost use Rattle.pool_table.specs.Elements.{func, gc_ref, cont, IsFunc, IsGc, IsCont, func_item};
ghost use Rattle.pool_table.specs.Tables.{table_access};
ghost use Rattle.pool_table.specs.Views.{FillsTable};
ghost use Rattle.pool_table.specs.Stores.{StoreAsked, StoredFill, stored_answer};
ghost use Rattle.pool_table.specs.TableStates.{table_view, element_type_of, is_static_table};

use crate::dynamic_table::DynamicTable;
use crate::element::{ContTableElem, FuncTableElem};
use crate::gc_store::{GcStore, GcTableError};
use crate::static_table::StaticTable;
use crate::table::Table;
use pool_limits::Trap;
use pool_pages::Pages;

// Calls on a table of functions.
impl<P: Pages> Table<P> {
    /// The function with this number: None where it isn't initialised.
    pub fn get_func(&self, index: u64) -> Result<Option<FuncTableElem>, Trap>
        requires { element_type_of self.now ≡ Func }
        ensures answer { is_ok result ≡ nat_lt index (table_view self.now).size }
        ensures value { IfOk result (λ x. IfSome (table_view self.now).elements (λ es. slice_get es index ≡ Some (func_item x))) }
        ensures trap { IfErr result (λ e. e ≡ TableOutOfBounds) }
    {
        match self {
            Table::Static(StaticTable::Func(table)) => table.get(index),
            Table::Dynamic(DynamicTable::Func(table)) => table.get(index),
            _ => unreachable!(),
        }
    }

    /// As `get_func`.
    pub fn get_func_maybe_init(&self, index: u64) -> Result<Option<FuncTableElem>, Trap>
        requires { element_type_of self.now ≡ Func }
        ensures answer { is_ok result ≡ nat_lt index (table_view self.now).size }
        ensures value { IfOk result (λ x. IfSome (table_view self.now).elements (λ es. slice_get es index ≡ Some (func_item x))) }
        ensures trap { IfErr result (λ e. e ≡ TableOutOfBounds) }
    {
        self.get_func(index)
    }

    /// Sets `len` functions from `dst` on to this one, or none where they pass the size. Takes no memory.
    pub fn fill_func(&mut self, dst: u64, val: FuncTableElem, len: u64) -> Result<(), Trap>
        requires kind { element_type_of self.old ≡ Func }
        requires valid { IsFunc val }
        ensures element_type { element_type_of self.new ≡ Func }
        ensures form { is_static_table self.new ≡ is_static_table self.old }
        ensures answer { result ≡ table_access (dst + len) (table_view self.old).size }
        ensures filled { OnOk result (FillsTable dst len (func val) (table_view self.old) (table_view self.new)) }
        ensures same { OnErr result (table_view self.new ≡ table_view self.old) }
    {
        match self {
            Table::Static(StaticTable::Func(table)) => table.fill_func(dst, val, len),
            Table::Dynamic(DynamicTable::Func(table)) => table.fill(dst, Some(val), len),
            _ => unreachable!(),
        }
    }

    /// Sets one function.
    pub fn set_func(&mut self, index: u64, elem: FuncTableElem) -> Result<(), Trap>
        requires kind { element_type_of self.old ≡ Func }
        requires valid { IsFunc elem }
        ensures element_type { element_type_of self.new ≡ Func }
        ensures form { is_static_table self.new ≡ is_static_table self.old }
        ensures answer { result ≡ table_access (index + 1) (table_view self.old).size }
        ensures set { OnOk result (FillsTable index 1 (func elem) (table_view self.old) (table_view self.new)) }
        ensures same { OnErr result (table_view self.new ≡ table_view self.old) }
    {
        self.fill_func(index, elem, 1)
    }
}

// Calls on a table of continuations.
impl<P: Pages> Table<P> {
    /// The continuation with this number.
    pub fn get_cont(&self, index: u64) -> Result<ContTableElem, Trap>
        requires { element_type_of self.now ≡ Cont }
        ensures answer { is_ok result ≡ nat_lt index (table_view self.now).size }
        ensures value { IfOk result (λ x. IfSome (table_view self.now).elements (λ es. slice_get es index ≡ Some (cont x))) }
        ensures trap { IfErr result (λ e. e ≡ TableOutOfBounds) }
    {
        match self {
            Table::Static(StaticTable::Cont(table)) => table.get(index),
            Table::Dynamic(DynamicTable::Cont(table)) => table.get(index),
            _ => unreachable!(),
        }
    }

    /// Sets `len` continuations from `dst` on to this one, or none where they pass the size. Takes no memory.
    pub fn fill_cont(&mut self, dst: u64, val: ContTableElem, len: u64) -> Result<(), Trap>
        requires kind { element_type_of self.old ≡ Cont }
        requires valid { IsCont val }
        ensures element_type { element_type_of self.new ≡ Cont }
        ensures form { is_static_table self.new ≡ is_static_table self.old }
        ensures answer { result ≡ table_access (dst + len) (table_view self.old).size }
        ensures filled { OnOk result (FillsTable dst len (cont val) (table_view self.old) (table_view self.new)) }
        ensures same { OnErr result (table_view self.new ≡ table_view self.old) }
    {
        match self {
            Table::Static(StaticTable::Cont(table)) => table.fill_cont(dst, val, len),
            Table::Dynamic(DynamicTable::Cont(table)) => table.fill(dst, val, len),
            _ => unreachable!(),
        }
    }

    /// Sets one continuation.
    pub fn set_cont(&mut self, index: u64, elem: ContTableElem) -> Result<(), Trap>
        requires kind { element_type_of self.old ≡ Cont }
        requires valid { IsCont elem }
        ensures element_type { element_type_of self.new ≡ Cont }
        ensures form { is_static_table self.new ≡ is_static_table self.old }
        ensures answer { result ≡ table_access (index + 1) (table_view self.old).size }
        ensures set { OnOk result (FillsTable index 1 (cont elem) (table_view self.old) (table_view self.new)) }
        ensures same { OnErr result (table_view self.new ≡ table_view self.old) }
    {
        self.fill_cont(index, elem, 1)
    }
}

// Calls on a table of GC references.
impl<P: Pages> Table<P> {
    /// The reference with this number.
    pub fn get_gc_ref(&self, index: u64) -> Result<Option<u32>, Trap>
        requires { element_type_of self.now ≡ GcRef }
        ensures answer { is_ok result ≡ nat_lt index (table_view self.now).size }
        ensures value { IfOk result (λ x. IfSome (table_view self.now).elements (λ es. slice_get es index ≡ Some (gc_ref x))) }
        ensures trap { IfErr result (λ e. e ≡ TableOutOfBounds) }
    {
        match self {
            Table::Static(StaticTable::GcRef(table)) => table.get(index),
            Table::Dynamic(DynamicTable::GcRef(table)) => table.get(index),
            _ => unreachable!(),
        }
    }

    /// Sets `len` references from `dst` on to this one, or none where they pass the size. The store is told of each before
    /// it is written; where that fails, those before it are set. Takes no memory.
    pub fn fill_gc_ref<G: GcStore>(
        &mut self,
        store: &mut G,
        dst: u64,
        val: Option<u32>,
        len: u64,
    ) -> Result<(), GcTableError>
        requires kind { element_type_of self.old ≡ GcRef }
        requires valid { IsGc val }
        ensures element_type { element_type_of self.new ≡ GcRef }
        ensures form { is_static_table self.new ≡ is_static_table self.old }
        ensures inside { dst + len ≤ (table_view self.old).size → (result ≡ stored_answer (is_ok result)) × StoredFill G.told G.leads dst len val (table_view self.old) (table_view self.new) store.old store.new (is_ok result) }
        ensures outside { (table_view self.old).size < dst + len → (result ≡ Err (GcTableError.Trap TableOutOfBounds)) × ((table_view self.new ≡ table_view self.old) × (store.new ≡ store.old)) }
    {
        let size = self.size() as u64;
        if dst > size || len > size - dst {
            return Err(GcTableError::Trap(Trap::TableOutOfBounds));
        }
        let told = self.tell_store(store, dst, val, len);
        self.fill_gc_refs(dst, val, told);
        if told < len {
            return Err(GcTableError::GcStoreFault);
        }
        Ok(())
    }

    // Tells the store that these references are about to be replaced, up to a call that fails. Answers how many passed.
    fn tell_store<G: GcStore>(&self, store: &mut G, dst: u64, val: Option<u32>, len: u64) -> u64
        requires kind { element_type_of self.now ≡ GcRef }
        requires inside { dst + len ≤ (table_view self.now).size }
        ensures within { result ≤ len }
        ensures asked { StoreAsked G.told G.leads dst len result val (table_view self.now).elements store.old store.new (nat_le len result) }
    {
        // What bounds the sums below.
        let _size = self.size();
        for index in 0..len {
            let old = self.gc_ref_at(dst + index);
            let Ok(()) = store.write_gc_ref(old, val) else {
                return index;
            };
        }
        len
    }

    // The reference with this number, which the table has.
    fn gc_ref_at(&self, index: u64) -> Option<u32>
        requires kind { element_type_of self.now ≡ GcRef }
        requires inside { index < (table_view self.now).size }
        ensures { IfSome (table_view self.now).elements (λ es. slice_get es index ≡ Some (gc_ref result)) }
    {
        match self.get_gc_ref(index) {
            Ok(reference) => reference,
            Err(_) => unreachable!(),
        }
    }

    // Sets so many references, which the table has.
    fn fill_gc_refs(&mut self, dst: u64, val: Option<u32>, len: u64)
        requires kind { element_type_of self.old ≡ GcRef }
        requires valid { IsGc val }
        requires inside { dst + len ≤ (table_view self.old).size }
        ensures element_type { element_type_of self.new ≡ GcRef }
        ensures form { is_static_table self.new ≡ is_static_table self.old }
        ensures filled { FillsTable dst len (gc_ref val) (table_view self.old) (table_view self.new) }
    {
        match self.fill_unasked(dst, val, len) {
            Ok(()) => {}
            Err(_) => unreachable!(),
        }
    }

    // As `fill_gc_ref`, without a store.
    fn fill_unasked(&mut self, dst: u64, val: Option<u32>, len: u64) -> Result<(), Trap>
        requires kind { element_type_of self.old ≡ GcRef }
        requires valid { IsGc val }
        ensures element_type { element_type_of self.new ≡ GcRef }
        ensures form { is_static_table self.new ≡ is_static_table self.old }
        ensures answer { result ≡ table_access (dst + len) (table_view self.old).size }
        ensures filled { OnOk result (FillsTable dst len (gc_ref val) (table_view self.old) (table_view self.new)) }
        ensures same { OnErr result (table_view self.new ≡ table_view self.old) }
    {
        match self {
            Table::Static(StaticTable::GcRef(table)) => table.fill_gc_ref(dst, val, len),
            Table::Dynamic(DynamicTable::GcRef(table)) => table.fill(dst, val, len),
            _ => unreachable!(),
        }
    }

    /// Sets one reference, after the store was told. Where that fails, it stays as it was.
    pub fn set_gc_ref<G: GcStore>(
        &mut self,
        store: &mut G,
        index: u64,
        elem: Option<u32>,
    ) -> Result<(), GcTableError>
        requires kind { element_type_of self.old ≡ GcRef }
        requires valid { IsGc elem }
        ensures element_type { element_type_of self.new ≡ GcRef }
        ensures form { is_static_table self.new ≡ is_static_table self.old }
        ensures inside { index < (table_view self.old).size → (result ≡ stored_answer (is_ok result)) × StoredFill G.told G.leads index 1 elem (table_view self.old) (table_view self.new) store.old store.new (is_ok result) }
        ensures outside { (table_view self.old).size ≤ index → (result ≡ Err (GcTableError.Trap TableOutOfBounds)) × ((table_view self.new ≡ table_view self.old) × (store.new ≡ store.old)) }
    {
        self.fill_gc_ref(store, index, elem, 1)
    }

    /// Sets one reference, without a store.
    pub fn put_gc_ref(&mut self, index: u64, elem: Option<u32>) -> Result<(), Trap>
        requires kind { element_type_of self.old ≡ GcRef }
        requires valid { IsGc elem }
        ensures element_type { element_type_of self.new ≡ GcRef }
        ensures form { is_static_table self.new ≡ is_static_table self.old }
        ensures answer { result ≡ table_access (index + 1) (table_view self.old).size }
        ensures set { OnOk result (FillsTable index 1 (gc_ref elem) (table_view self.old) (table_view self.new)) }
        ensures same { OnErr result (table_view self.new ≡ table_view self.old) }
    {
        self.fill_unasked(index, elem, 1)
    }
}
