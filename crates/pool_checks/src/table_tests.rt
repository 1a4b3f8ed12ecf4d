//! Tables of each kind in lists, which ask a limiter of their host.
ghost use Rattle.std.specs.Prelude.{◌≡◌, IfOk};
ghost use Rattle.pool_table.specs.TableStates.{element_type_of};

use pool_limits::{GrowFault, GrowthLimiter, LimiterError, ResourceLimiter};
use pool_pages::MadeRegion;
use pool_table::{GcTableError, ListedStore, Table, VMContObj};
use pool_types::{IndexType, Limits, PlainList, TableElementType, TableType, Tunables};
use std::alloc::Global;
use std::test::Fail;

/// Allows even sizes.
#[derive(Debug, Drop)]
struct EvenSizes {
    noes: u64,
    errors: u64,
}

impl GrowthLimiter for EvenSizes {
    ghost counts = { λ l. record { noes = l.noes; errors = l.errors } };

    fn may_grow_memory(
        &mut self,
        _current: usize,
        desired: usize,
        _maximum: Option<usize>,
    ) -> Result<bool, LimiterError> {
        if desired % 2 == 0 {
            return Ok(true);
        }
        self.noes = self.noes.saturating_add(1);
        Ok(false)
    }

    fn may_grow_table(
        &mut self,
        _current: usize,
        desired: usize,
        _maximum: Option<usize>,
    ) -> Result<bool, LimiterError> {
        if desired % 2 == 0 {
            return Ok(true);
        }
        self.errors = self.errors.saturating_add(1);
        Err(LimiterError::Other(7))
    }

    fn noes_so_far(&self) -> u64 {
        self.noes
    }

    fn errors_so_far(&self) -> u64 {
        self.errors
    }
}

// A lazy table in a list, of ten elements.
fn table(
    alloc: Global,
    element: TableElementType,
    even: &mut EvenSizes,
) -> Result<Table<MadeRegion>, Fail>
    ensures { IfOk result (λ table. element_type_of table ≡ element) }
{
    let ty = TableType {
        idx_type: IndexType::I64,
        limits: Limits { min: 10, max: None },
        element,
    };
    match Table::new_dynamic(alloc, &ty, &Tunables::default(), Some(even)) {
        Ok(table) => Ok(table),
        Err(_) => Err(Fail::new("the table was refused")),
    }
}

#[test]
fn functions_are_set_and_grow_evenly(rt: HostRuntime) -> Result<(), Fail> {
    let mut even = EvenSizes { noes: 0, errors: 0 };
    let mut table = table(rt.alloc(), TableElementType::Func, &mut even)?;
    assert_eq!(rt; table.set_func(9, Some(16)), Ok(()));
    assert_eq!(rt; table.get_func_maybe_init(9), Ok(Some(Some(16))));
    assert_eq!(rt; table.get_func(8), Ok(None));
    assert_eq!(rt; table.grow(Some(&mut even), 2), Ok(Some(10)));
    let odd = Err(GrowFault::LimiterFault(LimiterError::Other(7)));
    assert_eq!(rt; table.grow(Some(&mut even), 1), odd);
    assert!(rt; !table.is_all_zero());
    table.manually_memset_zeros();
    assert!(rt; table.is_all_zero());
    assert_eq!(rt; even.memory_growing(0, 3, None), Ok(false));
    assert_eq!(rt;
        (even.noes(), even.errors(), even.instances()),
        (1, 1, 10_000)
    );
    Ok(())
}

#[test]
fn continuations_are_set(rt: HostRuntime) -> Result<(), Fail> {
    let mut even = EvenSizes { noes: 0, errors: 0 };
    let object = VMContObj {
        contref: 9,
        revision: 3,
    };
    let mut table = table(rt.alloc(), TableElementType::Cont, &mut even)?;
    assert_eq!(rt; table.set_cont(9, Some(object)), Ok(()));
    assert_eq!(rt; table.get_cont(9), Ok(Some(object)));
    Ok(())
}

#[test]
fn references_are_set_while_the_store_lets_them(rt: HostRuntime) -> Result<(), Fail> {
    let alloc = rt.alloc();
    let mut even = EvenSizes { noes: 0, errors: 0 };
    let mut store = ListedStore::new(PlainList::from_vec(vec![in alloc; 2u64]?));
    let mut table = table(alloc, TableElementType::GcRef, &mut even)?;
    assert_eq!(rt; table.put_gc_ref(9, Some(5)), Ok(()));
    assert_eq!(rt; table.set_gc_ref(&mut store, 9, Some(7)), Ok(()));
    assert_eq!(rt;
        table.set_gc_ref(&mut store, 9, None),
        Err(GcTableError::GcStoreFault)
    );
    assert_eq!(rt; table.get_gc_ref(9), Ok(Some(7)));
    Ok(())
}

#[test]
fn the_empty_table_has_no_elements(rt: HostRuntime) -> Result<(), Fail> {
    let table = Table::<MadeRegion>::empty(rt.alloc());
    assert_eq!(rt;
        (table.size(), table.maximum(), table.is_static()),
        (0, 0, false)
    );
    Ok(())
}
