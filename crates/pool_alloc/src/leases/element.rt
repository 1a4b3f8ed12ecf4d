//! The elements of a table, as a caller reads and sets them.
ghost use Rattle.std.specs.Prelude.{◌≡◌};
ghost use Rattle.pool_table.specs.TableStates.{table_view, is_static_table};
ghost use Rattle.pool_alloc.specs.TableLeases.{element_of, CanBeSet, HasType, IsElementAt, IsSet};

use pool_limits::Trap;
use pool_pages::Pages;
use pool_table::{ContTableElem, FuncTableElem, GcStore, GcTableError, Table};
use pool_types::TableElementType;

/// An element of a table.
#[derive(Clone, Copy, Debug, PartialEq, Eq)]
pub enum Element {
    /// A function that was never set, of a table that initialises functions when they are first read.
    Uninitialised,
    Func(FuncTableElem),
    Gc(Option<u32>),
    Cont(ContTableElem),
}

/// The element of a table at `at`.
pub fn element_at<P: Pages>(table: &Table<P>, at: u64) -> Result<Element, Trap>
    requires { HasType table.now }
    ensures { IsElementAt (table_view table.now) at result }
{
    match table.element_type() {
        TableElementType::Func => match table.get_func(at)? {
            Some(function) => Ok(Element::Func(function)),
            None => Ok(Element::Uninitialised),
        },
        TableElementType::GcRef => Ok(Element::Gc(table.get_gc_ref(at)?)),
        TableElementType::Cont => Ok(Element::Cont(table.get_cont(at)?)),
    }
}

/// Sets `len` elements of a table from `at` on, or nothing where they pass its size. For each GC reference the store is
/// asked first; the first call that fails ends it, and what was set before stays set.
pub fn set_elements<P: Pages, G: GcStore>(
    table: &mut Table<P>,
    store: &mut G,
    at: u64,
    element: Element,
    len: u64,
) -> Result<(), GcTableError>
    requires kind { HasType table.old }
    requires element { CanBeSet (table_view table.old).kind (element_of element) }
    ensures set { IsSet G.told G.leads at len (element_of element) (table_view table.old) (table_view table.new) store.old store.new result }
    ensures kind_stays { HasType table.new }
    ensures form { is_static_table table.new ≡ is_static_table table.old }
{
    match element {
        Element::Func(function) => match table.fill_func(at, function, len) {
            Ok(()) => Ok(()),
            Err(trap) => Err(GcTableError::Trap(trap)),
        },
        Element::Gc(reference) => table.fill_gc_ref(store, at, reference, len),
        Element::Cont(continuation) => match table.fill_cont(at, continuation, len) {
            Ok(()) => Ok(()),
            Err(trap) => Err(GcTableError::Trap(trap)),
        },
        Element::Uninitialised => unreachable!(),
    }
}
