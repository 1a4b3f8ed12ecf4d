//! An instance that was granted.
ghost use Rattle.std.specs.Prelude.{◌≡◌, ◌<◌};
ghost use Rattle.pool_alloc.specs.Objects.{no_objects};
ghost use Rattle.pool_alloc.specs.PoolTotals.{calls_of_leases, calls_of_instance, calls_of_tables};

use crate::leases::memory::MemoryLease;
use crate::leases::table::TableLease;
use crate::reserved::ReservedList;
use pool_pages::{PageCalls, Pages};
use std::alloc::Global;

/// An instance that was granted: its memories and its tables, in order.
#[derive(Drop)]
pub struct InstanceLease<P: Pages> {
    pub memories: ReservedList<MemoryLease<P>>,
    pub tables: ReservedList<TableLease<P>>,
}

impl<P: Pages> InstanceLease<P> {
    // Nothing of an instance. Takes no memory.
    pub(crate) fn none(alloc: Global) -> Self
        ensures { result ≡ no_objects }
    {
        InstanceLease {
            memories: ReservedList::none(alloc),
            tables: ReservedList::none(alloc),
        }
    }

    /// The calls made so far on the regions of its objects, together.
    pub fn page_calls(&self) -> PageCalls
        ensures { result ≡ calls_of_instance self.now }
    {
        calls_of(&self.memories).plus(calls_of_tables(&self.tables))
    }
}

// The calls made so far on the regions of memories, together.
fn calls_of<P: Pages>(leases: &ReservedList<MemoryLease<P>>) -> PageCalls
    ensures { result ≡ calls_of_leases leases.now.items }
{
    let mut calls = PageCalls::none();
    for at in 0..leases.len() {
        calls = calls.plus(leases.get(at).page_calls());
    }
    calls
}

// The calls made so far on the regions of tables, together.
fn calls_of_tables<P: Pages>(leases: &ReservedList<TableLease<P>>) -> PageCalls
    ensures { result ≡ calls_of_tables leases.now.items }
{
    let mut calls = PageCalls::none();
    for at in 0..leases.len() {
        calls = calls.plus(leases.get(at).page_calls());
    }
    calls
}
