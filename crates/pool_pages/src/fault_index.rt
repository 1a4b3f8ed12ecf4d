ghost use Rattle.std.specs.Prelude.{◌≡◌, ◌==◌, List, IfOk};
ghost use Rattle.std.specs.List.{filter, filter_map, list_any};
ghost use Rattle.std.specs.List.Sorted.{IsNonDecreasingBy};
ghost use Rattle.pool_pages.specs.FaultPlans.{planned_call, plans_images};
ghost use Rattle.pool_pages.specs.SortedFaults.{IsByNumber, has_number, number_of};

use crate::fault_plan::{Fault, calls_on, lists_images};
use crate::pages::RegionName;
use pool_types::PlainList;
use std::alloc::{AllocError, Global};
use std::marker::Model;

/// A list of faults that is sorted once, by the numbers of regions and modules: the entries for one of them are
/// then found without going through the others. Contracts see the list as it was given.
#[derive(Drop)]
pub(crate) struct FaultIndex<'a> {
    plan: &'a [Fault],
    by_number: Option<Vec<Fault>>,
}

impl<'a> Model for FaultIndex<'a> {
    ghost use Rattle.std.specs.Prelude.{List, IfSome};
    ghost use Rattle.pool_pages.specs.SortedFaults.{IsByNumber};
    ghost use Rattle.pool_pages.specs.declared.fault_plan.Fault.{Fault};

    ghost Value = { List Fault };

    ghost view = { λ i. i.plan.now };

    ghost invariant = { λ i. IfSome i.by_number (λ sorted. IsByNumber sorted.items i.plan.now) };
}

impl<'a> FaultIndex<'a> {
    /// Borrows the list. Takes no memory.
    pub(crate) fn new(plan: &'a [Fault]) -> Self
        ensures { result ≡ plan.now }
    {
        FaultIndex {
            plan,
            by_number: None,
        }
    }

    /// The numbers of the calls that the list lists for this region, in its order. The first call sorts the list.
    pub(crate) fn calls_on(
        &mut self,
        alloc: Global,
        name: RegionName,
    ) -> Result<PlainList<u64>, AllocError>
        ensures same { self.new ≡ self.old }
        ensures calls { IfOk result (λ calls. calls ≡ filter_map (planned_call name) self.old) }
    {
        if let Some(sorted) = &self.by_number {
            return calls_in(alloc, sorted.as_slice(), name);
        }
        let sorted = by_number(alloc, self.plan)?;
        let calls = calls_in(alloc, sorted.as_slice(), name)?;
        self.by_number = Some(sorted);
        Ok(calls)
    }

    /// Whether the list lists the makings of images of this module.
    pub(crate) fn lists_images(&self, id: u64) -> bool
        ensures { result ≡ list_any (plans_images id) self.now }
    {
        match &self.by_number {
            Some(sorted) => lists_images(with_number(sorted.as_slice(), id), id),
            None => lists_images(self.plan, id),
        }
    }
}

// A copy of a list, sorted by number. Entries of one number stay in their order.
fn by_number(alloc: Global, faults: &[Fault]) -> Result<Vec<Fault>, AllocError>
    ensures { IfOk result (λ sorted. IsByNumber sorted.items faults.now) }
{
    let mut sorted = Vec::from_slice(alloc, faults)?;
    sorted.sort_by_key(|fault: &Fault| fault.slot)?;
    Ok(sorted)
}

// The number that entries for a region have.
fn number_of(name: RegionName) -> u64
    ensures { result ≡ number_of name }
{
    match name {
        RegionName::Memory(number)
        | RegionName::Table(number)
        | RegionName::Stack(number)
        | RegionName::OnDemand(number) => number as u64,
    }
}

// The entries of a sorted list that have this number, found by halving.
fn with_number(sorted: &[Fault], number: u64) -> &[Fault]
    requires { IsNonDecreasingBy (λ fault. fault.slot) sorted.now }
    ensures { filter (has_number number) result.now ≡ filter (has_number number) sorted.now }
{
    let end = sorted.partition_point(|fault: &Fault| fault.slot <= number);
    let first = sorted.partition_point(|fault: &Fault| fault.slot < number);
    &sorted[first.min(end)..end]
}

// The numbers of the calls that a sorted list lists for this region.
fn calls_in(alloc: Global, sorted: &[Fault], name: RegionName) -> Result<PlainList<u64>, AllocError>
    requires { IsNonDecreasingBy (λ fault. fault.slot) sorted.now }
    ensures { IfOk result (λ calls. calls ≡ filter_map (planned_call name) sorted.now) }
{
    calls_on(alloc, with_number(sorted, number_of(name)), name)
}
