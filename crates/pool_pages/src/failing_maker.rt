ghost use Rattle.std.specs.Prelude.{◌≡◌, ◌==◌};
ghost use Rattle.std.specs.List.{list_any};
ghost use Rattle.pool_pages.specs.FaultPlans.{failing_maker, planned_faults};

use crate::call_counts::risen;
use crate::failing::Failing;
use crate::fault_index::FaultIndex;
use crate::fault_plan::Fault;
use crate::maker::{MakeFault, PageMaker, next_after};
use crate::pages::RegionName;
use pool_types::{DecommitBehavior, HostAlignedByteCount, PageSize};
use std::alloc::Global;

/// A maker with a list of the makings, and of the calls on its regions, that fail.
///
/// A listed making isn't made by the maker behind: it changes nothing but the counts. Contracts are told the list,
/// and how often a making by the maker behind failed, whatever that one tells.
#[derive(Drop)]
pub struct FailingMaker<'a, M: PageMaker + Drop> {
    maker: M,
    page: PageSize,
    plan: FaultIndex<'a>,
    next: u32,
    faults: u64,
}

impl<'a, M: PageMaker + Drop> FailingMaker<'a, M> {
    /// Owns the maker behind it, and borrows the list. `page` is that of a region that isn't given one.
    /// Takes no memory: the list is sorted, once, where the first region is made.
    pub fn new(maker: M, page: PageSize, plan: &'a [Fault]) -> Self
        ensures borrows { ⟦<FailingMaker<'a, M> as PageMaker>⟧.borrows result ≡ M.borrows maker }
        ensures told { ⟦<FailingMaker<'a, M> as PageMaker>⟧.told result ≡ failing_maker (M.told maker) page (planned_faults plan.now) (M.told maker).next (M.told maker).faults }
    {
        let next = maker.next();
        let faults = maker.faults();
        FailingMaker {
            maker,
            page,
            plan: FaultIndex::new(plan),
            next,
            faults,
        }
    }

    /// The maker behind it. One that was lent is given back so.
    pub fn into_maker(self) -> M
        ensures borrows { M.borrows result ≡ ⟦<FailingMaker<'a, M> as PageMaker>⟧.borrows self.entry }
        ensures faults { (M.told result).faults ≡ (⟦<FailingMaker<'a, M> as PageMaker>⟧.told self.entry).behind }
    {
        self.maker
    }
}

// Whether the numbers of a region's calls that fail have its making among them.
fn has_making(calls: &[u64]) -> bool
    ensures { result ≡ list_any (λ call. call == 0) calls.now }
{
    calls.iter().any(|&call| call == 0)
}

impl<'a, M: PageMaker + Drop> PageMaker for FailingMaker<'a, M> {
    type Region = Failing<M::Region>;

    ghost told = { λ m. failing_maker (M.told m.maker) m.page (planned_faults m.plan) m.next m.faults };

    ghost borrows = { λ m. M.borrows m.maker };

    fn faults(&self) -> u64 {
        self.faults
    }

    fn page(&self) -> PageSize {
        self.page
    }

    fn next(&self) -> u32 {
        self.next
    }

    fn make(
        &mut self,
        alloc: Global,
        name: RegionName,
        behaviour: DecommitBehavior,
        accessible: HostAlignedByteCount,
        len: HostAlignedByteCount,
    ) -> Result<Failing<M::Region>, MakeFault> {
        self.next = next_after(name, self.next);
        let Ok(calls) = self.plan.calls_on(alloc, name) else {
            return Err(MakeFault::Memory);
        };
        if has_making(calls.as_slice()) {
            self.faults = risen(self.faults);
            return Err(MakeFault::PageFault);
        }
        match self.maker.make(alloc, name, behaviour, accessible, len) {
            Ok(region) => match Failing::new(alloc, region, calls) {
                Ok(region) => Ok(region),
                Err(_) => Err(MakeFault::Memory),
            },
            Err(MakeFault::PageFault) => {
                self.faults = risen(self.faults);
                Err(MakeFault::PageFault)
            }
            Err(MakeFault::Memory) => Err(MakeFault::Memory),
        }
    }

    fn image(
        &mut self,
        alloc: Global,
        id: u64,
        memory: u32,
        len: HostAlignedByteCount,
    ) -> Result<(), MakeFault> {
        if self.plan.lists_images(id) {
            self.faults = risen(self.faults);
            return Err(MakeFault::PageFault);
        }
        match self.maker.image(alloc, id, memory, len) {
            Ok(()) => Ok(()),
            Err(MakeFault::PageFault) => {
                self.faults = risen(self.faults);
                Err(MakeFault::PageFault)
            }
            Err(MakeFault::Memory) => Err(MakeFault::Memory),
        }
    }
}
