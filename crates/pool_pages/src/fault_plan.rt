ghost use Rattle.std.specs.Prelude.{◌≡◌, ◌==◌, IfOk, if◌then◌else◌, Some, None};
ghost use Rattle.std.specs.List.{filter_map, list_any};
ghost use Rattle.pool_pages.specs.FaultPlans.{planned_call, plans_images};

use crate::pages::RegionName;
use pool_types::PlainList;
use std::alloc::{AllocError, Global};

/// What a planned failure is on: regions of a kind, or the images of a module.
#[derive(Clone, Copy, Debug, PartialEq, Eq)]
pub enum FaultKind {
    Memory,
    Table,
    Stack,
    Image,
    OnDemand,
}

/// A call that is to fail. One that names no call has no effect.
#[derive(Clone, Copy, Debug, PartialEq, Eq)]
pub struct Fault {
    pub kind: FaultKind,
    /// The number of the region, or of the module.
    pub slot: u64,
    /// 0 is the making, and n is the n-th call on the region's pages.
    pub call: u64,
}

impl Fault {
    // The call, where the region's number is the entry's.
    fn call_at(&self, number: u32) -> Option<u64>
        ensures { result ≡ (if number == self.now.slot then Some self.now.call else None) }
    {
        if number as u64 == self.slot {
            Some(self.call)
        } else {
            None
        }
    }

    /// The number of the call that it lists for this region.
    pub fn call_on(&self, name: RegionName) -> Option<u64>
        ensures { result ≡ planned_call name self.now }
    {
        match self.kind {
            FaultKind::Memory => match name {
                RegionName::Memory(number) => self.call_at(number),
                RegionName::Table(_) | RegionName::Stack(_) | RegionName::OnDemand(_) => None,
            },
            FaultKind::Table => match name {
                RegionName::Table(number) => self.call_at(number),
                RegionName::Memory(_) | RegionName::Stack(_) | RegionName::OnDemand(_) => None,
            },
            FaultKind::Stack => match name {
                RegionName::Stack(number) => self.call_at(number),
                RegionName::Memory(_) | RegionName::Table(_) | RegionName::OnDemand(_) => None,
            },
            FaultKind::OnDemand => match name {
                RegionName::OnDemand(number) => self.call_at(number),
                RegionName::Memory(_) | RegionName::Table(_) | RegionName::Stack(_) => None,
            },
            FaultKind::Image => None,
        }
    }

    /// Whether it lists the makings of images of this module.
    pub fn is_on_images(&self, id: u64) -> bool
        ensures { result ≡ plans_images id self.now }
    {
        self.kind == FaultKind::Image && self.call == 0 && id == self.slot
    }
}

/// The numbers of the calls that a list lists for this region, in its order.
pub(crate) fn calls_on(
    alloc: Global,
    faults: &[Fault],
    name: RegionName,
) -> Result<PlainList<u64>, AllocError>
    ensures { IfOk result (λ calls. calls ≡ filter_map (planned_call name) faults.now) }
{
    let mut calls = Vec::new(alloc);
    for fault in faults {
        if let Some(call) = fault.call_on(name) {
            calls.push(call)?;
        }
    }
    Ok(PlainList::from_vec(calls))
}

/// Whether a list lists the makings of images of this module.
pub(crate) fn lists_images(faults: &[Fault], id: u64) -> bool
    ensures { result ≡ list_any (plans_images id) faults.now }
{
    faults.iter().any(|fault| fault.is_on_images(id))
}
