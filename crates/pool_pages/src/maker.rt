ghost use Rattle.std.specs.Prelude.{◌≡◌, ℕ, ◌≤◌, List, [], ◌∷◌, false, true, IfOk, IfSome, OnOk, MatchResult};
ghost use Rattle.std.specs.Borrow.{GName};
ghost use Rattle.pool_pages.specs.MakeFaults.{RaisesFaults, RaisesBehind};
ghost use Rattle.pool_pages.specs.MakerTold.{MakerTold, made_region, next_after, fails_making, fails_images};

use crate::pages::{Pages, RegionName};
use pool_types::{DecommitBehavior, HostAlignedByteCount, PageSize};
use std::alloc::Global;

/// Why a region or an image can't be made.
#[derive(Clone, Copy, Debug, PartialEq, Eq)]
pub enum MakeFault {
    Memory,
    PageFault,
}

/// Makes regions, and the backing files of images.
///
/// A making that answers `PageFault` raises `faults`, and each other leaves it. A maker may tell contracts
/// which makings fail, and which calls on the regions that it makes. It always tells the list that it has
/// itself, and how often a making by the maker behind it failed: a making that it lists fails and isn't made
/// there, and another one answers `PageFault` only where that count rose.
pub trait PageMaker {
    type Region: Pages;

    ghost told: { Self → MakerTold };

    // The `&mut` that it holds, outermost first, each by the name that proofs know it by; most makers hold none. No call
    // exchanges one. So whoever lends his maker to another one knows that what is left there is left in his own, also
    // after code that is written for every maker.
    ghost borrows: { Self → List GName } = { λ _. [] };

    /// How many makings have failed. Never falls.
    fn faults(&self) -> u64
        ensures { result ≡ (told self.now).faults };

    /// The page size of a region that isn't given one. Never changes.
    fn page(&self) -> PageSize
        ensures { result ≡ (told self.now).page };

    /// How many regions on demand were asked for so far; stands still at the end of its type.
    fn next(&self) -> u32
        ensures { result ≡ (told self.now).next };

    /// A region of zeros, of which the bytes below `accessible` can be reached.
    fn make(
        &mut self,
        alloc: Global,
        name: RegionName,
        behaviour: DecommitBehavior,
        accessible: HostAlignedByteCount,
        len: HostAlignedByteCount,
    ) -> Result<Self::Region, MakeFault>
        requires page { accessible.page ≡ len.page }
        requires within { accessible.bytes ≤ len.bytes }
        ensures region { IfOk result (λ region. Self.Region.told region ≡ made_region name behaviour accessible len (told self.old)) }
        ensures maker { told self.new ≡ record (told self.old) { next = next_after name (told self.old).next; behind = (told self.new).behind; faults = (told self.new).faults } }
        ensures faults { MatchResult result (λ _. (told self.new).faults ≡ (told self.old).faults) (RaisesFaults (told self.old).faults (told self.new).faults) }
        ensures listed { IfOk result (λ _. fails_making name (told self.old).listed ≡ false) }
        ensures behind { MatchResult result (λ _. (told self.new).behind ≡ (told self.old).behind) (RaisesBehind (fails_making name (told self.old).listed) (told self.old).behind (told self.new).behind) }
        ensures borrows { borrows self.new ≡ borrows self.old }
        ensures planned { IfSome (told self.old).plan (λ plan. MatchResult result (λ _. fails_making name plan ≡ false) (λ e. e ≡ MakeFault.PageFault → fails_making name plan ≡ true)) };

    /// Stands for making the file behind the image of a memory of the module `id`. `len` is that of the image.
    fn image(
        &mut self,
        alloc: Global,
        id: u64,
        memory: u32,
        len: HostAlignedByteCount,
    ) -> Result<(), MakeFault>
        ensures maker { told self.new ≡ record (told self.old) { behind = (told self.new).behind; faults = (told self.new).faults } }
        ensures faults { MatchResult result (λ _. (told self.new).faults ≡ (told self.old).faults) (RaisesFaults (told self.old).faults (told self.new).faults) }
        ensures listed { IfOk result (λ _. fails_images id (told self.old).listed ≡ false) }
        ensures behind { MatchResult result (λ _. (told self.new).behind ≡ (told self.old).behind) (RaisesBehind (fails_images id (told self.old).listed) (told self.old).behind (told self.new).behind) }
        ensures borrows { borrows self.new ≡ borrows self.old }
        ensures planned { IfSome (told self.old).plan (λ plan. MatchResult result (λ _. fails_images id plan ≡ false) (λ e. e ≡ MakeFault.PageFault → fails_images id plan ≡ true)) };
}

/// The number of the next region on demand, once this one was asked for.
pub(crate) fn next_after(name: RegionName, next: u32) -> u32
    ensures { result ≡ next_after name next }
{
    match name {
        RegionName::OnDemand(_) => next.saturating_add(1),
        RegionName::Memory(_) | RegionName::Table(_) | RegionName::Stack(_) => next,
    }
}

/// A maker that is lent makes what it makes.
impl<M: PageMaker> PageMaker for &mut M {
    type Region = M::Region;

    ghost told = { λ m. M.told m.now };

    ghost borrows = { λ m. m.ghost_name ∷ M.borrows m.now };

    fn faults(&self) -> u64 {
        (**self).faults()
    }

    fn page(&self) -> PageSize {
        (**self).page()
    }

    fn next(&self) -> u32 {
        (**self).next()
    }

    fn make(
        &mut self,
        alloc: Global,
        name: RegionName,
        behaviour: DecommitBehavior,
        accessible: HostAlignedByteCount,
        len: HostAlignedByteCount,
    ) -> Result<M::Region, MakeFault> {
        (**self).make(alloc, name, behaviour, accessible, len)
    }

    fn image(
        &mut self,
        alloc: Global,
        id: u64,
        memory: u32,
        len: HostAlignedByteCount,
    ) -> Result<(), MakeFault> {
        (**self).image(alloc, id, memory, len)
    }
}
