ghost use Rattle.std.specs.Prelude.{◌≡◌, ℕ, ◌<◌, ◌≤◌, false, not, is_ok, IfOk, IfSome, OnOk, OnErr, MatchResult};
ghost use Rattle.pool_pages.specs.MakerTold.{fails_making, made_region, next_after};
ghost use Rattle.pool_pages.specs.Told.{Faulted, hiding, succeeded};
ghost use Rattle.pool_slots.specs.Colourings.{RaisesUnlessGivenUp, RaisesBehindUnlessGivenUp, fails_first_call};
ghost use Rattle.pool_slots.specs.Makings.{IsListedPoolFault};
ghost use Rattle.pool_slots.specs.PartsMade.{region_count, nth_region, region_name, slot_region, stack_region, fails_slot, fails_guard, IsGivenUp, IsUnguarded, cell_part};

use crate::colouring::{make_region, stripe_colour};
use crate::errors::PoolNewError;
use crate::heap_maker::GcHeap;
use crate::part::PoolPart;
use crate::part_maker::PartSettings;
use crate::queued_range::QueueKind;
use crate::region_cell::RegionCell;
use crate::slot_name::{OfKinds, SlotName};
use pool_pages::{MakeFault, PageFault, PageMaker, Pages, RegionName};
use pool_types::{DecommitBehavior, HostAlignedByteCount, PageSize};
use std::alloc::Global;

impl OfKinds {
    // How many slots have a region.
    pub(crate) fn region_count(&self) -> u64
        ensures { result ≡ region_count self.now }
    {
        self.memory as u64 + self.table as u64 + self.stack as u64
    }

    // The slot whose region is made after so many others.
    pub(crate) fn nth_region(&self, at: u64) -> (QueueKind, u32)
        requires { at < region_count self.now }
        ensures { result ≡ nth_region self.now at }
    {
        let tables = self.memory as u64;
        let stacks = tables + self.table as u64;
        if at < tables {
            (QueueKind::Memory, at as u32)
        } else if at < stacks {
            (QueueKind::Table, (at - tables) as u32)
        } else {
            (QueueKind::Stack, (at - stacks) as u32)
        }
    }
}

// The region of a slot of this kind: a memory's in the colour of its stripe, a stack's with its guard.
pub(crate) fn make_slot_region<P: Pages, M: PageMaker<Region = P>>(
    alloc: Global,
    maker: &mut M,
    settings: &PartSettings,
    num_stripes: u32,
    kind: QueueKind,
    slot: u32,
) -> Result<P, PoolNewError>
    requires stripes { (0 < num_stripes) × (num_stripes < 256) }
    requires guard { kind ≡ QueueKind.Stack → settings.now.stack_len.page ≤ settings.now.stack_len.bytes }
    ensures region { IfOk result (λ region. P.told region ≡ slot_region num_stripes (M.told maker.old) settings.now kind slot) }
    ensures maker { M.told maker.new ≡ record (M.told maker.old) { behind = (M.told maker.new).behind; faults = (M.told maker.new).faults } }
    ensures borrows { M.borrows maker.new ≡ M.borrows maker.old }
    ensures faults { MatchResult result (λ _. (M.told maker.new).faults ≡ (M.told maker.old).faults) (RaisesUnlessGivenUp (IsGivenUp P.told num_stripes settings.now kind slot (M.told maker.old)) (M.told maker.old).faults (M.told maker.new).faults) }
    ensures listed { IfOk result (λ _. fails_making (region_name kind slot) (M.told maker.old).listed ≡ false) }
    ensures behind { MatchResult result (λ _. (M.told maker.new).behind ≡ (M.told maker.old).behind) (RaisesBehindUnlessGivenUp (IsGivenUp P.told num_stripes settings.now kind slot (M.told maker.old)) (fails_making (region_name kind slot) (M.told maker.old).listed) (M.told maker.old).behind (M.told maker.new).behind) }
    ensures planned { MatchResult result (λ _. IfSome (M.told maker.old).plan (λ plan. fails_slot num_stripes settings.now kind slot plan ≡ false)) (λ e. IfSome (M.told maker.old).plan (λ plan. IsListedPoolFault (fails_slot num_stripes settings.now kind slot plan) e)) }
{
    let behaviour = settings.behaviour;
    match kind {
        QueueKind::Memory => {
            let colour = stripe_colour(slot, num_stripes);
            make_region(alloc, maker, behaviour, slot, settings.memory_len, colour)
        }
        QueueKind::Table => {
            let len = settings.table_len;
            make_reached(alloc, maker, RegionName::Table(slot), behaviour, len)
        }
        QueueKind::Stack => { make_guarded(alloc, maker, behaviour, slot, settings.stack_len) }
    }
}

// A region of this behaviour and length, all of which can be reached.
fn make_reached<P: Pages, M: PageMaker<Region = P>>(
    alloc: Global,
    maker: &mut M,
    name: RegionName,
    behaviour: DecommitBehavior,
    len: HostAlignedByteCount,
) -> Result<P, PoolNewError>
    requires { (n : ℕ) → next_after name n ≡ n }
    ensures region { IfOk result (λ region. P.told region ≡ made_region name behaviour len len (M.told maker.old)) }
    ensures maker { M.told maker.new ≡ record (M.told maker.old) { behind = (M.told maker.new).behind; faults = (M.told maker.new).faults } }
    ensures borrows { M.borrows maker.new ≡ M.borrows maker.old }
    ensures faults { MatchResult result (λ _. (M.told maker.new).faults ≡ (M.told maker.old).faults) (RaisesUnlessGivenUp ⊥ (M.told maker.old).faults (M.told maker.new).faults) }
    ensures listed { IfOk result (λ _. fails_making name (M.told maker.old).listed ≡ false) }
    ensures behind { MatchResult result (λ _. (M.told maker.new).behind ≡ (M.told maker.old).behind) (RaisesBehindUnlessGivenUp ⊥ (fails_making name (M.told maker.old).listed) (M.told maker.old).behind (M.told maker.new).behind) }
    ensures planned { MatchResult result (λ _. IfSome (M.told maker.old).plan (λ plan. fails_making name plan ≡ false)) (λ e. IfSome (M.told maker.old).plan (λ plan. IsListedPoolFault (fails_making name plan) e)) }
{
    match maker.make(alloc, name, behaviour, len, len) {
        Ok(region) => Ok(region),
        Err(MakeFault::Memory) => Err(PoolNewError::Memory),
        Err(MakeFault::PageFault) => Err(PoolNewError::PageFault),
    }
}

// The region of a stack, of which the first page is hidden. Where that fails the region is given up.
fn make_guarded<P: Pages, M: PageMaker<Region = P>>(
    alloc: Global,
    maker: &mut M,
    behaviour: DecommitBehavior,
    slot: u32,
    len: HostAlignedByteCount,
) -> Result<P, PoolNewError>
    requires { len.page ≤ len.bytes }
    ensures region { IfOk result (λ region. P.told region ≡ stack_region (M.told maker.old) behaviour len slot) }
    ensures maker { M.told maker.new ≡ record (M.told maker.old) { behind = (M.told maker.new).behind; faults = (M.told maker.new).faults } }
    ensures borrows { M.borrows maker.new ≡ M.borrows maker.old }
    ensures faults { MatchResult result (λ _. (M.told maker.new).faults ≡ (M.told maker.old).faults) (RaisesUnlessGivenUp (IsUnguarded P.told behaviour len slot (M.told maker.old)) (M.told maker.old).faults (M.told maker.new).faults) }
    ensures listed { IfOk result (λ _. fails_making (RegionName.Stack slot) (M.told maker.old).listed ≡ false) }
    ensures behind { MatchResult result (λ _. (M.told maker.new).behind ≡ (M.told maker.old).behind) (RaisesBehindUnlessGivenUp (IsUnguarded P.told behaviour len slot (M.told maker.old)) (fails_making (RegionName.Stack slot) (M.told maker.old).listed) (M.told maker.old).behind (M.told maker.new).behind) }
    ensures planned { MatchResult result (λ _. IfSome (M.told maker.old).plan (λ plan. fails_guard len.page slot plan ≡ false)) (λ e. IfSome (M.told maker.old).plan (λ plan. IsListedPoolFault (fails_guard len.page slot plan) e)) }
{
    let made = maker.make(alloc, RegionName::Stack(slot), behaviour, len, len);
    let mut region = match made {
        Ok(region) => region,
        Err(MakeFault::Memory) => return Err(PoolNewError::Memory),
        Err(MakeFault::PageFault) => return Err(PoolNewError::PageFault),
    };
    let Ok(()) = hide_guard(&mut region, len.page()) else {
        return Err(PoolNewError::PageFault);
    };
    Ok(region)
}

// Hides the first page of a new region.
fn hide_guard<P: Pages>(region: &mut P, page: PageSize) -> Result<(), PageFault>
    requires page { page ≡ (P.told region.old).page }
    requires room { page ≤ (P.told region.old).len }
    requires first { (P.told region.old).made ≡ 0 }
    ensures ok { OnOk result (P.told region.new ≡ succeeded (hiding 0 page) (P.told region.old)) }
    ensures fault { OnErr result (Faulted (hiding 0 page) (P.told region.old) (P.told region.new)) }
    ensures planned { IfSome (P.told region.old).plan (λ calls. is_ok result ≡ not (fails_first_call page calls)) }
{
    region.hide(page.zero(), page.host_page_size())
}

// The part that is the cell of a slot, with its region.
pub(crate) fn cell_part<P: Pages, H: GcHeap>(
    kind: QueueKind,
    slot: u32,
    region: P,
) -> PoolPart<P, H>
    ensures { result ≡ cell_part kind slot (P.told region) }
{
    let name = SlotName {
        kind: kind.slot_kind(),
        slot,
    };
    let cell = RegionCell::new(name, region);
    match kind {
        QueueKind::Memory => PoolPart::Memory(cell),
        QueueKind::Table => PoolPart::Table(cell),
        QueueKind::Stack => PoolPart::Stack(cell),
    }
}
