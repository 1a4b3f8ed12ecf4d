ghost use Rattle.std.specs.Prelude.{◌≡◌, ◌<◌, false, not, is_ok, IfOk, IfSome, OnOk, OnErr, MatchResult};
ghost use Rattle.pool_types.specs.Count.{count};
ghost use Rattle.pool_pages.specs.MakerTold.{fails_making, made_region};
ghost use Rattle.pool_images.specs.Slots.{coloured};
ghost use Rattle.pool_slots.specs.Makings.{IsListedPoolFault};
ghost use Rattle.pool_slots.specs.Colourings.{ColouredRegionsAreFresh, stripe_colour, fails_colouring, fails_region, FaultedColouring, IsUncoloured, RaisesUnlessGivenUp, RaisesBehindUnlessGivenUp};

use crate::errors::PoolNewError;
use pool_pages::{MakeFault, PageFault, PageMaker, Pages, RegionName};
use pool_types::{DecommitBehavior, HostAlignedByteCount};
use std::alloc::Global;

/// The colour of the pages of a memory slot, where there are two stripes or more: key `i + 1` is that of stripe `i`.
pub fn stripe_colour(slot: u32, num_stripes: u32) -> Option<u8>
    requires { (0 < num_stripes) × (num_stripes < 256) }
    ensures { result ≡ stripe_colour num_stripes slot }
{
    if num_stripes > 1 {
        Some((slot % num_stripes) as u8 + 1)
    } else {
        None
    }
}

/// The region of a memory slot, of this behaviour and length, of which nothing can be reached. All its pages are given the
/// colour, where there is one. Where that fails the region is given up.
pub(crate) fn make_region<P: Pages, M: PageMaker<Region = P>>(
    alloc: Global,
    maker: &mut M,
    behaviour: DecommitBehavior,
    slot: u32,
    len: HostAlignedByteCount,
    colour: Option<u8>,
) -> Result<P, PoolNewError>
    ensures region { IfOk result (λ region. P.told region ≡ coloured colour 0 len.bytes (made_region (RegionName.Memory slot) behaviour (count len.page 0) len (M.told maker.old))) }
    ensures maker { M.told maker.new ≡ record (M.told maker.old) { behind = (M.told maker.new).behind; faults = (M.told maker.new).faults } }
    ensures borrows { M.borrows maker.new ≡ M.borrows maker.old }
    ensures faults { MatchResult result (λ _. (M.told maker.new).faults ≡ (M.told maker.old).faults) (RaisesUnlessGivenUp (IsUncoloured P.told colour behaviour len slot (M.told maker.old)) (M.told maker.old).faults (M.told maker.new).faults) }
    ensures listed { IfOk result (λ _. fails_making (RegionName.Memory slot) (M.told maker.old).listed ≡ false) }
    ensures behind { MatchResult result (λ _. (M.told maker.new).behind ≡ (M.told maker.old).behind) (RaisesBehindUnlessGivenUp (IsUncoloured P.told colour behaviour len slot (M.told maker.old)) (fails_making (RegionName.Memory slot) (M.told maker.old).listed) (M.told maker.old).behind (M.told maker.new).behind) }
    ensures planned { MatchResult result (λ _. IfSome (M.told maker.old).plan (λ plan. fails_region colour len.bytes slot plan ≡ false)) (λ e. IfSome (M.told maker.old).plan (λ plan. IsListedPoolFault (fails_region colour len.bytes slot plan) e)) }
{
    let made = maker.make(
        alloc,
        RegionName::Memory(slot),
        behaviour,
        len.page().zero(),
        len,
    );
    let mut region = match made {
        Ok(region) => region,
        Err(MakeFault::Memory) => return Err(PoolNewError::Memory),
        Err(MakeFault::PageFault) => return Err(PoolNewError::PageFault),
    };
    let Ok(()) = give_colour(&mut region, len, colour) else {
        return Err(PoolNewError::PageFault);
    };
    Ok(region)
}

// Gives all pages of a new region the colour, where there is one.
fn give_colour<P: Pages>(
    region: &mut P,
    len: HostAlignedByteCount,
    colour: Option<u8>,
) -> Result<(), PageFault>
    requires page { len.page ≡ (P.told region.old).page }
    requires whole { len.bytes ≡ (P.told region.old).len }
    requires first { (P.told region.old).made ≡ 0 }
    ensures ok { OnOk result (P.told region.new ≡ coloured colour 0 len.bytes (P.told region.old)) }
    ensures fault { OnErr result (FaultedColouring colour len.bytes (P.told region.old) (P.told region.new)) }
    ensures planned { IfSome (P.told region.old).plan (λ calls. is_ok result ≡ not (fails_colouring colour len.bytes calls)) }
{
    let start = len.page().zero();
    match colour {
        Some(colour) => region.recolour(start, len, colour),
        None => Ok(()),
    }
}

/// An image slot in its colour can be made of each region that was given one. It does nothing.
#[tactic(auto, using(crate::proofs::FreshColours::regions_fresh))]
pub fn coloured_regions_are_fresh()
    ensures { ColouredRegionsAreFresh }
{}
