ghost use Rattle.std.specs.Prelude.{◌≡◌, ◌+◌, ◌^◌, ◌<◌, ◌≤◌, is_ok, IfOk, IfErr, IfSome, OnOk, MatchResult};
ghost use Rattle.pool_pages.specs.Told.{passes};
ghost use Rattle.pool_images.specs.Slots.{limited};
ghost use Rattle.pool_memory.specs.Copying.{IsReadable, IsCopied};
ghost use Rattle.pool_memory.specs.Layouts.{layout_len};
ghost use Rattle.pool_memory.specs.Mapped.{IsMadeSlot};
ghost use Rattle.pool_memory.specs.Moving.{IsMadeFor, IsRefusedFor, IsMadeRegion, IsRegionRefused, IsRegionMade, region_for, slot_for, slot_of_region, first_call};

use crate::region_layout::RegionLayout;
use pool_images::MemoryImageSlot;
use pool_pages::{MakeFault, PageFault, PageMaker, Pages, RegionName};
use pool_types::DecommitBehavior;
use std::alloc::Global;

/// A slot in a region that is made for it, with `size` bytes that can be reached: one making, and one call on the region
/// where `size` isn't zero.
pub(crate) fn make_slot<P: Pages, M: PageMaker<Region = P>>(
    alloc: Global,
    maker: &mut M,
    layout: &RegionLayout,
    size: usize,
) -> Result<MemoryImageSlot<P>, MakeFault>
    requires room { size ≤ layout.now.capacity }
    ensures slot { IfOk result (λ s. s ≡ slot_for (M.told maker.old) layout.now size) }
    ensures borrows { M.borrows maker.new ≡ M.borrows maker.old }
    ensures made { IfOk result (IsMadeSlot layout.now size) }
    ensures maker { MatchResult result (λ _. IsMadeFor layout.now size (M.told maker.old) (M.told maker.new)) (λ e. IsRefusedFor e layout.now size (M.told maker.old) (M.told maker.new)) }
{
    let _before = layout.before().byte_count();
    let _capacity = layout.capacity().byte_count();
    let region = make_region(alloc, maker, layout)?;
    match open_slot(region, layout, size) {
        Ok(slot) => Ok(slot),
        Err(PageFault) => Err(MakeFault::PageFault),
    }
}

// A region of this layout, of which nothing can be reached.
fn make_region<P: Pages, M: PageMaker<Region = P>>(
    alloc: Global,
    maker: &mut M,
    layout: &RegionLayout,
) -> Result<P, MakeFault>
    ensures region { IfOk result (λ region. P.told region ≡ region_for (M.told maker.old) layout.now) }
    ensures bounded { layout_len layout.now < 2 ^ 64 }
    ensures borrows { M.borrows maker.new ≡ M.borrows maker.old }
    ensures made { OnOk result (IsMadeRegion (M.told maker.old) (M.told maker.new)) }
    ensures refused { IfErr result (λ e. IsRegionRefused e (M.told maker.old) (M.told maker.new)) }
{
    let name = RegionName::OnDemand(maker.next());
    let restoring = DecommitBehavior::RestoreOriginalMapping;
    let none = layout.capacity().page().zero();
    match maker.make(alloc, name, restoring, none, layout.len()) {
        Ok(region) => Ok(region),
        Err(fault) => Err(fault),
    }
}

// The slot in a region that was made of this layout, with `size` bytes that can be reached.
fn open_slot<P: Pages>(
    region: P,
    layout: &RegionLayout,
    size: usize,
) -> Result<MemoryImageSlot<P>, PageFault>
    requires room { size ≤ layout.now.capacity }
    requires made { IsRegionMade layout.now (P.told region) }
    ensures slot { IfOk result (λ s. s ≡ limited size (slot_of_region (P.told region) layout.now)) }
    ensures made { IfOk result (IsMadeSlot layout.now size) }
    ensures planned { IfSome (P.told region).plan (λ plan. is_ok result ≡ passes plan (first_call layout.now size) (P.told region)) }
{
    let _size = layout.before().byte_count();
    let capacity = layout.capacity().byte_count();
    let none = layout.capacity().page().zero();
    let mut slot = MemoryImageSlot::create(region, layout.before(), none, capacity, None);
    slot.set_heap_limit(size)?;
    Ok(slot)
}

// How many bytes are copied at once.
const PIECE: usize = 4096;

/// Copies the first `len` bytes of one slot to another.
pub(crate) fn copy_bytes<P: Pages>(
    from: &MemoryImageSlot<P>,
    to: &mut MemoryImageSlot<P>,
    len: usize,
)
    requires from { IsReadable len from.now }
    requires to { IsReadable len to.old }
    ensures { IsCopied 0 len from.now to.old to.new }
{
    let _from = from.accessible();
    let _to = to.accessible();
    let mut done = 0;
    while done < len {
        let end = len.min(done.saturating_add(PIECE));
        copy_piece(from, to, done, end - done);
        done = end;
    }
}

// Copies one piece of the bytes.
fn copy_piece<P: Pages>(
    from: &MemoryImageSlot<P>,
    to: &mut MemoryImageSlot<P>,
    at: usize,
    len: usize,
)
    requires from { IsReadable (at + len) from.now }
    requires to { IsReadable (at + len) to.old }
    requires short { len ≤ 4096 }
    ensures { IsCopied at len from.now to.old to.new }
{
    let mut buffer = [0; PIECE];
    let piece = &mut buffer[..len];
    from.read(at, piece);
    to.write(at, piece);
}
