//! Resets of slots by the dirty marks of their pages.
ghost use Rattle.std.specs.Prelude.{◌≡◌, true, IfSome};
ghost use Rattle.pool_images.specs.Slots.{IsReady};

use pool_images::{ByteRange, MemoryImageSlot, Ranges};
use pool_pages::{MemoryPages, PageMaker, Pages, RegionName};
use pool_types::{DecommitBehavior, HostAlignedByteCount, PageSize};
use std::test::*;

// Writes a byte into each second page of a slot of twenty pages of 16 bytes.
fn use_ten_pages<P: Pages>(slot: &mut MemoryImageSlot<P>)
    requires accessible { slot.old.accessible.bytes ≡ 320 }
    requires ready { IfSome slot.old.region.contents (IsReady slot.old) }
    ensures accessible { slot.new.accessible ≡ slot.old.accessible }
    ensures page { slot.new.region.page ≡ slot.old.region.page }
    ensures dirty { slot.new.dirty ≡ true }
    ensures ready { IfSome slot.new.region.contents (IsReady slot.new) }
{
    slot.write(0, &[1]);
    for k in 1..10 {
        slot.write(k * 32, &[1]);
    }
}

// Ten dirty pages lie apart. Eight ranges have room for seven of them, and the last one reaches to the end.
#[test]
fn the_eighth_range_reaches_to_the_end(rt: HostRuntime) -> Result<(), Fail> {
    let page = PageSize::new(16)?;
    let len = HostAlignedByteCount::new(page, 320)?;
    let mut maker = MemoryPages::new(page);
    let behaviour = DecommitBehavior::RestoreOriginalMapping;
    let Ok(region) = maker.make(rt.alloc(), RegionName::Memory(0), behaviour, len, len) else {
        return Err(Fail::new("no region was made"));
    };
    let mut slot = MemoryImageSlot::create(region, page.zero(), len, 320, None);
    use_ten_pages(&mut slot);
    let mut ranges = Ranges::new();
    let kept = slot.clear_and_remain_ready(true, page.zero(), &mut ranges);
    assert_eq!(rt; kept, Ok(0));
    let lone = |k: usize| ByteRange {
        start: k * 32,
        len: 16,
    };
    let last = ByteRange {
        start: 224,
        len: 96,
    };
    let wanted = [
        lone(0),
        lone(1),
        lone(2),
        lone(3),
        lone(4),
        lone(5),
        lone(6),
        last,
    ];
    assert_eq!(rt; ranges.as_slice(), wanted.as_slice());
    Ok(())
}
