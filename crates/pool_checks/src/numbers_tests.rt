//! Numbers that were worked out by hand: byte counts at their edges and as they are printed, where memories lie, and how
//! large tables are.
use pool_slots::{SlabConstraints, calculate, data_size};
use pool_types::{
    BadConfig, ByteCountOutOfBounds, HostAlignedByteCount, PageSize, TableElementType, Unsupported,
};
use std::test::Fail;

#[test]
fn numbers_at_their_edges(rt: HostRuntime) -> Result<(), Fail> {
    let page = PageSize::new(4096)?;
    let half = HostAlignedByteCount::new(page, 1 << 63)?;
    assert_eq!(rt; half.checked_add(half), Err(ByteCountOutOfBounds::Add));
    assert_eq!(rt; half.checked_mul(2), Err(ByteCountOutOfBounds::Mul));
    let below = HostAlignedByteCount::new(page, (1 << 63) - 4096)?;
    let twice = HostAlignedByteCount::new(page, 18446744073709543424)?;
    assert_eq!(rt; below.checked_mul(2), Ok(twice));
    let last = HostAlignedByteCount::new(page, 18446744073709547520)?;
    let past = Err(ByteCountOutOfBounds::RoundUp);
    for (bytes, rounded) in [(18446744073709547519, Ok(last)), (usize::MAX, past)] {
        assert_eq!(rt; HostAlignedByteCount::new_rounded_up(page, bytes), rounded);
    }
    let count = HostAlignedByteCount::new(page, 65536)?;
    let forms = format!(in rt.alloc(); "{count} {count:x} {count:#x}")?;
    assert_eq!(rt; forms.as_str(), "0x10000 10000 0x10000");
    let text = BadConfig::Regions { bytes: 4294967296 }.text(rt.alloc())?;
    assert_eq!(rt;
        text.as_str(),
        "regions of 4294967296 bytes exceed 4294967295"
    );
    let text = Unsupported::ImageOffset { offset: 8 }.text(rt.alloc(), None)?;
    assert_eq!(rt;
        text.as_str(),
        "image offset 8 is not a multiple of the page"
    );

    // a share of the faulting region that is rounded down would give a distance below it
    let page = PageSize::new(16)?;
    let one = page.host_page_size();
    let layout = calculate(&SlabConstraints {
        expected_slot_bytes: HostAlignedByteCount::new(page, 272)?,
        max_memory_bytes: one,
        num_slots: 17,
        num_pkeys_available: 20,
        guard_bytes: one,
        guard_before_slots: false,
    })?;
    assert_eq!(rt; (layout.num_slots, layout.num_stripes), (17, 17));
    assert_eq!(rt; layout.slot_bytes.byte_count(), 32);
    assert_eq!(rt; layout.bytes_to_next_stripe_slot().byte_count(), 544);
    assert_eq!(rt; layout.post_slab_guard_bytes.byte_count(), 256);
    assert_eq!(rt; layout.total_slab_bytes().byte_count(), 800);
    assert_eq!(rt; data_size(511, 4096, TableElementType::Cont), 4096);
    assert_eq!(rt; data_size(511, 4096, TableElementType::Func), 4088);
    Ok(())
}
