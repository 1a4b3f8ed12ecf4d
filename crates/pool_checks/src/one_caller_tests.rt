//! One caller makes an allocator over regions in memory, uses it, and closes it.
use pool_pages::{MadeRegion, MemoryPages, Pages};
use pool_slots::PlainHeap;
use pool_types::{PageSize, PoolingAllocationConfig};
use pool_uses::run_one_caller;
use std::test::*;

#[test]
fn a_stack_comes_and_goes(rt: HostRuntime) -> Result<(), Fail> {
    let alloc = rt.alloc();
    let page = PageSize::new(4096)?;
    let mut config = PoolingAllocationConfig::default();
    config.limits.total_stacks = 1;
    config.stack_size = 8192;
    config.async_stack_zeroing = true;
    let mut maker = MemoryPages::new(page);
    let (used, _parts) = run_one_caller::<MadeRegion, PlainHeap, MemoryPages, HostRuntime>(
        &rt, alloc, &config, page, &mut maker,
    )?;
    assert_eq!(rt; used, Ok(8192));
    Ok(())
}
