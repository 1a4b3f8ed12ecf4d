use pool_alloc::PoolCore;
use pool_pages::{MemoryPages, PageCalls, PageMaker};
use pool_slots::PlainHeap;
use pool_types::{Offered, PageSize, PoolingAllocationConfig, Tunables};
use std::test::Fail;

// A pool as it is made has nothing to flush: its regions had their guard pages hidden, and no other call.
#[test]
fn a_pool_is_closed(rt: HostRuntime) -> Result<(), Fail> {
    let mut pages = MemoryPages::new(PageSize::new(4096)?);
    let mut config = PoolingAllocationConfig::default();
    config.limits.total_memories = 2;
    config.limits.total_tables = 1;
    config.limits.total_stacks = 3;
    config.stack_size = 128;
    let tunables = Tunables::default();
    let offered = Offered::default();
    let size = pages.page();
    let core: PoolCore<_, PlainHeap> = PoolCore::new(
        rt.alloc(),
        &config,
        &tunables,
        size,
        2,
        &offered,
        &mut pages,
    )?;
    core.made_law();
    let parts = core.close(rt.alloc());
    assert!(rt; parts.is_empty());
    assert_eq!(rt;
        parts.page_calls(),
        PageCalls {
            hide: 3,
            ..PageCalls::none()
        }
    );
    Ok(())
}
