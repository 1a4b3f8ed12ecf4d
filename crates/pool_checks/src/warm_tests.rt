//! How many slots are warm, as one caller sees it.
use pool_pages::{MadeRegion, MemoryPages};
use pool_slots::PlainHeap;
use pool_types::{CompiledModuleId, PageSize, PoolingAllocationConfig};
use pool_uses::{make_and_count, module_call, module_with, once_more};
use std::test::*;

// With one caller the number is exact. A pool has two slots for memories, each in a shard of its own: both are warm after two instances at
// once, and one of them while a third one is live.
#[test]
fn one_caller_counts_warm_slots(rt: HostRuntime) -> Result<(), Fail> {
    let alloc = rt.alloc();
    let page = PageSize::new(4096)?;
    let mut config = PoolingAllocationConfig::default();
    config.limits.total_memories = 2;
    let mut maker = MemoryPages::new(page);
    let info = module_with(alloc, b"")?;
    let first = module_call(alloc, &mut maker, page, CompiledModuleId(0), info)?;
    let second = once_more(&first)?;
    let third = once_more(&first)?;
    let (none, both, two, one, again) = make_and_count::<
        MadeRegion,
        PlainHeap,
        MemoryPages,
        HostRuntime,
    >(
        &rt, alloc, &config, page, 2, &mut maker, first, second, third,
    )?;
    assert_eq!(rt; both, Ok(()));
    assert_eq!(rt; one, Ok(1));
    assert_eq!(rt; (none, two, again), (0, 2, 2));
    Ok(())
}
