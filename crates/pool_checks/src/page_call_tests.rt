//! How many page calls the commands of one caller make, over regions that count theirs.
use crate::counted_pages::{CallTotals, CountedPages};
use pool_callers::PoolingInstanceAllocator;
use pool_index::ShardId;
use pool_limits::Unlimited;
use pool_pages::MemoryPages;
use pool_slots::PlainHeap;
use pool_types::{CompiledModuleId, Offered, PageSize, PoolingAllocationConfig, Tunables};
use pool_uses::{module_call, module_with, once_more, two_at_once, write_and_drop};
use std::test::*;

const HOME: ShardId = ShardId(0);

// A slot that comes back keeps its image: the module's next instance finds it mapped, and the bytes that were written over are the image's again.
#[test]
fn a_warm_slot_keeps_its_image(rt: HostRuntime) -> Result<(), Fail> {
    let alloc = rt.alloc();
    let page = PageSize::new(4096)?;
    let totals = CallTotals::new();
    let mut maker = CountedPages::new(MemoryPages::new(page), &totals);
    let mut config = PoolingAllocationConfig::default();
    config.limits.total_memories = 1;
    let info = module_with(alloc, b"init")?;
    let call = module_call(alloc, &mut maker, page, CompiledModuleId(0), info)?;
    let again = once_more(&call)?;
    let (allocator, mut seat) = PoolingInstanceAllocator::<_, _, PlainHeap>::new(
        alloc,
        &config,
        &Tunables::default(),
        page,
        1,
        &Offered::default(),
        &mut maker,
    )?;
    let limiter = &mut Unlimited;
    let first = write_and_drop(
        &rt, alloc, &allocator, HOME, &mut seat, call, limiter, 4, b"dirt",
    );
    assert_eq!(rt; first, Ok(Ok(())));
    let second = write_and_drop(
        &rt, alloc, &allocator, HOME, &mut seat, again, limiter, 0, b"",
    );
    assert_eq!(rt; second, Ok(Ok(())));
    let calls = totals.calls();
    assert_eq!(rt;
        (calls.map_image, calls.remap_zeros, calls.erase),
        (1, 0, 0)
    );
    let _parts = allocator.close(alloc, seat);
    Ok(())
}

// What comes back waits in a queue of two slots, and is decommitted when a request finds no other slot.
#[test]
fn a_queue_is_flushed_for_a_request(rt: HostRuntime) -> Result<(), Fail> {
    let alloc = rt.alloc();
    let page = PageSize::new(4096)?;
    let totals = CallTotals::new();
    let mut maker = CountedPages::new(MemoryPages::new(page), &totals);
    let mut config = PoolingAllocationConfig::default();
    config.limits.total_memories = 2;
    config.decommit_batch_size = 3;
    let info = module_with(alloc, b"")?;
    let first = module_call(alloc, &mut maker, page, CompiledModuleId(0), info)?;
    let second = once_more(&first)?;
    let third = once_more(&first)?;
    let (allocator, mut seat) = PoolingInstanceAllocator::<_, _, PlainHeap>::new(
        alloc,
        &config,
        &Tunables::default(),
        page,
        1,
        &Offered::default(),
        &mut maker,
    )?;
    let limiter = &mut Unlimited;
    let both = two_at_once(
        &rt, alloc, &allocator, HOME, &mut seat, first, second, limiter,
    );
    assert_eq!(rt; both, Ok(()));
    let calls = totals.calls();
    assert_eq!(rt; (calls.erase, calls.decommit), (0, 0));
    let one = write_and_drop(
        &rt, alloc, &allocator, HOME, &mut seat, third, limiter, 0, b"",
    );
    assert_eq!(rt; one, Ok(Ok(())));
    let calls = totals.calls();
    assert_eq!(rt; (calls.erase, calls.decommit), (0, 2));
    let _parts = allocator.close(alloc, seat);
    Ok(())
}
