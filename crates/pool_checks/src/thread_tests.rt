//! Two callers on two threads.
use pool_callers::PoolingInstanceAllocator;
use pool_pages::MemoryPages;
use pool_slots::PlainHeap;
use pool_types::{Offered, PageSize, PoolingAllocationConfig, Tunables};
use pool_uses::both_hold_each;
use std::test::*;

// Each caller stops when it was in both slots, so this many times are made only where a slot stays with the other caller.
const TIMES: u32 = 1_000_000;

// Two threads ask for two stacks each at a time, of a pool of two, until each of the two slots was held by each of them. Then every slot is
// free, or the allocator couldn't be closed.
#[test]
fn two_threads_hold_each_slot(rt: HostRuntime) -> Result<(), Fail> {
    let alloc = rt.alloc();
    let page = PageSize::new(4096)?;
    let mut config = PoolingAllocationConfig::default();
    config.limits.total_stacks = 2;
    config.stack_size = 8192;
    config.async_stack_zeroing = true;
    let mut maker = MemoryPages::new(page);
    let (allocator, mut seat) = PoolingInstanceAllocator::<_, _, PlainHeap>::new(
        alloc,
        &config,
        &Tunables::default(),
        page,
        2,
        &Offered::default(),
        &mut maker,
    )?;
    let other = allocator.split_seat(alloc, &mut seat, 1000)?;
    let ((mut seat, here), (other, there)) = both_hold_each(
        &rt, alloc, &allocator, seat, other, TIMES,
    );
    allocator.join_seat(&mut seat, other);
    let _parts = allocator.close(alloc, seat);
    assert_eq!(rt; (here, there), ((true, true), (true, true)));
    Ok(())
}
