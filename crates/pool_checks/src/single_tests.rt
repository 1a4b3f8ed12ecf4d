//! A memory and a table by themselves, in a pool with one slot of each: what was written there is gone when they come again.
use pool_alloc::Element;
use pool_callers::PoolingInstanceAllocator;
use pool_index::ShardId;
use pool_limits::Unlimited;
use pool_pages::MemoryPages;
use pool_slots::PlainHeap;
use pool_table::ListedStore;
use pool_types::{
    CompiledModuleId, DefinedMemoryIndex, IndexType, Limits, MemoryType, Offered, PageSize,
    PlainList, PoolingAllocationConfig, TableElementType, TableType, Tunables,
};
use pool_uses::{
    fill_a_table, look_at_a_table, module_call, module_with, read_a_memory, read_one_of,
    write_a_memory,
};
use std::test::*;

const HOME: ShardId = ShardId(0);

const ONE: Limits = Limits { min: 1, max: None };

#[test]
fn a_memory_comes_alone(rt: HostRuntime) -> Result<(), Fail> {
    let alloc = rt.alloc();
    let page = PageSize::new(4096)?;
    let mut maker = MemoryPages::new(page);
    let mut config = PoolingAllocationConfig::default();
    config.limits.total_memories = 1;
    let (allocator, mut seat) = PoolingInstanceAllocator::<_, _, PlainHeap>::new(
        alloc,
        &config,
        &Tunables::default(),
        page,
        1,
        &Offered::default(),
        &mut maker,
    )?;
    let memory = MemoryType {
        idx_type: IndexType::I32,
        limits: ONE,
        shared: false,
        page_size_log2: 16,
    };
    let limiter = &mut Unlimited;
    let eight = b"8 bytes.";
    let written = write_a_memory(
        &rt, alloc, &allocator, HOME, &mut seat, memory, limiter, 65_528, eight,
    );
    assert_eq!(rt; written, Ok(Ok(())));
    let mut bytes = *b"as it was";
    let read = read_a_memory(
        &rt, alloc, &allocator, HOME, &mut seat, memory, limiter, 65_527, &mut bytes,
    );
    assert_eq!(rt; read, Ok(Ok(())));
    assert_eq!(rt; bytes, [0; 9]);
    let _parts = allocator.close(alloc, seat);
    Ok(())
}

#[test]
fn a_memory_of_a_module_comes_alone(rt: HostRuntime) -> Result<(), Fail> {
    let alloc = rt.alloc();
    let page = PageSize::new(4096)?;
    let mut maker = MemoryPages::new(page);
    let mut config = PoolingAllocationConfig::default();
    config.limits.total_memories = 1;
    let info = module_with(alloc, b"init")?;
    let call = module_call(alloc, &mut maker, page, CompiledModuleId(0), info)?;
    let (allocator, mut seat) = PoolingInstanceAllocator::<_, _, PlainHeap>::new(
        alloc,
        &config,
        &Tunables::default(),
        page,
        1,
        &Offered::default(),
        &mut maker,
    )?;
    let mut bytes = *b"as it was";
    let limiter = &mut Unlimited;
    let index = DefinedMemoryIndex(0);
    let read = read_one_of(
        &rt, alloc, &allocator, HOME, &mut seat, &call, index, limiter, 0, &mut bytes,
    );
    assert_eq!(rt; read, Ok(Ok(())));
    assert_eq!(rt; &bytes, b"init\0\0\0\0\0");
    let _parts = allocator.close(alloc, seat);
    Ok(())
}

#[test]
fn a_table_comes_alone(rt: HostRuntime) -> Result<(), Fail> {
    let alloc = rt.alloc();
    let page = PageSize::new(4096)?;
    let mut maker = MemoryPages::new(page);
    let mut config = PoolingAllocationConfig::default();
    config.limits.total_tables = 1;
    let (allocator, mut seat) = PoolingInstanceAllocator::<_, _, PlainHeap>::new(
        alloc,
        &config,
        &Tunables::default(),
        page,
        1,
        &Offered::default(),
        &mut maker,
    )?;
    let table = TableType {
        idx_type: IndexType::I32,
        limits: ONE,
        element: TableElementType::GcRef,
    };
    let limiter = &mut Unlimited;
    let store = &mut ListedStore::new(PlainList::new(alloc));
    let some = Element::Gc(Some(7));
    let filled = fill_a_table(
        &rt, alloc, &allocator, HOME, &mut seat, table, limiter, store, some, 1,
    );
    assert_eq!(rt; filled, Ok(Ok(())));
    let element = look_at_a_table(&rt, alloc, &allocator, HOME, &mut seat, table, limiter, 0);
    assert_eq!(rt; element, Ok(Ok(Element::Gc(None))));
    let _parts = allocator.close(alloc, seat);
    Ok(())
}
