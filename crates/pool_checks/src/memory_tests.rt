//! Memories in lists of bytes, and in regions of their own.
use pool_memory::{
    DefaultMemoryCreator, LinearMemory, MallocMemory, MmapMemory, RuntimeLinearMemory,
    RuntimeMemoryCreator,
};
use pool_pages::{MemoryPages, PageMaker};
use pool_types::{IndexType, Limits, MemoryKind, MemoryTunables, MemoryType, PageSize, Tunables};
use std::test::Fail;

#[test]
fn memories_lie_in_lists_or_in_regions(rt: HostRuntime) -> Result<(), Fail> {
    let ty = MemoryType {
        idx_type: IndexType::I32,
        limits: Limits { min: 10, max: None },
        shared: false,
        page_size_log2: 0,
    };
    // what is reserved for growth, and sizes with the units that are stored then
    for (growth, rows) in [
        (0, [(11, 1), (16, 1), (17, 2), (65, 5)]),
        (1_048_576, [(11, 1), (16, 1), (16, 1), (100, 7)]),
    ] {
        let mut tunables = Tunables::default();
        tunables.signals_based_traps = false;
        tunables.memory_init_cow = false;
        tunables.memory_reservation = 0;
        tunables.memory_guard_size = 0;
        tunables.memory_reservation_for_growth = growth;
        let tunables = MemoryTunables::new(&tunables, MemoryKind::LinearMemory);
        let Ok(mut memory) = MallocMemory::new(rt.alloc(), &ty, &tunables, 10) else {
            return Err(Fail::new("the memory was refused"));
        };
        assert_eq!(rt; memory.units(), 1);
        for (size, units) in rows {
            if RuntimeLinearMemory::<()>::byte_size(&memory) > size {
                return Err(Fail::new("the memory is larger"));
            }
            assert_eq!(rt; memory.grow_to(&mut (), size), Ok(()));
            assert_eq!(rt; memory.units(), units);
        }
        if RuntimeLinearMemory::<()>::byte_size(&memory) < 65 {
            return Err(Fail::new("the memory is smaller"));
        }
        let mut bytes = [9; 65];
        RuntimeLinearMemory::<()>::read(&memory, 0, &mut bytes);
        assert_eq!(rt; bytes, [0; 65]);
    }

    // by the default settings a memory lies in a region
    let tunables = MemoryTunables::new(&Tunables::default(), MemoryKind::LinearMemory);
    let mut maker = MemoryPages::new(PageSize::new(4096)?);
    let mapped = MmapMemory::new(rt.alloc(), &mut maker, &ty, &tunables, 10, None)?;
    assert_eq!(rt; RuntimeLinearMemory::<MemoryPages>::byte_size(&mapped), 10);
    let creator = DefaultMemoryCreator;
    match creator.new_memory(rt.alloc(), &mut maker, &ty, &tunables, 10, None)? {
        LinearMemory::Mapped(_) => assert_eq!(rt; maker.next(), 2),
        LinearMemory::Malloc(_) => return Err(Fail::new("the memory lies in a list")),
    }
    Ok(())
}
