use pool_memory::{Memory, RuntimeLinearMemory};
use pool_pages::Pages;
use pool_slots::{
    GcHeap, GcHeapAllocationIndex, MemoryAllocationIndex, Stack, TableAllocationIndex,
};
use pool_table::Table;
use pool_types::PlainList;

/// A memory that was granted on demand. It is in no slot, so its index is the default.
#[derive(Drop)]
pub struct OnDemandMemory<M, L: RuntimeLinearMemory<M>> {
    pub index: MemoryAllocationIndex,
    pub memory: Memory<M, L>,
}

/// A table that was granted on demand.
#[derive(Drop)]
pub struct OnDemandTable<P: Pages> {
    pub index: TableAllocationIndex,
    pub table: Table<P>,
}

/// A stack that was granted on demand. Its index is its own, and the greatest `u32`.
#[derive(Drop)]
pub struct OnDemandStack<P: Pages> {
    pub stack: Stack<P>,
}

/// A heap that was granted on demand, and the index of its memory.
#[derive(Drop)]
pub struct OnDemandHeap<H: GcHeap> {
    pub index: GcHeapAllocationIndex,
    pub memory: MemoryAllocationIndex,
    pub heap: H,
}

/// An instance that was granted on demand: its memories and its tables, in order.
#[derive(Drop)]
pub struct OnDemandInstance<M, L: RuntimeLinearMemory<M>, P: Pages> {
    pub memories: PlainList<OnDemandMemory<M, L>>,
    pub tables: PlainList<OnDemandTable<P>>,
}
