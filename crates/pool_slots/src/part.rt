use crate::decommit_queue::DecommitQueue;
use crate::heap_list::HeapList;
use crate::heap_maker::GcHeap;
use crate::region_cell::RegionCell;
use pool_index::Shard;
use pool_pages::Pages;

/// One part of a pool: what lies behind one lock where parties share the pool. What a call makes of a part is said where
/// the call is; here it says what the part is.
#[derive(Drop)]
pub enum PoolPart<P: Pages, H: GcHeap> {
    /// A shard of one allocator, whose slots are picked and freed.
    Shard(Shard),
    /// The cell of a memory's slot.
    Memory(RegionCell<P>),
    /// The cell of a table's slot.
    Table(RegionCell<P>),
    /// The cell of a stack's slot.
    Stack(RegionCell<P>),
    /// A queue that parties share.
    Queue(DecommitQueue<P>),
    /// All heaps, at most once in a pool.
    Heaps(HeapList<H>),
}
