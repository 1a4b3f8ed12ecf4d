//! What pools are made of: shards, and the queue of slots that come back.
ghost use Rattle.std.specs.Prelude.{◌≡◌, [], is_some};
ghost use Rattle.pool_slots.specs.SlotQueues.{first_of_kind, others_of_kind};
ghost use Rattle.pool_slots.specs.Flushes.{without_kind};

use pool_index::{Shard, ShardId, ShardLayout, SimpleIndexAllocator, SlotId, SlotKind, Taken};
use pool_pages::{MadeRegion, Pages};
use pool_slots::{DecommitQueue, QueueKind, SlotItems, SlotReturn};
use pool_types::{HostAlignedByteCount, PageSize};
use std::test::*;

#[test]
fn slots_lie_in_shards(rt: HostRuntime) -> Result<(), Fail> {
    let alloc = rt.alloc();
    let layout = ShardLayout::new(alloc, 130, 10, 16)?;
    let mut shards = Vec::new(alloc);
    for k in 0..15 {
        shards.push((if k < 14 { 9 } else { 4 }, u32::from(k < 10)))?;
    }
    assert_eq!(rt; layout.slots_per_shard, 9);
    assert_eq!(rt; layout.shards.as_slice(), shards.as_slice());
    let empty = ShardLayout::new(alloc, 0, 3, 4)?;
    assert_eq!(rt; empty.slots_per_shard, 1);
    assert_eq!(rt; empty.shards.as_slice(), [(0, 3)].as_slice());

    let mut shard = Shard::new(alloc, SlotKind::Table, 1, 3, 2, 0)?;
    assert_eq!(rt; (shard.len(), shard.number(SlotId(1))), (2, 4));
    let mut taken = Taken::new(alloc, shard.unused_warm_slots() as usize)?;
    shard.take_warm(&mut taken);
    assert_eq!(rt; (taken.room(), taken.as_slice().len()), (0, 0));

    let (allocator, mut seat) = SimpleIndexAllocator::new(alloc, 1, 1)?;
    let first = allocator.alloc(&rt, &mut seat, ShardId(7)).ok();
    let second = allocator.alloc(&rt, &mut seat, ShardId(0)).ok();
    assert_eq!(rt; (first, second), (Some(SlotId(0)), None));
    assert!(rt; !allocator.is_empty(&rt, &mut seat));
    Ok(())
}

// How many slots of each kind came back.
#[derive(Drop)]
struct Returned {
    memories: u32,
    tables: u32,
    stacks: u32,
}

// Takes the first slot of a kind out of a queue, and answers whether there was one.
fn take_out<P: Pages>(queue: &mut DecommitQueue<P>, kind: SlotKind) -> bool
    requires { queue.old.ranges ≡ [] }
    ensures value { result ≡ is_some (first_of_kind kind queue.old.slots) }
    ensures others { queue.new ≡ record queue.old { slots = others_of_kind kind queue.old.slots } }
{
    queue.pop(kind).is_some()
}

// Takes all slots of a kind out of a queue, and answers how many.
fn count_out<P: Pages>(queue: &mut DecommitQueue<P>, kind: SlotKind) -> u32
    requires { queue.old.ranges ≡ [] }
    ensures { queue.new ≡ record queue.old { slots = without_kind kind queue.old.slots } }
{
    let mut count = 0u32;
    while take_out(queue, kind) {
        count = count.wrapping_add(1);
    }
    count
}

impl<P: Pages> SlotReturn<P> for Returned {
    ghost accepts = { λ kind items r. Unit {0} };

    ghost returns = { λ kind items old new. Unit {0} };

    fn memories(&mut self, queue: &mut DecommitQueue<P>) {
        self.memories = count_out(queue, SlotKind::Memory);
    }

    fn tables(&mut self, queue: &mut DecommitQueue<P>) {
        self.tables = count_out(queue, SlotKind::Table);
    }

    fn stacks(&mut self, queue: &mut DecommitQueue<P>) {
        self.stacks = count_out(queue, SlotKind::Stack);
    }
}

#[test]
fn a_queue_gives_its_slots_back(rt: HostRuntime) -> Result<(), Fail> {
    let alloc = rt.alloc();
    let len = HostAlignedByteCount::new(PageSize::new(16)?, 32)?;
    let items = SlotItems::<MadeRegion>::new(alloc, 2)?;
    assert!(rt; items.is_empty());
    let mut queue = DecommitQueue::<MadeRegion>::new(alloc, 2, 2)?;
    queue.push_raw(QueueKind::Stack, SlotId(5), len, len);
    assert_eq!(rt; (queue.raw_len(), queue.is_empty()), (1, true));
    let mut returned = Returned {
        memories: 0,
        tables: 0,
        stacks: 0,
    };
    let mut spare = DecommitQueue::<MadeRegion>::new(alloc, 2, 2)?;
    assert!(rt; !spare.flush(&mut returned));
    Ok(())
}
