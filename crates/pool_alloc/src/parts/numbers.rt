//! The numbers of one part.
ghost use Rattle.std.specs.Prelude.{◌≡◌, ◌<◌, if◌then◌else◌, length};
ghost use Rattle.pool_index.specs.Shard.{resident_bytes};
ghost use Rattle.pool_slots.specs.SlotQueues.{same_kind};
ghost use Rattle.pool_slots.specs.declared.part.PoolPart.{PoolPart};
ghost use Rattle.pool_alloc.specs.Closing.{has_free};
ghost use Rattle.pool_alloc.specs.PoolTotals.{warm_in, resident_in, part_calls};

use pool_index::{Shard, SlotKind};
use pool_pages::{PageCalls, Pages};
use pool_slots::{GcHeap, PoolPart};

/// How many of a part's slots are warm, if they are of this kind.
pub fn warm_in<P: Pages, H: GcHeap>(kind: SlotKind, part: &PoolPart<P, H>) -> u32
    ensures { result ≡ warm_in kind part.now }
{
    match part {
        PoolPart::Shard(shard) => warm_slots(kind, shard),
        _ => 0,
    }
}

fn warm_slots(kind: SlotKind, shard: &Shard) -> u32
    ensures { result ≡ (if same_kind kind shard.now.kind then length shard.now.warm else 0) }
{
    if kind == shard.kind() {
        shard.unused_warm_slots()
    } else {
        0
    }
}

/// How many bytes a part's warm slots keep resident, if they are of this kind.
pub fn resident_in<P: Pages, H: GcHeap>(kind: SlotKind, part: &PoolPart<P, H>) -> usize
    ensures { result ≡ resident_in kind part.now }
{
    match part {
        PoolPart::Shard(shard) => bytes_resident(kind, shard),
        _ => 0,
    }
}

fn bytes_resident(kind: SlotKind, shard: &Shard) -> usize
    ensures { result ≡ (if same_kind kind shard.now.kind then resident_bytes shard.now else 0) }
{
    if kind == shard.kind() {
        shard.unused_bytes_resident()
    } else {
        0
    }
}

// Whether none of the part's slots is used.
pub(crate) fn has_free<P: Pages, H: GcHeap>(part: &PoolPart<P, H>) -> bool
    ensures { result ≡ has_free part.now }
{
    match part {
        PoolPart::Shard(shard) => shard.is_empty(),
        _ => true,
    }
}

// The calls made so far on the regions that lie in a part.
pub(crate) fn part_calls<P: Pages, H: GcHeap>(part: &PoolPart<P, H>) -> PageCalls
    ensures { result ≡ part_calls part.now }
{
    match part {
        PoolPart::Memory(cell) => cell.page_calls(),
        PoolPart::Table(cell) => cell.page_calls(),
        PoolPart::Stack(cell) => cell.page_calls(),
        PoolPart::Queue(queue) => queue.page_calls(),
        _ => PageCalls::none(),
    }
}
