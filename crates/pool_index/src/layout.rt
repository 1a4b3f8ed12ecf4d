ghost use Rattle.std.specs.Prelude.{◌≡◌, ◌==◌, ℕ, ◌*◌, ◌<◌, IfOk, sum_by};
ghost use Rattle.pool_index.specs.Freed.{is_among};
ghost use Rattle.pool_index.specs.MadeShards.{place_of_slot};
ghost use Rattle.pool_index.specs.Layout.{layout, slots_per_shard, shard_at, shard_count};

use pool_types::PlainList;
use std::alloc::{AllocError, Global};

/// How the slots of an index allocator are split among shards (Wasmtime's `index_allocator.rs`).
#[derive(Debug, Drop)]
pub struct ShardLayout {
    /// The number of slots of each shard but the last, which has the rest.
    pub slots_per_shard: u32,
    /// Of each shard its number of slots, and how many of them may be warm before a pick prefers a warm slot.
    pub shards: PlainList<(u32, u32)>,
}

impl ShardLayout {
    /// Splits `capacity` slots and `warm` warm slots among about as many shards as requested; few slots are one shard.
    pub fn new(
        alloc: Global,
        capacity: u32,
        warm: u32,
        requested: u32,
    ) -> Result<ShardLayout, AllocError>
        ensures ok { IfOk result (λ l. l ≡ layout capacity warm requested) }
        // No slot and no warm slot is lost or counted twice.
        ensures capacities { IfOk result (λ l. sum_by (λ p. p.0) l.shards ≡ capacity) }
        ensures budgets { IfOk result (λ l. sum_by (λ p. p.1) l.shards ≡ warm) }
    {
        let slots_per_shard = slots_per_shard_of(capacity, requested);
        let count = capacity.div_ceil(slots_per_shard).max(1);
        let mut shards = Vec::with_capacity(alloc, count as usize)?;
        for k in 0..count {
            shards.push(shard_of(capacity, warm, slots_per_shard, count, k))?;
        }
        Ok(ShardLayout {
            slots_per_shard,
            shards: PlainList::from_vec(shards),
        })
    }
}

pub(crate) fn slots_per_shard_of(capacity: u32, requested: u32) -> u32
    ensures { result ≡ slots_per_shard capacity requested }
{
    let slots = if capacity < 128 {
        capacity
    } else {
        capacity.div_ceil(requested.max(1))
    };
    slots.max(1)
}

pub(crate) fn shard_of(
    capacity: u32,
    warm: u32,
    slots_per_shard: u32,
    count: u32,
    k: u32,
) -> (u32, u32)
    requires slots { 0 < slots_per_shard }
    requires count { count ≡ shard_count capacity slots_per_shard }
    requires inside { k < count }
    ensures { result ≡ shard_at capacity warm slots_per_shard k }
{
    let slots = slots_per_shard.min(capacity - k * slots_per_shard);
    let extra = if k < warm % count { 1 } else { 0 };
    (slots, warm / count + extra)
}

/// The number of the first slot that counts to the shard at a place, and the end of them. Those past the last slot count
/// to the last shard, which has no end.
pub(crate) fn numbers_at(
    capacity: u32,
    slots_per_shard: u32,
    count: u32,
    place: u32,
) -> (u32, Option<u32>)
    requires slots { 0 < slots_per_shard }
    requires count { count ≡ shard_count capacity slots_per_shard }
    requires inside { place < count }
    ensures first { result.0 ≡ place * slots_per_shard }
    ensures among { (n : ℕ) → is_among result.0 result.1 n ≡ (place == place_of_slot slots_per_shard count n) }
{
    let first = place * slots_per_shard;
    if place + 1 < count {
        (first, Some(first + slots_per_shard))
    } else {
        (first, None)
    }
}
