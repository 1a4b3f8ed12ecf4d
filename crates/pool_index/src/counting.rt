//! What a shard tells of itself while it is held, and the taking of all its warm slots.
ghost use Rattle.pool_index.specs.Freed.{IsCounted, HasRoomFor, IsTakenFrom};

use crate::shard::Shard;
use crate::taken::Taken;
use pool_hall::PartCall;

/// What one shard tells.
#[derive(Clone, Copy, Debug)]
pub struct ShardCounts {
    pub warm: u32,
    pub bytes: usize,
    pub is_empty: bool,
}

/// Counts what is free in the shard.
#[derive(Drop)]
pub struct CountSlots {}

fn counts_of(shard: &Shard) -> ShardCounts
    ensures { IsCounted shard.now result }
{
    let _slots = shard.len();
    ShardCounts {
        warm: shard.unused_warm_slots(),
        bytes: shard.unused_bytes_resident(),
        is_empty: shard.is_empty(),
    }
}

impl PartCall<Shard> for CountSlots {
    ghost use Rattle.std.specs.Prelude.{◌≡◌};
    ghost use Rattle.pool_index.specs.Freed.{IsCounted};

    type Answer = ShardCounts;

    ghost needs = { λ c s. Unit {0} };

    ghost does = { λ c s r d t. (t ≡ s) × IsCounted s r };

    fn call(&mut self, part: &mut Shard) -> ShardCounts {
        counts_of(part)
    }
}

/// Takes all warm slots of the shard, by the numbers by which they are known outside.
#[derive(Drop)]
pub struct TakeWarm {
    pub taken: Taken,
}

fn take_warm(shard: &mut Shard, taken: &mut Taken)
    requires { HasRoomFor shard.old taken.old }
    ensures { IsTakenFrom shard.old shard.new taken.old taken.new }
{
    shard.take_warm_outside(taken);
}

impl PartCall<Shard> for TakeWarm {
    ghost use Rattle.pool_index.specs.Freed.{HasRoomFor, IsTakenFrom};

    type Answer = ();

    ghost needs = { λ c s. HasRoomFor s c.taken };

    ghost does = { λ c s r d t. IsTakenFrom s t c.taken d.taken };

    fn call(&mut self, part: &mut Shard) {
        take_warm(part, &mut self.taken);
    }
}
