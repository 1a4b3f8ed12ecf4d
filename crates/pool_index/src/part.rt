//! Shards as parts of a hall.
ghost use Rattle.std.specs.Prelude.{◌≡◌, IsSome, Some};

use crate::shard::Shard;
use pool_hall::{Part, PartCall};

impl Part for Shard {
    ghost use Rattle.pool_index.specs.Part.{shard_meaning};

    ghost meaning = { shard_meaning };
}

/// A part of a hall that may be a shard: each part of a hall of shards is one, and a pool's hall has parts of other kinds
/// besides.
pub trait MaybeShard: Part {
    ghost use Rattle.std.specs.Prelude.{◌≡◌, Option, Some, IsSome};
    ghost use Rattle.pool_index.specs.Shard.{ShardState};
    ghost use Rattle.pool_index.specs.ShardPart.{MeansShard};

    /// The shard that the part is.
    ghost shard: { Self → Option ShardState };

    /// Makes a call on the shard.
    fn on_shard<C: PartCall<Shard>>(&mut self, call: &mut C) -> C::Answer
        requires is { IsSome (shard self.old) }
        requires needs { (s : ShardState) → shard self.old ≡ Some s → C.needs call.old s }
        ensures does { (s : ShardState) × (t : ShardState) × (shard self.old ≡ Some s) × (shard self.new ≡ Some t) × C.does call.old s result call.new t };

    ghost means: { MeansShard Self.meaning shard };
}

impl MaybeShard for Shard {
    ghost use Rattle.std.specs.Prelude.{Some};
    ghost use Rattle.pool_index.specs.ShardMeans.{shard_means};

    ghost shard = { Some };

    fn on_shard<C: PartCall<Shard>>(&mut self, call: &mut C) -> C::Answer {
        call.call(self)
    }

    ghost means = { shard_means };
}

/// A call on a shard, as a call on a part that is one.
#[derive(Drop)]
pub struct OnShard<C> {
    pub call: C,
}

impl<T: MaybeShard, C: PartCall<Shard>> PartCall<T> for OnShard<C> {
    ghost use Rattle.std.specs.Prelude.{◌≡◌, Some, IsSome};
    ghost use Rattle.pool_index.specs.Shard.{ShardState};

    type Answer = C::Answer;

    ghost needs = { λ c x. IsSome (T.shard x) × ((s : ShardState) → T.shard x ≡ Some s → C.needs c.call s) };

    ghost does = { λ c x r d y. (s : ShardState) × (t : ShardState) × (T.shard x ≡ Some s) × (T.shard y ≡ Some t) × C.does c.call s r d.call t };

    fn call(&mut self, part: &mut T) -> C::Answer {
        part.on_shard(&mut self.call)
    }
}
