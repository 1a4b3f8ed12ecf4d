//! Calls on one shard, which stands among the parts of any hall. Each holds the shard once.
ghost use Rattle.std.specs.Prelude.{◌≡◌, ◌+◌, ◌^◌, ◌<◌, ◌≤◌, ◌∷◌, [], Some, All, length};
ghost use Rattle.pool_hall.specs.Seat.{made_with, limits_of, view, IsSeatOf, IsFree};
ghost use Rattle.pool_index.specs.Freed.{IsCounted, slots_among};
ghost use Rattle.pool_index.specs.Holds.{units_at, all_bytes, HasShard, MayGoBack, AddsAt, TookWarm};
ghost use Rattle.pool_index.specs.Laws.{free_all};
ghost use Rattle.pool_index.specs.Round.{HeldShard, KeepsRest, KeepsUnits, KeepsCounts, Gives, OnlyGrows};
ghost use Rattle.pool_index.specs.Shard.{ShardState, after_free};

use crate::counting::{CountSlots, ShardCounts, TakeWarm};
use crate::free_call::{FreeSlot, FreeSlots};
use crate::ids::SlotId;
use crate::part::{MaybeShard, OnShard};
use crate::taken::Taken;
use pool_hall::{Hall, HallSeat, SlotKind};
use std::sync::Wait;

/// Where a shard stands among the parts of a hall, and by which numbers its slots are known outside.
#[derive(Clone, Copy, Debug)]
pub struct ShardAt {
    pub place: u32,
    pub kind: SlotKind,
    /// The number of its first slot.
    pub first: u32,
    /// How much more the number of each next slot is.
    pub step: u32,
}

/// Gives a slot of a shard back, named by its number there: it is warm then, and keeps so many bytes resident. Its pick
/// unit leaves the seat. Takes no memory.
pub fn free_in<T: MaybeShard, R: Wait>(
    rt: &R,
    hall: &Hall<T>,
    seat: &mut HallSeat<T>,
    at: ShardAt,
    slot: SlotId,
    bytes_resident: usize,
)
    requires own { IsSeatOf hall.now seat.old }
    requires free { IsFree seat.old }
    requires within { at.place < length (made_with hall.now) }
    requires shard { HasShard T.meaning T.shard (made_with hall.now) (limits_of hall.now) at }
    requires unit { MayGoBack T.meaning (made_with hall.now) (limits_of hall.now) at.place (units_at at ((slot, bytes_resident) ∷ [])) (view seat.old) }
    requires bytes { bytes_resident ≤ 2 ^ 32 }
    ensures own { IsSeatOf hall.now seat.new }
    ensures free { IsFree seat.new }
    ensures freed { (s : ShardState) × HeldShard T.meaning T.shard (made_with hall.now) (limits_of hall.now) at.place s (after_free slot bytes_resident s) (view seat.old) (view seat.new) }
    ensures units { Gives (units_at at ((slot, bytes_resident) ∷ [])) (view seat.old) (view seat.new) }
    ensures counts { AddsAt at.place bytes_resident (view seat.old) (view seat.new) }
    ensures grows { OnlyGrows (view seat.old) (view seat.new) }
    ensures rest { KeepsRest (view seat.old) (view seat.new) }
{
    let call = FreeSlot {
        slot,
        bytes: bytes_resident,
    };
    hall.hold(rt, seat, at.place, &mut OnShard { call });
}

/// Gives those slots of a list back that are numbered from the first on and below the end, where there is one, each with
/// the bytes that it keeps resident: in one hold of their shard, where each is named by its number behind the first.
/// Their pick units leave the seat. Takes no memory.
pub fn free_many_in<T: MaybeShard, R: Wait>(
    rt: &R,
    hall: &Hall<T>,
    seat: &mut HallSeat<T>,
    at: ShardAt,
    slots: &[(SlotId, usize)],
    first: u32,
    end: Option<u32>,
)
    requires own { IsSeatOf hall.now seat.old }
    requires free { IsFree seat.old }
    requires within { at.place < length (made_with hall.now) }
    requires shard { HasShard T.meaning T.shard (made_with hall.now) (limits_of hall.now) at }
    requires units { MayGoBack T.meaning (made_with hall.now) (limits_of hall.now) at.place (units_at at (slots_among first end slots.now)) (view seat.old) }
    requires bytes { All (λ p. p.1 ≤ 2 ^ 32) (slots_among first end slots.now) }
    ensures own { IsSeatOf hall.now seat.new }
    ensures free { IsFree seat.new }
    ensures freed { (s : ShardState) × HeldShard T.meaning T.shard (made_with hall.now) (limits_of hall.now) at.place s (free_all (slots_among first end slots.now) s) (view seat.old) (view seat.new) }
    ensures units { Gives (units_at at (slots_among first end slots.now)) (view seat.old) (view seat.new) }
    ensures counts { AddsAt at.place (all_bytes (slots_among first end slots.now)) (view seat.old) (view seat.new) }
    ensures grows { OnlyGrows (view seat.old) (view seat.new) }
    ensures rest { KeepsRest (view seat.old) (view seat.new) }
{
    let call = FreeSlots { slots, first, end };
    hall.hold(rt, seat, at.place, &mut OnShard { call });
}

/// Takes all warm slots of a shard behind those that were taken before, by their numbers outside, each with the bytes
/// that it keeps resident. They keep their affinities, and their pick units are the seat's until they are freed. Takes
/// no memory.
pub fn take_warm_in<T: MaybeShard, R: Wait>(
    rt: &R,
    hall: &Hall<T>,
    seat: &mut HallSeat<T>,
    at: ShardAt,
    taken: Taken,
) -> Taken
    requires own { IsSeatOf hall.now seat.old }
    requires free { IsFree seat.old }
    requires within { at.place < length (made_with hall.now) }
    requires shard { HasShard T.meaning T.shard (made_with hall.now) (limits_of hall.now) at }
    // There is room for the slots of whatever shard is there.
    requires room { (x : T) (s : ShardState) → T.meaning.fits (made_with hall.now) (limits_of hall.now) at.place x → T.shard x ≡ Some s → length taken.items + s.capacity ≤ taken.room }
    ensures own { IsSeatOf hall.now seat.new }
    ensures free { IsFree seat.new }
    ensures taken { TookWarm T.meaning T.shard (made_with hall.now) (limits_of hall.now) at taken result (view seat.old) (view seat.new) }
    ensures grows { OnlyGrows (view seat.old) (view seat.new) }
    ensures rest { KeepsRest (view seat.old) (view seat.new) }
{
    let mut call = OnShard {
        call: TakeWarm { taken },
    };
    hall.hold(rt, seat, at.place, &mut call);
    let OnShard {
        call: TakeWarm { taken },
    } = call;
    taken
}

/// What a shard tells of itself, as it was when it was asked.
pub fn count_in<T: MaybeShard, R: Wait>(
    rt: &R,
    hall: &Hall<T>,
    seat: &mut HallSeat<T>,
    at: ShardAt,
) -> ShardCounts
    requires own { IsSeatOf hall.now seat.old }
    requires free { IsFree seat.old }
    requires within { at.place < length (made_with hall.now) }
    requires shard { HasShard T.meaning T.shard (made_with hall.now) (limits_of hall.now) at }
    ensures own { IsSeatOf hall.now seat.new }
    ensures free { IsFree seat.new }
    ensures counted { (s : ShardState) × HeldShard T.meaning T.shard (made_with hall.now) (limits_of hall.now) at.place s s (view seat.old) (view seat.new) × IsCounted s result }
    ensures units { KeepsUnits (view seat.old) (view seat.new) }
    ensures counts { KeepsCounts (view seat.old) (view seat.new) }
    ensures grows { OnlyGrows (view seat.old) (view seat.new) }
    ensures rest { KeepsRest (view seat.old) (view seat.new) }
{
    hall.hold(
        rt,
        seat,
        at.place,
        &mut OnShard {
            call: CountSlots {},
        },
    )
}
