//! One round over the shards of a kind that stand among the parts of a hall.
ghost use Rattle.std.specs.Prelude.{◌≡◌, ◌+◌, ◌<◌, ◌≤◌, length, None, true, false};
ghost use Rattle.pool_hall.specs.Seat.{made_with, limits_of, view, IsSeatOf, IsFree};
ghost use Rattle.pool_index.specs.Probe.{is_pick, miss_count};
ghost use Rattle.pool_index.specs.Round.{round_place, found_units, AreShards, ProbedAt, NoneFound, IsRound, KeepsRest, Gains, OnlyGrows, NoColdPick, OneColdPick, AllMissed, AllTopped};

use crate::part::{MaybeShard, OnShard};
use crate::probe::Probe;
use pool_hall::{Hall, HallSeat, SlotKind};
use std::sync::Wait;

/// Where the shards of one kind stand among the parts of a hall: at so many places from the first on.
#[derive(Clone, Copy, Debug)]
pub struct ShardPlaces {
    pub kind: SlotKind,
    pub first: u32,
    pub count: u32,
}

// Probes the shard at one place.
fn probe_at<T: MaybeShard, R: Wait>(
    rt: &R,
    hall: &Hall<T>,
    seat: &mut HallSeat<T>,
    places: ShardPlaces,
    place: u32,
    probe: Probe,
) -> Option<u32>
    requires own { IsSeatOf hall.now seat.old }
    requires free { IsFree seat.old }
    requires shards { AreShards T.meaning T.shard (made_with hall.now) (limits_of hall.now) places }
    requires one { (places.first ≤ place) × (place < places.first + places.count) }
    requires within { place < length (made_with hall.now) }
    ensures own { IsSeatOf hall.now seat.new }
    ensures free { IsFree seat.new }
    ensures probed { ProbedAt T.meaning T.shard (made_with hall.now) (limits_of hall.now) probe place result (view seat.old) (view seat.new) }
{
    let _ = places;
    hall.hold(rt, seat, place, &mut OnShard { call: probe })
}

fn place_after(places: ShardPlaces, home: u32, i: u32) -> u32
    requires home { home < places.count }
    requires i { i < places.count }
    requires small { places.first + places.count ≤ 4294967295 }
    ensures value { result ≡ round_place places home i }
    ensures one { (places.first ≤ result) × (result < places.first + places.count) }
{
    let left = places.count - home;
    let at = if i < left { home + i } else { i - left };
    places.first + at
}

// Probes the shards one after the other until one has a slot.
fn probe_in_turn<T: MaybeShard, R: Wait>(
    rt: &R,
    hall: &Hall<T>,
    seat: &mut HallSeat<T>,
    places: ShardPlaces,
    home: u32,
    probe: Probe,
) -> Option<u32>
    requires own { IsSeatOf hall.now seat.old }
    requires free { IsFree seat.old }
    requires shards { AreShards T.meaning T.shard (made_with hall.now) (limits_of hall.now) places }
    requires home { home < places.count }
    requires within { places.first + places.count ≤ length (made_with hall.now) }
    requires small { places.first + places.count ≤ 4294967295 }
    ensures own { IsSeatOf hall.now seat.new }
    ensures free { IsFree seat.new }
    ensures round { IsRound T.meaning T.shard (made_with hall.now) (limits_of hall.now) probe (round_place places home) places.count result (view seat.old) (view seat.new) }
{
    for i in 0..places.count {
        let place = place_after(places, home, i);
        let found = probe_at(rt, hall, seat, places, place, probe);
        if found.is_some() {
            return found;
        }
    }
    None
}

/// Probes the shards one after the other, from the one that is so many places behind the first on and round the end,
/// until one has a slot, and answers the slot's number. Its pick unit is the seat's then. Where it answers none, each
/// shard was probed once.
pub fn probe_shards<T: MaybeShard, R: Wait>(
    rt: &R,
    hall: &Hall<T>,
    seat: &mut HallSeat<T>,
    places: ShardPlaces,
    home: u32,
    probe: Probe,
) -> Option<u32>
    requires own { IsSeatOf hall.now seat.old }
    requires free { IsFree seat.old }
    requires shards { AreShards T.meaning T.shard (made_with hall.now) (limits_of hall.now) places }
    requires home { home < places.count }
    requires within { places.first + places.count ≤ length (made_with hall.now) }
    requires small { places.first + places.count ≤ 4294967295 }
    ensures own { IsSeatOf hall.now seat.new }
    ensures free { IsFree seat.new }
    ensures round { IsRound T.meaning T.shard (made_with hall.now) (limits_of hall.now) probe (round_place places home) places.count result (view seat.old) (view seat.new) }
    ensures units { Gains (found_units places.kind result) (view seat.old) (view seat.new) }
    ensures rest { KeepsRest (view seat.old) (view seat.new) }
    ensures cold { OneColdPick (view seat.old) (view seat.new) }
    ensures none_cold { result ≡ None → NoColdPick (view seat.old) (view seat.new) }
    ensures affine_cold { is_pick probe ≡ false → NoColdPick (view seat.old) (view seat.new) }
    ensures grows { OnlyGrows (view seat.old) (view seat.new) }
    ensures missed { result ≡ None → AllMissed places (miss_count probe) (view seat.old) (view seat.new) }
    ensures topped { result ≡ None → is_pick probe ≡ true → AllTopped places (view seat.new) }
{
    probe_in_turn(rt, hall, seat, places, home, probe)
}
