//! Calls of the index allocator on many slots, and on all shards.
ghost use Rattle.std.specs.Prelude.{◌≡◌, ◌==◌, ℕ, if◌then◌else◌, ◌+◌, ◌^◌, ◌<◌, ◌≤◌, ◌&&◌, All, IfOk, OnOk, OnErr, [], sum_by, flat_map, length};
ghost use Rattle.pool_hall.specs.Seat.{view};
ghost use Rattle.pool_hall.specs.declared.unit_name.UnitName.{UnitName};
ghost use Rattle.pool_hall.specs.Unit.{times};
ghost use Rattle.pool_hall.specs.Tally.{counted, number};
ghost use Rattle.pool_index.specs.Part.{warm_takes, bytes_kept};
ghost use Rattle.pool_index.specs.Shard.{resident_bytes, after_take_warm};
ghost use Rattle.pool_index.specs.Freed.{IsSum, HasAll, all_unused, taken_outside, units_of_slots};
ghost use Rattle.pool_index.specs.Round.{KeepsRest, KeepsUnits, Gains, Gives, KeepsCounts, OnlyGrows, NoColdPick, AllMissed};
ghost use Rattle.pool_index.specs.Allocator.{slot_count, places_of, place_in, slots_at, bytes_into, FoundInTurn, FreedInShard, FreedInTurn, AddsBytes, CountsTaking, IsIndexSeat};

use crate::allocator::{IndexSeat, ModuleAffinityIndexAllocator};
use crate::counting::ShardCounts;
use crate::free_call::has_between;
use crate::ids::SlotId;
use crate::layout::numbers_at;
use crate::shard_calls::{count_in, free_many_in, take_warm_in};
use crate::taken::Taken;
use std::alloc::{AllocError, Global};
use std::sync::Wait;

// What two lists of shards tell together.
fn added(sum: ShardCounts, found: ShardCounts) -> ShardCounts
    requires warm { sum.warm + found.warm < 2 ^ 32 }
    requires bytes { sum.bytes + found.bytes < 2 ^ 64 }
    ensures warm { result.warm ≡ sum.warm + found.warm }
    ensures bytes { result.bytes ≡ sum.bytes + found.bytes }
    ensures none { result.is_empty ≡ (sum.is_empty && found.is_empty) }
{
    ShardCounts {
        warm: sum.warm + found.warm,
        bytes: sum.bytes + found.bytes,
        is_empty: sum.is_empty && found.is_empty,
    }
}

impl ModuleAffinityIndexAllocator {
    // Gives those of the slots back that belong to the shard at a place, in one hold of it.
    fn free_there<R: Wait>(
        &self,
        rt: &R,
        seat: &mut IndexSeat,
        place: u32,
        items: &[(SlotId, usize)],
    )
        requires seat { IsIndexSeat self.now seat.old }
        requires place { place < self.now.shards }
        requires units { (u : UnitName) → place_in self.now u.slot ≡ place → times u (units_of_slots items.now) ≤ times u (view seat.old).units }
        requires bytes { All (λ p. p.1 ≤ 2 ^ 32) items.now }
        ensures seat { IsIndexSeat self.now seat.new }
        ensures units { (u : UnitName) → times u (view seat.new).units + (if place == place_in self.now u.slot then times u (units_of_slots items.now) else 0) ≡ times u (view seat.old).units }
        ensures freed { FreedInShard self.now place (slots_at self.now place items.now) (view seat.old) (view seat.new) }
        ensures counts { (p i : ℕ) → number (counted p i) (view seat.new) ≡ number (counted p i) (view seat.old) + (if p == place then (if i == bytes_kept then bytes_into self.now place items.now else 0) else 0) }
        ensures grows { OnlyGrows (view seat.old) (view seat.new) }
        ensures rest { KeepsRest (view seat.old) (view seat.new) }
    {
        let (first, end) = numbers_at(self.capacity, self.slots_per_shard, self.shards, place);
        if has_between(first, end, items) {
            let at = self.at(place);
            free_many_in(rt, &self.hall, seat, at, items, first, end);
        }
    }

    /// Gives slots back, each with the bytes that it keeps resident. Each shard that has some of them is held once. Takes
    /// no memory.
    pub fn free_many<R: Wait>(&self, rt: &R, seat: &mut IndexSeat, items: &[(SlotId, usize)])
        requires seat { IsIndexSeat self.now seat.old }
        // The slots differ, and the seat has the pick unit of each: it has each unit as often as the list.
        requires units { HasAll (units_of_slots items.now) (view seat.old) }
        requires bytes { All (λ p. p.1 ≤ 2 ^ 32) items.now }
        ensures seat { IsIndexSeat self.now seat.new }
        ensures units { Gives (units_of_slots items.now) (view seat.old) (view seat.new) }
        ensures freed { FreedInTurn self.now (places_of self.now).count items.now (view seat.old) (view seat.new) }
        ensures counts { AddsBytes self.now items.now (view seat.old) (view seat.new) }
        ensures grows { OnlyGrows (view seat.old) (view seat.new) }
        ensures rest { KeepsRest (view seat.old) (view seat.new) }
    {
        for place in 0..self.shards {
            self.free_there(rt, seat, place, items);
        }
    }

    // What the shards tell together, each as it was when it was asked.
    fn counts<R: Wait>(&self, rt: &R, seat: &mut IndexSeat) -> ShardCounts
        requires seat { IsIndexSeat self.now seat.old }
        ensures seat { IsIndexSeat self.now seat.new }
        ensures counted { FoundInTurn self.now (λ s. s) (λ ss. IsSum ss result) (view seat.old) (view seat.new) }
        ensures units { KeepsUnits (view seat.old) (view seat.new) }
        ensures counts { KeepsCounts (view seat.old) (view seat.new) }
        ensures grows { OnlyGrows (view seat.old) (view seat.new) }
        ensures rest { KeepsRest (view seat.old) (view seat.new) }
    {
        let mut sum = ShardCounts {
            warm: 0,
            bytes: 0,
            is_empty: true,
        };
        for place in 0..self.shards {
            let at = self.at(place);
            let found = count_in(rt, &self.hall, seat, at);
            let total = added(sum, found);
            sum = total;
        }
        sum
    }

    /// Whether no slot is used, in any of the shards when it was asked.
    pub fn is_empty<R: Wait>(&self, rt: &R, seat: &mut IndexSeat) -> bool
        requires seat { IsIndexSeat self.now seat.old }
        ensures seat { IsIndexSeat self.now seat.new }
        ensures counted { FoundInTurn self.now (λ s. s) (λ ss. result ≡ all_unused ss) (view seat.old) (view seat.new) }
        ensures units { KeepsUnits (view seat.old) (view seat.new) }
        ensures counts { KeepsCounts (view seat.old) (view seat.new) }
        ensures grows { OnlyGrows (view seat.old) (view seat.new) }
        ensures rest { KeepsRest (view seat.old) (view seat.new) }
    {
        self.counts(rt, seat).is_empty
    }

    /// The number of warm slots: of each shard as many as it had when it was asked.
    pub fn unused_warm_slots<R: Wait>(&self, rt: &R, seat: &mut IndexSeat) -> u32
        requires seat { IsIndexSeat self.now seat.old }
        ensures seat { IsIndexSeat self.now seat.new }
        ensures counted { FoundInTurn self.now (λ s. s) (λ ss. result ≡ sum_by (λ s. length s.warm) ss) (view seat.old) (view seat.new) }
        ensures units { KeepsUnits (view seat.old) (view seat.new) }
        ensures counts { KeepsCounts (view seat.old) (view seat.new) }
        ensures grows { OnlyGrows (view seat.old) (view seat.new) }
        ensures rest { KeepsRest (view seat.old) (view seat.new) }
    {
        self.counts(rt, seat).warm
    }

    /// The bytes that warm slots keep resident: of each shard as many as its slots kept when it was asked.
    pub fn unused_bytes_resident<R: Wait>(&self, rt: &R, seat: &mut IndexSeat) -> usize
        requires seat { IsIndexSeat self.now seat.old }
        ensures seat { IsIndexSeat self.now seat.new }
        ensures counted { FoundInTurn self.now (λ s. s) (λ ss. result ≡ sum_by resident_bytes ss) (view seat.old) (view seat.new) }
        ensures units { KeepsUnits (view seat.old) (view seat.new) }
        ensures counts { KeepsCounts (view seat.old) (view seat.new) }
        ensures grows { OnlyGrows (view seat.old) (view seat.new) }
        ensures rest { KeepsRest (view seat.old) (view seat.new) }
    {
        self.counts(rt, seat).bytes
    }

    // Takes the warm slots of each shard.
    fn take_all<R: Wait>(&self, rt: &R, seat: &mut IndexSeat, room: Taken) -> Taken
        requires seat { IsIndexSeat self.now seat.old }
        requires none { room.items ≡ [] }
        requires room { room.room ≡ slot_count self.now }
        ensures seat { IsIndexSeat self.now seat.new }
        ensures taken { FoundInTurn self.now after_take_warm (λ ss. result.items ≡ flat_map taken_outside ss) (view seat.old) (view seat.new) }
        ensures bytes { All (λ p. p.1 ≤ 2 ^ 32) result.items }
        ensures units { Gains (units_of_slots result.items) (view seat.old) (view seat.new) }
        ensures counts { CountsTaking self.now self.now.shards result.items (view seat.old) (view seat.new) }
        ensures takes { AllMissed (places_of self.now) warm_takes (view seat.old) (view seat.new) }
        ensures cold { NoColdPick (view seat.old) (view seat.new) }
        ensures grows { OnlyGrows (view seat.old) (view seat.new) }
        ensures rest { KeepsRest (view seat.old) (view seat.new) }
    {
        let mut taken = room;
        for place in 0..self.shards {
            let at = self.at(place);
            taken = take_warm_in(rt, &self.hall, seat, at, taken);
        }
        taken
    }

    /// Takes all warm slots, shard by shard from the first on, each with the bytes that it keeps resident. They keep
    /// their affinities, and their pick units are the seat's until they are freed. The room for them is reserved first:
    /// where there is no memory for it, nothing is taken.
    pub fn take_resident_warm_slots<R: Wait>(
        &self,
        alloc: Global,
        rt: &R,
        seat: &mut IndexSeat,
    ) -> Result<Taken, AllocError>
        requires seat { IsIndexSeat self.now seat.old }
        ensures seat { IsIndexSeat self.now seat.new }
        ensures err { OnErr result (view seat.new ≡ view seat.old) }
        ensures taken { IfOk result (λ t. FoundInTurn self.now after_take_warm (λ ss. t.items ≡ flat_map taken_outside ss) (view seat.old) (view seat.new)) }
        ensures bytes { IfOk result (λ t. All (λ p. p.1 ≤ 2 ^ 32) t.items) }
        ensures units { IfOk result (λ t. Gains (units_of_slots t.items) (view seat.old) (view seat.new)) }
        ensures counts { IfOk result (λ t. CountsTaking self.now (places_of self.now).count t.items (view seat.old) (view seat.new)) }
        // Each shard counts one taking of all its warm slots, and no slot was picked for the first time.
        ensures takes { OnOk result (AllMissed (places_of self.now) warm_takes (view seat.old) (view seat.new)) }
        ensures cold { NoColdPick (view seat.old) (view seat.new) }
        ensures grows { OnlyGrows (view seat.old) (view seat.new) }
        ensures rest { KeepsRest (view seat.old) (view seat.new) }
    {
        let room = Taken::new(alloc, self.capacity as usize)?;
        Ok(self.take_all(rt, seat, room))
    }
}
