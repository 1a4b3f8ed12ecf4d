//! The index allocator that knows no affinities.
ghost use Rattle.std.specs.Prelude.{◌≡◌, ◌+◌, ◌%◌, ◌^◌, ◌<◌, ◌≤◌, ◌∷◌, [], IfOk, OnErr, All, None, Some, sum_by, length};
ghost use Rattle.std.specs.Result.{result_ok};
ghost use Rattle.pool_hall.specs.declared.unit_name.SlotKind.TheVariants.{Memory};
ghost use Rattle.pool_hall.specs.Rule.{first_view};
ghost use Rattle.pool_hall.specs.Unit.{pick_unit, times};
ghost use Rattle.pool_hall.specs.Seat.{view};
ghost use Rattle.pool_index.specs.Layout.{slots_per_shard};
ghost use Rattle.pool_index.specs.Part.{full_answers, shard_meaning};
ghost use Rattle.pool_index.specs.declared.probe.Probe.TheVariants as probe;
ghost use Rattle.pool_index.specs.Round.{round_place, found_units, IsRound, KeepsRest, KeepsUnits, Gains, Gives, KeepsCounts, OnlyGrows, NoColdPick, OneColdPick, AllMissed, AllTopped};
ghost use Rattle.pool_index.specs.MadeShards.{made_shards};
ghost use Rattle.pool_index.specs.Shard.{resident_bytes};
ghost use Rattle.pool_index.specs.Freed.{HasAll, all_unused, units_of_slots};
ghost use Rattle.pool_index.specs.Allocator.{slot_answered, made_of, limits_in, slot_count, places_of, place_in, local_in, FoundInTurn, FreedInShard, FreedInTurn, AddsBytes, IsIndexSeat};

use crate::allocator::{FullNotes, IndexSeat, ModuleAffinityIndexAllocator};
use crate::ids::{ShardId, SlotId};
use std::alloc::{AllocError, Global};
use std::sync::Wait;

/// Hands out numbers of slots whose last use makes no difference: a warm slot comes before a cold one.
#[derive(Drop)]
pub struct SimpleIndexAllocator(pub ModuleAffinityIndexAllocator);

impl SimpleIndexAllocator {
    /// An allocator of cold slots in about as many shards as requested, and its first seat, which has no unit.
    pub fn new(
        alloc: Global,
        capacity: u32,
        shards: u32,
    ) -> Result<(SimpleIndexAllocator, IndexSeat), AllocError>
        ensures seat { IfOk result (λ r. IsIndexSeat r.0.0 r.1) }
        ensures view { IfOk result (λ r. view r.1 ≡ first_view (made_of r.0.0) []) }
        ensures made { IfOk result (λ r. made_of r.0.0 ≡ made_shards capacity 0 (slots_per_shard capacity shards)) }
        ensures slots { IfOk result (λ r. slot_count r.0.0 ≡ capacity) }
    {
        let (inner, seat) = ModuleAffinityIndexAllocator::new(alloc, capacity, 0, shards)?;
        Ok((SimpleIndexAllocator(inner), seat))
    }

    /// Takes a free slot: the shards are asked one after the other, from the home shard on and round the end. Home shards
    /// are numbered round too. The slot's pick unit is the seat's until the slot is freed. An error says that each shard
    /// was full when it was asked. Takes no memory.
    pub fn alloc<R: Wait>(
        &self,
        rt: &R,
        seat: &mut IndexSeat,
        home: ShardId,
    ) -> Result<SlotId, FullNotes>
        requires seat { IsIndexSeat self.now.0 seat.old }
        ensures seat { IsIndexSeat self.now.0 seat.new }
        ensures round { IsRound shard_meaning Some (made_of self.now.0) (limits_in self.now.0) (probe.Pick None) (round_place (places_of self.now.0) (home.0 % (places_of self.now.0).count)) (places_of self.now.0).count (slot_answered (result_ok result)) (view seat.old) (view seat.new) }
        ensures units { Gains (found_units Memory (slot_answered (result_ok result))) (view seat.old) (view seat.new) }
        ensures rest { KeepsRest (view seat.old) (view seat.new) }
        ensures cold { OneColdPick (view seat.old) (view seat.new) }
        ensures none_cold { OnErr result (NoColdPick (view seat.old) (view seat.new)) }
        ensures grows { OnlyGrows (view seat.old) (view seat.new) }
        ensures full { OnErr result (AllMissed (places_of self.now.0) full_answers (view seat.old) (view seat.new)) }
        ensures topped { OnErr result (AllTopped (places_of self.now.0) (view seat.new)) }
    {
        self.0.alloc(rt, seat, home, None)
    }

    /// Gives a slot back: it is warm then, and keeps so many bytes resident. Its pick unit leaves the seat. Takes no
    /// memory.
    pub fn free<R: Wait>(&self, rt: &R, seat: &mut IndexSeat, slot: SlotId, bytes_resident: usize)
        requires seat { IsIndexSeat self.now.0 seat.old }
        requires unit { 0 < times (pick_unit Memory slot.0) (view seat.old).units }
        requires bytes { bytes_resident ≤ 2 ^ 32 }
        ensures seat { IsIndexSeat self.now.0 seat.new }
        ensures units { Gives (pick_unit Memory slot.0 ∷ []) (view seat.old) (view seat.new) }
        ensures freed { FreedInShard self.now.0 (place_in self.now.0 slot.0) ((record { 0 = local_in self.now.0 slot.0 }, bytes_resident) ∷ []) (view seat.old) (view seat.new) }
        ensures counts { AddsBytes self.now.0 ((slot, bytes_resident) ∷ []) (view seat.old) (view seat.new) }
        ensures grows { OnlyGrows (view seat.old) (view seat.new) }
        ensures rest { KeepsRest (view seat.old) (view seat.new) }
    {
        self.0.free(rt, seat, slot, bytes_resident);
    }

    /// Gives slots back, each with the bytes that it keeps resident. Each shard that has some of them is held once. Takes
    /// no memory.
    pub fn free_many<R: Wait>(&self, rt: &R, seat: &mut IndexSeat, items: &[(SlotId, usize)])
        requires seat { IsIndexSeat self.now.0 seat.old }
        // The slots differ, and the seat has the pick unit of each: it has each unit as often as the list.
        requires units { HasAll (units_of_slots items.now) (view seat.old) }
        requires bytes { All (λ p. p.1 ≤ 2 ^ 32) items.now }
        ensures seat { IsIndexSeat self.now.0 seat.new }
        ensures units { Gives (units_of_slots items.now) (view seat.old) (view seat.new) }
        ensures freed { FreedInTurn self.now.0 (places_of self.now.0).count items.now (view seat.old) (view seat.new) }
        ensures counts { AddsBytes self.now.0 items.now (view seat.old) (view seat.new) }
        ensures grows { OnlyGrows (view seat.old) (view seat.new) }
        ensures rest { KeepsRest (view seat.old) (view seat.new) }
    {
        self.0.free_many(rt, seat, items);
    }

    /// Whether no slot is used, in any of the shards when it was asked.
    pub fn is_empty<R: Wait>(&self, rt: &R, seat: &mut IndexSeat) -> bool
        requires seat { IsIndexSeat self.now.0 seat.old }
        ensures seat { IsIndexSeat self.now.0 seat.new }
        ensures counted { FoundInTurn self.now.0 (λ s. s) (λ ss. result ≡ all_unused ss) (view seat.old) (view seat.new) }
        ensures units { KeepsUnits (view seat.old) (view seat.new) }
        ensures counts { KeepsCounts (view seat.old) (view seat.new) }
        ensures grows { OnlyGrows (view seat.old) (view seat.new) }
        ensures rest { KeepsRest (view seat.old) (view seat.new) }
    {
        self.0.is_empty(rt, seat)
    }

    /// The number of warm slots: of each shard as many as it had when it was asked.
    pub fn unused_warm_slots<R: Wait>(&self, rt: &R, seat: &mut IndexSeat) -> u32
        requires seat { IsIndexSeat self.now.0 seat.old }
        ensures seat { IsIndexSeat self.now.0 seat.new }
        ensures counted { FoundInTurn self.now.0 (λ s. s) (λ ss. result ≡ sum_by (λ s. length s.warm) ss) (view seat.old) (view seat.new) }
        ensures units { KeepsUnits (view seat.old) (view seat.new) }
        ensures counts { KeepsCounts (view seat.old) (view seat.new) }
        ensures grows { OnlyGrows (view seat.old) (view seat.new) }
        ensures rest { KeepsRest (view seat.old) (view seat.new) }
    {
        self.0.unused_warm_slots(rt, seat)
    }

    /// The bytes that warm slots keep resident: of each shard as many as its slots kept when it was asked.
    pub fn unused_bytes_resident<R: Wait>(&self, rt: &R, seat: &mut IndexSeat) -> usize
        requires seat { IsIndexSeat self.now.0 seat.old }
        ensures seat { IsIndexSeat self.now.0 seat.new }
        ensures counted { FoundInTurn self.now.0 (λ s. s) (λ ss. result ≡ sum_by resident_bytes ss) (view seat.old) (view seat.new) }
        ensures units { KeepsUnits (view seat.old) (view seat.new) }
        ensures counts { KeepsCounts (view seat.old) (view seat.new) }
        ensures grows { OnlyGrows (view seat.old) (view seat.new) }
        ensures rest { KeepsRest (view seat.old) (view seat.new) }
    {
        self.0.unused_bytes_resident(rt, seat)
    }
}
