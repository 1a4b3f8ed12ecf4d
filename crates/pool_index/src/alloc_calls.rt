//! The calls of the index allocator that knows affinities.
ghost use Rattle.std.specs.Prelude.{◌≡◌, ◌+◌, ◌%◌, ◌^◌, ◌<◌, ◌≤◌, ◌∷◌, [], IfOk, OnErr, All, None, Some, length};
ghost use Rattle.std.specs.Result.{result_ok};
ghost use Rattle.pool_hall.specs.declared.unit_name.SlotKind.TheVariants.{Memory};
ghost use Rattle.pool_hall.specs.Rule.{first_view};
ghost use Rattle.pool_hall.specs.Unit.{pick_unit, times};
ghost use Rattle.pool_hall.specs.Seat.{made_with, limits_of, view, IsSeatOf, IsFree};
ghost use Rattle.pool_hall.specs.declared.hall.HallSeat.{HallSeat};
ghost use Rattle.pool_index.specs.Shard.{ShardState, IsShard};
ghost use Rattle.pool_index.specs.Holds.{HasShard};
ghost use Rattle.pool_index.specs.Layout.{shard_count, slots_per_shard};
ghost use Rattle.pool_index.specs.Part.{shard_meaning, full_answers, affine_misses};
ghost use Rattle.pool_index.specs.declared.probe.Probe.TheVariants as probe;
ghost use Rattle.pool_index.specs.Round.{round_place, found_units, AreShards, IsRound, KeepsRest, Gains, Gives, OnlyGrows, NoColdPick, OneColdPick, AllMissed, AllTopped};
ghost use Rattle.pool_index.specs.MadeShards.{made_shard, made_shards};
ghost use Rattle.pool_index.specs.Allocator.{slot_answered, made_of, limits_in, slot_count, places_of, shard_in, place_in, local_in, FreedInShard, AddsBytes, IsIndexSeat};

use crate::allocator::{FullNotes, IndexSeat, ModuleAffinityIndexAllocator};
use crate::ids::{MemoryInModule, ShardId, SlotId};
use crate::layout::{numbers_at, shard_of, slots_per_shard_of};
use crate::probe::Probe;
use crate::round::{ShardPlaces, probe_shards};
use crate::shard::Shard;
use crate::shard_calls::{ShardAt, free_in};
use pool_hall::{Hall, SlotKind};
use pool_types::{CompiledModuleId, DefinedMemoryIndex};
use std::alloc::{AllocError, Global};
use std::sync::Wait;

// Shard k of an allocator, with every slot cold.
fn made_shard(
    alloc: Global,
    capacity: u32,
    warm: u32,
    slots_per_shard: u32,
    count: u32,
    k: u32,
) -> Result<Shard, AllocError>
    requires slots { 0 < slots_per_shard }
    requires count { count ≡ shard_count capacity slots_per_shard }
    requires inside { k < count }
    ensures made { IfOk result (λ s. s ≡ made_shard capacity warm slots_per_shard k) }
    ensures sound { IfOk result IsShard }
{
    let (slots, budget) = shard_of(capacity, warm, slots_per_shard, count, k);
    Shard::new(
        alloc,
        SlotKind::Memory,
        k * slots_per_shard,
        1,
        slots,
        budget,
    )
}

// The shards of an allocator.
fn made_shards(
    alloc: Global,
    capacity: u32,
    warm: u32,
    slots_per_shard: u32,
    count: u32,
) -> Result<Vec<Shard>, AllocError>
    requires slots { 0 < slots_per_shard }
    requires count { count ≡ shard_count capacity slots_per_shard }
    ensures made { IfOk result (λ v. v.items ≡ made_shards capacity warm slots_per_shard) }
    ensures sound { IfOk result (λ v. All IsShard v.items) }
{
    let mut parts = Vec::with_capacity(alloc, count as usize)?;
    for k in 0..count {
        let shard = made_shard(alloc, capacity, warm, slots_per_shard, count, k)?;
        parts.push(shard)?;
    }
    Ok(parts)
}

impl ModuleAffinityIndexAllocator {
    /// An allocator of cold slots in about as many shards as requested, and its first seat, which has no unit. While
    /// fewer slots of a shard than its part of `warm` are warm, a pick takes a cold slot there before a warm one.
    pub fn new(
        alloc: Global,
        capacity: u32,
        warm: u32,
        shards: u32,
    ) -> Result<(ModuleAffinityIndexAllocator, IndexSeat), AllocError>
        ensures seat { IfOk result (λ r. IsIndexSeat r.0 r.1) }
        ensures view { IfOk result (λ r. view r.1 ≡ first_view (made_of r.0) []) }
        ensures made { IfOk result (λ r. made_of r.0 ≡ made_shards capacity warm (slots_per_shard capacity shards)) }
        ensures slots { IfOk result (λ r. slot_count r.0 ≡ capacity) }
    {
        let slots_per_shard = slots_per_shard_of(capacity, shards);
        let count = capacity.div_ceil(slots_per_shard).max(1);
        let parts = made_shards(alloc, capacity, warm, slots_per_shard, count)?;
        let (hall, seat) = Hall::new(alloc, parts, Vec::new(alloc), 0)?;
        let allocator = ModuleAffinityIndexAllocator {
            hall,
            capacity,
            warm,
            slots_per_shard,
            shards: count,
        };
        Ok((allocator, seat))
    }

    /// The same as `new`.
    pub fn new_with_shard_count(
        alloc: Global,
        capacity: u32,
        warm: u32,
        shards: u32,
    ) -> Result<(ModuleAffinityIndexAllocator, IndexSeat), AllocError>
        ensures seat { IfOk result (λ r. IsIndexSeat r.0 r.1) }
        ensures view { IfOk result (λ r. view r.1 ≡ first_view (made_of r.0) []) }
        ensures made { IfOk result (λ r. made_of r.0 ≡ made_shards capacity warm (slots_per_shard capacity shards)) }
        ensures slots { IfOk result (λ r. slot_count r.0 ≡ capacity) }
    {
        ModuleAffinityIndexAllocator::new(alloc, capacity, warm, shards)
    }

    /// The number of slots.
    pub fn len(&self) -> usize
        ensures { result ≡ slot_count self.now }
    {
        self.capacity as usize
    }

    /// The hall of the shards, with which a seat is split, and others joined to it.
    pub fn hall(&self) -> &Hall<Shard>
        ensures made { made_with result.now ≡ made_of self.now }
        ensures seats { (s : HallSeat ShardState) → IsIndexSeat self.now s → IsSeatOf result.now s × IsFree s }
        ensures from { (s : HallSeat ShardState) → IsSeatOf result.now s → IsFree s → IsIndexSeat self.now s }
    {
        &self.hall
    }

    /// The hall of the shards, to close it.
    pub fn into_hall(self) -> Hall<Shard>
        ensures made { made_with result ≡ made_of self }
        ensures seats { (s : HallSeat ShardState) → IsIndexSeat self s → IsSeatOf result s × IsFree s }
    {
        let ModuleAffinityIndexAllocator {
            hall,
            capacity: _,
            warm: _,
            slots_per_shard: _,
            shards: _,
        } = self;
        hall
    }

    /// Where the shards stand.
    fn places(&self) -> ShardPlaces
        ensures value { result ≡ places_of self.now }
        ensures some { 0 < result.count }
        ensures all { length (made_of self.now) ≡ result.count }
        ensures shards { AreShards shard_meaning Some (made_of self.now) (limits_in self.now) result }
    {
        ShardPlaces {
            kind: SlotKind::Memory,
            first: 0,
            count: self.shards,
        }
    }

    /// The shard at a place.
    pub(crate) fn at(&self, place: u32) -> ShardAt
        requires { place < self.now.shards }
        ensures value { result ≡ shard_in self.now place }
        ensures within { result.place < length (made_of self.now) }
        ensures shard { HasShard shard_meaning Some (made_of self.now) (limits_in self.now) result }
    {
        let (first, _) = numbers_at(self.capacity, self.slots_per_shard, self.shards, place);
        ShardAt {
            place,
            kind: SlotKind::Memory,
            first,
            step: 1,
        }
    }

    /// The place of a slot's shard, and the slot's number there.
    fn local(&self, slot: SlotId) -> (u32, SlotId)
        ensures place { result.0 ≡ place_in self.now slot.0 }
        ensures local { result.1 ≡ record { 0 = local_in self.now slot.0 } }
        ensures within { result.0 < self.now.shards }
    {
        let place = (slot.0 / self.slots_per_shard).min(self.shards - 1);
        (place, SlotId(slot.0 - place * self.slots_per_shard))
    }

    /// Takes a free slot for the wanted memory, or for none in particular: the shards are asked one after the other,
    /// from the home shard on and round the end. Home shards are numbered round too. The slot's pick unit is the seat's
    /// until the slot is freed. An error says that each shard was full when it was asked. Takes no memory.
    pub fn alloc<R: Wait>(
        &self,
        rt: &R,
        seat: &mut IndexSeat,
        home: ShardId,
        want: Option<MemoryInModule>,
    ) -> Result<SlotId, FullNotes>
        requires seat { IsIndexSeat self.now seat.old }
        ensures seat { IsIndexSeat self.now seat.new }
        ensures round { IsRound shard_meaning Some (made_of self.now) (limits_in self.now) (probe.Pick want) (round_place (places_of self.now) (home.0 % (places_of self.now).count)) (places_of self.now).count (slot_answered (result_ok result)) (view seat.old) (view seat.new) }
        ensures units { Gains (found_units Memory (slot_answered (result_ok result))) (view seat.old) (view seat.new) }
        ensures rest { KeepsRest (view seat.old) (view seat.new) }
        ensures cold { OneColdPick (view seat.old) (view seat.new) }
        ensures none_cold { OnErr result (NoColdPick (view seat.old) (view seat.new)) }
        ensures grows { OnlyGrows (view seat.old) (view seat.new) }
        ensures full { OnErr result (AllMissed (places_of self.now) full_answers (view seat.old) (view seat.new)) }
        ensures topped { OnErr result (AllTopped (places_of self.now) (view seat.new)) }
    {
        let places = self.places();
        let home = home.0 % self.shards;
        match probe_shards(rt, &self.hall, seat, places, home, Probe::Pick(want)) {
            Some(slot) => Ok(SlotId(slot)),
            None => Err(FullNotes { full: () }),
        }
    }

    /// Takes a warm slot that is affine to the memory, which it is no longer then: the shards are asked one after the
    /// other from the first on. None says that no shard had one when it was asked. Takes no memory.
    pub fn alloc_affine_and_clear_affinity<R: Wait>(
        &self,
        rt: &R,
        seat: &mut IndexSeat,
        id: CompiledModuleId,
        memory: DefinedMemoryIndex,
    ) -> Option<SlotId>
        requires seat { IsIndexSeat self.now seat.old }
        ensures seat { IsIndexSeat self.now seat.new }
        ensures round { IsRound shard_meaning Some (made_of self.now) (limits_in self.now) (probe.Affine (record { 0 = id; 1 = memory })) (round_place (places_of self.now) 0) (places_of self.now).count (slot_answered result) (view seat.old) (view seat.new) }
        ensures units { Gains (found_units Memory (slot_answered result)) (view seat.old) (view seat.new) }
        ensures rest { KeepsRest (view seat.old) (view seat.new) }
        ensures cold { NoColdPick (view seat.old) (view seat.new) }
        ensures grows { OnlyGrows (view seat.old) (view seat.new) }
        ensures missed { result ≡ None → AllMissed (places_of self.now) affine_misses (view seat.old) (view seat.new) }
    {
        let places = self.places();
        let probe = Probe::Affine(MemoryInModule(id, memory));
        match probe_shards(rt, &self.hall, seat, places, 0, probe) {
            Some(slot) => Some(SlotId(slot)),
            None => None,
        }
    }

    /// Gives a slot back: it is warm then, and keeps so many bytes resident. Its pick unit leaves the seat. Takes no
    /// memory.
    pub fn free<R: Wait>(&self, rt: &R, seat: &mut IndexSeat, slot: SlotId, bytes_resident: usize)
        requires seat { IsIndexSeat self.now seat.old }
        requires unit { 0 < times (pick_unit Memory slot.0) (view seat.old).units }
        requires bytes { bytes_resident ≤ 2 ^ 32 }
        ensures seat { IsIndexSeat self.now seat.new }
        ensures units { Gives (pick_unit Memory slot.0 ∷ []) (view seat.old) (view seat.new) }
        ensures freed { FreedInShard self.now (place_in self.now slot.0) ((record { 0 = local_in self.now slot.0 }, bytes_resident) ∷ []) (view seat.old) (view seat.new) }
        ensures counts { AddsBytes self.now ((slot, bytes_resident) ∷ []) (view seat.old) (view seat.new) }
        ensures grows { OnlyGrows (view seat.old) (view seat.new) }
        ensures rest { KeepsRest (view seat.old) (view seat.new) }
    {
        let (place, local) = self.local(slot);
        let at = self.at(place);
        free_in(rt, &self.hall, seat, at, local, bytes_resident);
    }
}
