//! Frees of one slot and of several, as calls on a shard that is held.
ghost use Rattle.std.specs.Prelude.{◌≡◌, ◌<◌, ◌≤◌, ◌^◌, ◌∷◌, [], IsSome, length, nat_lt};
ghost use Rattle.pool_index.specs.Laws.{free_all};
ghost use Rattle.pool_index.specs.Shard.{use_of, IsShard, IsSameShard};
ghost use Rattle.pool_index.specs.Freed.{IsFreed, CanFree, AreFreed, is_among, slots_among};

use crate::ids::SlotId;
use crate::shard::Shard;
use crate::steps::Steps;
use pool_hall::PartCall;
use std::marker::Brand;
use std::sync::ledger::{Blank, Ledger};

/// Frees a slot of the shard, which keeps so many bytes resident.
#[derive(Drop)]
pub struct FreeSlot {
    pub slot: SlotId,
    pub bytes: usize,
}

// The steps of the shard are counted nowhere.
fn freed<L: Ledger>(shard: &mut Shard, slot: SlotId, bytes: usize, blank: Blank)
    requires name { blank.name ≡ L.name }
    requires parts { blank.parts ≡ L.parts }
    requires some { 0 < blank.parts }
    requires used { IsSome (use_of shard.old slot.0) }
    requires bytes { bytes ≤ 2 ^ 32 }
    ensures { IsFreed slot bytes shard.old shard.new }
{
    let mut steps = Steps::<L>::new(blank);
    shard.free(slot, bytes, &mut steps);
}

fn free_slot(shard: &mut Shard, slot: SlotId, bytes: usize)
    requires used { IsSome (use_of shard.old slot.0) }
    requires bytes { bytes ≤ 2 ^ 32 }
    ensures { IsFreed slot bytes shard.old shard.new }
{
    freed::<Brand>(shard, slot, bytes, Blank::new(1));
}

impl PartCall<Shard> for FreeSlot {
    ghost use Rattle.std.specs.Prelude.{◌≤◌, ◌^◌, IsSome};
    ghost use Rattle.pool_index.specs.Shard.{use_of};
    ghost use Rattle.pool_index.specs.Freed.{IsFreed};

    type Answer = ();

    ghost needs = { λ c s. IsSome (use_of s c.slot.0) × (c.bytes ≤ 2 ^ 32) };

    ghost does = { λ c s r d t. IsFreed c.slot c.bytes s t };

    fn call(&mut self, part: &mut Shard) {
        free_slot(part, self.slot, self.bytes);
    }
}

/// Frees those slots of a list that are numbered from the first on and below the end, where there is one: one after the
/// other, each by its number behind the first. Each keeps so many bytes resident.
#[derive(Drop)]
pub struct FreeSlots<'a> {
    pub slots: &'a [(SlotId, usize)],
    pub first: u32,
    pub end: Option<u32>,
}

fn is_between(first: u32, end: Option<u32>, slot: SlotId) -> bool
    ensures { result ≡ is_among first end slot.0 }
{
    slot.0 >= first
        && match end {
            Some(end) => slot.0 < end,
            None => true,
        }
}

/// Whether one of the slots is numbered from the first on and below the end.
pub(crate) fn has_between(first: u32, end: Option<u32>, slots: &[(SlotId, usize)]) -> bool
    ensures { result ≡ nat_lt 0 (length (slots_among first end slots.now)) }
{
    for at in 0..slots.len() {
        let (slot, _) = slots[at];
        if is_between(first, end, slot) {
            return true;
        }
    }
    false
}

// Frees one slot, where it is numbered from the first on and below the end.
fn free_between<L: Ledger>(
    shard: &mut Shard,
    slot: SlotId,
    bytes: usize,
    first: u32,
    end: Option<u32>,
    steps: &mut Steps<L>,
)
    requires can { CanFree (slots_among first end ((slot, bytes) ∷ [])) shard.old }
    requires sound { IsShard shard.old }
    ensures after { shard.new ≡ free_all (slots_among first end ((slot, bytes) ∷ [])) shard.old }
    ensures same { IsSameShard shard.old shard.new }
    ensures sound { IsShard shard.new }
{
    if is_between(first, end, slot) {
        shard.free(SlotId(slot.0 - first), bytes, steps);
    }
}

fn freed_between<L: Ledger>(
    shard: &mut Shard,
    slots: &[(SlotId, usize)],
    first: u32,
    end: Option<u32>,
    blank: Blank,
)
    requires name { blank.name ≡ L.name }
    requires parts { blank.parts ≡ L.parts }
    requires some { 0 < blank.parts }
    requires can { CanFree (slots_among first end slots.now) shard.old }
    ensures { AreFreed (slots_among first end slots.now) shard.old shard.new }
{
    let _slots = shard.len();
    let mut steps = Steps::<L>::new(blank);
    for at in 0..slots.len() {
        let (slot, bytes) = slots[at];
        free_between(shard, slot, bytes, first, end, &mut steps);
    }
}

fn free_slots(shard: &mut Shard, slots: &[(SlotId, usize)], first: u32, end: Option<u32>)
    requires can { CanFree (slots_among first end slots.now) shard.old }
    ensures { AreFreed (slots_among first end slots.now) shard.old shard.new }
{
    freed_between::<Brand>(shard, slots, first, end, Blank::new(1));
}

impl<'a> PartCall<Shard> for FreeSlots<'a> {
    ghost use Rattle.pool_index.specs.Freed.{CanFree, AreFreed, slots_among};

    type Answer = ();

    ghost needs = { λ c s. CanFree (slots_among c.first c.end c.slots.now) s };

    ghost does = { λ c s r d t. AreFreed (slots_among c.first c.end c.slots.now) s t };

    fn call(&mut self, part: &mut Shard) {
        free_slots(part, self.slots, self.first, self.end);
    }
}
