ghost use Rattle.std.specs.Prelude.{◌≡◌, ◌+◌, ◌^◌, ◌<◌, ◌≤◌, ◌==◌, ◌++◌, length, map, All, IfOk, IfSome, OnOk, OnErr, IsSome, Some, None, option_map};
ghost use Rattle.std.specs.Result.{result_ok};
ghost use Rattle.std.specs.Option.{option_map_or};
ghost use Rattle.pool_index.specs.Freed.{taken_outside};
ghost use Rattle.pool_index.specs.Lists.{numbered};
ghost use Rattle.pool_index.specs.Shard.{IsShard, IsSameShard, NumbersFit, KeepsOthers, KeepsUsed, fresh_shard, use_of, used_count, resident_bytes, slot_number, warm_at, next_cold, affine_choice, slot_and_bytes, after_choice, pick_answer, after_full, after_pick, affine_answer, after_affine_pick, taken_slots, after_take_warm, after_free};

use crate::ids::{MemoryInModule, SlotId};
use crate::slot_lists::SlotLists;
use crate::steps::Steps;
use crate::taken::Taken;
use pool_hall::SlotKind;
use std::alloc::{AllocError, Global};
use std::marker::{Brand, Model};
use std::sync::ledger::{Blank, Ledger};

/// That a shard had no free slot. Only `Shard::pick` makes one.
#[derive(Debug, Drop)]
pub struct FullNote {
    full: (),
}

/// The slots of one shard of an index allocator (Wasmtime's `index_allocator.rs`): what stands behind its lock. Slots
/// are numbered from 0 within the shard. A slot is cold until it is picked first, then used, and warm when it is freed.
/// All memory is taken when the shard is made.
#[derive(Drop)]
pub struct Shard {
    kind: SlotKind,
    first: u32,
    step: u32,
    capacity: u32,
    budget: u32,
    cold: u32,
    lists: SlotLists,
    full_answers: u64,
    affine_misses: u64,
    warm_takes: u64,
}

impl Model for Shard {
    ghost use Rattle.pool_index.specs.Shard.{ShardState};

    ghost Value = { ShardState };

    ghost use Rattle.pool_index.specs.Shard.{IsShard};
    ghost use Rattle.pool_index.specs.ShardFields.{state_of};

    ghost view = { state_of };

    ghost invariant = { λ s. IsShard (state_of s) };
}

impl Shard {
    /// A shard of cold slots. Slot k is known outside as slot `first + k * step` of its kind. While fewer slots than
    /// `budget` are warm, a pick takes a cold slot before a warm one.
    pub fn new(
        alloc: Global,
        kind: SlotKind,
        first: u32,
        step: u32,
        capacity: u32,
        budget: u32,
    ) -> Result<Shard, AllocError>
        requires { NumbersFit first step capacity }
        ensures made { IfOk result (λ s. s ≡ fresh_shard kind first step capacity budget) }
        ensures sound { IfOk result IsShard }
    {
        let lists = SlotLists::new(alloc, capacity)?;
        Ok(Shard {
            kind,
            first,
            step,
            capacity,
            budget,
            cold: 0,
            lists,
            full_answers: 0,
            affine_misses: 0,
            warm_takes: 0,
        })
    }

    /// What its slots are for.
    pub fn kind(&self) -> SlotKind
        ensures { result ≡ self.now.kind }
    {
        self.kind
    }

    /// The number of slots.
    pub fn len(&self) -> usize
        ensures value { result ≡ self.now.capacity }
        ensures sound { IsShard self.now }
    {
        self.capacity as usize
    }

    /// Whether no slot is used.
    pub fn is_empty(&self) -> bool
        ensures { result ≡ (used_count self.now == 0) }
    {
        self.lists.warm_len() == self.cold as usize
    }

    /// The number of warm slots.
    pub fn unused_warm_slots(&self) -> u32
        ensures { result ≡ length self.now.warm }
    {
        self.lists.warm_len() as u32
    }

    /// The bytes that the warm slots keep resident, together.
    pub fn unused_bytes_resident(&self) -> usize
        ensures { result ≡ resident_bytes self.now }
    {
        self.lists.bytes_resident()
    }

    /// The number by which a slot of this shard is known outside.
    pub fn number(&self, slot: SlotId) -> u32
        requires { slot.0 < self.now.capacity }
        ensures { result ≡ slot_number self.now slot.0 }
    {
        self.first + slot.0 * self.step
    }

    /// Takes a free slot for the wanted memory, or for none in particular, and tells the bytes that the slot keeps
    /// resident. The slot is the caller's until it is freed. Takes no memory.
    pub fn pick<L: Ledger>(
        &mut self,
        want: Option<MemoryInModule>,
        steps: &mut Steps<L>,
    ) -> Result<(SlotId, usize), FullNote>
        ensures answer { result_ok result ≡ pick_answer want self.old }
        ensures after { self.new ≡ after_pick want self.old }
        ensures same { IsSameShard self.old self.new }
        ensures err { OnErr result (self.new ≡ after_full self.old) }
        // The answer is full exactly where every slot is used.
        ensures full { OnErr result (used_count self.old ≡ self.old.capacity) }
        ensures free { OnOk result (used_count self.old < self.old.capacity) }
        // No slot is handed out that is in use, and from now on it is.
        ensures inside { IfOk result (λ p. p.0.0 < self.old.capacity) }
        ensures unused { IfOk result (λ p. use_of self.old p.0.0 ≡ None) }
        ensures used { IfOk result (λ p. use_of self.new p.0.0 ≡ Some want) }
        ensures others { IfOk result (λ p. KeepsOthers p.0 self.old self.new) }
        ensures stay { KeepsUsed self.old self.new }
        ensures bytes { IfOk result (λ p. p.1 ≤ 2 ^ 32) }
        ensures sound { IsShard self.new }
        ensures steps { steps.new ≤ steps.old + 8 }
    {
        if let Some(taken) = self.take_affine(want, steps) {
            return Ok(taken);
        }
        let has_cold = self.cold < self.capacity;
        let warm = self.lists.warm_len();
        let has_warm = warm > 0;
        if has_cold && (!has_warm || warm < self.budget as usize) {
            Ok(self.take_cold(want, steps))
        } else if has_warm {
            Ok(self.take_first(want, steps))
        } else {
            self.full_answers = self.full_answers.wrapping_add(1);
            Err(FullNote { full: () })
        }
    }

    /// Takes the warm slot that a pick for the memory takes first, and records no affinity. The slot is the caller's
    /// until it is freed. Takes no memory.
    pub fn pick_affine_and_clear<L: Ledger>(
        &mut self,
        of: MemoryInModule,
        steps: &mut Steps<L>,
    ) -> Option<SlotId>
        ensures answer { result ≡ affine_answer of self.old }
        ensures after { self.new ≡ after_affine_pick of self.old }
        ensures same { IsSameShard self.old self.new }
        ensures inside { IfSome result (λ k. k.0 < self.old.capacity) }
        ensures unused { IfSome result (λ k. use_of self.old k.0 ≡ None) }
        ensures used { IfSome result (λ k. use_of self.new k.0 ≡ Some None) }
        ensures others { IfSome result (λ k. KeepsOthers k self.old self.new) }
        ensures stay { KeepsUsed self.old self.new }
        ensures sound { IsShard self.new }
        ensures steps { steps.new ≤ steps.old + 8 }
    {
        let Some((slot, _)) = self.take_last_affine(of, None, steps) else {
            self.affine_misses = self.affine_misses.wrapping_add(1);
            return None;
        };
        Some(slot)
    }

    /// Takes all warm slots in the order in which they were freed, with the bytes that they keep resident. They keep
    /// their affinities, and are the caller's until they are freed. Takes no memory.
    pub fn take_warm(&mut self, out: &mut Taken)
        requires { length out.old.items + length self.old.warm ≤ out.old.room }
        ensures taken { out.new ≡ record out.old { items = out.old.items ++ taken_slots self.old } }
        ensures after { self.new ≡ after_take_warm self.old }
        ensures same { IsSameShard self.old self.new }
        ensures used { All (λ p. IsSome (use_of self.new p.0.0)) (taken_slots self.old) }
        ensures stay { KeepsUsed self.old self.new }
        ensures sound { IsShard self.new }
    {
        let _slots = self.len();
        self.take_warm_as(0, 1, out);
    }

    /// The same, by the numbers by which the slots are known outside.
    pub fn take_warm_outside(&mut self, out: &mut Taken)
        requires { length out.old.items + length self.old.warm ≤ out.old.room }
        ensures taken { out.new ≡ record out.old { items = out.old.items ++ taken_outside self.old } }
        ensures after { self.new ≡ after_take_warm self.old }
        ensures same { IsSameShard self.old self.new }
        ensures used { All (λ p. IsSome (use_of self.new p.0.0)) (taken_slots self.old) }
        ensures stay { KeepsUsed self.old self.new }
        ensures sound { IsShard self.new }
    {
        self.take_warm_as(self.first, self.step, out);
    }

    /// Gives a used slot back: it is warm then, and keeps so many bytes resident. Takes no memory.
    pub fn free<L: Ledger>(&mut self, slot: SlotId, bytes_resident: usize, steps: &mut Steps<L>)
        requires used { IsSome (use_of self.old slot.0) }
        requires bytes { bytes_resident ≤ 2 ^ 32 }
        ensures after { self.new ≡ after_free slot bytes_resident self.old }
        ensures same { IsSameShard self.old self.new }
        ensures unused { use_of self.new slot.0 ≡ None }
        ensures others { KeepsOthers slot self.old self.new }
        ensures sound { IsShard self.new }
        ensures steps { steps.new ≤ steps.old + 8 }
    {
        self.lists.free(slot, bytes_resident, steps);
    }

    /// Takes all warm slots, each by the number that it has where the first slot has this one, and each next one so much
    /// more.
    fn take_warm_as(&mut self, first: u32, step: u32, out: &mut Taken)
        requires fit { NumbersFit first step self.old.capacity }
        requires room { length out.old.items + length self.old.warm ≤ out.old.room }
        ensures taken { out.new ≡ record out.old { items = out.old.items ++ map (numbered first step) (taken_slots self.old) } }
        ensures after { self.new ≡ after_take_warm self.old }
        ensures same { IsSameShard self.old self.new }
        ensures used { All (λ p. IsSome (use_of self.new p.0.0)) (taken_slots self.old) }
        ensures stay { KeepsUsed self.old self.new }
        ensures sound { IsShard self.new }
    {
        self.lists
            .take_all::<Brand>(first, step, out, Blank::new(1));
        self.warm_takes = self.warm_takes.wrapping_add(1);
    }

    /// Takes the last warm slot that is affine to the wanted memory, where there is one.
    fn take_affine<L: Ledger>(
        &mut self,
        want: Option<MemoryInModule>,
        steps: &mut Steps<L>,
    ) -> Option<(SlotId, usize)>
        ensures answer { result ≡ option_map (slot_and_bytes self.old) (affine_choice want self.old) }
        ensures after { self.new ≡ option_map_or (after_choice want self.old) (affine_choice want self.old) self.old }
        ensures inside { IfSome result (λ p. p.0.0 < self.old.capacity) }
        ensures unused { IfSome result (λ p. use_of self.old p.0.0 ≡ None) }
        ensures bytes { IfSome result (λ p. p.1 ≤ 2 ^ 32) }
        ensures before { IfSome result (λ _. IsShard self.old) }
        ensures sound { IfSome result (λ _. IsShard self.new) }
        ensures steps { steps.new ≤ steps.old + 5 }
        ensures missed { result ≡ None → steps.new ≡ steps.old }
    {
        self.take_last_affine(want?, want, steps)
    }

    /// Takes the last warm slot that is affine to a memory, where there is one, for what is wanted.
    fn take_last_affine<L: Ledger>(
        &mut self,
        of: MemoryInModule,
        want: Option<MemoryInModule>,
        steps: &mut Steps<L>,
    ) -> Option<(SlotId, usize)>
        ensures answer { result ≡ option_map (slot_and_bytes self.old) (affine_choice (Some of) self.old) }
        ensures after { self.new ≡ option_map_or (after_choice want self.old) (affine_choice (Some of) self.old) self.old }
        ensures inside { IfSome result (λ p. p.0.0 < self.old.capacity) }
        ensures unused { IfSome result (λ p. use_of self.old p.0.0 ≡ None) }
        ensures bytes { IfSome result (λ p. p.1 ≤ 2 ^ 32) }
        ensures before { IsShard self.old }
        ensures sound { IsShard self.new }
        ensures steps { steps.new ≤ steps.old + 5 }
        ensures missed { result ≡ None → steps.new ≡ steps.old }
    {
        self.lists.take_affine(of, want, steps)
    }

    /// Takes the first warm slot.
    fn take_first<L: Ledger>(
        &mut self,
        want: Option<MemoryInModule>,
        steps: &mut Steps<L>,
    ) -> (SlotId, usize)
        requires { 0 < length self.old.warm }
        ensures answer { result ≡ slot_and_bytes self.old (warm_at 0) }
        ensures after { self.new ≡ after_choice want self.old (warm_at 0) }
        ensures inside { result.0.0 < self.old.capacity }
        ensures unused { use_of self.old result.0.0 ≡ None }
        ensures bytes { result.1 ≤ 2 ^ 32 }
        ensures before { IsShard self.old }
        ensures sound { IsShard self.new }
        ensures steps { steps.new ≤ steps.old + 5 }
    {
        self.lists.take_first(want, steps)
    }

    /// Takes the first cold slot.
    fn take_cold<L: Ledger>(
        &mut self,
        want: Option<MemoryInModule>,
        steps: &mut Steps<L>,
    ) -> (SlotId, usize)
        requires { self.old.cold < self.old.capacity }
        ensures answer { result ≡ slot_and_bytes self.old next_cold }
        ensures after { self.new ≡ after_choice want self.old next_cold }
        ensures unused { use_of self.old result.0.0 ≡ None }
        ensures before { IsShard self.old }
        ensures sound { IsShard self.new }
        ensures steps { steps.new ≡ steps.old + 1 }
    {
        let slot = SlotId(self.cold);
        self.lists.take_cold(slot, want, steps);
        self.cold += 1;
        (slot, 0)
    }
}
