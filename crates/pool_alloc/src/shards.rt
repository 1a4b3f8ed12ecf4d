//! What is done to a shard: slots are picked, by affinity or not, taken while they are warm, and freed.
ghost use Rattle.std.specs.Prelude.{◌≡◌, ◌+◌, ◌<◌, ◌≤◌, ◌^◌, if◌then◌else◌, ◌++◌, nat_lt, length, All, IsSome, None, option_map, drop, map};
ghost use Rattle.pool_index.specs.Freed.{known_outside};
ghost use Rattle.pool_index.specs.Shard.{ShardState, use_of, pick_answer, after_pick, after_free, slot_number, affine_answer, after_affine_pick, after_take_warm};
ghost use Rattle.pool_slots.specs.Plans.{home_of};
ghost use Rattle.pool_alloc.specs.CanStep.{HasAllocators, CanTryShard};
ghost use Rattle.pool_alloc.specs.Freeing.{AreUsedInTurn, HasHome, CanBeFreed, CanFreeNext, shard_after_next, freed_after_next};
ghost use Rattle.pool_alloc.specs.Leases.{memory_slot};
ghost use Rattle.pool_alloc.specs.Releases.{slot_outside, taking};
ghost use Rattle.pool_alloc.specs.StepReads.{freed_of, allocator_for, freed_elsewhere, first_shard, after_frees};
ghost use Rattle.pool_alloc.specs.StepTable.{taken_next, pick_on, free_one_on, free_heap_on, free_on};
ghost use Rattle.pool_alloc.specs.Turns.{Left, PartAfter, after, part_after, goes, slot_search};

use crate::frame::{Frame, FreedSlot, Object, Outcome, Phase};
use crate::leases::memory::MemoryLease;
use crate::release::ReleaseCursor;
use crate::reserved::ReservedList;
use pool_index::{MemoryInModule, Shard, SlotId, SlotKind, Steps};
use pool_pages::Pages;
use pool_slots::{GcHeap, Home, Plan, SlotName};
use std::alloc::Global;
use std::marker::Brand;
use std::sync::ledger::{Blank, Ledger};

// Picks a slot from a shard, which is so many after the home shard.
pub(crate) fn pick<P: Pages, H: GcHeap>(
    shard: &mut Shard,
    plan: &Plan,
    frame: &mut Frame<P, H>,
    tried: u32,
    outcome: &mut Option<Outcome<P, H>>,
)
    requires plan { HasAllocators plan.now frame.old.stripe }
    requires tries { CanTryShard plan.now (allocator_for plan.now frame.old) tried }
    requires few { length frame.old.objects.memories.items < 2 ^ 32 }
    requires unanswered { outcome.old ≡ None }
    ensures { ◌≡◌ {A = PartAfter ShardState P H} (record { part = shard.new; frame = frame.new; outcome = outcome.new }) (part_after (pick_on plan.now tried shard.old frame.old)) }
{
    match pick_of::<Brand>(shard, frame.wanted(), Blank::new(1)) {
        Some(slot) => go_to_slot(plan, frame, slot),
        None => pick_next(plan, frame, tried, outcome),
    }
}

// The shard had this slot.
fn go_to_slot<P: Pages, H: GcHeap>(plan: &Plan, frame: &mut Frame<P, H>, slot: u32)
    requires { HasAllocators plan.now frame.old.stripe }
    ensures { ◌≡◌ {A = Left P H} (record { frame = frame.new; outcome = None }) (after frame.old (goes (taken_next (allocator_for plan.now frame.old).kind (record { kind = (allocator_for plan.now frame.old).kind; slot = slot })))) }
{
    let kind = frame.allocator(plan).kind;
    frame.go(taken_next(SlotName { kind, slot }))
}

// What is taken of a slot that was picked: its heap, or its region.
fn taken_next<P: Pages, H: GcHeap>(name: SlotName) -> Phase<P, H>
    ensures { result ≡ taken_next name.kind name }
{
    match name.kind {
        SlotKind::Heap => Phase::TakeHeap(name),
        _ => Phase::TakeRegion(name),
    }
}

// The shard had no slot: the next is tried, unless it was the last.
fn pick_next<P: Pages, H: GcHeap>(
    plan: &Plan,
    frame: &mut Frame<P, H>,
    tried: u32,
    outcome: &mut Option<Outcome<P, H>>,
)
    requires plan { HasAllocators plan.now frame.old.stripe }
    requires tries { CanTryShard plan.now (allocator_for plan.now frame.old) tried }
    requires unanswered { outcome.old ≡ None }
    ensures { ◌≡◌ {A = Left P H} (record { frame = frame.new; outcome = outcome.new }) (after frame.old (if nat_lt (tried + 1) (allocator_for plan.now frame.old).shards then goes (Phase.Pick (tried + 1)) else slot_search plan.now frame.old)) }
{
    let shards = frame.allocator(plan).shards;
    if tried + 1 < shards {
        return frame.go(Phase::Pick(tried + 1));
    }
    frame.search_slot(plan, outcome)
}

// Frees a slot of a shard. Nothing is known of it.
pub(crate) fn free_one<P: Pages, H: GcHeap>(
    shard: &mut Shard,
    plan: &Plan,
    alloc: Global,
    frame: &mut Frame<P, H>,
    name: SlotName,
    outcome: &mut Option<Outcome<P, H>>,
)
    requires home { HasHome plan.now name }
    requires used { IsSome (use_of shard.old (home_of plan.now name).local.0) }
    requires unanswered { outcome.old ≡ None }
    ensures { ◌≡◌ {A = PartAfter ShardState P H} (record { part = shard.new; frame = frame.new; outcome = outcome.new }) (part_after (free_one_on plan.now name shard.old frame.old)) }
{
    let local = home(plan, name).local;
    free_of::<Brand>(shard, local, 0, Blank::new(1));
    frame.next(alloc, outcome)
}

// Frees the slot of a heap. Its memory is given back then.
pub(crate) fn free_heap<P: Pages, H: GcHeap>(
    shard: &mut Shard,
    plan: &Plan,
    frame: &mut Frame<P, H>,
    name: SlotName,
    memory: MemoryLease<P>,
)
    requires home { HasHome plan.now name }
    requires used { IsSome (use_of shard.old (home_of plan.now name).local.0) }
    ensures { ◌≡◌ {A = PartAfter ShardState P H} (record { part = shard.new; frame = frame.new; outcome = None }) (part_after (free_heap_on plan.now name memory shard.old frame.old)) }
{
    let local = home(plan, name).local;
    free_of::<Brand>(shard, local, 0, Blank::new(1));
    frame.go(Phase::UncountObject(Object::Memory(memory)))
}

// Frees all slots that wait to be freed and are at home in the shard, which has this place.
pub(crate) fn free<P: Pages, H: GcHeap>(
    shard: &mut Shard,
    plan: &Plan,
    alloc: Global,
    frame: &mut Frame<P, H>,
    place: u32,
    outcome: &mut Option<Outcome<P, H>>,
)
    requires used { AreUsedInTurn plan.now (freed_of plan.now place frame.old.freed.items) shard.old }
    requires each { All (CanBeFreed plan.now) frame.old.freed.items }
    requires unanswered { outcome.old ≡ None }
    ensures { ◌≡◌ {A = PartAfter ShardState P H} (record { part = shard.new; frame = frame.new; outcome = outcome.new }) (part_after (free_on plan.now place shard.old frame.old)) }
{
    free_all(shard, plan, place, &mut frame.freed);
    frame.flush(alloc, outcome)
}

// Picks a slot of the shard, and gives its number in the pool. The shard's steps are counted nowhere.
fn pick_of<L: Ledger>(shard: &mut Shard, want: Option<MemoryInModule>, blank: Blank) -> Option<u32>
    requires name { blank.name ≡ L.name }
    requires parts { blank.parts ≡ L.parts }
    requires some { 0 < blank.parts }
    ensures answer { result ≡ option_map (λ p. slot_number shard.old p.0.0) (pick_answer want shard.old) }
    ensures after { shard.new ≡ after_pick want shard.old }
{
    let mut steps = Steps::<L>::new(blank);
    match shard.pick(want, &mut steps) {
        Ok((slot, _)) => Some(shard.number(slot)),
        Err(_) => None,
    }
}

// Frees a used slot of the shard, which keeps so many bytes resident.
pub(crate) fn free_of<L: Ledger>(shard: &mut Shard, slot: SlotId, bytes: usize, blank: Blank)
    requires name { blank.name ≡ L.name }
    requires parts { blank.parts ≡ L.parts }
    requires some { 0 < blank.parts }
    requires used { IsSome (use_of shard.old slot.0) }
    requires bytes { bytes ≤ 2 ^ 32 }
    ensures { shard.new ≡ after_free slot bytes shard.old }
{
    let mut steps = Steps::<L>::new(blank);
    shard.free(slot, bytes, &mut steps);
}

// The place of the first shard that has some of the slots.
pub(crate) fn first_shard(plan: &Plan, freed: &ReservedList<FreedSlot>) -> u32
    requires { All (CanBeFreed plan.now) freed.now.items }
    ensures { result ≡ first_shard plan.now freed.now.items }
{
    let count = freed.len();
    if count == 0 {
        return 0;
    }
    let mut first = home(plan, freed.get(0).name).place;
    for at in 1..count {
        first = first.min(home(plan, freed.get(at).name).place);
    }
    first
}

// Where a slot is at home.
pub(crate) fn home(plan: &Plan, name: SlotName) -> Home
    requires { HasHome plan.now name }
    ensures { result ≡ home_of plan.now name }
{
    plan.home_of(name)
}

// The name of a memory slot.
pub(crate) fn memory_slot(slot: u32) -> SlotName
    ensures { result ≡ memory_slot slot }
{
    SlotName {
        kind: SlotKind::Memory,
        slot,
    }
}

// Frees those of the slots that are the shard's, in order. The others stay in the list, in order.
pub(crate) fn free_all(
    shard: &mut Shard,
    plan: &Plan,
    place: u32,
    freed: &mut ReservedList<FreedSlot>,
)
    requires used { AreUsedInTurn plan.now (freed_of plan.now place freed.old.items) shard.old }
    requires each { All (CanBeFreed plan.now) freed.old.items }
    ensures shard { shard.new ≡ after_frees plan.now (freed_of plan.now place freed.old.items) shard.old }
    ensures others { freed.new ≡ record freed.old { items = freed_elsewhere plan.now place freed.old.items } }
{
    for _ in 0..freed.len() {
        free_next(shard, plan, place, freed);
    }
}

// Frees the first of the slots where it is the shard's, and moves it to the end where it isn't.
fn free_next(shard: &mut Shard, plan: &Plan, place: u32, freed: &mut ReservedList<FreedSlot>)
    requires { CanFreeNext plan.now place freed.old.items shard.old }
    ensures shard { shard.new ≡ shard_after_next plan.now place freed.old.items shard.old }
    ensures freed { freed.new ≡ record freed.old { items = freed_after_next plan.now place freed.old.items } }
{
    let next = freed.remove_first();
    let home = home(plan, next.name);
    if home.place == place {
        free_of::<Brand>(shard, home.local, next.bytes, Blank::new(1));
    } else {
        freed.push(next);
    }
}

// Picks a slot of the shard by affinity, and gives its number in the pool. The shard's steps are counted nowhere.
pub(crate) fn pick_affine<L: Ledger>(
    shard: &mut Shard,
    of: MemoryInModule,
    blank: Blank,
) -> Option<u32>
    requires name { blank.name ≡ L.name }
    requires parts { blank.parts ≡ L.parts }
    requires some { 0 < blank.parts }
    ensures answer { result ≡ option_map (λ k. slot_number shard.old k.0) (affine_answer of shard.old) }
    ensures after { shard.new ≡ after_affine_pick of shard.old }
{
    let mut steps = Steps::<L>::new(blank);
    match shard.pick_affine_and_clear(of, &mut steps) {
        Some(slot) => Some(shard.number(slot)),
        None => None,
    }
}

// Takes all warm slots of the shard, and lists them by their names.
pub(crate) fn take_warm(shard: &mut Shard, cursor: &mut ReleaseCursor)
    requires local { length cursor.old.local.items + length shard.old.warm ≤ cursor.old.local.room }
    requires taken { length cursor.old.taken.items + length shard.old.warm ≤ cursor.old.taken.room }
    ensures cursor { cursor.new ≡ taking shard.old cursor.old }
    ensures after { shard.new ≡ after_take_warm shard.old }
{
    let before = cursor.local.as_slice().len();
    shard.take_warm(&mut cursor.local);
    name_taken(shard, cursor, before);
}

// Lists those slots by their names that were taken from this place on.
fn name_taken(shard: &Shard, cursor: &mut ReleaseCursor, from: usize)
    requires inside { from ≤ length cursor.old.local.items }
    requires slots { All (λ p. p.0.0 < shard.now.capacity) (drop from cursor.old.local.items) }
    requires room { length cursor.old.taken.items + length (drop from cursor.old.local.items) ≤ cursor.old.taken.room }
    ensures { cursor.new ≡ record cursor.old { taken = record cursor.old.taken { items = cursor.old.taken.items ++ map slot_outside (map (known_outside shard.now) (drop from cursor.old.local.items)) } } }
{
    let count = cursor.local.as_slice().len();
    for at in from..count {
        let (slot, bytes) = cursor.local.as_slice()[at];
        let name = memory_slot(shard.number(slot));
        cursor.taken.push(FreedSlot { name, bytes });
    }
}
