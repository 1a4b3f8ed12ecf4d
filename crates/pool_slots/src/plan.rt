ghost use Rattle.std.specs.Prelude.{◌≡◌, ◌+◌, ◌<◌, ◌≤◌, ◌^◌, true, length, slice_index_or};
ghost use Rattle.std.specs.List.{AllByRecursion};
ghost use Rattle.pool_slots.specs.SlotNames.{of_kind};
ghost use Rattle.pool_slots.specs.Plans.{home_in, home_of, home_among, has_number, have_number, allocators_of, cell_place, shard_tried, queue_tried, queues_for, IsPlacedAllocator, SlotsAreAtHome};

use crate::slot_name::{OfKinds, SlotName};
use pool_index::{SlotId, SlotKind};
use pool_types::PlainList;

/// An allocator of slots of one kind: its shards are parts in a row, and its slots numbers in steps.
#[derive(Clone, Copy, Debug, PartialEq, Eq)]
pub struct Allocator {
    pub kind: SlotKind,
    /// The place of its first shard.
    pub first_place: u32,
    pub shards: u32,
    pub slots_per_shard: u32,
    /// The number of its first slot in the pool, and how far its slots' numbers are apart.
    pub first: u32,
    pub step: u32,
    pub capacity: u32,
}

/// The place of the shard that has a slot, and the slot's number there.
#[derive(Clone, Copy, Debug, PartialEq, Eq)]
pub struct Home {
    pub place: u32,
    pub local: SlotId,
}

/// Where the parts of a pool are. It never changes.
#[derive(Drop)]
pub struct Plan {
    /// One allocator for each stripe.
    pub memories: PlainList<Allocator>,
    pub tables: PlainList<Allocator>,
    pub stacks: PlainList<Allocator>,
    pub heaps: PlainList<Allocator>,
    /// The place of the first cell of each kind. Heaps have no cells.
    pub cells: OfKinds,
    /// The number of slots of each kind.
    pub totals: OfKinds,
    pub first_queue: u32,
    pub queues: u32,
    /// The place of the list of heaps, where there are heaps.
    pub heap_list: u32,
}

impl Allocator {
    /// Whether one of its slots has this number in the pool.
    pub fn has_number(&self, number: u32) -> bool
        requires { 0 < self.now.step }
        ensures { result ≡ has_number self.now number }
    {
        if number < self.first {
            return false;
        }
        let at = number - self.first;
        at % self.step == 0 && at / self.step < self.capacity
    }

    /// The place of the shard that has the slot with this number, and the slot's number there.
    #[tactic(auto, using(crate::proofs::PlanSizes::shard_below))]
    pub fn home(&self, number: u32) -> Home
        requires placed { IsPlacedAllocator self.now }
        requires has { has_number self.now number ≡ true }
        ensures { result ≡ home_in self.now number }
    {
        let at = (number - self.first) / self.step;
        Home {
            place: self.first_place + at / self.slots_per_shard,
            local: SlotId(at % self.slots_per_shard),
        }
    }

    /// The place of the shard that is tried after so many others, from a home on.
    pub fn shard_tried(&self, home: u32, tried: u32) -> u32
        requires some { 0 < self.now.shards }
        requires placed { IsPlacedAllocator self.now }
        ensures { result ≡ shard_tried self.now home tried }
    {
        let after = (home as u64 + tried as u64) % self.shards as u64;
        self.first_place + after as u32
    }
}

impl Plan {
    /// The place of a slot's cell.
    pub fn cell_place(&self, name: SlotName) -> u32
        requires { of_kind name.kind self.now.cells + name.slot < 2 ^ 32 }
        ensures { result ≡ cell_place self.now name }
    {
        self.cells.of(name.kind) + name.slot
    }

    /// The place of the queue that comes after so many others, from a home on.
    pub fn queue_tried(&self, home: u32, tried: u32) -> u32
        requires some { 0 < self.now.queues }
        requires placed { self.now.first_queue + self.now.queues ≤ 2 ^ 32 }
        ensures { result ≡ queue_tried self.now home tried }
    {
        let after = (home as u64 + tried as u64) % self.queues as u64;
        self.first_queue + after as u32
    }

    /// How many queues a search for a slot of this kind goes through. Heaps are never queued.
    pub fn queues_for(&self, kind: SlotKind) -> u32
        ensures { result ≡ queues_for self.now kind }
    {
        match kind {
            SlotKind::Heap => 0,
            SlotKind::Memory | SlotKind::Table | SlotKind::Stack => self.queues,
        }
    }

    /// Where a slot is at home.
    pub fn home_of(&self, name: SlotName) -> Home
        requires placed { AllByRecursion IsPlacedAllocator (allocators_of self.now name.kind) }
        requires some { 0 < have_number (allocators_of self.now name.kind) name.slot }
        ensures { result ≡ home_of self.now name }
    {
        match name.kind {
            SlotKind::Memory => home_among(self.memories.as_slice(), name.slot),
            SlotKind::Table => home_among(self.tables.as_slice(), name.slot),
            SlotKind::Stack => home_among(self.stacks.as_slice(), name.slot),
            SlotKind::Heap => home_among(self.heaps.as_slice(), name.slot),
        }
    }
}

// The home of the slot with this number, by the first allocator that has it.
fn home_among(allocators: &[Allocator], number: u32) -> Home
    requires placed { AllByRecursion IsPlacedAllocator allocators.now }
    requires some { 0 < have_number allocators.now number }
    ensures { result ≡ home_among allocators.now number }
{
    for at in 0..allocators.len() {
        let allocator = allocator_at(allocators, at);
        if allocator.has_number(number) {
            return allocator.home(number);
        }
    }
    unreachable!()
}

pub(crate) fn allocator_at(allocators: &[Allocator], at: usize) -> Allocator
    requires { at < length allocators.now }
    ensures { (d : Allocator) → result ≡ slice_index_or allocators.now at d }
{
    allocators[at]
}

/// Each slot of a pool is at home in the shard that has it, and each place has one role. It does nothing.
pub fn slots_are_at_home()
    ensures { SlotsAreAtHome }
{}
