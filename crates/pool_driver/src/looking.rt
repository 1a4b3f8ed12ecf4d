//! Looks at a pool that many callers share: how many of its slots are warm.
ghost use Rattle.std.specs.Prelude.{◌≡◌, ◌+◌, ◌-◌, ◌^◌, ◌<◌, ◌≤◌, length, min, slice_index_or, List, Option};
ghost use Rattle.std.specs.List.{AllByRecursion};
ghost use Rattle.pool_hall.specs.Seat.{made_with, limits_of, view, IsSeatOf, IsFree};
ghost use Rattle.pool_slots.specs.Plans.{allocators_of, shard_role, role_at, slots_at};
ghost use Rattle.pool_slots.specs.declared.plan.Allocator.{Allocator};
ghost use Rattle.pool_alloc.specs.declared.frame.Frame.{Frame};
ghost use Rattle.pool_alloc.specs.declared.frame.Outcome.{Outcome};
ghost use Rattle.pool_driver.specs.Driving.{Given, IsDriven};
ghost use Rattle.pool_driver.specs.Looking.{AreNumbersAt, AreOfShards, HasItsShards, HasLooked, IsCounted, IsSumOf, slots_among, slots_of_kind};
ghost use Rattle.pool_driver.specs.Origins.{about_of, inner_of};
ghost use Rattle.pool_driver.specs.Placed.{About, pool_meaning};
ghost use Rattle.pool_driver.specs.Pools.{IsSharedOf};
ghost use Rattle.pool_driver.specs.declared.looking.WarmSlots.{WarmSlots};

use crate::part::HallPart;
use crate::shared_pool::{PoolHall, SharedPool};
use pool_alloc::{resident_in, warm_in};
use pool_hall::{HallSeat, PartCall, SlotKind};
use pool_pages::{PageMaker, Pages};
use pool_slots::{Allocator, GcHeap, Plan};
use std::sync::Wait;

/// How many slots are warm, and how many bytes they keep resident.
#[derive(Clone, Copy, Debug, PartialEq, Eq)]
pub struct WarmSlots {
    pub slots: u32,
    pub bytes_resident: usize,
}

impl WarmSlots {
    // Both numbers stand still at the end of their type.
    fn plus(self, other: WarmSlots) -> WarmSlots
        ensures slots { result.slots ≡ min (self.slots + other.slots) (2 ^ 32 - 1) }
        ensures bytes { result.bytes_resident ≡ min (self.bytes_resident + other.bytes_resident) (2 ^ 64 - 1) }
    {
        WarmSlots {
            slots: self.slots.saturating_add(other.slots),
            bytes_resident: self.bytes_resident.saturating_add(other.bytes_resident),
        }
    }
}

// Reads the numbers of a part's warm slots of a kind.
#[derive(Drop)]
struct ReadWarm {
    kind: SlotKind,
}

impl<P: Pages, H: GcHeap, M: PageMaker> PartCall<HallPart<P, H, M>> for ReadWarm {
    ghost use Rattle.std.specs.Prelude.{◌≡◌};
    ghost use Rattle.pool_alloc.specs.PoolTotals.{resident_in, warm_in};
    ghost use Rattle.pool_driver.specs.Origins.{inner_of};

    type Answer = WarmSlots;

    ghost needs = { λ c x. Unit {0} };

    ghost does = { λ c x seen d y. (y ≡ x) × (seen.slots ≡ warm_in c.kind (inner_of x)) × (seen.bytes_resident ≡ resident_in c.kind (inner_of x)) };

    fn call(&mut self, part: &mut HallPart<P, H, M>) -> WarmSlots {
        WarmSlots {
            slots: warm_in(self.kind, &part.part),
            bytes_resident: resident_in(self.kind, &part.part),
        }
    }
}

impl<P: Pages, H: GcHeap, M: PageMaker> SharedPool<PoolHall<P, H, M>> {
    /// How many slots of a kind are warm, and how many bytes they keep resident. Waits for each shard of the kind, holds one at a time, and
    /// leaves it as it is. Each shard is counted at another moment; with one caller, as no clause says, all are as at one. The numbers
    /// stand still at the end of their types.
    pub fn warm_slots<R: Wait>(
        &self,
        rt: &R,
        seat: &mut HallSeat<HallPart<P, H, M>>,
        kind: SlotKind,
    ) -> WarmSlots
        ghost about: { About }
        requires pool { IsSharedOf M.told about self.now }
        requires own { IsSeatOf self.now.hall seat.old }
        requires free { IsFree seat.old }
        ensures own { IsSeatOf self.now.hall seat.new }
        ensures free { IsFree seat.new }
        ensures looked { HasLooked (view seat.old) (view seat.new) }
        ensures driven { (g : Given) (f : Frame P H) (o : Option (Outcome P H)) → IsDriven (length (made_with self.now.hall)) g (view seat.old) f o → IsDriven (length (made_with self.now.hall)) g (view seat.new) f o }
        ensures counted { IsCounted (pool_meaning (about_of M.told) inner_of) inner_of (made_with self.now.hall) (limits_of self.now.hall) (view seat.old) kind (allocators_of about.plan kind) result }
        ensures few { result.slots ≤ slots_of_kind about.plan kind }
    {
        self.look_at_all(rt, seat, kind, allocators_of(&self.plan, kind))
    }

    /// The numbers of the part at a place: how many slots of a kind are warm there, and how many bytes they keep resident; 0 for a part that is
    /// no shard of the kind. Waits for the part, and leaves it as it is.
    pub fn look_at<R: Wait>(
        &self,
        rt: &R,
        seat: &mut HallSeat<HallPart<P, H, M>>,
        kind: SlotKind,
        place: u32,
    ) -> WarmSlots
        requires own { IsSeatOf self.now.hall seat.old }
        requires free { IsFree seat.old }
        requires place { place < length (made_with self.now.hall) }
        ensures own { IsSeatOf self.now.hall seat.new }
        ensures free { IsFree seat.new }
        ensures looked { HasLooked (view seat.old) (view seat.new) }
        ensures part { AreNumbersAt (pool_meaning (about_of M.told) inner_of) inner_of (made_with self.now.hall) (limits_of self.now.hall) (view seat.old) kind place result }
    {
        self.hall.hold(rt, seat, place, &mut ReadWarm { kind })
    }

    // The numbers of all shards of these allocators together.
    fn look_at_all<R: Wait>(
        &self,
        rt: &R,
        seat: &mut HallSeat<HallPart<P, H, M>>,
        kind: SlotKind,
        allocators: &[Allocator],
    ) -> WarmSlots
        ghost about: { About }
        requires pool { IsSharedOf M.told about self.now }
        requires own { IsSeatOf self.now.hall seat.old }
        requires free { IsFree seat.old }
        requires shards { AllByRecursion (HasItsShards about.plan) allocators.now }
        ensures own { IsSeatOf self.now.hall seat.new }
        ensures free { IsFree seat.new }
        ensures looked { HasLooked (view seat.old) (view seat.new) }
        ensures counted { IsCounted (pool_meaning (about_of M.told) inner_of) inner_of (made_with self.now.hall) (limits_of self.now.hall) (view seat.old) kind allocators.now result }
        ensures few { result.slots ≤ slots_among allocators.now }
    {
        let mut sum = WarmSlots {
            slots: 0,
            bytes_resident: 0,
        };
        for number in 0..allocators.len() {
            let allocator = allocator_at(allocators, number);
            let seen = self.look_at_shards(rt, seat, kind, allocator);
            sum = sum.plus(seen);
        }
        sum
    }

    // The numbers of an allocator's shards together.
    fn look_at_shards<R: Wait>(
        &self,
        rt: &R,
        seat: &mut HallSeat<HallPart<P, H, M>>,
        kind: SlotKind,
        allocator: Allocator,
    ) -> WarmSlots
        ghost about: { About }
        requires pool { IsSharedOf M.told about self.now }
        requires own { IsSeatOf self.now.hall seat.old }
        requires free { IsFree seat.old }
        requires shards { HasItsShards about.plan allocator }
        ensures own { IsSeatOf self.now.hall seat.new }
        ensures free { IsFree seat.new }
        ensures looked { HasLooked (view seat.old) (view seat.new) }
        ensures counted { (seen : List WarmSlots) × (AreOfShards (pool_meaning (about_of M.told) inner_of) inner_of (made_with self.now.hall) (limits_of self.now.hall) (view seat.old) kind allocator seen × IsSumOf seen result) }
        ensures few { result.slots ≤ allocator.capacity }
    {
        let mut sum = WarmSlots {
            slots: 0,
            bytes_resident: 0,
        };
        for shard in 0..allocator.shards {
            let seen = self.look_at_shard(rt, seat, kind, allocator, shard);
            sum = sum.plus(seen);
        }
        sum
    }

    // The numbers of one of them.
    fn look_at_shard<R: Wait>(
        &self,
        rt: &R,
        seat: &mut HallSeat<HallPart<P, H, M>>,
        kind: SlotKind,
        allocator: Allocator,
        shard: u32,
    ) -> WarmSlots
        ghost about: { About }
        requires pool { IsSharedOf M.told about self.now }
        requires own { IsSeatOf self.now.hall seat.old }
        requires free { IsFree seat.old }
        requires role { role_at about.plan (allocator.first_place + shard) ≡ shard_role allocator shard }
        ensures own { IsSeatOf self.now.hall seat.new }
        ensures free { IsFree seat.new }
        ensures looked { HasLooked (view seat.old) (view seat.new) }
        ensures part { AreNumbersAt (pool_meaning (about_of M.told) inner_of) inner_of (made_with self.now.hall) (limits_of self.now.hall) (view seat.old) kind (allocator.first_place + shard) result }
        ensures few { result.slots ≤ slots_at allocator shard }
    {
        self.look_at(rt, seat, kind, allocator.first_place + shard)
    }
}

// The allocators of a kind.
fn allocators_of(plan: &Plan, kind: SlotKind) -> &[Allocator]
    ensures { result.now ≡ allocators_of plan.now kind }
{
    match kind {
        SlotKind::Memory => plan.memories.as_slice(),
        SlotKind::Table => plan.tables.as_slice(),
        SlotKind::Stack => plan.stacks.as_slice(),
        SlotKind::Heap => plan.heaps.as_slice(),
    }
}

fn allocator_at(allocators: &[Allocator], number: usize) -> Allocator
    requires { number < length allocators.now }
    ensures { (d : Allocator) → result ≡ slice_index_or allocators.now number d }
{
    allocators[number]
}
