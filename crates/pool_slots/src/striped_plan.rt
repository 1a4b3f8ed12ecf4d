ghost use Rattle.std.specs.Prelude.{◌≡◌, ◌^◌, ◌<◌, length, IfOk};
ghost use Rattle.std.specs.List.{AllByRecursion};
ghost use Rattle.pool_hall.specs.declared.unit_name.SlotKind.{SlotKind};
ghost use Rattle.pool_index.specs.Layout.{slots_per_shard};
ghost use Rattle.pool_slots.specs.SlotNames.{of_kind};
ghost use Rattle.pool_slots.specs.Plans.{allocators_of, home_of, IsPlacedAllocator, IsPlanned, IsAtHome};
ghost use Rattle.pool_slots.specs.PlansMade.{places_planned};
ghost use Rattle.pool_slots.specs.StripedPlans.{shards_for, stripe_slots, shards_before, stripe_allocator, stripe_allocators, divided, IsStripedPlanOf, FollowInStripes};
ghost use Rattle.pool_slots.specs.declared.slot_name.SlotName.{SlotName};

use crate::plan::{Allocator, Plan};
use crate::plan_maker::{PlanSettings, lay_out};
use crate::slot_name::OfKinds;
use pool_index::{ShardLayout, SlotKind};
use pool_types::PlainList;
use std::alloc::{AllocError, Global};

/// How many slots of each kind a pool has, and in how many stripes its memories lie.
#[derive(Clone, Copy, Debug, PartialEq, Eq)]
pub struct StripedPlanSettings {
    pub totals: OfKinds,
    pub num_stripes: u32,
    /// About how many shards the slots of each allocator are divided among.
    pub requested_shards: u32,
    pub queues: u32,
}

/// The plan of a pool with one allocator for each stripe, and one for each other kind of slot. It can't be made where no
/// memory is to be had, nor where the pool would have 2^32 parts or more.
pub fn make_striped_plan(alloc: Global, settings: &StripedPlanSettings) -> Result<Plan, AllocError>
    requires { 0 < settings.now.num_stripes }
    ensures plan { IfOk result (IsStripedPlanOf settings.now) }
    ensures planned { IfOk result (λ plan. IsPlanned plan (places_planned (divided settings.now))) }
    ensures bounded { IfOk result (λ plan. places_planned (divided settings.now) < 2 ^ 32) }
    ensures placed { IfOk result (λ plan. (kind : SlotKind) → AllByRecursion IsPlacedAllocator (allocators_of plan kind)) }
    ensures at_home { IfOk result (λ plan. (name : SlotName) → name.slot < of_kind name.kind settings.now.totals → IsAtHome plan name (home_of plan name)) }
    ensures follow { IfOk result (FollowInStripes settings.now) }
{
    let (memories, shards) = settings.stripe_allocators(alloc)?;
    let divided = settings.divided(alloc, shards)?;
    if divided.places() > u32::MAX as u64 {
        return Err(AllocError);
    }
    lay_out(alloc, &divided, memories)
}

impl StripedPlanSettings {
    // The allocator of each stripe, and the number of their shards.
    #[tactic(auto, using(crate::proofs::StripedPlans::one_more, crate::proofs::StripedPlans::shards_more))]
    fn stripe_allocators(&self, alloc: Global) -> Result<(PlainList<Allocator>, u32), AllocError>
        requires { 0 < self.now.num_stripes }
        ensures list { IfOk result (λ p. p.0 ≡ stripe_allocators self.now) }
        ensures shards { IfOk result (λ p. p.1 ≡ shards_before self.now self.now.num_stripes) }
    {
        let mut list = Vec::with_capacity(alloc, self.num_stripes as usize)?;
        let mut place: u32 = 0;
        for stripe in 0..self.num_stripes {
            let allocator = self.stripe_allocator(alloc, stripe, place)?;
            list.push(allocator)?;
            let Some(next) = place.checked_add(allocator.shards) else {
                return Err(AllocError);
            };
            place = next;
        }
        Ok((PlainList::from_vec(list), place))
    }

    // The allocator of a stripe, whose first shard has this place.
    fn stripe_allocator(
        &self,
        alloc: Global,
        stripe: u32,
        place: u32,
    ) -> Result<Allocator, AllocError>
        requires some { 0 < self.now.num_stripes }
        requires place { place ≡ shards_before self.now stripe }
        ensures { IfOk result (λ a. a ≡ stripe_allocator self.now stripe) }
    {
        let capacity = self
            .totals
            .memory
            .saturating_sub(stripe)
            .div_ceil(self.num_stripes);
        let (slots_per_shard, shards) = divide(alloc, capacity, self.requested_shards)?;
        Ok(Allocator {
            kind: SlotKind::Memory,
            first_place: place,
            shards,
            slots_per_shard,
            first: stripe,
            step: self.num_stripes,
            capacity,
        })
    }

    // How the slots of each kind are divided, where the stripes have so many shards.
    fn divided(&self, alloc: Global, shards: u32) -> Result<PlanSettings, AllocError>
        requires some { 0 < self.now.num_stripes }
        requires shards { shards ≡ shards_before self.now self.now.num_stripes }
        ensures { IfOk result (λ s. s ≡ divided self.now) }
    {
        let first = self.totals.memory.div_ceil(self.num_stripes);
        let memory = divide(alloc, first, self.requested_shards)?;
        let table = divide(alloc, self.totals.table, self.requested_shards)?;
        let stack = divide(alloc, self.totals.stack, self.requested_shards)?;
        let heap = divide(alloc, self.totals.heap, self.requested_shards)?;
        Ok(PlanSettings {
            totals: self.totals,
            shards: OfKinds {
                memory: shards,
                table: table.1,
                stack: stack.1,
                heap: heap.1,
            },
            slots_per_shard: OfKinds {
                memory: memory.0,
                table: table.0,
                stack: stack.0,
                heap: heap.0,
            },
            queues: self.queues,
        })
    }
}

// Of how many slots each shard but the last is, and how many shards so many slots have.
#[tactic(auto, using(crate::proofs::StripedPlans::shards_listed, crate::proofs::StripedPlans::few_shards))]
fn divide(alloc: Global, capacity: u32, requested: u32) -> Result<(u32, u32), AllocError>
    ensures slots { IfOk result (λ p. p.0 ≡ slots_per_shard capacity requested) }
    ensures shards { IfOk result (λ p. p.1 ≡ shards_for capacity requested) }
{
    let layout = ShardLayout::new(alloc, capacity, 0, requested)?;
    let shards = layout.shards.len();
    Ok((layout.slots_per_shard, shards as u32))
}
