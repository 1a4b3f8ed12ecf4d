ghost use Rattle.std.specs.Prelude.{◌≡◌, ◌+◌, ◌*◌, ◌^◌, ◌<◌, ◌++◌, map, false, IfOk, IfErr, IfSome, MatchResult};
ghost use Rattle.std.specs.List.{AllByRecursion, range_with_len};
ghost use Rattle.pool_hall.specs.declared.unit_name.SlotKind.{SlotKind};
ghost use Rattle.pool_hall.specs.declared.unit_name.SlotKind.TheVariants as of_slot;
ghost use Rattle.pool_index.specs.Layout.{budget_of};
ghost use Rattle.pool_index.specs.Shard.{IsShard};
ghost use Rattle.pool_slots.specs.Colourings.{RaisesUnlessGivenUp, RaisesBehindUnlessGivenUp};
ghost use Rattle.pool_slots.specs.Makings.{IsListedPoolFault};
ghost use Rattle.pool_slots.specs.PartsMade.{lists_some_making, fails_some_slot, SomeGivenUp, HaveGuards, warm_for, shard_made, shard_part, shard_parts, queue_made, heaps_parts, HasNumbers, HaveNumbers, AreMadeTo};
ghost use Rattle.pool_slots.specs.Plans.{allocators_of};
ghost use Rattle.pool_slots.specs.PlansMade.{shards_planned, queues_from, places_planned};
ghost use Rattle.pool_slots.specs.StripedPlans.{divided, IsStripedPlanOf};

use crate::decommit_queue::DecommitQueue;
use crate::errors::PoolNewError;
use crate::heap_list::HeapList;
use crate::heap_maker::GcHeap;
use crate::part::PoolPart;
use crate::plan::{Allocator, Plan, allocator_at};
use crate::slot_regions::{cell_part, make_slot_region};
use crate::striped_plan::StripedPlanSettings;
use pool_index::{Shard, SlotKind};
use pool_pages::{PageMaker, Pages};
use pool_types::{DecommitBehavior, HostAlignedByteCount};
use std::alloc::Global;

/// What the parts of a pool are made with.
#[derive(Clone, Copy, Debug, PartialEq, Eq)]
pub struct PartSettings {
    pub behaviour: DecommitBehavior,
    /// The length of a memory's region, of a table's, and of a stack's with its guard page.
    pub memory_len: HostAlignedByteCount,
    pub table_len: HostAlignedByteCount,
    pub stack_len: HostAlignedByteCount,
    /// How many slots of each stripe may be warm before a pick prefers a warm one.
    pub max_unused_warm_slots: u32,
    /// How many slots a queue has room for, and how many ranges.
    pub queue_room: usize,
}

/// The parts of a pool of this plan, by their places: the shards of each allocator, the cells of memories, tables and stacks
/// with their regions, the queues, and the list of heaps where there are heaps. The regions are made in the order of the cells, and the
/// first that can't be made, or not be given its colour or its guard, ends the making.
pub fn make_parts<P: Pages, H: GcHeap, M: PageMaker<Region = P>>(
    alloc: Global,
    maker: &mut M,
    plan: &Plan,
    numbers: &StripedPlanSettings,
    settings: &PartSettings,
) -> Result<Vec<PoolPart<P, H>>, PoolNewError>
    requires stripes { (0 < numbers.now.num_stripes) × (numbers.now.num_stripes < 256) }
    requires plan { IsStripedPlanOf numbers.now plan.now }
    requires guards { HaveGuards numbers.now settings.now }
    ensures made { IfOk result (λ v. AreMadeTo plan.now numbers.now.num_stripes (M.told maker.old) settings.now (places_planned (divided numbers.now)) v.items) }
    ensures maker { M.told maker.new ≡ record (M.told maker.old) { behind = (M.told maker.new).behind; faults = (M.told maker.new).faults } }
    ensures borrows { M.borrows maker.new ≡ M.borrows maker.old }
    ensures faults { MatchResult result (λ _. (M.told maker.new).faults ≡ (M.told maker.old).faults) (RaisesUnlessGivenUp (SomeGivenUp P.told numbers.now settings.now (M.told maker.old)) (M.told maker.old).faults (M.told maker.new).faults) }
    ensures listed { IfOk result (λ _. lists_some_making numbers.now.totals (M.told maker.old).listed ≡ false) }
    ensures behind { MatchResult result (λ _. (M.told maker.new).behind ≡ (M.told maker.old).behind) (RaisesBehindUnlessGivenUp (SomeGivenUp P.told numbers.now settings.now (M.told maker.old)) (lists_some_making numbers.now.totals (M.told maker.old).listed) (M.told maker.old).behind (M.told maker.new).behind) }
    ensures planned { MatchResult result (λ _. IfSome (M.told maker.old).plan (λ plan. fails_some_slot numbers.now settings.now plan ≡ false)) (λ e. IfSome (M.told maker.old).plan (λ plan. IsListedPoolFault (fails_some_slot numbers.now settings.now plan) e)) }
{
    let _memories = numbers.totals.memory;
    let _tables = numbers.totals.table;
    let _stacks = numbers.totals.stack;
    let _heaps = numbers.totals.heap;
    let parts = make_shards(alloc, plan, settings.max_unused_warm_slots)?;
    let parts = with_cells(alloc, parts, maker, plan, numbers, settings)?;
    let parts = with_queues(alloc, parts, plan.queues, settings.queue_room)?;
    with_heaps(alloc, parts, numbers.totals.heap)
}

// The parts with the cells of all slots behind them.
fn with_cells<P: Pages, H: GcHeap, M: PageMaker<Region = P>>(
    alloc: Global,
    parts: Vec<PoolPart<P, H>>,
    maker: &mut M,
    plan: &Plan,
    numbers: &StripedPlanSettings,
    settings: &PartSettings,
) -> Result<Vec<PoolPart<P, H>>, PoolNewError>
    requires stripes { (0 < numbers.now.num_stripes) × (numbers.now.num_stripes < 256) }
    requires plan { IsStripedPlanOf numbers.now plan.now }
    requires guards { HaveGuards numbers.now settings.now }
    requires shards { AreMadeTo plan.now numbers.now.num_stripes (M.told maker.old) settings.now (shards_planned (divided numbers.now)) parts.items }
    ensures made { IfOk result (λ v. AreMadeTo plan.now numbers.now.num_stripes (M.told maker.old) settings.now (queues_from (divided numbers.now)) v.items) }
    ensures maker { M.told maker.new ≡ record (M.told maker.old) { behind = (M.told maker.new).behind; faults = (M.told maker.new).faults } }
    ensures borrows { M.borrows maker.new ≡ M.borrows maker.old }
    ensures faults { MatchResult result (λ _. (M.told maker.new).faults ≡ (M.told maker.old).faults) (RaisesUnlessGivenUp (SomeGivenUp P.told numbers.now settings.now (M.told maker.old)) (M.told maker.old).faults (M.told maker.new).faults) }
    ensures listed { IfOk result (λ _. lists_some_making numbers.now.totals (M.told maker.old).listed ≡ false) }
    ensures behind { MatchResult result (λ _. (M.told maker.new).behind ≡ (M.told maker.old).behind) (RaisesBehindUnlessGivenUp (SomeGivenUp P.told numbers.now settings.now (M.told maker.old)) (lists_some_making numbers.now.totals (M.told maker.old).listed) (M.told maker.old).behind (M.told maker.new).behind) }
    ensures planned { MatchResult result (λ _. IfSome (M.told maker.old).plan (λ plan. fails_some_slot numbers.now settings.now plan ≡ false)) (λ e. IfSome (M.told maker.old).plan (λ plan. IsListedPoolFault (fails_some_slot numbers.now settings.now plan) e)) }
{
    let mut parts = parts;
    for number in 0..numbers.totals.region_count() {
        let (kind, slot) = numbers.totals.nth_region(number);
        let made = make_slot_region(alloc, maker, settings, numbers.num_stripes, kind, slot);
        let region = match made {
            Ok(region) => region,
            Err(refusal) => return Err(refusal),
        };
        let Ok(()) = parts.push(cell_part(kind, slot, region)) else {
            return Err(PoolNewError::Memory);
        };
    }
    Ok(parts)
}

// The shards of all allocators, by their places.
fn make_shards<P: Pages, H: GcHeap>(
    alloc: Global,
    plan: &Plan,
    warm: u32,
) -> Result<Vec<PoolPart<P, H>>, PoolNewError>
    requires fit { (kind : SlotKind) → AllByRecursion HaveNumbers (allocators_of plan.now kind) }
    ensures made { IfOk result (λ v. v.items ≡ ((shard_parts warm plan.now.memories ++ shard_parts warm plan.now.tables) ++ shard_parts warm plan.now.stacks) ++ shard_parts warm plan.now.heaps) }
    ensures memory { IfErr result (λ e. e ≡ PoolNewError.Memory) }
{
    let parts = Vec::new(alloc);
    let parts = with_shards(alloc, parts, plan.memories.as_slice(), warm)?;
    let parts = with_shards(alloc, parts, plan.tables.as_slice(), warm)?;
    let parts = with_shards(alloc, parts, plan.stacks.as_slice(), warm)?;
    with_shards(alloc, parts, plan.heaps.as_slice(), warm)
}

// The parts with the shards of these allocators behind them.
fn with_shards<P: Pages, H: GcHeap>(
    alloc: Global,
    parts: Vec<PoolPart<P, H>>,
    allocators: &[Allocator],
    warm: u32,
) -> Result<Vec<PoolPart<P, H>>, PoolNewError>
    requires { AllByRecursion HaveNumbers allocators.now }
    ensures made { IfOk result (λ v. v.items ≡ parts.items ++ shard_parts warm allocators.now) }
    ensures memory { IfErr result (λ e. e ≡ PoolNewError.Memory) }
{
    let mut parts = parts;
    for at in 0..allocators.len() {
        let allocator = allocator_at(allocators, at);
        parts = with_shards_of(alloc, parts, allocator, warm)?;
    }
    Ok(parts)
}

// The parts with the shards of an allocator behind them.
#[tactic(auto, using(crate::proofs::PartsMade::shard_behind))]
fn with_shards_of<P: Pages, H: GcHeap>(
    alloc: Global,
    parts: Vec<PoolPart<P, H>>,
    allocator: Allocator,
    warm: u32,
) -> Result<Vec<PoolPart<P, H>>, PoolNewError>
    requires { HaveNumbers allocator }
    ensures made { IfOk result (λ v. v.items ≡ parts.items ++ map (shard_part warm allocator) (range_with_len 0 allocator.shards)) }
    ensures memory { IfErr result (λ e. e ≡ PoolNewError.Memory) }
{
    let mut parts = parts;
    for shard in 0..allocator.shards {
        let made = make_shard(alloc, allocator, warm, shard)?;
        let Ok(()) = parts.push(PoolPart::Shard(made)) else {
            return Err(PoolNewError::Memory);
        };
    }
    Ok(parts)
}

fn make_shard(
    alloc: Global,
    allocator: Allocator,
    warm: u32,
    shard: u32,
) -> Result<Shard, PoolNewError>
    requires inside { shard < allocator.shards }
    requires numbers { HasNumbers allocator shard }
    ensures made { IfOk result (λ x. x ≡ shard_made warm allocator shard) }
    ensures sound { IfOk result IsShard }
    ensures memory { IfErr result (λ e. e ≡ PoolNewError.Memory) }
{
    let before = shard as u64 * allocator.slots_per_shard as u64;
    let rest = (allocator.capacity as u64).saturating_sub(before);
    let slots = rest.min(allocator.slots_per_shard as u64) as u32;
    let first = (allocator.first as u64 + before * allocator.step as u64) as u32;
    let budget = warm_share(warm_for(allocator.kind, warm), allocator.shards, shard);
    match Shard::new(alloc, allocator.kind, first, allocator.step, slots, budget) {
        Ok(shard) => Ok(shard),
        Err(_) => Err(PoolNewError::Memory),
    }
}

// Only memories are kept warm.
fn warm_for(kind: SlotKind, warm: u32) -> u32
    ensures { result ≡ warm_for kind warm }
{
    match kind {
        SlotKind::Memory => warm,
        SlotKind::Table | SlotKind::Stack | SlotKind::Heap => 0,
    }
}

// The share of a shard in the warm slots.
fn warm_share(warm: u32, shards: u32, shard: u32) -> u32
    requires { shard < shards }
    ensures { result ≡ budget_of warm shards shard }
{
    let extra = if shard < warm % shards { 1 } else { 0 };
    warm / shards + extra
}

// The parts with so many empty queues behind them.
#[tactic(auto, using(crate::proofs::PartsMade::queue_behind))]
fn with_queues<P: Pages, H: GcHeap>(
    alloc: Global,
    parts: Vec<PoolPart<P, H>>,
    queues: u32,
    room: usize,
) -> Result<Vec<PoolPart<P, H>>, PoolNewError>
    ensures made { IfOk result (λ v. v.items ≡ parts.items ++ map (queue_made room) (range_with_len 0 queues)) }
    ensures memory { IfErr result (λ e. e ≡ PoolNewError.Memory) }
{
    let mut parts = parts;
    for _queue in 0..queues {
        let Ok(queue) = DecommitQueue::new(alloc, room, room) else {
            return Err(PoolNewError::Memory);
        };
        let Ok(()) = parts.push(PoolPart::Queue(queue)) else {
            return Err(PoolNewError::Memory);
        };
    }
    Ok(parts)
}

// The parts with the list of so many heaps behind them, where there are heaps.
#[tactic(auto, using(crate::proofs::PartsMade::no_list, crate::proofs::PartsMade::list_behind))]
fn with_heaps<P: Pages, H: GcHeap>(
    alloc: Global,
    parts: Vec<PoolPart<P, H>>,
    total: u32,
) -> Result<Vec<PoolPart<P, H>>, PoolNewError>
    ensures made { IfOk result (λ v. v.items ≡ parts.items ++ heaps_parts total) }
    ensures memory { IfErr result (λ e. e ≡ PoolNewError.Memory) }
{
    if total == 0 {
        return Ok(parts);
    }
    let mut parts = parts;
    let Ok(heaps) = HeapList::new(alloc, total) else {
        return Err(PoolNewError::Memory);
    };
    let Ok(()) = parts.push(PoolPart::Heaps(heaps)) else {
        return Err(PoolNewError::Memory);
    };
    Ok(parts)
}
