//! How many steps calls and commands take at most, as numbers that a caller can compute.
ghost use Rattle.std.specs.Prelude.{◌≡◌, ◌+◌, ◌*◌, max, slice_index_or, sum_by, IfSome};
ghost use Rattle.pool_alloc.specs.StepBounds.{PoolSizes, all_shards, all_slots, flushed_allocators, most_shards, return_bound, searched_allocators, sizes_of};
ghost use Rattle.pool_alloc.specs.StepReads.{no_module};
ghost use Rattle.pool_run.specs.Acts.{act_at};
ghost use Rattle.pool_run.specs.AtOnce.{given_wanted};
ghost use Rattle.pool_run.specs.Bounds.{bounds_on, command_bound, module_objects, objects_granted, objects_requested, request_bound};

use crate::act::{Act, Wanted, act_of};
use crate::command::Command;
use pool_alloc::Settings;
use pool_index::SlotKind;
use pool_slots::{Allocator, Plan};
use pool_types::ModuleInfo;

/// How many steps the parts of a call take at most, on one pool. What a command takes at most is made of these and of how many objects it
/// is for.
#[derive(Clone, Copy, Debug, PartialEq, Eq)]
pub struct StepBounds {
    /// A flush of a queue.
    pub flush: u64,
    /// One object is searched for, with the flushes that this may need, and made.
    pub allocation: u64,
    /// One object is given back.
    pub give_back: u64,
    /// A module is purged.
    pub purge: u64,
    /// What warm slots keep resident is released.
    pub release: u64,
}

impl StepBounds {
    /// The bounds of a pool with these settings and this plan. None only where a number on the way is above 2^64 - 1.
    pub fn of(settings: &Settings, plan: &Plan) -> Option<Self>
        ensures { IfSome result (λ b. b ≡ bounds_on (sizes_of settings.now plan.now)) }
    {
        let shards = shards_searched(plan) as u64;
        let flush = flush_bound(plan)?;
        let allocation = allocation_bound(plan.queues_for(SlotKind::Memory) as u64, shards, flush)?;
        let purge = over_stripes(plan.memories.as_slice(), shards + 4, shards)?;
        let release = over_stripes(plan.memories.as_slice(), 4, shards)?;
        Some(StepBounds {
            flush,
            allocation,
            give_back: flush.checked_add(4)?,
            purge: purge
                .checked_mul(settings.max_memories_per_module as u64)?
                .checked_add(1)?,
            release: release.checked_add(1)?,
        })
    }

    /// At most how many steps command `n` of these takes, from its first to its reply, whatever others do between; a party's first command
    /// takes one more, in which the party draws its stripe. None where there is no such command, or a number on the way is above 2^64 - 1.
    pub fn of_command(&self, modules: &[ModuleInfo], commands: &[Command], n: usize) -> Option<u64>
        ghost z: { PoolSizes }
        requires { self.now ≡ bounds_on z }
        ensures { IfSome result (λ b. b ≡ command_bound z modules.now commands.now n) }
    {
        let command = commands.get(n)?;
        match act_of(command) {
            Act::Request(wanted) => self.of_request(modules, &wanted),
            Act::OnMemory { .. } | Act::OnTable { .. } => Some(1),
            Act::Drop { of } => self.of_return(objects_granted(modules, commands, of)?),
            Act::Purge { .. } => Some(self.purge),
            Act::Release => Some(self.release),
        }
    }
}

impl StepBounds {
    // At most how many steps a request takes.
    fn of_request(&self, modules: &[ModuleInfo], wanted: &Wanted) -> Option<u64>
        ghost z: { PoolSizes }
        requires { self.now ≡ bounds_on z }
        ensures { IfSome result (λ b. b ≡ request_bound z modules.now (given_wanted wanted.now)) }
    {
        let object = self.allocation.checked_add(self.give_back)?;
        match wanted {
            Wanted::Instance { module } => {
                object
                    .checked_mul(module_objects(modules, *module)?)?
                    .checked_add(3)
            }
            Wanted::Component(_) => Some(3),
            Wanted::Stack => self.allocation.checked_add(1),
            Wanted::Heap(_) => object.checked_mul(2)?.checked_add(1),
        }
    }

    // At most how many steps it takes to give so many objects back.
    fn of_return(&self, objects: u64) -> Option<u64>
        ghost z: { PoolSizes }
        requires { self.now ≡ bounds_on z }
        ensures { IfSome result (λ b. b ≡ return_bound z objects) }
    {
        self.give_back.checked_mul(objects)?.checked_add(1)
    }
}

// How many objects the grant of command `of` has, where it is granted one.
fn objects_granted(modules: &[ModuleInfo], commands: &[Command], of: usize) -> Option<u64>
    ensures { IfSome result (λ n. n ≡ objects_granted modules.now (act_at commands.now of)) }
{
    match commands.get(of) {
        None => Some(0),
        Some(command) => match act_of(command) {
            Act::Request(wanted) => objects_requested(modules, &wanted),
            _ => Some(0),
        },
    }
}

// For how many objects a request is.
fn objects_requested(modules: &[ModuleInfo], wanted: &Wanted) -> Option<u64>
    ensures { IfSome result (λ n. n ≡ objects_requested modules.now (given_wanted wanted.now)) }
{
    match wanted {
        Wanted::Instance { module } => module_objects(modules, *module),
        Wanted::Component(_) => Some(0),
        Wanted::Stack => Some(1),
        Wanted::Heap(_) => Some(2),
    }
}

// How many memories and tables the module with this number has.
fn module_objects(modules: &[ModuleInfo], number: usize) -> Option<u64>
    ensures { IfSome result (λ n. n ≡ module_objects (slice_index_or modules.now number no_module)) }
{
    match modules.get(number) {
        None => Some(0),
        Some(module) => (module.memories.len() as u64).checked_add(module.tables.len() as u64),
    }
}

// The most shards of one allocator of the pool.
fn shards_searched(plan: &Plan) -> u32
    ensures { result ≡ most_shards (searched_allocators plan.now) }
{
    let memories = most_shards(plan.memories.as_slice(), 0);
    let tables = most_shards(plan.tables.as_slice(), memories);
    let stacks = most_shards(plan.stacks.as_slice(), tables);
    most_shards(plan.heaps.as_slice(), stacks)
}

// At most how many steps a flush takes, with the one that begins it.
fn flush_bound(plan: &Plan) -> Option<u64>
    ensures { IfSome result (λ n. n ≡ 1 + 3 * all_slots plan.now + all_shards (flushed_allocators plan.now)) }
{
    let totals = &plan.totals;
    let slots = totals.memory as u64 + totals.table as u64 + totals.stack as u64;
    let memories = add_shards(plan.memories.as_slice(), 3 * slots + 1)?;
    let tables = add_shards(plan.tables.as_slice(), memories)?;
    add_shards(plan.stacks.as_slice(), tables)
}

// At most how many steps it takes to search for one object through so many queues and shards, and to make it.
fn allocation_bound(queues: u64, shards: u64, flush: u64) -> Option<u64>
    ensures { IfSome result (λ n. n ≡ (queues + 1) * shards + queues * flush + 8) }
{
    let rounds = queues.checked_add(1)?.checked_mul(shards)?;
    let flushes = queues.checked_mul(flush)?;
    rounds.checked_add(flushes)?.checked_add(8)
}

// The greater of a number and of how many shards one of the allocators has.
#[tactic(auto, using(crate::proofs::BoundsFound::most_more))]
fn most_shards(all: &[Allocator], least: u32) -> u32
    ensures { result ≡ max least (most_shards all.now) }
{
    let mut most = least;
    for allocator in all {
        most = most.max(allocator.shards);
    }
    most
}

// A number with how many shards the allocators have together.
#[tactic(auto, using(crate::proofs::BoundsFound::all_more))]
fn add_shards(all: &[Allocator], before: u64) -> Option<u64>
    ensures { IfSome result (λ n. n ≡ before + all_shards all.now) }
{
    let mut total = before;
    for allocator in all {
        total = total.checked_add(allocator.shards as u64)?;
    }
    Some(total)
}

// So much for each slot of these stripes, and so much for each stripe.
fn over_stripes(all: &[Allocator], slot: u64, stripe: u64) -> Option<u64>
    ensures { IfSome result (λ n. n ≡ sum_by (λ a. a.capacity * slot + stripe) all.now) }
{
    let mut total = 0;
    for allocator in all {
        let slots = slot.checked_mul(allocator.capacity as u64)?;
        total = slots.checked_add(stripe)?.checked_add(total)?;
    }
    Some(total)
}
