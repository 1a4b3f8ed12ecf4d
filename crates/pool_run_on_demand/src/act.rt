ghost use Rattle.std.specs.Prelude.{◌≡◌, ◌<◌, [], ◌∷◌, All, length, slice_get, slice_index_or, slice_set, None, Some};
ghost use Rattle.pool_limits.specs.Growth.{GrowthRule};
ghost use Rattle.pool_memory.specs.Creators.{IsSameMaker};
ghost use Rattle.pool_memory.specs.MemoryStates.{state_of};
ghost use Rattle.pool_run.specs.AtOnce.{given_op, MovesOnly};
ghost use Rattle.pool_run.specs.Objects.{MovesNamed};
ghost use Rattle.pool_run_on_demand.specs.OnDemand.{BytesOnDemand, MovesOnDemand};
ghost use Rattle.pool_run_on_demand.specs.Left.{MemorySpends, LeasesSpend, GrantSpends, LiveSpends};
ghost use Rattle.pool_run_on_demand.specs.Seen.{seen_made, seen_grant, grants_made, IsHeld, IsHeldInstance, IsHeldGrant, AreLive, BytesOfGrant, GrowsByRule, LeaseMovesOnDemand, PutsBack, with_memory};
ghost use Rattle.pool_run.specs.PartyRules.{rule_of};
ghost use Rattle.pool_run.specs.Private.{IsRead, grant_at, stack_grant};
ghost use Rattle.pool_run.specs.Turns.{seen_as, seen_stack};

use crate::grant::OnDemandGrant;
use pool_limits::{GrowFault, Unlimited};
use pool_memory::{LinearMemory, Memory, RuntimeLinearMemory};
use pool_on_demand::{OnDemandInstance, OnDemandMemory, OnDemandStack};
use pool_pages::{PageMaker, Pages};
use pool_run::{
    MemoryOp, PartyLimits, Refusal, Reply, act_on_stack, growth_reply, limiter_of, write_reply,
    zeros,
};
use pool_slots::AllocError as Cause;
use pool_types::{ByteList, PlainList};
use std::alloc::Global;

// Does something with memory `memory` of the grant of command `of`, or with its stack, which is its memory 0. A memory grows
// under these limits, and moves to a region of this maker's.
pub(crate) fn act_on_demand<M: PageMaker>(
    alloc: Global,
    maker: &mut M,
    live: &mut Vec<Option<OnDemandGrant<M, LinearMemory<M::Region>, M::Region>>>,
    of: usize,
    memory: usize,
    op: &MemoryOp,
    limits: Option<PartyLimits>,
) -> Reply
    requires held { AreLive (M.told maker.old).tells live.old.items }
    ensures moves { BytesOnDemand (given_op op.now) (rule_of limits) (grant_at (grants_made (M.told maker.old).tells live.old.items) of) of memory (grants_made (M.told maker.old).tells live.old.items) result (grants_made (M.told maker.old).tells live.new.items) }
    ensures held { AreLive (M.told maker.old).tells live.new.items }
    ensures places { length live.new.items ≡ length live.old.items }
    ensures maker { IsSameMaker (M.told maker.old) (M.told maker.new) }
    ensures spends { LiveSpends (M.told maker.old).tells (given_op op.now) (rule_of limits) (M.told maker.old) (M.told maker.new) of memory live.old.items live.new.items result }
    ensures borrows { M.borrows maker.new ≡ M.borrows maker.old }
{
    match take_from(live, of) {
        None => Reply::Refused(Refusal::NoSuchGrant),
        Some(grant) => act_on_taken(alloc, maker, live, of, grant, memory, op, limits),
    }
}

// Takes out what is in a place.
pub(crate) fn take_from<T>(places: &mut Vec<Option<T>>, of: usize) -> Option<T>
    ensures value { result ≡ slice_index_or places.old.items of None }
    ensures rest { places.new.items ≡ slice_set places.old.items of None }
{
    if of < places.len() {
        places[of].take()
    } else {
        None
    }
}

// Acts on a grant that was taken out of its place, and puts it back.
fn act_on_taken<M: PageMaker>(
    alloc: Global,
    maker: &mut M,
    live: &mut Vec<Option<OnDemandGrant<M, LinearMemory<M::Region>, M::Region>>>,
    of: usize,
    grant: OnDemandGrant<M, LinearMemory<M::Region>, M::Region>,
    memory: usize,
    op: &MemoryOp,
    limits: Option<PartyLimits>,
) -> Reply
    requires place { of < length live.old.items }
    requires grant { IsHeldGrant (M.told maker.old).tells grant }
    requires held { AreLive (M.told maker.old).tells live.old.items }
    ensures moves { PutsBack (BytesOfGrant (given_op op.now) (rule_of limits) memory) (M.told maker.old).tells of grant live.old.items result live.new.items }
    ensures held { AreLive (M.told maker.old).tells live.new.items }
    ensures places { length live.new.items ≡ length live.old.items }
    ensures maker { IsSameMaker (M.told maker.old) (M.told maker.new) }
    ensures spends { LiveSpends (M.told maker.old).tells (given_op op.now) (rule_of limits) (M.told maker.old) (M.told maker.new) of memory (slice_set live.old.items of (Some grant)) live.new.items result }
    ensures borrows { M.borrows maker.new ≡ M.borrows maker.old }
{
    let (grant, reply) = act_on_grant(alloc, maker, grant, memory, op, limits);
    live[of] = Some(grant);
    reply
}

fn act_on_grant<M: PageMaker>(
    alloc: Global,
    maker: &mut M,
    grant: OnDemandGrant<M, LinearMemory<M::Region>, M::Region>,
    memory: usize,
    op: &MemoryOp,
    limits: Option<PartyLimits>,
) -> (OnDemandGrant<M, LinearMemory<M::Region>, M::Region>, Reply)
    requires held { IsHeldGrant (M.told maker.old).tells grant }
    ensures moves { BytesOfGrant (given_op op.now) (rule_of limits) memory (seen_grant (M.told maker.old).tells grant) result.1 (seen_grant (M.told maker.old).tells result.0) }
    ensures held { IsHeldGrant (M.told maker.old).tells result.0 }
    ensures maker { IsSameMaker (M.told maker.old) (M.told maker.new) }
    ensures spends { GrantSpends (M.told maker.old).tells (given_op op.now) (rule_of limits) (M.told maker.old) (M.told maker.new) memory grant result.0 result.1 }
    ensures borrows { M.borrows maker.new ≡ M.borrows maker.old }
{
    match grant {
        OnDemandGrant::Instance(instance) => {
            let (instance, reply) = act_on_instance(alloc, maker, instance, memory, op, limits);
            (OnDemandGrant::Instance(instance), reply)
        }
        OnDemandGrant::Component => {
            (
                OnDemandGrant::Component,
                Reply::Refused(Refusal::NoSuchGrant),
            )
        }
        OnDemandGrant::Stack(lease) => {
            let (lease, reply) = act_on_lease(alloc, lease, memory, op);
            (OnDemandGrant::Stack(lease), reply)
        }
        OnDemandGrant::Heap(heap, lease) => {
            let (lease, reply) = act_on_heap(alloc, maker, lease, memory, op, limits);
            (OnDemandGrant::Heap(heap, lease), reply)
        }
    }
}

// Does something with a heap's memory, which is memory 0 of its grant.
fn act_on_heap<M: PageMaker>(
    alloc: Global,
    maker: &mut M,
    lease: OnDemandMemory<M, LinearMemory<M::Region>>,
    memory: usize,
    op: &MemoryOp,
    limits: Option<PartyLimits>,
) -> (OnDemandMemory<M, LinearMemory<M::Region>>, Reply)
    requires held { IsHeld (M.told maker.old).tells (state_of lease.memory) }
    ensures moves { MovesOnly (LeaseMovesOnDemand (M.told maker.old).tells (given_op op.now) (rule_of limits)) memory lease result.1 result.0 }
    ensures held { IsHeld (M.told maker.old).tells (state_of result.0.memory) }
    ensures maker { IsSameMaker (M.told maker.old) (M.told maker.new) }
    ensures spends { LeasesSpend (M.told maker.old).tells (given_op op.now) (rule_of limits) (M.told maker.old) (M.told maker.new) memory (lease ∷ []) (result.0 ∷ []) result.1 }
    ensures borrows { M.borrows maker.new ≡ M.borrows maker.old }
{
    if memory > 0 {
        return (lease, Reply::Refused(Refusal::NoSuchGrant));
    }
    let mut lease = lease;
    let reply = act_on_memory(alloc, maker, &mut lease.memory, op, limits);
    (lease, reply)
}

fn act_on_lease<P: Pages>(
    alloc: Global,
    lease: OnDemandStack<P>,
    memory: usize,
    op: &MemoryOp,
) -> (OnDemandStack<P>, Reply)
    ensures { (rule : GrowthRule) → BytesOfGrant (given_op op.now) rule memory (stack_grant (seen_stack lease.stack)) result.1 (stack_grant (seen_stack result.0.stack)) }
{
    let mut stack = lease.stack;
    // so that the prover knows that all of it can be reached
    let _len = stack.len();
    let reply = act_on_stack(alloc, &mut stack, memory, op);
    (OnDemandStack { stack }, reply)
}

fn act_on_instance<M: PageMaker>(
    alloc: Global,
    maker: &mut M,
    instance: OnDemandInstance<M, LinearMemory<M::Region>, M::Region>,
    memory: usize,
    op: &MemoryOp,
    limits: Option<PartyLimits>,
) -> (
    OnDemandInstance<M, LinearMemory<M::Region>, M::Region>,
    Reply,
)
    requires held { IsHeldInstance (M.told maker.old).tells instance }
    ensures moves { MovesNamed (LeaseMovesOnDemand (M.told maker.old).tells (given_op op.now) (rule_of limits)) (slice_get instance.memories memory) (with_memory memory) instance result.1 result.0 }
    ensures held { IsHeldInstance (M.told maker.old).tells result.0 }
    ensures maker { IsSameMaker (M.told maker.old) (M.told maker.new) }
    ensures spends { LeasesSpend (M.told maker.old).tells (given_op op.now) (rule_of limits) (M.told maker.old) (M.told maker.new) memory instance.memories result.0.memories result.1 }
    ensures borrows { M.borrows maker.new ≡ M.borrows maker.old }
{
    let OnDemandInstance { memories, tables } = instance;
    let mut memories = memories.into_vec();
    let reply = act_in_list(alloc, maker, &mut memories, memory, op, limits);
    let instance = OnDemandInstance {
        memories: PlainList::from_vec(memories),
        tables,
    };
    (instance, reply)
}

fn act_in_list<M: PageMaker>(
    alloc: Global,
    maker: &mut M,
    memories: &mut Vec<OnDemandMemory<M, LinearMemory<M::Region>>>,
    memory: usize,
    op: &MemoryOp,
    limits: Option<PartyLimits>,
) -> Reply
    requires held { All (λ l. IsHeld (M.told maker.old).tells (state_of l.memory)) memories.old.items }
    ensures moves { MovesNamed (LeaseMovesOnDemand (M.told maker.old).tells (given_op op.now) (rule_of limits)) (slice_get memories.old.items memory) (λ l ls. slice_set ls memory l) memories.old.items result memories.new.items }
    ensures held { All (λ l. IsHeld (M.told maker.old).tells (state_of l.memory)) memories.new.items }
    ensures maker { IsSameMaker (M.told maker.old) (M.told maker.new) }
    ensures spends { LeasesSpend (M.told maker.old).tells (given_op op.now) (rule_of limits) (M.told maker.old) (M.told maker.new) memory memories.old.items memories.new.items result }
    ensures borrows { M.borrows maker.new ≡ M.borrows maker.old }
{
    if memory >= memories.len() {
        return Reply::Refused(Refusal::NoSuchGrant);
    }
    act_on_memory(alloc, maker, &mut memories[memory].memory, op, limits)
}

fn act_on_memory<M: PageMaker>(
    alloc: Global,
    maker: &mut M,
    memory: &mut Memory<M, LinearMemory<M::Region>>,
    op: &MemoryOp,
    limits: Option<PartyLimits>,
) -> Reply
    requires held { IsHeld (M.told maker.old).tells (state_of memory.old) }
    ensures moves { MovesOnDemand (given_op op.now) (rule_of limits) (seen_made (M.told maker.old).tells (state_of memory.old)) (seen_made (M.told maker.old).tells (state_of memory.new)) result }
    ensures held { IsHeld (M.told maker.old).tells (state_of memory.new) }
    ensures maker { IsSameMaker (M.told maker.old) (M.told maker.new) }
    ensures spends { MemorySpends (M.told maker.old).tells (given_op op.now) (rule_of limits) (M.told maker.old) (M.told maker.new) (state_of memory.old) (state_of memory.new) result }
    ensures borrows { M.borrows maker.new ≡ M.borrows maker.old }
{
    match op {
        MemoryOp::Read { at, len } => read(alloc, memory, *at, *len),
        MemoryOp::Write { at, bytes } => write_reply(memory.write(*at, bytes)),
        MemoryOp::Fill { at, len, byte } => write_reply(memory.fill(*at, *len, *byte)),
        MemoryOp::Grow { pages } => growth_reply(grow(maker, memory, *pages, limits)),
        MemoryOp::Size => Reply::Size(memory.byte_size() as u64),
    }
}

fn read<M, L: RuntimeLinearMemory<M>>(
    alloc: Global,
    memory: &Memory<M, L>,
    at: u64,
    len: usize,
) -> Reply
    ensures { IsRead (seen_as 0 (state_of memory.now)) at len result }
{
    let Ok(mut bytes) = zeros(alloc, len) else {
        return Reply::Refused(Refusal::Alloc(Cause::Memory));
    };
    match memory.read(at, &mut bytes) {
        Ok(()) => Reply::Bytes(ByteList::from_vec(bytes)),
        Err(trap) => Reply::Trap(trap),
    }
}

// Grows a memory under these limits.
fn grow<M: PageMaker>(
    maker: &mut M,
    memory: &mut Memory<M, LinearMemory<M::Region>>,
    pages: u64,
    limits: Option<PartyLimits>,
) -> Result<Option<usize>, GrowFault>
    ensures growth { GrowsByRule (rule_of limits) pages (state_of memory.old) (state_of memory.new) (M.told maker.old) (M.told maker.new) result }
    ensures borrows { M.borrows maker.new ≡ M.borrows maker.old }
{
    match limits {
        None => memory.grow(maker, pages, Some(&mut Unlimited)),
        Some(limits) => {
            let mut limiter = limiter_of(limits);
            memory.grow(maker, pages, Some(&mut limiter))
        }
    }
}
