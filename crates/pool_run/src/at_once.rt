ghost use Rattle.std.specs.Prelude.{◌≡◌, ◌+◌, ◌<◌, length, nat_le, replicate, slice_get, slice_index_or, None};
ghost use Rattle.pool_alloc.specs.Leases.{IsChanged};
ghost use Rattle.pool_alloc.specs.declared.frame.Grant.TheVariants.{Instance as instance};
ghost use Rattle.pool_run.specs.AtOnce.{given_op, GrowsUnder, MovesGrantBytes, MovesOnly, MovesTakenBytes};
ghost use Rattle.pool_run.specs.PartyRules.{rule_of};
ghost use Rattle.pool_run.specs.PrivateStacks.{ReadsBytes};
ghost use Rattle.pool_run.specs.Objects.{MovesNamed};
ghost use Rattle.pool_run.specs.Private.{IsRead};
ghost use Rattle.pool_run.specs.declared.reply.Reply.TheVariants.{Size};
ghost use Rattle.pool_run.specs.Turns.{LeaseMoves, with_lease, private_memory, seen_stack, StackStateMoves, StackStateWrites, MovesLeasedBytes};

use crate::act::MemoryOp;
use crate::buffers::zeros;
use crate::input::PartyLimits;
use crate::leases::Leases;
use crate::limiter::limiter_of;
use crate::replies::{growth_reply, write_reply};
use crate::reply::{Refusal, Reply};
use pool_alloc::{Grant, InstanceLease, MemoryLease, ReservedList};
use pool_limits::{GrowFault, Trap, Unlimited};
use pool_pages::Pages;
use pool_slots::{AllocError as Cause, PlainHeap, Stack};
use pool_types::ByteList;
use std::alloc::Global;

/// Does something with memory `memory` of the grant of command `of`, or with its stack, which is its memory 0. A memory grows
/// under these limits.
pub(crate) fn act_on_bytes<P: Pages>(
    alloc: Global,
    live: &mut Leases<P>,
    of: usize,
    memory: usize,
    op: &MemoryOp,
    limits: Option<PartyLimits>,
) -> Reply
    ensures { MovesLeasedBytes (given_op op.now) (rule_of limits) (slice_index_or live.old of None) of memory live.old result live.new }
{
    match live.take(of) {
        None => Reply::Refused(Refusal::NoSuchGrant),
        Some(grant) => act_on_taken(alloc, live, of, grant, memory, op, limits),
    }
}

// Acts on a grant that was taken out of its place, and puts it back.
fn act_on_taken<P: Pages>(
    alloc: Global,
    live: &mut Leases<P>,
    of: usize,
    grant: Grant<P, PlainHeap>,
    memory: usize,
    op: &MemoryOp,
    limits: Option<PartyLimits>,
) -> Reply
    requires { of < length live.old }
    ensures { MovesTakenBytes (given_op op.now) (rule_of limits) of memory grant live.old result live.new }
{
    let mut grant = grant;
    let reply = act_on_grant(alloc, &mut grant, memory, op, limits);
    live.put(of, grant);
    reply
}

fn act_on_grant<P: Pages>(
    alloc: Global,
    grant: &mut Grant<P, PlainHeap>,
    memory: usize,
    op: &MemoryOp,
    limits: Option<PartyLimits>,
) -> Reply
    ensures { MovesGrantBytes (given_op op.now) (rule_of limits) memory grant.old result grant.new }
{
    match grant {
        Grant::Instance(lease) => act_on_instance(alloc, lease, memory, op, limits),
        Grant::Component | Grant::Memory(_) | Grant::Table(_) | Grant::HeapOver(_) =>
            Reply::Refused(Refusal::NoSuchGrant),
        Grant::Stack(lease) => act_on_stack(alloc, &mut lease.stack, memory, op),
        Grant::Heap(_, lease) => act_on_heap(alloc, lease, memory, op, limits),
    }
}

/// Does something with the bytes of a stack, which is memory 0 of its grant.
pub fn act_on_stack<P: Pages>(
    alloc: Global,
    stack: &mut Stack<P>,
    memory: usize,
    op: &MemoryOp,
) -> Reply
    ensures { MovesOnly (StackStateMoves (given_op op.now)) memory stack.old result stack.new }
{
    if memory > 0 {
        return Reply::Refused(Refusal::NoSuchGrant);
    }
    act_on_its_bytes(alloc, stack, op)
}

fn act_on_its_bytes<P: Pages>(alloc: Global, stack: &mut Stack<P>, op: &MemoryOp) -> Reply
    ensures { StackStateMoves (given_op op.now) stack.old stack.new result }
{
    match op {
        MemoryOp::Read { at, len } => read_stack(alloc, stack, *at, *len),
        MemoryOp::Write { at, bytes } => write_stack(stack, *at, bytes),
        MemoryOp::Fill { at, len, byte } => fill_stack(stack, *at, *len, *byte),
        MemoryOp::Grow { pages: _ } => Reply::Grown(None),
        MemoryOp::Size => Reply::Size(stack.len() as u64),
    }
}

// Whether so many bytes from `at` on are bytes of what has this size.
fn is_inside(at: u64, len: u64, size: usize) -> bool
    ensures { result ≡ nat_le (at + len) size }
{
    at <= size as u64 && len <= size as u64 - at
}

fn read_stack<P: Pages>(alloc: Global, stack: &Stack<P>, at: u64, len: usize) -> Reply
    ensures { ReadsBytes (seen_stack stack.now).size (seen_stack stack.now).bytes at len result }
{
    let Ok(mut bytes) = zeros(alloc, len) else {
        return Reply::Refused(Refusal::Alloc(Cause::Memory));
    };
    if !is_inside(at, len as u64, stack.len()) {
        return Reply::Trap(Trap::MemoryOutOfBounds);
    }
    stack.read(at as usize, &mut bytes);
    Reply::Bytes(ByteList::from_vec(bytes))
}

fn write_stack<P: Pages>(stack: &mut Stack<P>, at: u64, bytes: &[u8]) -> Reply
    ensures { StackStateWrites at bytes.now stack.old stack.new result }
{
    if !is_inside(at, bytes.len() as u64, stack.len()) {
        return Reply::Trap(Trap::MemoryOutOfBounds);
    }
    stack.write(at as usize, bytes);
    Reply::Done
}

fn fill_stack<P: Pages>(stack: &mut Stack<P>, at: u64, len: u64, byte: u8) -> Reply
    ensures { StackStateWrites at (replicate len byte) stack.old stack.new result }
{
    if !is_inside(at, len, stack.len()) {
        return Reply::Trap(Trap::MemoryOutOfBounds);
    }
    stack.fill(at as usize, len as usize, byte);
    Reply::Done
}

fn act_on_heap<P: Pages>(
    alloc: Global,
    lease: &mut MemoryLease<P>,
    memory: usize,
    op: &MemoryOp,
    limits: Option<PartyLimits>,
) -> Reply
    ensures { MovesOnly (LeaseMoves (given_op op.now) (rule_of limits)) memory lease.old result lease.new }
{
    if memory > 0 {
        return Reply::Refused(Refusal::NoSuchGrant);
    }
    act_on_its_memory(alloc, lease, op, limits)
}

fn act_on_its_memory<P: Pages>(
    alloc: Global,
    lease: &mut MemoryLease<P>,
    op: &MemoryOp,
    limits: Option<PartyLimits>,
) -> Reply
    ensures { LeaseMoves (given_op op.now) (rule_of limits) lease.old lease.new result }
{
    match op {
        MemoryOp::Read { at, len } => read(alloc, lease, *at, *len),
        MemoryOp::Write { at, bytes } => write_reply(lease.write(*at, bytes)),
        MemoryOp::Fill { at, len, byte } => write_reply(lease.fill(*at, *len, *byte)),
        MemoryOp::Grow { pages } => growth_reply(grow_its(lease, *pages, limits)),
        MemoryOp::Size => size(lease),
    }
}

// Grows a heap's memory under these limits.
fn grow_its<P: Pages>(
    lease: &mut MemoryLease<P>,
    pages: u64,
    limits: Option<PartyLimits>,
) -> Result<Option<usize>, GrowFault>
    ensures { GrowsUnder (rule_of limits) pages lease.old lease.new result }
{
    match limits {
        None => lease.grow(pages, &mut Unlimited),
        Some(limits) => {
            let mut limiter = limiter_of(limits);
            lease.grow(pages, &mut limiter)
        }
    }
}

fn act_on_instance<P: Pages>(
    alloc: Global,
    lease: &mut InstanceLease<P>,
    memory: usize,
    op: &MemoryOp,
    limits: Option<PartyLimits>,
) -> Reply
    ensures { MovesNamed (LeaseMoves (given_op op.now) (rule_of limits)) (slice_get lease.old.memories.items memory) (with_lease memory) (instance lease.old) result (instance lease.new) }
{
    if memory >= lease.memories.len() {
        return Reply::Refused(Refusal::NoSuchGrant);
    }
    act_on_memory(alloc, &mut lease.memories, memory, op, limits)
}

fn act_on_memory<P: Pages>(
    alloc: Global,
    memories: &mut ReservedList<MemoryLease<P>>,
    memory: usize,
    op: &MemoryOp,
    limits: Option<PartyLimits>,
) -> Reply
    requires { memory < length memories.old.items }
    ensures { IsChanged (λ l new. LeaseMoves (given_op op.now) (rule_of limits) l new result) memory memories.old memories.new }
{
    match op {
        MemoryOp::Read { at, len } => read(alloc, memories.get(memory), *at, *len),
        MemoryOp::Write { at, bytes } => write_reply(memories.write(memory, *at, bytes)),
        MemoryOp::Fill { at, len, byte } => write_reply(memories.fill(memory, *at, *len, *byte)),
        MemoryOp::Grow { pages } => growth_reply(grow(memories, memory, *pages, limits)),
        MemoryOp::Size => size(memories.get(memory)),
    }
}

fn read<P: Pages>(alloc: Global, lease: &MemoryLease<P>, at: u64, len: usize) -> Reply
    ensures { IsRead (private_memory lease.now) at len result }
{
    let Ok(mut bytes) = zeros(alloc, len) else {
        return Reply::Refused(Refusal::Alloc(Cause::Memory));
    };
    match lease.memory.read(at, &mut bytes) {
        Ok(()) => Reply::Bytes(ByteList::from_vec(bytes)),
        Err(trap) => Reply::Trap(trap),
    }
}

fn size<P: Pages>(lease: &MemoryLease<P>) -> Reply
    ensures { result ≡ Size lease.now.memory.linear.size }
{
    Reply::Size(lease.memory.byte_size() as u64)
}

// Grows a memory under these limits.
fn grow<P: Pages>(
    memories: &mut ReservedList<MemoryLease<P>>,
    memory: usize,
    pages: u64,
    limits: Option<PartyLimits>,
) -> Result<Option<usize>, GrowFault>
    requires { memory < length memories.old.items }
    ensures { IsChanged (λ l new. GrowsUnder (rule_of limits) pages l new result) memory memories.old memories.new }
{
    match limits {
        None => memories.grow(memory, pages, &mut Unlimited),
        Some(limits) => {
            let mut limiter = limiter_of(limits);
            memories.grow(memory, pages, &mut limiter)
        }
    }
}
