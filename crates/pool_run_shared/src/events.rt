ghost use Rattle.std.specs.Prelude.{◌≡◌, IfOk, Some, None};
ghost use Rattle.std.specs.Int.{IsPowerOfTwo, w32, w64};
ghost use Rattle.pool_memory.specs.Atomics.{atomic_answer};
ghost use Rattle.pool_run.specs.Private.{IsRead};
ghost use Rattle.pool_run.specs.Turns.{seen_as};
ghost use Rattle.pool_run_shared.specs.Events.{as_reply, deadline_of, view_of, word_address, woken, notified, Waits};
ghost use Rattle.pool_run_shared.specs.Steps.{growth_said, said, wait_refusal, IsWaitReply, IsKept, MakesOf};
ghost use Rattle.pool_run_shared.specs.declared.input.SharedEvent.TheVariants as event;

use crate::input::SharedEvent;
use crate::reply::SharedReply;
use pool_limits::GrowFault;
use pool_memory::{RuntimeLinearMemory, validate_atomic_addr};
use pool_run::zeros;
use pool_shared::{SharedState, WaitFault, WaitStep};
use pool_types::ByteList;
use std::alloc::{AllocError, Global};

// The deadline of a wait that begins now, or none where 64 bits can't hold it.
fn deadline_of(now: u64, timeout: Option<u64>) -> Option<u64>
    ensures { result ≡ deadline_of now timeout }
{
    now.checked_add(timeout?)
}

// Why a wait on a word of so many bytes doesn't begin, whatever its word is.
fn refusal<M, L: RuntimeLinearMemory<M>>(
    state: &SharedState<M, L>,
    size: u64,
    waiter: u32,
    at: u64,
) -> Option<SharedReply>
    requires { IsPowerOfTwo size }
    ensures { result ≡ wait_refusal (atomic_answer state.now.memory.linear.size at size size) waiter state.now.spot }
{
    match validate_atomic_addr(state.byte_size() as u64, at, size, size) {
        Err(trap) => Some(SharedReply::Trap(trap)),
        Ok(_) if state.is_waiting(waiter) => Some(SharedReply::WaiterBusy),
        Ok(_) => None,
    }
}

fn wait_reply(answer: Result<WaitStep, WaitFault>) -> Result<SharedReply, AllocError>
    ensures { IfOk result (IsWaitReply answer) }
{
    match answer {
        Ok(step) => Ok(SharedReply::Wait(step)),
        Err(WaitFault::Trap(trap)) => Ok(SharedReply::Trap(trap)),
        Err(WaitFault::Memory) => Err(AllocError),
    }
}

fn wait32<M, L: RuntimeLinearMemory<M>>(
    state: &mut SharedState<M, L>,
    waiter: u32,
    at: u64,
    expect: u32,
    now: u64,
    timeout: Option<u64>,
) -> Result<SharedReply, AllocError>
    ensures waits { IfOk result (Waits w32 waiter at expect now timeout (view_of state.old) (view_of state.new)) }
    ensures memory { state.new.memory ≡ state.old.memory }
{
    if let Some(reply) = refusal(state, 4, waiter, at) {
        return Ok(reply);
    }
    wait_reply(state.wait32(at, waiter, expect, deadline_of(now, timeout), now))
}

fn wait64<M, L: RuntimeLinearMemory<M>>(
    state: &mut SharedState<M, L>,
    waiter: u32,
    at: u64,
    expect: u64,
    now: u64,
    timeout: Option<u64>,
) -> Result<SharedReply, AllocError>
    ensures waits { IfOk result (Waits w64 waiter at expect now timeout (view_of state.old) (view_of state.new)) }
    ensures memory { state.new.memory ≡ state.old.memory }
{
    if let Some(reply) = refusal(state, 8, waiter, at) {
        return Ok(reply);
    }
    wait_reply(state.wait64(at, waiter, expect, deadline_of(now, timeout), now))
}

fn wake<M, L: RuntimeLinearMemory<M>>(
    state: &mut SharedState<M, L>,
    waiter: u32,
    now: u64,
) -> SharedReply
    ensures wakes { (view_of state.new, result) ≡ woken waiter now (view_of state.old) }
    ensures memory { state.new.memory ≡ state.old.memory }
{
    if state.is_waiting(waiter) {
        SharedReply::Wait(state.recheck(waiter, now))
    } else {
        SharedReply::WaiterIdle
    }
}

fn notify<M, L: RuntimeLinearMemory<M>>(
    state: &mut SharedState<M, L>,
    at: u64,
    count: u32,
) -> SharedReply
    ensures notifies { (view_of state.new, result) ≡ notified (word_address w32 at (view_of state.old)) count (view_of state.old) }
    ensures memory { state.new.memory ≡ state.old.memory }
{
    match state.notify(at, count) {
        Ok(n) => SharedReply::Notified(n),
        Err(trap) => SharedReply::Trap(trap),
    }
}

fn read<M, L: RuntimeLinearMemory<M>>(
    alloc: Global,
    state: &SharedState<M, L>,
    at: u64,
    len: usize,
) -> Result<SharedReply, AllocError>
    ensures { IfOk result (λ reply. IsRead (seen_as 0 state.now.memory) at len (said (as_reply reply))) }
{
    let mut bytes = zeros(alloc, len)?;
    match state.read(at, &mut bytes) {
        Ok(()) => Ok(SharedReply::Bytes(ByteList::from_vec(bytes))),
        Err(trap) => Ok(SharedReply::Trap(trap)),
    }
}

fn write<M, L: RuntimeLinearMemory<M>>(
    state: &mut SharedState<M, L>,
    at: u64,
    bytes: &[u8],
) -> SharedReply
    requires { IsKept state.old.memory }
    ensures { MakesOf (event.Write at bytes.now) state.old state.new result }
{
    match state.write(at, bytes) {
        Ok(()) => SharedReply::Done,
        Err(trap) => SharedReply::Trap(trap),
    }
}

fn growth_reply(answer: Result<Option<(usize, usize)>, GrowFault>) -> SharedReply
    ensures { as_reply result ≡ Some (growth_said answer) }
{
    match answer {
        Ok(Some((old, _new))) => SharedReply::Grown(Some(old as u64)),
        Ok(None) => SharedReply::Grown(None),
        Err(_) => SharedReply::Grown(None),
    }
}

fn grow<M, L: RuntimeLinearMemory<M>>(
    maker: &mut M,
    state: &mut SharedState<M, L>,
    pages: u64,
) -> SharedReply
    requires { IsKept state.old.memory }
    ensures grows { MakesOf (event.Grow pages) state.old state.new result }
    ensures maker { L.maker_told maker.new ≡ L.maker_told maker.old }
    ensures borrows { L.maker_borrows maker.new ≡ L.maker_borrows maker.old }
{
    growth_reply(state.grow(maker, pages))
}

/// What happens in an event, and its reply, which there may be no memory for.
pub(crate) fn happen<M, L: RuntimeLinearMemory<M>>(
    alloc: Global,
    maker: &mut M,
    state: &mut SharedState<M, L>,
    event: &SharedEvent,
) -> Result<SharedReply, AllocError>
    requires { IsKept state.old.memory }
    ensures ok { IfOk result (MakesOf event.now state.old state.new) }
    ensures maker { L.maker_told maker.new ≡ L.maker_told maker.old }
    ensures borrows { L.maker_borrows maker.new ≡ L.maker_borrows maker.old }
{
    match event {
        SharedEvent::Wait32 {
            waiter,
            at,
            expect,
            now,
            timeout,
        } => wait32(state, *waiter, *at, *expect, *now, *timeout),
        SharedEvent::Wait64 {
            waiter,
            at,
            expect,
            now,
            timeout,
        } => wait64(state, *waiter, *at, *expect, *now, *timeout),
        SharedEvent::Wake { waiter, now } => Ok(wake(state, *waiter, *now)),
        SharedEvent::Notify { at, count } => Ok(notify(state, *at, *count)),
        SharedEvent::Read { at, len } => read(alloc, state, *at, *len),
        SharedEvent::Write { at, hex } => Ok(write(state, *at, hex.as_slice())),
        SharedEvent::Grow { pages } => Ok(grow(maker, state, *pages)),
        SharedEvent::Size => Ok(SharedReply::Size(state.byte_size() as u64)),
    }
}
