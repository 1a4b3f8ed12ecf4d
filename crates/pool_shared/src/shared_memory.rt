ghost use Rattle.std.specs.Prelude.{◌≡◌, ◌↔◌, ◌+◌, ◌<◌, ◌≤◌, length, true, Some, None, Ok, Err, IsOk, IfOk, IfErr, OnOk, OnErr};
ghost use Rattle.std.specs.Int.{w32, w64};
ghost use Rattle.pool_limits.specs.declared.errors.WaitResult.TheVariants as ended;
ghost use Rattle.pool_types.specs.MemoryTypes.{minimum_byte_size};
ghost use Rattle.pool_shared.specs.Shared.{kind_refusal, type_refusal, shared_refusal, MakingBy, layout_for};
ghost use Rattle.pool_shared.specs.Bounds.{deadline_after, IsAligned, IsPast, IsTrapped, IsRefused};
ghost use Rattle.pool_shared.specs.Spot.{has_passed};

use crate::clock::Clock;
use crate::hold::{Asked, WaitRequest, wait_on};
use crate::kept::{Kept, SizeAsMade};
use crate::shared_state::SharedState;
use crate::wait_fault::WaitFault;
use crate::waiter::Waiter;
use pool_limits::{GrowFault, Trap, WaitResult};
use pool_memory::{LocalMemory, MemoryError, MmapMemory, RuntimeLinearMemory};
use pool_pages::{PageMaker, Pages};
use pool_types::{MemoryTunables, MemoryType, Unsupported};
use std::alloc::Global;
use std::sync::{Condvar, Mutex, Wait};
use std::time::Clock as HostClock;

/// A memory that threads share. Each hold of its lock makes one call on its state, so a word is compared and its waiter is
/// entered at once. `S` tells contracts the size that it was made with, or less.
#[derive(Drop)]
pub struct SharedMemory<M, L: RuntimeLinearMemory<M>, S: SizeAsMade> {
    ty: MemoryType,
    state: Mutex<Kept<M, L, S>>,
    changed: Condvar,
}

impl<P: Pages, M: PageMaker<Region = P>, S: SizeAsMade> SharedMemory<M, MmapMemory<P>, S> {
    /// A memory of this type, all zeros, in a region that the maker makes. `enabled` says whether there are to be shared
    /// memories. Answers `Unsupported`, where nothing is asked of the maker, `PageFault` or `Memory` alone.
    pub fn new(
        alloc: Global,
        maker: &mut M,
        ty: &MemoryType,
        tunables: &MemoryTunables,
        enabled: bool,
    ) -> Result<SharedMemory<M, MmapMemory<P>, S>, MemoryError>
        requires page { ty.now.page_size_log2 < 64 }
        requires size { S.size ≤ minimum_byte_size ty.now }
        ensures unsupported { (u : _) → (result ≡ Err (MemoryError.Unsupported u)) ↔ (shared_refusal enabled (M.told maker.old).page ty.now tunables.now ≡ Some u) }
        ensures borrows { M.borrows maker.new ≡ M.borrows maker.old }
        ensures maker { MakingBy (type_refusal enabled ty.now) (layout_for (M.told maker.old).page ty.now tunables.now) (minimum_byte_size ty.now) result (M.told maker.old) (M.told maker.new) }
    {
        match SharedState::new(alloc, maker, ty, tunables, enabled) {
            Ok(state) => Ok(SharedMemory::holding(ty, state)),
            Err(error) => Err(error),
        }
    }
}

impl<M, L: RuntimeLinearMemory<M>, S: SizeAsMade> SharedMemory<M, L, S> {
    /// Shares a memory, whose type this is. `enabled` says whether there are to be shared memories. A memory that is refused
    /// is dropped. Takes no memory.
    pub fn wrap(
        alloc: Global,
        ty: &MemoryType,
        memory: LocalMemory<M, L>,
        enabled: bool,
    ) -> Result<SharedMemory<M, L, S>, Unsupported>
        requires ty { memory.ty ≡ ty.now }
        requires size { S.size ≤ memory.linear.size }
        ensures ok { OnOk result (kind_refusal enabled ty.now ≡ None) }
        ensures err { IfErr result (λ u. kind_refusal enabled ty.now ≡ Some u) }
    {
        match SharedState::wrap(alloc, ty, memory, enabled) {
            Ok(state) => Ok(SharedMemory::holding(ty, state)),
            Err(refusal) => Err(refusal),
        }
    }

    // The memory in this state.
    fn holding(ty: &MemoryType, state: SharedState<M, L>) -> SharedMemory<M, L, S>
        requires { S.size ≤ state.memory.linear.size }
        ensures { result.ty ≡ ty.now }
    {
        SharedMemory {
            ty: *ty,
            state: Mutex::new(Kept::new(state)),
            changed: Condvar::new(),
        }
    }

    /// The type that it was made with.
    pub fn ty(&self) -> &MemoryType
        ensures { result.now ≡ self.now.ty }
    {
        &self.ty
    }

    /// In bytes.
    pub fn byte_size<R: Wait>(&self, rt: &R) -> usize
        ensures { S.size ≤ result }
    {
        self.state.lock(rt).state().byte_size()
    }

    /// Whether the bytes that the memory begins with have yet to be written into it.
    pub fn needs_init<R: Wait>(&self, rt: &R) -> bool {
        self.state.lock(rt).state().needs_init()
    }

    /// Reads the bytes from `at` on into `out`, which stays as it is where they pass the size.
    pub fn read<R: Wait>(&self, rt: &R, at: u64, out: &mut [u8]) -> Result<(), Trap>
        ensures err { IfErr result (IsPast S.size (at + length out.old)) }
        ensures same { OnErr result (out.new ≡ out.old) }
    {
        self.state.lock(rt).state().read(at, out)
    }

    /// Writes the bytes from `at` on, or nothing where they pass the size.
    pub fn write<R: Wait>(&self, rt: &R, at: u64, bytes: &[u8]) -> Result<(), Trap>
        ensures err { IfErr result (IsPast S.size (at + length bytes.now)) }
    {
        self.state.lock(rt).write(at, bytes)
    }

    /// Grows the memory by so many of its own pages. Answers the old size in bytes and the new one, or None. Never an error,
    /// since no limiter is asked; the maker isn't called.
    pub fn grow<R: Wait>(
        &self,
        rt: &R,
        maker: &mut M,
        delta: u64,
    ) -> Result<Option<(usize, usize)>, GrowFault>
        ensures ok { IsOk result }
        ensures maker { L.maker_told maker.new ≡ L.maker_told maker.old }
        ensures borrows { L.maker_borrows maker.new ≡ L.maker_borrows maker.old }
    {
        self.state.lock(rt).grow(maker, delta)
    }

    /// Notifies the first `n` waiters at the word's address, or all where they are fewer, and tells how many. Where there are
    /// none nobody wakes.
    pub fn atomic_notify<R: Wait>(&self, rt: &R, addr: u64, n: u32) -> Result<u32, Trap>
        ensures ok { OnOk result (IsAligned w32 addr) }
        ensures at_most { IfOk result (λ notified. notified ≤ n) }
        ensures err { IfErr result (IsTrapped w32 addr S.size) }
    {
        let notified = self.state.lock(rt).notify(addr, n)?;
        if notified > 0 {
            self.changed.notify_all();
        }
        Ok(notified)
    }

    /// Waits for a notify, if the word of four bytes at the address is the expected one. The timeout is in nanoseconds, from
    /// the last time that the clock told.
    pub fn atomic_wait32<C: Clock, R: Wait + HostClock>(
        &self,
        rt: &R,
        addr: u64,
        expected: u32,
        timeout: Option<u64>,
        waiter: &mut Waiter,
        clock: &mut C,
    ) -> Result<WaitResult, WaitFault>
        ensures late { result ≡ Ok ended.TimedOut → has_passed (C.told clock.new) (deadline_after timeout (C.told clock.old)) ≡ true }
        ensures ok { OnOk result (IsAligned w32 addr) }
        ensures err { IfErr result (IsRefused w32 addr S.size) }
    {
        let wait = WaitRequest {
            asked: Asked::Word32 { addr, expected },
            waiter: waiter.number(),
            deadline: deadline_after(timeout, clock.last()),
        };
        wait_on(rt, &self.state, &self.changed, &wait, clock)
    }

    /// As `atomic_wait32`, for a word of eight bytes.
    pub fn atomic_wait64<C: Clock, R: Wait + HostClock>(
        &self,
        rt: &R,
        addr: u64,
        expected: u64,
        timeout: Option<u64>,
        waiter: &mut Waiter,
        clock: &mut C,
    ) -> Result<WaitResult, WaitFault>
        ensures late { result ≡ Ok ended.TimedOut → has_passed (C.told clock.new) (deadline_after timeout (C.told clock.old)) ≡ true }
        ensures ok { OnOk result (IsAligned w64 addr) }
        ensures err { IfErr result (IsRefused w64 addr S.size) }
    {
        let wait = WaitRequest {
            asked: Asked::Word64 { addr, expected },
            waiter: waiter.number(),
            deadline: deadline_after(timeout, clock.last()),
        };
        wait_on(rt, &self.state, &self.changed, &wait, clock)
    }
}

// The deadline of a timeout from a time on.
fn deadline_after(timeout: Option<u64>, now: u64) -> Option<u64>
    ensures { result ≡ deadline_after timeout now }
{
    match timeout {
        Some(timeout) => now.checked_add(timeout),
        None => None,
    }
}
