ghost use Rattle.std.specs.Prelude.{◌≡◌, ◌+◌, ◌≤◌, true, false, IfSome, IfOk};
ghost use Rattle.std.specs.Int.{w32, w64};
ghost use Rattle.pool_shared.specs.Shared.{word_address, word_at, Waits, WaitsAt, notify_answer, after_notify_at};
ghost use Rattle.pool_shared.specs.Spot.{is_waiting, recheck_answer, after_recheck};

use crate::shared_state::SharedState;
use crate::wait_fault::WaitFault;
use crate::wait_step::WaitStep;
use pool_limits::Trap;
use pool_memory::{RuntimeLinearMemory, validate_atomic_addr};

impl<M, L: RuntimeLinearMemory<M>> SharedState<M, L> {
    /// Whether the waiter is parked or marked.
    pub fn is_waiting(&self, waiter: u32) -> bool
        ensures { result ≡ is_waiting waiter self.now.spot }
    {
        self.spot.is_waiting(waiter)
    }

    /// Begins a wait on the word of four bytes at `addr`, which is to be the expected one. The deadline and the time are in
    /// nanoseconds. Only a wait that parks takes memory: the room for its waiter and its mark.
    pub fn wait32(
        &mut self,
        addr: u64,
        waiter: u32,
        expected: u32,
        deadline: Option<u64>,
        now: u64,
    ) -> Result<WaitStep, WaitFault>
        requires { is_waiting waiter self.old.spot ≡ false }
        ensures { Waits w32 (word_address w32 addr self.old) waiter expected deadline now self.old self.new result }
    {
        let addr = validate_atomic_addr(self.byte_size() as u64, addr, 4, 4)?;
        let same = self.word32(addr) == expected;
        self.wait_at(addr, waiter, same, deadline, now)
    }

    /// As `wait32`, on a word of eight bytes.
    pub fn wait64(
        &mut self,
        addr: u64,
        waiter: u32,
        expected: u64,
        deadline: Option<u64>,
        now: u64,
    ) -> Result<WaitStep, WaitFault>
        requires { is_waiting waiter self.old.spot ≡ false }
        ensures { Waits w64 (word_address w64 addr self.old) waiter expected deadline now self.old self.new result }
    {
        let addr = validate_atomic_addr(self.byte_size() as u64, addr, 8, 8)?;
        let same = self.word64(addr) == expected;
        self.wait_at(addr, waiter, same, deadline, now)
    }

    /// Asks how the waiter's wait stands. Takes no memory.
    pub fn recheck(&mut self, waiter: u32, now: u64) -> WaitStep
        requires { is_waiting waiter self.old.spot ≡ true }
        ensures answer { result ≡ recheck_answer waiter now self.old.spot }
        ensures after { self.new ≡ record self.old { spot = after_recheck waiter now self.old.spot } }
    {
        self.spot.recheck(waiter, now)
    }

    /// Marks the first `n` waiters that are parked at the word's address, or all where they are fewer, and tells how many.
    /// Takes no memory.
    pub fn notify(&mut self, addr: u64, n: u32) -> Result<u32, Trap>
        ensures answer { result ≡ notify_answer (word_address w32 addr self.old) n self.old.spot }
        ensures after { self.new ≡ record self.old { spot = after_notify_at (word_address w32 addr self.old) n self.old.spot } }
        ensures at_most { IfOk result (λ notified. notified ≤ n) }
    {
        let addr = validate_atomic_addr(self.byte_size() as u64, addr, 4, 4)?;
        Ok(self.spot.notify(addr, n))
    }

    // Begins a wait at an address of a word that is the expected one, or isn't.
    fn wait_at(
        &mut self,
        addr: u64,
        waiter: u32,
        same: bool,
        deadline: Option<u64>,
        now: u64,
    ) -> Result<WaitStep, WaitFault>
        requires { is_waiting waiter self.old.spot ≡ false }
        ensures { WaitsAt addr waiter same deadline now self.old self.new result }
    {
        match self.spot.wait(addr, waiter, same, deadline, now) {
            Ok(step) => Ok(step),
            Err(_) => Err(WaitFault::Memory),
        }
    }

    fn word32(&self, addr: u64) -> u32
        requires { addr + 4 ≤ self.now.memory.linear.size }
        ensures { IfSome (word_at w32 addr self.now.memory) (λ word. result ≡ word) }
    {
        let mut bytes = [0; 4];
        match self.memory.read(addr, &mut bytes) {
            Ok(()) => u32::from_le_bytes(bytes),
            Err(_trap) => unreachable!(),
        }
    }

    fn word64(&self, addr: u64) -> u64
        requires { addr + 8 ≤ self.now.memory.linear.size }
        ensures { IfSome (word_at w64 addr self.now.memory) (λ word. result ≡ word) }
    {
        let mut bytes = [0; 8];
        match self.memory.read(addr, &mut bytes) {
            Ok(()) => u64::from_le_bytes(bytes),
            Err(_trap) => unreachable!(),
        }
    }
}
