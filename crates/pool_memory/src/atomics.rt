ghost use Rattle.std.specs.Prelude.{◌≡◌};
ghost use Rattle.std.specs.Int.{IsPowerOfTwo};
ghost use Rattle.pool_memory.specs.Atomics.{atomic_answer, notify_answer, wait_answer};
ghost use Rattle.pool_memory.specs.MemoryStates.{state_of};

use crate::linear_memory::RuntimeLinearMemory;
use crate::memory::Memory;
use pool_limits::{Trap, WaitResult};

/// The address of an atomic access to a memory of `length` bytes. It traps where the address is no multiple of the
/// alignment, and otherwise where the access passes the length.
pub fn validate_atomic_addr(
    length: u64,
    addr: u64,
    access_size: u64,
    access_alignment: u64,
) -> Result<u64, Trap>
    requires { IsPowerOfTwo access_alignment }
    ensures { result ≡ atomic_answer length addr access_size access_alignment }
{
    if addr % access_alignment != 0 {
        return Err(Trap::HeapMisaligned);
    }
    match addr.checked_add(access_size) {
        Some(end) if end <= length => Ok(addr),
        Some(_) | None => Err(Trap::MemoryOutOfBounds),
    }
}

impl<M, L: RuntimeLinearMemory<M>> Memory<M, L> {
    /// Wakes nobody, since nobody waits on a memory that isn't shared.
    pub fn atomic_notify(&mut self, addr: u64, _count: u32) -> Result<u32, Trap>
        ensures answer { result ≡ notify_answer (atomic_answer (state_of self.old).linear.size addr 4 4) }
        ensures same { state_of self.new ≡ state_of self.old }
    {
        validate_atomic_addr(self.byte_size() as u64, addr, 4, 4)?;
        Ok(0)
    }

    /// Always traps, since nobody could wake who waits on a memory that isn't shared.
    pub fn atomic_wait32(
        &mut self,
        addr: u64,
        _expected: u32,
        _timeout: Option<u64>,
    ) -> Result<WaitResult, Trap>
        ensures answer { result ≡ wait_answer (atomic_answer (state_of self.old).linear.size addr 4 4) }
        ensures same { state_of self.new ≡ state_of self.old }
    {
        validate_atomic_addr(self.byte_size() as u64, addr, 4, 4)?;
        Err(Trap::AtomicWaitNonSharedMemory)
    }

    /// As `atomic_wait32`, for a word of eight bytes.
    pub fn atomic_wait64(
        &mut self,
        addr: u64,
        _expected: u64,
        _timeout: Option<u64>,
    ) -> Result<WaitResult, Trap>
        ensures answer { result ≡ wait_answer (atomic_answer (state_of self.old).linear.size addr 8 8) }
        ensures same { state_of self.new ≡ state_of self.old }
    {
        validate_atomic_addr(self.byte_size() as u64, addr, 8, 8)?;
        Err(Trap::AtomicWaitNonSharedMemory)
    }
}
