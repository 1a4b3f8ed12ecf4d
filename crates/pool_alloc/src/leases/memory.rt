//! A memory that was granted.
ghost use Rattle.std.specs.Prelude.{◌≡◌, ◌<◌, length, replicate};
ghost use Rattle.pool_memory.specs.Memories.{slot_of};
ghost use Rattle.pool_alloc.specs.Leases.{IsWritten, IsGrown, IsChanged};

use crate::reserved::ReservedList;
use pool_limits::{GrowFault, ResourceLimiter, Trap};
use pool_memory::{Memory, StaticMemory};
use pool_pages::{PageCalls, Pages};
use pool_slots::{MemoryAllocationIndex, RegionNumbers};
use std::marker::Model;

/// A memory that was granted, and its slot. It must be given back, or its slot stays used for good.
#[derive(Drop)]
pub struct MemoryLease<P: Pages> {
    pub index: MemoryAllocationIndex,
    pub memory: Memory<(), StaticMemory<P>>,
    /// What the unit of the memory's region tells since it left its cell.
    pub numbers: RegionNumbers,
}

impl<P: Pages> Model for MemoryLease<P> {
    ghost use Rattle.pool_memory.specs.MemoryStates.{state_of};
    ghost use Rattle.pool_alloc.specs.Leases.{Lease};

    ghost Value = { Lease };

    ghost view = { λ l. record { index = l.index.0; memory = state_of l.memory; numbers = l.numbers } };
}

impl<P: Pages> MemoryLease<P> {
    /// The calls made so far on the memory's region.
    pub fn page_calls(&self) -> PageCalls
        ensures { result ≡ (slot_of self.now.memory).region.calls }
    {
        self.memory.page_calls()
    }

    /// Writes the bytes from `at` on, or nothing where they pass the memory's size.
    pub fn write(&mut self, at: u64, bytes: &[u8]) -> Result<(), Trap>
        ensures { IsWritten at bytes.now self.old self.new result }
    {
        let result = self.memory.write(at, bytes);
        let _slot = self.memory.slot();
        let _size = self.memory.byte_size();
        result
    }

    /// Sets `len` bytes from `at` on to one value, or nothing where they pass the memory's size. Takes no memory.
    pub fn fill(&mut self, at: u64, len: u64, byte: u8) -> Result<(), Trap>
        ensures { IsWritten at (replicate len byte) self.old self.new result }
    {
        let result = self.memory.fill(at, len, byte);
        let _slot = self.memory.slot();
        let _size = self.memory.byte_size();
        result
    }

    /// Grows the memory by so many of its own pages, as `Memory::grow` does. Takes no memory.
    pub fn grow<R: ResourceLimiter>(
        &mut self,
        delta_pages: u64,
        limiter: &mut R,
    ) -> Result<Option<usize>, GrowFault>
        ensures { IsGrown R.told R.leads delta_pages self.old self.new limiter.old limiter.new result }
    {
        let result = self.memory.grow(&mut (), delta_pages, Some(limiter));
        let _slot = self.memory.slot();
        let _size = self.memory.byte_size();
        result
    }
}

impl<P: Pages> ReservedList<MemoryLease<P>> {
    /// Writes to the memory at this place.
    pub fn write(&mut self, place: usize, at: u64, bytes: &[u8]) -> Result<(), Trap>
        requires { place < length self.old.items }
        ensures { IsChanged (λ l new. IsWritten at bytes.now l new result) place self.old self.new }
    {
        let lease = &mut self.items[place];
        lease.write(at, bytes)
    }

    /// Fills bytes of the memory at this place.
    pub fn fill(&mut self, place: usize, at: u64, len: u64, byte: u8) -> Result<(), Trap>
        requires { place < length self.old.items }
        ensures { IsChanged (λ l new. IsWritten at (replicate len byte) l new result) place self.old self.new }
    {
        let lease = &mut self.items[place];
        lease.fill(at, len, byte)
    }

    /// Grows the memory at this place.
    pub fn grow<R: ResourceLimiter>(
        &mut self,
        place: usize,
        delta_pages: u64,
        limiter: &mut R,
    ) -> Result<Option<usize>, GrowFault>
        requires { place < length self.old.items }
        ensures { IsChanged (λ l new. IsGrown R.told R.leads delta_pages l new limiter.old limiter.new result) place self.old self.new }
    {
        let lease = &mut self.items[place];
        lease.grow(delta_pages, limiter)
    }
}
