//! What is granted, as code sees it that is written for every allocator.
ghost use Rattle.std.specs.Prelude.{◌≡◌, ◌<◌, ℕ, List, Result};
ghost use Rattle.pool_limits.specs.declared.errors.Trap.{Trap};

use crate::leases::instance::InstanceLease;
use crate::leases::memory::MemoryLease;
use pool_limits::Trap;
use pool_pages::Pages;
use pool_slots::MemoryAllocationIndex;
use std::alloc::Global;

/// A memory that was granted by itself.
pub trait GrantedMemory {
    // the number of its index
    ghost index_of: { Self → ℕ };

    /// Its index, as a heap over it is asked for with.
    fn index(&self) -> MemoryAllocationIndex
        ensures { result.0 ≡ index_of self.now };
}

impl<P: Pages> GrantedMemory for MemoryLease<P> {
    ghost index_of = { λ lease. lease.index };

    fn index(&self) -> MemoryAllocationIndex {
        self.index
    }
}

/// The memories of an instance that was granted, by their numbers. Code that is written for every allocator writes into them so; what
/// they hold is read, and what else can be done with them, by the calls of each allocator's own leases.
pub trait InstanceMemories {
    // how many it has
    ghost memories: { Self → ℕ };

    // What writing these bytes, into the memory with this number and from this byte on, answers, and which instance it leaves of which.
    ghost wrote: { ℕ → ℕ → List ℕ → Result (Unit {0}) Trap → Self → Self → Type 0 };

    /// Writes bytes from `at` on into the memory with this number, or nothing where they pass its size. Takes no memory.
    fn write(&mut self, alloc: Global, memory: usize, at: u64, bytes: &[u8]) -> Result<(), Trap>
        requires memory { memory < memories self.old }
        ensures wrote { wrote memory at bytes.now result self.old self.new }
        ensures memories { memories self.new ≡ memories self.old };
}

impl<P: Pages> InstanceMemories for InstanceLease<P> {
    ghost use Rattle.std.specs.Prelude.{◌≡◌, length};
    ghost use Rattle.pool_alloc.specs.Leases.{IsChanged, IsWritten};

    ghost memories = { λ lease. length lease.memories.items };

    ghost wrote = { λ memory at bytes result old new. IsChanged (λ l m. IsWritten at bytes l m result) memory old.memories new.memories × (new.tables ≡ old.tables) };

    fn write(&mut self, _alloc: Global, memory: usize, at: u64, bytes: &[u8]) -> Result<(), Trap> {
        self.memories.write(memory, at, bytes)
    }
}
