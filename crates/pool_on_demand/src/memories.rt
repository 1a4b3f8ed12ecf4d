//! What is granted on demand, as code sees it that is written for every allocator.
ghost use Rattle.std.specs.Prelude.{◌≡◌};

use crate::lease::{OnDemandInstance, OnDemandMemory};
use pool_alloc::{GrantedMemory, InstanceMemories};
use pool_limits::Trap;
use pool_memory::RuntimeLinearMemory;
use pool_pages::Pages;
use pool_slots::MemoryAllocationIndex;
use pool_types::PlainList;
use std::alloc::Global;
use std::mem;

impl<M, L: RuntimeLinearMemory<M>> GrantedMemory for OnDemandMemory<M, L> {
    ghost index_of = { λ lease. lease.index.0 };

    fn index(&self) -> MemoryAllocationIndex {
        self.index
    }
}

impl<M, L: RuntimeLinearMemory<M>, P: Pages> InstanceMemories for OnDemandInstance<M, L, P> {
    ghost use Rattle.std.specs.Prelude.{length};
    ghost use Rattle.pool_on_demand.specs.Writes.{IsInstanceWritten};

    ghost memories = { λ instance. length instance.memories };

    ghost wrote = { λ memory at bytes answer old new. IsInstanceWritten memory at bytes answer old new };

    // The list is taken out of the instance for the write, and put back.
    fn write(&mut self, alloc: Global, memory: usize, at: u64, bytes: &[u8]) -> Result<(), Trap> {
        let mut memories = mem::replace(&mut self.memories, PlainList::new(alloc)).into_vec();
        let answer = memories[memory].memory.write(at, bytes);
        self.memories = PlainList::from_vec(memories);
        answer
    }
}
