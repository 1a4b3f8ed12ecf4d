//! How far a purge is.
ghost use Rattle.std.specs.Prelude.{◌≡◌, ◌<◌, ◌^◌, length};
ghost use Rattle.pool_alloc.specs.CanStep.{CanGoOn};
ghost use Rattle.pool_alloc.specs.PoolTotals.{calls_in_purge};
ghost use Rattle.pool_alloc.specs.Purges.{purge_begun, purged_memory, purged_stripe, found_one, behind_stripe, behind_memory, behind_turn};

pub(crate) mod affine;
pub(crate) mod steps;

use crate::frame::TakenSlot;
use crate::pool_core::Settings;
use pool_index::MemoryInModule;
use pool_pages::{PageCalls, Pages};
use pool_slots::{Allocator, ImageSlot, Plan, SlotName};
use pool_types::{CompiledModuleId, DefinedMemoryIndex};

/// How far a purge has come. It goes through the stripes, and in each through the memories that a module may have.
#[derive(Clone, Copy, Debug, PartialEq, Eq)]
pub struct PurgeCursor {
    /// The compiled module.
    pub id: CompiledModuleId,
    /// The stripe whose slots are gone through.
    pub stripe: u32,
    /// Which of the module's memories slots are looked for there.
    pub memory: u32,
    /// How many such slots were given back so far, each in a turn of its own.
    pub turn: u32,
    /// How many slots were found in all. Stands still at the end of its type.
    pub purged: u64,
}

/// The next step of a purge, with what it has taken.
#[derive(Drop)]
pub enum PurgeStep<P: Pages> {
    /// Pick a warm slot that was used for the memory last, from the shard of the stripe with this number.
    Pick(u32),
    TakeRegion(SlotName),
    /// Empty the slot where nothing is known of it, and else remove its image.
    Forget(TakenSlot, ImageSlot<P>),
    PutRegion(TakenSlot, ImageSlot<P>),
    Free(SlotName),
}

impl PurgeCursor {
    // The purge of a module, as it begins.
    pub(crate) fn new(id: CompiledModuleId) -> Self
        ensures { result ≡ purge_begun id }
    {
        PurgeCursor {
            id,
            stripe: 0,
            memory: 0,
            turn: 0,
            purged: 0,
        }
    }

    // The memory that slots are looked for.
    pub(crate) fn wanted(self) -> MemoryInModule
        ensures { result ≡ purged_memory self }
    {
        MemoryInModule(self.id, DefinedMemoryIndex(self.memory))
    }

    // The allocator of the stripe.
    pub(crate) fn allocator(self, plan: &Plan) -> Allocator
        requires { self.stripe < length plan.now.memories }
        ensures { result ≡ purged_stripe plan.now self }
    {
        plan.memories.as_slice()[self.stripe as usize]
    }

    // One slot more is found.
    pub(crate) fn found_one(self) -> Self
        ensures { result ≡ found_one self }
    {
        PurgeCursor {
            purged: self.purged.saturating_add(1),
            ..self
        }
    }

    // Where the purge goes on behind the stripe, if it does.
    fn behind_stripe(self, plan: &Plan) -> Option<Self>
        requires stripe { self.stripe < length plan.now.memories }
        requires few { length plan.now.memories < 2 ^ 32 }
        ensures { result ≡ behind_stripe plan.now self }
    {
        if self.stripe + 1 < plan.memories.len() as u32 {
            return Some(PurgeCursor {
                stripe: self.stripe + 1,
                memory: 0,
                turn: 0,
                ..self
            });
        }
        None
    }

    // Where it goes on behind the memory.
    pub(crate) fn behind_memory(self, settings: &Settings, plan: &Plan) -> Option<Self>
        requires { CanGoOn settings.now plan.now self }
        ensures { result ≡ behind_memory settings.now.max_memories_per_module plan.now self }
    {
        let memories = settings.max_memories_per_module;
        if self.memory + 1 < memories {
            return Some(PurgeCursor {
                memory: self.memory + 1,
                turn: 0,
                ..self
            });
        }
        self.behind_stripe(plan)
    }

    // Where it goes on behind the turn. Each memory has at most as many as the stripe has slots.
    pub(crate) fn behind_turn(self, settings: &Settings, plan: &Plan) -> Option<Self>
        requires { CanGoOn settings.now plan.now self }
        ensures { result ≡ behind_turn settings.now.max_memories_per_module plan.now self }
    {
        let slots = self.allocator(plan).capacity;
        if self.turn + 1 < slots {
            return Some(PurgeCursor {
                turn: self.turn + 1,
                ..self
            });
        }
        self.behind_memory(settings, plan)
    }
}

impl<P: Pages> PurgeStep<P> {
    // The calls made so far on the region that the step has.
    pub(crate) fn page_calls(&self) -> PageCalls
        ensures { result ≡ calls_in_purge self.now }
    {
        match self {
            PurgeStep::Forget(_, held) => held.page_calls(),
            PurgeStep::PutRegion(_, held) => held.page_calls(),
            _ => PageCalls::none(),
        }
    }
}
