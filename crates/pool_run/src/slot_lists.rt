ghost use Rattle.std.specs.Prelude.{◌≡◌};
ghost use Rattle.pool_run.specs.Turns.{no_lists};

use crate::reserved_vec::ReservedVec;
use std::alloc::Global;

/// The lists for the slots of what a party asks for.
#[derive(Drop)]
pub struct SlotLists {
    pub memories: ReservedVec<u32>,
    pub tables: ReservedVec<u32>,
}

impl SlotLists {
    /// The empty lists, without room. Takes no memory.
    pub fn none(alloc: Global) -> Self
        ensures { result ≡ no_lists }
    {
        SlotLists {
            memories: ReservedVec::none(alloc),
            tables: ReservedVec::none(alloc),
        }
    }
}
