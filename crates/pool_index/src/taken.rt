ghost use Rattle.std.specs.Prelude.{◌≡◌, ◌+◌, ◌<◌, ◌≤◌, ◌∷◌, ◌++◌, [], IfOk, length};

use crate::ids::SlotId;
use std::alloc::{AllocError, Global};
use std::marker::Model;

/// Slots that were taken out of the warm ones, each with the bytes that it keeps resident.
#[derive(Drop)]
pub struct Taken {
    items: Vec<(SlotId, usize)>,
    room: usize,
}

impl Model for Taken {
    ghost use Rattle.std.specs.Prelude.{◌≤◌, vec_capacity};
    ghost use Rattle.pool_index.specs.Taken.{TakenState};

    ghost Value = { TakenState };

    ghost view = { λ t. record { items = t.items.items; room = t.room } };

    ghost invariant = { λ t. t.room ≤ vec_capacity t.items };
}

impl Taken {
    /// No slot so far, and room for so many.
    pub fn new(alloc: Global, room: usize) -> Result<Taken, AllocError>
        ensures { IfOk result (λ t. t ≡ record { items = []; room = room }) }
    {
        Ok(Taken {
            items: Vec::with_capacity(alloc, room)?,
            room,
        })
    }

    /// How many slots there may be.
    pub fn room(&self) -> usize
        ensures { result ≡ self.now.room }
    {
        self.room
    }

    /// The slots in the order in which they were taken.
    pub fn as_slice(&self) -> &[(SlotId, usize)]
        ensures { result.now ≡ self.now.items }
    {
        self.items.as_slice()
    }

    /// One slot more. Takes no memory.
    pub fn push(&mut self, slot: SlotId, bytes: usize)
        requires { length self.old.items < self.old.room }
        ensures { self.new ≡ record self.old { items = self.old.items ++ (slot, bytes) ∷ [] } }
    {
        let Ok(()) = self.items.push((slot, bytes)) else {
            unreachable!()
        };
    }
}
