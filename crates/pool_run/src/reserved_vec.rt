ghost use Rattle.std.specs.Prelude.{◌≡◌, ◌<◌, [], length, IfOk};
ghost use Rattle.pool_alloc.specs.Reserved.{no_room, with_item};

use pool_types::PlainList;
use std::alloc::{AllocError, Global};
use std::marker::Model;

/// A list whose room is reserved when it is made, and which becomes a plain list. Adding to it takes no memory.
#[derive(Drop)]
pub struct ReservedVec<T> {
    items: Vec<T>,
}

impl<T> Model for ReservedVec<T> {
    ghost use Rattle.std.specs.Prelude.{vec_capacity};
    ghost use Rattle.pool_alloc.specs.Reserved.{Reserved};

    ghost Value = { Reserved T };

    ghost view = { λ l. record { items = l.items.items; room = vec_capacity l.items } };
}

impl<T> ReservedVec<T> {
    /// The empty list, without room. Takes no memory.
    pub fn none(alloc: Global) -> Self
        ensures { result ≡ no_room }
    {
        ReservedVec {
            items: Vec::new(alloc),
        }
    }

    pub fn with_room(alloc: Global, room: usize) -> Result<Self, AllocError>
        ensures { IfOk result (λ l. l ≡ record { items = []; room = room }) }
    {
        Ok(ReservedVec {
            items: Vec::with_capacity(alloc, room)?,
        })
    }

    pub fn len(&self) -> usize
        ensures { result ≡ length self.now.items }
    {
        self.items.len()
    }

    pub fn push(&mut self, item: T)
        requires { length self.old.items < self.old.room }
        ensures { self.new ≡ with_item item self.old }
    {
        self.items.push_reserved(item);
    }

    /// Takes no memory.
    pub fn into_list(self) -> PlainList<T>
        ensures { result ≡ self.items }
    {
        PlainList::from_vec(self.items)
    }
}
