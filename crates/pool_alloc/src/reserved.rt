//! A list whose room is reserved.
ghost use Rattle.std.specs.Prelude.{◌≡◌, ◌+◌, ◌<◌, ◌≤◌, ◌==◌, [], ◌∷◌, ◌++◌, length, slice_index_or, IfOk};
ghost use Rattle.pool_alloc.specs.Reserved.{Reserved, IsPopped};

use std::alloc::{AllocError, Global};
use std::collections::VecDeque;
use std::marker::Model;

/// A list whose room is reserved when it is made. Adding to it takes no memory.
#[derive(Drop)]
pub struct ReservedList<T> {
    pub(crate) items: VecDeque<T>,
    room: usize,
}

impl<T> Model for ReservedList<T> {
    ghost use Rattle.std.specs.Prelude.{◌≤◌, length};
    ghost use Rattle.std.specs.VecDeque.{deque_capacity};
    ghost use Rattle.pool_alloc.specs.Reserved.{Reserved};

    ghost Value = { Reserved T };

    ghost view = { λ l. record { items = l.items.items; room = l.room } };

    ghost invariant = { λ l. (length l.items.items ≤ l.room) × (l.room ≤ deque_capacity l.items) };
}

impl<T> ReservedList<T> {
    /// The empty list, without room. Takes no memory.
    pub fn none(alloc: Global) -> Self
        ensures { result ≡ record { items = []; room = 0 } }
    {
        ReservedList {
            items: VecDeque::new(alloc),
            room: 0,
        }
    }

    pub fn with_room(alloc: Global, room: usize) -> Result<Self, AllocError>
        ensures { IfOk result (λ l. l ≡ record { items = []; room = room }) }
    {
        Ok(ReservedList {
            items: VecDeque::with_capacity(alloc, room)?,
            room,
        })
    }

    pub fn len(&self) -> usize
        ensures value { result ≡ length self.now.items }
        ensures fits { length self.now.items ≤ self.now.room }
    {
        self.items.len()
    }

    pub fn is_empty(&self) -> bool
        ensures { result ≡ (length self.now.items == 0) }
    {
        self.items.is_empty()
    }

    pub fn get(&self, at: usize) -> &T
        requires { at < length self.now.items }
        ensures { result.now ≡ slice_index_or self.now.items at result.now }
    {
        &self.items[at]
    }

    pub fn push(&mut self, item: T)
        requires { length self.old.items < self.old.room }
        ensures { self.new ≡ record self.old { items = self.old.items ++ item ∷ [] } }
    {
        self.items.push_back_reserved(item);
    }

    /// Takes out the first item, if there is one. The others don't move.
    pub fn pop_first(&mut self) -> Option<T>
        ensures { IsPopped self.old result self.new }
    {
        self.items.pop_front()
    }

    /// Takes out the first item. The others don't move.
    pub fn remove_first(&mut self) -> T
        requires { 0 < length self.old.items }
        ensures value { self.old ≡ record self.new { items = result ∷ self.new.items } }
        ensures room { length self.new.items < self.new.room }
    {
        match self.items.pop_front() {
            Some(item) => item,
            None => unreachable!(),
        }
    }
}
