ghost use Rattle.std.specs.Prelude.{◌≡◌, ◌+◌, ◌<◌, ◌≤◌, [], ◌∷◌, ◌++◌, ◌↔◌, length, drop, List, IsSome, IfOk, MatchOption};
ghost use Rattle.std.specs.Option.{option_to_list};
ghost use Rattle.smallvec.specs.SmallVec.{small_vec_len};
ghost use Rattle.pool_slots.specs.declared.queued_range.QueuedRange.{QueuedRange};

use crate::queued_range::QueuedRange;
use smallvec::SmallVec;
use std::alloc::{AllocError, Global};
use std::marker::Model;

/// How many ranges lie in the list itself, and take no memory when it is made.
const INLINE_RANGES: usize = 4;

/// Ranges in order, which leave from the front, with room for so many. What is pushed within the room takes no memory.
#[derive(Drop)]
pub(crate) struct RangeItems {
    list: SmallVec<QueuedRange, INLINE_RANGES>,
    // So many at the front of the list have left.
    left: usize,
    room: usize,
}

impl Model for RangeItems {
    ghost use Rattle.std.specs.Prelude.{◌+◌, ◌≤◌, length, drop};
    ghost use Rattle.pool_slots.specs.SlotQueues.{RangeList};

    ghost Value = { RangeList };

    ghost view = { λ l. record { items = drop l.left l.list.items; room = l.room } };

    ghost invariant = { λ l. (l.left ≤ length l.list.items) × (length l.list.items ≤ l.left + l.room) × (l.room ≤ l.list.capacity) };
}

impl RangeItems {
    pub(crate) fn new(alloc: Global, room: usize) -> Result<Self, AllocError>
        ensures { IfOk result (λ l. l ≡ record { items = []; room = room }) }
    {
        let list = SmallVec::with_capacity(alloc, room)?;
        Ok(RangeItems {
            list,
            left: 0,
            room,
        })
    }

    pub(crate) fn len(&self) -> usize
        ensures value { result ≡ length self.now.items }
        ensures within { length self.now.items ≤ self.now.room }
    {
        self.list.len() - self.left
    }

    /// The first, if there is one.
    pub(crate) fn first(&self) -> Option<QueuedRange>
        ensures { MatchOption result (self.now.items ≡ []) (λ r. (rest : List QueuedRange) × (self.now.items ≡ r ∷ rest)) }
    {
        self.list.as_slice().get(self.left).copied()
    }

    /// Adds one at the end.
    pub(crate) fn push(&mut self, range: QueuedRange)
        requires { length self.old.items < self.old.room }
        ensures { self.new ≡ record self.old { items = self.old.items ++ range ∷ [] } }
    {
        drop_front(&mut self.list, self.left);
        self.left = 0;
        self.list.push_reserved(range);
    }

    /// Takes out the first.
    pub(crate) fn pop_front(&mut self) -> Option<QueuedRange>
        ensures items { self.old.items ≡ option_to_list result ++ self.new.items }
        ensures variant { IsSome result ↔ (0 < length self.old.items) }
        ensures room { self.new.room ≡ self.old.room }
    {
        if self.left >= self.list.len() {
            return None;
        }
        let first = self.list[self.left];
        self.left += 1;
        Some(first)
    }

    /// Moves all of the other list behind these.
    pub(crate) fn append(&mut self, other: &mut RangeItems)
        requires { length self.old.items + length other.old.items ≤ self.old.room }
        ensures value { self.new ≡ record self.old { items = self.old.items ++ other.old.items } }
        ensures other { other.new ≡ record other.old { items = [] } }
    {
        drop_front(&mut self.list, self.left);
        self.left = 0;
        drop_front(&mut other.list, other.left);
        other.left = 0;
        let Ok(()) = self.list.append(&mut other.list) else {
            unreachable!()
        };
    }

    /// Drops all.
    pub(crate) fn clear(&mut self)
        ensures { self.new ≡ record self.old { items = [] } }
    {
        self.list.clear();
        self.left = 0;
    }
}

// Drops so many at the front. It moves the others, unless there are none, and that happens only where a queue is pushed to
// in the midst of a flush.
fn drop_front(list: &mut SmallVec<QueuedRange, INLINE_RANGES>, count: usize)
    requires { count ≤ small_vec_len list.old }
    ensures items { list.new.items ≡ drop count list.old.items }
    ensures capacity { list.new.capacity ≡ list.old.capacity }
{
    if count == 0 {
        return;
    }
    let kept = list.len() - count;
    list.rotate_left(count);
    list.truncate(kept);
}
