//! The list of a pool's parts.
ghost use Rattle.std.specs.Prelude.{◌≡◌};
ghost use Rattle.pool_alloc.specs.Closing.{all_free};
ghost use Rattle.pool_alloc.specs.PoolTotals.{warm_slots, resident_sum, calls_of_parts};

pub(crate) mod numbers;
mod place;

use pool_index::SlotKind;
use pool_pages::{PageCalls, Pages};
use pool_slots::{GcHeap, PoolPart};
use std::marker::Model;

/// The parts of the pool, by their places.
#[derive(Drop)]
pub struct Parts<P: Pages, H: GcHeap> {
    pub(crate) list: Vec<PoolPart<P, H>>,
}

impl<P: Pages, H: GcHeap> Model for Parts<P, H> {
    ghost use Rattle.std.specs.Prelude.{List};
    ghost use Rattle.pool_slots.specs.declared.part.PoolPart.{PoolPart};

    ghost Value = { List (PoolPart P H) };

    ghost view = { λ p. p.list.items };
}

impl<P: Pages, H: GcHeap> Parts<P, H> {
    pub fn new(list: Vec<PoolPart<P, H>>) -> Self
        ensures { result ≡ list.items }
    {
        Parts { list }
    }

    /// Takes no memory.
    pub fn into_list(self) -> Vec<PoolPart<P, H>>
        ensures { result.items ≡ self }
    {
        self.list
    }

    /// How many slots of a kind are warm. Stands still at the end of its type.
    pub fn unused_warm_slots(&self, kind: SlotKind) -> u32
        ensures { result ≡ warm_slots kind self.now }
    {
        let mut slots = 0u32;
        for part in &self.list {
            slots = slots.saturating_add(numbers::warm_in(kind, part));
        }
        slots
    }

    /// How many bytes the warm slots of a kind keep resident. Stands still at the end of its type.
    pub fn unused_bytes_resident(&self, kind: SlotKind) -> usize
        ensures { result ≡ resident_sum kind self.now }
    {
        let mut bytes = 0usize;
        for part in &self.list {
            bytes = bytes.saturating_add(numbers::resident_in(kind, part));
        }
        bytes
    }

    /// Whether no slot is used.
    pub fn is_empty(&self) -> bool
        ensures { result ≡ all_free self.now }
    {
        self.list.iter().all(|part| numbers::has_free(part))
    }

    /// The calls made so far on the regions that lie in cells and queues, together.
    pub fn page_calls(&self) -> PageCalls
        ensures { result ≡ calls_of_parts self.now }
    {
        let mut calls = PageCalls::none();
        for part in &self.list {
            calls = calls.plus(numbers::part_calls(part));
        }
        calls
    }
}
