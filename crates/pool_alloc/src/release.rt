//! How far a release is.
ghost use Rattle.std.specs.Prelude.{◌≡◌, ◌+◌, ◌≤◌, ◌<◌, length, drop};
ghost use Rattle.pool_alloc.specs.PoolTotals.{calls_in_release};
ghost use Rattle.pool_alloc.specs.Releases.{released_stripe, nth_taken, not_resident, bytes_kept, releasing};

pub(crate) mod steps;
pub(crate) mod warm;

use crate::frame::{FreedSlot, TakenSlot};
use crate::reserved::ReservedList;
use pool_index::Taken;
use pool_pages::{PageCalls, Pages};
use pool_slots::{Allocator, ImageSlot, Plan};

/// How far a release has come. It goes through the stripes.
#[derive(Drop)]
pub struct ReleaseCursor {
    /// The stripe whose slots are gone through.
    pub stripe: u32,
    /// All slots that were taken so far, by their numbers in their shards. It is what a shard gives its slots into.
    pub local: Taken,
    /// The slots that were taken from the stripe, in order, each with the bytes that it kept resident then.
    pub taken: ReservedList<FreedSlot>,
    /// Whether a decommit of one of them failed.
    pub failed: bool,
    /// How many bytes were released so far. Stands still at the end of its type.
    pub released: u64,
}

/// The next step of a release, with what it has taken.
#[derive(Drop)]
pub enum ReleaseStep<P: Pages> {
    /// Reserve room for the slots that are taken.
    Reserve,
    /// Take all warm slots of the shard of the stripe with this number.
    TakeWarm(ReleaseCursor, u32),
    /// Take the region of the slot at this place of those that were taken.
    TakeRegion(ReleaseCursor, usize),
    /// Decommit its whole region.
    Decommit(ReleaseCursor, usize, TakenSlot, ImageSlot<P>),
    PutRegion(ReleaseCursor, usize, TakenSlot, ImageSlot<P>),
    /// Free this slot, which was the first of those that were taken.
    Free(ReleaseCursor, FreedSlot),
}

impl ReleaseCursor {
    // The allocator of the stripe.
    pub(crate) fn allocator(&self, plan: &Plan) -> Allocator
        requires { self.now.stripe < length plan.now.memories }
        ensures { result ≡ released_stripe plan.now self.now }
    {
        plan.memories.as_slice()[self.stripe as usize]
    }

    // The slot at a place.
    pub(crate) fn slot(&self, at: usize) -> FreedSlot
        requires { at < length self.now.taken.items }
        ensures { result ≡ nth_taken self.now at }
    {
        *self.taken.get(at)
    }

    // The place of the next slot that keeps bytes resident, from this one on, or the number of slots.
    pub(crate) fn next_resident(&self, from: usize) -> usize
        requires { from ≤ length self.now.taken.items }
        ensures { result ≡ from + not_resident (drop from self.now.taken.items) }
    {
        let count = self.taken.len();
        for at in from..count {
            if self.taken.get(at).bytes != 0 {
                return at;
            }
        }
        count
    }

    // What a slot keeps resident once it is freed.
    pub(crate) fn bytes_kept(&self, slot: FreedSlot) -> usize
        ensures { result ≡ bytes_kept self.now slot }
    {
        if self.failed { slot.bytes } else { 0 }
    }

    // The slot is freed: its bytes are released, unless a decommit of the stripe failed.
    pub(crate) fn releasing(&mut self, slot: FreedSlot)
        ensures { self.new ≡ releasing self.old slot }
    {
        if !self.failed {
            self.released = self.released.saturating_add(slot.bytes as u64);
        }
    }
}

impl<P: Pages> ReleaseStep<P> {
    // The calls made so far on the region that the step has.
    pub(crate) fn page_calls(&self) -> PageCalls
        ensures { result ≡ calls_in_release self.now }
    {
        match self {
            ReleaseStep::Decommit(_, _, _, held) => held.page_calls(),
            ReleaseStep::PutRegion(_, _, _, held) => held.page_calls(),
            _ => PageCalls::none(),
        }
    }
}
