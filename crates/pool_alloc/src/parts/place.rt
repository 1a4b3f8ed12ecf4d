//! The part at a place. A file of its own: its clause names the row of `Parts`.
ghost use Rattle.std.specs.Prelude.{◌≡◌, ◌<◌, length, slice_set};
ghost use Rattle.std.specs.Borrow.{sem, follows};
ghost use Rattle.pool_alloc.specs.contracts.parts.Parts.{the_row};
ghost use Rattle.pool_slots.specs.contracts.part.PoolPart.{the_row as part_row};
ghost use Rattle.pool_slots.specs.Parts.{part_at};

use crate::parts::Parts;
use pool_pages::Pages;
use pool_slots::{GcHeap, PoolPart};

impl<P: Pages, H: GcHeap> Parts<P, H> {
    // The part at a place. When the borrow ends, the list has there what was written through it.
    pub(crate) fn at(&mut self, place: u32) -> &mut PoolPart<P, H>
        requires { place < length self.old }
        ensures* writes_back { sem 𝓛 (follows (the_row P.row H.row P.Pages H.GcHeap) (part_row P.row H.row P.Pages H.GcHeap) self.entry.ghost_name result.ghost_name (slice_set self.old place)) }
        ensures value { result.now ≡ part_at place self.old }
    {
        &mut self.list[place as usize]
    }
}
