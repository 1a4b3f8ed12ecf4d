//! The laws on parts of a hall. They do nothing.
ghost use Rattle.pool_driver.specs.Laws.{FitsStands, MomentsAreCores, StepsMayPut};
ghost use Rattle.pool_driver.specs.Origins.{about_of, inner_of};
ghost use Rattle.pool_driver.specs.declared.part.HallPart.{HallPart};

use pool_pages::{PageMaker, Pages};
use pool_slots::GcHeap;

/// A part that fits its place may stand there, of whatever kind it is.
pub fn what_fits_stands<P: Pages, H: GcHeap, M: PageMaker>()
    ensures { FitsStands {T = HallPart P H M} (about_of M.told) inner_of }
{}

/// At any moment the parts of a pool's hall are those of a core, on which a frame can make its step whose seat has its units.
/// So what is proved of a core's steps holds of steps that are made part by part, behind locks.
pub fn moments_are_cores<P: Pages, H: GcHeap, M: PageMaker>()
    ensures { MomentsAreCores {T = HallPart P H M} (about_of M.told) inner_of }
{}

/// After a step on the part that a seat holds, the part may be put back, and the seat has what the frame and the answer have.
pub fn steps_may_put<P: Pages, H: GcHeap, M: PageMaker>()
    ensures { StepsMayPut {T = HallPart P H M} (about_of M.told) inner_of }
{}
