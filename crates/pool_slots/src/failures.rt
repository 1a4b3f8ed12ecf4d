//! What holds of the regions in a part, for a proof to cite: where a region tells its plan, no more of its calls failed than that
//! lists. Nothing here changes a region.
ghost use Rattle.pool_slots.specs.CellOf.{cell_of};
ghost use Rattle.pool_slots.specs.Listed.{CellFailsAsListed, PartFailsAsListed, SlotFailsAsListed};

use crate::cells::ImageSlot;
use crate::heap_maker::GcHeap;
use crate::part::PoolPart;
use crate::queued_slot::{HeldSlot, QueuedSlot};
use pool_pages::Pages;

impl<P: Pages> ImageSlot<P> {
    // What holds of the region in a cell. It does nothing.
    pub(crate) fn failures_law(&self)
        ensures { CellFailsAsListed (cell_of self.now) }
    {
        // Reads, at which the proof learns what each region keeps.
        match self {
            ImageSlot::Unmapped(region) => {
                let _len = region.len();
            }
            ImageSlot::Unknown(slot) => {
                let _len = slot.region().len();
            }
            ImageSlot::PreviouslyUsed(slot) => {
                let _len = slot.region().len();
            }
            ImageSlot::Taken => {}
        }
    }
}

impl<P: Pages> QueuedSlot<P> {
    // What holds of the slot's region. It does nothing.
    pub(crate) fn failures_law(&self)
        ensures { SlotFailsAsListed self.now }
    {
        match &self.held {
            HeldSlot::Memory(slot) => {
                let _len = slot.region().len();
            }
            HeldSlot::Table(held) => {
                let _len = held.region.len();
            }
            HeldSlot::Stack(held) => {
                let _len = held.region.len();
            }
        }
    }
}

impl<P: Pages, H: GcHeap> PoolPart<P, H> {
    /// What holds of each region that lies in the part, for a proof to cite: where it tells its plan, no more of its calls failed
    /// than that lists. It does nothing.
    pub fn failures_law(&self)
        ensures { PartFailsAsListed self.now }
    {
        match self {
            PoolPart::Memory(cell) => cell.failures_law(),
            PoolPart::Table(cell) => cell.failures_law(),
            PoolPart::Stack(cell) => cell.failures_law(),
            PoolPart::Queue(queue) => queue.failures_law(),
            _ => {}
        }
    }
}
