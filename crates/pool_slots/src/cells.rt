use pool_images::MemoryImageSlot;
use pool_pages::{PageRegion, Pages};

/// What the cell of a slot holds.
#[derive(Drop)]
pub enum ImageSlot<P: Pages> {
    /// The region as it was made, or as a table or a stack has it.
    Unmapped(PageRegion<P>),
    /// A slot of which nothing is known.
    Unknown(MemoryImageSlot<P>),
    /// A slot that was used before and is clean.
    PreviouslyUsed(MemoryImageSlot<P>),
    /// Nothing: whoever uses the slot has it.
    Taken,
}
