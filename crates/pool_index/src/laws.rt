//! Laws on a shard's picks and frees, proved of the definitions. Each function does nothing.
ghost use Rattle.pool_index.specs.Laws.{AffineSlotFirst, AffineSlotsAreFiltered, TakenSlotsComeBack};

/// The slots that are affine to a memory are the warm list filtered by it.
pub fn affine_slots_are_filtered()
    // A pick for the memory takes the last of them.
    ensures first { AffineSlotFirst }
    // A pick by affinity alone takes the last of them too, and leaves the others, and those of other memories, in order.
    ensures filtered { AffineSlotsAreFiltered }
{}

/// Freeing all warm slots in the order in which they were taken leaves the shard as it was, but for the count of such
/// takings.
pub fn taken_slots_come_back()
    ensures { TakenSlotsComeBack }
{}
