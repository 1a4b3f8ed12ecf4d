ghost use Rattle.std.specs.Prelude.{◌≡◌, ◌<◌, ◌^◌};
ghost use Rattle.pool_slots.specs.Slabs.{NumberingsAgree, local_of, stripe_of, unstriped};

use crate::allocation_index::MemoryAllocationIndex;

/// The number of a slot among those of its stripe. Slots are dealt out to the stripes in turn.
#[derive(Clone, Copy, Debug, PartialEq, Eq, PartialOrd, Ord, Hash)]
pub struct StripedAllocationIndex(pub u32);

impl StripedAllocationIndex {
    /// The stripe of a slot, and its number there.
    pub fn from_unstriped_slot_index(
        index: MemoryAllocationIndex,
        num_stripes: usize,
    ) -> (usize, StripedAllocationIndex)
        requires { 0 < num_stripes }
        ensures stripe { result.0 ≡ stripe_of index.0 num_stripes }
        ensures below { result.0 < num_stripes }
        ensures local { result.1.0 ≡ local_of index.0 num_stripes }
    {
        let slot = index.index();
        let local = slot / num_stripes;
        (slot % num_stripes, StripedAllocationIndex(local as u32))
    }

    /// The slot with this number in a stripe.
    pub fn as_unstriped_slot_index(self, stripe: usize, num_stripes: usize) -> MemoryAllocationIndex
        requires some { 0 < num_stripes }
        requires fits { unstriped self.0 stripe num_stripes < 2 ^ 32 }
        ensures { result.0 ≡ unstriped self.0 stripe num_stripes }
    {
        let slot = self.0 as usize * num_stripes + stripe;
        MemoryAllocationIndex(slot as u32)
    }
}

/// Both ways of numbering slots give the same slots. Costs nothing: the law is a fact about what the calls' contracts say.
pub fn numberings_agree()
    ensures { NumberingsAgree }
{}
