//! Where the words of places and counters lie.
ghost use Rattle.std.specs.Prelude.{◌≡◌, ◌^◌, ◌<◌, ◌≤◌};
ghost use Rattle.pool_hall.specs.Made.{word_count};
ghost use Rattle.pool_hall.specs.Rule.{word_of};
ghost use Rattle.pool_hall.specs.Seat.{packed_of};

use crate::hall::Hall;
use crate::part::Part;

// The words of the first places lie side by side, and the others as far apart as keeps them from sharing a cache line.
pub(crate) fn word_of(packed: u32, n: usize) -> usize
    requires { n ≤ 2 ^ 32 }
    ensures { result ≡ word_of packed n }
{
    n + 15 * (n + 1).saturating_sub(packed as usize)
}

impl<T: Part> Hall<T> {
    // The word of a place, and of a counter by its number behind the places.
    #[tactic(auto, using(crate::proofs::Words::word_rises))]
    pub(crate) fn word(&self, n: usize) -> usize
        requires { n < word_count self.now.table.shared.key }
        ensures value { result ≡ word_of (packed_of self.now) n }
        ensures within { result < self.now.table.shared.table_id.words }
    {
        word_of(self.packed, n)
    }
}
