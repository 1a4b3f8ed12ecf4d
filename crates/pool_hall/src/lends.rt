//! The part at the place that a seat holds. A file of its own: its clause names the row of `HallSeat`.
ghost use Rattle.std.specs.Prelude.{◌≡◌, ◌∷◌, []};
ghost use Rattle.std.specs.Borrow.{sem, follows};
ghost use Rattle.pool_hall.specs.contracts.hall.HallSeat.{the_row};
ghost use Rattle.pool_hall.specs.Seat.{IsSeatOf, Holds, HasPart, with_part};

use crate::hall::{Hall, HallSeat};
use crate::part::Part;

impl<T: Part> HallSeat<T> {
    /// The part at the place that the seat holds. When the borrow ends, the seat has what was written through it.
    pub fn part<'a>(&'a mut self, hall: &'a Hall<T>) -> &'a mut T
        requires own { IsSeatOf hall.now self.old }
        requires holds { (was : T) × (is : T) × Holds self.old was is }
        ensures* writes_back { sem 𝓛 (follows (the_row T.row) T.row self.entry.ghost_name result.ghost_name (with_part self.old)) }
        ensures value { HasPart self.old result.now }
    {
        let place = self.place as usize;
        self.seat.slot_mut(&hall.table.shared, place)
    }
}

impl<T: Part> Hall<T> {
    /// The same, with the hall first. Only a proof by hand of the caller knows the seat after this loan.
    pub fn part<'a>(&'a self, seat: &'a mut HallSeat<T>) -> &'a mut T
        requires own { IsSeatOf self.now seat.old }
        requires holds { (was : T) × (is : T) × Holds seat.old was is }
        ensures* writes_back { sem 𝓛 (follows (the_row T.row) T.row seat.entry.ghost_name result.ghost_name (with_part seat.old)) }
        ensures value { HasPart seat.old result.now }
    {
        seat.part(self)
    }
}
