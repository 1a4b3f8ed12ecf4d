//! Cutting a seat in two and joining two seats.
ghost use Rattle.std.specs.Prelude.{◌≡◌, ◌<◌};
ghost use Rattle.pool_hall.specs.Step.{left_with, newcomer, joined};
ghost use Rattle.pool_hall.specs.Seat.{view, IsSeatOf, IsFree, SamePlace};

use crate::hall::{Hall, HallSeat};
use crate::law::{Both, Cut, Number};
use crate::part::Part;
use std::marker::Brand;

impl<T: Part> Hall<T> {
    // `N` names the portions, since what a split of the table tells can't read the call's number.
    fn cut<N: Number>(&self, seat: &mut HallSeat<T>, portions: u32) -> HallSeat<T>
        requires own { IsSeatOf self.now seat.old }
        requires named { N.number ≡ portions }
        requires some { 0 < portions }
        requires fewer { portions < (view seat.old).portions }
        ensures left { view seat.new ≡ left_with portions (view seat.old) }
        ensures given { view result ≡ newcomer portions (view seat.old) }
        ensures own { IsSeatOf self.now seat.new × IsSeatOf self.now result }
        ensures same { SamePlace seat.old seat.new }
        ensures still_free { IsFree seat.old → IsFree seat.new }
        ensures free { IsFree result }
    {
        // The contract alone reads the number.
        let _ = portions;
        let other = self.table.shared.split_seat::<Cut<N>>(&mut seat.seat);
        HallSeat {
            seat: other,
            place: 0,
        }
    }

    /// Makes a new seat with these portions and nothing else. The seat keeps the rest.
    pub fn split(&self, seat: &mut HallSeat<T>, portions: u32) -> HallSeat<T>
        requires own { IsSeatOf self.now seat.old }
        requires some { 0 < portions }
        requires fewer { portions < (view seat.old).portions }
        ensures left { view seat.new ≡ left_with portions (view seat.old) }
        ensures given { view result ≡ newcomer portions (view seat.old) }
        ensures own { IsSeatOf self.now seat.new × IsSeatOf self.now result }
        ensures same { SamePlace seat.old seat.new }
        ensures still_free { IsFree seat.old → IsFree seat.new }
        ensures free { IsFree result }
    {
        self.cut::<Brand>(seat, portions)
    }

    /// All that the other seat has goes to this one.
    pub fn join(&self, seat: &mut HallSeat<T>, other: HallSeat<T>)
        requires own { IsSeatOf self.now seat.old }
        requires other { IsSeatOf self.now other }
        requires free { IsFree other }
        ensures view { view seat.new ≡ joined (view seat.old) (view other) }
        ensures own { IsSeatOf self.now seat.new }
        ensures same { SamePlace seat.old seat.new }
        ensures still_free { IsFree seat.old → IsFree seat.new }
    {
        let HallSeat {
            seat: spent,
            place: _,
        } = other;
        self.table.shared.join_seat::<Both>(&mut seat.seat, spent);
    }
}
