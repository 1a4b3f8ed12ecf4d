//! Taking a place and putting it back.
ghost use Rattle.std.specs.Prelude.{◌≡◌, ◌<◌, true, false, length};
ghost use Rattle.pool_hall.specs.Seat.{made_with, view, IsSeatOf, IsFree, IsTaken, CanPut, IsPut};

use crate::hall::{Hall, HallSeat};
use crate::law::{Number, Put, Take};
use crate::part::Part;
use std::marker::Brand;
use std::sync::Wait;
use std::thread;

impl<T: Part> Hall<T> {
    // Takes the place, which `N` names, where it is free. Where it is not, the seat stays as it was.
    fn try_take<N: Number>(&self, seat: &mut HallSeat<T>, place: u32) -> bool
        requires named { N.number ≡ place }
        requires own { IsSeatOf self.now seat.old }
        requires free { IsFree seat.old }
        requires place { place < length (made_with self.now) }
        ensures own { IsSeatOf self.now seat.new }
        ensures place { result ≡ true → seat.new.place ≡ place }
        ensures taken { result ≡ true → IsTaken T.meaning self.now seat.old seat.new }
        ensures missed { result ≡ false → IsFree seat.new × (view seat.new ≡ view seat.old) }
    {
        let word = self.word(place as usize);
        let found = self.table.shared.swap::<Take<N>>(&mut seat.seat, word, 1);
        let free = found == 0;
        if !free {
            return false;
        }
        seat.place = place;
        true
    }

    /// Waits until the place is free, and holds it. The seat learns of the part there, and of all parts and units at that
    /// moment. Nothing is promised of how long that takes.
    pub fn take<R: Wait>(&self, rt: &R, seat: &mut HallSeat<T>, place: u32)
        requires own { IsSeatOf self.now seat.old }
        requires free { IsFree seat.old }
        requires place { place < length (made_with self.now) }
        ensures own { IsSeatOf self.now seat.new }
        ensures place { seat.new.place ≡ place }
        ensures taken { IsTaken T.meaning self.now seat.old seat.new }
    {
        for _ in rt.forever() {
            if self.try_take::<Brand>(seat, place) {
                return;
            }
            thread::yield_now();
        }
        unreachable!()
    }

    /// Gives back the place that the seat holds.
    pub fn put(&self, seat: &mut HallSeat<T>)
        requires own { IsSeatOf self.now seat.old }
        requires may { CanPut T.meaning self.now seat.old }
        ensures own { IsSeatOf self.now seat.new }
        ensures free { IsFree seat.new }
        ensures view { IsPut T.meaning seat.old seat.new }
    {
        let word = self.word(seat.place as usize);
        self.table.shared.store::<Put>(&mut seat.seat, word, 0);
    }
}
