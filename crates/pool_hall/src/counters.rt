//! Adding on a counter, subtracting from it, and reading it.
ghost use Rattle.std.specs.Prelude.{◌≡◌, ◌+◌, ◌<◌, length};
ghost use Rattle.pool_hall.specs.Tally.{additions, subtractions, number, all_portions};
ghost use Rattle.pool_hall.specs.Rule.{word_of};
ghost use Rattle.pool_hall.specs.Moment.{Moment};
ghost use Rattle.pool_hall.specs.Step.{add_view, subtract_view, Loaded};
ghost use Rattle.pool_hall.specs.Seat.{made_with, limits_of, packed_of, view, IsSeatOf, IsFree, SamePlace};

use crate::hall::{Hall, HallSeat};
use crate::law::{Add, Load, Number, Subtract};
use crate::part::Part;
use std::marker::Brand;

impl<T: Part> Hall<T> {
    fn counter_word(&self, counter: u32) -> usize
        requires { counter < length (limits_of self.now) }
        ensures value { result ≡ word_of (packed_of self.now) (length (made_with self.now) + counter) }
        ensures within { result < self.now.table.shared.table_id.words }
    {
        self.word(self.table.slot_count() + counter as usize)
    }

    // The three steps on a counter. `N` names it, since what a step of the table tells can't read the call's number.
    fn add_on<N: Number>(&self, seat: &mut HallSeat<T>, counter: u32) -> u64
        requires named { N.number ≡ counter }
        requires own { IsSeatOf self.now seat.old }
        requires counter { counter < length (limits_of self.now) }
        ensures view { view seat.new ≡ add_view counter result (view seat.old) }
        ensures moment { Moment T.meaning (made_with self.now) (limits_of self.now) (view seat.old).units }
        ensures own { IsSeatOf self.now seat.new }
        ensures same { SamePlace seat.old seat.new }
        ensures still_free { IsFree seat.old → IsFree seat.new }
    {
        let word = self.counter_word(counter);
        self.table
            .shared
            .fetch_add::<Add<N>>(&mut seat.seat, word, 1)
    }

    fn subtract_on<N: Number>(&self, seat: &mut HallSeat<T>, counter: u32)
        requires named { N.number ≡ counter }
        requires own { IsSeatOf self.now seat.old }
        requires counter { counter < length (limits_of self.now) }
        requires more { number (subtractions counter) (view seat.old) < number (additions counter) (view seat.old) }
        ensures view { view seat.new ≡ subtract_view counter (view seat.old) }
        ensures moment { Moment T.meaning (made_with self.now) (limits_of self.now) (view seat.old).units }
        ensures own { IsSeatOf self.now seat.new }
        ensures same { SamePlace seat.old seat.new }
        ensures still_free { IsFree seat.old → IsFree seat.new }
    {
        let word = self.counter_word(counter);
        self.table
            .shared
            .fetch_sub::<Subtract<N>>(&mut seat.seat, word, 1);
    }

    fn load_on<N: Number>(&self, seat: &mut HallSeat<T>, counter: u32) -> u64
        requires named { N.number ≡ counter }
        requires own { IsSeatOf self.now seat.old }
        requires counter { counter < length (limits_of self.now) }
        ensures value { (view seat.old).portions ≡ all_portions → Loaded counter result (view seat.old) }
        ensures view { view seat.new ≡ view seat.old }
        ensures moment { Moment T.meaning (made_with self.now) (limits_of self.now) (view seat.old).units }
        ensures own { IsSeatOf self.now seat.new }
        ensures same { SamePlace seat.old seat.new }
        ensures still_free { IsFree seat.old → IsFree seat.new }
    {
        let word = self.counter_word(counter);
        self.table.shared.load::<Load<N>>(&mut seat.seat, word)
    }

    /// Adds one, and answers what the counter was. The addition is low where that was below the counter's limit. Like
    /// each call on a counter it tells of all parts and units at its moment.
    pub fn add(&self, seat: &mut HallSeat<T>, counter: u32) -> u64
        requires own { IsSeatOf self.now seat.old }
        requires counter { counter < length (limits_of self.now) }
        ensures view { view seat.new ≡ add_view counter result (view seat.old) }
        ensures moment { Moment T.meaning (made_with self.now) (limits_of self.now) (view seat.old).units }
        ensures own { IsSeatOf self.now seat.new }
        ensures same { SamePlace seat.old seat.new }
        ensures still_free { IsFree seat.old → IsFree seat.new }
    {
        self.add_on::<Brand>(seat, counter)
    }

    /// Takes one off. The seat has added on the counter more often than it has subtracted.
    pub fn subtract(&self, seat: &mut HallSeat<T>, counter: u32)
        requires own { IsSeatOf self.now seat.old }
        requires counter { counter < length (limits_of self.now) }
        requires more { number (subtractions counter) (view seat.old) < number (additions counter) (view seat.old) }
        ensures view { view seat.new ≡ subtract_view counter (view seat.old) }
        ensures moment { Moment T.meaning (made_with self.now) (limits_of self.now) (view seat.old).units }
        ensures own { IsSeatOf self.now seat.new }
        ensures same { SamePlace seat.old seat.new }
        ensures still_free { IsFree seat.old → IsFree seat.new }
    {
        self.subtract_on::<Brand>(seat, counter);
    }

    /// Reads the counter.
    pub fn load(&self, seat: &mut HallSeat<T>, counter: u32) -> u64
        requires own { IsSeatOf self.now seat.old }
        requires counter { counter < length (limits_of self.now) }
        ensures value { (view seat.old).portions ≡ all_portions → Loaded counter result (view seat.old) }
        ensures view { view seat.new ≡ view seat.old }
        ensures moment { Moment T.meaning (made_with self.now) (limits_of self.now) (view seat.old).units }
        ensures own { IsSeatOf self.now seat.new }
        ensures same { SamePlace seat.old seat.new }
        ensures still_free { IsFree seat.old → IsFree seat.new }
    {
        self.load_on::<Brand>(seat, counter)
    }
}
