//! Holding a place for one call on its part.
ghost use Rattle.std.specs.Prelude.{◌<◌, length};
ghost use Rattle.pool_hall.specs.Step.{Taken, MayPut};
ghost use Rattle.pool_hall.specs.Seat.{made_with, limits_of, view, IsSeatOf, IsFree};
ghost use Rattle.pool_hall.specs.Held.{IsHeld};

use crate::hall::{Hall, HallSeat};
use crate::part::Part;
use std::sync::Wait;

/// One call on a part, made while a seat holds the part's place. What the caller brings, and what it keeps for the next
/// place, stands in the value.
pub trait PartCall<T> {
    type Answer;

    /// What the call needs, of itself and of the part.
    ghost needs: { Self → T → Type 0 };

    /// What it does: from itself and the part before, by its answer, to itself and the part after.
    ghost does: { Self → T → Self.Answer → Self → T → Type 0 };

    fn call(&mut self, part: &mut T) -> Self::Answer
        requires { needs self.old part.old }
        ensures { does self.old part.old result self.new part.new };
}

impl<T: Part> Hall<T> {
    /// Waits until the place is free, makes one call on its part, and gives the place back.
    pub fn hold<R: Wait, C: PartCall<T>>(
        &self,
        rt: &R,
        seat: &mut HallSeat<T>,
        place: u32,
        call: &mut C,
    ) -> C::Answer
        requires own { IsSeatOf self.now seat.old }
        requires free { IsFree seat.old }
        requires place { place < length (made_with self.now) }
        // The call may be made on whatever part is there by what a take tells, and what it leaves may be put.
        requires can { (x : T) → Taken T.meaning (made_with self.now) (limits_of self.now) place x (view seat.old) → C.needs call.old x }
        requires may { (x y : T) (r : C.Answer) (d : C) → Taken T.meaning (made_with self.now) (limits_of self.now) place x (view seat.old) → C.does call.old x r d y → MayPut T.meaning (made_with self.now) (limits_of self.now) place x y (view seat.old).units }
        ensures own { IsSeatOf self.now seat.new }
        ensures free { IsFree seat.new }
        ensures held { IsHeld T.meaning (made_with self.now) (limits_of self.now) place (λ x y. C.does call.old x result call.new y) (view seat.old) (view seat.new) }
    {
        self.take(rt, seat, place);
        let answer = call.call(seat.part(self));
        self.put(seat);
        answer
    }
}
