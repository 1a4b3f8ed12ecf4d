//! The rule of a hall and what its steps tell. These types are for contracts alone.

use crate::part::Part;
use crate::view::View;
use atomic_table::{Join, Play, Split, TableRule};
use std::marker::{Brand, PhantomData};
use std::snapshot::Snapshot;

/// What a hall was made with: its parts, and the limits of its counters.
#[derive(Drop)]
pub struct Made<T> {
    pub parts: Snapshot<Vec<T>>,
    pub limits: Snapshot<Vec<u64>>,
    /// How many places at the front have their words side by side.
    pub packed: u32,
}

/// The rule that each step of a hall keeps.
pub struct Law;

impl<T: Part> TableRule<T, View<T>, Made<T>> for Law {
    ghost use Rattle.pool_hall.specs.Made.{parts_of, limits_in};
    ghost use Rattle.pool_hall.specs.Rule.{Lawful, first_view};

    ghost holds = { λ k. Lawful T.meaning (parts_of k) (limits_in k) k.packed };

    ghost first = { λ k. first_view (parts_of k) (limits_in k) };
}

/// A number of a step that the step itself doesn't tell: its place, its counter, or how many portions it gives away.
pub(crate) trait Number {
    ghost use Rattle.std.specs.Prelude.{ℕ};

    ghost number: { ℕ };
}

impl Number for Brand {
    ghost number = { 0 };
}

// What a try of a place, a put, and the steps on a counter tell.
pub(crate) struct Take<N> {
    marker: PhantomData<N>,
}

impl<T: Part, N: Number> Play<T, View<T>> for Take<N> {
    ghost use Rattle.pool_hall.specs.Step.{took};

    ghost then = { took T.meaning N.number };
}

pub(crate) struct Put;

impl<T: Part> Play<T, View<T>> for Put {
    ghost use Rattle.pool_hall.specs.Step.{gave};

    ghost then = { gave T.meaning };
}

pub(crate) struct Add<N> {
    marker: PhantomData<N>,
}

impl<T: Part, N: Number> Play<T, View<T>> for Add<N> {
    ghost use Rattle.pool_hall.specs.Step.{added};

    ghost then = { added T.meaning N.number };
}

pub(crate) struct Subtract<N> {
    marker: PhantomData<N>,
}

impl<T: Part, N: Number> Play<T, View<T>> for Subtract<N> {
    ghost use Rattle.pool_hall.specs.Step.{subtracted};

    ghost then = { subtracted T.meaning N.number };
}

pub(crate) struct Load<N> {
    marker: PhantomData<N>,
}

impl<T: Part, N: Number> Play<T, View<T>> for Load<N> {
    ghost use Rattle.pool_hall.specs.Step.{loaded};

    ghost then = { loaded T.meaning N.number };
}

// A split that gives so many portions away.
pub(crate) struct Cut<N> {
    marker: PhantomData<N>,
}

impl<T, N: Number> Split<View<T>> for Cut<N> {
    ghost use Rattle.pool_hall.specs.Step.{left_with, newcomer};

    ghost left = { left_with N.number };

    ghost right = { newcomer N.number };
}

// A join: all goes to the seat that stays.
pub(crate) struct Both;

impl<T> Join<View<T>> for Both {
    ghost use Rattle.pool_hall.specs.Step.{joined};
    ghost use Rattle.pool_hall.specs.Rule.{nobody};

    ghost both = { joined };

    ghost spent = { nobody };
}
