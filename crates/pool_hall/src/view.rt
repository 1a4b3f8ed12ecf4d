//! What a seat knows.

use crate::unit_name::UnitName;
use std::collections::LinkedList;

/// The place that a seat holds, and the part there as it was when the seat took it.
pub struct HeldPart<T> {
    pub place: u64,
    pub part: T,
}

/// A part's counts as a seat found them at a place, and as it left them.
pub struct CountRise {
    pub place: u64,
    pub before: LinkedList<u64>,
    pub after: LinkedList<u64>,
}

/// What a seat knows. Contracts alone see it: no value of it is made.
pub struct View<T> {
    /// What the hall was made with: the parts in the order of their places, and the counters' limits.
    pub parts: LinkedList<T>,
    pub limits: LinkedList<u64>,
    pub held: Option<HeldPart<T>>,
    pub units: LinkedList<UnitName>,
    /// One entry for each place that was put back.
    pub rises: LinkedList<CountRise>,
    /// The places that were seen to be topped.
    pub topped: LinkedList<u64>,
    /// The counters that were added on, those of them that were below their limit, and those subtracted from.
    pub added: LinkedList<u64>,
    pub low: LinkedList<u64>,
    pub subtracted: LinkedList<u64>,
    pub portions: u64,
}
