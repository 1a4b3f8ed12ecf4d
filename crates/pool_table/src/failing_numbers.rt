ghost use Rattle.std.specs.Prelude.{◌≡◌, ◌==◌, ◌-◌, ◌<◌, ◌≤◌, length, slice_index_or, true};
ghost use Rattle.std.specs.List.{list_any};
ghost use Rattle.std.specs.List.Sorted.{IsNonDecreasing};
ghost use Rattle.pool_table.specs.FailingNumbers.{HasBelow};

use pool_types::PlainList;
use std::fmt;
use std::fmt::{Debug, Formatter, Write};
use std::marker::Model;
use std::snapshot::Snapshot;

/// The numbers of the calls that fail, sorted once, and a place among them: a call is compared with the numbers on both
/// sides of it. Contracts see the list as it was given.
#[derive(Drop)]
pub struct FailingNumbers {
    // The list as it was given, for contracts alone. It has no bytes.
    given: Snapshot<PlainList<u64>>,
    sorted: Vec<u64>,
    // How many of them are below the number that was asked for last.
    below: usize,
}

impl Model for FailingNumbers {
    ghost use Rattle.std.specs.Prelude.{ℕ, List};
    ghost use Rattle.std.specs.List.Sorted.{IsNonDecreasing};
    ghost use Rattle.pool_table.specs.FailingNumbers.{HasSame};

    ghost Value = { List ℕ };

    ghost view = { λ n. n.given.value };

    ghost invariant = { λ n. IsNonDecreasing n.sorted.items × HasSame n.sorted.items n.given.value };
}

impl Debug for FailingNumbers {
    fn fmt<W: Write>(&self, f: &mut Formatter<W>) -> fmt::Result {
        self.sorted.fmt(f)
    }
}

impl FailingNumbers {
    /// Before the first call. Sorts the list where it lies, and takes no memory.
    pub fn new(listed: PlainList<u64>) -> Self
        ensures { result ≡ listed }
    {
        let given = Snapshot::of(&listed);
        let mut sorted = listed.into_vec();
        sorted.sort_unstable();
        FailingNumbers {
            given,
            sorted,
            below: 0,
        }
    }

    /// Whether the call of this number fails. Where the numbers asked for rise, each listed one is passed once; a number that
    /// lies before the last one is looked for from the first listed one on.
    pub fn lists(&mut self, number: u64) -> bool
        ensures same { self.new ≡ self.old }
        ensures listed { result ≡ list_any (λ n. n == number) self.old }
    {
        self.below = count_below(self.sorted.as_slice(), self.below, number);
        is_at(self.sorted.as_slice(), self.below, number)
    }
}

// How many of these numbers are below one. It is counted from `before` on, where the last of so many is below it.
fn count_below(sorted: &[u64], before: usize, number: u64) -> usize
    requires { IsNonDecreasing sorted.now }
    ensures { HasBelow result number sorted.now }
{
    let mut count = 0;
    if is_below(sorted, before, number) {
        count = before;
    }
    while count < sorted.len() && sorted[count] < number {
        count += 1;
    }
    count
}

// Whether there are so many numbers, and the last of them is below this one.
fn is_below(sorted: &[u64], count: usize, number: u64) -> bool
    ensures { result ≡ true → (count ≤ length sorted.now) × (0 < count) × (slice_index_or sorted.now (count - 1) 0 < number) }
{
    count > 0 && count <= sorted.len() && sorted[count - 1] < number
}

// Whether the number stands behind those that are below it.
fn is_at(sorted: &[u64], below: usize, number: u64) -> bool
    requires rising { IsNonDecreasing sorted.now }
    requires below { HasBelow below number sorted.now }
    ensures { result ≡ list_any (λ n. n == number) sorted.now }
{
    below < sorted.len() && sorted[below] == number
}
