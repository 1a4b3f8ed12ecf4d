ghost use Rattle.std.specs.Prelude.{◌≡◌, ◌==◌, ℕ, ◌≤◌, length, true, false, IfOk, IfSome, IfNone};
ghost use Rattle.std.specs.List.{list_any};
ghost use Rattle.std.specs.List.Sorted.{IsNonDecreasing};
ghost use Rattle.pool_pages.specs.FailingTold.{HasNone, IsRising};

use pool_types::PlainList;
use std::alloc::{AllocError, Global};
use std::marker::Model;

/// The numbers of a region's calls that fail, and the next of them. They are sorted once: until a call reaches the next
/// one the list isn't looked at, and then the one after it is found by halving. Contracts see the list as it was given.
#[derive(Drop)]
pub(crate) struct CallPlan {
    listed: PlainList<u64>,
    rising: Vec<u64>,
    from: u64,
    next: u64,
}

impl Model for CallPlan {
    ghost use Rattle.std.specs.Prelude.{ℕ, List};
    ghost use Rattle.pool_pages.specs.FailingTold.{IsCallPlan};

    ghost Value = { List ℕ };

    ghost view = { λ p. p.listed };

    ghost invariant = { λ p. IsCallPlan p.from p.next p.rising.items p.listed };
}

impl CallPlan {
    /// Before the first call. Owns the list, and takes memory for a sorted one.
    pub(crate) fn new(alloc: Global, listed: PlainList<u64>) -> Result<Self, AllocError>
        ensures { IfOk result (λ plan. plan ≡ listed) }
    {
        let rising = in_rising_order(alloc, listed.as_slice())?;
        let next = next_from(rising.as_slice(), 1);
        Ok(CallPlan {
            listed,
            rising,
            from: 1,
            next,
        })
    }

    pub(crate) fn is_empty(&self) -> bool
        ensures { result ≡ (length self.now == 0) }
    {
        self.listed.is_empty()
    }

    /// Whether the call of this number fails.
    pub(crate) fn lists(&self, number: u64) -> bool
        ensures { result ≡ list_any (λ n. n == number) self.now }
    {
        if self.from <= number && number < self.next {
            false
        } else {
            has(self.rising.as_slice(), number)
        }
    }

    /// The next call has this number.
    pub(crate) fn reach(&mut self, number: u64)
        ensures { self.new ≡ self.old }
    {
        if number >= self.next {
            self.next = next_from(self.rising.as_slice(), number);
            self.from = number;
        }
    }
}

// A sorted copy.
fn in_rising_order(alloc: Global, listed: &[u64]) -> Result<Vec<u64>, AllocError>
    ensures { IfOk result (λ rising. IsRising rising.items listed.now) }
{
    let mut rising = Vec::from_slice(alloc, listed)?;
    rising.sort_unstable();
    Ok(rising)
}

// The least number of a sorted list that isn't below `from`, found by halving.
fn least_from(rising: &[u64], from: u64) -> Option<u64>
    requires { IsNonDecreasing rising.now }
    ensures from { IfSome result (λ least. from ≤ least) }
    ensures there { IfSome result (λ least. list_any (λ n. n == least) rising.now ≡ true) }
    ensures least { IfSome result (λ least. HasNone from least rising.now) }
    ensures none { IfNone result ((n : ℕ) → from ≤ n → list_any (λ m. m == n) rising.now ≡ false) }
{
    let at = rising.partition_point(|&call: &u64| call < from);
    if at < rising.len() {
        Some(rising[at])
    } else {
        None
    }
}

fn has(rising: &[u64], number: u64) -> bool
    requires { IsNonDecreasing rising.now }
    ensures { result ≡ list_any (λ n. n == number) rising.now }
{
    match least_from(rising, number) {
        Some(least) => least == number,
        None => false,
    }
}

// The least number of a sorted list that isn't below `from`, or the greatest of its type.
fn next_from(rising: &[u64], from: u64) -> u64
    requires { IsNonDecreasing rising.now }
    ensures { HasNone from result rising.now }
{
    match least_from(rising, from) {
        Some(least) => least,
        None => u64::MAX,
    }
}
