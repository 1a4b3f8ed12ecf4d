ghost use Rattle.std.specs.Prelude.{◌≡◌, ◌+◌, ◌<◌, ◌≤◌, ℕ, true, false, [], ◌∷◌, ◌++◌, length, min, Some, IsSome, IfSome, IfNone, IfOk, OnOk, OnErr, if◌then◌else◌, IsTrue};
ghost use Rattle.std.specs.Ordering.{nat_cmp};
ghost use Rattle.std.specs.BTreeMap as tree;
ghost use Rattle.std.specs.BTreeSet as sorted;
ghost use Rattle.std.specs.Map.{set_value};
ghost use Rattle.pool_shared.specs.Spot.{AreDistinct, is_waiting, parked_at, marked_wait, wait_answer, after_wait, recheck_answer, after_recheck, after_notify};
ghost use Rattle.pool_shared.specs.Tickets.{held_at, place_cmp};
ghost use Rattle.pool_shared.specs.declared.wait_step.WaitStep.TheVariants as answer;
ghost use Rattle.pool_shared.specs.declared.waiting.Waiting.{Waiting};

use crate::wait_step::WaitStep;
use crate::waiting::{Waiting, has_passed};
use std::alloc::{AllocError, Global};
use std::collections::{BTreeMap, BTreeSet, HashMap};
use std::marker::Model;

/// Who waits at which address, and who was notified: what stands behind the lock of a parking spot or of a shared memory.
/// Nobody sleeps here: a caller that is parked asks again. Times are in nanoseconds.
///
/// A call costs by the waits that it touches: a fixed number of searches, and for a notification as many for each waiter
/// that it marks. A search costs by the logarithm of how many wait.
#[derive(Drop)]
pub struct SpotState {
    // By ticket. A later wait has a higher one, so they are in order of arrival. A wait that is notified stays until its
    // waiter asks, so its mark needs no room.
    waits: BTreeMap<u64, Waiting>,
    // The ticket of each waiter.
    tickets: HashMap<u32, u64>,
    // The address and the ticket of each wait that isn't marked.
    parked: BTreeSet<(u64, u64)>,
}

impl Model for SpotState {
    ghost use Rattle.std.specs.Prelude.{List, nat_eq};
    ghost use Rattle.std.specs.BTreeMap as tree;
    ghost use Rattle.std.specs.BTreeSet as sorted;
    ghost use Rattle.std.specs.HashMap as hash;
    ghost use Rattle.pool_shared.specs.declared.waiting.Waiting.{Waiting};
    ghost use Rattle.pool_shared.specs.Tickets.{AreIndexed, place_cmp};

    ghost Value = { List Waiting };

    ghost view = { λ s. tree.values s.waits };

    ghost invariant = { λ s. AreIndexed s.waits.entries (hash.get nat_eq s.tickets) (sorted.contains place_cmp s.parked) };
}

impl SpotState {
    /// Nobody waits. Takes no memory.
    pub fn new(alloc: Global) -> SpotState
        ensures { result ≡ [] }
    {
        SpotState {
            waits: BTreeMap::new(alloc),
            tickets: HashMap::new(alloc),
            parked: BTreeSet::new(alloc),
        }
    }

    /// Whether the waiter is parked or marked.
    pub fn is_waiting(&self, waiter: u32) -> bool
        ensures value { result ≡ is_waiting waiter self.now }
        ensures distinct { AreDistinct self.now }
    {
        self.tickets.contains_key(&waiter)
    }

    /// Begins a wait. `same` is whether the word at the address is the expected one. A wait that parks is entered with
    /// the room for its mark, and is the only one that may want memory.
    pub fn wait(
        &mut self,
        addr: u64,
        waiter: u32,
        same: bool,
        deadline: Option<u64>,
        now: u64,
    ) -> Result<WaitStep, AllocError>
        requires { is_waiting waiter self.old ≡ false }
        ensures answer { IfOk result (λ step. step ≡ wait_answer same deadline now) }
        ensures after { OnOk result (self.new ≡ after_wait addr waiter same deadline now self.old) }
        ensures memory { OnErr result (wait_answer same deadline now ≡ answer.Parked) }
        ensures err { OnErr result (self.new ≡ self.old) }
    {
        if !same {
            return Ok(WaitStep::Mismatch);
        }
        if has_passed(deadline, now) {
            return Ok(WaitStep::TimedOut);
        }
        self.park(Waiting {
            addr,
            waiter,
            deadline,
            marked: false,
        })?;
        Ok(WaitStep::Parked)
    }

    /// Asks how the waiter's wait stands. Takes no memory.
    pub fn recheck(&mut self, waiter: u32, now: u64) -> WaitStep
        requires { is_waiting waiter self.old ≡ true }
        ensures answer { result ≡ recheck_answer waiter now self.old }
        ensures after { self.new ≡ after_recheck waiter now self.old }
    {
        let ticket = self.tickets[&waiter];
        let wait = self.waits[&ticket];
        if wait.ends(now) {
            self.tickets.remove(&waiter);
            self.waits.remove(&ticket);
            self.parked.remove(&(wait.addr, ticket));
        }
        wait.step(now)
    }

    /// Marks the first `n` waiters that are parked at the address, or all where they are fewer, and tells how many. Takes
    /// no memory.
    pub fn notify(&mut self, addr: u64, n: u32) -> u32
        ensures answer { result ≡ min n (length (parked_at addr self.old)) }
        ensures after { self.new ≡ after_notify addr n self.old }
    {
        for marked in 0..n {
            if !self.mark_first(addr) {
                return marked;
            }
        }
        n
    }

    // Enters a wait as the last one.
    fn park(&mut self, wait: Waiting) -> Result<(), AllocError>
        requires apart { is_waiting wait.waiter self.old ≡ false }
        requires parked { wait.marked ≡ false }
        ensures ok { OnOk result (self.new ≡ self.old ++ wait ∷ []) }
        ensures err { OnErr result (self.new ≡ self.old) }
    {
        let Some(ticket) = next_ticket(&self.waits) else {
            return Err(AllocError);
        };
        self.tickets.reserve(1)?;
        self.parked.insert((wait.addr, ticket))?;
        if self.waits.insert(ticket, wait).is_err() {
            self.parked.remove(&(wait.addr, ticket));
            return Err(AllocError);
        }
        match self.tickets.insert(wait.waiter, ticket) {
            Ok(_) => Ok(()),
            Err(_) => unreachable!(),
        }
    }

    // Marks the first wait that is parked at the address, and tells whether there is one.
    fn mark_first(&mut self, addr: u64) -> bool
        ensures answer { (if result then 1 else 0) ≡ min 1 (length (parked_at addr self.old)) }
        ensures after { self.new ≡ after_notify addr 1 self.old }
        ensures distinct { AreDistinct self.old }
    {
        let Some(ticket) = first_parked(&self.parked, addr) else {
            return false;
        };
        self.parked.remove(&(addr, ticket));
        mark(&mut self.waits, ticket);
        true
    }
}

// The ticket of a wait that is to be the last. None where a `u64` has no more.
fn next_ticket(waits: &BTreeMap<u64, Waiting>) -> Option<u64>
    ensures above { IfSome result (λ ticket. (other : ℕ) → IsSome (tree.get nat_cmp waits.now other) → other < ticket) }
{
    match waits.last_key_value() {
        Some((last, _)) => last.checked_add(1),
        None => Some(0),
    }
}

// Marks the wait of a ticket.
fn mark(waits: &mut BTreeMap<u64, Waiting>, ticket: u64)
    requires { IsSome (held_at ticket waits.old.entries) }
    ensures entries { IfSome (held_at ticket waits.old.entries) (λ wait. waits.new.entries ≡ set_value (tree.is_at (nat_cmp ticket)) waits.old.entries (marked_wait wait)) }
    ensures others { IfSome (held_at ticket waits.old.entries) (λ wait. (other : ℕ) → held_at other waits.new.entries ≡ (if tree.is_at (nat_cmp ticket) other then Some (marked_wait wait) else held_at other waits.old.entries)) }
    ensures ordered { tree.IsOrdered nat_cmp waits.new }
{
    match waits.get_mut(&ticket) {
        Some(wait) => wait.marked = true,
        None => unreachable!(),
    }
}

// The lowest ticket of those that are parked at the address.
fn first_parked(parked: &BTreeSet<(u64, u64)>, addr: u64) -> Option<u64>
    ensures parked { IfSome result (λ ticket. sorted.contains place_cmp parked.now (addr, ticket) ≡ true) }
    ensures first { IfSome result (λ ticket. (other : ℕ) → sorted.contains place_cmp parked.now (addr, other) ≡ true → ticket ≤ other) }
    ensures none { IfNone result ((other : ℕ) → sorted.contains place_cmp parked.now (addr, other) ≡ false) }
{
    match parked.range((addr, 0)..).next() {
        Some(&(at, ticket)) if at == addr => Some(ticket),
        _ => None,
    }
}
