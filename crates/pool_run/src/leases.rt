ghost use Rattle.std.specs.Prelude.{◌≡◌, ◌<◌, length, replicate, slice_index_or, slice_set, None, Some, IfOk, fold, option_map};
ghost use Rattle.pool_run.specs.Numbers.{with_grant};

use pool_alloc::Grant;
use pool_pages::{PageCalls, Pages};
use pool_slots::PlainHeap;
use std::alloc::{AllocError, Global};
use std::marker::Model;

/// A party's live grants, by the numbers of its commands.
#[derive(Drop)]
pub struct Leases<P: Pages> {
    places: Vec<Option<Grant<P, PlainHeap>>>,
}

impl<P: Pages> Model for Leases<P> {
    ghost use Rattle.std.specs.Prelude.{List, Option};
    ghost use Rattle.pool_alloc.specs.declared.frame.Grant.{Grant};
    ghost use Rattle.pool_slots.specs.declared.listed_heaps.PlainHeap.{PlainHeap};

    ghost Value = { List (Option (Grant P PlainHeap)) };

    ghost view = { λ l. l.places.items };
}

impl<P: Pages> Leases<P> {
    /// A place for each of `count` commands, and no grant.
    pub fn new(alloc: Global, count: usize) -> Result<Self, AllocError>
        ensures { IfOk result (λ l. l ≡ replicate count None) }
    {
        let mut places = Vec::with_capacity(alloc, count)?;
        for place in 0..count {
            places.push(None)?;
        }
        Ok(Leases { places })
    }

    pub fn len(&self) -> usize
        ensures { result ≡ length self.now }
    {
        self.places.len()
    }

    /// The grant of a command, where it is live.
    pub fn get(&self, of: usize) -> Option<&Grant<P, PlainHeap>>
        ensures { option_map (λ g. g.now) result ≡ slice_index_or self.now of None }
    {
        if of < self.places.len() {
            self.places[of].as_ref()
        } else {
            None
        }
    }

    /// Takes out the grant of a command.
    pub fn take(&mut self, of: usize) -> Option<Grant<P, PlainHeap>>
        ensures value { result ≡ slice_index_or self.old of None }
        ensures rest { self.new ≡ slice_set self.old of None }
    {
        if of < self.places.len() {
            self.places[of].take()
        } else {
            None
        }
    }

    /// Puts a grant into the place of a command.
    pub fn put(&mut self, of: usize, grant: Grant<P, PlainHeap>)
        requires { of < length self.old }
        ensures { self.new ≡ slice_set self.old of (Some grant) }
    {
        self.places[of] = Some(grant);
    }

    /// The calls on the regions of the live grants so far, added to these.
    pub fn page_calls(&self, calls: PageCalls) -> PageCalls
        ensures { result ≡ fold with_grant calls self.now }
    {
        let mut total = calls;
        for place in &self.places {
            total = with_grant(total, place);
        }
        total
    }
}

fn with_grant<P: Pages>(calls: PageCalls, place: &Option<Grant<P, PlainHeap>>) -> PageCalls
    ensures { result ≡ with_grant calls place.now }
{
    match place {
        None => calls,
        Some(Grant::Instance(lease)) => calls.plus(lease.page_calls()),
        Some(Grant::Component) => calls,
        Some(Grant::Memory(lease)) => calls.plus(lease.page_calls()),
        Some(Grant::Table(lease)) => calls.plus(lease.page_calls()),
        Some(Grant::Stack(lease)) => calls.plus(lease.page_calls()),
        Some(Grant::Heap(_, memory)) => calls.plus(memory.page_calls()),
        Some(Grant::HeapOver(_)) => calls,
    }
}
