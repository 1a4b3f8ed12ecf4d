ghost use Rattle.std.specs.Prelude.{◌≡◌, ◌==◌, false, true, length, IfOk};
ghost use Rattle.pool_pages.specs.Told.{NoMoreThanListed};
ghost use Rattle.pool_pages.specs.FailingTold.{lets_through, no_counts, counts_after_call};

use crate::call_counts::{CallCounts, CallKind, risen};
use crate::call_plan::CallPlan;
use pool_types::PlainList;
use std::alloc::{AllocError, Global};
use std::marker::Model;

/// A region's list of failing calls, and what was counted under it. No more calls are refused than are listed.
#[derive(Drop)]
pub(crate) struct ListedCalls {
    plan: CallPlan,
    counts: CallCounts,
}

impl Model for ListedCalls {
    ghost use Rattle.pool_pages.specs.Told.{NoMoreThanListed};
    ghost use Rattle.pool_pages.specs.FailingTold.{Listed};

    ghost Value = { Listed };

    ghost view = { λ l. record { listed = l.plan; counts = l.counts } };

    ghost invariant = { λ l. NoMoreThanListed l.plan l.counts.made l.counts.refused };
}

impl ListedCalls {
    /// Before the first call. Owns the list, and takes memory for a sorted one.
    pub(crate) fn new(alloc: Global, listed: PlainList<u64>) -> Result<Self, AllocError>
        ensures { IfOk result (λ calls. calls ≡ record { listed = listed; counts = no_counts }) }
    {
        Ok(ListedCalls {
            plan: CallPlan::new(alloc, listed)?,
            counts: CallCounts::none(),
        })
    }

    /// Whether nothing is listed.
    pub(crate) fn is_empty(&self) -> bool
        ensures { result ≡ (length self.now.listed == 0) }
    {
        self.plan.is_empty()
    }

    pub(crate) fn counts(&self) -> CallCounts
        ensures { result ≡ self.now.counts }
    {
        self.counts
    }

    /// Whether the list lets the next call through, on a range of this length.
    pub(crate) fn lets_through(&self, len: usize) -> bool
        ensures { result ≡ lets_through self.now.listed self.now.counts.made len }
    {
        len == 0 || !self.plan.lists(risen(self.counts.made))
    }

    /// Counts a call that the list refuses.
    pub(crate) fn refuse(&mut self, kind: CallKind, len: usize)
        requires { lets_through self.old.listed self.old.counts.made len ≡ false }
        ensures { self.new ≡ record self.old { counts = counts_after_call kind len true self.old.counts } }
    {
        self.counts = self.counts.after(kind, len, true);
        self.plan.reach(risen(self.counts.made));
    }

    /// Counts a call that is made on the region behind.
    pub(crate) fn pass(&mut self, kind: CallKind, len: usize)
        ensures { self.new ≡ record self.old { counts = counts_after_call kind len false self.old.counts } }
    {
        self.counts = self.counts.after(kind, len, false);
        self.plan.reach(risen(self.counts.made));
    }

    /// Shows the prover that no more calls were refused than are listed. Does nothing.
    pub(crate) fn bounded(&self)
        ensures { NoMoreThanListed self.now.listed self.now.counts.made self.now.counts.refused }
    {
        // a field is read so that the prover knows the invariant
        let _plan = &self.plan;
    }
}
