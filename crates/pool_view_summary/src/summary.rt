//! Who counts a run.
ghost use Rattle.std.specs.Prelude.{◌≡◌, ◌<◌, ℕ, length, replicate, slice_get, slice_index_or, slice_set, Option, IfOk};
ghost use Rattle.pool_run.specs.Watching.{TurnTold};
ghost use Rattle.pool_view_summary.specs.Costs.{no_sums, with_step};
ghost use Rattle.pool_view_summary.specs.Counts.{counted, no_counts};
ghost use Rattle.pool_view_summary.specs.Made.{IsBoundOf, made_by};
ghost use Rattle.pool_view_summary.specs.Seen.{seen_of, unseen};
ghost use Rattle.pool_view_summary.specs.Summing.{AddsStep, seen_at, sums_of};

use crate::costs::Costs;
use crate::counts::Counts;
use crate::made::{bound_of, made_by};
use crate::marks::Marks;
use crate::seen::{Seen, seen_of};
use pool_pages::Pages;
use pool_run::{Input, Reply, Run, Watcher};
use std::alloc::{AllocError, Global};

/// Sums up a run as it is made.
#[derive(Drop)]
pub struct Summary {
    pub counts: Counts,
    pub costs: Costs,
    pub marks: Marks,
    /// What is seen of each party since its last turn.
    pub seen: Vec<Seen>,
}

fn none_seen(alloc: Global, count: usize) -> Result<Vec<Seen>, AllocError>
    ensures { IfOk result (λ v. v.items ≡ replicate count unseen) }
{
    let mut all = Vec::with_capacity(alloc, count)?;
    for party in 0..count {
        all.push(Seen::none())?;
    }
    Ok(all)
}

fn seen_at(list: &[Seen], party: usize) -> Seen
    ensures { result ≡ seen_at party list.now }
{
    match list.get(party) {
        None => Seen::none(),
        Some(seen) => *seen,
    }
}

fn put_seen(list: &mut Vec<Seen>, party: usize, seen: Seen)
    ensures { list.new.items ≡ slice_set list.old.items party seen }
{
    if party < list.len() {
        list[party] = seen;
    }
}

// The bound of the command that a turn ended, if it ended one and the bound is known.
fn bound_if<P: Pages>(
    run: &Run<P>,
    input: &Input,
    party: usize,
    reply: &Option<Reply>,
) -> Option<u64>
    requires { party < length run.now.parties }
    ensures { IsBoundOf input.now (record { party = party; run = run.now; reply = reply.now }) result }
{
    match reply {
        None => None,
        Some(_) => bound_of(run, input, party, run.done(party).saturating_sub(1)),
    }
}

impl Summary {
    /// A summary of a run of the input that begins.
    pub fn new(alloc: Global, input: &Input) -> Result<Self, AllocError>
        ensures counts { IfOk result (λ s. s.counts ≡ no_counts) }
        ensures sums { IfOk result (λ s. sums_of s ≡ no_sums input.now) }
        ensures seen { IfOk result (λ s. s.seen.items ≡ replicate (length input.now.parties) unseen) }
    {
        Ok(Summary {
            counts: Counts::none(),
            costs: Costs::none(),
            marks: Marks::new(alloc, input)?,
            seen: none_seen(alloc, input.parties.len())?,
        })
    }

    // Adds what the turn of a party did and cost.
    fn add<P: Pages>(&mut self, run: &Run<P>, input: &Input, party: usize, reply: &Option<Reply>)
        requires { party < length run.now.parties }
        ensures counts { self.new.counts ≡ self.old.counts }
        ensures step { AddsStep input.now (record { party = party; run = run.now; reply = reply.now }) (seen_at party self.old.seen.items) (sums_of self.old) (sums_of self.new) }
        ensures seen { self.new.seen.items ≡ slice_set self.old.seen.items party (seen_of input.now party (slice_get run.now.parties party)) }
    {
        let before = seen_at(self.seen.as_slice(), party);
        let after = seen_of(run, input, party);
        let bound = bound_if(run, input, party, reply);
        let made = made_by(&before, &after, bound, run, input, party, reply);
        self.costs.add(&made, &self.marks);
        self.marks.mark(&made);
        put_seen(&mut self.seen, party, after)
    }
}

impl<P: Pages> Watcher<P> for Summary {
    ghost use Rattle.pool_view_summary.specs.Summing.{SumsTurn};

    type Note = ();

    ghost leads = { SumsTurn };

    fn look(&self, run: &Run<P>, input: &Input, party: usize) {}

    fn learn(
        &mut self,
        note: (),
        run: &Run<P>,
        input: &Input,
        party: usize,
        reply: &Option<Reply>,
    ) {
        self.counts.count(run, input, party, reply);
        self.add(run, input, party, reply)
    }
}
