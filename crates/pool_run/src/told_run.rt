ghost use Rattle.std.specs.Prelude.{◌≡◌, ℕ, ◌+◌, ◌<◌, ◌≤◌, [], length, map, replicate, slice_get, slice_set, slice_index_or, vec_capacity, Some, IfOk, IfSome};
ghost use Rattle.pool_alloc.specs.PoolTotals.{metrics_of};
ghost use Rattle.pool_alloc.specs.Reserved.{no_room};
ghost use Rattle.pool_run.specs.Folds.{commands_of, told_state};
ghost use Rattle.pool_run.specs.Numbers.{calls_of_run};
ghost use Rattle.pool_run.specs.Progress.{is_busy, commands_done, Advances, IsRunOf};
ghost use Rattle.pool_run.specs.RunsMade.{SoFar, IsKept, parties_made, room_for, with_told};
ghost use Rattle.pool_run.specs.Watching.{TellsTurn, TurnTold};

use crate::input::{Input, Party};
use crate::reply::{Reply, ReplyList};
use crate::reserved_vec::ReservedVec;
use crate::run::Run;
use crate::watcher::Watcher;
use pool_alloc::Metrics;
use pool_pages::{PageCalls, Pages};
use pool_types::PlainList;
use std::alloc::{AllocError, Global};
use std::marker::Model;

/// A run, and what each party was told so far. There is room for a reply to each command.
#[derive(Drop)]
pub(crate) struct ToldRun<P: Pages> {
    run: Run<P>,
    told: Vec<ReservedVec<Reply>>,
}

impl<P: Pages> Model for ToldRun<P> {
    ghost use Rattle.std.specs.Prelude.{map};
    ghost use Rattle.pool_run.specs.Folds.{RunState, told_state};
    ghost use Rattle.pool_run.specs.RunsMade.{HaveRoom};

    ghost Value = { RunState P };

    ghost view = { λ r. told_state r.run (map (λ l. l.items) r.told.items) };

    ghost invariant = { λ r. HaveRoom r.run.parties r.told.items };
}

impl<P: Pages> ToldRun<P> {
    /// Reserves the replies to the parties of a run as it is made.
    pub(crate) fn new(alloc: Global, run: Run<P>, parties: &[Party]) -> Result<Self, AllocError>
        requires parties { run.parties ≡ parties_made run.core.settings parties.now }
        ensures { IfOk result (λ told. told ≡ told_state run (replicate (length parties.now) [])) }
    {
        let told = reserve_replies(alloc, parties)?;
        Ok(ToldRun { run, told })
    }

    /// Makes a turn of a party, and keeps the reply, if there is one. The watcher is told.
    pub(crate) fn turn<W: Watcher<P>>(
        &mut self,
        alloc: Global,
        input: &Input,
        party: usize,
        watcher: &mut W,
    )
        ghost before: { SoFar }
        requires told { before.told ≡ self.old.replies }
        requires run { IsRunOf before.of input.now.parties self.old }
        requires inside { party < length input.now.parties }
        ensures told { (t : TurnTold P) × TellsTurn before.of.modules before.of.inputs party self.old self.new t × W.leads input.now t watcher.old watcher.new }
        ensures run { IsRunOf before.of input.now.parties self.new }
        ensures advances { Advances before.of.modules (commands_of before.of.inputs party) party self.old self.new }
    {
        let note = watcher.look(&self.run, input, party);
        let reply = self.run.turn(alloc, input, party);
        watcher.learn(note, &self.run, input, party, &reply);
        add_reply(&mut self.told, party, reply);
    }

    /// Whether a call of party `i` is under way.
    pub(crate) fn is_busy(&self, i: usize) -> bool
        requires { i < length self.now.parties }
        ensures { result ≡ is_busy (slice_get self.now.parties i) }
    {
        self.run.is_busy(i)
    }

    /// How many commands of party `i` have their replies.
    pub(crate) fn done(&self, i: usize) -> usize
        requires { i < length self.now.parties }
        ensures { result ≡ commands_done (slice_get self.now.parties i) }
    {
        self.run.done(i)
    }

    /// The pool's numbers.
    pub(crate) fn metrics(&self) -> Metrics
        ensures { result ≡ metrics_of self.now.core }
    {
        self.run.metrics()
    }

    /// The calls on all regions so far.
    pub(crate) fn page_calls(&self) -> PageCalls
        ensures { result ≡ calls_of_run self.now.core self.now.parties }
    {
        self.run.page_calls()
    }

    /// Ends the run, and gives the replies to each party, in a list that has room for them.
    pub(crate) fn end(self, lists: Vec<ReplyList>) -> PlainList<ReplyList>
        requires empty { lists.items ≡ [] }
        requires room { length self.replies ≤ vec_capacity lists }
        ensures replies { result ≡ self.replies }
        ensures kept { IsKept self.core self.parties }
    {
        let ToldRun { run, told } = self;
        run.end();
        PlainList::from_vec(into_lists(told, lists))
    }
}

// For each party a list with room for a reply to each of its commands.
fn reserve_replies(alloc: Global, parties: &[Party]) -> Result<Vec<ReservedVec<Reply>>, AllocError>
    ensures { IfOk result (λ v. v.items ≡ map room_for parties.now) }
{
    let mut told = Vec::with_capacity(alloc, parties.len())?;
    for party in parties {
        told.push(ReservedVec::with_room(alloc, party.commands.len())?)?;
    }
    Ok(told)
}

// Adds the reply to party `i`, if there is one.
fn add_reply(told: &mut Vec<ReservedVec<Reply>>, i: usize, reply: Option<Reply>)
    requires inside { i < length told.old.items }
    requires room { IfSome reply (λ r. length (slice_index_or told.old.items i no_room).items < (slice_index_or told.old.items i no_room).room) }
    ensures { told.new.items ≡ slice_set told.old.items i (with_told reply (slice_index_or told.old.items i no_room)) }
{
    if let Some(reply) = reply {
        let list = &mut told[i];
        list.push(reply);
    }
}

// The lists, moved into one that has room for them.
fn into_lists(told: Vec<ReservedVec<Reply>>, lists: Vec<ReplyList>) -> Vec<ReplyList>
    requires empty { lists.items ≡ [] }
    requires room { length told.items ≤ vec_capacity lists }
    ensures { result.items ≡ map (λ l. l.items) told.items }
{
    let mut lists = lists;
    for list in told {
        lists.push_reserved(list.into_list());
    }
    lists
}
