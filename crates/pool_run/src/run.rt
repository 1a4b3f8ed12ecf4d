ghost use Rattle.std.specs.Prelude.{◌≡◌, ◌↔◌, ℕ, ◌+◌, ◌^◌, ◌<◌, ◌≤◌, Err, Some, length, map, replicate, slice_get, slice_index_or, true, false, fold, None, IfOk, IfErr, IfSome, OnOk};
ghost use Rattle.pool_pages.specs.MakerTold.{MakerTold};
ghost use Rattle.pool_types.specs.declared.bad_config.BadConfig.{BadConfig};
ghost use Rattle.pool_alloc.specs.BetweenSteps.{IsCore};
ghost use Rattle.pool_alloc.specs.PoolAndHolders.{IsUntouched};
ghost use Rattle.pool_alloc.specs.PoolTotals.{metrics_of};
ghost use Rattle.pool_alloc.specs.StepBounds.{sizes_of};
ghost use Rattle.pool_run.specs.Bounds.{bounds_on};
ghost use Rattle.pool_run.specs.Built.{broken_rule, is_built};
ghost use Rattle.pool_run.specs.Folds.{TurnsOf, commands_of, told_state, replies_after};
ghost use Rattle.pool_run.specs.Numbers.{with_party, calls_of_run};
ghost use Rattle.pool_run.specs.Progress.{is_busy, commands_done, Advances, IsRunOf};
ghost use Rattle.pool_run.specs.Runs.{IsMadeRun, FaultsInMaking, NamesRule};
ghost use Rattle.pool_run.specs.RunsMade.{SoFar, IsKept, parties_made, places_in};
ghost use Rattle.pool_run.specs.Turns.{no_lists};
ghost use Rattle.pool_run.specs.Validity.{is_valid};

use crate::bounds::StepBounds;
use crate::calls::make_calls;
use crate::input::{Input, Party};
use crate::output::RunFault;
use crate::pools::make_pool;
use crate::reply::Reply;
use crate::running_party::{RunningParty, make_party};
use crate::slot_lists::SlotLists;
use crate::turn::{is_idle, turn_of};
use crate::validity::is_valid;
use pool_alloc::{Metrics, ModuleCall, Outcome, PoolCore};
use pool_pages::{PageCalls, PageMaker, Pages};
use pool_slots::PlainHeap;
use std::alloc::{AllocError, Global};
use std::marker::Model;

/// A pool, the calls for the modules, and the parties, each with what its call and its live grants have of the pool,
/// and with lists for the slots of what it asks for.
#[derive(Drop)]
pub struct Run<P: Pages> {
    core: PoolCore<P, PlainHeap>,
    modules: Vec<ModuleCall>,
    parties: Vec<RunningParty<P>>,
    slots: Vec<SlotLists>,
    // The place for the outcome of a step. It holds nothing between turns.
    outcome: Option<Outcome<P, PlainHeap>>,
}

impl<P: Pages> Model for Run<P> {
    ghost use Rattle.std.specs.Prelude.{◌≡◌, None};
    ghost use Rattle.pool_run.specs.Folds.{RunParts};
    ghost use Rattle.pool_run.specs.RunsMade.{IsKept, AreReserved};

    ghost Value = { RunParts P };

    ghost view = { λ r. record { core = r.core; modules = r.modules.items; parties = r.parties.items } };

    ghost invariant = { λ r. IsKept r.core r.parties.items × AreReserved r.parties.items r.slots.items × (r.outcome ≡ None) };
}

impl<P: Pages> Run<P> {
    /// Makes a pool of the input's settings, the calls for its modules with their images, and the parties, each with a
    /// place for each of its commands. The input is tested first, then its settings.
    pub fn new<M: PageMaker<Region = P>>(
        alloc: Global,
        input: &Input,
        pages: &mut M,
    ) -> Result<Self, RunFault>
        requires page { (M.told pages.old).page ≡ input.now.page }
        requires built { is_built input.now ≡ true }
        ensures made { IfOk result (IsMadeRun input.now (M.told pages.old)) }
        ensures same { OnOk result (M.told pages.new ≡ M.told pages.old) }
        ensures bad_input { (result ≡ Err RunFault.BadInput) ↔ (is_valid input.now ≡ false) }
        ensures bad_config { (e : BadConfig) → (result ≡ Err (RunFault.BadConfig e)) ↔ ((is_valid input.now ≡ true) × (broken_rule input.now ≡ Some e)) }
        ensures borrows { M.borrows pages.new ≡ M.borrows pages.old }
        ensures fault { result ≡ Err RunFault.PageFault → FaultsInMaking P.told input.now (M.told pages.old) (M.told pages.new) }
    {
        if !is_valid(input) {
            return Err(RunFault::BadInput);
        }
        Run::of_valid(alloc, input, pages)
    }

    // The same by a maker that is as told, of a valid input.
    pub(crate) fn of_valid<M: PageMaker<Region = P>>(
        alloc: Global,
        input: &Input,
        pages: &mut M,
    ) -> Result<Self, RunFault>
        ghost maker: { MakerTold }
        requires told { M.told pages.old ≡ maker }
        requires built { is_built input.now ≡ true }
        requires valid { is_valid input.now ≡ true }
        requires page { (M.told pages.old).page ≡ input.now.page }
        ensures made { IfOk result (IsMadeRun input.now maker) }
        ensures same { OnOk result (M.told pages.new ≡ maker) }
        ensures rules { OnOk result (broken_rule input.now ≡ None) }
        ensures refused { IfErr result (NamesRule (broken_rule input.now)) }
        ensures borrows { M.borrows pages.new ≡ M.borrows pages.old }
        ensures fault { result ≡ Err RunFault.PageFault → FaultsInMaking P.told input.now maker (M.told pages.new) }
    {
        let core = match make_pool(alloc, input, pages) {
            Ok(core) => core,
            Err(fault) => return Err(fault),
        };
        let calls = match make_calls(alloc, pages, &input.tunables, input.modules.as_slice()) {
            Ok(calls) => calls,
            Err(fault) => return Err(fault),
        };
        let parties = input.parties.as_slice();
        match Run::over(alloc, core, calls, parties) {
            Ok(run) => Ok(run),
            Err(_) => Err(RunFault::Memory),
        }
    }

    // The run of these parties over a pool as it is made.
    fn over(
        alloc: Global,
        core: PoolCore<P, PlainHeap>,
        modules: Vec<ModuleCall>,
        parties: &[Party],
    ) -> Result<Self, AllocError>
        ghost maker: { MakerTold }
        requires core { IsCore maker core }
        requires untouched { IsUntouched core }
        requires homes { (k : ℕ) (d : Party) → k < length parties.now → (slice_index_or parties.now k d).home < 2 ^ 32 }
        requires few { places_in (parties_made {P = P} core.settings parties.now) + 1 < 2 ^ 64 }
        ensures { IfOk result (λ run. run ≡ record { core = core; modules = modules.items; parties = parties_made core.settings parties.now }) }
    {
        let made = make_parties(alloc, &core, parties)?;
        let slots = no_slots(alloc, parties.len())?;
        Ok(Run {
            core,
            modules,
            parties: made,
            slots,
            outcome: None,
        })
    }

    /// Makes a turn of a party. Answers the reply to the command that ended with it, if one did. Before a request begins
    /// the list of its reply is reserved; where there is no memory for that the command ends at once.
    pub fn turn(&mut self, alloc: Global, input: &Input, party: usize) -> Option<Reply>
        ghost before: { SoFar }
        requires run { IsRunOf before.of input.now.parties (told_state self.old before.told) }
        requires inside { party < length input.now.parties }
        ensures turn { TurnsOf before.of.modules before.of.inputs party (told_state self.old before.told) (told_state self.new (replies_after party result before.told)) }
        ensures run { IsRunOf before.of input.now.parties (told_state self.new (replies_after party result before.told)) }
        ensures advances { Advances before.of.modules (commands_of before.of.inputs party) party (told_state self.old before.told) (told_state self.new (replies_after party result before.told)) }
    {
        let parties = input.parties.as_slice();
        let commands = parties[party].commands.as_slice();
        let modules = self.modules.as_slice();
        let running = &mut self.parties[party];
        let slots = &mut self.slots[party];
        let outcome = &mut self.outcome;
        turn_of(
            alloc,
            &mut self.core,
            modules,
            commands,
            running,
            slots,
            outcome,
        )
    }

    /// Whether a call of party `i` is under way.
    pub fn is_busy(&self, i: usize) -> bool
        requires { i < length self.now.parties }
        ensures { result ≡ is_busy (slice_get self.now.parties i) }
    {
        !is_idle(&self.parties[i].frame)
    }

    /// How many commands of party `i` have their replies.
    pub fn done(&self, i: usize) -> usize
        requires { i < length self.now.parties }
        ensures { result ≡ commands_done (slice_get self.now.parties i) }
    {
        self.parties[i].done
    }

    /// How many steps the calls of this run take at most, on the pool that it has. None where a number on the way is above 2^64 - 1.
    pub fn bounds(&self) -> Option<StepBounds>
        ensures { IfSome result (λ b. b ≡ bounds_on (sizes_of self.now.core.settings self.now.core.plan)) }
    {
        StepBounds::of(&self.core.settings, &self.core.plan)
    }

    /// The pool, for who looks at it between turns.
    pub fn core(&self) -> &PoolCore<P, PlainHeap>
        ensures { result.now ≡ self.now.core }
    {
        &self.core
    }

    /// Party `i`, likewise.
    pub fn party(&self, i: usize) -> &RunningParty<P>
        requires { i < length self.now.parties }
        ensures { (d : RunningParty P) → result.now ≡ slice_index_or self.now.parties i d }
    {
        &self.parties[i]
    }

    /// The pool's numbers.
    pub fn metrics(&self) -> Metrics
        ensures { result ≡ metrics_of self.now.core }
    {
        self.core.metrics()
    }

    /// The calls on all regions so far.
    pub fn page_calls(&self) -> PageCalls
        ensures { result ≡ calls_of_run self.now.core self.now.parties }
    {
        add_parties(self.core.page_calls(), self.parties.as_slice())
    }

    /// Drops the pool and what the parties have of it. Takes no memory, and makes no call on a region.
    pub fn end(self)
        ensures kept { IsKept self.core self.parties }
    {
        let _core = self.core;
    }
}

// The calls with those on the regions of the parties.
fn add_parties<P: Pages>(calls: PageCalls, parties: &[RunningParty<P>]) -> PageCalls
    ensures { result ≡ fold with_party calls parties.now }
{
    let mut total = calls;
    for party in parties {
        total = add_party(total, party);
    }
    total
}

fn add_party<P: Pages>(calls: PageCalls, party: &RunningParty<P>) -> PageCalls
    ensures { result ≡ with_party calls party.now }
{
    party.live.page_calls(calls.plus(party.frame.page_calls()))
}

fn make_parties<P: Pages>(
    alloc: Global,
    core: &PoolCore<P, PlainHeap>,
    parties: &[Party],
) -> Result<Vec<RunningParty<P>>, AllocError>
    requires batch { core.now.settings.batch ≤ 4096 }
    requires homes { (k : ℕ) (d : Party) → k < length parties.now → (slice_index_or parties.now k d).home < 2 ^ 32 }
    ensures { IfOk result (λ v. v.items ≡ parties_made core.now.settings parties.now) }
{
    let count = parties.len();
    let mut made = Vec::with_capacity(alloc, count)?;
    for at in 0..count {
        let party = make_party(alloc, &core.settings, &parties[at])?;
        made.push(party)?;
    }
    Ok(made)
}

fn no_slots(alloc: Global, count: usize) -> Result<Vec<SlotLists>, AllocError>
    ensures { IfOk result (λ v. v.items ≡ replicate count no_lists) }
{
    let mut slots = Vec::with_capacity(alloc, count)?;
    for at in 0..count {
        slots.push(SlotLists::none(alloc))?;
    }
    Ok(slots)
}
