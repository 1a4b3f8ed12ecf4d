ghost use Rattle.std.specs.Prelude.{◌≡◌, ◌↔◌, ◌≤◌, [], Err, Some, length, true, false, vec_capacity, None, IfOk, IfErr, OnErr, OnOk};
ghost use Rattle.pool_pages.specs.MakerTold.{MakerTold};
ghost use Rattle.pool_types.specs.declared.bad_config.BadConfig.{BadConfig};
ghost use Rattle.pool_pages.specs.declared.failing.Failing.{Failing};
ghost use Rattle.pool_alloc.specs.PoolTotals.{metrics_of};
ghost use Rattle.pool_run.specs.Agreeing.{IsOnlyRun};
ghost use Rattle.pool_run.specs.Built.{broken_rule, is_built};
ghost use Rattle.pool_run.specs.Numbers.{calls_of_run};
ghost use Rattle.pool_run.specs.Progress.{IsRunOf};
ghost use Rattle.pool_run.specs.Runs.{IsMadeRun, IsRun, HoldsFromStart, FaultsInMaking, HasFaultedMaking, with_faults, NamesRule};
ghost use Rattle.pool_run.specs.RunsMade.{Background};
ghost use Rattle.pool_run.specs.Schedules.{turns_of};
ghost use Rattle.pool_run.specs.Unhindered.{ServesFromStart};
ghost use Rattle.pool_run.specs.Validity.{is_valid};
ghost use Rattle.pool_run.specs.Watching.{IsWatchedRun, WatchesRun};

use crate::input::Input;
use crate::output::{RunFault, RunOutput};
use crate::reply::ReplyList;
use crate::run::Run;
use crate::schedule::{finish, follow};
use crate::told_run::ToldRun;
use crate::validity::is_valid;
use crate::watcher::{Nobody, Watcher};
use pool_pages::{Failing, FailingMaker, PageMaker, Pages};
use pool_types::PageSize;
use std::alloc::{AllocError, Global};

// Makes the turns of the schedule, and where the input says so those of each party until it has nothing left.
fn perform<P: Pages, W: Watcher<P>>(
    run: &mut ToldRun<P>,
    alloc: Global,
    input: &Input,
    watcher: &mut W,
)
    ghost of: { Background }
    requires run { IsRunOf of input.now.parties run.old }
    requires valid { is_valid input.now ≡ true }
    ensures watched { WatchesRun (W.leads input.now) input.now.finish of.modules of.inputs (turns_of input.now.schedule) run.old run.new watcher.old watcher.new }
    ensures run { IsRunOf of input.now.parties run.new }
{
    follow(run, alloc, input, input.schedule.as_slice(), watcher);
    if input.finish {
        finish(run, alloc, input, watcher);
    }
}

// What a run gives. The list has room for the replies to each party.
fn output_of<P: Pages>(run: ToldRun<P>, lists: Vec<ReplyList>) -> RunOutput
    requires empty { lists.items ≡ [] }
    requires room { length run.replies ≤ vec_capacity lists }
    ensures replies { result.replies ≡ run.replies }
    ensures metrics { result.metrics ≡ metrics_of run.core }
    ensures calls { result.calls ≡ calls_of_run run.core run.parties }
{
    let metrics = run.metrics();
    let calls = run.page_calls();
    RunOutput {
        replies: run.end(lists),
        metrics,
        calls,
    }
}

// Reserves the replies to a run as it is made, makes its turns, and ends it.
fn run_over<P: Pages, W: Watcher<P>>(
    alloc: Global,
    input: &Input,
    run: Run<P>,
    watcher: &mut W,
) -> Result<RunOutput, AllocError>
    ghost maker: { MakerTold }
    requires made { IsMadeRun input.now maker run }
    requires built { is_built input.now ≡ true }
    requires valid { is_valid input.now ≡ true }
    requires rules { broken_rule input.now ≡ None }
    requires page { maker.page ≡ input.now.page }
    ensures watched { IfOk result (λ output. IsWatchedRun P (W.leads input.now) input.now maker output watcher.old watcher.new) }
    ensures untold { OnErr result (watcher.new ≡ watcher.old) }
{
    let parties = input.parties.as_slice();
    let lists = Vec::with_capacity(alloc, parties.len())?;
    let mut told = ToldRun::new(alloc, run, parties)?;
    perform(&mut told, alloc, input, watcher);
    Ok(output_of(told, lists))
}

// The same, as the answer of a run.
fn run_to_end<P: Pages, W: Watcher<P>>(
    alloc: Global,
    input: &Input,
    run: Run<P>,
    watcher: &mut W,
) -> Result<RunOutput, RunFault>
    ghost maker: { MakerTold }
    requires made { IsMadeRun input.now maker run }
    requires built { is_built input.now ≡ true }
    requires valid { is_valid input.now ≡ true }
    requires rules { broken_rule input.now ≡ None }
    requires page { maker.page ≡ input.now.page }
    ensures watched { IfOk result (λ output. IsWatchedRun P (W.leads input.now) input.now maker output watcher.old watcher.new) }
    ensures untold { OnErr result (watcher.new ≡ watcher.old) }
    ensures memory { IfErr result (λ fault. fault ≡ RunFault.Memory) }
{
    match run_over(alloc, input, run, watcher) {
        Ok(output) => Ok(output),
        Err(_) => Err(RunFault::Memory),
    }
}

// Makes a run of the input by a maker that is as told, and makes its turns.
fn run_by<P: Pages, M: PageMaker<Region = P>, W: Watcher<P>>(
    alloc: Global,
    input: &Input,
    pages: &mut M,
    watcher: &mut W,
) -> Result<RunOutput, RunFault>
    ghost maker: { MakerTold }
    requires told { M.told pages.old ≡ maker }
    requires page { maker.page ≡ input.now.page }
    requires built { is_built input.now ≡ true }
    requires valid { is_valid input.now ≡ true }
    ensures watched { IfOk result (λ output. IsWatchedRun P (W.leads input.now) input.now maker output watcher.old watcher.new) }
    ensures untold { OnErr result (watcher.new ≡ watcher.old) }
    ensures same { OnOk result (M.told pages.new ≡ maker) }
    ensures borrows { M.borrows pages.new ≡ M.borrows pages.old }
    ensures fault { result ≡ Err RunFault.PageFault → FaultsInMaking P.told input.now maker (M.told pages.new) }
    ensures rules { OnOk result (broken_rule input.now ≡ None) }
    ensures refused { IfErr result (NamesRule (broken_rule input.now)) }
{
    match Run::of_valid(alloc, input, pages) {
        Ok(run) => run_to_end(alloc, input, run, watcher),
        Err(fault) => Err(fault),
    }
}

// The same by any maker with the input's page.
fn run_with<P: Pages, M: PageMaker<Region = P>, W: Watcher<P>>(
    alloc: Global,
    input: &Input,
    pages: &mut M,
    watcher: &mut W,
) -> Result<RunOutput, RunFault>
    requires page { (M.told pages.old).page ≡ input.now.page }
    requires built { is_built input.now ≡ true }
    requires valid { is_valid input.now ≡ true }
    ensures watched { IfOk result (λ output. IsWatchedRun P (W.leads input.now) input.now (M.told pages.old) output watcher.old watcher.new) }
    ensures untold { OnErr result (watcher.new ≡ watcher.old) }
    ensures same { OnOk result (M.told pages.new ≡ M.told pages.old) }
    ensures borrows { M.borrows pages.new ≡ M.borrows pages.old }
    ensures fault { result ≡ Err RunFault.PageFault → FaultsInMaking P.told input.now (M.told pages.old) (M.told pages.new) }
    ensures rules { OnOk result (broken_rule input.now ≡ None) }
    ensures refused { IfErr result (NamesRule (broken_rule input.now)) }
{
    run_by(alloc, input, pages, watcher)
}

/// Makes a pool of the input's settings and the images of its modules, and has the parties make their turns over them:
/// those of the schedule first, and then, where the input says so, those of each party until each of its commands has
/// its reply. The replies are in the order of the parties and of their commands. Makings and page calls fail where the
/// input lists them. Nothing is run where the input isn't valid, which is tested first, or a rule of its settings is
/// broken, where a region or an image can't be made, or where there is no memory for the run and the lists of its replies.
///
/// A page fault comes only where the input lists a making, or where the maker counted one of its own, whatever it tells.
/// Where it tells what its regions hold and which of their calls fail, an input has one outcome, but for which commands
/// find no memory (`runs_agree`). Where the slots are meanwhile `slots_have_places` says. A request that nothing hinders is
/// granted, but for want of memory or a fault, whatever came before.
pub fn run_schedule<M: PageMaker>(
    alloc: Global,
    input: &Input,
    pages: &mut M,
) -> Result<RunOutput, RunFault>
    requires built { is_built input.now ≡ true }
    ensures ok { IfOk result (IsRun (Failing M.Region) input.now (with_faults input.now (M.told pages.old))) }
    ensures only { IfOk result (IsOnlyRun (Failing M.Region) input.now (with_faults input.now (M.told pages.old))) }
    ensures served { OnOk result (ServesFromStart (Failing M.Region) input.now (with_faults input.now (M.told pages.old))) }
    ensures throughout { OnOk result (HoldsFromStart (Failing M.Region) input.now (with_faults input.now (M.told pages.old))) }
    ensures bad_input { (result ≡ Err RunFault.BadInput) ↔ (is_valid input.now ≡ false) }
    ensures bad_config { (e : BadConfig) → (result ≡ Err (RunFault.BadConfig e)) ↔ ((is_valid input.now ≡ true) × (broken_rule input.now ≡ Some e)) }
    ensures fault { result ≡ Err RunFault.PageFault → HasFaultedMaking ⟦<Failing<M::Region> as Pages>⟧.told input.now (M.told pages.old) (M.told pages.new) }
    ensures faults { OnOk result ((M.told pages.new).faults ≡ (M.told pages.old).faults) }
{
    run_watched(alloc, input, pages, &mut Nobody)
}

/// The same, and a watcher is told of each turn as it is made. It is told nothing where nothing is run.
pub fn run_watched<M: PageMaker, W: Watcher<Failing<M::Region>>>(
    alloc: Global,
    input: &Input,
    pages: &mut M,
    watcher: &mut W,
) -> Result<RunOutput, RunFault>
    requires built { is_built input.now ≡ true }
    ensures ok { IfOk result (IsRun (Failing M.Region) input.now (with_faults input.now (M.told pages.old))) }
    ensures watched { IfOk result (λ output. IsWatchedRun (Failing M.Region) (W.leads input.now) input.now (with_faults input.now (M.told pages.old)) output watcher.old watcher.new) }
    ensures untold { OnErr result (watcher.new ≡ watcher.old) }
    ensures only { IfOk result (IsOnlyRun (Failing M.Region) input.now (with_faults input.now (M.told pages.old))) }
    ensures throughout { OnOk result (HoldsFromStart (Failing M.Region) input.now (with_faults input.now (M.told pages.old))) }
    ensures served { OnOk result (ServesFromStart (Failing M.Region) input.now (with_faults input.now (M.told pages.old))) }
    ensures bad_input { (result ≡ Err RunFault.BadInput) ↔ (is_valid input.now ≡ false) }
    ensures bad_config { (e : BadConfig) → (result ≡ Err (RunFault.BadConfig e)) ↔ ((is_valid input.now ≡ true) × (broken_rule input.now ≡ Some e)) }
    ensures fault { result ≡ Err RunFault.PageFault → HasFaultedMaking ⟦<Failing<M::Region> as Pages>⟧.told input.now (M.told pages.old) (M.told pages.new) }
    ensures faults { OnOk result ((M.told pages.new).faults ≡ (M.told pages.old).faults) }
{
    if !is_valid(input) {
        return Err(RunFault::BadInput);
    }
    match PageSize::new(input.page) {
        Ok(page) => {
            let mut maker = FailingMaker::new(pages, page, input.faults.as_slice());
            let answer = run_with(alloc, input, &mut maker, watcher);
            // given back before the list is dropped, so that the prover knows whose count it is
            let _pages = maker.into_maker();
            answer
        }
        Err(rule) => Err(RunFault::BadConfig(rule)),
    }
}
