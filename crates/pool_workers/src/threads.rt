//! A run of an input with a thread for each party.
ghost use Rattle.std.specs.Prelude.{◌≡◌, ◌↔◌, ◌<◌, ◌≤◌, Err, IfErr, IfOk, OnOk, length, true, false, None, Some};
ghost use Rattle.pool_types.specs.declared.bad_config.BadConfig.{BadConfig};
ghost use Rattle.pool_pages.specs.declared.failing.Failing.{Failing};
ghost use Rattle.pool_pages.specs.MakerTold.{MakerTold};
ghost use Rattle.pool_hall.specs.Rule.{first_view};
ghost use Rattle.pool_hall.specs.Seat.{limits_of, made_with, view, IsFree, IsSeatOf};
ghost use Rattle.pool_hall.specs.Tally.{all_portions};
ghost use Rattle.pool_alloc.specs.Closing.{AreAtHome};
ghost use Rattle.pool_driver.specs.Driving.{DrivesFirst};
ghost use Rattle.pool_driver.specs.Ending.{HasNoted};
ghost use Rattle.pool_driver.specs.Placed.{About};
ghost use Rattle.pool_driver.specs.Pools.{IsOpen};
ghost use Rattle.pool_run.specs.Built.{broken_rule, is_built};
ghost use Rattle.pool_run.specs.Made.{calls_made};
ghost use Rattle.pool_run.specs.Runs.{FaultsInMaking, HasFaultedMaking, NamesRule, with_faults};
ghost use Rattle.pool_run.specs.Validity.{is_valid};
ghost use Rattle.pool_threads.specs.Sharing.{IsGround, job_of};
ghost use Rattle.pool_threads.specs.Working.{about_job};
ghost use Rattle.pool_workers.specs.Joined.{IsJoined, Shared, shared_by};
ghost use Rattle.pool_workers.specs.Listed.{FewFaulted, coming};
ghost use Rattle.pool_workers.specs.Threads.{HasNoNumbers, HaveRunBeside, IsUnlisted};
ghost use Rattle.pool_workers.specs.Workers.{AreBack, AreReady, DrivesWorkers};

use crate::joins::join_all;
use crate::padding::{pad, unpad};
use crate::worker::Worker;
use crate::workers::{make_workers, work};
use pool_alloc::{ModuleCall, Parts};
use pool_driver::{OpenPool, PoolHall, PoolSeat, SharedPool};
use pool_pages::{Failing, FailingMaker, Fault, PageMaker, Pages};
use pool_run::{
    Input, ReplyList, RunFault, RunOutput, faults_that_come, is_valid, make_calls, make_pool,
    without_memory,
};
use pool_slots::PlainHeap;
use pool_threads::{Gate, OpenGate};
use pool_types::{PageSize, PlainList};
use std::alloc::{AllocError, Global};
use std::sync::Wait;
use std::thread::Threads;

// The workers of a list make their parties' commands, each on cache lines of its own. Memory for that is asked for before the threads start.
fn work_list<
    P: Pages + Send,
    M: PageMaker<Region = P> + Send,
    R: Threads + Wait + Sync,
    G: Gate + Sync,
>(
    rt: &R,
    alloc: Global,
    pool: &SharedPool<PoolHall<P, PlainHeap, M>>,
    input: &Input,
    modules: &[ModuleCall],
    workers: Vec<Worker<PoolSeat<P, PlainHeap, M>, P>>,
    gate: &G,
) -> Result<Vec<Worker<PoolSeat<P, PlainHeap, M>, P>>, AllocError>
    requires ground { IsGround M.told input.now modules.now pool.now }
    requires ready { AreReady M.told input.now pool.now workers.items }
    ensures back { IfOk result (λ v. AreBack M.told input.now modules.now pool.now v.items) }
{
    let mut back = Vec::with_capacity(alloc, workers.len())?;
    let mut padded = pad(alloc, workers)?;
    work(rt, alloc, pool, input, modules, padded.as_mut_slice(), gate);
    unpad(padded, &mut back);
    Ok(back)
}

// All parties make their commands side by side, by seats that are cut off from this one and joined to it again; then what is live is given back.
fn side_by_side<
    P: Pages + Send,
    M: PageMaker<Region = P> + Send,
    R: Threads + Wait + Sync,
    G: Gate + Sync,
>(
    rt: &R,
    alloc: Global,
    pool: &SharedPool<PoolHall<P, PlainHeap, M>>,
    seat: &mut PoolSeat<P, PlainHeap, M>,
    input: &Input,
    modules: &[ModuleCall],
    gate: &G,
) -> Result<Vec<ReplyList>, RunFault>
    ghost all: { Shared }
    requires all { all ≡ shared_by input.now modules.now }
    requires ground { IsGround M.told input.now modules.now pool.now }
    requires drives { DrivesWorkers M.told input.now pool.now }
    requires own { IsSeatOf pool.now.hall seat.old }
    requires free { IsFree seat.old }
    requires first { view seat.old ≡ first_view (made_with pool.now.hall) (limits_of pool.now.hall) }
    ensures own { IsSeatOf pool.now.hall seat.new }
    ensures free { IsFree seat.new }
    ensures joined { IfOk result (λ v. IsJoined M.told all pool.now (view seat.new) v.items) }
    ensures count { IfOk result (λ v. length v.items ≡ length input.now.parties) }
    ensures portions { OnOk result ((view seat.new).portions ≡ all_portions) }
    ensures memory { IfErr result (λ fault. fault ≡ RunFault.Memory) }
{
    let count = input.parties.as_slice().len();
    let Ok(workers) = make_workers(alloc, pool, seat, input) else {
        return Err(RunFault::Memory);
    };
    let Ok(mut replies) = Vec::with_capacity(alloc, count) else {
        return Err(RunFault::Memory);
    };
    let Ok(workers) = work_list(rt, alloc, pool, input, modules, workers, gate) else {
        return Err(RunFault::Memory);
    };
    let done = join_all(rt, alloc, pool, seat, workers, &mut replies);
    if !done {
        return Err(RunFault::Memory);
    }
    Ok(replies)
}

// The output of a run that prints no numbers.
fn output_of(replies: Vec<ReplyList>) -> RunOutput
    ensures replies { result.replies ≡ replies.items }
    ensures numbers { HasNoNumbers result }
{
    RunOutput::without_numbers(PlainList::from_vec(replies))
}

/// The parties make their commands over a pool that is open and was made for their input, and the pool is closed. Answers the output, and what
/// the pool was made of: every slot is free, each region at home, each queue empty. Takes memory for workers and replies before the first
/// command; for want of it, or of memory for one party's replies, the pool is dropped as it is.
pub fn run_over<
    P: Pages + Send,
    M: PageMaker<Region = P> + Send,
    R: Threads + Wait + Sync,
    G: Gate + Sync,
>(
    rt: &R,
    alloc: Global,
    input: &Input,
    modules: &[ModuleCall],
    opened: OpenPool<P, PlainHeap, M>,
    gate: &G,
) -> Result<(RunOutput, Parts<P, PlainHeap>), RunFault>
    ghost maker: { MakerTold }
    requires open { IsOpen M.told (about_job (job_of M.told input.now opened.pool)) opened }
    requires ground { IsGround M.told input.now modules.now opened.pool }
    requires drives { DrivesWorkers M.told input.now opened.pool }
    requires first { view opened.seat ≡ first_view (made_with opened.pool.hall) (limits_of opened.pool.hall) }
    requires maker { (job_of M.told input.now opened.pool).world.maker ≡ maker }
    requires calls { modules.now ≡ calls_made input.now.tunables maker.page 0 input.now.modules }
    ensures ran { IfOk result (λ r. HaveRunBeside input.now maker r.0.replies) }
    ensures numbers { IfOk result (λ r. HasNoNumbers r.0) }
    ensures home { IfOk result (λ r. AreAtHome r.1) }
    ensures memory { IfErr result (λ fault. fault ≡ RunFault.Memory) }
{
    let OpenPool {
        pool,
        seat,
        lists,
        room,
    } = opened;
    let mut seat = seat;
    let replies = match side_by_side(rt, alloc, &pool, &mut seat, input, modules, gate) {
        Ok(replies) => replies,
        Err(fault) => return Err(fault),
    };
    let open = OpenPool {
        pool,
        seat,
        lists,
        room,
    };
    Ok((output_of(replies), open.close(alloc)))
}

// Makes a pool of the input by a maker that is as told, and has the parties make their commands over it.
fn run_by<
    P: Pages + Send,
    M: PageMaker<Region = P> + Send,
    R: Threads + Wait + Sync,
    G: Gate + Sync,
>(rt: &R, alloc: Global, input: &Input, pages: &mut M, gate: &G) -> Result<RunOutput, RunFault>
    ghost maker: { MakerTold }
    requires told { M.told pages.old ≡ maker }
    requires page { maker.page ≡ input.now.page }
    requires built { is_built input.now ≡ true }
    requires valid { is_valid input.now ≡ true }
    ensures ran { IfOk result (λ output. HaveRunBeside input.now maker output.replies) }
    ensures numbers { IfOk result HasNoNumbers }
    ensures same { OnOk result (M.told pages.new ≡ maker) }
    ensures borrows { M.borrows pages.new ≡ M.borrows pages.old }
    ensures unlisted { OnOk result (IsUnlisted input.now maker) }
    ensures fault { result ≡ Err RunFault.PageFault → FaultsInMaking P.told input.now maker (M.told pages.new) }
    ensures rules { OnOk result (broken_rule input.now ≡ None) }
    ensures refused { IfErr result (NamesRule (broken_rule input.now)) }
{
    let core = match make_pool(alloc, input, pages) {
        Ok(core) => core,
        Err(fault) => return Err(fault),
    };
    let modules = match make_calls(alloc, pages, &input.tunables, input.modules.as_slice()) {
        Ok(calls) => calls,
        Err(fault) => return Err(fault),
    };
    let open = match OpenPool::new(alloc, core, pages) {
        Ok(open) => open,
        Err(_) => return Err(RunFault::Memory),
    };
    let calls = modules.as_slice();
    match run_over(rt, alloc, input, calls, open, gate) {
        Ok((output, _parts)) => Ok(output),
        Err(fault) => Err(fault),
    }
}

// The same by any maker with the input's page.
fn run_with<
    P: Pages + Send,
    M: PageMaker<Region = P> + Send,
    R: Threads + Wait + Sync,
    G: Gate + Sync,
>(rt: &R, alloc: Global, input: &Input, pages: &mut M, gate: &G) -> Result<RunOutput, RunFault>
    requires page { (M.told pages.old).page ≡ input.now.page }
    requires built { is_built input.now ≡ true }
    requires valid { is_valid input.now ≡ true }
    ensures ran { IfOk result (λ output. HaveRunBeside input.now (M.told pages.old) output.replies) }
    ensures numbers { IfOk result HasNoNumbers }
    ensures same { OnOk result (M.told pages.new ≡ M.told pages.old) }
    ensures borrows { M.borrows pages.new ≡ M.borrows pages.old }
    ensures unlisted { OnOk result (IsUnlisted input.now (M.told pages.old)) }
    ensures fault { result ≡ Err RunFault.PageFault → FaultsInMaking P.told input.now (M.told pages.old) (M.told pages.new) }
    ensures rules { OnOk result (broken_rule input.now ≡ None) }
    ensures refused { IfErr result (NamesRule (broken_rule input.now)) }
{
    run_by(rt, alloc, input, pages, gate)
}

// Runs the input over a maker before which these faults stand.
fn run_over_faults<M: PageMaker + Send, R: Threads + Wait + Sync, G: Gate + Sync>(
    rt: &R,
    alloc: Global,
    input: &Input,
    pages: &mut M,
    page: PageSize,
    faults: &[Fault],
    gate: &G,
) -> Result<RunOutput, RunFault>
where
    M::Region: Send,
    requires page { page ≡ input.now.page }
    requires faults { faults.now ≡ (coming input.now).faults }
    requires built { is_built input.now ≡ true }
    requires valid { is_valid input.now ≡ true }
    ensures ran { IfOk result (λ output. HaveRunBeside input.now (with_faults (coming input.now) (M.told pages.old)) output.replies) }
    ensures few { IfOk result (λ output. FewFaulted input.now (M.told pages.old) output.replies) }
    ensures unlisted { OnOk result (IsUnlisted input.now (with_faults (coming input.now) (M.told pages.old))) }
    ensures numbers { IfOk result HasNoNumbers }
    ensures faults { OnOk result ((M.told pages.new).faults ≡ (M.told pages.old).faults) }
    ensures fault { result ≡ Err RunFault.PageFault → HasFaultedMaking ⟦<Failing<M::Region> as Pages>⟧.told (coming input.now) (M.told pages.old) (M.told pages.new) }
    ensures rules { OnOk result (broken_rule input.now ≡ None) }
    ensures refused { IfErr result (NamesRule (broken_rule input.now)) }
{
    let mut maker = FailingMaker::new(pages, page, faults);
    let answer = run_with(rt, alloc, input, &mut maker, gate);
    // given back here, so that the prover knows whose count it is
    let _pages = maker.into_maker();
    answer
}

// Runs the input with this page, with those of its faults that can come true.
fn run_paged<M: PageMaker + Send, R: Threads + Wait + Sync, G: Gate + Sync>(
    rt: &R,
    alloc: Global,
    input: &Input,
    pages: &mut M,
    page: PageSize,
    gate: &G,
) -> Result<RunOutput, RunFault>
where
    M::Region: Send,
    requires page { page ≡ input.now.page }
    requires built { is_built input.now ≡ true }
    requires valid { is_valid input.now ≡ true }
    ensures ran { IfOk result (λ output. HaveRunBeside input.now (with_faults (coming input.now) (M.told pages.old)) output.replies) }
    ensures few { IfOk result (λ output. FewFaulted input.now (M.told pages.old) output.replies) }
    ensures unlisted { OnOk result (IsUnlisted input.now (with_faults (coming input.now) (M.told pages.old))) }
    ensures numbers { IfOk result HasNoNumbers }
    ensures faults { OnOk result ((M.told pages.new).faults ≡ (M.told pages.old).faults) }
    ensures fault { result ≡ Err RunFault.PageFault → HasFaultedMaking ⟦<Failing<M::Region> as Pages>⟧.told (coming input.now) (M.told pages.old) (M.told pages.new) }
    ensures rules { OnOk result (broken_rule input.now ≡ None) }
    ensures refused { IfErr result (NamesRule (broken_rule input.now)) }
{
    match faults_that_come(alloc, input.faults.as_slice()) {
        Ok(faults) => run_over_faults(rt, alloc, input, pages, page, faults.as_slice(), gate),
        Err(_) => Err(without_memory(input)),
    }
}

/// `run_threads`, with a gate that is told before and after each command.
pub fn run_threads_with<M: PageMaker + Send, R: Threads + Wait + Sync, G: Gate + Sync>(
    rt: &R,
    alloc: Global,
    input: &Input,
    pages: &mut M,
    gate: &G,
) -> Result<RunOutput, RunFault>
where
    M::Region: Send,
    requires built { is_built input.now ≡ true }
    ensures ran { IfOk result (λ output. HaveRunBeside input.now (with_faults (coming input.now) (M.told pages.old)) output.replies) }
    ensures few { IfOk result (λ output. FewFaulted input.now (M.told pages.old) output.replies) }
    ensures unlisted { OnOk result (IsUnlisted input.now (with_faults (coming input.now) (M.told pages.old))) }
    ensures numbers { IfOk result HasNoNumbers }
    ensures faults { OnOk result ((M.told pages.new).faults ≡ (M.told pages.old).faults) }
    ensures bad_input { (result ≡ Err RunFault.BadInput) ↔ (is_valid input.now ≡ false) }
    ensures bad_config { (e : BadConfig) → (result ≡ Err (RunFault.BadConfig e)) ↔ ((is_valid input.now ≡ true) × (broken_rule input.now ≡ Some e)) }
    ensures fault { result ≡ Err RunFault.PageFault → HasFaultedMaking ⟦<Failing<M::Region> as Pages>⟧.told (coming input.now) (M.told pages.old) (M.told pages.new) }
{
    if !is_valid(input) {
        return Err(RunFault::BadInput);
    }
    match PageSize::new(input.page) {
        Ok(page) => run_paged(rt, alloc, input, pages, page, gate),
        Err(rule) => Err(RunFault::BadConfig(rule)),
    }
}

/// Runs the input with a thread for each party. The schedule isn't used: each party's commands are made in order. A fault of the
/// input for the last number that a count of calls can have is left out: no run gets there.
pub fn run_threads<M: PageMaker + Send, R: Threads + Wait + Sync>(
    rt: &R,
    alloc: Global,
    input: &Input,
    pages: &mut M,
) -> Result<RunOutput, RunFault>
where
    M::Region: Send,
    requires built { is_built input.now ≡ true }
    ensures ran { IfOk result (λ output. HaveRunBeside input.now (with_faults (coming input.now) (M.told pages.old)) output.replies) }
    ensures few { IfOk result (λ output. FewFaulted input.now (M.told pages.old) output.replies) }
    ensures unlisted { OnOk result (IsUnlisted input.now (with_faults (coming input.now) (M.told pages.old))) }
    ensures numbers { IfOk result HasNoNumbers }
    ensures faults { OnOk result ((M.told pages.new).faults ≡ (M.told pages.old).faults) }
    ensures bad_input { (result ≡ Err RunFault.BadInput) ↔ (is_valid input.now ≡ false) }
    ensures bad_config { (e : BadConfig) → (result ≡ Err (RunFault.BadConfig e)) ↔ ((is_valid input.now ≡ true) × (broken_rule input.now ≡ Some e)) }
    ensures fault { result ≡ Err RunFault.PageFault → HasFaultedMaking ⟦<Failing<M::Region> as Pages>⟧.told (coming input.now) (M.told pages.old) (M.told pages.new) }
{
    run_threads_with(rt, alloc, input, pages, &OpenGate)
}
