ghost use Rattle.std.specs.Prelude.{◌≡◌, ◌≢◌, ◌↔◌, ℕ, ◌+◌, ◌==◌, ◌<◌, ◌≤◌, [], ◌∷◌, ◌++◌, cond, filter, length, count_by, map, min, replicate, slice_index_or, true, false, vec_capacity, if◌then◌else◌, Err, Some, None, IfOk, IfErr, IfSome, OnOk};
ghost use Rattle.pool_pages.specs.MakerTold.{MakerTold, no_calls};
ghost use Rattle.pool_types.specs.declared.bad_config.BadConfig.{BadConfig};
ghost use Rattle.pool_run.specs.Built.{broken_rule, is_built};
ghost use Rattle.pool_run.specs.Made.{calls_made};
ghost use Rattle.pool_run_on_demand.specs.Faults.{ends_before_last};
ghost use Rattle.pool_run_on_demand.specs.Runs.{AreToldOnDemand, ArePartiesOnDemand, HasFaultedImages, HaveStepped, HaveAll, HaveNone, IsBackground, IsOnDemand, steps_in, steps_of};
ghost use Rattle.pool_run_on_demand.specs.Seen.{IsAllocatorFor};
ghost use Rattle.pool_run.specs.Folds.{commands_of};
ghost use Rattle.pool_run.specs.Kept.{can_come};
ghost use Rattle.pool_run.specs.Numbers.{no_metrics};
ghost use Rattle.pool_run.specs.PartyRules.{host_for};
ghost use Rattle.pool_run.specs.Rooms.{World};
ghost use Rattle.pool_run.specs.RunsMade.{commands_in};
ghost use Rattle.pool_run.specs.Runs.{ModulesFault, NamesRule, with_faults};
ghost use Rattle.pool_run.specs.Schedules.{turns_of};
ghost use Rattle.pool_run.specs.Validity.{is_valid};

use crate::party::{PartyOnDemand, make_party_on_demand, turn_on_demand};
use pool_alloc::ModuleCall;
use pool_memory::DefaultMemoryCreator;
use pool_on_demand::{OnDemandInstanceAllocator, OnDemandSeat};
use pool_pages::{FailingMaker, Fault, PageMaker};
use pool_run::{
    Input, Party, ReplyList, RunFault, RunOutput, ScheduleEntry, faults_that_come, is_valid,
    make_calls, without_memory,
};
use pool_types::{PageSize, PlainList};
use std::alloc::{AllocError, Global};

// The parties before their first commands.
fn make_parties<M: PageMaker>(
    alloc: Global,
    input: &Input,
) -> Result<Vec<PartyOnDemand<M>>, AllocError>
    ghost common: { World }
    requires hosts { common.hosts ≡ map host_for input.now.parties }
    ensures parties { IfOk result (λ v. ArePartiesOnDemand common input.now common.maker v.items) }
    ensures none { IfOk result (λ v. HaveNone input.now v.items) }
{
    let parties = input.parties.as_slice();
    let mut made = Vec::with_capacity(alloc, parties.len())?;
    for at in 0..parties.len() {
        let party = make_party_on_demand(alloc, &parties[at])?;
        made.push(party)?;
    }
    Ok(made)
}

// Makes the next command of party `i`, where it has one.
fn step<M: PageMaker>(
    alloc: Global,
    input: &Input,
    allocator: &OnDemandInstanceAllocator<M, DefaultMemoryCreator>,
    seat: &mut OnDemandSeat<M>,
    calls: &[ModuleCall],
    parties: &mut Vec<PartyOnDemand<M>>,
    i: usize,
)
    ghost common: { World }
    requires background { IsBackground common input.now calls.now }
    requires maker { IsAllocatorFor common.terms allocator.now common.maker }
    requires parties { ArePartiesOnDemand common input.now (M.told seat.old.maker) parties.old.items }
    requires inside { i < length input.now.parties }
    ensures parties { ArePartiesOnDemand common input.now (M.told seat.new.maker) parties.new.items }
    ensures borrows { M.borrows seat.new.maker ≡ M.borrows seat.old.maker }
    ensures stepped { HaveStepped input.now (steps_of i 1) parties.old.items parties.new.items }
{
    let given = input.parties.as_slice();
    let party = &mut parties[i];
    turn_on_demand(
        alloc,
        allocator,
        seat,
        &input.tunables,
        calls,
        &given[i],
        party,
    );
}

// Makes so many steps of party `i`, or as many as it has commands left: more would change nothing.
fn repeat<M: PageMaker>(
    alloc: Global,
    input: &Input,
    allocator: &OnDemandInstanceAllocator<M, DefaultMemoryCreator>,
    seat: &mut OnDemandSeat<M>,
    calls: &[ModuleCall],
    parties: &mut Vec<PartyOnDemand<M>>,
    i: usize,
    times: u64,
)
    ghost common: { World }
    requires background { IsBackground common input.now calls.now }
    requires maker { IsAllocatorFor common.terms allocator.now common.maker }
    requires parties { ArePartiesOnDemand common input.now (M.told seat.old.maker) parties.old.items }
    requires inside { i < length input.now.parties }
    ensures parties { ArePartiesOnDemand common input.now (M.told seat.new.maker) parties.new.items }
    ensures borrows { M.borrows seat.new.maker ≡ M.borrows seat.old.maker }
    ensures stepped { HaveStepped input.now (steps_of i times) parties.old.items parties.new.items }
{
    let given = input.parties.as_slice();
    let count = given[i].commands.len();
    let told = parties[i].told.len();
    let left = count.saturating_sub(told);
    let turns = times.min(left as u64);
    for turn in 0..turns {
        step(alloc, input, allocator, seat, calls, parties, i);
    }
}

// Makes the steps of a schedule.
fn follow<M: PageMaker>(
    alloc: Global,
    input: &Input,
    allocator: &OnDemandInstanceAllocator<M, DefaultMemoryCreator>,
    seat: &mut OnDemandSeat<M>,
    calls: &[ModuleCall],
    parties: &mut Vec<PartyOnDemand<M>>,
    schedule: &[ScheduleEntry],
)
    ghost common: { World }
    requires background { IsBackground common input.now calls.now }
    requires maker { IsAllocatorFor common.terms allocator.now common.maker }
    requires parties { ArePartiesOnDemand common input.now (M.told seat.old.maker) parties.old.items }
    requires entries { (k : ℕ) (d : ScheduleEntry) → k < length schedule.now → (slice_index_or schedule.now k d).party < length input.now.parties }
    ensures parties { ArePartiesOnDemand common input.now (M.told seat.new.maker) parties.new.items }
    ensures borrows { M.borrows seat.new.maker ≡ M.borrows seat.old.maker }
    ensures stepped { HaveStepped input.now (steps_in (turns_of schedule.now)) parties.old.items parties.new.items }
{
    for at in 0..schedule.len() {
        let entry = schedule[at];
        repeat(
            alloc,
            input,
            allocator,
            seat,
            calls,
            parties,
            entry.party,
            entry.times,
        );
    }
}

// Makes the commands that are left of each party, party by party.
fn finish<M: PageMaker>(
    alloc: Global,
    input: &Input,
    allocator: &OnDemandInstanceAllocator<M, DefaultMemoryCreator>,
    seat: &mut OnDemandSeat<M>,
    calls: &[ModuleCall],
    parties: &mut Vec<PartyOnDemand<M>>,
)
    ghost common: { World }
    requires background { IsBackground common input.now calls.now }
    requires maker { IsAllocatorFor common.terms allocator.now common.maker }
    requires parties { ArePartiesOnDemand common input.now (M.told seat.old.maker) parties.old.items }
    ensures parties { ArePartiesOnDemand common input.now (M.told seat.new.maker) parties.new.items }
    ensures borrows { M.borrows seat.new.maker ≡ M.borrows seat.old.maker }
    ensures all { HaveAll input.now (length input.now.parties) parties.new.items }
{
    let given = input.parties.as_slice();
    for i in 0..given.len() {
        let commands = given[i].commands.as_slice();
        let count = commands.len() as u64;
        repeat(alloc, input, allocator, seat, calls, parties, i, count);
    }
}

// The replies to each party, in a list that has room for them.
fn replies_of<M: PageMaker>(
    parties: Vec<PartyOnDemand<M>>,
    lists: Vec<ReplyList>,
) -> PlainList<ReplyList>
    requires empty { lists.items ≡ [] }
    requires room { length parties.items ≤ vec_capacity lists }
    ensures { result ≡ map (λ p. p.told.items) parties.items }
{
    let mut lists = lists;
    for party in parties {
        lists.push_reserved(party.told.into_list());
    }
    PlainList::from_vec(lists)
}

// Makes the steps of the schedule over these calls, and where the input says so all that are left.
fn run_over<M: PageMaker>(
    alloc: Global,
    input: &Input,
    seat: &mut OnDemandSeat<M>,
    calls: &[ModuleCall],
) -> Result<RunOutput, AllocError>
    ghost maker: { MakerTold }
    requires told { M.told seat.old.maker ≡ maker }
    requires listed { ends_before_last maker.listed ≡ true }
    requires calls { calls.now ≡ calls_made input.now.tunables maker.page 0 input.now.modules }
    requires built { is_built input.now ≡ true }
    requires valid { is_valid input.now ≡ true }
    ensures told { IfOk result (λ output. AreToldOnDemand input.now maker output.replies) }
    ensures metrics { IfOk result (λ output. output.metrics ≡ no_metrics) }
    ensures calls { IfOk result (λ output. output.calls ≡ no_calls) }
    ensures borrows { M.borrows seat.new.maker ≡ M.borrows seat.old.maker }
{
    let _page = seat.maker.page().get();
    let parties = input.parties.as_slice();
    let lists = Vec::with_capacity(alloc, parties.len())?;
    let mut made = make_parties(alloc, input)?;
    let config = &input.config;
    let allocator = OnDemandInstanceAllocator::new(
        DefaultMemoryCreator,
        config.stack_size,
        config.async_stack_zeroing,
    );
    follow(
        alloc,
        input,
        &allocator,
        seat,
        calls,
        &mut made,
        input.schedule.as_slice(),
    );
    if input.finish {
        finish(alloc, input, &allocator, seat, calls, &mut made);
    }
    Ok(RunOutput::without_numbers(replies_of(made, lists)))
}

// Makes the images of the modules, and runs the input, where no rule of its settings is broken.
fn run_in_seat<M: PageMaker>(
    alloc: Global,
    input: &Input,
    seat: &mut OnDemandSeat<M>,
) -> Result<RunOutput, RunFault>
    ghost maker: { MakerTold }
    requires told { M.told seat.old.maker ≡ maker }
    requires listed { ends_before_last maker.listed ≡ true }
    requires page { maker.page ≡ input.now.page }
    requires built { is_built input.now ≡ true }
    requires valid { is_valid input.now ≡ true }
    ensures ok { IfOk result (IsOnDemand input.now maker) }
    ensures borrows { M.borrows seat.new.maker ≡ M.borrows seat.old.maker }
    ensures fault { result ≡ Err RunFault.PageFault → ModulesFault input.now.tunables input.now.page input.now.modules maker (M.told seat.new.maker) }
    ensures rules { OnOk result (broken_rule input.now ≡ None) }
    ensures refused { IfErr result (NamesRule (broken_rule input.now)) }
{
    let config = &input.config;
    match config.check_rules(&input.tunables, input.page, input.shards, &input.offered) {
        Err(rule) => Err(RunFault::BadConfig(rule)),
        Ok(_) => {
            let modules = input.modules.as_slice();
            match make_calls(alloc, &mut seat.maker, &input.tunables, modules) {
                Err(fault) => Err(fault),
                Ok(calls) => match run_over(alloc, input, seat, calls.as_slice()) {
                    Ok(output) => Ok(output),
                    Err(_) => Err(RunFault::Memory),
                },
            }
        }
    }
}

// The same, by a maker that is as it tells.
fn run_seated<M: PageMaker>(
    alloc: Global,
    input: &Input,
    seat: &mut OnDemandSeat<M>,
) -> Result<RunOutput, RunFault>
    requires listed { ends_before_last (M.told seat.old.maker).listed ≡ true }
    requires page { (M.told seat.old.maker).page ≡ input.now.page }
    requires built { is_built input.now ≡ true }
    requires valid { is_valid input.now ≡ true }
    ensures ok { IfOk result (IsOnDemand input.now (M.told seat.old.maker)) }
    ensures borrows { M.borrows seat.new.maker ≡ M.borrows seat.old.maker }
    ensures fault { result ≡ Err RunFault.PageFault → ModulesFault input.now.tunables input.now.page input.now.modules (M.told seat.old.maker) (M.told seat.new.maker) }
    ensures rules { OnOk result (broken_rule input.now ≡ None) }
    ensures refused { IfErr result (NamesRule (broken_rule input.now)) }
{
    run_in_seat(alloc, input, seat)
}

// Runs the input over a maker before which these faults stand.
fn run_over_faults<M: PageMaker>(
    alloc: Global,
    input: &Input,
    pages: &mut M,
    page: PageSize,
    faults: &[Fault],
) -> Result<RunOutput, RunFault>
    requires page { page ≡ input.now.page }
    requires faults { faults.now ≡ filter can_come input.now.faults }
    requires built { is_built input.now ≡ true }
    requires valid { is_valid input.now ≡ true }
    ensures ok { IfOk result (IsOnDemand input.now (with_faults input.now (M.told pages.old))) }
    ensures fault { result ≡ Err RunFault.PageFault → HasFaultedImages input.now (M.told pages.old) (M.told pages.new) }
    ensures rules { OnOk result (broken_rule input.now ≡ None) }
    ensures refused { IfErr result (NamesRule (broken_rule input.now)) }
{
    let maker = FailingMaker::new(pages, page, faults);
    let mut seat = OnDemandSeat { maker };
    let answer = run_seated(alloc, input, &mut seat);
    // given back here, so that the prover knows whose count it is
    let _pages = seat.maker.into_maker();
    answer
}

// Runs the input with this page, with those of its faults that can come true.
fn run_paged<M: PageMaker>(
    alloc: Global,
    input: &Input,
    pages: &mut M,
    page: PageSize,
) -> Result<RunOutput, RunFault>
    requires page { page ≡ input.now.page }
    requires built { is_built input.now ≡ true }
    requires valid { is_valid input.now ≡ true }
    ensures ok { IfOk result (IsOnDemand input.now (with_faults input.now (M.told pages.old))) }
    ensures fault { result ≡ Err RunFault.PageFault → HasFaultedImages input.now (M.told pages.old) (M.told pages.new) }
    ensures rules { OnOk result (broken_rule input.now ≡ None) }
    ensures refused { IfErr result (NamesRule (broken_rule input.now)) }
{
    match faults_that_come(alloc, input.faults.as_slice()) {
        Ok(faults) => run_over_faults(alloc, input, pages, page, faults.as_slice()),
        Err(_) => Err(without_memory(input)),
    }
}

/// Makes the images of the input's modules, and has the parties make their commands, each of which is one step: those of the
/// schedule first, and then, where the input says so, those that are left, party by party. Memories, tables, stacks and heaps
/// are made for the request that asks for them, and dropped when they are given back; there is no pool, whose settings are
/// tested but not used. The making of an image fails exactly where the input lists it. Makings and page calls on demand fail no
/// more often than it lists them, which its clause says of the whole run, and no clause says that a listed one fails. An entry
/// for the last number that a region on demand or a call on it can have is left out: no run gets there. Nothing is run where
/// the input isn't valid, which is tested first, or a rule of its settings is broken, where an image can't be made, or where
/// there is no memory for the run and the lists of its replies.
pub fn run_on_demand<M: PageMaker>(
    alloc: Global,
    input: &Input,
    pages: &mut M,
) -> Result<RunOutput, RunFault>
    requires built { is_built input.now ≡ true }
    ensures ok { IfOk result (IsOnDemand input.now (with_faults input.now (M.told pages.old))) }
    ensures bad_input { (result ≡ Err RunFault.BadInput) ↔ (is_valid input.now ≡ false) }
    ensures bad_config { (e : BadConfig) → (result ≡ Err (RunFault.BadConfig e)) ↔ ((is_valid input.now ≡ true) × (broken_rule input.now ≡ Some e)) }
    ensures fault { result ≡ Err RunFault.PageFault → HasFaultedImages input.now (M.told pages.old) (M.told pages.new) }
{
    if !is_valid(input) {
        return Err(RunFault::BadInput);
    }
    match PageSize::new(input.page) {
        Ok(page) => run_paged(alloc, input, pages, page),
        Err(rule) => Err(RunFault::BadConfig(rule)),
    }
}
