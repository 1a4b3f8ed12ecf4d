ghost use Rattle.std.specs.Prelude.{◌≡◌, ◌↔◌, Err, Some, IfOk, IfErr, OnOk, true, false};
ghost use Rattle.pool_pages.specs.declared.maker.MakeFault.TheVariants as making;
ghost use Rattle.pool_memory.specs.Moving.{IsRefusedFor};
ghost use Rattle.pool_run.specs.Runs.{is_refused};
ghost use Rattle.pool_run_shared.specs.Steps.{IsKept, IsMadeShared, IsMakingFault, IsNotMade, MakesOfAll, fault_of};
ghost use Rattle.pool_types.specs.Count.{IsPageSize};
ghost use Rattle.pool_types.specs.declared.bad_config.BadConfig.{BadConfig};
ghost use Rattle.pool_run_shared.specs.Runs.{IsSharedRun, HasNoShared, broken_page, first_size, shared_layout, shared_type, with_page};
ghost use Rattle.pool_run_shared.specs.Validity.{is_valid_shared};

use crate::events::happen;
use crate::input::{SharedEvent, SharedInput};
use crate::reply::SharedReply;
use crate::validity::is_valid_shared;
use pool_memory::{MemoryError, MmapMemory, RuntimeLinearMemory};
use pool_pages::{FailingMaker, PageMaker, Pages};
use pool_run::RunFault;
use pool_shared::SharedState;
use pool_types::{MemoryKind, MemoryTunables, MemoryType, PageSize, Tunables};
use std::alloc::{AllocError, Global};

// The type of the input's memory, which is shared.
fn shared_type(input: &SharedInput) -> MemoryType
    ensures { result ≡ shared_type input.now }
{
    let ty = input.memory.ty;
    MemoryType {
        idx_type: ty.idx_type,
        limits: ty.limits,
        shared: true,
        page_size_log2: ty.page_size_log2,
    }
}

// Why the memory isn't made.
fn making_fault(error: MemoryError) -> RunFault
    requires { IsMakingFault error }
    ensures { result ≡ fault_of error }
{
    match error {
        MemoryError::PageFault => RunFault::PageFault,
        MemoryError::Memory => RunFault::Memory,
        MemoryError::Unsupported(_)
        | MemoryError::LimiterDenied { .. }
        | MemoryError::LimiterFault(_) => unreachable!(),
    }
}

// Makes the memory.
fn make_shared<P: Pages, M: PageMaker<Region = P>>(
    alloc: Global,
    maker: &mut M,
    input: &SharedInput,
) -> Result<SharedState<M, MmapMemory<P>>, RunFault>
    requires page { (M.told maker.old).page ≡ input.now.page }
    requires sized { IsPageSize input.now.page }
    requires valid { is_valid_shared input.now ≡ true }
    ensures ok { IfOk result (IsMadeShared input.now (M.told maker.old) (M.told maker.new)) }
    ensures err { IfErr result (IsNotMade input.now (M.told maker.old) (M.told maker.new)) }
    ensures borrows { M.borrows maker.new ≡ M.borrows maker.old }
{
    let tunables = MemoryTunables::new(&Tunables::default(), MemoryKind::LinearMemory);
    match SharedState::new(alloc, maker, &shared_type(input), &tunables, true) {
        Ok(state) => Ok(state),
        Err(error) => Err(making_fault(error)),
    }
}

// What happens in each of the events, one after another.
fn replies_of<M, L: RuntimeLinearMemory<M>>(
    alloc: Global,
    maker: &mut M,
    state: &mut SharedState<M, L>,
    events: &[SharedEvent],
) -> Result<Vec<SharedReply>, AllocError>
    requires { IsKept state.old.memory }
    ensures ok { IfOk result (λ replies. MakesOfAll events.now state.old state.new replies.items) }
    ensures maker { L.maker_told maker.new ≡ L.maker_told maker.old }
    ensures borrows { L.maker_borrows maker.new ≡ L.maker_borrows maker.old }
{
    let mut replies = Vec::with_capacity(alloc, events.len())?;
    for at in 0..events.len() {
        let reply = happen(alloc, maker, state, &events[at])?;
        replies.push_reserved(reply);
    }
    Ok(replies)
}

fn run_by<P: Pages, M: PageMaker<Region = P>>(
    alloc: Global,
    maker: &mut M,
    input: &SharedInput,
) -> Result<Vec<SharedReply>, RunFault>
    requires page { (M.told maker.old).page ≡ input.now.page }
    requires sized { IsPageSize input.now.page }
    requires valid { is_valid_shared input.now ≡ true }
    ensures ok { IfOk result (λ replies. IsSharedRun input.now (M.told maker.old) replies.items) }
    ensures fault { result ≡ Err RunFault.PageFault → IsRefusedFor making.PageFault (shared_layout input.now) (first_size input.now) (M.told maker.old) (M.told maker.new) }
    ensures refused { IfErr result (λ fault. is_refused fault ≡ false) }
    ensures behind { OnOk result ((M.told maker.new).behind ≡ (M.told maker.old).behind) }
    ensures borrows { M.borrows maker.new ≡ M.borrows maker.old }
{
    let mut state = make_shared(alloc, maker, input)?;
    match replies_of(alloc, maker, &mut state, input.events.as_slice()) {
        Ok(replies) => Ok(replies),
        Err(_) => Err(RunFault::Memory),
    }
}

/// Makes a shared memory and has the events happen on it, one after another. There is one reply for each event. Nothing
/// happens where the input isn't valid, which is tested first, or its page is none, or where the memory's region can't be
/// made. Where there is no memory for a reply or a wait there is no answer at all.
pub fn run_shared<M: PageMaker>(
    alloc: Global,
    input: &SharedInput,
    pages: &mut M,
) -> Result<Vec<SharedReply>, RunFault>
    ensures ok { IfOk result (λ replies. IsSharedRun input.now (with_page input.now (M.told pages.old)) replies.items) }
    ensures bad_input { (result ≡ Err RunFault.BadInput) ↔ (is_valid_shared input.now ≡ false) }
    ensures bad_config { (e : BadConfig) → (result ≡ Err (RunFault.BadConfig e)) ↔ ((is_valid_shared input.now ≡ true) × (broken_page input.now ≡ Some e)) }
    ensures fault { result ≡ Err RunFault.PageFault → HasNoShared input.now (with_page input.now (M.told pages.old)) (M.told pages.new) }
    ensures faults { OnOk result ((M.told pages.new).faults ≡ (M.told pages.old).faults) }
{
    if !is_valid_shared(input) {
        return Err(RunFault::BadInput);
    }
    match PageSize::new(input.page) {
        Ok(page) => {
            let mut maker = FailingMaker::new(pages, page, &[]);
            let answer = run_by(alloc, &mut maker, input);
            // given back before the list is dropped, so that the prover knows whose count it is
            let _pages = maker.into_maker();
            answer
        }
        Err(rule) => Err(RunFault::BadConfig(rule)),
    }
}
