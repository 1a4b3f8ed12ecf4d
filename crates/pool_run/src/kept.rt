//! The faults of an input that can come true, which a run keeps.
ghost use Rattle.std.specs.Prelude.{◌≡◌, ◌≢◌, [], ◌∷◌, ◌++◌, cond, filter, true, IfOk};
ghost use Rattle.pool_run.specs.Built.{broken_rule, is_built};
ghost use Rattle.pool_run.specs.Kept.{can_come};
ghost use Rattle.pool_run.specs.Runs.{NamesRule};

use crate::input::Input;
use crate::output::RunFault;
use pool_pages::{Fault, FaultKind};
use std::alloc::{AllocError, Global};

// Whether an entry can come true: its call is before the last number that a count of calls can have, and on demand its region is before the
// last one.
fn can_come(fault: &Fault) -> bool
    ensures { result ≡ can_come fault.now }
{
    match fault.kind {
        FaultKind::OnDemand => fault.slot < u32::MAX as u64 && fault.call < u64::MAX,
        FaultKind::Image => true,
        FaultKind::Memory | FaultKind::Table | FaultKind::Stack => fault.call < u64::MAX,
    }
}

// Adds an entry that can come true.
fn keep(kept: &mut Vec<Fault>, fault: Fault) -> Result<(), AllocError>
    ensures kept { IfOk result (λ _. kept.new.items ≡ kept.old.items ++ cond (can_come fault) (fault ∷ []) []) }
{
    if !can_come(&fault) {
        return Ok(());
    }
    kept.push(fault)?;
    Ok(())
}

/// The entries of an input that can come true, in order. One for the last number that a count of calls can have, or for the last region on
/// demand, is left out: no run gets there.
pub fn faults_that_come(alloc: Global, faults: &[Fault]) -> Result<Vec<Fault>, AllocError>
    ensures kept { IfOk result (λ v. v.items ≡ filter can_come faults.now) }
{
    let mut kept = Vec::with_capacity(alloc, faults.len())?;
    for at in 0..faults.len() {
        keep(&mut kept, faults[at])?;
    }
    Ok(kept)
}

/// What a run is refused with that finds no memory before its settings are tested: the first rule that they break, or want of memory.
pub fn without_memory(input: &Input) -> RunFault
    requires built { is_built input.now ≡ true }
    ensures refused { NamesRule (broken_rule input.now) result }
    ensures other { result ≢ RunFault.PageFault }
{
    let config = &input.config;
    match config.check_rules(&input.tunables, input.page, input.shards, &input.offered) {
        Err(rule) => RunFault::BadConfig(rule),
        Ok(_) => RunFault::Memory,
    }
}
