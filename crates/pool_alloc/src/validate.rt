//! A request is tested, and refused at once where it breaks a rule.
ghost use Rattle.std.specs.Prelude.{◌≡◌, ◌<◌, Bool, Some, None, [], IfOk};
ghost use Rattle.pool_types.specs.declared.unsupported.Unsupported.{Unsupported};
ghost use Rattle.pool_alloc.specs.CanStep.{CanValidate};
ghost use Rattle.pool_alloc.specs.Refusals.{number_refused, objects_refused, module_refused};
ghost use Rattle.pool_alloc.specs.StepReads.{info_wanted, memories_wanted, under};
ghost use Rattle.pool_alloc.specs.StepTable.{validated, validate_row, validate_component_row};
ghost use Rattle.pool_alloc.specs.Turns.{After, Left, after, ends, failing, stepped};
ghost use Rattle.pool_alloc.specs.declared.pool_core.PoolCore.{PoolCore};

pub(crate) mod sizes;

use crate::frame::turns::drop_phase;
use crate::frame::{Asked, Frame, Outcome, Phase};
use crate::leases::instance::InstanceLease;
use crate::memory_pool::rules::{limits_refused, number_refused, offsets_refused, slots_refused};
use crate::pool_core::Settings;
use crate::reserved::ReservedList;
use crate::table_pool::rules::{table_limits_refused, tables_broken};
use crate::validate::sizes::{component_refused, size_refused};
use pool_pages::Pages;
use pool_slots::{AllocError, GcHeap, Plan};
use pool_types::{ComponentInfo, MemoryDecl, ModuleInfo, TableType, Unsupported};
use std::alloc::Global;

// Tests the module, and reserves the lists of what is to be granted.
#[inline(never)]
pub(crate) fn validate<P: Pages, H: GcHeap>(
    settings: &Settings,
    plan: &Plan,
    alloc: Global,
    frame: &mut Frame<P, H>,
    outcome: &mut Option<Outcome<P, H>>,
)
    requires can { CanValidate (memories_wanted frame.old.asked) }
    requires unanswered { outcome.old ≡ None }
    ensures { (wants : Bool) × ((c : PoolCore P H) → ◌≡◌ {A = After P H} (record { core = under settings.now plan.now c; frame = frame.new; outcome = outcome.new }) (stepped (validate_row wants (under settings.now plan.now c) frame.old))) }
{
    match asked_refused(settings, plan, frame) {
        Some(rule) => refuse_at_once(frame, AllocError::Unsupported(rule), outcome),
        None => reserve_grants(alloc, frame, Phase::CountInstance, outcome),
    }
}

// The call ends with a refusal before anything is granted.
pub(crate) fn refuse_at_once<P: Pages, H: GcHeap>(
    frame: &mut Frame<P, H>,
    error: AllocError,
    outcome: &mut Option<Outcome<P, H>>,
)
    requires unanswered { outcome.old ≡ None }
    ensures { ◌≡◌ {A = Left P H} (record { frame = frame.new; outcome = outcome.new }) (after (failing error frame.old) (ends (Outcome.Refused error))) }
{
    frame.end(Outcome::Refused(error), outcome)
}

// The lists of what is to be granted are reserved, and this phase is next.
pub(crate) fn reserve_grants<P: Pages, H: GcHeap>(
    alloc: Global,
    frame: &mut Frame<P, H>,
    next: Phase<P, H>,
    outcome: &mut Option<Outcome<P, H>>,
)
    requires unanswered { outcome.old ≡ None }
    ensures { (wants : Bool) × ((c : PoolCore P H) → ◌≡◌ {A = After P H} (record { core = c; frame = frame.new; outcome = outcome.new }) (stepped (validated None wants next c frame.old))) }
{
    match room_for(alloc, frame.memories_wanted(), frame.tables_wanted()) {
        Ok(objects) => {
            frame.objects = objects;
            frame.go(next)
        }
        Err(_) => {
            drop_phase(next);
            refuse_at_once(frame, AllocError::Memory, outcome)
        }
    }
}

// The first rule that the module breaks which is asked for.
fn asked_refused<P: Pages, H: GcHeap>(
    settings: &Settings,
    plan: &Plan,
    frame: &Frame<P, H>,
) -> Option<Unsupported>
    requires { CanValidate (memories_wanted frame.now.asked) }
    ensures { result ≡ module_refused settings.now plan.now.totals.table (info_wanted frame.now.asked) }
{
    match &frame.asked {
        Asked::Module(call) => module_refused(settings, plan.totals.table, &call.info),
        _ => None,
    }
}

// Nothing of an instance, with room for so many memories and tables.
fn room_for<P: Pages>(
    alloc: Global,
    memories: usize,
    tables: usize,
) -> Result<InstanceLease<P>, std::alloc::AllocError>
    ensures { IfOk result (λ l. l ≡ record { memories = record { items = []; room = memories }; tables = record { items = []; room = tables } }) }
{
    let memories = ReservedList::with_room(alloc, memories)?;
    let tables = ReservedList::with_room(alloc, tables)?;
    Ok(InstanceLease { memories, tables })
}

/// The first rule that the module breaks, in a pool with so many slots for tables.
pub fn module_refused(settings: &Settings, total: u32, info: &ModuleInfo) -> Option<Unsupported>
    requires { CanValidate info.now.memories }
    ensures { result ≡ module_refused settings.now total info.now }
{
    let (memories, tables) = (info.memories.as_slice(), info.tables.as_slice());
    match objects_refused(settings, total, memories, tables) {
        Some(rule) => Some(rule),
        None => size_refused(settings, info),
    }
}

fn objects_refused(
    settings: &Settings,
    total: u32,
    decls: &[MemoryDecl],
    tables: &[TableType],
) -> Option<Unsupported>
    requires { CanValidate decls.now }
    ensures { result ≡ objects_refused settings.now total decls.now tables.now }
{
    if let Some(rule) = offsets_refused(settings.page, decls) {
        return Some(rule);
    }
    if let Some(rule) = limits_refused(decls) {
        return Some(rule);
    }
    if let Some(rule) = table_limits_refused(tables) {
        return Some(rule);
    }
    if let Some(rule) = number_refused(settings, decls.len()) {
        return Some(rule);
    }
    if let Some(rule) = slots_refused(settings, decls) {
        return Some(rule);
    }
    tables_broken(settings, total, tables)
}

// A component has nothing of the pool. It is tested, and counted while it is granted.
#[inline(never)]
pub(crate) fn test_component<P: Pages, H: GcHeap>(
    settings: &Settings,
    frame: &mut Frame<P, H>,
    info: &ComponentInfo,
    outcome: &mut Option<Outcome<P, H>>,
)
    requires unanswered { outcome.old ≡ None }
    ensures { (c : PoolCore P H) → ◌≡◌ {A = After P H} (record { core = under settings.now c.plan c; frame = frame.new; outcome = outcome.new }) (stepped (validate_component_row info.now (under settings.now c.plan c) frame.old)) }
{
    match component_refused(settings, info) {
        Some(rule) => refuse_at_once(frame, AllocError::Unsupported(rule), outcome),
        None => frame.go(Phase::CountComponent),
    }
}
