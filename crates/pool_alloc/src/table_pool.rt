//! The pool of tables: a table is made in its region, and reset.
ghost use Rattle.std.specs.Prelude.{◌≡◌, ◌≤◌, Bool, Result, IfSome, [], ◌∷◌, length, None};
ghost use Rattle.pool_pages.specs.Told.{TellsMarks, Told};
ghost use Rattle.pool_limits.specs.Exchanges.{may_grow, Exchanged};
ghost use Rattle.pool_limits.specs.declared.errors.LimiterError.{LimiterError};
ghost use Rattle.pool_table.specs.Making.{making_question, room_of};
ghost use Rattle.pool_table.specs.Tables.{IsRoom, type_maximum};
ghost use Rattle.pool_alloc.specs.TableSteps.{IsInRegion, CanQueue, table_reset, AsksForTable, MakesLease, table_refusal, table_refused, MakesFor};
ghost use Rattle.pool_alloc.specs.CanStep.{HasTableNext, CanMakeTable};
ghost use Rattle.pool_alloc.specs.Modules.{IfTable};
ghost use Rattle.pool_alloc.specs.StepTable.{table_made_by, make_table_row};
ghost use Rattle.pool_alloc.specs.StepReads.{under};
ghost use Rattle.pool_alloc.specs.Turns.{After, stepped};
ghost use Rattle.pool_alloc.specs.declared.pool_core.PoolCore.{PoolCore};
ghost use Rattle.pool_alloc.specs.TableLeases.{table_slot};

pub(crate) mod rules;

use crate::frame::{Asked, Frame, Object, Phase, TakenSlot};
use crate::leases::table::TableLease;
use crate::pool_core::Settings;
use pool_images::Ranges;
use pool_limits::ResourceLimiter;
use pool_pages::{PageRegion, Pages};
use pool_slots::{
    AllocError, DecommitQueue, GcHeap, HeldSlot, ImageSlot, PlainHeld, PlainSlot, QueueKind,
    QueuedSlot, TableAllocationIndex, data_size,
};
use pool_table::{ElementSize, Table, TableError};
use pool_types::{HostAlignedByteCount, PageSize, TableType, Tunables};

/// A table in its slot, or the region of one that is refused.
type TableMaking<P> = Result<TableLease<P>, (PageRegion<P>, AllocError)>;

// Asks the limiter, and makes the table.
#[inline(never)]
pub(crate) fn make_table<P: Pages, H: GcHeap, L: ResourceLimiter>(
    settings: &Settings,
    frame: &mut Frame<P, H>,
    at: TakenSlot,
    region: PageRegion<P>,
    limiter: &mut L,
)
    requires next { HasTableNext frame.old.asked (length frame.old.objects.tables.items) }
    requires can { IfTable frame.old (CanMakeTable settings.now region) }
    ensures { (answer : Result Bool LimiterError) × IfTable frame.old (AsksForTable answer (L.told limiter.old) (L.told limiter.new)) × IfTable frame.old (λ ty. Exchanged L.leads (may_grow (making_question ty) answer ∷ []) limiter.old limiter.new) × ((c : PoolCore P H) → ◌≡◌ {A = After P H} (record { core = under settings.now c.plan c; frame = frame.new; outcome = None }) (stepped (make_table_row answer at region (under settings.now c.plan c) frame.old))) }
{
    let making = make_next_table(settings, frame, at, region, limiter);
    table_made(frame, at, making)
}

// The table that is allocated.
fn make_next_table<P: Pages, H: GcHeap, L: ResourceLimiter>(
    settings: &Settings,
    frame: &Frame<P, H>,
    at: TakenSlot,
    region: PageRegion<P>,
    limiter: &mut L,
) -> TableMaking<P>
    requires next { HasTableNext frame.now.asked (length frame.now.objects.tables.items) }
    requires can { IfTable frame.now (CanMakeTable settings.now region) }
    ensures { (answer : Result Bool LimiterError) × IfTable frame.now (MakesFor L.told L.leads settings.now answer at region limiter.old limiter.new result) }
{
    let table = frame.objects.tables.len();
    match &frame.asked {
        Asked::Nothing | Asked::Memory(_) | Asked::Stack | Asked::Heap(_) | Asked::HeapOver(_) =>
            unreachable!(),
        Asked::Module(call) => {
            let ty = &call.info.tables.as_slice()[table];
            make_table_of(ty, settings, at, region, limiter)
        }
        Asked::Table(ty) => make_table_of(ty, settings, at, region, limiter),
    }
}

fn make_table_of<P: Pages, L: ResourceLimiter>(
    ty: &TableType,
    settings: &Settings,
    at: TakenSlot,
    region: PageRegion<P>,
    limiter: &mut L,
) -> TableMaking<P>
    requires { CanMakeTable settings.now region ty.now }
    ensures { (answer : Result Bool LimiterError) × MakesFor L.told L.leads settings.now answer at region limiter.old limiter.new result ty.now }
{
    let bytes = data_size(settings.table_elements, settings.table_slot, ty.element);
    let tunables = &settings.tunables.tunables;
    let pages = region.into_pages();
    match make_lease(ty, tunables, bytes, at, pages, limiter) {
        Ok(lease) => Ok(lease),
        Err((pages, error)) => Err((PageRegion::new(pages), error)),
    }
}

// What comes after a making.
fn table_made<P: Pages, H: GcHeap>(frame: &mut Frame<P, H>, at: TakenSlot, making: TableMaking<P>)
    ensures { (c : PoolCore P H) → ◌≡◌ {A = After P H} (record { core = c; frame = frame.new; outcome = None }) (stepped (table_made_by at making c frame.old)) }
{
    let phase = match making {
        Ok(lease) => Phase::CountObject(Object::Table(lease)),
        Err((region, error)) => {
            frame.fail(error);
            Phase::PutBack(at, ImageSlot::Unmapped(region))
        }
    };
    frame.go(phase)
}

// Resets a table into a queue.
pub(crate) fn reset_table<P: Pages>(
    page: PageSize,
    dirty_pages: bool,
    keep_resident: HostAlignedByteCount,
    lease: TableLease<P>,
    local: &mut DecommitQueue<P>,
)
    requires keep { keep_resident.page ≡ page }
    requires region { (region : Told) × IsInRegion page lease region }
    requires room { CanQueue (table_slot lease.index) local.old }
    ensures marks { IfSome lease.table.region TellsMarks }
    ensures reset { (region : Told) × IsInRegion page lease region × (local.new ≡ table_reset dirty_pages page keep_resident.bytes lease region local.old) }
{
    let slot = lease.index.0;
    let numbers = lease.numbers;
    let bytes = lease.table.size() * lease.table.element_type().element_size();
    let used = HostAlignedByteCount::rounded_up_unchecked(page, bytes);
    let mut plain = PlainSlot::new(lease.table.into_region(), page.zero());
    let mut ranges = Ranges::new();
    let kept = plain.reset_pages(dirty_pages, used, keep_resident, &mut ranges);
    let _size = plain.len();
    let _few = ranges.len();
    let (region, base) = plain.into_parts();
    let item = QueuedSlot {
        slot,
        held: HeldSlot::Table(PlainHeld {
            region,
            base,
            by_hand: Some(used.byte_count()),
        }),
        known: true,
        bytes: kept,
        numbers,
    };
    local.push_reset(QueueKind::Table, item, ranges.as_slice());
}

/// Asks the limiter for a table's minimum, and makes the table over the region of its slot, of which it has so many bytes.
fn make_lease<P: Pages, L: ResourceLimiter>(
    ty: &TableType,
    tunables: &Tunables,
    bytes: usize,
    at: TakenSlot,
    region: P,
    limiter: &mut L,
) -> Result<TableLease<P>, (P, AllocError)>
    requires limits { ty.now.limits.min ≤ room_of ty.now bytes → ty.now.limits.min ≤ type_maximum ty.now }
    requires inside { bytes ≤ (P.told region).len }
    requires zeros { IfSome (P.told region).contents (IsRoom (P.told region).page (P.told region).len 0 bytes) }
    ensures { (answer : Result Bool LimiterError) × AsksForTable answer (L.told limiter.old) (L.told limiter.new) ty.now × L.leads limiter.old (may_grow (making_question ty.now) answer) limiter.new × MakesLease P.told (λ l. l) (table_refused answer ty.now.limits.min (room_of ty.now bytes)) ty.now tunables.now.table_lazy_init bytes at.name.slot at.numbers region result }
{
    match Table::new_static(ty, tunables, region, bytes, Some(limiter)) {
        Ok(table) => Ok(TableLease {
            index: TableAllocationIndex(at.name.slot),
            table,
            numbers: at.numbers,
        }),
        Err((region, error)) => Err((region, table_refusal(error))),
    }
}

fn table_refusal(error: TableError) -> AllocError
    ensures { result ≡ table_refusal error }
{
    match error {
        TableError::Memory => AllocError::Memory,
        TableError::Unsupported(rule) => AllocError::Unsupported(rule),
        TableError::LimiterDenied { min } => AllocError::LimiterDenied { table: true, min },
        TableError::LimiterFault(e) => AllocError::LimiterFault(e),
    }
}
