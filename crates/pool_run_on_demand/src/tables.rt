ghost use Rattle.std.specs.Prelude.{Bool, ◌≡◌, ◌<◌, All, length, slice_get, slice_index_or, slice_set, None, Some};
ghost use Rattle.pool_limits.specs.Growth.{GrowthRule};
ghost use Rattle.pool_table.specs.TableStates.{table_view};
ghost use Rattle.pool_alloc.specs.TableLeases.{HasType};
ghost use Rattle.pool_run.specs.Acts.{sets};
ghost use Rattle.pool_run.specs.AtOnce.{given_table_op};
ghost use Rattle.pool_run.specs.Objects.{MovesNamed, MovesObject, object_at};
ghost use Rattle.pool_run_on_demand.specs.Left.{KeepsLive, KeepsMemories};
ghost use Rattle.pool_run_on_demand.specs.Seen.{ViewMovesOnDemand, IsHeldInstance, IsHeldGrant, AreLive, LengthensByRule, TableLeaseMovesOnDemand, made_tables, tables_of_grant, with_table_in, with_table};
ghost use Rattle.pool_run.specs.PartyRules.{rule_of};

use crate::act::take_from;
use crate::grant::OnDemandGrant;
use pool_alloc::{element_at, set_elements};
use pool_limits::{GrowFault, Unlimited};
use pool_memory::LinearMemory;
use pool_on_demand::{OnDemandInstance, OnDemandTable};
use pool_pages::{PageMaker, Pages};
use pool_run::{
    PartyLimits, Refusal, Reply, TableOp, TableValue, element_for, element_reply, fill_reply,
    growth_reply, limiter_of,
};
use pool_table::{ListedStore, Table};
use pool_types::PlainList;

// Does something with table `table` of the grant of command `of`. It grows under these limits, and GC references are told to
// this store.
pub(crate) fn act_on_table_on_demand<M: PageMaker>(
    live: &mut Vec<Option<OnDemandGrant<M, LinearMemory<M::Region>, M::Region>>>,
    store: &mut ListedStore,
    of: usize,
    table: usize,
    op: &TableOp,
    limits: Option<PartyLimits>,
) -> Reply
    ghost tells: { Bool }
    requires held { AreLive tells live.old.items }
    ensures moves { MovesObject made_tables (TableLeaseMovesOnDemand (given_table_op op.now) (rule_of limits) store.old store.new) of table live.old.items result live.new.items }
    ensures unasked { object_at made_tables of table live.old.items ≡ None → store.new ≡ store.old }
    ensures failing { store.new.failing ≡ store.old.failing }
    ensures memories { KeepsLive live.old.items live.new.items }
    ensures held { AreLive tells live.new.items }
    ensures places { length live.new.items ≡ length live.old.items }
{
    match take_from(live, of) {
        None => Reply::Refused(Refusal::NoSuchGrant),
        Some(grant) => act_on_taken(live, store, of, grant, table, op, limits),
    }
}

// Acts on a grant that was taken out of its place, and puts it back.
fn act_on_taken<M: PageMaker>(
    live: &mut Vec<Option<OnDemandGrant<M, LinearMemory<M::Region>, M::Region>>>,
    store: &mut ListedStore,
    of: usize,
    grant: OnDemandGrant<M, LinearMemory<M::Region>, M::Region>,
    table: usize,
    op: &TableOp,
    limits: Option<PartyLimits>,
) -> Reply
    ghost tells: { Bool }
    requires place { of < length live.old.items }
    requires grant { IsHeldGrant tells grant }
    requires held { AreLive tells live.old.items }
    ensures moves { MovesNamed (TableLeaseMovesOnDemand (given_table_op op.now) (rule_of limits) store.old store.new) (slice_get (tables_of_grant grant) table) (λ l live. slice_set live of (Some (with_table_in table l grant))) (slice_set live.old.items of (Some grant)) result live.new.items }
    ensures unasked { slice_get (tables_of_grant grant) table ≡ None → store.new ≡ store.old }
    ensures failing { store.new.failing ≡ store.old.failing }
    ensures memories { KeepsLive (slice_set live.old.items of (Some grant)) live.new.items }
    ensures held { AreLive tells live.new.items }
    ensures places { length live.new.items ≡ length live.old.items }
{
    let (grant, reply) = act_on_grant(grant, store, table, op, limits);
    live[of] = Some(grant);
    reply
}

fn act_on_grant<M: PageMaker>(
    grant: OnDemandGrant<M, LinearMemory<M::Region>, M::Region>,
    store: &mut ListedStore,
    table: usize,
    op: &TableOp,
    limits: Option<PartyLimits>,
) -> (OnDemandGrant<M, LinearMemory<M::Region>, M::Region>, Reply)
    ghost tells: { Bool }
    requires held { IsHeldGrant tells grant }
    ensures moves { MovesNamed (TableLeaseMovesOnDemand (given_table_op op.now) (rule_of limits) store.old store.new) (slice_get (tables_of_grant grant) table) (with_table_in table) grant result.1 result.0 }
    ensures unasked { slice_get (tables_of_grant grant) table ≡ None → store.new ≡ store.old }
    ensures failing { store.new.failing ≡ store.old.failing }
    ensures memories { KeepsMemories grant result.0 }
    ensures held { IsHeldGrant tells result.0 }
{
    match grant {
        OnDemandGrant::Instance(instance) => {
            let (instance, reply) = act_on_instance(instance, store, table, op, limits);
            (OnDemandGrant::Instance(instance), reply)
        }
        OnDemandGrant::Component => {
            (
                OnDemandGrant::Component,
                Reply::Refused(Refusal::NoSuchGrant),
            )
        }
        OnDemandGrant::Stack(lease) => {
            (
                OnDemandGrant::Stack(lease),
                Reply::Refused(Refusal::NoSuchGrant),
            )
        }
        OnDemandGrant::Heap(heap, memory) => {
            let refused = Reply::Refused(Refusal::NoSuchGrant);
            (OnDemandGrant::Heap(heap, memory), refused)
        }
    }
}

fn act_on_instance<M: PageMaker>(
    instance: OnDemandInstance<M, LinearMemory<M::Region>, M::Region>,
    store: &mut ListedStore,
    table: usize,
    op: &TableOp,
    limits: Option<PartyLimits>,
) -> (
    OnDemandInstance<M, LinearMemory<M::Region>, M::Region>,
    Reply,
)
    ghost tells: { Bool }
    requires held { IsHeldInstance tells instance }
    ensures moves { MovesNamed (TableLeaseMovesOnDemand (given_table_op op.now) (rule_of limits) store.old store.new) (slice_get instance.tables table) (with_table table) instance result.1 result.0 }
    ensures unasked { slice_get instance.tables table ≡ None → store.new ≡ store.old }
    ensures failing { store.new.failing ≡ store.old.failing }
    ensures memories { result.0.memories ≡ instance.memories }
    ensures held { IsHeldInstance tells result.0 }
{
    let OnDemandInstance { memories, tables } = instance;
    let mut tables = tables.into_vec();
    let reply = act_in_list(&mut tables, store, table, op, limits);
    let instance = OnDemandInstance {
        memories,
        tables: PlainList::from_vec(tables),
    };
    (instance, reply)
}

fn act_in_list<P: Pages>(
    tables: &mut Vec<OnDemandTable<P>>,
    store: &mut ListedStore,
    table: usize,
    op: &TableOp,
    limits: Option<PartyLimits>,
) -> Reply
    requires held { All (λ l. HasType l.table) tables.old.items }
    ensures moves { MovesNamed (TableLeaseMovesOnDemand (given_table_op op.now) (rule_of limits) store.old store.new) (slice_get tables.old.items table) (λ l ls. slice_set ls table l) tables.old.items result tables.new.items }
    ensures unasked { slice_get tables.old.items table ≡ None → store.new ≡ store.old }
    ensures failing { store.new.failing ≡ store.old.failing }
    ensures held { All (λ l. HasType l.table) tables.new.items }
{
    if table >= tables.len() {
        return Reply::Refused(Refusal::NoSuchGrant);
    }
    act_on_table(&mut tables[table].table, store, op, limits)
}

fn act_on_table<P: Pages>(
    table: &mut Table<P>,
    store: &mut ListedStore,
    op: &TableOp,
    limits: Option<PartyLimits>,
) -> Reply
    requires held { HasType table.old }
    ensures moves { ViewMovesOnDemand (given_table_op op.now) (rule_of limits) store.old store.new (table_view table.old) (table_view table.new) result }
    ensures failing { store.new.failing ≡ store.old.failing }
    ensures held { HasType table.new }
{
    match op {
        TableOp::Get { at } => element_reply(element_at(table, *at)),
        TableOp::Set { at, value, len } => set(table, store, *at, *value, *len),
        TableOp::Grow { by } => growth_reply(grow(table, *by, limits)),
        TableOp::Size => Reply::Size(table.size() as u64),
    }
}

// Sets elements to what this value is in the table.
fn set<P: Pages>(
    table: &mut Table<P>,
    store: &mut ListedStore,
    at: u64,
    value: TableValue,
    len: u64,
) -> Reply
    requires held { HasType table.old }
    ensures moves { (rule : GrowthRule) → ViewMovesOnDemand (sets at len value) rule store.old store.new (table_view table.old) (table_view table.new) result }
    ensures failing { store.new.failing ≡ store.old.failing }
    ensures held { HasType table.new }
{
    let element = element_for(table.element_type(), value);
    fill_reply(set_elements(table, store, at, element, len))
}

// Grows a table under these limits.
fn grow<P: Pages>(
    table: &mut Table<P>,
    by: u64,
    limits: Option<PartyLimits>,
) -> Result<Option<usize>, GrowFault>
    requires held { HasType table.old }
    ensures growth { LengthensByRule (rule_of limits) by (table_view table.old) (table_view table.new) result }
    ensures held { HasType table.new }
{
    let _most = table.maximum();
    match limits {
        None => table.grow(Some(&mut Unlimited), by),
        Some(limits) => {
            let mut limiter = limiter_of(limits);
            table.grow(Some(&mut limiter), by)
        }
    }
}
