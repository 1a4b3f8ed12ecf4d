ghost use Rattle.std.specs.Prelude.{◌≡◌, ◌<◌, length, slice_get, slice_set, None, Some};
ghost use Rattle.pool_alloc.specs.Leases.{IsChanged};
ghost use Rattle.pool_alloc.specs.declared.frame.Grant.TheVariants.{Instance as instance};
ghost use Rattle.pool_limits.specs.Growth.{GrowthRule};
ghost use Rattle.pool_run.specs.Acts.{sets};
ghost use Rattle.pool_run.specs.AtOnce.{given_table_op, LengthensUnder};
ghost use Rattle.pool_run.specs.PartyRules.{rule_of};
ghost use Rattle.pool_run.specs.Objects.{MovesNamed, MovesObject, object_at};
ghost use Rattle.pool_run.specs.Turns.{MovesTable, tables_named, table_leases, with_table_lease};

use crate::act::TableOp;
use crate::command::TableValue;
use crate::input::PartyLimits;
use crate::leases::Leases;
use crate::limiter::limiter_of;
use crate::replies::{element_reply, fill_reply, growth_reply};
use crate::reply::{Refusal, Reply};
use crate::table_values::element_for;
use pool_alloc::{Grant, InstanceLease, ReservedList, TableLease};
use pool_limits::{GrowFault, Unlimited};
use pool_pages::Pages;
use pool_slots::PlainHeap;
use pool_table::ListedStore;

/// Does something with table `table` of the grant of command `of`. It grows under these limits, and GC references are told
/// to this store.
pub(crate) fn act_on_table<P: Pages>(
    live: &mut Leases<P>,
    store: &mut ListedStore,
    of: usize,
    table: usize,
    op: &TableOp,
    limits: Option<PartyLimits>,
) -> Reply
    ensures moves { MovesObject table_leases (MovesTable (given_table_op op.now) (rule_of limits) store.old store.new) of table live.old result live.new }
    ensures unasked { object_at table_leases of table live.old ≡ None → store.new ≡ store.old }
{
    match live.take(of) {
        None => Reply::Refused(Refusal::NoSuchGrant),
        Some(grant) => act_on_taken(live, store, of, grant, table, op, limits),
    }
}

// Acts on a grant that was taken out of its place, and puts it back.
fn act_on_taken<P: Pages>(
    live: &mut Leases<P>,
    store: &mut ListedStore,
    of: usize,
    grant: Grant<P, PlainHeap>,
    table: usize,
    op: &TableOp,
    limits: Option<PartyLimits>,
) -> Reply
    requires { of < length live.old }
    ensures moves { MovesNamed (MovesTable (given_table_op op.now) (rule_of limits) store.old store.new) (slice_get (tables_named grant) table) (λ l live. slice_set live of (Some (with_table_lease table l grant))) (slice_set live.old of (Some grant)) result live.new }
    ensures unasked { slice_get (tables_named grant) table ≡ None → store.new ≡ store.old }
{
    let mut grant = grant;
    let reply = act_on_grant(&mut grant, store, table, op, limits);
    live.put(of, grant);
    reply
}

fn act_on_grant<P: Pages>(
    grant: &mut Grant<P, PlainHeap>,
    store: &mut ListedStore,
    table: usize,
    op: &TableOp,
    limits: Option<PartyLimits>,
) -> Reply
    ensures moves { MovesNamed (MovesTable (given_table_op op.now) (rule_of limits) store.old store.new) (slice_get (tables_named grant.old) table) (with_table_lease table) grant.old result grant.new }
    ensures unasked { slice_get (tables_named grant.old) table ≡ None → store.new ≡ store.old }
{
    match grant {
        Grant::Instance(lease) => act_on_instance(lease, store, table, op, limits),
        _ => Reply::Refused(Refusal::NoSuchGrant),
    }
}

fn act_on_instance<P: Pages>(
    lease: &mut InstanceLease<P>,
    store: &mut ListedStore,
    table: usize,
    op: &TableOp,
    limits: Option<PartyLimits>,
) -> Reply
    ensures moves { MovesNamed (MovesTable (given_table_op op.now) (rule_of limits) store.old store.new) (slice_get lease.old.tables.items table) (with_table_lease table) (instance lease.old) result (instance lease.new) }
    ensures unasked { slice_get lease.old.tables.items table ≡ None → store.new ≡ store.old }
{
    if table >= lease.tables.len() {
        return Reply::Refused(Refusal::NoSuchGrant);
    }
    act_on_list(&mut lease.tables, store, table, op, limits)
}

fn act_on_list<P: Pages>(
    tables: &mut ReservedList<TableLease<P>>,
    store: &mut ListedStore,
    table: usize,
    op: &TableOp,
    limits: Option<PartyLimits>,
) -> Reply
    requires { table < length tables.old.items }
    ensures { IsChanged (λ l new. MovesTable (given_table_op op.now) (rule_of limits) store.old store.new l new result) table tables.old tables.new }
{
    match op {
        TableOp::Get { at } => element_reply(tables.get(table).get(*at)),
        TableOp::Set { at, value, len } => set(tables, store, table, *at, *value, *len),
        TableOp::Grow { by } => growth_reply(grow(tables, table, *by, limits)),
        TableOp::Size => Reply::Size(tables.get(table).size() as u64),
    }
}

// Sets elements to what this value is in the table.
fn set<P: Pages>(
    tables: &mut ReservedList<TableLease<P>>,
    store: &mut ListedStore,
    table: usize,
    at: u64,
    value: TableValue,
    len: u64,
) -> Reply
    requires { table < length tables.old.items }
    ensures { (rule : GrowthRule) → IsChanged (λ l new. MovesTable (sets at len value) rule store.old store.new l new result) table tables.old tables.new }
{
    let element = element_for(tables.get(table).element_type(), value);
    fill_reply(tables.fill(table, store, at, element, len))
}

// Grows a table under these limits.
fn grow<P: Pages>(
    tables: &mut ReservedList<TableLease<P>>,
    table: usize,
    by: u64,
    limits: Option<PartyLimits>,
) -> Result<Option<usize>, GrowFault>
    requires { table < length tables.old.items }
    ensures { IsChanged (λ l new. LengthensUnder (rule_of limits) by l new result) table tables.old tables.new }
{
    match limits {
        None => tables.grow(table, by, &mut Unlimited),
        Some(limits) => {
            let mut limiter = limiter_of(limits);
            tables.grow(table, by, &mut limiter)
        }
    }
}
