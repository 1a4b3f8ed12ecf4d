//! The reply to a command that a call ends.
ghost use Rattle.std.specs.Prelude.{◌≡◌, ◌+◌, ◌^◌, ◌<◌, ◌≤◌, [], length, map, None};
ghost use Rattle.pool_alloc.specs.Calls.{IfGranted};
ghost use Rattle.pool_run.specs.Turns.{leases_listed, tables_named, granted_reply, answered, slots_after};

use crate::reply::{Refusal, Reply, SlotList};
use crate::reserved_vec::ReservedVec;
use crate::running_party::RunningParty;
use crate::slot_lists::SlotLists;
use pool_alloc::{Grant, InstanceLease, Outcome, PoolCore};
use pool_pages::Pages;
use pool_slots::PlainHeap;
use std::alloc::Global;
use std::mem;

/// Takes the answer to the party's call out of its place, where there is one, and replies to the command that ends with it.
pub fn answer<P: Pages>(
    alloc: Global,
    party: &mut RunningParty<P>,
    slots: &mut SlotLists,
    outcome: &mut Option<Outcome<P, PlainHeap>>,
) -> Option<Reply>
    requires place { IfGranted (λ g. party.old.done < length party.old.live) outcome.old }
    requires small { party.old.done + 1 < 2 ^ 64 }
    requires empty { (slots.old.memories.items ≡ []) × (slots.old.tables.items ≡ []) }
    requires memories { IfGranted (λ g. length (leases_listed g) ≤ slots.old.memories.room) outcome.old }
    requires tables { IfGranted (λ g. length (tables_named g) ≤ slots.old.tables.room) outcome.old }
    ensures answered { (c : PoolCore P PlainHeap) → record { core = c; party = party.new; reply = result } ≡ answered outcome.old c party.old }
    ensures slots { slots.new ≡ slots_after outcome.old slots.old }
    ensures taken { outcome.new ≡ None }
{
    match outcome {
        None => None,
        Some(_) => reply_to(alloc, party, slots, outcome.take()),
    }
}

// Replies to the answer to the party's call. A step that answers nothing prepares no room for this.
#[inline(never)]
fn reply_to<P: Pages>(
    alloc: Global,
    party: &mut RunningParty<P>,
    slots: &mut SlotLists,
    outcome: Option<Outcome<P, PlainHeap>>,
) -> Option<Reply>
    requires place { IfGranted (λ g. party.old.done < length party.old.live) outcome }
    requires small { party.old.done + 1 < 2 ^ 64 }
    requires empty { (slots.old.memories.items ≡ []) × (slots.old.tables.items ≡ []) }
    requires memories { IfGranted (λ g. length (leases_listed g) ≤ slots.old.memories.room) outcome }
    requires tables { IfGranted (λ g. length (tables_named g) ≤ slots.old.tables.room) outcome }
    ensures answered { (c : PoolCore P PlainHeap) → record { core = c; party = party.new; reply = result } ≡ answered outcome c party.old }
    ensures slots { slots.new ≡ slots_after outcome slots.old }
{
    match outcome {
        None => None,
        Some(Outcome::Key) => {
            party.keyed = true;
            None
        }
        Some(Outcome::Granted(grant)) => {
            let reserved = mem::replace(slots, SlotLists::none(alloc));
            let reply = granted_reply(reserved, &grant);
            party.live.put(party.done, grant);
            party.done += 1;
            Some(reply)
        }
        Some(Outcome::Returned) => {
            party.done += 1;
            Some(Reply::Returned)
        }
        Some(Outcome::Purged(count)) => {
            party.done += 1;
            Some(Reply::Purged(count))
        }
        Some(Outcome::Released(bytes)) => {
            party.done += 1;
            Some(Reply::Released(bytes))
        }
        Some(Outcome::Refused(error)) => {
            party.done += 1;
            Some(Reply::Refused(Refusal::Alloc(error)))
        }
    }
}

// The reply to a request that was granted: the slots of its memories and tables, in the lists that were reserved for them.
fn granted_reply<P: Pages>(slots: SlotLists, grant: &Grant<P, PlainHeap>) -> Reply
    requires empty { (slots.memories.items ≡ []) × (slots.tables.items ≡ []) }
    requires memories { length (leases_listed grant.now) ≤ slots.memories.room }
    requires tables { length (tables_named grant.now) ≤ slots.tables.room }
    ensures { result ≡ granted_reply grant.now }
{
    match grant {
        Grant::Instance(lease) => Reply::Instance {
            memories: memory_slots(slots.memories, lease),
            tables: table_slots(slots.tables, lease),
        },
        Grant::Component => Reply::Component,
        Grant::Memory(_) | Grant::Table(_) | Grant::HeapOver(_) => Reply::Done,
        Grant::Stack(lease) => Reply::Stack(lease.index()),
        Grant::Heap(lease, memory) => Reply::Heap {
            heap: lease.index().0,
            memory: memory.index.0,
        },
    }
}

fn memory_slots<P: Pages>(slots: ReservedVec<u32>, lease: &InstanceLease<P>) -> SlotList
    requires empty { slots.items ≡ [] }
    requires room { length lease.now.memories.items ≤ slots.room }
    ensures { result ≡ map (λ l. l.index) lease.now.memories.items }
{
    let mut slots = slots;
    let count = lease.memories.len();
    for at in 0..count {
        slots.push(lease.memories.get(at).index.0);
    }
    slots.into_list()
}

fn table_slots<P: Pages>(slots: ReservedVec<u32>, lease: &InstanceLease<P>) -> SlotList
    requires empty { slots.items ≡ [] }
    requires room { length lease.now.tables.items ≤ slots.room }
    ensures { result ≡ map (λ l. l.index) lease.now.tables.items }
{
    let mut slots = slots;
    let count = lease.tables.len();
    for at in 0..count {
        slots.push(lease.tables.get(at).index.0);
    }
    slots.into_list()
}
