//! The beginning of a party's next command. It needs no pool.
ghost use Rattle.std.specs.Prelude.{◌≡◌, ◌+◌, ◌^◌, ◌<◌, [], length, slice_get, slice_index_or, IfOk, None, Some};
ghost use Rattle.pool_alloc.specs.Calls.{IsIdle, begun_call};
ghost use Rattle.pool_alloc.specs.StepReads.{memories_wanted, tables_wanted};
ghost use Rattle.pool_alloc.specs.declared.frame.Asked.TheVariants.{Module as module_asked};
ghost use Rattle.pool_run.specs.Acts.{requests};
ghost use Rattle.pool_run.specs.AtOnce.{given_act, given_wanted};
ghost use Rattle.pool_run.specs.Ties.{IsReserved};
ghost use Rattle.pool_run.specs.Turns.{makes_step, drop_opening, one_step, IsPlain, OpensRequest, OpensAct, OpensNext, OpensWanted, BeginsFrom};
ghost use Rattle.pool_run.specs.Worlds.{NamesModule, NameModules};

use crate::act::{Act, Wanted, act_of, heap_type};
use crate::at_once::act_on_bytes;
use crate::command::Command;
use crate::reply::{Refusal, Reply};
use crate::reserved_vec::ReservedVec;
use crate::running_party::RunningParty;
use crate::slot_lists::SlotLists;
use crate::table_commands::act_on_table;
use pool_alloc::{Call, ModuleCall};
use pool_pages::Pages;
use pool_slots::{AllocError as Cause, PlainHeap};
use pool_types::CompiledModuleId;
use std::alloc::{AllocError, Global};

/// What the beginning of a party's next command leaves to do.
#[derive(Drop)]
pub enum Begun {
    /// Nothing: the party has no command left.
    Rests,
    /// Nothing: the command ended with this reply.
    Replies(Reply),
    /// A call has begun, and is to make its first step.
    Calls,
}

/// Begins the next command, or the call for the party's stripe. What needs no pool is done at once; a call is left in the party's frame. A
/// request begins once `slots` has room to list what it grants: for want of memory for it, it is refused. No step prepares room for
/// the values of this.
#[inline(never)]
pub fn begin_next<P: Pages>(
    alloc: Global,
    modules: &[ModuleCall],
    commands: &[Command],
    party: &mut RunningParty<P>,
    slots: &mut SlotLists,
) -> Begun
    requires named { NameModules (length modules.now) commands.now }
    requires small { party.old.done + 1 < 2 ^ 64 }
    requires idle { IsIdle party.old.frame }
    requires reserved { IsReserved party.old.frame slots.old }
    ensures begins { BeginsFrom (OpensNext modules.now (slice_get commands.now party.old.done) party.old.keyed party.old) party.old party.new result }
    ensures reserved { IsReserved party.new.frame slots.new }
{
    match commands.get(party.done) {
        None => Begun::Rests,
        Some(command) => {
            if party.keyed {
                begin(alloc, modules, &act_of(command), party, slots)
            } else {
                begin_plain(Call::Key, party)
            }
        }
    }
}

// Begins a call to which the party brings nothing: for its stripe, for a component, a stack or a heap, a purge or a release.
fn begin_plain<P: Pages>(call: Call<P, PlainHeap>, party: &mut RunningParty<P>) -> Begun
    requires plain { IsPlain call }
    requires idle { IsIdle party.old.frame }
    ensures begins { BeginsFrom (λ o. o ≡ makes_step (begun_call call party.old.frame) party.old.live) party.old party.new result }
    ensures reserved { (slots : SlotLists) → IsReserved party.old.frame slots → IsReserved party.new.frame slots }
{
    party.frame.begin(call);
    Begun::Calls
}

// Begins a command that does this.
fn begin<P: Pages>(
    alloc: Global,
    modules: &[ModuleCall],
    act: &Act,
    party: &mut RunningParty<P>,
    slots: &mut SlotLists,
) -> Begun
    requires named { NamesModule (length modules.now) (given_act act.now) }
    requires small { party.old.done + 1 < 2 ^ 64 }
    requires idle { IsIdle party.old.frame }
    requires reserved { IsReserved party.old.frame slots.old }
    ensures begins { BeginsFrom (OpensAct modules.now (given_act act.now) party.old) party.old party.new result }
    ensures reserved { IsReserved party.new.frame slots.new }
{
    match act {
        Act::Request(wanted) => request(alloc, modules, wanted, party, slots),
        Act::OnMemory { of, memory, op } => {
            let reply = act_on_bytes(alloc, &mut party.live, *of, *memory, op, party.limits);
            end_at_once(party, reply)
        }
        Act::OnTable { of, table, op } => {
            let store = &mut party.store;
            let reply = act_on_table(&mut party.live, store, *of, *table, op, party.limits);
            end_at_once(party, reply)
        }
        Act::Drop { of } => give_back(party, *of),
        Act::Purge { module } => begin_plain(Call::Purge(CompiledModuleId(*module as u64)), party),
        Act::Release => begin_plain(Call::Release, party),
    }
}

// Asks for what is wanted.
fn request<P: Pages>(
    alloc: Global,
    modules: &[ModuleCall],
    wanted: &Wanted,
    party: &mut RunningParty<P>,
    slots: &mut SlotLists,
) -> Begun
    requires named { NamesModule (length modules.now) (requests (given_wanted wanted.now)) }
    requires small { party.old.done + 1 < 2 ^ 64 }
    requires idle { IsIdle party.old.frame }
    requires reserved { IsReserved party.old.frame slots.old }
    ensures begins { BeginsFrom (OpensWanted modules.now (given_wanted wanted.now) party.old) party.old party.new result }
    ensures reserved { IsReserved party.new.frame slots.new }
{
    match wanted {
        Wanted::Instance { module } => ask(alloc, &modules[*module], party, slots),
        Wanted::Component(info) => begin_plain(Call::Component(*info), party),
        Wanted::Stack => begin_plain(Call::Stack, party),
        Wanted::Heap(limits) => begin_plain(Call::Heap(heap_type(*limits)), party),
    }
}

// A command ends at once.
fn end_at_once<P: Pages>(party: &mut RunningParty<P>, reply: Reply) -> Begun
    requires small { party.old.done + 1 < 2 ^ 64 }
    ensures party { party.new ≡ record party.old { frame = one_step party.old.frame; done = party.old.done + 1 } }
    ensures replies { result ≡ Begun.Replies reply }
    ensures reserved { (slots : SlotLists) → IsReserved party.old.frame slots → IsReserved party.new.frame slots }
{
    party.frame.step_count = 1;
    party.done += 1;
    Begun::Replies(reply)
}

// Asks for an instance of a module.
fn ask<P: Pages>(
    alloc: Global,
    kept: &ModuleCall,
    party: &mut RunningParty<P>,
    slots: &mut SlotLists,
) -> Begun
    requires small { party.old.done + 1 < 2 ^ 64 }
    requires idle { IsIdle party.old.frame }
    requires reserved { IsReserved party.old.frame slots.old }
    ensures begins { BeginsFrom (OpensRequest (Some kept.now) party.old) party.old party.new result }
    ensures reserved { IsReserved party.new.frame slots.new }
{
    match prepare(alloc, kept) {
        Err(_) => end_at_once(party, Reply::Refused(Refusal::Alloc(Cause::Memory))),
        Ok(prepared) => {
            *slots = prepared.1;
            party.frame.begin(Call::Module(prepared.0));
            Begun::Calls
        }
    }
}

// The same call, and the lists for the slots of its grant.
fn prepare(alloc: Global, kept: &ModuleCall) -> Result<(ModuleCall, SlotLists), AllocError>
    ensures share { IfOk result (λ r. r.0 ≡ kept.now) }
    ensures memories { IfOk result (λ r. r.1.memories ≡ record { items = []; room = length (memories_wanted (module_asked kept.now)) }) }
    ensures tables { IfOk result (λ r. r.1.tables ≡ record { items = []; room = length (tables_wanted (module_asked kept.now)) }) }
{
    let call = share(kept)?;
    let slots = SlotLists {
        memories: ReservedVec::with_room(alloc, kept.info.memories.len())?,
        tables: ReservedVec::with_room(alloc, kept.info.tables.len())?,
    };
    Ok((call, slots))
}

// The same call, sharing the module and its images.
fn share(kept: &ModuleCall) -> Result<ModuleCall, AllocError>
    ensures { IfOk result (λ m. m ≡ kept.now) }
{
    let info = kept.info.clone()?;
    let images = match &kept.images {
        None => None,
        Some(images) => Some(images.clone()?),
    };
    Ok(ModuleCall {
        info,
        images,
        id: kept.id,
    })
}

// Gives the grant of a command back.
fn give_back<P: Pages>(party: &mut RunningParty<P>, of: usize) -> Begun
    requires small { party.old.done + 1 < 2 ^ 64 }
    requires idle { IsIdle party.old.frame }
    ensures begins { BeginsFrom (λ o. o ≡ drop_opening (slice_index_or party.old.live of None) of party.old) party.old party.new result }
    ensures reserved { (slots : SlotLists) → IsReserved party.old.frame slots → IsReserved party.new.frame slots }
{
    match party.live.take(of) {
        None => end_at_once(party, Reply::Refused(Refusal::NoSuchGrant)),
        Some(grant) => {
            party.frame.begin(Call::GiveBack(grant));
            Begun::Calls
        }
    }
}
