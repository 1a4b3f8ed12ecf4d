ghost use Rattle.std.specs.Prelude.{◌≡◌, ℕ, ◌+◌, ◌<◌, ◌≤◌, length, min, slice_get, slice_index_or, replicate, None, Some, IfOk, IfSome};
ghost use Rattle.pool_pages.specs.MakerTold.{MakerTold};
ghost use Rattle.pool_memory.specs.Creators.{IsSameMaker};
ghost use Rattle.pool_run.specs.AtOnce.{given_act};
ghost use Rattle.pool_run_on_demand.specs.OnDemand.{ActsOnDemand};
ghost use Rattle.pool_run_on_demand.specs.Left.{ActSpends, live_left};
ghost use Rattle.pool_run_on_demand.specs.Runs.{IsPartyOnDemand, IsPartyReady, IsPartyTurned};
ghost use Rattle.pool_run_on_demand.specs.Seen.{AreCallsOnDemand, AreLive, IsAllocatorFor, state_seen};
ghost use Rattle.pool_run.specs.PartyRules.{host_for, host_of};
ghost use Rattle.pool_run.specs.Private.{Terms};
ghost use Rattle.pool_run.specs.Worlds.{NamesModule, NameModules};

use crate::act::act_on_demand;
use crate::give_back::{give_back_on_demand, purge_on_demand};
use crate::grant::OnDemandGrant;
use crate::request::ask_on_demand;
use crate::tables::act_on_table_on_demand;
use pool_alloc::ModuleCall;
use pool_memory::{DefaultMemoryCreator, LinearMemory};
use pool_on_demand::{OnDemandInstanceAllocator, OnDemandSeat};
use pool_pages::{PageMaker, Pages};
use pool_run::{
    Act, Command, Party, PartyLimits, Reply, ReservedVec, act_of, heaps_for, store_for,
};
use pool_slots::ListedHeaps;
use pool_table::ListedStore;
use pool_types::{CompiledModuleId, Tunables};
use std::alloc::{AllocError, Global};

/// A party whose memories, tables, stacks and heaps are made on demand: the limits on their growth, the store of its GC
/// references, its maker of heaps, its live grants by the numbers of its commands, and the replies to it, for all of which
/// there is room.
#[derive(Drop)]
pub(crate) struct PartyOnDemand<M: PageMaker> {
    pub(crate) limits: Option<PartyLimits>,
    pub(crate) store: ListedStore,
    pub(crate) heaps: ListedHeaps,
    pub(crate) live: Vec<Option<OnDemandGrant<M, LinearMemory<M::Region>, M::Region>>>,
    pub(crate) told: ReservedVec<Reply>,
}

// The party before its first command.
pub(crate) fn make_party_on_demand<M: PageMaker>(
    alloc: Global,
    party: &Party,
) -> Result<PartyOnDemand<M>, AllocError>
    ensures party { (t : Terms) → t.host ≡ host_for party.now → (start : MakerTold) → IfOk result (IsPartyOnDemand t start party.now.commands 0) }
    ensures left { IfOk result (λ p. live_left p.live.items ≡ 0) }
    ensures told { IfOk result (λ p. length p.told.items ≡ 0) }
{
    let count = party.commands.len();
    let mut live = Vec::with_capacity(alloc, count)?;
    for place in 0..count {
        live.push(None)?;
    }
    Ok(PartyOnDemand {
        limits: party.limits,
        store: store_for(alloc, party.gc_faults.as_slice())?,
        heaps: heaps_for(alloc, party.heap_faults.as_slice())?,
        live,
        told: ReservedVec::with_room(alloc, count)?,
    })
}

// Makes the party's next command, where there is one.
pub(crate) fn turn_on_demand<M: PageMaker>(
    alloc: Global,
    allocator: &OnDemandInstanceAllocator<M, DefaultMemoryCreator>,
    seat: &mut OnDemandSeat<M>,
    tunables: &Tunables,
    calls: &[ModuleCall],
    given: &Party,
    party: &mut PartyOnDemand<M>,
)
    ghost terms: { Terms }
    requires maker { IsAllocatorFor terms allocator.now (M.told seat.old.maker) }
    requires calls { AreCallsOnDemand terms tunables.now calls.now }
    requires named { NameModules (length calls.now) given.now.commands }
    requires ready { IsPartyReady terms given.now.commands party.old }
    ensures party { (start : MakerTold) (met : ℕ) → (M.told seat.old.maker).plan ≡ start.plan → IsPartyOnDemand terms start given.now.commands met party.old → IsPartyTurned terms start given.now.commands met (M.told seat.old.maker) (M.told seat.new.maker) party.old party.new }
    ensures told { length party.new.told.items ≡ min (length party.old.told.items + 1) (length given.now.commands) }
    ensures maker { IsSameMaker (M.told seat.old.maker) (M.told seat.new.maker) }
    ensures borrows { M.borrows seat.new.maker ≡ M.borrows seat.old.maker }
{
    let n = party.told.len();
    if let Some(command) = given.commands.as_slice().get(n) {
        let act_on = act_of(command);
        let reply = act(alloc, allocator, seat, tunables, calls, &act_on, n, party);
        party.told.push(reply);
    }
}

// Does what command `n` does.
fn act<M: PageMaker>(
    alloc: Global,
    allocator: &OnDemandInstanceAllocator<M, DefaultMemoryCreator>,
    seat: &mut OnDemandSeat<M>,
    tunables: &Tunables,
    calls: &[ModuleCall],
    act: &Act,
    n: usize,
    party: &mut PartyOnDemand<M>,
) -> Reply
    ghost terms: { Terms }
    requires maker { IsAllocatorFor terms allocator.now (M.told seat.old.maker) }
    requires calls { AreCallsOnDemand terms tunables.now calls.now }
    requires named { NamesModule (length calls.now) (given_act act.now) }
    requires host { terms.host ≡ host_of party.old.limits party.old.store.failing party.old.heaps.failing }
    requires place { n < length party.old.live.items }
    requires held { AreLive terms.tells party.old.live.items }
    ensures moves { ActsOnDemand terms n (state_seen terms.tells party.old.live.items party.old.store party.old.heaps) (given_act act.now) result (state_seen terms.tells party.new.live.items party.new.store party.new.heaps) }
    ensures spends { ActSpends terms (M.told seat.old.maker) (M.told seat.new.maker) party.old.live.items (given_act act.now) result party.new.live.items }
    ensures held { AreLive terms.tells party.new.live.items }
    ensures places { length party.new.live.items ≡ length party.old.live.items }
    ensures limits { party.new.limits ≡ party.old.limits }
    ensures failing { party.new.store.failing ≡ party.old.store.failing }
    ensures unmade { party.new.heaps.failing ≡ party.old.heaps.failing }
    ensures told { party.new.told ≡ party.old.told }
    ensures maker { IsSameMaker (M.told seat.old.maker) (M.told seat.new.maker) }
    ensures borrows { M.borrows seat.new.maker ≡ M.borrows seat.old.maker }
{
    let limits = party.limits;
    let live = &mut party.live;
    match act {
        Act::Request(wanted) => ask_on_demand(
            alloc,
            allocator,
            seat,
            tunables,
            calls,
            wanted,
            &mut party.heaps,
            live,
            n,
            limits,
        ),
        Act::OnMemory { of, memory, op } => {
            act_on_demand(alloc, &mut seat.maker, live, *of, *memory, op, limits)
        }
        Act::OnTable { of, table, op } => {
            act_on_table_on_demand(live, &mut party.store, *of, *table, op, limits)
        }
        Act::Drop { of } => give_back_on_demand(allocator, seat, live, *of),
        Act::Purge { module } => {
            purge_on_demand(allocator, seat, CompiledModuleId(*module as u64))
        }
        Act::Release => Reply::Released(0),
    }
}
