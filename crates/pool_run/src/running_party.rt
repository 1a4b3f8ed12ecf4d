ghost use Rattle.std.specs.Prelude.{◌≡◌, ◌^◌, ◌<◌, ◌≤◌, IfOk};
ghost use Rattle.pool_run.specs.RunsMade.{party_made_for};

use crate::input::{Party, PartyLimits};
use crate::leases::Leases;
use pool_alloc::{Frame, Settings};
use pool_pages::Pages;
use pool_slots::{ListedHeaps, PlainHeap};
use pool_table::ListedStore;
use pool_types::PlainList;
use std::alloc::{AllocError, Global};

/// A party in a run: its frame, the limits on its growth, its store, its maker of heaps, how many of its commands have
/// ended, and its live grants.
#[derive(Drop)]
pub struct RunningParty<P: Pages> {
    pub frame: Frame<P, PlainHeap>,
    pub limits: Option<PartyLimits>,
    /// The party's store of GC references.
    pub store: ListedStore,
    /// The party's maker of heaps.
    pub heaps: ListedHeaps,
    /// Whether the party has drawn its stripe. It does so before its first command.
    pub keyed: bool,
    pub done: usize,
    pub live: Leases<P>,
}

/// A party as it is made, with a place for each of its commands.
pub fn make_party<P: Pages>(
    alloc: Global,
    settings: &Settings,
    party: &Party,
) -> Result<RunningParty<P>, AllocError>
    requires batch { settings.now.batch ≤ 4096 }
    requires home { party.now.home < 2 ^ 32 }
    ensures { IfOk result (λ p. p ≡ party_made_for settings.now party.now) }
{
    let frame = Frame::new(alloc, settings, party.home as u32)?;
    let live = Leases::new(alloc, party.commands.len())?;
    let makers = makers_for(alloc, party)?;
    Ok(RunningParty {
        frame,
        limits: party.limits,
        store: makers.0,
        heaps: makers.1,
        keyed: false,
        done: 0,
        live,
    })
}

// A party's store and its maker of heaps.
fn makers_for(alloc: Global, party: &Party) -> Result<(ListedStore, ListedHeaps), AllocError>
    ensures store { IfOk result (λ m. m.0 ≡ record { failing = party.now.gc_faults; made = 0; faults = 0 }) }
    ensures heaps { IfOk result (λ m. m.1 ≡ record { failing = party.now.heap_faults; made = 0; faults = 0 }) }
{
    let store = store_for(alloc, party.gc_faults.as_slice())?;
    Ok((store, heaps_for(alloc, party.heap_faults.as_slice())?))
}

/// A party's store, of which these calls fail.
#[tactic(auto, using(crate::proofs::RunMade::store_made))]
pub fn store_for(alloc: Global, failing: &[u64]) -> Result<ListedStore, AllocError>
    ensures { IfOk result (λ store. store ≡ record { failing = failing.now; made = 0; faults = 0 }) }
{
    Ok(ListedStore::new(numbers(alloc, failing)?))
}

/// A party's maker of heaps, of which these makings fail.
#[tactic(auto, using(crate::proofs::RunMade::heaps_made))]
pub fn heaps_for(alloc: Global, failing: &[u64]) -> Result<ListedHeaps, AllocError>
    ensures { IfOk result (λ heaps. heaps ≡ record { failing = failing.now; made = 0; faults = 0 }) }
{
    Ok(ListedHeaps::new(numbers(alloc, failing)?))
}

// The same numbers in a list.
fn numbers(alloc: Global, listed: &[u64]) -> Result<PlainList<u64>, AllocError>
    ensures { IfOk result (λ list. list ≡ listed.now) }
{
    Ok(PlainList::from_vec(Vec::from_slice(alloc, listed)?))
}
