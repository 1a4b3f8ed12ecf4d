ghost use Rattle.std.specs.Prelude.{◌≡◌, ℕ, ◌+◌, ◌*◌, ◌<◌, ◌≤◌, ◌^◌, true, false, Some, None, Option, IfOk, IfSome, IfNone, is_some, length, replicate, max, slice_index_or, if◌then◌else◌};
ghost use Rattle.pool_index.specs.Table.{same_affinity, mixed, home, place, has, ends_at, table_total, ends_len, entry_with, IsSpot};

use crate::ids::MemoryInModule;
use std::alloc::{AllocError, Global};
use std::marker::Model;

/// The first and the last slot of a list, and how many it has.
#[derive(Clone, Copy, Debug, PartialEq, Eq)]
pub struct Ends {
    pub first: u32,
    pub last: u32,
    pub len: u32,
}

/// An affinity with the ends of the list of its warm slots.
#[derive(Clone, Copy, Debug, PartialEq, Eq)]
pub struct AffinityEntry {
    pub affinity: Option<MemoryInModule>,
    pub ends: Ends,
}

/// What a search for an affinity finds.
#[derive(Clone, Copy, Debug, PartialEq, Eq)]
pub struct Spot {
    /// Where it is looked for first.
    pub home: usize,
    /// The place of its entry, where there is one.
    pub entry: Option<usize>,
    /// The ends of its list, where there is one.
    pub ends: Option<Ends>,
}

/// Where the lists of the affinities begin and end. An entry stands at its home or as near behind it as was free, and
/// there are twice as many places as slots, so that an entry is found in a few steps, however many there are. All
/// memory is taken when the table is made.
#[derive(Drop)]
pub struct AffinityTable {
    entries: Vec<Option<AffinityEntry>>,
    // Of each home how far behind it an entry may stand. It falls where the places at its end are free again.
    reach: Vec<usize>,
}

impl Model for AffinityTable {
    ghost use Rattle.std.specs.Prelude.{List, Option};
    ghost use Rattle.pool_index.specs.declared.affinity_table.AffinityEntry.{AffinityEntry};
    ghost use Rattle.pool_index.specs.TableFields.{IsTable};

    ghost Value = { List (Option AffinityEntry) };

    ghost view = { λ t. t.entries.items };

    ghost invariant = { λ t. IsTable t.entries.items t.reach.items };
}

fn is_same(one: Option<MemoryInModule>, other: Option<MemoryInModule>) -> bool
    ensures { result ≡ same_affinity one other }
{
    match (one, other) {
        (Some(a), Some(b)) => a.0.0 == b.0.0 && a.1.0 == b.1.0,
        (None, None) => true,
        _ => false,
    }
}

/// A number made of a memory.
#[tactic(auto, unfolding(crate::specs::Table::mixed))]
fn mixed_of(memory: MemoryInModule) -> u64
    ensures { result ≡ mixed (Some memory) }
{
    let module = memory.0.0.wrapping_mul(0x9E37_79B9_7F4A_7C15);
    let index = (memory.1.0 as u64).wrapping_mul(0xC2B2_AE3D_27D4_EB4F);
    module.wrapping_add(index)
}

/// Where among so many places an affinity is looked for first.
fn home_of(affinity: Option<MemoryInModule>, len: usize) -> usize
    requires { 0 < len }
    ensures value { result ≡ home len affinity }
    ensures within { result < len }
{
    match affinity {
        Some(memory) => (mixed_of(memory) >> 32) as usize % len,
        None => 0,
    }
}

fn entry_of(affinity: Option<MemoryInModule>, ends: Option<Ends>) -> Option<AffinityEntry>
    ensures { result ≡ entry_with affinity ends }
{
    match ends {
        Some(ends) => Some(AffinityEntry { affinity, ends }),
        None => None,
    }
}

/// The place so far behind a home, round the end.
fn place_of(home: usize, distance: usize, len: usize) -> usize
    requires home { home < len }
    requires distance { distance < len }
    requires len { len < 2 ^ 63 }
    ensures value { result ≡ place len home distance }
    ensures within { result < len }
{
    let at = home + distance;
    if at < len { at } else { at - len }
}

impl AffinityTable {
    /// A table of no affinity, for so many slots.
    pub fn new(alloc: Global, slots: u32) -> Result<AffinityTable, AllocError>
        ensures { IfOk result (λ t. t ≡ replicate (max 1 (2 * slots)) None) }
    {
        let len = (slots as usize * 2).max(1);
        let mut entries = Vec::new(alloc);
        entries.resize(len, None)?;
        let mut reach = Vec::new(alloc);
        reach.resize(len, 0)?;
        Ok(AffinityTable { entries, reach })
    }

    /// Looks for an affinity.
    #[inline(always)]
    pub fn look(&self, affinity: Option<MemoryInModule>) -> Spot
        ensures { IsSpot self.now affinity result }
    {
        let len = self.entries.len();
        let home = home_of(affinity, len);
        for distance in 0..self.reach[home] {
            let at = place_of(home, distance, len);
            if let Some(entry) = self.entries[at]
                && is_same(affinity, entry.affinity)
            {
                return Spot {
                    home,
                    entry: Some(at),
                    ends: Some(entry.ends),
                };
            }
        }
        Spot {
            home,
            entry: None,
            ends: None,
        }
    }

    /// Notes the ends of the list of an affinity, which was looked for, or that there is none. Takes no memory.
    #[inline(always)]
    pub fn put_at(&mut self, spot: Spot, affinity: Option<MemoryInModule>, ends: Option<Ends>)
        requires spot { IsSpot self.old affinity spot }
        requires room { ends_at self.old affinity ≡ None → table_total self.old < length self.old }
        requires some { IfSome ends (λ e. 0 < e.len) }
        ensures ends { (a : Option MemoryInModule) → ends_at self.new a ≡ (if same_affinity a affinity then ends else ends_at self.old a) }
        ensures total { table_total self.new + ends_len (ends_at self.old affinity) ≡ table_total self.old + ends_len ends }
        ensures len { length self.new ≡ length self.old }
    {
        match (spot.entry, ends) {
            (Some(at), Some(ends)) => self.change(at, affinity, ends),
            (Some(at), None) => {
                self.take_out(at, affinity);
                self.shorten(spot.home);
            }
            (None, _) => self.insert(spot, affinity, ends),
        }
    }

    /// How far behind a home the first free place is.
    fn vacancy(&self, home: usize) -> usize
        requires home { home < length self.now }
        requires room { table_total self.now < length self.now }
        ensures within { result < length self.now }
        ensures free { slice_index_or self.now (place (length self.now) home result) None ≡ None }
    {
        let len = self.entries.len();
        for distance in 0..len {
            if self.entries[place_of(home, distance, len)].is_none() {
                return distance;
            }
        }
        unreachable!()
    }

    /// Changes the ends of the list of an affinity.
    fn change(&mut self, at: usize, affinity: Option<MemoryInModule>, ends: Ends)
        requires inside { at < length self.old }
        requires found { has affinity (slice_index_or self.old at None) ≡ true }
        requires some { 0 < ends.len }
        ensures ends { (a : Option MemoryInModule) → ends_at self.new a ≡ (if same_affinity a affinity then Some ends else ends_at self.old a) }
        ensures total { table_total self.new + ends_len (ends_at self.old affinity) ≡ table_total self.old + ends.len }
        ensures len { length self.new ≡ length self.old }
    {
        let _ = affinity;
        let Some(entry) = &mut self.entries[at] else {
            unreachable!()
        };
        entry.ends = ends;
    }

    /// Takes out the entry of an affinity.
    fn take_out(&mut self, at: usize, affinity: Option<MemoryInModule>)
        requires inside { at < length self.old }
        requires found { has affinity (slice_index_or self.old at None) ≡ true }
        ensures ends { (a : Option MemoryInModule) → ends_at self.new a ≡ (if same_affinity a affinity then None else ends_at self.old a) }
        ensures total { table_total self.new + ends_len (ends_at self.old affinity) ≡ table_total self.old }
        ensures len { length self.new ≡ length self.old }
    {
        let _ = affinity;
        self.entries[at] = None;
    }

    /// How far behind a home a place is taken, of so many.
    fn taken_within(&self, home: usize, reach: usize) -> usize
        requires home { home < length self.now }
        requires reach { reach ≤ length self.now }
        ensures most { result ≤ reach }
        ensures free { (d : ℕ) → result ≤ d → d < reach → is_some (slice_index_or self.now (place (length self.now) home d) None) ≡ false }
    {
        let len = self.entries.len();
        for back in 0..reach {
            let left = reach - back;
            if self.entries[place_of(home, left - 1, len)].is_some() {
                return left;
            }
        }
        0
    }

    /// Forgets the free places at the end of the reach of a home.
    fn shorten(&mut self, home: usize)
        requires { home < length self.old }
        ensures { self.new ≡ self.old }
    {
        let left = self.taken_within(home, self.reach[home]);
        self.reach[home] = left;
    }

    /// Puts the entry of an affinity, where there is to be one, into the first free place behind its home.
    fn insert(&mut self, spot: Spot, affinity: Option<MemoryInModule>, ends: Option<Ends>)
        requires spot { IsSpot self.old affinity spot }
        requires absent { spot.entry ≡ None }
        requires room { table_total self.old < length self.old }
        requires some { IfSome ends (λ e. 0 < e.len) }
        ensures ends { (a : Option MemoryInModule) → ends_at self.new a ≡ (if same_affinity a affinity then ends else ends_at self.old a) }
        ensures total { table_total self.new + ends_len (ends_at self.old affinity) ≡ table_total self.old + ends_len ends }
        ensures len { length self.new ≡ length self.old }
    {
        let len = self.entries.len();
        let home = spot.home;
        let distance = self.vacancy(home);
        self.entries[place_of(home, distance, len)] = entry_of(affinity, ends);
        self.reach[home] = self.reach[home].max(distance + 1);
    }
}
