ghost use Rattle.std.specs.Prelude.{◌≡◌, ◌≢◌, ℕ, ◌+◌, ◌*◌, ◌<◌, ◌≤◌, ◌^◌, ◌++◌, [], Some, None, All, IfOk, IsSome, length, map, replicate, slice_index_or, option_map};
ghost use Rattle.std.specs.Option.{option_map_or};
ghost use Rattle.pool_index.specs.Affinity.{is_affine};
ghost use Rattle.pool_index.specs.Positions.{last_position};
ghost use Rattle.pool_index.specs.Links.{ends_without, ends_with, ends_last};
ghost use Rattle.pool_index.specs.Table.{ends_len};
ghost use Rattle.pool_index.specs.Lists.{warm_slot, with_bytes, numbered, bytes_of, use_warm, use_slot, free_slot, free_accesses, take_accesses, use_again};

use crate::affinity_table::{AffinityTable, Ends};
use crate::ids::{MemoryInModule, SlotId};
use crate::slot_row::{Chain, Links, SlotRecord, SlotRow, WarmRecord};
use crate::steps::Steps;
use crate::taken::Taken;
use std::alloc::{AllocError, Global};
use std::marker::Model;
use std::sync::ledger::{Blank, Ledger};

/// The slots of a shard: which are warm, in the order in which they were freed, and what each used one was picked for.
/// The warm slots are linked through their records in that order, and those of each affinity among themselves. There is
/// no list of them beside the records.
#[derive(Drop)]
pub struct SlotLists {
    rows: SlotRow,
    table: AffinityTable,
    freed: Option<Ends>,
    bytes: usize,
}

impl Model for SlotLists {
    ghost use Rattle.pool_index.specs.Table.{ends_len};
    ghost use Rattle.pool_index.specs.Lists.{SlotLists as Lists};
    ghost use Rattle.pool_index.specs.Links.{lists_of};
    ghost use Rattle.pool_index.specs.ListFields.{IsListed};

    ghost Value = { Lists };

    ghost view = { λ l. lists_of l.rows l.freed };

    ghost invariant = { IsListed };
}

/// The ends of a list with one slot more.
fn with(ends: Option<Ends>, slot: u32) -> Ends
    requires { ends_len ends + 1 < 2 ^ 32 }
    ensures { Some result ≡ ends_with ends slot }
{
    match ends {
        Some(ends) => Ends {
            first: ends.first,
            last: slot,
            len: ends.len + 1,
        },
        None => Ends {
            first: slot,
            last: slot,
            len: 1,
        },
    }
}

/// The ends of a list without a slot that has these neighbours in it.
fn without(ends: Option<Ends>, links: Links) -> Option<Ends>
    ensures { result ≡ ends_without links ends }
{
    let ends = ends?;
    let len = ends.len.saturating_sub(1);
    match (links.before, links.after) {
        (None, None) => None,
        (None, Some(first)) => Some(Ends {
            first,
            last: ends.last,
            len,
        }),
        (Some(last), None) => Some(Ends {
            first: ends.first,
            last,
            len,
        }),
        (Some(_), Some(_)) => Some(Ends {
            first: ends.first,
            last: ends.last,
            len,
        }),
    }
}

fn last_of(ends: Option<Ends>) -> Option<u32>
    ensures { result ≡ ends_last ends }
{
    Some(ends?.last)
}

/// The neighbours of a slot that comes behind a list.
fn behind(ends: Option<Ends>) -> Links
    ensures { result ≡ record { before = ends_last ends; after = None } }
{
    Links {
        before: last_of(ends),
        after: None,
    }
}

impl SlotLists {
    /// So many slots, none of which was used.
    pub fn new(alloc: Global, len: u32) -> Result<SlotLists, AllocError>
        ensures { IfOk result (λ l. l ≡ record { warm = []; used = replicate len None }) }
    {
        Ok(SlotLists {
            rows: SlotRow::new(alloc, len)?,
            table: AffinityTable::new(alloc, len)?,
            freed: None,
            bytes: 0,
        })
    }

    /// The number of warm slots.
    pub fn warm_len(&self) -> usize
        ensures { result ≡ length self.now.warm }
    {
        match self.freed {
            Some(ends) => ends.len as usize,
            None => 0,
        }
    }

    /// The bytes that the warm slots keep resident, together.
    pub fn bytes_resident(&self) -> usize
        ensures { result ≡ bytes_of self.now.warm }
    {
        self.bytes
    }

    /// Takes the last warm slot that is affine to a memory, where there is one, for what is wanted.
    pub fn take_affine<L: Ledger>(
        &mut self,
        of: MemoryInModule,
        want: Option<MemoryInModule>,
        steps: &mut Steps<L>,
    ) -> Option<(SlotId, usize)>
        ensures answer { result ≡ option_map (λ i. with_bytes (warm_slot self.old i)) (last_position (is_affine of) self.old.warm) }
        ensures after { self.new ≡ option_map_or (use_warm want self.old) (last_position (is_affine of) self.old.warm) self.old }
        ensures steps { steps.new ≡ steps.old + option_map_or (take_accesses self.old) (last_position (is_affine of) self.old.warm) 0 }
        ensures missed { result ≡ None → steps.new ≡ steps.old }
    {
        let spot = self.table.look(Some(of));
        let slot = last_of(spot.ends)?;
        let taken = self.rows.take(slot, want, steps);
        self.table
            .put_at(spot, Some(of), without(spot.ends, taken.affine));
        self.freed = without(self.freed, taken.freed);
        self.bytes -= taken.bytes;
        Some((SlotId(slot), taken.bytes))
    }

    /// Takes the first warm slot for what is wanted.
    pub fn take_first<L: Ledger>(
        &mut self,
        want: Option<MemoryInModule>,
        steps: &mut Steps<L>,
    ) -> (SlotId, usize)
        requires { 0 < length self.old.warm }
        ensures answer { result ≡ with_bytes (warm_slot self.old 0) }
        ensures after { self.new ≡ use_warm want self.old 0 }
        ensures steps { steps.new ≡ steps.old + take_accesses self.old 0 }
    {
        let slot = self.first();
        let taken = self.rows.take(slot, want, steps);
        let spot = self.table.look(taken.affinity);
        self.table
            .put_at(spot, taken.affinity, without(spot.ends, taken.affine));
        self.freed = without(self.freed, taken.freed);
        self.bytes -= taken.bytes;
        (SlotId(slot), taken.bytes)
    }

    /// Takes all warm slots in their order, each by the number that it has where the first slot has this one, and each next
    /// one so much more. Each is used for what it is affine to.
    pub fn take_all<L: Ledger>(&mut self, first: u32, step: u32, out: &mut Taken, blank: Blank)
        requires name { blank.name ≡ L.name }
        requires parts { blank.parts ≡ L.parts }
        requires some { 0 < blank.parts }
        requires fit { All (λ e. first + e.slot.0 * step < 2 ^ 32) self.old.warm }
        requires room { length out.old.items + length self.old.warm ≤ out.old.room }
        ensures taken { out.new ≡ record out.old { items = out.old.items ++ map (numbered first step) (map with_bytes self.old.warm) } }
        ensures after { self.new ≡ record { warm = []; used = use_again self.old.warm self.old.used } }
    {
        let mut steps = Steps::<L>::new(blank);
        while self.warm_len() > 0 {
            let affinity = self.first_affinity(&mut steps);
            let (slot, bytes) = self.take_first(affinity, &mut steps);
            out.push(SlotId(first + slot.0 * step), bytes);
        }
    }

    /// Takes a slot that was never used for what is wanted.
    pub fn take_cold<L: Ledger>(
        &mut self,
        slot: SlotId,
        want: Option<MemoryInModule>,
        steps: &mut Steps<L>,
    )
        requires inside { slot.0 < length self.old.used }
        requires cold { (i : ℕ) → i < length self.old.warm → (warm_slot self.old i).slot.0 ≢ slot.0 }
        ensures after { self.new ≡ use_slot slot want self.old }
        ensures steps { steps.new ≡ steps.old + 1 }
    {
        self.rows.replace(slot.0, SlotRecord::Used(want), steps);
    }

    /// Makes a used slot the last of the warm ones.
    pub fn free<L: Ledger>(&mut self, slot: SlotId, bytes: usize, steps: &mut Steps<L>)
        requires used { IsSome (slice_index_or self.old.used slot.0 None) }
        requires room { length self.old.warm < length self.old.used }
        requires few { length self.old.used < 2 ^ 32 }
        requires bytes { bytes_of self.old.warm + bytes < 2 ^ 64 }
        ensures after { self.new ≡ free_slot slot bytes self.old }
        ensures steps { steps.new ≡ steps.old + free_accesses slot self.old }
    {
        let SlotRecord::Used(affinity) = self.rows.read(slot.0, steps) else {
            unreachable!()
        };
        let spot = self.table.look(affinity);
        let record = WarmRecord {
            affinity,
            bytes,
            freed: behind(self.freed),
            affine: behind(spot.ends),
        };
        self.rows.replace(slot.0, SlotRecord::Warm(record), steps);
        self.rows
            .append(Chain::Freed, last_of(self.freed), slot.0, steps);
        self.rows
            .append(Chain::Affine, last_of(spot.ends), slot.0, steps);
        self.table
            .put_at(spot, affinity, Some(with(spot.ends, slot.0)));
        self.freed = Some(with(self.freed, slot.0));
        self.bytes += bytes;
    }

    /// The first warm slot.
    fn first(&self) -> u32
        requires { 0 < length self.now.warm }
        ensures { result ≡ (warm_slot self.now 0).slot.0 }
    {
        let Some(ends) = self.freed else {
            unreachable!()
        };
        ends.first
    }

    /// What the first warm slot is affine to.
    fn first_affinity<L: Ledger>(&self, steps: &mut Steps<L>) -> Option<MemoryInModule>
        requires { 0 < length self.now.warm }
        ensures { result ≡ (warm_slot self.now 0).affinity }
    {
        match self.rows.read(self.first(), steps) {
            SlotRecord::Warm(record) => record.affinity,
            _ => unreachable!(),
        }
    }
}
