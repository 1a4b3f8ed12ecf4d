ghost use Rattle.std.specs.Prelude.{◌≡◌, ◌+◌, ◌<◌, true, IfOk, IfSome, length, slice_set};
ghost use Rattle.pool_index.specs.Links.{is_warm};
ghost use Rattle.pool_index.specs.Records.{record_of, cold_records, with_before, with_after, unlinked, appended, link_accesses, LinksWithin, taken_rows, taken_accesses};
ghost use Rattle.pool_index.specs.declared.slot_row.SlotRecord.TheVariants.{Warm};

use crate::ids::MemoryInModule;
use crate::steps::Steps;
use std::alloc::{AllocError, Global};
use std::marker::Model;
use std::sync::ledger::Ledger;

/// The two lists that a warm slot is in.
#[derive(Clone, Copy, Debug, PartialEq, Eq)]
pub enum Chain {
    /// All warm slots, in the order in which they were freed.
    Freed,
    /// The warm slots of one affinity, in that order. Those that have none are such a list too.
    Affine,
}

/// The slots before and after a slot in a list.
#[derive(Clone, Copy, Debug, PartialEq, Eq)]
pub struct Links {
    pub before: Option<u32>,
    pub after: Option<u32>,
}

/// What is kept of a warm slot.
#[derive(Clone, Copy, Debug, PartialEq, Eq)]
pub struct WarmRecord {
    /// What the slot was picked for last.
    pub affinity: Option<MemoryInModule>,
    /// The bytes that the slot keeps resident.
    pub bytes: usize,
    pub freed: Links,
    pub affine: Links,
}

/// What is kept of a slot. A used slot has what it was picked for.
#[derive(Clone, Copy, Debug, PartialEq, Eq)]
pub enum SlotRecord {
    Cold,
    Used(Option<MemoryInModule>),
    Warm(WarmRecord),
}

/// The records of a shard's slots, and nothing beside them. Each access to a record is a step.
#[derive(Drop)]
pub struct SlotRow {
    records: Vec<SlotRecord>,
}

impl Model for SlotRow {
    ghost use Rattle.std.specs.Prelude.{List};
    ghost use Rattle.pool_index.specs.declared.slot_row.SlotRecord.{SlotRecord};

    ghost Value = { List SlotRecord };

    ghost view = { λ r. r.records.items };
}

impl SlotRow {
    /// So many slots, all cold.
    pub fn new(alloc: Global, len: u32) -> Result<SlotRow, AllocError>
        ensures { IfOk result (λ r. r ≡ cold_records len) }
    {
        let mut records = Vec::new(alloc);
        records.resize(len as usize, SlotRecord::Cold)?;
        Ok(SlotRow { records })
    }

    pub fn read<L: Ledger>(&self, slot: u32, steps: &mut Steps<L>) -> SlotRecord
        requires { slot < length self.now }
        ensures value { result ≡ record_of self.now slot }
        ensures steps { steps.new ≡ steps.old + 1 }
    {
        steps.tick();
        self.records[slot as usize]
    }

    /// Puts a record in the place of another, which it answers.
    pub fn replace<L: Ledger>(
        &mut self,
        slot: u32,
        with: SlotRecord,
        steps: &mut Steps<L>,
    ) -> SlotRecord
        requires { slot < length self.old }
        ensures value { result ≡ record_of self.old slot }
        ensures after { self.new ≡ slice_set self.old slot with }
        ensures steps { steps.new ≡ steps.old + 1 }
    {
        steps.tick();
        let had = self.records[slot as usize];
        self.records[slot as usize] = with;
        had
    }

    /// Takes a warm slot for what is wanted: its neighbours are linked with each other, past the slot.
    #[inline(always)]
    pub fn take<L: Ledger>(
        &mut self,
        slot: u32,
        want: Option<MemoryInModule>,
        steps: &mut Steps<L>,
    ) -> WarmRecord
        requires warm { is_warm (record_of self.old slot) ≡ true }
        requires linked { LinksWithin (length self.old) (record_of self.old slot) }
        ensures value { Warm result ≡ record_of self.old slot }
        ensures after { self.new ≡ taken_rows want result slot self.old }
        ensures steps { steps.new ≡ steps.old + taken_accesses result }
    {
        let SlotRecord::Warm(taken) = self.replace(slot, SlotRecord::Used(want), steps) else {
            unreachable!()
        };
        self.unlink(Chain::Freed, taken.freed, steps);
        self.unlink(Chain::Affine, taken.affine, steps);
        taken
    }

    /// Links the neighbours of a slot with each other, past the slot.
    fn unlink<L: Ledger>(&mut self, chain: Chain, links: Links, steps: &mut Steps<L>)
        requires before { IfSome links.before (λ k. k < length self.old) }
        requires after { IfSome links.after (λ k. k < length self.old) }
        ensures after { self.new ≡ unlinked chain links self.old }
        ensures steps { steps.new ≡ steps.old + link_accesses links.before + link_accesses links.after }
    {
        self.set_after(chain, links.before, links.after, steps);
        self.set_before(chain, links.after, links.before, steps);
    }

    /// Links the last slot of a list with one that comes behind it.
    pub fn append<L: Ledger>(
        &mut self,
        chain: Chain,
        last: Option<u32>,
        slot: u32,
        steps: &mut Steps<L>,
    )
        requires { IfSome last (λ k. k < length self.old) }
        ensures after { self.new ≡ appended chain last slot self.old }
        ensures steps { steps.new ≡ steps.old + link_accesses last }
    {
        self.set_after(chain, last, Some(slot), steps);
    }

    fn set_after<L: Ledger>(
        &mut self,
        chain: Chain,
        slot: Option<u32>,
        after: Option<u32>,
        steps: &mut Steps<L>,
    )
        requires { IfSome slot (λ k. k < length self.old) }
        ensures after { self.new ≡ with_after chain slot after self.old }
        ensures steps { steps.new ≡ steps.old + link_accesses slot }
    {
        let Some(slot) = slot else {
            return;
        };
        steps.tick();
        if let SlotRecord::Warm(warm) = &mut self.records[slot as usize] {
            match chain {
                Chain::Freed => warm.freed.after = after,
                Chain::Affine => warm.affine.after = after,
            }
        }
    }

    fn set_before<L: Ledger>(
        &mut self,
        chain: Chain,
        slot: Option<u32>,
        before: Option<u32>,
        steps: &mut Steps<L>,
    )
        requires { IfSome slot (λ k. k < length self.old) }
        ensures after { self.new ≡ with_before chain slot before self.old }
        ensures steps { steps.new ≡ steps.old + link_accesses slot }
    {
        let Some(slot) = slot else {
            return;
        };
        steps.tick();
        if let SlotRecord::Warm(warm) = &mut self.records[slot as usize] {
            match chain {
                Chain::Freed => warm.freed.before = before,
                Chain::Affine => warm.affine.before = before,
            }
        }
    }
}
