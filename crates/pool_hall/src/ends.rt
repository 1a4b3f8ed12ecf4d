//! Making a hall and closing it.
ghost use Rattle.std.specs.Prelude.{◌≡◌, ℕ, ◌+◌, ◌^◌, ◌<◌, ◌≤◌, [], IfOk, replicate, vec_len, vec_capacity, length};
ghost use Rattle.std.specs.Mem.Slots.{slots_items, slots_len, IsFull};
ghost use Rattle.pool_hall.specs.Tally.{all_portions};
ghost use Rattle.pool_hall.specs.Ending.{AllTold};
ghost use Rattle.pool_hall.specs.Meaning.{AllFresh, AllStand};
ghost use Rattle.pool_hall.specs.Rule.{word_of, first_view, AwayIsKept};
ghost use Rattle.pool_hall.specs.Seat.{made_with, limits_of, packed_of, view, IsSeatOf, IsFree};

use crate::hall::{Hall, HallSeat};
use crate::law::{Law, Made};
use crate::layout::word_of;
use crate::part::Part;
use crate::room::Vacant;
use crate::view::View;
use atomic_table::{Closed, Table};
use std::alloc::{AllocError, Global};
use std::snapshot::Snapshot;

// The words of a hall with so many places and counters: all free and at zero.
fn zeros(alloc: Global, packed: u32, count: usize) -> Result<Vec<u64>, AllocError>
    requires { count < 2 ^ 32 }
    ensures { IfOk result (λ v. v.items ≡ replicate (word_of packed count) 0) }
{
    vec![in alloc; 0u64; word_of(packed, count)]
}

// The list that a closing answers, on a table of its own, so that threads may share it.
fn reserved<T: Part>(
    alloc: Global,
    count: usize,
) -> Result<Table<Vec<T>, (), usize, Vacant, Global>, AllocError>
    ensures { IfOk result (λ t. (t.shared.key ≡ count) × (t.shared.table_id.slots ≡ 1)) }
{
    let list = Vec::with_capacity(alloc, count)?;
    let mut slots = Vec::with_capacity(alloc, 1)?;
    slots.push(list)?;
    match Table::new(alloc, &[], slots, &count) {
        Ok((table, _)) => Ok(table),
        Err(_) => Err(AllocError),
    }
}

fn list_in<T: Part>(table: Table<Vec<T>, (), usize, Vacant, Global>) -> Vec<T>
    requires { table.shared.table_id.slots ≡ 1 }
    ensures { (result.items ≡ []) × (table.shared.key ≤ vec_capacity result) }
{
    let mut closed = table.close();
    let list = closed.take(0);
    closed.free();
    list
}

// Moves the parts out of a closed table into a list with room for them.
fn emptied<T: Part>(mut closed: Closed<T, Global>, mut list: Vec<T>) -> Vec<T>
    requires full { IsFull closed.slots }
    requires room { (list.items ≡ []) × (slots_len closed.slots ≤ vec_capacity list) }
    ensures { result.items ≡ slots_items closed.slots }
{
    for i in 0..closed.slot_count() {
        let part = closed.take(i);
        list.push_reserved(part);
    }
    closed.free();
    list
}

impl<T: Part> Hall<T> {
    /// Makes a hall in which each part is at home and each counter is 0, and its first seat. Where there is no memory
    /// the parts are dropped.
    ///
    /// The locks of the first `packed` places take 8 bytes each and share cache lines. Each other lock, and each counter,
    /// takes 128, so that threads which use different ones don't slow each other down. Nothing else depends on it.
    pub fn new(
        alloc: Global,
        parts: Vec<T>,
        limits: Vec<u64>,
        packed: u32,
    ) -> Result<(Hall<T>, HallSeat<T>), AllocError>
        requires some { 0 < vec_len parts + vec_len limits }
        requires few { vec_len parts + vec_len limits < 2 ^ 32 }
        requires fresh { AllFresh T.meaning parts.items limits.items }
        ensures parts { IfOk result (λ r. made_with r.0 ≡ parts.items) }
        ensures limits { IfOk result (λ r. limits_of r.0 ≡ limits.items) }
        ensures packed { IfOk result (λ r. packed_of r.0 ≡ packed) }
        ensures own { IfOk result (λ r. IsSeatOf r.0 r.1 × IsFree r.1) }
        ensures view { IfOk result (λ r. view r.1 ≡ first_view parts.items limits.items) }
    {
        let made = Made {
            parts: Snapshot::of(&parts),
            limits: Snapshot::of(&limits),
            packed,
        };
        let room = reserved(alloc, parts.len())?;
        let words = zeros(alloc, packed, parts.len() + limits.len())?;
        match Table::new(alloc, words.as_slice(), parts, &made) {
            Ok((table, seat)) => {
                let hall = Hall {
                    table,
                    room,
                    packed,
                };
                Ok((hall, HallSeat { seat, place: 0 }))
            }
            Err(_) => Err(AllocError),
        }
    }

    /// Ends a hall, and answers its parts in the order of their places. The seat's view tells what they counted.
    pub fn close(self, seat: HallSeat<T>) -> Vec<T>
        requires own { IsSeatOf self seat }
        requires free { IsFree seat }
        requires portions { (view seat).portions ≡ all_portions }
        requires units { (view seat).units ≡ [] }
        ensures all { length result.items ≡ length (made_with self) }
        ensures stand { AllStand T.meaning (made_with self) (limits_of self) result.items }
        ensures units { AwayIsKept T.meaning (made_with self) (limits_of self) result.items }
        ensures told { AllTold T.meaning (limits_of self) (view seat) result.items }
    {
        let Hall {
            table,
            room,
            packed: _,
        } = self;
        let HallSeat { seat, place: _ } = seat;
        let list = list_in(room);
        let closed = table.close_with(seat);
        emptied(closed, list)
    }
}
