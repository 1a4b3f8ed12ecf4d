//! A hall and its seats.
ghost use Rattle.std.specs.Prelude.{◌≡◌, ◌^◌, ◌<◌, length};
ghost use Rattle.pool_hall.specs.Made.{parts_of, word_count};
ghost use Rattle.pool_hall.specs.Rule.{word_of};

use crate::law::{Law, Made};
use crate::part::Part;
use crate::room::Vacant;
use crate::view::View;
use atomic_table::{Seat, Table};
use std::alloc::Global;

/// Parts behind locks, and counters, which threads share.
#[derive(Drop)]
pub struct Hall<T: Part> {
    pub(crate) table: Table<T, View<T>, Made<T>, Law, Global>,
    pub(crate) room: Table<Vec<T>, (), usize, Vacant, Global>,
    pub(crate) packed: u32,
    ghost some: { 0 < word_count table.shared.key },
    ghost few: { word_count table.shared.key < 2 ^ 32 },
    ghost layout: { packed ≡ table.shared.key.packed },
    ghost words: { table.shared.table_id.words ≡ word_of packed (word_count table.shared.key) },
    ghost slots: { table.shared.table_id.slots ≡ length (parts_of table.shared.key) },
    ghost reserved: { room.shared.key ≡ length (parts_of table.shared.key) },
    ghost one_room: { room.shared.table_id.slots ≡ 1 },
}

/// A token of a hall, with which a thread makes its calls. What it knows is its view.
///
/// A seat that is dropped takes along what it has: its units stay out, and a place that it holds stays held. The other
/// seats go on, but the hall can't be closed, since that asks for all portions.
#[derive(Drop)]
pub struct HallSeat<T: Part> {
    pub(crate) seat: Seat<T, View<T>>,
    pub(crate) place: u32,
}
