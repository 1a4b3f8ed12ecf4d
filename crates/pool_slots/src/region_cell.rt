ghost use Rattle.std.specs.Prelude.{◌≡◌, ◌^◌, ◌<◌};
ghost use Rattle.pool_slots.specs.Cells.{unmapped, taken, calls_in, IsCleanOnceUsed};
ghost use Rattle.pool_slots.specs.CellOf.{cell_of};
ghost use Rattle.pool_slots.specs.Listed.{CellFailsAsListed};
ghost use Rattle.pool_slots.specs.RegionCells.{faults_in, erases_in, numbers_of, cell_numbers, cell_made, cell_emptied, cell_filled, IsAwaited, IsSoundCell};

use crate::cells::ImageSlot;
use crate::slot_name::{RegionNumbers, SlotName};
use pool_index::SlotKind;
use pool_pages::{PageCalls, PageRegion, Pages};
use std::marker::Model;
use std::mem;

/// The cell of one slot, of whatever kind. A table's or a stack's region is `Unmapped` in it at all times.
#[derive(Drop)]
pub struct RegionCell<P: Pages> {
    name: SlotName,
    holds: ImageSlot<P>,
    // How often a region was put here of which nothing was known; stands still at the end of its type.
    unknown_puts: u64,
    // The numbers that the region went out with.
    out: RegionNumbers,
}

/// The cell of a table's slot.
pub type TableCell<P> = RegionCell<P>;

/// The cell of a stack's slot.
pub type StackCell<P> = RegionCell<P>;

impl<P: Pages> Model for RegionCell<P> {
    ghost use Rattle.pool_slots.specs.RegionCells.{CellState, IsSoundCell};

    ghost Value = { CellState };

    ghost use Rattle.pool_slots.specs.CellOf.{cell_of};

    ghost view = { λ c. record { name = c.name; holds = cell_of c.holds; unknown_puts = c.unknown_puts; out = c.out } };

    ghost invariant = { λ c. IsSoundCell (record { name = c.name; holds = cell_of c.holds; unknown_puts = c.unknown_puts; out = c.out }) };
}

impl<P: Pages> RegionCell<P> {
    /// The cell of a slot, with its region as it was made.
    pub fn new(name: SlotName, region: P) -> Self
        ensures { result ≡ cell_made name (unmapped (P.told region)) }
    {
        let region = PageRegion::new(region);
        let _faults = region.faults();
        let _calls = region.calls();
        RegionCell {
            name,
            holds: ImageSlot::Unmapped(region),
            unknown_puts: 0,
            out: RegionNumbers {
                faults: 0,
                erases: 0,
            },
        }
    }

    pub fn name(&self) -> SlotName
        ensures { result ≡ self.now.name }
    {
        self.name
    }

    /// The numbers with which the region goes out, or went where it is out.
    pub fn numbers(&self) -> RegionNumbers
        ensures value { result ≡ cell_numbers self.now }
        ensures sound { IsSoundCell self.now }
    {
        if let ImageSlot::Taken = self.holds {
            return self.out;
        }
        numbers_of(self.name.kind, &self.holds)
    }

    /// Takes out what the cell holds, with the numbers that its unit tells while it is out.
    pub fn take(&mut self) -> (ImageSlot<P>, RegionNumbers)
        ensures value { cell_of result.0 ≡ self.old.holds }
        ensures numbers { result.1 ≡ cell_numbers self.old }
        ensures clean { IsCleanOnceUsed self.old.holds }
        ensures after { self.new ≡ cell_emptied self.old }
    {
        let numbers = self.numbers();
        let held = mem::replace(&mut self.holds, ImageSlot::Taken);
        self.out = numbers;
        (held, numbers)
    }

    /// Puts the slot's own region back into the cell, which it was taken out of.
    pub fn put(&mut self, held: ImageSlot<P>)
        requires own { IsAwaited (cell_of held) self.old }
        requires clean { IsCleanOnceUsed (cell_of held) }
        ensures { self.new ≡ cell_filled (cell_of held) self.old }
    {
        let _faults = held.faults();
        let _erases = held.erases();
        if let ImageSlot::Unknown(_) = &held {
            self.unknown_puts = self.unknown_puts.saturating_add(1);
        }
        self.holds = held;
    }

    /// The calls made so far on the region that lies in the cell, none where it is taken.
    pub fn page_calls(&self) -> PageCalls
        ensures { result ≡ calls_in self.now.holds }
    {
        self.holds.page_calls()
    }

    // What holds of the region that lies in the cell. It does nothing.
    pub(crate) fn failures_law(&self)
        ensures { CellFailsAsListed self.now.holds }
    {
        self.holds.failures_law();
    }
}

impl<P: Pages> ImageSlot<P> {
    /// How often calls on the region have failed, 0 where it is taken.
    pub fn faults(&self) -> u64
        ensures { result ≡ faults_in (cell_of self.now) }
    {
        match self {
            ImageSlot::Unmapped(region) => region.faults(),
            ImageSlot::Unknown(slot) => slot.region().faults(),
            ImageSlot::PreviouslyUsed(slot) => slot.region().faults(),
            ImageSlot::Taken => 0,
        }
    }

    /// How often the region was erased, once more where nothing is known of it, since it is erased before it is used
    /// again.
    pub fn erases(&self) -> u64
        ensures { result ≡ erases_in (cell_of self.now) }
    {
        match self {
            ImageSlot::Unmapped(region) => region.calls().erase,
            ImageSlot::Unknown(slot) => slot.region().calls().erase.saturating_add(1),
            ImageSlot::PreviouslyUsed(slot) => slot.region().calls().erase,
            ImageSlot::Taken => 0,
        }
    }

    /// The calls made so far on the region, none where it is taken.
    pub fn page_calls(&self) -> PageCalls
        ensures { result ≡ calls_in (cell_of self.now) }
    {
        match self {
            ImageSlot::Unmapped(region) => region.calls(),
            ImageSlot::Unknown(slot) => slot.region().calls(),
            ImageSlot::PreviouslyUsed(slot) => slot.region().calls(),
            ImageSlot::Taken => PageCalls::none(),
        }
    }
}

// The numbers of a region that is there.
fn numbers_of<P: Pages>(kind: SlotKind, held: &ImageSlot<P>) -> RegionNumbers
    ensures { result ≡ numbers_of kind (cell_of held.now) }
{
    let faults = held.faults();
    let erases = match kind {
        SlotKind::Memory => held.erases(),
        SlotKind::Table | SlotKind::Stack | SlotKind::Heap => 0,
    };
    RegionNumbers { faults, erases }
}
