ghost use Rattle.std.specs.Prelude.{◌≡◌, is_ok, IfSome, OnOk, OnErr};
ghost use Rattle.pool_types.specs.Rising.{risen};
ghost use Rattle.pool_table.specs.Stores.{StoreTold, StoreCall, call_of, store_called, store_passes, StoreFaulted, listed_store};

use crate::failing_numbers::FailingNumbers;
use pool_limits::Trap;
use pool_types::PlainList;

/// A call on a store failed.
#[derive(Clone, Copy, Debug, PartialEq, Eq)]
pub struct GcStoreFault;

/// Why a GC reference isn't written to a table.
#[derive(Clone, Copy, Debug, PartialEq, Eq)]
pub enum GcTableError {
    Trap(Trap),
    /// The call on the store failed that comes before the write.
    GcStoreFault,
}

/// The store of a collector: it is told of each reference that is written, and may fail then.
pub trait GcStore {
    ghost told: { Self → StoreTold };

    // Which state a call with these references and this answer may lead to. Code that is written for every store can show
    // that it told the store of a reference only by telling it.
    ghost leads: { Self → StoreCall → Self → Type 0 } = { λ _ _ _. Unit {0} };

    /// How many calls have failed. Never falls.
    fn faults(&self) -> u64
        ensures { result ≡ (told self.now).faults };

    /// One reference is about to take the place of another.
    fn write_gc_ref(&mut self, old: Option<u32>, new: Option<u32>) -> Result<(), GcStoreFault>
        ensures ok { OnOk result (told self.new ≡ store_called (told self.old)) }
        ensures fault { OnErr result (StoreFaulted (told self.old) (told self.new)) }
        ensures planned { IfSome (told self.old).plan (λ plan. store_passes plan (told self.old) ≡ is_ok result) }
        ensures call { leads self.old (call_of old new (is_ok result)) self.new };
}

/// A store with a list of the numbers of its calls that fail. Its calls are numbered from 1.
#[derive(Debug, Drop)]
pub struct ListedStore {
    failing: FailingNumbers,
    made: u64,
    faults: u64,
}

impl ListedStore {
    /// No call was made on it yet. Sorts the list, and takes no memory.
    pub fn new(failing: PlainList<u64>) -> Self
        ensures { ⟦<ListedStore as GcStore>⟧.told result ≡ listed_store failing 0 0 }
    {
        ListedStore {
            failing: FailingNumbers::new(failing),
            made: 0,
            faults: 0,
        }
    }
}

impl GcStore for ListedStore {
    ghost told = { λ s. listed_store s.failing s.made s.faults };

    fn faults(&self) -> u64 {
        self.faults
    }

    fn write_gc_ref(&mut self, _old: Option<u32>, _new: Option<u32>) -> Result<(), GcStoreFault> {
        self.made = self.made.saturating_add(1);
        if self.failing.lists(self.made) {
            self.faults = self.faults.saturating_add(1);
            return Err(GcStoreFault);
        }
        Ok(())
    }
}
