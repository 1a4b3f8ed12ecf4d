ghost use Rattle.std.specs.Prelude.{◌≡◌, ◌<◌, List, [], map, length, nat_lt, false, true};
ghost use Rattle.std.specs.List.{list_any};
ghost use Rattle.pool_hall.specs.declared.unit_name.SlotKind.TheVariants.{Heap};
ghost use Rattle.pool_slots.specs.SlotQueues.{Queued, HasOwners, drained, is_kind};
ghost use Rattle.pool_slots.specs.Flushes.{IsFlushed, CanTakeBack, WentBack, zeroed_of};

use crate::decommit_queue::DecommitQueue;
use crate::queued_slot::HeldSlot;
use crate::slot_return::SlotReturn;
use pool_index::SlotKind;
use pool_pages::Pages;

impl<P: Pages> DecommitQueue<P> {
    /// Decommits all ranges, and gives the slots back: the memories, then the tables, then the stacks. The queue is empty
    /// then. Answers whether it held a slot. After the first decommit that fails, the further ranges are not tried, and
    /// the memories go back as unknown; tables and stacks that are zeroed by hand are zeroed, and go back clean.
    pub fn flush<D: SlotReturn<P>>(&mut self, pool: &mut D) -> bool
        requires owners { HasOwners self.old }
        requires accepted { (items : List Queued) → IsFlushed self.old items → CanTakeBack D.accepts D.returns items pool.old }
        ensures value { result ≡ nat_lt 0 (length self.old.slots) }
        ensures empty { self.new ≡ drained self.old }
        ensures returned { result ≡ true → (items : List Queued) × IsFlushed self.old items × WentBack D.returns items pool.old pool.new }
        ensures same { result ≡ false → pool.new ≡ pool.old }
    {
        if self.is_empty() {
            return false;
        }
        self.decommit_all();
        self.give_back(pool);
        true
    }

    // Decommits all ranges, up to the first that fails.
    fn decommit_all(&mut self)
        requires owners { HasOwners self.old }
        ensures slots { IsFlushed self.old self.new.slots }
        ensures same { self.new ≡ record self.old { ranges = []; slots = self.new.slots } }
    {
        while self.raw_len() > 0 {
            let Ok(()) = self.decommit_run() else {
                return;
            };
        }
    }

    // Gives all slots back to their pool.
    fn give_back<D: SlotReturn<P>>(&mut self, pool: &mut D)
        requires ranges { self.old.ranges ≡ [] }
        requires accepted { CanTakeBack D.accepts D.returns self.old.slots pool.old }
        ensures empty { self.new ≡ record self.old { slots = [] } }
        ensures returned { WentBack D.returns self.old.slots pool.old pool.new }
    {
        pool.memories(self);
        self.zero_all(SlotKind::Table);
        pool.tables(self);
        self.zero_all(SlotKind::Stack);
        pool.stacks(self);
        self.has_no_heap();
    }

    // Zeroes by hand all slots of a kind that are still to be zeroed.
    fn zero_all(&mut self, kind: SlotKind)
        requires { self.old.ranges ≡ [] }
        ensures { self.new ≡ record self.old { slots = map (zeroed_of kind) self.old.slots } }
    {
        while self.zero_next(kind) {}
    }

    // No slot of a queue is one of a heap.
    fn has_no_heap(&mut self)
        requires { self.old.ranges ≡ [] }
        ensures same { self.new ≡ self.old }
        ensures none { list_any (is_kind Heap) self.old.slots ≡ false }
    {
        match self.pop(SlotKind::Heap) {
            Some(item) => match item.held {
                HeldSlot::Memory(_) => unreachable!(),
                HeldSlot::Table(_) => unreachable!(),
                HeldSlot::Stack(_) => unreachable!(),
            },
            None => {}
        }
    }
}
