ghost use Rattle.std.specs.Prelude.{◌≡◌, List, []};
ghost use Rattle.pool_hall.specs.declared.unit_name.SlotKind.{SlotKind};
ghost use Rattle.pool_hall.specs.declared.unit_name.SlotKind.TheVariants.{Memory, Table, Stack};
ghost use Rattle.pool_slots.specs.SlotQueues.{Queued, of_kind};
ghost use Rattle.pool_slots.specs.Flushes.{without_kind};

use crate::decommit_queue::DecommitQueue;
use pool_pages::Pages;

/// What takes slots back that a queue held, kind by kind. Each call takes all slots of its kind out of a queue without
/// ranges, in order, by [`DecommitQueue::pop`], which says that a slot is clean where it is known. It takes no memory.
pub trait SlotReturn<P: Pages> {
    /// What has to hold of slots of a kind so that they can be taken back.
    ghost accepts: { SlotKind → List Queued → Self → Type 0 };

    /// What the return of slots of a kind does.
    ghost returns: { SlotKind → List Queued → Self → Self → Type 0 };

    /// Takes all memories back.
    fn memories(&mut self, queue: &mut DecommitQueue<P>)
        requires no_ranges { queue.old.ranges ≡ [] }
        requires accepted { accepts Memory (of_kind Memory queue.old.slots) self.old }
        ensures returned { returns Memory (of_kind Memory queue.old.slots) self.old self.new }
        ensures others { queue.new ≡ record queue.old { slots = without_kind Memory queue.old.slots } };

    /// Takes all tables back.
    fn tables(&mut self, queue: &mut DecommitQueue<P>)
        requires no_ranges { queue.old.ranges ≡ [] }
        requires accepted { accepts Table (of_kind Table queue.old.slots) self.old }
        ensures returned { returns Table (of_kind Table queue.old.slots) self.old self.new }
        ensures others { queue.new ≡ record queue.old { slots = without_kind Table queue.old.slots } };

    /// Takes all stacks back.
    fn stacks(&mut self, queue: &mut DecommitQueue<P>)
        requires no_ranges { queue.old.ranges ≡ [] }
        requires accepted { accepts Stack (of_kind Stack queue.old.slots) self.old }
        ensures returned { returns Stack (of_kind Stack queue.old.slots) self.old self.new }
        ensures others { queue.new ≡ record queue.old { slots = without_kind Stack queue.old.slots } };
}
