use pool_slots::{Allocator, Plan};

/// The sizes of a pool on which the bounds of calls rest.
#[derive(Clone, Copy, Debug, PartialEq, Eq)]
pub struct Sizes {
    /// The most shards of one allocator.
    pub shards: u64,
    pub queues: u64,
    /// The slots that a flush may free, and the shards of their allocators.
    pub slots: u64,
    pub flushed_shards: u64,
    /// How many memories a module may have.
    pub per_module: u64,
}

fn most_shards(allocators: &[Allocator]) -> u64 {
    let mut most = 0;
    for allocator in allocators {
        most = allocator.shards.max(most);
    }
    most as u64
}

fn all_shards(allocators: &[Allocator]) -> u64 {
    let mut all: u64 = 0;
    for allocator in allocators {
        all = all.saturating_add(allocator.shards as u64);
    }
    all
}

/// The sizes of a pool with this plan.
pub fn sizes_of(plan: &Plan, per_module: u32) -> Sizes {
    let memories = plan.memories.as_slice();
    let tables = plan.tables.as_slice();
    let stacks = plan.stacks.as_slice();
    let heaps = plan.heaps.as_slice();
    Sizes {
        shards: most_shards(memories)
            .max(most_shards(tables))
            .max(most_shards(stacks))
            .max(most_shards(heaps)),
        queues: plan.queues as u64,
        slots: plan.totals.memory as u64 + plan.totals.table as u64 + plan.totals.stack as u64,
        flushed_shards: all_shards(memories)
            .saturating_add(all_shards(tables))
            .saturating_add(all_shards(stacks)),
        per_module: per_module as u64,
    }
}

impl Sizes {
    /// At most how many steps a flush makes.
    fn flush(&self) -> u64 {
        self.slots
            .saturating_mul(3)
            .saturating_add(self.flushed_shards)
            .saturating_add(1)
    }

    /// At most how many steps an object takes: rounds of picks, a flush of each queue, and what is done with the slot.
    fn allocation(&self) -> u64 {
        let rounds = self.queues.saturating_add(1).saturating_mul(self.shards);
        let flushes = self.queues.saturating_mul(self.flush());
        rounds.saturating_add(flushes).saturating_add(8)
    }

    /// At most how many steps an object's give-back takes.
    fn give_back(&self) -> u64 {
        self.flush().saturating_add(4)
    }

    fn object(&self) -> u64 {
        self.allocation().saturating_add(self.give_back())
    }

    /// At most how many steps an instance with so many objects takes.
    pub fn instance(&self, objects: u64) -> u64 {
        objects.saturating_mul(self.object()).saturating_add(3)
    }

    /// At most how many steps it takes to give a grant of so many objects back. A heap counts as two.
    pub fn give_back_all(&self, objects: u64) -> u64 {
        objects.saturating_mul(self.give_back()).saturating_add(1)
    }

    /// At most how many steps a stack takes.
    pub fn stack(&self) -> u64 {
        self.allocation().saturating_add(1)
    }

    /// At most how many steps a heap takes.
    pub fn heap(&self) -> u64 {
        self.object().saturating_mul(2).saturating_add(1)
    }

    /// At most how many steps a purge makes over the stripes of these allocators.
    pub fn purge(&self, stripes: &[Allocator]) -> u64 {
        let mut turns: u64 = 0;
        for stripe in stripes {
            let slots = stripe.capacity as u64;
            let round = self.shards.saturating_add(4);
            turns = turns
                .saturating_add(slots.saturating_mul(round))
                .saturating_add(self.shards);
        }
        turns.saturating_mul(self.per_module).saturating_add(1)
    }

    /// At most how many steps a release makes over the stripes of these allocators.
    pub fn release(&self, stripes: &[Allocator]) -> u64 {
        let mut steps: u64 = 1;
        for stripe in stripes {
            let slots = stripe.capacity as u64;
            steps = steps
                .saturating_add(self.shards)
                .saturating_add(slots.saturating_mul(4));
        }
        steps
    }
}
