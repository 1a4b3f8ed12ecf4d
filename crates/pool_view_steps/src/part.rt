use pool_alloc::CounterName;
use pool_index::SlotKind;
use pool_slots::{Allocator, Plan, SlotName};
use std::fmt::{Display, Error, Formatter, Write};

/// What a step changes. It changes one part or one counter of the pool, or neither.
#[derive(Clone, Copy, Debug, PartialEq, Eq)]
pub enum Part {
    Nothing,
    Shard(ShardName),
    /// The cell of a slot, in which its region lies while it is free.
    Cell(SlotName),
    Queue(u32),
    /// The list of heaps.
    Heaps,
    Counter(CounterName),
}

/// The name of a shard: its number among those of a kind of slots, of memories among those of a stripe.
#[derive(Clone, Copy, Debug, PartialEq, Eq)]
pub struct ShardName {
    pub kind: SlotKind,
    /// Of memories the stripe, where there are two or more.
    pub stripe: Option<u32>,
    pub shard: u32,
}

/// The name of a kind of slots, in the singular.
pub fn kind_name(kind: SlotKind) -> &'static str {
    match kind {
        SlotKind::Memory => "memory",
        SlotKind::Table => "table",
        SlotKind::Stack => "stack",
        SlotKind::Heap => "heap",
    }
}

/// The name of a kind of slots, in the plural.
pub fn kinds_name(kind: SlotKind) -> &'static str {
    match kind {
        SlotKind::Memory => "memories",
        SlotKind::Table => "tables",
        SlotKind::Stack => "stacks",
        SlotKind::Heap => "heaps",
    }
}

/// The name of a counter.
pub fn counter_name(name: CounterName) -> &'static str {
    match name {
        CounterName::Key => "keys",
        CounterName::CoreInstances => "instances",
        CounterName::ComponentInstances => "components",
        CounterName::Memories => "memories",
        CounterName::Tables => "tables",
        CounterName::Stacks => "stacks",
        CounterName::GcHeaps => "heaps",
    }
}

impl Display for ShardName {
    fn fmt<W: Write>(&self, f: &mut Formatter<W>) -> Result<(), Error> {
        let shard = self.shard;
        let kinds = kinds_name(self.kind);
        match self.stripe {
            None => write!(f, "shard {shard} of {kinds}"),
            Some(stripe) => write!(f, "shard {shard} of {kinds} in stripe {stripe}"),
        }
    }
}

impl Display for Part {
    fn fmt<W: Write>(&self, f: &mut Formatter<W>) -> Result<(), Error> {
        match self {
            Part::Nothing => write!(f, "-"),
            Part::Shard(name) => write!(f, "{name}"),
            Part::Cell(name) => {
                let kind = kind_name(name.kind);
                let slot = name.slot;
                write!(f, "cell of {kind} {slot}")
            }
            Part::Queue(number) => write!(f, "queue {number}"),
            Part::Heaps => write!(f, "list of heaps"),
            Part::Counter(name) => {
                let name = counter_name(*name);
                write!(f, "counter of {name}")
            }
        }
    }
}

/// The allocators of a kind of slots: of memories one for each stripe.
pub fn allocators_of(plan: &Plan, kind: SlotKind) -> &[Allocator] {
    match kind {
        SlotKind::Memory => plan.memories.as_slice(),
        SlotKind::Table => plan.tables.as_slice(),
        SlotKind::Stack => plan.stacks.as_slice(),
        SlotKind::Heap => plan.heaps.as_slice(),
    }
}

// The shard with this number of a kind, or of a stripe of memories.
fn shard_named(plan: &Plan, kind: SlotKind, stripe: u32, shard: u32) -> Part {
    let striped = allocators_of(plan, kind).len() > 1;
    Part::Shard(ShardName {
        kind,
        stripe: if striped { Some(stripe) } else { None },
        shard,
    })
}

/// The shard that a purge or a release looks into.
pub fn shard_of_stripe(plan: &Plan, stripe: u32, shard: u32) -> Part {
    shard_named(plan, SlotKind::Memory, stripe, shard)
}

/// The shard that a pick tries after so many others.
pub fn shard_tried(plan: &Plan, kind: SlotKind, stripe: u32, home: u32, tried: u32) -> Part {
    let stripe = match kind {
        SlotKind::Memory => stripe,
        _ => 0,
    };
    let shards = match allocators_of(plan, kind).get(stripe as usize) {
        Some(allocator) => allocator.shards,
        None => 0,
    };
    let after = home as u64 + tried as u64;
    shard_named(plan, kind, stripe, around(after, shards))
}

/// The queue that comes after so many others.
pub fn queue_tried(plan: &Plan, home: u32, tried: u32) -> u32 {
    around(home as u64 + tried as u64, plan.queues)
}

// The number, counted around so many.
fn around(number: u64, count: u32) -> u32 {
    if count == 0 {
        return 0;
    }
    (number % count as u64) as u32
}

// The number in its shards of the slot with this number, where the allocator has it, and its shard.
fn shard_in(allocator: &Allocator, number: u32) -> Option<u32> {
    let at = number.checked_sub(allocator.first)?;
    if at.checked_rem(allocator.step)? != 0 {
        return None;
    }
    let index = at.checked_div(allocator.step)?;
    if index >= allocator.capacity {
        return None;
    }
    index.checked_div(allocator.slots_per_shard)
}

/// The shard of a slot, and its place among the parts.
pub fn home_of(plan: &Plan, name: SlotName) -> (u32, Part) {
    let mut stripe = 0u32;
    for allocator in allocators_of(plan, name.kind) {
        if let Some(shard) = shard_in(allocator, name.slot) {
            let place = allocator.first_place.saturating_add(shard);
            return (place, shard_named(plan, name.kind, stripe, shard));
        }
        stripe = stripe.saturating_add(1);
    }
    (0, Part::Nothing)
}
