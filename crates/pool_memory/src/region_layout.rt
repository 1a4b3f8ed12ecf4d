ghost use Rattle.std.specs.Prelude.{◌≡◌, ◌+◌, ◌^◌, ◌<◌, nat_le, if◌then◌else◌};
ghost use Rattle.std.specs.Option.{SomeIff};
ghost use Rattle.pool_types.specs.Count.{count, rounded_up};
ghost use Rattle.pool_memory.specs.Layouts.{Layout, layout_len, first_room, guard_before, first_layout, moved_layout};

use pool_types::{HostAlignedByteCount, MemoryTunables, PageSize};
use std::marker::Model;

/// How a region is laid out that a memory has to itself: bytes before the memory, those that it may have without moving,
/// and a guard behind them, in whole pages of one size. Addresses reach the whole of it.
#[derive(Drop)]
pub(crate) struct RegionLayout {
    before: HostAlignedByteCount,
    capacity: HostAlignedByteCount,
    guard: HostAlignedByteCount,
}

impl Model for RegionLayout {
    ghost use Rattle.std.specs.Prelude.{◌≡◌, ◌+◌, ◌^◌, ◌<◌};
    ghost use Rattle.pool_memory.specs.Layouts.{Layout};

    ghost Value = { Layout };

    ghost view = { λ l. record { page = l.capacity.page; before = l.before.bytes; capacity = l.capacity.bytes; guard = l.guard.bytes } };

    ghost invariant = { λ l. (l.before.page ≡ l.capacity.page) × ((l.guard.page ≡ l.capacity.page) × (l.before.bytes + l.capacity.bytes + l.guard.bytes < 2 ^ 64)) };
}

impl RegionLayout {
    /// None where addresses don't reach the end of it.
    pub(crate) fn new(
        before: HostAlignedByteCount,
        capacity: HostAlignedByteCount,
        guard: HostAlignedByteCount,
    ) -> Option<RegionLayout>
        requires before { before.page ≡ capacity.page }
        requires guard { guard.page ≡ capacity.page }
        ensures { SomeIff result (before.bytes + capacity.bytes + guard.bytes < 2 ^ 64) (record { page = capacity.page; before = before.bytes; capacity = capacity.bytes; guard = guard.bytes }) }
    {
        let Ok(front) = before.checked_add(capacity) else {
            return None;
        };
        match front.checked_add(guard) {
            Ok(_len) => Some(RegionLayout {
                before,
                capacity,
                guard,
            }),
            Err(_) => None,
        }
    }

    /// The region that a memory begins in which has `minimum` bytes then.
    pub(crate) fn for_memory(
        page: PageSize,
        tunables: &MemoryTunables,
        minimum: usize,
    ) -> Option<RegionLayout>
        ensures { SomeIff result (layout_len (first_layout page tunables.now minimum) < 2 ^ 64) (first_layout page tunables.now minimum) }
    {
        let _size = page.get();
        let Ok(guard) = HostAlignedByteCount::new_rounded_up_u64(page, tunables.guard_size()) else {
            return None;
        };
        let before = guard_before(tunables, guard);
        let room = first_room(tunables, minimum as u64)?;
        match HostAlignedByteCount::new_rounded_up_u64(page, room) {
            Ok(capacity) => RegionLayout::new(before, capacity, guard),
            Err(_) => None,
        }
    }

    /// The region that the memory moves to for `size` bytes, of which it takes `extra` bytes beyond that.
    pub(crate) fn moved(&self, size: usize, extra: u64) -> Option<RegionLayout>
        ensures { SomeIff result (layout_len (moved_layout size extra self.now) < 2 ^ 64) (moved_layout size extra self.now) }
    {
        let page = self.capacity.page();
        let _size = page.get();
        let Ok(needed) = HostAlignedByteCount::new_rounded_up(page, size) else {
            return None;
        };
        let Ok(more) = HostAlignedByteCount::new_rounded_up_u64(page, extra) else {
            return None;
        };
        match needed.checked_add(more) {
            Ok(capacity) => RegionLayout::new(self.before, capacity, self.guard),
            Err(_) => None,
        }
    }

    pub(crate) fn before(&self) -> HostAlignedByteCount
        ensures { result ≡ count self.now.page self.now.before }
    {
        self.before
    }

    pub(crate) fn capacity(&self) -> HostAlignedByteCount
        ensures { result ≡ count self.now.page self.now.capacity }
    {
        self.capacity
    }

    /// The length of the whole region.
    pub(crate) fn len(&self) -> HostAlignedByteCount
        ensures value { result ≡ count self.now.page (layout_len self.now) }
        ensures bounded { layout_len self.now < 2 ^ 64 }
    {
        let front = self.before.unchecked_add(self.capacity);
        front.unchecked_add(self.guard)
    }
}

// The guard before a memory, where the settings want one.
fn guard_before(tunables: &MemoryTunables, guard: HostAlignedByteCount) -> HostAlignedByteCount
    ensures { result ≡ count guard.page (if tunables.now.tunables.guard_before_linear_memory then guard.bytes else 0) }
{
    if tunables.tunables().guard_before_linear_memory {
        guard
    } else {
        guard.page().zero()
    }
}

// How many bytes are set aside for a memory that begins with so many, where a `u64` can hold that.
fn first_room(tunables: &MemoryTunables, minimum: u64) -> Option<u64>
    ensures { SomeIff result (first_room tunables.now minimum < 2 ^ 64) (first_room tunables.now minimum) }
{
    let reserved = tunables.reservation();
    if minimum <= reserved {
        Some(reserved)
    } else {
        minimum.checked_add(tunables.reservation_for_growth())
    }
}
