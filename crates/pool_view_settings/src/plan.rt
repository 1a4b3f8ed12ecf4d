ghost use Rattle.std.specs.Prelude.{◌≡◌, ◌<◌, IfOk, IfSome};
ghost use Rattle.pool_types.specs.Count.{count, rounded_up};
ghost use Rattle.pool_types.specs.SettingsRules.{keys_used};
ghost use Rattle.pool_slots.specs.Slabs.{IsLayout, layout_of, settings_slab};
ghost use Rattle.pool_slots.specs.StripedPlans.{IsStripedPlanOf};
ghost use Rattle.pool_view_settings.specs.Plans.{plan_settings};

use pool_slots::{
    OfKinds, Plan, SlabConstraints, SlabLayout, StripedPlanSettings, calculate, make_striped_plan,
};
use pool_types::{
    Enabled, HostAlignedByteCount, Offered, PageSize, PoolingAllocationConfig, Tunables,
};
use std::alloc::{AllocError, Global};

/// The settings of a pool, with the pages and the shards that it has.
#[derive(Clone, Copy)]
pub struct Settings<'a> {
    /// In bytes.
    pub page: usize,
    /// Into how many shards each allocator of slots is split at most, and how many decommit queues there are.
    pub shards: u32,
    pub config: &'a PoolingAllocationConfig,
    pub tunables: &'a Tunables,
    pub offered: &'a Offered,
}

/// How many protection keys a pool of these settings uses.
fn keys_of(settings: &Settings<'_>) -> usize
    ensures { result ≡ keys_used settings.now.config.now settings.now.offered.now }
{
    let most = settings.config.max_memory_protection_keys;
    match settings.config.memory_protection_keys {
        Enabled::No => 0,
        Enabled::Auto | Enabled::Yes => most.min(settings.offered.keys as usize),
    }
}

/// The bytes of memory slots, of table slots and of stack slots, and of all, where each has so many pages.
#[derive(Clone, Copy, Debug, PartialEq, Eq)]
pub struct RegionBytes {
    pub memories: u64,
    pub tables: u64,
    pub stacks: u64,
}

/// So many bytes, rounded up to pages, or none where that isn't to be had.
fn rounded(page: PageSize, bytes: usize) -> Option<HostAlignedByteCount>
    ensures { IfSome result (λ n. n ≡ count page (rounded_up page bytes)) }
{
    match HostAlignedByteCount::new_rounded_up(page, bytes) {
        Ok(count) => Some(count),
        Err(_) => None,
    }
}

fn bytes_of_slots(page: PageSize, slots: u32, bytes: usize) -> Option<u64> {
    let region = rounded(page, bytes)?;
    (region.byte_count() as u64).checked_mul(slots as u64)
}

/// The bytes of all regions of a pool of these settings.
pub fn region_bytes(settings: &Settings<'_>, page: PageSize) -> Option<RegionBytes> {
    let limits = &settings.config.limits;
    let table = limits.table_elements.checked_mul(8)?;
    let stack = settings.config.stack_size.checked_add(page.get())?;
    Some(RegionBytes {
        memories: bytes_of_slots(page, limits.total_memories, limits.max_memory_size)?,
        tables: bytes_of_slots(page, limits.total_tables, table)?,
        stacks: bytes_of_slots(page, limits.total_stacks, stack)?,
    })
}

/// How the memory slots of a pool of these settings lie in a slab, unless that leaves the address space.
pub fn slab_of(settings: &Settings<'_>, page: PageSize) -> Option<SlabLayout>
    ensures layout { IfSome result (λ l. l ≡ layout_of (settings_slab settings.now.config.now settings.now.tunables.now page settings.now.offered.now)) }
    ensures sound { IfSome result IsLayout }
{
    let limits = &settings.config.limits;
    let reservation = usize::try_from(settings.tunables.memory_reservation).ok()?;
    let guard = usize::try_from(settings.tunables.memory_guard_size).ok()?;
    let constraints = SlabConstraints {
        expected_slot_bytes: rounded(page, reservation)?,
        max_memory_bytes: rounded(page, limits.max_memory_size)?,
        num_slots: limits.total_memories as usize,
        num_pkeys_available: keys_of(settings),
        guard_bytes: rounded(page, guard)?,
        guard_before_slots: settings.tunables.guard_before_linear_memory,
    };
    match calculate(&constraints) {
        Ok(layout) => Some(layout),
        Err(_) => None,
    }
}

/// The plan of a pool of these settings, whose memories lie in so many stripes.
pub fn plan_of(alloc: Global, settings: &Settings<'_>, stripes: u32) -> Result<Plan, AllocError>
    requires { 0 < stripes }
    ensures { IfOk result (IsStripedPlanOf (plan_settings settings.now stripes)) }
{
    let limits = &settings.config.limits;
    let plan = StripedPlanSettings {
        totals: OfKinds {
            memory: limits.total_memories,
            table: limits.total_tables,
            stack: limits.total_stacks,
            heap: limits.total_gc_heaps,
        },
        num_stripes: stripes,
        requested_shards: settings.shards,
        queues: settings.shards,
    };
    make_striped_plan(alloc, &plan)
}
