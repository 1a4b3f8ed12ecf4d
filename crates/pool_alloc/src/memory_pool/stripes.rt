//! How the memory slots of a pool lie in one slab, and in how many stripes.
ghost use Rattle.std.specs.Prelude.{◌≡◌, ◌<◌, ◌≤◌, true};
ghost use Rattle.pool_types.specs.SettingsRules.{keys_used, slab_fits, slab_stripes};
ghost use Rattle.pool_slots.specs.Slabs.{IsLayout, SlotsLieApart, layout_of, settings_slab};

use pool_slots::{SlabConstraints, SlabLayout, calculate};
use pool_types::{
    Enabled, HostAlignedByteCount, Offered, PageSize, PoolingAllocationConfig, Tunables,
};

// How many stripes the layout of the slots has, one where the pool uses no protection keys.
pub(crate) fn num_stripes(
    config: &PoolingAllocationConfig,
    tunables: &Tunables,
    page: PageSize,
    offered: &Offered,
) -> u32
    requires slab { slab_fits config.now tunables.now page offered.now ≡ true }
    requires keys { offered.now.keys ≤ 15 }
    ensures value { result ≡ slab_stripes config.now tunables.now page offered.now }
    ensures some { 0 < result }
    ensures few { result < 256 }
{
    let _bytes = page.get();
    slab_layout(config, tunables, page, offered).num_stripes as u32
}

/// The layout in one slab that these settings ask for, which keep the rule on the slab. `calculate` reckons it.
pub fn slab_layout(
    config: &PoolingAllocationConfig,
    tunables: &Tunables,
    page: PageSize,
    offered: &Offered,
) -> SlabLayout
    requires { slab_fits config.now tunables.now page offered.now ≡ true }
    ensures value { result ≡ layout_of (settings_slab config.now tunables.now page offered.now) }
    ensures sound { IsLayout result }
    ensures apart { SlotsLieApart (settings_slab config.now tunables.now page offered.now) result }
{
    let _bytes = page.get();
    let constraints = slab_constraints(config, tunables, page, offered);
    match calculate(&constraints) {
        Ok(layout) => layout,
        Err(_) => unreachable!(),
    }
}

// What the settings ask of the slab.
fn slab_constraints(
    config: &PoolingAllocationConfig,
    tunables: &Tunables,
    page: PageSize,
    offered: &Offered,
) -> SlabConstraints
    requires { slab_fits config.now tunables.now page offered.now ≡ true }
    ensures { result ≡ settings_slab config.now tunables.now page offered.now }
{
    let _bytes = page.get();
    let reserved = tunables.memory_reservation as usize;
    let greatest = config.limits.max_memory_size;
    let guard = tunables.memory_guard_size as usize;
    SlabConstraints {
        expected_slot_bytes: HostAlignedByteCount::rounded_up_unchecked(page, reserved),
        max_memory_bytes: HostAlignedByteCount::rounded_up_unchecked(page, greatest),
        num_slots: config.limits.total_memories as usize,
        num_pkeys_available: keys_used(config, offered),
        guard_bytes: HostAlignedByteCount::rounded_up_unchecked(page, guard),
        guard_before_slots: tunables.guard_before_linear_memory,
    }
}

// How many protection keys the pool uses.
fn keys_used(config: &PoolingAllocationConfig, offered: &Offered) -> usize
    ensures { result ≡ keys_used config.now offered.now }
{
    match config.memory_protection_keys {
        Enabled::No => 0,
        Enabled::Auto | Enabled::Yes => config
            .max_memory_protection_keys
            .min(offered.keys as usize),
    }
}
