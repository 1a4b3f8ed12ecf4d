ghost use Rattle.std.specs.Prelude.{◌≡◌, ◌+◌, ◌<◌, ◌≤◌, ◌^◌, true, None, IfErr, IfOk, OnOk};
ghost use Rattle.pool_types.specs.ConfigLimits.{first_too_great, is_batch_size};
ghost use Rattle.pool_types.specs.Count.{rounded_up};
ghost use Rattle.pool_types.specs.SettingsRules.{IsWithinRules, broken_pair, dirty_pages_suffice, faulting_bytes, first_broken_rule, first_broken_total, first_unequal, is_required, is_shard_count, keys_suffice, keys_used, may_stripe, region_bytes, rounds_up, slab_bytes, slab_fits, slab_guard, slab_slot, slab_stripes, stack_bytes, stacks_fit, table_bytes, tables_fit};

use crate::bad_config::{BadConfig, PairedTunable};
use crate::byte_count::PageSize;
use crate::config::{Enabled, PoolingAllocationConfig};
use crate::greatest_values::first_too_great;
use crate::module_types::Tunables;
use crate::offered::Offered;

// Whether a batch of the decommit queue may have this many ranges.
fn is_batch_size(size: usize) -> bool
    ensures { result ≡ is_batch_size size }
{
    1 <= size && size <= 4096
}

fn is_shard_count(shards: u32) -> bool
    ensures { result ≡ is_shard_count shards }
{
    1 <= shards && shards <= 16
}

fn is_required(feature: Enabled) -> bool
    ensures { result ≡ is_required feature }
{
    feature == Enabled::Yes
}

fn keys_suffice(config: &PoolingAllocationConfig, offered: &Offered) -> bool
    ensures { result ≡ keys_suffice config.now offered.now }
{
    !(is_required(config.memory_protection_keys) && offered.keys == 0)
}

fn dirty_pages_suffice(config: &PoolingAllocationConfig, offered: &Offered) -> bool
    ensures { result ≡ dirty_pages_suffice config.now offered.now }
{
    !is_required(config.pagemap_scan) || offered.dirty_pages
}

// How many protection keys the pool uses.
fn keys_used(config: &PoolingAllocationConfig, offered: &Offered) -> usize
    ensures { result ≡ keys_used config.now offered.now }
{
    if config.memory_protection_keys == Enabled::No {
        0
    } else {
        (offered.keys as usize).min(config.max_memory_protection_keys)
    }
}

// Whether the number can be rounded up to pages within the address space.
fn rounds_up(page: PageSize, bytes: u128) -> bool
    requires { bytes < 2 ^ 127 }
    ensures { result ≡ rounds_up page bytes }
{
    bytes + (page.get() as u128 - 1) < 1 << 64
}

// The number rounded up to pages.
fn rounded_up(page: PageSize, bytes: u128) -> u128
    requires { bytes < 2 ^ 127 }
    ensures value { result ≡ rounded_up page bytes }
    ensures near { result < bytes + page }
{
    let size = page.get() as u128;
    (bytes + (size - 1)) / size * size
}

// What a fault of the memory before may reach.
fn faulting_bytes(config: &PoolingAllocationConfig, tunables: &Tunables, page: PageSize) -> u128
    ensures value { result ≡ faulting_bytes config.now tunables.now page }
    ensures range { result < 2 ^ 66 }
{
    let reserved = rounded_up(page, tunables.memory_reservation as u128);
    let greatest = rounded_up(page, config.limits.max_memory_size as u128);
    reserved.max(greatest) + rounded_up(page, tunables.memory_guard_size as u128)
}

// Whether the slab can be striped.
fn may_stripe(config: &PoolingAllocationConfig, tunables: &Tunables, offered: &Offered) -> bool
    ensures { result ≡ may_stripe config.now tunables.now offered.now }
{
    tunables.memory_guard_size > 0
        && config.limits.max_memory_size > 0
        && config.limits.total_memories > 0
        && keys_used(config, offered) >= 2
}

// How many stripes the slab has.
fn slab_stripes(
    config: &PoolingAllocationConfig,
    tunables: &Tunables,
    page: PageSize,
    offered: &Offered,
) -> u128
    ensures value { result ≡ slab_stripes config.now tunables.now page offered.now }
    ensures some { 0 < result }
{
    if !may_stripe(config, tunables, offered) {
        return 1;
    }
    let greatest = rounded_up(page, config.limits.max_memory_size as u128);
    let room = faulting_bytes(config, tunables, page).div_ceil(greatest);
    let slots = config.limits.total_memories as u128;
    (keys_used(config, offered) as u128).min(room.min(slots))
}

// What a slot takes of the slab.
fn slab_slot(
    config: &PoolingAllocationConfig,
    tunables: &Tunables,
    page: PageSize,
    offered: &Offered,
) -> u128
    ensures value { result ≡ slab_slot config.now tunables.now page offered.now }
    ensures range { result < 2 ^ 67 }
{
    let stripes = slab_stripes(config, tunables, page, offered);
    let share = faulting_bytes(config, tunables, page).div_ceil(stripes);
    let greatest = rounded_up(page, config.limits.max_memory_size as u128);
    rounded_up(page, share.max(greatest))
}

// The guard before the slab, where there is one.
fn slab_guard(tunables: &Tunables, page: PageSize) -> u128
    ensures value { result ≡ slab_guard tunables.now page }
    ensures range { result < 2 ^ 65 }
{
    if tunables.guard_before_linear_memory {
        rounded_up(page, tunables.memory_guard_size as u128)
    } else {
        0
    }
}

// The whole slab.
fn slab_bytes(
    config: &PoolingAllocationConfig,
    tunables: &Tunables,
    page: PageSize,
    offered: &Offered,
) -> u128
    ensures { result ≡ slab_bytes config.now tunables.now page offered.now }
{
    let slot = slab_slot(config, tunables, page, offered);
    let slots = config.limits.total_memories as u128 * slot;
    let rest = faulting_bytes(config, tunables, page).saturating_sub(slot);
    slab_guard(tunables, page) + slots + rest
}

// Whether no sum, product or rounding of the memories' slab leaves the address space.
fn slab_fits(
    config: &PoolingAllocationConfig,
    tunables: &Tunables,
    page: PageSize,
    offered: &Offered,
) -> bool
    ensures { result ≡ slab_fits config.now tunables.now page offered.now }
{
    rounds_up(page, tunables.memory_reservation as u128)
        && rounds_up(page, config.limits.max_memory_size as u128)
        && rounds_up(page, tunables.memory_guard_size as u128)
        && faulting_bytes(config, tunables, page) < 1 << 64
        && slab_bytes(config, tunables, page, offered) < 1 << 64
}

// The region of a table.
fn table_bytes(config: &PoolingAllocationConfig, page: PageSize) -> u128
    ensures value { result ≡ table_bytes config.now page }
    ensures range { result < 2 ^ 68 }
{
    rounded_up(page, 8 * config.limits.table_elements as u128)
}

// The same as `slab_fits` of the tables.
fn tables_fit(config: &PoolingAllocationConfig, page: PageSize) -> bool
    ensures { result ≡ tables_fit config.now page }
{
    let elements = 8 * config.limits.table_elements as u128;
    elements < 1 << 64
        && rounds_up(page, elements)
        && config.limits.total_tables as u128 * table_bytes(config, page) < 1 << 64
}

// The region of a stack, with its guard page.
fn stack_bytes(config: &PoolingAllocationConfig, page: PageSize) -> u128
    ensures value { result ≡ stack_bytes config.now page }
    ensures range { result < 2 ^ 65 }
{
    page.get() as u128 + rounded_up(page, config.stack_size as u128)
}

// The same of the stacks.
fn stacks_fit(config: &PoolingAllocationConfig, page: PageSize) -> bool
    ensures { result ≡ stacks_fit config.now page }
{
    rounds_up(page, config.stack_size as u128)
        && stack_bytes(config, page) < 1 << 64
        && config.limits.total_stacks as u128 * stack_bytes(config, page) < 1 << 64
}

// All regions of the pool, in bytes.
fn region_bytes(config: &PoolingAllocationConfig, page: PageSize) -> u128
    ensures { result ≡ region_bytes config.now page }
{
    let limits = &config.limits;
    let memories = limits.total_memories as u128 * rounded_up(page, limits.max_memory_size as u128);
    let tables = limits.total_tables as u128 * table_bytes(config, page);
    memories + (tables + limits.total_stacks as u128 * stack_bytes(config, page))
}

// The first setting in which memories and heaps differ.
fn first_unequal(tunables: &Tunables) -> Option<BadConfig>
    ensures { result ≡ first_unequal tunables.now }
{
    let tunable = if tunables.memory_reservation != tunables.gc_heap_reservation {
        PairedTunable::Reservation
    } else if tunables.memory_guard_size != tunables.gc_heap_guard_size {
        PairedTunable::GuardSize
    } else if tunables.memory_reservation_for_growth != tunables.gc_heap_reservation_for_growth {
        PairedTunable::ReservationForGrowth
    } else if tunables.memory_may_move != tunables.gc_heap_may_move {
        PairedTunable::MayMove
    } else {
        return None;
    };
    Some(BadConfig::CollectorPair { tunable })
}

// The same, where a collector is set.
fn broken_pair(tunables: &Tunables) -> Option<BadConfig>
    ensures { result ≡ broken_pair tunables.now }
{
    if tunables.collector {
        first_unequal(tunables)
    } else {
        None
    }
}

// The first broken rule of those on what the whole pool takes and is offered.
fn first_broken_total(
    config: &PoolingAllocationConfig,
    tunables: &Tunables,
    page: PageSize,
    offered: &Offered,
) -> Option<BadConfig>
    ensures { result ≡ first_broken_total config.now tunables.now page offered.now }
{
    if !slab_fits(config, tunables, page, offered) {
        return Some(BadConfig::SlabArithmetic);
    }
    if !tables_fit(config, page) {
        return Some(BadConfig::TableArithmetic);
    }
    if let Some(error) = broken_pair(tunables) {
        return Some(error);
    }
    if !stacks_fit(config, page) {
        return Some(BadConfig::StackArithmetic);
    }
    if !dirty_pages_suffice(config, offered) {
        return Some(BadConfig::DirtyPagesNotOffered);
    }
    let bytes = region_bytes(config, page);
    if bytes >= 1 << 32 {
        return Some(BadConfig::Regions { bytes });
    }
    None
}

// The first broken rule of those that follow the page's.
fn first_broken_of_page(
    config: &PoolingAllocationConfig,
    tunables: &Tunables,
    page: PageSize,
    shards: u32,
    offered: &Offered,
) -> Option<BadConfig>
    ensures { result ≡ first_broken_rule config.now tunables.now page shards offered.now }
{
    if !is_shard_count(shards) {
        return Some(BadConfig::Shards { count: shards });
    }
    let size = config.decommit_batch_size;
    if !is_batch_size(size) {
        return Some(BadConfig::DecommitBatch { size });
    }
    if let Some(error) = first_too_great(config, offered) {
        return Some(error);
    }
    let max = config.limits.max_memory_size;
    let reservation = tunables.memory_reservation;
    if max as u64 > reservation {
        return Some(BadConfig::Reservation { max, reservation });
    }
    if !keys_suffice(config, offered) {
        return Some(BadConfig::KeysNotOffered);
    }
    first_broken_total(config, tunables, page, offered)
}

impl PoolingAllocationConfig {
    /// Tests the rules that these settings have beside those of the engine, a page size in bytes, a number of shards, and
    /// what the system offers, one after another. The error is the first that is broken, and otherwise the answer is the
    /// page size.
    pub fn check_rules(
        &self,
        tunables: &Tunables,
        page: usize,
        shards: u32,
        offered: &Offered,
    ) -> Result<PageSize, BadConfig>
        ensures ok { OnOk result (first_broken_rule self.now tunables.now page shards offered.now ≡ None) }
        ensures err { IfErr result (λ e. first_broken_rule self.now tunables.now page shards offered.now ≡ Some e) }
        ensures page { IfOk result (λ size. size ≡ page) }
        ensures within { OnOk result (IsWithinRules self.now tunables.now page shards offered.now) }
    {
        let Ok(size) = PageSize::new(page) else {
            return Err(BadConfig::PageSize { size: page });
        };
        match first_broken_of_page(self, tunables, size, shards, offered) {
            Some(error) => Err(error),
            None => Ok(size),
        }
    }
}
