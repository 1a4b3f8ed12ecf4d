ghost use Rattle.std.specs.Prelude.{◌≡◌, ◌+◌, ◌*◌, ◌%◌, ◌<◌, ◌≤◌, max, is_ok, is_some, IfSome, IfOk, IfErr};
ghost use Rattle.pool_types.specs.Count.{count, IsPageSize, rounded_up};
ghost use Rattle.pool_types.specs.SettingsRules.{is_address};
ghost use Rattle.pool_types.specs.declared.bad_config.BadConfig.TheVariants.{SlabArithmetic};
ghost use Rattle.pool_slots.specs.Slabs.{HasOnePage, IsLayout, SlotsLieApart, SettingsSpeakOfLayouts, faulting_region, guard_before, has_room, is_striped, layout_of, slot_offset, slot_size, stripe_count, stripe_distance, total_bytes};

use pool_types::{BadConfig, HostAlignedByteCount};

/// What the memory slots of a pool are laid out by: Wasmtime's `SlabConstraints`. All sizes are counted in one page.
#[derive(Clone, Copy, Debug, PartialEq, Eq)]
pub struct SlabConstraints {
    /// What is reserved for a memory.
    pub expected_slot_bytes: HostAlignedByteCount,
    /// The greatest memory.
    pub max_memory_bytes: HostAlignedByteCount,
    pub num_slots: usize,
    /// How many protection keys there are. With fewer than two there are no stripes.
    pub num_pkeys_available: usize,
    /// What has to lie behind each memory so that it can't be reached.
    pub guard_bytes: HostAlignedByteCount,
    /// Whether a guard lies before the first slot too.
    pub guard_before_slots: bool,
}

/// Where the memory slots of a pool lie: Wasmtime's `SlabLayout`. Slot `i` is of stripe `i % num_stripes`, and only memories
/// of one stripe, which have its protection key, have to be a faulting region apart.
#[derive(Clone, Copy, Debug, PartialEq, Eq)]
pub struct SlabLayout {
    pub num_slots: usize,
    /// From one slot to the next, whatever its stripe.
    pub slot_bytes: HostAlignedByteCount,
    pub max_memory_bytes: HostAlignedByteCount,
    pub pre_slab_guard_bytes: HostAlignedByteCount,
    pub post_slab_guard_bytes: HostAlignedByteCount,
    pub num_stripes: usize,
}

/// The layout for these constraints. Refuses exactly where a sum or a product of it leaves the address space.
pub fn calculate(constraints: &SlabConstraints) -> Result<SlabLayout, BadConfig>
    requires { HasOnePage constraints.now }
    ensures answer { is_ok result ≡ has_room constraints.now }
    ensures layout { IfOk result (λ l. l ≡ layout_of constraints.now) }
    ensures error { IfErr result (λ e. e ≡ SlabArithmetic) }
    ensures sound { IfOk result IsLayout }
    ensures apart { IfOk result (SlotsLieApart constraints.now) }
{
    let Some(faulting) = faulting_region(constraints) else {
        return Err(BadConfig::SlabArithmetic);
    };
    let layout = lay_out(constraints, faulting);
    match whole_slab(&layout) {
        Some(_) => Ok(layout),
        None => Err(BadConfig::SlabArithmetic),
    }
}

impl SlabLayout {
    /// The guard before the slots, the slots, and the guard behind them.
    pub fn total_slab_bytes(&self) -> HostAlignedByteCount
        requires { IsLayout self.now }
        ensures { result ≡ count self.now.slot_bytes.page (total_bytes self.now) }
    {
        let slots = self.slot_bytes.unchecked_mul(self.num_slots);
        let guarded = self.pre_slab_guard_bytes.unchecked_add(slots);
        guarded.unchecked_add(self.post_slab_guard_bytes)
    }

    /// From a slot to the next of its stripe.
    pub fn bytes_to_next_stripe_slot(&self) -> HostAlignedByteCount
        requires { IsLayout self.now }
        ensures { result ≡ count self.now.slot_bytes.page (stripe_distance self.now) }
    {
        self.slot_bytes.unchecked_mul(self.num_stripes)
    }

    /// Where a slot begins in the slab.
    pub fn offset_of(&self, slot: usize) -> HostAlignedByteCount
        requires layout { IsLayout self.now }
        requires inside { slot < self.now.num_slots }
        ensures { result ≡ count self.now.slot_bytes.page (slot_offset self.now slot) }
    {
        let before = self.slot_bytes.unchecked_mul(slot);
        self.pre_slab_guard_bytes.unchecked_add(before)
    }
}

fn larger(a: HostAlignedByteCount, b: HostAlignedByteCount) -> HostAlignedByteCount
    requires { a.page ≡ b.page }
    ensures { result ≡ count a.page (max a.bytes b.bytes) }
{
    if a.byte_count() < b.byte_count() {
        b
    } else {
        a
    }
}

// What a fault of the memory before may reach, unless it leaves the address space.
fn faulting_region(constraints: &SlabConstraints) -> Option<HostAlignedByteCount>
    requires { HasOnePage constraints.now }
    ensures answer { is_some result ≡ is_address (faulting_region constraints.now) }
    ensures value { IfSome result (λ n. n ≡ count constraints.now.guard_bytes.page (faulting_region constraints.now)) }
{
    let reserved = larger(
        constraints.expected_slot_bytes,
        constraints.max_memory_bytes,
    );
    match reserved.checked_add(constraints.guard_bytes) {
        Ok(region) => Some(region),
        Err(_) => None,
    }
}

// The layout, of which this is the faulting region.
fn lay_out(constraints: &SlabConstraints, faulting: HostAlignedByteCount) -> SlabLayout
    requires page { HasOnePage constraints.now }
    requires faulting { faulting ≡ count constraints.now.guard_bytes.page (faulting_region constraints.now) }
    ensures layout { result ≡ layout_of constraints.now }
    ensures page { IsPageSize constraints.now.guard_bytes.page }
    ensures whole { faulting_region constraints.now % constraints.now.guard_bytes.page ≡ 0 }
{
    let _bytes = faulting.byte_count();
    let stripes = stripe_count(constraints, faulting);
    let slot = slot_size(constraints, faulting, stripes);
    SlabLayout {
        num_slots: constraints.num_slots,
        slot_bytes: slot,
        max_memory_bytes: constraints.max_memory_bytes,
        pre_slab_guard_bytes: guard_before(constraints),
        post_slab_guard_bytes: faulting.saturating_sub(slot),
        num_stripes: stripes,
    }
}

// Whether the slots can lie in stripes.
fn is_striped(constraints: &SlabConstraints) -> bool
    ensures { result ≡ is_striped constraints.now }
{
    constraints.guard_bytes.byte_count() > 0
        && constraints.max_memory_bytes.byte_count() > 0
        && constraints.num_slots > 0
        && constraints.num_pkeys_available >= 2
}

fn stripe_count(constraints: &SlabConstraints, faulting: HostAlignedByteCount) -> usize
    requires { faulting.bytes ≡ faulting_region constraints.now }
    ensures value { result ≡ stripe_count constraints.now }
    ensures some { 0 < result }
{
    if !is_striped(constraints) {
        return 1;
    }
    let greatest = constraints.max_memory_bytes.byte_count();
    let room = faulting.byte_count().div_ceil(greatest);
    constraints
        .num_pkeys_available
        .min(room.min(constraints.num_slots))
}

// What a slot takes of the slab.
fn slot_size(
    constraints: &SlabConstraints,
    faulting: HostAlignedByteCount,
    stripes: usize,
) -> HostAlignedByteCount
    requires faulting { faulting ≡ count constraints.now.guard_bytes.page (faulting_region constraints.now) }
    requires stripes { stripes ≡ stripe_count constraints.now }
    requires some { 0 < stripes }
    ensures { result ≡ count constraints.now.guard_bytes.page (slot_size constraints.now) }
{
    if !is_striped(constraints) {
        return faulting;
    }
    let share = faulting.byte_count().div_ceil(stripes);
    round_within(
        faulting,
        share.max(constraints.max_memory_bytes.byte_count()),
    )
}

// The number rounded up to pages, which stays at or below this count.
fn round_within(bound: HostAlignedByteCount, bytes: usize) -> HostAlignedByteCount
    requires { bytes ≤ bound.bytes }
    ensures { result ≡ count bound.page (rounded_up bound.page bytes) }
{
    let page = bound.page();
    let _bound = bound.byte_count();
    let pages = bytes.div_ceil(page.get());
    HostAlignedByteCount::new_unchecked(page, pages * page.get())
}

fn guard_before(constraints: &SlabConstraints) -> HostAlignedByteCount
    ensures { result ≡ count constraints.now.guard_bytes.page (guard_before constraints.now) }
{
    if constraints.guard_before_slots {
        constraints.guard_bytes
    } else {
        constraints.guard_bytes.page().zero()
    }
}

// The whole slab, unless it leaves the address space.
fn whole_slab(layout: &SlabLayout) -> Option<HostAlignedByteCount>
    requires before { layout.now.pre_slab_guard_bytes.page ≡ layout.now.slot_bytes.page }
    requires behind { layout.now.post_slab_guard_bytes.page ≡ layout.now.slot_bytes.page }
    ensures { is_some result ≡ is_address (total_bytes layout.now) }
{
    let Ok(slots) = layout.slot_bytes.checked_mul(layout.num_slots) else {
        return None;
    };
    let Ok(guarded) = layout.pre_slab_guard_bytes.checked_add(slots) else {
        return None;
    };
    match guarded.checked_add(layout.post_slab_guard_bytes) {
        Ok(whole) => Some(whole),
        Err(_) => None,
    }
}

/// What the rules on a pool's settings say of its slab is what the layout for these settings has. Costs nothing: the law is
/// a fact about both definitions.
pub fn settings_speak_of_layouts()
    ensures { SettingsSpeakOfLayouts }
{}
