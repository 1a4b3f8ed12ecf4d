//! A pool is made, and the frames of its callers.
ghost use Rattle.std.specs.Prelude.{◌≡◌, ◌+◌, ◌^◌, ◌≤◌, ◌&&◌, false, None, IfOk, IfErr, IfSome, OnOk, MatchResult};
ghost use Rattle.pool_types.specs.Count.{count, rounded_up};
ghost use Rattle.pool_pages.specs.MakerTold.{MakerTold};
ghost use Rattle.pool_types.specs.SettingsRules.{first_broken_rule, may_use, slab_stripes, IsWithinRules};
ghost use Rattle.pool_slots.specs.Colourings.{RaisesUnlessGivenUp, RaisesBehindUnlessGivenUp};
ghost use Rattle.pool_slots.specs.Makings.{IsListedPoolFault};
ghost use Rattle.pool_alloc.specs.BetweenSteps.{queue_room, IsCore, IsFrame};
ghost use Rattle.pool_alloc.specs.Calls.{frame_made, frame_over, lists_made};
ghost use Rattle.pool_alloc.specs.Made.{settings_of, slots_of, part_settings, lists_making, fails_slots, GivesUpRegion, IsMadeCore, IsRefusedFor, CountsFault, NeedsFault, NeedsListed};
ghost use Rattle.pool_alloc.specs.PoolAndHolders.{IsUntouched};

use crate::frame::{Asked, Ending, Frame, FrameLists, Phase};
use crate::leases::instance::InstanceLease;
use crate::memory_pool::stripes::num_stripes;
use crate::parts::Parts;
use crate::pool_core::{Counters, PoolCore, Settings};
use crate::reserved::ReservedList;
use pool_pages::{PageMaker, Pages};
use pool_slots::{
    DecommitQueue, GcHeap, OfKinds, PartSettings, PoolNewError, StripedPlanSettings, make_parts,
    make_striped_plan,
};
use pool_types::{
    Enabled, HostAlignedByteCount, MemoryKind, MemoryTunables, Offered, PageSize,
    PoolingAllocationConfig, Tunables,
};
use std::alloc::{AllocError, Global};

impl<P: Pages, H: GcHeap> PoolCore<P, H> {
    /// Makes a pool with the regions of its memory slots, none of which is accessible, of its table slots, all of which are, and
    /// of its stack slots, of which the first page is hidden, of the behaviour that is offered. Where the pool uses two
    /// protection keys or more, memories lie in stripes, and each region is given the colour of its stripe.
    /// The page is the maker's. Tests the rules of the settings first, so that nothing is made where one is broken. As
    /// yet resets are plain, also where dirty pages are offered. No heap is made yet. All memory that its steps need is taken
    /// now, but for heaps, and for the lists of what a module or a heap is granted and of what a release takes.
    pub fn new<M: PageMaker<Region = P>>(
        alloc: Global,
        config: &PoolingAllocationConfig,
        tunables: &Tunables,
        page: PageSize,
        shards: u32,
        offered: &Offered,
        maker: &mut M,
    ) -> Result<Self, PoolNewError>
        requires page { page ≡ (M.told maker.old).page }
        ensures made { IfOk result (IsMadeCore (M.told maker.old) config.now tunables.now offered.now shards) }
        ensures core { IfOk result (IsCore (M.told maker.old)) }
        ensures untouched { IfOk result IsUntouched }
        ensures rules { OnOk result (first_broken_rule config.now tunables.now page shards offered.now ≡ None) }
        ensures refused { IfErr result (IsRefusedFor (first_broken_rule config.now tunables.now page shards offered.now)) }
        ensures maker { M.told maker.new ≡ record (M.told maker.old) { behind = (M.told maker.new).behind; faults = (M.told maker.new).faults } }
        ensures borrows { M.borrows maker.new ≡ M.borrows maker.old }
        ensures faults { MatchResult result (λ _. (M.told maker.new).faults ≡ (M.told maker.old).faults) (CountsFault (GivesUpRegion P.told config.now tunables.now offered.now shards (M.told maker.old)) (M.told maker.old).faults (M.told maker.new).faults) }
        ensures listed { IfOk result (λ _. lists_making config.now (M.told maker.old).listed ≡ false) }
        ensures behind { MatchResult result (λ _. (M.told maker.new).behind ≡ (M.told maker.old).behind) (NeedsFault (GivesUpRegion P.told config.now tunables.now offered.now shards (M.told maker.old)) (lists_making config.now (M.told maker.old).listed) (M.told maker.old).behind (M.told maker.new).behind) }
        ensures planned { MatchResult result (λ _. IfSome (M.told maker.old).plan (λ plan. fails_slots page config.now tunables.now offered.now shards plan ≡ false)) (λ e. IfSome (M.told maker.old).plan (λ plan. NeedsListed (fails_slots page config.now tunables.now offered.now shards plan) e)) }
    {
        if let Err(rule) = config.check_rules(tunables, page.get(), shards, offered) {
            return Err(PoolNewError::BadConfig(rule));
        }
        PoolCore::within_rules(alloc, config, tunables, page, shards, offered, maker)
    }

    // The same, where no rule is broken.
    fn within_rules<M: PageMaker<Region = P>>(
        alloc: Global,
        config: &PoolingAllocationConfig,
        tunables: &Tunables,
        page: PageSize,
        shards: u32,
        offered: &Offered,
        maker: &mut M,
    ) -> Result<Self, PoolNewError>
        requires page { page ≡ (M.told maker.old).page }
        requires rules { first_broken_rule config.now tunables.now page shards offered.now ≡ None }
        requires within { IsWithinRules config.now tunables.now page shards offered.now }
        ensures made { IfOk result (IsMadeCore (M.told maker.old) config.now tunables.now offered.now shards) }
        ensures core { IfOk result (IsCore (M.told maker.old)) }
        ensures untouched { IfOk result IsUntouched }
        ensures maker { M.told maker.new ≡ record (M.told maker.old) { behind = (M.told maker.new).behind; faults = (M.told maker.new).faults } }
        ensures borrows { M.borrows maker.new ≡ M.borrows maker.old }
        ensures faults { MatchResult result (λ _. (M.told maker.new).faults ≡ (M.told maker.old).faults) (RaisesUnlessGivenUp (GivesUpRegion P.told config.now tunables.now offered.now shards (M.told maker.old)) (M.told maker.old).faults (M.told maker.new).faults) }
        ensures listed { IfOk result (λ _. lists_making config.now (M.told maker.old).listed ≡ false) }
        ensures behind { MatchResult result (λ _. (M.told maker.new).behind ≡ (M.told maker.old).behind) (RaisesBehindUnlessGivenUp (GivesUpRegion P.told config.now tunables.now offered.now shards (M.told maker.old)) (lists_making config.now (M.told maker.old).listed) (M.told maker.old).behind (M.told maker.new).behind) }
        ensures planned { MatchResult result (λ _. IfSome (M.told maker.old).plan (λ plan. fails_slots page config.now tunables.now offered.now shards plan ≡ false)) (λ e. IfSome (M.told maker.old).plan (λ plan. IsListedPoolFault (fails_slots page config.now tunables.now offered.now shards plan) e)) }
    {
        let _bytes = page.get();
        let stripes = num_stripes(config, tunables, page, offered);
        let settings = settings_of(page, config, tunables, offered, stripes);
        let numbers = plan_settings(config, stripes, shards);
        let Ok(plan) = make_striped_plan(alloc, &numbers) else {
            return Err(PoolNewError::Memory);
        };
        let Ok(spare) = frame_lists(alloc, &settings) else {
            return Err(PoolNewError::Memory);
        };
        let parts = part_settings(page, config, offered);
        let list = match make_parts(alloc, maker, &plan, &numbers, &parts) {
            Ok(list) => list,
            Err(refusal) => return Err(refusal),
        };
        Ok(PoolCore {
            parts: Parts::new(list),
            counters: Counters {
                key: 0,
                core_instances: 0,
                component_instances: 0,
                memories: 0,
                tables: 0,
                stacks: 0,
                gc_heaps: 0,
            },
            settings,
            plan,
            spare: Some(spare),
        })
    }

    /// A party's frame, at home in the shard and the queue that its home's number gives, without a call.
    pub fn frame(&self, alloc: Global, home: u32) -> Result<Frame<P, H>, AllocError>
        requires { self.now.settings.batch ≤ 4096 }
        ensures made { IfOk result (λ f. f ≡ frame_made home self.now.settings) }
        ensures sound { IfOk result (λ f. (maker : MakerTold) → IsCore maker self.now → IsFrame maker self.now.settings self.now.plan f) }
    {
        let frame = Frame::new(alloc, &self.settings, home)?;
        Ok(frame)
    }
}

impl<P: Pages, H: GcHeap> Frame<P, H> {
    /// A caller's frame for pools with these settings, without a call. Its home's number, of any size, gives the caller's home shard and home
    /// queue. Its lists have room for the largest batch, so that no step takes memory for them.
    pub fn new(alloc: Global, settings: &Settings, home: u32) -> Result<Self, AllocError>
        requires few { settings.now.batch ≤ 4096 }
        ensures made { IfOk result (λ f. f ≡ frame_made home settings.now) }
    {
        let lists = frame_lists(alloc, settings)?;
        Ok(frame_over(alloc, home, lists))
    }
}

// The lists of a frame.
fn frame_lists<P: Pages>(alloc: Global, settings: &Settings) -> Result<FrameLists<P>, AllocError>
    requires { settings.now.batch ≤ 4096 }
    ensures { IfOk result (λ l. l ≡ lists_made settings.now) }
{
    let room = queue_room(settings.batch);
    let local = DecommitQueue::new(alloc, room, room)?;
    let freed = ReservedList::with_room(alloc, room)?;
    Ok(FrameLists { local, freed })
}

// A frame with these lists, without a call. Takes no memory.
pub(crate) fn frame_over<P: Pages, H: GcHeap>(
    alloc: Global,
    home: u32,
    lists: FrameLists<P>,
) -> Frame<P, H>
    ensures { result ≡ frame_over home lists }
{
    Frame {
        home,
        stripe: 0,
        asked: Asked::Nothing,
        ending: Ending::Returned,
        objects: InstanceLease::none(alloc),
        queues: 0,
        local: lists.local,
        freed: lists.freed,
        phase: Phase::Idle,
        step_count: 0,
    }
}

fn settings_of(
    page: PageSize,
    config: &PoolingAllocationConfig,
    tunables: &Tunables,
    offered: &Offered,
    num_stripes: u32,
) -> Settings
    requires stripes { num_stripes ≡ slab_stripes config.now tunables.now page offered.now }
    requires size { config.now.limits.max_memory_size + page ≤ 2 ^ 64 }
    requires kept { config.now.linear_memory_keep_resident ≤ 2 ^ 32 }
    requires elements { config.now.limits.table_elements ≤ 100000000 }
    requires table_kept { config.now.table_keep_resident ≤ 2 ^ 32 }
    requires instance { config.now.limits.core_instance_size ≤ 2 ^ 32 }
    requires stack { config.now.stack_size ≤ 2 ^ 32 }
    requires stack_kept { config.now.async_stack_keep_resident ≤ 2 ^ 32 }
    ensures { result ≡ settings_of page config.now tunables.now offered.now }
{
    let _bytes = page.get();
    let limits = &config.limits;
    let keep = config.linear_memory_keep_resident;
    Settings {
        page,
        behaviour: offered.behaviour,
        num_stripes,
        max_memory_size: HostAlignedByteCount::rounded_up_unchecked(
            page,
            limits.max_memory_size,
        ).byte_count(),
        keep_resident: HostAlignedByteCount::rounded_up_unchecked(page, keep),
        dirty_pages: uses_dirty_pages(config, offered),
        batch: config.decommit_batch_size,
        max_core_instances: limits.total_core_instances as u64,
        max_component_instances: limits.total_component_instances as u64,
        core_instance_size: rounded_to_16(limits.core_instance_size),
        component_instance_size: limits.component_instance_size,
        max_core_instances_per_component: limits.max_core_instances_per_component,
        max_memories_per_component: limits.max_memories_per_component,
        max_tables_per_component: limits.max_tables_per_component,
        max_memories_per_module: limits.max_memories_per_module,
        max_tables_per_module: limits.max_tables_per_module,
        table_elements: limits.table_elements,
        table_slot: HostAlignedByteCount::rounded_up_unchecked(
            page,
            8 * limits.table_elements,
        ).byte_count(),
        table_keep_resident: HostAlignedByteCount::rounded_up_unchecked(
            page,
            config.table_keep_resident,
        ),
        stack_size: HostAlignedByteCount::rounded_up_unchecked(
            page,
            config.stack_size,
        ).byte_count(),
        stack_zeroing: config.async_stack_zeroing,
        stack_keep_resident: HostAlignedByteCount::rounded_up_unchecked(
            page,
            config.async_stack_keep_resident,
        ),
        tunables: MemoryTunables::new(tunables, MemoryKind::LinearMemory),
    }
}

// Whether resets go by the dirty marks of pages: where the system offers them, unless they are refused.
fn uses_dirty_pages(config: &PoolingAllocationConfig, offered: &Offered) -> bool
    ensures { result ≡ may_use config.now.pagemap_scan && offered.now.dirty_pages }
{
    match config.pagemap_scan {
        Enabled::No => false,
        Enabled::Auto | Enabled::Yes => offered.dirty_pages,
    }
}

// The next multiple of 16 at or above so many bytes.
fn rounded_to_16(bytes: usize) -> usize
    requires { bytes ≤ 2 ^ 32 }
    ensures { result ≡ rounded_up 16 bytes }
{
    bytes.div_ceil(16) * 16
}

// How many slots of each kind there are, shards and queues.
fn plan_settings(
    config: &PoolingAllocationConfig,
    num_stripes: u32,
    shards: u32,
) -> StripedPlanSettings
    ensures { result ≡ record { totals = slots_of config.now; num_stripes = num_stripes; requested_shards = shards; queues = shards } }
{
    StripedPlanSettings {
        totals: OfKinds {
            memory: config.limits.total_memories,
            table: config.limits.total_tables,
            stack: config.limits.total_stacks,
            heap: config.limits.total_gc_heaps,
        },
        num_stripes,
        requested_shards: shards,
        queues: shards,
    }
}

fn part_settings(
    page: PageSize,
    config: &PoolingAllocationConfig,
    offered: &Offered,
) -> PartSettings
    requires size { config.now.limits.max_memory_size + page ≤ 2 ^ 64 }
    requires elements { config.now.limits.table_elements ≤ 100000000 }
    requires stack { config.now.stack_size ≤ 2 ^ 32 }
    requires batch { config.now.decommit_batch_size ≤ 4096 }
    ensures { result ≡ part_settings page config.now offered.now }
{
    let _bytes = page.get();
    let size = config.limits.max_memory_size;
    let elements = config.limits.table_elements;
    PartSettings {
        behaviour: offered.behaviour,
        memory_len: HostAlignedByteCount::rounded_up_unchecked(page, size),
        table_len: HostAlignedByteCount::rounded_up_unchecked(page, 8 * elements),
        stack_len: stack_len(page, config.stack_size),
        max_unused_warm_slots: config.max_unused_warm_slots,
        queue_room: queue_room(config.decommit_batch_size),
    }
}

// How many ranges a queue has room for, and how many slots: those of a shared queue and of the slot that is merged into
// it, each fewer than a batch, and whatever the batch the eight ranges that one reset may leave.
fn queue_room(batch: usize) -> usize
    requires { batch ≤ 4096 }
    ensures { result ≡ queue_room batch }
{
    2 * batch + 6
}

// The length of a stack's region: its guard page and its usable bytes.
fn stack_len(page: PageSize, stack_size: usize) -> HostAlignedByteCount
    requires { stack_size ≤ 2 ^ 32 }
    ensures { result ≡ count page (page + rounded_up page stack_size) }
{
    let size = HostAlignedByteCount::rounded_up_unchecked(page, stack_size).byte_count();
    HostAlignedByteCount::new_unchecked(page, page.get() + size)
}
