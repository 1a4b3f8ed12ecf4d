//! The pool of tables: what an allocator does for tables alone.
ghost use Rattle.std.specs.Prelude.{◌≡◌, ◌*◌, ◌≤◌, ◌%◌, ◌^◌, ◌==◌, [], map, None, All, IfOk, IfErr};
ghost use Rattle.pool_types.specs.Count.{rounded_up};
ghost use Rattle.pool_types.specs.MemoryTypes.{refused_limits};
ghost use Rattle.pool_hall.specs.Seat.{view};
ghost use Rattle.pool_hall.specs.Tally.{all_portions};
ghost use Rattle.pool_hall.specs.declared.unit_name.SlotKind.TheVariants as kind;
ghost use Rattle.pool_images.specs.ResetLaws.{bytes_of};
ghost use Rattle.pool_images.specs.Slots.{IsClean, IsPart, decommitted_all, size_of};
ghost use Rattle.pool_table.specs.Elements.{element_size};
ghost use Rattle.pool_slots.specs.PlainSlots.{IsUnusedFrom, used_after, used_kept, used_left, used_marks, used_reset};
ghost use Rattle.pool_slots.specs.TableSizes.{data_size};
ghost use Rattle.pool_alloc.specs.Places.{counted_object};
ghost use Rattle.pool_alloc.specs.Refusals.{table_types_refused};
ghost use Rattle.pool_alloc.specs.declared.frame.Asked.TheVariants as asked;
ghost use Rattle.pool_alloc.specs.declared.frame.Call.TheVariants as call;
ghost use Rattle.pool_alloc.specs.declared.frame.Grant.TheVariants as grant;
ghost use Rattle.pool_driver.specs.Asking.{CallAsks, HasAsked};
ghost use Rattle.pool_driver.specs.Looking.{HasLooked, slots_of_kind};
ghost use Rattle.pool_driver.specs.Refusing.{FailsTable};
ghost use Rattle.pool_callers.specs.Callers.{Gives, IsAllocator, IsCaller, IsGivenBack, IsGranted, IsKept, IsRefused, about_pool, left_counted, outcome_of};
ghost use Rattle.pool_callers.specs.GivingMany.{AreGivenBack, GivesAll};
ghost use Rattle.pool_callers.specs.NoHeapsTold.{nobody_told};
ghost use Rattle.pool_callers.specs.Rules.{unless_broken};
ghost use Rattle.pool_callers.specs.WarmTold.{AreResident, AreWarm};

use crate::allocator::PoolingInstanceAllocator;
use crate::metrics::PoolingAllocatorMetrics;
use crate::rules::unless_broken;
use crate::seat::CallerSeat;
use pool_alloc::{TableLease, table_types_refused};
use pool_driver::{PoolHall, PoolSeat};
use pool_images::Ranges;
use pool_index::ShardId;
use pool_limits::ResourceLimiter;
use pool_pages::{PageMaker, Pages};
use pool_slots::{AllocError, GcHeap, PlainSlot, data_size};
use pool_table::ElementSize;
use pool_types::{HostAlignedByteCount, ModuleInfo, TableElementType, TableType, Unsupported};
use std::alloc::Global;
use std::sync::Wait;

/// The tables of an allocator (Wasmtime's `table_pool.rs`). It borrows the allocator, and has no state of its own: what it grants and takes
/// back is the allocator's, and may be given back by either.
#[derive(Drop)]
pub struct TablePool<'a, P: Pages, H: GcHeap, M: PageMaker> {
    allocator: &'a PoolingInstanceAllocator<PoolHall<P, H, M>, P, H>,
}

impl<'a, P: Pages, H: GcHeap, M: PageMaker> TablePool<'a, P, H, M> {
    pub fn new(allocator: &'a PoolingInstanceAllocator<PoolHall<P, H, M>, P, H>) -> Self
        ensures { result.allocator.now ≡ allocator.now }
    {
        TablePool { allocator }
    }

    /// How many bytes of its slot a table of such elements has: for as many as a table may have, or as the slot holds if these are fewer.
    pub fn data_size(&self, element: TableElementType) -> usize
        ensures { result ≡ data_size self.now.allocator.now.pool.settings.table_elements self.now.allocator.now.pool.settings.table_slot element }
    {
        let settings = &self.allocator.pool.settings;
        data_size(settings.table_elements, settings.table_slot, element)
    }

    /// Tests the tables of a module: first whether each minimum is within its maximum, then how many there are, for a module and for the pool,
    /// and whether each has as few elements as a table may have. Tells the first rule that is broken.
    pub fn validate(&self, module: &ModuleInfo) -> Result<(), Unsupported>
        ensures { result ≡ unless_broken (table_types_refused self.now.allocator.now.pool.settings self.now.allocator.now.pool.plan.totals.table module.now.tables) }
    {
        unless_broken(table_types_refused(
            &self.allocator.pool.settings,
            self.allocator.pool.plan.totals.table,
            module.tables.as_slice(),
        ))
    }

    /// Resets the region of a table that had so many elements, whole from its first byte on. Of the pages on which these lay it zeroes some by
    /// hand, as many bytes as stay resident of a table, and leaves the others in `ranges`, to be decommitted; only dirty pages where dirty
    /// marks are used and the table had more than one page. Answers how many bytes were zeroed. `ranges` must be empty. A table that is given
    /// back is reset so by the allocator; one whose region was taken out for this can't be given back any more, and its slot stays used.
    pub fn reset_table_pages_to_zero(
        &self,
        table: &mut PlainSlot<P>,
        size: usize,
        element: TableElementType,
        ranges: &mut Ranges,
    ) -> usize
        requires pool { IsAllocator M.told self.now.allocator.now }
        requires page { table.old.region.page ≡ self.now.allocator.now.pool.settings.page }
        requires within { rounded_up self.now.allocator.now.pool.settings.page (size * element_size element) ≤ table.old.static_size }
        requires unused { IsUnusedFrom (rounded_up self.now.allocator.now.pool.settings.page (size * element_size element)) table.old }
        requires empty { ranges.old ≡ [] }
        ensures resident { result ≡ used_kept (used_marks self.now.allocator.now.pool.settings.dirty_pages (rounded_up self.now.allocator.now.pool.settings.page (size * element_size element)) table.old) self.now.allocator.now.pool.settings.table_keep_resident.bytes (rounded_up self.now.allocator.now.pool.settings.page (size * element_size element)) table.old }
        ensures ranges { ranges.new ≡ used_left (used_marks self.now.allocator.now.pool.settings.dirty_pages (rounded_up self.now.allocator.now.pool.settings.page (size * element_size element)) table.old) self.now.allocator.now.pool.settings.table_keep_resident.bytes (rounded_up self.now.allocator.now.pool.settings.page (size * element_size element)) table.old }
        ensures value { table.new ≡ used_reset (used_marks self.now.allocator.now.pool.settings.dirty_pages (rounded_up self.now.allocator.now.pool.settings.page (size * element_size element)) table.old) self.now.allocator.now.pool.settings.table_keep_resident.bytes (rounded_up self.now.allocator.now.pool.settings.page (size * element_size element)) table.old }
        ensures parts { All (IsPart table.new.region.page (size_of table.new)) ranges.new }
        ensures clean_after { IsClean (decommitted_all ranges.new table.new) }
        ensures unused { IsUnusedFrom (rounded_up self.now.allocator.now.pool.settings.page (size * element_size element)) table.new }
        ensures most { result ≤ rounded_up self.now.allocator.now.pool.settings.page (size * element_size element) }
        ensures alike { bytes_of (decommitted_all ranges.new table.new) ≡ used_after None 0 (rounded_up self.now.allocator.now.pool.settings.page (size * element_size element)) table.old }
    {
        let settings = &self.allocator.pool.settings;
        let _len = table.len();
        let bytes = size * element.element_size();
        let used = HostAlignedByteCount::rounded_up_unchecked(settings.page, bytes);
        table.reset_pages(
            settings.dirty_pages,
            used,
            settings.table_keep_resident,
            ranges,
        )
    }

    /// Whether no table is granted, as the counter says that all callers count on. Slots that wait in a queue, or that a call under way has
    /// picked, don't count.
    pub fn is_empty(&self, seat: &mut CallerSeat<PoolSeat<P, H, M>, P, H>) -> bool
        requires pool { IsAllocator M.told self.now.allocator.now }
        requires seat { IsCaller M.told self.now.allocator.now seat.old }
        ensures seat { IsCaller M.told self.now.allocator.now seat.new }
        ensures frame { seat.new.frame ≡ seat.old.frame }
        ensures view { view seat.new.seat ≡ view seat.old.seat }
        ensures exact { (view seat.old.seat).portions ≡ all_portions → result ≡ (left_counted (view seat.old.seat) (counted_object kind.Table) % 2 ^ 64 == 0) }
    {
        PoolingAllocatorMetrics::new(self.allocator).tables(seat) == 0
    }

    /// As `PoolingInstanceAllocator::allocate_table`.
    pub fn allocate<R: Wait, L: ResourceLimiter>(
        &self,
        rt: &R,
        alloc: Global,
        home: ShardId,
        seat: &mut CallerSeat<PoolSeat<P, H, M>, P, H>,
        ty: TableType,
        limiter: &mut L,
    ) -> Result<TableLease<P>, AllocError>
        requires pool { IsAllocator M.told self.now.allocator.now }
        requires seat { IsCaller M.told self.now.allocator.now seat.old }
        requires limits { refused_limits ty.limits ≡ None }
        ensures seat { IsCaller M.told self.now.allocator.now seat.new }
        ensures stripe { seat.new.frame.stripe ≡ seat.old.frame.stripe }
        ensures granted { IfOk result (λ lease. IsGranted {P = P} {H = H} (about_pool M.told self.now.allocator.now) (asked.Table ty) (grant.Table lease) (view seat.old.seat) (view seat.new.seat)) }
        ensures refused { IfErr result (λ e. IsRefused (about_pool M.told self.now.allocator.now) home.0 seat.old.frame.stripe (asked.Table ty) e (view seat.old.seat) (view seat.new.seat)) }
        ensures reason { IfErr result FailsTable }
        ensures asked { HasAsked L.leads ⊥ ⊥ (CallAsks {P = P} {H = H} (call.Table ty) (outcome_of grant.Table result)) limiter.old limiter.new (record { limiter = L.told limiter.old; heaps = nobody_told }) (record { limiter = L.told limiter.new; heaps = nobody_told }) (outcome_of {P = P} {H = H} grant.Table result) }
    {
        self.allocator
            .allocate_table(rt, alloc, home, seat, ty, limiter)
    }

    /// As `PoolingInstanceAllocator::deallocate_table`.
    pub fn deallocate<R: Wait>(
        &self,
        rt: &R,
        alloc: Global,
        home: ShardId,
        seat: &mut CallerSeat<PoolSeat<P, H, M>, P, H>,
        table: TableLease<P>,
    )
        requires pool { IsAllocator M.told self.now.allocator.now }
        requires seat { IsCaller M.told self.now.allocator.now seat.old }
        requires gives { Gives {P = P} {H = H} (about_pool M.told self.now.allocator.now) (grant.Table table) (view seat.old.seat) }
        ensures seat { IsCaller M.told self.now.allocator.now seat.new }
        ensures stripe { seat.new.frame.stripe ≡ seat.old.frame.stripe }
        ensures returned { IsGivenBack {P = P} {H = H} (about_pool M.told self.now.allocator.now) (grant.Table table) (view seat.old.seat) (view seat.new.seat) }
    {
        self.allocator
            .deallocate_table(rt, alloc, home, seat, table);
    }

    /// Takes tables back, one after the other, in their order. Never refused; takes no memory.
    pub fn deallocate_many<R: Wait>(
        &self,
        rt: &R,
        alloc: Global,
        home: ShardId,
        seat: &mut CallerSeat<PoolSeat<P, H, M>, P, H>,
        tables: Vec<TableLease<P>>,
    )
        requires pool { IsAllocator M.told self.now.allocator.now }
        requires seat { IsCaller M.told self.now.allocator.now seat.old }
        requires gives { GivesAll {P = P} {H = H} (about_pool M.told self.now.allocator.now) (map grant.Table tables.items) (view seat.old.seat) }
        ensures seat { IsCaller M.told self.now.allocator.now seat.new }
        ensures stripe { seat.new.frame.stripe ≡ seat.old.frame.stripe }
        ensures returned { AreGivenBack {P = P} {H = H} (about_pool M.told self.now.allocator.now) (map grant.Table tables.items) (view seat.old.seat) (view seat.new.seat) }
    {
        for table in tables {
            self.allocator
                .deallocate_table(rt, alloc, home, seat, table);
        }
    }

    /// As `PoolingAllocatorMetrics::unused_warm_tables`.
    pub fn unused_warm_slots<R: Wait>(
        &self,
        rt: &R,
        seat: &mut CallerSeat<PoolSeat<P, H, M>, P, H>,
    ) -> u32
        requires pool { IsAllocator M.told self.now.allocator.now }
        requires seat { IsCaller M.told self.now.allocator.now seat.old }
        ensures seat { IsCaller M.told self.now.allocator.now seat.new }
        ensures frame { seat.new.frame ≡ seat.old.frame }
        ensures looked { HasLooked (view seat.old.seat) (view seat.new.seat) }
        ensures kept { IsKept (view seat.old.seat) (view seat.new.seat) }
        ensures most { result ≤ slots_of_kind self.now.allocator.now.pool.plan kind.Table }
        ensures warm { AreWarm M.told self.now.allocator.now (view seat.old.seat) kind.Table result }
    {
        PoolingAllocatorMetrics::new(self.allocator).unused_warm_tables(rt, seat)
    }

    /// As `PoolingAllocatorMetrics::unused_table_bytes_resident`.
    pub fn unused_bytes_resident<R: Wait>(
        &self,
        rt: &R,
        seat: &mut CallerSeat<PoolSeat<P, H, M>, P, H>,
    ) -> usize
        requires pool { IsAllocator M.told self.now.allocator.now }
        requires seat { IsCaller M.told self.now.allocator.now seat.old }
        ensures seat { IsCaller M.told self.now.allocator.now seat.new }
        ensures frame { seat.new.frame ≡ seat.old.frame }
        ensures looked { HasLooked (view seat.old.seat) (view seat.new.seat) }
        ensures kept { IsKept (view seat.old.seat) (view seat.new.seat) }
        ensures warm { AreResident M.told self.now.allocator.now (view seat.old.seat) kind.Table result }
    {
        PoolingAllocatorMetrics::new(self.allocator).unused_table_bytes_resident(rt, seat)
    }
}
