//! The allocator for threads as an `InstanceAllocator`.

use crate::waiting::{WaitingAllocator, memory_call, module_call};
use pool_alloc::{
    HeapLease, InstanceAllocationRequest, InstanceAllocator, InstanceLease, MemoryLease,
    StackLease, TableLease,
};
use pool_callers::CallerSeat;
use pool_driver::PoolSeat;
use pool_index::ShardId;
use pool_limits::{ResourceLimiter, Unlimited};
use pool_pages::{PageMaker, Pages};
use pool_slots::{AllocError, GcHeap, HeapMaker, MemoryAllocationIndex};
use pool_types::{
    CompiledModuleId, ComponentInfo, DefinedMemoryIndex, MemoryType, ModuleInfo, TableType,
    Unsupported,
};
use std::alloc::Global;
use std::sync::Wait;

impl<
    'a,
    W: Wait,
    P: Pages,
    H: GcHeap,
    M: PageMaker,
    R: ResourceLimiter,
    K: HeapMaker<Heap = H>,
> InstanceAllocator<R, K> for WaitingAllocator<'a, W, P, H, M> {
    type Seat = CallerSeat<PoolSeat<P, H, M>, P, H>;

    type Memory = MemoryLease<P>;

    type Table = TableLease<P>;

    type Stack = StackLease<P>;

    type Heap = HeapLease<H>;

    type Instance = InstanceLease<P>;

    ghost use Rattle.std.specs.Prelude.{None, ◌≡◌, ◌<◌};
    ghost use Rattle.pool_hall.specs.Seat.{view};
    ghost use Rattle.pool_alloc.specs.HeapLeases.{memory_noted};
    ghost use Rattle.pool_alloc.specs.Places.{counted_component, counted_instance};
    ghost use Rattle.pool_alloc.specs.Refusals.{component_refused, module_refused, type_refused};
    ghost use Rattle.pool_alloc.specs.StepTable.{no_component_left, no_instance_left};
    ghost use Rattle.pool_alloc.specs.declared.frame.Grant.TheVariants as grant;
    ghost use Rattle.pool_driver.specs.Telling.{component_counter, instance_counter};
    ghost use Rattle.pool_callers.specs.Callers.{Gives, IsAllocator, IsCaller, about_pool};
    ghost use Rattle.pool_waiting.specs.Waiting.{AnswersHeap, AnswersMemory, AnswersModule, AnswersStack, AnswersTable, Counts, Draws, HasAll, Purges, Returns, Uncounts, as_grant};
    ghost use Rattle.pool_waiting.specs.HeldLaws.{gives_held, moved_held, none_held, written_held};

    ghost fits = { λ a seat. IsAllocator M.told a.allocator.now × IsCaller M.told a.allocator.now seat };

    ghost gives = { λ a x seat. Gives (about_pool M.told a.allocator.now) (as_grant x) (view seat.seat) };

    ghost holds = { λ a base held seat. HasAll (about_pool M.told a.allocator.now) (view base.seat) held (view seat.seat) };

    ghost memory_under = { λ heap. memory_noted heap };

    ghost page = { λ a _. a.allocator.now.pool.settings.page };

    ghost module_rule = { λ a m. module_refused a.allocator.now.pool.settings a.allocator.now.pool.plan.totals.table m };

    ghost memory_rule = { λ a ty. type_refused a.allocator.now.pool.settings ty };

    ghost component_rule = { λ a info. component_refused a.allocator.now.pool.settings info };

    ghost may_ask_for = { λ a ty. type_refused a.allocator.now.pool.settings ty ≡ None };

    ghost has_stripe = { λ a stripe. stripe < a.allocator.now.pool.settings.num_stripes };

    ghost memory_turn = { λ a home request ty index result seat left limiter. AnswersMemory R.told R.leads (about_pool M.told a.allocator.now) home request ty index result seat left limiter };

    ghost table_turn = { λ a home request ty result seat left limiter. AnswersTable R.told R.leads (about_pool M.told a.allocator.now) home request ty result seat left limiter };

    ghost stack_turn = { λ a home result seat left. AnswersStack (about_pool M.told a.allocator.now) home result seat left };

    ghost instance_turn = { λ a home request result seat left limiter. AnswersModule R.told R.leads (about_pool M.told a.allocator.now) home request result seat left limiter };

    ghost heap_turn = { λ a home memory result seat left old new. AnswersHeap (about_pool M.told a.allocator.now) home memory result seat left old new };

    ghost memory_return = { λ a memory seat left. Returns (about_pool M.told a.allocator.now) (grant.Memory memory) seat left };

    ghost table_return = { λ a table seat left. Returns (about_pool M.told a.allocator.now) (grant.Table table) seat left };

    ghost stack_return = { λ a stack seat left. Returns (about_pool M.told a.allocator.now) (grant.Stack stack) seat left };

    ghost heap_return = { λ a heap seat left. Returns (about_pool M.told a.allocator.now) (grant.HeapOver heap) seat left };

    ghost instance_return = { λ a instance seat left. Returns (about_pool M.told a.allocator.now) (grant.Instance instance) seat left };

    ghost core_count = { λ a result seat left. Counts counted_instance instance_counter (no_instance_left a.allocator.now.pool.settings) result seat left };

    ghost component_count = { λ a result seat left. Counts counted_component component_counter (no_component_left a.allocator.now.pool.settings) result seat left };

    ghost core_uncount = { λ _ seat left. Uncounts counted_instance seat left };

    ghost component_uncount = { λ _ seat left. Uncounts counted_component seat left };

    ghost purge_turn = { λ a _ slots seat left. Purges (about_pool M.told a.allocator.now) slots seat left };

    ghost stripe_turn = { λ a result seat left. Draws (about_pool M.told a.allocator.now) a.allocator.now.has_keys result seat left };

    ghost passing = { λ _ _ passes. passes };

    ghost holds_none = { λ a seat fits. none_held (about_pool M.told a.allocator.now) (view seat.seat) fits.1.driven.carries.beside };

    ghost holds_gives = { λ a base seat x others held. gives_held (about_pool M.told a.allocator.now) (view base.seat) x others (view seat.seat) held };

    ghost holds_moved = { λ a base seat before after x held. moved_held (about_pool M.told a.allocator.now) (view base.seat) before after x (view seat.seat) held };

    ghost holds_written = { λ a base seat old new others memory at bytes answer wrote held. written_held (about_pool M.told a.allocator.now) (view base.seat) (view seat.seat) old new others memory at bytes answer wrote held };

    fn validate_component(
        &self,
        _home: ShardId,
        _seat: &mut CallerSeat<PoolSeat<P, H, M>, P, H>,
        info: &ComponentInfo,
    ) -> Result<(), AllocError> {
        self.allocator.validate_component(info)
    }

    fn validate_module(
        &self,
        _home: ShardId,
        _seat: &mut CallerSeat<PoolSeat<P, H, M>, P, H>,
        info: &ModuleInfo,
    ) -> Result<(), AllocError> {
        self.allocator.validate_module(info)
    }

    fn validate_memory(
        &self,
        _home: ShardId,
        _seat: &mut CallerSeat<PoolSeat<P, H, M>, P, H>,
        ty: &MemoryType,
    ) -> Result<(), AllocError> {
        self.allocator.validate_memory(ty)
    }

    fn increment_core_instance_count(
        &self,
        _home: ShardId,
        seat: &mut CallerSeat<PoolSeat<P, H, M>, P, H>,
    ) -> Result<(), AllocError> {
        self.allocator.increment_core_instance_count(seat)
    }

    fn increment_component_instance_count(
        &self,
        _home: ShardId,
        seat: &mut CallerSeat<PoolSeat<P, H, M>, P, H>,
    ) -> Result<(), AllocError> {
        self.allocator.increment_component_instance_count(seat)
    }

    fn decrement_core_instance_count(
        &self,
        _home: ShardId,
        seat: &mut CallerSeat<PoolSeat<P, H, M>, P, H>,
    ) {
        self.allocator.decrement_core_instance_count(seat);
    }

    fn decrement_component_instance_count(
        &self,
        _home: ShardId,
        seat: &mut CallerSeat<PoolSeat<P, H, M>, P, H>,
    ) {
        self.allocator.decrement_component_instance_count(seat);
    }

    fn allocate_memory(
        &self,
        alloc: Global,
        home: ShardId,
        seat: &mut CallerSeat<PoolSeat<P, H, M>, P, H>,
        request: &mut InstanceAllocationRequest<R>,
        ty: &MemoryType,
        index: Option<DefinedMemoryIndex>,
    ) -> Result<MemoryLease<P>, AllocError> {
        self.put_in(seat, request.stripe);
        let Ok(call) = memory_call(request.images, request.unique_id, ty, index) else {
            return Err(AllocError::Memory);
        };
        match &mut request.limiter {
            None => self
                .allocator
                .allocate_memory(self.rt, alloc, home, seat, call, &mut Unlimited),
            Some(limiter) => self
                .allocator
                .allocate_memory(self.rt, alloc, home, seat, call, &mut **limiter),
        }
    }

    fn allocate_table(
        &self,
        alloc: Global,
        home: ShardId,
        seat: &mut CallerSeat<PoolSeat<P, H, M>, P, H>,
        request: &mut InstanceAllocationRequest<R>,
        ty: &TableType,
    ) -> Result<TableLease<P>, AllocError> {
        match &mut request.limiter {
            None => self
                .allocator
                .allocate_table(self.rt, alloc, home, seat, *ty, &mut Unlimited),
            Some(limiter) => self
                .allocator
                .allocate_table(self.rt, alloc, home, seat, *ty, &mut **limiter),
        }
    }

    fn allocate_fiber_stack(
        &self,
        alloc: Global,
        home: ShardId,
        seat: &mut CallerSeat<PoolSeat<P, H, M>, P, H>,
    ) -> Result<StackLease<P>, AllocError> {
        self.allocator
            .allocate_fiber_stack(self.rt, alloc, home, seat)
    }

    fn allocate_gc_heap(
        &self,
        alloc: Global,
        home: ShardId,
        seat: &mut CallerSeat<PoolSeat<P, H, M>, P, H>,
        heaps: &mut K,
        memory: MemoryAllocationIndex,
    ) -> Result<HeapLease<H>, AllocError> {
        self.allocator
            .allocate_gc_heap_over(self.rt, alloc, home, seat, heaps, memory)
    }

    fn allocate_module(
        &self,
        alloc: Global,
        home: ShardId,
        seat: &mut CallerSeat<PoolSeat<P, H, M>, P, H>,
        request: &mut InstanceAllocationRequest<R>,
    ) -> Result<InstanceLease<P>, AllocError> {
        self.put_in(seat, request.stripe);
        if let Err(refusal) = self.allocator.validate_module(request.module) {
            return Err(refusal);
        }
        let Ok(call) = module_call(alloc, request.module, request.images, request.unique_id) else {
            return Err(AllocError::Memory);
        };
        match &mut request.limiter {
            None => self
                .allocator
                .allocate_module(self.rt, alloc, home, seat, call, &mut Unlimited),
            Some(limiter) => self
                .allocator
                .allocate_module(self.rt, alloc, home, seat, call, &mut **limiter),
        }
    }

    fn deallocate_memory(
        &self,
        home: ShardId,
        seat: &mut CallerSeat<PoolSeat<P, H, M>, P, H>,
        memory: MemoryLease<P>,
    ) {
        self.allocator
            .deallocate_memory(self.rt, self.alloc, home, seat, memory);
    }

    fn deallocate_table(
        &self,
        home: ShardId,
        seat: &mut CallerSeat<PoolSeat<P, H, M>, P, H>,
        table: TableLease<P>,
    ) {
        self.allocator
            .deallocate_table(self.rt, self.alloc, home, seat, table);
    }

    fn deallocate_fiber_stack(
        &self,
        home: ShardId,
        seat: &mut CallerSeat<PoolSeat<P, H, M>, P, H>,
        stack: StackLease<P>,
    ) {
        self.allocator
            .deallocate_fiber_stack(self.rt, self.alloc, home, seat, stack);
    }

    fn deallocate_gc_heap(
        &self,
        home: ShardId,
        seat: &mut CallerSeat<PoolSeat<P, H, M>, P, H>,
        heap: HeapLease<H>,
    ) -> MemoryAllocationIndex {
        self.allocator
            .deallocate_gc_heap_over(self.rt, self.alloc, home, seat, heap)
    }

    fn deallocate_module(
        &self,
        home: ShardId,
        seat: &mut CallerSeat<PoolSeat<P, H, M>, P, H>,
        instance: InstanceLease<P>,
    ) {
        self.allocator
            .deallocate_module(self.rt, self.alloc, home, seat, instance);
    }

    fn purge_module(
        &self,
        home: ShardId,
        seat: &mut CallerSeat<PoolSeat<P, H, M>, P, H>,
        id: CompiledModuleId,
    ) -> u64 {
        self.allocator
            .purge_module(self.rt, self.alloc, home, seat, id)
    }

    fn next_available_pkey(
        &self,
        home: ShardId,
        seat: &mut CallerSeat<PoolSeat<P, H, M>, P, H>,
    ) -> Option<u32> {
        self.allocator
            .next_available_pkey(self.rt, self.alloc, home, seat)
    }
}
