ghost use Rattle.std.specs.Prelude.{◌≡◌, None, Ok};
ghost use Rattle.pool_alloc.specs.Requests.{refused_by};

use crate::instance::AllocatesInstances;
use crate::lease::{OnDemandHeap, OnDemandInstance, OnDemandMemory, OnDemandStack, OnDemandTable};
use crate::on_demand::OnDemandInstanceAllocator;
use crate::turns::AllocatesInTurn;
use crate::validate::{module_refused, type_refused};
use pool_alloc::{InstanceAllocationRequest, InstanceAllocator, refused_by};
use pool_index::ShardId;
use pool_limits::ResourceLimiter;
use pool_memory::{RuntimeLinearMemory, RuntimeMemoryCreator};
use pool_pages::{PageMaker, Pages};
use pool_slots::{
    AllocError, GcHeapAllocationIndex, HeapMakeFault, HeapMaker, MemoryAllocationIndex,
};
use pool_types::{
    CompiledModuleId, ComponentInfo, DefinedMemoryIndex, MemoryType, ModuleInfo, TableType,
    Unsupported,
};
use std::alloc::Global;

/// The seat of one caller: what makes the regions.
#[derive(Drop)]
pub struct OnDemandSeat<M> {
    pub maker: M,
}

impl<M: PageMaker, C: RuntimeMemoryCreator<M>, R: ResourceLimiter, K: HeapMaker> InstanceAllocator<
    R,
    K,
> for OnDemandInstanceAllocator<M, C> {
    type Seat = OnDemandSeat<M>;

    type Memory = OnDemandMemory<M, C::Linear>;

    type Table = OnDemandTable<M::Region>;

    type Stack = OnDemandStack<M::Region>;

    type Heap = OnDemandHeap<K::Heap>;

    type Instance = OnDemandInstance<M, C::Linear, M::Region>;

    ghost use Rattle.std.specs.Prelude.{None, Ok, option_map, ◌≡◌};
    ghost use Rattle.pool_limits.specs.LimiterTold.{limiter_told};
    ghost use Rattle.pool_types.specs.declared.module_types.MemoryKind.TheVariants.{LinearMemory};
    ghost use Rattle.pool_on_demand.specs.Answers.{Allocates, IsHeapTurn};
    ghost use Rattle.pool_on_demand.specs.Instances.{IsMemoryTurn, IsTableTurn, GrantsInstance};
    ghost use Rattle.pool_on_demand.specs.Stacks.{IsStackMade, AsksForStack, stack_room};
    ghost use Rattle.pool_on_demand.specs.Refusals.{module_refused, type_refused, stack_refused};
    ghost use Rattle.pool_alloc.specs.Requests.{refused_by, if_leads, lent, kind_for, image_for};

    ghost fits = { λ _ _. Unit {0} };

    ghost gives = { λ _ _ _. Unit {0} };

    ghost holds = { λ _ _ _ _. Unit {0} };

    ghost memory_under = { λ heap. heap.memory.0 };

    ghost page = { λ _ seat. (M.told seat.maker).page };

    ghost module_rule = { λ _ m. module_refused m };

    ghost memory_rule = { λ _ ty. type_refused ty };

    ghost component_rule = { λ _ _. None };

    ghost may_ask_for = { λ _ _. Unit {0} };

    ghost has_stripe = { λ _ _. Unit {0} };

    ghost memory_turn = { λ a _ request ty index result seat seat_left limiter_left. IsMemoryTurn (limiter_told R.told) (if_leads R.leads) (C.refuses a.creator) (C.designs a.creator) (record { tunables = request.tunables.now; kind = kind_for index }) (image_for (option_map (λ i. i.now) request.images) index) ty result (record { maker = M.told seat.maker; limiter = lent request.limiter }) (record { maker = M.told seat_left.maker; limiter = limiter_left }) × (M.borrows seat_left.maker ≡ M.borrows seat.maker) };

    ghost table_turn = { λ a _ request ty result seat seat_left limiter_left. IsTableTurn (limiter_told R.told) (if_leads R.leads) request.tunables.now.table_lazy_init ty result (record { maker = M.told seat.maker; limiter = lent request.limiter }) (record { maker = M.told seat_left.maker; limiter = limiter_left }) × (seat_left ≡ seat) };

    ghost stack_turn = { λ a _ result seat left. Allocates (stack_refused a.stack_size) (IsStackMade a.stack_size a.stack_zeroing (M.told seat.maker)) result (M.told seat.maker) (M.told left.maker) × (AsksForStack (stack_refused a.stack_size) (stack_room (M.told seat.maker).page a.stack_size).bytes result (M.told seat.maker) (M.told left.maker) × (M.borrows left.maker ≡ M.borrows seat.maker)) };

    ghost instance_turn = { λ a _ request result seat seat_left limiter_left. GrantsInstance (limiter_told R.told) (if_leads R.leads) (C.refuses a.creator) (C.designs a.creator) (record { tunables = request.tunables.now; kind = LinearMemory }) request.module.now (option_map (λ i. i.now) request.images) result (record { maker = M.told seat.maker; limiter = lent request.limiter }) (record { maker = M.told seat_left.maker; limiter = limiter_left }) × (M.borrows seat_left.maker ≡ M.borrows seat.maker) };

    ghost heap_turn = { λ _ _ memory result seat left old new. IsHeapTurn memory (λ lease. lease.index.0) (λ lease. lease.memory.0) (λ lease. K.Heap.attached lease.heap) result old new × (left ≡ seat) };

    ghost memory_return = { λ _ _ seat left. left ≡ seat };

    ghost table_return = { λ _ _ seat left. left ≡ seat };

    ghost stack_return = { λ _ _ seat left. left ≡ seat };

    ghost heap_return = { λ _ _ seat left. left ≡ seat };

    ghost instance_return = { λ _ _ seat left. left ≡ seat };

    ghost core_count = { λ _ result seat left. (result ≡ Ok tt) × (left ≡ seat) };

    ghost component_count = { λ _ result seat left. (result ≡ Ok tt) × (left ≡ seat) };

    ghost core_uncount = { λ _ seat left. left ≡ seat };

    ghost component_uncount = { λ _ seat left. left ≡ seat };

    ghost purge_turn = { λ _ _ result seat left. (result ≡ 0) × (left ≡ seat) };

    ghost stripe_turn = { λ _ result seat left. (result ≡ None) × (left ≡ seat) };

    ghost passing = { λ _ _ _. tt };

    ghost holds_none = { λ _ _ _. tt };

    ghost holds_gives = { λ _ _ _ _ _ _. tt };

    ghost holds_moved = { λ _ _ _ _ _ _ _. tt };

    ghost holds_written = { λ _ _ _ _ _ _ _ _ _ _ _ _. tt };

    fn validate_component(
        &self,
        _home: ShardId,
        _seat: &mut OnDemandSeat<M>,
        _info: &ComponentInfo,
    ) -> Result<(), AllocError>
        ensures answer { result ≡ refused_by None }
        ensures seat { _seat.new ≡ _seat.old }
    {
        Ok(())
    }

    fn validate_module(
        &self,
        _home: ShardId,
        _seat: &mut OnDemandSeat<M>,
        info: &ModuleInfo,
    ) -> Result<(), AllocError>
        ensures answer { result ≡ refused_by (module_refused info.now) }
        ensures seat { _seat.new ≡ _seat.old }
    {
        refused_by(module_refused(info))
    }

    fn validate_memory(
        &self,
        _home: ShardId,
        _seat: &mut OnDemandSeat<M>,
        ty: &MemoryType,
    ) -> Result<(), AllocError>
        ensures answer { result ≡ refused_by (type_refused ty.now) }
        ensures seat { _seat.new ≡ _seat.old }
    {
        refused_by(type_refused(ty))
    }

    fn increment_core_instance_count(
        &self,
        _home: ShardId,
        _seat: &mut OnDemandSeat<M>,
    ) -> Result<(), AllocError>
        ensures counted { result ≡ Ok tt }
        ensures seat { _seat.new ≡ _seat.old }
    {
        Ok(())
    }

    fn increment_component_instance_count(
        &self,
        _home: ShardId,
        _seat: &mut OnDemandSeat<M>,
    ) -> Result<(), AllocError>
        ensures counted { result ≡ Ok tt }
        ensures seat { _seat.new ≡ _seat.old }
    {
        Ok(())
    }

    fn decrement_core_instance_count(&self, _home: ShardId, _seat: &mut OnDemandSeat<M>)
        ensures { _seat.new ≡ _seat.old }
    {}

    fn decrement_component_instance_count(&self, _home: ShardId, _seat: &mut OnDemandSeat<M>)
        ensures { _seat.new ≡ _seat.old }
    {}

    fn allocate_memory(
        &self,
        alloc: Global,
        _home: ShardId,
        seat: &mut OnDemandSeat<M>,
        request: &mut InstanceAllocationRequest<R>,
        ty: &MemoryType,
        index: Option<DefinedMemoryIndex>,
    ) -> Result<OnDemandMemory<M, C::Linear>, AllocError> {
        self.next_memory(alloc, &mut seat.maker, request, ty, index)
    }

    fn allocate_table(
        &self,
        alloc: Global,
        _home: ShardId,
        _seat: &mut OnDemandSeat<M>,
        request: &mut InstanceAllocationRequest<R>,
        ty: &TableType,
    ) -> Result<OnDemandTable<M::Region>, AllocError> {
        AllocatesInTurn::<M, C, R>::next_table(self, alloc, request, ty)
    }

    fn allocate_fiber_stack(
        &self,
        alloc: Global,
        _home: ShardId,
        seat: &mut OnDemandSeat<M>,
    ) -> Result<OnDemandStack<M::Region>, AllocError> {
        self.make_stack(alloc, &mut seat.maker)
    }

    fn allocate_gc_heap(
        &self,
        alloc: Global,
        _home: ShardId,
        _seat: &mut OnDemandSeat<M>,
        heaps: &mut K,
        memory: MemoryAllocationIndex,
    ) -> Result<OnDemandHeap<K::Heap>, AllocError>
        ensures turn { IsHeapTurn memory.0 (λ lease. lease.index.0) (λ lease. lease.memory.0) (λ lease. K.Heap.attached lease.heap) result (K.told heaps.old) (K.told heaps.new) }
        ensures seat { _seat.new ≡ _seat.old }
    {
        match heaps.new_gc_heap(alloc) {
            Ok(heap) => Ok(OnDemandHeap {
                index: GcHeapAllocationIndex::default(),
                memory,
                heap,
            }),
            Err(HeapMakeFault::Memory) => Err(AllocError::Memory),
            Err(HeapMakeFault::HeapFault) => Err(AllocError::HeapFault),
        }
    }

    fn allocate_module(
        &self,
        alloc: Global,
        _home: ShardId,
        seat: &mut OnDemandSeat<M>,
        request: &mut InstanceAllocationRequest<R>,
    ) -> Result<OnDemandInstance<M, C::Linear, M::Region>, AllocError> {
        self.next_instance(alloc, &mut seat.maker, request)
    }

    fn deallocate_memory(
        &self,
        _home: ShardId,
        _seat: &mut OnDemandSeat<M>,
        _memory: OnDemandMemory<M, C::Linear>,
    )
        ensures { _seat.new ≡ _seat.old }
    {}

    fn deallocate_table(
        &self,
        _home: ShardId,
        _seat: &mut OnDemandSeat<M>,
        _table: OnDemandTable<M::Region>,
    )
        ensures { _seat.new ≡ _seat.old }
    {}

    fn deallocate_fiber_stack(
        &self,
        _home: ShardId,
        _seat: &mut OnDemandSeat<M>,
        _stack: OnDemandStack<M::Region>,
    )
        ensures { _seat.new ≡ _seat.old }
    {}

    fn deallocate_gc_heap(
        &self,
        _home: ShardId,
        _seat: &mut OnDemandSeat<M>,
        heap: OnDemandHeap<K::Heap>,
    ) -> MemoryAllocationIndex
        ensures memory { result ≡ heap.memory }
        ensures seat { _seat.new ≡ _seat.old }
    {
        heap.memory
    }

    fn deallocate_module(
        &self,
        _home: ShardId,
        _seat: &mut OnDemandSeat<M>,
        _instance: OnDemandInstance<M, C::Linear, M::Region>,
    )
        ensures { _seat.new ≡ _seat.old }
    {}

    fn purge_module(
        &self,
        _home: ShardId,
        _seat: &mut OnDemandSeat<M>,
        _id: CompiledModuleId,
    ) -> u64
        ensures none { result ≡ 0 }
        ensures seat { _seat.new ≡ _seat.old }
    {
        0
    }

    fn next_available_pkey(&self, _home: ShardId, _seat: &mut OnDemandSeat<M>) -> Option<u32>
        ensures none { result ≡ None }
        ensures seat { _seat.new ≡ _seat.old }
    {
        None
    }
}
