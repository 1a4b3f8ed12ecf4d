ghost use Rattle.std.specs.Prelude.{[], ◌≡◌, ◌≤◌, ℕ, length, vec_len, vec_capacity, IfOk, IfErr, IfSome, option_map};
ghost use Rattle.pool_limits.specs.LimiterTold.{limiter_told};
ghost use Rattle.pool_pages.specs.MakerTold.{MakerTold};
ghost use Rattle.pool_on_demand.specs.InTurn.{EndsInTurn, items_of};
ghost use Rattle.pool_on_demand.specs.Instances.{MemoryOf, TableOf, GrantsInstance};
ghost use Rattle.pool_alloc.specs.Requests.{IsModule, AreImagesOf, IsSameRequest, if_leads, lent};

use crate::lease::{OnDemandInstance, OnDemandMemory, OnDemandTable};
use crate::on_demand::OnDemandInstanceAllocator;
use crate::turns::AllocatesInTurn;
use crate::validate::module_refused;
use pool_alloc::InstanceAllocationRequest;
use pool_limits::ResourceLimiter;
use pool_memory::{RuntimeLinearMemory, RuntimeMemoryCreator};
use pool_pages::{PageMaker, Pages};
use pool_slots::AllocError;
use pool_types::{DefinedMemoryIndex, MemoryKind, PlainList};
use std::alloc::Global;

// Whole instances, whose memories are allocated in order, and then their tables.
pub(crate) trait AllocatesInstances<R: ResourceLimiter> {
    type Maker;

    type Memory;

    type Table;

    type Instance;

    // the page of the regions that it makes
    ghost page: { Self.Maker → ℕ };

    fn next_instance(
        &self,
        alloc: Global,
        maker: &mut Self::Maker,
        request: &mut InstanceAllocationRequest<R>,
    ) -> Result<Self::Instance, AllocError>
        requires module { IsModule request.old.module.now }
        requires images { IfSome request.old.images (λ i. AreImagesOf (page maker.old) request.old.module.now i.now) };

    // The memories of the module, in the list that is reserved for them.
    fn all_memories(
        &self,
        alloc: Global,
        maker: &mut Self::Maker,
        request: &mut InstanceAllocationRequest<R>,
        reserved: Vec<Self::Memory>,
    ) -> Result<Vec<Self::Memory>, AllocError>
        requires module { IsModule request.old.module.now }
        requires images { IfSome request.old.images (λ i. AreImagesOf (page maker.old) request.old.module.now i.now) }
        requires empty { reserved.items ≡ [] }
        requires len { vec_len reserved ≡ 0 }
        requires room { length request.old.module.now.memories ≤ vec_capacity reserved };

    // Its tables, in the list that is reserved for them.
    fn all_tables(
        &self,
        alloc: Global,
        request: &mut InstanceAllocationRequest<R>,
        reserved: Vec<Self::Table>,
    ) -> Result<Vec<Self::Table>, AllocError>
        requires empty { reserved.items ≡ [] }
        requires len { vec_len reserved ≡ 0 }
        requires room { length request.old.module.now.tables ≤ vec_capacity reserved };
}

impl<M: PageMaker, C: RuntimeMemoryCreator<M>, R: ResourceLimiter> AllocatesInstances<R>
    for OnDemandInstanceAllocator<M, C> {
    type Maker = M;

    type Memory = OnDemandMemory<M, C::Linear>;

    type Table = OnDemandTable<M::Region>;

    type Instance = OnDemandInstance<M, C::Linear, M::Region>;

    ghost page = { λ maker. (M.told maker).page };

    fn next_instance(
        &self,
        alloc: Global,
        maker: &mut M,
        request: &mut InstanceAllocationRequest<R>,
    ) -> Result<OnDemandInstance<M, C::Linear, M::Region>, AllocError>
        requires module { IsModule request.old.module.now }
        requires images { IfSome request.old.images (λ i. AreImagesOf (M.told maker.old).page request.old.module.now i.now) }
        ensures granted { GrantsInstance (limiter_told R.told) (if_leads R.leads) (C.refuses self.now.creator) (C.designs self.now.creator) (record { tunables = request.old.tunables.now; kind = MemoryKind.LinearMemory }) request.old.module.now (option_map (λ i. i.now) request.old.images) result (record { maker = M.told maker.old; limiter = lent request.old.limiter }) (record { maker = M.told maker.new; limiter = lent request.new.limiter }) }
        ensures borrows { M.borrows maker.new ≡ M.borrows maker.old }
        ensures request { IsSameRequest request.old request.new }
        ensures page { (M.told maker.new).page ≡ (M.told maker.old).page }
        ensures memories { IfOk result (λ instance. length instance.memories ≡ length request.old.module.now.memories) }
    {
        let module = request.module;
        if let Some(rule) = module_refused(module) {
            return Err(AllocError::Unsupported(rule));
        }
        let memories = reserve(alloc, module.memories.len())?;
        let tables = reserve(alloc, module.tables.len())?;
        let memories = match self.all_memories(alloc, maker, request, memories) {
            Ok(memories) => memories,
            Err(error) => return Err(error),
        };
        match AllocatesInstances::<R>::all_tables(self, alloc, request, tables) {
            Ok(tables) => Ok(OnDemandInstance {
                memories: PlainList::from_vec(memories),
                tables: PlainList::from_vec(tables),
            }),
            Err(error) => Err(error),
        }
    }

    fn all_memories(
        &self,
        alloc: Global,
        maker: &mut M,
        request: &mut InstanceAllocationRequest<R>,
        reserved: Vec<OnDemandMemory<M, C::Linear>>,
    ) -> Result<Vec<OnDemandMemory<M, C::Linear>>, AllocError>
        requires module { IsModule request.old.module.now }
        requires images { IfSome request.old.images (λ i. AreImagesOf (M.told maker.old).page request.old.module.now i.now) }
        requires empty { reserved.items ≡ [] }
        requires len { vec_len reserved ≡ 0 }
        requires room { length request.old.module.now.memories ≤ vec_capacity reserved }
        ensures made { EndsInTurn (MemoryOf (limiter_told R.told) (if_leads R.leads) (C.refuses self.now.creator) (C.designs self.now.creator) (record { tunables = request.old.tunables.now; kind = MemoryKind.LinearMemory }) (option_map (λ i. i.now) request.old.images)) 0 request.old.module.now.memories (items_of result) (record { maker = M.told maker.old; limiter = lent request.old.limiter }) (record { maker = M.told maker.new; limiter = lent request.new.limiter }) }
        ensures borrows { M.borrows maker.new ≡ M.borrows maker.old }
        ensures request { IsSameRequest request.old request.new }
        ensures page { (M.told maker.new).page ≡ (M.told maker.old).page }
    {
        let mut leases = reserved;
        let decls = request.module.memories.as_slice();
        for at in 0..decls.len() {
            let ty = &decls[at].ty;
            let index = Some(DefinedMemoryIndex(at as u32));
            match self.next_memory(alloc, maker, request, ty, index) {
                Ok(lease) => leases.push_reserved(lease),
                Err(error) => return Err(error),
            }
        }
        Ok(leases)
    }

    fn all_tables(
        &self,
        alloc: Global,
        request: &mut InstanceAllocationRequest<R>,
        reserved: Vec<OnDemandTable<M::Region>>,
    ) -> Result<Vec<OnDemandTable<M::Region>>, AllocError>
        requires empty { reserved.items ≡ [] }
        requires len { vec_len reserved ≡ 0 }
        requires room { length request.old.module.now.tables ≤ vec_capacity reserved }
        ensures made { (maker : MakerTold) → EndsInTurn (TableOf (limiter_told R.told) (if_leads R.leads) request.old.tunables.now.table_lazy_init) 0 request.old.module.now.tables (items_of result) (record { maker = maker; limiter = lent request.old.limiter }) (record { maker = maker; limiter = lent request.new.limiter }) }
        ensures request { IsSameRequest request.old request.new }
    {
        let mut leases = reserved;
        let types = request.module.tables.as_slice();
        for at in 0..types.len() {
            match AllocatesInTurn::<M, C, R>::next_table(self, alloc, request, &types[at]) {
                Ok(lease) => leases.push_reserved(lease),
                Err(error) => return Err(error),
            }
        }
        Ok(leases)
    }
}

// An empty list with room.
fn reserve<T>(alloc: Global, room: usize) -> Result<Vec<T>, AllocError>
    ensures empty { IfOk result (λ v. v.items ≡ []) }
    ensures len { IfOk result (λ v. vec_len v ≡ 0) }
    ensures room { IfOk result (λ v. vec_capacity v ≡ room) }
    ensures memory { IfErr result (λ e. e ≡ AllocError.Memory) }
{
    match Vec::with_capacity(alloc, room) {
        Ok(list) => Ok(list),
        Err(_) => Err(AllocError::Memory),
    }
}
