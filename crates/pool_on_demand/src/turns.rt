ghost use Rattle.std.specs.Prelude.{[], ◌≡◌, ◌<◌, ◌≤◌, ◌^◌, length, vec_len, vec_capacity, Some, IfOk, IfErr, IfSome, option_map};
ghost use Rattle.std.specs.Arc.{arc_value};
ghost use Rattle.pool_pages.specs.MakerTold.{MakerTold};
ghost use Rattle.pool_memory.specs.Making.{minimum_asked, maximum_asked};
ghost use Rattle.pool_table.specs.Tables.{type_maximum};
ghost use Rattle.pool_limits.specs.LimiterTold.{limiter_told};
ghost use Rattle.pool_types.specs.declared.module_types.MemoryKind.TheVariants.{LinearMemory};
ghost use Rattle.pool_on_demand.specs.InTurn.{EndsInTurn, items_of};
ghost use Rattle.pool_on_demand.specs.Instances.{IsMemoryTurn, IsTableTurn, MemoryOf, TableOf, GrantsInstance};
ghost use Rattle.pool_alloc.specs.Requests.{IsModule, AreImagesOf, image_at, IsMemoryOf, IsSameRequest, if_leads, lent, kind_for, image_for};

use crate::lease::{OnDemandInstance, OnDemandMemory, OnDemandTable};
use crate::on_demand::OnDemandInstanceAllocator;
use crate::table::make_table;
use crate::validate::module_refused;
use pool_alloc::InstanceAllocationRequest;
use pool_images::{MemoryImage, ModuleMemoryImages};
use pool_limits::ResourceLimiter;
use pool_memory::{RuntimeLinearMemory, RuntimeMemoryCreator};
use pool_pages::{PageMaker, Pages};
use pool_slots::AllocError;
use pool_types::{
    DefinedMemoryIndex, IndexType, MemoryKind, MemoryTunables, MemoryType, PlainList, TableType,
};
use std::alloc::Global;
use std::sync::Arc;

// What is allocated for a request, whose limiter is asked before each thing is made.
pub(crate) trait AllocatesInTurn<M: PageMaker, C: RuntimeMemoryCreator<M>, R: ResourceLimiter> {
    // A memory of this type, which is that of the module with this number, where it has one.
    fn next_memory(
        &self,
        alloc: Global,
        maker: &mut M,
        request: &mut InstanceAllocationRequest<R>,
        ty: &MemoryType,
        index: Option<DefinedMemoryIndex>,
    ) -> Result<OnDemandMemory<M, C::Linear>, AllocError>
        requires page { ty.now.page_size_log2 < 64 }
        requires module { IsModule request.old.module.now }
        requires images { IfSome request.old.images (λ i. AreImagesOf (M.told maker.old).page request.old.module.now i.now) }
        requires index { IfSome index (IsMemoryOf request.old.module.now ty.now) };

    // A table of this type.
    fn next_table(
        &self,
        alloc: Global,
        request: &mut InstanceAllocationRequest<R>,
        ty: &TableType,
    ) -> Result<OnDemandTable<M::Region>, AllocError>;
}

impl<M: PageMaker, C: RuntimeMemoryCreator<M>, R: ResourceLimiter> AllocatesInTurn<M, C, R>
    for OnDemandInstanceAllocator<M, C> {
    fn next_memory(
        &self,
        alloc: Global,
        maker: &mut M,
        request: &mut InstanceAllocationRequest<R>,
        ty: &MemoryType,
        index: Option<DefinedMemoryIndex>,
    ) -> Result<OnDemandMemory<M, C::Linear>, AllocError>
        requires page { ty.now.page_size_log2 < 64 }
        requires module { IsModule request.old.module.now }
        requires images { IfSome request.old.images (λ i. AreImagesOf (M.told maker.old).page request.old.module.now i.now) }
        requires index { IfSome index (IsMemoryOf request.old.module.now ty.now) }
        ensures made { IsMemoryTurn (limiter_told R.told) (if_leads R.leads) (C.refuses self.now.creator) (C.designs self.now.creator) (record { tunables = request.old.tunables.now; kind = kind_for index }) (image_for (option_map (λ i. i.now) request.old.images) index) ty.now result (record { maker = M.told maker.old; limiter = lent request.old.limiter }) (record { maker = M.told maker.new; limiter = lent request.new.limiter }) }
        ensures borrows { M.borrows maker.new ≡ M.borrows maker.old }
        ensures request { IsSameRequest request.old request.new }
    {
        let _page = maker.page().get();
        let settings = MemoryTunables::new(request.tunables, kind_for(index));
        let image = image_for(request.images, index);
        let answer = match &mut request.limiter {
            Some(limiter) => { (**limiter).memory_growing(0, minimum_asked(ty), maximum_asked(ty)) }
            None => Ok(true),
        };
        self.make_memory(alloc, maker, ty, &settings, image, answer)
    }

    fn next_table(
        &self,
        alloc: Global,
        request: &mut InstanceAllocationRequest<R>,
        ty: &TableType,
    ) -> Result<OnDemandTable<M::Region>, AllocError>
        ensures made { (maker : MakerTold) → IsTableTurn (limiter_told R.told) (if_leads R.leads) request.old.tunables.now.table_lazy_init ty.now result (record { maker = maker; limiter = lent request.old.limiter }) (record { maker = maker; limiter = lent request.new.limiter }) }
        ensures request { IsSameRequest request.old request.new }
    {
        let answer = match &mut request.limiter {
            Some(limiter) => {
                let min = ty.limits.min as usize;
                (**limiter).table_growing(0, min, Some(type_maximum(ty) as usize))
            }
            None => Ok(true),
        };
        make_table(alloc, ty, request.tunables, answer)
    }
}

// A memory that isn't one of the module's is for a heap.
fn kind_for(index: Option<DefinedMemoryIndex>) -> MemoryKind
    ensures { result ≡ kind_for index }
{
    match index {
        None => MemoryKind::GcHeap,
        Some(_) => MemoryKind::LinearMemory,
    }
}

// The image of the module's memory with this number.
fn image_for(
    images: Option<&ModuleMemoryImages>,
    index: Option<DefinedMemoryIndex>,
) -> Option<&Arc<MemoryImage>>
    requires inside { IfSome images (λ all. IfSome index (λ i. i.0 < length all.now)) }
    ensures { option_map (λ i. arc_value i.now) result ≡ image_for (option_map (λ i. i.now) images.entry) index }
{
    match index {
        None => None,
        Some(index) => match images {
            None => None,
            Some(images) => images.get_memory_image(index),
        },
    }
}

// What the limiter is asked for: the greatest whole number of the memory's pages where its minimum leaves a `u64`.
fn minimum_asked(ty: &MemoryType) -> usize
    requires { ty.now.page_size_log2 < 64 }
    ensures { result ≡ minimum_asked ty.now }
{
    match ty.minimum_byte_size() {
        Some(minimum) => minimum as usize,
        None => usize::MAX - (ty.page_size() as usize - 1),
    }
}

fn maximum_asked(ty: &MemoryType) -> Option<usize>
    requires { ty.now.page_size_log2 < 64 }
    ensures { result ≡ maximum_asked ty.now }
{
    match ty.maximum_byte_size() {
        Some(maximum) => Some(maximum as usize),
        None => None,
    }
}

// The greatest size of a table of this type: its maximum, or what its addresses reach.
fn type_maximum(ty: &TableType) -> u64
    ensures { result ≡ type_maximum ty.now }
{
    match ty.limits.max {
        Some(most) => most,
        None => match ty.idx_type {
            IndexType::I32 => u32::MAX as u64,
            IndexType::I64 => u64::MAX,
        },
    }
}
