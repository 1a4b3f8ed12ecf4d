//! Instances of modules, from one caller.
ghost use Rattle.std.specs.Prelude.{◌≡◌, ◌<◌, length, IfOk, IfSome};
ghost use Rattle.std.specs.Arc.{arc_value};
ghost use Rattle.pool_hall.specs.Seat.{view};
ghost use Rattle.pool_alloc.specs.Requests.{AreImagesOf, IsModule};
ghost use Rattle.pool_callers.specs.Callers.{IsAllocator, IsCaller, Keeps};

use pool_alloc::ModuleCall;
use pool_callers::{CallerSeat, PoolingInstanceAllocator};
use pool_driver::{PoolHall, PoolSeat};
use pool_images::{ImageError, ModuleMemoryImages};
use pool_index::ShardId;
use pool_limits::{ResourceLimiter, Trap};
use pool_pages::{PageMaker, Pages};
use pool_slots::{AllocError, GcHeap};
use pool_types::{
    CompiledModuleId, ImageDecl, IndexType, Limits, MemoryDecl, MemoryType, ModuleInfo, PageSize,
    PlainList,
};
use std::alloc::Global;
use std::sync::{Arc, Wait};

/// A module with one memory of one WebAssembly page, which begins with these bytes, if any.
pub fn module_with(alloc: Global, bytes: &[u8]) -> Result<ModuleInfo, std::alloc::AllocError>
    ensures module { IfOk result IsModule }
    ensures some { IfOk result (λ m. 0 < length m.memories) }
{
    let mut image = None;
    if !bytes.is_empty() {
        let mut list = Vec::with_capacity(alloc, bytes.len())?;
        list.extend_from_slice(bytes)?;
        image = Some(ImageDecl {
            offset: 0,
            bytes: PlainList::from_vec(list),
        });
    }
    let ty = MemoryType {
        idx_type: IndexType::I32,
        limits: Limits { min: 1, max: None },
        shared: false,
        page_size_log2: 16,
    };
    let mut memories = Vec::with_capacity(alloc, 1)?;
    memories.push_reserved(MemoryDecl { ty, image });
    Ok(ModuleInfo {
        memories: PlainList::from_vec(memories),
        tables: PlainList::new(alloc),
        state_bytes: 0,
        parts: PlainList::new(alloc),
    })
}

/// What a caller asks with for instances of a module: the module, and the images of its memories, which are made here.
pub fn module_call<M: PageMaker>(
    alloc: Global,
    maker: &mut M,
    page: PageSize,
    id: CompiledModuleId,
    info: ModuleInfo,
) -> Result<ModuleCall, ImageError>
    requires module { IsModule info }
    ensures module { IfOk result (λ call. call.info ≡ info) }
    ensures images { IfOk result (λ call. IfSome call.images (AreImagesOf page info)) }
    ensures maker { M.told maker.new ≡ record (M.told maker.old) { behind = (M.told maker.new).behind; faults = (M.told maker.new).faults } }
{
    let images = match ModuleMemoryImages::new(alloc, maker, page, id, &info)? {
        Some(images) => Some(shared(alloc, images)?),
        None => None,
    };
    let info = shared(alloc, info)?;
    Ok(ModuleCall {
        info,
        images,
        id: Some(id),
    })
}

// A value that can be shared.
fn shared<T: Drop>(alloc: Global, value: T) -> Result<Arc<T>, ImageError>
    ensures { IfOk result (λ a. arc_value a ≡ value) }
{
    match Arc::new(alloc, value) {
        Ok(arc) => Ok(arc),
        Err(_) => Err(ImageError::Memory),
    }
}

/// The same once more, for another instance.
pub fn once_more(call: &ModuleCall) -> Result<ModuleCall, std::alloc::AllocError>
    ensures { IfOk result (λ c. c ≡ call.now) }
{
    let images = match &call.images {
        Some(images) => Some(Arc::clone(images)?),
        None => None,
    };
    Ok(ModuleCall {
        info: Arc::clone(&call.info)?,
        images,
        id: call.id,
    })
}

/// Makes an instance of a module that has a memory, writes bytes into its first one, and gives it back. Answers what the write did, or why there
/// was no instance.
pub fn write_and_drop<P: Pages, H: GcHeap, M: PageMaker, R: Wait, L: ResourceLimiter>(
    rt: &R,
    alloc: Global,
    allocator: &PoolingInstanceAllocator<PoolHall<P, H, M>, P, H>,
    home: ShardId,
    seat: &mut CallerSeat<PoolSeat<P, H, M>, P, H>,
    request: ModuleCall,
    limiter: &mut L,
    at: u64,
    bytes: &[u8],
) -> Result<Result<(), Trap>, AllocError>
    requires pool { IsAllocator M.told allocator.now }
    requires seat { IsCaller M.told allocator.now seat.old }
    requires request { IsModule request.info }
    requires some { 0 < length request.info.memories }
    requires images { IfSome request.images (AreImagesOf allocator.now.pool.settings.page request.info) }
    ensures seat { IsCaller M.told allocator.now seat.new }
    ensures keeps { Keeps (view seat.old.seat) (view seat.new.seat) }
    ensures portions { (view seat.new.seat).portions ≡ (view seat.old.seat).portions }
{
    let mut instance = allocator.allocate_module(rt, alloc, home, seat, request, limiter)?;
    let written = instance.memories.write(0, at, bytes);
    allocator.deallocate_module(rt, alloc, home, seat, instance);
    Ok(written)
}

/// Makes two instances, and gives them back in the order in which they came. Answers whether both were granted.
pub fn two_at_once<P: Pages, H: GcHeap, M: PageMaker, R: Wait, L: ResourceLimiter>(
    rt: &R,
    alloc: Global,
    allocator: &PoolingInstanceAllocator<PoolHall<P, H, M>, P, H>,
    home: ShardId,
    seat: &mut CallerSeat<PoolSeat<P, H, M>, P, H>,
    first: ModuleCall,
    second: ModuleCall,
    limiter: &mut L,
) -> Result<(), AllocError>
    requires pool { IsAllocator M.told allocator.now }
    requires seat { IsCaller M.told allocator.now seat.old }
    requires first { IsModule first.info }
    requires first_images { IfSome first.images (AreImagesOf allocator.now.pool.settings.page first.info) }
    requires second { IsModule second.info }
    requires second_images { IfSome second.images (AreImagesOf allocator.now.pool.settings.page second.info) }
    ensures seat { IsCaller M.told allocator.now seat.new }
    ensures keeps { Keeps (view seat.old.seat) (view seat.new.seat) }
    ensures portions { (view seat.new.seat).portions ≡ (view seat.old.seat).portions }
{
    let one = allocator.allocate_module(rt, alloc, home, seat, first, limiter)?;
    match allocator.allocate_module(rt, alloc, home, seat, second, limiter) {
        Ok(other) => {
            allocator.deallocate_module(rt, alloc, home, seat, one);
            allocator.deallocate_module(rt, alloc, home, seat, other);
            Ok(())
        }
        Err(refusal) => {
            allocator.deallocate_module(rt, alloc, home, seat, one);
            Err(refusal)
        }
    }
}
