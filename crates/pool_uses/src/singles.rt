//! A memory or a table by itself, from one caller.
ghost use Rattle.std.specs.Prelude.{◌≡◌, ◌<◌, true, length, replicate, OnOk, IfOk, IfSome};
ghost use Rattle.pool_hall.specs.Seat.{view};
ghost use Rattle.pool_alloc.specs.Requests.{IsMemoryOf, image_at};
ghost use Rattle.pool_alloc.specs.TableLeases.{CanBeSet, element_of};
ghost use Rattle.pool_callers.specs.Callers.{IsAllocator, IsCaller, Keeps, about_pool};
ghost use Rattle.pool_uses.specs.Requests.{IsRequest, empty_element, kind_made, plain_memory};

use pool_alloc::{Element, MemoryCall, ModuleCall};
use pool_callers::{CallerSeat, PoolingInstanceAllocator};
use pool_driver::{PoolHall, PoolSeat};
use pool_index::{MemoryInModule, ShardId};
use pool_limits::{ResourceLimiter, Trap};
use pool_pages::{PageMaker, Pages};
use pool_slots::{AllocError, GcHeap};
use pool_table::{GcStore, GcTableError};
use pool_types::{DefinedMemoryIndex, MemoryType, TableType};
use std::alloc::Global;
use std::sync::{Arc, Wait};

/// Asks for a memory of this type, writes bytes into it, and gives it back. Answers what the write did, or why there was no memory.
pub fn write_a_memory<P: Pages, H: GcHeap, M: PageMaker, R: Wait, L: ResourceLimiter>(
    rt: &R,
    alloc: Global,
    allocator: &PoolingInstanceAllocator<PoolHall<P, H, M>, P, H>,
    home: ShardId,
    seat: &mut CallerSeat<PoolSeat<P, H, M>, P, H>,
    ty: MemoryType,
    limiter: &mut L,
    at: u64,
    bytes: &[u8],
) -> Result<Result<(), Trap>, AllocError>
    requires pool { IsAllocator M.told allocator.now }
    requires seat { IsCaller M.told allocator.now seat.old }
    requires page { ty.page_size_log2 < 64 }
    ensures seat { IsCaller M.told allocator.now seat.new }
    ensures keeps { Keeps (view seat.old.seat) (view seat.new.seat) }
    ensures portions { (view seat.new.seat).portions ≡ (view seat.old.seat).portions }
{
    allocator.validate_memory(&ty)?;
    let mut memory = allocator.allocate_memory(rt, alloc, home, seat, plain(ty), limiter)?;
    let written = memory.write(at, bytes);
    allocator.deallocate_memory(rt, alloc, home, seat, memory);
    Ok(written)
}

/// Asks for a memory of this type, reads bytes of it, and gives it back. They are zeros, whatever lay in its slot before. Answers what the read did,
/// or why there was no memory.
pub fn read_a_memory<P: Pages, H: GcHeap, M: PageMaker, R: Wait, L: ResourceLimiter>(
    rt: &R,
    alloc: Global,
    allocator: &PoolingInstanceAllocator<PoolHall<P, H, M>, P, H>,
    home: ShardId,
    seat: &mut CallerSeat<PoolSeat<P, H, M>, P, H>,
    ty: MemoryType,
    limiter: &mut L,
    at: u64,
    out: &mut [u8],
) -> Result<Result<(), Trap>, AllocError>
    requires pool { IsAllocator M.told allocator.now }
    requires seat { IsCaller M.told allocator.now seat.old }
    requires page { ty.page_size_log2 < 64 }
    ensures seat { IsCaller M.told allocator.now seat.new }
    ensures keeps { Keeps (view seat.old.seat) (view seat.new.seat) }
    ensures portions { (view seat.new.seat).portions ≡ (view seat.old.seat).portions }
    ensures zeros { (about_pool M.told allocator.now).maker.tells ≡ true → IfOk result (λ read. OnOk read (out.new ≡ replicate (length out.old) 0)) }
{
    allocator.validate_memory(&ty)?;
    let memory = allocator.allocate_memory(rt, alloc, home, seat, plain(ty), limiter)?;
    let read = memory.memory.read(at, out);
    allocator.deallocate_memory(rt, alloc, home, seat, memory);
    Ok(read)
}

/// What a caller asks with for one memory of a module by itself: its type, its image, and its name, by which it may find a slot that it was in
/// before. The image is shared.
pub fn memory_call(
    call: &ModuleCall,
    index: DefinedMemoryIndex,
) -> Result<MemoryCall, std::alloc::AllocError>
    requires index { index.0 < length call.now.info.memories }
    requires images { IfSome call.now.images (λ images. length images ≡ length call.now.info.memories) }
    ensures memory { IfOk result (λ memory. IsMemoryOf call.now.info memory.ty index) }
    ensures image { IfOk result (λ memory. memory.image ≡ image_at call.now.images index.0) }
{
    let image = match &call.images {
        Some(images) => match images.get_memory_image(index) {
            Some(image) => Some(Arc::clone(image)?),
            None => None,
        },
        None => None,
    };
    Ok(MemoryCall {
        ty: call.info.memories.as_slice()[index.0 as usize].ty,
        image,
        affine: match call.id {
            None => None,
            Some(id) => Some(MemoryInModule(id, index)),
        },
    })
}

/// Asks for one memory of a module by itself, reads bytes of it, and gives it back. Answers what the read did, or why there was no memory.
pub fn read_one_of<P: Pages, H: GcHeap, M: PageMaker, R: Wait, L: ResourceLimiter>(
    rt: &R,
    alloc: Global,
    allocator: &PoolingInstanceAllocator<PoolHall<P, H, M>, P, H>,
    home: ShardId,
    seat: &mut CallerSeat<PoolSeat<P, H, M>, P, H>,
    call: &ModuleCall,
    index: DefinedMemoryIndex,
    limiter: &mut L,
    at: u64,
    out: &mut [u8],
) -> Result<Result<(), Trap>, AllocError>
    requires pool { IsAllocator M.told allocator.now }
    requires seat { IsCaller M.told allocator.now seat.old }
    requires request { IsRequest allocator.now.pool.settings.page call.now }
    requires index { index.0 < length call.now.info.memories }
    ensures seat { IsCaller M.told allocator.now seat.new }
    ensures keeps { Keeps (view seat.old.seat) (view seat.new.seat) }
    ensures portions { (view seat.new.seat).portions ≡ (view seat.old.seat).portions }
{
    let Ok(request) = memory_call(call, index) else {
        return Err(AllocError::Memory);
    };
    allocator.validate_memory(&request.ty)?;
    let memory = allocator.allocate_memory(rt, alloc, home, seat, request, limiter)?;
    let read = memory.memory.read(at, out);
    allocator.deallocate_memory(rt, alloc, home, seat, memory);
    Ok(read)
}

// A memory of this type without an image, which may have any slot.
fn plain(ty: MemoryType) -> MemoryCall
    ensures { result ≡ plain_memory ty }
{
    MemoryCall {
        ty,
        image: None,
        affine: None,
    }
}

/// Asks for a table of this type, sets its first elements, and gives it back. Answers what that did, or why there was no table.
pub fn fill_a_table<P: Pages, H: GcHeap, M: PageMaker, R: Wait, L: ResourceLimiter, G: GcStore>(
    rt: &R,
    alloc: Global,
    allocator: &PoolingInstanceAllocator<PoolHall<P, H, M>, P, H>,
    home: ShardId,
    seat: &mut CallerSeat<PoolSeat<P, H, M>, P, H>,
    ty: TableType,
    limiter: &mut L,
    store: &mut G,
    element: Element,
    len: u64,
) -> Result<Result<(), GcTableError>, AllocError>
    requires pool { IsAllocator M.told allocator.now }
    requires seat { IsCaller M.told allocator.now seat.old }
    requires element { CanBeSet (kind_made allocator.now.pool.settings ty) (element_of element) }
    ensures seat { IsCaller M.told allocator.now seat.new }
    ensures keeps { Keeps (view seat.old.seat) (view seat.new.seat) }
    ensures portions { (view seat.new.seat).portions ≡ (view seat.old.seat).portions }
{
    if let Err(rule) = ty.check() {
        return Err(AllocError::Unsupported(rule));
    }
    let mut table = allocator.allocate_table(rt, alloc, home, seat, ty, limiter)?;
    let filled = table.fill(store, 0, element, len);
    allocator.deallocate_table(rt, alloc, home, seat, table);
    Ok(filled)
}

/// Asks for a table of this type, looks at one of its elements, and gives it back. It is empty, whatever lay in its slot before. Answers which it
/// is, or why there was no table.
pub fn look_at_a_table<P: Pages, H: GcHeap, M: PageMaker, R: Wait, L: ResourceLimiter>(
    rt: &R,
    alloc: Global,
    allocator: &PoolingInstanceAllocator<PoolHall<P, H, M>, P, H>,
    home: ShardId,
    seat: &mut CallerSeat<PoolSeat<P, H, M>, P, H>,
    ty: TableType,
    limiter: &mut L,
    at: u64,
) -> Result<Result<Element, Trap>, AllocError>
    requires pool { IsAllocator M.told allocator.now }
    requires seat { IsCaller M.told allocator.now seat.old }
    ensures seat { IsCaller M.told allocator.now seat.new }
    ensures keeps { Keeps (view seat.old.seat) (view seat.new.seat) }
    ensures portions { (view seat.new.seat).portions ≡ (view seat.old.seat).portions }
    ensures empty { (about_pool M.told allocator.now).maker.tells ≡ true → IfOk result (λ look. IfOk look (λ element. element_of element ≡ empty_element allocator.now.pool.settings ty)) }
{
    if let Err(rule) = ty.check() {
        return Err(AllocError::Unsupported(rule));
    }
    let table = allocator.allocate_table(rt, alloc, home, seat, ty, limiter)?;
    let element = table.get(at);
    allocator.deallocate_table(rt, alloc, home, seat, table);
    Ok(element)
}
