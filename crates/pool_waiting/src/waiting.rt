//! The allocator for threads with the handle of a caller's thread, and what it asks the pool for.
ghost use Rattle.std.specs.Prelude.{◌≡◌, ◌<◌, length, None, Some, IfErr, IfOk, IfSome, IsSome, option_map};
ghost use Rattle.std.specs.Arc.{arc_value};
ghost use Rattle.pool_alloc.specs.Requests.{image_for};
ghost use Rattle.pool_callers.specs.Callers.{IsAllocator, IsCaller};
ghost use Rattle.pool_waiting.specs.Waiting.{affine_for, stripe_for};

use pool_alloc::{MemoryCall, ModuleCall};
use pool_callers::{CallerSeat, PoolingInstanceAllocator};
use pool_driver::{PoolHall, PoolSeat};
use pool_images::{MemoryImage, ModuleMemoryImages};
use pool_index::MemoryInModule;
use pool_pages::{PageMaker, Pages};
use pool_slots::GcHeap;
use pool_types::{CompiledModuleId, DefinedMemoryIndex, MemoryType, ModuleInfo};
use std::alloc::{AllocError, Global};
use std::sync::{Arc, Wait};

/// An allocator for threads, with the handle by which a caller's thread waits for others. It borrows both. Each thread makes its own of the
/// allocator that all share, and makes its calls in a seat of its own: the seat has what is granted, and the caller has the leases.
///
/// A request is the caller's again when its call ends. So a call for an instance copies what is known of the module, with the bytes of its
/// images, and shares the images that were made of it (`ModuleInfo::copy`, `ModuleMemoryImages::share`). Whoever makes many instances of a
/// module asks `PoolingInstanceAllocator::allocate_module`, which takes what is shared already. A call for a memory of the module shares its
/// image.
///
/// A request's stripe is the seat's from then on; where it has none, the seat keeps its own. A table lies in no stripe. The limiter that a
/// request lends is asked by the pool, for each memory and each table when its turn comes. Where it lends none, the pool asks nobody.
///
/// A module that breaks a rule is refused before anything is copied, and nobody is asked of it. `AllocError::Memory` comes where there is no memory
/// for a copy or a share, before the pool is asked, and for an instance also for the lists of its lease. All other errors are those of
/// the allocator's call.
#[derive(Drop)]
pub struct WaitingAllocator<'a, W, P: Pages, H: GcHeap, M: PageMaker> {
    pub(crate) rt: &'a W,
    pub(crate) alloc: Global,
    pub(crate) allocator: &'a PoolingInstanceAllocator<PoolHall<P, H, M>, P, H>,
}

impl<'a, W: Wait, P: Pages, H: GcHeap, M: PageMaker> WaitingAllocator<'a, W, P, H, M> {
    /// `alloc` is what give-backs, purges and draws of a stripe are made with. They take no memory.
    pub fn new(
        rt: &'a W,
        alloc: Global,
        allocator: &'a PoolingInstanceAllocator<PoolHall<P, H, M>, P, H>,
    ) -> Self
        ensures { result.allocator.now ≡ allocator.now }
    {
        WaitingAllocator {
            rt,
            alloc,
            allocator,
        }
    }

    // The seat is in this stripe from now on, if there is one.
    pub(crate) fn put_in(&self, seat: &mut CallerSeat<PoolSeat<P, H, M>, P, H>, stripe: Option<u32>)
        requires pool { IsAllocator M.told self.now.allocator.now }
        requires seat { IsCaller M.told self.now.allocator.now seat.old }
        requires stripe { IfSome stripe (λ stripe. stripe < self.now.allocator.now.pool.settings.num_stripes) }
        ensures seat { IsCaller M.told self.now.allocator.now seat.new }
        ensures same { seat.new ≡ record seat.old { frame = record seat.old.frame { stripe = stripe_for stripe seat.old.frame.stripe } } }
    {
        if let Some(stripe) = stripe {
            self.allocator.set_stripe(seat, stripe);
        }
    }
}

// What the pool is asked with for a memory: a share of its image, where it has one.
pub(crate) fn memory_call(
    images: Option<&ModuleMemoryImages>,
    id: Option<CompiledModuleId>,
    ty: &MemoryType,
    index: Option<DefinedMemoryIndex>,
) -> Result<MemoryCall, AllocError>
    requires inside { IfSome images (λ all. IfSome index (λ i. i.0 < length all.now)) }
    ensures call { IfOk result (λ call. call ≡ record { ty = ty.now; image = image_for (option_map (λ i. i.now) images.entry) index; affine = affine_for id index }) }
    ensures wants { IfErr result (λ _. IsSome (image_for (option_map (λ i. i.now) images.entry) index)) }
{
    Ok(MemoryCall {
        ty: *ty,
        image: share_image(images, index)?,
        affine: affine_for(id, index),
    })
}

// A share of the image of the module's memory with this number, where it has one.
fn share_image(
    images: Option<&ModuleMemoryImages>,
    index: Option<DefinedMemoryIndex>,
) -> Result<Option<Arc<MemoryImage>>, AllocError>
    requires inside { IfSome images (λ all. IfSome index (λ i. i.0 < length all.now)) }
    ensures image { IfOk result (λ image. option_map arc_value image ≡ image_for (option_map (λ i. i.now) images.entry) index) }
    ensures wants { IfErr result (λ _. IsSome (image_for (option_map (λ i. i.now) images.entry) index)) }
{
    let (Some(images), Some(index)) = (images, index) else {
        return Ok(None);
    };
    match images.get_memory_image(index) {
        None => Ok(None),
        Some(image) => Ok(Some(Arc::clone(image)?)),
    }
}

// Which slots a memory may be affine to.
fn affine_for(
    id: Option<CompiledModuleId>,
    index: Option<DefinedMemoryIndex>,
) -> Option<MemoryInModule>
    ensures { result ≡ affine_for id index }
{
    match (id, index) {
        (Some(id), Some(index)) => Some(MemoryInModule(id, index)),
        _ => None,
    }
}

// What the pool is asked with for an instance: a copy of the module, and shares of its images.
pub(crate) fn module_call(
    alloc: Global,
    module: &ModuleInfo,
    images: Option<&ModuleMemoryImages>,
    id: Option<CompiledModuleId>,
) -> Result<ModuleCall, AllocError>
    ensures { IfOk result (λ call. call ≡ record { info = module.now; images = option_map (λ i. i.now) images.entry; id = id }) }
{
    let images = match images {
        None => None,
        Some(images) => Some(shared(alloc, images.share(alloc)?)?),
    };
    Ok(ModuleCall {
        info: shared(alloc, module.copy(alloc)?)?,
        images,
        id,
    })
}

// A value that can be shared.
fn shared<T: Drop>(alloc: Global, value: T) -> Result<Arc<T>, AllocError>
    ensures { IfOk result (λ a. arc_value a ≡ value) }
{
    match Arc::new(alloc, value) {
        Ok(arc) => Ok(arc),
        Err(_) => Err(AllocError),
    }
}
