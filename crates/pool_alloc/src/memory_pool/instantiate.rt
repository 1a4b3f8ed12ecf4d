//! An image slot is emptied where nothing is known of it, and begins as a memory with its image.
ghost use Rattle.std.specs.Prelude.{◌≡◌, ◌<◌, ◌≤◌, ◌^◌, not, Bool, None, length, slice_index_or, Some, IfSome, option_map};
ghost use Rattle.std.specs.Arc.{arc_value};
ghost use Rattle.pool_types.specs.MemoryTypes.{minimum_byte_size};
ghost use Rattle.pool_images.specs.Orders.{Follows, wiping};
ghost use Rattle.pool_images.specs.Slots.{Slot, IsClean, FitsInto, hides};
ghost use Rattle.pool_alloc.specs.CanStep.{HasNext, CanBegin};
ghost use Rattle.pool_alloc.specs.Modules.{IfAllocated};
ghost use Rattle.pool_alloc.specs.PageCallAnswers.{Empties, InstantiatesAs, InstantiatesFor, FollowsPlan, FollowsPlanFor};
ghost use Rattle.pool_alloc.specs.StepReads.{images_wanted, image_wanted, under};
ghost use Rattle.pool_alloc.specs.StepTable.{empty_row, instantiate_row};
ghost use Rattle.pool_alloc.specs.Turns.{After, stepped};
ghost use Rattle.pool_alloc.specs.declared.pool_core.PoolCore.{PoolCore};

use crate::frame::{Asked, Frame, ModuleCall, Phase, TakenSlot};
use crate::pool_core::Settings;
use pool_images::{MemoryImage, MemoryImageSlot};
use pool_pages::Pages;
use pool_slots::{AllocError, GcHeap, ImageSlot};
use pool_types::{DefinedMemoryIndex, MemoryTunables, MemoryType};
use std::sync::Arc;

// Empties an image slot of which nothing is known.
#[inline(never)]
pub(crate) fn empty<P: Pages, H: GcHeap>(
    frame: &mut Frame<P, H>,
    at: TakenSlot,
    held: MemoryImageSlot<P>,
)
    ensures { (fault : Bool) × (after : Slot) × Empties fault held after × Follows (wiping held) (not fault) held.region after.region × ((c : PoolCore P H) → ◌≡◌ {A = After P H} (record { core = c; frame = frame.new; outcome = None }) (stepped (empty_row fault after at c frame.old))) }
{
    let mut held = held;
    let phase = match held.reset_with_anon_memory() {
        Ok(()) => Phase::Instantiate(at, held),
        Err(_) => {
            held.forget();
            frame.fail(AllocError::PageFault);
            Phase::PutBack(at, ImageSlot::Unknown(held))
        }
    };
    frame.go(phase)
}

impl ModuleCall {
    // The image of a memory, where there is one.
    fn image(&self, memory: usize) -> Option<&Arc<MemoryImage>>
        requires small { memory < 2 ^ 32 }
        requires inside { IfSome self.now.images (λ images. memory < length images) }
        ensures { option_map (λ image. arc_value image.now) result ≡ slice_index_or (images_wanted (Asked.Module self.now)) memory None }
    {
        match &self.images {
            None => None,
            Some(images) => images.get_memory_image(DefinedMemoryIndex(memory as u32)),
        }
    }
}

// Instantiates an image slot for the memory that is allocated.
#[inline(never)]
pub(crate) fn instantiate<P: Pages, H: GcHeap>(
    settings: &Settings,
    frame: &mut Frame<P, H>,
    at: TakenSlot,
    held: MemoryImageSlot<P>,
)
    requires next { HasNext frame.old.asked (length frame.old.objects.memories.items) }
    requires clean { IsClean held }
    requires can { IfAllocated frame.old (CanBegin held (image_wanted frame.old)) }
    ensures { (fault : Bool) × (after : Slot) × IfAllocated frame.old (λ decl. InstantiatesFor settings.now decl fault (image_wanted frame.old) held after) × IfAllocated frame.old (λ decl. FollowsPlanFor settings.now decl fault (image_wanted frame.old) held after) × ((c : PoolCore P H) → ◌≡◌ {A = After P H} (record { core = under settings.now c.plan c; frame = frame.new; outcome = None }) (stepped (instantiate_row fault after at (under settings.now c.plan c) frame.old))) }
{
    let mut held = held;
    let fault = begin(settings, frame, &mut held);
    begun(frame, fault, at, held)
}

// Whether a page call failed.
fn begin<P: Pages, H: GcHeap>(
    settings: &Settings,
    frame: &Frame<P, H>,
    held: &mut MemoryImageSlot<P>,
) -> bool
    requires next { HasNext frame.now.asked (length frame.now.objects.memories.items) }
    requires clean { IsClean held.old }
    requires can { IfAllocated frame.now (CanBegin held.old (image_wanted frame.now)) }
    ensures begun { IfAllocated frame.now (λ decl. InstantiatesFor settings.now decl result (image_wanted frame.now) held.old held.new) }
    ensures planned { IfAllocated frame.now (λ decl. FollowsPlanFor settings.now decl result (image_wanted frame.now) held.old held.new) }
{
    let memory = frame.objects.memories.len();
    match &frame.asked {
        Asked::Nothing | Asked::Table(_) | Asked::Stack | Asked::HeapOver(_) => unreachable!(),
        Asked::Module(call) => {
            let decl = &call.info.memories.as_slice()[memory];
            let image = call.image(memory);
            begin_memory(&decl.ty, &settings.tunables, image, held)
        }
        Asked::Memory(call) => {
            begin_memory(&call.ty, &settings.tunables, call.image.as_ref(), held)
        }
        Asked::Heap(ty) => begin_memory(ty, &settings.tunables, None, held),
    }
}

// Whether a page call failed.
fn begin_memory<P: Pages>(
    ty: &MemoryType,
    tunables: &MemoryTunables,
    image: Option<&Arc<MemoryImage>>,
    held: &mut MemoryImageSlot<P>,
) -> bool
    requires clean { IsClean held.old }
    requires page_log2 { ty.now.page_size_log2 < 64 }
    requires minimum { minimum_byte_size ty.now ≤ held.old.static_size }
    requires bounded { held.old.static_size < 2 ^ 64 }
    requires image_fits { IfSome image (λ i. FitsInto held.old.region.page (minimum_byte_size ty.now) (arc_value i.now)) }
    ensures begun { InstantiatesAs result (minimum_byte_size ty.now) (hides ty.now tunables.now held.old.region.page) (option_map (λ i. arc_value i.now) image.entry) held.old held.new }
    ensures planned { FollowsPlan (minimum_byte_size ty.now) (hides ty.now tunables.now held.old.region.page) (option_map (λ i. arc_value i.now) image.entry) result held.old held.new }
{
    let fault = held
        .instantiate(minimum_of(ty), image, ty, tunables)
        .is_err();
    let _accessible = held.accessible();
    fault
}

// What comes after an instantiation.
fn begun<P: Pages, H: GcHeap>(
    frame: &mut Frame<P, H>,
    fault: bool,
    at: TakenSlot,
    held: MemoryImageSlot<P>,
)
    ensures { (c : PoolCore P H) → ◌≡◌ {A = After P H} (record { core = c; frame = frame.new; outcome = None }) (stepped (instantiate_row fault held at c frame.old)) }
{
    let mut held = held;
    if fault {
        held.forget();
        frame.fail(AllocError::PageFault);
        frame.go(Phase::PutBack(at, ImageSlot::Unknown(held)))
    } else {
        frame.go(Phase::MakeMemory(at, held))
    }
}

fn minimum_of(ty: &MemoryType) -> usize
    requires page_log2 { ty.now.page_size_log2 < 64 }
    requires small { minimum_byte_size ty.now < 2 ^ 64 }
    ensures { result ≡ minimum_byte_size ty.now }
{
    (ty.limits.min * ty.page_size()) as usize
}
