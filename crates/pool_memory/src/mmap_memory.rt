ghost use Rattle.std.specs.Prelude.{◌≡◌, ◌<◌, ◌≤◌, true, false, Some, Ok, is_ok, IfOk, IfErr, OnOk, OnErr};
ghost use Rattle.std.specs.Arc.{arc_value};
ghost use Rattle.std.specs.Result.{result_err};
ghost use Rattle.pool_images.specs.Slots.{IsSlot};
ghost use Rattle.pool_memory.specs.Growing.{GrowsTo, IsUngrown};
ghost use Rattle.pool_memory.specs.Layouts.{first_layout};
ghost use Rattle.pool_memory.specs.Mapped.{IsMapped, IsMadeSlot, HasMoved, mapped_linear, mapped_capacity, is_reserved, extra_on_growth};
ghost use Rattle.pool_memory.specs.Moving.{MakerLeft, MakingLeaves, slot_for};
ghost use Rattle.pool_memory.specs.Starting.{takes_image, ImageFits, HasStarted, HasNotStarted, StartsBy};

use crate::linear_memory::RuntimeLinearMemory;
use crate::memory_error::MemoryError;
use crate::moving::{copy_bytes, make_slot};
use crate::region_layout::RegionLayout;
use pool_images::{MemoryImage, MemoryImageSlot};
use pool_limits::GrowError;
use pool_pages::{MakeFault, PageFault, PageMaker, Pages};
use pool_types::{MemoryTunables, MemoryType, Unsupported};
use std::alloc::Global;
use std::marker::Model;
use std::sync::Arc;

/// A linear memory in a region that it has to itself, with guards before and behind it. Beyond its capacity it moves to a
/// larger region, and so it keeps the allocator.
#[derive(Drop)]
pub struct MmapMemory<P: Pages> {
    slot: MemoryImageSlot<P>,
    size: usize,
    layout: RegionLayout,
    /// How many bytes more than it needs the memory takes when it moves, so that it needn't move again soon.
    extra_to_reserve_on_growth: u64,
    // Whether it is as it was made, but for its size: neither written, nor grown, nor given an image.
    as_made: bool,
    // Whether it is known what the slot holds. It isn't any more once the mapping of an image failed.
    known: bool,
    alloc: Global,
}

impl<P: Pages> Model for MmapMemory<P> {
    ghost use Rattle.pool_memory.specs.Mapped.{Mapped, KeepsLayout};

    ghost Value = { Mapped };

    ghost view = { λ m. record { slot = m.slot; size = m.size; extra = m.extra_to_reserve_on_growth; as_made = m.as_made; known = m.known } };

    ghost invariant = { λ m. KeepsLayout m.layout (record { slot = m.slot; size = m.size; extra = m.extra_to_reserve_on_growth; as_made = m.as_made; known = m.known }) };
}

impl<P: Pages> MmapMemory<P> {
    /// A memory of `minimum` bytes, all zeros, in one region that `maker` makes. The settings say how much is reserved for
    /// it, and how large the guards are. `AddressSpace` where addresses don't reach the end of that; otherwise `PageFault`
    /// or `Memory` alone.
    pub fn new<M: PageMaker<Region = P>>(
        alloc: Global,
        maker: &mut M,
        _ty: &MemoryType,
        tunables: &MemoryTunables,
        minimum: usize,
        maximum: Option<usize>,
    ) -> Result<MmapMemory<P>, MemoryError>
        ensures ok { IfOk result (λ m. m ≡ record { slot = slot_for (M.told maker.old) (first_layout (M.told maker.old).page tunables.now minimum) minimum; size = minimum; extra = extra_on_growth tunables.now minimum maximum; as_made = true; known = true }) }
        ensures made { IfOk result (λ m. IsMadeSlot (first_layout (M.told maker.old).page tunables.now minimum) minimum m.slot) }
        ensures borrows { M.borrows maker.new ≡ M.borrows maker.old }
        ensures maker { MakingLeaves (first_layout (M.told maker.old).page tunables.now minimum) minimum result (M.told maker.old) (M.told maker.new) }
    {
        let Some(layout) = RegionLayout::for_memory(maker.page(), tunables, minimum) else {
            return Err(MemoryError::Unsupported(Unsupported::AddressSpace));
        };
        match make_slot(alloc, maker, &layout, minimum) {
            Ok(slot) => Ok(MmapMemory {
                slot,
                size: minimum,
                layout,
                extra_to_reserve_on_growth: extra_on_growth(tunables, minimum, maximum),
                as_made: true,
                known: true,
                alloc,
            }),
            Err(MakeFault::Memory) => Err(MemoryError::Memory),
            Err(MakeFault::PageFault) => Err(MemoryError::PageFault),
        }
    }

    /// How large it can become without moving.
    fn capacity(&self) -> usize
        ensures { result ≡ mapped_capacity self.now }
    {
        if self.known {
            self.layout.capacity().byte_count()
        } else {
            0
        }
    }

    // What holds of every such memory, for the proofs of its callers here.
    fn fits(&self)
        ensures mapped { IsMapped self.now }
        ensures slot { IsSlot self.now.slot }
    {
        let _accessible = self.slot.accessible();
    }

    // Exposes what is missing to a size that the memory can have without moving.
    fn grow_in_place(&mut self, size: usize) -> Result<(), GrowError>
        requires more { self.old.size ≤ size }
        requires room { size ≤ mapped_capacity self.old }
        ensures ok { OnOk result (GrowsTo size (mapped_linear self.old) (mapped_linear self.new)) }
        ensures err { IfErr result (λ e. IsUngrown e size (mapped_linear self.old) (mapped_linear self.new)) }
    {
        self.fits();
        if !self.known {
            return Ok(());
        }
        self.as_made = false;
        match self.slot.set_heap_limit(size) {
            Ok(()) => {
                self.size = size;
                Ok(())
            }
            Err(PageFault) => Err(GrowError::PageFault),
        }
    }

    // Moves to a larger region. The memory keeps its slot until its bytes are there.
    fn grow_by_move<M: PageMaker<Region = P>>(
        &mut self,
        maker: &mut M,
        size: usize,
    ) -> Result<(), GrowError>
        requires more { mapped_capacity self.old < size }
        ensures ok { OnOk result (GrowsTo size (mapped_linear self.old) (mapped_linear self.new)) }
        ensures err { IfErr result (λ e. IsUngrown e size (mapped_linear self.old) (mapped_linear self.new)) }
        ensures maker { MakerLeft (result_err result) size (mapped_linear self.old) (mapped_linear self.new) (Some (M.told maker.old)) (Some (M.told maker.new)) }
        ensures borrows { M.borrows maker.new ≡ M.borrows maker.old }
    {
        let Some(layout) = self.layout.moved(size, self.extra_to_reserve_on_growth) else {
            return Err(GrowError::Overflow);
        };
        match make_slot(self.alloc, maker, &layout, size) {
            Ok(slot) => {
                self.move_to(slot, layout, size);
                Ok(())
            }
            Err(MakeFault::Memory) => Err(GrowError::Memory),
            Err(MakeFault::PageFault) => Err(GrowError::PageFault),
        }
    }

    // Copies the bytes to another slot, which is the memory's then.
    fn move_to(&mut self, mut slot: MemoryImageSlot<P>, layout: RegionLayout, size: usize)
        requires more { self.old.size ≤ size }
        requires made { IsMadeSlot layout size slot }
        ensures { HasMoved size slot self.old self.new }
    {
        if self.known {
            copy_bytes(&self.slot, &mut slot, self.size);
        }
        self.slot = slot;
        self.layout = layout;
        self.size = size;
        self.as_made = false;
        self.known = true;
    }

    fn map_first(
        &mut self,
        ty: &MemoryType,
        tunables: &MemoryTunables,
        image: &Arc<MemoryImage>,
    ) -> Result<bool, PageFault>
        requires as_made { self.old.as_made ≡ true }
        requires page { ty.now.page_size_log2 < 64 }
        requires fits { ImageFits (arc_value image.now) (mapped_linear self.old) }
        ensures takes { IfOk result (λ taken. taken ≡ takes_image (mapped_linear self.old)) }
        ensures started { result ≡ Ok true → HasStarted (arc_value image.now) (mapped_linear self.old) (mapped_linear self.new) }
        ensures same { result ≡ Ok false → self.new ≡ self.old }
        ensures fault { OnErr result (HasNotStarted (mapped_linear self.old) (mapped_linear self.new)) }
        ensures order { StartsBy ty.now tunables.now (arc_value image.now) (is_ok result) (mapped_linear self.old) (mapped_linear self.new) }
    {
        self.fits();
        if self.size % self.slot.region().page().get() != 0 {
            return Ok(false);
        }
        self.as_made = false;
        let begun = self.slot.instantiate(self.size, Some(image), ty, tunables);
        let _accessible = self.slot.accessible();
        match begun {
            Ok(()) => Ok(true),
            Err(fault) => {
                self.size = 0;
                self.known = false;
                Err(fault)
            }
        }
    }
}

// How many bytes more than it needs a memory takes when it moves: none where what is reserved holds its least and its
// greatest size.
fn extra_on_growth(tunables: &MemoryTunables, minimum: usize, maximum: Option<usize>) -> u64
    ensures { result ≡ extra_on_growth tunables.now minimum maximum }
{
    if is_reserved(tunables, minimum as u64, maximum) {
        0
    } else {
        tunables.reservation_for_growth()
    }
}

fn is_reserved(tunables: &MemoryTunables, minimum: u64, maximum: Option<usize>) -> bool
    ensures { result ≡ is_reserved tunables.now minimum maximum }
{
    match maximum {
        Some(maximum) => {
            minimum <= tunables.reservation() && maximum as u64 <= tunables.reservation()
        }
        None => false,
    }
}

impl<P: Pages, M: PageMaker<Region = P>> RuntimeLinearMemory<M> for MmapMemory<P> {
    ghost use Rattle.std.specs.Prelude.{Some};
    ghost use Rattle.pool_memory.specs.Mapped.{mapped_linear};

    ghost linear = { mapped_linear };

    ghost untouched = { λ m. m.as_made };

    ghost maker_told = { λ m. Some (M.told m) };

    ghost maker_borrows = { M.borrows };

    fn byte_size(&self) -> usize {
        self.fits();
        self.size
    }

    fn byte_capacity(&self) -> usize {
        self.capacity()
    }

    fn can_move(&self) -> bool {
        true
    }

    fn has_image(&self) -> bool {
        self.slot.has_image()
    }

    fn read(&self, at: usize, out: &mut [u8]) {
        if out.is_empty() {
            return;
        }
        self.slot.read(at, out)
    }

    fn write(&mut self, at: usize, bytes: &[u8]) {
        if bytes.is_empty() {
            return;
        }
        self.fits();
        self.as_made = false;
        self.slot.write(at, bytes)
    }

    fn fill(&mut self, at: usize, len: usize, byte: u8) {
        if len == 0 {
            return;
        }
        self.fits();
        self.as_made = false;
        self.slot.fill(at, len, byte)
    }

    fn grow_to(&mut self, maker: &mut M, size: usize) -> Result<(), GrowError> {
        if size <= self.capacity() {
            self.grow_in_place(size)
        } else {
            self.grow_by_move(maker, size)
        }
    }

    fn set_byte_size(&mut self, len: usize) {
        self.fits();
        self.size = len;
    }

    fn start_image(
        &mut self,
        ty: &MemoryType,
        tunables: &MemoryTunables,
        image: &Arc<MemoryImage>,
    ) -> Result<bool, PageFault> {
        self.map_first(ty, tunables, image)
    }
}
