ghost use Rattle.pool_pages.specs.MadeRegions.{made_told};

use crate::image_data::ImageData;
use crate::memory_region::MemoryRegion;
use crate::pages::{PageCalls, PageFault, Pages, RegionName};
use crate::zeroing_region::ZeroingRegion;
use pool_types::{DecommitBehavior, HostAlignedByteCount, PageSize};

/// A region in memory of either behaviour. It lies in memory of its own, so that to move it is to move a pointer.
#[derive(Drop)]
pub enum MadeRegion {
    Memory(Box<MemoryRegion>),
    Zeroing(Box<ZeroingRegion>),
}

impl Pages for MadeRegion {
    ghost told = { made_told };

    fn name(&self) -> RegionName {
        match self {
            MadeRegion::Memory(region) => region.name(),
            MadeRegion::Zeroing(region) => region.name(),
        }
    }

    fn page(&self) -> PageSize {
        match self {
            MadeRegion::Memory(region) => region.page(),
            MadeRegion::Zeroing(region) => region.page(),
        }
    }

    fn len(&self) -> HostAlignedByteCount {
        match self {
            MadeRegion::Memory(region) => region.len(),
            MadeRegion::Zeroing(region) => region.len(),
        }
    }

    fn faults(&self) -> u64 {
        match self {
            MadeRegion::Memory(region) => region.faults(),
            MadeRegion::Zeroing(region) => region.faults(),
        }
    }

    fn calls(&self) -> PageCalls {
        match self {
            MadeRegion::Memory(region) => region.calls(),
            MadeRegion::Zeroing(region) => region.calls(),
        }
    }

    fn behaviour(&self) -> DecommitBehavior {
        match self {
            MadeRegion::Memory(region) => region.behaviour(),
            MadeRegion::Zeroing(region) => region.behaviour(),
        }
    }

    fn colour(&self, page: usize) -> u8 {
        match self {
            MadeRegion::Memory(region) => region.colour(page),
            MadeRegion::Zeroing(region) => region.colour(page),
        }
    }

    fn dirty(&self, page: usize) -> bool {
        match self {
            MadeRegion::Memory(region) => region.dirty(page),
            MadeRegion::Zeroing(region) => region.dirty(page),
        }
    }

    fn expose(
        &mut self,
        start: HostAlignedByteCount,
        len: HostAlignedByteCount,
    ) -> Result<(), PageFault> {
        match self {
            MadeRegion::Memory(region) => region.expose(start, len),
            MadeRegion::Zeroing(region) => region.expose(start, len),
        }
    }

    fn hide(
        &mut self,
        start: HostAlignedByteCount,
        len: HostAlignedByteCount,
    ) -> Result<(), PageFault> {
        match self {
            MadeRegion::Memory(region) => region.hide(start, len),
            MadeRegion::Zeroing(region) => region.hide(start, len),
        }
    }

    fn map_image(
        &mut self,
        start: HostAlignedByteCount,
        image: &ImageData,
    ) -> Result<(), PageFault> {
        match self {
            MadeRegion::Memory(region) => region.map_image(start, image),
            MadeRegion::Zeroing(region) => region.map_image(start, image),
        }
    }

    fn remap_zeros(
        &mut self,
        start: HostAlignedByteCount,
        len: HostAlignedByteCount,
    ) -> Result<(), PageFault> {
        match self {
            MadeRegion::Memory(region) => region.remap_zeros(start, len),
            MadeRegion::Zeroing(region) => region.remap_zeros(start, len),
        }
    }

    fn erase(
        &mut self,
        start: HostAlignedByteCount,
        len: HostAlignedByteCount,
    ) -> Result<(), PageFault> {
        match self {
            MadeRegion::Memory(region) => region.erase(start, len),
            MadeRegion::Zeroing(region) => region.erase(start, len),
        }
    }

    fn recolour(
        &mut self,
        start: HostAlignedByteCount,
        len: HostAlignedByteCount,
        colour: u8,
    ) -> Result<(), PageFault> {
        match self {
            MadeRegion::Memory(region) => region.recolour(start, len, colour),
            MadeRegion::Zeroing(region) => region.recolour(start, len, colour),
        }
    }

    fn decommit(
        &mut self,
        start: HostAlignedByteCount,
        len: HostAlignedByteCount,
    ) -> Result<(), PageFault> {
        match self {
            MadeRegion::Memory(region) => region.decommit(start, len),
            MadeRegion::Zeroing(region) => region.decommit(start, len),
        }
    }

    fn read(&self, at: usize, out: &mut [u8]) {
        match self {
            MadeRegion::Memory(region) => region.read(at, out),
            MadeRegion::Zeroing(region) => region.read(at, out),
        }
    }

    fn holds(&self, at: usize, bytes: &[u8]) -> bool {
        match self {
            MadeRegion::Memory(region) => region.holds(at, bytes),
            MadeRegion::Zeroing(region) => region.holds(at, bytes),
        }
    }

    fn write(&mut self, at: usize, bytes: &[u8]) {
        match self {
            MadeRegion::Memory(region) => region.write(at, bytes),
            MadeRegion::Zeroing(region) => region.write(at, bytes),
        }
    }

    fn fill(&mut self, at: usize, len: usize, byte: u8) {
        match self {
            MadeRegion::Memory(region) => region.fill(at, len, byte),
            MadeRegion::Zeroing(region) => region.fill(at, len, byte),
        }
    }

    fn restore(&mut self, at: usize, len: usize) {
        match self {
            MadeRegion::Memory(region) => region.restore(at, len),
            MadeRegion::Zeroing(region) => region.restore(at, len),
        }
    }
}
