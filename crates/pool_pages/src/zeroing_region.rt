ghost use Rattle.std.specs.Prelude.{◌≡◌};
ghost use Rattle.pool_pages.specs.Told.{zeroing};
ghost use Rattle.pool_pages.specs.MemoryTold.{memory_told};
ghost use Rattle.pool_pages.specs.MakerTold.{no_calls};

use crate::dense_pages::DensePages;
use crate::image_data::ImageData;
use crate::memory_region::MemoryRegion;
use crate::pages::{PageCalls, PageFault, Pages, RegionName};
use pool_types::{DecommitBehavior, HostAlignedByteCount, PageSize};
use std::marker::Model;

/// A region in memory whose pages all go back to zeros: an image is as if it had been written, and a decommit
/// leaves zeros. It is a `MemoryRegion` in all else.
#[derive(Drop)]
pub struct ZeroingRegion {
    region: MemoryRegion,
}

impl Model for ZeroingRegion {
    ghost use Rattle.pool_pages.specs.Told.{Told, zeroing};

    ghost Value = { Told };

    ghost view = { λ z. zeroing z.region };
}

impl ZeroingRegion {
    /// No call was made on it yet. Owns the pages.
    pub(crate) fn new(name: RegionName, pages: DensePages) -> ZeroingRegion
        ensures { result ≡ memory_told name DecommitBehavior.Zero pages no_calls 0 }
    {
        ZeroingRegion {
            region: MemoryRegion::new(name, pages),
        }
    }
}

impl Pages for ZeroingRegion {
    ghost told = { λ z. z };

    fn name(&self) -> RegionName {
        self.region.name()
    }

    fn page(&self) -> PageSize {
        self.region.page()
    }

    fn len(&self) -> HostAlignedByteCount {
        self.region.len()
    }

    fn faults(&self) -> u64 {
        self.region.faults()
    }

    fn calls(&self) -> PageCalls {
        self.region.calls()
    }

    fn behaviour(&self) -> DecommitBehavior {
        // a field is read so that the prover knows the view
        let _region = &self.region;
        DecommitBehavior::Zero
    }

    fn colour(&self, page: usize) -> u8 {
        self.region.colour(page)
    }

    fn dirty(&self, page: usize) -> bool {
        self.region.dirty(page)
    }

    fn expose(
        &mut self,
        start: HostAlignedByteCount,
        len: HostAlignedByteCount,
    ) -> Result<(), PageFault> {
        self.region.expose(start, len)
    }

    fn hide(
        &mut self,
        start: HostAlignedByteCount,
        len: HostAlignedByteCount,
    ) -> Result<(), PageFault> {
        self.region.hide(start, len)
    }

    fn map_image(
        &mut self,
        start: HostAlignedByteCount,
        image: &ImageData,
    ) -> Result<(), PageFault> {
        self.region.copy_image(start, image);
        Ok(())
    }

    fn remap_zeros(
        &mut self,
        start: HostAlignedByteCount,
        len: HostAlignedByteCount,
    ) -> Result<(), PageFault> {
        self.region.remap_zeros(start, len)
    }

    fn erase(
        &mut self,
        start: HostAlignedByteCount,
        len: HostAlignedByteCount,
    ) -> Result<(), PageFault> {
        self.region.erase(start, len)
    }

    fn recolour(
        &mut self,
        start: HostAlignedByteCount,
        len: HostAlignedByteCount,
        colour: u8,
    ) -> Result<(), PageFault> {
        self.region.recolour(start, len, colour)
    }

    fn decommit(
        &mut self,
        start: HostAlignedByteCount,
        len: HostAlignedByteCount,
    ) -> Result<(), PageFault> {
        self.region.decommit(start, len)
    }

    fn read(&self, at: usize, out: &mut [u8]) {
        self.region.read(at, out)
    }

    fn holds(&self, at: usize, bytes: &[u8]) -> bool {
        self.region.holds(at, bytes)
    }

    fn write(&mut self, at: usize, bytes: &[u8]) {
        self.region.write(at, bytes)
    }

    fn fill(&mut self, at: usize, len: usize, byte: u8) {
        self.region.fill(at, len, byte)
    }

    fn restore(&mut self, at: usize, len: usize) {
        self.region.restore(at, len)
    }
}
