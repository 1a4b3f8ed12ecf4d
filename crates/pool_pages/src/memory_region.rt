ghost use Rattle.std.specs.Prelude.{◌≡◌, [], Some, length};
ghost use Rattle.pool_pages.specs.Told.{IsRange, mapping, succeeded, zeroing, TellsShaped};
ghost use Rattle.pool_pages.specs.MemoryTold.{memory_told};
ghost use Rattle.pool_pages.specs.MakerTold.{no_calls};
ghost use Rattle.pool_types.specs.Count.{count};

use crate::call_counts::risen;
use crate::dense_pages::DensePages;
use crate::image_data::ImageData;
use crate::pages::{PageCalls, PageFault, Pages, RegionName};
use pool_types::{DecommitBehavior, HostAlignedByteCount, PageSize};
use std::marker::Model;

/// A region in memory, which is taken when it is made: no call fails, and none takes memory.
///
/// Its calls are those of Wasmtime's `mmap.rs` on a mapping. It tells all that its pages hold, and that
/// none of its calls fails. A decommit brings its images back.
#[derive(Drop)]
pub struct MemoryRegion {
    name: RegionName,
    pages: DensePages,
    calls: PageCalls,
    made: u64,
}

impl Model for MemoryRegion {
    ghost use Rattle.pool_pages.specs.Told.{Told};
    ghost use Rattle.pool_pages.specs.MemoryTold.{memory_told};
    ghost use Rattle.pool_types.specs.declared.decommit_behavior.DecommitBehavior.TheVariants.{RestoreOriginalMapping};

    ghost Value = { Told };

    ghost view = { λ r. memory_told r.name RestoreOriginalMapping r.pages r.calls r.made };
}

impl MemoryRegion {
    /// No call was made on it yet. Owns the pages.
    pub(crate) fn new(name: RegionName, pages: DensePages) -> MemoryRegion
        ensures { result ≡ memory_told name DecommitBehavior.RestoreOriginalMapping pages no_calls 0 }
    {
        MemoryRegion {
            name,
            pages,
            calls: PageCalls::none(),
            made: 0,
        }
    }

    /// Copies an image to its pages as if it had been written, and counts that as mapping it.
    pub(crate) fn copy_image(&mut self, start: HostAlignedByteCount, image: &ImageData)
        requires { IsRange start (count image.now.page (length image.now.bytes)) self.old }
        ensures copied { zeroing self.new ≡ succeeded (mapping DecommitBehavior.Zero start.bytes image.now.bytes) (zeroing self.old) }
        ensures plan { self.old.plan ≡ Some [] }
        ensures shaped { TellsShaped self.new }
    {
        let bytes = image.as_slice();
        self.pages.copy_image(start.byte_count(), bytes);
        if bytes.len() == 0 {
            return;
        }
        self.calls.map_image = risen(self.calls.map_image);
        self.made = risen(self.made);
    }
}

impl Pages for MemoryRegion {
    ghost told = { λ r. r };

    fn name(&self) -> RegionName {
        self.name
    }

    fn page(&self) -> PageSize {
        self.pages.page()
    }

    fn len(&self) -> HostAlignedByteCount {
        let page = self.pages.page();
        HostAlignedByteCount::new_unchecked(page, self.pages.len())
    }

    fn faults(&self) -> u64 {
        // a field is read so that the prover knows the view
        let _made = self.made;
        0
    }

    fn calls(&self) -> PageCalls {
        self.calls
    }

    fn behaviour(&self) -> DecommitBehavior {
        // likewise
        let _made = self.made;
        DecommitBehavior::RestoreOriginalMapping
    }

    fn colour(&self, page: usize) -> u8 {
        self.pages.colour(page)
    }

    fn dirty(&self, page: usize) -> bool {
        self.pages.dirty(page)
    }

    fn expose(
        &mut self,
        start: HostAlignedByteCount,
        len: HostAlignedByteCount,
    ) -> Result<(), PageFault> {
        self.pages
            .set_access(start.byte_count(), len.byte_count(), true);
        if len.is_zero() {
            return Ok(());
        }
        self.calls.expose = risen(self.calls.expose);
        self.made = risen(self.made);
        Ok(())
    }

    fn hide(
        &mut self,
        start: HostAlignedByteCount,
        len: HostAlignedByteCount,
    ) -> Result<(), PageFault> {
        self.pages
            .set_access(start.byte_count(), len.byte_count(), false);
        if len.is_zero() {
            return Ok(());
        }
        self.calls.hide = risen(self.calls.hide);
        self.made = risen(self.made);
        Ok(())
    }

    fn map_image(
        &mut self,
        start: HostAlignedByteCount,
        image: &ImageData,
    ) -> Result<(), PageFault> {
        let bytes = image.as_slice();
        self.pages.map_image(start.byte_count(), bytes);
        if bytes.len() == 0 {
            return Ok(());
        }
        self.calls.map_image = risen(self.calls.map_image);
        self.made = risen(self.made);
        Ok(())
    }

    fn remap_zeros(
        &mut self,
        start: HostAlignedByteCount,
        len: HostAlignedByteCount,
    ) -> Result<(), PageFault> {
        self.pages.remap_zeros(start.byte_count(), len.byte_count());
        if len.is_zero() {
            return Ok(());
        }
        self.calls.remap_zeros = risen(self.calls.remap_zeros);
        self.made = risen(self.made);
        Ok(())
    }

    fn erase(
        &mut self,
        start: HostAlignedByteCount,
        len: HostAlignedByteCount,
    ) -> Result<(), PageFault> {
        self.pages.erase(start.byte_count(), len.byte_count());
        if len.is_zero() {
            return Ok(());
        }
        self.calls.erase = risen(self.calls.erase);
        self.made = risen(self.made);
        Ok(())
    }

    fn recolour(
        &mut self,
        start: HostAlignedByteCount,
        len: HostAlignedByteCount,
        colour: u8,
    ) -> Result<(), PageFault> {
        self.pages
            .recolour(start.byte_count(), len.byte_count(), colour);
        if len.is_zero() {
            return Ok(());
        }
        self.calls.recolour = risen(self.calls.recolour);
        self.made = risen(self.made);
        Ok(())
    }

    fn decommit(
        &mut self,
        start: HostAlignedByteCount,
        len: HostAlignedByteCount,
    ) -> Result<(), PageFault> {
        self.pages.decommit(start.byte_count(), len.byte_count());
        if len.is_zero() {
            return Ok(());
        }
        self.calls.decommit = risen(self.calls.decommit);
        self.made = risen(self.made);
        Ok(())
    }

    fn read(&self, at: usize, out: &mut [u8]) {
        self.pages.read(at, out);
    }

    fn holds(&self, at: usize, bytes: &[u8]) -> bool {
        self.pages.holds(at, bytes)
    }

    fn write(&mut self, at: usize, bytes: &[u8]) {
        self.pages.write(at, bytes);
    }

    fn fill(&mut self, at: usize, len: usize, byte: u8) {
        self.pages.fill(at, len, byte);
    }

    fn restore(&mut self, at: usize, len: usize) {
        self.pages.restore(at, len);
    }
}
