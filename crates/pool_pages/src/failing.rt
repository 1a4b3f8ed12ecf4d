ghost use Rattle.std.specs.Prelude.{◌≡◌, true, false, IfOk};
ghost use Rattle.pool_pages.specs.Told.{TellsShaped};
ghost use Rattle.pool_pages.specs.FailingRegions.{with_failing};
ghost use Rattle.pool_pages.specs.FailingTold.{failing_told, lets_through, no_counts, counts_after_call};

use crate::call_counts::CallKind;
use crate::image_data::ImageData;
use crate::listed_calls::ListedCalls;
use crate::pages::{PageCalls, PageFault, Pages, RegionName};
use pool_types::{DecommitBehavior, HostAlignedByteCount, PageSize, PlainList};
use std::alloc::{AllocError, Global};

/// A region with a list of the numbers of its calls that fail.
///
/// Its calls on pages are numbered from 1 over all kinds together; a call of length zero is none of them. A
/// listed call isn't made on the region behind: it changes nothing but the counts.
///
/// It lies in memory of its own, so that to move it is to move a pointer.
#[derive(Drop)]
pub struct Failing<R: Pages> {
    state: Box<FailingState<R>>,
}

#[derive(Drop)]
struct FailingState<R: Pages> {
    region: R,
    calls: ListedCalls,
}

impl<R: Pages> Failing<R> {
    /// No call was made on it yet. Owns the region behind it. Takes memory for itself and for a
    /// sorted list.
    pub fn new(alloc: Global, region: R, plan: PlainList<u64>) -> Result<Self, AllocError>
        ensures { IfOk result (λ failing. ⟦<Failing<R> as Pages>⟧.told failing ≡ failing_told (R.told region) plan no_counts) }
    {
        let state = FailingState {
            region,
            calls: ListedCalls::new(alloc, plan)?,
        };
        Ok(Failing {
            state: Box::new(alloc, state)?,
        })
    }

    // Whether the list lets the next call through, on a range of this length.
    fn lets_through(&self, len: usize) -> bool
        ensures { result ≡ lets_through self.now.state.value.calls.listed self.now.state.value.calls.counts.made len }
    {
        self.state.calls.lets_through(len)
    }

    // Counts a call that the list refuses. That what the region tells has its shape is known by its length, which is
    // asked for that alone; in the other count likewise.
    fn refuse(&mut self, kind: CallKind, len: usize)
        requires { lets_through self.old.state.value.calls.listed self.old.state.value.calls.counts.made len ≡ false }
        ensures region { self.new.state.value.region ≡ self.old.state.value.region }
        ensures calls { self.new.state.value.calls ≡ record self.old.state.value.calls { counts = counts_after_call kind len true self.old.state.value.calls.counts } }
        ensures shaped { TellsShaped (R.told self.new.state.value.region) }
    {
        let _len = self.state.region.len();
        self.state.calls.refuse(kind, len);
    }

    // Counts a call that was made on the region behind.
    fn pass(&mut self, kind: CallKind, len: usize)
        ensures region { self.new.state.value.region ≡ self.old.state.value.region }
        ensures calls { self.new.state.value.calls ≡ record self.old.state.value.calls { counts = counts_after_call kind len false self.old.state.value.calls.counts } }
        ensures shaped { TellsShaped (R.told self.new.state.value.region) }
    {
        let _len = self.state.region.len();
        self.state.calls.pass(kind, len);
    }
}

impl<R: Pages> Pages for Failing<R> {
    ghost told = { with_failing R.told };

    fn name(&self) -> RegionName {
        self.state.region.name()
    }

    fn page(&self) -> PageSize {
        self.state.region.page()
    }

    fn len(&self) -> HostAlignedByteCount {
        self.state.calls.bounded();
        self.state.region.len()
    }

    fn faults(&self) -> u64 {
        if self.state.calls.is_empty() {
            self.state.region.faults()
        } else {
            let refused = self.state.calls.counts().refused;
            refused.saturating_add(self.state.region.faults())
        }
    }

    fn calls(&self) -> PageCalls {
        if self.state.calls.is_empty() {
            self.state.region.calls()
        } else {
            self.state.calls.counts().calls
        }
    }

    fn behaviour(&self) -> DecommitBehavior {
        self.state.region.behaviour()
    }

    fn colour(&self, page: usize) -> u8 {
        self.state.region.colour(page)
    }

    fn dirty(&self, page: usize) -> bool {
        self.state.region.dirty(page)
    }

    fn expose(
        &mut self,
        start: HostAlignedByteCount,
        len: HostAlignedByteCount,
    ) -> Result<(), PageFault> {
        let bytes = len.byte_count();
        if !self.lets_through(bytes) {
            self.refuse(CallKind::Expose, bytes);
            return Err(PageFault);
        }
        let made = self.state.region.expose(start, len);
        self.pass(CallKind::Expose, bytes);
        made
    }

    fn hide(
        &mut self,
        start: HostAlignedByteCount,
        len: HostAlignedByteCount,
    ) -> Result<(), PageFault> {
        let bytes = len.byte_count();
        if !self.lets_through(bytes) {
            self.refuse(CallKind::Hide, bytes);
            return Err(PageFault);
        }
        let made = self.state.region.hide(start, len);
        self.pass(CallKind::Hide, bytes);
        made
    }

    fn map_image(
        &mut self,
        start: HostAlignedByteCount,
        image: &ImageData,
    ) -> Result<(), PageFault> {
        let bytes = image.as_slice().len();
        if !self.lets_through(bytes) {
            self.refuse(CallKind::MapImage, bytes);
            return Err(PageFault);
        }
        let made = self.state.region.map_image(start, image);
        self.pass(CallKind::MapImage, bytes);
        made
    }

    fn remap_zeros(
        &mut self,
        start: HostAlignedByteCount,
        len: HostAlignedByteCount,
    ) -> Result<(), PageFault> {
        let bytes = len.byte_count();
        if !self.lets_through(bytes) {
            self.refuse(CallKind::RemapZeros, bytes);
            return Err(PageFault);
        }
        let made = self.state.region.remap_zeros(start, len);
        self.pass(CallKind::RemapZeros, bytes);
        made
    }

    fn erase(
        &mut self,
        start: HostAlignedByteCount,
        len: HostAlignedByteCount,
    ) -> Result<(), PageFault> {
        let bytes = len.byte_count();
        if !self.lets_through(bytes) {
            self.refuse(CallKind::Erase, bytes);
            return Err(PageFault);
        }
        let made = self.state.region.erase(start, len);
        self.pass(CallKind::Erase, bytes);
        made
    }

    fn recolour(
        &mut self,
        start: HostAlignedByteCount,
        len: HostAlignedByteCount,
        colour: u8,
    ) -> Result<(), PageFault> {
        let bytes = len.byte_count();
        if !self.lets_through(bytes) {
            self.refuse(CallKind::Recolour, bytes);
            return Err(PageFault);
        }
        let made = self.state.region.recolour(start, len, colour);
        self.pass(CallKind::Recolour, bytes);
        made
    }

    fn decommit(
        &mut self,
        start: HostAlignedByteCount,
        len: HostAlignedByteCount,
    ) -> Result<(), PageFault> {
        let bytes = len.byte_count();
        if !self.lets_through(bytes) {
            self.refuse(CallKind::Decommit, bytes);
            return Err(PageFault);
        }
        let made = self.state.region.decommit(start, len);
        self.pass(CallKind::Decommit, bytes);
        made
    }

    fn read(&self, at: usize, out: &mut [u8]) {
        self.state.region.read(at, out)
    }

    fn holds(&self, at: usize, bytes: &[u8]) -> bool {
        self.state.region.holds(at, bytes)
    }

    fn write(&mut self, at: usize, bytes: &[u8]) {
        self.state.region.write(at, bytes)
    }

    fn fill(&mut self, at: usize, len: usize, byte: u8) {
        self.state.region.fill(at, len, byte)
    }

    fn restore(&mut self, at: usize, len: usize) {
        self.state.region.restore(at, len)
    }
}
