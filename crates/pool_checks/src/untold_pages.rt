ghost use Rattle.std.specs.Prelude.{◌≡◌, ◌+◌, ◌-◌, ◌/◌, ◌%◌, ◌^◌, ◌<◌, ◌≤◌, ◌==◌, if◌then◌else◌, false, length, replicate, IfOk, Ok};
ghost use Rattle.pool_types.specs.Rising.{risen};
ghost use Rattle.pool_pages.specs.Contents.{put_all, touched, range_marked, touched_marked};
ghost use Rattle.pool_pages.specs.Told.{mapped_mark};

use pool_pages::{ImageData, MakeFault, PageCalls, PageFault, PageMaker, Pages, RegionName};
use pool_types::{DecommitBehavior, HostAlignedByteCount, PageSize};
use std::alloc::{AllocError, Global};
use std::marker::Model;

/// What each byte of an `UntoldRegion` reads as.
const UNTOLD_BYTE: u8 = 0x5a;

/// A region that tells neither what it holds nor which calls fail. It holds nothing but its dirty marks, and reads as
/// one byte throughout.
#[derive(Drop)]
pub(crate) struct UntoldRegion {
    name: RegionName,
    len: HostAlignedByteCount,
    behaviour: DecommitBehavior,
    marks: Vec<bool>,
    made: u64,
    calls: PageCalls,
}

impl Model for UntoldRegion {
    ghost use Rattle.std.specs.Prelude.{◌≡◌, ◌/◌, length, None};
    ghost use Rattle.pool_pages.specs.Told.{Told};

    ghost Value = { Told };

    ghost view = { λ r. record { name = r.name; page = r.len.page; len = r.len.bytes; behaviour = r.behaviour; contents = None; marks = r.marks.items; plan = None; made = r.made; calls = r.calls; faults = 0 } };

    ghost invariant = { λ r. length r.marks.items ≡ r.len.bytes / r.len.page };
}

/// The number of pages that the bytes from a place on touch.
#[tactic(auto, using(crate::proofs::Marks::pages_order))]
fn touched_pages(page: usize, start: usize, len: usize) -> usize
    requires page { 0 < page }
    requires inside { start + len < 2 ^ 64 }
    ensures { result ≡ touched page start len }
{
    if len == 0 {
        0
    } else {
        (start + len - 1) / page + 1 - start / page
    }
}

/// So many pages that aren't dirty.
fn clean_marks(alloc: Global, pages: usize) -> Result<Vec<bool>, AllocError>
    ensures { IfOk result (λ marks. marks.items ≡ replicate pages false) }
{
    let mut marks = Vec::with_capacity(alloc, pages)?;
    marks.resize(pages, false)?;
    Ok(marks)
}

/// Whether a page that an image was mapped to is dirty.
fn mapped_mark(behaviour: DecommitBehavior) -> bool
    ensures { result ≡ mapped_mark behaviour }
{
    match behaviour {
        DecommitBehavior::RestoreOriginalMapping => false,
        DecommitBehavior::Zero => true,
    }
}

impl UntoldRegion {
    /// Sets or clears the dirty marks of pages.
    #[tactic(auto, using(crate::proofs::Marks::marks_long))]
    fn mark(&mut self, first: usize, count: usize, dirty: bool)
        requires { first + count ≤ length self.old.marks }
        ensures { self.new ≡ record self.old { marks = put_all first count dirty self.old.marks } }
    {
        let range = &mut self.marks[first..first + count];
        range.fill(dirty);
    }

    /// Sets or clears the dirty marks of a range of whole pages.
    #[tactic(auto, using(crate::proofs::Marks::marks_fit))]
    fn mark_range(&mut self, start: usize, len: usize, dirty: bool)
        requires start { start % self.old.page ≡ 0 }
        requires len { len % self.old.page ≡ 0 }
        requires inside { start + len ≤ self.old.len }
        ensures { self.new ≡ record self.old { marks = range_marked dirty start len self.old.page self.old.marks } }
    {
        let _whole = self.len.byte_count();
        let page = self.len.page().get();
        self.mark(start / page, len / page, dirty);
    }

    /// Sets the dirty marks of the pages that bytes touch.
    #[tactic(auto, using(crate::proofs::Marks::touched_fit))]
    fn touch(&mut self, at: usize, len: usize)
        requires { at + len ≤ self.old.len }
        ensures { self.new ≡ record self.old { marks = touched_marked at len self.old.page self.old.marks } }
    {
        let _whole = self.len.byte_count();
        let page = self.len.page().get();
        self.mark(at / page, touched_pages(page, at, len), true);
    }

    /// Counts a call on a range of this length, after which the counts of each kind are these.
    fn count(&mut self, len: usize, calls: PageCalls) -> Result<(), PageFault>
        ensures value { self.new ≡ record self.old { made = if len == 0 then self.old.made else risen self.old.made; calls = if len == 0 then self.old.calls else calls } }
        ensures ok { result ≡ Ok tt }
    {
        if len != 0 {
            self.made = self.made.saturating_add(1);
            self.calls = calls;
        }
        Ok(())
    }
}

// Where a call changes nothing, it looks at a field: so the prover learns that what the region tells is in range.
impl Pages for UntoldRegion {
    ghost told = { λ r. r };

    fn name(&self) -> RegionName {
        self.name
    }

    fn page(&self) -> PageSize {
        self.len.page()
    }

    fn len(&self) -> HostAlignedByteCount {
        let _whole = self.len.byte_count();
        let _marks = self.marks.len();
        self.len
    }

    fn faults(&self) -> u64 {
        let _len = self.len;
        0
    }

    fn calls(&self) -> PageCalls {
        self.calls
    }

    fn behaviour(&self) -> DecommitBehavior {
        self.behaviour
    }

    fn colour(&self, page: usize) -> u8 {
        let _len = self.len;
        UNTOLD_BYTE
    }

    fn dirty(&self, page: usize) -> bool {
        self.marks[page]
    }

    fn expose(
        &mut self,
        start: HostAlignedByteCount,
        len: HostAlignedByteCount,
    ) -> Result<(), PageFault> {
        let expose = self.calls.expose.saturating_add(1);
        self.count(
            len.byte_count(),
            PageCalls {
                expose,
                ..self.calls
            },
        )
    }

    fn hide(
        &mut self,
        start: HostAlignedByteCount,
        len: HostAlignedByteCount,
    ) -> Result<(), PageFault> {
        let hide = self.calls.hide.saturating_add(1);
        self.count(len.byte_count(), PageCalls { hide, ..self.calls })
    }

    fn map_image(
        &mut self,
        start: HostAlignedByteCount,
        image: &ImageData,
    ) -> Result<(), PageFault> {
        let len = image.as_slice().len();
        let copied = mapped_mark(self.behaviour);
        self.mark_range(start.byte_count(), len, copied);
        let map_image = self.calls.map_image.saturating_add(1);
        self.count(
            len,
            PageCalls {
                map_image,
                ..self.calls
            },
        )
    }

    fn remap_zeros(
        &mut self,
        start: HostAlignedByteCount,
        len: HostAlignedByteCount,
    ) -> Result<(), PageFault> {
        self.mark_range(start.byte_count(), len.byte_count(), false);
        let remap_zeros = self.calls.remap_zeros.saturating_add(1);
        self.count(
            len.byte_count(),
            PageCalls {
                remap_zeros,
                ..self.calls
            },
        )
    }

    fn erase(
        &mut self,
        start: HostAlignedByteCount,
        len: HostAlignedByteCount,
    ) -> Result<(), PageFault> {
        self.mark_range(start.byte_count(), len.byte_count(), false);
        let erase = self.calls.erase.saturating_add(1);
        self.count(
            len.byte_count(),
            PageCalls {
                erase,
                ..self.calls
            },
        )
    }

    fn recolour(
        &mut self,
        start: HostAlignedByteCount,
        len: HostAlignedByteCount,
        colour: u8,
    ) -> Result<(), PageFault> {
        let recolour = self.calls.recolour.saturating_add(1);
        self.count(
            len.byte_count(),
            PageCalls {
                recolour,
                ..self.calls
            },
        )
    }

    fn decommit(
        &mut self,
        start: HostAlignedByteCount,
        len: HostAlignedByteCount,
    ) -> Result<(), PageFault> {
        self.mark_range(start.byte_count(), len.byte_count(), false);
        let decommit = self.calls.decommit.saturating_add(1);
        self.count(
            len.byte_count(),
            PageCalls {
                decommit,
                ..self.calls
            },
        )
    }

    fn read(&self, at: usize, out: &mut [u8]) {
        let _len = self.len;
        out.fill(UNTOLD_BYTE);
    }

    fn holds(&self, at: usize, bytes: &[u8]) -> bool {
        let _len = self.len;
        bytes.iter().all(|byte| *byte == UNTOLD_BYTE)
    }

    fn write(&mut self, at: usize, bytes: &[u8]) {
        let _len = self.len;
        self.touch(at, bytes.len());
    }

    fn fill(&mut self, at: usize, len: usize, byte: u8) {
        let _len = self.len;
        self.touch(at, len);
    }

    fn restore(&mut self, at: usize, len: usize) {
        let _len = self.len;
        self.touch(at, len);
    }
}

/// Makes regions that tell nothing but their dirty marks. A making fails only for want of memory.
#[derive(Drop)]
pub(crate) struct UntoldPages {
    pub(crate) page: PageSize,
    pub(crate) next: u32,
}

impl PageMaker for UntoldPages {
    type Region = UntoldRegion;

    ghost use Rattle.std.specs.Prelude.{[], false, None};

    ghost told = { λ m. record { page = m.page; tells = false; plan = None; layers = []; listed = []; behind = 0; next = m.next; faults = 0 } };

    fn faults(&self) -> u64 {
        let _page = self.page;
        0
    }

    fn page(&self) -> PageSize {
        self.page
    }

    fn next(&self) -> u32 {
        self.next
    }

    fn make(
        &mut self,
        alloc: Global,
        name: RegionName,
        behaviour: DecommitBehavior,
        _accessible: HostAlignedByteCount,
        len: HostAlignedByteCount,
    ) -> Result<UntoldRegion, MakeFault> {
        if let RegionName::OnDemand(_) = name {
            self.next = self.next.saturating_add(1);
        }
        let Ok(marks) = clean_marks(alloc, len.byte_count() / len.page().get()) else {
            return Err(MakeFault::Memory);
        };
        Ok(UntoldRegion {
            name,
            len,
            behaviour,
            marks,
            made: 0,
            calls: PageCalls::none(),
        })
    }

    fn image(
        &mut self,
        _alloc: Global,
        _id: u64,
        _memory: u32,
        _len: HostAlignedByteCount,
    ) -> Result<(), MakeFault> {
        let _page = self.page;
        Ok(())
    }
}
