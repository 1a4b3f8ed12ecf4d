//! Regions that add their page calls to counts which they share, and what makes them.
ghost use Rattle.std.specs.Prelude.{◌≡◌};

use pool_pages::{ImageData, MakeFault, PageCalls, PageFault, PageMaker, Pages, RegionName};
use pool_types::{DecommitBehavior, HostAlignedByteCount, PageSize};
use std::alloc::Global;
use std::sync::atomic::{AtomicU64, Ordering};

/// How many page calls of each kind were made on all regions that share these counts, those that failed
/// included. A call of length zero isn't counted.
///
/// The regions borrow it, in one thread or in several, so it can be read while they live.
#[derive(Drop)]
pub struct CallTotals {
    expose: AtomicU64,
    hide: AtomicU64,
    map_image: AtomicU64,
    remap_zeros: AtomicU64,
    erase: AtomicU64,
    recolour: AtomicU64,
    decommit: AtomicU64,
}

impl CallTotals {
    /// No call was made yet.
    pub fn new() -> CallTotals {
        CallTotals {
            expose: AtomicU64::new(0),
            hide: AtomicU64::new(0),
            map_image: AtomicU64::new(0),
            remap_zeros: AtomicU64::new(0),
            erase: AtomicU64::new(0),
            recolour: AtomicU64::new(0),
            decommit: AtomicU64::new(0),
        }
    }

    /// The calls made so far. Calls that other threads make meanwhile may be counted or not.
    pub fn calls(&self) -> PageCalls {
        PageCalls {
            expose: self.expose.load(Ordering::SeqCst),
            hide: self.hide.load(Ordering::SeqCst),
            map_image: self.map_image.load(Ordering::SeqCst),
            remap_zeros: self.remap_zeros.load(Ordering::SeqCst),
            erase: self.erase.load(Ordering::SeqCst),
            recolour: self.recolour.load(Ordering::SeqCst),
            decommit: self.decommit.load(Ordering::SeqCst),
        }
    }
}

// Counts a call on a range of this length.
fn count_call(total: &AtomicU64, len: usize) {
    if len > 0 {
        total.fetch_add(1, Ordering::SeqCst);
    }
}

/// A region that adds its page calls to counts which it shares with others. It is the region behind it in all else.
#[derive(Drop)]
pub struct CountedRegion<'a, R: Pages> {
    region: R,
    totals: &'a CallTotals,
}

impl<'a, R: Pages> CountedRegion<'a, R> {
    /// Owns the region behind it, and borrows the counts.
    pub fn new(region: R, totals: &'a CallTotals) -> Self
        ensures { ⟦<CountedRegion<'a, R> as Pages>⟧.told result ≡ R.told region }
    {
        CountedRegion { region, totals }
    }
}

impl<'a, R: Pages> Pages for CountedRegion<'a, R> {
    ghost told = { λ r. R.told r.region };

    fn name(&self) -> RegionName {
        self.region.name()
    }

    fn page(&self) -> PageSize {
        self.region.page()
    }

    fn len(&self) -> HostAlignedByteCount {
        self.region.len()
    }

    fn faults(&self) -> u64 {
        self.region.faults()
    }

    fn calls(&self) -> PageCalls {
        self.region.calls()
    }

    fn behaviour(&self) -> DecommitBehavior {
        self.region.behaviour()
    }

    fn colour(&self, page: usize) -> u8 {
        self.region.colour(page)
    }

    fn dirty(&self, page: usize) -> bool {
        self.region.dirty(page)
    }

    fn expose(
        &mut self,
        start: HostAlignedByteCount,
        len: HostAlignedByteCount,
    ) -> Result<(), PageFault> {
        count_call(&self.totals.expose, len.byte_count());
        self.region.expose(start, len)
    }

    fn hide(
        &mut self,
        start: HostAlignedByteCount,
        len: HostAlignedByteCount,
    ) -> Result<(), PageFault> {
        count_call(&self.totals.hide, len.byte_count());
        self.region.hide(start, len)
    }

    fn map_image(
        &mut self,
        start: HostAlignedByteCount,
        image: &ImageData,
    ) -> Result<(), PageFault> {
        count_call(&self.totals.map_image, image.as_slice().len());
        self.region.map_image(start, image)
    }

    fn remap_zeros(
        &mut self,
        start: HostAlignedByteCount,
        len: HostAlignedByteCount,
    ) -> Result<(), PageFault> {
        count_call(&self.totals.remap_zeros, len.byte_count());
        self.region.remap_zeros(start, len)
    }

    fn erase(
        &mut self,
        start: HostAlignedByteCount,
        len: HostAlignedByteCount,
    ) -> Result<(), PageFault> {
        count_call(&self.totals.erase, len.byte_count());
        self.region.erase(start, len)
    }

    fn recolour(
        &mut self,
        start: HostAlignedByteCount,
        len: HostAlignedByteCount,
        colour: u8,
    ) -> Result<(), PageFault> {
        count_call(&self.totals.recolour, len.byte_count());
        self.region.recolour(start, len, colour)
    }

    fn decommit(
        &mut self,
        start: HostAlignedByteCount,
        len: HostAlignedByteCount,
    ) -> Result<(), PageFault> {
        count_call(&self.totals.decommit, len.byte_count());
        self.region.decommit(start, len)
    }

    fn read(&self, at: usize, out: &mut [u8]) {
        self.region.read(at, out)
    }

    fn holds(&self, at: usize, bytes: &[u8]) -> bool {
        self.region.holds(at, bytes)
    }

    fn write(&mut self, at: usize, bytes: &[u8]) {
        self.region.write(at, bytes)
    }

    fn fill(&mut self, at: usize, len: usize, byte: u8) {
        self.region.fill(at, len, byte)
    }

    fn restore(&mut self, at: usize, len: usize) {
        self.region.restore(at, len)
    }
}

/// Makes the regions of another maker, each of which adds its page calls to the same counts.
#[derive(Drop)]
pub struct CountedPages<'a, M: PageMaker + Drop> {
    maker: M,
    totals: &'a CallTotals,
}

impl<'a, M: PageMaker + Drop> CountedPages<'a, M> {
    /// Owns the maker behind it, and borrows the counts.
    pub fn new(maker: M, totals: &'a CallTotals) -> Self
        ensures borrows { ⟦<CountedPages<'a, M> as PageMaker>⟧.borrows result ≡ M.borrows maker }
        ensures told { ⟦<CountedPages<'a, M> as PageMaker>⟧.told result ≡ M.told maker }
    {
        CountedPages { maker, totals }
    }
}

impl<'a, M: PageMaker + Drop> PageMaker for CountedPages<'a, M> {
    type Region = CountedRegion<'a, M::Region>;

    ghost told = { λ m. M.told m.maker };

    ghost borrows = { λ m. M.borrows m.maker };

    fn faults(&self) -> u64 {
        self.maker.faults()
    }

    fn page(&self) -> PageSize {
        self.maker.page()
    }

    fn next(&self) -> u32 {
        self.maker.next()
    }

    fn make(
        &mut self,
        alloc: Global,
        name: RegionName,
        behaviour: DecommitBehavior,
        accessible: HostAlignedByteCount,
        len: HostAlignedByteCount,
    ) -> Result<CountedRegion<'a, M::Region>, MakeFault> {
        match self.maker.make(alloc, name, behaviour, accessible, len) {
            Ok(region) => Ok(CountedRegion::new(region, self.totals)),
            Err(fault) => Err(fault),
        }
    }

    fn image(
        &mut self,
        alloc: Global,
        id: u64,
        memory: u32,
        len: HostAlignedByteCount,
    ) -> Result<(), MakeFault> {
        self.maker.image(alloc, id, memory, len)
    }
}

#[cfg(test)]
mod tests {
    use super::{CallTotals, CountedPages};
    use pool_pages::{MemoryPages, PageCalls, PageMaker, Pages, RegionName};
    use pool_types::{DecommitBehavior, PageSize};
    use std::test::Fail;

    #[test]
    fn calls_are_counted(rt: HostRuntime) -> Result<(), Fail> {
        let page = PageSize::new(4096)?;
        let none = page.zero();
        let one = page.host_page_size();
        let totals = CallTotals::new();
        let mut maker = CountedPages::new(MemoryPages::new(page), &totals);
        let behaviour = DecommitBehavior::RestoreOriginalMapping;
        let mut region = maker.make(rt.alloc(), RegionName::Memory(0), behaviour, none, one)?;
        let mut calls = PageCalls::none();
        assert_eq!(rt; totals.calls(), calls);

        region.expose(none, one)?;
        // a call of length zero isn't counted
        region.expose(none, none)?;
        calls.expose = 1;
        assert_eq!(rt; totals.calls(), calls);

        region.decommit(none, one)?;
        calls.decommit = 1;
        assert_eq!(rt; totals.calls(), calls);
        Ok(())
    }
}
