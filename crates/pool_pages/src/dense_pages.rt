ghost use Rattle.std.specs.Prelude.{◌≡◌, ℕ, ◌+◌, ◌-◌, ◌*◌, ◌/◌, ◌%◌, ◌^◌, ◌<◌, ◌≤◌, List, length, replicate, slice_range, slice_index_or, slice_set, true, false, IfOk, Bool, IsTrue, ◌↔◌};
ghost use Rattle.pool_pages.specs.Contents.{IsShaped, put, put_all, touched, image_mapped, image_copied, erased, remapped, recoloured, decommitted, written, put_back, touched_marked};
ghost use Rattle.pool_pages.specs.Dense.{zeroed};
ghost use Rattle.pool_types.specs.Count.{IsPageSize};
ghost use Rattle.pool_pages.specs.MakerTold.{fresh};

use crate::column::Column;
use crate::column_edits::{fill_range, set_marks};
use pool_types::PageSize;
use std::alloc::{AllocError, Global};
use std::marker::Model;

/// The pages of a region, in memory that is taken when they are made.
///
/// What they hold and what they go back to are touched only as far as something was written or mapped: what was
/// only made costs by its number of pages, not of bytes.
#[derive(Drop)]
pub(crate) struct DensePages {
    page: PageSize,
    bytes: Column,
    origin: Column,
    accessible: Vec<bool>,
    dirty: Vec<bool>,
    colour: Vec<u8>,
}

impl Model for DensePages {
    ghost use Rattle.std.specs.Prelude.{length};
    ghost use Rattle.pool_pages.specs.Contents.{Contents, IsShaped};
    ghost use Rattle.pool_pages.specs.Dense.{dense};

    ghost Value = { Contents };

    ghost view = { λ d. dense d.page d.bytes d.origin d.accessible.items d.dirty.items d.colour.items };

    ghost invariant = { λ d. IsShaped d.page (length d.bytes) (dense d.page d.bytes d.origin d.accessible.items d.dirty.items d.colour.items) };
}

/// The number of pages that the bytes from a place on touch.
#[tactic(auto, using(crate::proofs::PageNumbers::pages_order))]
fn touched_pages(page: usize, start: usize, len: usize) -> usize
    requires page { 0 < page }
    requires inside { start + len < 2 ^ 64 }
    ensures { result ≡ touched page start len }
{
    if len == 0 {
        0
    } else {
        (start + len - 1) / page + 1 - start / page
    }
}

/// A vector of one value `len` times.
fn filled<T: Copy + Drop>(alloc: Global, len: usize, value: T) -> Result<Vec<T>, AllocError>
    ensures { IfOk result (λ v. v.items ≡ replicate len value) }
{
    let mut items = Vec::with_capacity(alloc, len)?;
    items.resize(len, value)?;
    Ok(items)
}

// Sets page `k` to its part of `origin` and clears its mark, unless it isn't dirty: then it holds that already.
#[tactic(auto, using(crate::proofs::PageRuns::put_same))]
fn restore_page(bytes: &mut Column, dirty: &mut Vec<bool>, origin: &Column, page: usize, k: usize)
    requires inside { k * page + page ≤ length bytes.old }
    requires mark { k < length dirty.old.items }
    requires same_length { length origin.now ≡ length bytes.old }
    requires clean { slice_index_or dirty.old.items k true ≡ false → slice_range bytes.old (k * page) (k * page + page) ≡ slice_range origin.now (k * page) (k * page + page) }
    ensures bytes { bytes.new ≡ put (k * page) (slice_range origin.now (k * page) (k * page + page)) bytes.old }
    ensures dirty { dirty.new.items ≡ slice_set dirty.old.items k false }
{
    bytes.bounded();
    if dirty[k] {
        bytes.restore(origin, k * page, page);
        dirty[k] = false;
    }
}

// Sets `count` pages from `first` on to their part of `origin`, and clears their marks. Those that aren't dirty
// hold that already and are left. Goes through the marks once.
fn restore_pages(
    bytes: &mut Column,
    dirty: &mut Vec<bool>,
    origin: &Column,
    page: usize,
    first: usize,
    count: usize,
)
    requires inside { (first + count) * page ≤ length bytes.old }
    requires marks { first + count ≤ length dirty.old.items }
    requires same_length { length origin.now ≡ length bytes.old }
    requires clean { (k : ℕ) → first ≤ k → k < first + count → slice_index_or dirty.old.items k true ≡ false → slice_range bytes.old (k * page) (k * page + page) ≡ slice_range origin.now (k * page) (k * page + page) }
    ensures bytes { bytes.new ≡ put (first * page) (slice_range origin.now (first * page) ((first + count) * page)) bytes.old }
    ensures dirty { dirty.new.items ≡ put_all first count false dirty.old.items }
{
    for k in first..first + count {
        restore_page(bytes, dirty, origin, page, k);
    }
}

impl DensePages {
    /// Pages of zeros, of which those below `accessible` can be reached. `accessible` and `len` are in bytes.
    ///
    /// Two buffers of the region's length are reserved, and not touched: one for its bytes, and one for the
    /// images that may be mapped into any region and that must then take no memory.
    #[tactic(auto, using(crate::proofs::DenseCalls::fresh_again))]
    pub(crate) fn new(
        alloc: Global,
        page: PageSize,
        accessible: usize,
        len: usize,
    ) -> Result<DensePages, AllocError>
        requires accessible { accessible % page ≡ 0 }
        requires len { len % page ≡ 0 }
        requires within { accessible ≤ len }
        ensures { IfOk result (λ d. d ≡ fresh page accessible len) }
    {
        let size = page.get();
        let count = len / size;
        let mut marks = filled(alloc, count, false)?;
        set_marks(&mut marks, 0, accessible / size, true);
        Ok(DensePages {
            page,
            bytes: Column::new(alloc, len)?,
            origin: Column::new(alloc, len)?,
            accessible: marks,
            dirty: filled(alloc, count, false)?,
            colour: filled(alloc, count, 0)?,
        })
    }

    pub(crate) fn page(&self) -> PageSize
        ensures value { result ≡ self.now.page }
        ensures valid { IsPageSize self.now.page }
    {
        // read so that the prover knows that it is a size of pages
        let _size = self.page.get();
        self.page
    }

    /// In bytes.
    pub(crate) fn len(&self) -> usize
        ensures value { result ≡ length self.now.bytes }
        ensures shaped { IsShaped self.now.page (length self.now.bytes) self.now }
    {
        self.bytes.len()
    }

    /// Lets the pages be reached, or not.
    pub(crate) fn set_access(&mut self, start: usize, len: usize, value: bool)
        requires start { start % self.old.page ≡ 0 }
        requires len { len % self.old.page ≡ 0 }
        requires inside { start + len ≤ length self.old.bytes }
        ensures value { self.new ≡ record self.old { accessible = put_all (start / self.old.page) (len / self.old.page) value self.old.accessible } }
        ensures len { length self.new.bytes ≡ length self.old.bytes }
        ensures shaped { IsShaped self.new.page (length self.new.bytes) self.new }
    {
        let page = self.page.get();
        set_marks(&mut self.accessible, start / page, len / page, value);
    }

    /// Gives the pages a colour.
    pub(crate) fn recolour(&mut self, start: usize, len: usize, colour: u8)
        requires start { start % self.old.page ≡ 0 }
        requires len { len % self.old.page ≡ 0 }
        requires inside { start + len ≤ length self.old.bytes }
        ensures value { self.new ≡ recoloured start len colour self.old }
        ensures len { length self.new.bytes ≡ length self.old.bytes }
        ensures shaped { IsShaped self.new.page (length self.new.bytes) self.new }
    {
        let page = self.page.get();
        fill_range(&mut self.colour, start / page, len / page, colour);
    }

    /// The colour of page `k`.
    pub(crate) fn colour(&self, k: usize) -> u8
        requires { k < length self.now.bytes / self.now.page }
        ensures { result ≡ slice_index_or self.now.colour k 0 }
    {
        self.colour[k]
    }

    /// Whether page `k` is dirty.
    pub(crate) fn dirty(&self, k: usize) -> bool
        requires { k < length self.now.bytes / self.now.page }
        ensures { result ≡ slice_index_or self.now.dirty k false }
    {
        self.dirty[k]
    }

    /// Maps an image, which its pages go back to.
    #[tactic(auto, using(crate::proofs::DenseCalls::put_long, crate::proofs::DenseCalls::put_all_long))]
    pub(crate) fn map_image(&mut self, start: usize, image: &[u8])
        requires start { start % self.old.page ≡ 0 }
        requires len { length image.now % self.old.page ≡ 0 }
        requires inside { start + length image.now ≤ length self.old.bytes }
        ensures value { self.new ≡ image_mapped start image.now self.old }
        ensures len { length self.new.bytes ≡ length self.old.bytes }
        ensures shaped { IsShaped self.new.page (length self.new.bytes) self.new }
    {
        let page = self.page.get();
        let (first, count) = (start / page, image.len() / page);
        self.bytes.put(start, image);
        self.origin.put(start, image);
        set_marks(&mut self.accessible, first, count, true);
        set_marks(&mut self.dirty, first, count, false);
        fill_range(&mut self.colour, first, count, 0);
    }

    /// Copies an image to its pages, as if it had been written.
    #[tactic(auto, using(crate::proofs::DenseCalls::put_long, crate::proofs::DenseCalls::put_all_long))]
    pub(crate) fn copy_image(&mut self, start: usize, image: &[u8])
        requires start { start % self.old.page ≡ 0 }
        requires len { length image.now % self.old.page ≡ 0 }
        requires inside { start + length image.now ≤ length self.old.bytes }
        ensures value { self.new ≡ image_copied start image.now self.old }
        ensures len { length self.new.bytes ≡ length self.old.bytes }
        ensures shaped { IsShaped self.new.page (length self.new.bytes) self.new }
    {
        let page = self.page.get();
        let (first, count) = (start / page, image.len() / page);
        self.bytes.put(start, image);
        set_marks(&mut self.accessible, first, count, true);
        set_marks(&mut self.dirty, first, count, true);
        fill_range(&mut self.colour, first, count, 0);
    }

    /// Sets pages to zeros, which they go back to, and lets them be reached, or not.
    #[tactic(auto, using(crate::proofs::DenseCalls::put_long, crate::proofs::DenseCalls::put_all_long))]
    fn zero(&mut self, start: usize, len: usize, access: bool)
        requires start { start % self.old.page ≡ 0 }
        requires len { len % self.old.page ≡ 0 }
        requires inside { start + len ≤ length self.old.bytes }
        ensures value { self.new ≡ zeroed access start len self.old }
        ensures len { length self.new.bytes ≡ length self.old.bytes }
        ensures shaped { IsShaped self.new.page (length self.new.bytes) self.new }
    {
        let page = self.page.get();
        let (first, count) = (start / page, len / page);
        self.bytes.clear(start, len);
        self.origin.clear(start, len);
        set_marks(&mut self.accessible, first, count, access);
        set_marks(&mut self.dirty, first, count, false);
        fill_range(&mut self.colour, first, count, 0);
    }

    /// Sets the marks of its pages, and writes zeros only where bytes behind its range were written or mapped.
    pub(crate) fn erase(&mut self, start: usize, len: usize)
        requires start { start % self.old.page ≡ 0 }
        requires len { len % self.old.page ≡ 0 }
        requires inside { start + len ≤ length self.old.bytes }
        ensures value { self.new ≡ erased start len self.old }
        ensures len { length self.new.bytes ≡ length self.old.bytes }
        ensures shaped { IsShaped self.new.page (length self.new.bytes) self.new }
    {
        self.zero(start, len, false);
    }

    /// Costs as `erase` does.
    pub(crate) fn remap_zeros(&mut self, start: usize, len: usize)
        requires start { start % self.old.page ≡ 0 }
        requires len { len % self.old.page ≡ 0 }
        requires inside { start + len ≤ length self.old.bytes }
        ensures value { self.new ≡ remapped start len self.old }
        ensures len { length self.new.bytes ≡ length self.old.bytes }
        ensures shaped { IsShaped self.new.page (length self.new.bytes) self.new }
    {
        self.zero(start, len, true);
    }

    /// Goes through the marks of its pages once, and copies those that are dirty.
    #[tactic(auto, using(crate::proofs::DenseCalls::put_long, crate::proofs::DenseCalls::put_all_long))]
    pub(crate) fn decommit(&mut self, start: usize, len: usize)
        requires start { start % self.old.page ≡ 0 }
        requires len { len % self.old.page ≡ 0 }
        requires inside { start + len ≤ length self.old.bytes }
        ensures value { self.new ≡ decommitted start len self.old }
        ensures len { length self.new.bytes ≡ length self.old.bytes }
        ensures shaped { IsShaped self.new.page (length self.new.bytes) self.new }
    {
        let page = self.page.get();
        restore_pages(
            &mut self.bytes,
            &mut self.dirty,
            &self.origin,
            page,
            start / page,
            len / page,
        );
    }

    pub(crate) fn read(&self, start: usize, out: &mut [u8])
        requires { start + length out.old ≤ length self.now.bytes }
        ensures { out.new ≡ slice_range self.now.bytes start (start + length out.old) }
    {
        self.bytes.read(start, out);
    }

    /// Compares where the bytes lie.
    pub(crate) fn holds(&self, start: usize, bytes: &[u8]) -> bool
        requires { start + length bytes.now ≤ length self.now.bytes }
        ensures { IsTrue result ↔ (slice_range self.now.bytes start (start + length bytes.now) ≡ bytes.now) }
    {
        self.bytes.holds(start, bytes)
    }

    #[tactic(auto, using(crate::proofs::DenseCalls::put_long, crate::proofs::DenseCalls::put_all_long))]
    pub(crate) fn write(&mut self, start: usize, bytes: &[u8])
        requires { start + length bytes.now ≤ length self.old.bytes }
        ensures value { self.new ≡ written start bytes.now self.old }
        ensures len { length self.new.bytes ≡ length self.old.bytes }
        ensures shaped { IsShaped self.new.page (length self.new.bytes) self.new }
    {
        let page = self.page.get();
        self.bytes.bounded();
        let count = touched_pages(page, start, bytes.len());
        self.bytes.put(start, bytes);
        set_marks(&mut self.dirty, start / page, count, true);
    }

    #[tactic(auto, using(crate::proofs::DenseCalls::put_long, crate::proofs::DenseCalls::put_all_long))]
    pub(crate) fn fill(&mut self, start: usize, len: usize, byte: u8)
        requires { start + len ≤ length self.old.bytes }
        ensures value { self.new ≡ written start (replicate len byte) self.old }
        ensures len { length self.new.bytes ≡ length self.old.bytes }
        ensures shaped { IsShaped self.new.page (length self.new.bytes) self.new }
    {
        let page = self.page.get();
        self.bytes.bounded();
        let count = touched_pages(page, start, len);
        self.bytes.fill(start, len, byte);
        set_marks(&mut self.dirty, start / page, count, true);
    }

    /// Copies only the range.
    #[tactic(auto, using(crate::proofs::DenseCalls::put_long, crate::proofs::DenseCalls::put_all_long))]
    pub(crate) fn restore(&mut self, start: usize, len: usize)
        requires { start + len ≤ length self.old.bytes }
        ensures value { self.new ≡ put_back start len self.old }
        ensures marks { self.new.dirty ≡ touched_marked start len self.old.page self.old.dirty }
        ensures len { length self.new.bytes ≡ length self.old.bytes }
        ensures shaped { IsShaped self.new.page (length self.new.bytes) self.new }
    {
        let page = self.page.get();
        self.bytes.bounded();
        let count = touched_pages(page, start, len);
        self.bytes.restore(&self.origin, start, len);
        set_marks(&mut self.dirty, start / page, count, true);
    }
}
