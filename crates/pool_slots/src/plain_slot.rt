ghost use Rattle.std.specs.Prelude.{◌≡◌, ◌+◌, ◌%◌, ◌≤◌, [], None, Some, length, replicate, slice_range, All, IfSome};
ghost use Rattle.pool_pages.specs.Told.{TellsMarks};
ghost use Rattle.pool_images.specs.ResetLaws.{bytes_of};
ghost use Rattle.pool_images.specs.Resets.{marks_of};
ghost use Rattle.pool_images.specs.Slots.{IsPart, IsClean, size_of, decommitted_all};
ghost use Rattle.pool_slots.specs.PlainSlots.{IsPlain, IsTableReset, IsUnusedFrom, IsUsedSpan, plain_written, top_kept, top_reset, below_top, above_bottom, used_after, used_kept, used_left, used_marks, used_part, used_reset, CleanSlotsReadZeros, ZeroedSlotsAreClean};
ghost use Rattle.pool_slots.specs.SlotQueues.{plain_slot};

use pool_images::{ByteRange, PageSpan, Ranges, reset_dirty};
use pool_pages::{PageCalls, PageRegion, Pages};
use pool_types::HostAlignedByteCount;
use std::marker::Model;

/// The region of a table or a stack from a byte on, seen as a slot without image, all of which can be reached.
#[derive(Drop)]
pub struct PlainSlot<P: Pages> {
    region: PageRegion<P>,
    base: HostAlignedByteCount,
}

impl<P: Pages> Model for PlainSlot<P> {
    ghost use Rattle.pool_images.specs.Slots.{Slot};
    ghost use Rattle.pool_slots.specs.PlainSlots.{IsPlain};
    ghost use Rattle.pool_slots.specs.SlotQueues.{plain_slot};

    ghost Value = { Slot };

    ghost view = { λ s. plain_slot s.base.bytes s.region };

    ghost invariant = { λ s. IsPlain (plain_slot s.base.bytes s.region) };
}

impl<P: Pages> PlainSlot<P> {
    pub fn new(region: P, base: HostAlignedByteCount) -> Self
        requires { IsPlain (plain_slot base.bytes (P.told region)) }
        ensures { result ≡ plain_slot base.bytes (P.told region) }
    {
        PlainSlot {
            region: PageRegion::new(region),
            base,
        }
    }

    /// In bytes.
    pub fn len(&self) -> usize
        ensures value { result ≡ self.now.static_size }
        ensures plain { IsPlain self.now }
    {
        self.region.len().byte_count() - self.base.byte_count()
    }

    /// Reads the bytes from `at` on.
    pub fn read(&self, at: usize, out: &mut [u8])
        requires { at + length out.old ≤ self.now.static_size }
        ensures { IfSome self.now.region.contents (λ c. out.new ≡ slice_range c.bytes (self.now.base.bytes + at) (self.now.base.bytes + at + length out.old)) }
    {
        let from = self.base.byte_count() + at;
        self.region.read(from, out)
    }

    /// Writes the bytes from `at` on. All other bytes stay.
    pub fn write(&mut self, at: usize, bytes: &[u8])
        requires { at + length bytes.now ≤ self.old.static_size }
        ensures { self.new ≡ plain_written at bytes.now self.old }
    {
        let from = self.base.byte_count() + at;
        self.region.write(from, bytes);
    }

    /// Sets `len` bytes from `at` on to one value, as a write of them all does.
    pub fn fill(&mut self, at: usize, len: usize, byte: u8)
        requires { at + len ≤ self.old.static_size }
        ensures { self.new ≡ plain_written at (replicate len byte) self.old }
    {
        let from = self.base.byte_count() + at;
        self.region.fill(from, len, byte);
    }

    /// The calls made so far on the region.
    pub fn page_calls(&self) -> PageCalls
        ensures { result ≡ self.now.region.calls }
    {
        self.region.calls()
    }

    /// Resets the slot as a stack: so many bytes at its top, or all where it has fewer, are zeroed by hand, and the rest is
    /// left in `ranges`, also where it is empty. `ranges` must be empty. Answers how many bytes are zeroed.
    pub fn reset_below_top(
        &mut self,
        keep_resident: HostAlignedByteCount,
        ranges: &mut Ranges,
    ) -> usize
        requires page { keep_resident.page ≡ self.old.region.page }
        requires empty { ranges.old ≡ [] }
        ensures resident { result ≡ top_kept keep_resident.bytes self.old }
        ensures ranges { ranges.new ≡ below_top keep_resident.bytes self.old }
        ensures value { self.new ≡ top_reset keep_resident.bytes self.old }
        ensures parts { All (IsPart self.new.region.page (size_of self.new)) ranges.new }
        ensures clean_after { IsClean (decommitted_all ranges.new self.new) }
    {
        let size = self.len();
        let kept = keep_resident.byte_count().min(size);
        let rest = size - kept;
        self.fill(rest, kept, 0);
        ranges.push(ByteRange {
            start: 0,
            len: rest,
        });
        kept
    }

    /// Resets the slot as a table that used its first `used` bytes, whole pages. So many of these, or all where they are fewer,
    /// are zeroed by hand, and the others are left in `ranges`, unless there are none. Where `dirty_pages` is true and the
    /// table used more than one page, only pages that the region marks as dirty are zeroed or left, as by the reset of a
    /// memory's slot. `ranges` must be empty. Answers how many bytes are zeroed.
    pub fn reset_pages(
        &mut self,
        dirty_pages: bool,
        used: HostAlignedByteCount,
        keep_resident: HostAlignedByteCount,
        ranges: &mut Ranges,
    ) -> usize
        requires used_page { used.page ≡ self.old.region.page }
        requires page { keep_resident.page ≡ self.old.region.page }
        requires within { used.bytes ≤ self.old.static_size }
        requires unused { IsUnusedFrom used.bytes self.old }
        requires empty { ranges.old ≡ [] }
        ensures resident { result ≡ used_kept (used_marks dirty_pages used.bytes self.old) keep_resident.bytes used.bytes self.old }
        ensures ranges { ranges.new ≡ used_left (used_marks dirty_pages used.bytes self.old) keep_resident.bytes used.bytes self.old }
        ensures value { self.new ≡ used_reset (used_marks dirty_pages used.bytes self.old) keep_resident.bytes used.bytes self.old }
        ensures parts { All (IsPart self.new.region.page (size_of self.new)) ranges.new }
        ensures clean_after { IsClean (decommitted_all ranges.new self.new) }
        ensures unused { IsUnusedFrom used.bytes self.new }
        ensures most { result ≤ used.bytes }
        ensures alike { bytes_of (decommitted_all ranges.new self.new) ≡ used_after None 0 used.bytes self.old }
        ensures marks { TellsMarks self.old.region }
    {
        let _pages = self.used_pages(used);
        self.reset_either(dirty_pages, used, keep_resident, ranges)
    }

    // The reset by dirty marks where they are offered and are of use, or the plain one.
    fn reset_either(
        &mut self,
        dirty_pages: bool,
        used: HostAlignedByteCount,
        keep_resident: HostAlignedByteCount,
        ranges: &mut Ranges,
    ) -> usize
        requires used_page { used.page ≡ self.old.region.page }
        requires page { keep_resident.page ≡ self.old.region.page }
        requires within { used.bytes ≤ self.old.static_size }
        requires unused { IsUnusedFrom used.bytes self.old }
        requires empty { ranges.old ≡ [] }
        ensures { IsTableReset (used_marks dirty_pages used.bytes self.old) keep_resident.bytes used.bytes self.old self.new result ranges.new }
    {
        if dirty_pages && used.byte_count() > self.region.page().get() {
            self.reset_marked(used, keep_resident, ranges)
        } else {
            self.reset_used(used, keep_resident, ranges)
        }
    }

    // The reset by dirty marks.
    fn reset_marked(
        &mut self,
        used: HostAlignedByteCount,
        keep_resident: HostAlignedByteCount,
        ranges: &mut Ranges,
    ) -> usize
        requires used_page { used.page ≡ self.old.region.page }
        requires within { used.bytes ≤ self.old.static_size }
        requires unused { IsUnusedFrom used.bytes self.old }
        requires empty { ranges.old ≡ [] }
        ensures { IsTableReset (Some (marks_of (used_part used.bytes self.old))) keep_resident.bytes used.bytes self.old self.new result ranges.new }
    {
        let span = self.used_pages(used);
        let most = keep_resident.byte_count() / span.page;
        reset_dirty(&mut self.region, span, most, ranges)
    }

    // The pages that a table used.
    fn used_pages(&self, used: HostAlignedByteCount) -> PageSpan
        requires used_page { used.page ≡ self.now.region.page }
        requires within { used.bytes ≤ self.now.static_size }
        ensures { IsUsedSpan used.bytes self.now result }
    {
        let _len = self.region.len();
        let page = self.region.page().get();
        let base = self.base.byte_count();
        PageSpan {
            page,
            base,
            first: base / page,
            pages: used.byte_count() / page,
        }
    }

    // The plain reset, which asks no marks.
    fn reset_used(
        &mut self,
        used: HostAlignedByteCount,
        keep_resident: HostAlignedByteCount,
        ranges: &mut Ranges,
    ) -> usize
        requires used_page { used.page ≡ self.old.region.page }
        requires page { keep_resident.page ≡ self.old.region.page }
        requires within { used.bytes ≤ self.old.static_size }
        requires unused { IsUnusedFrom used.bytes self.old }
        requires empty { ranges.old ≡ [] }
        ensures { IsTableReset None keep_resident.bytes used.bytes self.old self.new result ranges.new }
    {
        let _plain = self.len();
        let keep = keep_resident.byte_count();
        let used = used.byte_count();
        let kept = keep.min(used);
        self.fill(0, kept, 0);
        push_rest(ranges, keep, used);
        kept
    }

    /// The region, and where in it the slot begins, as a queue holds it.
    pub fn into_parts(self) -> (PageRegion<P>, HostAlignedByteCount)
        ensures { plain_slot result.1.bytes result.0 ≡ self }
    {
        (self.region, self.base)
    }

    /// The region.
    pub fn into_region(self) -> P
        ensures { P.told result ≡ self.region }
    {
        self.region.into_pages()
    }
}

// What a reset leaves that keeps so many of the bytes that were used.
fn push_rest(ranges: &mut Ranges, kept: usize, used: usize)
    requires { ranges.old ≡ [] }
    ensures { ranges.new ≡ above_bottom kept used }
{
    if kept < used {
        let len = used - kept;
        ranges.push(ByteRange { start: kept, len });
    }
}

/// A clean plain slot reads as zeros, and one that is zeroed by hand is clean, whatever it held. It does nothing.
#[tactic(auto, using(crate::proofs::PlainSlots::clean_slots_read_zeros, crate::proofs::ByHand::zeroed_clean))]
pub fn zeroed_slots_read_zeros()
    ensures clean { CleanSlotsReadZeros }
    ensures zeroed { ZeroedSlotsAreClean }
{}
