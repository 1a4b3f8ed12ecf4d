ghost use Rattle.std.specs.Prelude.{◌≡◌, ◌+◌, ◌*◌, ◌≤◌, [], min, false, true, None, Some, All, IfOk, IfSome, is_ok, OnOk, OnErr};
ghost use Rattle.pool_pages.specs.Contents.{CanReach};
ghost use Rattle.pool_pages.specs.Told.{TellsMarks, TellsShaped, restored};
ghost use Rattle.pool_images.specs.Orders.{Follows, wiping, resetting};
ghost use Rattle.pool_images.specs.ResetLaws.{bytes_after, bytes_of};
ghost use Rattle.pool_images.specs.Resets.{IsSpan, given_marks, kept_by, left_by, marks_of, reset_by, span_marks, told_by_hand};
ghost use Rattle.pool_images.specs.Slots.{size_of, IsSlot, IsReady, IsClean, IsLeft, IsShut, IsPart, forgotten, wiped, cleared, reset_ranges, decommitted_all};

use crate::image_slot::MemoryImageSlot;
use crate::image_slot::dirty_pages::{PageSpan, reset_dirty};
use crate::ranges::{ByteRange, Ranges};
use pool_pages::{PageFault, PageRegion, Pages};
use pool_types::{DecommitBehavior, HostAlignedByteCount};

impl<P: Pages> MemoryImageSlot<P> {
    /// Resets a slot that was in use, and answers how many of its bytes stay resident. `ranges` must be empty.
    ///
    /// Where the region's pages go back to a mapped image, as much of what is accessible as `keep_resident` says is set
    /// by hand to the image and zeros, and stays resident. What has to be decommitted is left in `ranges`; once that is
    /// done the slot is clean. No page call is made, and none fails. Where `dirty_pages` is true and more than one page is
    /// accessible, only pages that the region marks as dirty are set by hand, in rising order, and only they are left, as
    /// far as eight ranges can say that: where dirty pages lie behind the eighth, it reaches to the end of what is
    /// accessible.
    ///
    /// Where pages go back to zeros, the slot is reset as by `reset_with_anon_memory`, which takes the image out too and
    /// may answer `PageFault`. Whatever `keep_resident` says, nothing stays resident and nothing is left in `ranges`.
    pub fn clear_and_remain_ready(
        &mut self,
        dirty_pages: bool,
        keep_resident: HostAlignedByteCount,
        ranges: &mut Ranges,
    ) -> Result<usize, PageFault>
        requires dirty { self.old.dirty ≡ true }
        requires ready { IfSome self.old.region.contents (IsReady self.old) }
        requires page { keep_resident.page ≡ self.old.region.page }
        requires empty { ranges.old ≡ [] }
        ensures resident { IfOk result (λ n. n ≡ kept_by (given_marks dirty_pages self.old) self.old.region.behaviour keep_resident.bytes self.old) }
        ensures ranges { ranges.new ≡ left_by (given_marks dirty_pages self.old) self.old.region.behaviour keep_resident.bytes self.old }
        ensures value { OnOk result (self.new ≡ reset_by (given_marks dirty_pages self.old) self.old.region.behaviour keep_resident.bytes self.old) }
        ensures parts { All (IsPart self.new.region.page (size_of self.new)) ranges.new }
        ensures clean_after { OnOk result (IsClean (decommitted_all ranges.new self.new)) }
        ensures clean { self.old.accessible.bytes ≤ keep_resident.bytes → OnOk result (IsClean self.new) }
        ensures fits { IsSlot self.new }
        ensures restores { self.old.region.behaviour ≡ DecommitBehavior.RestoreOriginalMapping → is_ok result ≡ true }
        ensures mark { OnErr result (self.new.dirty ≡ self.old.dirty) }
        ensures fault { OnErr result (IsLeft self.old self.new) }
        ensures alike { OnOk result (bytes_of (decommitted_all ranges.new self.new) ≡ bytes_after None 0 self.old) }
        ensures order { Follows (resetting self.old.region.behaviour self.old) (is_ok result) (told_by_hand (given_marks dirty_pages self.old) self.old.region.behaviour keep_resident.bytes self.old) self.new.region }
    {
        self.fits();
        let _len = self.region.len();
        match self.region.behaviour() {
            DecommitBehavior::RestoreOriginalMapping => {
                Ok(self.reset_in_place(dirty_pages, keep_resident, ranges))
            }
            DecommitBehavior::Zero => self.reset_to_zeros(),
        }
    }

    // The reset where pages go back to a mapped image: by the dirty marks where they are offered and are of use.
    fn reset_in_place(
        &mut self,
        dirty_pages: bool,
        keep_resident: HostAlignedByteCount,
        ranges: &mut Ranges,
    ) -> usize
        requires restores { self.old.region.behaviour ≡ DecommitBehavior.RestoreOriginalMapping }
        requires ready { IfSome self.old.region.contents (IsReady self.old) }
        requires page { keep_resident.page ≡ self.old.region.page }
        requires empty { ranges.old ≡ [] }
        ensures resident { result ≡ kept_by (given_marks dirty_pages self.old) DecommitBehavior.RestoreOriginalMapping keep_resident.bytes self.old }
        ensures ranges { ranges.new ≡ left_by (given_marks dirty_pages self.old) DecommitBehavior.RestoreOriginalMapping keep_resident.bytes self.old }
        ensures value { self.new ≡ reset_by (given_marks dirty_pages self.old) DecommitBehavior.RestoreOriginalMapping keep_resident.bytes self.old }
        ensures parts { All (IsPart self.new.region.page (size_of self.new)) ranges.new }
        ensures clean_after { IsClean (decommitted_all ranges.new self.new) }
        ensures clean { self.old.accessible.bytes ≤ keep_resident.bytes → IsClean self.new }
        ensures fits { IsSlot self.new }
    {
        if dirty_pages && self.accessible.byte_count() > self.region.page().get() {
            self.reset_by_marks(keep_resident, ranges)
        } else {
            self.reset_by_hand(keep_resident, ranges)
        }
    }

    // The reset by dirty marks.
    fn reset_by_marks(&mut self, keep_resident: HostAlignedByteCount, ranges: &mut Ranges) -> usize
        requires restores { self.old.region.behaviour ≡ DecommitBehavior.RestoreOriginalMapping }
        requires ready { IfSome self.old.region.contents (IsReady self.old) }
        requires page { keep_resident.page ≡ self.old.region.page }
        requires empty { ranges.old ≡ [] }
        ensures resident { result ≡ kept_by (Some (marks_of self.old)) DecommitBehavior.RestoreOriginalMapping keep_resident.bytes self.old }
        ensures ranges { ranges.new ≡ left_by (Some (marks_of self.old)) DecommitBehavior.RestoreOriginalMapping keep_resident.bytes self.old }
        ensures value { self.new ≡ reset_by (Some (marks_of self.old)) DecommitBehavior.RestoreOriginalMapping keep_resident.bytes self.old }
        ensures parts { All (IsPart self.new.region.page (size_of self.new)) ranges.new }
        ensures clean_after { IsClean (decommitted_all ranges.new self.new) }
        ensures clean { self.old.accessible.bytes ≤ keep_resident.bytes → IsClean self.new }
        ensures fits { IsSlot self.new }
    {
        self.fits();
        let span = self.span();
        let most = keep_resident.byte_count() / span.page;
        let kept = reset_dirty(&mut self.region, span, most, ranges);
        self.dirty = false;
        kept
    }

    // The accessible pages of the slot.
    fn span(&self) -> PageSpan
        ensures span { IsSpan result self.now.region }
        ensures base { result.base ≡ self.now.base.bytes }
        ensures page { result.page ≡ self.now.region.page }
        ensures bytes { result.pages * result.page ≡ self.now.accessible.bytes }
        ensures marks { span_marks result self.now.region ≡ marks_of self.now }
        ensures told { TellsMarks self.now.region }
    {
        let _len = self.region.len();
        let page = self.region.page().get();
        let base = self.base.byte_count();
        PageSpan {
            page,
            base,
            first: base / page,
            pages: self.accessible.byte_count() / page,
        }
    }

    // The reset where pages go back to a mapped image, which asks no marks.
    fn reset_by_hand(&mut self, keep_resident: HostAlignedByteCount, ranges: &mut Ranges) -> usize
        requires restores { self.old.region.behaviour ≡ DecommitBehavior.RestoreOriginalMapping }
        requires ready { IfSome self.old.region.contents (IsReady self.old) }
        requires page { keep_resident.page ≡ self.old.region.page }
        requires empty { ranges.old ≡ [] }
        ensures resident { result ≡ min keep_resident.bytes self.old.accessible.bytes }
        ensures ranges { ranges.new ≡ reset_ranges keep_resident.bytes self.old.accessible.bytes }
        ensures value { self.new ≡ cleared (min keep_resident.bytes self.old.accessible.bytes) self.old }
        ensures parts { All (IsPart self.new.region.page (size_of self.new)) ranges.new }
        ensures clean_after { IsClean (decommitted_all ranges.new self.new) }
        ensures clean { self.old.accessible.bytes ≤ keep_resident.bytes → IsClean self.new }
        ensures fits { IsSlot self.new }
    {
        self.fits();
        let keep = keep_resident.byte_count();
        let accessible = self.accessible.byte_count();
        let kept = keep.min(accessible);
        push_range(ranges, keep, accessible);
        self.clear(kept);
        kept
    }

    // The reset where pages go back to zeros.
    fn reset_to_zeros(&mut self) -> Result<usize, PageFault>
        ensures resident { IfOk result (λ n. n ≡ 0) }
        ensures value { OnOk result (self.new ≡ wiped self.old) }
        ensures clean { OnOk result (IsClean self.new) }
        ensures fits { IsSlot self.new }
        ensures mark { OnErr result (self.new.dirty ≡ self.old.dirty) }
        ensures fault { OnErr result (IsLeft self.old self.new) }
        ensures order { Follows (wiping self.old) (is_ok result) self.old.region self.new.region }
    {
        let reset = self.reset_with_anon_memory();
        self.fits();
        reset?;
        Ok(0)
    }

    // Sets the first `kept` bytes by hand to what they go back to. The slot isn't in use any more then.
    fn clear(&mut self, kept: usize)
        requires within { kept ≤ self.old.accessible.bytes }
        requires ready { IfSome self.old.region.contents (IsReady self.old) }
        ensures value { self.new ≡ cleared kept self.old }
        ensures fits { IsSlot self.new }
    {
        let from = self.base.byte_count();
        restore(&mut self.region, from, kept);
        self.dirty = false;
    }

    /// Leaves the slot as it is made: without image, none of it accessible, and zeros. Whatever came before, also a
    /// `PageFault`. Makes no page call where `static_size` is zero.
    pub fn reset_with_anon_memory(&mut self) -> Result<(), PageFault>
        ensures ok { OnOk result (self.new ≡ wiped self.old) }
        ensures clean { OnOk result (IsClean self.new) }
        ensures shut { OnOk result (IfSome self.new.region.contents (IsShut self.new)) }
        ensures mark { OnErr result (self.new.dirty ≡ self.old.dirty) }
        ensures fault { OnErr result (IsLeft self.old self.new) }
        ensures order { Follows (wiping self.old) (is_ok result) self.old.region self.new.region }
    {
        self.fits();
        let none = self.region.page().zero();
        let size = self.size;
        self.erase(none, size)?;
        self.recolour(none, size)?;
        self.accessible = none;
        self.image = None;
        self.dirty = false;
        Ok(())
    }

    /// Notes that nothing is known of the slot, as after a page call that failed. Such a slot is only good for
    /// `reset_with_anon_memory`, which reads nothing of what is forgotten. Makes no page call.
    pub fn forget(&mut self)
        ensures { self.new ≡ forgotten self.old }
    {
        self.fits();
        self.accessible = self.region.page().zero();
        self.image = None;
        self.dirty = false;
    }
}

// Sets the bytes to what they go back to, unless there are none.
#[tactic(auto, using(crate::proofs::Backs::restored_none))]
fn restore<P: Pages>(region: &mut PageRegion<P>, at: usize, len: usize)
    requires inside { at + len ≤ region.old.len }
    requires reachable { IfSome region.old.contents (CanReach at len) }
    requires shaped { TellsShaped region.old }
    ensures value { region.new ≡ restored at len region.old }
    ensures shaped { TellsShaped region.new }
{
    if len == 0 {
        return;
    }
    region.restore(at, len);
}

// What a reset leaves that keeps so many of the accessible bytes.
fn push_range(ranges: &mut Ranges, kept: usize, accessible: usize)
    requires { ranges.old ≡ [] }
    ensures { ranges.new ≡ reset_ranges kept accessible }
{
    if kept < accessible {
        let len = accessible - kept;
        ranges.push(ByteRange { start: kept, len });
    }
}
