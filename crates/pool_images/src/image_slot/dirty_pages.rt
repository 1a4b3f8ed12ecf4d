//! The dirty pages of a slot: which of them a reset sets by hand, and the ranges that it leaves of the others.
ghost use Rattle.std.specs.Prelude.{◌≡◌, ℕ, ◌+◌, ◌*◌, ◌^◌, ◌<◌, ◌≤◌, [], ◌∷◌, ◌++◌, length, true, take, drop, not, false, slice_index_or, IfSome};
ghost use Rattle.pool_pages.specs.Contents.{CanReach};
ghost use Rattle.pool_pages.specs.Told.{TellsShaped};
ghost use Rattle.pool_images.specs.Resets.{IsSpan, at_most_eight, at_most_one, marked_from, marked_pages, pages_range, pages_restored, runs_of, span_marks};

use crate::ranges::{ByteRange, MAX_RANGES, Ranges};
use pool_pages::{PageRegion, Pages};

/// Pages of a region, one behind the other: the bytes of each, the byte that they begin at, the number of the first one
/// in the region, and how many they are. Below a page is named by its number among them.
#[derive(Clone, Copy)]
pub struct PageSpan {
    pub page: usize,
    pub base: usize,
    pub first: usize,
    pub pages: usize,
}

/// How many pages were set by hand, and the number of the first one behind them that is dirty.
#[derive(Clone, Copy)]
pub struct DoneByHand {
    pub count: usize,
    pub next: usize,
}

/// Resets pages by their dirty marks: at most so many dirty ones, from the first one on, are set by hand to what they go back
/// to, and the others are left in `ranges`, which must be empty. Answers how many bytes are set by hand.
pub fn reset_dirty<P: Pages>(
    region: &mut PageRegion<P>,
    span: PageSpan,
    most: usize,
    ranges: &mut Ranges,
) -> usize
    requires span { IsSpan span region.old }
    requires reachable { IfSome region.old.contents (CanReach span.base (span.pages * span.page)) }
    requires shaped { TellsShaped region.old }
    requires empty { ranges.old ≡ [] }
    ensures region { region.new ≡ pages_restored span.base (take most (marked_pages (span_marks span region.old))) region.old }
    ensures ranges { ranges.new ≡ at_most_eight (span.pages * span.page) (runs_of span.page (drop most (marked_pages (span_marks span region.old)))) }
    ensures resident { result ≡ length (take most (marked_pages (span_marks span region.old))) * span.page }
    ensures span { IsSpan span region.new }
    ensures shaped { TellsShaped region.new }
{
    let done = restore_dirty(region, span, most);
    leave_dirty(region, span, done.next, ranges);
    done.count * span.page
}

// Sets at most so many dirty pages by hand to what they go back to, from the first one on.
fn restore_dirty<P: Pages>(region: &mut PageRegion<P>, span: PageSpan, most: usize) -> DoneByHand
    requires span { IsSpan span region.old }
    requires reachable { IfSome region.old.contents (CanReach span.base (span.pages * span.page)) }
    requires shaped { TellsShaped region.old }
    ensures region { region.new ≡ pages_restored span.base (take most (marked_pages (span_marks span region.old))) region.old }
    ensures count { result.count ≡ length (take most (marked_pages (span_marks span region.old))) }
    ensures left { marked_from result.next (span_marks span region.new) ≡ drop most (marked_pages (span_marks span region.old)) }
    ensures next { result.next ≤ span.pages }
    ensures span { IsSpan span region.new }
    ensures shaped { TellsShaped region.new }
{
    let mut count = 0;
    let mut next = next_marked(region, span, 0, true);
    while count < most && next < span.pages {
        region.restore(span.base + next * span.page, span.page);
        count += 1;
        next = next_marked(region, span, next + 1, true);
    }
    DoneByHand { count, next }
}

// The dirty pages from one on as ranges, each as long as it can be, at most eight: the eighth reaches to the end where
// there are more.
fn leave_dirty<P: Pages>(region: &PageRegion<P>, span: PageSpan, from: usize, ranges: &mut Ranges)
    requires span { IsSpan span region.now }
    requires from { from ≤ span.pages }
    requires empty { ranges.old ≡ [] }
    ensures { ranges.new ≡ at_most_eight (span.pages * span.page) (runs_of span.page (marked_from from (span_marks span region.now))) }
{
    let mut next = next_marked(region, span, from, true);
    while next < span.pages && ranges.len() < MAX_RANGES - 1 {
        let end = next_marked(region, span, next, false);
        push_pages(ranges, span.page, next, end);
        next = next_marked(region, span, end, true);
    }
    if next < span.pages {
        let end = last_end(region, span, next);
        push_pages(ranges, span.page, next, end);
    }
}

// Where the last range ends that begins at a dirty page: behind its run, or at the end where another dirty page follows.
fn last_end<P: Pages>(region: &PageRegion<P>, span: PageSpan, from: usize) -> usize
    requires span { IsSpan span region.now }
    requires from { from < span.pages }
    requires marked { slice_index_or (span_marks span region.now) from false ≡ true }
    ensures value { pages_range span.page from result ∷ [] ≡ at_most_one (span.pages * span.page) (runs_of span.page (marked_from from (span_marks span region.now))) }
    ensures within { result ≤ span.pages }
    ensures from { from < result }
{
    let end = next_marked(region, span, from, false);
    if next_marked(region, span, end, true) < span.pages {
        span.pages
    } else {
        end
    }
}

// Pushes pages as a range.
fn push_pages(ranges: &mut Ranges, page: usize, from: usize, end: usize)
    requires room { length ranges.old < MAX_RANGES }
    requires rising { from ≤ end }
    requires bounded { end * page < 2 ^ 64 }
    ensures { ranges.new ≡ ranges.old ++ pages_range page from end ∷ [] }
{
    ranges.push(ByteRange {
        start: from * page,
        len: (end - from) * page,
    });
}

// The first page from one on whose mark is this, or the end where there is none.
fn next_marked<P: Pages>(region: &PageRegion<P>, span: PageSpan, from: usize, mark: bool) -> usize
    requires span { IsSpan span region.now }
    requires from { from ≤ span.pages }
    ensures from { from ≤ result }
    ensures within { result ≤ span.pages }
    ensures between { (k : ℕ) → from ≤ k → k < result → slice_index_or (span_marks span region.now) k false ≡ not mark }
    ensures there { result < span.pages → slice_index_or (span_marks span region.now) result false ≡ mark }
{
    let mut k = from;
    while k < span.pages && region.dirty(span.first + k) != mark {
        k += 1;
    }
    k
}
