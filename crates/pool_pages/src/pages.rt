ghost use Rattle.std.specs.Prelude.{◌≡◌, ℕ, ◌+◌, ◌/◌, ◌<◌, ◌≤◌, true, List, length, replicate, slice_range, slice_index_or, false, is_ok, OnOk, OnErr, IfSome, IsTrue, ◌↔◌};
ghost use Rattle.pool_types.specs.Count.{count, IsPageSize};
ghost use Rattle.pool_pages.specs.Contents.{CanReach, HasNoOtherImage};
ghost use Rattle.pool_pages.specs.Told.{Told, IsRange, Faulted, succeeded, TellsShaped, TellsMarks, FailsAsListed, overwritten, restored, passes, exposing, hiding, mapping, remapping, erasing, recolouring, decommitting};

use crate::image_data::ImageData;
use pool_types::{DecommitBehavior, HostAlignedByteCount, PageSize};

/// What a region is for. The number is that of its slot, or of its making where it is made on demand.
#[derive(Clone, Copy, Debug, PartialEq, Eq)]
pub enum RegionName {
    Memory(u32),
    Table(u32),
    Stack(u32),
    OnDemand(u32),
}

/// How many calls of each kind were made on a region, those that failed included. A count stands
/// still at the end of its type.
#[derive(Clone, Copy, Debug, PartialEq, Eq)]
pub struct PageCalls {
    pub expose: u64,
    pub hide: u64,
    pub map_image: u64,
    pub remap_zeros: u64,
    pub erase: u64,
    pub recolour: u64,
    pub decommit: u64,
}

/// A call on pages failed.
#[derive(Clone, Copy, Debug, PartialEq, Eq)]
pub struct PageFault;

/// A region of memory: a row of pages that are reached, hidden, mapped and reset by calls which may fail.
///
/// Each call changes exactly the pages of its range. A call that fails raises `faults`; after it each page
/// of the range is as before or as the success would leave it. A call of length zero succeeds, changes
/// nothing and isn't counted. No call takes memory. A region always tells contracts which of its pages are dirty. It
/// may tell what its pages hold, and the numbers of its calls that fail: no more of its calls failed than these list
/// among those made. That these fit together its length shows at any moment.
pub trait Pages: Drop {
    ghost told: { Self → Told };

    fn name(&self) -> RegionName
        ensures { result ≡ (told self.now).name };

    fn page(&self) -> PageSize
        ensures { result ≡ (told self.now).page };

    fn len(&self) -> HostAlignedByteCount
        ensures value { result ≡ count (told self.now).page (told self.now).len }
        ensures shaped { TellsShaped (told self.now) }
        ensures marks { TellsMarks (told self.now) }
        ensures failures { FailsAsListed (told self.now) };

    /// How many calls have failed. Never falls.
    fn faults(&self) -> u64
        ensures { result ≡ (told self.now).faults };

    fn calls(&self) -> PageCalls
        ensures { result ≡ (told self.now).calls };

    fn behaviour(&self) -> DecommitBehavior
        ensures { result ≡ (told self.now).behaviour };

    /// The colour of the page with this number; 0 is none.
    fn colour(&self, page: usize) -> u8
        requires { page < (told self.now).len / (told self.now).page }
        ensures { IfSome (told self.now).contents (λ c. result ≡ slice_index_or c.colour page 0) };

    /// Whether the page with this number may hold something else than what it goes back to.
    fn dirty(&self, page: usize) -> bool
        requires { page < (told self.now).len / (told self.now).page }
        ensures { result ≡ slice_index_or (told self.now).marks page false };

    /// The pages can be reached; what they hold stays.
    fn expose(
        &mut self,
        start: HostAlignedByteCount,
        len: HostAlignedByteCount,
    ) -> Result<(), PageFault>
        requires { IsRange start len (told self.old) }
        ensures ok { OnOk result (told self.new ≡ succeeded (exposing start.bytes len.bytes) (told self.old)) }
        ensures fault { OnErr result (Faulted (exposing start.bytes len.bytes) (told self.old) (told self.new)) }
        ensures planned { IfSome (told self.old).plan (λ plan. is_ok result ≡ passes plan (exposing start.bytes len.bytes) (told self.old)) }
        ensures shaped { TellsShaped (told self.new) };

    /// The pages can't be reached; what they hold stays.
    fn hide(
        &mut self,
        start: HostAlignedByteCount,
        len: HostAlignedByteCount,
    ) -> Result<(), PageFault>
        requires { IsRange start len (told self.old) }
        ensures ok { OnOk result (told self.new ≡ succeeded (hiding start.bytes len.bytes) (told self.old)) }
        ensures fault { OnErr result (Faulted (hiding start.bytes len.bytes) (told self.old) (told self.new)) }
        ensures planned { IfSome (told self.old).plan (λ plan. is_ok result ≡ passes plan (hiding start.bytes len.bytes) (told self.old)) }
        ensures shaped { TellsShaped (told self.new) };

    /// The pages can be reached, have no colour and hold the image. They go back to it, except under
    /// behaviour `Zero`, where the image is as if it had been written.
    fn map_image(&mut self, start: HostAlignedByteCount, image: &ImageData) -> Result<(), PageFault>
        requires range { IsRange start (count image.now.page (length image.now.bytes)) (told self.old) }
        requires one_image { IfSome (told self.old).contents (HasNoOtherImage start.bytes image.now.bytes) }
        ensures ok { OnOk result (told self.new ≡ succeeded (mapping (told self.old).behaviour start.bytes image.now.bytes) (told self.old)) }
        ensures fault { OnErr result (Faulted (mapping (told self.old).behaviour start.bytes image.now.bytes) (told self.old) (told self.new)) }
        ensures planned { IfSome (told self.old).plan (λ plan. is_ok result ≡ passes plan (mapping (told self.old).behaviour start.bytes image.now.bytes) (told self.old)) }
        ensures shaped { TellsShaped (told self.new) };

    /// The pages can be reached, have no colour and hold zeros, which they go back to.
    fn remap_zeros(
        &mut self,
        start: HostAlignedByteCount,
        len: HostAlignedByteCount,
    ) -> Result<(), PageFault>
        requires { IsRange start len (told self.old) }
        ensures ok { OnOk result (told self.new ≡ succeeded (remapping start.bytes len.bytes) (told self.old)) }
        ensures fault { OnErr result (Faulted (remapping start.bytes len.bytes) (told self.old) (told self.new)) }
        ensures planned { IfSome (told self.old).plan (λ plan. is_ok result ≡ passes plan (remapping start.bytes len.bytes) (told self.old)) }
        ensures shaped { TellsShaped (told self.new) };

    /// The pages can't be reached, have no colour and hold zeros, which they go back to.
    fn erase(
        &mut self,
        start: HostAlignedByteCount,
        len: HostAlignedByteCount,
    ) -> Result<(), PageFault>
        requires { IsRange start len (told self.old) }
        ensures ok { OnOk result (told self.new ≡ succeeded (erasing start.bytes len.bytes) (told self.old)) }
        ensures fault { OnErr result (Faulted (erasing start.bytes len.bytes) (told self.old) (told self.new)) }
        ensures planned { IfSome (told self.old).plan (λ plan. is_ok result ≡ passes plan (erasing start.bytes len.bytes) (told self.old)) }
        ensures shaped { TellsShaped (told self.new) };

    /// The pages have this colour; what they hold, and whether they can be reached, stays.
    fn recolour(
        &mut self,
        start: HostAlignedByteCount,
        len: HostAlignedByteCount,
        colour: u8,
    ) -> Result<(), PageFault>
        requires { IsRange start len (told self.old) }
        ensures ok { OnOk result (told self.new ≡ succeeded (recolouring start.bytes len.bytes colour) (told self.old)) }
        ensures fault { OnErr result (Faulted (recolouring start.bytes len.bytes colour) (told self.old) (told self.new)) }
        ensures planned { IfSome (told self.old).plan (λ plan. is_ok result ≡ passes plan (recolouring start.bytes len.bytes colour) (told self.old)) }
        ensures shaped { TellsShaped (told self.new) };

    /// The pages hold what they go back to.
    fn decommit(
        &mut self,
        start: HostAlignedByteCount,
        len: HostAlignedByteCount,
    ) -> Result<(), PageFault>
        requires { IsRange start len (told self.old) }
        ensures ok { OnOk result (told self.new ≡ succeeded (decommitting start.bytes len.bytes) (told self.old)) }
        ensures fault { OnErr result (Faulted (decommitting start.bytes len.bytes) (told self.old) (told self.new)) }
        ensures planned { IfSome (told self.old).plan (λ plan. is_ok result ≡ passes plan (decommitting start.bytes len.bytes) (told self.old)) }
        ensures shaped { TellsShaped (told self.new) };

    /// Reads the bytes from `at` on into `out`.
    fn read(&self, at: usize, out: &mut [u8])
        requires inside { at + length out.old ≤ (told self.now).len }
        requires reachable { IfSome (told self.now).contents (CanReach at (length out.old)) }
        ensures { IfSome (told self.now).contents (λ c. out.new ≡ slice_range c.bytes at (at + length out.old)) };

    /// Whether the bytes from `at` on are these. They are compared where they lie. It is no page call: it
    /// can't fail and isn't counted.
    fn holds(&self, at: usize, bytes: &[u8]) -> bool
        requires inside { at + length bytes.now ≤ (told self.now).len }
        requires reachable { IfSome (told self.now).contents (CanReach at (length bytes.now)) }
        ensures { IfSome (told self.now).contents (λ c. IsTrue result ↔ (slice_range c.bytes at (at + length bytes.now) ≡ bytes.now)) };

    /// Writes the bytes from `at` on. The touched pages are dirty.
    fn write(&mut self, at: usize, bytes: &[u8])
        requires inside { at + length bytes.now ≤ (told self.old).len }
        requires reachable { IfSome (told self.old).contents (CanReach at (length bytes.now)) }
        ensures written { told self.new ≡ overwritten at bytes.now (told self.old) }
        ensures shaped { TellsShaped (told self.new) };

    /// Writes one byte `len` times from `at` on. The touched pages are dirty.
    fn fill(&mut self, at: usize, len: usize, byte: u8)
        requires inside { at + len ≤ (told self.old).len }
        requires reachable { IfSome (told self.old).contents (CanReach at len) }
        ensures written { told self.new ≡ overwritten at (replicate len byte) (told self.old) }
        ensures shaped { TellsShaped (told self.new) };

    /// Sets the bytes from `at` on to what they go back to, as a write does: the touched pages are dirty.
    /// It is no page call: it can't fail and isn't counted.
    fn restore(&mut self, at: usize, len: usize)
        requires inside { at + len ≤ (told self.old).len }
        requires reachable { IfSome (told self.old).contents (CanReach at len) }
        ensures restored { told self.new ≡ restored at len (told self.old) }
        ensures shaped { TellsShaped (told self.new) };
}
