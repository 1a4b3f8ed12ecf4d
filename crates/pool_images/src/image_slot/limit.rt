ghost use Rattle.std.specs.Prelude.{◌≡◌, ◌%◌, ◌≤◌, is_ok, IfSome, OnOk, OnErr};
ghost use Rattle.pool_types.specs.Count.{rounded_up};
ghost use Rattle.pool_pages.specs.Told.{passes};
ghost use Rattle.pool_images.specs.Slots.{size_of, CallFaulted, IsSlot, OnlyExposed, raising, raised, limited};

use crate::image_slot::MemoryImageSlot;
use pool_pages::{PageFault, Pages};
use pool_types::HostAlignedByteCount;

impl<P: Pages> MemoryImageSlot<P> {
    /// Makes the first `size` bytes accessible, in whole pages, where they aren't; hides none. What the pages hold stays.
    /// After a `PageFault` pages from `accessible` on may be exposed, which no read or write of the slot reaches.
    pub fn set_heap_limit(&mut self, size: usize) -> Result<(), PageFault>
        requires { rounded_up self.old.region.page size ≤ self.old.static_size }
        ensures ok { OnOk result (self.new ≡ limited size self.old) }
        ensures reached { OnOk result (size ≤ self.new.accessible.bytes) }
        ensures fault { OnErr result (CallFaulted (raising (rounded_up self.old.region.page size) self.old) self.old self.new) }
        ensures planned { IfSome self.old.region.plan (λ plan. is_ok result ≡ passes plan (raising (rounded_up self.old.region.page size) self.old) self.old.region) }
        ensures kept { OnlyExposed self.old self.new }
        ensures fits { IsSlot self.new }
    {
        let size = self.rounded(size);
        if self.accessible.byte_count() < size.byte_count() {
            self.raise_to(size)
        } else {
            Ok(())
        }
    }

    // Exposes what is missing to `size`.
    pub(super) fn raise_to(&mut self, size: HostAlignedByteCount) -> Result<(), PageFault>
        requires page { size.page ≡ self.old.region.page }
        requires whole { size.bytes % size.page ≡ 0 }
        requires within { size.bytes ≤ size_of self.old }
        requires more { self.old.accessible.bytes ≤ size.bytes }
        ensures ok { OnOk result (self.new ≡ raised size.bytes self.old) }
        ensures fault { OnErr result (CallFaulted (raising size.bytes self.old) self.old self.new) }
        ensures planned { IfSome self.old.region.plan (λ plan. is_ok result ≡ passes plan (raising size.bytes self.old) self.old.region) }
        ensures kept { OnlyExposed self.old self.new }
        ensures fits { IsSlot self.new }
    {
        self.fits();
        let had = self.accessible;
        let exposed = self.expose(had, size.saturating_sub(had));
        self.fits();
        exposed?;
        self.accessible = size;
        Ok(())
    }
}
