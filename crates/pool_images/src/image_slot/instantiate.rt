ghost use Rattle.std.specs.Prelude.{◌≡◌, ◌⊎◌, ◌+◌, ◌-◌, ◌%◌, ◌<◌, ◌≤◌, [], ◌∷◌, length, true, IfSome, is_ok, OnOk, OnErr, option_map};
ghost use Rattle.std.specs.Arc.{arc_value};
ghost use Rattle.pool_types.specs.Count.{count, rounded_up};
ghost use Rattle.pool_pages.specs.Told.{exposing, hiding};
ghost use Rattle.pool_images.specs.Orders.{Follows, resizing, replacing};
ghost use Rattle.pool_images.specs.Slots.{size_of, IsClean, IsLeft, IsBegun, IsSized, IsSlot, FitsInto, HasImage, name_of, called, resized, reused, replaced, hides};

use crate::image_slot::MemoryImageSlot;
use crate::memory_image::MemoryImage;
use pool_pages::{PageFault, Pages};
use pool_types::{HostAlignedByteCount, MemoryTunables, MemoryType, PageSize};
use std::sync::Arc;

impl<P: Pages> MemoryImageSlot<P> {
    /// Makes a clean slot what a memory of this type begins in: `initial` bytes of it accessible, the image mapped. It
    /// is in use then. An image that is mapped already isn't mapped again: it is told by its name, offset and length,
    /// and by its bytes, which are compared where they lie. Where pages go back to zeros no clean slot has an image, so
    /// that it is mapped each time. What is accessible above `initial` is hidden only where the memory's bounds may rest
    /// on it.
    pub fn instantiate(
        &mut self,
        initial: usize,
        image: Option<&Arc<MemoryImage>>,
        ty: &MemoryType,
        tunables: &MemoryTunables,
    ) -> Result<(), PageFault>
        requires clean { IsClean self.old }
        requires initial { initial ≤ self.old.static_size }
        requires image { IfSome image (λ i. FitsInto self.old.region.page initial (arc_value i.now)) }
        requires page_log2 { ty.now.page_size_log2 < 64 }
        ensures begun { OnOk result (IsBegun (option_map (λ i. arc_value i.now) image.entry) self.new) }
        ensures sizes { OnOk result (IsSized initial (hides ty.now tunables.now self.old.region.page) self.old self.new) }
        ensures image { OnOk result (self.new.image ≡ option_map name_of (option_map (λ i. arc_value i.now) image.entry)) }
        ensures reused { OnOk result (IfSome self.old.region.contents (λ c. HasImage self.old (option_map (λ i. arc_value i.now) image.entry) c →
            self.new ≡ reused (rounded_up self.old.region.page initial) (hides ty.now tunables.now self.old.region.page) self.old)) }
        ensures replaced { OnOk result (IfSome self.old.region.contents (λ c. (HasImage self.old (option_map (λ i. arc_value i.now) image.entry) c → ⊥) →
            self.new ≡ replaced (rounded_up self.old.region.page initial) (hides ty.now tunables.now self.old.region.page) (option_map (λ i. arc_value i.now) image.entry) self.old)) }
        ensures either { let size = rounded_up self.old.region.page initial in let hide = hides ty.now tunables.now self.old.region.page in
            OnOk result ((self.new ≡ reused size hide self.old) ⊎ (self.new ≡ replaced size hide (option_map (λ i. arc_value i.now) image.entry) self.old)) }
        ensures fault { OnErr result (IsLeft self.old self.new) }
        ensures reuse_order { IfSome self.old.region.contents (λ c. HasImage self.old (option_map (λ i. arc_value i.now) image.entry) c →
            Follows (resizing (rounded_up self.old.region.page initial) (hides ty.now tunables.now self.old.region.page) self.old) (is_ok result) self.old.region self.new.region) }
        ensures replace_order { IfSome self.old.region.contents (λ c. (HasImage self.old (option_map (λ i. arc_value i.now) image.entry) c → ⊥) →
            Follows (replacing (rounded_up self.old.region.page initial) (hides ty.now tunables.now self.old.region.page) (option_map (λ i. arc_value i.now) image.entry) self.old) (is_ok result) self.old.region self.new.region) }
        ensures either_order { let size = rounded_up self.old.region.page initial in let hide = hides ty.now tunables.now self.old.region.page in
            (Follows (resizing size hide self.old) (is_ok result) self.old.region self.new.region) ⊎ (Follows (replacing size hide (option_map (λ i. arc_value i.now) image.entry) self.old) (is_ok result) self.old.region self.new.region) }
    {
        let hides = hides(ty, tunables, self.region.page());
        self.instantiate_image(initial, image_of(image), hides)
    }

    fn instantiate_image(
        &mut self,
        initial: usize,
        image: Option<&MemoryImage>,
        hides: bool,
    ) -> Result<(), PageFault>
        requires clean { IsClean self.old }
        requires initial { initial ≤ self.old.static_size }
        requires image { IfSome image (λ i. FitsInto self.old.region.page initial i.now) }
        ensures begun { OnOk result (IsBegun (option_map (λ i. i.now) image.entry) self.new) }
        ensures sizes { OnOk result (IsSized initial hides self.old self.new) }
        ensures image { OnOk result (self.new.image ≡ option_map name_of (option_map (λ i. i.now) image.entry)) }
        ensures reused { OnOk result (IfSome self.old.region.contents (λ c. HasImage self.old (option_map (λ i. i.now) image.entry) c →
            self.new ≡ reused (rounded_up self.old.region.page initial) hides self.old)) }
        ensures replaced { OnOk result (IfSome self.old.region.contents (λ c. (HasImage self.old (option_map (λ i. i.now) image.entry) c → ⊥) →
            self.new ≡ replaced (rounded_up self.old.region.page initial) hides (option_map (λ i. i.now) image.entry) self.old)) }
        ensures either { let size = rounded_up self.old.region.page initial in
            OnOk result ((self.new ≡ reused size hides self.old) ⊎ (self.new ≡ replaced size hides (option_map (λ i. i.now) image.entry) self.old)) }
        ensures fault { OnErr result (IsLeft self.old self.new) }
        ensures reuse_order { IfSome self.old.region.contents (λ c. HasImage self.old (option_map (λ i. i.now) image.entry) c →
            Follows (resizing (rounded_up self.old.region.page initial) hides self.old) (is_ok result) self.old.region self.new.region) }
        ensures replace_order { IfSome self.old.region.contents (λ c. (HasImage self.old (option_map (λ i. i.now) image.entry) c → ⊥) →
            Follows (replacing (rounded_up self.old.region.page initial) hides (option_map (λ i. i.now) image.entry) self.old) (is_ok result) self.old.region self.new.region) }
        ensures either_order { let size = rounded_up self.old.region.page initial in
            (Follows (resizing size hides self.old) (is_ok result) self.old.region self.new.region) ⊎ (Follows (replacing size hides (option_map (λ i. i.now) image.entry) self.old) (is_ok result) self.old.region self.new.region) }
    {
        let size = self.rounded(initial);
        if self.has(image) {
            self.reuse(size, hides, image)
        } else {
            self.replace(size, hides, image)
        }
    }

    // The whole pages of a number of bytes of the slot.
    pub(super) fn rounded(&self, bytes: usize) -> HostAlignedByteCount
        requires { bytes ≤ self.now.static_size }
        ensures value { result ≡ count self.now.region.page (rounded_up self.now.region.page bytes) }
        ensures whole { rounded_up self.now.region.page bytes % self.now.region.page ≡ 0 }
        ensures within { rounded_up self.now.region.page bytes ≤ size_of self.now }
        ensures above { bytes ≤ rounded_up self.now.region.page bytes }
        ensures fits { IsSlot self.now }
    {
        self.fits();
        HostAlignedByteCount::rounded_up_unchecked(self.region.page(), bytes)
    }

    fn reuse(
        &mut self,
        size: HostAlignedByteCount,
        hides: bool,
        image: Option<&MemoryImage>,
    ) -> Result<(), PageFault>
        requires clean { IsClean self.old }
        requires has { IfSome self.old.region.contents (HasImage self.old (option_map (λ i. i.now) image)) }
        requires named { self.old.image ≡ option_map name_of (option_map (λ i. i.now) image) }
        requires page { size.page ≡ self.old.region.page }
        requires whole { size.bytes % size.page ≡ 0 }
        requires within { size.bytes ≤ size_of self.old }
        requires inside { IfSome image (λ i. i.now.offset + length i.now.bytes ≤ size.bytes) }
        requires inside_static { IfSome image (λ i. i.now.offset + length i.now.bytes ≤ self.old.static_size) }
        ensures ok { OnOk result (self.new ≡ reused size.bytes hides self.old) }
        ensures begun { OnOk result (IsBegun (option_map (λ i. i.now) image.entry) self.new) }
        ensures fault { OnErr result (IsLeft self.old self.new) }
        ensures order { Follows (resizing size.bytes hides self.old) (is_ok result) self.old.region self.new.region }
    {
        self.fits();
        self.resize(size, hides)?;
        self.begin(image);
        Ok(())
    }

    fn replace(
        &mut self,
        size: HostAlignedByteCount,
        hides: bool,
        image: Option<&MemoryImage>,
    ) -> Result<(), PageFault>
        requires clean { IsClean self.old }
        requires page { size.page ≡ self.old.region.page }
        requires whole { size.bytes % size.page ≡ 0 }
        requires within { size.bytes ≤ size_of self.old }
        requires fits { IfSome image (λ i. FitsInto self.old.region.page size.bytes i.now) }
        requires inside_static { IfSome image (λ i. i.now.offset + length i.now.bytes ≤ self.old.static_size) }
        ensures ok { OnOk result (self.new ≡ replaced size.bytes hides (option_map (λ i. i.now) image.entry) self.old) }
        ensures begun { OnOk result (IsBegun (option_map (λ i. i.now) image.entry) self.new) }
        ensures fault { OnErr result (IsLeft self.old self.new) }
        ensures order { Follows (replacing size.bytes hides (option_map (λ i. i.now) image.entry) self.old) (is_ok result) self.old.region self.new.region }
    {
        self.remove_image()?;
        self.resize(size, hides)?;
        self.map(image)?;
        self.mark();
        Ok(())
    }

    // Exposes what is missing up to `size`, and hides what is more where that is wanted.
    fn resize(&mut self, size: HostAlignedByteCount, hides: bool) -> Result<(), PageFault>
        requires clean { IsClean self.old }
        requires page { size.page ≡ self.old.region.page }
        requires whole { size.bytes % size.page ≡ 0 }
        requires within { size.bytes ≤ size_of self.old }
        requires image { IfSome self.old.image (λ name. name.offset + name.len ≤ size.bytes) }
        ensures ok { OnOk result (self.new ≡ resized size.bytes hides self.old) }
        ensures clean { OnOk result (IsClean self.new) }
        ensures fault { OnErr result (IsLeft self.old self.new) }
        ensures order { Follows (resizing size.bytes hides self.old) (is_ok result) self.old.region self.new.region }
    {
        self.fits();
        if self.accessible.byte_count() < size.byte_count() {
            self.raise_to(size)
        } else if hides && size.byte_count() < self.accessible.byte_count() {
            self.hide_from(size)
        } else {
            Ok(())
        }
    }

    fn hide_from(&mut self, size: HostAlignedByteCount) -> Result<(), PageFault>
        requires clean { IsClean self.old }
        requires fits { IsSlot self.old }
        requires page { size.page ≡ self.old.region.page }
        requires whole { size.bytes % size.page ≡ 0 }
        requires less { size.bytes ≤ self.old.accessible.bytes }
        requires image { IfSome self.old.image (λ name. name.offset + name.len ≤ size.bytes) }
        ensures ok { OnOk result (self.new ≡ record (called (hiding (self.old.base.bytes + size.bytes) (self.old.accessible.bytes - size.bytes)) self.old) { accessible = count self.old.region.page size.bytes }) }
        ensures clean { OnOk result (IsClean self.new) }
        ensures fault { OnErr result (IsLeft self.old self.new) }
        ensures order { Follows (hiding (self.old.base.bytes + size.bytes) (self.old.accessible.bytes - size.bytes) ∷ []) (is_ok result) self.old.region self.new.region }
    {
        let had = self.accessible;
        self.hide(size, had.saturating_sub(size))?;
        self.accessible = size;
        Ok(())
    }

    // Marks a clean slot that has the wanted image as in use.
    fn begin(&mut self, _image: Option<&MemoryImage>)
        requires clean { IsClean self.old }
        requires has { IfSome self.old.region.contents (HasImage self.old (option_map (λ i. i.now) _image)) }
        requires inside { IfSome _image (λ i. i.now.offset + length i.now.bytes ≤ self.old.static_size) }
        ensures value { self.new ≡ record self.old { dirty = true } }
        ensures begun { IsBegun (option_map (λ i. i.now) _image.entry) self.new }
    {
        self.fits();
        self.mark();
    }

    fn mark(&mut self)
        ensures { self.new ≡ record self.old { dirty = true } }
    {
        self.dirty = true;
    }
}

// What is accessible and not wanted is hidden.
fn hides(ty: &MemoryType, tunables: &MemoryTunables, page: PageSize) -> bool
    requires { ty.now.page_size_log2 < 64 }
    ensures { result ≡ hides ty.now tunables.now page }
{
    tunables.guard_size() > 0 || ty.can_use_virtual_memory(&tunables.tunables, page)
}

fn image_of(image: Option<&Arc<MemoryImage>>) -> Option<&MemoryImage>
    ensures { option_map (λ i. i.now) result ≡ option_map (λ i. arc_value i.now) image.entry }
{
    match image {
        Some(image) => Some(&**image),
        None => None,
    }
}
