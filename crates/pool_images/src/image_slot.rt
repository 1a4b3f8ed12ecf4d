ghost use Rattle.std.specs.Prelude.{◌≡◌, ◌+◌, ◌≤◌, [], ◌∷◌, length, replicate, slice_range, false, None, is_ok, is_some, IfSome, OnOk, OnErr};
ghost use Rattle.pool_pages.specs.Told.{exposing, hiding, mapping, remapping, erasing, recolouring, decommitting, passes};
ghost use Rattle.pool_images.specs.Orders.{Follows, colouring};
ghost use Rattle.pool_images.specs.Slots.{size_of, IsRangeOf, CallFaulted, IsLeft, IsFresh, IsReady, IsClean, IsSlot, FitsInto, called, coloured, written_at};

pub(crate) mod dirty_pages;
mod instantiate;
mod limit;
mod mapping;
mod reset;

use crate::memory_image::MemoryImage;
use pool_pages::{PageFault, PageRegion, Pages};
use pool_types::{CompiledModuleId, DefinedMemoryIndex, HostAlignedByteCount};
use std::marker::Model;

/// The name under which a slot keeps the image that is mapped in it.
#[derive(Clone, Copy, Debug, PartialEq, Eq)]
pub struct ImageName {
    pub id: CompiledModuleId,
    pub memory: DefinedMemoryIndex,
    /// In bytes from the slot's base.
    pub offset: usize,
    pub len: usize,
}

/// A slot for a linear memory. It owns the region that the memory lies in, which may be of either behaviour.
///
/// A clean slot holds the bytes of the image mapped in it, and zeros elsewhere. Where the region's pages go back to
/// zeros, a mapped image is a copy that is lost with what was written: a clean slot has no image there, each reset takes
/// it out, and each instantiation maps it again.
///
/// No call takes memory. After a `PageFault` of a call other than `decommit` nothing is known of what the slot holds,
/// and only `reset_with_anon_memory` makes it clean again.
#[derive(Drop)]
pub struct MemoryImageSlot<P: Pages> {
    region: PageRegion<P>,
    base: HostAlignedByteCount,
    accessible: HostAlignedByteCount,
    size: HostAlignedByteCount,
    static_size: usize,
    image: Option<ImageName>,
    dirty: bool,
    colour: Option<u8>,
}

impl<P: Pages> Model for MemoryImageSlot<P> {
    ghost use Rattle.pool_images.specs.Slots.{Slot, Keeps};

    ghost Value = { Slot };

    ghost view = { λ s. record { region = s.region; base = s.base; accessible = s.accessible; static_size = s.static_size; image = s.image; dirty = s.dirty; colour = s.colour } };

    ghost invariant = { λ s. Keeps s.size (record { region = s.region; base = s.base; accessible = s.accessible; static_size = s.static_size; image = s.image; dirty = s.dirty; colour = s.colour }) };
}

impl<P: Pages> MemoryImageSlot<P> {
    /// A slot without image. It begins at `base` in the region, and `static_size` bytes of it can become accessible.
    /// All its pages must have the colour, 0 for None. Each page call that takes the colour of pages away is followed by
    /// one that gives it back, unless the colour is None.
    pub fn create(
        region: P,
        base: HostAlignedByteCount,
        accessible: HostAlignedByteCount,
        static_size: usize,
        colour: Option<u8>,
    ) -> Self
        requires { IsFresh base accessible static_size colour (P.told region) }
        ensures value { result ≡ record { region = P.told region; base = base; accessible = accessible; static_size = static_size; image = None; dirty = false; colour = colour } }
        ensures clean { IsClean result }
    {
        let region = PageRegion::new(region);
        let _len = region.len().byte_count();
        let _base = base.byte_count();
        let _accessible = accessible.byte_count();
        let size = HostAlignedByteCount::rounded_up_unchecked(region.page(), static_size);
        MemoryImageSlot {
            region,
            base,
            accessible,
            size,
            static_size,
            image: None,
            dirty: false,
            colour,
        }
    }

    pub fn region(&self) -> &P
        ensures { P.told result.now ≡ self.now.region }
    {
        self.region.pages()
    }

    pub fn into_region(self) -> P
        ensures { P.told result ≡ self.region }
    {
        self.region.into_pages()
    }

    pub fn has_image(&self) -> bool
        ensures { result ≡ is_some self.now.image }
    {
        self.image.is_some()
    }

    pub fn is_dirty(&self) -> bool
        ensures { result ≡ self.now.dirty }
    {
        self.dirty
    }

    /// In bytes.
    pub fn accessible(&self) -> HostAlignedByteCount
        ensures value { result ≡ self.now.accessible }
        ensures within { self.now.accessible.bytes ≤ size_of self.now }
        ensures fits { IsSlot self.now }
    {
        self.accessible
    }

    /// `Pages::decommit` of a range of the slot, counted from its base. The dirty mark stays, and so does a clean slot,
    /// also where it answers `PageFault`.
    pub fn decommit(
        &mut self,
        start: HostAlignedByteCount,
        len: HostAlignedByteCount,
    ) -> Result<(), PageFault>
        requires { IsRangeOf start len self.old }
        ensures ok { OnOk result (self.new ≡ called (decommitting (self.old.base.bytes + start.bytes) len.bytes) self.old) }
        ensures fault { OnErr result (CallFaulted (decommitting (self.old.base.bytes + start.bytes) len.bytes) self.old self.new) }
        ensures planned { IfSome self.old.region.plan (λ plan. is_ok result ≡ passes plan (decommitting (self.old.base.bytes + start.bytes) len.bytes) self.old.region) }
        ensures order { Follows (decommitting (self.old.base.bytes + start.bytes) len.bytes ∷ []) (is_ok result) self.old.region self.new.region }
        ensures clean { IsClean self.old → OnOk result (IsClean self.new) }
        ensures clean_still { IsClean self.old → OnErr result (IsClean self.new) }
    {
        let from = self.base.unchecked_add(start);
        self.region.decommit(from, len)
    }

    /// Reads the bytes from `at` on, counted from the base.
    pub fn read(&self, at: usize, out: &mut [u8])
        requires inside { at + length out.old ≤ self.now.accessible.bytes }
        requires ready { IfSome self.now.region.contents (IsReady self.now) }
        ensures { IfSome self.now.region.contents (λ c. out.new ≡ slice_range c.bytes (self.now.base.bytes + at) (self.now.base.bytes + at + length out.old)) }
    {
        let from = self.base.byte_count() + at;
        self.region.read(from, out)
    }

    /// Writes the bytes from `at` on, counted from the base. The slot is dirty then, and all other bytes stay.
    pub fn write(&mut self, at: usize, bytes: &[u8])
        requires inside { at + length bytes.now ≤ self.old.accessible.bytes }
        requires ready { IfSome self.old.region.contents (IsReady self.old) }
        ensures written { self.new ≡ written_at at bytes.now self.old }
        ensures ready { IfSome self.new.region.contents (IsReady self.new) }
    {
        let from = self.base.byte_count() + at;
        self.region.write(from, bytes);
        self.dirty = true;
    }

    /// Sets `len` bytes from `at` on to one value, as a write of them all does.
    pub fn fill(&mut self, at: usize, len: usize, byte: u8)
        requires inside { at + len ≤ self.old.accessible.bytes }
        requires ready { IfSome self.old.region.contents (IsReady self.old) }
        ensures written { self.new ≡ written_at at (replicate len byte) self.old }
        ensures ready { IfSome self.new.region.contents (IsReady self.new) }
    {
        let from = self.base.byte_count() + at;
        self.region.fill(from, len, byte);
        self.dirty = true
    }

    fn expose(
        &mut self,
        start: HostAlignedByteCount,
        len: HostAlignedByteCount,
    ) -> Result<(), PageFault>
        requires { IsRangeOf start len self.old }
        ensures ok { OnOk result (self.new ≡ called (exposing (self.old.base.bytes + start.bytes) len.bytes) self.old) }
        ensures fault { OnErr result (CallFaulted (exposing (self.old.base.bytes + start.bytes) len.bytes) self.old self.new) }
        ensures planned { IfSome self.old.region.plan (λ plan. is_ok result ≡ passes plan (exposing (self.old.base.bytes + start.bytes) len.bytes) self.old.region) }
    {
        let from = self.base.unchecked_add(start);
        self.region.expose(from, len)
    }

    fn hide(
        &mut self,
        start: HostAlignedByteCount,
        len: HostAlignedByteCount,
    ) -> Result<(), PageFault>
        requires { IsRangeOf start len self.old }
        ensures ok { OnOk result (self.new ≡ called (hiding (self.old.base.bytes + start.bytes) len.bytes) self.old) }
        ensures fault { OnErr result (CallFaulted (hiding (self.old.base.bytes + start.bytes) len.bytes) self.old self.new) }
        ensures planned { IfSome self.old.region.plan (λ plan. is_ok result ≡ passes plan (hiding (self.old.base.bytes + start.bytes) len.bytes) self.old.region) }
    {
        let from = self.base.unchecked_add(start);
        self.region.hide(from, len)
    }

    fn remap_zeros(
        &mut self,
        start: HostAlignedByteCount,
        len: HostAlignedByteCount,
    ) -> Result<(), PageFault>
        requires { IsRangeOf start len self.old }
        ensures ok { OnOk result (self.new ≡ called (remapping (self.old.base.bytes + start.bytes) len.bytes) self.old) }
        ensures fault { OnErr result (CallFaulted (remapping (self.old.base.bytes + start.bytes) len.bytes) self.old self.new) }
        ensures planned { IfSome self.old.region.plan (λ plan. is_ok result ≡ passes plan (remapping (self.old.base.bytes + start.bytes) len.bytes) self.old.region) }
        ensures order { Follows (remapping (self.old.base.bytes + start.bytes) len.bytes ∷ []) (is_ok result) self.old.region self.new.region }
    {
        let from = self.base.unchecked_add(start);
        self.region.remap_zeros(from, len)
    }

    fn erase(
        &mut self,
        start: HostAlignedByteCount,
        len: HostAlignedByteCount,
    ) -> Result<(), PageFault>
        requires { IsRangeOf start len self.old }
        ensures ok { OnOk result (self.new ≡ called (erasing (self.old.base.bytes + start.bytes) len.bytes) self.old) }
        ensures fault { OnErr result (CallFaulted (erasing (self.old.base.bytes + start.bytes) len.bytes) self.old self.new) }
        ensures planned { IfSome self.old.region.plan (λ plan. is_ok result ≡ passes plan (erasing (self.old.base.bytes + start.bytes) len.bytes) self.old.region) }
        ensures order { Follows (erasing (self.old.base.bytes + start.bytes) len.bytes ∷ []) (is_ok result) self.old.region self.new.region }
    {
        let from = self.base.unchecked_add(start);
        self.region.erase(from, len)
    }

    // Gives the pages of a range the slot's colour, where it has one.
    fn recolour(
        &mut self,
        start: HostAlignedByteCount,
        len: HostAlignedByteCount,
    ) -> Result<(), PageFault>
        requires { IsRangeOf start len self.old }
        ensures ok { OnOk result (self.new ≡ record self.old { region = coloured self.old.colour (self.old.base.bytes + start.bytes) len.bytes self.old.region }) }
        ensures mark { OnErr result (self.new.dirty ≡ self.old.dirty) }
        ensures fault { OnErr result (IsLeft self.old self.new) }
        ensures order { Follows (colouring self.old.colour (self.old.base.bytes + start.bytes) len.bytes) (is_ok result) self.old.region self.new.region }
    {
        match self.colour {
            None => Ok(()),
            Some(colour) => self.recolour_as(start, len, colour),
        }
    }

    fn recolour_as(
        &mut self,
        start: HostAlignedByteCount,
        len: HostAlignedByteCount,
        colour: u8,
    ) -> Result<(), PageFault>
        requires { IsRangeOf start len self.old }
        ensures ok { OnOk result (self.new ≡ called (recolouring (self.old.base.bytes + start.bytes) len.bytes colour) self.old) }
        ensures fault { OnErr result (CallFaulted (recolouring (self.old.base.bytes + start.bytes) len.bytes colour) self.old self.new) }
        ensures order { Follows (recolouring (self.old.base.bytes + start.bytes) len.bytes colour ∷ []) (is_ok result) self.old.region self.new.region }
    {
        let from = self.base.unchecked_add(start);
        self.region.recolour(from, len, colour)
    }

    fn map_image(&mut self, image: &MemoryImage) -> Result<(), PageFault>
        requires fits { FitsInto self.old.region.page self.old.accessible.bytes image.now }
        requires clean { IsClean self.old }
        requires none { self.old.image ≡ None }
        ensures ok { OnOk result (self.new ≡ called (mapping self.old.region.behaviour (self.old.base.bytes + image.now.offset) image.now.bytes) self.old) }
        ensures fault { OnErr result (CallFaulted (mapping self.old.region.behaviour (self.old.base.bytes + image.now.offset) image.now.bytes) self.old self.new) }
        ensures planned { IfSome self.old.region.plan (λ plan. is_ok result ≡ passes plan (mapping self.old.region.behaviour (self.old.base.bytes + image.now.offset) image.now.bytes) self.old.region) }
        ensures order { Follows (mapping self.old.region.behaviour (self.old.base.bytes + image.now.offset) image.now.bytes ∷ []) (is_ok result) self.old.region self.new.region }
    {
        let start = HostAlignedByteCount::new_unchecked(image.data().page(), image.offset());
        let from = self.base.unchecked_add(start);
        self.region.map_image(from, image.data())
    }

    // What holds of every slot, for the proofs of its callers here.
    fn fits(&self)
        ensures { IsSlot self.now }
    {
        let _region = &self.region;
    }
}
