ghost use Rattle.std.specs.Prelude.{◌≡◌, ◌↔◌, ◌+◌, ◌%◌, ◌≤◌, length, slice_range, true, None, Some, Ok, IsTrue, IfSome, is_ok, OnOk, OnErr, option_map};
ghost use Rattle.pool_images.specs.Orders.{Follows, unmapping, removing, image_mapping};
ghost use Rattle.pool_images.specs.Slots.{IsReady, IsClean, IsLeft, IsBegun, IsSlot, FitsInto, HasImage, name_of, without_mapped, without_image, with_image};

use crate::image_slot::{ImageName, MemoryImageSlot};
use crate::memory_image::MemoryImage;
use pool_pages::{PageFault, Pages};
use pool_types::HostAlignedByteCount;

impl<P: Pages> MemoryImageSlot<P> {
    /// Takes the image away; its pages become zeros. Makes no page call where there is no image.
    pub fn remove_image(&mut self) -> Result<(), PageFault>
        requires { IsClean self.old }
        ensures ok { OnOk result (self.new ≡ without_image self.old) }
        ensures clean { OnOk result (IsClean self.new) }
        ensures fault { OnErr result (IsLeft self.old self.new) }
        ensures order { Follows (removing self.old) (is_ok result) self.old.region self.new.region }
    {
        self.fits();
        match self.image {
            None => Ok(()),
            Some(name) => self.unmap(name),
        }
    }

    fn unmap(&mut self, name: ImageName) -> Result<(), PageFault>
        requires clean { IsClean self.old }
        requires fits { IsSlot self.old }
        requires image { self.old.image ≡ Some name }
        ensures ok { OnOk result (self.new ≡ without_mapped (Some name) self.old) }
        ensures clean { OnOk result (IsClean self.new) }
        ensures fault { OnErr result (IsLeft self.old self.new) }
        ensures order { Follows (unmapping self.old.base.bytes self.old.colour (Some name)) (is_ok result) self.old.region self.new.region }
    {
        let page = self.region.page();
        let start = HostAlignedByteCount::new_unchecked(page, name.offset);
        let len = HostAlignedByteCount::new_unchecked(page, name.len);
        self.remap_zeros(start, len)?;
        self.recolour(start, len)?;
        self.image = None;
        Ok(())
    }

    // Maps an image into a clean slot that has none. Once the slot is marked as in use, a memory begins in it. Where
    // pages go back to zeros the slot isn't clean after it.
    pub(super) fn map(&mut self, image: Option<&MemoryImage>) -> Result<(), PageFault>
        requires clean { IsClean self.old }
        requires none { self.old.image ≡ None }
        requires fits { IfSome image (λ i. FitsInto self.old.region.page self.old.accessible.bytes i.now) }
        requires inside_static { IfSome image (λ i. i.now.offset + length i.now.bytes ≤ self.old.static_size) }
        ensures ok { OnOk result (self.new ≡ with_image (option_map (λ i. i.now) image.entry) self.old) }
        ensures begins { OnOk result (IsBegun (option_map (λ i. i.now) image.entry) (record self.new { dirty = true })) }
        ensures fault { OnErr result (IsLeft self.old self.new) }
        ensures order { Follows (image_mapping (option_map (λ i. i.now) image.entry) self.old) (is_ok result) self.old.region self.new.region }
    {
        match image {
            None => self.map_none(),
            Some(image) => self.map_one(image),
        }
    }

    fn map_none(&mut self) -> Result<(), PageFault>
        requires clean { IsClean self.old }
        requires none { self.old.image ≡ None }
        ensures value { result ≡ Ok tt }
        ensures same { self.new ≡ self.old }
        ensures begins { IsBegun None (record self.new { dirty = true }) }
    {
        self.fits();
        Ok(())
    }

    fn map_one(&mut self, image: &MemoryImage) -> Result<(), PageFault>
        requires clean { IsClean self.old }
        requires none { self.old.image ≡ None }
        requires fits { FitsInto self.old.region.page self.old.accessible.bytes image.now }
        requires inside_static { image.now.offset + length image.now.bytes ≤ self.old.static_size }
        ensures ok { OnOk result (self.new ≡ with_image (Some image.now) self.old) }
        ensures begins { OnOk result (IsBegun (Some image.now) (record self.new { dirty = true })) }
        ensures fault { OnErr result (IsLeft self.old self.new) }
        ensures order { Follows (image_mapping (Some image.now) self.old) (is_ok result) self.old.region self.new.region }
    {
        self.fits();
        let name = name_of(image);
        let page = image.data().page();
        let from = HostAlignedByteCount::new_unchecked(page, name.offset);
        let len = HostAlignedByteCount::new_unchecked(page, name.len);
        self.map_image(image)?;
        self.recolour(from, len)?;
        self.image = Some(name);
        Ok(())
    }

    // Whether a clean slot has the wanted image.
    pub(super) fn has(&self, image: Option<&MemoryImage>) -> bool
        requires clean { IsClean self.now }
        requires page { IfSome image (λ i. i.now.page ≡ self.now.region.page) }
        ensures told { IfSome self.now.region.contents (λ c. IsTrue result ↔ HasImage self.now (option_map (λ i. i.now) image.entry) c) }
        ensures named { result ≡ true → self.now.image ≡ option_map name_of (option_map (λ i. i.now) image.entry) }
    {
        match image {
            None => self.image.is_none(),
            Some(image) => self.has_one(image),
        }
    }

    fn has_one(&self, image: &MemoryImage) -> bool
        requires clean { IsClean self.now }
        ensures told { IfSome self.now.region.contents (λ c. IsTrue result ↔ HasImage self.now (Some image.now) c) }
        ensures named { result ≡ true → self.now.image ≡ Some (name_of image.now) }
    {
        self.fits();
        let name = name_of(image);
        if self.is_named(name) {
            self.holds(image.offset(), image.data().as_slice())
        } else {
            false
        }
    }

    fn is_named(&self, name: ImageName) -> bool
        ensures { IsTrue result ↔ (self.now.image ≡ Some name) }
    {
        self.image == Some(name)
    }

    // Whether the bytes from `at` on are these.
    fn holds(&self, at: usize, bytes: &[u8]) -> bool
        requires inside { at + length bytes.now ≤ self.now.accessible.bytes }
        requires ready { IfSome self.now.region.contents (IsReady self.now) }
        ensures { IfSome self.now.region.contents (λ c. IsTrue result ↔ (slice_range c.bytes (self.now.base.bytes + at) (self.now.base.bytes + at + length bytes.now) ≡ bytes.now)) }
    {
        let from = self.base.byte_count() + at;
        self.region.holds(from, bytes)
    }
}

// The name under which a slot keeps the image.
fn name_of(image: &MemoryImage) -> ImageName
    ensures value { result ≡ name_of image.now }
    ensures offset { image.now.offset % image.now.page ≡ 0 }
    ensures len { length image.now.bytes % image.now.page ≡ 0 }
{
    ImageName {
        id: image.id(),
        memory: image.memory(),
        offset: image.offset(),
        len: image.data().as_slice().len(),
    }
}
