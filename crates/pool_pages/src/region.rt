ghost use Rattle.std.specs.Prelude.{◌≡◌, ℕ, ◌+◌, ◌/◌, ◌<◌, ◌≤◌, true, List, length, replicate, slice_range, slice_index_or, false, is_ok, OnOk, OnErr, IfSome, IsTrue, ◌↔◌};
ghost use Rattle.pool_types.specs.Count.{count, IsPageSize};
ghost use Rattle.pool_pages.specs.Contents.{CanReach, HasNoOtherImage};
ghost use Rattle.pool_pages.specs.Told.{Told, IsRange, Faulted, succeeded, TellsShaped, TellsMarks, FailsAsListed, overwritten, restored, passes, exposing, hiding, mapping, remapping, erasing, recolouring, decommitting};

use crate::image_data::ImageData;
use crate::pages::{PageCalls, PageFault, Pages, RegionName};
use pool_types::{DecommitBehavior, HostAlignedByteCount, PageSize};
use std::marker::Model;

/// A region as the layers above own it: contracts see it as what it tells, as plain data.
#[derive(Drop)]
pub struct PageRegion<P: Pages> {
    pages: P,
}

impl<P: Pages> Model for PageRegion<P> {
    ghost use Rattle.pool_pages.specs.Told.{Told};

    ghost Value = { Told };

    ghost view = { λ r. P.told r.pages };
}

impl<P: Pages> PageRegion<P> {
    pub fn new(pages: P) -> Self
        ensures { result ≡ P.told pages }
    {
        PageRegion { pages }
    }

    pub fn pages(&self) -> &P
        ensures { P.told result.now ≡ self.now }
    {
        &self.pages
    }

    pub fn into_pages(self) -> P
        ensures { P.told result ≡ self }
    {
        self.pages
    }

    pub fn name(&self) -> RegionName
        ensures { result ≡ self.now.name }
    {
        self.pages.name()
    }

    pub fn page(&self) -> PageSize
        ensures { result ≡ self.now.page }
    {
        self.pages.page()
    }

    pub fn len(&self) -> HostAlignedByteCount
        ensures value { result ≡ count self.now.page self.now.len }
        ensures shaped { TellsShaped self.now }
        ensures marks { TellsMarks self.now }
        ensures failures { FailsAsListed self.now }
    {
        self.pages.len()
    }

    pub fn faults(&self) -> u64
        ensures { result ≡ self.now.faults }
    {
        self.pages.faults()
    }

    pub fn calls(&self) -> PageCalls
        ensures { result ≡ self.now.calls }
    {
        self.pages.calls()
    }

    pub fn behaviour(&self) -> DecommitBehavior
        ensures { result ≡ self.now.behaviour }
    {
        self.pages.behaviour()
    }

    /// The colour of the page with this number; 0 is none.
    pub fn colour(&self, page: usize) -> u8
        requires { page < self.now.len / self.now.page }
        ensures { IfSome self.now.contents (λ c. result ≡ slice_index_or c.colour page 0) }
    {
        self.pages.colour(page)
    }

    /// Whether the page with this number may hold something else than what it goes back to.
    pub fn dirty(&self, page: usize) -> bool
        requires { page < self.now.len / self.now.page }
        ensures { result ≡ slice_index_or self.now.marks page false }
    {
        self.pages.dirty(page)
    }

    pub fn expose(
        &mut self,
        start: HostAlignedByteCount,
        len: HostAlignedByteCount,
    ) -> Result<(), PageFault>
        requires { IsRange start len self.old }
        ensures ok { OnOk result (self.new ≡ succeeded (exposing start.bytes len.bytes) self.old) }
        ensures fault { OnErr result (Faulted (exposing start.bytes len.bytes) self.old self.new) }
        ensures planned { IfSome self.old.plan (λ plan. is_ok result ≡ passes plan (exposing start.bytes len.bytes) self.old) }
        ensures shaped { TellsShaped self.new }
    {
        self.pages.expose(start, len)
    }

    pub fn hide(
        &mut self,
        start: HostAlignedByteCount,
        len: HostAlignedByteCount,
    ) -> Result<(), PageFault>
        requires { IsRange start len self.old }
        ensures ok { OnOk result (self.new ≡ succeeded (hiding start.bytes len.bytes) self.old) }
        ensures fault { OnErr result (Faulted (hiding start.bytes len.bytes) self.old self.new) }
        ensures planned { IfSome self.old.plan (λ plan. is_ok result ≡ passes plan (hiding start.bytes len.bytes) self.old) }
        ensures shaped { TellsShaped self.new }
    {
        self.pages.hide(start, len)
    }

    pub fn map_image(
        &mut self,
        start: HostAlignedByteCount,
        image: &ImageData,
    ) -> Result<(), PageFault>
        requires range { IsRange start (count image.now.page (length image.now.bytes)) self.old }
        requires one_image { IfSome self.old.contents (HasNoOtherImage start.bytes image.now.bytes) }
        ensures ok { OnOk result (self.new ≡ succeeded (mapping self.old.behaviour start.bytes image.now.bytes) self.old) }
        ensures fault { OnErr result (Faulted (mapping self.old.behaviour start.bytes image.now.bytes) self.old self.new) }
        ensures planned { IfSome self.old.plan (λ plan. is_ok result ≡ passes plan (mapping self.old.behaviour start.bytes image.now.bytes) self.old) }
        ensures shaped { TellsShaped self.new }
    {
        self.pages.map_image(start, image)
    }

    pub fn remap_zeros(
        &mut self,
        start: HostAlignedByteCount,
        len: HostAlignedByteCount,
    ) -> Result<(), PageFault>
        requires { IsRange start len self.old }
        ensures ok { OnOk result (self.new ≡ succeeded (remapping start.bytes len.bytes) self.old) }
        ensures fault { OnErr result (Faulted (remapping start.bytes len.bytes) self.old self.new) }
        ensures planned { IfSome self.old.plan (λ plan. is_ok result ≡ passes plan (remapping start.bytes len.bytes) self.old) }
        ensures shaped { TellsShaped self.new }
    {
        self.pages.remap_zeros(start, len)
    }

    pub fn erase(
        &mut self,
        start: HostAlignedByteCount,
        len: HostAlignedByteCount,
    ) -> Result<(), PageFault>
        requires { IsRange start len self.old }
        ensures ok { OnOk result (self.new ≡ succeeded (erasing start.bytes len.bytes) self.old) }
        ensures fault { OnErr result (Faulted (erasing start.bytes len.bytes) self.old self.new) }
        ensures planned { IfSome self.old.plan (λ plan. is_ok result ≡ passes plan (erasing start.bytes len.bytes) self.old) }
        ensures shaped { TellsShaped self.new }
    {
        self.pages.erase(start, len)
    }

    pub fn recolour(
        &mut self,
        start: HostAlignedByteCount,
        len: HostAlignedByteCount,
        colour: u8,
    ) -> Result<(), PageFault>
        requires { IsRange start len self.old }
        ensures ok { OnOk result (self.new ≡ succeeded (recolouring start.bytes len.bytes colour) self.old) }
        ensures fault { OnErr result (Faulted (recolouring start.bytes len.bytes colour) self.old self.new) }
        ensures planned { IfSome self.old.plan (λ plan. is_ok result ≡ passes plan (recolouring start.bytes len.bytes colour) self.old) }
        ensures shaped { TellsShaped self.new }
    {
        self.pages.recolour(start, len, colour)
    }

    pub fn decommit(
        &mut self,
        start: HostAlignedByteCount,
        len: HostAlignedByteCount,
    ) -> Result<(), PageFault>
        requires { IsRange start len self.old }
        ensures ok { OnOk result (self.new ≡ succeeded (decommitting start.bytes len.bytes) self.old) }
        ensures fault { OnErr result (Faulted (decommitting start.bytes len.bytes) self.old self.new) }
        ensures planned { IfSome self.old.plan (λ plan. is_ok result ≡ passes plan (decommitting start.bytes len.bytes) self.old) }
        ensures shaped { TellsShaped self.new }
    {
        self.pages.decommit(start, len)
    }

    pub fn read(&self, at: usize, out: &mut [u8])
        requires inside { at + length out.old ≤ self.now.len }
        requires reachable { IfSome self.now.contents (CanReach at (length out.old)) }
        ensures { IfSome self.now.contents (λ c. out.new ≡ slice_range c.bytes at (at + length out.old)) }
    {
        self.pages.read(at, out)
    }

    pub fn holds(&self, at: usize, bytes: &[u8]) -> bool
        requires inside { at + length bytes.now ≤ self.now.len }
        requires reachable { IfSome self.now.contents (CanReach at (length bytes.now)) }
        ensures { IfSome self.now.contents (λ c. IsTrue result ↔ (slice_range c.bytes at (at + length bytes.now) ≡ bytes.now)) }
    {
        self.pages.holds(at, bytes)
    }

    pub fn write(&mut self, at: usize, bytes: &[u8])
        requires inside { at + length bytes.now ≤ self.old.len }
        requires reachable { IfSome self.old.contents (CanReach at (length bytes.now)) }
        ensures written { self.new ≡ overwritten at bytes.now self.old }
        ensures shaped { TellsShaped self.new }
    {
        self.pages.write(at, bytes)
    }

    pub fn fill(&mut self, at: usize, len: usize, byte: u8)
        requires inside { at + len ≤ self.old.len }
        requires reachable { IfSome self.old.contents (CanReach at len) }
        ensures written { self.new ≡ overwritten at (replicate len byte) self.old }
        ensures shaped { TellsShaped self.new }
    {
        self.pages.fill(at, len, byte)
    }

    pub fn restore(&mut self, at: usize, len: usize)
        requires inside { at + len ≤ self.old.len }
        requires reachable { IfSome self.old.contents (CanReach at len) }
        ensures restored { self.new ≡ restored at len self.old }
        ensures shaped { TellsShaped self.new }
    {
        self.pages.restore(at, len)
    }
}
