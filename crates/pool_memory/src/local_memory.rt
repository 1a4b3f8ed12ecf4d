ghost use Rattle.std.specs.Prelude.{◌≡◌, ◌↔◌, ◌+◌, ◌^◌, ◌<◌, ◌≤◌, ◌&&◌, length, replicate, slice_range, true, not, false, IsTrue, Option, Some, option_map, IfOk, IfErr, IfSome, OnOk, OnErr, MatchResult};
ghost use Rattle.std.specs.Arc.{arc_value};
ghost use Rattle.pool_types.specs.MemoryTypes.{page_size, memory_may_move};
ghost use Rattle.pool_memory.specs.Linear.{IsLinear, in_slot, is_mapped};
ghost use Rattle.pool_memory.specs.Growing.{AskedPages, grown_size, past_room, exceeds};
ghost use Rattle.pool_memory.specs.Making.{maximum_asked};
ghost use Rattle.pool_memory.specs.Starting.{takes_image, ImageFits, HasNotStarted, BeginsWith, StartsBy};
ghost use Rattle.pool_memory.specs.Static.{CanHold};
ghost use Rattle.pool_memory.specs.Memories.{slot_of, bytes_of, memory_written, access_answer};

use crate::linear_memory::RuntimeLinearMemory;
use crate::making::maximum_asked;
use crate::static_memory::StaticMemory;
use pool_images::{MemoryImage, MemoryImageSlot};
use pool_limits::{GrowError, Trap};
use pool_pages::{PageCalls, PageFault, Pages};
use pool_types::{MemoryTunables, MemoryType};
use std::marker::{Model, PhantomData};
use std::sync::Arc;

/// A linear memory with its type, that one instance has to itself.
#[derive(Drop)]
pub struct LocalMemory<M, L: RuntimeLinearMemory<M>> {
    memory: L,
    ty: MemoryType,
    memory_may_move: bool,
    maker: PhantomData<M>,
}

impl<M, L: RuntimeLinearMemory<M>> Model for LocalMemory<M, L> {
    ghost use Rattle.pool_memory.specs.Memories.{MemoryState, IsMemoryState};

    ghost Value = { MemoryState };

    ghost view = { λ m. record { ty = m.ty; may_move = m.memory_may_move; linear = L.linear m.memory } };

    ghost invariant = { λ m. IsMemoryState (record { ty = m.ty; may_move = m.memory_may_move; linear = L.linear m.memory }) };
}

impl<M, L: RuntimeLinearMemory<M>> LocalMemory<M, L> {
    /// The memory, with a type that its size leaves room for one page of. An image is mapped into it where it takes one,
    /// and is dropped otherwise. The memory is handed back where that fails.
    pub fn new(
        ty: &MemoryType,
        tunables: &MemoryTunables,
        memory: L,
        image: Option<&Arc<MemoryImage>>,
    ) -> Result<Self, (L, PageFault)>
        requires page { ty.now.page_size_log2 < 64 }
        requires room { (L.linear memory).size + page_size ty.now ≤ 2 ^ 64 }
        requires image { IfSome image (λ i. (L.untouched memory ≡ true) × ImageFits (arc_value i.now) (L.linear memory)) }
        ensures parts { IfOk result (λ m. (m.ty ≡ ty.now) × (m.may_move ≡ (memory_may_move ty.now tunables.now && (L.linear memory).moves))) }
        ensures begins { IfOk result (λ m. BeginsWith (takes_image (L.linear memory)) (option_map (λ i. arc_value i.now) image.entry) (L.linear memory) m.linear) }
        ensures fault { IfErr result (λ e. HasNotStarted (L.linear memory) (L.linear e.0)) }
        ensures order { IfSome (option_map (λ i. arc_value i.now) image.entry) (λ i. MatchResult result (λ m. StartsBy ty.now tunables.now i true (L.linear memory) m.linear) (λ e. StartsBy ty.now tunables.now i false (L.linear memory) (L.linear e.0))) }
    {
        match image {
            None => Ok(LocalMemory::with_memory(ty, tunables, memory)),
            Some(image) => LocalMemory::with_image(ty, tunables, memory, image),
        }
    }

    fn with_image(
        ty: &MemoryType,
        tunables: &MemoryTunables,
        mut memory: L,
        image: &Arc<MemoryImage>,
    ) -> Result<Self, (L, PageFault)>
        requires page { ty.now.page_size_log2 < 64 }
        requires room { (L.linear memory).size + page_size ty.now ≤ 2 ^ 64 }
        requires untouched { L.untouched memory ≡ true }
        requires fits { ImageFits (arc_value image.now) (L.linear memory) }
        ensures parts { IfOk result (λ m. (m.ty ≡ ty.now) × (m.may_move ≡ (memory_may_move ty.now tunables.now && (L.linear memory).moves))) }
        ensures begins { IfOk result (λ m. BeginsWith (takes_image (L.linear memory)) (Some (arc_value image.now)) (L.linear memory) m.linear) }
        ensures fault { IfErr result (λ e. HasNotStarted (L.linear memory) (L.linear e.0)) }
        ensures order { MatchResult result (λ m. StartsBy ty.now tunables.now (arc_value image.now) true (L.linear memory) m.linear) (λ e. StartsBy ty.now tunables.now (arc_value image.now) false (L.linear memory) (L.linear e.0)) }
    {
        match memory.start_image(ty, tunables, image) {
            Ok(_takes) => Ok(LocalMemory::with_memory(ty, tunables, memory)),
            Err(fault) => Err((memory, fault)),
        }
    }

    /// The memory as it is, without an image.
    pub fn with_memory(ty: &MemoryType, tunables: &MemoryTunables, memory: L) -> Self
        requires page { ty.now.page_size_log2 < 64 }
        requires room { (L.linear memory).size + page_size ty.now ≤ 2 ^ 64 }
        ensures { result ≡ record { ty = ty.now; may_move = memory_may_move ty.now tunables.now && (L.linear memory).moves; linear = L.linear memory } }
    {
        let memory_may_move = ty.memory_may_move(tunables) && memory.can_move();
        LocalMemory {
            memory,
            ty: *ty,
            memory_may_move,
            maker: PhantomData,
        }
    }

    pub fn ty(&self) -> &MemoryType
        ensures value { result.now ≡ self.now.ty }
        ensures fixed { self.now.ty.shared ≡ true → self.now.may_move ≡ false }
        ensures room { self.now.linear.size + page_size self.now.ty ≤ 2 ^ 64 }
    {
        &self.ty
    }

    /// In bytes.
    pub fn byte_size(&self) -> usize
        ensures value { result ≡ self.now.linear.size }
        ensures always { IsLinear self.now.linear }
    {
        self.memory.byte_size()
    }

    /// The size of the memory's own pages, in bytes.
    pub fn page_size(&self) -> u64
        ensures { result ≡ page_size self.now.ty }
    {
        self.ty.page_size()
    }

    /// Whether the bytes that the memory begins with have yet to be written into it. They haven't where an image is
    /// mapped.
    pub fn needs_init(&self) -> bool
        ensures { result ≡ not (is_mapped self.now.linear.storage) }
    {
        !self.memory.has_image()
    }

    /// Reads the bytes from `at` on into `out`, which stays as it is where they pass the size.
    pub fn read(&self, at: u64, out: &mut [u8]) -> Result<(), Trap>
        ensures answer { result ≡ access_answer (at + length out.old) self.now.linear.size }
        ensures bytes { OnOk result (IfSome (bytes_of self.now) (λ bytes. out.new ≡ slice_range bytes at (at + length out.old))) }
        ensures same { OnErr result (out.new ≡ out.old) }
    {
        if !self.has(at, out.len()) {
            return Err(Trap::MemoryOutOfBounds);
        }
        self.memory.read(at as usize, out);
        Ok(())
    }

    /// Writes the bytes from `at` on, or nothing where they pass the size.
    pub fn write(&mut self, at: u64, bytes: &[u8]) -> Result<(), Trap>
        ensures answer { result ≡ access_answer (at + length bytes.now) self.old.linear.size }
        ensures written { OnOk result (self.new ≡ memory_written at bytes.now self.old) }
        ensures same { OnErr result (self.new ≡ self.old) }
    {
        if !self.has(at, bytes.len()) {
            return Err(Trap::MemoryOutOfBounds);
        }
        self.memory.write(at as usize, bytes);
        Ok(())
    }

    /// Sets `len` bytes from `at` on to one value, or nothing where they pass the size. Takes no memory.
    pub fn fill(&mut self, at: u64, len: u64, byte: u8) -> Result<(), Trap>
        ensures answer { result ≡ access_answer (at + len) self.old.linear.size }
        ensures written { OnOk result (self.new ≡ memory_written at (replicate len byte) self.old) }
        ensures same { OnErr result (self.new ≡ self.old) }
    {
        if !self.has(at, len as usize) {
            return Err(Trap::MemoryOutOfBounds);
        }
        self.memory.fill(at as usize, len as usize, byte);
        Ok(())
    }

    // The size after a growth by so many pages.
    pub(crate) fn grown_size(&self, delta_pages: u64) -> usize
        ensures value { result ≡ grown_size delta_pages self.now }
        ensures more { self.now.linear.size ≤ result }
        ensures room { result + page_size self.now.ty ≤ 2 ^ 64 }
    {
        let page = self.ty.page_size();
        let more = delta_pages.saturating_mul(page);
        let size = (self.memory.byte_size() as u64).saturating_add(more);
        size.min(u64::MAX - (page - 1)) as usize
    }

    // Grows to a size, unless it is past the room.
    pub(crate) fn grow_pages(&mut self, maker: &mut M, size: usize) -> Result<(), GrowError>
        requires more { self.old.linear.size ≤ size }
        requires room { size + page_size self.old.ty ≤ 2 ^ 64 }
        ensures asked { AskedPages (past_room size self.old) size self.old.linear self.new.linear (L.maker_told maker.old) (L.maker_told maker.new) result }
        ensures borrows { L.maker_borrows maker.new ≡ L.maker_borrows maker.old }
        ensures same { self.new ≡ record self.old { linear = self.new.linear } }
    {
        if self.has_room(size) {
            self.memory.grow_to(maker, size)
        } else {
            Err(GrowError::MaximumExceeded)
        }
    }

    // The maximum that a limiter is told.
    pub(crate) fn maximum(&self) -> Option<usize>
        ensures { result ≡ maximum_asked self.now.ty }
    {
        maximum_asked(&self.ty)
    }

    fn has_room(&self, size: usize) -> bool
        ensures { result ≡ not (past_room size self.now) }
    {
        let within = is_within(self.maximum(), size);
        within && (self.memory_may_move || size <= self.memory.byte_capacity())
    }

    fn has(&self, at: u64, len: usize) -> bool
        ensures { IsTrue result ↔ (at + len ≤ self.now.linear.size) }
    {
        let size = self.memory.byte_size();
        at <= size as u64 && len <= size - at as usize
    }
}

fn is_within(most: Option<usize>, size: usize) -> bool
    ensures { result ≡ not (exceeds most size) }
{
    match most {
        Some(most) => size <= most,
        None => true,
    }
}

impl<P: Pages> LocalMemory<(), StaticMemory<P>> {
    /// The slot that the memory lies in. It is in use.
    pub fn unwrap_static_image(self) -> MemoryImageSlot<P>
        ensures value { result ≡ slot_of self }
        ensures storage { self.linear.storage ≡ in_slot result }
        ensures holds { CanHold self.linear.size result }
    {
        self.memory.into_slot()
    }

    /// The slot that the memory lies in, and stays in. It is in use.
    pub fn slot(&self) -> &MemoryImageSlot<P>
        ensures value { result.now ≡ slot_of self.now }
        ensures holds { CanHold self.now.linear.size (slot_of self.now) }
        ensures fixed { self.now.may_move ≡ false }
    {
        self.memory.slot()
    }

    /// The calls made on the memory's region so far.
    pub fn page_calls(&self) -> PageCalls
        ensures { result ≡ (slot_of self.now).region.calls }
    {
        self.memory.page_calls()
    }
}
