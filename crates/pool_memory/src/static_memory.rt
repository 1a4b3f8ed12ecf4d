ghost use Rattle.std.specs.Prelude.{◌≡◌, ◌+◌, ◌≤◌, length, slice_range, IfSome, IfErr, OnOk};
ghost use Rattle.pool_types.specs.Count.{rounded_up};
ghost use Rattle.pool_images.specs.Slots.{IsInUse, IsSlot};
ghost use Rattle.pool_memory.specs.Growing.{GrowsTo, IsUngrown};
ghost use Rattle.pool_memory.specs.Static.{CanHold, linear_of, static_capacity, made_static};

use crate::linear_memory::RuntimeLinearMemory;
use pool_images::{MemoryImage, MemoryImageSlot};
use pool_limits::GrowError;
use pool_pages::{PageCalls, PageFault, Pages};
use pool_types::{MemoryTunables, MemoryType, Unsupported};
use std::marker::Model;
use std::sync::Arc;

/// A linear memory that stays in the slot that it began in.
#[derive(Drop)]
pub struct StaticMemory<P: Pages> {
    slot: MemoryImageSlot<P>,
    size: usize,
    capacity: usize,
}

impl<P: Pages> Model for StaticMemory<P> {
    ghost use Rattle.pool_memory.specs.Static.{Static, IsStatic};

    ghost Value = { Static };

    ghost view = { λ m. record { slot = m.slot; size = m.size; capacity = m.capacity } };

    ghost invariant = { λ m. IsStatic (record { slot = m.slot; size = m.size; capacity = m.capacity }) };
}

impl<P: Pages> StaticMemory<P> {
    /// The first `initial` bytes of a slot. The memory can grow up to the lesser of `base_capacity` and `maximum`.
    /// Refuses an initial size above `base_capacity`, and hands the slot back then.
    pub fn new(
        base_capacity: usize,
        initial: usize,
        maximum: Option<usize>,
        slot: MemoryImageSlot<P>,
    ) -> Result<StaticMemory<P>, (MemoryImageSlot<P>, Unsupported)>
        requires slot { CanHold initial slot }
        requires maximum { IfSome maximum (λ most. initial ≤ most) }
        requires room { rounded_up slot.region.page base_capacity ≤ slot.static_size }
        ensures { result ≡ made_static base_capacity initial maximum slot }
    {
        if initial > base_capacity {
            return Err((slot, Unsupported::InitialSize));
        }
        let _accessible = slot.accessible();
        Ok(StaticMemory {
            slot,
            size: initial,
            capacity: capacity_of(base_capacity, maximum),
        })
    }

    /// The slot that the memory lies in. It is in use.
    pub fn slot(&self) -> &MemoryImageSlot<P>
        ensures value { result.now ≡ self.now.slot }
        ensures holds { CanHold self.now.size self.now.slot }
    {
        &self.slot
    }

    pub fn into_slot(self) -> MemoryImageSlot<P>
        ensures value { result ≡ self.slot }
        ensures holds { CanHold self.size result }
    {
        self.slot
    }

    fn raise_to(&mut self, size: usize) -> Result<(), GrowError>
        requires more { self.old.size ≤ size }
        requires room { size ≤ self.old.capacity }
        ensures ok { OnOk result (GrowsTo size (linear_of self.old) (linear_of self.new)) }
        ensures err { IfErr result (λ e. IsUngrown e size (linear_of self.old) (linear_of self.new)) }
    {
        self.fits();
        match self.slot.set_heap_limit(size) {
            Ok(()) => {
                self.size = size;
                Ok(())
            }
            Err(PageFault) => Err(GrowError::PageFault),
        }
    }

    // What holds of every slot, for the proofs of its callers here.
    fn fits(&self)
        ensures { IsSlot self.now.slot }
    {
        let _accessible = self.slot.accessible();
    }

    /// The calls made on the memory's region so far.
    pub fn page_calls(&self) -> PageCalls
        ensures { result ≡ self.now.slot.region.calls }
    {
        self.slot.region().calls()
    }
}

// The lesser of what a slot offers and the maximum.
fn capacity_of(base_capacity: usize, maximum: Option<usize>) -> usize
    ensures { result ≡ static_capacity base_capacity maximum }
{
    match maximum {
        Some(most) => base_capacity.min(most),
        None => base_capacity,
    }
}

impl<M, P: Pages> RuntimeLinearMemory<M> for StaticMemory<P> {
    ghost use Rattle.std.specs.Prelude.{[], true, None};
    ghost use Rattle.pool_memory.specs.Static.{linear_of};

    ghost linear = { linear_of };

    ghost untouched = { λ _. true };

    ghost maker_told = { λ _. None };

    ghost maker_borrows = { λ _. [] };

    fn byte_size(&self) -> usize {
        self.fits();
        self.size
    }

    fn byte_capacity(&self) -> usize {
        self.capacity
    }

    fn can_move(&self) -> bool {
        false
    }

    fn has_image(&self) -> bool {
        self.slot.has_image()
    }

    fn read(&self, at: usize, out: &mut [u8]) {
        self.slot.read(at, out)
    }

    fn write(&mut self, at: usize, bytes: &[u8]) {
        self.fits();
        self.slot.write(at, bytes)
    }

    fn fill(&mut self, at: usize, len: usize, byte: u8) {
        self.fits();
        self.slot.fill(at, len, byte)
    }

    fn grow_to(&mut self, _maker: &mut M, size: usize) -> Result<(), GrowError> {
        self.raise_to(size)
    }

    fn set_byte_size(&mut self, len: usize) {
        self.fits();
        self.size = len;
    }

    fn start_image(
        &mut self,
        _ty: &MemoryType,
        _tunables: &MemoryTunables,
        _image: &Arc<MemoryImage>,
    ) -> Result<bool, PageFault> {
        Ok(false)
    }
}
