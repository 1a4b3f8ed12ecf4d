ghost use Rattle.std.specs.Prelude.{[], ◌∷◌, ◌≡◌, ◌+◌, ◌^◌, ◌<◌, ◌≤◌, length, replicate, slice_range, not, false, Option, Some, None, IfOk, IfSome, OnOk, OnErr};
ghost use Rattle.std.specs.Option.{option_copied_mut};
ghost use Rattle.pool_types.specs.Count.{rounded_up};
ghost use Rattle.pool_types.specs.MemoryTypes.{page_size, minimum_byte_size, refused_limits};
ghost use Rattle.pool_limits.specs.Growth.{memory_answer};
ghost use Rattle.pool_limits.specs.LimiterTold.{after_answer, limiter_told, option_left};
ghost use Rattle.pool_limits.specs.Exchanges.{may_grow, IfExchanged};
ghost use Rattle.pool_images.specs.Images.{Image, start};
ghost use Rattle.pool_images.specs.Slots.{IsBegun};
ghost use Rattle.pool_memory.specs.Linear.{IsLinear, in_slot, is_mapped};
ghost use Rattle.pool_memory.specs.Static.{CanHold};
ghost use Rattle.pool_memory.specs.Memories.{slot_of, bytes_of, memory_written, access_answer};
ghost use Rattle.pool_memory.specs.Making.{EndsWithin, minimum_asked, maximum_asked, minimum_question, static_limiter_answer, static_answer};
ghost use Rattle.pool_memory.specs.Growing.{GrowsAsking, GrowsMoving};
ghost use Rattle.pool_memory.specs.MemoryStates.{state_of};

use crate::linear_memory::RuntimeLinearMemory;
use crate::local_memory::LocalMemory;
use crate::making::make_static;
use crate::memory_error::MemoryError;
use crate::static_memory::StaticMemory;
use pool_images::MemoryImageSlot;
use pool_limits::{GrowFault, ResourceLimiter, Trap, Unlimited};
use pool_pages::{PageCalls, Pages};
use pool_types::{MemoryTunables, MemoryType};

/// A memory of an instance.
#[derive(Drop)]
pub enum Memory<M, L: RuntimeLinearMemory<M>> {
    Local(LocalMemory<M, L>),
}

impl<M, L: RuntimeLinearMemory<M>> Memory<M, L> {
    pub fn ty(&self) -> &MemoryType
        ensures { result.now ≡ (state_of self.now).ty }
    {
        let Memory::Local(memory) = self;
        memory.ty()
    }

    /// In bytes.
    pub fn byte_size(&self) -> usize
        ensures value { result ≡ (state_of self.now).linear.size }
        ensures always { IsLinear (state_of self.now).linear }
    {
        let Memory::Local(memory) = self;
        memory.byte_size()
    }

    /// The size of the memory's own pages, in bytes.
    pub fn page_size(&self) -> u64
        ensures { result ≡ page_size (state_of self.now).ty }
    {
        let Memory::Local(memory) = self;
        memory.page_size()
    }

    /// Whether the bytes that the memory begins with have yet to be written into it. They haven't where an image is
    /// mapped.
    pub fn needs_init(&self) -> bool
        ensures { result ≡ not (is_mapped (state_of self.now).linear.storage) }
    {
        let Memory::Local(memory) = self;
        memory.needs_init()
    }

    pub fn is_shared_memory(&self) -> bool
        ensures { result ≡ false }
    {
        let Memory::Local(_memory) = self;
        false
    }

    /// Reads the bytes from `at` on into `out`, which stays as it is where they pass the size.
    pub fn read(&self, at: u64, out: &mut [u8]) -> Result<(), Trap>
        ensures answer { result ≡ access_answer (at + length out.old) (state_of self.now).linear.size }
        ensures bytes { OnOk result (IfSome (bytes_of (state_of self.now)) (λ bytes. out.new ≡ slice_range bytes at (at + length out.old))) }
        ensures same { OnErr result (out.new ≡ out.old) }
    {
        let Memory::Local(memory) = self;
        memory.read(at, out)
    }

    /// Writes the bytes from `at` on, or nothing where they pass the size.
    pub fn write(&mut self, at: u64, bytes: &[u8]) -> Result<(), Trap>
        ensures answer { result ≡ access_answer (at + length bytes.now) (state_of self.old).linear.size }
        ensures written { OnOk result (state_of self.new ≡ memory_written at bytes.now (state_of self.old)) }
        ensures same { OnErr result (state_of self.new ≡ state_of self.old) }
    {
        let Memory::Local(memory) = self;
        memory.write(at, bytes)
    }

    /// Sets `len` bytes from `at` on to one value, or nothing where they pass the size. Takes no memory.
    pub fn fill(&mut self, at: u64, len: u64, byte: u8) -> Result<(), Trap>
        ensures answer { result ≡ access_answer (at + len) (state_of self.old).linear.size }
        ensures written { OnOk result (state_of self.new ≡ memory_written at (replicate len byte) (state_of self.old)) }
        ensures same { OnErr result (state_of self.new ≡ state_of self.old) }
    {
        let Memory::Local(memory) = self;
        memory.fill(at, len, byte)
    }

    /// Grows the memory by so many of its own pages. Answers the old size in bytes, or None, where the memory's size and
    /// bytes are as before. By 0 pages nobody is asked. A size that the type forbids is only reported to the limiter;
    /// then the limiter is asked; then a size past the maximum, or past the capacity of a memory that isn't moved, and a
    /// failure of the pages is reported to it. Its error is `LimiterFault`. Where there is no memory for a region that
    /// moves, the answer is `GrowFault::Memory`, whatever the limiter makes of the report, and the memory is as before.
    /// The maker is called only where the memory moves, and then for one region.
    pub fn grow<R: ResourceLimiter>(
        &mut self,
        maker: &mut M,
        delta_pages: u64,
        limiter: Option<&mut R>,
    ) -> Result<Option<usize>, GrowFault>
        ensures growth { GrowsAsking R.told R.leads delta_pages (state_of self.old).linear.size (state_of self.old) (state_of self.new) (option_copied_mut limiter.entry) (option_left limiter.exit) result }
        ensures maker { GrowsMoving R.told R.leads delta_pages (state_of self.old).linear.size (state_of self.old) (state_of self.new) (L.maker_told maker.old) (L.maker_told maker.new) (option_copied_mut limiter.entry) (option_left limiter.exit) result }
        ensures borrows { L.maker_borrows maker.new ≡ L.maker_borrows maker.old }
    {
        match limiter {
            Some(limiter) => self.grow_asking(maker, delta_pages, limiter),
            None => self.grow_asking(maker, delta_pages, &mut Unlimited),
        }
    }

    // The same with a limiter.
    fn grow_asking<R: ResourceLimiter>(
        &mut self,
        maker: &mut M,
        delta_pages: u64,
        limiter: &mut R,
    ) -> Result<Option<usize>, GrowFault>
        ensures growth { GrowsMoving R.told R.leads delta_pages (state_of self.old).linear.size (state_of self.old) (state_of self.new) (L.maker_told maker.old) (L.maker_told maker.new) (Some limiter.old) (Some limiter.new) result }
        ensures borrows { L.maker_borrows maker.new ≡ L.maker_borrows maker.old }
    {
        let Memory::Local(memory) = self;
        memory.grow_from(maker, delta_pages, limiter)
    }
}

impl<P: Pages> Memory<(), StaticMemory<P>> {
    /// The memory of this type in a slot that can hold its minimum, of which it can have `base_capacity` bytes. The
    /// limiter is asked first; then a minimum is refused that a `u64` or the memory's addresses can't hold, and at last
    /// one above `base_capacity`. The slot is handed back with a refusal. Takes no memory.
    pub fn new_static<R: ResourceLimiter>(
        ty: &MemoryType,
        tunables: &MemoryTunables,
        base_capacity: usize,
        slot: MemoryImageSlot<P>,
        limiter: Option<&mut R>,
    ) -> Result<Memory<(), StaticMemory<P>>, (MemoryImageSlot<P>, MemoryError)>
        requires page { ty.now.page_size_log2 < 64 }
        requires limits { refused_limits ty.now.limits ≡ None }
        requires slot { minimum_byte_size ty.now < 2 ^ 64 → CanHold (minimum_byte_size ty.now) slot }
        requires room { rounded_up slot.region.page base_capacity ≤ slot.static_size }
        ensures value { result ≡ static_answer (static_limiter_answer result) ty.now base_capacity slot }
        ensures asked { static_limiter_answer result ≡ memory_answer (limiter_told R.told (option_copied_mut limiter.entry)).rule (static_limiter_answer result) (minimum_asked ty.now) (maximum_asked ty.now) }
        ensures limiter { limiter_told R.told (option_left limiter.exit) ≡ after_answer (static_limiter_answer result) (limiter_told R.told (option_copied_mut limiter.entry)) }
        ensures exchange { IfExchanged R.leads (may_grow (minimum_question ty.now) (static_limiter_answer result) ∷ []) (option_copied_mut limiter.entry) (option_left limiter.exit) }
        ensures begun { IfOk result (λ m. (image : Option Image) → IsBegun image slot → EndsWithin (minimum_byte_size ty.now) image → IfSome (bytes_of (state_of m)) (λ bytes. bytes ≡ start image (minimum_byte_size ty.now))) }
    {
        match limiter {
            Some(limiter) => make_static(ty, tunables, base_capacity, slot, limiter),
            None => make_static(ty, tunables, base_capacity, slot, &mut Unlimited),
        }
    }

    /// The slot that the memory lies in. It is in use.
    pub fn unwrap_static_image(self) -> MemoryImageSlot<P>
        ensures value { result ≡ slot_of (state_of self) }
        ensures storage { (state_of self).linear.storage ≡ in_slot result }
        ensures holds { CanHold (state_of self).linear.size result }
    {
        let Memory::Local(memory) = self;
        memory.unwrap_static_image()
    }

    /// The slot that the memory lies in, and stays in. It is in use.
    pub fn slot(&self) -> &MemoryImageSlot<P>
        ensures value { result.now ≡ slot_of (state_of self.now) }
        ensures holds { CanHold (state_of self.now).linear.size (slot_of (state_of self.now)) }
        ensures fixed { (state_of self.now).may_move ≡ false }
    {
        let Memory::Local(memory) = self;
        memory.slot()
    }

    /// The calls made on the memory's region so far.
    pub fn page_calls(&self) -> PageCalls
        ensures { result ≡ (slot_of (state_of self.now)).region.calls }
    {
        let Memory::Local(memory) = self;
        memory.page_calls()
    }
}
