ghost use Rattle.std.specs.Prelude.{◌≡◌, ◌↔◌, ◌+◌, ◌≤◌, ◌^◌, ◌<◌, length, replicate, slice_range, Some, None, Err, IfOk, IfErr, IfSome, OnOk, OnErr, true, not};
ghost use Rattle.pool_types.specs.MemoryTypes.{page_size, minimum_byte_size};
ghost use Rattle.pool_memory.specs.Linear.{IsLinear, is_mapped};
ghost use Rattle.pool_memory.specs.Making.{Granted};
ghost use Rattle.pool_memory.specs.Memories.{bytes_of, memory_written, access_answer};
ghost use Rattle.pool_shared.specs.Shared.{Grows, kind_refusal, type_refusal, shared_refusal, IsUnsupported, MakingBy, layout_for, first_shared, wrapped};

use crate::spot_state::SpotState;
use pool_limits::{GrowFault, Trap, Unlimited};
use pool_memory::{LocalMemory, MemoryError, MmapMemory, RuntimeLinearMemory, granted_limits};
use pool_pages::{PageMaker, Pages};
use pool_types::{MemoryTunables, MemoryType, Unsupported};
use std::alloc::Global;
use std::marker::Model;

/// A shared memory with its parking spot, as plain data: what stands behind the lock of a shared memory. Each call
/// validates, compares and acts at once. `M` would make the regions of a memory that moves, which this one never does.
#[derive(Drop)]
pub struct SharedState<M, L: RuntimeLinearMemory<M>> {
    pub(crate) memory: LocalMemory<M, L>,
    pub(crate) spot: SpotState,
}

impl<M, L: RuntimeLinearMemory<M>> Model for SharedState<M, L> {
    ghost use Rattle.pool_shared.specs.Shared.{Shared, IsShared};

    ghost Value = { Shared };

    ghost view = { λ s. record { memory = s.memory; spot = s.spot } };

    ghost invariant = { λ s. IsShared (record { memory = s.memory; spot = s.spot }) };
}

// Refuses where shared memories aren't enabled, and a type that isn't that of one.
fn check_kind(enabled: bool, ty: &MemoryType) -> Result<(), Unsupported>
    ensures ok { OnOk result (kind_refusal enabled ty.now ≡ None) }
    ensures err { IfErr result (λ u. kind_refusal enabled ty.now ≡ Some u) }
{
    if enabled && ty.shared {
        Ok(())
    } else {
        Err(Unsupported::NotShared)
    }
}

// With how many bytes a shared memory of this type begins, and how many it may have.
fn check_type(enabled: bool, ty: &MemoryType) -> Result<(usize, Option<usize>), MemoryError>
    requires { ty.now.page_size_log2 < 64 }
    ensures ok { IfOk result (λ limits. (type_refusal enabled ty.now ≡ None) × Granted ty.now limits) }
    ensures shared { OnOk result (ty.now.shared ≡ true) }
    ensures err { IfErr result (IsUnsupported (type_refusal enabled ty.now)) }
{
    if let Err(refusal) = check_kind(enabled, ty) {
        return Err(MemoryError::Unsupported(refusal));
    }
    if let Err(refusal) = ty.check() {
        return Err(MemoryError::Unsupported(refusal));
    }
    granted_limits(ty)
}

impl<P: Pages, M: PageMaker<Region = P>> SharedState<M, MmapMemory<P>> {
    /// A memory of this type, all zeros, in a region that the maker makes, with nobody waiting. `enabled` says whether
    /// there are to be shared memories. Answers `Unsupported`, where nothing is asked of the maker, `PageFault` or `Memory`
    /// alone.
    pub fn new(
        alloc: Global,
        maker: &mut M,
        ty: &MemoryType,
        tunables: &MemoryTunables,
        enabled: bool,
    ) -> Result<SharedState<M, MmapMemory<P>>, MemoryError>
        requires { ty.now.page_size_log2 < 64 }
        ensures ok { IfOk result (λ s. s ≡ first_shared (M.told maker.old) ty.now tunables.now) }
        ensures zeros { IfOk result (λ s. IfSome (bytes_of s.memory) (λ b. b ≡ replicate (minimum_byte_size ty.now) 0)) }
        ensures unsupported { (u : _) → (result ≡ Err (MemoryError.Unsupported u)) ↔ (shared_refusal enabled (M.told maker.old).page ty.now tunables.now ≡ Some u) }
        ensures borrows { M.borrows maker.new ≡ M.borrows maker.old }
        ensures maker { MakingBy (type_refusal enabled ty.now) (layout_for (M.told maker.old).page ty.now tunables.now) (minimum_byte_size ty.now) result (M.told maker.old) (M.told maker.new) }
    {
        let (minimum, maximum) = match check_type(enabled, ty) {
            Ok(limits) => limits,
            Err(refusal) => return Err(refusal),
        };
        match MmapMemory::new(alloc, maker, ty, tunables, minimum, maximum) {
            Ok(memory) => Ok(SharedState {
                memory: LocalMemory::with_memory(ty, tunables, memory),
                spot: SpotState::new(alloc),
            }),
            Err(error) => Err(error),
        }
    }
}

impl<M, L: RuntimeLinearMemory<M>> SharedState<M, L> {
    /// Shares a memory, whose type this is, with nobody waiting. `enabled` says whether there are to be shared memories.
    /// A memory that is refused is dropped. Takes no memory.
    pub fn wrap(
        alloc: Global,
        ty: &MemoryType,
        memory: LocalMemory<M, L>,
        enabled: bool,
    ) -> Result<SharedState<M, L>, Unsupported>
        requires { memory.ty ≡ ty.now }
        ensures { result ≡ wrapped (kind_refusal enabled ty.now) memory }
    {
        check_kind(enabled, ty)?;
        let _ty = memory.ty();
        Ok(SharedState {
            memory,
            spot: SpotState::new(alloc),
        })
    }

    pub fn ty(&self) -> &MemoryType
        ensures value { result.now ≡ self.now.memory.ty }
        ensures shared { self.now.memory.ty.shared ≡ true }
        ensures room { self.now.memory.linear.size + page_size self.now.memory.ty ≤ 2 ^ 64 }
    {
        self.memory.ty()
    }

    /// In bytes.
    pub fn byte_size(&self) -> usize
        ensures value { result ≡ self.now.memory.linear.size }
        ensures always { IsLinear self.now.memory.linear }
    {
        self.memory.byte_size()
    }

    /// Whether the bytes that the memory begins with have yet to be written into it.
    pub fn needs_init(&self) -> bool
        ensures { result ≡ not (is_mapped self.now.memory.linear.storage) }
    {
        self.memory.needs_init()
    }

    /// Reads the bytes from `at` on into `out`, which stays as it is where they pass the size.
    pub fn read(&self, at: u64, out: &mut [u8]) -> Result<(), Trap>
        ensures answer { result ≡ access_answer (at + length out.old) self.now.memory.linear.size }
        ensures bytes { OnOk result (IfSome (bytes_of self.now.memory) (λ bytes. out.new ≡ slice_range bytes at (at + length out.old))) }
        ensures same { OnErr result (out.new ≡ out.old) }
    {
        self.memory.read(at, out)
    }

    /// Writes the bytes from `at` on, or nothing where they pass the size.
    pub fn write(&mut self, at: u64, bytes: &[u8]) -> Result<(), Trap>
        ensures answer { result ≡ access_answer (at + length bytes.now) self.old.memory.linear.size }
        ensures written { OnOk result (self.new ≡ record self.old { memory = memory_written at bytes.now self.old.memory }) }
        ensures same { OnErr result (self.new ≡ self.old) }
    {
        self.memory.write(at, bytes)
    }

    /// Grows the memory by so many of its own pages. Answers the old size in bytes and the new one, or None, where the
    /// memory's size and bytes are as before. Waits stay as they are. Never an error, since no limiter is asked; the
    /// maker isn't called.
    pub fn grow(&mut self, maker: &mut M, delta: u64) -> Result<Option<(usize, usize)>, GrowFault>
        ensures growth { Grows delta self.old.memory self.new.memory result }
        ensures same { self.new ≡ record self.old { memory = record self.old.memory { linear = self.new.memory.linear } } }
        ensures maker { L.maker_told maker.new ≡ L.maker_told maker.old }
        ensures borrows { L.maker_borrows maker.new ≡ L.maker_borrows maker.old }
    {
        let _ty = self.memory.ty();
        self.memory.grow(maker, delta, None::<&mut Unlimited>)
    }
}
