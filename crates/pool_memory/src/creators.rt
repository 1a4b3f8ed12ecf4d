ghost use Rattle.std.specs.Prelude.{◌≡◌, ◌↔◌, ℕ, ◌<◌, true, Option, Some, Err, IfOk, IfSome, option_map};
ghost use Rattle.pool_pages.specs.MakerTold.{MakerTold};
ghost use Rattle.pool_types.specs.declared.module_types.MemoryType.{MemoryType};
ghost use Rattle.pool_types.specs.declared.module_types.MemoryTunables.{MemoryTunables};
ghost use Rattle.pool_types.specs.declared.unsupported.Unsupported.{Unsupported};
ghost use Rattle.pool_memory.specs.Creators.{Design, IsDesigned, IsAsMade, IsSameMaker, CreatorLeaves, in_regions, mapped_design, malloc_design};
ghost use Rattle.pool_memory.specs.LinearStates.{either_linear, either_untouched};
ghost use Rattle.pool_memory.specs.Malloc.{malloc_refusal};
ghost use Rattle.pool_memory.specs.Mapped.{mapped_refusal};

use crate::linear_memory::RuntimeLinearMemory;
use crate::malloc_memory::MallocMemory;
use crate::memory_error::MemoryError;
use crate::mmap_memory::MmapMemory;
use pool_images::MemoryImage;
use pool_limits::GrowError;
use pool_pages::{PageFault, PageMaker, Pages};
use pool_types::{MemoryTunables, MemoryType, Unsupported};
use std::alloc::Global;
use std::sync::Arc;

/// Makes linear memories. `M` makes the regions that they lie in.
pub trait RuntimeMemoryCreator<M: PageMaker> {
    type Linear: RuntimeLinearMemory<M>;

    // why a memory of so many bytes, and of a greatest size, isn't supported, where regions have pages of this size
    ghost refuses: { Self → ℕ → MemoryType → MemoryTunables → ℕ → Option ℕ → Option Unsupported };

    // what is told of the memory that is made then
    ghost designs: { Self → ℕ → MemoryType → MemoryTunables → ℕ → Option ℕ → Option Design };

    /// A memory of `minimum` bytes, all zeros. Answers `Unsupported`, where nothing is asked of the maker, `PageFault` or
    /// `Memory` alone.
    fn new_memory(
        &self,
        alloc: Global,
        maker: &mut M,
        ty: &MemoryType,
        tunables: &MemoryTunables,
        minimum: usize,
        maximum: Option<usize>,
    ) -> Result<Self::Linear, MemoryError>
        ensures made { IfOk result (λ memory. IsAsMade minimum (M.told maker.new).next (M.told maker.old) (Self.Linear.linear memory)) }
        ensures untouched { IfOk result (λ memory. Self.Linear.untouched memory ≡ true) }
        ensures designed { IfOk result (λ memory. IfSome (designs self.now (M.told maker.old).page ty.now tunables.now minimum maximum) (λ d. IsDesigned d (Self.Linear.linear memory))) }
        ensures unsupported { (u : _) → (result ≡ Err (MemoryError.Unsupported u)) ↔ (refuses self.now (M.told maker.old).page ty.now tunables.now minimum maximum ≡ Some u) }
        ensures borrows { M.borrows maker.new ≡ M.borrows maker.old }
        ensures maker { IsSameMaker (M.told maker.old) (M.told maker.new) }
        ensures counts { CreatorLeaves result (M.told maker.old) (M.told maker.new) };
}

/// Memories in lists of bytes where signal traps, guards, reservations and copy-on-write images are all off, and otherwise
/// in regions.
#[derive(Clone, Copy, Debug, PartialEq, Eq)]
pub struct DefaultMemoryCreator;

/// A memory that `DefaultMemoryCreator` makes.
#[derive(Drop)]
pub enum LinearMemory<P: Pages> {
    Mapped(MmapMemory<P>),
    Malloc(MallocMemory),
}

impl<M: PageMaker> RuntimeMemoryCreator<M> for DefaultMemoryCreator {
    type Linear = LinearMemory<M::Region>;

    ghost use Rattle.pool_types.specs.declared.module_types.MemoryType.{MemoryType};
    ghost use Rattle.pool_types.specs.declared.module_types.MemoryTunables.{MemoryTunables};
    ghost use Rattle.pool_types.specs.declared.unsupported.Unsupported.{Unsupported};
    ghost use Rattle.pool_memory.specs.Creators.{default_refusal, default_design};
    ghost use Rattle.std.specs.Prelude.{Some};

    ghost refuses = { λ _ page _ tunables minimum _. default_refusal page tunables minimum };

    ghost designs = { λ _ page _ tunables minimum maximum. Some (default_design page tunables minimum maximum) };

    fn new_memory(
        &self,
        alloc: Global,
        maker: &mut M,
        ty: &MemoryType,
        tunables: &MemoryTunables,
        minimum: usize,
        maximum: Option<usize>,
    ) -> Result<LinearMemory<M::Region>, MemoryError> {
        if in_regions(tunables) {
            new_mapped(alloc, maker, ty, tunables, minimum, maximum)
        } else {
            new_malloc(alloc, maker, ty, tunables, minimum)
        }
    }
}

fn new_mapped<M: PageMaker>(
    alloc: Global,
    maker: &mut M,
    ty: &MemoryType,
    tunables: &MemoryTunables,
    minimum: usize,
    maximum: Option<usize>,
) -> Result<LinearMemory<M::Region>, MemoryError>
    ensures made { IfOk result (λ memory. IsAsMade minimum (M.told maker.new).next (M.told maker.old) (either_linear memory)) }
    ensures untouched { IfOk result (λ memory. either_untouched memory ≡ true) }
    ensures designed { IfOk result (λ memory. IsDesigned (mapped_design (M.told maker.old).page tunables.now minimum maximum) (either_linear memory)) }
    ensures unsupported { (u : _) → (result ≡ Err (MemoryError.Unsupported u)) ↔ (mapped_refusal (M.told maker.old).page tunables.now minimum ≡ Some u) }
    ensures borrows { M.borrows maker.new ≡ M.borrows maker.old }
    ensures maker { IsSameMaker (M.told maker.old) (M.told maker.new) }
    ensures counts { CreatorLeaves result (M.told maker.old) (M.told maker.new) }
{
    match MmapMemory::new(alloc, maker, ty, tunables, minimum, maximum) {
        Ok(memory) => Ok(LinearMemory::Mapped(memory)),
        Err(error) => Err(error),
    }
}

fn new_malloc<M: PageMaker>(
    alloc: Global,
    _maker: &mut M,
    ty: &MemoryType,
    tunables: &MemoryTunables,
    minimum: usize,
) -> Result<LinearMemory<M::Region>, MemoryError>
    ensures made { IfOk result (λ memory. IsAsMade minimum (M.told _maker.new).next (M.told _maker.old) (either_linear memory)) }
    ensures untouched { IfOk result (λ memory. either_untouched memory ≡ true) }
    ensures designed { IfOk result (λ memory. IsDesigned (malloc_design tunables.now minimum) (either_linear memory)) }
    ensures unsupported { (u : _) → (result ≡ Err (MemoryError.Unsupported u)) ↔ (malloc_refusal tunables.now minimum ≡ Some u) }
    ensures borrows { M.borrows _maker.new ≡ M.borrows _maker.old }
    ensures maker { IsSameMaker (M.told _maker.old) (M.told _maker.new) }
    ensures counts { CreatorLeaves result (M.told _maker.old) (M.told _maker.new) }
{
    match MallocMemory::new(alloc, ty, tunables, minimum) {
        Ok(memory) => Ok(LinearMemory::Malloc(memory)),
        Err(error) => Err(error),
    }
}

// Whether memories lie in regions: traps come by signals, or the settings need pages.
fn in_regions(tunables: &MemoryTunables) -> bool
    ensures { result ≡ in_regions tunables.now }
{
    tunables.tunables().signals_based_traps
        || tunables.guard_size() > 0
        || tunables.reservation() > 0
        || tunables.tunables().memory_init_cow
}

impl<P: Pages, M: PageMaker<Region = P>> RuntimeLinearMemory<M> for LinearMemory<P> {
    ghost use Rattle.std.specs.Prelude.{Some};
    ghost use Rattle.pool_memory.specs.LinearStates.{either_linear, either_untouched};

    ghost linear = { either_linear };

    ghost untouched = { either_untouched };

    ghost maker_told = { λ m. Some (M.told m) };

    ghost maker_borrows = { M.borrows };

    fn byte_size(&self) -> usize {
        match self {
            LinearMemory::Mapped(memory) => RuntimeLinearMemory::<M>::byte_size(memory),
            LinearMemory::Malloc(memory) => RuntimeLinearMemory::<M>::byte_size(memory),
        }
    }

    fn byte_capacity(&self) -> usize {
        match self {
            LinearMemory::Mapped(memory) => RuntimeLinearMemory::<M>::byte_capacity(memory),
            LinearMemory::Malloc(memory) => RuntimeLinearMemory::<M>::byte_capacity(memory),
        }
    }

    fn can_move(&self) -> bool {
        true
    }

    fn has_image(&self) -> bool {
        match self {
            LinearMemory::Mapped(memory) => RuntimeLinearMemory::<M>::has_image(memory),
            LinearMemory::Malloc(memory) => RuntimeLinearMemory::<M>::has_image(memory),
        }
    }

    fn read(&self, at: usize, out: &mut [u8]) {
        match self {
            LinearMemory::Mapped(memory) => RuntimeLinearMemory::<M>::read(memory, at, out),
            LinearMemory::Malloc(memory) => RuntimeLinearMemory::<M>::read(memory, at, out),
        }
    }

    fn write(&mut self, at: usize, bytes: &[u8]) {
        match self {
            LinearMemory::Mapped(memory) => RuntimeLinearMemory::<M>::write(memory, at, bytes),
            LinearMemory::Malloc(memory) => RuntimeLinearMemory::<M>::write(memory, at, bytes),
        }
    }

    fn fill(&mut self, at: usize, len: usize, byte: u8) {
        match self {
            LinearMemory::Mapped(memory) => RuntimeLinearMemory::<M>::fill(memory, at, len, byte),
            LinearMemory::Malloc(memory) => RuntimeLinearMemory::<M>::fill(memory, at, len, byte),
        }
    }

    fn grow_to(&mut self, maker: &mut M, size: usize) -> Result<(), GrowError> {
        match self {
            LinearMemory::Mapped(memory) => memory.grow_to(maker, size),
            LinearMemory::Malloc(memory) => {
                RuntimeLinearMemory::<()>::grow_to(memory, &mut (), size)
            },
        }
    }

    fn set_byte_size(&mut self, len: usize) {
        match self {
            LinearMemory::Mapped(memory) => RuntimeLinearMemory::<M>::set_byte_size(memory, len),
            LinearMemory::Malloc(memory) => RuntimeLinearMemory::<M>::set_byte_size(memory, len),
        }
    }

    fn start_image(
        &mut self,
        ty: &MemoryType,
        tunables: &MemoryTunables,
        image: &Arc<MemoryImage>,
    ) -> Result<bool, PageFault> {
        match self {
            LinearMemory::Mapped(memory) => {
                RuntimeLinearMemory::<M>::start_image(memory, ty, tunables, image)
            }
            LinearMemory::Malloc(memory) => {
                RuntimeLinearMemory::<M>::start_image(memory, ty, tunables, image)
            }
        }
    }
}
