ghost use Rattle.std.specs.Prelude.{◌≡◌, ◌^◌, ◌<◌};

use pool_types::{CompiledModuleId, DefinedMemoryIndex};

/// The number of a slot, from 0 up.
#[derive(Clone, Copy, Debug, PartialEq, Eq, PartialOrd, Ord, Hash)]
pub struct SlotId(pub u32);

impl SlotId {
    pub fn index(self) -> usize
        ensures { result ≡ self.0 }
    {
        self.0 as usize
    }
}

/// The number of a shard among those of an index allocator.
#[derive(Clone, Copy, Debug, PartialEq, Eq, PartialOrd, Ord, Hash)]
pub struct ShardId(pub u32);

impl ShardId {
    pub fn from_index(index: usize) -> ShardId
        requires { index < 2 ^ 32 }
        ensures { result ≡ record { 0 = index } }
    {
        ShardId(index as u32)
    }

    pub fn index(self) -> usize
        ensures { result ≡ self.0 }
    {
        self.0 as usize
    }
}

/// A memory of a compiled module: what a slot may be affine to. Wasmtime's `index_allocator.rs` keeps it with a warm
/// slot, since the slot may still hold that memory's image.
#[derive(Clone, Copy, Debug, PartialEq, Eq, PartialOrd, Ord, Hash)]
pub struct MemoryInModule(pub CompiledModuleId, pub DefinedMemoryIndex);
