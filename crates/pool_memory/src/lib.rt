//! Linear memories: made, read, written and grown.
//!
//! Read `Memory` first. A memory of the pool is static: `Memory::new_static` makes it in a slot, where it stays, and
//! takes no memory. A memory on demand is dynamic: `Memory::new_dynamic` has a `RuntimeMemoryCreator` make it, in a
//! region (`MmapMemory`) or in a list of bytes (`MallocMemory`), and it may move when it grows. `RuntimeLinearMemory`
//! is what they share, and `LocalMemory` is one of them with its type. Why a memory isn't made is a `MemoryError`.
//!
//! From Wasmtime: `vm/memory.rs` and `vm/memory/`, but for shared memories. It stands on `pool_types`, `pool_pages`,
//! `pool_limits` and `pool_images`. It doesn't know where slots come from.
//!
//! ```rust
//! let grown = memory.grow(&mut maker, 1, Some(&mut limiter))?;
//! ```
#![tactic(auto)]

// A memory, and the calls on it
mod atomics;
mod growing;
mod linear_memory;
mod local_memory;
mod memory;
mod memory_error;

// Making memories
mod creators;
mod dynamic;
mod making;

// Static memories, in a slot
mod static_memory;

// Dynamic memories, in a region or a list
mod malloc_memory;
mod mmap_memory;
mod moving;
mod region_layout;

pub use atomics::validate_atomic_addr;
pub use creators::{DefaultMemoryCreator, LinearMemory, RuntimeMemoryCreator};
pub use linear_memory::RuntimeLinearMemory;
pub use local_memory::LocalMemory;
pub use making::granted_limits;
pub use malloc_memory::MallocMemory;
pub use memory::Memory;
pub use memory_error::MemoryError;
pub use mmap_memory::MmapMemory;
pub use static_memory::StaticMemory;
