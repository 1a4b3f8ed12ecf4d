ghost use Rattle.std.specs.Prelude.{◌≡◌, Some, true, IfOk, IsSome, option_map};
ghost use Rattle.pool_types.specs.UnsupportedTexts.{used_text, unsupported_text, whole_text, has_breakdown};

use crate::breakdown::push_breakdown;
use crate::module_types::ModuleInfo;
use crate::numerals::Hexadecimal;
use crate::text::Text;
use std::alloc::{AllocError, Global};
use std::fmt;

/// What the allocator can't do for a module, a component or a memory: the first rule that it breaks, with the
/// numbers of its text. Sizes are in bytes, and those of tables in elements. Making one takes no memory.
#[derive(Clone, Copy, Debug, PartialEq, Eq)]
pub enum Unsupported {
    /// The offset of an image is no multiple of the page.
    ImageOffset {
        offset: u64,
    },
    /// The least size of a memory or a table exceeds its greatest.
    MinimumExceedsMaximum {
        min: u64,
        max: u64,
    },
    /// The allocator on demand makes no shared memories.
    SharedOnDemand,
    /// The module defines more memories than an instance may have.
    MemoriesPerModule {
        count: usize,
        limit: u32,
    },
    /// The minimum of a memory has no byte size below 2^64.
    MemoryUnrepresentable,
    /// The minimum of a memory doesn't fit a slot.
    MemoryExceedsSlot {
        min: u64,
        slot: usize,
    },
    /// The pool has no shared memories.
    MemoryShared,
    /// The module defines more tables than an instance may have.
    TablesPerModule {
        count: usize,
        limit: u32,
    },
    /// The module defines more tables than the pool has.
    TotalTables {
        count: usize,
        limit: u32,
    },
    /// The minimum of a table exceeds what a slot holds.
    TableExceedsSlot {
        index: u32,
        min: u64,
        limit: usize,
    },
    /// The state of an instance exceeds its room. Its text ends with a list of the module's parts.
    InstanceSize {
        size: u64,
        limit: usize,
    },
    /// The minimum of a memory that is to be allocated, in its own pages, exceeds what a memory can have.
    MemoryMinimum {
        pages: u64,
    },
    /// The minimum of a table that is to be allocated exceeds what a slot holds.
    TableSize {
        min: u64,
        limit: usize,
    },
    /// A size, with what is reserved and guarded beside it, leaves the address space.
    AddressSpace,
    /// The component contains more core instances than one may have.
    ComponentInstances {
        count: u64,
        limit: u32,
    },
    /// The same of memories.
    ComponentMemories {
        count: u64,
        limit: u32,
    },
    /// The same of tables.
    ComponentTables {
        count: u64,
        limit: u32,
    },
    /// The state of a component exceeds its room. `size` is the sum of the two, or the greatest `u64` where that
    /// is less.
    ComponentSize {
        size: u64,
        limit: usize,
        own_bytes: u64,
        core_bytes: u64,
    },
    /// The length of an image is no multiple of the page. It has no text.
    ImageLength {
        len: usize,
    },
    /// A memory without pages is asked for with settings that need pages. It has no text.
    MallocTunables,
    /// The size that a memory begins with exceeds its room. It has no text.
    InitialSize,
    /// A shared memory is made of a type that isn't shared, or where shared memories are off. It has no text.
    NotShared,
}

/// What the state of a component is made of, in bytes.
#[derive(Clone, Copy)]
struct ComponentBytes {
    own: u64,
    core: u64,
}

impl fmt::Display for ComponentBytes {
    ghost output = { λ used. Some (used_text used.own used.core) };

    fn fmt<W: fmt::Write>(&self, f: &mut fmt::Formatter<W>) -> fmt::Result {
        let own = self.own;
        let core = self.core;
        write!(
            f,
            "`VMComponentContext` used {own} bytes, `core module instances` used {core} bytes."
        )
    }
}

/// The text, of `InstanceSize` only as far as the list of parts.
impl fmt::Display for Unsupported {
    ghost output = { λ u. Some (unsupported_text u) };

    fn fmt<W: fmt::Write>(&self, f: &mut fmt::Formatter<W>) -> fmt::Result {
        match self {
            Unsupported::ImageOffset { offset } => {
                write!(f, "image offset {offset} is not a multiple of the page")
            }
            Unsupported::MinimumExceedsMaximum { min, max } => {
                write!(f, "minimum {min} exceeds maximum {max}")
            }
            Unsupported::SharedOnDemand => write!(f, "shared memories are made by SharedMemory"),
            Unsupported::MemoriesPerModule { count, limit } => write!(
                f,
                "defined memories count of {count} exceeds the per-instance limit of {limit}"
            ),
            Unsupported::MemoryUnrepresentable => write!(
                f,
                "memory has a minimum byte size that cannot be represented in a u64"
            ),
            Unsupported::MemoryExceedsSlot { min, slot } => {
                let slot = Hexadecimal(*slot as u64);
                write!(
                    f,
                    "memory has a minimum byte size of {min} which exceeds the limit of {slot} bytes"
                )
            }
            Unsupported::MemoryShared => write!(
                f,
                "memory is shared which is not supported in the pooling allocator"
            ),
            Unsupported::TablesPerModule { count, limit } => write!(
                f,
                "defined tables count of {count} exceeds the per-instance limit of {limit}"
            ),
            Unsupported::TotalTables { count, limit } => write!(
                f,
                "defined tables count of {count} exceeds the total tables limit of {limit}"
            ),
            Unsupported::TableExceedsSlot { index, min, limit } => write!(
                f,
                "table index {index} has a minimum element size of {min} which exceeds the limit of {limit}"
            ),
            Unsupported::InstanceSize { size, limit } => write!(
                f,
                "instance allocation for this module requires {size} bytes which exceeds the configured maximum of {limit} bytes; breakdown of allocation requirement:\n\n"
            ),
            Unsupported::MemoryMinimum { pages } => write!(
                f,
                "memory minimum size of {pages} pages exceeds memory limits"
            ),
            Unsupported::TableSize { min, limit } => write!(
                f,
                "initial table size of {min} exceeds the pooling allocator's configured maximum table size of {limit} elements"
            ),
            Unsupported::AddressSpace => write!(f, "size exceeds addressable memory"),
            Unsupported::ComponentInstances { count, limit } => write!(
                f,
                "The component transitively contains {count} core module instances, which exceeds the configured maximum of {limit} in the pooling allocator"
            ),
            Unsupported::ComponentMemories { count, limit } => write!(
                f,
                "The component transitively contains {count} Wasm linear memories, which exceeds the configured maximum of {limit} in the pooling allocator"
            ),
            Unsupported::ComponentTables { count, limit } => write!(
                f,
                "The component transitively contains {count} tables, which exceeds the configured maximum of {limit} in the pooling allocator"
            ),
            Unsupported::ComponentSize {
                size,
                limit,
                own_bytes,
                core_bytes,
            } => {
                let used = ComponentBytes {
                    own: *own_bytes,
                    core: *core_bytes,
                };
                write!(
                    f,
                    "instance allocation for this component requires {size} bytes of `VMComponentContext` and aggregated core instance runtime space which exceeds the configured maximum of {limit} bytes. {used}"
                )
            }
            Unsupported::ImageLength { len: _ }
            | Unsupported::MallocTunables
            | Unsupported::InitialSize
            | Unsupported::NotShared => Ok(()),
        }
    }
}

impl Unsupported {
    /// The text; empty where it has none. That of an instance which is too large lists the parts of the module, which has
    /// to be given then; otherwise it isn't looked at.
    pub fn text(&self, alloc: Global, info: Option<&ModuleInfo>) -> Result<Text, AllocError>
        requires given { has_breakdown self.now ≡ true → IsSome info }
        ensures { IfOk result (λ text. text ≡ whole_text self.now (option_map (λ i. i.now) info.entry)) }
    {
        let mut text = self.to_string(alloc)?;
        if let (Unsupported::InstanceSize { size, limit: _ }, Some(info)) = (*self, info) {
            push_breakdown(&mut text, size, info)?;
        }
        Ok(Text::from_string(text))
    }
}
