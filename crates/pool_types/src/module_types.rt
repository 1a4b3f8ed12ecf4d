ghost use Rattle.std.specs.Prelude.{◌≡◌, ◌+◌, ◌*◌, ◌^◌, ◌<◌, ◌≤◌, ◌&&◌, nat_le, nat_lt, Some, None, OnOk, IfErr};
ghost use Rattle.std.specs.Option.{SomeIff};
ghost use Rattle.pool_types.specs.MemoryTypes.{minimum_byte_size, maximum_byte_size, index_bound, allow_growth_to, memory_may_move, refused_limits, page_size, can_use_virtual_memory, reservation, guard_size, reservation_for_growth, may_move};

use crate::byte_count::PageSize;
use crate::plain_list::{ByteList, PlainList};
use crate::table_type::TableType;
use crate::text::Text;
use crate::unsupported::Unsupported;

/// The name of a compiled module: its number in the input.
#[derive(Clone, Copy, Debug, PartialEq, Eq, PartialOrd, Ord, Hash)]
pub struct CompiledModuleId(pub u64);

/// The number of a memory among those that a module defines.
#[derive(Clone, Copy, Debug, PartialEq, Eq, PartialOrd, Ord, Hash)]
pub struct DefinedMemoryIndex(pub u32);

/// The number of a table among those that a module defines.
#[derive(Clone, Copy, Debug, PartialEq, Eq, PartialOrd, Ord, Hash)]
pub struct DefinedTableIndex(pub u32);

/// The type of the addresses of a memory or table.
#[derive(Clone, Copy, Debug, PartialEq, Eq)]
pub enum IndexType {
    I32,
    I64,
}

/// The least and the greatest size: of a memory in its pages, of a table in elements.
#[derive(Clone, Copy, Debug, PartialEq, Eq)]
pub struct Limits {
    pub min: u64,
    pub max: Option<u64>,
}

impl Limits {
    /// Refuses exactly a minimum above the maximum.
    pub fn check(&self) -> Result<(), Unsupported>
        ensures ok { OnOk result (refused_limits self.now ≡ None) }
        ensures err { IfErr result (λ e. refused_limits self.now ≡ Some e) }
    {
        let min = self.min;
        match self.max {
            Some(max) if max < min => Err(Unsupported::MinimumExceedsMaximum { min, max }),
            Some(_) | None => Ok(()),
        }
    }
}

// The size that addresses of a type can reach, of a memory with pages of this size.
fn index_bound(idx_type: IndexType, page: u64) -> u64
    requires { 0 < page }
    ensures { result ≡ index_bound idx_type page }
{
    match idx_type {
        IndexType::I32 => 1 << 32,
        IndexType::I64 => u64::MAX - (page - 1),
    }
}

/// The type of a linear memory.
#[derive(Clone, Copy, Debug, PartialEq, Eq)]
pub struct MemoryType {
    pub idx_type: IndexType,
    pub limits: Limits,
    pub shared: bool,
    /// The size of this memory's pages is 2 to this power: 0 or 16.
    pub page_size_log2: u8,
}

impl MemoryType {
    /// The size of this memory's own pages, in bytes. It is not the host's page.
    pub fn page_size(&self) -> u64
        requires { self.now.page_size_log2 < 64 }
        ensures { result ≡ page_size self.now }
    {
        1u64 << self.page_size_log2
    }

    /// The minimum in bytes, where a `u64` can hold it.
    pub fn minimum_byte_size(&self) -> Option<u64>
        requires { self.now.page_size_log2 < 64 }
        ensures { SomeIff result (minimum_byte_size self.now < 2 ^ 64) (minimum_byte_size self.now) }
    {
        self.limits.min.checked_mul(self.page_size())
    }

    /// The maximum in bytes, where a `u64` can hold it. Without a maximum it is the greater of the minimum and what
    /// the memory's addresses can reach, where a `u64` can hold the minimum.
    pub fn maximum_byte_size(&self) -> Option<u64>
        requires { self.now.page_size_log2 < 64 }
        ensures { SomeIff result (maximum_byte_size self.now < 2 ^ 64) (maximum_byte_size self.now) }
    {
        let page = self.page_size();
        match self.limits.max {
            Some(max) => max.checked_mul(page),
            None => match self.minimum_byte_size() {
                Some(minimum) => Some(minimum.max(index_bound(self.idx_type, page))),
                None => None,
            },
        }
    }

    /// Whether the memory may grow to this many bytes, whatever its maximum.
    pub fn allow_growth_to(&self, size: usize) -> bool
        ensures { result ≡ allow_growth_to self.now size }
    {
        size <= 1 << 32 || self.idx_type == IndexType::I64
    }

    /// Whether the memory may be moved as it grows.
    pub fn memory_may_move(&self, tunables: &MemoryTunables) -> bool
        requires { self.now.page_size_log2 < 64 }
        ensures { result ≡ memory_may_move self.now tunables.now }
    {
        !self.shared
            && tunables.may_move()
            && self.limits.max != Some(self.limits.min)
            && self.may_exceed(tunables.reservation())
    }

    // Whether the maximum in bytes exceeds a size.
    fn may_exceed(&self, size: u64) -> bool
        requires { self.now.page_size_log2 < 64 }
        ensures { result ≡ nat_lt size (maximum_byte_size self.now) }
    {
        match self.maximum_byte_size() {
            Some(maximum) => maximum > size,
            None => true,
        }
    }

    /// Refuses exactly a minimum above the maximum.
    pub fn check(&self) -> Result<(), Unsupported>
        ensures ok { OnOk result (refused_limits self.now.limits ≡ None) }
        ensures err { IfErr result (λ e. refused_limits self.now.limits ≡ Some e) }
    {
        self.limits.check()
    }

    /// Whether bounds of this memory may be kept by hidden pages: traps come by signals, and the
    /// memory's pages are whole pages of the host.
    pub fn can_use_virtual_memory(&self, tunables: &Tunables, host_page: PageSize) -> bool
        requires { self.now.page_size_log2 < 64 }
        ensures { result ≡ can_use_virtual_memory self.now tunables.now host_page }
    {
        tunables.signals_based_traps && self.page_size() >= host_page.get() as u64
    }
}

/// The bytes that a memory begins with, at their offset.
#[derive(Debug, Drop)]
pub struct ImageDecl {
    /// In bytes.
    pub offset: u64,
    pub bytes: ByteList,
}

/// A memory that a module defines.
#[derive(Debug, Drop)]
pub struct MemoryDecl {
    pub ty: MemoryType,
    pub image: Option<ImageDecl>,
}

/// A part of the state of an instance, such as its imports.
#[derive(Debug, Drop)]
pub struct Part {
    pub name: Text,
    pub bytes: u64,
}

/// What the allocator has to know of a compiled module. An instance takes `state_bytes` and the bytes of all parts.
#[derive(Debug, Drop)]
pub struct ModuleInfo {
    pub memories: PlainList<MemoryDecl>,
    pub tables: PlainList<TableType>,
    /// What the runtime itself keeps of an instance, in bytes.
    pub state_bytes: u64,
    pub parts: PlainList<Part>,
}

/// What the allocator has to know of a compiled component: how many things all its instances have together, and how
/// many bytes they take.
#[derive(Clone, Copy, Debug, PartialEq, Eq)]
pub struct ComponentInfo {
    pub core_instances: u64,
    pub memories: u64,
    pub tables: u64,
    /// What its core instances take.
    pub core_bytes: u64,
    /// What the component takes beside them.
    pub own_bytes: u64,
}

/// What a linear memory is for.
#[derive(Clone, Copy, Debug, PartialEq, Eq)]
pub enum MemoryKind {
    LinearMemory,
    GcHeap,
}

/// The settings of the engine that memories depend on. Sizes are in bytes.
#[derive(Clone, Copy, Debug, PartialEq, Eq)]
pub struct Tunables {
    pub memory_reservation: u64,
    pub memory_guard_size: u64,
    pub memory_reservation_for_growth: u64,
    pub memory_may_move: bool,
    pub guard_before_linear_memory: bool,
    pub signals_based_traps: bool,
    pub memory_init_cow: bool,
    pub table_lazy_init: bool,
    pub collector: bool,
    pub gc_heap_reservation: u64,
    pub gc_heap_guard_size: u64,
    pub gc_heap_reservation_for_growth: u64,
    pub gc_heap_may_move: bool,
}

impl Default for Tunables {
    ghost use Rattle.pool_types.specs.Config.{IsDefaultTunables};

    ghost is_default = { IsDefaultTunables };

    fn default() -> Self {
        Tunables {
            memory_reservation: 1 << 20,
            memory_guard_size: 1 << 16,
            memory_reservation_for_growth: 0,
            memory_may_move: true,
            guard_before_linear_memory: false,
            signals_based_traps: true,
            memory_init_cow: true,
            table_lazy_init: true,
            collector: false,
            gc_heap_reservation: 1 << 20,
            gc_heap_guard_size: 1 << 16,
            gc_heap_reservation_for_growth: 0,
            gc_heap_may_move: true,
        }
    }
}

/// The settings for memories of one kind.
#[derive(Clone, Copy, Debug, PartialEq, Eq)]
pub struct MemoryTunables {
    pub tunables: Tunables,
    pub kind: MemoryKind,
}

impl MemoryTunables {
    pub fn new(tunables: &Tunables, kind: MemoryKind) -> Self
        ensures { result ≡ record { tunables = tunables.now; kind = kind } }
    {
        MemoryTunables {
            tunables: *tunables,
            kind,
        }
    }

    pub fn tunables(&self) -> &Tunables
        ensures { result.now ≡ self.now.tunables }
    {
        &self.tunables
    }

    /// In bytes.
    pub fn reservation(&self) -> u64
        ensures { result ≡ reservation self.now }
    {
        match self.kind {
            MemoryKind::LinearMemory => self.tunables.memory_reservation,
            MemoryKind::GcHeap => self.tunables.gc_heap_reservation,
        }
    }

    /// In bytes.
    pub fn guard_size(&self) -> u64
        ensures { result ≡ guard_size self.now }
    {
        match self.kind {
            MemoryKind::LinearMemory => self.tunables.memory_guard_size,
            MemoryKind::GcHeap => self.tunables.gc_heap_guard_size,
        }
    }

    /// In bytes.
    pub fn reservation_for_growth(&self) -> u64
        ensures { result ≡ reservation_for_growth self.now }
    {
        match self.kind {
            MemoryKind::LinearMemory => self.tunables.memory_reservation_for_growth,
            MemoryKind::GcHeap => self.tunables.gc_heap_reservation_for_growth,
        }
    }

    pub fn may_move(&self) -> bool
        ensures { result ≡ may_move self.now }
    {
        match self.kind {
            MemoryKind::LinearMemory => self.tunables.memory_may_move,
            MemoryKind::GcHeap => self.tunables.gc_heap_may_move,
        }
    }
}
