ghost use Rattle.std.specs.Prelude.{◌≡◌};

/// The slot that a memory is in.
#[derive(Clone, Copy, Debug, PartialEq, Eq, PartialOrd, Ord, Hash)]
pub struct MemoryAllocationIndex(pub u32);

/// The slot that a table is in.
#[derive(Clone, Copy, Debug, PartialEq, Eq, PartialOrd, Ord, Hash)]
pub struct TableAllocationIndex(pub u32);

/// The slot that a GC heap is in.
#[derive(Clone, Copy, Debug, PartialEq, Eq, PartialOrd, Ord, Hash)]
pub struct GcHeapAllocationIndex(pub u32);

impl MemoryAllocationIndex {
    pub fn index(self) -> usize
        ensures { result ≡ self.0 }
    {
        self.0 as usize
    }
}

impl TableAllocationIndex {
    pub fn index(self) -> usize
        ensures { result ≡ self.0 }
    {
        self.0 as usize
    }
}

impl GcHeapAllocationIndex {
    pub fn index(self) -> usize
        ensures { result ≡ self.0 }
    {
        self.0 as usize
    }
}

impl Default for MemoryAllocationIndex {
    ghost use Rattle.std.specs.Prelude.{◌≡◌};

    ghost is_default = { λ i. i.0 ≡ 4294967295 };

    /// The index of a memory that is in no slot.
    fn default() -> Self {
        MemoryAllocationIndex(u32::MAX)
    }
}

impl Default for TableAllocationIndex {
    ghost use Rattle.std.specs.Prelude.{◌≡◌};

    ghost is_default = { λ i. i.0 ≡ 4294967295 };

    /// The index of a table that is in no slot.
    fn default() -> Self {
        TableAllocationIndex(u32::MAX)
    }
}

impl Default for GcHeapAllocationIndex {
    ghost use Rattle.std.specs.Prelude.{◌≡◌};

    ghost is_default = { λ i. i.0 ≡ 4294967295 };

    /// The index of a heap that is in no slot.
    fn default() -> Self {
        GcHeapAllocationIndex(u32::MAX)
    }
}
