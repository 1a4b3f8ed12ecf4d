use pool_types::{ByteList, MemoryDecl, PlainList};

/// What happens on a shared memory. Times are in nanoseconds, and addresses in bytes.
#[derive(Debug, Drop)]
pub enum SharedEvent {
    /// The waiter begins a wait on the word of four bytes at `at`, where that is `expect`.
    Wait32 {
        waiter: u32,
        at: u64,
        expect: u32,
        now: u64,
        timeout: Option<u64>,
    },
    /// The same on a word of eight bytes.
    Wait64 {
        waiter: u32,
        at: u64,
        expect: u64,
        now: u64,
        timeout: Option<u64>,
    },
    /// The waiter asks how its wait stands.
    Wake {
        waiter: u32,
        now: u64,
    },
    /// The first `count` of those that wait at `at` are woken.
    Notify {
        at: u64,
        count: u32,
    },
    /// Reads `len` bytes from `at` on.
    Read {
        at: u64,
        len: usize,
    },
    /// Writes the bytes from `at` on.
    Write {
        at: u64,
        hex: ByteList,
    },
    /// Grows the memory by so many of its own pages.
    Grow {
        pages: u64,
    },
    /// Asks for the memory's size in bytes.
    Size,
}

/// A shared memory, and what happens on it, in order.
#[derive(Debug, Drop)]
pub struct SharedInput {
    /// The size of the pages of the memory's region, in bytes.
    pub page: usize,
    /// The memory is shared whether its type says so or not.
    pub memory: MemoryDecl,
    pub events: PlainList<SharedEvent>,
}
