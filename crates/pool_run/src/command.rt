use pool_table::VMContObj;
use pool_types::ByteList;

/// What a command sets an element of a table to: null, a function or a GC reference by its number, or a continuation.
#[derive(Clone, Copy, Debug, PartialEq, Eq)]
pub enum TableValue {
    Null,
    Number(u64),
    Continuation(VMContObj),
}

/// A command of a party. `of` is the number of an earlier command of that party which asked for a grant, and
/// `memory` or `table` is a place in that grant. A stack is memory 0 of its grant, from its lowest usable byte on, and can't
/// grow. A heap's memory is memory 0 of its grant.
#[derive(Debug, Drop)]
pub enum Command {
    /// Asks for an instance of the module with this number.
    Instantiate {
        module: usize,
    },
    /// Asks for a component, whose instances have so many things together.
    Component {
        core_instances: u64,
        memories: u64,
        tables: u64,
        /// How many bytes its core instances take.
        core_bytes: u64,
        /// How many it takes beside them.
        own_bytes: u64,
    },
    /// Asks for a stack.
    Stack,
    /// Asks for a heap for a collector. Its memory has `min` pages of 64 KiB, and at most `max`, and addresses of 32 bits.
    Heap {
        min: u64,
        max: Option<u64>,
    },
    /// Reads `len` bytes from `at` on.
    Read {
        of: usize,
        memory: usize,
        at: u64,
        len: usize,
    },
    /// Writes the bytes from `at` on.
    Write {
        of: usize,
        memory: usize,
        at: u64,
        hex: ByteList,
    },
    /// Sets `len` bytes from `at` on to `byte`.
    Fill {
        of: usize,
        memory: usize,
        at: u64,
        len: u64,
        byte: u8,
    },
    /// Grows the memory by so many of its own pages.
    Grow {
        of: usize,
        memory: usize,
        pages: u64,
    },
    /// Asks for the memory's size in bytes.
    Size {
        of: usize,
        memory: usize,
    },
    /// Asks for the element at `at`.
    Get {
        of: usize,
        table: usize,
        at: u64,
    },
    /// Sets the element at `at`.
    Set {
        of: usize,
        table: usize,
        at: u64,
        value: TableValue,
    },
    /// Sets `len` elements from `at` on.
    TableFill {
        of: usize,
        table: usize,
        at: u64,
        value: TableValue,
        len: u64,
    },
    /// Grows the table by so many elements.
    TableGrow {
        of: usize,
        table: usize,
        by: u64,
    },
    /// Asks for the table's size in elements.
    TableSize {
        of: usize,
        table: usize,
    },
    /// Gives the grant back.
    Drop {
        of: usize,
    },
    /// Has the pool forget the module with this number: no free slot keeps a memory of it.
    Purge {
        module: usize,
    },
    /// Gives what free memories keep resident back to the system.
    Release,
}
