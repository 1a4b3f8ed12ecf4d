ghost use Rattle.std.specs.Prelude.{◌≡◌};
ghost use Rattle.pool_run.specs.Acts.{act_of, heap_type};
ghost use Rattle.pool_run.specs.AtOnce.{given_act};

use crate::command::{Command, TableValue};
use pool_types::{ComponentInfo, IndexType, Limits, MemoryType};

/// What a command does with a memory of a live grant.
#[derive(Drop)]
pub enum MemoryOp<'a> {
    Read { at: u64, len: usize },
    Write { at: u64, bytes: &'a [u8] },
    Fill { at: u64, len: u64, byte: u8 },
    Grow { pages: u64 },
    Size,
}

/// What a command does with a table of a live grant.
#[derive(Drop)]
pub enum TableOp {
    Get {
        at: u64,
    },
    Set {
        at: u64,
        value: TableValue,
        len: u64,
    },
    Grow {
        by: u64,
    },
    Size,
}

/// What a command asks for.
#[derive(Clone, Copy)]
pub enum Wanted {
    /// An instance of the module with this number.
    Instance { module: usize },
    Component(ComponentInfo),
    Stack,
    /// A heap whose memory has so many pages of 64 KiB.
    Heap(Limits),
}

/// What a command does: commands that do alike have one case.
#[derive(Drop)]
pub enum Act<'a> {
    /// Requests a grant.
    Request(Wanted),
    /// Does something with memory `memory` of the grant of command `of`.
    OnMemory {
        of: usize,
        memory: usize,
        op: MemoryOp<'a>,
    },
    /// Does something with table `table` of the grant of command `of`.
    OnTable {
        of: usize,
        table: usize,
        op: TableOp,
    },
    /// Gives the grant of command `of` back.
    Drop {
        of: usize,
    },
    /// Purges the module with this number.
    Purge {
        module: usize,
    },
    /// Releases what free memories keep resident.
    Release,
}

/// The type of a heap's memory with these limits, in pages of 64 KiB.
pub fn heap_type(limits: Limits) -> MemoryType
    ensures { result ≡ heap_type limits }
{
    MemoryType {
        idx_type: IndexType::I32,
        limits,
        shared: false,
        page_size_log2: 16,
    }
}

/// What the command does.
pub fn act_of(command: &Command) -> Act<'_>
    ensures { given_act result ≡ act_of command.now }
{
    match command {
        Command::Instantiate { module } => Act::Request(Wanted::Instance { module: *module }),
        Command::Component {
            core_instances,
            memories,
            tables,
            core_bytes,
            own_bytes,
        } => Act::Request(Wanted::Component(ComponentInfo {
            core_instances: *core_instances,
            memories: *memories,
            tables: *tables,
            core_bytes: *core_bytes,
            own_bytes: *own_bytes,
        })),
        Command::Stack => Act::Request(Wanted::Stack),
        Command::Heap { min, max } => Act::Request(Wanted::Heap(Limits {
            min: *min,
            max: *max,
        })),
        Command::Read {
            of,
            memory,
            at,
            len,
        } => Act::OnMemory {
            of: *of,
            memory: *memory,
            op: MemoryOp::Read { at: *at, len: *len },
        },
        Command::Write {
            of,
            memory,
            at,
            hex,
        } => Act::OnMemory {
            of: *of,
            memory: *memory,
            op: MemoryOp::Write {
                at: *at,
                bytes: hex.as_slice(),
            },
        },
        Command::Fill {
            of,
            memory,
            at,
            len,
            byte,
        } => Act::OnMemory {
            of: *of,
            memory: *memory,
            op: MemoryOp::Fill {
                at: *at,
                len: *len,
                byte: *byte,
            },
        },
        Command::Grow { of, memory, pages } => Act::OnMemory {
            of: *of,
            memory: *memory,
            op: MemoryOp::Grow { pages: *pages },
        },
        Command::Size { of, memory } => Act::OnMemory {
            of: *of,
            memory: *memory,
            op: MemoryOp::Size,
        },
        Command::Get { of, table, at } => Act::OnTable {
            of: *of,
            table: *table,
            op: TableOp::Get { at: *at },
        },
        Command::Set {
            of,
            table,
            at,
            value,
        } => Act::OnTable {
            of: *of,
            table: *table,
            op: TableOp::Set {
                at: *at,
                value: *value,
                len: 1,
            },
        },
        Command::TableFill {
            of,
            table,
            at,
            value,
            len,
        } => Act::OnTable {
            of: *of,
            table: *table,
            op: TableOp::Set {
                at: *at,
                value: *value,
                len: *len,
            },
        },
        Command::TableGrow { of, table, by } => Act::OnTable {
            of: *of,
            table: *table,
            op: TableOp::Grow { by: *by },
        },
        Command::TableSize { of, table } => Act::OnTable {
            of: *of,
            table: *table,
            op: TableOp::Size,
        },
        Command::Drop { of } => Act::Drop { of: *of },
        Command::Purge { module } => Act::Purge { module: *module },
        Command::Release => Act::Release,
    }
}
