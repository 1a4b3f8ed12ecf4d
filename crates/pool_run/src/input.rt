use crate::command::Command;
use pool_pages::Fault;
use pool_types::{ModuleInfo, Offered, PlainList, PoolingAllocationConfig, Tunables};

/// What a party's memories and tables may grow to.
#[derive(Clone, Copy, Debug, PartialEq, Eq)]
pub struct PartyLimits {
    /// In bytes.
    pub memory_size: Option<usize>,
    /// How many elements a table may have.
    pub table_elements: Option<usize>,
    /// Whether a growth that fails is an error.
    pub trap_on_grow_failure: bool,
}

/// One party: the number from which its home shard and its home queue follow, the limits on its growth, if there are
/// any, which calls on its store and on its maker of heaps fail, and what it commands, in order.
#[derive(Debug, Drop)]
pub struct Party {
    pub home: u64,
    pub limits: Option<PartyLimits>,
    /// The numbers of the calls on the party's store of GC references that fail, from 1 on.
    pub gc_faults: PlainList<u64>,
    /// The numbers of the heaps that can't be made for the party, from 1 on, in the order in which they are asked of its maker.
    pub heap_faults: PlainList<u64>,
    pub commands: PlainList<Command>,
}

/// So many steps of the party with this number, one after another.
#[derive(Clone, Copy, Debug, PartialEq, Eq)]
pub struct ScheduleEntry {
    pub party: usize,
    pub times: u64,
}

/// What is to be run: the settings of the pool, of the engine and of the system, the modules, the parties, whose steps
/// come in which order, whether each party goes on to its end after that, and what fails.
#[derive(Debug, Drop)]
pub struct Input {
    /// The size of the pool's pages, in bytes.
    pub page: usize,
    /// Into how many shards each allocator of slots is split, and how many decommit queues there are.
    pub shards: u32,
    pub config: PoolingAllocationConfig,
    pub tunables: Tunables,
    pub offered: Offered,
    pub modules: PlainList<ModuleInfo>,
    pub parties: PlainList<Party>,
    pub schedule: PlainList<ScheduleEntry>,
    pub finish: bool,
    pub faults: PlainList<Fault>,
}
