ghost use Rattle.std.specs.Prelude.{◌≡◌, ◌++◌, ◌<◌, [], ◌∷◌, map, replicate, IfOk, OnOk, true, None};
ghost use Rattle.std.specs.List.{range_with_len};
ghost use Rattle.pool_run.specs.Built.{broken_rule, is_built};
ghost use Rattle.pool_run.specs.Validity.{is_valid};
ghost use Rattle.pool_load.specs.Draws.{state_after};
ghost use Rattle.pool_load.specs.Load.{load_config, load_memory, load_module, load_table, load_input, load_parties, load_party, load_schedule, round, rounds};

use crate::draws::Draws;
use pool_run::{Command, Input, Party, ScheduleEntry};
use pool_types::{
    ByteList, ImageDecl, IndexType, InstanceLimits, Limits, MemoryDecl, MemoryType, ModuleInfo,
    Offered, PlainList, PoolingAllocationConfig, TableElementType, TableType, Tunables,
};
use std::alloc::{AllocError, Global};

/// How many modules a load has.
const MODULES: u64 = 4;

/// How many parties a load has.
const PARTIES: u64 = 8;

/// How many rounds of commands each party has.
const ROUNDS: usize = 50;

/// How many commands a round has.
const ROUND_COMMANDS: usize = 5;

/// How many steps the schedule has.
const STEPS: usize = 20_000;

/// The instance's memory is written and read from a place below this on.
const PLACES: u64 = 65_000;

fn config() -> PoolingAllocationConfig
    ensures { result ≡ load_config }
{
    PoolingAllocationConfig {
        limits: InstanceLimits {
            total_core_instances: 100,
            total_memories: 100,
            total_tables: 100,
            max_memory_size: 655_360,
            table_elements: 1_000,
            ..InstanceLimits::default()
        },
        decommit_batch_size: 16,
        ..PoolingAllocationConfig::default()
    }
}

// As many bytes of one value.
fn bytes(alloc: Global, byte: u8, len: usize) -> Result<ByteList, AllocError>
    ensures { IfOk result (λ bytes. bytes ≡ replicate len byte) }
{
    Ok(ByteList::from_vec(vec![in alloc; byte; len]?))
}

// The list of this one item.
fn one<T: Drop>(alloc: Global, item: T) -> Result<PlainList<T>, AllocError>
    ensures { IfOk result (λ items. items ≡ item ∷ []) }
{
    let mut items = Vec::with_capacity(alloc, 1)?;
    items.push(item)?;
    Ok(PlainList::from_vec(items))
}

fn memory(alloc: Global, m: u8) -> Result<MemoryDecl, AllocError>
    requires { m < 4 }
    ensures { IfOk result (λ memory. memory ≡ load_memory m) }
{
    Ok(MemoryDecl {
        ty: MemoryType {
            idx_type: IndexType::I32,
            limits: Limits {
                min: m as u64 + 1,
                max: None,
            },
            shared: false,
            page_size_log2: 16,
        },
        image: Some(ImageDecl {
            offset: 0,
            bytes: bytes(alloc, m + 1, 64)?,
        }),
    })
}

fn table(min: u64) -> TableType
    ensures { result ≡ load_table min }
{
    TableType {
        idx_type: IndexType::I32,
        limits: Limits { min, max: None },
        element: TableElementType::Func,
    }
}

fn module(alloc: Global, m: u8) -> Result<ModuleInfo, AllocError>
    requires { m < 4 }
    ensures { IfOk result (λ info. info ≡ load_module m) }
{
    Ok(ModuleInfo {
        memories: one(alloc, memory(alloc, m)?)?,
        tables: one(alloc, table(10 * (m as u64 + 1)))?,
        state_bytes: 0,
        parts: PlainList::new(alloc),
    })
}

#[tactic(auto, using(crate::proofs::Lists::modules_more))]
fn modules(alloc: Global) -> Result<PlainList<ModuleInfo>, AllocError>
    ensures { IfOk result (λ modules. modules ≡ map load_module (range_with_len 0 4)) }
{
    let mut modules = Vec::with_capacity(alloc, MODULES as usize)?;
    for m in 0..MODULES {
        modules.push(module(alloc, m as u8)?)?;
    }
    Ok(PlainList::from_vec(modules))
}

// Adds the commands of a round, of which the first has this number.
fn push_round(
    alloc: Global,
    commands: &mut Vec<Command>,
    of: usize,
    draws: &mut Draws,
) -> Result<(), AllocError>
    ensures ok { OnOk result (commands.new.items ≡ commands.old.items ++ round of draws.old.state) }
    ensures state { OnOk result (draws.new.state ≡ state_after 5 draws.old.state) }
{
    let module = draws.draw(MODULES) as usize;
    let write_at = draws.draw(PLACES);
    let byte = draws.draw(256) as u8;
    let pages = draws.draw(6);
    let read_at = draws.draw(PLACES);
    let hex = bytes(alloc, byte, 8)?;
    commands.push(Command::Instantiate { module })?;
    commands.push(Command::Write {
        of,
        memory: 0,
        at: write_at,
        hex,
    })?;
    commands.push(Command::Grow {
        of,
        memory: 0,
        pages,
    })?;
    commands.push(Command::Read {
        of,
        memory: 0,
        at: read_at,
        len: 16,
    })?;
    commands.push(Command::Drop { of })?;
    Ok(())
}

// The commands of a party.
#[tactic(auto, using(crate::proofs::Lists::round_by_round))]
fn commands(alloc: Global, draws: &mut Draws) -> Result<PlainList<Command>, AllocError>
    ensures ok { IfOk result (λ commands. commands ≡ rounds 50 draws.old.state) }
    ensures state { OnOk result (draws.new.state ≡ state_after 250 draws.old.state) }
{
    let mut commands = Vec::with_capacity(alloc, ROUNDS * ROUND_COMMANDS)?;
    for round in 0..ROUNDS {
        push_round(alloc, &mut commands, ROUND_COMMANDS * round, draws)?;
    }
    Ok(PlainList::from_vec(commands))
}

#[tactic(auto, using(crate::proofs::Lists::party_by_party), unfolding(crate::specs::Load::load_party))]
fn parties(alloc: Global, draws: &mut Draws) -> Result<PlainList<Party>, AllocError>
    ensures ok { IfOk result (λ parties. parties ≡ load_parties 8 draws.old.state) }
    ensures state { OnOk result (draws.new.state ≡ state_after 2000 draws.old.state) }
{
    let mut parties = Vec::with_capacity(alloc, PARTIES as usize)?;
    for home in 0..PARTIES {
        parties.push(Party {
            home,
            limits: None,
            gc_faults: PlainList::new(alloc),
            heap_faults: PlainList::new(alloc),
            commands: commands(alloc, draws)?,
        })?;
    }
    Ok(PlainList::from_vec(parties))
}

#[tactic(auto, using(crate::proofs::Lists::step_by_step))]
fn schedule(alloc: Global, draws: &mut Draws) -> Result<PlainList<ScheduleEntry>, AllocError>
    ensures { IfOk result (λ schedule. schedule ≡ load_schedule 20000 draws.old.state) }
{
    let mut schedule = Vec::with_capacity(alloc, STEPS)?;
    for step in 0..STEPS {
        let party = draws.draw(PARTIES) as usize;
        schedule.push(ScheduleEntry { party, times: 1 })?;
    }
    Ok(PlainList::from_vec(schedule))
}

/// The input of the load of this seed. It is valid and breaks no rule of the settings, so a run of it is refused neither
/// for its sizes nor for its settings.
#[tactic(auto, using(crate::proofs::Valid::load_accepted), unfolding(crate::specs::Load::load_input))]
pub fn load_input(alloc: Global, seed: u64) -> Result<Input, AllocError>
    ensures input { IfOk result (λ input. input ≡ load_input seed) }
    ensures built { is_built (load_input seed) ≡ true }
    ensures valid { is_valid (load_input seed) ≡ true }
    ensures rules { broken_rule (load_input seed) ≡ None }
{
    let mut draws = Draws { state: seed };
    let modules = modules(alloc)?;
    let parties = parties(alloc, &mut draws)?;
    let schedule = schedule(alloc, &mut draws)?;
    Ok(Input {
        page: 4096,
        shards: 16,
        config: config(),
        tunables: Tunables::default(),
        offered: Offered::default(),
        modules,
        parties,
        schedule,
        finish: true,
        faults: PlainList::new(alloc),
    })
}
