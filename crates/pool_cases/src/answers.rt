//! One input, run.
ghost use Rattle.std.specs.Prelude.{◌≡◌, true};
ghost use Rattle.pool_run.specs.Built.{is_built};

use pool_forms::{InputFault, output_text, read_shared, replies_text, shared_text, threads_text};
use pool_load::load_input;
use pool_pages::MemoryPages;
use pool_run::{Input, RunFault, RunOutput, run_schedule};
use pool_run_on_demand::run_on_demand;
use pool_run_shared::{SharedInput, run_shared};
use pool_types::{PageSize, PlainList};
use pool_workers::run_threads;
use std::alloc::{AllocError, Global};
use std::sync::Wait;
use std::thread::Threads;

/// The line of what is no input that can be run.
pub fn bad_input(alloc: Global) -> Result<String, AllocError> {
    String::from_str(alloc, "error BadInput\n")
}

// The line of an input that isn't run.
fn refused(alloc: Global, fault: RunFault) -> Result<String, AllocError> {
    match fault {
        RunFault::BadInput => bad_input(alloc),
        RunFault::BadConfig(rule) => format!(in alloc; "error BadConfig: {rule}\n"),
        RunFault::PageFault => String::from_str(alloc, "error PageFault\n"),
        RunFault::Memory => Err(AllocError),
    }
}

// What makes regions in memory. The page of a run is its input's.
fn pages() -> Result<MemoryPages, AllocError> {
    match PageSize::new(4096) {
        Ok(page) => Ok(MemoryPages::new(page)),
        Err(_) => Err(AllocError),
    }
}

fn pooled(alloc: Global, input: &Input) -> Result<String, AllocError>
    requires { is_built input.now ≡ true }
{
    match run_schedule(alloc, input, &mut pages()?) {
        Ok(output) => output_text(alloc, input, &output),
        Err(fault) => refused(alloc, fault),
    }
}

fn on_demand(alloc: Global, input: &Input) -> Result<String, AllocError>
    requires { is_built input.now ≡ true }
{
    match run_on_demand(alloc, input, &mut pages()?) {
        Ok(output) => replies_text(alloc, input, output.replies.as_slice()),
        Err(fault) => refused(alloc, fault),
    }
}

fn on_threads<R: Threads + Wait + Sync>(
    rt: &R,
    alloc: Global,
    input: &Input,
) -> Result<String, AllocError>
    requires { is_built input.now ≡ true }
{
    match run_threads(rt, alloc, input, &mut pages()?) {
        Ok(output) => threads_text(alloc, input, output.replies.as_slice()),
        Err(fault) => refused(alloc, fault),
    }
}

/// What comes of a run of this input: on demand, with a thread for each party, or else in a pool.
pub fn ran<R: Threads + Wait + Sync>(
    rt: &R,
    alloc: Global,
    task: &str,
    input: &Input,
) -> Result<String, AllocError>
    requires { is_built input.now ≡ true }
{
    if task == "run on-demand" {
        on_demand(alloc, input)
    } else if task == "threads" {
        on_threads(rt, alloc, input)
    } else {
        pooled(alloc, input)
    }
}

fn happened(alloc: Global, input: &SharedInput) -> Result<String, AllocError> {
    match run_shared(alloc, input, &mut pages()?) {
        Ok(replies) => shared_text(alloc, replies.as_slice()),
        Err(fault) => refused(alloc, fault),
    }
}

/// What comes of events on a shared memory.
pub fn shared(alloc: Global, bytes: &[u8]) -> Result<String, AllocError> {
    match read_shared(alloc, bytes) {
        Ok(input) => happened(alloc, &input),
        Err(InputFault::Invalid) => bad_input(alloc),
        Err(InputFault::Memory) => Err(AllocError),
    }
}

fn loaded(alloc: Global, seed: u64) -> Result<String, AllocError> {
    let input = load_input(alloc, seed)?;
    match run_schedule(alloc, &input, &mut pages()?) {
        Ok(output) => {
            let numbers = RunOutput {
                replies: PlainList::new(alloc),
                metrics: output.metrics,
                calls: output.calls,
            };
            output_text(alloc, &input, &numbers)
        }
        Err(fault) => refused(alloc, fault),
    }
}

/// The numbers at the end of a load.
pub fn load(alloc: Global, seed: &str) -> Result<String, AllocError> {
    match seed.parse::<u64>() {
        Ok(seed) => loaded(alloc, seed),
        Err(_) => bad_input(alloc),
    }
}
