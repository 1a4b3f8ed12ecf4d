ghost use Rattle.std.specs.Prelude.{◌≡◌, true, IfOk};
ghost use Rattle.pool_types.specs.declared.bad_config.BadConfig.{BadConfig};
ghost use Rattle.pool_run.specs.Built.{is_built};
ghost use Rattle.pool_cli.specs.Lines.{config_line};
ghost use Rattle.pool_forms.specs.Reading.{reading_of_fit, shared_reading_of_fit};
ghost use Rattle.pool_cli.specs.Stages.{ReadsBytes, ReadsInput, Prepares, PreparesLoad, WritesText, Refuses, IsRunFailure, input_failure};
ghost use Rattle.pool_cli.specs.Statuses.{run_format, shared_format};
ghost use Rattle.pool_cli.specs.Words.{task_of};
ghost use Rattle.pool_cli.specs.declared.words.Task.TheVariants.{Run, RunOnDemand, Shared, Threads};

use crate::failure::{Failure, config_line};
use crate::status::Status;
use crate::words::{Task, task_of};
use pool_forms::{
    InputFault, ReadFault, Sink, Source, load_text, output_text, read_all, read_input, read_shared,
    replies_text, shared_text, threads_text, write_all,
};
use pool_load::load_input;
use pool_pages::PageMaker;
use pool_run::{Input, RunFault, run_schedule};
use pool_run_on_demand::run_on_demand;
use pool_run_shared::{SharedInput, run_shared};
use pool_types::{BadConfig, ByteList};
use pool_workers::run_threads;
use std::alloc::Global;
use std::sync::Wait;
use std::thread::Threads;

/// Reads all that the source has.
fn bytes_from<S: Source>(alloc: Global, source: &mut S) -> Result<ByteList, Failure>
    ensures { ReadsBytes (S.told source.old) (S.told source.new) result }
{
    match read_all(alloc, source) {
        Ok(bytes) => Ok(bytes),
        Err(ReadFault::Failed) => Err(Failure::ReadFault),
        Err(ReadFault::TooLong) => Err(Failure::TooLong),
        Err(ReadFault::Memory) => Err(Failure::NoMemory),
    }
}

/// What a text that isn't read as an input ends the program with.
fn input_failure(fault: InputFault) -> Failure
    ensures { result ≡ input_failure fault }
{
    match fault {
        InputFault::Invalid => Failure::BadInput,
        InputFault::Memory => Failure::NoMemory,
    }
}

/// Reads the input of a run. Whether it is valid isn't tested.
fn input_from<S: Source>(alloc: Global, source: &mut S) -> Result<Input, Failure>
    ensures reads { ReadsInput Run run_format reading_of_fit (S.told source.old) (S.told source.new) result }
    ensures threads { ReadsInput Threads run_format reading_of_fit (S.told source.old) (S.told source.new) result }
    ensures on_demand { ReadsInput RunOnDemand run_format reading_of_fit (S.told source.old) (S.told source.new) result }
    ensures ready { IfOk result (λ input. is_built input ≡ true) }
{
    let bytes = bytes_from(alloc, source)?;
    match read_input(alloc, bytes.as_slice()) {
        Ok(input) => Ok(input),
        Err(fault) => Err(input_failure(fault)),
    }
}

/// Reads the input of events on a shared memory. Whether it is valid isn't tested.
fn shared_from<S: Source>(alloc: Global, source: &mut S) -> Result<SharedInput, Failure>
    ensures { ReadsInput Shared shared_format shared_reading_of_fit (S.told source.old) (S.told source.new) result }
{
    let bytes = bytes_from(alloc, source)?;
    match read_shared(alloc, bytes.as_slice()) {
        Ok(input) => Ok(input),
        Err(fault) => Err(input_failure(fault)),
    }
}

/// The failure of settings that are refused, with its line.
fn refused(alloc: Global, error: BadConfig) -> Failure
    ensures { Refuses error result }
{
    match config_line(alloc, error) {
        Ok(line) => Failure::BadConfig(line),
        Err(_) => Failure::NoMemory,
    }
}

/// The failure of a run that isn't made.
fn run_failure(alloc: Global, fault: RunFault) -> Failure
    ensures { IsRunFailure fault result }
{
    match fault {
        RunFault::BadInput => Failure::BadInput,
        RunFault::BadConfig(error) => refused(alloc, error),
        RunFault::PageFault => Failure::PageFault,
        RunFault::Memory => Failure::NoMemory,
    }
}

/// Reads the input, runs it, and makes the output's text.
fn run<S: Source, M: PageMaker>(
    alloc: Global,
    source: &mut S,
    pages: &mut M,
) -> Result<String, Failure>
    ensures { Prepares M.Region.told Run (S.told source.old) (S.told source.new) (M.told pages.old) (M.told pages.new) result }
{
    let input = input_from(alloc, source)?;
    let output = match run_schedule(alloc, &input, pages) {
        Ok(output) => output,
        Err(fault) => return Err(run_failure(alloc, fault)),
    };
    match output_text(alloc, &input, &output) {
        Ok(text) => Ok(text),
        Err(_) => Err(Failure::NoMemory),
    }
}

/// Reads the input, runs it on demand, and makes the text of the replies.
fn on_demand<S: Source, M: PageMaker>(
    alloc: Global,
    source: &mut S,
    pages: &mut M,
) -> Result<String, Failure>
    ensures { Prepares M.Region.told RunOnDemand (S.told source.old) (S.told source.new) (M.told pages.old) (M.told pages.new) result }
{
    let input = input_from(alloc, source)?;
    let output = match run_on_demand(alloc, &input, pages) {
        Ok(output) => output,
        Err(fault) => return Err(run_failure(alloc, fault)),
    };
    match replies_text(alloc, &input, output.replies.as_slice()) {
        Ok(text) => Ok(text),
        Err(_) => Err(Failure::NoMemory),
    }
}

/// Reads the input, runs it with a thread for each party, and makes the text of the replies.
///
/// This is the one stage that may wait.
fn threads<S: Source, M: PageMaker + Send, R: Threads + Wait + Sync>(
    rt: &R,
    alloc: Global,
    source: &mut S,
    pages: &mut M,
) -> Result<String, Failure>
where
    M::Region: Send,
    ensures { Prepares M.Region.told Threads (S.told source.old) (S.told source.new) (M.told pages.old) (M.told pages.new) result }
{
    let input = input_from(alloc, source)?;
    let output = match run_threads(rt, alloc, &input, pages) {
        Ok(output) => output,
        Err(fault) => return Err(run_failure(alloc, fault)),
    };
    match threads_text(alloc, &input, output.replies.as_slice()) {
        Ok(text) => Ok(text),
        Err(_) => Err(Failure::NoMemory),
    }
}

/// Reads the input, has its events happen, and makes the text of the replies.
fn shared<S: Source, M: PageMaker>(
    alloc: Global,
    source: &mut S,
    pages: &mut M,
) -> Result<String, Failure>
    ensures { Prepares M.Region.told Shared (S.told source.old) (S.told source.new) (M.told pages.old) (M.told pages.new) result }
{
    let input = shared_from(alloc, source)?;
    let replies = match run_shared(alloc, &input, pages) {
        Ok(replies) => replies,
        Err(fault) => return Err(run_failure(alloc, fault)),
    };
    match shared_text(alloc, replies.as_slice()) {
        Ok(text) => Ok(text),
        Err(_) => Err(Failure::NoMemory),
    }
}

/// Makes the load of this seed, runs it, and makes the output's text. Reads nothing.
fn load<M: PageMaker>(alloc: Global, seed: u64, pages: &mut M) -> Result<String, Failure>
    ensures { PreparesLoad M.Region.told seed (M.told pages.old) (M.told pages.new) result }
{
    let Ok(input) = load_input(alloc, seed) else {
        return Err(Failure::NoMemory);
    };
    let output = match run_schedule(alloc, &input, pages) {
        Ok(output) => output,
        Err(fault) => return Err(run_failure(alloc, fault)),
    };
    match load_text(alloc, seed, &output) {
        Ok(text) => Ok(text),
        Err(_) => Err(Failure::NoMemory),
    }
}

/// All that comes before the first write.
pub fn prepare<S: Source, M: PageMaker + Send, R: Threads + Wait + Sync>(
    rt: &R,
    alloc: Global,
    words: &[String],
    source: &mut S,
    pages: &mut M,
) -> Result<String, Failure>
where
    M::Region: Send,
    ensures { Prepares M.Region.told (task_of words.now) (S.told source.old) (S.told source.new) (M.told pages.old) (M.told pages.new) result }
{
    match task_of(words) {
        Task::Run => run(alloc, source, pages),
        Task::RunOnDemand => on_demand(alloc, source, pages),
        Task::Threads => threads(rt, alloc, source, pages),
        Task::Shared => shared(alloc, source, pages),
        Task::Load(seed) => load(alloc, seed, pages),
        Task::Unknown => Err(Failure::BadUsage),
    }
}

/// Writes the text, and says how the program ended.
pub fn finish<K: Sink>(sink: &mut K, text: &str, status: Status) -> Status
    ensures { WritesText status text.now (K.told sink.old) (K.told sink.new) result }
{
    match write_all(sink, text.as_bytes()) {
        Ok(()) => status,
        Err(_) => Status::WriteFault,
    }
}
