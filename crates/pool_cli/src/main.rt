//! The program: it reads an input, runs it, and prints what came of it.
//!
//! Read `pool_main` first: all that the program does, over any streams and any maker of regions, and how it ended, as a
//! `Status`. The program's words are read as a `Task` (`words.rt`), the work of each is a stage (`stages.rt`), and what
//! ends it early is a `Failure` with a line to print. `main` only gives it standard input, standard output and regions
//! in memory.
//!
//! It is ours and no port. It stands on `pool_forms` for what is read and written, and on `pool_run`,
//! `pool_run_on_demand`, `pool_workers` and `pool_run_shared` for the runs.
//!
//! ```text
//! rt try -- run < ../../examples/tour/first.json
//! ```
#![tactic(auto)]

// What the program does
mod pool_main;
mod stages;
mod words;

// How it ends
mod failure;
mod status;

use pool_forms::{ReaderSource, WriterSink};
use pool_pages::MemoryPages;
use pool_types::PageSize;
use status::Status;
use std::alloc::{AllocError, Global};
use std::env;
use std::io::ErrorKind;
use std::process::ExitCode;

/// The program's words, without its name. None are there where one of them is no text, which no form has.
fn arguments(rt: &HostRuntime, alloc: Global) -> Result<Vec<String>, AllocError> {
    let mut words = Vec::new(alloc);
    match env::args(rt) {
        Ok(all) => {
            for word in all.skip(1) {
                words.push(word)?;
            }
        }
        Err(e) => {
            if e.kind() == ErrorKind::OutOfMemory {
                return Err(AllocError);
            }
        }
    }
    Ok(words)
}

fn main(rt: HostRuntime) -> ExitCode {
    let alloc = rt.alloc();
    let Ok(words) = arguments(&rt, alloc) else {
        return ExitCode::from(Status::NoMemory as u8);
    };
    let Ok(page) = PageSize::new(4096) else {
        return ExitCode::from(Status::BadConfig as u8);
    };
    let mut source = ReaderSource::new(rt.stdin());
    let mut sink = WriterSink::new(rt.stdout());
    let mut pages = MemoryPages::new(page);
    let status = pool_main::pool_main(
        &rt,
        alloc,
        words.as_slice(),
        &mut source,
        &mut sink,
        &mut pages,
    );
    ExitCode::from(status as u8)
}
