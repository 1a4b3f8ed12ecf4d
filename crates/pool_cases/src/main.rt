//! Many inputs in one, each run, and what comes of it printed: cases whose output was written by hand, for the gate to compare.
//!
//! Standard input has the cases, with an empty line between two. The first line of a case says what is done, as the words of
//! `pool_cli` do, and what the case is about: `run: two shards`. The other lines are the input. Of each case its first line is
//! printed, and then what `pool_cli` would print, but for a load: of its replies nothing is printed.
//!
//! It is ours and no port. It stands on what `pool_cli` stands on.
//!
//! ```text
//! rt try < stdin
//! ```
#![tactic(auto)]

mod answers;
mod cases;

use cases::answer_all;
use pool_forms::{ReaderSource, WriterSink, read_all, write_all};
use std::process::ExitCode;

fn main(rt: HostRuntime) -> ExitCode {
    let alloc = rt.alloc();
    let mut source = ReaderSource::new(rt.stdin());
    let Ok(bytes) = read_all(alloc, &mut source) else {
        return ExitCode::FAILURE;
    };
    let Ok(cases) = str::from_utf8(bytes.as_slice()) else {
        return ExitCode::FAILURE;
    };
    let Ok(text) = answer_all(&rt, alloc, cases) else {
        return ExitCode::FAILURE;
    };
    let mut sink = WriterSink::new(rt.stdout());
    match write_all(&mut sink, text.as_bytes()) {
        Ok(()) => ExitCode::SUCCESS,
        Err(_) => ExitCode::FAILURE,
    }
}
