//! A tool for those who write inputs of `pool_cli`: it says what is wrong with one, and what its settings come to.
#![tactic(auto)]

// What the program does, and how it ends
mod answer;
mod runs;
mod status;
mod view_main;
mod words;

// An input that can be run, or why there is none
mod reading;
mod rules;

// What an input may hold and name
mod command_limits;
mod limits;
mod shared_limits;

use pool_forms::{ReaderSource, WriterSink};
use pool_view_steps::Printer;
use status::Status;
use std::alloc::{AllocError, Global};
use std::env;
use std::io::ErrorKind;
use std::process::ExitCode;

/// The program's words, without its name. None are there where one of them is no text, which no form has.
fn arguments(rt: &HostRuntime, alloc: Global) -> Result<Vec<String>, AllocError> {
    let mut words = Vec::new(alloc);
    match env::args(rt) {
        Ok(all) => {
            for word in all.skip(1) {
                words.push(word)?;
            }
        }
        Err(e) => {
            if e.kind() == ErrorKind::OutOfMemory {
                return Err(AllocError);
            }
        }
    }
    Ok(words)
}

fn main(rt: HostRuntime) -> ExitCode {
    let alloc = rt.alloc();
    let Ok(words) = arguments(&rt, alloc) else {
        return ExitCode::from(Status::NoMemory as u8);
    };
    let mut source = ReaderSource::new(rt.stdin());
    let mut printer = Printer::new(alloc, WriterSink::new(rt.stdout()));
    let status = view_main::view_main(alloc, words.as_slice(), &mut source, &mut printer);
    ExitCode::from(status as u8)
}
