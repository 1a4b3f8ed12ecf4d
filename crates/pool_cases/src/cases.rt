//! The cases of a text, one after another.
use crate::answers::{bad_input, load, ran, shared};
use pool_forms::{InputFault, read_input};
use std::alloc::{AllocError, Global};
use std::fmt::Write;
use std::sync::Wait;
use std::thread::Threads;

// What comes of an input.
fn answer<R: Threads + Wait + Sync>(
    rt: &R,
    alloc: Global,
    task: &str,
    input: &str,
) -> Result<String, AllocError> {
    if task == "shared" {
        return shared(alloc, input.as_bytes());
    }
    if task == "load" {
        return load(alloc, input);
    }
    match read_input(alloc, input.as_bytes()) {
        Ok(input) => ran(rt, alloc, task, &input),
        Err(InputFault::Invalid) => bad_input(alloc),
        Err(InputFault::Memory) => Err(AllocError),
    }
}

// The two parts of a text, at the first of these characters. Where there is none the second one is empty.
fn parted(text: &str, at: char) -> (&str, &str) {
    match text.split_once(at) {
        Some(parts) => parts,
        None => (text, ""),
    }
}

fn push_case<R: Threads + Wait + Sync>(
    rt: &R,
    alloc: Global,
    out: &mut String,
    case: &str,
) -> Result<(), AllocError> {
    let (first, input) = parted(case, '\n');
    let (task, _) = parted(first, ':');
    let text = answer(rt, alloc, task, input)?;
    write!(out, "{first}\n{text}\n")
}

/// What comes of all cases, with an empty line behind each.
pub fn answer_all<R: Threads + Wait + Sync>(
    rt: &R,
    alloc: Global,
    cases: &str,
) -> Result<String, AllocError> {
    let mut out = String::new(alloc);
    for case in cases.split("\n\n") {
        push_case(rt, alloc, &mut out, case)?;
    }
    Ok(out)
}
