use crate::problem::{Stop, Walk};
use crate::run_shape::InputShape;
use crate::shapes::Shape;
use crate::shared_shape::SharedInputShape;
use serde_json::{Error, Value};
use std::alloc::Global;

/// The cause of a text that is no JSON.
fn cause_of(error: &Error) -> &'static str {
    if error.is_eof() {
        "the text ends before its JSON does: a bracket or a quote isn't closed"
    } else {
        "no JSON from here on: look for a comma, a colon or a quote too many or too few"
    }
}

/// The stop at the place where a text is no JSON.
fn stop_of(alloc: Global, error: &Error) -> Result<Stop, Stop> {
    let line = error.line();
    let column = error.column();
    let place = format!(in alloc; "line {line}, column {column}")?;
    let cause = String::from_str(alloc, cause_of(error))?;
    Ok(Stop::at(alloc, place.as_str(), cause))
}

fn value_of_text(alloc: Global, text: &str) -> Result<Value, Stop> {
    match Value::from_str(alloc, text) {
        Ok(value) => Ok(value),
        Err(error) => {
            if error.is_memory() {
                return Err(Stop::Memory);
            }
            Err(stop_of(alloc, &error)?)
        }
    }
}

/// The JSON value that the bytes are. Stops where they are none.
pub fn value_of(alloc: Global, bytes: &[u8]) -> Result<Value, Stop> {
    match str::from_utf8(bytes) {
        Ok(text) => value_of_text(alloc, text),
        Err(error) => {
            let at = error.valid_up_to();
            let place = format!(in alloc; "byte {at}")?;
            let cause = String::from_str(alloc, "the text isn't UTF-8 from here on")?;
            Err(Stop::at(alloc, place.as_str(), cause))
        }
    }
}

/// Stops at the first thing for which the bytes have no form of the input of a run.
pub fn walk_run(alloc: Global, bytes: &[u8]) -> Walk {
    let value = value_of(alloc, bytes)?;
    InputShape::walk(alloc, &value)
}

/// Stops at the first thing for which the bytes have no form of the input of events on a shared memory.
pub fn walk_shared(alloc: Global, bytes: &[u8]) -> Walk {
    let value = value_of(alloc, bytes)?;
    SharedInputShape::walk(alloc, &value)
}
