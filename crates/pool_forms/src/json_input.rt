ghost use Rattle.std.specs.Prelude.{◌≡◌, true, IfOk};
ghost use Rattle.serde_json.specs.Read.{read};
ghost use Rattle.serde_json.specs.View.{view};
ghost use Rattle.pool_run.specs.Built.{is_built};
ghost use Rattle.pool_forms.specs.Forms.{input_form};
ghost use Rattle.pool_forms.specs.Ranges.{numbers_fit};
ghost use Rattle.pool_forms.specs.Reading.{json_of, reading, reading_of_fit, reading_of_input, reading_of_form, shared_reading, shared_reading_of_fit, shared_reading_of_form, IsJson, IsReadAs};
ghost use Rattle.pool_forms.specs.SharedForms.{shared_form, events_fit};

use crate::form_fault::FormFault;
use crate::from_json::FromJson;
use crate::ranges::numbers_fit;
use crate::shared_input::events_fit;
use pool_run::{Input, is_built};
use pool_run_shared::SharedInput;
use serde_json::Value;
use std::alloc::Global;

/// Why a text isn't read as an input.
#[derive(Clone, Copy, Debug, PartialEq, Eq)]
pub enum InputFault {
    /// It is no JSON, or JSON of another form, or an input with a number that the type of its field can't hold.
    Invalid,
    Memory,
}

/// Tests whether the input can be run, and whether it fits: `fit` says whether all numbers fit their types.
fn tested(input: Input, fit: bool) -> Result<Input, InputFault>
    ensures reads { IsReadAs reading_of_fit (reading_of_input fit input) result }
    ensures ready { IfOk result (λ input. is_built input ≡ true) }
{
    if !is_built(&input) || !fit {
        return Err(InputFault::Invalid);
    }
    Ok(input)
}

fn input_of(alloc: Global, value: &Value) -> Result<Input, InputFault>
    ensures reads { IsReadAs reading_of_fit (reading_of_form (numbers_fit (view value.now)) (input_form (view value.now))) result }
    ensures ready { IfOk result (λ input. is_built input ≡ true) }
{
    match Input::from_json(alloc, value) {
        Ok(input) => tested(input, numbers_fit(value)),
        Err(FormFault::OtherForm) => Err(InputFault::Invalid),
        Err(FormFault::Memory) => Err(InputFault::Memory),
    }
}

fn shared_of(alloc: Global, value: &Value) -> Result<SharedInput, InputFault>
    ensures { IsReadAs shared_reading_of_fit (shared_reading_of_form (events_fit (view value.now)) (shared_form (view value.now))) result }
{
    match SharedInput::from_json(alloc, value) {
        Ok(input) => {
            if events_fit(value) {
                Ok(input)
            } else {
                Err(InputFault::Invalid)
            }
        }
        Err(FormFault::OtherForm) => Err(InputFault::Invalid),
        Err(FormFault::Memory) => Err(InputFault::Memory),
    }
}

/// The value of a text.
fn value_of_text(alloc: Global, text: &str) -> Result<Value, InputFault>
    ensures { IsJson (read text.now) result }
{
    match Value::from_str(alloc, text) {
        Ok(value) => Ok(value),
        Err(e) => {
            if e.is_memory() {
                Err(InputFault::Memory)
            } else {
                Err(InputFault::Invalid)
            }
        }
    }
}

fn value_of(alloc: Global, bytes: &[u8]) -> Result<Value, InputFault>
    ensures { IsJson (json_of bytes.now) result }
{
    match str::from_utf8(bytes) {
        Ok(text) => value_of_text(alloc, text),
        Err(_) => Err(InputFault::Invalid),
    }
}

/// Reads the input that the bytes are. Whether it is valid isn't tested.
pub fn read_input(alloc: Global, bytes: &[u8]) -> Result<Input, InputFault>
    ensures reads { IsReadAs reading_of_fit (reading bytes.now) result }
    ensures ready { IfOk result (λ input. is_built input ≡ true) }
{
    match value_of(alloc, bytes) {
        Ok(value) => input_of(alloc, &value),
        Err(fault) => Err(fault),
    }
}

/// Reads the input of events on a shared memory that the bytes are. Whether it is valid isn't tested.
pub fn read_shared(alloc: Global, bytes: &[u8]) -> Result<SharedInput, InputFault>
    ensures { IsReadAs shared_reading_of_fit (shared_reading bytes.now) result }
{
    match value_of(alloc, bytes) {
        Ok(value) => shared_of(alloc, &value),
        Err(fault) => Err(fault),
    }
}
