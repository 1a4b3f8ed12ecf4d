ghost use Rattle.std.specs.Prelude.{◌≡◌, true, false, IfErr, IfOk};
ghost use Rattle.pool_forms.specs.Reading.{accepted, reading_of_fit, shared_reading_of_fit};
ghost use Rattle.pool_run.specs.Built.{broken_rule, is_built};
ghost use Rattle.pool_run_shared.specs.Runs.{broken_page};
ghost use Rattle.pool_view.specs.Findings.{Finds, IsInputOf, Refuses, breaks_rule, finding, finding_of, no_input, shared_finding};

use crate::limits::walk_input;
use crate::rules::problem_of_rule;
use crate::shared_limits::walk_shared_input;
use pool_forms::{InputFault, read_input, read_shared};
use pool_run::{Input, is_valid};
use pool_run_shared::{SharedInput, is_valid_shared};
use pool_types::{BadConfig, PageSize};
use pool_view_forms::{Problem, Stop, Walk, walk_run, walk_shared};
use std::alloc::{AllocError, Global};

/// Why bytes aren't an input that can be run.
#[derive(Drop)]
pub enum Refusal {
    /// They are no input, or one that isn't valid.
    NoInput(Problem),
    /// The settings break a rule.
    BrokenRule(Problem),
    Memory,
}

/// The refusal of bytes in which a walk stops there. Where a walk finds nothing the whole input is the place.
fn refusal_of(alloc: Global, walk: Walk) -> Refusal
    ensures { Refuses no_input result }
{
    match walk {
        Err(Stop::Problem(problem)) => Refusal::NoInput(problem),
        Err(Stop::Memory) => Refusal::Memory,
        Ok(()) => refusal_of_input(alloc),
    }
}

fn refusal_of_input(alloc: Global) -> Refusal
    ensures { Refuses no_input result }
{
    match unnamed_problem(alloc) {
        Ok(problem) => Refusal::NoInput(problem),
        Err(_) => Refusal::Memory,
    }
}

fn unnamed_problem(alloc: Global) -> Result<Problem, AllocError> {
    Ok(Problem {
        place: String::from_str(alloc, "input")?,
        cause: String::from_str(alloc, "something in it isn't accepted")?,
    })
}

/// The refusal of settings that break the rule.
fn refusal_of_rule(alloc: Global, rule: BadConfig) -> Refusal
    ensures { Refuses breaks_rule result }
{
    match problem_of_rule(alloc, rule) {
        Ok(problem) => Refusal::BrokenRule(problem),
        Err(_) => Refusal::Memory,
    }
}

/// The input, where it is valid and its settings break no rule.
fn tested(alloc: Global, input: Input) -> Result<Input, Refusal>
    ensures finds { Finds (finding_of broken_rule (reading_of_fit input)) result }
    ensures read { IfOk result (λ same. (same ≡ input) × (reading_of_fit input ≡ accepted input)) }
{
    if !is_valid(&input) {
        return Err(refusal_of(alloc, walk_input(alloc, &input)));
    }
    match input
        .config
        .check_rules(&input.tunables, input.page, input.shards, &input.offered)
    {
        Ok(_) => Ok(input),
        Err(rule) => Err(refusal_of_rule(alloc, rule)),
    }
}

/// The input of a run that the bytes are, where it can be run.
pub fn input_of(alloc: Global, bytes: &[u8]) -> Result<Input, Refusal>
    ensures finds { Finds (finding bytes.now) result }
    ensures of { IfOk result (IsInputOf bytes.now) }
{
    match read_input(alloc, bytes) {
        Ok(input) => tested(alloc, input),
        Err(InputFault::Memory) => Err(Refusal::Memory),
        Err(_) => Err(refusal_of(alloc, walk_run(alloc, bytes))),
    }
}

fn tested_shared(alloc: Global, input: SharedInput) -> Result<SharedInput, Refusal>
    ensures { Finds (finding_of broken_page (shared_reading_of_fit input)) result }
{
    if !is_valid_shared(&input) {
        return Err(refusal_of(alloc, walk_shared_input(alloc, &input)));
    }
    match PageSize::new(input.page) {
        Ok(_) => Ok(input),
        Err(rule) => Err(refusal_of_rule(alloc, rule)),
    }
}

/// The input of events that the bytes are, where it can be run.
pub fn shared_input_of(alloc: Global, bytes: &[u8]) -> Result<SharedInput, Refusal>
    ensures { Finds (shared_finding bytes.now) result }
{
    match read_shared(alloc, bytes) {
        Ok(input) => tested_shared(alloc, input),
        Err(InputFault::Memory) => Err(Refusal::Memory),
        Err(_) => Err(refusal_of(alloc, walk_shared(alloc, bytes))),
    }
}
