ghost use Rattle.std.specs.Prelude.{◌≡◌, ◌≢◌, false, string_bytes, IfOk};
ghost use Rattle.pool_view.specs.Answers.{IsAnswer, RefusesAs, Says, ShownAs, ok_line, page_fault_line, problem_line, streams};
ghost use Rattle.pool_view.specs.Findings.{Finding, Refuses, can_run, finding, shared_finding, status_of};
ghost use Rattle.pool_view.specs.declared.words.Question.TheVariants.{Summary, Chart};

use crate::reading::{Refusal, input_of, shared_input_of};
use crate::runs::{PAGE_FAULT, picture_of, summary_of};
use crate::status::Status;
use crate::words::Question;
use pool_run::Input;
use pool_view_forms::{Problem, value_of};
use pool_view_settings::{Settings, explained};
use pool_view_steps::ShowFault;
use std::alloc::{AllocError, Global};
use std::fmt::Write;

/// What is written about an input, and the status that the program ends with once it is.
#[derive(Drop)]
pub struct Answer {
    pub text: String,
    pub status: Status,
}

/// The place as it is printed. That of the whole input has no name of its own.
fn place_of(problem: &Problem) -> &str {
    if problem.place.is_empty() {
        "input"
    } else {
        problem.place.as_str()
    }
}

/// The line of a problem.
fn line_of(alloc: Global, place: &str, cause: &str) -> Result<String, AllocError>
    ensures { IfOk result (λ line. string_bytes line ≡ problem_line place.now cause.now) }
{
    let mut line = String::new(alloc);
    write!(line, "{place}: {cause}\n")?;
    Ok(line)
}

/// The answer that names a problem.
fn answer_of(alloc: Global, status: Status, problem: &Problem) -> Result<Answer, AllocError>
    ensures status { IfOk result (λ a. a.status ≡ status) }
    ensures other { IfOk result (λ a. string_bytes a.text ≢ ok_line) }
{
    let text = line_of(alloc, place_of(problem), problem.cause.as_str())?;
    Ok(Answer { text, status })
}

/// The answer where there is no input that can be run.
#[tactic(auto, using(crate::proofs::Saying::refuses_no_input, crate::proofs::Saying::refuses_breaks_rule))]
pub fn refused(alloc: Global, refusal: Refusal) -> Result<Answer, AllocError>
    ensures { IfOk result (λ a. (f : Finding) → Refuses f refusal → RefusesAs f (string_bytes a.text) a.status) }
{
    match refusal {
        Refusal::NoInput(problem) => answer_of(alloc, Status::BadInput, &problem),
        Refusal::BrokenRule(problem) => answer_of(alloc, Status::BadConfig, &problem),
        Refusal::Memory => Err(AllocError),
    }
}

fn ok(alloc: Global) -> Result<Answer, AllocError>
    ensures { IfOk result (λ a. Says can_run (string_bytes a.text) a.status) }
{
    Ok(Answer {
        text: String::from_str(alloc, "ok\n")?,
        status: Status::Ok,
    })
}

#[tactic(auto, using(crate::proofs::Saying::says_of_same))]
fn check(alloc: Global, bytes: &[u8]) -> Result<Answer, AllocError>
    ensures { IfOk result (λ a. Says (finding bytes.now) (string_bytes a.text) a.status) }
{
    match input_of(alloc, bytes) {
        Ok(_) => ok(alloc),
        Err(refusal) => refused(alloc, refusal),
    }
}

#[tactic(auto, using(crate::proofs::Saying::says_of_same))]
fn check_shared(alloc: Global, bytes: &[u8]) -> Result<Answer, AllocError>
    ensures { IfOk result (λ a. Says (shared_finding bytes.now) (string_bytes a.text) a.status) }
{
    match shared_input_of(alloc, bytes) {
        Ok(_) => ok(alloc),
        Err(refusal) => refused(alloc, refusal),
    }
}

fn explain_input(alloc: Global, input: &Input, bytes: &[u8]) -> Result<Answer, AllocError>
    ensures { IfOk result (λ a. a.status ≡ Status.Ok) }
{
    let Ok(value) = value_of(alloc, bytes) else {
        return Err(AllocError);
    };
    let settings = Settings {
        page: input.page,
        shards: input.shards,
        config: &input.config,
        tunables: &input.tunables,
        offered: &input.offered,
    };
    let text = explained(alloc, &settings, input.modules.as_slice(), &value)?;
    Ok(Answer {
        text,
        status: Status::Ok,
    })
}

fn explain(alloc: Global, bytes: &[u8]) -> Result<Answer, AllocError>
    ensures { IfOk result (λ a. a.status ≡ status_of (finding bytes.now)) }
{
    match input_of(alloc, bytes) {
        Ok(input) => explain_input(alloc, &input, bytes),
        Err(refusal) => refused(alloc, refusal),
    }
}

/// The answer where a region or an image can't be made.
fn unmade(alloc: Global) -> Result<Answer, AllocError>
    ensures text { IfOk result (λ a. string_bytes a.text ≡ page_fault_line) }
    ensures status { IfOk result (λ a. a.status ≡ Status.PageFault) }
{
    Ok(Answer {
        text: String::from_str(alloc, PAGE_FAULT)?,
        status: Status::PageFault,
    })
}

/// The answer that shows a run.
fn shown(alloc: Global, text: Result<String, ShowFault>) -> Result<Answer, AllocError>
    ensures { IfOk result (ShownAs text) }
{
    match text {
        Ok(text) => Ok(Answer {
            text,
            status: Status::Ok,
        }),
        Err(ShowFault::PageFault) => unmade(alloc),
        Err(_) => Err(AllocError),
    }
}

fn summarise(alloc: Global, bytes: &[u8]) -> Result<Answer, AllocError>
    ensures { IfOk result (λ a. IsAnswer Summary bytes.now (string_bytes a.text) a.status) }
{
    match input_of(alloc, bytes) {
        Ok(input) => shown(alloc, summary_of(alloc, &input)),
        Err(refusal) => refused(alloc, refusal),
    }
}

fn draw(alloc: Global, bytes: &[u8]) -> Result<Answer, AllocError>
    ensures { IfOk result (λ a. IsAnswer Chart bytes.now (string_bytes a.text) a.status) }
{
    match input_of(alloc, bytes) {
        Ok(input) => shown(alloc, picture_of(alloc, &input)),
        Err(refusal) => refused(alloc, refusal),
    }
}

/// The answer to a question about the bytes of an input, of those that are made whole before they are written.
pub fn answer_to(alloc: Global, question: Question, bytes: &[u8]) -> Result<Answer, AllocError>
    requires { streams question ≡ false }
    ensures { IfOk result (λ a. IsAnswer question bytes.now (string_bytes a.text) a.status) }
{
    match question {
        Question::Check => check(alloc, bytes),
        Question::CheckShared => check_shared(alloc, bytes),
        Question::Explain => explain(alloc, bytes),
        Question::Summary => summarise(alloc, bytes),
        Question::Chart => draw(alloc, bytes),
        Question::Trace => unreachable!(),
    }
}
