ghost use Rattle.std.specs.Prelude.{◌≡◌, ◌++◌, ◌<◌, length, None, IfOk, OnOk, string_bytes};
ghost use Rattle.pool_view_steps.specs.Lines.{IsLine, PrintsTo, WritesLine, line_head, line_tail, turn_command};

use crate::step::{Look, Step, look_at, step_made};
use crate::words::{push_calls, push_words};
use pool_forms::{Sink, push_pool_reply, write_all};
use pool_pages::Pages;
use pool_run::{Input, Reply, Run, Watcher};
use std::alloc::{AllocError, Global};
use std::fmt::Write;

/// What kept a trace from going on.
#[derive(Clone, Copy, Debug, PartialEq, Eq)]
pub enum TraceFault {
    /// A write failed.
    Write,
    Memory,
}

/// Writes what the program prints. As the watcher of a run it writes a line for each step, as the step is made. Once something
/// fails it writes no more of them.
#[derive(Drop)]
pub struct Printer<K: Sink> {
    pub sink: K,
    alloc: Global,
    steps: u64,
    fault: Option<TraceFault>,
}

// The middle of a line: the command's word, what was done, what changed, and the page calls.
fn middle_of(alloc: Global, step: &Step, reply: Option<&Reply>) -> Result<String, AllocError> {
    let mut out = String::new(alloc);
    out.push_str(match step.look.kind {
        None => "-",
        Some(kind) => kind.name(),
    })?;
    out.push_str(" | ")?;
    push_words(&mut out, step, reply)?;
    let part = step.look.part;
    write!(out, " | {part} | ")?;
    push_calls(alloc, &mut out, &step.calls)?;
    Ok(out)
}

// Adds the end of a line: the reply, where one ends the command.
fn push_tail(
    alloc: Global,
    out: &mut String,
    input: &Input,
    party: usize,
    command: usize,
    reply: &Option<Reply>,
) -> Result<(), AllocError>
    ensures { OnOk result (string_bytes out.new ≡ string_bytes out.old ++ line_tail input.now party command reply.now) }
{
    if let Some(reply) = reply {
        out.push_str(" | ")?;
        push_pool_reply(alloc, out, input, party, command, reply)?;
    }
    out.push_str("\n")
}

// The line of a turn, of which so much is said in its middle.
fn line_of(
    alloc: Global,
    number: u64,
    input: &Input,
    party: usize,
    command: usize,
    middle: &str,
    reply: &Option<Reply>,
) -> Result<String, AllocError>
    ensures { IfOk result (λ line. string_bytes line ≡ line_head number party command ++ middle.now ++ line_tail input.now party command reply.now) }
{
    let mut out = String::new(alloc);
    write!(out, "{number} {party}.{command} {middle}")?;
    push_tail(alloc, &mut out, input, party, command, reply)?;
    Ok(out)
}

// The number of the command that a turn was of.
fn command_of_turn<P: Pages>(run: &Run<P>, party: usize, reply: &Option<Reply>) -> usize
    requires { party < length run.now.parties }
    ensures { result ≡ turn_command (record { party = party; run = run.now; reply = reply.now }) }
{
    let done = run.done(party);
    match reply {
        None => done,
        Some(_) => done.saturating_sub(1),
    }
}

// The line of a turn.
fn turn_line<P: Pages>(
    alloc: Global,
    number: u64,
    step: &Step,
    run: &Run<P>,
    input: &Input,
    party: usize,
    reply: &Option<Reply>,
) -> Result<String, AllocError>
    requires { party < length run.now.parties }
    ensures { IfOk result (λ line. IsLine input.now number (record { party = party; run = run.now; reply = reply.now }) (string_bytes line)) }
{
    let middle = middle_of(alloc, step, reply.as_ref())?;
    let command = command_of_turn(run, party, reply);
    line_of(alloc, number, input, party, command, middle.as_str(), reply)
}

impl<K: Sink> Printer<K> {
    /// Prints there.
    pub fn new(alloc: Global, sink: K) -> Self
        ensures { result.sink ≡ sink }
    {
        Printer {
            sink,
            alloc,
            steps: 0,
            fault: None,
        }
    }

    /// Begins a trace: no step is printed yet, and nothing failed.
    pub fn begin(&mut self)
        ensures { self.new ≡ record self.old { steps = 0; fault = None } }
    {
        self.steps = 0;
        self.fault = None;
    }

    /// What kept it from printing a step, if something did.
    pub fn fault(&self) -> Option<TraceFault>
        ensures { result ≡ self.now.fault }
    {
        self.fault
    }

    // Prints the line of a turn, or notes why it doesn't.
    fn print<P: Pages>(
        &mut self,
        step: &Step,
        run: &Run<P>,
        input: &Input,
        party: usize,
        reply: &Option<Reply>,
    )
        requires inside { party < length run.now.parties }
        requires going { self.old.fault ≡ None }
        ensures { PrintsTo K.told input.now (record { party = party; run = run.now; reply = reply.now }) self.old self.new self.new.fault }
    {
        let number = self.steps.saturating_add(1);
        match turn_line(self.alloc, number, step, run, input, party, reply) {
            Ok(line) => self.write_line(number, line.as_str()),
            Err(_) => self.fault = Some(TraceFault::Memory),
        }
    }

    // Writes the line of the turn of this number.
    fn write_line(&mut self, number: u64, line: &str)
        ensures { WritesLine K.told number line.now self.old self.new self.new.fault }
    {
        self.steps = number;
        self.fault = match write_all(&mut self.sink, line.as_bytes()) {
            Ok(()) => None,
            Err(_) => Some(TraceFault::Write),
        };
    }
}

impl<P: Pages, K: Sink> Watcher<P> for Printer<K> {
    ghost use Rattle.pool_view_steps.specs.Lines.{PrintsTurn};

    type Note = Look;

    ghost leads = { PrintsTurn K.told };

    fn look(&self, run: &Run<P>, input: &Input, party: usize) -> Look {
        look_at(run, input, party)
    }

    fn learn(
        &mut self,
        note: Look,
        run: &Run<P>,
        input: &Input,
        party: usize,
        reply: &Option<Reply>,
    ) {
        match self.fault {
            Some(_) => {}
            None => {
                let step = step_made(note, run, input, party);
                self.print(&step, run, input, party, reply)
            }
        }
    }
}
