ghost use Rattle.std.specs.Prelude.{◌≡◌, true, Err, IfOk};
ghost use Rattle.pool_pages.specs.MemoryTold.{memory_maker};
ghost use Rattle.pool_pages.specs.declared.failing.Failing.{Failing};
ghost use Rattle.pool_pages.specs.declared.made_region.MadeRegion.{MadeRegion};
ghost use Rattle.pool_run.specs.Built.{is_built};
ghost use Rattle.pool_run.specs.Runs.{with_faults};
ghost use Rattle.pool_view_steps.specs.Shown.{IsUnmade, TracesTo};
ghost use Rattle.pool_view_summary.specs.Shown.{IsSummary};
ghost use Rattle.pool_view.specs.Answers.{EndsTrace, WritesAnswer, WritesMade, WritesText};
ghost use Rattle.pool_view.specs.declared.words.Question.TheVariants.{Trace};

use crate::answer::{Answer, refused};
use crate::reading::input_of;
use crate::status::Status;
use pool_forms::{Sink, write_all};
use pool_pages::MemoryPages;
use pool_run::Input;
use pool_types::PageSize;
use pool_view_chart::draw;
use pool_view_steps::{Printer, ShowFault, trace_run};
use pool_view_summary::sum_up;
use std::alloc::{AllocError, Global};

/// The line where a region or an image can't be made.
pub const PAGE_FAULT: &str = "faults: the making of a region or of an image fails\n";

/// Writes the text, and says how the program ended.
pub fn finish<K: Sink>(printer: &mut Printer<K>, text: &str, status: Status) -> Status
    ensures { WritesText status text.now (K.told printer.old.sink) (K.told printer.new.sink) result }
{
    match write_all(&mut printer.sink, text.as_bytes()) {
        Ok(()) => status,
        Err(_) => Status::WriteFault,
    }
}

/// Answers with a text, and with its status.
pub fn write_made<K: Sink>(printer: &mut Printer<K>, answer: Result<Answer, AllocError>) -> Status
    ensures { WritesMade answer (K.told printer.old.sink) (K.told printer.new.sink) result }
{
    match answer {
        Ok(answer) => finish(printer, answer.text.as_str(), answer.status),
        Err(_) => Status::NoMemory,
    }
}

/// The text of a summary of the input, whose settings break no rule.
pub fn summary_of(alloc: Global, input: &Input) -> Result<String, ShowFault>
    requires { is_built input.now ≡ true }
    ensures ok { IfOk result (IsSummary (Failing MadeRegion) input.now (with_faults input.now (memory_maker input.now.page 0))) }
    ensures unmade { result ≡ Err ShowFault.PageFault → IsUnmade input.now (with_faults input.now (memory_maker input.now.page 0)) }
{
    let Ok(page) = PageSize::new(input.page) else {
        return Err(ShowFault::Memory);
    };
    let mut pages = MemoryPages::new(page);
    sum_up(alloc, input, &mut pages)
}

/// A picture of the input, likewise.
pub fn picture_of(alloc: Global, input: &Input) -> Result<String, ShowFault>
    requires { is_built input.now ≡ true }
    ensures { result ≡ Err ShowFault.PageFault → IsUnmade input.now (with_faults input.now (memory_maker input.now.page 0)) }
{
    let Ok(page) = PageSize::new(input.page) else {
        return Err(ShowFault::Memory);
    };
    let mut pages = MemoryPages::new(page);
    draw(alloc, input, &mut pages)
}

/// Prints the trace of the input, likewise.
fn trace_of<K: Sink>(alloc: Global, input: &Input, printer: &mut Printer<K>) -> Option<ShowFault>
    requires { is_built input.now ≡ true }
    ensures { TracesTo (Failing MadeRegion) input.now (with_faults input.now (memory_maker input.now.page 0)) (K.told printer.old.sink) (K.told printer.new.sink) result }
{
    let Ok(page) = PageSize::new(input.page) else {
        return Some(ShowFault::Memory);
    };
    let mut pages = MemoryPages::new(page);
    trace_run(alloc, input, &mut pages, printer)
}

/// Says how a trace ended that this kept from going on, if something did.
fn end_trace<K: Sink>(printer: &mut Printer<K>, fault: Option<ShowFault>) -> Status
    ensures { EndsTrace fault (K.told printer.old.sink) (K.told printer.new.sink) result }
{
    match fault {
        None => Status::Ok,
        Some(ShowFault::Write) => Status::WriteFault,
        Some(ShowFault::Memory) => Status::NoMemory,
        Some(ShowFault::PageFault) => finish(printer, PAGE_FAULT, Status::PageFault),
    }
}

/// Answers the question for a trace of the input that the bytes are.
pub fn trace<K: Sink>(alloc: Global, bytes: &[u8], printer: &mut Printer<K>) -> Status
    ensures { WritesAnswer Trace bytes.now (K.told printer.old.sink) (K.told printer.new.sink) result }
{
    match input_of(alloc, bytes) {
        Ok(input) => {
            let fault = trace_of(alloc, &input, printer);
            end_trace(printer, fault)
        }
        Err(refusal) => write_made(printer, refused(alloc, refusal)),
    }
}
