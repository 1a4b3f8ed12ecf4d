ghost use Rattle.std.specs.Prelude.{◌≡◌, ◌⊎◌, true};
ghost use Rattle.pool_pages.specs.declared.failing.Failing.{Failing};
ghost use Rattle.pool_run.specs.Built.{is_built};
ghost use Rattle.pool_run.specs.Runs.{with_faults};
ghost use Rattle.pool_view_steps.specs.Shown.{TracesTo, shown_by};

use crate::trace::{Printer, TraceFault};
use pool_forms::Sink;
use pool_pages::PageMaker;
use pool_run::{Input, RunFault, run_watched};
use std::alloc::Global;

/// Why a run isn't shown.
#[derive(Clone, Copy, Debug, PartialEq, Eq)]
pub enum ShowFault {
    /// A write failed.
    Write,
    Memory,
    /// A region or an image couldn't be made, so that nothing was run.
    PageFault,
}

/// Why a run isn't shown that wasn't made, where the input is valid and its settings break no rule.
pub fn fault_of_run(fault: RunFault) -> ShowFault
    ensures which { (result ≡ ShowFault.PageFault) ⊎ (result ≡ ShowFault.Memory) }
    ensures unmade { result ≡ ShowFault.PageFault → fault ≡ RunFault.PageFault }
{
    match fault {
        RunFault::PageFault => ShowFault::PageFault,
        _ => ShowFault::Memory,
    }
}

fn shown_by(fault: Option<TraceFault>) -> Option<ShowFault>
    ensures { result ≡ shown_by fault }
{
    match fault {
        None => None,
        Some(TraceFault::Write) => Some(ShowFault::Write),
        Some(TraceFault::Memory) => Some(ShowFault::Memory),
    }
}

/// Runs the input, whose settings break no rule, and prints a line for each step as it is made. Answers what kept it from that, if
/// something did.
pub fn trace_run<M: PageMaker, K: Sink>(
    alloc: Global,
    input: &Input,
    pages: &mut M,
    printer: &mut Printer<K>,
) -> Option<ShowFault>
    requires { is_built input.now ≡ true }
    ensures { TracesTo (Failing M.Region) input.now (with_faults input.now (M.told pages.old)) (K.told printer.old.sink) (K.told printer.new.sink) result }
{
    printer.begin();
    match run_watched(alloc, input, pages, printer) {
        Ok(_output) => shown_by(printer.fault()),
        Err(fault) => Some(fault_of_run(fault)),
    }
}
