//! The summary of a run.
ghost use Rattle.std.specs.Prelude.{◌≡◌, ◌++◌, true, Err, IfErr, IfOk, string_bytes};
ghost use Rattle.pool_pages.specs.declared.failing.Failing.{Failing};
ghost use Rattle.pool_run.specs.Built.{is_built};
ghost use Rattle.pool_run.specs.Runs.{with_faults};
ghost use Rattle.pool_view_steps.specs.Shown.{IsUnmade};
ghost use Rattle.pool_view_summary.specs.CostsText.{costs_text};
ghost use Rattle.pool_view_summary.specs.CountsText.{counts_text};
ghost use Rattle.pool_view_summary.specs.Shown.{IsSummary};

use crate::costs_text::push_costs;
use crate::counts_text::push_counts;
use crate::summary::Summary;
use pool_pages::PageMaker;
use pool_run::{Input, RunOutput, run_watched};
use pool_view_steps::{ShowFault, fault_of_run};
use std::alloc::{AllocError, Global};

fn text_of(alloc: Global, summary: &Summary, output: &RunOutput) -> Result<String, AllocError>
    ensures { IfOk result (λ text. string_bytes text ≡ counts_text summary.now.counts ++ costs_text summary.now.costs output.now) }
{
    let mut out = String::new(alloc);
    push_counts(&mut out, &summary.counts)?;
    push_costs(alloc, &mut out, &summary.costs, output)?;
    Ok(out)
}

fn summary_text(alloc: Global, summary: &Summary, output: &RunOutput) -> Result<String, ShowFault>
    ensures ok { IfOk result (λ text. string_bytes text ≡ counts_text summary.now.counts ++ costs_text summary.now.costs output.now) }
    ensures memory { IfErr result (λ fault. fault ≡ ShowFault.Memory) }
{
    match text_of(alloc, summary, output) {
        Ok(text) => Ok(text),
        Err(_) => Err(ShowFault::Memory),
    }
}

/// Runs the input, whose settings break no rule, and sums it up.
pub fn sum_up<M: PageMaker>(
    alloc: Global,
    input: &Input,
    pages: &mut M,
) -> Result<String, ShowFault>
    requires { is_built input.now ≡ true }
    ensures ok { IfOk result (IsSummary (Failing M.Region) input.now (with_faults input.now (M.told pages.old))) }
    ensures unmade { result ≡ Err ShowFault.PageFault → IsUnmade input.now (with_faults input.now (M.told pages.old)) }
{
    let Ok(mut summary) = Summary::new(alloc, input) else {
        return Err(ShowFault::Memory);
    };
    match run_watched(alloc, input, pages, &mut summary) {
        Ok(output) => summary_text(alloc, &summary, &output),
        Err(fault) => Err(fault_of_run(fault)),
    }
}
