//! The lines of what is counted.
ghost use Rattle.std.specs.Prelude.{◌≡◌, ◌++◌, OnOk, string_bytes};
ghost use Rattle.pool_view_summary.specs.CountsText.{cause_line, count_line, counts_text, fault_causes_text, limit_causes_text, refusals_text, request_causes_text};

use crate::counts::{Counts, Refusals};
use std::alloc::AllocError;
use std::fmt::Write;

/// Adds the line of a count.
#[tactic(auto, unfolding(crate::specs::CountsText::count_line))]
pub fn push_count(out: &mut String, name: &str, number: u64) -> Result<(), AllocError>
    ensures { OnOk result (string_bytes out.new ≡ string_bytes out.old ++ count_line name.now number) }
{
    write!(out, "{name} {number}\n")
}

// Adds the line of a cause for which something was refused.
#[tactic(auto, unfolding(crate::specs::CountsText::cause_line))]
fn push_cause(out: &mut String, name: &str, number: u64) -> Result<(), AllocError>
    ensures { OnOk result (string_bytes out.new ≡ string_bytes out.old ++ cause_line name.now number) }
{
    if number == 0 {
        return Ok(());
    }
    push_count(out, name, number)
}

#[tactic(auto, unfolding(crate::specs::CountsText::request_causes_text))]
fn push_request_causes(out: &mut String, refusals: &Refusals) -> Result<(), AllocError>
    ensures { OnOk result (string_bytes out.new ≡ string_bytes out.old ++ request_causes_text refusals.now) }
{
    push_cause(out, "refused NoSuchGrant", refusals.no_such_grant)?;
    push_cause(out, "refused NoMemory", refusals.no_memory)?;
    push_cause(out, "refused Unsupported", refusals.unsupported)?;
    push_cause(out, "refused PoolConcurrencyLimitError", refusals.limit)
}

#[tactic(auto, unfolding(crate::specs::CountsText::limit_causes_text))]
fn push_limit_causes(out: &mut String, refusals: &Refusals) -> Result<(), AllocError>
    ensures { OnOk result (string_bytes out.new ≡ string_bytes out.old ++ limit_causes_text refusals.now) }
{
    push_cause(out, "refused StacksDisabled", refusals.stacks_disabled)?;
    push_cause(out, "refused HeapsDisabled", refusals.heaps_disabled)?;
    push_cause(out, "refused LimiterDenied", refusals.limiter_denied)?;
    push_cause(out, "refused LimiterFault", refusals.limiter_fault)
}

#[tactic(auto, unfolding(crate::specs::CountsText::fault_causes_text))]
fn push_fault_causes(out: &mut String, refusals: &Refusals) -> Result<(), AllocError>
    ensures { OnOk result (string_bytes out.new ≡ string_bytes out.old ++ fault_causes_text refusals.now) }
{
    push_cause(out, "refused PageFault", refusals.page_fault)?;
    push_cause(out, "refused HeapFault", refusals.heap_fault)?;
    push_cause(out, "refused GcStoreFault", refusals.gc_store_fault)
}

#[tactic(auto, unfolding(crate::specs::CountsText::refusals_text))]
fn push_refusals(out: &mut String, refusals: &Refusals) -> Result<(), AllocError>
    ensures { OnOk result (string_bytes out.new ≡ string_bytes out.old ++ refusals_text refusals.now) }
{
    push_request_causes(out, refusals)?;
    push_limit_causes(out, refusals)?;
    push_fault_causes(out, refusals)
}

/// Adds the lines of what is counted.
#[tactic(auto, unfolding(crate::specs::CountsText::counts_text))]
pub fn push_counts(out: &mut String, counts: &Counts) -> Result<(), AllocError>
    ensures { OnOk result (string_bytes out.new ≡ string_bytes out.old ++ counts_text counts.now) }
{
    push_count(out, "steps", counts.steps)?;
    push_count(out, "requests", counts.requests)?;
    push_refusals(out, &counts.refusals)
}
