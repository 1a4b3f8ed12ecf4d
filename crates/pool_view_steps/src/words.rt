ghost use Rattle.std.specs.Prelude.{◌≡◌, ◌++◌, OnOk, string_bytes};
ghost use Rattle.pool_view_steps.specs.CallsText.{call_with, calls_text, changes_with, dash_if, others_with, spaced};

use crate::part::{counter_name, kind_name};
use crate::stage::Stage;
use crate::step::{Next, Step};
use pool_alloc::CounterName;
use pool_pages::PageCalls;
use pool_run::{Refusal, Reply};
use pool_slots::SlotName;
use std::alloc::{AllocError, Global};
use std::fmt::Write;

// Says something of a slot.
fn push_slot(out: &mut String, name: SlotName, what: &str) -> Result<(), AllocError> {
    let kind = kind_name(name.kind);
    let slot = name.slot;
    write!(out, "{kind} {slot} {what}")
}

// The same, or what is said where the step failed.
fn push_tried(
    out: &mut String,
    step: &Step,
    name: SlotName,
    done: &str,
    failed: &str,
) -> Result<(), AllocError> {
    match step.next {
        Next::Undo => push_slot(out, name, failed),
        _ => push_slot(out, name, done),
    }
}

// A test passed, or ended the call.
fn push_test(
    out: &mut String,
    refused: bool,
    passed: &str,
    failed: &str,
) -> Result<(), AllocError> {
    out.push_str(if refused { failed } else { passed })
}

// A request is counted before it is seen whether there are too many.
fn push_counted(out: &mut String, name: CounterName, step: &Step) -> Result<(), AllocError> {
    let name = counter_name(name);
    match step.next {
        Next::Undo => write!(out, "one more of {name} is counted, which is too many"),
        _ => write!(out, "one more of {name} is counted"),
    }
}

fn push_picked(out: &mut String, step: &Step, none: &str) -> Result<(), AllocError> {
    match step.next {
        Next::Picked(name) => push_slot(out, name, "is picked"),
        _ => out.push_str(none),
    }
}

// What a step of a flush did, or one that goes on to it.
fn push_flush(out: &mut String, step: &Step) -> Result<(), AllocError> {
    match step.look.stage {
        Stage::TakeQueue(_) => match step.next {
            Next::Flush => out.push_str("the queue is taken, to be flushed"),
            _ => out.push_str("the queue is empty"),
        },
        Stage::Merge(_) => match step.next {
            Next::Flush => out.push_str(
                "the slot is queued, and the full queue is taken, to be flushed",
            ),
            _ => out.push_str("the slot is queued"),
        },
        Stage::Decommit => out.push_str("ranges of one slot are decommitted"),
        Stage::Zero(kind) => {
            let kind = kind_name(kind);
            write!(out, "one {kind} is zeroed by hand")
        }
        Stage::PutRegion(name) => push_slot(out, name, "is put back"),
        _ => {
            let freed = step.freed;
            write!(out, "slots freed: {freed}")
        }
    }
}

fn push_reset(out: &mut String, step: &Step, name: SlotName) -> Result<(), AllocError> {
    match step.next {
        Next::Undo => push_slot(out, name, "isn't reset, for a failed page call"),
        Next::Merge => push_slot(out, name, "is reset, to be queued"),
        _ => push_slot(out, name, "is reset, to be flushed"),
    }
}

// What a step on one slot did.
fn push_on_slot(out: &mut String, step: &Step) -> Result<(), AllocError> {
    match step.look.stage {
        Stage::TakeRegion(name) => push_slot(out, name, "is taken"),
        Stage::Erase(name) => push_tried(out, step, name, "is erased", "isn't erased"),
        Stage::Instantiate(name) => {
            push_tried(
                out,
                step,
                name,
                "is prepared",
                "isn't prepared, for a failed page call",
            )
        }
        Stage::MakeMemory(name) => push_tried(out, step, name, "is made", "isn't made"),
        Stage::MakeTable(name) => push_tried(out, step, name, "is made", "isn't made"),
        Stage::TakeHeap(name) => push_slot(out, name, "is taken"),
        Stage::MakeHeap(name) => push_tried(out, step, name, "is made", "isn't made"),
        Stage::PutNoHeap(name) => push_slot(out, name, "is put back, without a heap"),
        Stage::PutBack(name) => push_slot(out, name, "is put back"),
        Stage::PutHeap(name) => push_slot(out, name, "is put back"),
        Stage::Free(name) => push_slot(out, name, "is freed"),
        Stage::Reset(name) => push_reset(out, step, name),
        Stage::PurgeForget(name) => push_slot(out, name, "is rid of the module's image"),
        Stage::ReleaseDecommit(name) => push_slot(out, name, "is decommitted"),
        _ => push_flush(out, step),
    }
}

fn push_at_once(out: &mut String, reply: Option<&Reply>) -> Result<(), AllocError> {
    match reply {
        Some(Reply::Refused(Refusal::NoSuchGrant)) => out.push_str("there is no such grant"),
        _ => out.push_str("done at once"),
    }
}

/// Adds in plain words what the step did.
pub fn push_words(out: &mut String, step: &Step, reply: Option<&Reply>) -> Result<(), AllocError> {
    let refused = matches!(reply, Some(Reply::Refused(_)));
    match step.look.stage {
        Stage::Rest => out.push_str("nothing is left"),
        Stage::AtOnce => push_at_once(out, reply),
        Stage::DrawStripe => out.push_str("the party draws its stripe"),
        Stage::TestModule => push_test(
            out,
            refused,
            "the module passes the rules",
            "the module breaks a rule, or there is no memory",
        ),
        Stage::TestStack => push_test(out, refused, "there are stacks", "there are no stacks"),
        Stage::TestHeap => push_test(
            out,
            refused,
            "the heap passes the rules",
            "the heap breaks a rule",
        ),
        Stage::TestComponent => push_test(
            out,
            refused,
            "the component passes the rules",
            "the component breaks a rule",
        ),
        Stage::CountUp(name) => push_counted(out, name, step),
        Stage::CountDown(name) => {
            let name = counter_name(name);
            write!(out, "one less of {name} is counted")
        }
        Stage::Pick(_) => push_picked(out, step, "no slot is free"),
        Stage::PurgePick => push_picked(out, step, "no free slot has this memory of the module"),
        Stage::Reserve => out.push_str("room is reserved"),
        Stage::TakeWarm => out.push_str("all warm slots are taken"),
        _ => push_on_slot(out, step),
    }
}

// A space, unless nothing is written yet.
#[tactic(auto, unfolding(crate::specs::CallsText::spaced))]
fn push_space(row: &mut String) -> Result<(), AllocError>
    ensures { OnOk result (string_bytes row.new ≡ spaced (string_bytes row.old)) }
{
    if row.is_empty() {
        return Ok(());
    }
    row.push_str(" ")
}

// Adds a number of calls, where there were some.
#[tactic(auto, unfolding(crate::specs::CallsText::call_with))]
fn push_call(row: &mut String, name: &str, count: u64) -> Result<(), AllocError>
    ensures { OnOk result (string_bytes row.new ≡ call_with name.now count (string_bytes row.old)) }
{
    if count == 0 {
        return Ok(());
    }
    push_space(row)?;
    write!(row, "{name}={count}")
}

#[tactic(auto, unfolding(crate::specs::CallsText::changes_with))]
fn push_changes(row: &mut String, calls: &PageCalls) -> Result<(), AllocError>
    ensures { OnOk result (string_bytes row.new ≡ changes_with calls.now (string_bytes row.old)) }
{
    push_call(row, "expose", calls.expose)?;
    push_call(row, "hide", calls.hide)?;
    push_call(row, "map_image", calls.map_image)?;
    push_call(row, "remap_zeros", calls.remap_zeros)
}

#[tactic(auto, unfolding(crate::specs::CallsText::others_with))]
fn push_others(row: &mut String, calls: &PageCalls) -> Result<(), AllocError>
    ensures { OnOk result (string_bytes row.new ≡ others_with calls.now (string_bytes row.old)) }
{
    push_call(row, "erase", calls.erase)?;
    push_call(row, "recolour", calls.recolour)?;
    push_call(row, "decommit", calls.decommit)
}

// Adds a row of calls, or a dash where there is nothing in it.
#[tactic(auto, unfolding(crate::specs::CallsText::dash_if))]
fn push_row(out: &mut String, row: &str) -> Result<(), AllocError>
    ensures { OnOk result (string_bytes out.new ≡ string_bytes out.old ++ dash_if row.now) }
{
    if row.is_empty() {
        return out.push_str("-");
    }
    out.push_str(row)
}

/// Adds the page calls of each kind, or a dash where there were none.
#[tactic(auto, unfolding(crate::specs::CallsText::calls_text))]
pub fn push_calls(alloc: Global, out: &mut String, calls: &PageCalls) -> Result<(), AllocError>
    ensures { OnOk result (string_bytes out.new ≡ string_bytes out.old ++ calls_text calls.now) }
{
    let mut row = String::new(alloc);
    push_changes(&mut row, calls)?;
    push_others(&mut row, calls)?;
    push_row(out, row.as_str())
}
