//! The lines of what the steps of a run did and cost.
ghost use Rattle.std.specs.Prelude.{◌≡◌, ◌++◌, OnOk, string_bytes};
ghost use Rattle.pool_view_summary.specs.CostsText.{bytes_text, calls_none, costs_text, elements_text, ends_text, flushes_line, is_there, kind_line, kind_numbers, kind_text, kinds_text, number_text, pages_line, pages_text, picks_line, requests_text, resident_at, resident_line, slots_text};

use crate::costs::{Costs, Flushes, Picks};
use crate::counts_text::push_count;
use crate::kinds::{Kinds, OfKind};
use crate::made::calls_since;
use pool_alloc::Metrics;
use pool_pages::PageCalls;
use pool_run::RunOutput;
use pool_view_steps::{CommandKind, push_calls};
use std::alloc::{AllocError, Global};
use std::fmt::Write;

#[tactic(auto, unfolding(crate::specs::CostsText::picks_line))]
fn push_picks(out: &mut String, picks: &Picks) -> Result<(), AllocError>
    ensures { OnOk result (string_bytes out.new ≡ string_bytes out.old ++ picks_line picks.now) }
{
    let cold = picks.cold;
    let warm = picks.warm;
    let affine = picks.affine;
    let full = picks.full;
    write!(
        out,
        "picks cold={cold} warm={warm} affine={affine} full={full}\n"
    )
}

#[tactic(auto, unfolding(crate::specs::CostsText::flushes_line))]
fn push_flushes(out: &mut String, flushes: &Flushes) -> Result<(), AllocError>
    ensures { OnOk result (string_bytes out.new ≡ string_bytes out.old ++ flushes_line flushes.now) }
{
    let count = flushes.count;
    let slots = flushes.slots;
    let most = flushes.most;
    write!(out, "flushes {count} slots={slots} most={most}\n")
}

// The bytes that free slots keep resident, by the numbers of a pool.
fn resident_at(metrics: &Metrics) -> u64
    ensures { result ≡ resident_at metrics.now }
{
    let memories = metrics.unused_memory_bytes_resident as u64;
    let tables = metrics.unused_table_bytes_resident as u64;
    let stacks = match metrics.unused_stack_bytes_resident {
        None => 0,
        Some(bytes) => bytes as u64,
    };
    memories.saturating_add(tables).saturating_add(stacks)
}

#[tactic(auto, unfolding(crate::specs::CostsText::resident_line))]
fn push_resident(out: &mut String, most: u64, end: u64) -> Result<(), AllocError>
    ensures { OnOk result (string_bytes out.new ≡ string_bytes out.old ++ resident_line most end) }
{
    write!(out, "resident most={most} end={end}\n")
}

#[tactic(auto, unfolding(crate::specs::CostsText::slots_text))]
fn push_slots(out: &mut String, costs: &Costs, metrics: &Metrics) -> Result<(), AllocError>
    ensures { OnOk result (string_bytes out.new ≡ string_bytes out.old ++ slots_text costs.now metrics.now) }
{
    push_picks(out, &costs.picks)?;
    push_flushes(out, &costs.flushes)?;
    push_count(out, "longest queue", costs.longest)?;
    push_resident(out, costs.resident, resident_at(metrics))
}

#[tactic(auto, unfolding(crate::specs::CostsText::number_text))]
fn push_number(out: &mut String, number: Option<u64>) -> Result<(), AllocError>
    ensures { OnOk result (string_bytes out.new ≡ string_bytes out.old ++ number_text number) }
{
    match number {
        None => out.push_str("-"),
        Some(number) => write!(out, "{number}"),
    }
}

// Whether no call was made.
fn calls_none(calls: &PageCalls) -> bool
    ensures { result ≡ calls_none calls.now }
{
    calls.expose == 0
        && calls.hide == 0
        && calls.map_image == 0
        && calls.remap_zeros == 0
        && calls.erase == 0
        && calls.recolour == 0
        && calls.decommit == 0
}

// Whether the kind has something to show.
fn is_there(kind: &OfKind) -> bool
    ensures { result ≡ is_there kind.now }
{
    kind.commands > 0 || !calls_none(&kind.calls)
}

#[tactic(auto, unfolding(crate::specs::CostsText::kind_numbers))]
fn push_numbers(out: &mut String, kind: &OfKind) -> Result<(), AllocError>
    ensures { OnOk result (string_bytes out.new ≡ string_bytes out.old ++ kind_numbers kind.now) }
{
    let commands = kind.commands;
    let steps = kind.steps;
    let most = kind.most;
    write!(out, " | {commands} | {steps} | {most} | ")
}

// Adds the line of a kind of commands, which has this word.
#[tactic(auto, unfolding(crate::specs::CostsText::kind_line))]
fn push_line(alloc: Global, out: &mut String, word: &str, kind: &OfKind) -> Result<(), AllocError>
    ensures { OnOk result (string_bytes out.new ≡ string_bytes out.old ++ kind_line word.now kind.now) }
{
    out.push_str(word)?;
    push_numbers(out, kind)?;
    push_number(out, kind.bound)?;
    out.push_str(" | ")?;
    push_calls(alloc, out, &kind.calls)?;
    out.push_str("\n")
}

// Adds the line of a kind, if there is something to show.
#[tactic(auto, unfolding(crate::specs::CostsText::kind_text))]
fn push_kind(
    alloc: Global,
    out: &mut String,
    kind: CommandKind,
    kinds: &Kinds,
) -> Result<(), AllocError>
    ensures { OnOk result (string_bytes out.new ≡ string_bytes out.old ++ kind_text kind kinds.now) }
{
    let entry = kinds.of_kind(kind);
    if !is_there(&entry) {
        return Ok(());
    }
    push_line(alloc, out, kind.name(), &entry)
}

#[tactic(auto, unfolding(crate::specs::CostsText::requests_text))]
fn push_requests(alloc: Global, out: &mut String, kinds: &Kinds) -> Result<(), AllocError>
    ensures { OnOk result (string_bytes out.new ≡ string_bytes out.old ++ requests_text kinds.now) }
{
    push_kind(alloc, out, CommandKind::Instantiate, kinds)?;
    push_kind(alloc, out, CommandKind::Component, kinds)?;
    push_kind(alloc, out, CommandKind::Stack, kinds)?;
    push_kind(alloc, out, CommandKind::Heap, kinds)
}

#[tactic(auto, unfolding(crate::specs::CostsText::bytes_text))]
fn push_bytes(alloc: Global, out: &mut String, kinds: &Kinds) -> Result<(), AllocError>
    ensures { OnOk result (string_bytes out.new ≡ string_bytes out.old ++ bytes_text kinds.now) }
{
    push_kind(alloc, out, CommandKind::Read, kinds)?;
    push_kind(alloc, out, CommandKind::Write, kinds)?;
    push_kind(alloc, out, CommandKind::Fill, kinds)?;
    push_kind(alloc, out, CommandKind::Grow, kinds)?;
    push_kind(alloc, out, CommandKind::Size, kinds)
}

#[tactic(auto, unfolding(crate::specs::CostsText::elements_text))]
fn push_elements(alloc: Global, out: &mut String, kinds: &Kinds) -> Result<(), AllocError>
    ensures { OnOk result (string_bytes out.new ≡ string_bytes out.old ++ elements_text kinds.now) }
{
    push_kind(alloc, out, CommandKind::Get, kinds)?;
    push_kind(alloc, out, CommandKind::Set, kinds)?;
    push_kind(alloc, out, CommandKind::TableFill, kinds)?;
    push_kind(alloc, out, CommandKind::TableGrow, kinds)?;
    push_kind(alloc, out, CommandKind::TableSize, kinds)
}

#[tactic(auto, unfolding(crate::specs::CostsText::ends_text))]
fn push_ends(alloc: Global, out: &mut String, kinds: &Kinds) -> Result<(), AllocError>
    ensures { OnOk result (string_bytes out.new ≡ string_bytes out.old ++ ends_text kinds.now) }
{
    push_kind(alloc, out, CommandKind::Drop, kinds)?;
    push_kind(alloc, out, CommandKind::Purge, kinds)?;
    push_kind(alloc, out, CommandKind::Release, kinds)
}

#[tactic(auto, unfolding(crate::specs::CostsText::kinds_text))]
fn push_kinds(alloc: Global, out: &mut String, kinds: &Kinds) -> Result<(), AllocError>
    ensures { OnOk result (string_bytes out.new ≡ string_bytes out.old ++ kinds_text kinds.now) }
{
    out.push_str("command | commands | steps | most | bound | page calls\n")?;
    push_requests(alloc, out, kinds)?;
    push_bytes(alloc, out, kinds)?;
    push_elements(alloc, out, kinds)?;
    push_ends(alloc, out, kinds)
}

#[tactic(auto, unfolding(crate::specs::CostsText::pages_line))]
fn push_pages_line(
    alloc: Global,
    out: &mut String,
    name: &str,
    calls: &PageCalls,
) -> Result<(), AllocError>
    ensures { OnOk result (string_bytes out.new ≡ string_bytes out.old ++ pages_line name.now calls.now) }
{
    out.push_str(name)?;
    push_calls(alloc, out, calls)?;
    out.push_str("\n")
}

// Adds the page calls of no command, and all.
#[tactic(auto, unfolding(crate::specs::CostsText::pages_text))]
fn push_pages(
    alloc: Global,
    out: &mut String,
    kinds: &Kinds,
    calls: &PageCalls,
) -> Result<(), AllocError>
    ensures { OnOk result (string_bytes out.new ≡ string_bytes out.old ++ pages_text kinds.now calls.now) }
{
    let others = calls_since(*calls, kinds.calls());
    push_pages_line(alloc, out, "page calls as the pool is made | ", &others)?;
    push_pages_line(alloc, out, "page calls in all | ", calls)
}

/// Adds what the steps of a run with this output did and cost.
#[tactic(auto, unfolding(crate::specs::CostsText::costs_text))]
pub fn push_costs(
    alloc: Global,
    out: &mut String,
    costs: &Costs,
    output: &RunOutput,
) -> Result<(), AllocError>
    ensures { OnOk result (string_bytes out.new ≡ string_bytes out.old ++ costs_text costs.now output.now) }
{
    push_slots(out, costs, &output.metrics)?;
    push_kinds(alloc, out, &costs.kinds)?;
    push_pages(alloc, out, &costs.kinds, &output.calls)
}
