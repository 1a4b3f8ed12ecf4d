ghost use Rattle.pool_slots.specs.Slabs.{IsLayout};

use crate::bounds::{Sizes, sizes_of};
use crate::plan::{Settings, plan_of, region_bytes, slab_of};
use crate::settings::push_all_settings;
use pool_slots::{Allocator, Plan, SlabLayout};
use pool_types::{ModuleInfo, PageSize};
use serde_json::Value;
use std::alloc::{AllocError, Global};
use std::fmt::Write;

/// How many there are, with the word for one or for more.
fn push_count(out: &mut String, count: u64, one: &str, more: &str) -> Result<(), AllocError> {
    if count == 1 {
        write!(out, "1 {one}")
    } else {
        write!(out, "{count} {more}")
    }
}

/// Adds how the slots of an allocator are split.
fn push_allocator(out: &mut String, allocator: &Allocator) -> Result<(), AllocError> {
    push_count(out, allocator.capacity as u64, "slot", "slots")?;
    out.push_str(" in ")?;
    push_count(out, allocator.shards as u64, "shard", "shards")?;
    if allocator.shards < 2 {
        return Ok(());
    }
    let each = allocator.slots_per_shard;
    write!(out, " of {each}, the last with the rest")
}

/// Adds the allocator of each stripe of memories.
fn push_stripes(out: &mut String, stripes: &[Allocator], warm: u32) -> Result<(), AllocError> {
    for (at, stripe) in stripes.iter().enumerate() {
        write!(out, "  stripe {at}: ")?;
        push_allocator(out, stripe)?;
        write!(out, ", warm budget {warm}\n")?;
    }
    Ok(())
}

/// Adds the allocators of slots of another kind.
fn push_kind(out: &mut String, name: &str, allocators: &[Allocator]) -> Result<(), AllocError> {
    write!(out, "{name}: ")?;
    match allocators {
        [] => out.push_str("none")?,
        [first, ..] => push_allocator(out, first)?,
    }
    out.push_str("\n")
}

fn push_slots(out: &mut String, plan: &Plan, warm: u32) -> Result<(), AllocError> {
    let memories = plan.memories.as_slice();
    out.push_str("memories: ")?;
    push_count(out, plan.totals.memory as u64, "slot", "slots")?;
    out.push_str(" in ")?;
    push_count(out, memories.len() as u64, "stripe", "stripes")?;
    out.push_str("\n")?;
    push_stripes(out, memories, warm)?;
    push_kind(out, "tables", plan.tables.as_slice())?;
    push_kind(out, "stacks", plan.stacks.as_slice())?;
    push_kind(out, "heaps", plan.heaps.as_slice())
}

fn push_queues(out: &mut String, queues: u32, batch: usize) -> Result<(), AllocError> {
    out.push_str("queues: ")?;
    push_count(out, queues as u64, "decommit queue", "decommit queues")?;
    out.push_str(", flushed at ")?;
    push_count(out, batch as u64, "range", "ranges")?;
    out.push_str("\n")
}

fn push_slab(out: &mut String, slab: &SlabLayout) -> Result<(), AllocError>
    requires { IsLayout slab.now }
{
    let before = slab.pre_slab_guard_bytes.byte_count();
    let behind = slab.post_slab_guard_bytes.byte_count();
    let slot = slab.slot_bytes.byte_count();
    let slots = slab.num_slots;
    let all = slab.total_slab_bytes().byte_count();
    write!(
        out,
        "slab: {all} bytes of addresses: {before} before, {slots} times {slot}, {behind} behind\n"
    )
}

fn push_regions(
    out: &mut String,
    settings: &Settings<'_>,
    page: PageSize,
) -> Result<(), AllocError> {
    let Some(regions) = region_bytes(settings, page) else {
        return out.push_str("regions: more bytes than can be addressed\n");
    };
    let memories = regions.memories;
    let tables = regions.tables;
    let stacks = regions.stacks;
    write!(
        out,
        "regions: {memories} bytes of memories, {tables} of tables, {stacks} of stacks\n"
    )
}

/// Adds what a call is, and at most how many steps it makes.
fn push_bound(out: &mut String, call: &str, steps: u64) -> Result<(), AllocError> {
    write!(out, "  {call}: {steps}\n")
}

/// Adds the bounds of an instance of a module, and of its end.
fn push_module_bounds(
    out: &mut String,
    sizes: &Sizes,
    at: usize,
    module: &ModuleInfo,
) -> Result<(), AllocError> {
    let memories = module.memories.len() as u64;
    let tables = module.tables.len() as u64;
    let objects = memories.saturating_add(tables);
    let makes = sizes.instance(objects);
    let ends = sizes.give_back_all(objects);
    write!(out, "  instantiate of module {at} (")?;
    push_count(out, memories, "memory", "memories")?;
    out.push_str(", ")?;
    push_count(out, tables, "table", "tables")?;
    write!(out, "): {makes}, drop of it: {ends}\n")
}

fn push_bounds(
    out: &mut String,
    sizes: &Sizes,
    modules: &[ModuleInfo],
    plan: &Plan,
) -> Result<(), AllocError> {
    let stripes = plan.memories.as_slice();
    out.push_str("steps at most (the first command of a party makes one more):\n")?;
    for (at, module) in modules.iter().enumerate() {
        push_module_bounds(out, sizes, at, module)?;
    }
    push_bound(out, "component", 3)?;
    push_bound(out, "drop of a component", 1)?;
    push_bound(out, "stack", sizes.stack())?;
    push_bound(out, "drop of a stack", sizes.give_back_all(1))?;
    push_bound(out, "heap", sizes.heap())?;
    push_bound(out, "drop of a heap", sizes.give_back_all(2))?;
    push_bound(out, "purge", sizes.purge(stripes))?;
    push_bound(out, "release", sizes.release(stripes))?;
    push_bound(out, "any other command", 1)
}

/// Adds what follows from the settings.
fn push_consequences(
    alloc: Global,
    out: &mut String,
    settings: &Settings<'_>,
    modules: &[ModuleInfo],
    page: PageSize,
    slab: &SlabLayout,
) -> Result<(), AllocError>
    requires { IsLayout slab.now }
{
    let Ok(stripes) = u32::try_from(slab.num_stripes) else {
        return Err(AllocError);
    };
    let plan = plan_of(alloc, settings, stripes.max(1))?;
    push_slots(out, &plan, settings.config.max_unused_warm_slots)?;
    push_queues(out, plan.queues, settings.config.decommit_batch_size)?;
    push_slab(out, slab)?;
    push_regions(out, settings, page)?;
    let sizes = sizes_of(&plan, settings.config.limits.max_memories_per_module);
    push_bounds(out, &sizes, modules, &plan)
}

/// All settings of an input, and what follows from them and from its modules. The settings break no rule, and the value is
/// the input.
pub fn explained(
    alloc: Global,
    settings: &Settings<'_>,
    modules: &[ModuleInfo],
    value: &Value,
) -> Result<String, AllocError> {
    let mut out = String::new(alloc);
    push_all_settings(&mut out, settings, value)?;
    out.push_str("\n")?;
    let Ok(page) = PageSize::new(settings.page) else {
        return Ok(out);
    };
    match slab_of(settings, page) {
        Some(slab) => push_consequences(alloc, &mut out, settings, modules, page, &slab)?,
        None => out.push_str("the memories leave the address space\n")?,
    }
    Ok(out)
}
