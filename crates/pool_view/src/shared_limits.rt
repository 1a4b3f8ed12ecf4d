use crate::limits::{walk_bytes, walk_length};
use pool_run_shared::{MOST_EVENTS, MOST_MINIMUM, SharedEvent, SharedInput, WAITERS};
use pool_types::MemoryDecl;
use pool_view_forms::{Step, Stop, Walk, within};
use std::alloc::Global;

fn walk_waiter(alloc: Global, waiter: u32) -> Walk {
    if waiter < WAITERS {
        return Ok(());
    }
    let greatest = WAITERS - 1;
    let cause = format!(in alloc; "{waiter} is too large; the greatest is {greatest}")?;
    Err(Stop::at(alloc, "waiter", cause))
}

fn walk_event(alloc: Global, event: &SharedEvent) -> Walk {
    match event {
        SharedEvent::Wait32 { waiter, .. }
        | SharedEvent::Wait64 { waiter, .. }
        | SharedEvent::Wake { waiter, .. } => walk_waiter(alloc, *waiter),
        SharedEvent::Read { len, .. } => walk_bytes(alloc, "len", *len),
        SharedEvent::Write { hex, .. } => walk_bytes(alloc, "hex", hex.len()),
        SharedEvent::Notify { .. } | SharedEvent::Grow { .. } | SharedEvent::Size => Ok(()),
    }
}

fn walk_events(alloc: Global, events: &[SharedEvent]) -> Walk {
    for (at, event) in events.iter().enumerate() {
        within(alloc, Step::Item(at), walk_event(alloc, event))?;
    }
    Ok(())
}

/// Stops where a shared memory has no maximum, or one below its minimum.
fn walk_maximum(alloc: Global, min: u64, max: Option<u64>) -> Walk {
    let cause = match max {
        None => String::from_str(alloc, "missing; a shared memory has a maximum")?,
        Some(max) if max < min => format!(in alloc; "{max} is below min, which is {min}")?,
        Some(_) => return Ok(()),
    };
    Err(Stop::at(alloc, "max", cause))
}

/// Stops where a shared memory begins with more bytes than it may.
fn walk_minimum(alloc: Global, memory: &MemoryDecl) -> Walk {
    let pages = memory.ty.limits.min;
    let bytes = if memory.ty.page_size_log2 == 0 {
        pages
    } else {
        pages.saturating_mul(65_536)
    };
    if bytes <= MOST_MINIMUM {
        return Ok(());
    }
    let cause = format!(in alloc;
        "a shared memory begins with at most {MOST_MINIMUM} bytes, and this is {pages} pages"
    )?;
    Err(Stop::at(alloc, "min", cause))
}

fn walk_memory(alloc: Global, memory: &MemoryDecl) -> Walk {
    walk_maximum(alloc, memory.ty.limits.min, memory.ty.limits.max)?;
    walk_minimum(alloc, memory)?;
    if memory.image.is_none() {
        return Ok(());
    }
    let cause = String::from_str(alloc, "a shared memory has no image; leave it out")?;
    Err(Stop::at(alloc, "image", cause))
}

/// Stops at the first thing for which the input of events isn't valid.
pub fn walk_shared_input(alloc: Global, input: &SharedInput) -> Walk {
    within(
        alloc,
        Step::Field("memory"),
        walk_memory(alloc, &input.memory),
    )?;
    walk_length(alloc, "events", input.events.len(), MOST_EVENTS)?;
    within(
        alloc,
        Step::Field("events"),
        walk_events(alloc, input.events.as_slice()),
    )
}
