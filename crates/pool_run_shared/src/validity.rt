ghost use Rattle.std.specs.Prelude.{◌≡◌, ◌<◌, nat_le};
ghost use Rattle.std.specs.List.{list_all};
ghost use Rattle.pool_types.specs.MemoryTypes.{minimum_byte_size};
ghost use Rattle.pool_run_shared.specs.Validity.{is_valid_event, reaches, is_shareable, is_valid_shared_memory, is_valid_shared, most_minimum};

use crate::input::{SharedEvent, SharedInput};
use pool_run::MOST_BYTES;
use pool_types::{MemoryDecl, MemoryType};

/// How many events an input may have.
pub const MOST_EVENTS: usize = 100_000;

/// A waiter is a number below this.
pub const WAITERS: u32 = 65_536;

/// How many bytes a shared memory may begin with.
pub const MOST_MINIMUM: u64 = 4_294_967_296;

fn is_valid_event(event: &SharedEvent) -> bool
    ensures { result ≡ is_valid_event event.now }
{
    match event {
        SharedEvent::Wait32 { waiter, .. }
        | SharedEvent::Wait64 { waiter, .. }
        | SharedEvent::Wake { waiter, .. } => *waiter < WAITERS,
        SharedEvent::Read { len, .. } => *len <= MOST_BYTES,
        SharedEvent::Write { hex, .. } => hex.len() <= MOST_BYTES,
        SharedEvent::Notify { .. } | SharedEvent::Grow { .. } | SharedEvent::Size => true,
    }
}

fn are_valid_events(events: &[SharedEvent]) -> bool
    ensures { result ≡ list_all is_valid_event events.now }
{
    events.iter().all(|event| is_valid_event(event))
}

fn reaches(min: u64, max: Option<u64>) -> bool
    ensures { result ≡ reaches min max }
{
    match max {
        Some(max) => min <= max,
        None => false,
    }
}

fn is_small(ty: &MemoryType) -> bool
    requires { ty.now.page_size_log2 < 64 }
    ensures { result ≡ nat_le (minimum_byte_size ty.now) most_minimum }
{
    match ty.minimum_byte_size() {
        Some(minimum) => minimum <= MOST_MINIMUM,
        None => false,
    }
}

fn is_shareable(ty: &MemoryType) -> bool
    ensures { result ≡ is_shareable ty.now }
{
    (ty.page_size_log2 == 0 || ty.page_size_log2 == 16)
        && reaches(ty.limits.min, ty.limits.max)
        && is_small(ty)
}

fn is_valid_memory(decl: &MemoryDecl) -> bool
    ensures { result ≡ is_valid_shared_memory decl.now }
{
    is_shareable(&decl.ty) && decl.image.is_none()
}

/// Whether the input keeps to its limits: its memory has a maximum that isn't below its minimum, begins with no more than
/// so many bytes and without an image, and there are no more events, waiters and bytes of an event than there may be.
pub fn is_valid_shared(input: &SharedInput) -> bool
    ensures { result ≡ is_valid_shared input.now }
{
    is_valid_memory(&input.memory)
        && input.events.len() <= MOST_EVENTS
        && are_valid_events(input.events.as_slice())
}
