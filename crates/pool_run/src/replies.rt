ghost use Rattle.std.specs.Prelude.{◌≡◌};
ghost use Rattle.pool_run.specs.AtOnce.{write_reply, growth_reply, element_reply, fill_reply};

use crate::reply::{Refusal, Reply};
use pool_alloc::Element;
use pool_limits::{GrowFault, Trap};
use pool_slots::AllocError as Cause;
use pool_table::GcTableError;

/// The reply to a write or a fill of bytes with this answer.
pub fn write_reply(answer: Result<(), Trap>) -> Reply
    ensures { result ≡ write_reply answer }
{
    match answer {
        Ok(()) => Reply::Done,
        Err(trap) => Reply::Trap(trap),
    }
}

/// The reply to a growth with this answer: the size before it, of a memory in bytes, of a table in elements, or None where
/// it may not grow. Want of memory and a fault of the limiter are refusals.
pub fn growth_reply(answer: Result<Option<usize>, GrowFault>) -> Reply
    ensures { result ≡ growth_reply answer }
{
    match answer {
        Ok(None) => Reply::Grown(None),
        Ok(Some(size)) => Reply::Grown(Some(size as u64)),
        Err(GrowFault::Memory) => Reply::Refused(Refusal::Alloc(Cause::Memory)),
        Err(GrowFault::LimiterFault(e)) => Reply::Refused(Refusal::Alloc(Cause::LimiterFault(e))),
    }
}

/// The reply to a look at an element with this answer.
pub fn element_reply(answer: Result<Element, Trap>) -> Reply
    ensures { result ≡ element_reply answer }
{
    match answer {
        Ok(element) => Reply::Element(element),
        Err(trap) => Reply::Trap(trap),
    }
}

/// The reply to a fill of elements with this answer. A call on the store that failed is a refusal.
pub fn fill_reply(answer: Result<(), GcTableError>) -> Reply
    ensures { result ≡ fill_reply answer }
{
    match answer {
        Ok(()) => Reply::Done,
        Err(GcTableError::Trap(trap)) => Reply::Trap(trap),
        Err(GcTableError::GcStoreFault) => Reply::Refused(Refusal::GcStoreFault),
    }
}
