ghost use Rattle.std.specs.Prelude.{◌≡◌};
ghost use Rattle.pool_limits.specs.Growth.{failure_by};
ghost use Rattle.pool_limits.specs.LimiterTold.{after_report};
ghost use Rattle.pool_limits.specs.Exchanges.{has_failed};
ghost use Rattle.pool_limits.specs.Growing.{IsReported, is_want_of_memory, report_result};

use crate::errors::{GrowError, GrowFault, LimiterError};
use crate::resource_limiter::ResourceLimiter;

/// What may grow. Its size is in bytes for a memory, and in elements for a table.
#[derive(Clone, Copy, Debug, PartialEq, Eq)]
pub enum Growable {
    Memory,
    Table,
}

/// Tells the limiter of a growth that failed, and answers what the growth answers then: `Memory` where no memory was to be
/// had, whatever the limiter says to that; else `LimiterFault` where the limiter makes an error of the failure, or None.
pub fn report_failure<R: ResourceLimiter, X>(
    limiter: &mut R,
    what: Growable,
    error: GrowError,
) -> Result<Option<X>, GrowFault>
    ensures { IsReported R.told R.leads what error limiter.old limiter.new result }
{
    let answer = report(limiter, what, error);
    ungrown(error, answer)
}

// The limiter's answer to the report.
fn report<R: ResourceLimiter>(
    limiter: &mut R,
    what: Growable,
    error: GrowError,
) -> Result<(), LimiterError>
    ensures answer { result ≡ failure_by what (R.told limiter.old).rule result }
    ensures limiter { R.told limiter.new ≡ after_report result (R.told limiter.old) }
    ensures exchange { R.leads limiter.old (has_failed what error result) limiter.new }
{
    match what {
        Growable::Memory => limiter.memory_grow_failed(error),
        Growable::Table => limiter.table_grow_failed(error),
    }
}

// What a growth answers that failed and was reported.
fn ungrown<X>(error: GrowError, answer: Result<(), LimiterError>) -> Result<Option<X>, GrowFault>
    ensures { result ≡ report_result (is_want_of_memory error) answer }
{
    match error {
        GrowError::Memory => Err(GrowFault::Memory),
        GrowError::TypeLimit
        | GrowError::MaximumExceeded
        | GrowError::PageFault
        | GrowError::Overflow => match answer {
            Err(error) => Err(GrowFault::LimiterFault(error)),
            Ok(()) => Ok(None),
        },
    }
}
