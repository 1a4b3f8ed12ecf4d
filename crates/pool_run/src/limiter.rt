ghost use Rattle.std.specs.Prelude.{◌≡◌, None};
ghost use Rattle.pool_run.specs.PartyRules.{growth_of};

use crate::input::PartyLimits;
use pool_limits::{StoreLimits, StoreLimitsBuilder};

// The limits with this one on the elements of a table, where there is one.
fn with_elements(limits: StoreLimitsBuilder, most: Option<usize>) -> StoreLimitsBuilder
    requires { limits.growth.table_elements ≡ None }
    ensures { result ≡ record limits { growth = record limits.growth { table_elements = most } } }
{
    match most {
        None => limits,
        Some(most) => limits.table_elements(most),
    }
}

/// The limiter of a party with these limits.
pub fn limiter_of(limits: PartyLimits) -> StoreLimits
    ensures { result.growth ≡ growth_of limits }
{
    let limiter = StoreLimitsBuilder::new().trap_on_grow_failure(limits.trap_on_grow_failure);
    let limiter = with_elements(limiter, limits.table_elements);
    match limits.memory_size {
        None => limiter.build(),
        Some(size) => limiter.memory_size(size).build(),
    }
}
