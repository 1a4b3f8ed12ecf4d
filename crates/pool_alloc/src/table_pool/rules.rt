//! Which tables are refused, whatever is live.
ghost use Rattle.std.specs.Prelude.{◌≡◌, ◌<◌, ◌^◌, length, Some};
ghost use Rattle.std.specs.Option.{option_or};
ghost use Rattle.pool_types.specs.MemoryTypes.{refused_limits};
ghost use Rattle.pool_alloc.specs.Refusals.{first_refused, tables_refused, table_types_refused, long_table};

use crate::pool_core::Settings;
use pool_types::{TableType, Unsupported};

/// The first rule that the tables of a module break by themselves, in a pool with `total` slots for tables.
pub fn table_types_refused(
    settings: &Settings,
    total: u32,
    tables: &[TableType],
) -> Option<Unsupported>
    ensures { result ≡ table_types_refused settings.now total tables.now }
{
    if let Some(rule) = table_limits_refused(tables) {
        return Some(rule);
    }
    tables_broken(settings, total, tables)
}

/// The refusal of the first table of which the minimum exceeds the maximum.
#[tactic(auto, using(crate::proofs::Refusals::refused_here, crate::proofs::Refusals::refused_later, crate::proofs::Refusals::refused_nowhere))]
pub fn table_limits_refused(tables: &[TableType]) -> Option<Unsupported>
    ensures { result ≡ first_refused (λ ty. refused_limits ty.limits) tables.now }
{
    for ty in tables {
        if let Err(rule) = ty.check() {
            return Some(rule);
        }
    }
    None
}

/// The refusal of so many tables of an instance, in a pool that has `total`.
pub(crate) fn tables_refused(settings: &Settings, total: u32, count: usize) -> Option<Unsupported>
    ensures { result ≡ tables_refused settings.now total count }
{
    let limit = settings.max_tables_per_module;
    if count > limit as usize {
        return Some(Unsupported::TablesPerModule { count, limit });
    }
    if count > total as usize {
        Some(Unsupported::TotalTables {
            count,
            limit: total,
        })
    } else {
        None
    }
}

/// The refusal of the first table that begins with more elements than a table may have.
#[tactic(auto, using(crate::proofs::TableRules::long_here, crate::proofs::TableRules::long_later, crate::proofs::TableRules::long_nowhere))]
pub(crate) fn long_table(settings: &Settings, tables: &[TableType]) -> Option<Unsupported>
    requires { length tables.now < 2 ^ 32 }
    ensures { result ≡ long_table settings.now 0 tables.now }
{
    let limit = settings.table_elements;
    for (index, ty) in tables.iter().enumerate() {
        let min = ty.limits.min;
        if min > limit as u64 {
            return Some(Unsupported::TableExceedsSlot {
                index: index as u32,
                min,
                limit,
            });
        }
    }
    None
}

// The rules on tables that are tested last.
pub(crate) fn tables_broken(
    settings: &Settings,
    total: u32,
    tables: &[TableType],
) -> Option<Unsupported>
    ensures { result ≡ option_or (tables_refused settings.now total (length tables.now)) (long_table settings.now 0 tables.now) }
{
    if let Some(rule) = tables_refused(settings, total, tables.len()) {
        return Some(rule);
    }
    long_table(settings, tables)
}
