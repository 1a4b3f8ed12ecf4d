use pool_types::{BadConfig, ConfigField};
use pool_view_forms::Problem;
use std::alloc::{AllocError, Global};

/// The field that a rule is about, and the first of them where they are several.
fn place_of(alloc: Global, rule: BadConfig) -> Result<String, AllocError> {
    match rule {
        BadConfig::PageSize { .. } => String::from_str(alloc, "page"),
        BadConfig::Shards { .. } => String::from_str(alloc, "shards"),
        BadConfig::DecommitBatch { .. } => String::from_str(alloc, "config.decommit_batch_size"),
        BadConfig::TooGreat { field, .. } => place_of_field(alloc, field),
        BadConfig::Reservation { .. } => String::from_str(alloc, "config.max_memory_size"),
        BadConfig::KeysNotOffered => String::from_str(alloc, "config.memory_protection_keys"),
        BadConfig::SlabArithmetic => String::from_str(alloc, "tunables.memory_reservation"),
        BadConfig::TableArithmetic => String::from_str(alloc, "config.table_elements"),
        BadConfig::CollectorPair { tunable } => { format!(in alloc; "tunables.gc_heap_{tunable}") }
        BadConfig::StackArithmetic => String::from_str(alloc, "config.stack_size"),
        BadConfig::DirtyPagesNotOffered => String::from_str(alloc, "config.pagemap_scan"),
        BadConfig::Regions { .. } => String::from_str(alloc, "config"),
    }
}

fn place_of_field(alloc: Global, field: ConfigField) -> Result<String, AllocError> {
    match field {
        ConfigField::OfferedKeys => String::from_str(alloc, "offered.keys"),
        _ => format!(in alloc; "config.{field}"),
    }
}

/// What to do, where the rule's text doesn't say it.
fn advice_of(rule: BadConfig) -> &'static str {
    match rule {
        BadConfig::Reservation { .. } => "; lower it, or raise tunables.memory_reservation",
        BadConfig::KeysNotOffered =>
            "; say in offered.keys how many keys there are, or write \"auto\"",
        BadConfig::SlabArithmetic => {
            "; lower it, tunables.memory_guard_size or config.total_memories"
        }
        BadConfig::TableArithmetic => "; lower it or config.total_tables",
        BadConfig::CollectorPair { .. } => "; leave it out, and it is the same",
        BadConfig::StackArithmetic => "; lower it or config.total_stacks",
        BadConfig::DirtyPagesNotOffered => "; set offered.dirty_pages, or write \"auto\"",
        BadConfig::Regions { .. } => {
            "; lower total_memories, max_memory_size, total_tables, table_elements, total_stacks or stack_size"
        }
        _ => "",
    }
}

/// The problem of settings that break a rule.
pub fn problem_of_rule(alloc: Global, rule: BadConfig) -> Result<Problem, AllocError> {
    let place = place_of(alloc, rule)?;
    let advice = advice_of(rule);
    let cause = format!(in alloc; "{rule}{advice}")?;
    Ok(Problem { place, cause })
}
