ghost use Rattle.std.specs.Prelude.{[], ◌∷◌, ◌≡◌, ◌≤◌, ◌*◌, ◌-◌, ◌^◌, nat_lt, true, Some, None, Ok, IfOk, replicate};
ghost use Rattle.std.specs.Option.{option_copied_mut};
ghost use Rattle.pool_limits.specs.Growth.{table_answer};
ghost use Rattle.pool_limits.specs.LimiterTold.{after_answer, limiter_told, option_left};
ghost use Rattle.pool_limits.specs.Exchanges.{may_grow, IfExchanged};
ghost use Rattle.pool_table.specs.Elements.{empty, element_size};
ghost use Rattle.pool_table.specs.Tables.{type_maximum};
ghost use Rattle.pool_table.specs.TableStates.{table_view, element_type_of, listed_table, listed_type};
ghost use Rattle.pool_table.specs.Making.{kind_of, making_question, listing_answer, MakesList, MakesDynamic};

use crate::dynamic_elements::DynamicElements;
use crate::dynamic_table::DynamicTable;
use crate::element::ElementSize;
use crate::element_rule::{ContRule, FuncRule, GcRefRule};
use crate::table::Table;
use crate::table_error::TableError;
use pool_limits::{LimiterError, ResourceLimiter, Unlimited};
use pool_pages::Pages;
use pool_types::{IndexType, TableElementType, TableType, Tunables, Unsupported};
use std::alloc::{AllocError, Global};

impl<P: Pages> Table<P> {
    /// The table of this type in a list of its own. The limiter is asked first; then a minimum is refused whose bytes leave
    /// the address space; then memory is taken. A minimum above the type's maximum, which a limiter may allow, is the
    /// table's maximum.
    pub fn new_dynamic<R: ResourceLimiter>(
        alloc: Global,
        ty: &TableType,
        tunables: &Tunables,
        limiter: Option<&mut R>,
    ) -> Result<Table<P>, TableError>
        ensures value { MakesDynamic (listing_answer result) ty.now tunables.now.table_lazy_init result }
        ensures asked { listing_answer result ≡ table_answer (limiter_told R.told (option_copied_mut limiter.entry)).rule (listing_answer result) ty.now.limits.min (Some (type_maximum ty.now)) }
        ensures limiter { limiter_told R.told (option_left limiter.exit) ≡ after_answer (listing_answer result) (limiter_told R.told (option_copied_mut limiter.entry)) }
        ensures exchange { IfExchanged R.leads (may_grow (making_question ty.now) (listing_answer result) ∷ []) (option_copied_mut limiter.entry) (option_left limiter.exit) }
    {
        let lazy = tunables.table_lazy_init;
        match limiter {
            Some(limiter) => make_dynamic(alloc, ty, lazy, limiter),
            None => make_dynamic(alloc, ty, lazy, &mut Unlimited),
        }
    }
}

// The same with a limiter.
fn make_dynamic<P: Pages, R: ResourceLimiter>(
    alloc: Global,
    ty: &TableType,
    lazy: bool,
    limiter: &mut R,
) -> Result<Table<P>, TableError>
    ensures value { MakesDynamic (listing_answer result) ty.now lazy result }
    ensures asked { listing_answer result ≡ table_answer (R.told limiter.old).rule (listing_answer result) ty.now.limits.min (Some (type_maximum ty.now)) }
    ensures limiter { R.told limiter.new ≡ after_answer (listing_answer result) (R.told limiter.old) }
    ensures exchange { R.leads limiter.old (may_grow (making_question ty.now) (listing_answer result)) limiter.new }
{
    let min = ty.limits.min as usize;
    let answer = limiter.table_growing(0, min, Some(type_maximum(ty) as usize));
    list_answered(alloc, answer, ty, lazy)
}

// The table where the limiter gave this answer.
fn list_answered<P: Pages>(
    alloc: Global,
    answer: Result<bool, LimiterError>,
    ty: &TableType,
    lazy: bool,
) -> Result<Table<P>, TableError>
    ensures value { MakesDynamic answer ty.now lazy result }
    ensures told { listing_answer result ≡ answer }
{
    match answer {
        Err(error) => Err(TableError::LimiterFault(error)),
        Ok(false) => {
            let min = ty.limits.min;
            Err(TableError::LimiterDenied { min })
        }
        Ok(true) => list_within(alloc, ty, lazy),
    }
}

// The table, unless its bytes leave the address space.
fn list_within<P: Pages>(alloc: Global, ty: &TableType, lazy: bool) -> Result<Table<P>, TableError>
    ensures value { MakesList (nat_lt (2 ^ 64 - 1) (ty.now.limits.min * element_size ty.now.element)) ty.now lazy result }
    ensures told { listing_answer result ≡ Ok true }
{
    let min = ty.limits.min as usize;
    if min.checked_mul(ty.element.element_size()).is_none() {
        return Err(TableError::Unsupported(Unsupported::AddressSpace));
    }
    let maximum = ty.limits.min.max(type_maximum(ty)) as usize;
    match empty_list(alloc, ty.element, lazy, min, maximum) {
        Ok(table) => Ok(Table::from(table)),
        Err(_) => Err(TableError::Memory),
    }
}

fn empty_list(
    alloc: Global,
    element: TableElementType,
    lazy: bool,
    size: usize,
    maximum: usize,
) -> Result<DynamicTable, AllocError>
    requires { size ≤ maximum }
    ensures element_type { IfOk result (λ t. listed_type t ≡ element) }
    ensures table { IfOk result (λ t. listed_table t ≡ record { kind = kind_of element lazy; maximum = maximum; elements = replicate size (empty (kind_of element lazy)) }) }
{
    match element {
        TableElementType::Func => {
            let table = DynamicElements::new(alloc, FuncRule { lazy }, size, maximum)?;
            Ok(DynamicTable::from(table))
        }
        TableElementType::GcRef => {
            let table = DynamicElements::new(alloc, GcRefRule, size, maximum)?;
            Ok(DynamicTable::from(table))
        }
        TableElementType::Cont => {
            let table = DynamicElements::new(alloc, ContRule, size, maximum)?;
            Ok(DynamicTable::from(table))
        }
    }
}

// The greatest size that the type allows.
pub(crate) fn type_maximum(ty: &TableType) -> u64
    ensures { result ≡ type_maximum ty.now }
{
    match (ty.limits.max, ty.idx_type) {
        (Some(most), _) => most,
        (None, IndexType::I32) => u32::MAX as u64,
        (None, IndexType::I64) => u64::MAX,
    }
}
