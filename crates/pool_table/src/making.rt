ghost use Rattle.std.specs.Prelude.{[], ◌∷◌, ◌≡◌, ◌<◌, ◌≤◌, Some, true, nat_lt, IfSome, Ok};
ghost use Rattle.std.specs.Option.{option_copied_mut};
ghost use Rattle.pool_limits.specs.Growth.{table_answer};
ghost use Rattle.pool_limits.specs.LimiterTold.{after_answer, limiter_told, option_left};
ghost use Rattle.pool_limits.specs.Exchanges.{may_grow, IfExchanged};
ghost use Rattle.pool_table.specs.Tables.{IsTable, IsRoom, type_maximum};
ghost use Rattle.pool_table.specs.Views.{in_region};
ghost use Rattle.pool_table.specs.TableStates.{table_view, element_type_of, IsStatic};
ghost use Rattle.pool_table.specs.Making.{kind_of, room_of, making_question, making_answer, MakesWithin, MakesTable, MadeRegionsHaveRoom};

use crate::element::ElementSize;
use crate::element_rule::{ContRule, FuncRule, GcRefRule};
use crate::listing::type_maximum;
use crate::static_elements::StaticElements;
use crate::table::Table;
use crate::table_error::TableError;
use pool_limits::{LimiterError, ResourceLimiter, Unlimited};
use pool_pages::Pages;
use pool_types::{TableElementType, TableType, Tunables, Unsupported};

impl<P: Pages> Table<P> {
    /// The table of this type over the first `data_bytes` bytes of a region, which can be reached and are zeros. The
    /// limiter is asked first; then a minimum is refused that exceeds the room. The region is handed back with a refusal.
    /// Takes no memory.
    pub fn new_static<R: ResourceLimiter>(
        ty: &TableType,
        tunables: &Tunables,
        region: P,
        data_bytes: usize,
        limiter: Option<&mut R>,
    ) -> Result<Table<P>, (P, TableError)>
        requires limits { ty.now.limits.min ≤ room_of ty.now data_bytes → ty.now.limits.min ≤ type_maximum ty.now }
        requires inside { data_bytes ≤ (P.told region).len }
        requires zeros { IfSome (P.told region).contents (IsRoom (P.told region).page (P.told region).len 0 data_bytes) }
        ensures value { MakesTable (making_answer result) P.told ty.now tunables.now.table_lazy_init data_bytes region result }
        ensures asked { making_answer result ≡ table_answer (limiter_told R.told (option_copied_mut limiter.entry)).rule (making_answer result) ty.now.limits.min (Some (type_maximum ty.now)) }
        ensures limiter { limiter_told R.told (option_left limiter.exit) ≡ after_answer (making_answer result) (limiter_told R.told (option_copied_mut limiter.entry)) }
        ensures exchange { IfExchanged R.leads (may_grow (making_question ty.now) (making_answer result) ∷ []) (option_copied_mut limiter.entry) (option_left limiter.exit) }
    {
        let lazy = tunables.table_lazy_init;
        match limiter {
            Some(limiter) => make_static(ty, lazy, region, data_bytes, limiter),
            None => make_static(ty, lazy, region, data_bytes, &mut Unlimited),
        }
    }
}

// The same with a limiter.
fn make_static<P: Pages, R: ResourceLimiter>(
    ty: &TableType,
    lazy: bool,
    region: P,
    data_bytes: usize,
    limiter: &mut R,
) -> Result<Table<P>, (P, TableError)>
    requires limits { ty.now.limits.min ≤ room_of ty.now data_bytes → ty.now.limits.min ≤ type_maximum ty.now }
    requires inside { data_bytes ≤ (P.told region).len }
    requires zeros { IfSome (P.told region).contents (IsRoom (P.told region).page (P.told region).len 0 data_bytes) }
    ensures value { MakesTable (making_answer result) P.told ty.now lazy data_bytes region result }
    ensures asked { making_answer result ≡ table_answer (R.told limiter.old).rule (making_answer result) ty.now.limits.min (Some (type_maximum ty.now)) }
    ensures limiter { R.told limiter.new ≡ after_answer (making_answer result) (R.told limiter.old) }
    ensures exchange { R.leads limiter.old (may_grow (making_question ty.now) (making_answer result)) limiter.new }
{
    let min = ty.limits.min as usize;
    let answer = limiter.table_growing(0, min, Some(type_maximum(ty) as usize));
    make_answered(answer, ty, lazy, region, data_bytes)
}

// The table where the limiter gave this answer.
fn make_answered<P: Pages>(
    answer: Result<bool, LimiterError>,
    ty: &TableType,
    lazy: bool,
    region: P,
    data_bytes: usize,
) -> Result<Table<P>, (P, TableError)>
    requires limits { ty.now.limits.min ≤ room_of ty.now data_bytes → ty.now.limits.min ≤ type_maximum ty.now }
    requires inside { data_bytes ≤ (P.told region).len }
    requires zeros { IfSome (P.told region).contents (IsRoom (P.told region).page (P.told region).len 0 data_bytes) }
    ensures value { MakesTable answer P.told ty.now lazy data_bytes region result }
    ensures told { making_answer result ≡ answer }
{
    match answer {
        Err(error) => Err((region, TableError::LimiterFault(error))),
        Ok(false) => {
            let min = ty.limits.min;
            Err((region, TableError::LimiterDenied { min }))
        }
        Ok(true) => make_within(ty, lazy, region, data_bytes),
    }
}

// The table, unless its minimum exceeds the room.
fn make_within<P: Pages>(
    ty: &TableType,
    lazy: bool,
    region: P,
    data_bytes: usize,
) -> Result<Table<P>, (P, TableError)>
    requires limits { ty.now.limits.min ≤ room_of ty.now data_bytes → ty.now.limits.min ≤ type_maximum ty.now }
    requires inside { data_bytes ≤ (P.told region).len }
    requires zeros { IfSome (P.told region).contents (IsRoom (P.told region).page (P.told region).len 0 data_bytes) }
    ensures value { MakesWithin (nat_lt (room_of ty.now data_bytes) ty.now.limits.min) P.told ty.now lazy data_bytes region result }
    ensures told { making_answer result ≡ Ok true }
{
    let min = ty.limits.min;
    let limit = data_bytes / ty.element.element_size();
    if min > limit as u64 {
        let refusal = Unsupported::TableSize { min, limit };
        return Err((region, TableError::Unsupported(refusal)));
    }
    // Whole pages, whose number of bytes bounds what the table may have.
    let _len = region.len().byte_count();
    let maximum = (limit as u64).min(type_maximum(ty));
    Ok(over_region(ty.element, lazy, region, min as usize, maximum as usize))
}

fn over_region<P: Pages>(
    element: TableElementType,
    lazy: bool,
    region: P,
    size: usize,
    maximum: usize,
) -> Table<P>
    requires { IsTable (record { kind = kind_of element lazy; size = size; maximum = maximum; region = P.told region }) }
    ensures element_type { element_type_of result ≡ element }
    ensures static_ { IsStatic result }
    ensures view { table_view result ≡ in_region (record { kind = kind_of element lazy; size = size; maximum = maximum; region = P.told region }) }
{
    match element {
        TableElementType::Func => {
            Table::from(StaticElements::new(FuncRule { lazy }, region, size, maximum))
        }
        TableElementType::GcRef => {
            Table::from(StaticElements::new(GcRefRule, region, size, maximum))
        }
        TableElementType::Cont => {
            Table::from(StaticElements::new(ContRule, region, size, maximum))
        }
    }
}

/// A region as it is made has room for a table in the pages that can be reached. Costs nothing: the law is a fact about
/// what the contracts of makers say.
pub fn made_regions_have_room()
    ensures { MadeRegionsHaveRoom }
{}
