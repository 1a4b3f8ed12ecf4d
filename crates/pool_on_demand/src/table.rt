ghost use Rattle.std.specs.Prelude.{◌≡◌};
ghost use Rattle.pool_on_demand.specs.Answers.{AllocatesListed, table_refusal};
ghost use Rattle.pool_on_demand.specs.Grants.{IsTableMade, IsTableLeased};
ghost use Rattle.pool_on_demand.specs.Refusals.{table_refused, answer_given};

use crate::given_answer::GivenAnswer;
use crate::lease::OnDemandTable;
use pool_limits::LimiterError;
use pool_pages::Pages;
use pool_slots::{AllocError, TableAllocationIndex};
use pool_table::{Table, TableError};
use pool_types::{TableType, Tunables};
use std::alloc::Global;

// The table of this type, in a list of its own, where a limiter gave this answer.
pub(crate) fn make_table<P: Pages>(
    alloc: Global,
    ty: &TableType,
    tunables: &Tunables,
    answer: Result<bool, LimiterError>,
) -> Result<OnDemandTable<P>, AllocError>
    ensures answer { AllocatesListed (table_refused (answer_given result) ty.now) (IsTableMade ty.now tunables.now.table_lazy_init) result }
    ensures given { answer_given result ≡ answer }
{
    let limiter = &mut GivenAnswer::new(answer);
    let made = Table::new_dynamic(alloc, ty, tunables, Some(limiter));
    lease_table(made)
}

// The table as it is granted, or its refusal.
fn lease_table<P: Pages>(made: Result<Table<P>, TableError>) -> Result<OnDemandTable<P>, AllocError>
    ensures { IsTableLeased made result }
{
    match made {
        Ok(table) => Ok(OnDemandTable {
            index: TableAllocationIndex::default(),
            table,
        }),
        Err(error) => Err(table_refusal(error)),
    }
}

fn table_refusal(error: TableError) -> AllocError
    ensures { result ≡ table_refusal error }
{
    match error {
        TableError::Memory => AllocError::Memory,
        TableError::Unsupported(rule) => AllocError::Unsupported(rule),
        TableError::LimiterDenied { min } => AllocError::LimiterDenied { table: true, min },
        TableError::LimiterFault(error) => AllocError::LimiterFault(error),
    }
}
