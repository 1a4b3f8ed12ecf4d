ghost use Rattle.std.specs.Prelude.{◌≡◌};
ghost use Rattle.pool_slots.specs.TableSizes.{data_size};

use pool_table::ElementSize;
use pool_types::TableElementType;

/// How many bytes of a slot of `table_size` bytes a table with elements of this type has, in a pool of which each table may have
/// `table_elements` elements (Wasmtime's `table_pool.rs`).
#[tactic(auto, using(crate::proofs::TableSizes::data_fits))]
pub fn data_size(table_elements: usize, table_size: usize, element: TableElementType) -> usize
    ensures { result ≡ data_size table_elements table_size element }
{
    let size = element.element_size();
    table_elements.min(table_size / size) * size
}
