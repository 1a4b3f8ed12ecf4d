ghost use Rattle.std.specs.Prelude.{◌≡◌};
ghost use Rattle.pool_table.specs.Elements.{ElementKind, IsFunc, IsGc, IsCont, type_of};
ghost use Rattle.pool_alloc.specs.TableLeases.{element_of, CanBeSet};
ghost use Rattle.pool_run.specs.TableValues.{function_of, reference_of, continuation_of, element_for, is_null, is_value_of};

use crate::command::TableValue;
use pool_alloc::Element;
use pool_table::{ContTableElem, FuncTableElem};
use pool_types::TableElementType;

fn function_of(value: TableValue) -> FuncTableElem
    ensures value { result ≡ function_of value }
    ensures valid { IsFunc result }
{
    match value {
        TableValue::Number(name) if name > 0 && name % 2 == 0 => Some(name),
        _ => None,
    }
}

fn reference_of(value: TableValue) -> Option<u32>
    ensures value { result ≡ reference_of value }
    ensures valid { IsGc result }
{
    match value {
        TableValue::Number(number) if number > 0 && number < 4_294_967_296 => Some(number as u32),
        _ => None,
    }
}

fn continuation_of(value: TableValue) -> ContTableElem
    ensures value { result ≡ continuation_of value }
    ensures valid { IsCont result }
{
    match value {
        TableValue::Continuation(object) if object.contref > 0 => Some(object),
        _ => None,
    }
}

/// The element that a value is in a table with elements of this type.
pub fn element_for(element_type: TableElementType, value: TableValue) -> Element
    ensures value { element_of result ≡ element_for element_type value }
    ensures fits { (kind : ElementKind) → type_of kind ≡ element_type → CanBeSet kind (element_of result) }
{
    match element_type {
        TableElementType::Func => Element::Func(function_of(value)),
        TableElementType::GcRef => Element::Gc(reference_of(value)),
        TableElementType::Cont => Element::Cont(continuation_of(value)),
    }
}

fn is_null(value: TableValue) -> bool
    ensures { result ≡ is_null value }
{
    matches!(value, TableValue::Null)
}

/// Whether the value is null or one for elements of this type.
pub(crate) fn is_value_of(element_type: TableElementType, value: TableValue) -> bool
    ensures { result ≡ is_value_of element_type value }
{
    match element_type {
        TableElementType::Func => is_null(value) || function_of(value).is_some(),
        TableElementType::GcRef => is_null(value) || reference_of(value).is_some(),
        TableElementType::Cont => is_null(value) || continuation_of(value).is_some(),
    }
}
