ghost use Rattle.std.specs.Prelude.{◌≡◌, Option, [], option_map};
ghost use Rattle.serde_json.specs.Data.{Data};
ghost use Rattle.serde_json.specs.View.{view, items_view};
ghost use Rattle.pool_forms.specs.Fields.{IsOfForm, optional, required, list_of, each_item, whole_number};

use crate::form_fault::FormFault;
use pool_types::PlainList;
use serde_json::Value;
use std::alloc::Global;

/// What is read from a JSON value.
pub trait FromJson: Drop {
    ghost form: { Data → Option Self };

    fn from_json(alloc: Global, value: &Value) -> Result<Self, FormFault>
        ensures { IsOfForm (form (view value.now)) result };
}

impl FromJson for u64 {
    ghost form = { whole_number };

    fn from_json(_alloc: Global, value: &Value) -> Result<u64, FormFault> {
        value.as_u64().ok_or(FormFault::OtherForm)
    }
}

/// Each item as it is read.
pub fn each_item<T: FromJson>(alloc: Global, items: &[Value]) -> Result<PlainList<T>, FormFault>
    ensures { IsOfForm (each_item T.form (items_view items.now)) result }
{
    let mut list = PlainList::new(alloc);
    for value in items {
        let item = T::from_json(alloc, value)?;
        list.push(item)?;
    }
    Ok(list)
}

/// A list that must be there.
pub fn list<T: FromJson>(alloc: Global, field: Option<&Value>) -> Result<PlainList<T>, FormFault>
    ensures { IsOfForm (required (list_of T.form) (option_map (λ v. view v.now) field.entry)) result }
{
    match field {
        None => Err(FormFault::OtherForm),
        Some(value) => list_in(alloc, value),
    }
}

fn list_in<T: FromJson>(alloc: Global, value: &Value) -> Result<PlainList<T>, FormFault>
    ensures { IsOfForm (list_of T.form (view value.now)) result }
{
    match value.as_array() {
        Some(items) => each_item(alloc, items.as_slice()),
        None => Err(FormFault::OtherForm),
    }
}

/// A list that may be left out, and is empty then.
pub fn list_or_empty<T: FromJson>(
    alloc: Global,
    field: Option<&Value>,
) -> Result<PlainList<T>, FormFault>
    ensures { IsOfForm (optional [] (list_of T.form) (option_map (λ v. view v.now) field.entry)) result }
{
    match field {
        None => Ok(PlainList::new(alloc)),
        Some(value) => list_in(alloc, value),
    }
}
