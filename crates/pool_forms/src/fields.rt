ghost use Rattle.std.specs.Prelude.{◌≡◌, None, map, option_map};
ghost use Rattle.std.specs.List.{list_any};
ghost use Rattle.std.specs.Str.{bytes_eq};
ghost use Rattle.serde_json.specs.View.{view, items_view, members_view};
ghost use Rattle.pool_forms.specs.Fields.{is_among, all_among, has_only, whole_number, required, optional, is_below, pair_of, number_pair, or_null, hex_bytes, IsOfForm};
ghost use Rattle.serde_json.specs.Find.{as_bool, as_str};

use crate::form_fault::FormFault;
use hex::FromHexError;
use pool_types::ByteList;
use serde_json::{Map, Value};
use std::alloc::Global;

fn is_among(names: &[&str], name: &str) -> bool
    ensures { result ≡ list_any (λ known. bytes_eq known.now name.now) names.now }
{
    names.iter().any(|known| *known == name)
}

fn all_among(names: &[&str], members: &Map<String, Value>) -> bool
    ensures { result ≡ all_among (map (λ n. n.now) names.now) (members_view members.now.entries) }
{
    for (name, _) in members {
        if !is_among(names, name.as_str()) {
            return false;
        }
    }
    true
}

/// Whether it is an object that has no fields but these.
pub fn has_only(value: &Value, names: &[&str]) -> bool
    ensures { result ≡ has_only (map (λ n. n.now) names.now) (view value.now) }
{
    match value.as_object() {
        Some(members) => all_among(names, members),
        None => false,
    }
}

/// A whole number that must be there.
pub fn number(field: Option<&Value>) -> Option<u64>
    ensures { result ≡ required whole_number (option_map (λ v. view v.now) field.entry) }
{
    field?.as_u64()
}

/// A whole number that may be left out.
pub fn number_or(default: u64, field: Option<&Value>) -> Option<u64>
    ensures { result ≡ optional default whole_number (option_map (λ v. view v.now) field.entry) }
{
    match field {
        None => Some(default),
        Some(value) => value.as_u64(),
    }
}

/// A whole number, or null.
pub fn number_or_null(value: &Value) -> Option<Option<u64>>
    ensures { result ≡ or_null whole_number (view value.now) }
{
    if value.is_null() {
        return Some(None);
    }
    Some(Some(value.as_u64()?))
}

/// A whole number that may be left out, or be null.
pub fn number_or_none(field: Option<&Value>) -> Option<Option<u64>>
    ensures { result ≡ optional None (or_null whole_number) (option_map (λ v. view v.now) field.entry) }
{
    match field {
        None => Some(None),
        Some(value) => number_or_null(value),
    }
}

/// Whether a whole number, where there is one, is below the bound.
pub fn is_below(bound: u64, field: Option<&Value>) -> bool
    ensures { result ≡ is_below bound (option_map (λ v. view v.now) field.entry) }
{
    match number(field) {
        Some(number) => number < bound,
        None => true,
    }
}

/// The two items of a list of two.
pub fn pair_of(items: &[Value]) -> Option<(&Value, &Value)>
    ensures { option_map (λ p. (view p.0.now, view p.1.now)) result ≡ pair_of (items_view items.now) }
{
    let [first, second] = items else {
        return None;
    };
    Some((first, second))
}

/// Two whole numbers.
pub fn number_pair(items: &[Value]) -> Option<(u64, u64)>
    ensures { result ≡ number_pair (items_view items.now) }
{
    let (first, second) = pair_of(items)?;
    let first = first.as_u64()?;
    let second = second.as_u64()?;
    Some((first, second))
}

/// True or false, which may be left out.
pub fn flag_or(default: bool, field: Option<&Value>) -> Option<bool>
    ensures { result ≡ optional default as_bool (option_map (λ v. view v.now) field.entry) }
{
    match field {
        None => Some(default),
        Some(value) => value.as_bool(),
    }
}

/// Bytes that must be there, as hexadecimal text.
pub fn bytes(alloc: Global, field: Option<&Value>) -> Result<ByteList, FormFault>
    ensures { IsOfForm (required hex_bytes (option_map (λ v. view v.now) field.entry)) result }
{
    let Some(text) = text(field) else {
        return Err(FormFault::OtherForm);
    };
    match hex::decode(alloc, text) {
        Ok(bytes) => Ok(ByteList::from_vec(bytes)),
        Err(FromHexError::OutOfMemory) => Err(FormFault::Memory),
        Err(_) => Err(FormFault::OtherForm),
    }
}

/// A text that must be there.
pub fn text(field: Option<&Value>) -> Option<&str>
    ensures { option_map (λ text. text.now) result ≡ required as_str (option_map (λ v. view v.now) field.entry) }
{
    field?.as_str()
}
