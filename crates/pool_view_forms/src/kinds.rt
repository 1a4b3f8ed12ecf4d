use crate::names::{push_advice, push_names};
use serde_json::Value;
use std::alloc::{AllocError, Global};
use std::fmt::Write;

/// What the value of a field is to be.
#[derive(Clone, Copy)]
pub enum Kind<'a> {
    /// A whole number, and the greatest that may stand there.
    Number(u64),
    /// A whole number of any size, or null.
    NumberOrNull,
    /// One of two numbers.
    Either(u64, u64),
    /// True or false.
    Flag,
    /// One of these texts.
    Choice(&'a [&'a str]),
    /// Bytes in hexadecimal.
    Bytes,
    /// An object, a list, or what has several forms. It is looked at elsewhere.
    Object,
    List,
    Any,
}

/// Any whole number.
pub const NUMBER: Kind<'static> = Kind::Number(u64::MAX);

/// A number of things.
pub const COUNT: Kind<'static> = Kind::Number(u32::MAX as u64);

/// What a value is, in words.
pub fn type_name(value: &Value) -> &'static str {
    match value {
        Value::Null => "null",
        Value::Bool(_) => "true or false",
        Value::Number(_) => "a number",
        Value::String(_) => "a text",
        Value::Array(_) => "a list",
        Value::Object(_) => "an object",
    }
}

/// The cause of what is no whole number, where this is wanted.
fn not_whole(alloc: Global, value: &Value, wanted: &str) -> Result<String, AllocError> {
    if value.is_number() {
        return String::from_str(
            alloc,
            "a number is whole, not negative, without fraction and exponent, and at most 18446744073709551615",
        );
    }
    let found = type_name(value);
    format!(in alloc; "{wanted} is wanted, and this is {found}")
}

fn cause_of_number(
    alloc: Global,
    value: &Value,
    greatest: u64,
) -> Result<Option<String>, AllocError> {
    let Some(number) = value.as_u64() else {
        return Ok(Some(not_whole(alloc, value, "a number")?));
    };
    if number <= greatest {
        return Ok(None);
    }
    let cause = format!(in alloc; "{number} is too large; the greatest is {greatest}")?;
    Ok(Some(cause))
}

fn cause_of_number_or_null(alloc: Global, value: &Value) -> Result<Option<String>, AllocError> {
    if value.is_null() || value.is_u64() {
        return Ok(None);
    }
    Ok(Some(not_whole(alloc, value, "a number or null")?))
}

fn cause_of_either(
    alloc: Global,
    value: &Value,
    first: u64,
    second: u64,
) -> Result<Option<String>, AllocError> {
    let Some(number) = value.as_u64() else {
        return Ok(Some(not_whole(alloc, value, "a number")?));
    };
    if number == first || number == second {
        return Ok(None);
    }
    let cause = format!(in alloc; "{number} is neither {first} nor {second}")?;
    Ok(Some(cause))
}

fn cause_of_flag(alloc: Global, value: &Value) -> Result<Option<String>, AllocError> {
    if value.is_boolean() {
        return Ok(None);
    }
    let found = type_name(value);
    let cause = format!(in alloc; "true or false is wanted, and this is {found}")?;
    Ok(Some(cause))
}

/// The cause of a text that is none of these.
fn not_chosen(alloc: Global, text: &str, choices: &[&str]) -> Result<String, AllocError> {
    let mut cause = format!(in alloc; "no such name: {text}")?;
    push_advice(alloc, &mut cause, choices, text)?;
    Ok(cause)
}

/// The cause of what is no text, where one of these is wanted.
fn no_text(alloc: Global, value: &Value, choices: &[&str]) -> Result<String, AllocError> {
    let found = type_name(value);
    let mut cause = format!(in alloc; "a text is wanted, and this is {found}; there are ")?;
    push_names(&mut cause, choices)?;
    Ok(cause)
}

fn cause_of_choice(
    alloc: Global,
    value: &Value,
    choices: &[&str],
) -> Result<Option<String>, AllocError> {
    let Some(text) = value.as_str() else {
        return Ok(Some(no_text(alloc, value, choices)?));
    };
    if choices.iter().any(|choice| *choice == text) {
        return Ok(None);
    }
    Ok(Some(not_chosen(alloc, text, choices)?))
}

fn cause_of_digits(alloc: Global, text: &str) -> Result<Option<String>, AllocError> {
    if let Some(at) = text.bytes().position(|byte| !byte.is_ascii_hexdigit()) {
        let cause = format!(in alloc; "bytes are hexadecimal digits, and character {at} is none")?;
        return Ok(Some(cause));
    }
    let digits = text.len();
    if digits % 2 == 0 {
        return Ok(None);
    }
    let cause = format!(in alloc; "a byte is two hexadecimal digits, and these are {digits}")?;
    Ok(Some(cause))
}

fn cause_of_bytes(alloc: Global, value: &Value) -> Result<Option<String>, AllocError> {
    match value.as_str() {
        Some(text) => cause_of_digits(alloc, text),
        None => {
            let found = type_name(value);
            let cause = format!(in alloc;
                "a text of hexadecimal digits is wanted, and this is {found}"
            )?;
            Ok(Some(cause))
        }
    }
}

/// The cause of a field of this kind that isn't there.
pub fn cause_of_missing(alloc: Global, kind: &Kind<'_>) -> Result<String, AllocError> {
    let mut cause = String::from_str(alloc, "missing; ")?;
    match kind {
        Kind::Choice(names) => {
            cause.push_str("there are ")?;
            push_names(&mut cause, names)?;
        }
        _ => {
            cause.push_str(wanted(kind))?;
            cause.push_str(" is wanted")?;
        }
    }
    Ok(cause)
}

/// What stands in a field of this kind, in words.
fn wanted(kind: &Kind<'_>) -> &'static str {
    match kind {
        Kind::Number(_) | Kind::Either(_, _) => "a number",
        Kind::NumberOrNull => "a number or null",
        Kind::Flag => "true or false",
        Kind::Choice(_) => "a text",
        Kind::Bytes => "a text of hexadecimal digits",
        Kind::Object => "an object",
        Kind::List => "a list",
        Kind::Any => "a value",
    }
}

/// Why the value isn't of this kind, if it isn't.
pub fn cause_of_kind(
    alloc: Global,
    value: &Value,
    kind: &Kind<'_>,
) -> Result<Option<String>, AllocError> {
    match kind {
        Kind::Number(greatest) => cause_of_number(alloc, value, *greatest),
        Kind::NumberOrNull => cause_of_number_or_null(alloc, value),
        Kind::Either(first, second) => cause_of_either(alloc, value, *first, *second),
        Kind::Flag => cause_of_flag(alloc, value),
        Kind::Choice(choices) => cause_of_choice(alloc, value, choices),
        Kind::Bytes => cause_of_bytes(alloc, value),
        Kind::Object | Kind::List | Kind::Any => Ok(None),
    }
}
