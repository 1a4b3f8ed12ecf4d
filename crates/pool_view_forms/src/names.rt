use std::alloc::{AllocError, Global};
use std::fmt::Write;
use strsim::levenshtein;

/// The name that is most like this one, if one is like it.
fn nearest<'a>(
    alloc: Global,
    names: &[&'a str],
    name: &str,
) -> Result<Option<&'a str>, AllocError> {
    let mut least = name.len() / 3 + 2;
    let mut found = None;
    for &known in names {
        let edits = levenshtein(alloc, known, name)?;
        if edits < least {
            least = edits;
            found = Some(known);
        }
    }
    Ok(found)
}

/// Adds the names, with commas between them.
pub fn push_names(out: &mut String, names: &[&str]) -> Result<(), AllocError> {
    for (at, name) in names.iter().enumerate() {
        let comma = if at == 0 { "" } else { ", " };
        write!(out, "{comma}{name}")?;
    }
    Ok(())
}

/// What to write in place of a name that isn't known: the one that is most like it, or all.
pub fn push_advice(
    alloc: Global,
    out: &mut String,
    names: &[&str],
    name: &str,
) -> Result<(), AllocError> {
    match nearest(alloc, names, name)? {
        Some(known) => write!(out, "; did you mean {known}?"),
        None => {
            out.push_str("; there are ")?;
            push_names(out, names)
        }
    }
}
