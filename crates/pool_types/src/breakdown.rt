ghost use Rattle.std.specs.Prelude.{◌≡◌, ◌++◌, OnOk, Some, string_bytes};
ghost use Rattle.pool_types.specs.Breakdown.{breakdown, hundredths, listed, part_line, places_text};

use crate::module_types::ModuleInfo;
use std::alloc::AllocError;
use std::fmt;
use std::fmt::Write;

/// A share in hundredths of a percent, which is printed in percent with two places.
#[derive(Clone, Copy)]
struct Percent(u128);

impl fmt::Display for Percent {
    ghost output = { λ h. Some (places_text h.0) };

    fn fmt<W: fmt::Write>(&self, f: &mut fmt::Formatter<W>) -> fmt::Result {
        let whole = self.0 / 100;
        let tenths = self.0 / 10 % 10;
        let rest = self.0 % 10;
        write!(f, "{whole}.{tenths}{rest}")
    }
}

// A share of a whole in hundredths of a percent, rounded down; 0 of an empty whole.
fn hundredths(bytes: u64, size: u64) -> Percent
    ensures { result.0 ≡ hundredths bytes size }
{
    let scaled = bytes as u128 * 10000;
    Percent(scaled.checked_div(size as u128).unwrap_or(0))
}

fn push_line(out: &mut String, size: u64, name: &str, bytes: u64) -> Result<(), AllocError>
    ensures { OnOk result (string_bytes out.new ≡ string_bytes out.old ++ part_line size name.now bytes) }
{
    let share = hundredths(bytes, size);
    write!(out, " * {share}% - {bytes} bytes - {name}\n")
}

// Adds the line of a part, where it is more than a twentieth of the whole.
fn push_listed(out: &mut String, size: u64, name: &str, bytes: u64) -> Result<(), AllocError>
    ensures { OnOk result (string_bytes out.new ≡ string_bytes out.old ++ listed size name.now bytes) }
{
    if bytes > size / 20 {
        push_line(out, size, name, bytes)
    } else {
        Ok(())
    }
}

/// Adds the lines of what an instance of the module is made of, where it takes `size` bytes in all.
pub(crate) fn push_breakdown(
    out: &mut String,
    size: u64,
    info: &ModuleInfo,
) -> Result<(), AllocError>
    ensures { OnOk result (string_bytes out.new ≡ string_bytes out.old ++ breakdown size info.now) }
{
    push_listed(out, size, "instance state management", info.state_bytes)?;
    let parts = info.parts.as_slice();
    for part in parts {
        push_listed(out, size, part.name.as_str(), part.bytes)?;
    }
    Ok(())
}
