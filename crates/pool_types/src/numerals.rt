ghost use Rattle.std.specs.Prelude.{Some};
ghost use Rattle.pool_types.specs.Numerals.{hexadecimal};

use std::fmt;

/// A number that is printed in lower-case hexadecimal digits after `0x`.
#[derive(Clone, Copy)]
pub(crate) struct Hexadecimal(pub(crate) u64);

impl fmt::Display for Hexadecimal {
    ghost output = { λ n. Some (hexadecimal n.0) };

    fn fmt<W: fmt::Write>(&self, f: &mut fmt::Formatter<W>) -> fmt::Result {
        let number = self.0;
        write!(f, "0x{number:x}")
    }
}
