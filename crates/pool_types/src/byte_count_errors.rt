ghost use Rattle.std.specs.Prelude.{Some};
ghost use Rattle.pool_types.specs.ByteCountTexts.{not_aligned_text, out_of_bounds_text};

use crate::numerals::Hexadecimal;
use std::error::Error;
use std::fmt;

/// A number of bytes that is no whole number of pages.
#[derive(Clone, Copy, Debug, PartialEq, Eq)]
pub struct ByteCountNotAligned(pub usize);

impl fmt::Display for ByteCountNotAligned {
    ghost output = { λ e. Some (not_aligned_text e) };

    fn fmt<W: fmt::Write>(&self, f: &mut fmt::Formatter<W>) -> fmt::Result {
        let bytes = Hexadecimal(self.0 as u64);
        write!(f, "byte count not page-aligned: {bytes}")
    }
}

impl Error for ByteCountNotAligned {}

/// A byte count that leaves the range of its type.
#[derive(Clone, Copy, Debug, PartialEq, Eq)]
pub enum ByteCountOutOfBounds {
    RoundUp,
    /// Never comes, since a `usize` has 64 bits.
    ConvertU64,
    Add,
    Sub,
    Mul,
    /// The divisor is zero.
    Div,
    /// The divisor of a remainder is zero.
    Rem,
}

impl fmt::Display for ByteCountOutOfBounds {
    ghost output = { λ e. Some (out_of_bounds_text e) };

    fn fmt<W: fmt::Write>(&self, f: &mut fmt::Formatter<W>) -> fmt::Result {
        match self {
            ByteCountOutOfBounds::RoundUp => write!(f, "byte count overflow rounding up"),
            ByteCountOutOfBounds::ConvertU64 => write!(f, "byte count overflow converting u64"),
            ByteCountOutOfBounds::Add => write!(f, "byte count overflow during addition"),
            ByteCountOutOfBounds::Sub => write!(f, "byte count underflow during subtraction"),
            ByteCountOutOfBounds::Mul => write!(f, "byte count overflow during multiplication"),
            ByteCountOutOfBounds::Div => write!(f, "division by zero"),
            ByteCountOutOfBounds::Rem => write!(f, "remainder by zero"),
        }
    }
}

impl Error for ByteCountOutOfBounds {}
