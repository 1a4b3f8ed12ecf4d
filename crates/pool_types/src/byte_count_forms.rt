//! How byte counts are printed, and how they compare.
ghost use Rattle.std.specs.Prelude.{◌≡◌, ℕ, ◌↔◌, Some, false, IsTrue};
ghost use Rattle.std.specs.Fmt.{WritesOnOk, digits};
ghost use Rattle.std.specs.Ordering.{is_eq, nat_cmp};
ghost use Rattle.std.specs.declared.cmp.Ordering.{Ordering};
ghost use Rattle.pool_types.specs.Count.{Count};
ghost use Rattle.pool_types.specs.Numerals.{hexadecimal};

use crate::byte_count::HostAlignedByteCount;
use crate::numerals::Hexadecimal;
use std::cmp::Ordering;
use std::fmt;
use std::hash::Hash;

impl fmt::Display for HostAlignedByteCount {
    ghost output = { λ c. Some (hexadecimal c.bytes) };

    fn fmt<W: fmt::Write>(&self, f: &mut fmt::Formatter<W>) -> fmt::Result {
        let bytes = Hexadecimal(self.byte_count() as u64);
        write!(f, "{bytes}")
    }
}

impl fmt::LowerHex for HostAlignedByteCount {
    fn fmt<W: fmt::Write>(&self, f: &mut fmt::Formatter<W>) -> fmt::Result
        ensures { WritesOnOk W.write_str_gives f.old result (digits 16 false self.now.bytes) f.new }
    {
        fmt::LowerHex::fmt(&self.byte_count(), f)
    }
}

/// `{:x}` prints the bare digits, and `{:#x}` puts `0x` before them.
impl fmt::HasDigits for HostAlignedByteCount {
    ghost word = { λ c. Some c.bytes };

    fn bits(self) -> (u64, u64) {
        (0, self.byte_count() as u64)
    }
}

/// Compares a byte count with a plain number of bytes, on either side: in place of `==` and `<` between the two
/// types, which compare values of one type alone here.
pub trait CompareBytes<Rhs> {
    ghost order: { Self → Rhs → Ordering };

    fn eq_bytes(&self, other: &Rhs) -> bool
        ensures { result ≡ is_eq (order self.now other.now) };

    fn cmp_bytes(&self, other: &Rhs) -> Ordering
        ensures { result ≡ order self.now other.now };
}

impl CompareBytes<usize> for HostAlignedByteCount {
    ghost order = { λ c n. nat_cmp c.bytes n };

    fn eq_bytes(&self, other: &usize) -> bool {
        self.cmp_bytes(other).is_eq()
    }

    fn cmp_bytes(&self, other: &usize) -> Ordering {
        self.byte_count().cmp(other)
    }
}

impl CompareBytes<HostAlignedByteCount> for usize {
    ghost order = { λ n c. nat_cmp n c.bytes };

    fn eq_bytes(&self, other: &HostAlignedByteCount) -> bool {
        self.cmp_bytes(other).is_eq()
    }

    fn cmp_bytes(&self, other: &HostAlignedByteCount) -> Ordering {
        self.cmp(&other.byte_count())
    }
}

/// What `==`, the order and the hash of byte counts say of each other. Costs nothing: these are facts.
pub fn byte_counts_agree()
    ensures eq { (a b : Count) → IsTrue (⟦<HostAlignedByteCount as PartialEq>⟧.eq a b) ↔ (a ≡ b) }
    ensures cmp { (a b : Count) → (⟦<HostAlignedByteCount as Ord>⟧.cmp a b ≡ Ordering.Equal) ↔ (a ≡ b) }
    ensures partial_cmp { (a b : Count) → ⟦<HostAlignedByteCount as PartialOrd>⟧.partial_cmp a b ≡ Some (⟦<HostAlignedByteCount as Ord>⟧.cmp a b) }
    ensures numbers { (a b : Count) → a.page ≡ b.page → ⟦<HostAlignedByteCount as Ord>⟧.cmp a b ≡ nat_cmp a.bytes b.bytes }
    ensures hash { (a b : Count) → IsTrue (⟦<HostAlignedByteCount as PartialEq>⟧.eq a b) → ⟦<HostAlignedByteCount as Hash>⟧.hash_input a ≡ ⟦<HostAlignedByteCount as Hash>⟧.hash_input b }
{}
