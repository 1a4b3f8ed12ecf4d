ghost use Rattle.std.specs.Prelude.{◌≡◌, ℕ, ◌+◌, ◌-◌, ◌*◌, ◌/◌, ◌%◌, ◌^◌, ◌<◌, ◌≤◌, ◌==◌, ◌↔◌, IsTrue, IsOk, IfOk, IfErr};
ghost use Rattle.std.specs.Result.{OkIff};
ghost use Rattle.pool_types.specs.Count.{Count, count, IsPageSize, rounded_up};

use crate::bad_config::BadConfig;
use crate::byte_count_errors::{ByteCountNotAligned, ByteCountOutOfBounds};
use std::marker::Model;

/// The size of a page of the host, in bytes: a power of two from 16 to 65,536.
#[derive(Clone, Copy, Debug, PartialEq, Eq, PartialOrd, Ord, Hash)]
pub struct PageSize {
    bytes: usize,
}

impl Model for PageSize {
    ghost use Rattle.std.specs.Prelude.{ℕ};
    ghost use Rattle.pool_types.specs.Count.{IsPageSize};

    ghost Value = { ℕ };

    ghost view = { λ p. p.bytes };

    ghost invariant = { λ p. IsPageSize p.bytes };

    ghost inverse = { λ n. record { bytes = n } };
}

impl PageSize {
    /// Refuses exactly a number that is no power of two from 16 to 65,536.
    pub fn new(size: usize) -> Result<PageSize, BadConfig>
        ensures valid { IsOk result ↔ IsPageSize size }
        ensures ok { IfOk result (λ page. page ≡ size) }
        ensures err { IfErr result (λ e. e ≡ BadConfig.PageSize size) }
    {
        if 16 <= size && size <= 65536 && size.is_power_of_two() {
            Ok(PageSize { bytes: size })
        } else {
            Err(BadConfig::PageSize { size })
        }
    }

    /// In bytes.
    pub fn get(self) -> usize
        ensures value { result ≡ self }
        ensures valid { IsPageSize self }
    {
        self.bytes
    }

    pub fn zero(self) -> HostAlignedByteCount
        ensures { result ≡ count self 0 }
    {
        HostAlignedByteCount {
            page: self,
            bytes: 0,
        }
    }

    /// One page.
    pub fn host_page_size(self) -> HostAlignedByteCount
        ensures { result ≡ count self self }
    {
        HostAlignedByteCount {
            page: self,
            bytes: self.get(),
        }
    }
}

/// A number of bytes that is a whole number of pages, with the page size that it is counted in.
/// Calls on two counts need the same page size.
#[derive(Clone, Copy, Debug, PartialEq, Eq, PartialOrd, Ord, Hash)]
pub struct HostAlignedByteCount {
    page: PageSize,
    bytes: usize,
}

impl Model for HostAlignedByteCount {
    ghost use Rattle.std.specs.Prelude.{◌≡◌, ◌%◌};
    ghost use Rattle.pool_types.specs.Count.{Count, count};

    ghost Value = { Count };

    ghost view = { λ c. count c.page c.bytes };

    ghost invariant = { λ c. c.bytes % c.page ≡ 0 };

    ghost inverse = { λ c. record { page = c.page; bytes = c.bytes } };
}

impl HostAlignedByteCount {
    pub fn new(page: PageSize, bytes: usize) -> Result<HostAlignedByteCount, ByteCountNotAligned>
        ensures ok { OkIff result (bytes % page ≡ 0) (count page bytes) }
        ensures err { IfErr result (λ e. e ≡ record { 0 = bytes }) }
    {
        if bytes % page.get() == 0 {
            Ok(HostAlignedByteCount { page, bytes })
        } else {
            Err(ByteCountNotAligned(bytes))
        }
    }

    pub fn new_unchecked(page: PageSize, bytes: usize) -> HostAlignedByteCount
        requires { bytes % page ≡ 0 }
        ensures { result ≡ count page bytes }
    {
        HostAlignedByteCount { page, bytes }
    }

    /// The next multiple of the page at or above `bytes`.
    pub fn new_rounded_up(
        page: PageSize,
        bytes: usize,
    ) -> Result<HostAlignedByteCount, ByteCountOutOfBounds>
        ensures ok { OkIff result (bytes + page - 1 < 2 ^ 64) (count page (rounded_up page bytes)) }
        ensures err { IfErr result (λ e. e ≡ ByteCountOutOfBounds.RoundUp) }
    {
        let size = page.get();
        let Some(above) = bytes.checked_add(size - 1) else {
            return Err(ByteCountOutOfBounds::RoundUp);
        };
        Ok(HostAlignedByteCount {
            page,
            bytes: above / size * size,
        })
    }

    /// The next multiple of the page at or above `bytes`.
    pub fn new_rounded_up_u64(
        page: PageSize,
        bytes: u64,
    ) -> Result<HostAlignedByteCount, ByteCountOutOfBounds>
        ensures ok { OkIff result (bytes + page - 1 < 2 ^ 64) (count page (rounded_up page bytes)) }
        ensures err { IfErr result (λ e. e ≡ ByteCountOutOfBounds.RoundUp) }
    {
        HostAlignedByteCount::new_rounded_up(page, bytes as usize)
    }

    /// The next multiple of the page at or above `bytes`, which the caller knows to be in range.
    pub fn rounded_up_unchecked(page: PageSize, bytes: usize) -> HostAlignedByteCount
        requires { bytes + page - 1 < 2 ^ 64 }
        ensures { result ≡ count page (rounded_up page bytes) }
    {
        let size = page.get();
        HostAlignedByteCount {
            page,
            bytes: (bytes + (size - 1)) / size * size,
        }
    }

    pub fn page(self) -> PageSize
        ensures { result ≡ self.page }
    {
        self.page
    }

    pub fn is_zero(self) -> bool
        ensures { result ≡ (self.bytes == 0) }
    {
        self.bytes == 0
    }

    pub fn byte_count(self) -> usize
        ensures value { result ≡ self.bytes }
        ensures aligned { self.bytes % self.page ≡ 0 }
        ensures page { IsPageSize self.page }
    {
        // Whoever asks for the page learns that its size is one of a page.
        let _page = self.page.get();
        self.bytes
    }

    #[tactic(auto, using(crate::proofs::Multiples::add_whole))]
    pub fn checked_add(
        self,
        other: HostAlignedByteCount,
    ) -> Result<HostAlignedByteCount, ByteCountOutOfBounds>
        requires { self.page ≡ other.page }
        ensures ok { OkIff result (self.bytes + other.bytes < 2 ^ 64) (count self.page (self.bytes + other.bytes)) }
        ensures err { IfErr result (λ e. e ≡ ByteCountOutOfBounds.Add) }
    {
        match self.bytes.checked_add(other.bytes) {
            Some(bytes) => Ok(HostAlignedByteCount {
                page: self.page,
                bytes,
            }),
            None => Err(ByteCountOutOfBounds::Add),
        }
    }

    #[tactic(auto, using(crate::proofs::Multiples::sub_whole))]
    pub fn checked_sub(
        self,
        other: HostAlignedByteCount,
    ) -> Result<HostAlignedByteCount, ByteCountOutOfBounds>
        requires { self.page ≡ other.page }
        ensures ok { OkIff result (other.bytes ≤ self.bytes) (count self.page (self.bytes - other.bytes)) }
        ensures err { IfErr result (λ e. e ≡ ByteCountOutOfBounds.Sub) }
    {
        match self.bytes.checked_sub(other.bytes) {
            Some(bytes) => Ok(HostAlignedByteCount {
                page: self.page,
                bytes,
            }),
            None => Err(ByteCountOutOfBounds::Sub),
        }
    }

    /// The difference, or zero where it would be below.
    #[tactic(auto, using(crate::proofs::Multiples::sub_whole))]
    pub fn saturating_sub(self, other: HostAlignedByteCount) -> HostAlignedByteCount
        requires { self.page ≡ other.page }
        ensures { result ≡ count self.page (self.bytes - other.bytes) }
    {
        HostAlignedByteCount {
            page: self.page,
            bytes: self.bytes.saturating_sub(other.bytes),
        }
    }

    /// The sum, which the caller knows to be in range.
    #[tactic(auto, using(crate::proofs::Multiples::add_whole))]
    pub fn unchecked_add(self, other: HostAlignedByteCount) -> HostAlignedByteCount
        requires page { self.page ≡ other.page }
        requires fits { self.bytes + other.bytes < 2 ^ 64 }
        ensures { result ≡ count self.page (self.bytes + other.bytes) }
    {
        HostAlignedByteCount {
            page: self.page,
            bytes: self.bytes + other.bytes,
        }
    }

    #[tactic(auto, using(crate::proofs::Multiples::mul_whole))]
    pub fn checked_mul(self, scalar: usize) -> Result<HostAlignedByteCount, ByteCountOutOfBounds>
        ensures ok { OkIff result (self.bytes * scalar < 2 ^ 64) (count self.page (self.bytes * scalar)) }
        ensures err { IfErr result (λ e. e ≡ ByteCountOutOfBounds.Mul) }
    {
        match self.bytes.checked_mul(scalar) {
            Some(bytes) => Ok(HostAlignedByteCount {
                page: self.page,
                bytes,
            }),
            None => Err(ByteCountOutOfBounds::Mul),
        }
    }

    /// How often the other count goes into this one, rounded down.
    pub fn checked_div(self, other: HostAlignedByteCount) -> Result<usize, ByteCountOutOfBounds>
        requires { self.page ≡ other.page }
        ensures ok { OkIff result (0 < other.bytes) (self.bytes / other.bytes) }
        ensures err { IfErr result (λ e. e ≡ ByteCountOutOfBounds.Div) }
    {
        match self.bytes.checked_div(other.bytes) {
            Some(quotient) => Ok(quotient),
            None => Err(ByteCountOutOfBounds::Div),
        }
    }

    /// What is left of this count after that division.
    #[tactic(auto, using(crate::proofs::Multiples::rem_whole))]
    pub fn checked_rem(
        self,
        other: HostAlignedByteCount,
    ) -> Result<HostAlignedByteCount, ByteCountOutOfBounds>
        requires { self.page ≡ other.page }
        ensures ok { OkIff result (0 < other.bytes) (count self.page (self.bytes % other.bytes)) }
        ensures err { IfErr result (λ e. e ≡ ByteCountOutOfBounds.Rem) }
    {
        match self.bytes.checked_rem(other.bytes) {
            Some(bytes) => Ok(HostAlignedByteCount {
                page: self.page,
                bytes,
            }),
            None => Err(ByteCountOutOfBounds::Rem),
        }
    }

    /// The product, which the caller knows to be in range.
    #[tactic(auto, using(crate::proofs::Multiples::mul_whole))]
    pub fn unchecked_mul(self, scalar: usize) -> HostAlignedByteCount
        requires { self.bytes * scalar < 2 ^ 64 }
        ensures { result ≡ count self.page (self.bytes * scalar) }
    {
        HostAlignedByteCount {
            page: self.page,
            bytes: self.bytes * scalar,
        }
    }
}
