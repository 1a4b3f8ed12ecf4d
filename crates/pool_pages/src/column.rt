//! Rows of bytes that are touched only as far as something was put into them.
ghost use Rattle.std.specs.Prelude.{◌≡◌, ℕ, ◌+◌, ◌-◌, ◌^◌, ◌<◌, ◌≤◌, List, ◌++◌, length, replicate, slice_range, IfOk, IsTrue, ◌↔◌, vec_capacity};
ghost use Rattle.pool_pages.specs.Contents.{put, put_all};
ghost use Rattle.pool_pages.specs.Dense.{with_zeros};

use crate::column_edits::{fill_range, overwrite};
use std::alloc::{AllocError, Global};
use std::marker::Model;

/// A row of bytes of a fixed length, of which a prefix is kept: those past it are zeros.
///
/// The buffer of the prefix has room for the whole row, so that no edit takes memory. It is touched only as far
/// as the prefix went so far: bytes put past its end first fill what lies between with zeros.
#[derive(Drop)]
pub(crate) struct Column {
    prefix: Vec<u8>,
    len: usize,
}

impl Model for Column {
    ghost use Rattle.std.specs.Prelude.{ℕ, List, vec_capacity};
    ghost use Rattle.pool_pages.specs.Dense.{with_zeros, IsPrefix};

    ghost Value = { List ℕ };

    ghost view = { λ c. with_zeros c.len c.prefix.items };

    ghost invariant = { λ c. IsPrefix c.len c.prefix.items (vec_capacity c.prefix) };
}

impl Column {
    /// Zeros. The buffer is reserved and isn't touched.
    pub(crate) fn new(alloc: Global, len: usize) -> Result<Column, AllocError>
        ensures { IfOk result (λ c. c ≡ replicate len 0) }
    {
        Ok(Column {
            prefix: Vec::with_capacity(alloc, len)?,
            len,
        })
    }

    #[tactic(auto, using(crate::proofs::Prefixes::column_length))]
    pub(crate) fn len(&self) -> usize
        ensures { result ≡ length self.now }
    {
        self.len
    }

    /// Copies `bytes` over those from `from` on. What lies past the prefix is written once.
    #[tactic(auto, using(crate::proofs::Prefixes::column_length))]
    pub(crate) fn put(&mut self, from: usize, bytes: &[u8])
        requires { from + length bytes.now ≤ length self.old }
        ensures { self.new ≡ put from bytes.now self.old }
    {
        if bytes.len() == 0 {
            return;
        }
        lengthen(&mut self.prefix, from);
        let inside = (self.prefix.len() - from).min(bytes.len());
        let (over, behind) = bytes.split_at(inside);
        overwrite(&mut self.prefix, from, over);
        append(&mut self.prefix, behind);
    }

    /// Sets `count` bytes from `from` on to one value.
    #[tactic(auto, using(crate::proofs::Prefixes::fill_in_prefix, crate::proofs::Prefixes::fill_prefix_long, crate::proofs::Prefixes::column_length))]
    pub(crate) fn fill(&mut self, from: usize, count: usize, value: u8)
        requires { from + count ≤ length self.old }
        ensures { self.new ≡ put_all from count value self.old }
    {
        if value == 0 || count == 0 {
            self.clear(from, count);
            return;
        }
        lengthen(&mut self.prefix, from + count);
        fill_range(&mut self.prefix, from, count, value);
    }

    /// Sets `count` bytes from `from` on to zeros. Where they reach the end of the prefix it is cut there, and
    /// nothing is written.
    #[tactic(auto, using(crate::proofs::Prefixes::clear_past, crate::proofs::Prefixes::clear_end, crate::proofs::Prefixes::clear_inside, crate::proofs::Prefixes::column_length))]
    pub(crate) fn clear(&mut self, from: usize, count: usize)
        requires { from + count ≤ length self.old }
        ensures { self.new ≡ put_all from count 0 self.old }
    {
        if self.prefix.len() <= from {
            return;
        }
        if self.prefix.len() - from <= count {
            self.prefix.truncate(from);
            return;
        }
        fill_range(&mut self.prefix, from, count, 0);
    }

    /// Sets `count` bytes from `from` on to those of another row.
    pub(crate) fn restore(&mut self, origin: &Column, from: usize, count: usize)
        requires inside { from + count ≤ length self.old }
        requires same_length { length origin.now ≡ length self.old }
        ensures { self.new ≡ put from (slice_range origin.now from (from + count)) self.old }
    {
        let kept = origin.kept_part(from, count);
        self.put(from, kept);
        self.clear(from + kept.len(), count - kept.len());
    }

    /// Copies the bytes from `from` on out.
    pub(crate) fn read(&self, from: usize, out: &mut [u8])
        requires { from + length out.old ≤ length self.now }
        ensures { out.new ≡ slice_range self.now from (from + length out.old) }
    {
        copy_with_zeros(self.kept_part(from, out.len()), out);
    }

    /// Whether the bytes from `from` on are `bytes`. They are compared where they lie.
    pub(crate) fn holds(&self, from: usize, bytes: &[u8]) -> bool
        requires { from + length bytes.now ≤ length self.now }
        ensures { IsTrue result ↔ (slice_range self.now from (from + length bytes.now) ≡ bytes.now) }
    {
        is_with_zeros(self.kept_part(from, bytes.len()), bytes)
    }

    // What the prefix has of a range: the rest of the range is zeros.
    fn kept_part(&self, from: usize, count: usize) -> &[u8]
        requires { from + count ≤ length self.now }
        ensures value { with_zeros count result.now ≡ slice_range self.now from (from + count) }
        ensures len { length result.now ≤ count }
        ensures end { from + count < 2 ^ 64 }
    {
        let prefix = self.prefix.as_slice();
        let first = from.min(prefix.len());
        let last = (from + count).min(prefix.len());
        &prefix[first..last]
    }

    /// Shows the prover that places inside the row are no greater than a `usize`. Does nothing.
    pub(crate) fn bounded(&self)
        ensures { length self.now < 2 ^ 64 }
    {
        let _len = self.len();
    }
}

// Adds zeros up to a length, where it is shorter.
fn lengthen(prefix: &mut Vec<u8>, len: usize)
    requires { len ≤ vec_capacity prefix.old }
    ensures items { prefix.new.items ≡ with_zeros len prefix.old.items }
    ensures capacity { vec_capacity prefix.old ≤ vec_capacity prefix.new }
{
    if prefix.len() < len {
        match prefix.resize(len, 0) {
            Ok(()) => {}
            Err(_) => unreachable!(),
        }
    }
}

// Adds bytes behind the prefix, which has room for them: nothing was written there before.
fn append(prefix: &mut Vec<u8>, bytes: &[u8])
    requires { length prefix.old.items + length bytes.now ≤ vec_capacity prefix.old }
    ensures items { prefix.new.items ≡ prefix.old.items ++ bytes.now }
    ensures capacity { vec_capacity prefix.old ≤ vec_capacity prefix.new }
{
    match prefix.extend_from_slice(bytes) {
        Ok(()) => {}
        Err(_) => unreachable!(),
    }
}

// Copies `kept` to the front of `out`, and sets what is behind it to zeros.
fn copy_with_zeros(kept: &[u8], out: &mut [u8])
    requires { length kept.now ≤ length out.old }
    ensures { out.new ≡ with_zeros (length out.old) kept.now }
{
    let head = &mut out[..kept.len()];
    head.copy_from_slice(kept);
    let tail = &mut out[kept.len()..];
    tail.fill(0);
}

// Whether `bytes` are `kept`, and zeros behind it.
fn is_with_zeros(kept: &[u8], bytes: &[u8]) -> bool
    requires { length kept.now ≤ length bytes.now }
    ensures { IsTrue result ↔ (with_zeros (length bytes.now) kept.now ≡ bytes.now) }
{
    let (head, tail) = bytes.split_at(kept.len());
    if kept == head { are_zeros(tail) } else { false }
}

fn are_zeros(bytes: &[u8]) -> bool
    ensures { IsTrue result ↔ (replicate (length bytes.now) 0 ≡ bytes.now) }
{
    bytes.iter().all(|&byte| byte == 0)
}
