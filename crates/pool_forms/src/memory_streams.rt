ghost use Rattle.std.specs.Prelude.{◌≡◌, ◌++◌, ◌≤◌, Some, [], length, drop};
ghost use Rattle.pool_types.specs.Rising.{Rose};

use crate::streams::{Failed, Sink, Source};
use pool_types::{ByteList, PlainList};
use std::alloc::Global;

/// Counts the calls of a stream, and those that failed.
#[derive(Debug, Drop)]
pub struct CallCount {
    failing: PlainList<u64>,
    made: u64,
    pub faults: u64,
}

impl CallCount {
    fn new(failing: PlainList<u64>) -> Self
        ensures { result.faults ≡ 0 }
    {
        CallCount {
            failing,
            made: 0,
            faults: 0,
        }
    }

    /// Counts a call, and says whether it is listed.
    fn next_fails(&mut self) -> bool
        ensures { self.new.faults ≡ self.old.faults }
    {
        self.made = self.made.saturating_add(1);
        self.failing.as_slice().contains(&self.made)
    }

    fn count_fault(&mut self)
        ensures { Rose self.old.faults self.new.faults }
    {
        self.faults = self.faults.saturating_add(1);
    }
}

/// Puts the bytes at the front.
fn put(out: &mut [u8], bytes: &[u8])
    requires { length bytes.now ≤ length out.old }
    ensures { out.new ≡ bytes.now ++ drop (length bytes.now) out.old }
{
    out[..bytes.len()].copy_from_slice(bytes);
}

/// Gives the bytes of a list, in pieces of at most some length. The calls of the numbers listed fail, the first
/// being call 1.
#[derive(Debug, Drop)]
pub struct MemorySource {
    bytes: ByteList,
    at: usize,
    most: usize,
    count: CallCount,
}

impl MemorySource {
    /// Pieces are of at least one byte.
    pub fn new(bytes: ByteList, most: usize, failing: PlainList<u64>) -> Self
        ensures { ⟦<MemorySource as Source>⟧.told result ≡ record { rest = Some bytes; faults = 0 } }
    {
        MemorySource {
            bytes,
            at: 0,
            most,
            count: CallCount::new(failing),
        }
    }
}

impl Source for MemorySource {
    ghost told = { λ s. record { rest = Some (drop s.at s.bytes); faults = s.count.faults } };

    fn faults(&self) -> u64 {
        self.count.faults
    }

    fn read(&mut self, out: &mut [u8]) -> Result<usize, Failed> {
        if self.count.next_fails() {
            self.count.count_fault();
            return Err(Failed);
        }
        let (_, rest) = self
            .bytes
            .as_slice()
            .split_at(self.at.min(self.bytes.len()));
        let n = out.len().min(self.most.max(1)).min(rest.len());
        let (piece, _) = rest.split_at(n);
        put(out, piece);
        self.at += n;
        Ok(n)
    }
}

/// Keeps what it takes, in pieces of at most some length. The calls of the numbers listed fail, the first being call 1.
#[derive(Debug, Drop)]
pub struct MemorySink {
    taken: Vec<u8>,
    most: usize,
    count: CallCount,
}

impl MemorySink {
    /// Pieces are of at least one byte.
    pub fn new(alloc: Global, most: usize, failing: PlainList<u64>) -> Self
        ensures { ⟦<MemorySink as Sink>⟧.told result ≡ record { taken = Some []; faults = 0 } }
    {
        MemorySink {
            taken: Vec::new(alloc),
            most,
            count: CallCount::new(failing),
        }
    }

    pub fn taken(&self) -> &[u8]
        ensures { (⟦<MemorySink as Sink>⟧.told self.now).taken ≡ Some result.now }
    {
        self.taken.as_slice()
    }
}

impl Sink for MemorySink {
    ghost told = { λ s. record { taken = Some s.taken.items; faults = s.count.faults } };

    fn faults(&self) -> u64 {
        self.count.faults
    }

    /// A piece that it has no memory for fails too.
    fn write(&mut self, bytes: &[u8]) -> Result<usize, Failed> {
        if self.count.next_fails() {
            self.count.count_fault();
            return Err(Failed);
        }
        let n = bytes.len().min(self.most.max(1));
        let (piece, _) = bytes.split_at(n);
        if self.taken.extend_from_slice(piece).is_err() {
            self.count.count_fault();
            return Err(Failed);
        }
        Ok(n)
    }
}
