//! A stack that was granted.
ghost use Rattle.std.specs.Prelude.{◌≡◌, ◌+◌, ◌≤◌, length, replicate, slice_range, IfSome};
ghost use Rattle.pool_slots.specs.PlainSlots.{IsPlain, plain_written};

use pool_pages::{PageCalls, Pages};
use pool_slots::{RegionNumbers, Stack};
use std::marker::Model;

/// A stack that was granted, and its slot. It must be given back, or its slot stays used for good.
#[derive(Drop)]
pub struct StackLease<P: Pages> {
    pub stack: Stack<P>,
    /// What the unit of the stack's region tells since it left its cell.
    pub numbers: RegionNumbers,
}

impl<P: Pages> Model for StackLease<P> {
    ghost use Rattle.pool_alloc.specs.StackLeases.{LeasedStack};

    ghost Value = { LeasedStack };

    ghost view = { λ l. record { stack = l.stack; numbers = l.numbers } };
}

impl<P: Pages> StackLease<P> {
    /// The slot that the stack is in.
    pub fn index(&self) -> u32
        ensures { result ≡ self.now.stack.index }
    {
        self.stack.index()
    }

    /// How many usable bytes the stack has.
    pub fn len(&self) -> usize
        ensures value { result ≡ self.now.stack.slot.static_size }
        ensures plain { IsPlain self.now.stack.slot }
    {
        self.stack.len()
    }

    /// Reads usable bytes from `at` on.
    pub fn read(&self, at: usize, out: &mut [u8])
        requires { at + length out.old ≤ self.now.stack.slot.static_size }
        ensures { IfSome self.now.stack.slot.region.contents (λ c. out.new ≡ slice_range c.bytes (self.now.stack.slot.base.bytes + at) (self.now.stack.slot.base.bytes + at + length out.old)) }
    {
        self.stack.read(at, out)
    }

    /// Writes usable bytes from `at` on.
    pub fn write(&mut self, at: usize, bytes: &[u8])
        requires { at + length bytes.now ≤ self.old.stack.slot.static_size }
        ensures written { self.new ≡ record self.old { stack = record self.old.stack { slot = plain_written at bytes.now self.old.stack.slot } } }
        ensures plain { IsPlain self.new.stack.slot }
    {
        self.stack.write(at, bytes);
        let _len = self.stack.len();
    }

    /// Sets `len` usable bytes from `at` on to one value, as a write of them all does.
    pub fn fill(&mut self, at: usize, len: usize, byte: u8)
        requires { at + len ≤ self.old.stack.slot.static_size }
        ensures written { self.new ≡ record self.old { stack = record self.old.stack { slot = plain_written at (replicate len byte) self.old.stack.slot } } }
        ensures plain { IsPlain self.new.stack.slot }
    {
        self.stack.fill(at, len, byte);
        let _len = self.stack.len();
    }

    /// The calls made so far on the stack's region.
    pub fn page_calls(&self) -> PageCalls
        ensures { result ≡ self.now.stack.slot.region.calls }
    {
        self.stack.page_calls()
    }
}
