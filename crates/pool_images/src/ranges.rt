ghost use Rattle.std.specs.Prelude.{◌≡◌, ◌<◌, ◌≤◌, [], ◌∷◌, ◌++◌, length};

use arrayvec::ArrayVec;
use std::marker::Model;

/// How many ranges a reset leaves at most.
pub const MAX_RANGES: usize = 8;

/// A range of a slot that is to be decommitted, in bytes from the slot's base on.
#[derive(Clone, Copy, Debug, Default, PartialEq, Eq)]
pub struct ByteRange {
    pub start: usize,
    pub len: usize,
}

/// The ranges that a reset leaves to be decommitted, at most `MAX_RANGES`. Takes no memory.
#[derive(Drop)]
pub struct Ranges {
    list: ArrayVec<ByteRange, MAX_RANGES>,
}

impl Model for Ranges {
    ghost use Rattle.std.specs.Prelude.{List};
    ghost use Rattle.pool_images.specs.declared.ranges.ByteRange.{ByteRange};

    ghost Value = { List ByteRange };

    ghost view = { λ r. r.list.items };
}

impl Ranges {
    pub fn new() -> Self
        ensures { result ≡ [] }
    {
        Ranges {
            list: ArrayVec::new(),
        }
    }

    pub fn len(&self) -> usize
        ensures value { result ≡ length self.now }
        ensures fits { result ≤ MAX_RANGES }
    {
        self.list.len()
    }

    pub fn as_slice(&self) -> &[ByteRange]
        ensures { result.now ≡ self.now }
    {
        self.list.as_slice()
    }

    pub fn push(&mut self, range: ByteRange)
        requires { length self.old < MAX_RANGES }
        ensures { self.new ≡ self.old ++ range ∷ [] }
    {
        self.list.push(range);
    }
}
