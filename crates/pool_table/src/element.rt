ghost use Rattle.std.specs.Prelude.{◌≡◌, ℕ};
ghost use Rattle.pool_table.specs.Elements.{element_size, ReadsBack, ZeroIsEmpty};

use pool_types::TableElementType;

/// A function by its name, which is even and above zero, or null.
pub type FuncTableElem = Option<u64>;

/// A continuation, whose reference is above zero, or null.
pub type ContTableElem = Option<VMContObj>;

/// A continuation: what it refers to, and which use of that.
#[derive(Clone, Copy, Debug, PartialEq, Eq)]
pub struct VMContObj {
    pub contref: u64,
    pub revision: u64,
}

/// The size in bytes of the elements that a table's room is reckoned by.
pub const NOMINAL_MAX_TABLE_ELEM_SIZE: usize = 8;

/// How large the elements of a table are.
pub trait ElementSize {
    ghost size: { Self → ℕ };

    /// In bytes.
    fn element_size(&self) -> usize
        ensures { result ≡ size self.now };
}

impl ElementSize for TableElementType {
    ghost size = { element_size };

    fn element_size(&self) -> usize {
        match self {
            TableElementType::Func => 8,
            TableElementType::GcRef => 4,
            TableElementType::Cont => 16,
        }
    }
}

/// What is written to a table as a word reads back as itself, and a word that was never written is the empty element.
/// Costs nothing: the laws are facts about what the calls' contracts say.
pub fn words_read_back()
    ensures written { ReadsBack }
    ensures zero { ZeroIsEmpty }
{}
