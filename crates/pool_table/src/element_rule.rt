ghost use Rattle.std.specs.Prelude.{◌≡◌, ◌↔◌, ℕ, length, take, drop, IsTrue};
ghost use Rattle.std.specs.Int.{w32, w64, from_le_bytes};
ghost use Rattle.pool_table.specs.Elements.{ElementKind, Element, functions, gc_refs, continuations, gc_ref, cont, width, IsElement, word, element_of, empty, func_item};

use crate::element::{ContTableElem, FuncTableElem, VMContObj};

/// The rule by which the elements of one kind lie in a region: each as its word, the lowest byte first.
pub trait ElementRule: Copy + Drop {
    /// An element.
    type Item: Copy + Drop;

    ghost kind: { Self → ElementKind };

    ghost element: { Self.Item → Element };

    /// How many bytes a word has.
    fn width(&self) -> usize
        ensures { result ≡ width (kind self.now) };

    /// Writes the element's word.
    fn encode(&self, item: Self::Item, out: &mut [u8])
        requires valid { IsElement (kind self.now) (element item) }
        requires room { length out.old ≡ width (kind self.now) }
        ensures { out.new ≡ word (kind self.now) (element item) };

    /// The element of a word.
    fn decode(&self, bytes: &[u8]) -> Self::Item
        requires { length bytes.now ≡ width (kind self.now) }
        ensures { element result ≡ element_of (kind self.now) bytes.now };

    /// The element of a place where nothing was set yet.
    fn empty(&self) -> Self::Item
        ensures { element result ≡ empty (kind self.now) };

    fn is_empty(&self, item: Self::Item) -> bool
        ensures { IsTrue result ↔ (element item ≡ empty (kind self.now)) };
}

/// Functions. In a lazy table a function is initialised when it is first read: its word is 0 until then, 1 for null, and
/// otherwise the name with its lowest bit set. In an eager one the word is 0 for null, and otherwise the name.
#[derive(Clone, Copy, Debug, PartialEq, Eq)]
pub struct FuncRule {
    pub lazy: bool,
}

impl ElementRule for FuncRule {
    /// None where the function isn't initialised.
    type Item = Option<FuncTableElem>;

    ghost kind = { λ r. functions r.lazy };

    ghost element = { func_item };

    fn width(&self) -> usize {
        8
    }

    fn encode(&self, item: Option<FuncTableElem>, out: &mut [u8]) {
        let number = match item {
            None => 0,
            Some(None) => self.lazy as u64,
            Some(Some(name)) => name + self.lazy as u64,
        };
        out.copy_from_slice(&number.to_le_bytes());
    }

    fn decode(&self, bytes: &[u8]) -> Option<FuncTableElem> {
        let number = long_word(bytes);
        if self.lazy {
            match number {
                0 => None,
                1 => Some(None),
                _ => Some(Some(number - number % 2)),
            }
        } else {
            match number {
                0 => Some(None),
                _ => Some(Some(number)),
            }
        }
    }

    fn empty(&self) -> Option<FuncTableElem> {
        if self.lazy { None } else { Some(None) }
    }

    fn is_empty(&self, item: Option<FuncTableElem>) -> bool {
        match item {
            None => self.lazy,
            Some(None) => !self.lazy,
            Some(Some(_)) => false,
        }
    }
}

/// References of a collector: the word is 0 for null, and otherwise the reference.
#[derive(Clone, Copy, Debug, PartialEq, Eq)]
pub struct GcRefRule;

impl ElementRule for GcRefRule {
    type Item = Option<u32>;

    ghost kind = { λ _. gc_refs };

    ghost element = { λ r. gc_ref r };

    fn width(&self) -> usize {
        4
    }

    fn encode(&self, item: Option<u32>, out: &mut [u8]) {
        let number = item.unwrap_or(0);
        out.copy_from_slice(&number.to_le_bytes());
    }

    fn decode(&self, bytes: &[u8]) -> Option<u32> {
        match short_word(bytes) {
            0 => None,
            number => Some(number),
        }
    }

    fn empty(&self) -> Option<u32> {
        None
    }

    fn is_empty(&self, item: Option<u32>) -> bool {
        item.is_none()
    }
}

/// Continuations: the word is zeros for null, and otherwise the reference and the revision.
#[derive(Clone, Copy, Debug, PartialEq, Eq)]
pub struct ContRule;

impl ElementRule for ContRule {
    type Item = ContTableElem;

    ghost kind = { λ _. continuations };

    ghost element = { λ c. cont c };

    fn width(&self) -> usize {
        16
    }

    fn encode(&self, item: ContTableElem, out: &mut [u8]) {
        let (contref, revision) = match item {
            None => (0, 0),
            Some(object) => (object.contref, object.revision),
        };
        out[..8].copy_from_slice(&contref.to_le_bytes());
        out[8..].copy_from_slice(&revision.to_le_bytes());
    }

    fn decode(&self, bytes: &[u8]) -> ContTableElem {
        let contref = long_word(&bytes[..8]);
        let revision = long_word(&bytes[8..]);
        match contref {
            0 => None,
            _ => Some(VMContObj { contref, revision }),
        }
    }

    fn empty(&self) -> ContTableElem {
        None
    }

    fn is_empty(&self, item: ContTableElem) -> bool {
        item.is_none()
    }
}

fn long_word(bytes: &[u8]) -> u64
    requires { length bytes.now ≡ 8 }
    ensures { result ≡ from_le_bytes w64 bytes.now }
{
    let mut word = [0; 8];
    word.copy_from_slice(bytes);
    u64::from_le_bytes(word)
}

fn short_word(bytes: &[u8]) -> u32
    requires { length bytes.now ≡ 4 }
    ensures { result ≡ from_le_bytes w32 bytes.now }
{
    let mut word = [0; 4];
    word.copy_from_slice(bytes);
    u32::from_le_bytes(word)
}
