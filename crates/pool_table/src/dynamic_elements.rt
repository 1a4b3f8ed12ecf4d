ghost use Rattle.std.specs.Prelude.{[], ◌≡◌, ◌↔◌, ◌+◌, ◌-◌, ◌<◌, ◌≤◌, ◌++◌, length, replicate, is_ok, nat_lt, slice_get, IsTrue, Some, IfOk, IfErr, OnOk, OnErr};
ghost use Rattle.pool_pages.specs.Contents.{put_all};
ghost use Rattle.pool_limits.specs.declared.errors.Trap.TheVariants.{TableOutOfBounds};
ghost use Rattle.pool_table.specs.Elements.{empty};
ghost use Rattle.pool_table.specs.Tables.{table_access};

use crate::element_rule::ElementRule;
use pool_limits::Trap;
use std::alloc::{AllocError, Global};
use std::marker::Model;

/// A table of one kind of elements, which it has in a list of its own.
#[derive(Drop)]
pub struct DynamicElements<K: ElementRule> {
    rule: K,
    elements: Vec<K::Item>,
    maximum: usize,
}

impl<K: ElementRule> Model for DynamicElements<K> {
    ghost use Rattle.std.specs.Prelude.{◌≤◌, length, map};
    ghost use Rattle.pool_table.specs.Views.{ListedTable};

    ghost Value = { ListedTable };

    ghost view = { λ t. record { kind = K.kind t.rule; maximum = t.maximum; elements = map K.element t.elements.items } };

    ghost invariant = { λ t. length t.elements.items ≤ t.maximum };
}

impl<K: ElementRule> DynamicElements<K> {
    /// A table of no elements, which may have none. Takes no memory.
    pub(crate) fn none(alloc: Global, rule: K) -> Self
        ensures { result ≡ record { kind = K.kind rule; maximum = 0; elements = [] } }
    {
        DynamicElements {
            rule,
            elements: Vec::new(alloc),
            maximum: 0,
        }
    }

    /// A table of `size` empty elements that may have up to `maximum` of them.
    pub(crate) fn new(
        alloc: Global,
        rule: K,
        size: usize,
        maximum: usize,
    ) -> Result<Self, AllocError>
        requires { size ≤ maximum }
        ensures { IfOk result (λ t. t ≡ record { kind = K.kind rule; maximum = maximum; elements = replicate size (empty (K.kind rule)) }) }
    {
        let mut elements = Vec::new(alloc);
        elements.resize(size, rule.empty())?;
        Ok(DynamicElements {
            rule,
            elements,
            maximum,
        })
    }

    /// How many elements the table has.
    pub fn size(&self) -> usize
        ensures value { result ≡ length self.now.elements }
        ensures within { length self.now.elements ≤ self.now.maximum }
    {
        self.elements.len()
    }

    /// How many elements it may have.
    pub fn maximum(&self) -> usize
        ensures { result ≡ self.now.maximum }
    {
        self.maximum
    }

    /// Whether no element was set to another than the empty one.
    pub fn is_all_zero(&self) -> bool
        ensures { IsTrue result ↔ (self.now.elements ≡ replicate (length self.now.elements) (empty self.now.kind)) }
    {
        for index in 0..self.elements.len() {
            if !self.rule.is_empty(self.elements[index]) {
                return false;
            }
        }
        true
    }

    /// All elements become empty.
    pub fn manually_memset_zeros(&mut self)
        ensures { self.new ≡ record self.old { elements = replicate (length self.old.elements) (empty self.old.kind) } }
    {
        let empty = self.rule.empty();
        let count = self.elements.len();
        self.fill_elements(0, empty, count);
    }

    /// The element with this number.
    pub fn get(&self, index: u64) -> Result<K::Item, Trap>
        ensures answer { is_ok result ≡ nat_lt index (length self.now.elements) }
        ensures value { IfOk result (λ x. slice_get self.now.elements index ≡ Some (K.element x)) }
        ensures trap { IfErr result (λ e. e ≡ TableOutOfBounds) }
    {
        if index >= self.elements.len() as u64 {
            return Err(Trap::TableOutOfBounds);
        }
        Ok(self.element(index as usize))
    }

    fn element(&self, index: usize) -> K::Item
        requires { index < length self.now.elements }
        ensures { slice_get self.now.elements index ≡ Some (K.element result) }
    {
        self.elements[index]
    }

    /// Sets `len` elements from `dst` on to this one, or nothing where they pass the size. Takes no memory.
    pub fn fill(&mut self, dst: u64, item: K::Item, len: u64) -> Result<(), Trap>
        ensures answer { result ≡ table_access (dst + len) (length self.old.elements) }
        ensures filled { OnOk result (self.new ≡ record self.old { elements = put_all dst len (K.element item) self.old.elements }) }
        ensures same { OnErr result (self.new ≡ self.old) }
    {
        let size = self.elements.len() as u64;
        if dst > size || len > size - dst {
            return Err(Trap::TableOutOfBounds);
        }
        self.fill_elements(dst as usize, item, len as usize);
        Ok(())
    }

    fn fill_elements(&mut self, first: usize, item: K::Item, count: usize)
        requires { first + count ≤ length self.old.elements }
        ensures { self.new ≡ record self.old { elements = put_all first count (K.element item) self.old.elements } }
    {
        fill_items(&mut self.elements, first, item, count);
    }

    /// Has so many elements, of which it may have so many. The new ones are empty. Without memory it is as it was.
    pub(crate) fn take_elements(&mut self, size: usize) -> Result<(), AllocError>
        requires more { length self.old.elements ≤ size }
        requires room { size ≤ self.old.maximum }
        ensures ok { OnOk result (self.new ≡ record self.old { elements = self.old.elements ++ replicate (size - length self.old.elements) (empty self.old.kind) }) }
        ensures err { OnErr result (self.new ≡ self.old) }
    {
        let empty = self.rule.empty();
        self.elements.resize(size, empty)?;
        Ok(())
    }
}

// Sets a part of a list to one item.
fn fill_items<T: Copy + Drop>(items: &mut Vec<T>, first: usize, item: T, count: usize)
    requires { first + count ≤ length items.old.items }
    ensures { items.new.items ≡ put_all first count item items.old.items }
{
    for index in first..first + count {
        items[index] = item;
    }
}
