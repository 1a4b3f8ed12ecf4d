ghost use Rattle.std.specs.Prelude.{◌≡◌, ◌+◌, ◌-◌, ◌*◌, ◌^◌, ◌<◌, ◌≤◌, length, replicate, is_ok, nat_lt, slice_get, IsTrue, ◌↔◌, Some, IfSome, IfOk, IfErr, OnOk, OnErr};
ghost use Rattle.std.specs.List.{concat};
ghost use Rattle.pool_pages.specs.Contents.{CanReach};
ghost use Rattle.pool_pages.specs.Told.{TellsShaped, IsRange, Faulted, succeeded, passes, decommitting};
ghost use Rattle.pool_limits.specs.declared.errors.Trap.TheVariants.{TableOutOfBounds};
ghost use Rattle.pool_table.specs.Elements.{functions, gc_refs, continuations, func, gc_ref, cont, IsElement, IsFunc, IsGc, IsCont, width};
ghost use Rattle.pool_table.specs.Tables.{IsTable, Rewrites, Fills, Empties, ZeroesBytes, GrowsBy, IsZeroWord, WordsAreZero, elements, table_access};

use crate::element::{ContTableElem, FuncTableElem};
use crate::element_rule::{ContRule, ElementRule, FuncRule, GcRefRule};
use pool_limits::Trap;
use pool_pages::{PageFault, Pages};
use pool_types::HostAlignedByteCount;
use std::marker::Model;

/// A table of one kind of elements, which lie in a region that it owns.
#[derive(Drop)]
pub struct StaticElements<K: ElementRule, P: Pages> {
    rule: K,
    region: P,
    size: usize,
    maximum: usize,
}

impl<K: ElementRule, P: Pages> Model for StaticElements<K, P> {
    ghost use Rattle.pool_table.specs.Tables.{TableState, IsTable};

    ghost Value = { TableState };

    ghost view = { λ t. record { kind = K.kind t.rule; size = t.size; maximum = t.maximum; region = P.told t.region } };

    ghost invariant = { λ t. IsTable (record { kind = K.kind t.rule; size = t.size; maximum = t.maximum; region = P.told t.region }) };
}

impl<K: ElementRule, P: Pages> StaticElements<K, P> {
    /// A table of `size` elements that may have up to `maximum` of them.
    pub(crate) fn new(rule: K, region: P, size: usize, maximum: usize) -> Self
        requires { IsTable (record { kind = K.kind rule; size = size; maximum = maximum; region = P.told region }) }
        ensures { result ≡ record { kind = K.kind rule; size = size; maximum = maximum; region = P.told region } }
    {
        StaticElements {
            rule,
            region,
            size,
            maximum,
        }
    }

    /// How many elements the table has.
    pub fn size(&self) -> usize
        ensures value { result ≡ self.now.size }
        ensures always { IsTable self.now }
    {
        self.size
    }

    /// How many elements it may have.
    pub fn maximum(&self) -> usize
        ensures value { result ≡ self.now.maximum }
        ensures always { IsTable self.now }
    {
        self.maximum
    }

    /// The region in which the elements lie.
    pub fn region(&self) -> &P
        ensures { P.told result.now ≡ self.now.region }
    {
        &self.region
    }

    /// The region, in which the elements still lie.
    pub fn into_region(self) -> P
        ensures value { P.told result ≡ self.region }
        ensures holds { IsTable self }
    {
        self.region
    }

    /// Whether no element's word has a bit set.
    pub fn is_all_zero(&self) -> bool
        ensures { IfSome self.now.region.contents (λ c. IsTrue result ↔ WordsAreZero self.now c.bytes) }
    {
        for index in 0..self.size {
            if !self.is_zero(index) {
                return false;
            }
        }
        true
    }

    fn is_zero(&self, index: usize) -> bool
        requires { index < self.now.size }
        ensures { IfSome self.now.region.contents (λ c. IsTrue result ↔ IsZeroWord self.now.kind index c.bytes) }
    {
        let width = self.rule.width();
        let mut word = [0; 16];
        self.region.read(index * width, &mut word[..width]);
        are_zeros(&word[..width])
    }

    /// All elements become empty, by a write.
    pub fn manually_memset_zeros(&mut self)
        ensures { Empties self.old self.new }
    {
        let len = self.size * self.rule.width();
        self.region.fill(0, len, 0);
    }

    /// These bytes of the region become zeros, by a write.
    pub fn zero_range(&mut self, start: usize, len: usize)
        requires inside { start + len ≤ self.old.region.len }
        requires reachable { IfSome self.old.region.contents (CanReach start len) }
        ensures { ZeroesBytes start len self.old self.new }
    {
        self.region.fill(start, len, 0);
    }

    /// As `Pages::decommit`: these bytes of the region become zeros, which they go back to.
    pub fn decommit(
        &mut self,
        start: HostAlignedByteCount,
        len: HostAlignedByteCount,
    ) -> Result<(), PageFault>
        requires { IsRange start len self.old.region }
        ensures same { self.new ≡ record self.old { region = self.new.region } }
        ensures ok { OnOk result (self.new.region ≡ succeeded (decommitting start.bytes len.bytes) self.old.region) }
        ensures fault { OnErr result (Faulted (decommitting start.bytes len.bytes) self.old.region self.new.region) }
        ensures planned { IfSome self.old.region.plan (λ plan. is_ok result ≡ passes plan (decommitting start.bytes len.bytes) self.old.region) }
    {
        self.region.decommit(start, len)
    }

    /// The element with this number.
    pub fn get(&self, index: u64) -> Result<K::Item, Trap>
        ensures answer { is_ok result ≡ nat_lt index self.now.size }
        ensures value { IfOk result (λ x. IfSome (elements self.now) (λ es. slice_get es index ≡ Some (K.element x))) }
        ensures trap { IfErr result (λ e. e ≡ TableOutOfBounds) }
    {
        if index >= self.size as u64 {
            return Err(Trap::TableOutOfBounds);
        }
        Ok(self.element(index as usize))
    }

    fn element(&self, index: usize) -> K::Item
        requires { index < self.now.size }
        ensures { IfSome (elements self.now) (λ es. slice_get es index ≡ Some (K.element result)) }
    {
        let width = self.rule.width();
        let mut word = [0; 16];
        self.region.read(index * width, &mut word[..width]);
        self.rule.decode(&word[..width])
    }

    /// Sets `len` elements from `dst` on to this one, or nothing where they pass the size. Takes no memory.
    pub fn fill(&mut self, dst: u64, item: K::Item, len: u64) -> Result<(), Trap>
        requires { IsElement self.old.kind (K.element item) }
        ensures answer { result ≡ table_access (dst + len) self.old.size }
        ensures filled { OnOk result (Fills dst len (K.element item) self.old self.new) }
        ensures same { OnErr result (self.new ≡ self.old) }
    {
        let inside = self.has(dst, len);
        if !inside {
            return Err(Trap::TableOutOfBounds);
        }
        self.fill_elements(dst as usize, item, len as usize);
        Ok(())
    }

    fn has(&self, dst: u64, len: u64) -> bool
        ensures { IsTrue result ↔ (dst + len ≤ self.now.size) }
    {
        let size = self.size as u64;
        dst <= size && len <= size - dst
    }

    fn fill_elements(&mut self, first: usize, item: K::Item, count: usize)
        requires valid { IsElement self.old.kind (K.element item) }
        requires inside { first + count ≤ self.old.size }
        ensures { Fills first count (K.element item) self.old self.new }
    {
        let width = self.rule.width();
        let mut word = [0; 16];
        self.rule.encode(item, &mut word[..width]);
        write_words(&mut self.region, first * width, &word[..width], count);
    }
}

impl<K: ElementRule, P: Pages> StaticElements<K, P> {
    /// Has so many elements, of which it may have so many. The new ones are empty.
    pub(crate) fn take_elements(&mut self, size: usize)
        requires more { self.old.size ≤ size }
        requires room { size ≤ self.old.maximum }
        ensures { GrowsBy (size - self.old.size) self.old self.new }
    {
        self.size = size;
    }
}

impl<P: Pages> StaticElements<FuncRule, P> {
    /// Whether its functions are initialised when they are first read.
    pub fn is_lazy(&self) -> bool
        ensures { self.now.kind ≡ functions result }
    {
        self.rule.lazy
    }

    /// Sets `len` functions from `dst` on to this one, or none where they pass the size. Takes no memory.
    pub fn fill_func(&mut self, dst: u64, val: FuncTableElem, len: u64) -> Result<(), Trap>
        requires { IsFunc val }
        ensures answer { result ≡ table_access (dst + len) self.old.size }
        ensures filled { OnOk result (Fills dst len (func val) self.old self.new) }
        ensures same { OnErr result (self.new ≡ self.old) }
    {
        let _lazy = self.is_lazy();
        self.fill(dst, Some(val), len)
    }
}

impl<P: Pages> StaticElements<ContRule, P> {
    /// Sets `len` continuations from `dst` on to this one, or none where they pass the size. Takes no memory.
    pub fn fill_cont(&mut self, dst: u64, val: ContTableElem, len: u64) -> Result<(), Trap>
        requires { IsCont val }
        ensures answer { result ≡ table_access (dst + len) self.old.size }
        ensures filled { OnOk result (Fills dst len (cont val) self.old self.new) }
        ensures same { OnErr result (self.new ≡ self.old) }
    {
        self.has_continuations();
        self.fill(dst, val, len)
    }

    // What holds of every such table, for the proofs of its callers here.
    fn has_continuations(&self)
        ensures { self.now.kind ≡ continuations }
    {
        let _size = self.size;
    }
}

impl<P: Pages> StaticElements<GcRefRule, P> {
    /// Sets `len` references from `dst` on to this one, or none where they pass the size. No store is told. Takes no
    /// memory.
    pub fn fill_gc_ref(&mut self, dst: u64, val: Option<u32>, len: u64) -> Result<(), Trap>
        requires { IsGc val }
        ensures answer { result ≡ table_access (dst + len) self.old.size }
        ensures filled { OnOk result (Fills dst len (gc_ref val) self.old self.new) }
        ensures same { OnErr result (self.new ≡ self.old) }
    {
        self.has_gc_refs();
        self.fill(dst, val, len)
    }

    // What holds of every such table, for the proofs of its callers here.
    fn has_gc_refs(&self)
        ensures { self.now.kind ≡ gc_refs }
    {
        let _size = self.size;
    }
}

// Writes the word so often from a place on.
fn write_words<P: Pages>(region: &mut P, at: usize, word: &[u8], count: usize)
    requires inside { at + count * length word.now ≤ (P.told region.old).len }
    requires bounded { (P.told region.old).len < 2 ^ 64 }
    requires page { 0 < (P.told region.old).page }
    requires reachable { IfSome (P.told region.old).contents (CanReach at (count * length word.now)) }
    requires shaped { TellsShaped (P.told region.old) }
    ensures words { Rewrites at (concat (replicate count word.now)) (P.told region.old) (P.told region.new) }
    ensures shaped { TellsShaped (P.told region.new) }
{
    // asked so that the prover knows its marks
    let _len = region.len();
    let width = word.len();
    for i in 0..count {
        region.write(at + i * width, word);
    }
}

fn are_zeros(bytes: &[u8]) -> bool
    ensures { IsTrue result ↔ (bytes.now ≡ replicate (length bytes.now) 0) }
{
    bytes.iter().all(|&byte| byte == 0)
}
