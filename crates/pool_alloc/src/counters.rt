//! The pool's counters, by name.
ghost use Rattle.std.specs.Prelude.{◌≡◌, ◌+◌, ◌-◌, ◌<◌, ◌^◌};
ghost use Rattle.pool_alloc.specs.Targets.{CanCountUp, counted_up, number_at, with_number};

use crate::pool_core::Counters;

/// A counter of a pool: one for each field of `Counters`.
#[derive(Clone, Copy, Debug, PartialEq, Eq)]
pub enum CounterName {
    Key,
    CoreInstances,
    ComponentInstances,
    Memories,
    Tables,
    Stacks,
    GcHeaps,
}

impl Counters {
    // Counts one more, of keys modulo 2^64. Answers the number that was found.
    pub(crate) fn up(&mut self, name: CounterName) -> u64
        requires { CanCountUp name (number_at name self.old) }
        ensures found { result ≡ number_at name self.old }
        ensures counted { self.new ≡ with_number name (counted_up name (number_at name self.old)) self.old }
    {
        match name {
            CounterName::Key => {
                let found = self.key;
                self.key = found.wrapping_add(1);
                found
            }
            CounterName::CoreInstances => raise(&mut self.core_instances),
            CounterName::ComponentInstances => raise(&mut self.component_instances),
            CounterName::Memories => raise(&mut self.memories),
            CounterName::Tables => raise(&mut self.tables),
            CounterName::Stacks => raise(&mut self.stacks),
            CounterName::GcHeaps => raise(&mut self.gc_heaps),
        }
    }

    // Counts one less, likewise.
    pub(crate) fn down(&mut self, name: CounterName) -> u64
        requires { 0 < number_at name self.old }
        ensures found { result ≡ number_at name self.old }
        ensures counted { self.new ≡ with_number name (number_at name self.old - 1) self.old }
    {
        match name {
            CounterName::Key => lower(&mut self.key),
            CounterName::CoreInstances => lower(&mut self.core_instances),
            CounterName::ComponentInstances => lower(&mut self.component_instances),
            CounterName::Memories => lower(&mut self.memories),
            CounterName::Tables => lower(&mut self.tables),
            CounterName::Stacks => lower(&mut self.stacks),
            CounterName::GcHeaps => lower(&mut self.gc_heaps),
        }
    }
}

fn raise(count: &mut u64) -> u64
    requires { count.old + 1 < 2 ^ 64 }
    ensures found { result ≡ count.old }
    ensures counted { count.new ≡ count.old + 1 }
{
    let found = *count;
    *count = found + 1;
    found
}

fn lower(count: &mut u64) -> u64
    requires { 0 < count.old }
    ensures found { result ≡ count.old }
    ensures counted { count.new ≡ count.old - 1 }
{
    let found = *count;
    *count = found - 1;
    found
}
