ghost use Rattle.std.specs.Prelude.{◌≡◌, Ok};
ghost use Rattle.pool_limits.specs.declared.growing.Growable.TheVariants.{Memory, Table};
ghost use Rattle.pool_limits.specs.Growth.{memory_answer, table_answer, memory_failure, table_failure};
ghost use Rattle.pool_limits.specs.LimiterTold.{LimiterCounts, LimiterTold, counts_after, after_answer, after_report, told_by_default, unlimited};
ghost use Rattle.pool_limits.specs.Exchanges.{Exchange, may_grow, has_failed, question_of, HeedsGrowth};

use crate::errors::{GrowError, LimiterError};

/// How many instances a store may have where its limiter doesn't say.
pub const DEFAULT_INSTANCE_LIMIT: usize = 10_000;

/// How many tables a store may have where its limiter doesn't say.
pub const DEFAULT_TABLE_LIMIT: usize = 10_000;

/// How many memories a store may have where its limiter doesn't say.
pub const DEFAULT_MEMORY_LIMIT: usize = 10_000;

/// Decides whether memories and tables may grow, and is told of growth that failed.
///
/// Sizes are in bytes for a memory, and in elements for a table. An answer of no raises `noes`, an error
/// raises `errors`, and each other call leaves both. A limiter may tell contracts by which rule it decides;
/// its answers are those of the rule then.
///
/// A type that has nothing to say but whether things may grow implements `GrowthLimiter`, which gives it
/// defaults for the rest. They are no bodies of this trait, because a body is proved for all limiters at
/// once: none that answers `Ok` fits those by whose rule a reported failure is an error.
pub trait ResourceLimiter {
    ghost told: { Self → LimiterTold };

    // Which state a question with this answer, or the report of a failure with this answer, may lead to. Code that is
    // written for every limiter can show that it asked something only by asking it.
    ghost leads: { Self → Exchange → Self → Type 0 } = { λ _ _ _. Unit {0} };

    /// Whether a memory of size `current` may grow to `desired`. Its type's greatest size is `maximum`.
    fn memory_growing(
        &mut self,
        current: usize,
        desired: usize,
        maximum: Option<usize>,
    ) -> Result<bool, LimiterError>
        ensures answer { result ≡ memory_answer (told self.old).rule result desired maximum }
        ensures left { told self.new ≡ after_answer result (told self.old) }
        ensures exchange { leads self.old (may_grow (question_of Memory current desired maximum) result) self.new };

    /// The growth of a memory failed. An error makes a trap of it.
    fn memory_grow_failed(&mut self, error: GrowError) -> Result<(), LimiterError>
        ensures answer { result ≡ memory_failure (told self.old).rule result }
        ensures left { told self.new ≡ after_report result (told self.old) }
        ensures exchange { leads self.old (has_failed Memory error result) self.new };

    /// Whether a table of size `current` may grow to `desired`. The greatest size is `maximum`.
    fn table_growing(
        &mut self,
        current: usize,
        desired: usize,
        maximum: Option<usize>,
    ) -> Result<bool, LimiterError>
        ensures answer { result ≡ table_answer (told self.old).rule result desired maximum }
        ensures left { told self.new ≡ after_answer result (told self.old) }
        ensures exchange { leads self.old (may_grow (question_of Table current desired maximum) result) self.new };

    /// The growth of a table failed. An error makes a trap of it.
    fn table_grow_failed(&mut self, error: GrowError) -> Result<(), LimiterError>
        ensures answer { result ≡ table_failure (told self.old).rule result }
        ensures left { told self.new ≡ after_report result (told self.old) }
        ensures exchange { leads self.old (has_failed Table error result) self.new };

    /// How many instances a host may make for the store.
    fn instances(&self) -> usize
        ensures { result ≡ (told self.now).quotas.instances };

    /// How many tables a host may make for the store.
    fn tables(&self) -> usize
        ensures { result ≡ (told self.now).quotas.tables };

    /// How many memories a host may make for the store.
    fn memories(&self) -> usize
        ensures { result ≡ (told self.now).quotas.memories };

    /// How often the answer was no. Stands still at the end of its type.
    fn noes(&self) -> u64
        ensures { result ≡ (told self.now).counts.noes };

    /// How often the answer was an error. Stands still at the end of its type.
    fn errors(&self) -> u64
        ensures { result ≡ (told self.now).counts.errors };
}

/// A limiter that says only whether memories and tables may grow. As a `ResourceLimiter` it has the defaults
/// for the rest: it takes no notice of failures, and its host may make 10,000 of each thing.
pub trait GrowthLimiter {
    ghost counts: { Self → LimiterCounts };

    // As `ResourceLimiter::leads`. Failures aren't reported to it.
    ghost heeds: { Self → Exchange → Self → Type 0 } = { λ _ _ _. Unit {0} };

    /// As `ResourceLimiter::memory_growing`.
    fn may_grow_memory(
        &mut self,
        current: usize,
        desired: usize,
        maximum: Option<usize>,
    ) -> Result<bool, LimiterError>
        ensures exchange { heeds self.old (may_grow (question_of Memory current desired maximum) result) self.new }
        ensures left { counts self.new ≡ counts_after result (counts self.old) };

    /// As `ResourceLimiter::table_growing`.
    fn may_grow_table(
        &mut self,
        current: usize,
        desired: usize,
        maximum: Option<usize>,
    ) -> Result<bool, LimiterError>
        ensures exchange { heeds self.old (may_grow (question_of Table current desired maximum) result) self.new }
        ensures left { counts self.new ≡ counts_after result (counts self.old) };

    /// As `ResourceLimiter::noes`.
    fn noes_so_far(&self) -> u64
        ensures { result ≡ (counts self.now).noes };

    /// As `ResourceLimiter::errors`.
    fn errors_so_far(&self) -> u64
        ensures { result ≡ (counts self.now).errors };
}

impl<L: GrowthLimiter> ResourceLimiter for L {
    ghost told = { λ l. told_by_default (L.counts l) };

    ghost leads = { λ old exchange new. HeedsGrowth L.heeds old exchange new };

    fn memory_growing(
        &mut self,
        current: usize,
        desired: usize,
        maximum: Option<usize>,
    ) -> Result<bool, LimiterError>
        ensures exchange { L.heeds self.old (may_grow (question_of Memory current desired maximum) result) self.new }
        ensures left { L.counts self.new ≡ counts_after result (L.counts self.old) }
    {
        self.may_grow_memory(current, desired, maximum)
    }

    fn memory_grow_failed(&mut self, _error: GrowError) -> Result<(), LimiterError>
        ensures ok { result ≡ Ok tt }
        ensures same { self.new ≡ self.old }
    {
        Ok(())
    }

    fn table_growing(
        &mut self,
        current: usize,
        desired: usize,
        maximum: Option<usize>,
    ) -> Result<bool, LimiterError>
        ensures exchange { L.heeds self.old (may_grow (question_of Table current desired maximum) result) self.new }
        ensures left { L.counts self.new ≡ counts_after result (L.counts self.old) }
    {
        self.may_grow_table(current, desired, maximum)
    }

    fn table_grow_failed(&mut self, _error: GrowError) -> Result<(), LimiterError>
        ensures ok { result ≡ Ok tt }
        ensures same { self.new ≡ self.old }
    {
        Ok(())
    }

    fn instances(&self) -> usize {
        DEFAULT_INSTANCE_LIMIT
    }

    fn tables(&self) -> usize {
        DEFAULT_TABLE_LIMIT
    }

    fn memories(&self) -> usize {
        DEFAULT_MEMORY_LIMIT
    }

    fn noes(&self) -> u64 {
        self.noes_so_far()
    }

    fn errors(&self) -> u64 {
        self.errors_so_far()
    }
}

/// Stands for a limiter where there is none: yes to everything.
#[derive(Clone, Copy, Debug, PartialEq, Eq)]
pub struct Unlimited;

impl ResourceLimiter for Unlimited {
    ghost told = { λ _. unlimited };

    fn memory_growing(
        &mut self,
        _current: usize,
        _desired: usize,
        _maximum: Option<usize>,
    ) -> Result<bool, LimiterError> {
        Ok(true)
    }

    fn memory_grow_failed(&mut self, _error: GrowError) -> Result<(), LimiterError> {
        Ok(())
    }

    fn table_growing(
        &mut self,
        _current: usize,
        _desired: usize,
        _maximum: Option<usize>,
    ) -> Result<bool, LimiterError> {
        Ok(true)
    }

    fn table_grow_failed(&mut self, _error: GrowError) -> Result<(), LimiterError> {
        Ok(())
    }

    fn instances(&self) -> usize {
        DEFAULT_INSTANCE_LIMIT
    }

    fn tables(&self) -> usize {
        DEFAULT_TABLE_LIMIT
    }

    fn memories(&self) -> usize {
        DEFAULT_MEMORY_LIMIT
    }

    fn noes(&self) -> u64 {
        0
    }

    fn errors(&self) -> u64 {
        0
    }
}
