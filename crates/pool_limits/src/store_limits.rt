ghost use Rattle.std.specs.Prelude.{◌≡◌, Some};
ghost use Rattle.pool_limits.specs.Growth.{is_within, growth_answer, failure_answer};
ghost use Rattle.pool_limits.specs.LimiterTold.{counts_after, counts_after_report};
ghost use Rattle.pool_limits.specs.StoreLimits.{default_limits, told_by_limits};

use crate::errors::{GrowError, LimiterError};
use crate::resource_limiter::{
    DEFAULT_INSTANCE_LIMIT, DEFAULT_MEMORY_LIMIT, DEFAULT_TABLE_LIMIT, ResourceLimiter,
};
use std::marker::Model;

/// A limiter with fixed limits. A growth is allowed where the size is at most the limit and at most the
/// maximum, each where there is one.
#[derive(Clone, Debug, Drop)]
pub struct StoreLimits {
    memory_size: Option<usize>,
    table_elements: Option<usize>,
    instances: usize,
    tables: usize,
    memories: usize,
    trap_on_grow_failure: bool,
    noes: u64,
    errors: u64,
}

impl Model for StoreLimits {
    ghost use Rattle.pool_limits.specs.StoreLimits.{Limits};

    ghost Value = { Limits };

    ghost view = { λ l. record {
      growth = record {
        memory_size = l.memory_size;
        table_elements = l.table_elements;
        trap_on_grow_failure = l.trap_on_grow_failure;
      };
      quotas = record { instances = l.instances; tables = l.tables; memories = l.memories };
      counts = record { noes = l.noes; errors = l.errors };
    } };
}

impl Default for StoreLimits {
    ghost use Rattle.pool_limits.specs.StoreLimits.{IsDefault};

    ghost is_default = { IsDefault };

    /// No limit on growth, and 10,000 of each thing. Takes no memory.
    fn default() -> Self {
        StoreLimits {
            memory_size: None,
            table_elements: None,
            instances: DEFAULT_INSTANCE_LIMIT,
            tables: DEFAULT_TABLE_LIMIT,
            memories: DEFAULT_MEMORY_LIMIT,
            trap_on_grow_failure: false,
            noes: 0,
            errors: 0,
        }
    }
}

/// Whether a size is at most a bound, where there is one.
fn is_within(bound: Option<usize>, size: usize) -> bool
    ensures { result ≡ is_within bound size }
{
    match bound {
        Some(bound) => size <= bound,
        None => true,
    }
}

impl StoreLimits {
    /// Answers a growth, and counts the answer. `error` stands for a no where failures are errors.
    fn answer(&mut self, allowed: bool, error: LimiterError) -> Result<bool, LimiterError>
        ensures answer { result ≡ growth_answer self.old.growth.trap_on_grow_failure error allowed }
        ensures left { self.new ≡ record self.old { counts = counts_after result self.old.counts } }
    {
        if allowed {
            return Ok(true);
        }
        if self.trap_on_grow_failure {
            self.errors = self.errors.saturating_add(1);
            return Err(error);
        }
        self.noes = self.noes.saturating_add(1);
        Ok(false)
    }

    /// Answers the report of a failure, and counts the answer.
    fn answer_failure(&mut self, error: LimiterError) -> Result<(), LimiterError>
        ensures answer { result ≡ failure_answer self.old.growth.trap_on_grow_failure error }
        ensures left { self.new ≡ record self.old { counts = counts_after_report result self.old.counts } }
    {
        if self.trap_on_grow_failure {
            self.errors = self.errors.saturating_add(1);
            return Err(error);
        }
        Ok(())
    }
}

impl ResourceLimiter for StoreLimits {
    ghost told = { told_by_limits };

    fn memory_growing(
        &mut self,
        _current: usize,
        desired: usize,
        maximum: Option<usize>,
    ) -> Result<bool, LimiterError> {
        let allowed = is_within(self.memory_size, desired) && is_within(maximum, desired);
        self.answer(allowed, LimiterError::MemoryGrow { desired })
    }

    fn memory_grow_failed(&mut self, _error: GrowError) -> Result<(), LimiterError> {
        self.answer_failure(LimiterError::MemoryGrowFailed)
    }

    fn table_growing(
        &mut self,
        _current: usize,
        desired: usize,
        maximum: Option<usize>,
    ) -> Result<bool, LimiterError> {
        let allowed = is_within(self.table_elements, desired) && is_within(maximum, desired);
        self.answer(allowed, LimiterError::TableGrow { desired })
    }

    fn table_grow_failed(&mut self, _error: GrowError) -> Result<(), LimiterError> {
        self.answer_failure(LimiterError::TableGrowFailed)
    }

    fn instances(&self) -> usize {
        self.instances
    }

    fn tables(&self) -> usize {
        self.tables
    }

    fn memories(&self) -> usize {
        self.memories
    }

    fn noes(&self) -> u64 {
        self.noes
    }

    fn errors(&self) -> u64 {
        self.errors
    }
}

/// Makes `StoreLimits`, setting by setting. What isn't set is as in `StoreLimits::default`.
#[derive(Clone, Debug, Drop)]
pub struct StoreLimitsBuilder {
    limits: StoreLimits,
}

impl Model for StoreLimitsBuilder {
    ghost use Rattle.pool_limits.specs.StoreLimits.{Limits};

    ghost Value = { Limits };

    ghost view = { λ b. b.limits };
}

impl StoreLimitsBuilder {
    pub fn new() -> Self
        ensures { result ≡ default_limits }
    {
        StoreLimitsBuilder {
            limits: StoreLimits::default(),
        }
    }

    /// The greatest size of a memory, in bytes.
    pub fn memory_size(mut self, limit: usize) -> Self
        ensures { result ≡ record self { growth = record self.growth { memory_size = Some limit } } }
    {
        self.limits.memory_size = Some(limit);
        self
    }

    /// The greatest size of a table, in elements.
    pub fn table_elements(mut self, limit: usize) -> Self
        ensures { result ≡ record self { growth = record self.growth { table_elements = Some limit } } }
    {
        self.limits.table_elements = Some(limit);
        self
    }

    /// How many instances the store may have.
    pub fn instances(mut self, limit: usize) -> Self
        ensures { result ≡ record self { quotas = record self.quotas { instances = limit } } }
    {
        self.limits.instances = limit;
        self
    }

    /// How many tables the store may have.
    pub fn tables(mut self, tables: usize) -> Self
        ensures { result ≡ record self { quotas = record self.quotas { tables = tables } } }
    {
        self.limits.tables = tables;
        self
    }

    /// How many memories the store may have.
    pub fn memories(mut self, memories: usize) -> Self
        ensures { result ≡ record self { quotas = record self.quotas { memories = memories } } }
    {
        self.limits.memories = memories;
        self
    }

    /// Whether a growth that is refused, or fails, is an error.
    pub fn trap_on_grow_failure(mut self, trap: bool) -> Self
        ensures { result ≡ record self { growth = record self.growth { trap_on_grow_failure = trap } } }
    {
        self.limits.trap_on_grow_failure = trap;
        self
    }

    pub fn build(self) -> StoreLimits
        ensures { result ≡ self }
    {
        self.limits
    }
}
