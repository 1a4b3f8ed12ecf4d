ghost use Rattle.std.specs.Prelude.{◌≡◌};
ghost use Rattle.pool_limits.specs.LimiterTold.{counts_after};

use pool_limits::{GrowError, LimiterError, ResourceLimiter};

// A limiter that gives to each question the answer that was given before.
#[derive(Drop)]
pub(crate) struct GivenAnswer {
    pub(crate) answer: Result<bool, LimiterError>,
    noes: u64,
    errors: u64,
}

impl GivenAnswer {
    pub(crate) fn new(answer: Result<bool, LimiterError>) -> Self
        ensures { result.answer ≡ answer }
    {
        GivenAnswer {
            answer,
            noes: 0,
            errors: 0,
        }
    }
}

impl ResourceLimiter for GivenAnswer {
    ghost use Rattle.std.specs.Prelude.{None};
    ghost use Rattle.pool_limits.specs.LimiterTold.{default_quotas};
    ghost use Rattle.pool_alloc.specs.Requests.{GivesAnswer};

    ghost told = { λ l. record { rule = None; quotas = default_quotas; counts = record { noes = l.noes; errors = l.errors } } };

    ghost leads = { λ old exchange new. GivesAnswer old.answer exchange };

    fn memory_growing(
        &mut self,
        _current: usize,
        _desired: usize,
        _maximum: Option<usize>,
    ) -> Result<bool, LimiterError> {
        self.counted()
    }

    fn memory_grow_failed(&mut self, _error: GrowError) -> Result<(), LimiterError> {
        Ok(())
    }

    fn table_growing(
        &mut self,
        _current: usize,
        _desired: usize,
        _maximum: Option<usize>,
    ) -> Result<bool, LimiterError> {
        self.counted()
    }

    fn table_grow_failed(&mut self, _error: GrowError) -> Result<(), LimiterError> {
        Ok(())
    }

    fn instances(&self) -> usize {
        10_000
    }

    fn tables(&self) -> usize {
        10_000
    }

    fn memories(&self) -> usize {
        10_000
    }

    fn noes(&self) -> u64 {
        self.noes
    }

    fn errors(&self) -> u64 {
        self.errors
    }
}

impl GivenAnswer {
    // The answer, once more.
    fn counted(&mut self) -> Result<bool, LimiterError>
        ensures answer { result ≡ self.old.answer }
        ensures same { self.new.answer ≡ self.old.answer }
        ensures counts { record { noes = self.new.noes; errors = self.new.errors } ≡ counts_after result (record { noes = self.old.noes; errors = self.old.errors }) }
    {
        match self.answer {
            Ok(true) => {}
            Ok(false) => self.noes = self.noes.saturating_add(1),
            Err(_) => self.errors = self.errors.saturating_add(1),
        }
        self.answer
    }
}
