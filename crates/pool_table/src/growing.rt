ghost use Rattle.std.specs.Prelude.{◌≡◌, ◌-◌, ◌<◌, ◌≤◌, Some};
ghost use Rattle.std.specs.Option.{option_copied_mut};
ghost use Rattle.pool_limits.specs.LimiterTold.{option_left};
ghost use Rattle.pool_table.specs.Growing.{TableGrows, AllowedTableGrows};
ghost use Rattle.pool_table.specs.TableStates.{table_view, element_type_of, is_static_table};

use crate::table::Table;
use pool_limits::{GrowError, GrowFault, Growable, ResourceLimiter, Unlimited, report_failure};
use pool_pages::Pages;

impl<P: Pages> Table<P> {
    /// Grows the table by so many elements, which are empty. Answers the old size, or None, where the table is as it was.
    /// By 0 elements nobody is asked. A size past 2^64 - 1 is only reported to the limiter; then the limiter is asked; then
    /// a size past the maximum is reported to it. Its error is `LimiterFault`. A static table takes no memory; where a
    /// dynamic one finds none, that is the answer, and the limiter isn't told.
    pub fn grow<R: ResourceLimiter>(
        &mut self,
        limiter: Option<&mut R>,
        delta: u64,
    ) -> Result<Option<usize>, GrowFault>
        ensures element_type { element_type_of self.new ≡ element_type_of self.old }
        ensures form { is_static_table self.new ≡ is_static_table self.old }
        ensures growth { TableGrows R.told R.leads delta (table_view self.old) (table_view self.new) (option_copied_mut limiter.entry) (option_left limiter.exit) result }
    {
        match limiter {
            Some(limiter) => self.grow_asking(limiter, delta),
            None => self.grow_asking(&mut Unlimited, delta),
        }
    }

    // The same with a limiter.
    fn grow_asking<R: ResourceLimiter>(
        &mut self,
        limiter: &mut R,
        delta: u64,
    ) -> Result<Option<usize>, GrowFault>
        ensures element_type { element_type_of self.new ≡ element_type_of self.old }
        ensures form { is_static_table self.new ≡ is_static_table self.old }
        ensures growth { TableGrows R.told R.leads delta (table_view self.old) (table_view self.new) (Some limiter.old) (Some limiter.new) result }
    {
        let old = self.size();
        if delta == 0 {
            return Ok(Some(old));
        }
        match (old as u64).checked_add(delta) {
            None => report_failure(limiter, Growable::Table, GrowError::TypeLimit),
            Some(size) => self.grow_to(limiter, size as usize),
        }
    }

    // Asks the limiter for a size that is greater, and grows to it.
    fn grow_to<R: ResourceLimiter>(
        &mut self,
        limiter: &mut R,
        size: usize,
    ) -> Result<Option<usize>, GrowFault>
        requires { (table_view self.old).size < size }
        ensures element_type { element_type_of self.new ≡ element_type_of self.old }
        ensures form { is_static_table self.new ≡ is_static_table self.old }
        ensures growth { TableGrows R.told R.leads (size - (table_view self.old).size) (table_view self.old) (table_view self.new) (Some limiter.old) (Some limiter.new) result }
    {
        match limiter.table_growing(self.size(), size, Some(self.maximum())) {
            Err(error) => Err(GrowFault::LimiterFault(error)),
            Ok(false) => Ok(None),
            Ok(true) => self.grow_allowed(limiter, size),
        }
    }

    // Grows to a size that the limiter allows.
    fn grow_allowed<R: ResourceLimiter>(
        &mut self,
        limiter: &mut R,
        size: usize,
    ) -> Result<Option<usize>, GrowFault>
        requires { (table_view self.old).size ≤ size }
        ensures element_type { element_type_of self.new ≡ element_type_of self.old }
        ensures form { is_static_table self.new ≡ is_static_table self.old }
        ensures growth { AllowedTableGrows R.told R.leads size (table_view self.old) (table_view self.new) limiter.old limiter.new result }
    {
        let old = self.size();
        if size > self.maximum() {
            return report_failure(limiter, Growable::Table, GrowError::MaximumExceeded);
        }
        match self.take_elements(size) {
            Ok(()) => Ok(Some(old)),
            Err(_) => Err(GrowFault::Memory),
        }
    }
}
