ghost use Rattle.std.specs.Prelude.{◌≡◌, ◌+◌, ◌^◌, ◌≤◌, Some};
ghost use Rattle.std.specs.Option.{option_copied_mut};
ghost use Rattle.pool_types.specs.MemoryTypes.{page_size};
ghost use Rattle.pool_limits.specs.LimiterTold.{option_left};
ghost use Rattle.pool_memory.specs.Growing.{GrowsAsking, GrowsMoving, IsAllowedGrowth, grown_size, past_room, first_of};

use crate::linear_memory::RuntimeLinearMemory;
use crate::local_memory::LocalMemory;
use pool_limits::{GrowError, GrowFault, Growable, ResourceLimiter, Unlimited, report_failure};

impl<M, L: RuntimeLinearMemory<M>> LocalMemory<M, L> {
    /// Grows the memory by so many of its own pages. Answers the old size and the new one, or None, where the memory
    /// is as it was. The maker is called only where the memory moves.
    pub fn grow<R: ResourceLimiter>(
        &mut self,
        maker: &mut M,
        delta_pages: u64,
        limiter: Option<&mut R>,
    ) -> Result<Option<(usize, usize)>, GrowFault>
        ensures growth { GrowsAsking R.told R.leads delta_pages (self.old.linear.size, grown_size delta_pages self.old) self.old self.new (option_copied_mut limiter.entry) (option_left limiter.exit) result }
        ensures maker { GrowsMoving R.told R.leads delta_pages (self.old.linear.size, grown_size delta_pages self.old) self.old self.new (L.maker_told maker.old) (L.maker_told maker.new) (option_copied_mut limiter.entry) (option_left limiter.exit) result }
        ensures borrows { L.maker_borrows maker.new ≡ L.maker_borrows maker.old }
    {
        match limiter {
            Some(limiter) => self.grow_asking(maker, delta_pages, limiter),
            None => self.grow_asking(maker, delta_pages, &mut Unlimited),
        }
    }

    // The same with a limiter.
    fn grow_asking<R: ResourceLimiter>(
        &mut self,
        maker: &mut M,
        delta_pages: u64,
        limiter: &mut R,
    ) -> Result<Option<(usize, usize)>, GrowFault>
        ensures growth { GrowsMoving R.told R.leads delta_pages (self.old.linear.size, grown_size delta_pages self.old) self.old self.new (L.maker_told maker.old) (L.maker_told maker.new) (Some limiter.old) (Some limiter.new) result }
        ensures borrows { L.maker_borrows maker.new ≡ L.maker_borrows maker.old }
    {
        let old = self.byte_size();
        let size = self.grown_size(delta_pages);
        if delta_pages == 0 {
            return Ok(Some((old, size)));
        }
        if !self.ty().allow_growth_to(size) {
            return report_failure(limiter, Growable::Memory, GrowError::TypeLimit);
        }
        match limiter.memory_growing(old, size, self.maximum()) {
            Err(error) => Err(GrowFault::LimiterFault(error)),
            Ok(false) => Ok(None),
            Ok(true) => self.grow_allowed(maker, size, limiter),
        }
    }

    // The same, but that it answers only the old size.
    pub(crate) fn grow_from<R: ResourceLimiter>(
        &mut self,
        maker: &mut M,
        delta_pages: u64,
        limiter: &mut R,
    ) -> Result<Option<usize>, GrowFault>
        ensures growth { GrowsMoving R.told R.leads delta_pages self.old.linear.size self.old self.new (L.maker_told maker.old) (L.maker_told maker.new) (Some limiter.old) (Some limiter.new) result }
        ensures borrows { L.maker_borrows maker.new ≡ L.maker_borrows maker.old }
    {
        old_size(self.grow_asking(maker, delta_pages, limiter))
    }

    // Grows to a size that the limiter allows.
    fn grow_allowed<R: ResourceLimiter>(
        &mut self,
        maker: &mut M,
        size: usize,
        limiter: &mut R,
    ) -> Result<Option<(usize, usize)>, GrowFault>
        requires more { self.old.linear.size ≤ size }
        requires room { size + page_size self.old.ty ≤ 2 ^ 64 }
        ensures growth { IsAllowedGrowth R.told R.leads (past_room size self.old) size (self.old.linear.size, size) self.old.linear self.new.linear (L.maker_told maker.old) (L.maker_told maker.new) limiter.old limiter.new result }
        ensures borrows { L.maker_borrows maker.new ≡ L.maker_borrows maker.old }
        ensures same { self.new ≡ record self.old { linear = self.new.linear } }
    {
        let old = self.byte_size();
        match self.grow_pages(maker, size) {
            Ok(()) => Ok(Some((old, size))),
            Err(error) => report_failure(limiter, Growable::Memory, error),
        }
    }
}

// The old size of a growth.
fn old_size(growth: Result<Option<(usize, usize)>, GrowFault>) -> Result<Option<usize>, GrowFault>
    ensures { result ≡ first_of growth }
{
    match growth {
        Ok(Some((old, _new))) => Ok(Some(old)),
        Ok(None) => Ok(None),
        Err(fault) => Err(fault),
    }
}
