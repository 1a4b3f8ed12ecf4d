//! How a pool is made whose parts lie in a hall.
ghost use Rattle.std.specs.Prelude.{◌≡◌, false, None, IfOk, IfErr, IfSome, OnOk, MatchResult};
ghost use Rattle.pool_types.specs.SettingsRules.{first_broken_rule};
ghost use Rattle.pool_alloc.specs.Made.{lists_making, fails_slots, GivesUpRegion, IsRefusedFor, CountsFault, NeedsFault, NeedsListed};
ghost use Rattle.pool_driver.specs.Driving.{DrivesFirst};
ghost use Rattle.pool_driver.specs.Pools.{IsMadeOpen};

use crate::open_pool::OpenPool;
use pool_alloc::PoolCore;
use pool_pages::{PageMaker, Pages};
use pool_slots::{GcHeap, PoolNewError};
use pool_types::{Offered, PageSize, PoolingAllocationConfig, Tunables};
use std::alloc::Global;

impl<P: Pages, H: GcHeap, M: PageMaker<Region = P>> OpenPool<P, H, M> {
    /// Makes a pool by `PoolCore::new` and opens it. The refusals are those of that call; memory may be wanted later, too.
    pub fn make(
        alloc: Global,
        config: &PoolingAllocationConfig,
        tunables: &Tunables,
        page: PageSize,
        shards: u32,
        offered: &Offered,
        maker: &mut M,
    ) -> Result<Self, PoolNewError>
        requires page { page ≡ (M.told maker.old).page }
        ensures made { IfOk result (IsMadeOpen M.told (M.told maker.old) config.now tunables.now offered.now shards) }
        ensures drives { IfOk result (DrivesFirst M.told) }
        ensures rules { OnOk result (first_broken_rule config.now tunables.now page shards offered.now ≡ None) }
        ensures refused { IfErr result (IsRefusedFor (first_broken_rule config.now tunables.now page shards offered.now)) }
        ensures maker { M.told maker.new ≡ record (M.told maker.old) { behind = (M.told maker.new).behind; faults = (M.told maker.new).faults } }
        ensures borrows { M.borrows maker.new ≡ M.borrows maker.old }
        ensures faults { MatchResult result (λ _. (M.told maker.new).faults ≡ (M.told maker.old).faults) (CountsFault (GivesUpRegion P.told config.now tunables.now offered.now shards (M.told maker.old)) (M.told maker.old).faults (M.told maker.new).faults) }
        ensures listed { IfOk result (λ _. lists_making config.now (M.told maker.old).listed ≡ false) }
        ensures behind { MatchResult result (λ _. (M.told maker.new).behind ≡ (M.told maker.old).behind) (NeedsFault (GivesUpRegion P.told config.now tunables.now offered.now shards (M.told maker.old)) (lists_making config.now (M.told maker.old).listed) (M.told maker.old).behind (M.told maker.new).behind) }
        ensures planned { MatchResult result (λ _. IfSome (M.told maker.old).plan (λ plan. fails_slots page config.now tunables.now offered.now shards plan ≡ false)) (λ e. IfSome (M.told maker.old).plan (λ plan. NeedsListed (fails_slots page config.now tunables.now offered.now shards plan) e)) }
    {
        let core = match PoolCore::new(alloc, config, tunables, page, shards, offered, maker) {
            Ok(core) => core,
            Err(refusal) => return Err(refusal),
        };
        match OpenPool::new(alloc, core, maker) {
            Ok(pool) => Ok(pool),
            Err(_) => Err(PoolNewError::Memory),
        }
    }
}
