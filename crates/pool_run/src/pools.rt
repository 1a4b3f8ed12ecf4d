ghost use Rattle.std.specs.Prelude.{◌≡◌, Err, false, IfOk, IfErr, IfSome, OnOk};
ghost use Rattle.std.specs.List.{list_any};
ghost use Rattle.pool_alloc.specs.BetweenSteps.{IsCore};
ghost use Rattle.pool_alloc.specs.Made.{IsMadeCore};
ghost use Rattle.pool_alloc.specs.PoolAndHolders.{IsUntouched};
ghost use Rattle.pool_run.specs.Built.{broken_rule};
ghost use Rattle.pool_run.specs.Runs.{FaultsInMaking, region_unmade, region_listed, makings_for, NamesRule};

use crate::input::Input;
use crate::output::RunFault;
use pool_alloc::PoolCore;
use pool_pages::{PageMaker, Pages};
use pool_slots::{PlainHeap, PoolNewError};
use std::alloc::Global;

/// Makes a pool of the input's settings. Their rules are tested first.
pub fn make_pool<P: Pages, M: PageMaker<Region = P>>(
    alloc: Global,
    input: &Input,
    pages: &mut M,
) -> Result<PoolCore<P, PlainHeap>, RunFault>
    requires page { (M.told pages.old).page ≡ input.now.page }
    ensures made { IfOk result (IsMadeCore (M.told pages.old) input.now.config input.now.tunables input.now.offered input.now.shards) }
    ensures core { IfOk result (IsCore (M.told pages.old)) }
    ensures untouched { IfOk result IsUntouched }
    ensures same { OnOk result (M.told pages.new ≡ M.told pages.old) }
    ensures own { OnOk result (list_any (region_unmade (M.told pages.old).listed) (makings_for input.now) ≡ false) }
    ensures unlisted { OnOk result (IfSome (M.told pages.old).plan (λ plan. list_any (region_listed plan) (makings_for input.now) ≡ false)) }
    ensures rules { OnOk result (broken_rule input.now ≡ None) }
    ensures refused { IfErr result (NamesRule (broken_rule input.now)) }
    ensures borrows { M.borrows pages.new ≡ M.borrows pages.old }
    ensures fault { result ≡ Err RunFault.PageFault → FaultsInMaking P.told input.now (M.told pages.old) (M.told pages.new) }
{
    let page = pages.page();
    match PoolCore::new(
        alloc,
        &input.config,
        &input.tunables,
        page,
        input.shards,
        &input.offered,
        pages,
    ) {
        Ok(core) => Ok(core),
        Err(PoolNewError::BadConfig(rule)) => Err(RunFault::BadConfig(rule)),
        Err(PoolNewError::PageFault) => Err(RunFault::PageFault),
        Err(PoolNewError::Memory) => Err(RunFault::Memory),
    }
}
