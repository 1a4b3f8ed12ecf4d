ghost use Rattle.pool_run_on_demand.specs.Alike.{AllocatorsAgree};
ghost use Rattle.pool_run_on_demand.specs.HeapFaults.{HeapFaultsAreListedOnDemand};

/// On demand too, a party is told that its maker of heaps failed at most as often as its list says, whatever its commands ask
/// for. It does nothing.
pub fn heap_faults_on_demand_are_listed()
    ensures { HeapFaultsAreListedOnDemand }
{}

/// A pool and an allocator on demand give the same replies to the commands on a grant that both gave, whose memories are whole
/// pages and whose contents are told, where both grant its growths and have memory for the replies. It does nothing.
pub fn allocators_agree()
    ensures { AllocatorsAgree }
{}
