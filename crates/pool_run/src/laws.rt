ghost use Rattle.pool_run.specs.Agreeing.{RunsAgree};
ghost use Rattle.pool_run.specs.FirstTurns.{MadeRunsTurn};
ghost use Rattle.pool_run.specs.HeapFaults.{HeapFaultsAreListed};
ghost use Rattle.pool_run.specs.InTime.{RepliesComeInTime};
ghost use Rattle.pool_run.specs.Placed.{SlotsAreInOnePlace, UsedSlotsAreNotPicked};
ghost use Rattle.pool_run.specs.Unhindered.{UnhinderedAreServed};

use pool_pages::Pages;

/// One input has one outcome: two runs of it in which the same commands find no memory give the same replies and
/// numbers, over a maker that tells what its regions hold and which of their calls fail. It does nothing.
pub fn runs_agree<P: Pages>()
    ensures { RunsAgree P }
{}

/// A party is told that its maker of heaps failed at most as often as its list says, whatever its commands ask for. It does
/// nothing.
pub fn heap_faults_are_listed()
    ensures { HeapFaultsAreListed }
{}

/// Where the slots of the pool are between two turns. It does nothing.
pub fn slots_have_places<P: Pages>()
    // Each is in one place.
    ensures one { SlotsAreInOnePlace P }
    // What a pick gives is free, in the shard where it is at home.
    ensures picked { UsedSlotsAreNotPicked P }
{}

/// The reply to a command comes within so many turns of its party as the command may take at most, whatever turns others make
/// between. The bound is a number of the pool's sizes, the modules and the commands. It does nothing.
pub fn replies_come_in_time<P: Pages>()
    ensures { RepliesComeInTime P }
{}

/// A request that nothing hinders is granted, or there is no memory for it, or one of its page calls or the making of its heap
/// fails; whatever turns were made before, and whatever still lies in queues. It does nothing.
pub fn unhindered_requests_are_served<P: Pages>()
    ensures { UnhinderedAreServed P }
{}

/// A run that `Run::new` made is what `Run::turn` asks for: it is one of the input's parties, with what each was told so far,
/// which is nothing. It does nothing.
pub fn made_runs_turn<P: Pages>()
    ensures { MadeRunsTurn P }
{}
