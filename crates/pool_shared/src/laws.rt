//! Laws on waits and notifies, proved of the definitions. Each function does nothing.
ghost use Rattle.pool_shared.specs.Laws.{EarlyWaitersAreMarked, NotifyMarksTheFirst, NotifyTakesTheFirst, NotifyKeepsOtherLists, WaitsEnterAtTheEnd, WaitsKeepOtherLists, OthersStayInOrder};

/// A notify marks the waiters that arrived first, and no others.
pub fn notified_waiters_come_first()
    // A waiter that entered before the notify and has fewer before it than are notified is marked.
    ensures early { EarlyWaitersAreMarked }
    // The marked waiters are those from before and the first of the list.
    ensures marked { NotifyMarksTheFirst }
    // The waiters that are marked leave the address's list.
    ensures taken { NotifyTakesTheFirst }
    // The lists of other addresses stay as they are.
    ensures elsewhere { NotifyKeepsOtherLists }
{}

/// Each list is in order of arrival.
pub fn order_of_arrival_is_kept()
    // A wait enters its list at the end.
    ensures enters { WaitsEnterAtTheEnd }
    // The lists of other addresses stay as they are.
    ensures elsewhere { WaitsKeepOtherLists }
    // Where a wait ends, the others stay in order.
    ensures ends { OthersStayInOrder }
{}
