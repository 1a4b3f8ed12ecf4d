//! Laws of resets: what one leaves in a slot doesn't depend on how it is done.
ghost use Rattle.pool_images.specs.ResetLaws.{ResetsLeaveTheSame};

/// A reset by dirty marks, and one that keeps bytes resident, leave in a slot, once their decommits are done, the bytes that
/// the plain reset which keeps nothing leaves there. Costs nothing: the law is a fact about what the contract of
/// `clear_and_remain_ready` says.
pub fn resets_leave_the_same()
    ensures { ResetsLeaveTheSame }
{}
