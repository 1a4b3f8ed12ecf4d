//! How the workers' seats become one again: each is joined, and gives back what its party has live.
ghost use Rattle.std.specs.Prelude.{◌≡◌, ℕ, ◌+◌, ◌<◌, ◌≤◌, ◌++◌, ◌∷◌, [], All, length, slice_set, true, None, Some, IfSome, vec_capacity};
ghost use Rattle.pool_hall.specs.Seat.{made_with, view, IsSeatOf, IsFree};
ghost use Rattle.pool_hall.specs.Tally.{additions, low_additions, number};
ghost use Rattle.pool_alloc.specs.Calls.{IsGrant, IsIdle};
ghost use Rattle.pool_alloc.specs.declared.frame.Outcome.TheVariants.{Granted};
ghost use Rattle.pool_driver.specs.Calling.{GoesOnSince, HasEnded};
ghost use Rattle.pool_driver.specs.Counts.{IsEven};
ghost use Rattle.pool_driver.specs.Driving.{Given, IsDriven};
ghost use Rattle.pool_driver.specs.Faults.{GrantKeeps};
ghost use Rattle.pool_driver.specs.Pools.{IsSharedOf};
ghost use Rattle.pool_workers.specs.Joined.{IsJoined, Joins, Shared};
ghost use Rattle.pool_threads.specs.Noted.{Grows};
ghost use Rattle.pool_workers.specs.Sparing.{Spares};
ghost use Rattle.pool_threads.specs.Sharing.{IsGround};
ghost use Rattle.pool_workers.specs.Workers.{AreBack, IsBack};
ghost use Rattle.pool_threads.specs.Working.{Job, about_job, given_by};

use crate::worker::Worker;
use pool_alloc::{Call, Grant, Outcome};
use pool_driver::{PoolHall, PoolSeat, SharedPool};
use pool_limits::Unlimited;
use pool_pages::{PageMaker, Pages};
use pool_run::{ReplyList, RunningParty};
use pool_slots::PlainHeap;
use std::alloc::Global;
use std::sync::Wait;

// Makes the steps of a party's call that has begun, in which no limiter is asked.
fn finish_call<P: Pages, M: PageMaker, R: Wait>(
    rt: &R,
    alloc: Global,
    pool: &SharedPool<PoolHall<P, PlainHeap, M>>,
    seat: &mut PoolSeat<P, PlainHeap, M>,
    party: &mut RunningParty<P>,
) -> Outcome<P, PlainHeap>
    ghost given: { Given }
    requires pool { IsSharedOf M.told given.about pool.now }
    requires own { IsSeatOf pool.now.hall seat.old }
    requires free { IsFree seat.old }
    requires driven { IsDriven (length (made_with pool.now.hall)) given (view seat.old) party.old.frame None }
    requires begun { GoesOnSince given.about (view seat.old) (view seat.old) party.old.frame party.old.frame }
    ensures own { IsSeatOf pool.now.hall seat.new }
    ensures free { IsFree seat.new }
    ensures driven { IsDriven (length (made_with pool.now.hall)) given (view seat.new) party.new.frame (Some result) }
    ensures ended { HasEnded given.about (view seat.old) (view seat.new) party.old.frame party.new.frame result }
    ensures grows { Grows (view seat.old) (view seat.new) }
    ensures live { party.new.live ≡ party.old.live }
{
    let mut outcome = None;
    for _ in rt.forever() {
        let heaps = &mut party.heaps;
        pool.step(
            rt,
            seat,
            alloc,
            &mut party.frame,
            &mut Unlimited,
            heaps,
            &mut outcome,
        );
        if let Some(answer) = outcome.take() {
            return answer;
        }
    }
    unreachable!()
}

// Gives a grant of a party back, which isn't among its live ones any more.
fn give_back<P: Pages, M: PageMaker, R: Wait>(
    rt: &R,
    alloc: Global,
    pool: &SharedPool<PoolHall<P, PlainHeap, M>>,
    seat: &mut PoolSeat<P, PlainHeap, M>,
    party: &mut RunningParty<P>,
    grant: Grant<P, PlainHeap>,
)
    ghost job: { Job }
    requires pool { IsSharedOf M.told (about_job job) pool.now }
    requires own { IsSeatOf pool.now.hall seat.old }
    requires free { IsFree seat.old }
    requires idle { IsIdle party.old.frame }
    requires grant { IsGrant job.world.maker job.settings job.plan grant }
    requires driven { IsDriven (length (made_with pool.now.hall)) (given_by job party.old.live) (view seat.old) party.old.frame (Some (Granted grant)) }
    ensures own { IsSeatOf pool.now.hall seat.new }
    ensures free { IsFree seat.new }
    ensures idle { IsIdle party.new.frame }
    ensures driven { IsDriven (length (made_with pool.now.hall)) (given_by job party.old.live) (view seat.new) party.new.frame None }
    ensures spares { Spares job.plan (view seat.old) (view seat.new) }
    ensures live { party.new.live ≡ party.old.live }
{
    party.frame.begin(Call::GiveBack(grant));
    finish_call(rt, alloc, pool, seat, party);
}

// Gives back the grant at a place, if it is live.
fn give_back_at<P: Pages, M: PageMaker, R: Wait>(
    rt: &R,
    alloc: Global,
    pool: &SharedPool<PoolHall<P, PlainHeap, M>>,
    seat: &mut PoolSeat<P, PlainHeap, M>,
    party: &mut RunningParty<P>,
    at: usize,
)
    ghost job: { Job }
    requires pool { IsSharedOf M.told (about_job job) pool.now }
    requires own { IsSeatOf pool.now.hall seat.old }
    requires free { IsFree seat.old }
    requires idle { IsIdle party.old.frame }
    requires driven { IsDriven (length (made_with pool.now.hall)) (given_by job party.old.live) (view seat.old) party.old.frame None }
    requires keeps { All (λ g. IfSome g GrantKeeps) party.old.live }
    requires grants { All (λ g. IfSome g (IsGrant job.world.maker job.settings job.plan)) party.old.live }
    ensures own { IsSeatOf pool.now.hall seat.new }
    ensures free { IsFree seat.new }
    ensures idle { IsIdle party.new.frame }
    ensures driven { IsDriven (length (made_with pool.now.hall)) (given_by job party.new.live) (view seat.new) party.new.frame None }
    ensures spares { Spares job.plan (view seat.old) (view seat.new) }
    ensures live { party.new.live ≡ slice_set party.old.live at None }
{
    match party.live.take(at) {
        None => {}
        Some(grant) => give_back(rt, alloc, pool, seat, party, grant),
    }
}

// Gives back all that is live of a party. Its seat has nothing then.
fn give_back_all<P: Pages, M: PageMaker, R: Wait>(
    rt: &R,
    alloc: Global,
    pool: &SharedPool<PoolHall<P, PlainHeap, M>>,
    seat: &mut PoolSeat<P, PlainHeap, M>,
    party: &mut RunningParty<P>,
)
    ghost job: { Job }
    requires pool { IsSharedOf M.told (about_job job) pool.now }
    requires own { IsSeatOf pool.now.hall seat.old }
    requires free { IsFree seat.old }
    requires idle { IsIdle party.old.frame }
    requires driven { IsDriven (length (made_with pool.now.hall)) (given_by job party.old.live) (view seat.old) party.old.frame None }
    requires keeps { All (λ g. IfSome g GrantKeeps) party.old.live }
    requires grants { All (λ g. IfSome g (IsGrant job.world.maker job.settings job.plan)) party.old.live }
    ensures own { IsSeatOf pool.now.hall seat.new }
    ensures free { IsFree seat.new }
    ensures units { (view seat.new).units ≡ [] }
    ensures even { IsEven (view seat.new) }
    ensures spares { Spares job.plan (view seat.old) (view seat.new) }
{
    let count = party.live.len();
    for at in 0..count {
        give_back_at(rt, alloc, pool, seat, party, at);
    }
}

// Joins a worker's seat, and gives back what its party has live. Answers the party's replies.
fn join_one<P: Pages, M: PageMaker, R: Wait>(
    rt: &R,
    alloc: Global,
    pool: &SharedPool<PoolHall<P, PlainHeap, M>>,
    seat: &mut PoolSeat<P, PlainHeap, M>,
    worker: Worker<PoolSeat<P, PlainHeap, M>, P>,
) -> Option<ReplyList>
    ghost all: { Shared }
    requires ground { IsGround M.told all.input all.modules pool.now }
    requires own { IsSeatOf pool.now.hall seat.old }
    requires free { IsFree seat.old }
    requires back { IsBack M.told all.input all.modules pool.now worker }
    requires units { (view seat.old).units ≡ [] }
    requires even { IsEven (view seat.old) }
    requires lower { (c : ℕ) → number (low_additions c) (view seat.old) ≤ number (additions c) (view seat.old) }
    ensures own { IsSeatOf pool.now.hall seat.new }
    ensures free { IsFree seat.new }
    ensures joins { IfSome result (Joins M.told all pool.now (view seat.old) (view seat.new) worker.number) }
{
    let Worker {
        number: _,
        seat: spent,
        party,
        replies,
    } = worker;
    let Some(told) = replies else {
        return None;
    };
    let mut party = party;
    pool.hall.join(seat, spent);
    give_back_all(rt, alloc, pool, seat, &mut party);
    Some(told)
}

// Joins all workers' seats to this one, in order, and gives back what is live. The parties' replies go into a list that has room for them. Answers
// false where there was no memory for those of some party.
pub(crate) fn join_all<P: Pages, M: PageMaker, R: Wait>(
    rt: &R,
    alloc: Global,
    pool: &SharedPool<PoolHall<P, PlainHeap, M>>,
    seat: &mut PoolSeat<P, PlainHeap, M>,
    workers: Vec<Worker<PoolSeat<P, PlainHeap, M>, P>>,
    replies: &mut Vec<ReplyList>,
) -> bool
    ghost all: { Shared }
    requires ground { IsGround M.told all.input all.modules pool.now }
    requires own { IsSeatOf pool.now.hall seat.old }
    requires free { IsFree seat.old }
    requires back { AreBack M.told all.input all.modules pool.now workers.items }
    requires joined { IsJoined M.told all pool.now (view seat.old) [] }
    requires empty { replies.old.items ≡ [] }
    requires room { length workers.items ≤ vec_capacity replies.old }
    ensures own { IsSeatOf pool.now.hall seat.new }
    ensures free { IsFree seat.new }
    ensures joined { result ≡ true → IsJoined M.told all pool.now (view seat.new) replies.new.items }
    ensures count { result ≡ true → length replies.new.items ≡ length workers.items }
    ensures portions { result ≡ true → (view seat.new).portions ≡ (view seat.old).portions + length workers.items }
{
    for worker in workers {
        match join_one(rt, alloc, pool, seat, worker) {
            Some(told) => replies.push_reserved(told),
            None => return false,
        }
    }
    true
}
