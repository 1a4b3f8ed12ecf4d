//! Workers: the parties of an input, each with a seat of its own, and how they make their commands side by side.
ghost use Rattle.std.specs.Prelude.{◌≡◌, ℕ, ◌+◌, ◌<◌, ◌≤◌, All, length, slice_index_or, true, IfOk, OnOk};
ghost use Rattle.crossbeam_utils.specs.Padded.{padded_value};
ghost use Rattle.crossbeam_utils.specs.declared.cache_padded.CachePadded.{CachePadded};
ghost use Rattle.pool_hall.specs.Seat.{view, IsSeatOf, IsFree};
ghost use Rattle.pool_hall.specs.Step.{left_with};
ghost use Rattle.pool_hall.specs.declared.hall.HallSeat.{HallSeat};
ghost use Rattle.pool_driver.specs.declared.part.HallPart.{HallPart};
ghost use Rattle.pool_slots.specs.declared.listed_heaps.PlainHeap.{PlainHeap};
ghost use Rattle.pool_workers.specs.declared.worker.Worker.{Worker};
ghost use Rattle.pool_run.specs.Validity.{is_valid};
ghost use Rattle.pool_threads.specs.Sharing.{IsGround};
ghost use Rattle.pool_workers.specs.Workers.{AreReady, DrivesWorkers, IsBack, IsReady};

use crate::jobs::{Job, all_at_once};
use crate::worker::Worker;
use crossbeam_utils::CachePadded;
use pool_alloc::ModuleCall;
use pool_driver::{PoolHall, PoolSeat, SharedPool};
use pool_pages::{PageMaker, Pages};
use pool_run::{Input, make_party};
use pool_slots::PlainHeap;
use pool_threads::{Gate, party_at, run_party};
use std::alloc::{AllocError, Global};
use std::sync::Wait;
use std::thread::Threads;

// A worker for the party with this number, by a seat that is cut off from this one.
fn make_worker<P: Pages, M: PageMaker>(
    alloc: Global,
    pool: &SharedPool<PoolHall<P, PlainHeap, M>>,
    seat: &mut PoolSeat<P, PlainHeap, M>,
    input: &Input,
    number: usize,
) -> Result<Worker<PoolSeat<P, PlainHeap, M>, P>, AllocError>
    requires valid { is_valid input.now ≡ true }
    requires inside { number < length input.now.parties }
    requires batch { pool.now.settings.batch ≤ 4096 }
    requires drives { DrivesWorkers M.told input.now pool.now }
    requires own { IsSeatOf pool.now.hall seat.old }
    requires free { IsFree seat.old }
    requires some { 1 < (view seat.old).portions }
    ensures own { IsSeatOf pool.now.hall seat.new }
    ensures free { IsFree seat.new }
    ensures left { OnOk result (view seat.new ≡ left_with 1 (view seat.old)) }
    ensures ready { IfOk result (IsReady M.told input.now pool.now) }
    ensures number { IfOk result (λ w. w.number ≡ number) }
{
    let party = make_party(alloc, &pool.settings, party_at(input, number))?;
    let cut = pool.hall.split(seat, 1);
    Ok(Worker {
        number,
        seat: cut,
        party,
        replies: None,
    })
}

// A worker for each party, in order.
pub(crate) fn make_workers<P: Pages, M: PageMaker>(
    alloc: Global,
    pool: &SharedPool<PoolHall<P, PlainHeap, M>>,
    seat: &mut PoolSeat<P, PlainHeap, M>,
    input: &Input,
) -> Result<Vec<Worker<PoolSeat<P, PlainHeap, M>, P>>, AllocError>
    requires valid { is_valid input.now ≡ true }
    requires batch { pool.now.settings.batch ≤ 4096 }
    requires drives { DrivesWorkers M.told input.now pool.now }
    requires own { IsSeatOf pool.now.hall seat.old }
    requires free { IsFree seat.old }
    requires some { length input.now.parties < (view seat.old).portions }
    ensures own { IsSeatOf pool.now.hall seat.new }
    ensures free { IsFree seat.new }
    ensures left { OnOk result (view seat.new ≡ left_with (length input.now.parties) (view seat.old)) }
    ensures ready { IfOk result (λ v. AreReady M.told input.now pool.now v.items) }
{
    let count = input.parties.as_slice().len();
    let mut workers = Vec::with_capacity(alloc, count)?;
    for at in 0..count {
        let worker = make_worker(alloc, pool, seat, input, at)?;
        workers.push_reserved(worker);
    }
    Ok(workers)
}

// A worker makes its party's commands.
fn work_one<P: Pages, M: PageMaker, R: Wait, G: Gate>(
    rt: &R,
    alloc: Global,
    pool: &SharedPool<PoolHall<P, PlainHeap, M>>,
    input: &Input,
    modules: &[ModuleCall],
    worker: &mut Worker<PoolSeat<P, PlainHeap, M>, P>,
    gate: &G,
)
    requires ground { IsGround M.told input.now modules.now pool.now }
    requires ready { IsReady M.told input.now pool.now worker.old }
    ensures back { IsBack M.told input.now modules.now pool.now worker.new }
    ensures number { worker.new.number ≡ worker.old.number }
{
    let number = worker.number;
    let told = run_party(
        rt,
        alloc,
        pool,
        &mut worker.seat,
        input,
        modules,
        number,
        &mut worker.party,
        gate,
    );
    worker.replies = told.ok();
}

// The commands of the parties of an input, over a pool that all workers share.
#[derive(Drop)]
struct Commands<'a, A: Drop, R, G> {
    rt: &'a R,
    alloc: Global,
    pool: &'a SharedPool<A>,
    input: &'a Input,
    modules: &'a [ModuleCall],
    gate: &'a G,
}

impl<'a, P: Pages, M: PageMaker, R: Wait, G: Gate> Job<Worker<PoolSeat<P, PlainHeap, M>, P>>
    for Commands<'a, PoolHall<P, PlainHeap, M>, R, G> {
    ghost use Rattle.std.specs.Prelude.{◌≡◌};
    ghost use Rattle.pool_threads.specs.Sharing.{IsGround};
    ghost use Rattle.pool_workers.specs.Workers.{IsBack, IsReady};

    ghost ready = { λ job w. IsGround M.told job.input.now job.modules.now job.pool.now × IsReady M.told job.input.now job.pool.now w };

    ghost back = { λ job v w. IsBack M.told job.input.now job.modules.now job.pool.now w × (w.number ≡ v.number) };

    fn run(&self, worker: &mut Worker<PoolSeat<P, PlainHeap, M>, P>) {
        work_one(
            self.rt,
            self.alloc,
            self.pool,
            self.input,
            self.modules,
            worker,
            self.gate,
        );
    }
}

// All workers make their parties' commands, each on a thread of its own.
pub(crate) fn work<
    P: Pages + Send,
    M: PageMaker<Region = P> + Send,
    R: Threads + Wait + Sync,
    G: Gate + Sync,
>(
    rt: &R,
    alloc: Global,
    pool: &SharedPool<PoolHall<P, PlainHeap, M>>,
    input: &Input,
    modules: &[ModuleCall],
    workers: &mut [CachePadded<Worker<PoolSeat<P, PlainHeap, M>, P>>],
    gate: &G,
)
    requires ground { IsGround M.told input.now modules.now pool.now }
    requires ready { All (λ w. IsReady M.told input.now pool.now (padded_value w)) workers.old }
    ensures count { length workers.new ≡ length workers.old }
    ensures back { All (λ w. IsBack M.told input.now modules.now pool.now (padded_value w)) workers.new }
    ensures numbers { (i : ℕ) (d : CachePadded (Worker (HallSeat (HallPart P PlainHeap M)) P)) → i < length workers.old → (padded_value (slice_index_or workers.new i d)).number ≡ (padded_value (slice_index_or workers.old i d)).number }
{
    let job = Commands {
        rt,
        alloc,
        pool,
        input,
        modules,
        gate,
    };
    all_at_once(rt, &job, workers);
}
