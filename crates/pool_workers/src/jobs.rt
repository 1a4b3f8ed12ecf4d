//! A job that workers do side by side.
ghost use Rattle.std.specs.Prelude.{◌≡◌, ℕ, ◌<◌, All, length, slice_index_or};
ghost use Rattle.crossbeam_utils.specs.Padded.{padded_value};
ghost use Rattle.crossbeam_utils.specs.declared.cache_padded.CachePadded.{CachePadded};

use crossbeam_utils::CachePadded;
use std::ops::DerefMut;
use std::thread;
use std::thread::Threads;

/// What each of some workers does, whatever the others do meanwhile.
pub(crate) trait Job<W> {
    // Whether a worker may begin.
    ghost ready: { Self → W → Type 0 };

    // As what a worker may come back that was like the first.
    ghost back: { Self → W → W → Type 0 };

    fn run(&self, worker: &mut W)
        requires { ready self.now worker.old }
        ensures { back self.now worker.old worker.new };
}

/// Each worker does the job, on a thread of its own. It has nothing else on its cache lines meanwhile.
pub(crate) fn all_at_once<W: Send, J: Job<W> + Sync, R: Threads + Sync>(
    rt: &R,
    job: &J,
    workers: &mut [CachePadded<W>],
)
    requires ready { All (λ w. J.ready job.now (padded_value w)) workers.old }
    ensures count { length workers.new ≡ length workers.old }
    ensures back { (i : ℕ) (d : CachePadded W) → i < length workers.old → J.back job.now (padded_value (slice_index_or workers.old i d)) (padded_value (slice_index_or workers.new i d)) }
{
    let count = workers.len();
    if count == 0 {
        return;
    }
    thread::for_each_mut(
        rt,
        workers,
        count,
        &|_, worker: &mut CachePadded<W>|
            requires { J.ready job.now (padded_value worker.now) }
            ensures { J.back job.entry.now (padded_value worker.entry.now) (padded_value worker.exit.now) }
        { job.run(&mut **worker) },
    );
}
