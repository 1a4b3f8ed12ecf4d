ghost use Rattle.std.specs.Prelude.{◌≡◌};
ghost use Rattle.pool_pages.specs.MakerTold.{no_calls};
ghost use Rattle.pool_run.specs.Numbers.{no_metrics};

use crate::reply::ReplyList;
use pool_alloc::Metrics;
use pool_pages::PageCalls;
use pool_types::{BadConfig, PlainList};
use thiserror::Error;

/// What a run gives: each party's replies, the pool's numbers at the end, and the calls on all its regions.
#[derive(Debug, Drop)]
pub struct RunOutput {
    pub replies: PlainList<ReplyList>,
    pub metrics: Metrics,
    pub calls: PageCalls,
}

impl RunOutput {
    /// The output of a run that prints no numbers: zeros, and no bytes of resident stacks.
    pub fn without_numbers(replies: PlainList<ReplyList>) -> RunOutput
        ensures replies { result.replies ≡ replies }
        ensures metrics { result.metrics ≡ no_metrics }
        ensures calls { result.calls ≡ no_calls }
    {
        let metrics = Metrics {
            core_instances: 0,
            component_instances: 0,
            memories: 0,
            tables: 0,
            stacks: 0,
            gc_heaps: 0,
            unused_warm_memories: 0,
            unused_memory_bytes_resident: 0,
            unused_warm_tables: 0,
            unused_table_bytes_resident: 0,
            unused_warm_stacks: 0,
            unused_stack_bytes_resident: None,
        };
        RunOutput {
            replies,
            metrics,
            calls: PageCalls::none(),
        }
    }
}

/// Why nothing was run.
#[derive(Clone, Copy, Debug, PartialEq, Eq, Error)]
pub enum RunFault {
    /// A size of the input is past its limit, or what it names isn't there.
    #[error("the input is not valid")]
    BadInput,
    /// A rule of the settings is broken: the first of them.
    #[error("a rule of the settings is broken")]
    BadConfig(BadConfig),
    /// A region or an image couldn't be made, or a call on a region as the pool was made failed.
    #[error("a region or an image could not be made")]
    PageFault,
    /// There is no memory for the pool, the run or the lists of its replies.
    #[error("there is no memory for the run")]
    Memory,
}
