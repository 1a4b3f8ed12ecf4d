//! What a run does, step by step, as lines.
#![tactic(auto)]

mod command_kind;
mod part;
mod shown;
mod stage;
mod step;
mod trace;
mod words;

pub use command_kind::{CommandKind, kind_of};
pub use part::{Part, ShardName, home_of, kind_name};
pub use shown::{ShowFault, fault_of_run, trace_run};
pub use stage::Stage;
pub use step::{Look, Next, Step, command_of, look_at, step_made};
pub use trace::{Printer, TraceFault};
pub use words::push_calls;
