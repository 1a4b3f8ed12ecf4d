//! What a run comes to: counts of its turns, and what its steps did and cost.
#![tactic(auto)]

// What a turn is counted as
mod counts;
mod kinds;
mod made;
mod seen;

// What all turns come to
mod costs;
mod marks;
mod summary;

// The text
mod costs_text;
mod counts_text;
mod shown;

pub use costs::{Costs, Flushes, Picks};
pub use counts::{Cause, Counts, Refusals};
pub use kinds::{Kinds, OfKind};
pub use made::Made;
pub use marks::{Marks, SlotPast};
pub use seen::{Doing, MemoryOf, Seen};
pub use shown::sum_up;
pub use summary::Summary;
