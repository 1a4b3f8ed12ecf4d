//! What the settings of a pool come to: slots, shards, stripes, queues, bytes, and the bounds of calls.
//!
//! Read `Settings` first. `explained` is the text of all of them and of what follows. The plan of a pool and the layout of
//! its slab are those that a pool of these settings has (`pool_slots`), and `Sizes` has the bounds on the steps of calls.
//!
//! It is ours and no port. It makes no pool and no region.
//!
//! ```rust
//! let text = explained(alloc, &settings, modules, &value)?;
//! ```
#![tactic(auto)]

// The settings, and the plan that follows
mod plan;

// The bounds of calls
mod bounds;

// As text
mod explain;
mod settings;

pub use bounds::Sizes;
pub use explain::explained;
pub use plan::Settings;
