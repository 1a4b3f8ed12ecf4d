//! The form of an input of `pool_cli`, and the first place at which a text has another.
//!
//! Read `Problem` first: a place in an input, and what is wrong there. `walk_run` and `walk_shared` go over the bytes of an
//! input, and stop at the first problem. A list of `Field` says which fields an object has and of which `Kind` each is;
//! the files named after what they are about have these lists.
//!
//! It is ours and no port. It stands on `serde_json` and `strsim` of the toolchain, and on nothing of the pool: whether
//! a text is an input is for `pool_forms` to say, and these walks say where it isn't.
//!
//! ```rust
//! let walk = walk_run(alloc, bytes.as_slice());
//! ```
#![tactic(auto)]

// What is wrong, and where
mod problem;

// An object by its fields
mod kinds;
mod names;
mod shapes;

// The parts of an input
mod command_shape;
mod module_shape;
mod run_shape;
mod settings_shape;
mod shared_shape;

// An input as bytes
mod json;

pub use json::{value_of, walk_run, walk_shared};
pub use problem::{Problem, Step, Stop, Walk, within};
