//! The pool of memories: its stripes, its rules, and how a memory is made in its slot.

pub(crate) mod instantiate;
pub(crate) mod make;
pub(crate) mod rules;
pub(crate) mod stripes;
