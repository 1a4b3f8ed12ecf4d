//! What is granted. A lease is read and written without the pool.

pub(crate) mod element;
pub(crate) mod heap;
pub(crate) mod instance;
pub(crate) mod memory;
pub(crate) mod stack;
pub(crate) mod table;
