//! What programs over a pool read and write: JSON, lines of text, streams of bytes.
//!
//! `read_input` makes an `Input` of JSON, and `read_shared` a `SharedInput`; an `InputFault` says why a text is none.
//! `output_text`, `load_text`, `replies_text`, `threads_text` and `shared_text` make the text of what a run gave. `Source` and
//! `Sink` are streams of bytes, which `read_all` and `write_all` use up: over standard input and output they are
//! `ReaderSource` and `WriterSink`, and in memory `MemorySource` and `MemorySink`.
//!
//! It is ours and no port. It stands on `pool_run` and `pool_run_shared` for what is read and written, and on
//! `serde_json` and `hex` of the toolchain. It runs nothing.
//!
//! ```rust
//! let input = read_input(alloc, bytes.as_slice())?;
//! let text = output_text(alloc, &input, &output)?;
//! ```
#![tactic(auto)]

// Reading an input
mod fields;
mod form_fault;
mod from_json;
mod json_input;
mod ranges;

// The fields of a run
mod commands;
mod input;
mod modules;
mod other_commands;
mod settings;
mod table_commands;

// The fields of events
mod events;
mod shared_input;

// Printing
mod print;
mod print_load;
mod print_shared;

// Streams of bytes
mod memory_streams;
mod standard_streams;
mod streams;
mod transfers;

pub use json_input::{InputFault, read_input, read_shared};
pub use memory_streams::{MemorySink, MemorySource};
pub use print::{output_text, push_pool_reply, replies_text, threads_text};
pub use print_load::load_text;
pub use print_shared::shared_text;
pub use standard_streams::{ReaderSource, WriterSink};
pub use streams::{Sink, Source};
pub use transfers::{ReadFault, read_all, write_all};
