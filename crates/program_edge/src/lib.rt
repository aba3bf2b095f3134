//! The edge of a program: readers and writers of std as sources and sinks, and the arguments.
//!
//! A contract over a source and a sink becomes one over a reader and a writer by [`ReadSource`] and
//! [`WriteSink`], which expose the bytes of the reader and of the writer if those are known.
#![tactic(auto)]

mod arguments;
mod exit;
mod exposure;
mod read_source;
mod write_sink;

pub use arguments::command_words;
pub use exit::Exit;
pub use exposure::Exposure;
pub use read_source::ReadSource;
pub use write_sink::WriteSink;
