//! Sources and sinks of bytes.
//!
//! A [`Source`] provides bytes and a [`Sink`] accepts them. Each counts its failed calls, so that a caller can
//! determine the cause of an error. [`read_all`] and [`write_all`] work for every source and sink: their
//! contracts state which bytes were consumed and written, also if a call fails. [`MemSource`] and [`MemSink`]
//! are in memory and fail at calls of the test's choice. The crate never repeats a failed call.
#![tactic(auto)]

mod memory_sink;
mod memory_source;
mod stream_errors;
mod streams;
mod transfers;

pub use memory_sink::MemSink;
pub use memory_source::MemSource;
pub use stream_errors::{Failed, ReadEnd, WriteFault};
pub use streams::{Sink, Source};
pub use transfers::{read_all, write_all};
