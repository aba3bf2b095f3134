//! The grammar of packages and behaviours as a stack machine, and the functions that both parsers read
//! terminals with.
//!
//! The state of the machine is a stack of expected symbols, the topmost first. The parse table lists, for each
//! symbol, the terminals that it can begin with and the symbols that follow each of them, so one terminal of
//! lookahead suffices. The laws of this crate state that the machine accepts the texts of the grammar within
//! the nesting limit and no others. They also state that it stops at the first terminal at which no text of the
//! grammar continues. A parser that is proved to follow the machine therefore needs no further proof about the
//! position of a fault.
//!
//! A [`Reader`] holds the terminals of a text. Each parsing function reads one part of the grammar from an
//! index on. It returns the tree of the part and the index of the next terminal, or the fault that the machine
//! reports. The parameter `room` of a function is the number of openers that may still be open at the same
//! time.
//!
//! This crate parses references, values and properties. The crates of the two parsers parse everything else.
#![tactic(auto)]

pub mod canonical_text_laws;
pub mod fate_and_uniqueness_laws;
pub mod keyword_laws;
mod lists;
mod names;
mod parse_fault;
mod parse_input;
mod single_terminals;
mod terminal;
pub mod tree_or_fault_laws;
mod values;

pub use lists::{followers, section};
pub use names::{dot_identifier, identifier, identifiers, name, path, reference};
pub use parse_fault::ParseFault;
pub use parse_input::{Parsed, Reader};
pub use terminal::{Terminal, TerminalClass, narrow, resolve};
pub use values::{association, properties};
