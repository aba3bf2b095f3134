//! The terminals of a text, which the functions of both parsers read, and the result type of these functions.
ghost use Rattle.aadl_grammar.specs.proof.TerminalViews.{AreWords};

use crate::parse_fault::ParseFault;
use crate::terminal::Terminal;
use std::alloc::Global;

/// The tree of a part and the index of the next terminal.
pub type Parsed<T> = Result<(T, usize), ParseFault>;

/// The terminals of a text.
#[derive(Clone, Copy)]
pub struct Reader<'a> {
    /// The allocator of the trees.
    pub alloc: Global,
    pub text: &'a [u8],
    pub terminals: &'a [Terminal],
    /// The byte offset of a fault at the end of the terminals.
    pub end: usize,
    pub ghost words: { AreWords text.now terminals.now },
}
