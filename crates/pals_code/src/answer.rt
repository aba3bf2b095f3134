//! Answers: the output text and the status.
ghost use Rattle.std.specs.Prelude.{◌≡◌, IfOk, OnErr};
ghost use Rattle.bundle_designs.specs.declared.refusal.Refusal.{Refusal};
ghost use Rattle.pals_code.specs.proof.StatusAndText.{status_of, text_of, SaysWhy};

use crate::status::{
    CODE_TOO_LONG, DESIGN_REFUSED, DONE, READ_FAULT, TEXT_REFUSED, TOO_LONG, USAGE,
};
use bundle_designs::Refusal;
use pals_base::NoMemory;
use std::alloc::AllocError;

/// An answer of the program.
#[derive(Drop)]
pub enum Answer {
    /// The listing.
    Done(Vec<u8>),
    /// The words are not one root.
    Usage,
    /// Why the bundle's design text is refused.
    TextRefused(Vec<u8>),
    /// Why the design is rejected: the first fault of its package, or all its violations.
    DesignRefused(Vec<u8>),
    /// Which component's step code is too long.
    CodeTooLong(Vec<u8>),
    /// The source failed.
    ReadFault,
    /// The source has too many bytes.
    TooLong,
}

impl Answer {
    /// The answer to a bundle that has no design; `None` if memory ran out.
    pub fn refused(refusal: Refusal) -> Result<Answer, NoMemory>
        ensures answer { IfOk result (SaysWhy refusal) }
        ensures no_memory { OnErr result (refusal ≡ Refusal.Memory) }
    {
        match refusal {
            Refusal::Text(text) => Ok(Answer::TextRefused(text)),
            Refusal::Design(text) => Ok(Answer::DesignRefused(text)),
            Refusal::Memory => Err(AllocError),
        }
    }

    /// The status that the program ends with.
    pub fn status(&self) -> u8
        ensures { result ≡ status_of self.now }
    {
        match self {
            Answer::Done(_) => DONE,
            Answer::Usage => USAGE,
            Answer::TextRefused(_) => TEXT_REFUSED,
            Answer::DesignRefused(_) => DESIGN_REFUSED,
            Answer::CodeTooLong(_) => CODE_TOO_LONG,
            Answer::ReadFault => READ_FAULT,
            Answer::TooLong => TOO_LONG,
        }
    }

    /// The whole text that the program writes.
    pub fn text(&self) -> &[u8]
        ensures { result.now ≡ text_of self.now }
    {
        match self {
            Answer::Done(text)
            | Answer::TextRefused(text)
            | Answer::DesignRefused(text)
            | Answer::CodeTooLong(text) => text.as_slice(),
            Answer::Usage => b"usage: pals_code ROOT\n",
            Answer::ReadFault => b"read fault\n",
            Answer::TooLong => b"too long\n",
        }
    }
}
