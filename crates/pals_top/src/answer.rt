//! Answers: the output text and the status.
ghost use Rattle.std.specs.Prelude.{◌≡◌, if◌then◌else◌, IfOk, OnErr};
ghost use Rattle.bundle_designs.specs.declared.refusal.Refusal.{Refusal};
ghost use Rattle.pals_top.specs.proof.RefusalStatusAndText.{SaysWhy};
ghost use Rattle.pals_top.specs.declared.status.TheConstants.{DONE, NOT_SO};
ghost use Rattle.pals_top.specs.proof.StatusAndText.{status_of, text_of, Says};

use crate::status::{
    CLOCK_ENDED, CODE_TOO_LONG, DESIGN_REFUSED, DONE, NOT_SO, READ_FAULT, SCENARIO_REFUSED,
    STOPPED, TEXT_REFUSED, TOO_LONG, USAGE,
};
use bundle_designs::Refusal;
use pals_base::NoMemory;
use std::alloc::AllocError;

/// An answer of the program.
#[derive(Drop)]
pub enum Answer {
    /// What the command asks for.
    Done(Vec<u8>),
    /// What the command asks for, where something in it is not so.
    NotSo(Vec<u8>),
    /// The arguments are invalid.
    Usage,
    /// Why the bundle's design text is refused.
    TextRefused(Vec<u8>),
    /// Why the design is rejected: the first fault of its package, or all its violations.
    DesignRefused(Vec<u8>),
    /// Why the scenario is refused.
    ScenarioRefused(Vec<u8>),
    /// A run that a missed or an early input stopped: the rounds that all nodes finished, and the
    /// journal, which ends with the stop.
    Stopped(Vec<u8>),
    /// Which node's clock ended first in component order, and at which target.
    ClockEnded(Vec<u8>),
    /// Which component's step code is too long.
    CodeTooLong(Vec<u8>),
    /// The source failed.
    ReadFault,
    /// The source has too many bytes.
    TooLong,
}

impl Answer {
    /// The text that a command writes, and whether all in it is so.
    pub fn judged(text: Vec<u8>, is_so: bool) -> Answer
        ensures { Says (if is_so then DONE else NOT_SO) text.items result }
    {
        if is_so {
            Answer::Done(text)
        } else {
            Answer::NotSo(text)
        }
    }

    /// The answer to a bundle that has no design; `None` if memory ran out.
    pub fn refused(refusal: Refusal) -> Result<Answer, NoMemory>
        ensures answer { IfOk result (SaysWhy refusal) }
        ensures no_memory { OnErr result (refusal ≡ Refusal.Memory) }
    {
        match refusal {
            Refusal::Text(text) => Ok(Answer::TextRefused(text)),
            Refusal::Design(text) => Ok(Answer::DesignRefused(text)),
            Refusal::Memory => Err(AllocError),
        }
    }

    /// The status that the program ends with.
    pub fn status(&self) -> u8
        ensures { result ≡ status_of self.now }
    {
        match self {
            Answer::Done(_) => DONE,
            Answer::NotSo(_) => NOT_SO,
            Answer::Usage => USAGE,
            Answer::TextRefused(_) => TEXT_REFUSED,
            Answer::DesignRefused(_) => DESIGN_REFUSED,
            Answer::ScenarioRefused(_) => SCENARIO_REFUSED,
            Answer::Stopped(_) => STOPPED,
            Answer::ClockEnded(_) => CLOCK_ENDED,
            Answer::ReadFault => READ_FAULT,
            Answer::TooLong => TOO_LONG,
            Answer::CodeTooLong(_) => CODE_TOO_LONG,
        }
    }

    /// The whole text that the program writes.
    pub fn text(&self) -> &[u8]
        ensures { result.now ≡ text_of self.now }
    {
        match self {
            Answer::Done(text)
            | Answer::NotSo(text)
            | Answer::TextRefused(text)
            | Answer::DesignRefused(text)
            | Answer::ScenarioRefused(text)
            | Answer::Stopped(text)
            | Answer::ClockEnded(text)
            | Answer::CodeTooLong(text) => text.as_slice(),
            Answer::Usage =>
                b"usage: pals print / check ROOT / sync ROOT / world [--loose] ROOT / run [--trace] ROOT / audit ROOT / self N R / watch ROOT / vote ROOT / fuse ROOT / budget ROOT\n",
            Answer::ReadFault => b"read fault\n",
            Answer::TooLong => b"too long\n",
        }
    }
}
