//! The text under construction.
ghost use Rattle.std.specs.Prelude.{◌≡◌, OnOk};
ghost use Rattle.aadl_tree.specs.Terminals.{word, whole, real, quoted, unread, mark};

use crate::spacing::{Spacing, stands_close};
use aadl_tree::Mark;
use itoa::Buffer;
use std::alloc::{AllocError, Global};
use std::marker::Model;

/// The text of the terminals so far. The model also has the spacing after the last terminal.
#[derive(Drop)]
pub struct Printer {
    text: Vec<u8>,
    gap: Spacing,
}

impl Model for Printer {
    ghost use Rattle.aadl_print.specs.proof.PrintedText.{Printed};

    ghost Value = { Printed };

    ghost view = { λ p. record { text = p.text.items; gap = p.gap } };
}

impl Printer {
    ghost use Rattle.std.specs.Prelude.{◌++◌, IfOk};
    ghost use Rattle.aadl_tree.specs.CanonicalText.{line_end};
    ghost use Rattle.aadl_print.specs.proof.PrintedText.{blank, put};

    /// Creates an empty printer. Does not allocate.
    pub fn new(alloc: Global) -> Printer
        ensures { result ≡ blank }
    {
        Printer {
            text: Vec::new(alloc),
            gap: Spacing::Nothing,
        }
    }

    /// Prints a keyword or a symbol. Errors: out of memory.
    #[tactic(auto, unfolding(crate::specs::proof::PrintedText::put))]
    pub fn mark(&mut self, next: Mark) -> Result<(), AllocError>
        ensures { OnOk result (self.new ≡ put self.old (mark next)) }
    {
        if !stands_close(next) {
            self.text.extend_from_slice(self.gap.text())?;
        }
        self.text.extend_from_slice(next.text())?;
        self.gap = Spacing::behind(next);
        Ok(())
    }

    /// Prints a word, a real, a string or an annex of another language, byte for byte. Errors: out of memory.
    #[tactic(auto, unfolding(crate::specs::proof::PrintedText::put))]
    pub fn verbatim(&mut self, bytes: &[u8]) -> Result<(), AllocError>
        ensures word { OnOk result (self.new ≡ put self.old (word bytes.now)) }
        ensures real { OnOk result (self.new ≡ put self.old (real bytes.now)) }
        ensures quoted { OnOk result (self.new ≡ put self.old (quoted bytes.now)) }
        ensures unread { OnOk result (self.new ≡ put self.old (unread bytes.now)) }
    {
        self.text.extend_from_slice(self.gap.text())?;
        self.text.extend_from_slice(bytes)?;
        self.gap = Spacing::Space;
        Ok(())
    }

    /// Prints a whole number, in decimal digits. Errors: out of memory.
    #[tactic(auto, unfolding(crate::specs::proof::PrintedText::put))]
    pub fn whole(&mut self, value: i64) -> Result<(), AllocError>
        ensures { OnOk result (self.new ≡ put self.old (whole value)) }
    {
        self.text.extend_from_slice(self.gap.text())?;
        self.text
            .extend_from_slice(Buffer::new().format(value).as_bytes())?;
        self.gap = Spacing::Space;
        Ok(())
    }

    /// Returns the whole text, which ends with a line end. Errors: out of memory.
    pub fn finish(self) -> Result<Vec<u8>, AllocError>
        ensures { IfOk result (λ text. text.items ≡ self.text ++ line_end) }
    {
        let mut text = self.text;
        text.extend_from_slice(Spacing::LineEnd.text())?;
        Ok(text)
    }
}
