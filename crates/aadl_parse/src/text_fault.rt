//! The reason why a text has no tree.

use aadl_grammar::ParseFault;
use aadl_lex::LexFault;
use std::alloc::AllocError;
use thiserror::Error;

/// The first lexical fault, or the first fault of the tokens; each `at` is a byte offset.
#[derive(Clone, Copy, Debug, Error)]
pub enum TextFault {
    /// The text has no tokens.
    #[error("{0}")]
    Lex(LexFault),
    /// No text of the grammar continues with the token at `at` or, at the end of the text, ends there.
    #[error("Syntax")]
    Syntax { at: usize },
    /// The opener at `at` would increase the nesting to 65.
    #[error("TooDeep")]
    TooDeep { at: usize },
    /// Out of memory.
    #[error("Memory")]
    Memory,
}

impl From<AllocError> for TextFault {
    ghost use Rattle.std.specs.Prelude.{◌≡◌};
    ghost use Rattle.aadl_parse.specs.declared.text_fault.TextFault.TheVariants.{Memory};

    ghost from_gives = { λ _ e. e ≡ Memory };

    fn from(_error: AllocError) -> TextFault {
        TextFault::Memory
    }
}

impl From<ParseFault> for TextFault {
    ghost use Rattle.std.specs.Prelude.{◌≡◌};
    ghost use Rattle.aadl_parse.specs.ParseResults.{of_parse};

    ghost from_gives = { λ f e. e ≡ of_parse f };

    fn from(fault: ParseFault) -> TextFault {
        match fault {
            ParseFault::Syntax { at } => TextFault::Syntax { at },
            ParseFault::TooDeep { at } => TextFault::TooDeep { at },
            ParseFault::Memory => TextFault::Memory,
        }
    }
}
