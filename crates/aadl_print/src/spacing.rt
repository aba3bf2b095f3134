//! The spacing between two terminals.
ghost use Rattle.std.specs.Prelude.{◌≡◌};
ghost use Rattle.aadl_tree.specs.Terminals.{mark};
ghost use Rattle.aadl_tree.specs.CanonicalText.{holds_left};

use aadl_tree::Mark;

/// The spacing after a terminal, unless the next one suppresses it.
#[derive(Clone, Copy)]
pub enum Spacing {
    Nothing,
    Space,
    LineEnd,
}

impl Spacing {
    ghost use Rattle.aadl_print.specs.proof.PrintedText.{gap_text, gap_behind};

    /// Returns its bytes.
    pub fn text(self) -> &'static [u8]
        ensures { result.now ≡ gap_text self }
    {
        match self {
            Spacing::Nothing => b"",
            Spacing::Space => b" ",
            Spacing::LineEnd => b"\n",
        }
    }

    /// Returns the spacing after a keyword or a symbol.
    pub fn behind(last: Mark) -> Spacing
        ensures { result ≡ gap_behind (mark last) }
    {
        match last {
            Mark::ParenOpen | Mark::Scope | Mark::Dot | Mark::Tick | Mark::Bang => Spacing::Nothing,
            Mark::Semicolon
            | Mark::Public
            | Mark::AnnexOpen
            | Mark::Features
            | Mark::Properties
            | Mark::Subcomponents
            | Mark::Connections
            | Mark::Variables
            | Mark::States
            | Mark::Transitions => Spacing::LineEnd,
            _ => Spacing::Space,
        }
    }
}

/// Returns whether a keyword or a symbol suppresses the spacing before it.
pub fn stands_close(next: Mark) -> bool
    ensures { result ≡ holds_left (mark next) }
{
    matches!(
        next,
        Mark::Semicolon
            | Mark::Comma
            | Mark::ParenClose
            | Mark::Colon
            | Mark::Scope
            | Mark::Dot
            | Mark::Tick
            | Mark::Bang
    )
}
