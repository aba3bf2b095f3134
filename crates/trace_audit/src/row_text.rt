//! The lines of a row's text, one after the other.
ghost use Rattle.std.specs.Prelude.{◌≡◌, ◌≤◌, ◌<◌, ◌++◌, ◌∷◌, ℕ, List, length, take, drop, position, bytes_eq, IfSome};
ghost use Rattle.pals_model.specs.proof.CompositionLaws.TextLines.{IsLine};
ghost use Rattle.pals_model.specs.RoundTexts.{is_line_feed};
ghost use Rattle.pals_model.specs.DesignRules.{IsDesign};
ghost use Rattle.run_laws.specs.TraceVerdicts.{row_size};
ghost use Rattle.trace_audit.specs.proof.RemainingRowLines.{HasLeft};

use pals_model::Design;

/// The text of a row, of which the lines before a place are taken.
#[derive(Drop)]
pub struct RowText {
    pub text: Vec<u8>,
    pub place: usize,
}

impl RowText {
    /// Takes the next line of the row, and returns whether it is this one.
    pub fn take_line(&mut self, line: &[u8]) -> bool
        requires { self.old.place ≤ length self.old.text.items }
        ensures same { (shown : List ℕ) (lines : List (List ℕ)) → HasLeft self.old (shown ∷ lines) → IsLine shown
            → result ≡ bytes_eq line.now shown }
        ensures left { (shown : List ℕ) (lines : List (List ℕ)) → HasLeft self.old (shown ∷ lines) → IsLine shown
            → HasLeft self.new lines }
    {
        let length = line_length(self.rest());
        let same = is_start(self.rest(), length, line);
        self.place = (self.place + length + 1).min(self.text.len());
        same
    }

    // What is not taken yet.
    fn rest(&self) -> &[u8]
        requires { self.now.place ≤ length self.now.text.items }
        ensures { result.now ≡ drop self.now.place self.now.text.items }
    {
        &self.text.as_slice()[self.place..]
    }
}

// Whether the bytes of a text up to a place are this line.
fn is_start(text: &[u8], place: usize, line: &[u8]) -> bool
    requires { place ≤ length text.now }
    ensures { result ≡ bytes_eq line.now (take place text.now) }
{
    line == &text[..place]
}

// The length of the first line of a text.
fn line_length(text: &[u8]) -> usize
    ensures within { result ≤ length text.now }
    ensures value { (line rest : List ℕ) → IsLine line → text.now ≡ line ++ 10 ∷ rest → result ≡ length line }
{
    match line_feed(text) {
        Some(at) => at,
        None => text.len(),
    }
}

// The place of the first line feed of a text.
fn line_feed(text: &[u8]) -> Option<usize>
    ensures value { result ≡ position is_line_feed text.now }
    ensures within { IfSome result (λ at. at < length text.now) }
{
    text.iter().position(|byte| *byte == b'\n')
}

/// How many lines a row has.
pub fn row_size(design: &Design) -> usize
    ensures value { result ≡ row_size design.now }
    ensures some { 0 < result }
    ensures rules { IsDesign design.now }
{
    1 + design.components().len() + design.taps().len()
}
