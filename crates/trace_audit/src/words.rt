//! The words of a line.
ghost use Rattle.std.specs.Prelude.{◌≡◌};
ghost use Rattle.std.specs.List.{list_all, slice_split};
ghost use Rattle.run_laws.specs.LineForms.{is_there, words_of};
ghost use Rattle.trace_audit.specs.proof.RemainingWords.{is_space, words_in, put_back};

/// The words of a line that are not read yet: parted by exactly one space each.
#[derive(Clone, Copy)]
pub struct Words<'a> {
    pub rest: Option<&'a str>,
}

impl<'a> Words<'a> {
    /// All words of a line.
    pub fn of(line: &'a str) -> Words<'a>
        ensures { words_in result.rest ≡ words_of line.now }
    {
        Words { rest: Some(line) }
    }

    /// The next word, if there is one.
    #[tactic(auto, using(crate::proofs::FirstWords::uncut, crate::proofs::FirstWords::cut_once))]
    pub fn next(&mut self) -> Option<&'a str>
        ensures { words_in self.old.rest ≡ put_back result (words_in self.new.rest) }
    {
        let rest = self.rest?;
        match rest.split_once(' ') {
            None => {
                self.rest = None;
                Some(rest)
            }
            Some((word, more)) => {
                self.rest = Some(more);
                Some(word)
            }
        }
    }
}

/// Whether no word of a line is empty.
pub fn has_words(line: &[u8]) -> bool
    ensures { result ≡ list_all is_there (words_of line.now) }
{
    are_there(line)
}

// Whether no word between two bytes that are spaces is empty.
fn are_there(line: &[u8]) -> bool
    ensures { result ≡ list_all is_there (slice_split is_space line.now) }
{
    line.split(|byte| *byte == b' ')
        .all(|word| !word.is_empty())
}
