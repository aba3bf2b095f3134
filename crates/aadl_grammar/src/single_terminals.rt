//! Reads the terminal at an index: a given keyword or symbol, a word, a number, a string, or an annex of
//! another language.
ghost use Rattle.std.specs.Prelude.{◌≡◌, [], true, MatchOption, MatchBool, IfOk, IfErr};
ghost use Rattle.aadl_tree.specs.TerminalFaults as grammar;
ghost use Rattle.aadl_tree.specs.Terminals.{whole, real, quoted, unread};
ghost use Rattle.aadl_tree.specs.proof.NameViews.{identifier_view};
ghost use Rattle.aadl_tree.specs.proof.PlaceMaps.{kept_place};
ghost use Rattle.aadl_grammar.specs.proof.GrammarSymbols as s;
ghost use Rattle.aadl_grammar.specs.proof.ParseTable.{rows};
ghost use Rattle.aadl_tree.specs.Values.{sign_mark};
ghost use Rattle.aadl_grammar.specs.proof.GrammarSymbols.{a_word, a_whole, a_real, a_quoted, an_unread, the};
ghost use Rattle.aadl_grammar.specs.declared.parse_fault.ParseFault.TheVariants.{Memory};
ghost use Rattle.aadl_grammar.specs.proof.TerminalViews.{between, is_word_at};
ghost use Rattle.aadl_grammar.specs.proof.ParserAnswers.{here, IsFirst, AtMark, AtWord, At, Misses, StartsWord};
ghost use Rattle.aadl_grammar.specs.proof.ParserAnswers.{Expects, MissAll, IsMarked, Deepens};

use crate::parse_fault::ParseFault;
use crate::parse_input::Reader;
use crate::terminal::{Terminal, TerminalClass, between};
use aadl_tree::{Identifier, Mark, Sign, Spelling};
use std::str;

impl Reader<'_> {
    /// Returns the terminal at an index, and the next index.
    fn first(&self, at: usize) -> Option<(Terminal, usize)>
        ensures { MatchOption result (here self.now at ≡ []) (λ x. IsFirst self.now at x.0 x.1) }
    {
        if at >= self.terminals.len() {
            return None;
        }
        Some((self.terminals[at], at + 1))
    }

    /// The bytes of a terminal.
    fn bytes(&self, terminal: Terminal) -> &[u8]
        ensures { result.now ≡ between self.now.text.now terminal.start terminal.end }
    {
        between(self.text, terminal.start as usize, terminal.end as usize)
    }

    /// Returns the byte offset of the terminal at an index, or of the end of the text if there is no such
    /// terminal.
    pub fn place(&self, at: usize) -> usize
        ensures { result ≡ grammar.place self.now.end (here self.now at) }
    {
        match self.first(at) {
            Some((terminal, _)) => terminal.start as usize,
            None => self.end,
        }
    }

    /// Returns the next index if the keyword or symbol `mark` is at this index.
    pub fn take(&self, at: usize, mark: Mark) -> Option<usize>
        ensures { MatchOption result (Misses (the mark) (here self.now at))
            (λ next. AtMark mark (here self.now at) (here self.now next)) }
    {
        let (terminal, next) = self.first(at)?;
        match terminal.kind {
            TerminalClass::Mark(found) => { if found.is(mark) { Some(next) } else { None } }
            _ => None,
        }
    }

    /// Returns whether a word is at this index.
    pub fn is_word(&self, at: usize) -> bool
        ensures { MatchBool result (StartsWord (here self.now at)) (Misses a_word (here self.now at)) }
    {
        match self.first(at) {
            Some((terminal, _)) => match terminal.kind {
                TerminalClass::Word => true,
                _ => false,
            },
            None => false,
        }
    }

    /// Returns the whole number at this index, and the next index.
    pub fn whole(&self, at: usize) -> Option<(i64, usize)>
        ensures { MatchOption result (Misses a_whole (here self.now at))
            (λ x. At (whole x.0) (here self.now at) (here self.now x.1)) }
    {
        let (terminal, next) = self.first(at)?;
        match terminal.kind {
            TerminalClass::Whole(value) => Some((value, next)),
            _ => None,
        }
    }

    /// Returns the bytes of the real at this index, and the next index. Errors: `Memory`.
    pub fn real(&self, at: usize) -> Result<Option<(Vec<u8>, usize)>, ParseFault>
        ensures ok { IfOk result (λ o. MatchOption o (Misses a_real (here self.now at))
            (λ x. At (real x.0.items) (here self.now at) (here self.now x.1))) }
        ensures err { IfErr result (λ e. e ≡ Memory) }
    {
        let Some((terminal, next)) = self.first(at) else {
            return Ok(None);
        };
        match terminal.kind {
            TerminalClass::Real => {
                let bytes = self.bytes(terminal).to_vec(self.alloc)?;
                Ok(Some((bytes, next)))
            }
            _ => Ok(None),
        }
    }

    /// Returns the bytes of the string at this index, and the next index. Errors: `Memory`.
    pub fn quoted(&self, at: usize) -> Result<Option<(Vec<u8>, usize)>, ParseFault>
        ensures ok { IfOk result (λ o. MatchOption o (Misses a_quoted (here self.now at))
            (λ x. At (quoted x.0.items) (here self.now at) (here self.now x.1))) }
        ensures err { IfErr result (λ e. e ≡ Memory) }
    {
        let Some((terminal, next)) = self.first(at) else {
            return Ok(None);
        };
        match terminal.kind {
            TerminalClass::Quoted => {
                let bytes = self.bytes(terminal).to_vec(self.alloc)?;
                Ok(Some((bytes, next)))
            }
            _ => Ok(None),
        }
    }

    /// Returns the bytes of the annex of another language at this index, and the next index. Errors: `Memory`.
    pub fn unread(&self, at: usize) -> Result<Option<(Vec<u8>, usize)>, ParseFault>
        ensures ok { IfOk result (λ o. MatchOption o (Misses an_unread (here self.now at))
            (λ x. At (unread x.0.items) (here self.now at) (here self.now x.1))) }
        ensures err { IfErr result (λ e. e ≡ Memory) }
    {
        let Some((terminal, next)) = self.first(at) else {
            return Ok(None);
        };
        match terminal.kind {
            TerminalClass::Unread => {
                let bytes = self.bytes(terminal).to_vec(self.alloc)?;
                Ok(Some((bytes, next)))
            }
            _ => Ok(None),
        }
    }

    /// The spelling of a word. Errors: `Memory`.
    fn spelling(&self, word: Terminal) -> Result<Spelling, ParseFault>
        requires { is_word_at self.now.text.now word ≡ true }
        ensures ok { IfOk result (λ found. found ≡ between self.now.text.now word.start word.end) }
        ensures err { IfErr result (λ e. e ≡ Memory) }
    {
        let text = str::from_utf8(self.bytes(word)).unwrap();
        Ok(Spelling::from_str(self.alloc, text)?)
    }

    /// Returns the word at this index, and the next index. Errors: `Memory`.
    pub fn word(&self, at: usize) -> Result<Option<(Identifier, usize)>, ParseFault>
        ensures ok { IfOk result (λ o. MatchOption o (Misses a_word (here self.now at))
            (λ x. AtWord (identifier_view kept_place x.0) (here self.now at) (here self.now x.1))) }
        ensures err { IfErr result (λ e. e ≡ Memory) }
    {
        let Some((terminal, next)) = self.first(at) else {
            return Ok(None);
        };
        match terminal.kind {
            TerminalClass::Word => {
                let spelling = self.spelling(terminal)?;
                let at = terminal.start as usize;
                Ok(Some((Identifier { at, spelling }, next)))
            }
            _ => Ok(None),
        }
    }

    /// Returns the next index. Errors: `Syntax` unless the keyword or symbol `mark` is at this index.
    pub fn expect(&self, at: usize, mark: Mark) -> Result<usize, ParseFault>
        ensures { Expects self.now mark at result }
    {
        match self.take(at, mark) {
            Some(next) => Ok(next),
            None => Err(ParseFault::Syntax { at: self.place(at) }),
        }
    }

    /// Returns whether the keyword `mark` is at this index, and the index after it if it is, else this index.
    pub fn has(&self, at: usize, mark: Mark) -> (bool, usize)
        ensures { IsMarked mark result.0 (here self.now at) (here self.now result.1) }
    {
        match self.take(at, mark) {
            Some(next) => (true, next),
            None => (false, at),
        }
    }

    /// Returns the sign at this index, and the next index.
    pub fn sign(&self, at: usize) -> Option<(Sign, usize)>
        ensures { MatchOption result (MissAll (rows s.terms) (here self.now at))
            (λ x. AtMark (sign_mark x.0) (here self.now at) (here self.now x.1)) }
    {
        if let Some(next) = self.take(at, Mark::Plus) {
            return Some((Sign::Plus, next));
        }
        if let Some(next) = self.take(at, Mark::Minus) {
            return Some((Sign::Minus, next));
        }
        None
    }

    /// Returns the room inside the opener at this index. Errors: `TooDeep` if there is no room for another
    /// opener.
    pub fn deeper(&self, at: usize, room: usize) -> Result<usize, ParseFault>
        ensures { Deepens room (grammar.place self.now.end (here self.now at)) result }
    {
        if room == 0 {
            return Err(ParseFault::TooDeep { at: self.place(at) });
        }
        Ok(room - 1)
    }
}
