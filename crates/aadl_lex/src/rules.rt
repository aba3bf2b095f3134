//! The rules of the lexer: the token at the front of a text.

ghost use Rattle.std.specs.Prelude.{◌≡◌, ◌+◌, ◌<◌, ◌≤◌, length};
ghost use Rattle.aadl_lex.specs.Rules as spec;
ghost use Rattle.aadl_lex.specs.Rules.{IsWithin};

use crate::fault::LexFault;
use crate::token::{NAME_BYTES, TokenKind};
use crate::token_lengths;

/// The mode in which a text is read at a position.
#[derive(Clone, Copy, PartialEq)]
pub enum Reading {
    /// Outside annex bodies.
    Outside,
    /// Outside, directly after the word `behavior_specification`.
    AfterName,
    /// Inside an annex body that is read as tokens.
    Inside,
}

impl Reading {
    /// Returns the mode after a token of this class with these bytes.
    pub fn after(self, kind: TokenKind, token: &[u8]) -> Reading
        ensures { result ≡ spec.after self kind token.now }
    {
        match (self, kind) {
            (Reading::Inside, _) => Reading::Inside,
            (_, TokenKind::Word) if token.eq_ignore_ascii_case(b"behavior_specification") => {
                Reading::AfterName
            }
            _ => Reading::Outside,
        }
    }
}

/// The piece at the front of a text.
#[derive(Clone, Copy)]
pub enum First {
    /// A blank or a comment, with its length in bytes.
    Skipped(usize),
    /// A token, with its class and its length in bytes.
    Taken(TokenKind, usize),
    /// `{**`, a body that is read as tokens, and `**}`, with the length of the body in bytes.
    Body(usize),
    /// No token.
    Refused(LexFault),
}

fn is_blank(byte: u8) -> bool
    ensures { result ≡ spec.is_blank byte }
{
    byte == b' ' || byte == b'\t' || byte == b'\n' || byte == b'\r'
}

fn word_first(text: &[u8], at: usize) -> First
    ensures { result ≡ spec.word_first at text.now }
{
    let len = token_lengths::word_len(text);
    if len <= NAME_BYTES {
        First::Taken(TokenKind::Word, len)
    } else {
        First::Refused(LexFault::LongName { at })
    }
}

fn number_first(text: &[u8], at: usize) -> First
    ensures { result ≡ spec.number_first at text.now }
{
    if let Some(len) = token_lengths::real_len(text) {
        return First::Taken(TokenKind::Real, len);
    }
    let len = token_lengths::whole_len(text);
    match token_lengths::decimal(&text[..len]) {
        Some(value) => First::Taken(TokenKind::Whole(value), len),
        None => First::Refused(LexFault::BigNumber { at }),
    }
}

fn string_first(text: &[u8], at: usize) -> First
    requires { 0 < length text.now }
    ensures { result ≡ spec.string_first at text.now }
{
    let inner = token_lengths::string_len(&text[1..]);
    if text.get(inner + 1) == Some(&b'"') {
        First::Taken(TokenKind::Quoted, inner + 2)
    } else {
        First::Refused(LexFault::OpenString { at })
    }
}

fn annex_first(reading: Reading, text: &[u8], at: usize) -> First
    requires { 3 ≤ length text.now }
    ensures { result ≡ spec.annex_first reading at text.now }
{
    match (token_lengths::body_len(&text[3..]), reading) {
        (None, _) => First::Refused(LexFault::OpenAnnex { at }),
        (Some(len), Reading::AfterName) => First::Body(len),
        (Some(len), _) => First::Taken(TokenKind::Unread, len + 6),
    }
}

fn symbol_first(text: &[u8], at: usize) -> First
    requires { 0 < length text.now }
    ensures { result ≡ spec.symbol_first at text.now }
{
    match token_lengths::symbol_len(text) {
        0 => First::Refused(LexFault::BadByte { at }),
        len => First::Taken(TokenKind::Symbol, len),
    }
}

/// Returns the piece at the front of the text, whose first byte has the offset `at` in the whole text.
#[tactic(auto, unfolding(crate::specs::Rules::first))]
pub fn front(reading: Reading, text: &[u8], at: usize) -> First
    requires { 0 < length text.now }
    ensures value { result ≡ spec.first reading at text.now }
    ensures within { IsWithin (length text.now) result }
{
    let byte = text[0];
    if is_blank(byte) {
        First::Skipped(1)
    } else if text.starts_with(b"--") {
        First::Skipped(token_lengths::line_len(text))
    } else if byte.is_ascii_alphabetic() {
        word_first(text, at)
    } else if byte.is_ascii_digit() {
        number_first(text, at)
    } else if byte == b'"' {
        string_first(text, at)
    } else if text.starts_with(b"{**") && reading != Reading::Inside {
        annex_first(reading, text, at)
    } else {
        symbol_first(text, at)
    }
}
