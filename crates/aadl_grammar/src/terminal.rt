//! Terminals: tokens that are classified as keywords or other words.
ghost use Rattle.std.specs.Prelude.{◌≡◌, IfOk, All};
ghost use Rattle.aadl_lex.specs.proof.TokenSpellings.{IsWordAt};
ghost use Rattle.aadl_lex.specs.TokensAndFirstFaults.{bytes_of};
ghost use Rattle.aadl_lex.specs.declared.token.TokenKind.TheVariants as class;
ghost use Rattle.aadl_tree.specs.Terminals.{spots_from, kind_of};
ghost use Rattle.aadl_grammar.specs.proof.TerminalViews.{between, kind_with, spots_of, AreWords};
ghost use Rattle.aadl_grammar.specs.declared.terminal.TerminalClass.TheVariants as t;

use aadl_lex::{Token, TokenKind};
use aadl_tree::Mark;
use std::alloc::{AllocError, Global};

/// The class of a terminal. The text has its further content, such as the spelling of a word.
#[derive(Clone, Copy)]
pub enum TerminalClass {
    /// A word that is not a keyword.
    Word,
    /// A whole number and its value.
    Whole(i64),
    /// A real.
    Real,
    /// A string.
    Quoted,
    /// An annex of another language.
    Unread,
    /// A keyword or a symbol.
    Mark(Mark),
    /// Bytes that are not a symbol. No text has such a terminal.
    Other,
}

/// A terminal: the bytes of the text from `start` up to, but not including, `end`. Offsets have 32 bits, so a
/// terminal takes 24 bytes.
#[derive(Clone, Copy)]
pub struct Terminal {
    pub kind: TerminalClass,
    pub start: u32,
    pub end: u32,
}

/// The bytes of the text between two byte offsets.
pub(crate) fn between(text: &[u8], start: usize, end: usize) -> &[u8]
    ensures { result.now ≡ between text.now start end }
{
    let rest = &text[start.min(text.len())..];
    &rest[..end.saturating_sub(start).min(rest.len())]
}

fn terminal_kind(inside: bool, text: &[u8], token: Token) -> TerminalClass
    ensures kind { kind_with result (bytes_of text.now token) ≡ kind_of inside text.now token }
    ensures word { result ≡ t.Word → token.kind ≡ class.Word }
{
    let bytes = between(text, token.start, token.end);
    match token.kind {
        TokenKind::Word => match Mark::keyword(inside, bytes) {
            Some(mark) => TerminalClass::Mark(mark),
            None => TerminalClass::Word,
        },
        TokenKind::Whole(value) => TerminalClass::Whole(value),
        TokenKind::Real => TerminalClass::Real,
        TokenKind::Quoted => TerminalClass::Quoted,
        TokenKind::Symbol => match Mark::symbol(bytes) {
            Some(mark) => TerminalClass::Mark(mark),
            None => TerminalClass::Other,
        },
        TokenKind::AnnexOpen => TerminalClass::Mark(Mark::AnnexOpen),
        TokenKind::AnnexClose => TerminalClass::Mark(Mark::AnnexClose),
        TokenKind::Unread => TerminalClass::Unread,
    }
}

/// Converts a byte offset to 32 bits. Errors: `AllocError` for a text of 4 GiB or more.
pub fn narrow(place: usize) -> Result<u32, AllocError>
    ensures { IfOk result (λ narrow. narrow ≡ place) }
{
    if place > u32::MAX as usize {
        return Err(AllocError);
    }
    Ok(place as u32)
}

/// Returns the terminals of the tokens. `inside` states whether the first token is inside a behaviour annex.
/// Errors: out of memory, or a text of 4 GiB or more.
#[inline(never)]
pub fn resolve(
    alloc: Global,
    inside: bool,
    text: &[u8],
    tokens: &[Token],
) -> Result<Vec<Terminal>, AllocError>
    requires { All (IsWordAt text.now) tokens.now }
    ensures spots { IfOk result (λ found. spots_of text.now found.items ≡ spots_from inside text.now tokens.now) }
    ensures words { IfOk result (λ found. AreWords text.now found.items) }
{
    let mut found = Vec::with_capacity(alloc, tokens.len())?;
    let mut within = inside;
    for token in tokens {
        let kind = terminal_kind(within, text, *token);
        let start = narrow(token.start)?;
        let end = narrow(token.end)?;
        found.push(Terminal { kind, start, end })?;
        within = match token.kind {
            TokenKind::AnnexOpen => true,
            TokenKind::AnnexClose => false,
            _ => within,
        };
    }
    Ok(found)
}
