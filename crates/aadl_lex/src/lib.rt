//! The lexer: the tokens of a design text.
//!
//! A text is UTF-8. Blanks and comments separate its tokens: words, whole numbers, reals, strings, symbols, and
//! annexes. [`lex`] returns all tokens of a text, or its first fault from left to right.
//!
//! The laws state that each text has either one list of tokens or one first fault, that tokens are in order,
//! and that the bytes of each token match its class. The lexer does not distinguish keywords from other words.
#![tactic(auto)]

ghost use Rattle.std.specs.Prelude.{ℕ, ◌≡◌, ◌≢◌, ◌+◌, ◌<◌, ◌≤◌, List, All, length, IfOk, IfErr, OnOk};
ghost use Rattle.std.specs.Str.{IsUtf8};
ghost use Rattle.aadl_lex.specs.declared.fault.LexFault.{LexFault};
ghost use Rattle.aadl_lex.specs.declared.token.Token.{Token};
ghost use Rattle.aadl_lex.specs.declared.rules.Reading.TheVariants.{Outside};
ghost use Rattle.aadl_lex.specs.proof.TokenSpellings.{IsWordAt, AreAmongTokensOf, AreSpelled};
ghost use Rattle.aadl_lex.specs.TokensAndFirstFaults.{Adds, Faults, AreTokensOf, AreInOrder, IsFaultOf};

mod fault;
mod rules;
mod token;
mod token_lengths;

pub use fault::LexFault;
use rules::{First, Reading, front};
use std::alloc::Global;
use std::str;
pub use token::{NAME_BYTES, Token, TokenKind};

/// Returns the tokens of the text. Errors: its first fault; `NotUtf8` precedes all others.
pub fn lex(alloc: Global, text: &[u8]) -> Result<Vec<Token>, LexFault>
    ensures tokens { IfOk result (λ tokens. AreTokensOf text.now tokens.items) }
    ensures fault { IfErr result (λ fault. fault ≢ LexFault.Memory → IsFaultOf text.now fault) }
    ensures memory { IfErr result (λ fault. fault ≡ LexFault.Memory → IsUtf8 text.now) }
{
    if let Err(error) = str::from_utf8(text) {
        return Err(LexFault::NotUtf8 {
            at: error.valid_up_to(),
        });
    }
    let mut tokens = Vec::new(alloc);
    read(&mut tokens, text, 0, Reading::Outside)?;
    Ok(tokens)
}

/// Appends the tokens from the byte `at` on.
fn read(
    found: &mut Vec<Token>,
    text: &[u8],
    mut at: usize,
    mut reading: Reading,
) -> Result<(), LexFault>
    requires { at ≤ length text.now }
    ensures tokens { OnOk result (Adds reading text.now at found.old.items found.new.items) }
    ensures fault { IfErr result (λ fault. fault ≢ LexFault.Memory → Faults reading text.now at fault) }
{
    while at < text.len() {
        let (_, rest) = text.split_at(at);
        match front(reading, rest, at) {
            First::Skipped(len) => at += len,
            First::Taken(kind, len) => {
                found.push(Token::new(kind, at, len))?;
                reading = reading.after(kind, &rest[..len]);
                at += len;
            }
            First::Body(len) => {
                let close = at + 3 + len;
                found.push(Token::new(TokenKind::AnnexOpen, at, 3))?;
                read(found, &text[..close], at + 3, Reading::Inside)?;
                found.push(Token::new(TokenKind::AnnexClose, close, 3))?;
                reading = Reading::Outside;
                at = close + 3;
            }
            First::Refused(fault) => return Err(fault),
        }
    }
    Ok(())
}

/// A text has one list of tokens or one first fault, but not both.
pub fn one_answer()
    ensures tokens { (text : List ℕ) (ts us : List Token) → AreTokensOf text ts → AreTokensOf text us → ts ≡ us }
    ensures fault { (text : List ℕ) (f g : LexFault) → IsFaultOf text f → IsFaultOf text g → f ≡ g }
    ensures either { (text : List ℕ) (ts : List Token) (f : LexFault) → AreTokensOf text ts → ¬ IsFaultOf text f }
{}

/// The tokens of a text are in order and do not overlap, and each has at least one byte.
pub fn tokens_in_order()
    ensures order { (text : List ℕ) (ts : List Token) → AreTokensOf text ts → AreInOrder 0 (length text) ts }
    ensures within { (text : List ℕ) (ts : List Token) → AreTokensOf text ts
        → All (λ t. (t.start < t.end) × (t.end ≤ length text)) ts }
{}

/// The bytes of each token match its class. A word is a letter followed by letters, digits and `_`, at most
/// [`NAME_BYTES`] bytes in total. A whole number is digits with single `_` between them, and has their value. A
/// real is digits, a point and digits. A string is on one line and contains no quote. A symbol is one of the
/// thirty. An annex of another language ends at its first `**}`. A `{**` whose tokens follow comes after the
/// word `behavior_specification`, and its body ends at the first `**}`.
pub fn tokens_are_as_written()
    ensures all { (text : List ℕ) (ts : List Token) → AreTokensOf text ts → AreSpelled text Outside ts }
    ensures word { (text : List ℕ) (ts : List Token) → AreTokensOf text ts → All (IsWordAt text) ts }
    ensures among { (text : List ℕ) (ts : List Token) → AreAmongTokensOf text ts → All (IsWordAt text) ts }
{}
