//! Tokens, and their classes.

/// The maximum length of a word, in bytes.
pub const NAME_BYTES: usize = 64;

/// The class of a token.
#[derive(Clone, Copy, Debug)]
pub enum TokenKind {
    /// A letter followed by letters, digits and `_`; at most [`NAME_BYTES`] bytes.
    Word,
    /// Digits with single `_` between them, and the number that they denote.
    Whole(i64),
    /// Digits, a point and digits.
    Real,
    /// A string on one line, with both of its quotes.
    Quoted,
    /// A symbol of one to three bytes.
    Symbol,
    /// The `{**` before an annex body whose tokens follow.
    AnnexOpen,
    /// The `**}` after such a body.
    AnnexClose,
    /// An annex of another language, from its `{**` to its `**}`.
    Unread,
}

/// A token: the bytes of the text from `start` up to `end`.
#[derive(Clone, Copy)]
pub struct Token {
    /// The class of the token.
    pub kind: TokenKind,
    /// The byte offset of its first byte in the text.
    pub start: usize,
    /// The byte offset after its last byte.
    pub end: usize,
}

impl Token {
    ghost use Rattle.std.specs.Prelude.{◌≡◌, ◌+◌, ◌≤◌};
    ghost use Rattle.aadl_lex.specs.TokensAndFirstFaults.{token};

    /// Returns the token of this class with `len` bytes from `start` on.
    pub(crate) fn new(kind: TokenKind, start: usize, len: usize) -> Token
        requires { start + len ≤ usize.MAX }
        ensures { result ≡ token kind start len }
    {
        Token {
            kind,
            start,
            end: start + len,
        }
    }
}
