//! The text of each keyword and symbol, and the recognition of words and bytes as keywords and symbols.
ghost use Rattle.std.specs.Prelude.{◌≡◌, ◌↔◌, IsTrue, true, false};
ghost use Rattle.std.specs.List.{find};
ghost use Rattle.std.specs.Str.{bytes_eq, str_eq_ignore_ascii_case};
ghost use Rattle.aadl_tree.specs.KeywordsAndSymbols as spec;
ghost use Rattle.aadl_tree.specs.KeywordsAndSymbols.{mark_text};
ghost use Rattle.aadl_tree.specs.proof.MarksByFirstByte.{keywords_from, symbols_from};

use crate::mark::Mark;

impl Mark {
    /// Returns its bytes: a keyword in lower case, or a symbol.
    pub fn text(self) -> &'static [u8]
        ensures { result.now ≡ mark_text self }
    {
        match self {
            Mark::Package => b"package",
            Mark::Public => b"public",
            Mark::With => b"with",
            Mark::End => b"end",
            Mark::System => b"system",
            Mark::Process => b"process",
            Mark::Thread => b"thread",
            Mark::Features => b"features",
            Mark::Properties => b"properties",
            Mark::Implementation => b"implementation",
            Mark::Subcomponents => b"subcomponents",
            Mark::Connections => b"connections",
            Mark::Nothing => b"none",
            Mark::In => b"in",
            Mark::Out => b"out",
            Mark::Data => b"data",
            Mark::Port => b"port",
            Mark::Annex => b"annex",
            Mark::Constant => b"constant",
            Mark::Applies => b"applies",
            Mark::To => b"to",
            Mark::Reference => b"reference",
            Mark::Classifier => b"classifier",
            Mark::Variables => b"variables",
            Mark::States => b"states",
            Mark::Transitions => b"transitions",
            Mark::Initial => b"initial",
            Mark::Complete => b"complete",
            Mark::State => b"state",
            Mark::On => b"on",
            Mark::Dispatch => b"dispatch",
            Mark::Otherwise => b"otherwise",
            Mark::If => b"if",
            Mark::Elsif => b"elsif",
            Mark::Else => b"else",
            Mark::For => b"for",
            Mark::And => b"and",
            Mark::Or => b"or",
            Mark::Xor => b"xor",
            Mark::Then => b"then",
            Mark::Mod => b"mod",
            Mark::Rem => b"rem",
            Mark::Abs => b"abs",
            Mark::Not => b"not",
            Mark::True => b"true",
            Mark::False => b"false",
            Mark::Fresh => b"fresh",
            Mark::Semicolon => b";",
            Mark::Colon => b":",
            Mark::Comma => b",",
            Mark::Dot => b".",
            Mark::Range => b"..",
            Mark::Scope => b"::",
            Mark::Becomes => b"=>",
            Mark::Appends => b"+=>",
            Mark::Arrow => b"->",
            Mark::GuardOpen => b"-[",
            Mark::GuardClose => b"]->",
            Mark::BraceOpen => b"{",
            Mark::BraceClose => b"}",
            Mark::ParenOpen => b"(",
            Mark::ParenClose => b")",
            Mark::BracketOpen => b"[",
            Mark::BracketClose => b"]",
            Mark::Plus => b"+",
            Mark::Minus => b"-",
            Mark::Star => b"*",
            Mark::Slash => b"/",
            Mark::Equal => b"=",
            Mark::NotEqual => b"!=",
            Mark::Less => b"<",
            Mark::LessOrEqual => b"<=",
            Mark::Greater => b">",
            Mark::GreaterOrEqual => b">=",
            Mark::Assign => b":=",
            Mark::Bang => b"!",
            Mark::Tick => b"'",
            Mark::AnnexOpen => b"{**",
            Mark::AnnexClose => b"**}",
        }
    }

    /// Returns whether the two are equal.
    pub fn is(self, other: Mark) -> bool
        ensures { IsTrue result ↔ (self ≡ other) }
    {
        self as u8 == other as u8
    }

    /// Returns the keyword that a word is, inside or outside a behaviour annex. Ignores case.
    pub fn keyword(inside: bool, word: &[u8]) -> Option<Mark>
        ensures { result ≡ spec.keyword_of inside word.now }
    {
        if word.is_empty() {
            return None;
        }
        let letter = word[0].to_ascii_lowercase();
        let marks = if inside {
            keywords_inside(letter)
        } else {
            keywords_outside(letter)
        };
        spelled_as(marks, word)
    }

    /// Returns the symbol with these bytes.
    pub fn symbol(bytes: &[u8]) -> Option<Mark>
        ensures { result ≡ spec.symbol_of bytes.now }
    {
        if bytes.is_empty() {
            return None;
        }
        written_as(symbols_from(bytes[0]), bytes)
    }
}

/// Returns the first of these keywords that a word is. Ignores case.
#[tactic(auto, using(crate::proofs::ListSearch::find_step))]
fn spelled_as(marks: &[Mark], word: &[u8]) -> Option<Mark>
    ensures { result ≡ find (λ m. str_eq_ignore_ascii_case word.now (mark_text m)) marks.now }
{
    for mark in marks {
        if word.eq_ignore_ascii_case(mark.text()) {
            return Some(*mark);
        }
    }
    None
}

/// Returns the first of these symbols with these bytes.
#[tactic(auto, using(crate::proofs::ListSearch::find_step))]
fn written_as(marks: &[Mark], bytes: &[u8]) -> Option<Mark>
    ensures { result ≡ find (λ m. bytes_eq bytes.now (mark_text m)) marks.now }
{
    for mark in marks {
        if bytes == mark.text() {
            return Some(*mark);
        }
    }
    None
}

/// Returns the keywords outside behaviour annexes that begin with a lower-case letter.
#[tactic(auto, unfolding(crate::specs::proof::MarksByFirstByte::keywords_from))]
fn keywords_outside(letter: u8) -> &'static [Mark]
    ensures { result.now ≡ keywords_from false letter }
{
    match letter {
        b'a' => &[Mark::Annex, Mark::Applies],
        b'c' => &[Mark::Connections, Mark::Constant, Mark::Classifier],
        b'd' => &[Mark::Data],
        b'e' => &[Mark::End],
        b'f' => &[Mark::Features],
        b'i' => &[Mark::Implementation, Mark::In],
        b'n' => &[Mark::Nothing],
        b'o' => &[Mark::Out],
        b'p' => &[
            Mark::Package,
            Mark::Public,
            Mark::Process,
            Mark::Properties,
            Mark::Port,
        ],
        b'r' => &[Mark::Reference],
        b's' => &[Mark::System, Mark::Subcomponents],
        b't' => &[Mark::Thread, Mark::To],
        b'w' => &[Mark::With],
        _ => &[],
    }
}

/// Returns the keywords inside behaviour annexes that begin with a lower-case letter.
#[tactic(auto, unfolding(crate::specs::proof::MarksByFirstByte::keywords_from))]
fn keywords_inside(letter: u8) -> &'static [Mark]
    ensures { result.now ≡ keywords_from true letter }
{
    match letter {
        b'a' => &[Mark::Applies, Mark::And, Mark::Abs],
        b'c' => &[Mark::Constant, Mark::Classifier, Mark::Complete],
        b'd' => &[Mark::Dispatch],
        b'e' => &[Mark::Elsif, Mark::Else, Mark::End],
        b'f' => &[Mark::For, Mark::False, Mark::Fresh],
        b'i' => &[Mark::Initial, Mark::If, Mark::In],
        b'm' => &[Mark::Mod],
        b'n' => &[Mark::Not],
        b'o' => &[Mark::On, Mark::Otherwise, Mark::Or],
        b'r' => &[Mark::Reference, Mark::Rem],
        b's' => &[Mark::States, Mark::State],
        b't' => &[Mark::Transitions, Mark::To, Mark::Then, Mark::True],
        b'v' => &[Mark::Variables],
        b'x' => &[Mark::Xor],
        _ => &[],
    }
}

/// Returns the symbols that begin with a byte.
#[tactic(auto, unfolding(crate::specs::proof::MarksByFirstByte::symbols_from))]
fn symbols_from(byte: u8) -> &'static [Mark]
    ensures { result.now ≡ symbols_from byte }
{
    match byte {
        b';' => &[Mark::Semicolon],
        b':' => &[Mark::Colon, Mark::Scope, Mark::Assign],
        b',' => &[Mark::Comma],
        b'.' => &[Mark::Dot, Mark::Range],
        b'=' => &[Mark::Becomes, Mark::Equal],
        b'+' => &[Mark::Appends, Mark::Plus],
        b'-' => &[Mark::Arrow, Mark::GuardOpen, Mark::Minus],
        b']' => &[Mark::GuardClose, Mark::BracketClose],
        b'{' => &[Mark::BraceOpen],
        b'}' => &[Mark::BraceClose],
        b'(' => &[Mark::ParenOpen],
        b')' => &[Mark::ParenClose],
        b'[' => &[Mark::BracketOpen],
        b'*' => &[Mark::Star],
        b'/' => &[Mark::Slash],
        b'!' => &[Mark::NotEqual, Mark::Bang],
        b'<' => &[Mark::Less, Mark::LessOrEqual],
        b'>' => &[Mark::Greater, Mark::GreaterOrEqual],
        b'\'' => &[Mark::Tick],
        _ => &[],
    }
}
