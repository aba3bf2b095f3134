//! The lengths of the pieces at the front of a text.

ghost use Rattle.std.specs.Prelude.{◌≡◌, ◌==◌, ◌+◌, ◌<◌, ◌≤◌, length, slice_index, nat_eq, Some, None, IfSome};
ghost use Rattle.std.specs.Prelude.{if◌then◌else◌, nat_le, pos};
ghost use Rattle.std.specs.Char.{is_ascii_digit};
ghost use Rattle.std.specs.List.{starts_with, list_any};
ghost use Rattle.aadl_lex.specs.Rules as spec;
ghost use Rattle.aadl_lex.specs.Rules.{run, is_in_line, is_in_word, is_in_string, decimal, most, symbols_of_three};
ghost use Rattle.aadl_lex.specs.Rules.{symbols_of_two, symbols_of_one};

/// Returns the length in bytes of the line at the front, without its LF.
pub fn line_len(text: &[u8]) -> usize
    ensures { result ≡ run is_in_line text.now }
{
    text.iter().take_while(|byte| **byte != b'\n').count()
}

/// Returns the length in bytes of the word at the front.
pub fn word_len(text: &[u8]) -> usize
    ensures { result ≡ run is_in_word text.now }
{
    text.iter()
        .take_while(|byte| byte.is_ascii_alphabetic() || byte.is_ascii_digit() || **byte == b'_')
        .count()
}

/// Returns the number of digits at the front.
pub fn digits_len(text: &[u8]) -> usize
    ensures { result ≡ run is_ascii_digit text.now }
{
    text.iter().take_while(|byte| byte.is_ascii_digit()).count()
}

/// Returns the number of bytes before the next quote or LF.
pub fn string_len(text: &[u8]) -> usize
    ensures { result ≡ run is_in_string text.now }
{
    text.iter()
        .take_while(|byte| **byte != b'"' && **byte != b'\n')
        .count()
}

/// Returns whether the text begins with a digit.
fn begins_digit(text: &[u8]) -> bool
    ensures { result ≡ is_ascii_digit (slice_index text.now 0) }
{
    match text {
        [first, ..] => first.is_ascii_digit(),
        [] => false,
    }
}

/// Returns the length in bytes of the whole number at the front.
#[tactic(auto, using(crate::proofs::ByteScanLoops::whole_step))]
pub fn whole_len(text: &[u8]) -> usize
    ensures value { result ≡ spec.whole_len text.now }
    ensures within { result ≤ length text.now }
{
    for (at, byte) in text.iter().enumerate() {
        if !byte.is_ascii_digit() && !(*byte == b'_' && begins_digit(&text[at + 1..])) {
            return at;
        }
    }
    text.len()
}

/// Returns the number of bytes before the first `**}`.
#[tactic(auto, using(crate::proofs::ByteScanLoops::close_step))]
pub fn body_len(text: &[u8]) -> Option<usize>
    ensures value { result ≡ spec.body_len text.now }
    ensures within { IfSome result (λ len. len + 3 ≤ length text.now) }
{
    for at in 0..text.len() {
        let (_, rest) = text.split_at(at);
        if rest.starts_with(b"**}") {
            return Some(at);
        }
    }
    None
}

/// Returns the length in bytes of the real at the front.
pub fn real_len(text: &[u8]) -> Option<usize>
    ensures { result ≡ spec.real_len text.now }
{
    let whole = digits_len(text);
    if whole == text.len() || text[whole] != b'.' {
        return None;
    }
    match digits_len(&text[whole + 1..]) {
        0 => None,
        fraction => Some(whole + 1 + fraction),
    }
}

const MOST: u64 = 9_223_372_036_854_775_807;

/// Returns the number with these digits, if it is a whole number of the language.
#[tactic(auto, using(crate::proofs::ByteScanLoops::decimal_step))]
pub fn decimal(text: &[u8]) -> Option<i64>
    ensures { result ≡ (if nat_le (decimal text.now) most then Some (pos (decimal text.now)) else None) }
{
    let mut value: u64 = 0;
    for byte in text {
        if byte.is_ascii_digit() {
            let digit = u64::from(*byte - b'0');
            if value > (MOST - digit) / 10 {
                return None;
            }
            value = 10 * value + digit;
        }
    }
    Some(value as i64)
}

// The symbols by their lengths; the lexer takes the longest one at the front.
const SYMBOLS_OF_THREE: [[u8; 3]; 2] = [*b"+=>", *b"]->"];

const SYMBOLS_OF_TWO: [[u8; 2]; 9] = [
    *b"..", *b"::", *b"=>", *b"->", *b"-[", *b"!=", *b"<=", *b">=", *b":=",
];

const SYMBOLS_OF_ONE: [u8; 19] = *b";:,.{}()[]+-*/=<>!'";

fn begins_symbol_of_three(text: &[u8]) -> bool
    ensures { result ≡ list_any (starts_with nat_eq text.now) symbols_of_three }
{
    SYMBOLS_OF_THREE
        .iter()
        .any(|symbol| text.starts_with(symbol))
}

fn begins_symbol_of_two(text: &[u8]) -> bool
    ensures { result ≡ list_any (starts_with nat_eq text.now) symbols_of_two }
{
    SYMBOLS_OF_TWO.iter().any(|symbol| text.starts_with(symbol))
}

fn begins_symbol_of_one(text: &[u8]) -> bool
    requires { 0 < length text.now }
    ensures { result ≡ list_any (λ c. c == slice_index text.now 0) symbols_of_one }
{
    SYMBOLS_OF_ONE.contains(&text[0])
}

/// Returns the length in bytes of the longest symbol at the front, or 0 if there is none.
pub fn symbol_len(text: &[u8]) -> usize
    requires { 0 < length text.now }
    ensures { result ≡ spec.symbol_len text.now }
{
    if begins_symbol_of_three(text) {
        3
    } else if begins_symbol_of_two(text) {
        2
    } else if begins_symbol_of_one(text) {
        1
    } else {
        0
    }
}
