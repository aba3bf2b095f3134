//! The spelling of whole numbers.
ghost use Rattle.std.specs.Prelude.{◌≡◌, ◌≤◌, length, nat_le, slice_index};
ghost use Rattle.std.specs.Char.{is_ascii_digit};
ghost use Rattle.aadl_lex.specs.Rules as spec;
ghost use Rattle.aadl_lex.specs.Rules.{decimal, most};
ghost use Rattle.aadl_names.specs.PropertyValueShapes.{is_number};

const MOST: u64 = 9_223_372_036_854_775_807;

/// Returns whether the text begins with a digit.
fn begins_digit(text: &[u8]) -> bool
    ensures { result ≡ is_ascii_digit (slice_index text.now 0) }
{
    match text {
        [first, ..] => first.is_ascii_digit(),
        [] => false,
    }
}

/// Returns the length in bytes of the whole number at the front of the text.
#[tactic(auto, using(aadl_lex::proofs::ByteScanLoops::whole_step))]
fn whole_len(text: &[u8]) -> usize
    ensures value { result ≡ spec.whole_len text.now }
    ensures within { result ≤ length text.now }
{
    for (at, byte) in text.iter().enumerate() {
        if !byte.is_ascii_digit() && !(*byte == b'_' && begins_digit(&text[at + 1..])) {
            return at;
        }
    }
    text.len()
}

/// Returns whether the digits are within the range of whole numbers of the language.
#[tactic(auto, using(aadl_lex::proofs::ByteScanLoops::decimal_step))]
fn is_small(text: &[u8]) -> bool
    ensures { result ≡ nat_le (decimal text.now) most }
{
    let mut value: u64 = 0;
    for byte in text {
        if byte.is_ascii_digit() {
            let digit = u64::from(*byte - b'0');
            if value > (MOST - digit) / 10 {
                return false;
            }
            value = 10 * value + digit;
        }
    }
    true
}

/// Returns whether the text is a whole number of the language: digits, with a `_` only between two of them,
/// within the range.
pub fn is_number(text: &[u8]) -> bool
    ensures { result ≡ is_number text.now }
{
    match text {
        [] => false,
        [first, ..] => whole_len(text) == text.len() && *first != b'_' && is_small(text),
    }
}
