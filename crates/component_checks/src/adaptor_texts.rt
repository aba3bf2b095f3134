//! Parses the texts of adaptors.
ghost use Rattle.std.specs.Prelude.{◌≡◌, drop};
ghost use Rattle.component_checks.specs.AdaptorTexts.{is_digit, is_first_digit, position_number, adaptor_named};

use pals_base::Adaptor;

fn is_digit(byte: u8) -> bool
    ensures { result ≡ is_digit byte }
{
    b'0' <= byte && byte <= b'9'
}

fn is_first_digit(byte: u8) -> bool
    ensures { result ≡ is_first_digit byte }
{
    b'1' <= byte && byte <= b'9'
}

// A number of one or two digits, the first of which is not 0.
fn position_number(digits: &[u8]) -> Option<u32>
    ensures { result ≡ position_number digits.now }
{
    match digits {
        [unit] if is_first_digit(*unit) => Some(u32::from(*unit - b'0')),
        [ten, unit] if is_first_digit(*ten) && is_digit(*unit) => {
            Some(10 * u32::from(*ten - b'0') + u32::from(*unit - b'0'))
        }
        _ => None,
    }
}

// The number in a text of the form `at n`.
fn place_of(text: &[u8]) -> Option<u32>
    ensures { result ≡ position_number (drop 3 text.now) }
{
    if text.len() < 3 {
        return position_number(&[]);
    }
    position_number(&text[3..])
}

/// Returns the adaptor with this text: its name in lower case, or `at n` with one space and n from 1 to 99.
/// Returns `None` for any other text.
pub fn adaptor_named(text: &[u8]) -> Option<Adaptor>
    ensures { result ≡ adaptor_named text.now }
{
    if text == b"repeat".as_slice() {
        Some(Adaptor::Repeat)
    } else if text == b"first".as_slice() {
        Some(Adaptor::First)
    } else if text == b"last".as_slice() {
        Some(Adaptor::Last)
    } else if text == b"latest".as_slice() {
        Some(Adaptor::Latest)
    } else if text == b"max".as_slice() {
        Some(Adaptor::Max)
    } else if text == b"min".as_slice() {
        Some(Adaptor::Min)
    } else if text == b"average".as_slice() {
        Some(Adaptor::Average)
    } else if text.starts_with(b"at ") {
        place_of(text).map(Adaptor::At)
    } else {
        None
    }
}
