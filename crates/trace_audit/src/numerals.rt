//! The numbers, rounds and readings that words of a line spell in decimal digits.
ghost use Rattle.std.specs.Prelude.{◌≡◌, ◌<◌, ◌≤◌, IfSome, IfNone};
ghost use Rattle.pals_base.specs.declared.limits.TheConstants.{READING};
ghost use Rattle.run_laws.specs.LineForms.{spelled, number_up_to, round_in, reading_in};

use itoa::Buffer;
use pals_base::Nanos;
use pals_base::limits::{READING, ROUNDS};

// The number that the digits of a word denote; `None` if it is above the maximum reading.
#[tactic(auto, using(crate::proofs::SpelledNumerals::spelled_more, crate::proofs::SpelledNumerals::spelled_above))]
fn spelled(word: &[u8]) -> Option<u64>
    ensures some { IfSome result (λ number. number ≡ spelled word.now) }
    ensures none { IfNone result (READING < spelled word.now) }
{
    let mut number = 0;
    for at in 0..word.len() {
        if number > READING {
            return None;
        }
        number = number * 10 + u64::from(word[at].saturating_sub(48));
    }
    Some(number)
}

/// The number that a word spells in decimal digits, without a leading zero, up to a limit.
pub fn number_up_to(most: u64, word: &[u8]) -> Option<u64>
    requires { most ≤ READING }
    ensures { result ≡ number_up_to most word.now }
{
    let number = spelled(word)?;
    if number <= most && Buffer::new().format(number).as_bytes() == word {
        Some(number)
    } else {
        None
    }
}

/// The round that a word spells.
pub fn round_in(word: &[u8]) -> Option<u32>
    ensures { result ≡ round_in word.now }
{
    let round = number_up_to(u64::from(ROUNDS), word)?;
    Some(round as u32)
}

/// The reading that a word spells: a number, or `_` for none.
pub fn reading_in(word: &[u8]) -> Option<Option<Nanos>>
    ensures { result ≡ reading_in word.now }
{
    if word == b"_".as_slice() {
        return Some(None);
    }
    let reading = number_up_to(READING, word)?;
    Some(Some(reading))
}
