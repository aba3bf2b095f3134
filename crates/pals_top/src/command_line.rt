//! The words of the command line.
ghost use Rattle.std.specs.Prelude.{◌≡◌, [], ◌∷◌, true};
ghost use Rattle.std.specs.List.{list_all};
ghost use Rattle.pals_top.specs.CommandWords.{command_of_words, plain_command, rooted_command, is_flag, is_plain};
ghost use Rattle.pals_top.specs.CommandWords.{is_digit, is_number};
ghost use Rattle.pals_top.specs.CommandWords.{value_of, number_in, IsRead};
ghost use Rattle.pals_top.specs.proof.FlaggedAndRunCommands.{flagged_command};

use pals_base::limits::COMPONENTS;
use pals_base::{Text, TryClone};
use pals_runs::Command;
use std::alloc::{AllocError, Global};

/// How many nodes a ring may have.
pub const RING_NODES: u32 = COMPONENTS as u32;

/// How many rounds a ring may run.
pub const RING_ROUNDS: u32 = 500;

// How many digits a number may have.
const DIGITS: usize = 6;

/// Why arguments are not a command.
#[derive(Clone, Copy)]
pub enum WordsEnd {
    /// The arguments are invalid.
    Usage,
    /// There was not enough memory.
    Memory,
}

impl From<AllocError> for WordsEnd {
    ghost use Rattle.std.specs.Prelude.{◌≡◌};
    ghost use Rattle.pals_top.specs.declared.command_line.WordsEnd.TheVariants.{Memory};

    ghost from_gives = { λ _ e. e ≡ Memory };

    fn from(_error: AllocError) -> WordsEnd {
        WordsEnd::Memory
    }
}

/// The command of the arguments. Returns `Usage` if and only if they are invalid.
pub fn read_words(alloc: Global, words: &[Text]) -> Result<Command, WordsEnd>
    ensures { IsRead (command_of_words words.now) result }
{
    match words {
        [word] => alone(word),
        [word, root] if is_plain(root) => rooted(alloc, word, root),
        [first, second, third] if is_flag(first) => flagged(alloc, first, second, third),
        [first, second, third] if is_flag(second) => flagged(alloc, second, first, third),
        [first, second, third] if is_flag(third) => flagged(alloc, third, first, second),
        [word, nodes, rounds] if is_plain(word) && is_plain(nodes) && is_plain(rounds) => {
            ring(word, nodes, rounds)
        }
        _ => Err(WordsEnd::Usage),
    }
}

// The command of one word.
fn alone(word: &Text) -> Result<Command, WordsEnd>
    ensures { IsRead (plain_command (word.now ∷ [])) result }
{
    if word.as_str() == "print" {
        return Ok(Command::Print);
    }
    Err(WordsEnd::Usage)
}

// The command of a word with a root.
fn rooted(alloc: Global, word: &Text, root: &Text) -> Result<Command, WordsEnd>
    ensures { IsRead (rooted_command word.now root.now) result }
{
    match word.as_str() {
        "check" => Ok(Command::Check {
            root: root.try_clone(alloc)?,
        }),
        "sync" => Ok(Command::Sync {
            root: root.try_clone(alloc)?,
        }),
        "world" => Ok(Command::World {
            root: root.try_clone(alloc)?,
            loose: false,
        }),
        "run" => Ok(Command::Run {
            root: root.try_clone(alloc)?,
            trace: false,
        }),
        "audit" => Ok(Command::Audit {
            root: root.try_clone(alloc)?,
        }),
        "watch" => Ok(Command::Watch {
            root: root.try_clone(alloc)?,
        }),
        "vote" => Ok(Command::Vote {
            root: root.try_clone(alloc)?,
        }),
        "fuse" => Ok(Command::Fuse {
            root: root.try_clone(alloc)?,
        }),
        "budget" => Ok(Command::Budget {
            root: root.try_clone(alloc)?,
        }),
        _ => Err(WordsEnd::Usage),
    }
}

// The command of three words without a flag.
fn ring(word: &Text, nodes: &Text, rounds: &Text) -> Result<Command, WordsEnd>
    ensures { IsRead (plain_command (word.now ∷ nodes.now ∷ rounds.now ∷ [])) result }
{
    if word.as_str() != "self" {
        return Err(WordsEnd::Usage);
    }
    let nodes = number_in(2, RING_NODES, nodes);
    let rounds = number_in(1, RING_ROUNDS, rounds);
    match (nodes, rounds) {
        (Some(nodes), Some(rounds)) => Ok(Command::Ring { nodes, rounds }),
        _ => Err(WordsEnd::Usage),
    }
}

// The number that a word is, if that is from the one to the other.
fn number_in(least: u32, most: u32, word: &Text) -> Option<u32>
    ensures { result ≡ number_in least most word.now }
{
    let word = word.as_bytes();
    if !is_number(word) {
        return None;
    }
    let value = value_of(word);
    if least <= value && value <= most {
        Some(value)
    } else {
        None
    }
}

// Whether a word is one to six digits.
fn is_number(word: &[u8]) -> bool
    ensures { result ≡ is_number word.now }
{
    1 <= word.len() && word.len() <= DIGITS && are_digits(word)
}

fn are_digits(word: &[u8]) -> bool
    ensures { result ≡ list_all is_digit word.now }
{
    word.iter().all(|byte| is_digit(*byte))
}

fn is_digit(byte: u8) -> bool
    ensures { result ≡ is_digit byte }
{
    b'0' <= byte && byte <= b'9'
}

// The number that digits are.
fn value_of(digits: &[u8]) -> u32
    requires { is_number digits.now ≡ true }
    ensures { result ≡ value_of digits.now }
{
    let mut value = 0;
    for digit in digits {
        value = value * 10 + u32::from(*digit - b'0');
    }
    value
}

// The command of a word with a root and a flag.
fn flagged(alloc: Global, flag: &Text, word: &Text, root: &Text) -> Result<Command, WordsEnd>
    ensures { IsRead (flagged_command flag.now word.now root.now) result }
{
    if !is_plain(word) || !is_plain(root) {
        return Err(WordsEnd::Usage);
    }
    match (flag.as_str(), word.as_str()) {
        ("--loose", "world") => Ok(Command::World {
            root: root.try_clone(alloc)?,
            loose: true,
        }),
        ("--trace", "run") => Ok(Command::Run {
            root: root.try_clone(alloc)?,
            trace: true,
        }),
        _ => Err(WordsEnd::Usage),
    }
}

// Whether a word is a flag.
fn is_flag(word: &Text) -> bool
    ensures { result ≡ is_flag word.now }
{
    word.as_str() == "--loose" || word.as_str() == "--trace"
}

// Whether a word does not begin as flags do.
fn is_plain(word: &Text) -> bool
    ensures { result ≡ is_plain word.now }
{
    match word.as_bytes() {
        [first, ..] => *first != b'-',
        [] => true,
    }
}
