//! Names, compared with each other, and with texts piece by piece.
ghost use Rattle.std.specs.Prelude.{◌≡◌, ◌++◌, ℕ, List, codes, option_map};
ghost use Rattle.aadl_tree.specs.Names.{same_name};
ghost use Rattle.aadl_tree.specs.proof.PlaceMaps.{kept_place};
ghost use Rattle.aadl_tree.specs.proof.NameViews.{identifier_view, name_view, reference_view};
ghost use Rattle.aadl_names.specs.QualifiedNameSpellings.{spelled_name, spelled_reference, dotted};
ghost use Rattle.aadl_names.specs.proof.PiecewiseComparison.{goes_on};

use aadl_tree::{Identifier, Name, Reference};

// The rest of a text after a word with which it begins, whatever the case of letters.
#[tactic(auto, using(crate::proofs::PiecewiseComparison::too_short, crate::proofs::PiecewiseComparison::cut_behind, crate::proofs::PiecewiseComparison::cut_elsewhere))]
fn behind<'a>(text: &'a [u8], word: &[u8]) -> Option<&'a [u8]>
    ensures { (more : List ℕ) → same_name (word.now ++ more) text.now ≡ goes_on more result }
{
    if text.len() < word.len() {
        return None;
    }
    let (front, rest) = text.split_at(word.len());
    if front.eq_ignore_ascii_case(word) {
        Some(rest)
    } else {
        None
    }
}

// The rest of a text after `::` and a word.
fn behind_scope<'a>(text: &'a [u8], word: &Identifier) -> Option<&'a [u8]>
    ensures { (more : List ℕ) → same_name ((codes "::" ++ word.now.spelling) ++ more) text.now ≡ goes_on more result }
{
    let rest = behind(text, b"::")?;
    behind(rest, word.spelling.as_bytes())
}

// Whether a word is this one.
fn is_identifier(word: &Identifier, text: &str) -> bool
    ensures { result ≡ same_name word.now.spelling text.now }
{
    word.spelling.as_str().eq_ignore_ascii_case(text)
}

/// Whether a name is this one.
pub fn is_spelled(name: &Name, text: &str) -> bool
    ensures { result ≡ same_name (spelled_name (name_view kept_place name.now)) text.now }
{
    if name.rest.is_empty() {
        return is_identifier(&name.first, text);
    }
    let Some(mut rest) = behind(text.as_bytes(), name.first.spelling.as_bytes()) else {
        return false;
    };
    for word in &name.rest {
        match behind_scope(rest, word) {
            Some(more) => rest = more,
            None => return false,
        }
    }
    rest.is_empty()
}

// The rest of a text after a word and a mark.
fn behind_marked<'a>(text: &'a [u8], word: &Identifier, mark: &[u8]) -> Option<&'a [u8]>
    ensures { (more : List ℕ) → same_name ((word.now.spelling ++ mark.now) ++ more) text.now ≡ goes_on more result }
{
    let rest = behind(text, word.spelling.as_bytes())?;
    behind(rest, mark)
}

// Whether a text is two words with a point between them.
fn is_pair(first: &Identifier, second: &Identifier, text: &[u8]) -> bool
    ensures { result ≡ same_name (first.now.spelling ++ codes "." ++ second.now.spelling) text.now }
{
    match behind_marked(text, first, b".") {
        Some(rest) => second.spelling.as_bytes().eq_ignore_ascii_case(rest),
        None => false,
    }
}

// Whether a text is a word, or two with a point between them.
fn is_dotted(first: &Identifier, second: &Option<Identifier>, text: &[u8]) -> bool
    ensures { result ≡ same_name (dotted first.now.spelling (option_map (identifier_view kept_place) second.now))
        text.now }
{
    match second {
        Some(second) => is_pair(first, second, text),
        None => first.spelling.as_bytes().eq_ignore_ascii_case(text),
    }
}

/// Whether a reference is spelled like this.
pub fn is_reference(reference: &Reference, text: &str) -> bool
    ensures { result ≡ same_name (spelled_reference (reference_view kept_place reference.now)) text.now }
{
    let mut rest = text.as_bytes();
    for word in &reference.qualifiers {
        match behind_marked(rest, word, b"::") {
            Some(more) => rest = more,
            None => return false,
        }
    }
    is_dotted(&reference.type_name, &reference.implementation, rest)
}

/// Whether two words are one name.
pub fn same_word(a: &Identifier, b: &Identifier) -> bool
    ensures { result ≡ same_name a.now.spelling b.now.spelling }
{
    a.spelling
        .as_str()
        .eq_ignore_ascii_case(b.spelling.as_str())
}
