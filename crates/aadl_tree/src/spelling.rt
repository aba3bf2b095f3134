//! The spelling of a word.
ghost use Rattle.std.specs.Prelude.{◌≡◌, length, IfOk};

use arrayvec::ArrayString;
use std::alloc::{AllocError, Global};
use std::marker::Model;

// The storage of a word's bytes.
#[derive(Drop)]
pub(crate) enum SpellingBytes {
    // in the value itself
    Inline(ArrayString<16>),
    Allocated(String),
}

/// The bytes of a word. Up to 16 bytes are stored in the value itself, so most names of a text need no
/// allocation. The model is the bytes.
#[derive(Drop)]
pub struct Spelling {
    bytes: SpellingBytes,
}

impl Model for Spelling {
    ghost use Rattle.std.specs.Prelude.{ℕ, List};
    ghost use Rattle.aadl_tree.specs.proof.SpellingBytes.{spelled};

    ghost Value = { List ℕ };

    ghost view = { λ s. spelled s.bytes };
}

impl Spelling {
    /// Stores a word. Errors: out of memory.
    pub fn from_str(alloc: Global, word: &str) -> Result<Spelling, AllocError>
        ensures { IfOk result (λ spelling. spelling ≡ word.now) }
    {
        let bytes = match ArrayString::from(word) {
            Ok(inline) => SpellingBytes::Inline(inline),
            Err(_) => SpellingBytes::Allocated(String::from_str(alloc, word)?),
        };
        Ok(Spelling { bytes })
    }

    /// Returns the word as a `str`.
    pub fn as_str(&self) -> &str
        ensures value { result.now ≡ self.now }
    {
        match &self.bytes {
            SpellingBytes::Inline(inline) => inline.as_str(),
            SpellingBytes::Allocated(allocated) => allocated.as_str(),
        }
    }

    /// Returns the word's bytes.
    pub fn as_bytes(&self) -> &[u8]
        ensures value { result.now ≡ self.now }
        ensures len { length result.now ≡ length self.now }
    {
        self.as_str().as_bytes()
    }

    /// Returns the length of the word in bytes.
    pub fn len(&self) -> usize
        ensures { result ≡ length self.now }
    {
        self.as_str().len()
    }
}

impl PartialEq for Spelling {
    ghost use Rattle.std.specs.Prelude.{nat_eq};
    ghost use Rattle.std.specs.Cmp.{partial_equiv_from_equiv};
    ghost use Rattle.std.specs.Cmp.Lexicographic.{pointwise, nat_list_eq_equiv};

    ghost eq = { pointwise nat_eq };

    ghost laws = { partial_equiv_from_equiv nat_list_eq_equiv };

    fn eq(&self, other: &Spelling) -> bool {
        self.as_str() == other.as_str()
    }
}
