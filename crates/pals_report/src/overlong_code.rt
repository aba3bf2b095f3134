//! The line of a component whose step code is too long.
ghost use Rattle.std.specs.Prelude.{◌≡◌, [], ◌∷◌, ◌++◌, codes, decimal, OnOk, OnErr};
ghost use Rattle.pals_model.specs.RoundTexts.{line_end};
ghost use Rattle.pals_runs.specs.JournalLines.{node_word, spaced};

use crate::line_word::{LineWord, add_line, node_word};
use pals_base::{NoMemory, NodeNo};
use pals_model::Design;

/// Appends the line of a component whose code would have `length` instructions. Errors: out of memory; the
/// buffer is then unchanged.
pub fn add_overlong_code(
    out: &mut Vec<u8>,
    design: &Design,
    node: NodeNo,
    length: u64,
) -> Result<(), NoMemory>
    ensures ok { OnOk result
        (out.new.items ≡ out.old.items ++ spaced (codes "code" ∷ node_word design.now node.0 ∷ decimal length ∷ []) ++ line_end) }
    ensures err { OnErr result (out.new.items ≡ out.old.items) }
{
    let node = node_word(design.parts(), node);
    add_line(
        out,
        &[LineWord::Bytes(b"code"), node, LineWord::Number(length)],
    )
}
