//! The parser of design texts.
//!
//! [`parse`] returns the tree of a text, or its first lexical fault, or the first fault of its tokens. It is a
//! recursive-descent parser; its recursion is bounded by the nesting limit. Its contract states that the tree
//! is the only one of the text, and that otherwise the fault is the one that the grammar defines. It does not
//! check names or types.
#![tactic(auto)]

ghost use Rattle.std.specs.Prelude.{ℕ, ◌≡◌, ◌≢◌, List, IfOk, IfErr};
ghost use Rattle.aadl_tree.specs.Declarations.{PackageTree as Tree};
ghost use Rattle.aadl_tree.specs.TextTreesAndFaults.{IsTreeOf};
ghost use Rattle.aadl_tree.specs.proof.PackageViews.{placed};
ghost use Rattle.aadl_parse.specs.declared.text_fault.TextFault.{TextFault};
ghost use Rattle.aadl_parse.specs.ParseResults.{IsOnlyTreeOf, IsFaultOfText};

mod annexes;
mod declaration_members;
mod declarations;
mod text_fault;
mod whole_package;

use aadl_grammar::{Reader, resolve};
use aadl_lex::{LexFault, lex};
use aadl_tree::{GREATEST_NESTING, PackageTree};
use std::alloc::Global;
pub use text_fault::TextFault;
use whole_package::{PackageParts, package};

/// Returns the tree of the text. Errors: the first fault of the text.
pub fn parse(alloc: Global, text: &[u8]) -> Result<PackageTree, TextFault>
    ensures tree { IfOk result (λ tree. IsOnlyTreeOf text.now (placed tree)) }
    ensures fault { IfErr result (IsFaultOfText text.now) }
{
    let tokens = match lex(alloc, text) {
        Ok(tokens) => tokens,
        Err(LexFault::Memory) => return Err(TextFault::Memory),
        Err(fault) => return Err(TextFault::Lex(fault)),
    };
    let terminals = resolve(alloc, false, text, tokens.as_slice())?;
    drop(tokens);
    let reader = Reader {
        alloc,
        text,
        terminals: terminals.as_slice(),
        end: text.len(),
    };
    let (parts, next) = package(&reader, 0, GREATEST_NESTING)?;
    if next < terminals.len() {
        return Err(TextFault::Syntax {
            at: reader.place(next),
        });
    }
    let PackageParts {
        name,
        withs,
        declarations,
        end_name,
    } = parts;
    Ok(PackageTree {
        name,
        withs,
        declarations,
        end_name,
    })
}

/// A text has one tree or one fault, but not both.
pub fn one_answer()
    ensures tree { (text : List ℕ) (t u : Tree ℕ) → IsTreeOf text t → IsTreeOf text u → t ≡ u }
    ensures fault { (text : List ℕ) (f g : TextFault) → f ≢ TextFault.Memory → g ≢ TextFault.Memory
        → IsFaultOfText text f → IsFaultOfText text g → f ≡ g }
    ensures either { (text : List ℕ) (t : Tree ℕ) (f : TextFault) → f ≢ TextFault.Memory → IsTreeOf text t
        → ¬ IsFaultOfText text f }
{}
