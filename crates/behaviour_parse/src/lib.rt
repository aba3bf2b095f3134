//! The parser of behaviour annexes.
//!
//! [`parse_annex`] returns the tree of a behaviour annex, or its first fault. It is a recursive-descent parser;
//! its recursion is bounded by the nesting limit. Its contract states that the tree is the only one of the
//! tokens, and that otherwise the fault is the one that the grammar defines. It does not check names or types.
#![tactic(auto)]

ghost use Rattle.std.specs.Prelude.{ℕ, ◌≡◌, List, IfOk, IfErr};
ghost use Rattle.aadl_lex.specs.declared.token.Token.{Token};
ghost use Rattle.aadl_lex.specs.proof.TokenSpellings.{AreAmongTokensOf};
ghost use Rattle.aadl_tree.specs.Annexes.{AnnexTree as Tree};
ghost use Rattle.aadl_tree.specs.proof.BehaviourFaultPlaces.{end_of, BehaviourStopsAt, BehaviourNestsAt};
ghost use Rattle.aadl_tree.specs.TextTreesAndFaults.{IsBehaviourOf};
ghost use Rattle.aadl_tree.specs.proof.AnnexViews.{annex_tree_view};
ghost use Rattle.aadl_tree.specs.proof.PlaceMaps.{kept_place};
ghost use Rattle.behaviour_parse.specs.proof.ParseResults.{IsOnlyBehaviourOf, IsFaultOfBehaviour};

mod actions;
mod annex;
mod expressions;

pub use aadl_grammar::ParseFault;
use aadl_grammar::{Reader, resolve};
use aadl_lex::Token;
use aadl_tree::{AnnexTree, GREATEST_NESTING};
pub use annex::body;
use std::alloc::Global;

/// The end of the last token.
fn end_of(tokens: &[Token]) -> usize
    ensures { result ≡ end_of tokens.now }
{
    let count = tokens.len();
    if count == 0 {
        return 0;
    }
    tokens[count - 1].end
}

/// Returns the tree of the tokens between the `{**` and the `**}` of a behaviour annex. Errors: the first
/// fault; the end of the last token counts as the end of the tokens.
pub fn parse_annex(alloc: Global, text: &[u8], tokens: &[Token]) -> Result<AnnexTree, ParseFault>
    requires { AreAmongTokensOf text.now tokens.now }
    ensures tree { IfOk result (λ tree. IsOnlyBehaviourOf text.now tokens.now (annex_tree_view kept_place tree)) }
    ensures fault { IfErr result (IsFaultOfBehaviour text.now tokens.now) }
{
    let terminals = resolve(alloc, true, text, tokens)?;
    let reader = Reader {
        alloc,
        text,
        terminals: terminals.as_slice(),
        end: end_of(tokens),
    };
    // The `{**` of the annex is open around its tokens.
    let (tree, next) = body(&reader, 0, GREATEST_NESTING - 1)?;
    if next < terminals.len() {
        return Err(ParseFault::Syntax {
            at: reader.place(next),
        });
    }
    Ok(tree)
}

/// Tokens are a behaviour, have a first syntax fault, or have a first opener beyond the nesting limit: no two
/// of these hold.
pub fn one_answer()
    ensures tree { (text : List ℕ) (tokens : List Token) (t u : Tree ℕ) → IsBehaviourOf text tokens t
        → IsBehaviourOf text tokens u → t ≡ u }
    ensures stop { (text : List ℕ) (tokens : List Token) (a b : ℕ) → BehaviourStopsAt text tokens a
        → BehaviourStopsAt text tokens b → a ≡ b }
    ensures nest { (text : List ℕ) (tokens : List Token) (a b : ℕ) → BehaviourNestsAt text tokens a
        → BehaviourNestsAt text tokens b → a ≡ b }
    ensures tree_or_stop { (text : List ℕ) (tokens : List Token) (t : Tree ℕ) (a : ℕ)
        → IsBehaviourOf text tokens t → ¬ BehaviourStopsAt text tokens a }
    ensures tree_or_nest { (text : List ℕ) (tokens : List Token) (t : Tree ℕ) (a : ℕ)
        → IsBehaviourOf text tokens t → ¬ BehaviourNestsAt text tokens a }
    ensures stop_or_nest { (text : List ℕ) (tokens : List Token) (a b : ℕ) → BehaviourStopsAt text tokens a
        → ¬ BehaviourNestsAt text tokens b }
{}
