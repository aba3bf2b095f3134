//! Laws: every text has tokens or a first lexical fault, and a tree or a first fault. Each law is the contract
//! of a function that does nothing.
ghost use Rattle.std.specs.Prelude.{◌⊎◌, ℕ, List};
ghost use Rattle.aadl_grammar.specs.proof.TokensTreesAndFaults.{HasTokens, HasLexFault, HasTree, Stops, NestsTooDeep};

/// A text has tokens or a first lexical fault. That fault is never `Memory`.
pub fn tokens_or_fault()
    ensures { (text : List ℕ) → HasTokens text ⊎ HasLexFault text }
{}

/// A text has a tree of the grammar or a first fault: a lexical fault, a position at which no text of the
/// grammar continues, or an opener beyond the nesting limit.
pub fn tree_or_fault()
    ensures { (text : List ℕ) → HasTree text ⊎ HasLexFault text ⊎ Stops text ⊎ NestsTooDeep text }
{}
