//! Laws of the grammar's definitions. Each law is the contract of a function that does nothing.
ghost use Rattle.std.specs.Prelude.{◌≡◌, ◌↔◌, ℕ, List, [], ◌∷◌, ◌++◌, Some, None, codes, true, false, map, IsTrue};
ghost use Rattle.std.specs.Prelude.{is_some};
ghost use Rattle.aadl_lex.specs.proof.TokenSpellings.{IsSymbol};
ghost use Rattle.aadl_lex.specs.TokensAndFirstFaults.{AreTokensOf};
ghost use Rattle.aadl_tree.specs.declared.mark.Mark.TheVariants as k;
ghost use Rattle.aadl_tree.specs.KeywordsAndSymbols.{mark_text, keywords_inside, keywords_outside, symbols, keyword_of};
ghost use Rattle.aadl_tree.specs.KeywordsAndSymbols.{symbol_of};
ghost use Rattle.aadl_tree.specs.Terminals.{PlainTerminal, word, mark, PlacedTerminal, placed_terminals, kinds_of};
ghost use Rattle.aadl_tree.specs.SpellingParts.{SpellingPart, Spells, Written, kept};
ghost use Rattle.aadl_tree.specs.Annexes.{transition_parts};
ghost use Rattle.aadl_tree.specs.declared.package.PackageTree.{PackageTree as SourceTree};
ghost use Rattle.aadl_tree.specs.proof.PlaceMaps.{package_to, no_place};
ghost use Rattle.aadl_tree.specs.proof.PackageViews.{package_view, placed, meaning};
ghost use Rattle.aadl_tree.specs.PackagesBehavioursAndNesting.{nesting};
ghost use Rattle.aadl_tree.specs.TextTreesAndFaults.{IsTreeOf};
ghost use Rattle.aadl_tree.specs.CanonicalText.{canonical, canon};
ghost use Rattle.aadl_tree.specs.proof.ExampleSpellings.{counting, counting_kinds, counting_text};
ghost use Rattle.aadl_tree.specs.proof.ExampleTokensAndTerminals.{annex_text, annex_tokens, choice_kinds};
ghost use Rattle.aadl_tree.specs.proof.EmptyPackage.{package_text, package_tokens, small_package, printed_text};

/// Each keyword is recognised in any case, in the contexts in which it is a keyword, and each symbol is
/// recognised. Each symbol token of a text is a symbol of the grammar.
pub fn marks_are_read()
    ensures inside { map (λ m. keyword_of true (mark_text m)) keywords_inside ≡ map Some keywords_inside }
    ensures outside { map (λ m. keyword_of false (mark_text m)) keywords_outside ≡ map Some keywords_outside }
    ensures symbols { map (λ m. symbol_of (mark_text m)) symbols ≡ map Some symbols }
    ensures known { (b : List ℕ) → IsSymbol b → IsTrue (is_some (symbol_of b)) }
    ensures case { keyword_of false (codes "PaCkAgE") ≡ Some k.Package }
    ensures names_outside { map (λ word. keyword_of false word) (codes "true" ∷ codes "fresh" ∷ codes "state" ∷ [])
        ≡ None ∷ None ∷ None ∷ [] }
    ensures names_inside { map (λ word. keyword_of true word) (codes "port" ∷ codes "none" ∷ codes "thread" ∷ [])
        ≡ None ∷ None ∷ None ∷ [] }
{}

/// A word can be a keyword inside a behaviour annex but not outside. An `if` is open up to the `if` of its end.
pub fn terminals_depend_on_their_place()
    ensures kinds { kinds_of (placed_terminals annex_text annex_tokens)
        ≡ word (codes "on") ∷ word (codes "behavior_specification") ∷ mark k.AnnexOpen
        ∷ mark k.On ∷ word (codes "x") ∷ mark k.AnnexClose ∷ [] }
    ensures opened { nesting 0 (mark k.If ∷ mark k.ParenOpen ∷ []) ≡ 2 }
    ensures closing { nesting 0 choice_kinds ≡ 1 }
    ensures closed { nesting 0 (choice_kinds ++ mark k.If ∷ []) ≡ 0 }
{}

/// The terminals of its text spell a transition of the two counters, with or without a `;` after the last
/// action, and this is its canonical text.
pub fn counting_is_spelled()
    ensures plain { Spells (transition_parts counting) (counting_kinds []) [] }
    ensures ended { Spells (transition_parts counting) (counting_kinds (mark k.Semicolon ∷ [])) [] }
    ensures kept { kept (transition_parts counting) ≡ counting_kinds [] }
    ensures canonical { canonical (kept (transition_parts counting)) ≡ counting_text }
{}

/// The spelling of concatenated parts is the concatenation of their spellings, and so is their canonical text.
pub fn parts_are_spelled_in_turn()
    ensures spelled { (a b : List (SpellingPart ℕ)) (ks rest : List PlainTerminal)
        → Spells (a ++ b) ks rest ↔ ((mid : List PlainTerminal) × Spells a ks mid × Spells b mid rest) }
    ensures written { (a b : List (SpellingPart ℕ)) (ss rest : List PlacedTerminal)
        → Written (a ++ b) ss rest ↔ ((mid : List PlacedTerminal) × Written a ss mid × Written b mid rest) }
{}

/// An empty package whose text has a keyword in capitals and a comment: its tokens, its tree with its places,
/// and its canonical text.
pub fn small_package_is_read()
    ensures tokens { AreTokensOf package_text package_tokens }
    ensures tree { IsTreeOf package_text small_package }
    ensures canonical { canon small_package ≡ printed_text }
{}

/// The model of a tree with mapped places is the image, under the map, of the model with its own places. So the
/// meaning of a tree is the tree without places.
pub fn places_can_be_dropped()
    ensures moved { (f : ℕ → ℕ) (tree : SourceTree) → package_to f (placed tree) ≡ package_view f tree }
    ensures dropped { (tree : SourceTree) → package_to no_place (placed tree) ≡ meaning tree }
{}

/// The terminals that the canonical text retains spell the tree; and terminals at a tree's places spell it.
pub fn kept_is_spelled()
    ensures kept { (ps : List (SpellingPart ℕ)) (rest : List PlainTerminal) → Spells ps (kept ps ++ rest) rest }
    ensures written { (ps : List (SpellingPart ℕ)) (ss rest : List PlacedTerminal)
        → Written ps ss rest → Spells ps (kinds_of ss) (kinds_of rest) }
{}
