//! Laws of the grammar's stack machine: where it stops, and that a list of terminals spells at most one tree.
//! Each law is the contract of a function that does nothing.
ghost use Rattle.std.specs.Prelude.{◌≡◌, ◌↔◌, ◌+◌, ℕ, List, [], ◌∷◌, map};
ghost use Rattle.aadl_tree.specs.declared.nesting_limit.TheConstants.{GREATEST_NESTING};
ghost use Rattle.aadl_tree.specs.Terminals.{PlainTerminal, mark, PlacedTerminal, kinds_of};
ghost use Rattle.aadl_tree.specs.declared.mark.Mark.TheVariants as k;
ghost use Rattle.aadl_tree.specs.SpellingParts.{Spells, Written, kept};
ghost use Rattle.aadl_tree.specs.Annexes.{AnnexTree, annex_tree_parts};
ghost use Rattle.aadl_tree.specs.Declarations.{PackageTree, package_parts};
ghost use Rattle.aadl_tree.specs.PackagesBehavioursAndNesting.{nesting, IsPackage, IsBehaviour, IsShallow};
ghost use Rattle.aadl_tree.specs.TerminalFaults.{FailsAt, DeepAt};
ghost use Rattle.aadl_tree.specs.proof.ExampleSpellings.{counting_kinds};
ghost use Rattle.aadl_grammar.specs.proof.GrammarSymbols.{Symbol};
ghost use Rattle.aadl_grammar.specs.proof.GrammarSymbols as s;
ghost use Rattle.aadl_grammar.specs.proof.ParseTable.{rows, Decides};
ghost use Rattle.aadl_grammar.specs.proof.StackMachine.{fate, finished, syntax_at, deep_at, whole_package, annex_body};
ghost use Rattle.aadl_grammar.specs.proof.MovedPackages.{SamePackage};
ghost use Rattle.aadl_grammar.specs.proof.PlaceOrder.{Rising};
ghost use Rattle.aadl_grammar.specs.proof.ExampleTerminals.{numbered, without_value, nested, small_package};

/// One terminal determines how a symbol begins: any two rows of a symbol in the parse table have distinct
/// classes.
pub fn one_terminal_decides()
    ensures { (symbol : Symbol) → Decides (rows symbol) }
{}

/// Each opener, including the openers of guards and annexes, increases the nesting depth by one, and each
/// closer decreases it by one.
pub fn openers_are_counted()
    ensures openers { map (λ m. nesting 0 (mark m ∷ []))
        (k.ParenOpen ∷ k.BracketOpen ∷ k.BraceOpen ∷ k.AnnexOpen ∷ k.GuardOpen ∷ k.If ∷ [])
        ≡ 1 ∷ 1 ∷ 1 ∷ 1 ∷ 1 ∷ 1 ∷ [] }
    ensures closers { map (λ m. nesting 1 (mark m ∷ []))
        (k.ParenClose ∷ k.BracketClose ∷ k.BraceClose ∷ k.AnnexClose ∷ k.GuardClose ∷ [])
        ≡ 0 ∷ 0 ∷ 0 ∷ 0 ∷ 0 ∷ [] }
{}

/// The machine finishes on a list of terminals if and only if the list is a package within the nesting limit.
/// It stops with a syntax fault at the first terminal at which no text continues, and with a depth fault at the
/// first opener beyond the nesting limit. So each list of terminals has exactly one of the three fates, at one
/// position.
pub fn fate_of_package()
    ensures finished { (end : ℕ) (spots : List PlacedTerminal)
        → (fate 0 end whole_package spots ≡ finished) ↔ (IsPackage (kinds_of spots) × IsShallow 0 (kinds_of spots)) }
    ensures syntax { (end : ℕ) (spots : List PlacedTerminal) (at : ℕ) → (fate 0 end whole_package spots ≡ syntax_at at)
        ↔ FailsAt IsPackage 0 end spots at }
    ensures deep { (end : ℕ) (spots : List PlacedTerminal) (at : ℕ) → (fate 0 end whole_package spots ≡ deep_at at)
        ↔ DeepAt IsPackage 0 spots at }
{}

/// The machine finishes on a list of terminals if and only if the list is the body of a behaviour annex within
/// the nesting limit; the opener of the annex counts as open. It stops with a syntax fault at the first
/// terminal at which no text continues, and with a depth fault at the first opener beyond the nesting limit.
pub fn fate_of_behaviour()
    ensures finished { (end : ℕ) (spots : List PlacedTerminal)
        → (fate 1 end annex_body spots ≡ finished) ↔ (IsBehaviour (kinds_of spots) × IsShallow 1 (kinds_of spots)) }
    ensures syntax { (end : ℕ) (spots : List PlacedTerminal) (at : ℕ) → (fate 1 end annex_body spots ≡ syntax_at at)
        ↔ FailsAt IsBehaviour 1 end spots at }
    ensures deep { (end : ℕ) (spots : List PlacedTerminal) (at : ℕ) → (fate 1 end annex_body spots ≡ deep_at at)
        ↔ DeepAt IsBehaviour 1 spots at }
{}

/// A list of terminals spells at most one package or behaviour, up to places. So all trees of one text, with
/// their places, have one canonical text.
pub fn a_text_has_one_tree()
    ensures package { (ks : List PlainTerminal) (t u : PackageTree (Unit {0})) → Spells (package_parts t) ks []
        → Spells (package_parts u) ks [] → t ≡ u }
    ensures behaviour { (ks : List PlainTerminal) (t u : AnnexTree (Unit {0})) → Spells (annex_tree_parts t) ks []
        → Spells (annex_tree_parts u) ks [] → t ≡ u }
    ensures kept_of_package { (ks : List PlainTerminal) (t u : PackageTree ℕ)
        → Spells (package_parts t) ks [] → Spells (package_parts u) ks []
        → kept (package_parts t) ≡ kept (package_parts u) }
    ensures kept_of_behaviour { (ks : List PlainTerminal) (t u : AnnexTree ℕ)
        → Spells (annex_tree_parts t) ks [] → Spells (annex_tree_parts u) ks []
        → kept (annex_tree_parts t) ≡ kept (annex_tree_parts u) }
{}

/// The tokens of a text spell at most one package or behaviour with its places. If a list of terminals consists
/// of the terminals that a package keeps, it spells the same package at its own places; so the canonical text
/// of a package has a tree.
pub fn one_tree_with_places()
    ensures package { (ss : List PlacedTerminal) (t u : PackageTree ℕ) → Written (package_parts t) ss []
        → Written (package_parts u) ss [] → t ≡ u }
    ensures behaviour { (ss : List PlacedTerminal) (t u : AnnexTree ℕ) → Written (annex_tree_parts t) ss []
        → Written (annex_tree_parts u) ss [] → t ≡ u }
    ensures moved { (t : PackageTree ℕ) (ss ts : List PlacedTerminal)
        → Written (package_parts t) ss [] → Rising ss → kinds_of ts ≡ kept (package_parts t) → SamePackage t ts }
{}

/// The fates of a transition of the two counters, of `x := ;`, of an end of text after it, of a small package,
/// and of parentheses that reach the nesting limit and exceed it by one.
pub fn worked_fates()
    ensures transition { fate 1 99 (s.transition ∷ []) (numbered 0 (counting_kinds [])) ≡ finished }
    ensures ended { fate 1 99 (s.transition ∷ []) (numbered 0 (counting_kinds (mark k.Semicolon ∷ []))) ≡ finished }
    ensures without_value { fate 1 99 (s.action ∷ []) (numbered 0 without_value) ≡ syntax_at 2 }
    ensures cut_off { fate 1 99 (s.action ∷ []) [] ≡ syntax_at 99 }
    ensures package { fate 0 99 whole_package (numbered 0 small_package) ≡ finished }
    ensures nested { fate 0 99 (s.expression ∷ []) (numbered 0 (nested GREATEST_NESTING)) ≡ finished }
    ensures too_deep { fate 0 99 (s.expression ∷ []) (numbered 0 (nested (GREATEST_NESTING + 1)))
        ≡ deep_at GREATEST_NESTING }
{}
