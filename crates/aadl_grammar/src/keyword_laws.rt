//! The law of keywords: the keywords are the words that the grammar needs, outside and inside behaviour
//! annexes.
ghost use Rattle.std.specs.Prelude.{◌≡◌, ◌↔◌, true, Contains};
ghost use Rattle.aadl_tree.specs.declared.mark.Mark.{Mark};
ghost use Rattle.aadl_tree.specs.KeywordsAndSymbols.{keywords_outside, keywords_inside};
ghost use Rattle.aadl_grammar.specs.proof.StackMachine.{whole_package, annex_body};
ghost use Rattle.aadl_grammar.specs.proof.ReachableKeywords.{is_word, CanCome};

/// A word is a keyword outside behaviour annexes if and only if it can occur in a package outside of them, and
/// inside if and only if it can occur in the body of one. So the grammar reserves no name that it does not
/// need.
pub fn keywords_are_the_words_of_the_grammar()
    ensures outside { (m : Mark) → Contains keywords_outside m ↔ ((is_word m ≡ true) × CanCome whole_package m) }
    ensures inside { (m : Mark) → Contains keywords_inside m ↔ ((is_word m ≡ true) × CanCome annex_body m) }
{}
