//! An annex without findings has the parts of a behaviour. The law is the contract of a function that does
//! nothing.
ghost use Rattle.std.specs.Prelude.{◌≡◌, ℕ, []};
ghost use Rattle.pals_base.specs.BehaviourRules.{IsBehaviour};
ghost use Rattle.aadl_tree.specs.Annexes.{AnnexTree};
ghost use Rattle.annex_resolve.specs.declared.ports_and_variables.DeclaredValues.{DeclaredValues};
ghost use Rattle.annex_resolve.specs.declared.scope.Scope.{Scope};
ghost use Rattle.annex_resolve.specs.BehavioursAndFindings.{annex_findings, behaviour_of};
ghost use Rattle.design_laws.specs.proof.FittingAnnexNames.{IsReady};

/// If the names of an annex are well formed and it has no findings, its parts are the parts of a behaviour: it
/// is well typed, its loops are short, and each of its steps ends.
pub fn no_findings_make_a_behaviour()
    ensures { (values : DeclaredValues) (scope : Scope) (at : ℕ) (annex : AnnexTree ℕ) → IsReady values scope annex →
        annex_findings values scope at annex ≡ [] → IsBehaviour (behaviour_of values scope annex) }
{}
