//! The numbers of variables and states of an implementation, counted up to a limit.
ghost use Rattle.std.specs.Prelude.{◌≡◌, length, min};
ghost use Rattle.aadl_tree.specs.Names.{identifiers};
ghost use Rattle.aadl_tree.specs.proof.PlaceMaps.{kept_place};
ghost use Rattle.aadl_tree.specs.proof.NameViews.{identifiers_view};
ghost use Rattle.aadl_tree.specs.proof.DeclarationViews.{implementation_view};
ghost use Rattle.aadl_instance.specs.BehaviourSizes.{variable_count, state_count};

use aadl_tree::{Identifiers, Implementation};
use aadl_uses::marked_counts::add_up_to;
use name_faults::behaviour_sections::{states_in, variables_in};
use name_faults::first_behaviour;

/// Returns the number of variables, or `limit` if there are more.
pub fn variables_up_to(x: &Implementation, limit: usize) -> usize
    ensures { result ≡ min limit (variable_count (implementation_view kept_place x.now)) }
{
    let mut count = 0;
    if let Some(behaviour) = first_behaviour(x.annexes.as_slice()) {
        for declared in variables_in(behaviour) {
            count = add_up_to(limit, count, word_count(&declared.names));
        }
    }
    count
}

/// Returns the number of states, or `limit` if there are more.
pub fn states_up_to(x: &Implementation, limit: usize) -> usize
    ensures { result ≡ min limit (state_count (implementation_view kept_place x.now)) }
{
    let mut count = 0;
    if let Some(behaviour) = first_behaviour(x.annexes.as_slice()) {
        for declared in states_in(behaviour) {
            count = add_up_to(limit, count, word_count(&declared.names));
        }
    }
    count
}

// The number of words in a list.
fn word_count(words: &Identifiers) -> usize
    ensures { result ≡ length (identifiers (identifiers_view kept_place words.now)) }
{
    words.rest.len() + 1
}
