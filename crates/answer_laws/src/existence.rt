//! Each bundle has an answer of each command, and one of each command other than `run`. Each law is the contract of a
//! function with an empty body.
ghost use Rattle.answer_laws.specs.proof.ExistingAnswers.{EachBundleHasAnAnswer, EachBundleHasOneAnswer};

use crate::answer_uniqueness::answer_is_decided;
use aadl_grammar::tree_or_fault_laws::tree_or_fault;
use design_laws::instance_existence::{
    each_instance_has_its_list, first_faults_are_named, instance_or_fault,
};
use design_laws::packages::designs_of_texts_keep_their_rules;
use plant_fuse::laws::one_report;
use run_laws::laws::each_run_ends;
use scenario_laws::event_and_trace_laws::{events_are_few, events_are_loose, traces_are_few};
use scenario_laws::plant_laws::pairs_can_be_fused;
use scenario_laws::scenario_meaning::scenario_or_fault;
use scenario_laws::scenario_suitability::scenarios_suit;
use step_compiler::laws::layout_is_one;

/// Each valid command has an answer to each bundle, whatever the root: there are a status and a text that
/// the theorem on a call of the program allows. No answer to a bundle reports that memory ran out, or that
/// a call of the source or the sink failed.
pub fn each_bundle_has_an_answer()
    ensures { EachBundleHasAnAnswer }
{
    tree_or_fault();
    instance_or_fault();
    first_faults_are_named();
    each_instance_has_its_list();
    designs_of_texts_keep_their_rules();
    scenario_or_fault();
    events_are_loose();
    events_are_few();
    traces_are_few();
    pairs_can_be_fused();
    one_report();
    layout_is_one();
    scenarios_suit();
    each_run_ends();
}

/// Each valid command other than `run` has exactly one answer to each bundle: one status and one text.
pub fn exactly_one_answer()
    ensures { EachBundleHasOneAnswer }
{
    each_bundle_has_an_answer();
    answer_is_decided();
}
