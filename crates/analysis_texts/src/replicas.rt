//! The report of rounds that are voted on, as `vote` writes it, row by row.
ghost use Rattle.std.specs.Prelude.{◌≡◌, ◌++◌, ◌<◌, ◌^◌, ℕ, List, [], All, length, map, IfOk, OnOk};
ghost use Rattle.pals_base.specs.UpwardNumbers.{upwards};
ghost use Rattle.pals_base.specs.declared.basic_types.PortValue.{PortValue};
ghost use Rattle.pals_model.specs.declared.design.Tap.{Tap};
ghost use Rattle.pals_model.specs.DesignRules.{IsDesign};
ghost use Rattle.pals_model.specs.RoundTexts.{text_of, report};
ghost use Rattle.pals_runs.specs.declared.replica_faults.VoteFault.{VoteFault};
ghost use Rattle.analysis_fields.specs.proof.ReplicaFaultsAndProcessors.{IsFaultOf};
ghost use Rattle.triple_vote.specs.proof.VoteLaws.{IsFault};
ghost use Rattle.triple_vote.specs.VotedComposition.{is_replicated, frame_at, voted_opening};
ghost use Rattle.triple_vote.specs.proof.VotedStates.{voted_begun};
ghost use Rattle.triple_vote.specs.VotedText.{replica_lines, shown_line, voted_row, voted_report, tripled_report};
ghost use Rattle.triple_vote.specs.OutvotedFaults.{AreOutvoted};
ghost use Rattle.analysis_texts.specs.ReplicasAndRoundFaults.{replicated_in, faults_of};
ghost use Rattle.analysis_texts.specs.proof.ReplicaNamesAndLines.{names_of, all_names, all_lines};

use crate::faults_by_round::by_round;
use crate::replica_names::{replica_names, replicated};
use analysis_fields::RoundFault;
use pals_base::{ItemList, NoMemory, NodeNo, PortValue, Text, Tuple};
use pals_model::{Component, Design, DesignParts, Env};
use pals_report::{add_frame, add_round, add_tap_tuple};
use pals_runs::VoteFault;
use std::alloc::Global;
use std::sync::Arc;
use triple_vote::VoteProduct;

/// The report of the composition of a design in which some components have three replicas each, whose
/// messages are voted on: the rows of the first rounds, with these faults of replicas. If no two replicas
/// are at fault towards one reader in one round, they are the composition's, with each line of a replicated
/// component three times; without replicas they are the composition's. The time of a round is linear in
/// its lines, the messages of replicas and its faults.
pub fn vote(
    alloc: Global,
    design: Design,
    env: &Env,
    rounds: u32,
    replicas: &[NodeNo],
    faults: ItemList<RoundFault>,
) -> Result<Vec<u8>, NoMemory>
    requires { All (IsFaultOf design replicas.now) faults }
    ensures rows { IfOk result (λ text. text.items
        ≡ voted_report design env.now (replicated_in design replicas.now) (faults_of faults) rounds) }
    ensures outvoted { IfOk result (λ text. AreOutvoted (faults_of faults)
        → text.items ≡ tripled_report design env.now (replicated_in design replicas.now) rounds) }
    ensures alone { IfOk result (λ text. replicas.now ≡ [] → text.items ≡ report design env.now rounds) }
{
    let mut product = product_of(alloc, design, replicas)?;
    voted(alloc, &mut product, env, rounds, replicas, faults)
}

// A product of a design, before the first round, with three replicas of each of some components.
fn product_of(alloc: Global, design: Design, replicas: &[NodeNo]) -> Result<VoteProduct, NoMemory>
    ensures begun { IfOk result (λ product. product ≡ voted_begun design (replicated_in design replicas.now)) }
    ensures rules { OnOk result (IsDesign design) }
{
    let replicated = replicated(alloc, design.components().len(), replicas)?;
    VoteProduct::new(alloc, Arc::new(alloc, design)?, replicated)
}

// The rows of the first rounds of such a product.
fn voted(
    alloc: Global,
    product: &mut VoteProduct,
    env: &Env,
    rounds: u32,
    replicas: &[NodeNo],
    faults: ItemList<RoundFault>,
) -> Result<Vec<u8>, NoMemory>
    requires product { product.old ≡ voted_begun product.old.design (replicated_in product.old.design replicas.now) }
    requires faults { All (IsFaultOf product.old.design replicas.now) faults }
    ensures { IfOk result (λ text. text.items
        ≡ voted_report product.old.design env.now (replicated_in product.old.design replicas.now) (faults_of faults)
        rounds) }
{
    let names = replica_names(alloc, product.design(), replicas)?;
    let faults = by_round(alloc, faults, rounds)?;
    rows(alloc, product, names.as_slice(), env, faults.as_slice())
}

// The rows of the first rounds of a product that has made none, one for each list of faults.
fn rows(
    alloc: Global,
    product: &mut VoteProduct,
    names: &[ItemList<Text>],
    env: &Env,
    faults: &[ItemList<VoteFault>],
) -> Result<Vec<u8>, NoMemory>
    requires opening { product.old.voted ≡ voted_opening product.old.design product.old.replicated }
    requires names { names.now ≡ all_names product.old.design.components product.old.replicated }
    requires count { length faults.now < 2 ^ 32 }
    requires faults { All (λ fs. All (IsFault product.old.design) fs) faults.now }
    ensures { (all : ℕ → List VoteFault) → faults.now ≡ map all (upwards 0 (length faults.now))
        → IfOk result (λ text. text.items
        ≡ voted_report product.old.design env.now product.old.replicated all (length faults.now)) }
{
    let mut values = vec![in alloc; PortValue::Absent; env.lists.len()]?;
    let mut text = Vec::new(alloc);
    for (round, faults) in faults.iter().enumerate() {
        let number = round as u32;
        env.write_values(number, &mut values);
        product.advance(values.as_slice(), faults.as_slice())?;
        add_row(&mut text, product, names, number)?;
    }
    Ok(text)
}

// Adds the row of the round that a product has made last.
fn add_row(
    text: &mut Vec<u8>,
    product: &VoteProduct,
    names: &[ItemList<Text>],
    round: u32,
) -> Result<(), NoMemory>
    requires names { names.now ≡ all_names product.now.design.components product.now.replicated }
    requires shown { length product.now.shown ≡ length product.now.design.taps }
    ensures { (shown : Tap → List PortValue) → product.now.shown ≡ map shown product.now.design.taps
        → OnOk result (text.new.items ≡ text.old.items
        ++ text_of (voted_row product.now.design product.now.replicated (frame_at product.now.voted) shown round)) }
{
    add_round(text, round)?;
    add_components(text, product, names)?;
    add_taps(text, product.design().parts(), product.shown())
}

// Adds the lines of the replicas of each component.
fn add_components(
    text: &mut Vec<u8>,
    product: &VoteProduct,
    names: &[ItemList<Text>],
) -> Result<(), NoMemory>
    requires { names.now ≡ all_names product.now.design.components product.now.replicated }
    ensures { OnOk result (text.new.items ≡ text.old.items
        ++ text_of (all_lines product.now.replicated (frame_at product.now.voted) 0 product.now.design.components)) }
{
    let components = product.design().components();
    for (node, component) in components.iter().enumerate() {
        let names = names[node].as_slice();
        add_replicas(text, product, NodeNo(node as u32), component, names)?;
    }
    Ok(())
}

// Adds a line for each replica of a component.
fn add_replicas(
    text: &mut Vec<u8>,
    product: &VoteProduct,
    node: NodeNo,
    component: &Component,
    names: &[Text],
) -> Result<(), NoMemory>
    requires node { node.0 < length product.now.design.components }
    requires names { names.now ≡ names_of component.now.path (is_replicated product.now.replicated node.0) }
    ensures { OnOk result (text.new.items ≡ text.old.items
        ++ text_of (replica_lines product.now.replicated (frame_at product.now.voted) node.0 component.now)) }
{
    for (at, name) in names.iter().enumerate() {
        let frame = product.frame(node, at as u32 + 1);
        add_frame(text, name, component.behaviour.parts(), frame)?;
    }
    Ok(())
}

// Adds a line for each root out port.
fn add_taps(text: &mut Vec<u8>, design: &DesignParts, shown: &[Tuple]) -> Result<(), NoMemory>
    requires { length shown.now ≡ length design.now.taps }
    ensures { (all : Tap → List PortValue) → shown.now ≡ map all design.now.taps
        → OnOk result (text.new.items ≡ text.old.items ++ text_of (map (shown_line design.now all) design.now.taps)) }
{
    for (number, tap) in design.taps.as_slice().iter().enumerate() {
        let kind = design.out_kind(tap.source, tap.out_port);
        add_tap_tuple(text, kind, tap, shown[number].as_slice())?;
    }
    Ok(())
}
