//! The rounds that the nodes of a bus have finished.
ghost use Rattle.std.specs.Prelude.{◌≡◌, ◌++◌, OnOk, OnErr, fold, max};
ghost use Rattle.pals_model.specs.RoundTexts.{text_of};
ghost use Rattle.bus_machine.specs.BusStates.{finished_by_all};
ghost use Rattle.pals_report.specs.proof.TextPrefixes.{BeginsWith};
ghost use Rattle.loose_world.specs.proof.FinishedRows.{lines_before, finished, finished_lines, common_lines};

use pals_base::{NoMemory, NodeNo};
use pals_bus::Bus;
use pals_model::Part;
use pals_report::{RoundParts, TapPlaces, add_row, whole_or_none};
use std::alloc::Global;

// The parts of a round, of those nodes that have finished it.
#[derive(Clone, Copy)]
struct FinishedParts<'b> {
    bus: &'b Bus,
    round: u32,
}

impl RoundParts for FinishedParts<'_> {
    ghost use Rattle.loose_world.specs.proof.FinishedRows.{part_of_round};

    ghost part_of = { λ parts node. part_of_round parts.bus.now parts.round node };

    fn part(&self, node: NodeNo) -> Option<&Part> {
        self.bus.agreement();
        if node.0 as usize >= self.bus.design().components().len() {
            return None;
        }
        self.bus.part(node, self.round)
    }
}

// Adds the rows of the first rounds, each with those components that have finished it. If there is
// not enough memory, nothing is added.
fn add_rows(alloc: Global, out: &mut Vec<u8>, bus: &Bus, rounds: u32) -> Result<(), NoMemory>
    ensures ok { OnOk result (out.new.items ≡ out.old.items ++ text_of (lines_before bus.now rounds)) }
    ensures err { OnErr result (out.new.items ≡ out.old.items) }
{
    let start = out.len();
    let written = add_each_row(alloc, out, bus, rounds);
    whole_or_none(out, start, written)
}

// Adds the rows one by one.
fn add_each_row(alloc: Global, out: &mut Vec<u8>, bus: &Bus, rounds: u32) -> Result<(), NoMemory>
    ensures ok { OnOk result (out.new.items ≡ out.old.items ++ text_of (lines_before bus.now rounds)) }
    ensures err { OnErr result (BeginsWith out.new.items out.old.items) }
{
    let design = bus.design();
    let places = TapPlaces::new(alloc, design)?;
    for round in 0..rounds {
        add_row(out, design, &places, round, &FinishedParts { bus, round })?;
    }
    Ok(())
}

/// Adds the rows of all rounds that some node has finished, each with those components that have.
/// If there is not enough memory, nothing is added.
pub fn add_finished_rows(alloc: Global, out: &mut Vec<u8>, bus: &Bus) -> Result<(), NoMemory>
    ensures ok { OnOk result (out.new.items ≡ out.old.items ++ text_of (finished_lines bus.now)) }
    ensures err { OnErr result (out.new.items ≡ out.old.items) }
{
    add_rows(alloc, out, bus, finished_rounds(bus))
}

/// Adds the rows of all rounds that every node has finished: in a run without nodes, of all of its
/// rounds. If there is not enough memory, nothing is added.
pub fn add_common_rows(alloc: Global, out: &mut Vec<u8>, bus: &Bus) -> Result<(), NoMemory>
    ensures ok { OnOk result (out.new.items ≡ out.old.items ++ text_of (common_lines bus.now)) }
    ensures err { OnErr result (out.new.items ≡ out.old.items) }
{
    add_rows(alloc, out, bus, finished_by_all(bus))
}

// How many rounds some node has finished.
fn finished_rounds(bus: &Bus) -> u32
    ensures { result ≡ fold max 0 (finished bus.now) }
{
    let mut rounds = 0;
    for node in 0..bus.design().components().len() {
        rounds = rounds.max(bus.finished(NodeNo(node as u32)));
    }
    rounds
}

// How many rounds every node has finished; without nodes, all of the run.
fn finished_by_all(bus: &Bus) -> u32
    ensures { result ≡ finished_by_all bus.now.run bus.now.state }
{
    bus.agreement();
    let mut rounds = bus.rounds();
    for node in 0..bus.design().components().len() {
        rounds = rounds.min(bus.finished(NodeNo(node as u32)));
    }
    rounds
}
