//! The crates as a library: checks the design of a bundle, runs its composition round by round with inputs of this
//! program, and runs rounds of two of its nodes on a bus, with their components' step code.
#![tactic(auto)]

ghost use Rattle.std.specs.Prelude.{◌≡◌, ◌∷◌, [], OnOk, IsTrue, None};
ghost use Rattle.pals_base.specs.declared.basic_types.PortValue.TheVariants.{Present};
ghost use Rattle.sync_product.specs.proof.ProductStates.{advanced};
ghost use Rattle.bus_machine.specs.Machine.{Arrive};
ghost use Rattle.bus_machine.specs.Agreement.{Agrees};
ghost use Rattle.pals_bus.specs.BusValues.{Happens};

use bundle_designs::accept;
use design_codes::compile_all;
use loose_world::add_finished_rows;
use pals_base::{LinkNo, NoMemory, NodeNo, PortValue, Text};
use pals_bus::Bus;
use pals_model::Design;
use pals_report::{TapPlaces, add_row};
use pals_runs::Command::Sync;
use scenario_json::read_scenario;
use std::alloc::Global;
use std::io::ErrorKind::InvalidData;
use std::io::{Read, Result, Write};
use std::sync::Arc;
use sync_product::Product;

// Prints the rows of some rounds of the composition, and of the rounds that nodes on a bus have completed.
fn main(rt: HostRuntime) -> Result<()> {
    let alloc = rt.alloc();
    let mut bundle = Vec::new(alloc);
    rt.stdin().read_to_end(&mut bundle)?;
    let root = Text::from_str(alloc, "Top.impl")?;
    let accepted = accept(alloc, &bundle, &root).ok().ok_or(InvalidData)?;
    let design = Arc::new(alloc, accepted.design)?;
    let mut text = Vec::new(alloc);
    compose(alloc, &design, &mut text)?;
    let bus = bus_of(alloc, design, accepted.scenario, root)?;
    run_nodes(alloc, bus, &mut text)?;
    rt.stdout().write_all(&text)
}

// Four rounds of the composition, with inputs of this program.
fn compose(alloc: Global, design: &Arc<Design>, text: &mut Vec<u8>) -> Result<()> {
    let places = TapPlaces::new(alloc, design)?;
    let mut product = Product::new(alloc, Arc::try_clone(design)?)?;
    for (round, goal) in [10, 10, 0, 0].into_iter().enumerate() {
        advance(&mut product, goal)?;
        add_row(text, design, &places, round as u32, &product.parts())?;
    }
    Ok(())
}

// One round further, with this value at the root's in port.
fn advance(product: &mut Product, goal: i64) -> std::result::Result<(), NoMemory>
    ensures { OnOk result (product.new ≡ advanced product.old (Present goal ∷ [])) }
{
    product.advance(&[PortValue::Present(goal)])
}

// A bus of a design whose nodes have their components' step code, for the rounds and the inputs of a scenario.
fn bus_of(alloc: Global, design: Arc<Design>, scenario: &[u8], root: Text) -> Result<Bus> {
    let Ok(codes) = compile_all(alloc, &design) else {
        return Err(InvalidData.into());
    };
    let Ok(run) = read_scenario(alloc, scenario, &design, Sync { root }) else {
        return Err(InvalidData.into());
    };
    Ok(Bus::new(alloc, design, codes, run.env, run.rounds, run.delays, false)?)
}

// Some rounds of two nodes: the main component is node 0, the left surface node 1, and link 3 goes from the one to
// the other.
fn run_nodes(alloc: Global, mut bus: Bus, text: &mut Vec<u8>) -> Result<()> {
    let sent = goes_round(&mut bus, NodeNo(0)) && goes_round(&mut bus, NodeNo(1));
    let _again = sent && arrives(&mut bus, LinkNo(3), 0) && goes_round(&mut bus, NodeNo(1));
    Ok(add_finished_rows(alloc, text, &bus)?)
}

// Whether a node of rate 1 completes a round without clocks. Whatever happens, the bus agrees with the composition.
fn goes_round(bus: &mut Bus, node: NodeNo) -> bool
    ensures { Agrees bus.new.run bus.new.state }
{
    let is_there = (node.0 as usize) < bus.design().components().len() && !bus.meeting();
    let went = is_there
        && bus.start(node, None).is_ok()
        && bus.finish_here(node).is_ok()
        && !bus.meeting()
        && bus.send(node, None).is_ok();
    bus.agreement();
    went
}

// Whether a link's message of a round arrives.
fn arrives(bus: &mut Bus, link: LinkNo, round: u32) -> bool
    ensures { IsTrue result → Happens bus.old (Arrive link round None) bus.new }
{
    (link.0 as usize) < bus.design().links().len() && bus.deliver(link, round, None).is_ok()
}
