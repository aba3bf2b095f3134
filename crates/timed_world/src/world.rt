//! A world and its observers.
ghost use Rattle.std.specs.Prelude.{◌≡◌, ◌<◌, ◌≤◌, length, slice_index_or, IfOk};
ghost use Rattle.std.specs.Arc.{arc_value};
ghost use Rattle.pals_base.specs.declared.limits.TheConstants.{COMPONENTS, LINKS, ROUNDS};
ghost use Rattle.bus_machine.specs.proof.AgreementLaws.{IsRunOf};
ghost use Rattle.bus_machine.specs.Plans.{plan_of};
ghost use Rattle.pals_node.specs.proof.NodeInvariants.{IsPlan};
ghost use Rattle.pals_bus.specs.proof.StepCodesOfNodes.{AreCodes};
ghost use Rattle.run_laws.specs.proof.WorldInvariant.{KeepsTime};
ghost use Rattle.run_laws.specs.Worlds.{flight_since};
ghost use Rattle.timed_world.specs.proof.NodeStandings.{IsSound, standing_of};
ghost use Rattle.timed_world.specs.proof.WorldValuesAndMoves.{opening_value, world_of};

use crate::initial_lists::{least_delays, no_moments, no_times};
use crate::node_standing::NodeStanding;
use bus_machine::Plan;
use pals_base::{ItemList, LinkNo, Nanos, NoMemory, NodeNo};
use pals_bus::Bus;
use pals_model::{Design, Env};
use std::alloc::Global;
use std::marker::Model;
use std::sync::Arc;
use step_code::Code;

/// A run with the time and the reading of each node's clock, within the bounds of its design. For each
/// node it has the time since which the node is in its phase, the time since which the steps of its
/// round that are sent are finished, and the times at which it sent its rounds. All times and readings
/// are nanoseconds. Its bus never has a stop.
#[derive(Drop)]
pub struct World {
    pub(crate) bus: Bus,
    pub(crate) time: Nanos,
    pub(crate) readings: ItemList<Nanos>,
    pub(crate) since: ItemList<Nanos>,
    pub(crate) ready: ItemList<Nanos>,
    pub(crate) sent_at: ItemList<ItemList<Nanos>>,
}

impl Model for World {
    ghost use Rattle.timed_world.specs.proof.WorldValuesAndMoves.{WorldValue, KeepsWorld};

    ghost Value = { WorldValue };

    ghost use Rattle.timed_world.specs.proof.Codes.{world_code};

    ghost coded = { world_code };

    ghost view = { λ w. record {
      bus = w.bus;
      time = w.time;
      readings = w.readings;
      since = w.since;
      ready = w.ready;
      sent_at = w.sent_at;
    } };

    ghost invariant = { λ w. KeepsWorld (record {
      bus = w.bus;
      time = w.time;
      readings = w.readings;
      since = w.since;
      ready = w.ready;
      sent_at = w.sent_at;
    }) };
}

impl World {
    /// A run before its first event, at time 0 with all clocks at 0: of a design with the codes of its
    /// components, for `rounds` rounds, with these values of the root in ports.
    pub fn new(
        alloc: Global,
        design: Arc<Design>,
        codes: ItemList<Code>,
        env: Env,
        rounds: u32,
    ) -> Result<World, NoMemory>
        requires some { 1 ≤ rounds }
        requires most { rounds ≤ ROUNDS }
        requires codes { AreCodes (arc_value design) codes }
        ensures { IfOk result (λ world. world ≡ opening_value (arc_value design) codes env rounds) }
    {
        let delays = least_delays(alloc, &design)?;
        let readings = no_times(alloc, &design)?;
        let since = no_times(alloc, &design)?;
        let ready = no_times(alloc, &design)?;
        let sent_at = no_moments(alloc, &design)?;
        let bus = Bus::new(alloc, design, codes, env, rounds, delays, false)?;
        Ok(World {
            bus,
            time: 0,
            readings,
            since,
            ready,
            sent_at,
        })
    }

    /// The bus of the run.
    pub fn bus(&self) -> &Bus
        ensures { result.now ≡ self.now.bus }
    {
        &self.bus
    }

    /// The invariant of every world: the run has no stop, the bus agrees with the composition, and all times
    /// are within the bounds.
    pub fn kept(&self)
        ensures time { KeepsTime self.now.bus.run (world_of self.now) }
        ensures run { IsRunOf self.now.bus.run }
        ensures rounds { self.now.bus.run.rounds ≤ ROUNDS }
    {
        let _time = self.time;
    }

    /// How many components the design has.
    pub(crate) fn component_count(&self) -> usize
        ensures value { result ≡ length self.now.bus.run.design.components }
        ensures few { result ≤ COMPONENTS }
    {
        self.bus.design().components().len()
    }

    /// How many links the design has.
    pub(crate) fn link_count(&self) -> usize
        ensures value { result ≡ length self.now.bus.run.design.links }
        ensures few { result ≤ LINKS }
    {
        self.bus.design().links().len()
    }

    /// The plan of a node.
    pub(crate) fn plan(&self, node: NodeNo) -> &Plan
        requires { node.0 < length self.now.bus.run.design.components }
        ensures value { result.now ≡ plan_of self.now.bus.run.design node.0 }
        ensures keeps { IsPlan result.now }
    {
        self.bus.plan(node)
    }

    /// The progress of a node.
    pub(crate) fn standing(&self, node: NodeNo) -> NodeStanding
        requires { node.0 < length self.now.bus.run.design.components }
        ensures value { result ≡ standing_of (world_of self.now) node.0 }
        ensures sound { IsSound (plan_of self.now.bus.run.design node.0) result }
    {
        let at = node.0 as usize;
        NodeStanding {
            count: self.bus.count(node),
            phase: self.bus.phase(node),
            sent: self.bus.sent(node),
            reading: self.readings[at],
            since: self.since[at],
            ready: self.ready[at],
        }
    }

    /// Since when a link's message of a round is in flight.
    pub(crate) fn flight_since(&self, link: LinkNo, round: u32) -> Nanos
        requires { link.0 < length self.now.bus.run.design.links }
        ensures { result ≡ flight_since self.now.bus.run (world_of self.now) link.0 round }
    {
        let source = self.bus.design().links()[link.0 as usize].source;
        match self.sent_at.get(source.0 as usize) {
            None => 0,
            Some(moments) => moment_in(moments.as_slice(), round as usize),
        }
    }
}

// The moment at a place, 0 past the end.
fn moment_in(moments: &[Nanos], at: usize) -> Nanos
    ensures { result ≡ slice_index_or moments.now at 0 }
{
    if at < moments.len() {
        return moments[at];
    }
    0
}
