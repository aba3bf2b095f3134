//! The bus and its observers.
ghost use Rattle.std.specs.Prelude.{◌≡◌, ◌<◌, ◌≤◌, ◌↔◌, IsTrue, true, length, IfOk, slice_get, option_copied, None};
ghost use Rattle.std.specs.Arc.{arc_value};
ghost use Rattle.pals_base.specs.declared.limits.TheConstants.{ROUNDS};
ghost use Rattle.pals_model.specs.Delays.{AreDelays};
ghost use Rattle.bus_machine.specs.Agreement.{Agrees};
ghost use Rattle.bus_machine.specs.Replay.{Replays};
ghost use Rattle.bus_machine.specs.Plans.{plan_of};
ghost use Rattle.bus_machine.specs.BusStates.{node_at, flight_at};
ghost use Rattle.bus_machine.specs.ActionsAndTargets.{next_of};
ghost use Rattle.pals_model.specs.Flights.{oldest};
ghost use Rattle.pals_bus.specs.proof.StepCodesOfNodes.{codes_in, AreCodes};
ghost use Rattle.pals_bus.specs.proof.OpeningNodes.{opening_bus, AreOpening};

use crate::bus_fields::BusFields;
use crate::node_list::NodeList;
use crate::opening::{empty_flights, empty_queues, fresh_nodes, opening_nodes, room_for_values};
use crate::outgoing_links::Outgoing;
use crate::run_parameters::Run;
use bus_machine::{Next, Plan};
use pals_base::{ItemList, LinkNo, NoMemory, NodeNo, Same, TryClone};
use pals_model::{Delays, Design, Env, FlightCopy, Part};
use pals_runs::{JournalEntry, Phase, Stop};
use std::alloc::Global;
use std::marker::Model;
use std::sync::Arc;
use step_code::Code;

/// The bus of a run. Contracts see what the run is of, the codes of its nodes, the state of the bus
/// machine, and the journal. The journal replays to the state, so the nodes, slots and flights agree
/// with the composition. A refused call leaves it as it was.
pub struct Bus {
    pub(crate) fields: BusFields,
}

impl Drop for Bus {
    fn drop(self) {
        let Bus { fields: _ } = self;
    }
}

impl Model for Bus {
    ghost use Rattle.pals_bus.specs.BusValues.{BusValue};

    ghost Value = { BusValue };

    ghost use Rattle.pals_bus.specs.proof.Codes.{bus_code};

    ghost coded = { bus_code };

    ghost use Rattle.pals_bus.specs.proof.BusInvariant.{IsBusInvariant, value_of};

    ghost view = { λ b. value_of b.fields };

    ghost invariant = { λ b. IsBusInvariant b.fields };
}

impl Bus {
    /// A run before its first event: of a design with the codes of its components, for `rounds`
    /// rounds, with these values of the root in ports and these delays of the links.
    pub fn new(
        alloc: Global,
        design: Arc<Design>,
        codes: ItemList<Code>,
        env: Env,
        rounds: u32,
        delays: Delays,
        meeting: bool,
    ) -> Result<Bus, NoMemory>
        requires some { 1 ≤ rounds }
        requires most { rounds ≤ ROUNDS }
        requires delays { AreDelays (length (arc_value design).links) delays }
        requires codes { AreCodes (arc_value design) codes }
        ensures { IfOk result (λ bus. bus ≡ opening_bus
            (record { design = arc_value design; env = env; rounds = rounds; delays = delays }) codes meeting) }
    {
        let nodes = opening_nodes(alloc, &design, codes, rounds)?;
        let run = Run {
            design,
            env,
            rounds,
            delays,
        };
        Bus::open(alloc, run, meeting, nodes)
    }

    // A run before its first event, of nodes before theirs.
    fn open(alloc: Global, run: Run, meeting: bool, nodes: NodeList) -> Result<Bus, NoMemory>
        requires some { 1 ≤ run.rounds }
        requires most { run.rounds ≤ ROUNDS }
        requires delays { AreDelays (length (arc_value run.design).links) run.delays }
        requires codes { AreCodes (arc_value run.design) (codes_in nodes) }
        requires nodes { AreOpening (arc_value run.design) (codes_in nodes) run.rounds nodes }
        ensures { IfOk result (λ bus. bus ≡ opening_bus
            (record { design = arc_value run.design; env = run.env; rounds = run.rounds; delays = run.delays })
            (codes_in nodes) meeting) }
    {
        let values = room_for_values(alloc, &run.env)?;
        let outgoing = Outgoing::new(alloc, &run.design)?;
        let flights = empty_flights(alloc, &run.design)?;
        let queues = empty_queues(alloc, nodes.as_slice())?;
        let Run {
            design,
            env,
            rounds,
            delays,
        } = run;
        Ok(Bus {
            fields: BusFields {
                alloc,
                design,
                outgoing,
                env,
                rounds,
                delays,
                meeting,
                closed: false,
                nodes,
                flights,
                queues,
                stop: None,
                journal: Vec::new(alloc),
                values,
            },
        })
    }

    /// What every bus keeps: it agrees with the composition, its journal replays to it, and the codes
    /// of its nodes mean what their components do.
    pub fn agreement(&self)
        ensures replays { Replays self.now.run self.now.journal self.now.state }
        ensures agrees { Agrees self.now.run self.now.state }
        ensures rounds { (1 ≤ self.now.run.rounds) × (self.now.run.rounds ≤ ROUNDS) }
        ensures nodes { length self.now.state.nodes ≡ length self.now.run.design.components }
        ensures delays { AreDelays (length self.now.run.design.links) self.now.run.delays }
        ensures codes { AreCodes self.now.run.design self.now.codes }
    {
        let _closed = self.fields.closed;
    }

    /// The design that the run is of.
    pub fn design(&self) -> &Design
        ensures { result.now ≡ self.now.run.design }
    {
        &self.fields.design
    }

    /// How many rounds the run has.
    pub fn rounds(&self) -> u32
        ensures { result ≡ self.now.run.rounds }
    {
        self.fields.rounds
    }

    /// Whether its nodes meet.
    pub fn meeting(&self) -> bool
        ensures { result ≡ self.now.meeting }
    {
        self.fields.meeting
    }

    /// What happened so far.
    pub fn journal(&self) -> &[JournalEntry]
        ensures { result.now ≡ self.now.journal }
    {
        self.fields.journal.as_slice()
    }

    /// The stop that ended the run, if one did.
    pub fn stop(&self) -> Option<Stop>
        ensures { result ≡ self.now.state.stop }
    {
        self.fields.stop
    }

    /// Whether the run is closed.
    pub fn closed(&self) -> bool
        ensures { result ≡ self.now.closed }
    {
        self.fields.closed
    }

    /// Closes the run, and changes nothing else.
    pub fn close(&mut self)
        ensures { self.new ≡ record self.old { closed = true } }
    {
        self.fields.closed = true;
    }

    /// The part of the design that a node needs: when it may act, its inputs and its outputs.
    pub fn plan(&self, node: NodeNo) -> &Plan
        requires { node.0 < length self.now.run.design.components }
        ensures { result.now ≡ plan_of self.now.run.design node.0 }
    {
        self.fields.nodes[node.0 as usize].plan()
    }

    /// How many rounds a node has started.
    pub fn count(&self, node: NodeNo) -> u32
        requires { node.0 < length self.now.run.design.components }
        ensures { result ≡ (node_at self.now.state node.0).count }
    {
        self.fields.nodes[node.0 as usize].count()
    }

    /// What a node is doing.
    pub fn phase(&self, node: NodeNo) -> Phase
        requires { node.0 < length self.now.run.design.components }
        ensures { result ≡ (node_at self.now.state node.0).phase }
    {
        self.fields.nodes[node.0 as usize].phase()
    }

    /// Whether the last round that a node started is sent; true before its first one.
    pub fn sent(&self, node: NodeNo) -> bool
        requires { node.0 < length self.now.run.design.components }
        ensures { result ≡ (node_at self.now.state node.0).sent }
    {
        self.fields.nodes[node.0 as usize].sent()
    }

    /// What a node does next, and from which reading on: a start, a step or a send. None where the
    /// job of a step is out, or all its rounds are done.
    pub fn next(&self, node: NodeNo) -> Option<Next>
        requires { node.0 < length self.now.run.design.components }
        ensures { result ≡ next_of (plan_of self.now.run.design node.0) (node_at self.now.state node.0) }
    {
        self.fields.nodes[node.0 as usize].next()
    }

    /// How many rounds a node has finished.
    pub fn finished(&self, node: NodeNo) -> u32
        requires { node.0 < length self.now.run.design.components }
        ensures { result ≡ length (node_at self.now.state node.0).parts }
    {
        self.agreement();
        self.fields.nodes[node.0 as usize].parts().len() as u32
    }

    /// The part of a node in a round; `None` if it has not finished the round.
    pub fn part(&self, node: NodeNo, round: u32) -> Option<&Part>
        requires { node.0 < length self.now.run.design.components }
        ensures { option_copied result ≡ slice_get (node_at self.now.state node.0).parts round }
    {
        self.fields.nodes[node.0 as usize]
            .parts()
            .get(round as usize)
    }

    /// The oldest copy of a round that is in flight on a link, or `None`.
    pub fn in_flight(&self, link: LinkNo, round: u32) -> Option<&FlightCopy>
        requires { link.0 < length self.now.run.design.links }
        ensures { option_copied result ≡ oldest round (flight_at self.now.state link.0) }
    {
        self.fields.flights[link.0 as usize].flight_oldest(round)
    }

    /// The run of this bus before its first event, not closed.
    pub fn fresh(&self, alloc: Global) -> Result<Bus, NoMemory>
        ensures { IfOk result (λ bus. bus ≡ opening_bus self.now.run self.now.codes self.now.meeting) }
    {
        let f = &self.fields;
        let design = Arc::try_clone(&f.design)?;
        let env = f.env.try_clone(alloc)?;
        let delays = f.delays.try_clone(alloc)?;
        let run = Run {
            design,
            env,
            rounds: f.rounds,
            delays,
        };
        let nodes = fresh_nodes(alloc, f.nodes.as_slice())?;
        Bus::open(alloc, run, f.meeting, nodes)
    }

    /// Whether another bus belongs to the same run: to an equal design, with equal values of the root in
    /// ports, for as many rounds, with equal delays, and both with or both without virtual time.
    pub fn same_run(&self, other: &Bus) -> bool
        ensures { IsTrue result ↔ ((self.now.run ≡ other.now.run) × (self.now.meeting ≡ other.now.meeting)) }
    {
        let (f, g) = (&self.fields, &other.fields);
        f.design.same(&g.design)
            && f.env.same(&g.env)
            && f.rounds == g.rounds
            && f.delays.same(&g.delays)
            && f.meeting == g.meeting
    }
}
