//! Why a start misses a message.
ghost use Rattle.std.specs.Prelude.{◌≡◌, ◌<◌, ◌≤◌, length, slice_index_or, position, option_copied, IfSome};
ghost use Rattle.std.specs.Prelude.{if◌then◌else◌};
ghost use Rattle.std.specs.Option.{unwrap_or};
ghost use Rattle.std.specs.Arc.{arc_value};
ghost use Rattle.pals_base.specs.declared.limits.TheConstants.{LINKS};
ghost use Rattle.pals_model.specs.ComponentInputs.{link_goes_to};
ghost use Rattle.bus_machine.specs.LinkEvents.{is_in_flight};
ghost use Rattle.bus_machine.specs.Machine.{missed_stop};
ghost use Rattle.bus_machine.specs.Plans.{no_link};
ghost use Rattle.bus_machine.specs.MissedMessages.{link_into, cause_of};
ghost use Rattle.bus_machine.specs.Nodes.{sent_rounds};
ghost use Rattle.pals_bus.specs.proof.BusInvariant.{IsBusInvariant, run_of, state_of, copies_in_option};

use crate::bus_fields::BusFields;
use link_buffers::Flight;
use pals_base::{LinkNo, Nanos, NodeNo};
use pals_model::Link;
use pals_node::Node;
use pals_runs::{Cause, Stop};

impl BusFields {
    /// The stop of a start that misses the message of the link into a port.
    pub fn missed_stop(&self, node: NodeNo, port: u32, reading: Option<Nanos>) -> Stop
        requires keeps { IsBusInvariant self.now }
        requires node { node.0 < length self.now.nodes }
        ensures { result ≡ missed_stop (run_of self.now) (state_of self.now) node reading
            (link_into (arc_value self.now.design) node.0 port) }
    {
        let round = self.round_in_hand(node);
        let link = link_into(self.design.links(), node, port);
        Stop::Missed {
            link,
            round,
            reading,
            cause: self.cause_of(link, round),
        }
    }

    // Why the message of a round is not there.
    fn cause_of(&self, link: LinkNo, round: u32) -> Cause
        requires keeps { IsBusInvariant self.now }
        requires some { 0 < length self.now.nodes }
        ensures { result ≡ cause_of (run_of self.now) (state_of self.now) link.0 round }
    {
        let source = source_of(self.design.links(), link);
        let sent = sent_rounds(&self.nodes[source.0 as usize]);
        let flying = is_in_flight(self.flights.get(link.0 as usize), round);
        cause_by(round < sent, flying)
    }
}

// Why a message is not there, from whether it was sent and whether it is in flight.
fn cause_by(sent: bool, flying: bool) -> Cause
    ensures { result ≡ (if sent then (if flying then Cause.InTransit else Cause.Lost) else Cause.NotSent) }
{
    if !sent {
        return Cause::NotSent;
    }
    if flying {
        Cause::InTransit
    } else {
        Cause::Lost
    }
}

// The link into an in port, the first one if there is none.
fn link_into(links: &[Link], node: NodeNo, port: u32) -> LinkNo
    requires { length links.now ≤ LINKS }
    ensures { result.0 ≡ unwrap_or (position (link_goes_to node.0 port) links.now) 0 }
{
    let number = place_of_link(links, node, port);
    LinkNo(number.unwrap_or(0) as u32)
}

// The place of the link into an in port.
fn place_of_link(links: &[Link], node: NodeNo, port: u32) -> Option<usize>
    ensures place { result ≡ position (link_goes_to node.0 port) links.now }
    ensures within { IfSome result (λ at. at < length links.now) }
{
    links
        .iter()
        .position(|link| link.target == node && link.in_port == port)
}

// The source of a link, the first node if there is no such link.
fn source_of(links: &[Link], number: LinkNo) -> NodeNo
    ensures { result ≡ (slice_index_or links.now number.0 no_link).source }
{
    match links.get(number.0 as usize) {
        None => NodeNo(0),
        Some(link) => link.source,
    }
}

// How many rounds a node has sent.
fn sent_rounds(node: &Node) -> u32
    ensures { result ≡ sent_rounds node.now.state }
{
    if node.sent() {
        node.count()
    } else {
        node.count().saturating_sub(1)
    }
}

// Whether a copy of a round is in a flight.
fn is_in_flight(flight: Option<&Flight>, round: u32) -> bool
    ensures { result ≡ is_in_flight round (copies_in_option (option_copied flight.entry)) }
{
    match flight {
        None => false,
        Some(flight) => flight.flight_oldest(round).is_some(),
    }
}
