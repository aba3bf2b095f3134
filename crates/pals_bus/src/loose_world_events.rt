//! The events of a loose world, which has no time: messages may be lost, repeated and reordered.
ghost use Rattle.std.specs.Prelude.{◌≡◌, ◌<◌, length, false, OnOk, IfErr};
ghost use Rattle.pals_runs.specs.declared.events_and_faults.Event.TheVariants as event;
ghost use Rattle.pals_bus.specs.LooseEvents.{IsNamedIn, GoesOn};
ghost use Rattle.pals_bus.specs.proof.LooseStopsAndFaults.{LooseEnds};

use crate::bus::Bus;
use crate::loose_faults::{
    LooseFault, finish_fault, link_fault, send_fault, start_fault, step_fault,
};
use pals_base::{LinkNo, NodeNo};
use pals_runs::Event;

/// Executes an event of a loose world, whose nodes are not in virtual time. The job of a start or a step is dropped,
/// and a finish runs it. An error is an event that is refused, and leaves the bus unchanged, or a stop: an earlier
/// one, or the one that the event gives.
pub fn apply_loose(bus: &mut Bus, event: &Event) -> Result<(), LooseFault>
    requires names { IsNamedIn bus.old.run.design event.now }
    requires loose { bus.old.meeting ≡ false }
    ensures ok { OnOk result (GoesOn bus.old event.now bus.new) }
    ensures end { IfErr result (λ end. LooseEnds bus.old event.now bus.new end) }
{
    match *event {
        Event::Pass { .. } => match bus.stop() {
            None => Err(LooseFault::Timed),
            Some(stop) => Err(LooseFault::Stopped(stop)),
        },
        Event::Start(node) => start_loose(bus, node),
        Event::Step(node) => step_loose(bus, node),
        Event::Finish(node) => finish_loose(bus, node),
        Event::Send(node) => send_loose(bus, node),
        Event::Arrive(link, round) => arrive_loose(bus, link, round),
        Event::Drop(link, round) => drop_loose(bus, link, round),
        Event::Repeat(link, round) => repeat_loose(bus, link, round),
    }
}

// A node starts its next round.
fn start_loose(bus: &mut Bus, node: NodeNo) -> Result<(), LooseFault>
    requires node { node.0 < length bus.old.run.design.components }
    requires loose { bus.old.meeting ≡ false }
    ensures ok { OnOk result (GoesOn bus.old (event.Start node) bus.new) }
    ensures end { IfErr result (λ end. LooseEnds bus.old (event.Start node) bus.new end) }
{
    if let Err(end) = bus.start(node, None) {
        return Err(start_fault(end, node));
    }
    Ok(())
}

// A node starts the next step of its round.
fn step_loose(bus: &mut Bus, node: NodeNo) -> Result<(), LooseFault>
    requires node { node.0 < length bus.old.run.design.components }
    requires loose { bus.old.meeting ≡ false }
    ensures ok { OnOk result (GoesOn bus.old (event.Step node) bus.new) }
    ensures end { IfErr result (λ end. LooseEnds bus.old (event.Step node) bus.new end) }
{
    if let Err(end) = bus.step(node, None) {
        return Err(step_fault(end, node));
    }
    Ok(())
}

// A node finishes the step that is out.
fn finish_loose(bus: &mut Bus, node: NodeNo) -> Result<(), LooseFault>
    requires { node.0 < length bus.old.run.design.components }
    ensures ok { OnOk result (GoesOn bus.old (event.Finish node) bus.new) }
    ensures end { IfErr result (λ end. LooseEnds bus.old (event.Finish node) bus.new end) }
{
    if let Err(end) = bus.finish_here(node) {
        return Err(finish_fault(end, node));
    }
    Ok(())
}

// A node sends its round.
fn send_loose(bus: &mut Bus, node: NodeNo) -> Result<(), LooseFault>
    requires node { node.0 < length bus.old.run.design.components }
    requires loose { bus.old.meeting ≡ false }
    ensures ok { OnOk result (GoesOn bus.old (event.Send node) bus.new) }
    ensures end { IfErr result (λ end. LooseEnds bus.old (event.Send node) bus.new end) }
{
    if let Err(end) = bus.send(node, None) {
        return Err(send_fault(end, node));
    }
    Ok(())
}

// A message arrives, and may stop the run.
fn arrive_loose(bus: &mut Bus, link: LinkNo, round: u32) -> Result<(), LooseFault>
    requires { link.0 < length bus.old.run.design.links }
    ensures ok { OnOk result (GoesOn bus.old (event.Arrive link round) bus.new) }
    ensures end { IfErr result (λ end. LooseEnds bus.old (event.Arrive link round) bus.new end) }
{
    if let Err(end) = bus.deliver(link, round, None) {
        return Err(link_fault(end, link, round));
    }
    if let Some(stop) = bus.stop() {
        return Err(LooseFault::Stopped(stop));
    }
    Ok(())
}

// A message is lost.
fn drop_loose(bus: &mut Bus, link: LinkNo, round: u32) -> Result<(), LooseFault>
    requires { link.0 < length bus.old.run.design.links }
    ensures ok { OnOk result (GoesOn bus.old (event.Drop link round) bus.new) }
    ensures end { IfErr result (λ end. LooseEnds bus.old (event.Drop link round) bus.new end) }
{
    if let Err(end) = bus.drop_message(link, round) {
        return Err(link_fault(end, link, round));
    }
    Ok(())
}

// A message comes twice.
fn repeat_loose(bus: &mut Bus, link: LinkNo, round: u32) -> Result<(), LooseFault>
    requires { link.0 < length bus.old.run.design.links }
    ensures ok { OnOk result (GoesOn bus.old (event.Repeat link round) bus.new) }
    ensures end { IfErr result (λ end. LooseEnds bus.old (event.Repeat link round) bus.new end) }
{
    if let Err(end) = bus.repeat_message(link, round) {
        return Err(link_fault(end, link, round));
    }
    Ok(())
}
