//! What a node is given: the plan of its component, and the code of its steps.
ghost use Rattle.std.specs.Prelude.{◌≡◌, ◌<◌, IfOk, length, map};
ghost use Rattle.step_code.specs.proof.CodeMatchesBehaviour.{Means};
ghost use Rattle.bus_machine.specs.Plans.{component_at, input_of, plan_of};
ghost use Rattle.pals_model.specs.ComponentInputs.{sources_of};
ghost use Rattle.pals_node.specs.proof.NodeAndJobValues.{program_of};
ghost use Rattle.pals_node.specs.proof.NodeInvariants.{IsProgram};

use bus_machine::{Input, Plan};
use pals_base::period_bound_and_releases::step_period;
use pals_base::{ItemList, NoMemory, NodeNo, TryClone};
use pals_model::port_sources::all_sources;
use pals_model::{Component, Design, PortSource};
use std::alloc::Global;
use std::marker::Model;
use step_code::Code;

/// The plan of one node with the code of its component, which means the component's behaviour.
pub struct NodePlan {
    pub(crate) plan: Plan,
    pub(crate) code: Code,
}

impl Drop for NodePlan {
    fn drop(self) {
        let NodePlan { plan: _, code: _ } = self;
    }
}

impl Model for NodePlan {
    ghost use Rattle.pals_node.specs.proof.NodeAndJobValues.{Program};

    ghost Value = { Program };

    ghost use Rattle.pals_node.specs.proof.Codes.{program_code};

    ghost coded = { program_code };

    ghost use Rattle.pals_node.specs.proof.NodeInvariants.{IsProgram};

    ghost view = { λ p. record { plan = p.plan; code = p.code } };

    ghost invariant = { λ p. IsProgram (record { plan = p.plan; code = p.code }) };
}

impl NodePlan {
    /// The configuration of a design's node. The code means its component's behaviour.
    pub fn new(
        alloc: Global,
        design: &Design,
        node: NodeNo,
        code: Code,
    ) -> Result<NodePlan, NoMemory>
        requires node { node.0 < length design.now.components }
        requires means { Means code (component_at design.now node.0).behaviour }
        ensures { IfOk result (λ p. p ≡ program_of design.now node.0 code) }
    {
        let component = &design.components()[node.0 as usize];
        let plan = plan_for(alloc, design, node, component)?;
        Ok(NodePlan { plan, code })
    }

    /// The plan and the code, and what they keep.
    pub(crate) fn rules(&self)
        ensures { IsProgram self.now }
    {
        let _rate = self.plan.rate;
    }
}

// The plan of a component.
fn plan_for(
    alloc: Global,
    design: &Design,
    node: NodeNo,
    component: &Component,
) -> Result<Plan, NoMemory>
    requires node { node.0 < length design.now.components }
    requires component { component.now ≡ component_at design.now node.0 }
    ensures { IfOk result (λ plan. plan ≡ plan_of design.now node.0) }
{
    let gamma = design.gamma();
    let period = design.period();
    let rate = component.rate;
    Ok(Plan {
        node,
        rate,
        inputs: inputs_of(alloc, design, node)?,
        out_links: out_ports(alloc, design, node)?,
        taps: tap_ports(alloc, design, node)?,
        behaviour: component.behaviour.try_clone(alloc)?,
        period,
        step_period: step_period(period, rate),
        sent_steps: gamma.sent_steps(period, rate),
        release_offset: gamma.release_offset(period, rate) as u64,
    })
}

// What each in port brings.
fn inputs_of(alloc: Global, design: &Design, node: NodeNo) -> Result<ItemList<Input>, NoMemory>
    requires { node.0 < length design.now.components }
    ensures { IfOk result (λ inputs. inputs ≡ map (input_of design.now)
        (sources_of design.now node.0 (component_at design.now node.0))) }
{
    let table = all_sources(alloc, design)?;
    let mut inputs = ItemList::new(alloc);
    for source in table[node.0 as usize].as_slice() {
        inputs.push(input_of(design, *source))?;
    }
    Ok(inputs)
}

// What an in port with this source brings.
fn input_of(design: &Design, source: PortSource) -> Input
    ensures { result ≡ input_of design.now source }
{
    match source {
        PortSource::Nothing => Input::Nothing,
        PortSource::Feed(feed, root) => match design.feeds().get(feed) {
            None => Input::Nothing,
            Some(feed) => Input::Root {
                root,
                adaptor: feed.adaptor,
            },
        },
        PortSource::Link(link) => match design.links().get(link) {
            None => Input::Nothing,
            Some(link) => Input::Link {
                rate: design.parts().rate(link.source),
                adaptor: link.adaptor,
            },
        },
    }
}

// The out port of each link from a node.
fn out_ports(alloc: Global, design: &Design, node: NodeNo) -> Result<ItemList<u32>, NoMemory>
    ensures { IfOk result (λ ports. ports ≡ (plan_of design.now node.0).out_links) }
{
    let mut ports = ItemList::new(alloc);
    for link in design.links() {
        if link.source == node {
            ports.push(link.out_port)?;
        }
    }
    Ok(ports)
}

// The out port of each tap of a node.
fn tap_ports(alloc: Global, design: &Design, node: NodeNo) -> Result<ItemList<u32>, NoMemory>
    ensures { IfOk result (λ ports. ports ≡ (plan_of design.now node.0).taps) }
{
    let mut ports = ItemList::new(alloc);
    for tap in design.taps() {
        if tap.source == node {
            ports.push(tap.out_port)?;
        }
    }
    Ok(ports)
}
