//! The composition of a design with replicas, round by round.
ghost use Rattle.std.specs.Prelude.{◌≡◌, ◌≤◌, ◌<◌, ◌-◌, [], All, IfOk, OnOk, OnErr, Some, length, slice_get};
ghost use Rattle.std.specs.Prelude.{slice_index_or};
ghost use Rattle.std.specs.Arc.{arc_value};
ghost use Rattle.pals_model.specs.declared.design.Link.{Link};
ghost use Rattle.triple_vote.specs.VotedComposition.{copies_of, frame_at, received_at};
ghost use Rattle.triple_vote.specs.proof.VoteLaws.{IsFault};
ghost use Rattle.triple_vote.specs.proof.VotedStates.{voted_begun, voted_advanced};

use crate::fault_table::{FaultTable, first_faults};
use crate::opening::opening_shown;
use crate::replica_layer::Layer;
use crate::tap_tuples::show_each;
use crate::three_layers::{opening_layers, opening_received, receive_each, run_each, swap_each};
use pals_base::{Frame, ItemList, LinkNo, NoMemory, NodeNo, PortValue, Tuple};
use pals_model::port_sources::all_sources;
use pals_model::{Design, PortSource};
use pals_runs::VoteFault;
use std::alloc::Global;
use std::marker::Model;
use std::sync::Arc;
use sync_product::component_stage::Stage;
use sync_product::opening::stages;

/// The composition of a design with three replicas of some components, after some rounds: the frame of
/// each replica, the message that each received on each link in the last round, and the values of each root
/// out port in it.
pub struct VoteProduct {
    alloc: Global,
    design: Arc<Design>,
    replicated: ItemList<bool>,
    sources: ItemList<ItemList<PortSource>>,
    stages: Vec<Stage>,
    layers: Vec<Layer>,
    received_messages: Vec<ItemList<Tuple>>,
    shown: ItemList<Tuple>,
}

// By hand, so that dropping a product is one call, which the crates above cite.
impl Drop for VoteProduct {
    fn drop(self) {
        let VoteProduct {
            alloc: _,
            design: _,
            replicated: _,
            sources: _,
            stages: _,
            layers: _,
            received_messages: _,
            shown: _,
        } = self;
    }
}

impl Model for VoteProduct {
    ghost use Rattle.triple_vote.specs.proof.VotedStates.{VotedState, voted_code};

    ghost Value = { VotedState };

    ghost coded = { voted_code };

    ghost use Rattle.std.specs.Arc.{arc_value};
    ghost use Rattle.triple_vote.specs.proof.ThreeLayers.{parts_in, voted_of};
    ghost use Rattle.triple_vote.specs.proof.ProductInvariant.{HasTables, HasReplicas};

    ghost view = { λ p. record {
      design = arc_value p.design;
      replicated = p.replicated;
      voted = voted_of (arc_value p.design) p.replicated (parts_in p.layers.items) p.received_messages.items;
      shown = p.shown;
    } };

    ghost invariant = { λ p.
        HasTables (arc_value p.design) p.replicated p.sources p.stages.items
        × HasReplicas (arc_value p.design) p.replicated p.layers.items p.received_messages.items p.shown };
}

impl VoteProduct {
    /// The composition before the first round, with three replicas of each component that is marked.
    pub fn new(
        alloc: Global,
        design: Arc<Design>,
        replicated: Vec<bool>,
    ) -> Result<VoteProduct, NoMemory>
        requires { length replicated.items ≡ length (arc_value design).components }
        ensures { IfOk result (λ product. product ≡ voted_begun (arc_value design) replicated.items) }
    {
        let sources = all_sources(alloc, &design)?;
        let stages = stages(alloc, &design)?;
        let layers = opening_layers(alloc, &design, replicated.as_slice())?;
        let received_messages = opening_received(alloc, &design)?;
        let shown = opening_shown(alloc, &design)?;
        Ok(VoteProduct {
            alloc,
            design,
            replicated: ItemList::from_vec(replicated),
            sources,
            stages,
            layers,
            received_messages,
            shown,
        })
    }

    /// Advances by one round. The values are the values of the root in ports in this round, as
    /// `Product::advance` of `sync_product` takes them. If a replica has a fault towards a reader, the reader
    /// gets the fault's values in place of the replica's own, and of two faults in one place the first. If
    /// memory runs out, nothing changes. After the first two rounds it allocates only if a loop runs that did
    /// not run before, and for the places of faults if there are any. Its time is linear in the design and
    /// the faults.
    pub fn advance(&mut self, values: &[PortValue], faults: &[VoteFault]) -> Result<(), NoMemory>
        requires { All (IsFault self.old.design) faults.now }
        ensures ok { OnOk result (self.new ≡ voted_advanced self.old values.now faults.now) }
        ensures err { OnErr result (self.new ≡ self.old) }
    {
        let links = self.design.links().len();
        let places = first_faults(self.alloc, faults, links)?;
        run_each(
            &self.design,
            values,
            self.received_messages.as_slice(),
            self.sources.as_slice(),
            &mut self.stages,
            &mut self.layers,
        )?;
        let replicated = self.replicated.as_slice();
        let layers = self.layers.as_slice();
        let table = FaultTable {
            faults,
            places: places.as_slice(),
        };
        receive_each(
            &self.design,
            replicated,
            table,
            layers,
            &mut self.received_messages,
        );
        show_each(&self.design, replicated, layers, &mut self.shown);
        swap_each(&mut self.layers);
        Ok(())
    }

    /// The design.
    pub fn design(&self) -> &Design
        ensures { result.now ≡ self.now.design }
    {
        &self.design
    }

    /// The frame of a replica, numbered from 1, after the last round.
    pub fn frame(&self, node: NodeNo, replica: u32) -> &Frame
        requires node { node.0 < length self.now.design.components }
        requires low { 1 ≤ replica }
        requires high { replica ≤ copies_of self.now.replicated node.0 }
        ensures { result.now ≡ frame_at self.now.voted node.0 (replica - 1) }
    {
        let layer = &self.layers[replica as usize - 1];
        &layer.parts.as_slice()[node.0 as usize].frame
    }

    /// What a replica of a link's target, numbered from 1, received in the last round: absent values
    /// before the first.
    pub fn received(&self, link: LinkNo, replica: u32) -> &Tuple
        requires low { 1 ≤ replica }
        requires high { (to : Link) → slice_get self.now.design.links link.0 ≡ Some to
            → replica ≤ copies_of self.now.replicated to.target.0 }
        requires link { link.0 < length self.now.design.links }
        ensures { result.now ≡ received_at self.now.voted link.0 (replica - 1) }
    {
        let tuples = &self.received_messages[replica as usize - 1];
        &tuples.as_slice()[link.0 as usize]
    }

    /// What a root out port showed in the last round, by its number among the taps: absent values before
    /// the first.
    pub fn out_tuple(&self, tap: u32) -> &Tuple
        requires { tap < length self.now.design.taps }
        ensures { result.now ≡ slice_index_or self.now.shown tap [] }
    {
        &self.shown.as_slice()[tap as usize]
    }

    /// What each root out port showed in the last round: absent values before the first.
    pub fn shown(&self) -> &[Tuple]
        ensures { result.now ≡ self.now.shown }
    {
        self.shown.as_slice()
    }
}
