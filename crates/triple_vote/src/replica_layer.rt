//! A layer: its replicas, one of each component that has one of this number, with their frames, messages and tap
//! tuples.
ghost use Rattle.std.specs.Prelude.{◌≡◌, IfOk, OnOk, map};
ghost use Rattle.pals_model.specs.ComponentInputs.{all_sources};
ghost use Rattle.sync_product.specs.proof.ProductSizes.{stage_size, stage_sizes};
ghost use Rattle.triple_vote.specs.proof.ReplicaLayers.{HasRoom, IsOpened, StaysPut, IsMade, IsSwapped};

use crate::layer_rounds::{run_all, send_all, show_all};
use crate::opening::{opening_frames, opening_shown};
use pals_base::{ItemList, NoMemory, Tuple};
use pals_model::{Design, Part, PortSource};
use std::alloc::Global;
use std::mem::swap;
use sync_product::component_stage::Stage;
use sync_product::opening::opening_messages;
use sync_product::round_inputs::RoundInputs;

/// The replicas of one number: which components have one, their frames after the last round, room for their
/// frames after the next, and their results of a round: a message for each link, and the whole tuple for
/// each root out port. The values of a component without such a replica are meaningless.
pub struct Layer {
    pub there: ItemList<bool>,
    pub parts: ItemList<Part>,
    pub next: ItemList<Part>,
    pub sent: ItemList<Tuple>,
    pub shown: ItemList<Tuple>,
}

// By hand, so that dropping a layer is one call.
impl Drop for Layer {
    fn drop(self) {
        let Layer {
            there: _,
            parts: _,
            next: _,
            sent: _,
            shown: _,
        } = self;
    }
}

impl Layer {
    /// The replicas before the first round.
    pub fn new(alloc: Global, design: &Design, there: ItemList<bool>) -> Result<Layer, NoMemory>
        ensures { IfOk result (IsOpened design.now there) }
    {
        let parts = opening_frames(alloc, design)?;
        let next = opening_frames(alloc, design)?;
        let sent = opening_messages(alloc, design)?;
        let shown = opening_shown(alloc, design)?;
        Ok(Layer {
            there,
            parts,
            next,
            sent,
            shown,
        })
    }

    /// Computes a round from the received messages of these replicas; their state is unchanged.
    pub fn run(
        &mut self,
        round: RoundInputs,
        sources: &[ItemList<PortSource>],
        stages: &mut Vec<Stage>,
    ) -> Result<(), NoMemory>
        requires room { HasRoom round.design.now self.old }
        requires sources { sources.now ≡ all_sources round.design.now }
        requires stages { map stage_size stages.old.items ≡ stage_sizes round.design.now }
        ensures made { let made = round.entry in OnOk result
            (IsMade made.design.now made.values.now made.messages.now self.new) }
        ensures stays { StaysPut self.old self.new }
        ensures room { HasRoom round.entry.design.now self.new }
        ensures stages { map stage_size stages.new.items ≡ map stage_size stages.old.items }
    {
        run_all(
            round,
            sources,
            self.there.as_slice(),
            self.parts.as_slice(),
            stages,
            &mut self.next,
        )?;
        let there = self.there.as_slice();
        send_all(round.design, there, stages.as_slice(), &mut self.sent);
        show_all(round.design, there, stages.as_slice(), &mut self.shown);
        Ok(())
    }

    /// Goes over to the frames that the round made.
    pub fn turn(&mut self)
        ensures { IsSwapped self.old self.new }
    {
        swap(&mut self.parts, &mut self.next);
    }
}
