//! The fused composition after some rounds.
ghost use Rattle.std.specs.Prelude.{◌≡◌, ◌<◌, IfOk, IfErr, OnOk, OnErr, Some, length, slice_get};
ghost use Rattle.std.specs.Arc.{arc_value};
ghost use Rattle.pals_model.specs.DesignRules.{IsDesign};
ghost use Rattle.plant_fuse.specs.FusedComposition.{ArePairs};
ghost use Rattle.plant_fuse.specs.proof.Fusibility.{IsEnd};
ghost use Rattle.plant_fuse.specs.proof.FuseState.{begun, IsAdvanced};

use crate::design_tables::Tables;
use crate::fuse_failure::FuseEnd;
use crate::fusibility::first_bad;
use crate::messages::send_all;
use crate::round::run_all;
use pals_base::{ItemList, LinkNo, NoMemory, NodeNo, PortValue, Tuple};
use pals_model::{Design, Part};
use pals_runs::Pair;
use std::alloc::Global;
use std::marker::Model;
use std::mem::swap;
use std::sync::Arc;
use sync_product::component_stage::Stage;
use sync_product::opening::{opening_messages, opening_parts, stages};
use sync_product::round_inputs::RoundInputs;

/// The fused composition of a design and its pairs after some rounds: its configuration, and the parts of
/// the components in the last round. Its model also has the design and the pairs. It has its memory twice:
/// a round is computed in the other half, which then becomes the current one.
pub struct FuseProduct {
    design: Arc<Design>,
    tables: Tables,
    stages: Vec<Stage>,
    parts: ItemList<Part>,
    messages: ItemList<Tuple>,
    next_parts: ItemList<Part>,
    next_messages: ItemList<Tuple>,
}

// By hand, so that dropping a product is one call, which the crates above cite.
impl Drop for FuseProduct {
    fn drop(self) {
        let FuseProduct {
            design: _,
            tables: _,
            stages: _,
            parts: _,
            messages: _,
            next_parts: _,
            next_messages: _,
        } = self;
    }
}

impl Model for FuseProduct {
    ghost use Rattle.plant_fuse.specs.proof.FuseState.{FuseState, state_code};

    ghost Value = { FuseState };

    ghost coded = { state_code };

    ghost use Rattle.std.specs.Arc.{arc_value};
    ghost use Rattle.sync_product.specs.proof.Rounds.{frames_of};
    ghost use Rattle.sync_product.specs.proof.ProductInvariant.{HasRoom};
    ghost use Rattle.plant_fuse.specs.proof.ProductInvariant.{IsReady};

    ghost view = { λ p. record {
      design = arc_value p.design;
      pairs = p.tables.pairs;
      configuration = record { frames = frames_of p.parts; messages = p.messages };
      parts = p.parts;
    } };

    ghost invariant = { λ p.
        IsReady (arc_value p.design) p.tables p.stages.items
        × HasRoom (arc_value p.design) p.parts p.messages
        × HasRoom (arc_value p.design) p.next_parts p.next_messages };
}

impl FuseProduct {
    /// The fused composition before the first round, or the first pair that cannot be fused.
    pub fn new(
        alloc: Global,
        design: Arc<Design>,
        pairs: ItemList<Pair>,
    ) -> Result<FuseProduct, FuseEnd>
        ensures ok { IfOk result (λ product. product ≡ begun (arc_value design) pairs) }
        ensures pairs { OnOk result (ArePairs (arc_value design) pairs) }
        ensures rules { OnOk result (IsDesign (arc_value design)) }
        ensures end { IfErr result (IsEnd (arc_value design) pairs) }
    {
        if let Some(index) = first_bad(design.parts(), pairs.as_slice()) {
            return Err(FuseEnd::BadPair { index });
        }
        match FuseProduct::begun(alloc, design, pairs) {
            Ok(product) => Ok(product),
            Err(_) => Err(FuseEnd::Memory),
        }
    }

    // The fused composition before the first round, for pairs that can be fused.
    fn begun(
        alloc: Global,
        design: Arc<Design>,
        pairs: ItemList<Pair>,
    ) -> Result<FuseProduct, NoMemory>
        requires { ArePairs (arc_value design) pairs }
        ensures { IfOk result (λ product. product ≡ begun (arc_value design) pairs) }
    {
        let tables = Tables::new(alloc, &design, pairs)?;
        let stages = stages(alloc, &design)?;
        let parts = opening_parts(alloc, &design, tables.wiring.taps.as_slice())?;
        let messages = opening_messages(alloc, &design)?;
        let next_parts = opening_parts(alloc, &design, tables.wiring.taps.as_slice())?;
        let next_messages = opening_messages(alloc, &design)?;
        Ok(FuseProduct {
            design,
            tables,
            stages,
            parts,
            messages,
            next_parts,
            next_messages,
        })
    }

    /// Advances by one round. The values are the values of the root in ports in this round, in the order of
    /// the design's feeds, each name at its first occurrence; a missing value at the end is absent, and
    /// values past the last port are ignored. If memory runs out, nothing
    /// changes.
    pub fn advance(&mut self, values: &[PortValue]) -> Result<(), NoMemory>
        ensures ok { OnOk result (IsAdvanced self.old values.now self.new) }
        ensures err { OnErr result (self.new ≡ self.old) }
    {
        let round = RoundInputs {
            design: &self.design,
            values,
            messages: self.messages.as_slice(),
        };
        run_all(
            round,
            &self.tables,
            self.parts.as_slice(),
            &mut self.stages,
            &mut self.next_parts,
        )?;
        send_all(
            &self.design,
            &self.tables,
            self.stages.as_slice(),
            &mut self.next_messages,
        );
        swap(&mut self.parts, &mut self.next_parts);
        swap(&mut self.messages, &mut self.next_messages);
        Ok(())
    }

    /// The design.
    pub fn design(&self) -> &Design
        ensures { result.now ≡ self.now.design }
    {
        &self.design
    }

    /// What the components left in the last round, by their numbers.
    pub fn parts(&self) -> &[Part]
        ensures { result.now ≡ self.now.parts }
    {
        self.parts.as_slice()
    }

    /// What a component left in the last round: its frame, and the whole tuple of each of its taps.
    pub fn part(&self, node: NodeNo) -> &Part
        requires { node.0 < length self.now.design.components }
        ensures { slice_get self.now.parts node.0 ≡ Some result.now }
    {
        &self.parts.as_slice()[node.0 as usize]
    }

    /// A link's message of the last round, whole inside a pair.
    pub fn message(&self, link: LinkNo) -> &Tuple
        requires { link.0 < length self.now.design.links }
        ensures { slice_get self.now.configuration.messages link.0 ≡ Some result.now }
    {
        &self.messages.as_slice()[link.0 as usize]
    }
}
