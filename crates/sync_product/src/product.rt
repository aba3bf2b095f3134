//! The composition after some rounds.
ghost use Rattle.std.specs.Prelude.{◌≡◌, ◌<◌, IfOk, OnOk, OnErr, Some, length, slice_get};
ghost use Rattle.std.specs.Arc.{arc_value};
ghost use Rattle.sync_product.specs.proof.ProductStates.{begun, advanced};

use crate::component_stage::Stage;
use crate::messages::send_all;
use crate::opening::{opening_messages, opening_parts, stages};
use crate::round::run_all;
use crate::round_inputs::RoundInputs;
use crate::wiring::Wiring;
use pals_base::{ItemList, LinkNo, NoMemory, NodeNo, PortValue, Tuple};
use pals_model::{Design, Part};
use std::alloc::Global;
use std::marker::Model;
use std::mem::swap;
use std::sync::Arc;

/// The composition of a design after some rounds: its configuration, and the part of each component
/// in the last round. Its model also has the design. It has its memory twice: a round is computed in
/// the other half, which then becomes the current one.
pub struct Product {
    design: Arc<Design>,
    wiring: Wiring,
    stages: Vec<Stage>,
    parts: ItemList<Part>,
    messages: ItemList<Tuple>,
    next_parts: ItemList<Part>,
    next_messages: ItemList<Tuple>,
}

// By hand, so that dropping a product is one call, which the crates above cite.
impl Drop for Product {
    fn drop(self) {
        let Product {
            design: _,
            wiring: _,
            stages: _,
            parts: _,
            messages: _,
            next_parts: _,
            next_messages: _,
        } = self;
    }
}

impl Model for Product {
    ghost use Rattle.sync_product.specs.proof.ProductStates.{ProductState, state_code};

    ghost Value = { ProductState };

    ghost coded = { state_code };

    ghost use Rattle.std.specs.Arc.{arc_value};
    ghost use Rattle.sync_product.specs.proof.Rounds.{frames_of};
    ghost use Rattle.sync_product.specs.proof.ProductInvariant.{IsReady, HasRoom};

    ghost view = { λ p. record {
      design = arc_value p.design;
      configuration = record { frames = frames_of p.parts; messages = p.messages };
      parts = p.parts;
    } };

    ghost invariant = { λ p.
        IsReady (arc_value p.design) p.wiring p.stages.items
        × HasRoom (arc_value p.design) p.parts p.messages
        × HasRoom (arc_value p.design) p.next_parts p.next_messages };
}

impl Product {
    /// The composition before the first round.
    pub fn new(alloc: Global, design: Arc<Design>) -> Result<Product, NoMemory>
        ensures { IfOk result (λ product. product ≡ begun (arc_value design)) }
    {
        let wiring = Wiring::new(alloc, &design)?;
        let stages = stages(alloc, &design)?;
        let parts = opening_parts(alloc, &design, wiring.taps.as_slice())?;
        let messages = opening_messages(alloc, &design)?;
        let next_parts = opening_parts(alloc, &design, wiring.taps.as_slice())?;
        let next_messages = opening_messages(alloc, &design)?;
        Ok(Product {
            design,
            wiring,
            stages,
            parts,
            messages,
            next_parts,
            next_messages,
        })
    }

    /// Advances by one round. The values are the values of the root in ports in this round, in the
    /// order of the design's feeds, each name at its first occurrence; a missing value at the end is
    /// absent, and values past the last port are ignored. A port for truth values takes any
    /// number: 0 is false, and each other number is true. If memory runs out, nothing
    /// changes. After the first two rounds it allocates only if a loop runs that did not run
    /// before.
    pub fn advance(&mut self, values: &[PortValue]) -> Result<(), NoMemory>
        ensures ok { OnOk result (self.new ≡ advanced self.old values.now) }
        ensures err { OnErr result (self.new ≡ self.old) }
    {
        let round = RoundInputs {
            design: &self.design,
            values,
            messages: self.messages.as_slice(),
        };
        run_all(
            round,
            &self.wiring,
            self.parts.as_slice(),
            &mut self.stages,
            &mut self.next_parts,
        )?;
        send_all(
            &self.design,
            self.stages.as_slice(),
            &mut self.next_messages,
        );
        swap(&mut self.parts, &mut self.next_parts);
        swap(&mut self.messages, &mut self.next_messages);
        Ok(())
    }

    /// The design.
    pub fn design(&self) -> &Design
        ensures { result.now ≡ self.now.design }
    {
        &self.design
    }

    /// What the components left in the last round, by their numbers.
    pub fn parts(&self) -> &[Part]
        ensures { result.now ≡ self.now.parts }
    {
        self.parts.as_slice()
    }

    /// What a component left in the last round.
    pub fn part(&self, node: NodeNo) -> &Part
        requires { node.0 < length self.now.design.components }
        ensures { slice_get self.now.parts node.0 ≡ Some result.now }
    {
        &self.parts.as_slice()[node.0 as usize]
    }

    /// A link's message of the last round.
    pub fn message(&self, link: LinkNo) -> &Tuple
        requires { link.0 < length self.now.design.links }
        ensures { slice_get self.now.configuration.messages link.0 ≡ Some result.now }
    {
        &self.messages.as_slice()[link.0 as usize]
    }
}
