//! Rates and types of a design's components and ports, by their numbers.
ghost use Rattle.std.specs.Prelude.{◌≡◌, slice_get, option_copied};
ghost use Rattle.pals_model.specs.PortKindsAndRates.{rate_of, kind_of, in_kind, out_kind};
ghost use Rattle.pals_model.specs.DesignRules.{greatest_rate};

use crate::design::{Component, DesignParts};
use pals_base::{Kind, NodeNo, PortDecl};

impl DesignParts {
    /// The component of a number; `None` past the end.
    pub fn component(&self, node: NodeNo) -> Option<&Component>
        ensures { option_copied result ≡ slice_get self.now.components node.0 }
    {
        self.components.get(node.0 as usize)
    }

    /// The rate of a component, 1 if it does not exist.
    pub fn rate(&self, node: NodeNo) -> u32
        ensures { result ≡ rate_of self.now node.0 }
    {
        match self.component(node) {
            None => 1,
            Some(component) => component.rate,
        }
    }

    /// The type of an in port; the type of numbers if there is no such port.
    pub fn in_kind(&self, node: NodeNo, port: u32) -> Kind
        ensures { result ≡ in_kind (slice_get self.now.components node.0) port }
    {
        match self.component(node) {
            None => Kind::Integer,
            Some(component) => kind_of(component.behaviour.ins().get(port as usize)),
        }
    }

    /// The type of an out port; the type of numbers if there is no such port.
    pub fn out_kind(&self, node: NodeNo, port: u32) -> Kind
        ensures { result ≡ out_kind (slice_get self.now.components node.0) port }
    {
        match self.component(node) {
            None => Kind::Integer,
            Some(component) => kind_of(component.behaviour.outs().get(port as usize)),
        }
    }
}

/// The maximum rate of some components, 1 if there are none.
pub fn greatest_rate(components: &[Component]) -> u32
    ensures { result ≡ greatest_rate components.now }
{
    components
        .iter()
        .fold(1, |greatest, component| greatest.max(component.rate))
}

fn kind_of(port: Option<&PortDecl>) -> Kind
    ensures { result ≡ kind_of (option_copied port.entry) }
{
    match port {
        None => Kind::Integer,
        Some(port) => port.kind,
    }
}
