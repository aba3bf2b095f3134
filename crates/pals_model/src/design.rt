//! A design, as its parts.
ghost use Rattle.std.specs.Prelude.{◌≡◌};

use pals_base::{Adaptor, Behaviour, Gamma, ItemList, Nanos, NodeNo, Text};
use std::marker::Model;

/// A thread of the flattened design: its path from the root, the number of its steps in a round,
/// and its behaviour.
pub struct Component {
    pub path: Text,
    pub rate: u32,
    pub behaviour: Behaviour,
}

impl Drop for Component {
    fn drop(self) {
        let Component {
            path: _,
            rate: _,
            behaviour: _,
        } = self;
    }
}

/// A delayed connection from an out port to an in port. Ports are numbered in the order of
/// declaration, out ports and in ports apart. An adaptor is given where the rates differ.
#[derive(Drop)]
pub struct Link {
    pub source: NodeNo,
    pub out_port: u32,
    pub target: NodeNo,
    pub in_port: u32,
    pub adaptor: Option<Adaptor>,
}

/// A chain from a root in port to an in port, read in the same round as a source of rate 1.
#[derive(Drop)]
pub struct Feed {
    pub name: Text,
    pub target: NodeNo,
    pub in_port: u32,
    pub adaptor: Option<Adaptor>,
}

/// A root out port, which shows the whole tuple of its source in the same round.
#[derive(Drop)]
pub struct Tap {
    pub name: Text,
    pub source: NodeNo,
    pub out_port: u32,
}

/// The parts of a design. The period and the bounds are in nanoseconds. Components are in
/// depth-first order of declaration, links and feeds in order of target and in port, taps in order
/// of the root out ports; `ignored` are the names of properties without a meaning here.
pub struct DesignParts {
    pub period: Nanos,
    pub gamma: Gamma,
    pub components: ItemList<Component>,
    pub links: ItemList<Link>,
    pub feeds: ItemList<Feed>,
    pub taps: ItemList<Tap>,
    pub ignored: ItemList<Text>,
}

// By hand, so that dropping it is one call in the crates above, and is proved once.
impl Drop for DesignParts {
    fn drop(self) {
        let DesignParts {
            period: _,
            gamma: _,
            components: _,
            links: _,
            feeds: _,
            taps: _,
            ignored: _,
        } = self;
    }
}

/// A design, which contracts see as its parts.
pub struct Design {
    parts: DesignParts,
}

impl Drop for Design {
    fn drop(self) {
        let Design { parts: _ } = self;
    }
}

impl Model for Design {
    ghost use Rattle.pals_model.specs.declared.design.DesignParts.{DesignParts};

    ghost Value = { DesignParts };

    ghost use Rattle.pals_model.specs.contracts.design.DesignParts.{the_row};

    ghost coded = { the_row.coded };

    ghost view = { λ design. design.parts };

    ghost use Rattle.pals_model.specs.DesignRules.{IsDesign};

    ghost invariant = { λ design. IsDesign design.parts };
}

impl Design {
    ghost use Rattle.pals_model.specs.DesignRules.{IsDesign};

    /// The design of these parts. Does not allocate.
    pub fn new(parts: DesignParts) -> Design
        requires { IsDesign parts }
        ensures { result ≡ parts }
    {
        Design { parts }
    }

    /// All parts at once.
    pub fn parts(&self) -> &DesignParts
        ensures value { result.now ≡ self.now }
        ensures rules { IsDesign self.now }
    {
        &self.parts
    }

    /// The period of the root system: one round, in nanoseconds.
    pub fn period(&self) -> Nanos
        ensures value { result ≡ self.now.period }
        ensures rules { IsDesign self.now }
    {
        self.parts.period
    }

    /// The bounds of clocks, execution and network.
    pub fn gamma(&self) -> Gamma
        ensures value { result ≡ self.now.gamma }
        ensures rules { IsDesign self.now }
    {
        self.parts.gamma
    }

    /// The components, by their numbers.
    pub fn components(&self) -> &[Component]
        ensures value { result.now ≡ self.now.components }
        ensures rules { IsDesign self.now }
    {
        self.parts.components.as_slice()
    }

    /// The links, by their numbers.
    pub fn links(&self) -> &[Link]
        ensures value { result.now ≡ self.now.links }
        ensures rules { IsDesign self.now }
    {
        self.parts.links.as_slice()
    }

    /// The feeds, by target and in port.
    pub fn feeds(&self) -> &[Feed]
        ensures value { result.now ≡ self.now.feeds }
        ensures rules { IsDesign self.now }
    {
        self.parts.feeds.as_slice()
    }

    /// The taps, by root out port.
    pub fn taps(&self) -> &[Tap]
        ensures value { result.now ≡ self.now.taps }
        ensures rules { IsDesign self.now }
    {
        self.parts.taps.as_slice()
    }

    /// The names of the properties that mean nothing, in order of first appearance.
    pub fn ignored(&self) -> &[Text]
        ensures value { result.now ≡ self.now.ignored }
        ensures rules { IsDesign self.now }
    {
        self.parts.ignored.as_slice()
    }
}
