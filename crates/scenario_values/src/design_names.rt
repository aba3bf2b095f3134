//! The names of a design, in tables that are searched in time in line with a name and the tables' depth.
ghost use Rattle.std.specs.Prelude.{◌≡◌, [], IfOk, map, string_bytes};
ghost use Rattle.pals_model.specs.declared.design.Component.{Component};
ghost use Rattle.pals_model.specs.declared.design.Feed.{Feed};
ghost use Rattle.pals_model.specs.ComponentInputs.{new_names};
ghost use Rattle.pals_model.specs.ComponentAndLinkNames.{link_name};
ghost use Rattle.scenario_values.specs.proof.NameTables.{Numbers};

use crate::ScenarioFault;
use crate::placed_faults::{Place, unknown};
use indexmap::IndexSet;
use pals_base::{Kind, LinkNo, NoMemory, NodeNo, Text, TryClone};
use pals_model::{Component, Design, DesignParts, Feed, Link};
use std::alloc::Global;
use std::collections::BTreeMap;
use std::marker::Model;

/// A design with tables of its names. Contracts see the design.
#[derive(Drop)]
pub struct DesignNames<'a> {
    design: &'a Design,
    nodes: BTreeMap<String, usize>,
    links: BTreeMap<String, usize>,
    feeds: BTreeMap<String, usize>,
    roots: IndexSet<Text>,
}

impl<'a> Model for DesignNames<'a> {
    ghost use Rattle.pals_model.specs.declared.design.DesignParts.{DesignParts};

    ghost Value = { DesignParts };

    ghost use Rattle.pals_model.specs.contracts.design.DesignParts.{the_row};

    ghost coded = { the_row.coded };

    ghost view = { λ names. names.design.now };

    ghost use Rattle.scenario_values.specs.proof.NameTables.{AreTables};

    ghost invariant = { λ names. AreTables names.design.now names.nodes names.links names.feeds names.roots.keys };
}

// The first number of each name: the last name goes in first, and each goes over a later one.
fn numbers(alloc: Global, names: Vec<String>) -> Result<BTreeMap<String, usize>, NoMemory>
    ensures { IfOk result (λ table. Numbers table 0 (map string_bytes names.items)) }
{
    let mut names = names;
    let mut table = BTreeMap::new(alloc);
    while let Some(name) = names.pop() {
        table.insert(name, names.len())?;
    }
    Ok(table)
}

// The paths of components.
fn paths(alloc: Global, components: &[Component]) -> Result<Vec<String>, NoMemory>
    ensures { IfOk result (λ names. map string_bytes names.items ≡ map (λ (c : Component). c.path) components.now) }
{
    let mut names = Vec::new(alloc);
    for component in components {
        names.push(String::from_str(alloc, component.path.as_str())?)?;
    }
    Ok(names)
}

// The name of the in port that a link goes to.
fn link_name(alloc: Global, design: &DesignParts, link: &Link) -> Result<String, NoMemory>
    ensures { IfOk result (λ name. string_bytes name ≡ link_name design.now link.now) }
{
    let mut name = String::new(alloc);
    if let Some(component) = design.component(link.target) {
        name.push_str(component.path.as_str())?;
        name.push_str(".")?;
        if let Some(port) = component.behaviour.ins().get(link.in_port as usize) {
            name.push_str(port.name.as_str())?;
        }
    }
    Ok(name)
}

// The names of links.
fn link_names(alloc: Global, design: &DesignParts, links: &[Link]) -> Result<Vec<String>, NoMemory>
    ensures { IfOk result (λ names. map string_bytes names.items ≡ map (link_name design.now) links.now) }
{
    let mut names = Vec::new(alloc);
    for link in links {
        names.push(link_name(alloc, design, link)?)?;
    }
    Ok(names)
}

// The names of feeds.
fn feed_names(alloc: Global, feeds: &[Feed]) -> Result<Vec<String>, NoMemory>
    ensures { IfOk result (λ names. map string_bytes names.items ≡ map (λ (f : Feed). f.name) feeds.now) }
{
    let mut names = Vec::new(alloc);
    for feed in feeds {
        names.push(String::from_str(alloc, feed.name.as_str())?)?;
    }
    Ok(names)
}

// The root in ports: each name of a feed once, where it comes first.
fn root_names(alloc: Global, feeds: &[Feed]) -> Result<IndexSet<Text>, NoMemory>
    ensures { IfOk result (λ names. names.keys ≡ new_names [] (map (λ (f : Feed). f.name) feeds.now)) }
{
    let mut names = IndexSet::new(alloc);
    for feed in feeds {
        names.insert(feed.name.try_clone(alloc)?)?;
    }
    Ok(names)
}

impl<'a> DesignNames<'a> {
    ghost use Rattle.std.specs.Prelude.{◌≡◌, ◌<◌, IfOk, IfSome, length, option_map, option_copied, find, position};
    ghost use Rattle.std.specs.Prelude.{bytes_eq};
    ghost use Rattle.pals_model.specs.ComponentInputs.{root_inputs};
    ghost use Rattle.pals_model.specs.ComponentAndLinkNames.{node_named, link_named};
    ghost use Rattle.pals_model.specs.PortKindsAndRates.{root_kind};
    ghost use Rattle.pals_model.specs.DesignRules.{IsDesign};
    ghost use Rattle.pals_runs.specs.JournalLines.{node_word};
    ghost use Rattle.scenario_values.specs.ResultCombinators.{Answers, Shows};
    ghost use Rattle.scenario_values.specs.FaultPlaces.{place_text};
    ghost use Rattle.scenario_values.specs.NameLookup.{node_at, link_at, root_at};

    /// The tables of a design's names.
    pub fn new(alloc: Global, design: &'a Design) -> Result<DesignNames<'a>, NoMemory>
        ensures value { IfOk result (λ names. names ≡ design.now) }
        ensures rules { IsDesign design.now }
    {
        let parts = design.parts();
        let nodes = numbers(alloc, paths(alloc, design.components())?)?;
        let links = numbers(alloc, link_names(alloc, parts, design.links())?)?;
        let feeds = numbers(alloc, feed_names(alloc, design.feeds())?)?;
        let roots = root_names(alloc, design.feeds())?;
        Ok(DesignNames {
            design,
            nodes,
            links,
            feeds,
            roots,
        })
    }

    /// The design.
    pub fn design(&self) -> &Design
        ensures value { result.now ≡ self.now }
        ensures rules { IsDesign self.now }
    {
        self.design
    }

    /// The path of a component, empty if it does not exist.
    pub fn path(&self, node: usize) -> &str
        ensures { result.now ≡ node_word self.now node }
    {
        match self.design.parts().components.get(node) {
            Some(component) => component.path.as_str(),
            None => "",
        }
    }

    /// How many root in ports the design has.
    pub fn root_count(&self) -> usize
        ensures { result ≡ length (root_inputs self.now) }
    {
        self.roots.len()
    }

    /// The component of a path, if there is one.
    pub fn find_node(&self, path: &str) -> Option<NodeNo>
        ensures value { option_map (λ node. node.0) result ≡ node_named self.now path.now }
        ensures within { IfSome result (λ node. node.0 < length self.now.components) }
    {
        match self.nodes.get(path) {
            Some(number) => Some(NodeNo(*number as u32)),
            None => None,
        }
    }

    /// The component of a path.
    #[tactic(auto, unfolding(crate::specs::NameLookup::node_at))]
    pub fn node(&self, alloc: Global, place: Place<'_>, path: &str) -> Result<NodeNo, ScenarioFault>
        ensures value { Shows (λ node. node.0) (node_at (place_text place.entry) self.now path.now) result }
        ensures within { IfOk result (λ node. node.0 < length self.now.components) }
    {
        match self.find_node(path) {
            Some(node) => Ok(node),
            None => Err(unknown(alloc, place)),
        }
    }

    /// The link of a name, if there is one.
    pub fn find_link(&self, name: &str) -> Option<LinkNo>
        ensures value { option_map (λ link. link.0) result ≡ link_named self.now name.now }
        ensures within { IfSome result (λ link. link.0 < length self.now.links) }
    {
        match self.links.get(name) {
            Some(number) => Some(LinkNo(*number as u32)),
            None => None,
        }
    }

    /// The link of a name.
    #[tactic(auto, unfolding(crate::specs::NameLookup::link_at))]
    pub fn link(&self, alloc: Global, place: Place<'_>, name: &str) -> Result<LinkNo, ScenarioFault>
        ensures value { Shows (λ link. link.0) (link_at (place_text place.entry) self.now name.now) result }
        ensures within { IfOk result (λ link. link.0 < length self.now.links) }
    {
        match self.find_link(name) {
            Some(link) => Ok(link),
            None => Err(unknown(alloc, place)),
        }
    }

    // The place of a root in port among all, if there is one of this name.
    fn find_root(&self, name: &Text) -> Option<usize>
        ensures value { result ≡ position (bytes_eq name.now) (root_inputs self.now) }
        ensures within { IfSome result (λ root. root < length (root_inputs self.now)) }
    {
        self.roots.get_index_of(name)
    }

    /// The place of a root in port among all.
    #[tactic(auto, unfolding(crate::specs::NameLookup::root_at))]
    pub fn root(&self, alloc: Global, place: Place<'_>, name: &str) -> Result<usize, ScenarioFault>
        ensures value { Answers (root_at (place_text place.entry) self.now name.now) result }
        ensures within { IfOk result (λ root. root < length (root_inputs self.now)) }
    {
        let key = Text::from_str(alloc, name)?;
        match self.find_root(&key) {
            Some(root) => Ok(root),
            None => Err(unknown(alloc, place)),
        }
    }

    // The first feed of a name.
    fn find_feed(&self, name: &str) -> Option<&Feed>
        ensures { option_copied result ≡ find (λ feed. bytes_eq name.now feed.name) self.now.feeds }
    {
        match self.feeds.get(name) {
            Some(number) => self.design.parts().feeds.get(*number),
            None => None,
        }
    }

    /// The type of a root in port.
    pub fn root_kind(&self, name: &str) -> Kind
        ensures { result ≡ root_kind self.now name.now }
    {
        match self.find_feed(name) {
            None => Kind::Integer,
            Some(feed) => self.design.parts().in_kind(feed.target, feed.in_port),
        }
    }
}
