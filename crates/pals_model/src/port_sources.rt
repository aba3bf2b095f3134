//! The source of each in port, found once for a design in time that is linear in its feeds,
//! links and ports.
ghost use Rattle.std.specs.Prelude.{◌≡◌, IfOk, [], map};
ghost use Rattle.pals_model.specs.ComponentInputs.{new_names, root_inputs, all_sources, place_of};
ghost use Rattle.pals_model.specs.proof.SourceTables.{table_of, nothing, fed_from, with_source};

use crate::design::{Component, Design, Feed, Link};
use indexmap::IndexSet;
use pals_base::{ItemList, NoMemory, NodeNo, Text, TryClone};
use std::alloc::Global;

/// The source of an in port: a link by its number; a feed by its number, with the index of its
/// root in port among all; or nothing.
#[derive(Clone, Copy)]
pub enum PortSource {
    Nothing,
    Feed(usize, usize),
    Link(usize),
}

// The root in ports: each name of a feed once, where it comes first.
fn root_names(alloc: Global, feeds: &[Feed]) -> Result<IndexSet<Text>, NoMemory>
    ensures { IfOk result (λ names. names.keys ≡ new_names [] (map (λ feed. feed.name) feeds.now)) }
{
    let mut names = IndexSet::new(alloc);
    for feed in feeds {
        names.insert(feed.name.try_clone(alloc)?)?;
    }
    Ok(names)
}

// The index of a name among others, 0 if it is not one of them.
fn place_of(names: &IndexSet<Text>, name: &Text) -> usize
    ensures { result ≡ place_of name.now names.now.keys }
{
    names.get_index_of(name).unwrap_or(0)
}

// A table with nothing for each in port.
fn empty_table(
    alloc: Global,
    components: &[Component],
) -> Result<ItemList<ItemList<PortSource>>, NoMemory>
    ensures { IfOk result (λ table. table ≡ table_of components.now nothing) }
{
    let mut table = ItemList::new(alloc);
    for component in components {
        let ports = component.behaviour.ins().len();
        table.push(ItemList::from_vec(vec![in alloc; PortSource::Nothing; ports]?))?;
    }
    Ok(table)
}

// Puts a source in the place of an in port, if the table has it.
fn set_source(
    table: &mut ItemList<ItemList<PortSource>>,
    node: NodeNo,
    port: u32,
    source: PortSource,
)
    ensures { table.new ≡ with_source table.old node.0 port source }
{
    let at = node.0 as usize;
    if at < table.len() {
        let ports = &mut table[at];
        if (port as usize) < ports.len() {
            ports[port as usize] = source;
        }
    }
}

// Puts the feeds into a table that has nothing; of two into one in port the first counts.
fn add_feeds(table: &mut ItemList<ItemList<PortSource>>, design: &Design, names: &IndexSet<Text>)
    requires names { names.now.keys ≡ root_inputs design.now }
    requires table { table.old ≡ table_of design.now.components nothing }
    ensures { table.new ≡ table_of design.now.components (fed_from design.now 0) }
{
    let feeds = design.feeds();
    for at in (0..feeds.len()).rev() {
        let feed = &feeds[at];
        let root = place_of(names, &feed.name);
        set_source(table, feed.target, feed.in_port, PortSource::Feed(at, root));
    }
}

// Puts the links into a table that has the feeds; of two into one in port the first counts.
fn add_links(table: &mut ItemList<ItemList<PortSource>>, design: &Design)
    requires { table.old ≡ table_of design.now.components (fed_from design.now 0) }
    ensures { table.new ≡ all_sources design.now }
{
    let links = design.links();
    for at in (0..links.len()).rev() {
        let link = &links[at];
        set_source(table, link.target, link.in_port, PortSource::Link(at));
    }
}

/// The sources of the in ports of all components, by component and port.
pub fn all_sources(
    alloc: Global,
    design: &Design,
) -> Result<ItemList<ItemList<PortSource>>, NoMemory>
    ensures { IfOk result (λ table. table ≡ all_sources design.now) }
{
    let names = root_names(alloc, design.feeds())?;
    let mut table = empty_table(alloc, design.components())?;
    add_feeds(&mut table, design, &names);
    add_links(&mut table, design);
    Ok(table)
}
