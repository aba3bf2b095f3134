//! The links from each node of a design.
ghost use Rattle.std.specs.Prelude.{◌≡◌, ◌<◌, [], length, map, IfOk, slice_index_or};
ghost use Rattle.pals_bus.specs.proof.LinksFromNodes.{AreOutgoing, no_numbers};

use pals_base::{ItemList, LinkNo, NoMemory, NodeNo};
use pals_model::{Component, Design};
use std::alloc::Global;
use std::marker::Model;

/// The numbers of the links from each node of a design, in rising order. Contracts see them as a list
/// of lists.
#[derive(Drop)]
pub struct Outgoing {
    lists: ItemList<ItemList<LinkNo>>,
}

impl Model for Outgoing {
    ghost use Rattle.std.specs.Prelude.{List};
    ghost use Rattle.pals_base.specs.declared.basic_types.LinkNo.{LinkNo};

    ghost Value = { List (List LinkNo) };

    ghost view = { λ outgoing. outgoing.lists };
}

impl Outgoing {
    /// The links from each node of a design.
    pub fn new(alloc: Global, design: &Design) -> Result<Outgoing, NoMemory>
        ensures { IfOk result (λ outgoing. AreOutgoing (length design.now.components) design.now.links outgoing) }
    {
        let mut lists = empty_lists(alloc, design.components())?;
        let links = design.links();
        for number in 0..links.len() {
            let source = links[number].source;
            lists[source.0 as usize].push(LinkNo(number as u32))?;
        }
        Ok(Outgoing { lists })
    }

    /// The links from a node.
    pub fn links_from(&self, node: NodeNo) -> &[LinkNo]
        requires { node.0 < length self.now }
        ensures { result.now ≡ slice_index_or self.now node.0 [] }
    {
        self.lists[node.0 as usize].as_slice()
    }
}

// A list without links for each component.
fn empty_lists(
    alloc: Global,
    components: &[Component],
) -> Result<ItemList<ItemList<LinkNo>>, NoMemory>
    ensures { IfOk result (λ lists. lists ≡ map (λ _. no_numbers) components.now) }
{
    let mut lists = ItemList::new(alloc);
    for _component in components {
        lists.push(ItemList::new(alloc))?;
    }
    Ok(lists)
}
