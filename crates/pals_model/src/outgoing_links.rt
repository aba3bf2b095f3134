//! The links from a component, by their numbers.
ghost use Rattle.std.specs.Prelude.{◌≡◌, IfOk, map};
ghost use Rattle.pals_model.specs.IncomingAndOutgoingLinks.{links_from};

use crate::design::Design;
use pals_base::{ItemList, LinkNo, NoMemory, NodeNo};
use std::alloc::Global;

/// The numbers of the links from a component, in their order.
pub fn links_from(
    alloc: Global,
    design: &Design,
    node: NodeNo,
) -> Result<ItemList<LinkNo>, NoMemory>
    ensures { IfOk result (λ numbers. map (λ link. link.0) numbers ≡ links_from design.now node.0) }
{
    let mut numbers = ItemList::new(alloc);
    for (number, link) in design.links().iter().enumerate() {
        if link.source == node {
            numbers.push(LinkNo(number as u32))?;
        }
    }
    Ok(numbers)
}
