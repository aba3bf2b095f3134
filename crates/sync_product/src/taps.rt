//! The out ports that root out ports show, found once for a design in time that is in line with its
//! taps and components.
ghost use Rattle.std.specs.Prelude.{◌≡◌, IfOk};
ghost use Rattle.sync_product.specs.proof.ComponentWiring.{all_taps};

use pals_base::{ItemList, NoMemory};
use pals_model::Design;
use std::alloc::Global;

/// The out ports of each component that root out ports show, in order of the root out ports.
pub fn all_taps(alloc: Global, design: &Design) -> Result<ItemList<ItemList<u32>>, NoMemory>
    ensures { IfOk result (λ table. table ≡ all_taps design.now) }
{
    let mut table = ItemList::new(alloc);
    for _component in design.components() {
        table.push(ItemList::new(alloc))?;
    }
    for tap in design.taps() {
        let ports = &mut table[tap.source.0 as usize];
        ports.push(tap.out_port)?;
    }
    Ok(table)
}
