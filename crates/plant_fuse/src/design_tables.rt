//! The tables of a design and its pairs, made once: the partner of each component, and where its ports lead.
ghost use Rattle.std.specs.Prelude.{◌≡◌, IfOk};
ghost use Rattle.plant_fuse.specs.proof.PartnersAndPairLinks.{partner_of, all_partners};

use pals_base::{ItemList, NoMemory, NodeNo};
use pals_model::Design;
use pals_runs::Pair;
use std::alloc::Global;
use sync_product::wiring::Wiring;

/// The pairs; for each component the other component of its pair, if it is in one; and the links of the
/// ports of each component.
pub struct Tables {
    pub pairs: ItemList<Pair>,
    pub partners: ItemList<Option<NodeNo>>,
    pub wiring: Wiring,
}

impl Drop for Tables {
    fn drop(self) {
        let Tables {
            pairs: _,
            partners: _,
            wiring: _,
        } = self;
    }
}

impl Tables {
    ghost use Rattle.plant_fuse.specs.proof.DesignTables.{AreTables};

    /// The tables of a design and its pairs.
    pub fn new(alloc: Global, design: &Design, pairs: ItemList<Pair>) -> Result<Tables, NoMemory>
        ensures { IfOk result (AreTables design.now pairs) }
    {
        let partners = all_partners(alloc, design, pairs.as_slice())?;
        let wiring = Wiring::new(alloc, design)?;
        Ok(Tables {
            pairs,
            partners,
            wiring,
        })
    }
}

// The other one of the pair of each component.
fn all_partners(
    alloc: Global,
    design: &Design,
    pairs: &[Pair],
) -> Result<ItemList<Option<NodeNo>>, NoMemory>
    ensures { IfOk result (λ partners. partners ≡ all_partners design.now pairs.now) }
{
    let mut partners = ItemList::new(alloc);
    for node in 0..design.components().len() {
        partners.push(partner(pairs, node))?;
    }
    Ok(partners)
}

// The other component of the first pair that contains a component.
fn partner(pairs: &[Pair], node: usize) -> Option<NodeNo>
    ensures { result ≡ partner_of pairs.now node }
{
    for pair in pairs {
        if pair.plant.0 as usize == node {
            return Some(pair.controller);
        }
        if pair.controller.0 as usize == node {
            return Some(pair.plant);
        }
    }
    None
}
