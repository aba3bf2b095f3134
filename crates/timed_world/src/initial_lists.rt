//! The initial lists of a world: the minimum delay on each link, and for each node the time 0 and no times of sends.
ghost use Rattle.std.specs.Prelude.{◌≡◌, IfOk, [], ◌∷◌, length, map};
ghost use Rattle.pals_model.specs.Delays.{AreDelays};
ghost use Rattle.pals_model.specs.DesignRules.{IsDesign};
ghost use Rattle.run_laws.specs.Worlds.{zeros};

use pals_base::{ItemList, Nanos, NoMemory};
use pals_model::{Delays, Design};
use std::alloc::Global;

/// The least delay that the bounds allow, on each link.
pub fn least_delays(alloc: Global, design: &Design) -> Result<Delays, NoMemory>
    ensures value { IfOk result (λ delays. delays
        ≡ record { lists = map (λ _. design.now.gamma.mu_min ∷ []) design.now.links }) }
    ensures fits { IfOk result (AreDelays (length design.now.links)) }
    ensures rules { IsDesign design.now }
{
    let least = design.gamma().mu_min;
    let mut lists = ItemList::new(alloc);
    for _link in design.links() {
        let mut list = ItemList::new(alloc);
        list.push(least)?;
        lists.push(list)?;
    }
    Ok(Delays { lists })
}

/// The time 0, for each node.
pub fn no_times(alloc: Global, design: &Design) -> Result<ItemList<Nanos>, NoMemory>
    ensures { IfOk result (λ times. times ≡ zeros design.now) }
{
    let mut times = ItemList::new(alloc);
    for _component in design.components() {
        times.push(0)?;
    }
    Ok(times)
}

/// No times, for each node.
pub fn no_moments(alloc: Global, design: &Design) -> Result<ItemList<ItemList<Nanos>>, NoMemory>
    ensures { IfOk result (λ lists. lists ≡ map (λ _. []) design.now.components) }
{
    let mut lists = ItemList::new(alloc);
    for _component in design.components() {
        lists.push(ItemList::new(alloc))?;
    }
    Ok(lists)
}
