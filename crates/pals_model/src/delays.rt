//! How long messages take on their links.
ghost use Rattle.std.specs.Prelude.{◌≡◌, ◌<◌, length};
ghost use Rattle.pals_model.specs.Delays.{delay_in, delay_of};

use pals_base::{ItemList, LinkNo, Nanos, NoMemory, Same, TryClone};
use std::alloc::Global;

/// The delays of the messages of each link, in nanoseconds: a list of one or more delays per link.
/// The message of round m takes element m, and the messages of later rounds take the last.
#[derive(Drop)]
pub struct Delays {
    pub lists: ItemList<ItemList<Nanos>>,
}

// The delay of a round: the element of its number, or the last one.
fn delay_in(list: &[Nanos], round: u32) -> Nanos
    ensures { result ≡ delay_in list.now round }
{
    match list {
        [] => 0,
        [.., last] => list.get(round as usize).copied().unwrap_or(*last),
    }
}

impl Delays {
    /// The delay of a link's message of a round, in nanoseconds.
    pub fn delay(&self, link: LinkNo, round: u32) -> Nanos
        requires { link.0 < length self.now.lists }
        ensures { result ≡ delay_of self.now link.0 round }
    {
        delay_in(self.lists[link.0 as usize].as_slice(), round)
    }
}

impl Same for Delays {
    fn same(&self, other: &Delays) -> bool {
        self.lists.same(&other.lists)
    }
}

impl TryClone for Delays {
    fn try_clone(&self, alloc: Global) -> Result<Delays, NoMemory> {
        let lists = self.lists.try_clone(alloc)?;
        Ok(Delays { lists })
    }
}
