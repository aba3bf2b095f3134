//! What a run is given, round by round: the values of the root in ports.
ghost use Rattle.std.specs.Prelude.{◌≡◌, length};
ghost use Rattle.pals_model.specs.ComponentInputs.{values_at};

use pals_base::tuples::place;
use pals_base::{ItemList, NoMemory, PortValue, Same, TryClone, Tuple};
use std::alloc::Global;

/// The values of the root in ports: one list per port, in the order of the feeds that name them
/// first. Element r is round r's value, and past a list the value is absent.
#[derive(Drop)]
pub struct Env {
    pub lists: ItemList<Tuple>,
}

impl Env {
    /// Writes the values of a round over the values of another, one per root in port. Does not allocate.
    pub fn write_values(&self, round: u32, values: &mut [PortValue])
        requires { length values.old ≡ length self.now.lists }
        ensures { values.new ≡ values_at self.now round }
    {
        for at in 0..values.len() {
            values[at] = place(self.lists[at].as_slice(), round as usize);
        }
    }
}

impl Same for Env {
    fn same(&self, other: &Env) -> bool {
        self.lists.same(&other.lists)
    }
}

impl TryClone for Env {
    fn try_clone(&self, alloc: Global) -> Result<Env, NoMemory> {
        let lists = self.lists.try_clone(alloc)?;
        Ok(Env { lists })
    }
}
