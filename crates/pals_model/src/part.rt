//! What a component leaves, round by round.
ghost use Rattle.std.specs.Prelude.{◌≡◌, length, map};

use pals_base::{Frame, ItemList, NoMemory, Same, TryClone, Tuple};
use std::alloc::Global;

/// What one component leaves after a round: its frame, and the whole tuple of each of its taps.
pub struct Part {
    pub frame: Frame,
    pub outs: ItemList<Tuple>,
}

impl Drop for Part {
    fn drop(self) {
        let Part { frame: _, outs: _ } = self;
    }
}

impl Part {
    /// Overwrites the part with the contents of another. Their frames have as many variables
    /// and held inputs, and they have as many tuples, of the same lengths. Does not allocate.
    pub fn copy_from(&mut self, other: &Part)
        requires vars { length self.old.frame.vars ≡ length other.now.frame.vars }
        requires held { length self.old.frame.held ≡ length other.now.frame.held }
        requires outs { map (λ tuple. length tuple) self.old.outs ≡ map (λ tuple. length tuple) other.now.outs }
        ensures { self.new ≡ other.now }
    {
        self.frame.copy_from(&other.frame);
        for at in 0..other.outs.len() {
            self.outs[at].copy_from_slice(other.outs[at].as_slice());
        }
    }
}

impl Same for Part {
    fn same(&self, other: &Part) -> bool {
        self.frame.same(&other.frame) && self.outs.same(&other.outs)
    }
}

impl TryClone for Part {
    fn try_clone(&self, alloc: Global) -> Result<Part, NoMemory> {
        Ok(Part {
            frame: self.frame.try_clone(alloc)?,
            outs: self.outs.try_clone(alloc)?,
        })
    }
}
