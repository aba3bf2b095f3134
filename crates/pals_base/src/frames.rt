//! Frames: the states of components between steps.
ghost use Rattle.std.specs.Prelude.{◌≡◌, IfOk, map, replicate, pos, length};
ghost use Rattle.pals_base.specs.SingleStep.{initial};

use crate::basic_types::{NoMemory, Trap};
use crate::behaviour::{Behaviour, VarDecl};
use crate::item_list::ItemList;
use std::alloc::Global;

/// A frame: the state of a component between two steps. It consists of the index of the behaviour's state, the
/// variables, the last present value of each in port, and the trap that halted the component, if any.
pub struct Frame {
    pub state: u32,
    pub vars: ItemList<i64>,
    pub held: ItemList<i64>,
    pub halt: Option<Trap>,
}

// Written by hand, so that dropping a frame is one call in the crates above.
impl Drop for Frame {
    fn drop(self) {
        let Frame {
            state: _,
            vars: _,
            held: _,
            halt: _,
        } = self;
    }
}

impl Frame {
    /// Returns the initial frame of a component with this behaviour: the initial state, the variables' initial
    /// values, and 0 for each in port. Errors: out of memory.
    pub fn initial(alloc: Global, behaviour: &Behaviour) -> Result<Frame, NoMemory>
        ensures { IfOk result (λ frame. frame ≡ initial behaviour.now) }
    {
        Ok(Frame {
            state: behaviour.initial(),
            vars: first_values(alloc, behaviour.vars())?,
            held: zeros(alloc, behaviour.ins().len())?,
            halt: None,
        })
    }

    /// Overwrites the frame with the contents of another one. Precondition: both have equally many variables
    /// and held inputs. Does not allocate.
    pub fn copy_from(&mut self, other: &Frame)
        requires vars { length self.old.vars ≡ length other.now.vars }
        requires held { length self.old.held ≡ length other.now.held }
        ensures { self.new ≡ other.now }
    {
        self.state = other.state;
        self.vars.copy_from_slice(other.vars.as_slice());
        self.held.copy_from_slice(other.held.as_slice());
        self.halt = other.halt;
    }
}

// The variables' initial values.
fn first_values(alloc: Global, vars: &[VarDecl]) -> Result<ItemList<i64>, NoMemory>
    ensures { IfOk result (λ values. values ≡ map (λ v. v.first) vars.now) }
{
    let mut values = ItemList::new(alloc);
    for var in vars {
        values.push(var.first)?;
    }
    Ok(values)
}

fn zeros(alloc: Global, count: usize) -> Result<ItemList<i64>, NoMemory>
    ensures { IfOk result (λ values. values ≡ replicate count (pos 0)) }
{
    Ok(ItemList::from_vec(vec![in alloc; 0; count]?))
}
