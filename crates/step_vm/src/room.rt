//! The room that the steps of a code need.
ghost use Rattle.std.specs.Prelude.{IfOk};
ghost use Rattle.step_vm.specs.proof.RoomCapacity.{IsRoomOf};

use crate::stack::Stack;
use pals_base::NoMemory;
use std::alloc::Global;
use std::marker::Model;
use step_code::Code;

/// The cells of a stack and the slots of variables and loops. The model has their numbers.
/// The contents of a room before a step do not matter.
#[derive(Drop)]
pub struct Room {
    pub(crate) stack: Stack,
    pub(crate) slots: Vec<i64>,
}

impl Model for Room {
    ghost use Rattle.step_vm.specs.proof.RoomCapacity.{Capacity};

    ghost Value = { Capacity };

    ghost use Rattle.std.specs.Prelude.{length};

    ghost view = { λ room. record { cells = room.stack.size; slots = length room.slots.items } };
}

impl Room {
    /// Room for each step of a code.
    pub fn for_code(alloc: Global, code: &Code) -> Result<Room, NoMemory>
        ensures { IfOk result (λ room. IsRoomOf code.now room) }
    {
        let parts = code.parts();
        let slots = parts.vars as usize + parts.loops as usize;
        Ok(Room {
            stack: Stack::with_size(alloc, parts.instrs.len())?,
            slots: vec![in alloc; 0; slots]?,
        })
    }
}
