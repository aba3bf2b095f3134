//! A stack of operands with a fixed number of cells.
ghost use Rattle.std.specs.Prelude.{◌≡◌, [], ◌∷◌, ◌<◌, length, IfOk};
ghost use Rattle.step_vm.specs.proof.OperandStacks.{stack_of};

use pals_base::NoMemory;
use std::alloc::Global;
use std::marker::Model;

/// Operands, seen by contracts as the list of them, the topmost first, and the number of cells.
#[derive(Drop)]
pub struct Stack {
    cells: Vec<i64>,
    top: usize,
}

impl Model for Stack {
    ghost use Rattle.std.specs.Prelude.{◌≤◌, length};
    ghost use Rattle.step_vm.specs.proof.OperandStacks.{StackState, stacked};

    ghost Value = { StackState };

    ghost view = { λ stack. record { numbers = stacked stack.cells.items stack.top; size = length stack.cells.items } };

    ghost invariant = { λ stack. stack.top ≤ length stack.cells.items };
}

impl Stack {
    /// A stack without operands, of `size` cells.
    pub fn with_size(alloc: Global, size: usize) -> Result<Stack, NoMemory>
        ensures { IfOk result (λ stack. stack ≡ stack_of [] size) }
    {
        Ok(Stack {
            cells: vec![in alloc; 0; size]?,
            top: 0,
        })
    }

    /// Drops all operands.
    pub fn clear(&mut self)
        ensures { self.new ≡ stack_of [] self.old.size }
    {
        self.top = 0;
    }

    /// Puts an operand on top.
    #[inline(always)]
    pub fn push(&mut self, operand: i64)
        requires { length self.old.numbers < self.old.size }
        ensures { self.new ≡ stack_of (operand ∷ self.old.numbers) self.old.size }
    {
        self.cells[self.top] = operand;
        self.top += 1;
    }

    /// Takes the topmost operand.
    #[inline(always)]
    pub fn pop(&mut self) -> i64
        requires { 0 < length self.old.numbers }
        ensures all { self.old.numbers ≡ result ∷ self.new.numbers }
        ensures size { self.new.size ≡ self.old.size }
    {
        self.top -= 1;
        self.cells[self.top]
    }
}
