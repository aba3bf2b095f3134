//! The instructions of step code, and the parts of which a code is made.
ghost use Rattle.std.specs.Prelude.{◌≡◌, slice_get};

use pals_base::ItemList;

/// One instruction. Operands lie on a stack. Places, slots, ports and states are numbers from 0.
#[derive(Clone, Copy, Debug)]
pub enum Instr {
    /// Pushes the number.
    Push(i64),
    /// Pushes what the slot holds.
    Load(u32),
    /// Pops a number into the slot.
    Store(u32),
    /// Pushes the held input of the port.
    Port(u32),
    /// Pushes 1 if the port received an input in this step, else 0.
    Fresh(u32),
    Neg,
    Abs,
    Not,
    Add,
    Sub,
    Mul,
    Quot,
    Mod,
    Rem,
    Eq,
    Ne,
    Lt,
    Le,
    Gt,
    Ge,
    And,
    Or,
    Xor,
    /// Goes to the place.
    Jump(u32),
    /// Pops a number and goes to the place where it is 0.
    JumpZero(u32),
    /// Sets the slot to `low`, or goes to `exit` where `low` is above `high`.
    LoopStart {
        slot: u32,
        low: i64,
        high: i64,
        exit: u32,
    },
    /// Adds 1 to the slot and jumps back to `to` if the slot is below `high`; else continues.
    LoopNext {
        slot: u32,
        high: i64,
        to: u32,
    },
    /// Pops a number, which the out port has in this step.
    Emit(u32),
    /// Ends the step in the state.
    End(u32),
}

impl Instr {
    ghost use Rattle.std.specs.Prelude.{◌≡◌, ◌<◌, ◌^◌, ◌-◌};
    ghost use Rattle.step_code.specs.SuccessorsAndWeights.{jump_of, next_of};
    ghost use Rattle.step_code.specs.proof.StackHeights.{takes, gives, back_of};

    /// The place to which it jumps.
    pub fn jump(self) -> Option<usize>
        ensures { result ≡ jump_of self }
    {
        match self {
            Instr::Jump(to) | Instr::JumpZero(to) => Some(to as usize),
            Instr::LoopStart { exit, .. } => Some(exit as usize),
            _ => None,
        }
    }

    /// The next place, where it may follow.
    pub fn next(self, place: usize) -> Option<usize>
        requires { place < 2 ^ 64 - 1 }
        ensures { result ≡ next_of place self }
    {
        match self {
            Instr::Jump(_) | Instr::End(_) => None,
            _ => Some(place + 1),
        }
    }

    /// The place to which a LoopNext leads back.
    pub fn back(self) -> Option<usize>
        ensures { result ≡ back_of self }
    {
        match self {
            Instr::LoopNext { to, .. } => Some(to as usize),
            _ => None,
        }
    }

    /// How many operands it takes.
    pub fn takes(self) -> usize
        ensures { result ≡ takes self }
    {
        match self {
            Instr::Push(_)
            | Instr::Load(_)
            | Instr::Port(_)
            | Instr::Fresh(_)
            | Instr::Jump(_)
            | Instr::LoopStart { .. }
            | Instr::LoopNext { .. }
            | Instr::End(_) => 0,
            Instr::Store(_)
            | Instr::Neg
            | Instr::Abs
            | Instr::Not
            | Instr::JumpZero(_)
            | Instr::Emit(_) => 1,
            _ => 2,
        }
    }

    /// How many numbers it pushes.
    pub fn gives(self) -> usize
        ensures { result ≡ gives self }
    {
        match self {
            Instr::Store(_)
            | Instr::Jump(_)
            | Instr::JumpZero(_)
            | Instr::LoopStart { .. }
            | Instr::LoopNext { .. }
            | Instr::Emit(_)
            | Instr::End(_) => 0,
            _ => 1,
        }
    }
}

/// Instructions, the place at which the step of each complete state begins, and the numbers of
/// variables, of slots for loops, of in ports and of out ports. The slots of the loops follow
/// the slots of the variables.
#[derive(Drop)]
pub struct CodeParts {
    pub instrs: ItemList<Instr>,
    pub entries: ItemList<Option<u32>>,
    pub vars: u32,
    pub loops: u32,
    pub ins: u32,
    pub outs: u32,
}

/// The instruction at a place; `None` past the end.
pub fn instr_at(instrs: &[Instr], place: usize) -> Option<Instr>
    ensures { result ≡ slice_get instrs.now place }
{
    instrs.get(place).copied()
}
