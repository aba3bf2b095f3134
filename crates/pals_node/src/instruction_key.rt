//! Instructions as numbers, by which two are told apart.
ghost use Rattle.std.specs.Prelude.{◌≡◌, ◌↔◌, IsTrue};
ghost use Rattle.pals_node.specs.proof.InstructionKeys.{key_of};

use step_code::Instr;

/// An instruction's kind and its numbers: a slot, port or state, a place, and two numbers. What an
/// instruction has not is 0.
#[derive(Clone, Copy, PartialEq)]
pub struct Key {
    pub kind: u32,
    pub slot: u32,
    pub place: u32,
    pub low: i64,
    pub high: i64,
}

fn new(kind: u32, slot: u32, place: u32, low: i64, high: i64) -> Key
    ensures { result ≡ record { kind = kind; slot = slot; place = place; low = low; high = high } }
{
    Key {
        kind,
        slot,
        place,
        low,
        high,
    }
}

/// The key of an instruction.
pub fn key_of(instr: Instr) -> Key
    ensures { result ≡ key_of instr }
{
    match instr {
        Instr::Push(low) => new(0, 0, 0, low, 0),
        Instr::Load(slot) => new(1, slot, 0, 0, 0),
        Instr::Store(slot) => new(2, slot, 0, 0, 0),
        Instr::Port(slot) => new(3, slot, 0, 0, 0),
        Instr::Fresh(slot) => new(4, slot, 0, 0, 0),
        Instr::Neg => new(5, 0, 0, 0, 0),
        Instr::Abs => new(6, 0, 0, 0, 0),
        Instr::Not => new(7, 0, 0, 0, 0),
        Instr::Add => new(8, 0, 0, 0, 0),
        Instr::Sub => new(9, 0, 0, 0, 0),
        Instr::Mul => new(10, 0, 0, 0, 0),
        Instr::Quot => new(11, 0, 0, 0, 0),
        Instr::Mod => new(12, 0, 0, 0, 0),
        Instr::Rem => new(13, 0, 0, 0, 0),
        Instr::Eq => new(14, 0, 0, 0, 0),
        Instr::Ne => new(15, 0, 0, 0, 0),
        Instr::Lt => new(16, 0, 0, 0, 0),
        Instr::Le => new(17, 0, 0, 0, 0),
        Instr::Gt => new(18, 0, 0, 0, 0),
        Instr::Ge => new(19, 0, 0, 0, 0),
        Instr::And => new(20, 0, 0, 0, 0),
        Instr::Or => new(21, 0, 0, 0, 0),
        Instr::Xor => new(22, 0, 0, 0, 0),
        Instr::Jump(place) => new(23, 0, place, 0, 0),
        Instr::JumpZero(place) => new(24, 0, place, 0, 0),
        Instr::LoopStart {
            slot,
            low,
            high,
            exit,
        } => new(25, slot, exit, low, high),
        Instr::LoopNext { slot, high, to } => new(26, slot, to, 0, high),
        Instr::Emit(slot) => new(27, slot, 0, 0, 0),
        Instr::End(slot) => new(28, slot, 0, 0, 0),
    }
}

/// Whether two instructions are the same.
pub fn same_instr(left: Instr, right: Instr) -> bool
    ensures { IsTrue result ↔ (left ≡ right) }
{
    let left = key_of(left);
    let right = key_of(right);
    same_key(left, right)
}

fn same_key(left: Key, right: Key) -> bool
    ensures { IsTrue result ↔ (left ≡ right) }
{
    left == right
}
