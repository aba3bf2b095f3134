//! The lines of instructions.
ghost use Rattle.std.specs.Prelude.{◌≡◌, [], ◌∷◌, ◌++◌, decimal, All, OnOk, OnErr};
ghost use Rattle.pals_model.specs.RoundTexts.{line_end, text_of};
ghost use Rattle.pals_runs.specs.JournalLines.{spaced};
ghost use Rattle.pals_report.specs.proof.TextPrefixes.{BeginsWith};
ghost use Rattle.pals_report.specs.proof.LineWords.{word_text};
ghost use Rattle.code_listing.specs.Listings.{mnemonic, instr_line, instr_lines};
ghost use Rattle.code_listing.specs.NumberRanges.{InstrFits};

use crate::operand_names::{port_word, slot_word, state_word};
use pals_base::{BehaviourParts, NoMemory};
use pals_report::{LineWord, add_line};
use step_code::Instr;

fn mnemonic(instr: Instr) -> &'static [u8]
    ensures { result.now ≡ mnemonic instr }
{
    match instr {
        Instr::Push(_) => b"Push",
        Instr::Load(_) => b"Load",
        Instr::Store(_) => b"Store",
        Instr::Port(_) => b"Port",
        Instr::Fresh(_) => b"Fresh",
        Instr::Neg => b"Neg",
        Instr::Abs => b"Abs",
        Instr::Not => b"Not",
        Instr::Add => b"Add",
        Instr::Sub => b"Sub",
        Instr::Mul => b"Mul",
        Instr::Quot => b"Quot",
        Instr::Mod => b"Mod",
        Instr::Rem => b"Rem",
        Instr::Eq => b"Eq",
        Instr::Ne => b"Ne",
        Instr::Lt => b"Lt",
        Instr::Le => b"Le",
        Instr::Gt => b"Gt",
        Instr::Ge => b"Ge",
        Instr::And => b"And",
        Instr::Or => b"Or",
        Instr::Xor => b"Xor",
        Instr::Jump(_) => b"Jump",
        Instr::JumpZero(_) => b"JumpZero",
        Instr::LoopStart { .. } => b"LoopStart",
        Instr::LoopNext { .. } => b"LoopNext",
        Instr::Emit(_) => b"Emit",
        Instr::End(_) => b"End",
    }
}

// The line of an instruction at its place.
fn add_instr(
    out: &mut Vec<u8>,
    behaviour: &BehaviourParts,
    place: usize,
    instr: Instr,
) -> Result<(), NoMemory>
    ensures ok { OnOk result
        (out.new.items ≡ out.old.items ++ instr_line behaviour.now place instr ++ line_end) }
    ensures err { OnErr result (out.new.items ≡ out.old.items) }
    ensures fit { InstrFits instr }
{
    let indent = LineWord::Bytes(b"");
    let place = LineWord::Number(place as u64);
    let name = LineWord::Bytes(mnemonic(instr));
    match instr {
        Instr::Push(number) => add_line(
            out,
            &[indent, indent, place, name, LineWord::Signed(number)],
        ),
        Instr::Load(slot) | Instr::Store(slot) => {
            let word = slot_word(behaviour.vars.as_slice(), slot);
            add_numbered(out, place, name, slot, word)
        }
        Instr::Port(port) | Instr::Fresh(port) => {
            let word = port_word(behaviour.ins.as_slice(), port);
            add_numbered(out, place, name, port, word)
        }
        Instr::Emit(port) => {
            let word = port_word(behaviour.outs.as_slice(), port);
            add_numbered(out, place, name, port, word)
        }
        Instr::End(state) => {
            let word = state_word(behaviour.states.as_slice(), state);
            add_numbered(out, place, name, state, word)
        }
        Instr::Jump(to) | Instr::JumpZero(to) => {
            let to = LineWord::Number(u64::from(to));
            add_line(out, &[indent, indent, place, name, to])
        }
        Instr::LoopStart {
            slot,
            low,
            high,
            exit,
        } => {
            let number = LineWord::Number(u64::from(slot));
            let slot = slot_word(behaviour.vars.as_slice(), slot);
            let low = LineWord::Signed(low);
            let high = LineWord::Signed(high);
            let exit = LineWord::Number(u64::from(exit));
            add_line(
                out,
                &[indent, indent, place, name, number, slot, low, high, exit],
            )
        }
        Instr::LoopNext { slot, high, to } => {
            let number = LineWord::Number(u64::from(slot));
            let slot = slot_word(behaviour.vars.as_slice(), slot);
            let high = LineWord::Signed(high);
            let to = LineWord::Number(u64::from(to));
            add_line(out, &[indent, indent, place, name, number, slot, high, to])
        }
        _ => add_line(out, &[indent, indent, place, name]),
    }
}

// The line of an instruction on a slot, a port or a state: its number and its name.
fn add_numbered<'a>(
    out: &mut Vec<u8>,
    place: LineWord<'a>,
    operation: LineWord<'a>,
    number: u32,
    name: LineWord<'a>,
) -> Result<(), NoMemory>
    ensures ok { OnOk result (out.new.items ≡ out.old.items
        ++ spaced ([] ∷ [] ∷ word_text place.entry ∷ word_text operation.entry ∷ decimal number ∷ word_text name.entry
        ∷ []) ++ line_end) }
    ensures err { OnErr result (out.new.items ≡ out.old.items) }
{
    let indent = LineWord::Bytes(b"");
    let number = LineWord::Number(u64::from(number));
    add_line(out, &[indent, indent, place, operation, number, name])
}

/// Adds a line for each instruction of a behaviour's code.
pub fn add_instrs(
    out: &mut Vec<u8>,
    behaviour: &BehaviourParts,
    instrs: &[Instr],
) -> Result<(), NoMemory>
    ensures ok { OnOk result
        (out.new.items ≡ out.old.items ++ text_of (instr_lines behaviour.now instrs.now)) }
    ensures err { OnErr result (BeginsWith out.new.items out.old.items) }
    ensures fit { OnOk result (All InstrFits instrs.now) }
{
    for (place, instr) in instrs.iter().enumerate() {
        add_instr(out, behaviour, place, *instr)?;
    }
    Ok(())
}
