//! The lines of a component: its rate, its declarations, its states and its code.
ghost use Rattle.std.specs.Prelude.{◌≡◌, ◌++◌, codes, map, All, OnOk, OnErr};
ghost use Rattle.pals_model.specs.RoundTexts.{line_end, text_of};
ghost use Rattle.pals_report.specs.proof.TextPrefixes.{BeginsWith};
ghost use Rattle.pals_report.specs.proof.LineWords.{word_text};
ghost use Rattle.code_listing.specs.Listings.{kind_word, number_line, initial_line, rate_lines, port_line};
ghost use Rattle.code_listing.specs.Listings.{variable_line, declared_lines, state_line, state_lines, code_lines};
ghost use Rattle.code_listing.specs.Listings.{component_lines};
ghost use Rattle.code_listing.specs.NumberRanges.{NumberFits, FirstFits, EntryFits, EntriesFit, CodeFits, NumbersFit};

use crate::instr::add_instrs;
use crate::operand_names::state_word;
use pals_base::{BehaviourParts, Kind, NoMemory, PortDecl, StateDecl, VarDecl};
use pals_model::{Component, DesignParts};
use pals_report::{LineWord, add_line};
use step_code::{Code, most};

/// Adds the lines of a component of a design with its code.
pub fn add_component(
    out: &mut Vec<u8>,
    design: &DesignParts,
    component: &Component,
    code: &Code,
) -> Result<(), NoMemory>
    ensures ok { OnOk result (out.new.items
        ≡ out.old.items ++ text_of (component_lines design.now component.now code.now)) }
    ensures err { OnErr result (BeginsWith out.new.items out.old.items) }
    ensures fit { OnOk result (NumbersFit component.now.behaviour code.now) }
{
    let behaviour = component.behaviour.parts();
    add_rate(out, design, component)?;
    add_declared(out, behaviour)?;
    add_code(out, behaviour, code)
}

// Its path, its rate, how many of its steps a message carries, and when it may send.
fn add_rate(out: &mut Vec<u8>, design: &DesignParts, component: &Component) -> Result<(), NoMemory>
    ensures ok { OnOk result
        (out.new.items ≡ out.old.items ++ text_of (rate_lines design.now component.now)) }
    ensures err { OnErr result (BeginsWith out.new.items out.old.items) }
{
    let rate = component.rate;
    let sent = design.gamma.sent_steps(design.period, rate);
    let release = design.gamma.release_offset(design.period, rate);
    let path = component.path.as_bytes();
    add_line(out, &[LineWord::Bytes(b"component"), LineWord::Bytes(path)])?;
    add_number(out, b"rate", u128::from(rate))?;
    add_number(out, b"sent", u128::from(sent))?;
    add_number(out, b"release", release)
}

// Its ports and variables.
fn add_declared(out: &mut Vec<u8>, behaviour: &BehaviourParts) -> Result<(), NoMemory>
    ensures ok { OnOk result
        (out.new.items ≡ out.old.items ++ text_of (declared_lines behaviour.now)) }
    ensures err { OnErr result (BeginsWith out.new.items out.old.items) }
    ensures fit { OnOk result (All FirstFits behaviour.now.vars) }
{
    add_ports(out, b"in", behaviour.ins.as_slice())?;
    add_ports(out, b"out", behaviour.outs.as_slice())?;
    add_variables(out, behaviour.vars.as_slice())
}

// Its slots for loops, its states, how many instructions a step takes at most, and all of them.
fn add_code(out: &mut Vec<u8>, behaviour: &BehaviourParts, code: &Code) -> Result<(), NoMemory>
    ensures ok { OnOk result
        (out.new.items ≡ out.old.items ++ text_of (code_lines behaviour.now code.now)) }
    ensures err { OnErr result (BeginsWith out.new.items out.old.items) }
    ensures fit { OnOk result (CodeFits behaviour.now code.now) }
{
    let parts = code.parts();
    let instrs = parts.instrs.as_slice();
    add_loops(out, parts.loops)?;
    add_states(out, behaviour.states.as_slice(), parts.entries.as_slice())?;
    add_initial(out, behaviour)?;
    add_number(out, b"most", u128::from(most(code)))?;
    add_number(out, b"code", instrs.len() as u128)?;
    add_instrs(out, behaviour, instrs)
}

// A line of a word and a number.
fn add_number(out: &mut Vec<u8>, word: &[u8], number: u128) -> Result<(), NoMemory>
    ensures ok { OnOk result
        (out.new.items ≡ out.old.items ++ number_line word.now number ++ line_end) }
    ensures err { OnErr result (out.new.items ≡ out.old.items) }
{
    let indent = LineWord::Bytes(b"");
    add_line(
        out,
        &[indent, LineWord::Bytes(word), LineWord::Wide(number)],
    )
}

// The line of a code's slots for loops.
fn add_loops(out: &mut Vec<u8>, loops: u32) -> Result<(), NoMemory>
    ensures ok { OnOk result
        (out.new.items ≡ out.old.items ++ number_line (codes "loops") loops ++ line_end) }
    ensures err { OnErr result (out.new.items ≡ out.old.items) }
    ensures fit { NumberFits loops }
{
    add_number(out, b"loops", u128::from(loops))
}

fn kind_word(kind: Kind) -> LineWord<'static>
    ensures { word_text result ≡ kind_word kind }
{
    match kind {
        Kind::Integer => LineWord::Bytes(b"Integer"),
        Kind::Boolean => LineWord::Bytes(b"Boolean"),
    }
}

fn add_port<'a>(out: &mut Vec<u8>, word: &'a [u8], port: &'a PortDecl) -> Result<(), NoMemory>
    ensures ok { OnOk result
        (out.new.items ≡ out.old.items ++ port_line word.now port.now ++ line_end) }
    ensures err { OnErr result (out.new.items ≡ out.old.items) }
{
    let indent = LineWord::Bytes(b"");
    let name = LineWord::Bytes(port.name.as_bytes());
    add_line(
        out,
        &[indent, LineWord::Bytes(word), name, kind_word(port.kind)],
    )
}

fn add_ports(out: &mut Vec<u8>, word: &[u8], ports: &[PortDecl]) -> Result<(), NoMemory>
    ensures ok { OnOk result
        (out.new.items ≡ out.old.items ++ text_of (map (port_line word.now) ports.now)) }
    ensures err { OnErr result (BeginsWith out.new.items out.old.items) }
{
    for port in ports {
        add_port(out, word, port)?;
    }
    Ok(())
}

fn add_variable(out: &mut Vec<u8>, variable: &VarDecl) -> Result<(), NoMemory>
    ensures ok { OnOk result
        (out.new.items ≡ out.old.items ++ variable_line variable.now ++ line_end) }
    ensures err { OnErr result (out.new.items ≡ out.old.items) }
    ensures fit { FirstFits variable.now }
{
    let indent = LineWord::Bytes(b"");
    let name = LineWord::Bytes(variable.name.as_bytes());
    let kind = kind_word(variable.kind);
    let first = LineWord::Signed(variable.first);
    add_line(out, &[indent, LineWord::Bytes(b"var"), name, kind, first])
}

fn add_variables(out: &mut Vec<u8>, variables: &[VarDecl]) -> Result<(), NoMemory>
    ensures ok { OnOk result
        (out.new.items ≡ out.old.items ++ text_of (map variable_line variables.now)) }
    ensures err { OnErr result (BeginsWith out.new.items out.old.items) }
    ensures fit { OnOk result (All FirstFits variables.now) }
{
    for variable in variables {
        add_variable(out, variable)?;
    }
    Ok(())
}

// A state, and where the steps of a complete one begin.
fn add_state(out: &mut Vec<u8>, state: &StateDecl, entry: Option<u32>) -> Result<(), NoMemory>
    ensures ok { OnOk result
        (out.new.items ≡ out.old.items ++ state_line state.now entry ++ line_end) }
    ensures err { OnErr result (out.new.items ≡ out.old.items) }
    ensures fit { EntryFits entry }
{
    let indent = LineWord::Bytes(b"");
    let first = LineWord::Bytes(b"state");
    let name = LineWord::Bytes(state.name.as_bytes());
    match entry {
        None => add_line(out, &[indent, first, name, LineWord::Bytes(b"passing")]),
        Some(place) => {
            let place = LineWord::Number(u64::from(place));
            add_line(
                out,
                &[indent, first, name, LineWord::Bytes(b"entry"), place],
            )
        }
    }
}

fn add_states(
    out: &mut Vec<u8>,
    states: &[StateDecl],
    entries: &[Option<u32>],
) -> Result<(), NoMemory>
    ensures ok { OnOk result
        (out.new.items ≡ out.old.items ++ text_of (state_lines states.now entries.now)) }
    ensures err { OnErr result (BeginsWith out.new.items out.old.items) }
    ensures fit { OnOk result (EntriesFit states.now entries.now) }
{
    for (state, entry) in states.iter().zip(entries) {
        add_state(out, state, *entry)?;
    }
    Ok(())
}

fn add_initial(out: &mut Vec<u8>, behaviour: &BehaviourParts) -> Result<(), NoMemory>
    ensures ok { OnOk result
        (out.new.items ≡ out.old.items ++ initial_line behaviour.now ++ line_end) }
    ensures err { OnErr result (out.new.items ≡ out.old.items) }
{
    let indent = LineWord::Bytes(b"");
    let state = state_word(behaviour.states.as_slice(), behaviour.initial);
    add_line(out, &[indent, LineWord::Bytes(b"initial"), state])
}
