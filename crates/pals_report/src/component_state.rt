//! The line of a component: its name, its state or the trap that halted it, and its variables.
ghost use Rattle.std.specs.Prelude.{◌≡◌, ◌++◌, Some, OnOk, OnErr, option_copied};
ghost use Rattle.pals_base.specs.declared.frames.Frame.{Frame};
ghost use Rattle.pals_base.specs.declared.behaviour.BehaviourParts.{BehaviourParts};
ghost use Rattle.pals_model.specs.RoundTexts.{text_of, line_end, state_text, variable_text, vars_text, component_line};
ghost use Rattle.pals_model.specs.RoundTexts.{part_lines};
ghost use Rattle.pals_report.specs.proof.TextPrefixes.{BeginsWith};

use crate::value::add_value;
use pals_base::{BehaviourParts, Frame, NoMemory, Text, Trap, VarDecl};
use pals_model::{Component, Part};

// The text of a trap, which replaces the name of the state.
pub(crate) fn add_trap(out: &mut Vec<u8>, trap: Trap) -> Result<(), NoMemory>
    ensures ok { (b : BehaviourParts) (frame : Frame)
        → OnOk result (out.new.items ≡ out.old.items ++ state_text b frame (Some trap)) }
    ensures err { OnErr result (BeginsWith out.new.items out.old.items) }
{
    match trap {
        Trap::Overflow => out.extend_from_slice(b"halted(overflow)"),
        Trap::ZeroDivisor => out.extend_from_slice(b"halted(zero-divisor)"),
    }
}

// The name of the state, or the trap.
fn add_state(out: &mut Vec<u8>, behaviour: &BehaviourParts, frame: &Frame) -> Result<(), NoMemory>
    ensures ok { OnOk result
        (out.new.items ≡ out.old.items ++ state_text behaviour.now frame.now frame.now.halt) }
    ensures err { OnErr result (BeginsWith out.new.items out.old.items) }
{
    match frame.halt {
        Some(trap) => add_trap(out, trap),
        None => match behaviour.states.get(frame.state as usize) {
            Some(state) => out.extend_from_slice(state.name.as_bytes()),
            None => Ok(()),
        },
    }
}

// A space, and a variable's name and value.
fn add_variable(out: &mut Vec<u8>, variable: &VarDecl, value: i64) -> Result<(), NoMemory>
    ensures ok { OnOk result
        (out.new.items ≡ out.old.items ++ variable_text variable.now value) }
    ensures err { OnErr result (BeginsWith out.new.items out.old.items) }
{
    out.extend_from_slice(b" ")?;
    out.extend_from_slice(variable.name.as_bytes())?;
    out.extend_from_slice(b"=")?;
    add_value(out, variable.kind, value)
}

// Each variable with a value.
fn add_variables(out: &mut Vec<u8>, variables: &[VarDecl], values: &[i64]) -> Result<(), NoMemory>
    ensures ok { OnOk result
        (out.new.items ≡ out.old.items ++ vars_text variables.now values.now) }
    ensures err { OnErr result (BeginsWith out.new.items out.old.items) }
{
    for (variable, value) in variables.iter().zip(values) {
        add_variable(out, variable, *value)?;
    }
    Ok(())
}

// The line of a component with this name.
pub(crate) fn add_component_line(
    out: &mut Vec<u8>,
    name: &Text,
    behaviour: &BehaviourParts,
    frame: &Frame,
) -> Result<(), NoMemory>
    ensures ok { OnOk result
        (out.new.items ≡ out.old.items ++ component_line name.now behaviour.now frame.now ++ line_end) }
    ensures err { OnErr result (BeginsWith out.new.items out.old.items) }
{
    out.extend_from_slice(name.as_bytes())?;
    out.extend_from_slice(b" ")?;
    add_state(out, behaviour, frame)?;
    add_variables(out, behaviour.vars.as_slice(), frame.vars.as_slice())?;
    out.extend_from_slice(b"\n")
}

// The line of a component, if it has a part.
pub(crate) fn add_part_line(
    out: &mut Vec<u8>,
    component: &Component,
    part: Option<&Part>,
) -> Result<(), NoMemory>
    ensures ok { OnOk result (out.new.items
        ≡ out.old.items ++ text_of (part_lines component.now (option_copied part.entry))) }
    ensures err { OnErr result (BeginsWith out.new.items out.old.items) }
{
    let Some(part) = part else {
        return Ok(());
    };
    let behaviour = component.behaviour.parts();
    add_component_line(out, &component.path, behaviour, &part.frame)
}
