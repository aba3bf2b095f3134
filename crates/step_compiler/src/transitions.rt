//! The instructions of transitions.
ghost use Rattle.std.specs.Prelude.{◌≡◌, IfOk, OnOk, slice_get};
ghost use Rattle.pals_base.specs.proof.TreeViews.{trigger_of};
ghost use Rattle.pals_base.specs.SingleStep.{completes};
ghost use Rattle.step_compiler.specs.BlockInstructions.{trigger_code, last_instr, false_guard_target};
ghost use Rattle.step_compiler.specs.proof.BlockLengthsAndStarts.{in_list};
ghost use Rattle.step_compiler.specs.proof.CompiledCode.{transition_code};
ghost use Rattle.step_compiler.specs.proof.AppendedCode.{Adds};

use crate::actions::push_acts;
use crate::checked_numbers::{count, place_behind};
use crate::code_lengths::transition_length;
use crate::expressions::push_expr;
use crate::list_access::item_at;
use pals_base::{Behaviour, Guard, ItemList, NoMemory, StateDecl, Transition};
use step_code::Instr;

/// Whether a step ends in a state. A number of no state is such an end.
pub fn is_complete(states: &[StateDecl], state: usize) -> bool
    ensures { result ≡ completes (slice_get states.now state) }
{
    match states.get(state) {
        None => true,
        Some(declared) => declared.complete,
    }
}

/// Adds the instructions of a transition: its guard, its actions, and the end of the step, or a jump
/// to the block of the state that it goes to.
pub fn push_transition(
    code: &mut ItemList<Instr>,
    behaviour: &Behaviour,
    starts: &[u32],
    transition: &Transition,
) -> Result<(), NoMemory>
    ensures { OnOk result (Adds code.old code.new (transition_code behaviour.now (in_list starts.now) transition.now)) }
{
    let variables = count(behaviour.vars().len())?;
    let never_taken = is_complete(behaviour.states(), transition.source as usize);
    let false_guard_target = false_guard_target(code.len(), transition, never_taken)?;
    push_guard(code, &transition.guard, false_guard_target)?;
    push_acts(code, &transition.acts, variables)?;
    code.push(last_instr(behaviour, starts, transition.target))
}

// The target of a guard that is not true: after the transition, or its last instruction in a complete
// state, in which no step takes a guarded transition and after which there may be no instruction.
fn false_guard_target(
    place: usize,
    transition: &Transition,
    never_taken: bool,
) -> Result<u32, NoMemory>
    ensures { IfOk result (λ to. to ≡ false_guard_target never_taken transition.now place) }
{
    let end = place_behind(place, transition_length(transition))?;
    if never_taken { Ok(end - 1) } else { Ok(end) }
}

// A guard, and the jump to a place where it is not true.
fn push_guard(
    code: &mut ItemList<Instr>,
    guard: &Guard,
    false_guard_target: u32,
) -> Result<(), NoMemory>
    ensures { OnOk result (Adds code.old code.new (trigger_code (trigger_of guard.now) false_guard_target)) }
{
    match guard {
        Guard::Dispatch => Ok(()),
        Guard::Always => Ok(()),
        Guard::When(condition) => {
            push_expr(code, condition)?;
            code.push(Instr::JumpZero(false_guard_target))
        }
    }
}

// The end of a transition.
fn last_instr(behaviour: &Behaviour, starts: &[u32], target: u32) -> Instr
    ensures { result ≡ last_instr behaviour.now (in_list starts.now) target }
{
    if is_complete(behaviour.states(), target as usize) {
        Instr::End(target)
    } else {
        Instr::Jump(item_at(starts, target as usize, 0))
    }
}
