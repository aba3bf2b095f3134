//! What actions do to the variables and to this step's outputs.
ghost use Rattle.std.specs.Prelude.{◌≡◌, length, slice_set};
ghost use Rattle.pals_base.specs.Actions.{act, acts};
ghost use Rattle.pals_base.specs.ExpressionAndActionTrees.{For};
ghost use Rattle.pals_base.specs.proof.TreeViews.{action_of, actions_along, branches_along};
ghost use Rattle.behaviour_sem.specs.proof.ActionExecution.{Runs, RunsFirst, turn};

use crate::early_end::EarlyEnd;
use crate::expressions::{eval, holds};
use crate::step_inputs::StepInputs;
use pals_base::{Act, Branch, PortValue};

/// Does actions one after the other. A stop leaves the variables and outputs as they then are, and
/// no more variables than before.
#[cycle(run)]
pub fn run_all(
    actions: &[Act],
    vars: &mut Vec<i64>,
    outs: &mut [PortValue],
    inputs: &StepInputs,
) -> Result<(), EarlyEnd>
    ensures runs { Runs result (acts (actions_along actions.now)) inputs.now (vars.old, outs.old)
        (vars.new, outs.new) }
    ensures len { length vars.new.items ≡ length vars.old.items }
{
    for action in actions {
        run(action, vars, outs, inputs)?;
    }
    Ok(())
}

// Does one action.
#[cycle(run)]
fn run(
    action: &Act,
    vars: &mut Vec<i64>,
    outs: &mut [PortValue],
    inputs: &StepInputs,
) -> Result<(), EarlyEnd>
    ensures runs { Runs result (act (action_of action.now)) inputs.now (vars.old, outs.old) (vars.new, outs.new) }
    ensures len { length vars.new.items ≡ length vars.old.items }
{
    match action {
        Act::Assign { variable, value } => {
            let value = eval(value, vars, inputs)?;
            set_at(vars, *variable, value);
            Ok(())
        }
        Act::Emit { port, value } => {
            let value = eval(value, vars, inputs)?;
            set_at(outs, *port, PortValue::Present(value));
            Ok(())
        }
        Act::If {
            branches,
            otherwise,
        } => {
            if run_first(branches, vars, outs, inputs)? {
                Ok(())
            } else {
                run_all(otherwise, vars, outs, inputs)
            }
        }
        Act::For { low, high, body } => run_turns(*low, *high, body, vars, outs, inputs),
    }
}

// Runs the first branch whose guard is true, and returns whether there is one.
#[cycle(run)]
fn run_first(
    branches: &[Branch],
    vars: &mut Vec<i64>,
    outs: &mut [PortValue],
    inputs: &StepInputs,
) -> Result<bool, EarlyEnd>
    ensures runs { RunsFirst result (branches_along branches.now) inputs.now (vars.old, outs.old)
        (vars.new, outs.new) }
    ensures len { length vars.new.items ≡ length vars.old.items }
{
    for branch in branches {
        if holds(eval(&branch.guard, vars, inputs)?) {
            run_all(&branch.acts, vars, outs, inputs)?;
            return Ok(true);
        }
    }
    Ok(false)
}

// Does a body once for each number from `low` to `high`.
#[cycle(run)]
fn run_turns(
    low: i64,
    high: i64,
    body: &[Act],
    vars: &mut Vec<i64>,
    outs: &mut [PortValue],
    inputs: &StepInputs,
) -> Result<(), EarlyEnd>
    ensures runs { Runs result (act (For low high (actions_along body.now))) inputs.now (vars.old, outs.old)
        (vars.new, outs.new) }
    ensures len { length vars.new.items ≡ length vars.old.items }
{
    for number in low..=high {
        run_turn(number, body, vars, outs, inputs)?;
    }
    Ok(())
}

// Runs a body at one number of its loop, which follows the variables and is then removed, also if
// a trap ends the body.
#[cycle(run)]
fn run_turn(
    number: i64,
    body: &[Act],
    vars: &mut Vec<i64>,
    outs: &mut [PortValue],
    inputs: &StepInputs,
) -> Result<(), EarlyEnd>
    ensures runs { Runs result (turn number (actions_along body.now)) inputs.now (vars.old, outs.old)
        (vars.new, outs.new) }
    ensures len { length vars.new.items ≡ length vars.old.items }
{
    let depth = vars.len();
    if vars.push(number).is_err() {
        return Err(EarlyEnd::NoMemory);
    }
    let ended = run_all(body, vars, outs, inputs);
    vars.truncate(depth);
    ended
}

// Puts an item in a place. Past the end nothing happens.
fn set_at<T: Copy>(items: &mut [T], at: u32, item: T)
    ensures { items.new ≡ slice_set items.old at item }
{
    let at = at as usize;
    if at < items.len() {
        items[at] = item;
    }
}
