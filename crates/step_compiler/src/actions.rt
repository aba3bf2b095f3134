//! The instructions of actions.
ghost use Rattle.std.specs.Prelude.{[], ◌∷◌, OnOk};
ghost use Rattle.pals_base.specs.proof.TreeViews.{action_of, actions_along, branches_along};
ghost use Rattle.pals_base.specs.ExpressionAndActionTrees.{For};
ghost use Rattle.step_compiler.specs.ExpressionAndActionInstructions.{code_act, code_acts, code_branches};
ghost use Rattle.step_compiler.specs.proof.AppendedCode.{Adds};

use crate::checked_numbers::{next_depth, place_behind};
use crate::code_lengths::{acts_length, branches_length, expr_length};
use crate::expressions::push_expr;
use pals_base::{Act, Branch, ItemList, NoMemory};
use step_code::Instr;

/// Appends the instructions of actions, with `variables` variables in scope, including the variables of the
/// surrounding loops. The recursion is as deep as the tree, and counts each part again at each
/// level above it.
#[cycle(push_act)]
pub fn push_acts(code: &mut ItemList<Instr>, acts: &[Act], variables: u32) -> Result<(), NoMemory>
    ensures { OnOk result (Adds code.old code.new (code_acts (actions_along acts.now) variables)) }
{
    for act in acts {
        push_act(code, act, variables)?;
    }
    Ok(())
}

#[cycle(push_act)]
fn push_act(code: &mut ItemList<Instr>, act: &Act, variables: u32) -> Result<(), NoMemory>
    ensures { OnOk result (Adds code.old code.new (code_act (action_of act.now) variables)) }
{
    match act {
        Act::Assign { variable, value } => {
            push_expr(code, value)?;
            code.push(Instr::Store(*variable))
        }
        Act::Emit { port, value } => {
            push_expr(code, value)?;
            code.push(Instr::Emit(*port))
        }
        Act::If {
            branches,
            otherwise,
        } => {
            let length = branches_length(branches).saturating_add(acts_length(otherwise));
            let end = place_behind(code.len(), length)?;
            push_branches(code, branches, variables, end)?;
            push_acts(code, otherwise, variables)
        }
        Act::For { low, high, body } => push_for(code, *low, *high, body, variables),
    }
}

// The body between the two ends of a loop.
#[cycle(push_act)]
fn push_for(
    code: &mut ItemList<Instr>,
    low: i64,
    high: i64,
    body: &[Act],
    variables: u32,
) -> Result<(), NoMemory>
    ensures { OnOk result (Adds code.old code.new (code_act (For low high (actions_along body.now)) variables)) }
{
    let slot = variables;
    let to = place_behind(code.len(), 1)?;
    let exit = place_behind(code.len(), acts_length(body).saturating_add(2))?;
    code.push(Instr::LoopStart {
        slot,
        low,
        high,
        exit,
    })?;
    push_acts(code, body, next_depth(variables)?)?;
    code.push(Instr::LoopNext { slot, high, to })
}

// The branches of an `if`, each of which jumps to the end of all.
#[cycle(push_act)]
fn push_branches(
    code: &mut ItemList<Instr>,
    branches: &[Branch],
    variables: u32,
    end: u32,
) -> Result<(), NoMemory>
    ensures { OnOk result (Adds code.old code.new (code_branches (branches_along branches.now) variables end)) }
{
    for branch in branches {
        push_branch(code, branch, variables, end)?;
    }
    Ok(())
}

// One branch: where its guard is not true, it jumps to the next one.
#[cycle(push_act)]
fn push_branch(
    code: &mut ItemList<Instr>,
    branch: &Branch,
    variables: u32,
    end: u32,
) -> Result<(), NoMemory>
    ensures { OnOk result (Adds code.old code.new (code_branches (branches_along (branch.now ∷ [])) variables end)) }
{
    let length = expr_length(&branch.guard).saturating_add(acts_length(&branch.acts));
    let next = place_behind(code.len(), length.saturating_add(2))?;
    push_expr(code, &branch.guard)?;
    code.push(Instr::JumpZero(next))?;
    push_acts(code, &branch.acts, variables)?;
    code.push(Instr::Jump(end))
}
