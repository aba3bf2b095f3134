//! How deep loops nest in actions. For a depth past what a number can count, the error is that
//! there is not enough memory.
ghost use Rattle.std.specs.Prelude.{◌≡◌, IfOk};
ghost use Rattle.pals_base.specs.proof.TreeViews.{action_of, actions_along, branches_along};
ghost use Rattle.step_compiler.specs.LoopDepths.{depth_act, depth_acts, depth_branches, depth_edges};

use crate::checked_numbers::next_depth;
use pals_base::{Act, Branch, NoMemory, Transition};

/// How deep loops nest in actions.
#[cycle(depth)]
pub fn acts_depth(acts: &[Act]) -> Result<u32, NoMemory>
    ensures { IfOk result (λ depth. depth ≡ depth_acts (actions_along acts.now)) }
{
    let mut depth = 0;
    for act in acts {
        depth = act_depth(act)?.max(depth);
    }
    Ok(depth)
}

#[cycle(depth)]
fn act_depth(act: &Act) -> Result<u32, NoMemory>
    ensures { IfOk result (λ depth. depth ≡ depth_act (action_of act.now)) }
{
    match act {
        Act::Assign { .. } => Ok(0),
        Act::Emit { .. } => Ok(0),
        Act::If {
            branches,
            otherwise,
        } => {
            let depth = branches_depth(branches)?;
            Ok(depth.max(acts_depth(otherwise)?))
        }
        Act::For { body, .. } => next_depth(acts_depth(body)?),
    }
}

#[cycle(depth)]
fn branches_depth(branches: &[Branch]) -> Result<u32, NoMemory>
    ensures { IfOk result (λ depth. depth ≡ depth_branches (branches_along branches.now)) }
{
    let mut depth = 0;
    for branch in branches {
        depth = acts_depth(&branch.acts)?.max(depth);
    }
    Ok(depth)
}

/// How deep loops nest in the actions of transitions.
pub fn transitions_depth(transitions: &[Transition]) -> Result<u32, NoMemory>
    ensures { IfOk result (λ depth. depth ≡ depth_edges transitions.now) }
{
    let mut depth = 0;
    for transition in transitions {
        depth = acts_depth(&transition.acts)?.max(depth);
    }
    Ok(depth)
}
