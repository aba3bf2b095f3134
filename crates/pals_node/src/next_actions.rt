//! What comes next in a round, and the reading that it waits for.
ghost use Rattle.std.specs.Prelude.{◌≡◌, ◌<◌, ◌-◌};
ghost use Rattle.pals_base.specs.declared.limits.TheConstants.{ROUNDS};
ghost use Rattle.bus_machine.specs.ActionsAndTargets.{target, next_action, send_is_next};
ghost use Rattle.pals_node.specs.proof.NodeInvariants.{IsPlan};

use bus_machine::{Next, NodeAction, Plan};
use output_backoff::release_at;
use pals_base::Nanos;
use round_timer::{alarm, step_alarm};

/// The start of a round.
pub fn next_start(plan: &Plan, round: u32) -> Next
    requires plan { IsPlan plan.now }
    requires round { round < ROUNDS }
    ensures { result ≡ record { action = NodeAction.Start round; target = target plan.now (NodeAction.Start round) } }
{
    Next {
        action: NodeAction::Start { round },
        target: alarm(plan.period, round),
    }
}

/// The send of a round.
pub fn next_send(plan: &Plan, round: u32) -> Next
    requires plan { IsPlan plan.now }
    requires round { round < ROUNDS }
    ensures { result ≡ record { action = NodeAction.Send round; target = target plan.now (NodeAction.Send round) } }
{
    Next {
        action: NodeAction::Send { round },
        target: release_at(plan.period, plan.release_offset, round),
    }
}

/// What comes next within a round after `steps` finished steps: the send, or the next step.
pub fn next_in_round(plan: &Plan, round: u32, steps: u32, sent: bool) -> Next
    requires plan { IsPlan plan.now }
    requires round { round < ROUNDS }
    requires steps { steps < plan.now.rate }
    ensures { result ≡ (let a = next_action plan.now (record { round = round; steps = steps; sent = sent })
        in record { action = a; target = target plan.now a }) }
{
    if send_is_next(plan, round, steps, sent) {
        return next_send(plan, round);
    }
    Next {
        action: NodeAction::Step { round, step: steps },
        target: step_alarm(plan.period, plan.step_period, round, steps),
    }
}

// Whether the send comes before the next step.
fn send_is_next(plan: &Plan, round: u32, steps: u32, sent: bool) -> bool
    requires plan { IsPlan plan.now }
    requires steps { steps < plan.now.rate }
    ensures { result ≡ send_is_next plan.now (record { round = round; steps = steps; sent = sent }) }
{
    let _round = round;
    !sent
        && plan.sent_steps <= steps
        && (steps == plan.rate || plan.release_offset <= u64::from(steps) * plan.step_period)
}
