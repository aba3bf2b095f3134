//! The timetable of a round.
ghost use Rattle.std.specs.Prelude.{◌≡◌, ◌≤◌, true, length, IfOk, IfErr, OnOk};
ghost use Rattle.pals_base.specs.declared.limits.TheConstants.{HOUR};
ghost use Rattle.round_budget.specs.Budgets.{timetable, total, fits, numbers};
ghost use Rattle.round_budget.specs.proof.BudgetLaws.{AreMembers};
ghost use Rattle.round_budget.specs.ResponseTimes.{RespondInTime};
ghost use Rattle.round_budget.specs.proof.ReleaseAndLineValues.{AreLines};
ghost use Rattle.round_budget.specs.proof.TimetableResults.{IsEnd, TimetableIsEach};

use crate::processor_load::{fits, total};
use crate::releases::ordered_releases;
use crate::served_steps::{TimetableLine, serve};
use pals_base::{Nanos, NoMemory, NodeNo};
use pals_model::Design;
use std::alloc::Global;
use step_code::Code;

/// Why there is no timetable.
#[derive(Clone, Copy)]
pub enum BudgetEnd {
    /// One step of each component takes `total` nanoseconds at most, more than the longest execution.
    Over { total: u128 },
    /// There was not enough memory, for a total that fits.
    Memory,
}

/// The steps of one round in the order in which the processor serves them, where an instruction takes
/// `nanos` nanoseconds; each executes the maximum number of instructions of its code. A timetable is the
/// timetable of every round, and in any number of rounds each step is done within the maximum execution
/// time after its release, for the maximum number of instructions and for the number that it executes. By
/// clocks within the skew, each step is done less than the skew later, and within the bounds of a world.
pub fn timetable(
    alloc: Global,
    design: &Design,
    codes: &[Code],
    nanos: Nanos,
    members: &[NodeNo],
) -> Result<Vec<TimetableLine>, BudgetEnd>
    requires members { AreMembers design.now (numbers members.now) }
    requires codes { length codes.now ≡ length design.now.components }
    requires nanos { (1 ≤ nanos) × (nanos ≤ HOUR) }
    ensures ok { IfOk result (λ lines. AreLines lines.items
        (timetable design.now codes.now nanos (numbers members.now))) }
    ensures fits { OnOk result (fits design.now.gamma (total nanos codes.now (numbers members.now)) ≡ true) }
    ensures end { IfErr result (λ end. IsEnd design.now codes.now nanos (numbers members.now) end) }
    ensures in_time { OnOk result (RespondInTime design.now codes.now nanos (numbers members.now)) }
    ensures each_round { OnOk result (TimetableIsEach design.now codes.now nanos (numbers members.now)) }
{
    let gamma = design.gamma();
    let total = total(nanos, codes, members);
    if !fits(&gamma, total) {
        return Err(BudgetEnd::Over { total });
    }
    match lines(alloc, design, codes, nanos, members) {
        Ok(lines) => Ok(lines),
        Err(_) => Err(BudgetEnd::Memory),
    }
}

// The steps of one round, where their sum fits.
fn lines(
    alloc: Global,
    design: &Design,
    codes: &[Code],
    nanos: Nanos,
    members: &[NodeNo],
) -> Result<Vec<TimetableLine>, NoMemory>
    requires members { AreMembers design.now (numbers members.now) }
    requires codes { length codes.now ≡ length design.now.components }
    requires fits { total nanos codes.now (numbers members.now) ≤ design.now.gamma.alpha_max }
    ensures { IfOk result (λ lines. AreLines lines.items (timetable design.now codes.now nanos (numbers members.now))) }
{
    let period = design.period();
    let releases = ordered_releases(alloc, design, members)?;
    serve(alloc, codes, nanos, &releases, period)
}
