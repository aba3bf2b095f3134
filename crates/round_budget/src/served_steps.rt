//! The steps of a processor as lines of its timetable: served one after the other, each with its begin and its end.
ghost use Rattle.std.specs.Prelude.{All, IfOk};
ghost use Rattle.round_budget.specs.proof.ReleaseAndLineValues.{release_value, served_lines, AreLines};
ghost use Rattle.round_budget.specs.proof.ServableReleases.{CanServe};

use crate::releases::Release;
use pals_base::{Nanos, NoMemory, NodeNo};
use std::alloc::Global;
use step_code::Code;
use step_code::code::most;

/// A step of a round: when it begins and when it is done, in nanoseconds since the round's alarm.
#[derive(Clone, Copy)]
pub struct TimetableLine {
    pub node: NodeNo,
    pub step: u32,
    pub begin: u128,
    pub done: u128,
}

/// The steps of these releases, one after the other, where an instruction takes `nanos` nanoseconds;
/// each takes the most instructions of its code. Times are counted from the start.
pub fn serve(
    alloc: Global,
    codes: &[Code],
    nanos: Nanos,
    releases: &[Release],
    start: Nanos,
) -> Result<Vec<TimetableLine>, NoMemory>
    requires { All (λ release. CanServe codes.now nanos start (release_value release)) releases.now }
    ensures { IfOk result (λ lines. AreLines lines.items (served_lines codes.now nanos start releases.now)) }
{
    let start = u128::from(start);
    let mut lines = Vec::new(alloc);
    let mut free: u128 = 0;
    for release in releases {
        let most = most(&codes[release.node.0 as usize]);
        let begin = u128::from(release.time).max(free);
        let done = begin + u128::from(nanos) * u128::from(most);
        lines.push(TimetableLine {
            node: release.node,
            step: release.step,
            begin: begin - start,
            done: done - start,
        })?;
        free = done;
    }
    Ok(lines)
}
