//! The line of a rejected scenario.
ghost use Rattle.std.specs.Prelude.{◌≡◌, [], ◌∷◌, ◌++◌, codes, OnOk, OnErr};
ghost use Rattle.pals_model.specs.RoundTexts.{line_end};
ghost use Rattle.pals_runs.specs.JournalLines.{spaced};
ghost use Rattle.pals_report.specs.ScenarioFaultLines.{scenario_fault_line};

use crate::line_word::{LineWord, add_line};
use pals_base::{NoMemory, Text};
use scenario_values::ScenarioFault;

// A fault and the name of its location.
fn add_named<'a>(out: &mut Vec<u8>, fault: &'a [u8], place: &'a Text) -> Result<(), NoMemory>
    ensures ok { OnOk result (out.new.items
        ≡ out.old.items ++ spaced (codes "scenario" ∷ fault.now ∷ place.now ∷ []) ++ line_end) }
    ensures err { OnErr result (out.new.items ≡ out.old.items) }
{
    let scenario = LineWord::Bytes(b"scenario");
    add_line(
        out,
        &[
            scenario,
            LineWord::Bytes(fault),
            LineWord::Bytes(place.as_bytes()),
        ],
    )
}

/// Appends the line of a scenario fault: `scenario`, the fault, and its location. Errors: out of memory; the
/// buffer is then unchanged.
pub fn add_scenario_fault(out: &mut Vec<u8>, fault: &ScenarioFault) -> Result<(), NoMemory>
    ensures ok { OnOk result
        (out.new.items ≡ out.old.items ++ scenario_fault_line fault.now ++ line_end) }
    ensures err { OnErr result (out.new.items ≡ out.old.items) }
{
    let scenario = LineWord::Bytes(b"scenario");
    match fault {
        ScenarioFault::NotJson => add_line(out, &[scenario, LineWord::Bytes(b"NotJson")]),
        ScenarioFault::Field { name } => add_named(out, b"Field", name),
        ScenarioFault::WrongKind { name } => add_named(out, b"WrongKind", name),
        ScenarioFault::Unknown { name } => add_named(out, b"Unknown", name),
        ScenarioFault::OutOfRange { name } => add_named(out, b"OutOfRange", name),
        ScenarioFault::TooBig { cells } => add_line(
            out,
            &[
                scenario,
                LineWord::Bytes(b"TooBig"),
                LineWord::Number(*cells),
            ],
        ),
        ScenarioFault::Memory => add_line(out, &[scenario, LineWord::Bytes(b"Memory")]),
    }
}
