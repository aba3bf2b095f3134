//! The journal of a bus.
ghost use Rattle.std.specs.Prelude.{◌≡◌, ◌++◌, map, OnOk, OnErr};
ghost use Rattle.pals_model.specs.RoundTexts.{text_of};
ghost use Rattle.pals_runs.specs.JournalLines.{entry_line};
ghost use Rattle.pals_report.specs.proof.TextPrefixes.{BeginsWith};

use pals_base::NoMemory;
use pals_bus::Bus;
use pals_report::{add_entry, whole_or_none};

/// Adds a line for each entry of the journal. If there is not enough memory, nothing is added.
pub fn add_journal(out: &mut Vec<u8>, bus: &Bus) -> Result<(), NoMemory>
    ensures ok { OnOk result
        (out.new.items ≡ out.old.items ++ text_of (map (entry_line bus.now.run.design) bus.now.journal)) }
    ensures err { OnErr result (out.new.items ≡ out.old.items) }
{
    let start = out.len();
    let written = add_entries(out, bus);
    whole_or_none(out, start, written)
}

// Adds the lines one by one.
fn add_entries(out: &mut Vec<u8>, bus: &Bus) -> Result<(), NoMemory>
    ensures ok { OnOk result
        (out.new.items ≡ out.old.items ++ text_of (map (entry_line bus.now.run.design) bus.now.journal)) }
    ensures err { OnErr result (BeginsWith out.new.items out.old.items) }
{
    for entry in bus.journal() {
        add_entry(out, bus.design(), entry)?;
    }
    Ok(())
}
