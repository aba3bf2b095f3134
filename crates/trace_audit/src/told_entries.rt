//! The entries that lines denote.
ghost use Rattle.std.specs.Prelude.{◌≡◌, ℕ, List, Some, IfSome};
ghost use Rattle.pals_model.specs.declared.design.DesignParts.{DesignParts};
ghost use Rattle.pals_model.specs.ComponentAndLinkNames.{node_named, link_named};
ghost use Rattle.run_laws.specs.EntriesOfDesigns.{IsEntryIn};
ghost use Rattle.run_laws.specs.EntriesInLines.{entry_of, entry_of_line};
ghost use Rattle.trace_audit.specs.proof.LineForms.{node_form, link_form, shown};

use crate::journal_lines::{JournalLine, LinkLine, NodeLine, form_of};
use pals_base::{LinkNo, NodeNo};
use pals_runs::{JournalEntry, Stop};
use scenario_values::DesignNames;

// The entry of a line about a node.
fn node_entry(node: NodeNo, what: NodeLine) -> JournalEntry
    ensures { (design : DesignParts) (name : List ℕ) → node_named design name ≡ Some node.0 →
        entry_of design (node_form name what) ≡ Some result }
{
    match what {
        NodeLine::Start { round, reading } => JournalEntry::Start {
            node,
            round,
            reading,
        },
        NodeLine::Step {
            round,
            step,
            reading,
        } => JournalEntry::Step {
            node,
            round,
            step,
            reading,
        },
        NodeLine::Finish { round } => JournalEntry::Finish { node, round },
        NodeLine::Send { round, reading } => JournalEntry::Send {
            node,
            round,
            reading,
        },
    }
}

// The entry of a line about a link.
fn link_entry(link: LinkNo, what: LinkLine) -> JournalEntry
    ensures { (design : DesignParts) (name : List ℕ) → link_named design name ≡ Some link.0 →
        entry_of design (link_form name what) ≡ Some result }
{
    match what {
        LinkLine::Arrive {
            round,
            reading,
            outcome,
        } => JournalEntry::Arrive {
            link,
            round,
            reading,
            result: outcome,
        },
        LinkLine::Drop { round } => JournalEntry::Drop { link, round },
        LinkLine::Repeat { round } => JournalEntry::Repeat { link, round },
        LinkLine::Early { round, reading } => JournalEntry::Stopped(Stop::Early {
            link,
            round,
            reading,
        }),
        LinkLine::Missed {
            round,
            reading,
            cause,
        } => JournalEntry::Stopped(Stop::Missed {
            link,
            round,
            reading,
            cause,
        }),
    }
}

// The entry of a form, where its name is the design's.
fn entry_of(names: &DesignNames<'_>, form: JournalLine<'_>) -> Option<JournalEntry>
    ensures { result ≡ entry_of names.now (shown form.entry) }
{
    match form {
        JournalLine::OfNode(name, what) => Some(node_entry(names.find_node(name)?, what)),
        JournalLine::OfLink(name, what) => Some(link_entry(names.find_link(name)?, what)),
    }
}

/// The entry that a line denotes; `None` if the line has no form or names nothing of the design. Its node
/// or link exists, and its numbers are within their limits.
pub fn told(names: &DesignNames<'_>, line: &str) -> Option<JournalEntry>
    ensures value { result ≡ entry_of_line names.now line.now }
    ensures within { IfSome result (IsEntryIn names.now) }
{
    entry_of(names, form_of(line)?)
}
