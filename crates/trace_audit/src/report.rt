//! The report of a trace: the lines before the first that has a journal line's form.
ghost use Rattle.std.specs.Prelude.{◌≡◌, ◌^◌, ◌<◌, ◌≤◌, length, IfOk};
ghost use Rattle.std.specs.Arc.{arc_value};
ghost use Rattle.trace_audit.specs.proof.ReportEnds.{ReportEnds, end_at, index_of};
ghost use Rattle.trace_audit.specs.proof.ReportRows.{IsAtLine};

use crate::audited_rows::AuditedRows;
use crate::has_form;
use crate::row_text::row_size;
use pals_base::{NoMemory, Text};
use pals_model::{Design, Env};
use std::alloc::Global;
use std::sync::Arc;

/// How the report of a trace ends.
#[derive(Clone, Copy)]
pub enum ReportEnd {
    /// It has this number of lines, in whole rows.
    Whole(usize),
    /// The line of this index is not the composition's, or the last row ends before it.
    Wrong(usize),
}

/// Looks at the lines of the report, each against the composition's line at its place.
pub fn read_report(
    alloc: Global,
    design: &Arc<Design>,
    env: &Env,
    trace: &[Text],
) -> Result<ReportEnd, NoMemory>
    requires { length trace.now < 2 ^ 32 }
    ensures value { IfOk result (ReportEnds (arc_value design.now) env.now trace.now) }
    ensures within { IfOk result (λ end. index_of end ≤ length trace.now) }
{
    let mut rows = AuditedRows::new(alloc, design, env)?;
    read_lines(&mut rows, design, trace)
}

// Looks at the lines, where no round of the composition is made yet.
fn read_lines(
    rows: &mut AuditedRows<'_>,
    design: &Design,
    trace: &[Text],
) -> Result<ReportEnd, NoMemory>
    requires rows { IsAtLine design.now rows.old.env.now rows.old 0 }
    requires few { length trace.now < 2 ^ 32 }
    ensures value { IfOk result (ReportEnds design.now rows.old.env.now trace.now) }
    ensures within { IfOk result (λ end. index_of end ≤ length trace.now) }
{
    let size = row_size(design);
    for index in 0..trace.len() {
        let line = &trace[index];
        if has_form(line.as_str()) {
            return Ok(end_at(index, size));
        }
        if !rows.is_line(index, line.as_bytes())? {
            return Ok(ReportEnd::Wrong(index));
        }
    }
    Ok(end_at(trace.len(), size))
}

// The end of a report that is the composition's up to this index.
fn end_at(index: usize, size: usize) -> ReportEnd
    requires { 0 < size }
    ensures { result ≡ end_at index size }
{
    if index % size == 0 {
        ReportEnd::Whole(index)
    } else {
        ReportEnd::Wrong(index)
    }
}
