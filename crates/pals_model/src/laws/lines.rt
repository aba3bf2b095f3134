//! Laws of the lines of rounds and reports.
ghost use Rattle.pals_model.specs.proof.CompositionLaws.TextLines.{RowHasLines, ReportHasLines, TextSplits, RowSplits};
ghost use Rattle.pals_model.specs.proof.CompositionLaws.TextLines.{ReportSplits};

/// In a design no line of a row has a line feed inside, whatever the values, nor has one of a
/// report.
pub fn lines_have_no_line_feed()
    ensures row { RowHasLines }
    ensures report { ReportHasLines }
{}

/// The text of lines splits at its line feeds into these lines. So do the row of a round and the
/// report of a design.
pub fn texts_split_into_lines()
    ensures text { TextSplits }
    ensures row { RowSplits }
    ensures report { ReportSplits }
{}
