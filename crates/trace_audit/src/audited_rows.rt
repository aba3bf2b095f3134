//! The rows of a report, computed round by round.
ghost use Rattle.std.specs.Prelude.{◌≡◌, ◌<◌, ◌+◌, ◌/◌, ◌^◌, bytes_eq, IfOk, OnOk};
ghost use Rattle.std.specs.Arc.{arc_value};
ghost use Rattle.pals_model.specs.RoundTexts.{composed_lines};
ghost use Rattle.pals_model.specs.DesignRules.{IsDesign};
ghost use Rattle.run_laws.specs.TraceVerdicts.{line_at, row_size};
ghost use Rattle.trace_audit.specs.proof.RemainingRowLines.{HasLeft};
ghost use Rattle.trace_audit.specs.proof.ReportRows.{AreRows, IsAtLine, left_at};

use crate::row_text::{RowText, row_size};
use pals_base::{NoMemory, PortValue};
use pals_model::{Design, Env};
use pals_report::{TapPlaces, add_row};
use std::alloc::Global;
use std::sync::Arc;
use sync_product::Product;

/// The composition of a design, round by round, and the row of its last round.
#[derive(Drop)]
pub struct AuditedRows<'a> {
    pub env: &'a Env,
    pub product: Product,
    pub values: Vec<PortValue>,
    pub places: TapPlaces,
    pub row: RowText,
}

impl<'a> AuditedRows<'a> {
    /// Before the first line.
    pub fn new(
        alloc: Global,
        design: &Arc<Design>,
        env: &'a Env,
    ) -> Result<AuditedRows<'a>, NoMemory>
        ensures { IfOk result (λ rows. IsAtLine (arc_value design.now) env.now rows 0) }
    {
        let values = vec![in alloc; PortValue::Absent; env.lists.len()]?;
        let places = TapPlaces::new(alloc, design)?;
        let product = Product::new(alloc, Arc::try_clone(design)?)?;
        let row = RowText {
            text: Vec::new(alloc),
            place: 0,
        };
        Ok(AuditedRows {
            env,
            product,
            values,
            places,
            row,
        })
    }

    /// Whether a line is that of the report at an index, where the lines before it were asked for.
    pub fn is_line(&mut self, index: usize, line: &[u8]) -> Result<bool, NoMemory>
        requires at { IsAtLine self.old.product.design self.old.env.now self.old index }
        requires few { index < 2 ^ 32 }
        ensures same { IfOk result (λ same. same
            ≡ bytes_eq line.now (line_at self.old.product.design self.old.env.now index)) }
        ensures next { OnOk result (IsAtLine self.old.product.design self.old.env.now self.new (index + 1)) }
    {
        self.reach(index)?;
        Ok(self.row.take_line(line))
    }

    // Makes the row of a line's round, where the line is the first one of it.
    fn reach(&mut self, index: usize) -> Result<(), NoMemory>
        requires at { IsAtLine self.old.product.design self.old.env.now self.old index }
        requires few { index < 2 ^ 32 }
        ensures rows { OnOk result (AreRows self.old.product.design self.old.env.now self.new
            (index / row_size self.old.product.design + 1)) }
        ensures left { OnOk result (HasLeft self.new.row (left_at self.old.product.design self.old.env.now index)) }
        ensures rules { IsDesign self.old.product.design }
    {
        let size = row_size(self.product.design());
        if index % size == 0 {
            self.make_row((index / size) as u32)
        } else {
            Ok(())
        }
    }

    // Makes a round of the composition, and its row.
    fn make_row(&mut self, round: u32) -> Result<(), NoMemory>
        requires { AreRows self.old.product.design self.old.env.now self.old round }
        ensures rows { OnOk result (AreRows self.old.product.design self.old.env.now self.new (round + 1)) }
        ensures row { OnOk result (HasLeft self.new.row
            (composed_lines self.old.product.design self.old.env.now round)) }
    {
        self.env.write_values(round, &mut self.values);
        self.product.advance(self.values.as_slice())?;
        self.row.place = 0;
        self.row.text.clear();
        add_row(
            &mut self.row.text,
            self.product.design(),
            &self.places,
            round,
            &self.product.parts(),
        )
    }
}
