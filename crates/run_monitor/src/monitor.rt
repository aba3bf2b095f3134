//! A monitor of one formula, which advances round by round with one bit for each subformula.
ghost use Rattle.std.specs.Prelude.{◌≡◌, IfOk};
ghost use Rattle.pals_runs.specs.proof.FormulasOfForms.{formula_of};
ghost use Rattle.run_monitor.specs.proof.FormBits.{row_of};
ghost use Rattle.run_monitor.specs.proof.MonitorStates.{said, IsNew, Sees, SeesAll, Advances};

use crate::flat_form::{FlatForm, add};
use crate::form_bits::{advance_all, bit_at, see_frame, see_row};
use pals_base::{Frame, ItemList, NoMemory, NodeNo};
use pals_model::Part;
use pals_runs::Form;
use std::alloc::Global;
use std::marker::Model;
use std::mem::swap;

/// A monitor of a formula: for each subformula, its value at the last round.
#[derive(Drop)]
pub struct Monitor {
    forms: ItemList<FlatForm>,
    begun: bool,
    kept: ItemList<bool>,
    seen: ItemList<bool>,
}

impl Model for Monitor {
    ghost use Rattle.run_monitor.specs.proof.MonitorStates.{MonitorState, state_code};

    ghost Value = { MonitorState };

    ghost coded = { state_code };

    ghost use Rattle.run_monitor.specs.proof.FlatForms.{forms_of};
    ghost use Rattle.run_monitor.specs.proof.MonitorStates.{IsReady};

    ghost view = { λ m. record { forms = forms_of m.forms; begun = m.begun; kept = m.kept; seen = m.seen } };

    ghost invariant = { λ m. IsReady m.forms m.kept m.seen };
}

impl Monitor {
    /// A monitor that has not advanced: it stands for no rounds.
    pub fn new(alloc: Global, form: Form) -> Result<Monitor, NoMemory>
        ensures { IfOk result (λ monitor. IsNew (formula_of form) monitor) }
    {
        Monitor::of(alloc, &form)
    }

    /// A monitor of a formula that the caller stores. The recursion is as deep as the formula.
    pub fn of(alloc: Global, form: &Form) -> Result<Monitor, NoMemory>
        ensures { IfOk result (λ monitor. IsNew (formula_of form.now) monitor) }
    {
        let mut forms = ItemList::new(alloc);
        add(&mut forms, form)?;
        let kept = ItemList::from_vec(vec![in alloc; false; forms.len()]?);
        let seen = ItemList::from_vec(vec![in alloc; false; forms.len()]?);
        Ok(Monitor {
            forms,
            begun: false,
            kept,
            seen,
        })
    }

    /// Sees the frame of a component after the next round. Does not allocate.
    pub fn see(&mut self, node: NodeNo, frame: &Frame)
        ensures { Sees self.old self.new node.0 frame.now }
    {
        see_frame(self.forms.as_slice(), node, frame, &mut self.seen);
    }

    /// Sees the parts of all components of the next round. The time depends only on the formula. Does not
    /// allocate.
    pub fn see_all(&mut self, parts: &[Part])
        ensures { SeesAll self.old self.new (row_of parts.now) }
    {
        see_row(self.forms.as_slice(), parts, &mut self.seen);
    }

    /// Advances by one round, whose frames it has seen, and returns the formula's value there. Does not
    /// allocate.
    pub fn advance(&mut self) -> bool
        ensures { Advances self.old self.new result }
    {
        advance_all(
            self.forms.as_slice(),
            self.begun,
            self.kept.as_slice(),
            &mut self.seen,
        );
        swap(&mut self.kept, &mut self.seen);
        self.begun = true;
        self.said()
    }

    /// The formula's value at the last round; false before the first.
    pub fn said(&self) -> bool
        ensures { result ≡ said self.now }
    {
        bit_at(self.kept.as_slice(), self.forms.len() - 1)
    }
}
