//! Monitors of several formulas, side by side.
ghost use Rattle.std.specs.Prelude.{◌≡◌, ◌+◌, ◌++◌, ◌∷◌, [], List, length, false, not, position, slice_index_or};
ghost use Rattle.std.specs.Prelude.{option_map, OnOk, OnErr};
ghost use Rattle.pals_base.specs.declared.frames.Frame.{Frame};
ghost use Rattle.pals_model.specs.declared.design.DesignParts.{DesignParts};
ghost use Rattle.pals_model.specs.declared.environment.Env.{Env};
ghost use Rattle.pals_model.specs.Composition.{comp};
ghost use Rattle.pals_runs.specs.Formula.{Formula};
ghost use Rattle.pals_runs.specs.proof.FormulasOfForms.{formula_of};
ghost use Rattle.run_monitor.specs.proof.FormBits.{row_of};
ghost use Rattle.run_monitor.specs.FormulaSemantics.{frame_rows};
ghost use Rattle.run_monitor.specs.proof.MonitorStates.{said, GoesOn};
ghost use Rattle.run_monitor.specs.proof.SeveralMonitors.{said_by, EachGoesOn, HasWatched, WatchesOn, WatchesRound};

use crate::false_property::FalseProperty;
use crate::monitor::Monitor;
use pals_base::NoMemory;
use pals_model::Part;
use pals_runs::Form;
use std::alloc::Global;
use std::marker::Model;

/// Monitors of several formulas, and the first round at which one of these was false.
#[derive(Drop)]
pub struct Monitors {
    monitors: Vec<Monitor>,
    violation: Option<FalseProperty>,
}

impl Model for Monitors {
    ghost use Rattle.run_monitor.specs.proof.SeveralMonitors.{MonitorsState, monitors_code};

    ghost Value = { MonitorsState };

    ghost coded = { monitors_code };

    ghost view = { λ m. record { monitors = m.monitors.items; violation = m.violation } };
}

impl Monitors {
    /// No monitors.
    pub fn new(alloc: Global) -> Monitors
        ensures { HasWatched result [] [] }
    {
        Monitors {
            monitors: Vec::new(alloc),
            violation: None,
        }
    }

    /// Adds a monitor of a formula, before the first round. If there is not enough memory, nothing
    /// changes.
    pub fn push(&mut self, alloc: Global, form: &Form) -> Result<(), NoMemory>
        ensures ok { (fs : List Formula) → HasWatched self.old fs []
            → OnOk result (HasWatched self.new (fs ++ formula_of form.now ∷ []) []) }
        ensures err { OnErr result (self.new ≡ self.old) }
    {
        let monitor = Monitor::of(alloc, form)?;
        self.monitors.push(monitor)?;
        Ok(())
    }

    /// Advances by one round, with this number, over the parts of all components in it. Does not
    /// allocate.
    pub fn advance(&mut self, round: u32, parts: &[Part])
        ensures watches { (fs : List Formula) (h : List (List Frame)) → HasWatched self.old fs h → round ≡ length h
            → WatchesOn self.new fs h (row_of parts.now) }
        // over the rounds of a design
        ensures composed { (design : DesignParts) (env : Env) (fs : List Formula)
            → HasWatched self.old fs (frame_rows design env round)
            → row_of parts.now ≡ (comp design env (round + 1)).frames → WatchesRound self.new design env fs round }
    {
        advance_each(&mut self.monitors, parts);
        let found = first_false(self.monitors.as_slice());
        self.violation = self.violation.or(violation_of(found, round));
    }

    /// The value at the last round of the formula at an index; false past the end.
    pub fn said(&self, property: usize) -> bool
        ensures { result ≡ slice_index_or (said_by self.now) property false }
    {
        match self.monitors.get(property) {
            Some(monitor) => monitor.said(),
            None => false,
        }
    }

    /// The least round at which a formula was false, and the first that was false there.
    pub fn violation(&self) -> Option<FalseProperty>
        ensures { result ≡ self.now.violation }
    {
        self.violation
    }
}

// Goes one round further with each monitor.
fn advance_each(monitors: &mut Vec<Monitor>, parts: &[Part])
    ensures { EachGoesOn monitors.old.items monitors.new.items (row_of parts.now) }
{
    for at in 0..monitors.len() {
        go_on(&mut monitors[at], parts);
    }
}

// Goes one round further with a monitor.
fn go_on(monitor: &mut Monitor, parts: &[Part])
    ensures { GoesOn monitor.old monitor.new (row_of parts.now) }
{
    monitor.see_all(parts);
    monitor.advance();
}

// The first monitor whose formula was false at the last round.
fn first_false(monitors: &[Monitor]) -> Option<usize>
    ensures { result ≡ position (λ m. not (said m)) monitors.now }
{
    monitors.iter().position(|monitor| !monitor.said())
}

// The violation of the formula at a place, in this round.
fn violation_of(found: Option<usize>, round: u32) -> Option<FalseProperty>
    ensures { result ≡ option_map (λ k. record { property = k; round = round }) found }
{
    found.map(|property| FalseProperty { property, round })
}
