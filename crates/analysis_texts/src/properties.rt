//! The text of watched properties, as `watch` prints it: the value of each in each round, and the first that is false.
ghost use Rattle.std.specs.Prelude.{◌≡◌, ◌++◌, [], ◌+◌, ◌<◌, List, length, IfOk, IfSome, OnOk};
ghost use Rattle.pals_base.specs.declared.frames.Frame.{Frame};
ghost use Rattle.pals_model.specs.declared.environment.Env.{Env};
ghost use Rattle.pals_model.specs.Composition.{comp};
ghost use Rattle.pals_model.specs.ComponentInputs.{values_at};
ghost use Rattle.pals_model.specs.RoundTexts.{text_of, line_end};
ghost use Rattle.run_monitor.specs.FalseProperties.{formula_values, is_some_false};
ghost use Rattle.run_monitor.specs.FormulaSemantics.{frame_rows};
ghost use Rattle.run_monitor.specs.WatchText.{names_of, verdict_line, watched_lines, first_false_text, last_line};
ghost use Rattle.run_monitor.specs.WatchText.{watch_text};
ghost use Rattle.pals_runs.specs.Formula.{Formula};
ghost use Rattle.run_monitor.specs.proof.SeveralMonitors.{said_by, HasWatched, WatchesRound};
ghost use Rattle.analysis_texts.specs.MonitoredFormulas.{named, formulas};

use analysis_fields::Property;
use pals_base::{NoMemory, PortValue};
use pals_model::{Design, Env};
use pals_report::{LineWord, add_line, add_round};
use run_monitor::{FalseProperty, Monitors};
use std::alloc::Global;
use std::sync::Arc;
use sync_product::Product;

/// What is written of watched properties, and whether one of them was false at some round.
#[derive(Drop)]
pub struct Watched {
    pub text: Vec<u8>,
    pub violated: bool,
}

/// Watches properties over the first rounds of the composition of a design.
pub fn watch(
    alloc: Global,
    design: Design,
    env: &Env,
    rounds: u32,
    properties: &[Property],
) -> Result<Watched, NoMemory>
    ensures text { IfOk result (λ w. w.text.items ≡ watch_text design env.now rounds (named properties.now)) }
    ensures violated { IfOk result (λ w. w.violated ≡ is_some_false design env.now rounds (formulas properties.now)) }
{
    let mut monitors = monitors(alloc, properties)?;
    let mut product = Product::new(alloc, Arc::new(alloc, design)?)?;
    watch_rounds(alloc, &mut product, &mut monitors, env, rounds, properties)
}

// Watches the first rounds of a product that has made none, by monitors that have seen none.
fn watch_rounds(
    alloc: Global,
    product: &mut Product,
    monitors: &mut Monitors,
    env: &Env,
    rounds: u32,
    properties: &[Property],
) -> Result<Watched, NoMemory>
    requires opening { product.old.configuration ≡ comp product.old.design env.now 0 }
    requires monitors { HasWatched monitors.old (formulas properties.now) [] }
    ensures text { IfOk result (λ w. w.text.items
        ≡ watch_text product.old.design env.now rounds (named properties.now)) }
    ensures violated { IfOk result (λ w. w.violated
        ≡ is_some_false product.old.design env.now rounds (formulas properties.now)) }
{
    let mut values = vec![in alloc; PortValue::Absent; env.lists.len()]?;
    let mut text = Vec::new(alloc);
    for round in 0..rounds {
        env.write_values(round, &mut values);
        go_on(product, values.as_slice(), monitors, round)?;
        add_verdicts(&mut text, round, properties, monitors)?;
    }
    let violation = monitors.violation();
    add_end(&mut text, rounds, properties, violation)?;
    let violated = violation.is_some();
    Ok(Watched { text, violated })
}

// A monitor of each property.
fn monitors(alloc: Global, properties: &[Property]) -> Result<Monitors, NoMemory>
    ensures { IfOk result (λ monitors. HasWatched monitors (formulas properties.now) []) }
{
    let mut monitors = Monitors::new(alloc);
    for property in properties {
        monitors.push(alloc, &property.form)?;
    }
    Ok(monitors)
}

// Goes one round further, and lets the monitors see what it leaves.
fn go_on(
    product: &mut Product,
    values: &[PortValue],
    monitors: &mut Monitors,
    round: u32,
) -> Result<(), NoMemory>
    ensures design { OnOk result (product.new.design ≡ product.old.design) }
    ensures further { (env : Env) → values.now ≡ values_at env round
        → product.old.configuration ≡ comp product.old.design env round
        → OnOk result (product.new.configuration ≡ comp product.old.design env (round + 1)) }
    ensures watches { (env : Env) (fs : List Formula) → values.now ≡ values_at env round
        → product.old.configuration ≡ comp product.old.design env round
        → HasWatched monitors.old fs (frame_rows product.old.design env round)
        → OnOk result (WatchesRound monitors.new product.old.design env fs round) }
{
    product.advance(values)?;
    monitors.advance(round, product.parts());
    Ok(())
}

// Appends the line of a round, and the value of each property there.
fn add_verdicts(
    text: &mut Vec<u8>,
    round: u32,
    properties: &[Property],
    monitors: &Monitors,
) -> Result<(), NoMemory>
    ensures { (h : List (List Frame)) → said_by monitors.now ≡ formula_values (formulas properties.now) h round
        → OnOk result (text.new.items ≡ text.old.items ++ text_of (watched_lines (named properties.now) h round)) }
{
    add_round(text, round)?;
    for (at, property) in properties.iter().enumerate() {
        add_verdict(text, property, monitors.said(at))?;
    }
    Ok(())
}

// Appends the value of a property.
fn add_verdict(text: &mut Vec<u8>, property: &Property, said: bool) -> Result<(), NoMemory>
    ensures { OnOk result (text.new.items ≡ text.old.items ++ verdict_line property.now.name said ++ line_end) }
{
    let verdict = if said {
        LineWord::Bytes(b"true")
    } else {
        LineWord::Bytes(b"false")
    };
    add_line(text, &[LineWord::Bytes(property.name.as_bytes()), verdict])
}

// Adds the last line.
fn add_end(
    text: &mut Vec<u8>,
    rounds: u32,
    properties: &[Property],
    violation: Option<FalseProperty>,
) -> Result<(), NoMemory>
    requires { IfSome violation (λ v. v.property < length properties.now) }
    ensures { OnOk result (text.new.items ≡ text.old.items
        ++ last_line rounds (first_false_text (names_of (named properties.now)) violation) ++ line_end) }
{
    let watch = LineWord::Bytes(b"watch");
    let of_rounds = LineWord::Bytes(b"rounds");
    let first = LineWord::Bytes(b"first");
    let count = LineWord::Number(u64::from(rounds));
    match violation {
        None => add_line(
            text,
            &[watch, of_rounds, count, first, LineWord::Bytes(b"none")],
        ),
        Some(violation) => {
            let property = &properties[violation.property];
            let name = LineWord::Bytes(property.name.as_bytes());
            let round = LineWord::Number(u64::from(violation.round));
            add_line(text, &[watch, of_rounds, count, first, name, round])
        }
    }
}
