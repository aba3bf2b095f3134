//! The report of the composition, as `sync` writes it, row by row.
ghost use Rattle.std.specs.Prelude.{◌≡◌, ◌+◌, ◌++◌, IfOk, OnOk};
ghost use Rattle.pals_model.specs.declared.environment.Env.{Env};
ghost use Rattle.pals_model.specs.Composition.{comp};
ghost use Rattle.pals_model.specs.ComponentInputs.{values_at};
ghost use Rattle.pals_model.specs.RoundTexts.{report, row};
ghost use Rattle.pals_report.specs.proof.TapPlaces.{tap_places};

use pals_base::{NoMemory, PortValue};
use pals_model::{Design, Env};
use pals_report::{TapPlaces, add_row};
use std::alloc::Global;
use std::sync::Arc;
use sync_product::Product;

/// The report of the composition of a design: the rows of the first rounds.
pub fn report(alloc: Global, design: Design, env: &Env, rounds: u32) -> Result<Vec<u8>, NoMemory>
    ensures { IfOk result (λ text. text.items ≡ report design env.now rounds) }
{
    let places = TapPlaces::new(alloc, &design)?;
    let mut product = Product::new(alloc, Arc::new(alloc, design)?)?;
    rows(alloc, &mut product, &places, env, rounds)
}

// The rows of the first rounds of a product that has made none.
fn rows(
    alloc: Global,
    product: &mut Product,
    places: &TapPlaces,
    env: &Env,
    rounds: u32,
) -> Result<Vec<u8>, NoMemory>
    requires places { places.now ≡ tap_places product.old.design.taps }
    requires opening { product.old.configuration ≡ comp product.old.design env.now 0 }
    ensures { IfOk result (λ text. text.items ≡ report product.old.design env.now rounds) }
{
    let mut values = vec![in alloc; PortValue::Absent; env.lists.len()]?;
    let mut text = Vec::new(alloc);
    for round in 0..rounds {
        env.write_values(round, &mut values);
        add_round(&mut text, product, places, values.as_slice(), round)?;
    }
    Ok(text)
}

// Goes one round further with these values of the root in ports, and adds its row.
fn add_round(
    text: &mut Vec<u8>,
    product: &mut Product,
    places: &TapPlaces,
    values: &[PortValue],
    round: u32,
) -> Result<(), NoMemory>
    requires places { places.now ≡ tap_places product.old.design.taps }
    ensures design { OnOk result (product.new.design ≡ product.old.design) }
    ensures further { (env : Env) → values.now ≡ values_at env round
        → product.old.configuration ≡ comp product.old.design env round
        → OnOk result (product.new.configuration ≡ comp product.old.design env (round + 1)) }
    ensures row { (env : Env) → values.now ≡ values_at env round
        → product.old.configuration ≡ comp product.old.design env round
        → OnOk result (text.new.items ≡ text.old.items ++ row product.old.design env round) }
{
    product.advance(values)?;
    add_row(text, product.design(), places, round, &product.parts())
}
