//! The report of fused composition, as `fuse` writes it, row by row.
ghost use Rattle.std.specs.Prelude.{◌≡◌, ◌++◌, [], IfOk, OnOk, slice_get};
ghost use Rattle.pals_model.specs.DesignRules.{IsDesign};
ghost use Rattle.pals_model.specs.RoundTexts.{text_of, row_lines, report};
ghost use Rattle.pals_report.specs.proof.TapPlaces.{tap_places};
ghost use Rattle.plant_fuse.specs.FusedComposition.{ArePairs};
ghost use Rattle.plant_fuse.specs.proof.FuseState.{begun, IsAdvanced};
ghost use Rattle.plant_fuse.specs.FusedReport.{IsFusedReport};

use pals_base::{ItemList, NoMemory, PortValue};
use pals_model::{Design, Env};
use pals_report::{TapPlaces, add_row};
use pals_runs::Pair;
use plant_fuse::{FuseEnd, FuseProduct};
use std::alloc::{AllocError, Global};
use std::sync::Arc;

/// The report of the fused composition of a design, for pairs that can be fused: the rows of the first
/// rounds. Without pairs they are the composition's.
pub fn fuse(
    alloc: Global,
    design: Design,
    env: &Env,
    rounds: u32,
    pairs: &[Pair],
) -> Result<Vec<u8>, NoMemory>
    requires { ArePairs design pairs.now }
    ensures fused { IfOk result (λ text. IsFusedReport design pairs.now env.now rounds text.items) }
    ensures alone { IfOk result (λ text. pairs.now ≡ [] → text.items ≡ report design env.now rounds) }
{
    let places = TapPlaces::new(alloc, &design)?;
    let mut product = begin(alloc, design, pairs)?;
    fused_rows(alloc, &mut product, &places, env, rounds)
}

// The fused composition before the first round.
fn begin(alloc: Global, design: Design, pairs: &[Pair]) -> Result<FuseProduct, NoMemory>
    requires { ArePairs design pairs.now }
    ensures opening { IfOk result (λ product. product ≡ begun design pairs.now) }
    ensures rules { OnOk result (IsDesign design) }
{
    let pairs = ItemList::from_slice(alloc, pairs)?;
    match FuseProduct::new(alloc, Arc::new(alloc, design)?, pairs) {
        Ok(product) => Ok(product),
        Err(FuseEnd::Memory) => Err(AllocError),
        Err(FuseEnd::BadPair { .. }) => unreachable!(),
    }
}

// The rows of the first rounds of a fused composition that has made none.
fn fused_rows(
    alloc: Global,
    product: &mut FuseProduct,
    places: &TapPlaces,
    env: &Env,
    rounds: u32,
) -> Result<Vec<u8>, NoMemory>
    requires rules { IsDesign product.old.design }
    requires pairs { ArePairs product.old.design product.old.pairs }
    requires opening { product.old ≡ begun product.old.design product.old.pairs }
    requires places { places.now ≡ tap_places product.old.design.taps }
    ensures { IfOk result (λ text. IsFusedReport product.old.design product.old.pairs env.now rounds text.items) }
{
    let mut values = vec![in alloc; PortValue::Absent; env.lists.len()]?;
    let mut text = Vec::new(alloc);
    for round in 0..rounds {
        env.write_values(round, &mut values);
        add_fused_row(&mut text, product, places, values.as_slice(), round)?;
    }
    Ok(text)
}

// Goes one round further with these values of the root in ports, and adds its row.
fn add_fused_row(
    text: &mut Vec<u8>,
    product: &mut FuseProduct,
    places: &TapPlaces,
    values: &[PortValue],
    round: u32,
) -> Result<(), NoMemory>
    requires places { places.now ≡ tap_places product.old.design.taps }
    ensures further { OnOk result (IsAdvanced product.old values.now product.new) }
    ensures row { OnOk result
        (text.new.items ≡ text.old.items ++ text_of
        (row_lines product.new.design (λ node. slice_get product.new.parts node) round)) }
{
    product.advance(values)?;
    add_row(text, product.design(), places, round, &product.parts())
}
