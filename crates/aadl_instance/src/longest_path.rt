//! The limit on the length of the paths of threads.
ghost use Rattle.std.specs.Prelude.{◌≡◌, ◌↔◌, ◌<◌, None, IfOk, IsTrue, length, map, slice_index_or};
ghost use Rattle.pals_base.specs.declared.limits.TheConstants.{PATH_BYTES};
ghost use Rattle.aadl_tree.specs.proof.PlaceMaps.{kept_place};
ghost use Rattle.aadl_tree.specs.proof.PackageViews.{placed};
ghost use Rattle.aadl_tree.specs.proof.DeclarationViews.{declaration_view, subcomponent_view};
ghost use Rattle.aadl_uses.specs.proof.PackageContainment.{containment};
ghost use Rattle.aadl_uses.specs.proof.ContainmentOrders.{IsOrder};
ghost use Rattle.aadl_instance.specs.proof.PathLengths as spec;
ghost use Rattle.aadl_uses.specs.ThreadLocations.{ThreadWith, spelled_path};

use aadl_tree::{Declaration, Subcomponent};
use aadl_uses::{SubcomponentWeights, Uses, heaviest_below};
use indexmap::IndexSet;
use pals_base::NoMemory;
use pals_base::limits::PATH_BYTES;
use std::alloc::Global;

/// Returns whether the path of some thread below a root is longer than the limit. Errors: out of memory.
pub fn has_too_long_path(
    alloc: Global,
    uses: &Uses<'_>,
    order: &IndexSet<usize>,
    root: usize,
) -> Result<bool, NoMemory>
    requires order { IsOrder (containment (placed uses.now.names.tree.now)) order.now.keys }
    requires root { root < length (placed uses.now.names.tree.now).declarations }
    ensures { IfOk result (λ over. IsTrue over
        ↔ ThreadWith (placed uses.now.names.tree.now) root
        (λ x path. PATH_BYTES < length (spelled_path (placed uses.now.names.tree.now) root path))) }
{
    let marks = uses.thread_marks(alloc)?;
    let weights = name_weights(alloc, uses.names.tree.declarations.as_slice())?;
    // each name counts with the dot before it; the first name has none
    let found = heaviest_below(
        alloc,
        uses.containment(),
        marks.as_slice(),
        order,
        &weights,
        PATH_BYTES + 2,
    )?;
    Ok(is_over(found.as_slice(), root))
}

// Whether the weight of the heaviest path from a declaration exceeds the limit.
fn is_over(found: &[Option<usize>], root: usize) -> bool
    ensures { result ≡ spec.is_over (slice_index_or found.now root None) }
{
    match found.get(root) {
        Some(Some(weight)) => *weight > PATH_BYTES + 1,
        Some(None) => false,
        None => false,
    }
}

// The lengths of the names of subcomponents in bytes, each with its dot.
fn name_weights(
    alloc: Global,
    declarations: &[Declaration],
) -> Result<SubcomponentWeights, NoMemory>
    ensures { IfOk result (λ weights. weights
        ≡ map spec.weights_in (map (declaration_view kept_place) declarations.now)) }
{
    let mut weights = SubcomponentWeights::new(alloc);
    for declaration in declarations {
        weights.push(weights_in(alloc, declaration)?)?;
    }
    Ok(weights)
}

// The lengths of a declaration's subcomponents.
fn weights_in(alloc: Global, declaration: &Declaration) -> Result<Vec<usize>, NoMemory>
    ensures { IfOk result (λ row. row.items ≡ spec.weights_in (declaration_view kept_place declaration.now)) }
{
    match declaration {
        Declaration::Type(_) => Ok(Vec::new(alloc)),
        Declaration::Implementation(x) => weights_of(alloc, x.subcomponents.as_slice()),
    }
}

// The lengths of these subcomponents.
fn weights_of(alloc: Global, subs: &[Subcomponent]) -> Result<Vec<usize>, NoMemory>
    ensures { IfOk result (λ row. row.items ≡ map spec.weight_of (map (subcomponent_view kept_place) subs.now)) }
{
    let mut row = Vec::new(alloc);
    for sub in subs {
        row.push(sub.name.spelling.len() + 1)?;
    }
    Ok(row)
}
