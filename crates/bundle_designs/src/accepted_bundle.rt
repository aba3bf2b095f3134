//! From a bundle to its design.
ghost use Rattle.std.specs.Prelude.{IfOk, IfErr};
ghost use Rattle.aadl_tree.specs.proof.PackageViews.{placed};
ghost use Rattle.design_laws.specs.PackageDesigns.{IsDesignIn};
ghost use Rattle.bundle_designs.specs.AcceptedAndRefusedPackages.{IsAccepted};
ghost use Rattle.bundle_designs.specs.proof.Refusals.{IsPackageRefusal, IsRefusal};

use crate::parsed_bundle::{ParsedBundle, parse_bundle};
use crate::refusal::Refusal;
use crate::refused_package::{refused_instance, refused_package};
use aadl_instance::flatten;
use aadl_tree::PackageTree;
use model_checks::{CheckFault, check};
use pals_base::Text;
use pals_model::Design;
use std::alloc::Global;

/// The content of a bundle: an accepted design, and the bytes of a scenario.
#[derive(Drop)]
pub struct Accepted<'b> {
    /// The design of the root.
    pub design: Design,
    /// The bytes after the divider.
    pub scenario: &'b [u8],
}

/// Returns the design of a root in a bundle. Errors: the reason why the bundle has none.
pub fn accept<'b>(alloc: Global, bundle: &'b [u8], root: &Text) -> Result<Accepted<'b>, Refusal>
    ensures accepted { IfOk result (λ a. IsAccepted root.now bundle.now a.design a.scenario.now) }
    ensures refused { IfErr result (IsRefusal root.now bundle.now) }
{
    let ParsedBundle {
        text,
        tree,
        scenario,
    } = parse_bundle(alloc, bundle)?;
    let design = design_of(alloc, text, &tree, root)?;
    Ok(Accepted { design, scenario })
}

// The design of a root in the package of a text.
fn design_of(alloc: Global, text: &[u8], tree: &PackageTree, root: &Text) -> Result<Design, Refusal>
    ensures accepted { IfOk result (IsDesignIn (placed tree.now) root.now) }
    ensures refused { IfErr result (IsPackageRefusal text.now (placed tree.now) root.now) }
{
    let instance = match flatten(alloc, tree, root) {
        Ok(instance) => instance,
        Err(fault) => return Err(Refusal::Design(refused_package(alloc, text, &fault)?)),
    };
    match check(alloc, &instance) {
        Ok(design) => Ok(design),
        Err(CheckFault::Violations(found)) => {
            let lines = refused_instance(alloc, text, found.as_slice())?;
            Err(Refusal::Design(lines))
        }
        Err(CheckFault::Memory) => Err(Refusal::Memory),
    }
}
