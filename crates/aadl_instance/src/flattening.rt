//! From a package to its instance model.
ghost use Rattle.std.specs.Prelude.{◌≡◌, ◌⊎◌, ℕ, List, Some, IfErr, IfOk};
ghost use Rattle.aadl_tree.specs.proof.PackageViews.{placed};
ghost use Rattle.aadl_names.specs.declared.fault.PackageFault.TheVariants.{Memory};
ghost use Rattle.aadl_names.specs.NameResolution.{root_number};
ghost use Rattle.aadl_instance.specs.Faults.{IsFault};
ghost use Rattle.aadl_instance.specs.proof.CheckedPackages.{IsChecked};
ghost use Rattle.aadl_instance.specs.InstancesByNumbers.{IsInstance};

use crate::chain_search::{incoming_of, taps_of};
use crate::chain_search_context::ChainSearchContext;
use crate::instance::Instance;
use crate::port_numbers::PortNumbers;
use crate::{Checked, check_package};
use aadl_names::PackageFault;
use aadl_tree::PackageTree;
use aadl_uses::{thread_paths, threads_at};
use pals_base::{NoMemory, Text};
use std::alloc::Global;

/// Returns the instance model of a package below the named root. Errors: the package's first fault.
pub fn flatten<'t>(
    alloc: Global,
    tree: &'t PackageTree,
    root: &Text,
) -> Result<Instance<'t>, PackageFault>
    ensures fault { IfErr result (λ fault. (fault ≡ Memory) ⊎ IsFault (placed tree.now) root.now fault) }
    ensures tree { IfOk result (λ x. x.wires.uses.names.tree.now ≡ tree.now) }
    ensures instance { IfOk result (λ x. (i : IsInstance (placed tree.now) x.root x.threads x.links x.feeds x.taps)
        × (i.name ≡ root.now)) }
{
    match check_package(alloc, tree, root) {
        Ok(checked) => Ok(instance_of(alloc, checked)?),
        Err(fault) => Err(fault),
    }
}

// The instance model of a package without faults below a root.
fn instance_of<'t>(alloc: Global, checked: Checked<'t>) -> Result<Instance<'t>, NoMemory>
    requires checked { IsChecked (placed checked.wires.uses.names.tree.now) checked }
    requires name { (name : List ℕ) × (root_number (placed checked.wires.uses.names.tree.now) name
        ≡ Some checked.root) }
    ensures tree { IfOk result (λ x. x.wires.uses.names.tree.now ≡ checked.entry.wires.uses.names.tree.now) }
    ensures instance { IfOk result (λ x. (name : List ℕ)
        → root_number (placed checked.entry.wires.uses.names.tree.now) name ≡ Some checked.entry.root
        → (i : IsInstance (placed checked.entry.wires.uses.names.tree.now) x.root x.threads x.links x.feeds x.taps)
        × (i.name ≡ name)) }
{
    let uses = &checked.wires.uses;
    let paths = thread_paths(alloc, uses, &checked.order, &checked.used, checked.root)?;
    let numbers = PortNumbers::of(alloc, &checked.wires)?;
    let network = ChainSearchContext {
        wires: &checked.wires,
        order: &checked.order,
        root: checked.root,
        threads: paths.from(checked.root),
        numbers: &numbers,
    };
    let threads = threads_at(alloc, uses, network.root, network.threads)?;
    let incoming = incoming_of(alloc, &network)?;
    let taps = taps_of(alloc, &network)?;
    Ok(Instance {
        root: checked.root,
        wires: checked.into_wires(),
        threads,
        links: incoming.links,
        feeds: incoming.feeds,
        taps,
    })
}
