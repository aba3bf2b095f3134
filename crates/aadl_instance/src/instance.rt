//! The type of instance models.
ghost use Rattle.aadl_tree.specs.proof.PackageViews.{placed};
ghost use Rattle.aadl_instance.specs.InstancesByNumbers.{IsInstance};

use crate::chain::Chain;
use aadl_uses::{PackageConnections, ThreadAt};
use pals_base::ItemList;

/// The instance model of a package below one root. Invariant: the package has no fault, and the lists have all
/// threads, links, feeds and taps, each once, in order.
pub struct Instance<'t> {
    /// The package with its connections and its look-ups.
    pub wires: PackageConnections<'t>,
    /// The number of the root's implementation among the package's declarations.
    pub root: usize,
    /// The threads, in depth-first order of declaration.
    pub threads: ItemList<ThreadAt>,
    /// The chains between threads, in the order of the target thread, then of the in port's declaration.
    pub links: ItemList<Chain>,
    /// The chains from the root's in ports to threads, in the same order.
    pub feeds: ItemList<Chain>,
    /// The chains from threads to the root's out ports, in the order of these ports' declarations.
    pub taps: ItemList<Chain>,
    pub ghost flat: { ∥ IsInstance (placed wires.uses.names.tree.now) root threads links feeds taps ∥₁ },
}

impl Drop for Instance<'_> {
    fn drop(self) {
        let Instance {
            wires: _,
            root: _,
            threads: _,
            links: _,
            feeds: _,
            taps: _,
        } = self;
    }
}
