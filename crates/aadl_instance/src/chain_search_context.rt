//! The context of a search for connection chains: connections, threads and port numbers; and a thread with its
//! number.

use crate::port_numbers::PortNumbers;
use aadl_uses::PackageConnections;
use indexmap::IndexSet;
use pals_base::NodeNo;

/// The context of a search: the connections of the package, an order of the declarations, the number of the
/// root, the paths of the threads, in depth-first order of declaration, and the numbers of ports.
#[derive(Clone, Copy)]
pub struct ChainSearchContext<'t> {
    pub wires: &'t PackageConnections<'t>,
    pub order: &'t IndexSet<usize>,
    pub root: usize,
    pub threads: &'t [Vec<usize>],
    pub numbers: &'t PortNumbers,
}

/// A thread of the instance model: its number, its path, and the number of its declaration.
#[derive(Drop)]
pub struct NumberedThread<'t> {
    pub number: NodeNo,
    pub path: &'t [usize],
    pub declaration: usize,
}
