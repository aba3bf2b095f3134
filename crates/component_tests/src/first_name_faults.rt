//! The first name that is wrong in a package.
use crate::cycles_and_uses::uses;
use aadl_names::PackageFault;
use aadl_tree::PackageTree;
use aadl_uses::PackageConnections;
use name_faults::first_name_fault;
use std::alloc::{AllocError, Global};

// The text from a position to the end of its line.
fn rest(text: &str, at: usize) -> &str {
    let (_, rest) = text.split_at_checked(at).unwrap_or(("", ""));
    rest.lines().next().unwrap_or("")
}

// A fault, and the text at its position.
fn told(alloc: Global, text: &str, fault: &PackageFault) -> Result<String, AllocError> {
    let rest = rest(text, fault.place());
    match fault {
        PackageFault::Unknown { name, at: _ } => format!(in alloc; "Unknown {name}: {rest}\n"),
        PackageFault::Twice { name, at: _ } => format!(in alloc; "Twice {name}: {rest}\n"),
        other => format!(in alloc; "{other}: {rest}\n"),
    }
}

// The first fault of a package whose last declaration is the root.
fn fault_of(alloc: Global, tree: &PackageTree) -> Result<Option<PackageFault>, AllocError> {
    let wires = PackageConnections::of(alloc, uses(alloc, tree)?)?;
    let root = tree.declarations.len().saturating_sub(1);
    first_name_fault(alloc, &wires, root)
}

/// The first fault of a package whose last declaration is the root, or `sound`.
pub fn first_fault(alloc: Global, text: &str, tree: &PackageTree) -> Result<String, AllocError> {
    match fault_of(alloc, tree)? {
        Some(fault) => told(alloc, text, &fault),
        None => String::from_str(alloc, "sound\n"),
    }
}
