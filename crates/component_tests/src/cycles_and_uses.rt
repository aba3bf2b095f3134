//! The first subcomponent that contains itself, and the declarations in use.
use aadl_names::{Names, PackageFault};
use aadl_tree::PackageTree;
use aadl_uses::{Uses, first_recursive};
use indexmap::IndexSet;
use std::alloc::{AllocError, Global};

/// What the subcomponents of a package name.
pub fn uses(alloc: Global, tree: &PackageTree) -> Result<Uses<'_>, AllocError> {
    let names = Names::of(alloc, tree)?;
    Uses::of(alloc, names)
}

fn cycle(alloc: Global, tree: &PackageTree) -> Result<Option<PackageFault>, AllocError> {
    let uses = uses(alloc, tree)?;
    first_recursive(alloc, &uses)
}

// The name of a fault and the text at its position.
fn told(alloc: Global, text: &str, fault: &PackageFault) -> Result<String, AllocError> {
    let PackageFault::Recursive { name, at } = fault else {
        return format!(in alloc; "{fault}\n");
    };
    let (_, rest) = text.split_at_checked(*at).unwrap_or(("", ""));
    let (part, _) = rest.split_once(';').unwrap_or(("", ""));
    format!(in alloc; "{name} at {part}\n")
}

/// The first subcomponent that contains itself, or `none`.
pub fn first_cycle(alloc: Global, text: &str, tree: &PackageTree) -> Result<String, AllocError> {
    match cycle(alloc, tree)? {
        Some(fault) => told(alloc, text, &fault),
        None => String::from_str(alloc, "none\n"),
    }
}

// The numbers of the declarations in use below declaration 1; empty if it does not exist.
fn used(alloc: Global, tree: &PackageTree) -> Result<IndexSet<usize>, AllocError> {
    let uses = uses(alloc, tree)?;
    if 1 < uses.names.tree.declarations.len() {
        uses.in_use(alloc, 1)
    } else {
        Ok(IndexSet::new(alloc))
    }
}

fn listed(alloc: Global, used: &IndexSet<usize>, count: usize) -> Result<String, AllocError> {
    let mut numbers = String::new(alloc);
    for number in 0..count {
        if used.contains(&number) {
            write!(numbers, "{number}\n")?;
        }
    }
    Ok(numbers)
}

/// The numbers of the declarations in use below the one of number 1, in order.
pub fn in_use(alloc: Global, tree: &PackageTree) -> Result<String, AllocError> {
    let used = used(alloc, tree)?;
    listed(alloc, &used, tree.declarations.len())
}
