//! Behaviours from their text, over an integer in port `i`, an integer out port `o`, and the integer
//! variables `x` and `y`.
use aadl_parse::parse;
use aadl_tree::{AnnexContent, AnnexTree, Declaration, PackageTree};
use annex_resolve::{DeclaredName, DeclaredValues, Meaning, Scope, resolve_annex};
use pals_base::{Behaviour, BehaviourParts, ItemList, Kind, NoMemory, PortDecl, Text, VarDecl};
use std::alloc::Global;

fn port(alloc: Global, name: &str) -> Result<ItemList<PortDecl>, NoMemory> {
    let name = Text::from_str(alloc, name)?;
    let kind = Kind::Integer;
    let mut ports = ItemList::new(alloc);
    ports.push(PortDecl { name, kind })?;
    Ok(ports)
}

fn variables(alloc: Global) -> Result<ItemList<VarDecl>, NoMemory> {
    let mut variables = ItemList::new(alloc);
    for name in &["x", "y"] {
        variables.push(VarDecl {
            name: Text::from_str(alloc, name)?,
            kind: Kind::Integer,
            first: 0,
        })?;
    }
    Ok(variables)
}

fn values(alloc: Global) -> Result<DeclaredValues, NoMemory> {
    Ok(DeclaredValues {
        ins: port(alloc, "i")?,
        outs: port(alloc, "o")?,
        vars: variables(alloc)?,
    })
}

const NAMES: [(&str, Meaning); 4] = [
    ("i", Meaning::InPort(0)),
    ("o", Meaning::OutPort(0)),
    ("x", Meaning::Variable(0)),
    ("y", Meaning::Variable(1)),
];

fn scope(alloc: Global) -> Result<Scope, NoMemory> {
    let mut entries = ItemList::new(alloc);
    for (name, meaning) in &NAMES {
        entries.push(DeclaredName {
            name: Text::from_str(alloc, name)?,
            kind: Some(Kind::Integer),
            meaning: *meaning,
        })?;
    }
    Ok(Scope { entries, next: 2 })
}

// The first behaviour annex of a package.
fn annex(package: &PackageTree) -> Option<&AnnexTree> {
    for declaration in &package.declarations {
        if let Declaration::Implementation(implementation) = declaration
            && let Some(annex) = implementation.annexes.first()
            && let AnnexContent::Behaviour(tree) = &annex.content
        {
            return Some(tree);
        }
    }
    None
}

// The parts of an annex, where nothing is wrong in it.
fn parts(alloc: Global, tree: &AnnexTree) -> Result<Option<BehaviourParts>, NoMemory> {
    let scope = scope(alloc)?;
    let mut found = ItemList::new(alloc);
    let parts = resolve_annex(alloc, values(alloc)?, &scope, 0, tree, &mut found)?;
    if found.is_empty() {
        Ok(Some(parts))
    } else {
        Ok(None)
    }
}

// The behaviour of an annex, where nothing is wrong in it.
fn of_annex(alloc: Global, tree: &AnnexTree) -> Result<Option<Behaviour>, NoMemory> {
    match parts(alloc, tree)? {
        Some(parts) => Behaviour::try_new(alloc, parts),
        None => Ok(None),
    }
}

/// The first behaviour of a package, where nothing is wrong in it.
pub fn behaviour(alloc: Global, text: &[u8]) -> Result<Option<Behaviour>, NoMemory> {
    let Ok(package) = parse(alloc, text) else {
        return Ok(None);
    };
    match annex(&package) {
        Some(tree) => of_annex(alloc, tree),
        None => Ok(None),
    }
}
