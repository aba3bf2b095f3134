//! The ports of a component type: the number of a port by its name, and its direction.
ghost use Rattle.std.specs.Prelude.{◌≡◌, IfOk};
ghost use Rattle.aadl_tree.specs.proof.PackageViews.{placed};
ghost use Rattle.aadl_names.specs.NameResolution as spec;

use crate::declarations_by_number::type_numbered;
use crate::package_names::Names;
use aadl_tree::Direction;
use std::alloc::{AllocError, Global};

/// The number of a port of the type of a number.
pub fn port_number(
    alloc: Global,
    names: &Names<'_>,
    of_type: Option<usize>,
    name: &str,
) -> Result<Option<usize>, AllocError>
    ensures { IfOk result (λ port. port ≡ spec.port_named
        (spec.features_of (spec.type_numbered (placed names.now.tree.now) of_type)) name.now) }
{
    let Some(number) = of_type else {
        return Ok(None);
    };
    match type_numbered(names.tree, of_type) {
        Some(_) => names.member(alloc, number, name),
        None => Ok(None),
    }
}

/// Which way a port of the type of a number goes.
pub fn port_direction(names: &Names<'_>, of_type: Option<usize>, port: usize) -> Option<Direction>
    ensures { result ≡ spec.direction_in (spec.features_of (spec.type_numbered (placed names.now.tree.now) of_type))
        port }
{
    let feature = type_numbered(names.tree, of_type)?.features.get(port)?;
    Some(feature.direction)
}
