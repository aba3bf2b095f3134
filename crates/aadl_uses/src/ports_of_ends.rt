//! The ports that ends of connections name.
ghost use Rattle.std.specs.Prelude.{◌≡◌, ℕ, IfOk, Some, option_map};
ghost use Rattle.std.specs.Option.{option_and_then};
ghost use Rattle.aadl_tree.specs.proof.DeclarationViews.{end_view};
ghost use Rattle.aadl_tree.specs.proof.PlaceMaps.{kept_place};
ghost use Rattle.aadl_tree.specs.proof.PackageViews.{placed};
ghost use Rattle.aadl_tree.specs.Declarations.{Implementation};
ghost use Rattle.aadl_names.specs.declared.numbered_port.NumberedPort.TheVariants.{Own, Inner};
ghost use Rattle.aadl_names.specs.NameResolution.{implementation_at, port_named, ports_at, end_port};
ghost use Rattle.aadl_uses.specs.ContainmentAndUse.{below};

use crate::resolved_package::Uses;
use aadl_names::NumberedPort;
use aadl_names::type_ports::port_number;
use aadl_tree::{ConnectionEnd, Identifier};
use std::alloc::{AllocError, Global};

/// Returns the port that an end of a connection of an implementation names, if it is declared. Errors: out of
/// memory.
pub fn site_of(
    alloc: Global,
    uses: &Uses<'_>,
    number: usize,
    end: &ConnectionEnd,
) -> Result<Option<NumberedPort>, AllocError>
    ensures { IfOk result (λ port. (x : Implementation ℕ)
        → implementation_at (placed uses.now.names.tree.now) number ≡ Some x
        → port ≡ end_port (placed uses.now.names.tree.now) x (end_view kept_place end.now)) }
{
    let Some(port) = &end.second else {
        return own_port(alloc, uses, number, &end.first);
    };
    match uses
        .names
        .member(alloc, number, end.first.spelling.as_str())?
    {
        Some(sub) => inner_site(alloc, uses, number, sub, port),
        None => Ok(None),
    }
}

// A port of an implementation itself.
fn own_port(
    alloc: Global,
    uses: &Uses<'_>,
    number: usize,
    name: &Identifier,
) -> Result<Option<NumberedPort>, AllocError>
    ensures { IfOk result (λ port. port ≡ option_map Own
        (port_named (ports_at (placed uses.now.names.tree.now)
        (implementation_at (placed uses.now.names.tree.now) number)) name.now.spelling)) }
{
    let of_type = uses.type_number(number);
    match port_number(alloc, &uses.names, of_type, name.spelling.as_str())? {
        Some(port) => Ok(Some(NumberedPort::Own(port))),
        None => Ok(None),
    }
}

// A port of a subcomponent.
fn inner_site(
    alloc: Global,
    uses: &Uses<'_>,
    number: usize,
    sub: usize,
    name: &Identifier,
) -> Result<Option<NumberedPort>, AllocError>
    ensures { IfOk result (λ port. port ≡ option_map (Inner sub)
        (port_named
        (ports_at (placed uses.now.names.tree.now)
        (option_and_then (implementation_at (placed uses.now.names.tree.now))
        (below (placed uses.now.names.tree.now) number sub)))
        name.now.spelling)) }
{
    let of_type = uses.type_below(number, sub);
    match port_number(alloc, &uses.names, of_type, name.spelling.as_str())? {
        Some(port) => Ok(Some(NumberedPort::Inner(sub, port))),
        None => Ok(None),
    }
}
