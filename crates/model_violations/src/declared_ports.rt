//! The in ports and the out ports of a thread.
ghost use Rattle.std.specs.Prelude.{◌≡◌, ◌∷◌, ◌++◌, [], IfOk, OnOk, if◌then◌else◌, map};
ghost use Rattle.aadl_tree.specs.proof.PlaceMaps.{kept_place};
ghost use Rattle.aadl_tree.specs.proof.DeclarationViews.{feature_view};
ghost use Rattle.model_violations.specs.PortsAndVariables as spec;

use crate::port_or_variable::Declared;
use aadl_tree::Feature;
use component_checks::type_findings::{is_in, kind_in};
use pals_base::{ItemList, NoMemory, Text};
use std::alloc::Global;

fn port_of(alloc: Global, port: &Feature) -> Result<Declared, NoMemory>
    ensures { IfOk result (λ declared. declared ≡ spec.port_of (feature_view kept_place port.now)) }
{
    Ok(Declared {
        name: Text::from_str(alloc, port.name.spelling.as_str())?,
        kind: kind_in(&port.data_type),
        first: 0,
    })
}

// Adds a port under a condition.
fn add_port(
    alloc: Global,
    wanted: bool,
    port: &Feature,
    ports: &mut ItemList<Declared>,
) -> Result<(), NoMemory>
    ensures { OnOk result (ports.new ≡ ports.old
        ++ (if wanted then spec.port_of (feature_view kept_place port.now) ∷ [] else [])) }
{
    if wanted {
        ports.push(port_of(alloc, port)?)?;
        Ok(())
    } else {
        Ok(())
    }
}

/// Returns the in ports, in order. Errors: out of memory.
pub fn ins_in(alloc: Global, ports: &[Feature]) -> Result<ItemList<Declared>, NoMemory>
    ensures { IfOk result (λ ins. ins ≡ spec.ins_in (map (feature_view kept_place) ports.now)) }
{
    let mut ins = ItemList::new(alloc);
    for port in ports {
        add_port(alloc, is_in(port), port, &mut ins)?;
    }
    Ok(ins)
}

/// Returns the out ports, in order. Errors: out of memory.
pub fn outs_in(alloc: Global, ports: &[Feature]) -> Result<ItemList<Declared>, NoMemory>
    ensures { IfOk result (λ outs. outs ≡ spec.outs_in (map (feature_view kept_place) ports.now)) }
{
    let mut outs = ItemList::new(alloc);
    for port in ports {
        add_port(alloc, !is_in(port), port, &mut outs)?;
    }
    Ok(outs)
}
