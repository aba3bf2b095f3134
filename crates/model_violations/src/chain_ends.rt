//! The name and the type of the in port at the end of a connection chain, and the rate of the component at
//! either end.
ghost use Rattle.std.specs.Prelude.{◌≡◌, ◌<◌, ℕ, IfOk, Some, filter, map, option_map, option_copied, slice_get};
ghost use Rattle.std.specs.Option.{option_and_then};
ghost use Rattle.aadl_tree.specs.proof.PlaceMaps.{kept_place};
ghost use Rattle.aadl_tree.specs.proof.PackageViews.{placed};
ghost use Rattle.aadl_tree.specs.proof.DeclarationViews.{feature_view};
ghost use Rattle.aadl_names.specs.NameResolution.{implementation_at};
ghost use Rattle.component_checks.specs.TypeFindings.{is_in};
ghost use Rattle.model_violations.specs.ChainEnds as spec;

use aadl_instance::{ChainEnd, ThreadAt};
use aadl_tree::Feature;
use aadl_uses::Uses;
use component_checks::type_findings::{is_in, kind_in};
use pals_base::{Kind, NoMemory, NodeNo, Text, TryClone};
use std::alloc::Global;

/// Returns the number of the implementation of a thread.
#[tactic(auto, using(crate::proofs::ConnectionEndTypes::target_below))]
pub fn component_number(uses: &Uses<'_>, thread: &ThreadAt) -> Option<usize>
    ensures { option_and_then (implementation_at (placed uses.now.names.tree.now)) result
        ≡ spec.component_of (placed uses.now.names.tree.now) thread.now }
{
    match thread.subs.as_slice().last() {
        Some(sub) => uses.below(sub.declaration, sub.sub),
        None => None,
    }
}

// The in port with a number, counting only in ports.
fn in_port(ports: &[Feature], number: usize) -> Option<&Feature>
    ensures { option_map (feature_view kept_place) (option_copied result)
        ≡ slice_get (filter is_in (map (feature_view kept_place) ports.now)) number }
{
    let mut left = number;
    for port in ports {
        if is_in(port) {
            if left == 0 {
                return Some(port);
            }
            left -= 1;
        }
    }
    None
}

/// Returns an in port of a thread.
pub fn thread_in<'t>(uses: &Uses<'t>, thread: &ThreadAt, number: u32) -> Option<&'t Feature>
    ensures { option_map (feature_view kept_place) (option_copied result)
        ≡ slice_get (spec.ins_of (placed uses.now.names.tree.now) thread.now) number }
{
    match component_number(uses, thread) {
        Some(component) => in_port(uses.ports(component), number as usize),
        None => None,
    }
}

// The name of an in port: its thread's path, a `.`, and its own name.
fn thread_port_name(
    alloc: Global,
    uses: &Uses<'_>,
    thread: &ThreadAt,
    number: u32,
) -> Result<Text, NoMemory>
    ensures { IfOk result (λ name. name ≡ spec.thread_port_name (placed uses.now.names.tree.now) (Some thread.now)
        number) }
{
    let mut name = String::from_str(alloc, thread.path.as_str())?;
    name.push_str(".")?;
    if let Some(port) = thread_in(uses, thread, number) {
        name.push_str(port.name.spelling.as_str())?;
    }
    Ok(Text::new(name))
}

/// Returns the name of the end of a connection chain in violations. Errors: out of memory.
pub fn end_name(
    alloc: Global,
    uses: &Uses<'_>,
    threads: &[ThreadAt],
    end: &ChainEnd,
) -> Result<Text, NoMemory>
    ensures { IfOk result (λ name. name ≡ spec.end_name (placed uses.now.names.tree.now) threads.now end.now) }
{
    match end {
        ChainEnd::Thread { node, port } => match threads.get(node.0 as usize) {
            Some(thread) => thread_port_name(alloc, uses, thread, *port),
            None => Ok(Text::new(String::new(alloc))),
        },
        ChainEnd::Root { name } => name.try_clone(alloc),
    }
}

/// Returns the type of the end of a connection chain, or `None` if it is neither Integer nor Boolean, or if the
/// end is the root.
pub fn end_kind(uses: &Uses<'_>, threads: &[ThreadAt], end: &ChainEnd) -> Option<Kind>
    ensures { result ≡ spec.end_kind (placed uses.now.names.tree.now) threads.now end.now }
{
    let ChainEnd::Thread { node, port } = end else {
        return None;
    };
    let Some(thread) = threads.get(node.0 as usize) else {
        return None;
    };
    match thread_in(uses, thread, *port) {
        Some(port) => kind_in(&port.data_type),
        None => None,
    }
}

// The rate of a component, if it has one.
fn rate_at(rates: &[Option<u32>], node: NodeNo) -> Option<u32>
    requires { (n k : ℕ) → slice_get rates.now n ≡ Some (Some k) → 0 < k }
    ensures value { result ≡ spec.flat (slice_get rates.now node.0) }
    ensures positive { (k : ℕ) → result ≡ Some k → 0 < k }
{
    match rates.get(node.0 as usize) {
        Some(rate) => *rate,
        None => None,
    }
}

/// Returns the rate of the component at the end of a connection chain, if it has one. The rate of the root is
/// 1.
pub fn end_rate(rates: &[Option<u32>], end: &ChainEnd) -> Option<u32>
    requires { (n k : ℕ) → slice_get rates.now n ≡ Some (Some k) → 0 < k }
    ensures value { result ≡ spec.end_rate rates.now end.now }
    ensures positive { (k : ℕ) → result ≡ Some k → 0 < k }
{
    match end {
        ChainEnd::Thread { node, .. } => rate_at(rates, *node),
        ChainEnd::Root { .. } => Some(1),
    }
}
