//! Tuples that are written place by place, and room for them.
ghost use Rattle.std.specs.Prelude.{◌≡◌, ◌<◌, [], length, map, replicate, All, IfOk, slice_index_or, if◌then◌else◌};
ghost use Rattle.pals_base.specs.declared.basic_types.PortValue.TheVariants.{Absent};
ghost use Rattle.pals_base.specs.Tuples.{cut, with_places};

use pals_base::tuples::{absent, place};
use pals_base::{ItemList, NoMemory, PortValue, Tuple};
use std::alloc::Global;

/// `count` absent tuples, of `places` places each.
pub fn absent_tuples(alloc: Global, count: usize, places: u32) -> Result<ItemList<Tuple>, NoMemory>
    ensures { IfOk result (λ tuples. tuples ≡ replicate count (replicate places Absent)) }
{
    let mut tuples = ItemList::new(alloc);
    for _tuple in 0..count {
        tuples.push(absent(alloc, places as usize)?)?;
    }
    Ok(tuples)
}

/// Writes a value into the place with a number of each tuple. Does not allocate.
pub fn write_places(tuples: &mut ItemList<Tuple>, at: usize, values: &[PortValue])
    requires count { length values.now ≡ length tuples.old }
    requires within { All (λ tuple. at < length tuple) tuples.old }
    ensures { tuples.new ≡ with_places at values.now tuples.old }
{
    for port in 0..values.len() {
        tuples[port].set(at, place(values, port));
    }
}

/// Writes the first places of the tuples of these ports, and absent places after them. Does not
/// allocate.
pub fn write_ports(to: &mut ItemList<Tuple>, from: &[Tuple], ports: &[u32], count: u32, places: u32)
    requires ports { All (λ port. port < length from.now) ports.now }
    requires to_count { length to.old ≡ length ports.now }
    requires to_places { All (λ tuple. length tuple ≡ places) to.old }
    requires from_places { All (λ tuple. length tuple ≡ places) from.now }
    ensures { to.new ≡ map (λ port. cut count (slice_index_or from.now port [])) ports.now }
{
    for at in 0..ports.len() {
        let tuple = tuple_at(from, ports[at]);
        write_cut(&mut to[at], tuple.as_slice(), count as usize);
    }
}

// Writes the first places of a tuple, and absent places after them.
fn write_cut(to: &mut Tuple, from: &[PortValue], count: usize)
    requires { length to.old ≡ length from.now }
    ensures { to.new ≡ cut count from.now }
{
    for at in 0..from.len() {
        to.set(at, value_if_before(from, at, at < count));
    }
}

// A place where it counts, else an absent one.
fn value_if_before(tuple: &[PortValue], at: usize, counts: bool) -> PortValue
    ensures { result ≡ (if counts then slice_index_or tuple.now at Absent else Absent) }
{
    if counts {
        place(tuple, at)
    } else {
        PortValue::Absent
    }
}

// The tuple of a port.
fn tuple_at(tuples: &[Tuple], port: u32) -> &Tuple
    requires { port < length tuples.now }
    ensures { result.now ≡ slice_index_or tuples.now port [] }
{
    &tuples[port as usize]
}
