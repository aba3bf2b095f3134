//! The table of a round's faults: for each link, replica of its source and replica of its target the number of the
//! first fault.
ghost use Rattle.std.specs.Prelude.{◌≡◌, ◌<◌, ◌+◌, ◌*◌, ◌^◌, IfOk, length, replicate, Option};
ghost use Rattle.triple_vote.specs.proof.FaultTables.{place, is_replica, is_placed, with_fault, AreFirst};

use pals_base::{ItemList, NoMemory};
use pals_runs::VoteFault;
use std::alloc::Global;

/// The faults of a round, and for each place the number of the first one there.
#[derive(Clone, Copy)]
pub struct FaultTable<'a> {
    pub faults: &'a [VoteFault],
    pub places: &'a [Option<usize>],
}

/// The place of a link, a replica of its source and one of its target, both numbered from 1.
pub fn place(link: u32, replica: u32, target: u32) -> usize
    ensures { result ≡ place link replica target }
{
    link as usize * 9 + replica as usize * 3 + target as usize
}

// Whether it is the number of one of three replicas.
fn is_replica(number: u32) -> bool
    ensures { result ≡ is_replica number }
{
    0 < number && number < 4
}

// Whether a fault is at a place on one of so many links.
fn is_placed(fault: &VoteFault, links: usize) -> bool
    ensures { result ≡ is_placed links fault.now }
{
    (fault.link.0 as usize) < links
        && (is_replica(fault.replica) && is_replica(fault.target_replica))
}

// No fault at any place on so many links.
fn no_faults(alloc: Global, links: usize) -> Result<ItemList<Option<usize>>, NoMemory>
    requires { links < 2 ^ 32 }
    ensures { IfOk result (λ places. places ≡ replicate (links * 9 + 4) Option.None) }
{
    Ok(ItemList::from_vec(vec![in alloc; None; links * 9 + 4]?))
}

// Puts the number of a fault at its place, if it has one on so many links.
fn put_fault(places: &mut ItemList<Option<usize>>, links: usize, fault: &VoteFault, number: usize)
    requires { length places.old ≡ links * 9 + 4 }
    ensures { places.new ≡ with_fault links places.old fault.now number }
{
    if is_placed(fault, links) {
        let at = place(fault.link.0, fault.replica, fault.target_replica);
        places.set(at, Some(number));
    }
}

/// For each place on this many links, the number of the first fault there. Does not allocate if no fault is
/// listed.
pub fn first_faults(
    alloc: Global,
    faults: &[VoteFault],
    links: usize,
) -> Result<ItemList<Option<usize>>, NoMemory>
    requires { links < 2 ^ 32 }
    ensures { IfOk result (λ places. AreFirst faults.now links places) }
{
    if faults.is_empty() {
        return Ok(ItemList::new(alloc));
    }
    let mut places = no_faults(alloc, links)?;
    for at in (0..faults.len()).rev() {
        put_fault(&mut places, links, &faults[at], at);
    }
    Ok(places)
}
