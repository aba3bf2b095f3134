//! Nodes for copies. A node is a list of one copy, so a copy moves from one list to another without
//! allocation.
ghost use Rattle.std.specs.Prelude.{◌≡◌, ◌+◌, ◌^◌, ◌<◌, ◌≤◌, [], ◌∷◌, ◌++◌, length, take, drop, OnOk};
ghost use Rattle.pals_model.specs.declared.flight_copy.FlightCopy.{FlightCopy as Copied};

use pals_base::{ItemList, NoMemory, Tuple};
use pals_model::FlightCopy;
use std::alloc::{AllocError, Global};
use std::collections::LinkedList;
use std::mem;

/// Copies in order, one in each node.
pub type CopyList = LinkedList<FlightCopy>;

/// The free nodes, and the number of all nodes, free or in use.
#[derive(Drop)]
pub struct CopyNodes {
    pub free: CopyList,
    pub made: u32,
}

impl CopyNodes {
    /// No nodes.
    pub fn new(alloc: Global) -> CopyNodes
        ensures { (result.free ≡ []) × (result.made ≡ 0) }
    {
        CopyNodes {
            free: LinkedList::new(alloc),
            made: 0,
        }
    }

    /// Makes nodes until at least `places` are free.
    pub fn reserve(&mut self, alloc: Global, places: u32) -> Result<(), NoMemory>
        requires few { self.old.made < 2 ^ 32 }
        ensures few { self.new.made < 2 ^ 32 }
        ensures more { length self.old.free ≤ length self.new.free }
        ensures made { length self.new.free + self.old.made ≡ length self.old.free + self.new.made }
        ensures free { OnOk result (places ≤ length self.new.free) }
    {
        for _ in self.free.len()..places as usize {
            let made = self.made.checked_add(1).ok_or(AllocError)?;
            let empty = FlightCopy {
                round: 0,
                due: None,
                tuple: ItemList::new(alloc),
            };
            if self.free.push_back(empty).is_err() {
                return Err(AllocError);
            }
            self.made = made;
        }
        Ok(())
    }

    /// Takes a free node and stores a copy in it.
    pub fn take(&mut self, copy: FlightCopy) -> CopyList
        requires { 0 < length self.old.free }
        ensures node { result ≡ copy ∷ [] }
        ensures free { length self.new.free + 1 ≡ length self.old.free }
        ensures made { self.new.made ≡ self.old.made }
    {
        let mut node = split_first(&mut self.free);
        if let Some(held) = node.front_mut() {
            *held = copy;
        }
        node
    }

    /// Frees a node and returns its tuple.
    pub fn give_back(&mut self, alloc: Global, mut node: CopyList) -> Tuple
        requires one { length node ≡ 1 }
        requires few { length self.old.free < 2 ^ 32 }
        ensures tuple { (copy : Copied) → node ≡ copy ∷ [] → result ≡ copy.tuple }
        ensures free { length self.new.free ≡ length self.old.free + 1 }
        ensures made { self.new.made ≡ self.old.made }
    {
        let tuple = take_tuple(&mut node, alloc);
        append(&mut self.free, node);
        tuple
    }
}

// Takes the tuple out of the copy of a node.
fn take_tuple(node: &mut CopyList, alloc: Global) -> Tuple
    requires { length node.old ≡ 1 }
    ensures tuple { (copy : Copied) → node.old ≡ copy ∷ [] → result ≡ copy.tuple }
    ensures length { length node.new ≡ 1 }
{
    match node.front_mut() {
        None => unreachable!(),
        Some(copy) => mem::replace(&mut copy.tuple, ItemList::new(alloc)),
    }
}

/// The copy of a node.
pub fn copy_in(node: &CopyList) -> &FlightCopy
    requires { length node.now ≡ 1 }
    ensures { node.now ≡ result.now ∷ [] }
{
    match node.front() {
        None => unreachable!(),
        Some(copy) => copy,
    }
}

/// Splits off the first copy of a list, with its node.
pub fn split_first(list: &mut CopyList) -> CopyList
    requires { 0 < length list.old }
    ensures first { result ≡ take 1 list.old }
    ensures others { list.new ≡ drop 1 list.old }
{
    let Ok(others) = list.split_off(1) else {
        unreachable!();
    };
    mem::replace(list, others)
}

/// Appends copies to a list, with their nodes.
pub fn append(list: &mut CopyList, mut more: CopyList)
    requires { length list.old + length more < 2 ^ 63 }
    ensures { list.new ≡ list.old ++ more }
{
    if list.append(&mut more).is_err() {
        unreachable!();
    }
}
