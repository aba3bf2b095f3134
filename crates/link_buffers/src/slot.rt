//! The slot of an in port.
ghost use Rattle.std.specs.Prelude.{◌≡◌, ◌↔◌, IsTrue, IsSome, is_some, option_copied, if◌then◌else◌};

use pals_base::Tuple;
use std::marker::Model;

/// The slot of an in port, which may hold one message. The model is that message, if any.
#[derive(Drop)]
pub struct Slot {
    tuple: Option<Tuple>,
}

impl Model for Slot {
    ghost use Rattle.std.specs.Prelude.{List, Option};
    ghost use Rattle.pals_base.specs.declared.basic_types.PortValue.{PortValue};

    ghost Value = { Option (List PortValue) };

    ghost view = { λ slot. slot.tuple };
}

impl Slot {
    /// An empty slot. Does not allocate.
    pub fn new() -> Slot
        ensures { result ≡ None }
    {
        Slot { tuple: None }
    }

    /// Whether the slot holds a message.
    pub fn is_full(&self) -> bool
        ensures { IsTrue result ↔ IsSome self.now }
    {
        self.tuple.is_some()
    }

    /// The message in the slot, if any.
    pub fn message(&self) -> Option<&Tuple>
        ensures { option_copied result ≡ self.now }
    {
        self.tuple.as_ref()
    }

    /// Puts a message into an empty slot. If the slot is full, it does not change, and the message is
    /// returned.
    pub fn slot_put(&mut self, tuple: Tuple) -> Option<Tuple>
        ensures back { result ≡ (if is_some self.old then Some tuple else None) }
        ensures slot { self.new ≡ (if is_some self.old then self.old else Some tuple) }
    {
        if self.tuple.is_some() {
            return Some(tuple);
        }
        self.tuple = Some(tuple);
        None
    }

    /// Empties the slot and returns its message, if any.
    pub fn slot_take(&mut self) -> Option<Tuple>
        ensures taken { result ≡ self.old }
        ensures slot { self.new ≡ None }
    {
        self.tuple.take()
    }
}
