//! The order of a flight's copies across rounds, which exists only in proofs.
ghost use Rattle.std.specs.Prelude.{◌≡◌, List, [], ◌∷◌, ◌++◌};
ghost use Rattle.std.specs.Borrow.{ftrue};
ghost use Rattle.pals_model.specs.declared.flight_copy.FlightCopy.{FlightCopy as Copied};
ghost use Rattle.pals_model.specs.Flights.{without_oldest};

use pals_model::FlightCopy;
use std::marker::Model;

/// Copies in order of adding. The type has size zero, and its methods do nothing at run time.
#[derive(Drop)]
pub struct CopyOrder {
    pub ghost copies: { List Copied },
}

impl Model for CopyOrder {
    ghost also_owns = { λ _. ftrue };
}

// It owns nothing.
unsafe impl Send for CopyOrder {}

impl CopyOrder {
    /// No copies.
    pub fn new() -> CopyOrder
        ensures { result.copies ≡ [] }
    {
        CopyOrder {}
    }

    /// The order with one more copy, the newest.
    pub fn with_newest(&self, _copy: &FlightCopy) -> CopyOrder
        ensures { result.copies ≡ self.now.copies ++ _copy.now ∷ [] }
    {
        CopyOrder {}
    }

    /// The order without the oldest copy of this copy's round.
    pub fn without_oldest(&self, _copy: &FlightCopy) -> CopyOrder
        ensures { result.copies ≡ without_oldest _copy.now.round self.now.copies }
    {
        CopyOrder {}
    }
}
