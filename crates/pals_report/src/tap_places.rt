//! The index of each tap among the taps with the same source.
ghost use Rattle.std.specs.Prelude.{◌≡◌, ◌<◌, All, IfOk};
ghost use Rattle.pals_report.specs.proof.TapPlaces.{tap_places};

use pals_base::{ItemList, NoMemory};
use pals_model::{Design, Tap};
use std::alloc::Global;
use std::marker::Model;

/// For each tap of a design, by its number, the number of earlier taps with the same source. A part has the
/// tuples of its component's taps at these indices.
#[derive(Drop)]
pub struct TapPlaces {
    places: ItemList<usize>,
}

impl Model for TapPlaces {
    ghost use Rattle.std.specs.Prelude.{ℕ, List};

    ghost Value = { List ℕ };

    ghost view = { λ taps. taps.places };
}

impl TapPlaces {
    ghost use Rattle.std.specs.Prelude.{◌≡◌, ◌<◌, IfOk, length, slice_index_or};

    /// Computes the indices of all taps, in time linear in the numbers of taps and components. Errors: out of
    /// memory.
    pub fn new(alloc: Global, design: &Design) -> Result<TapPlaces, NoMemory>
        ensures { IfOk result (λ places. places ≡ tap_places design.now.taps) }
    {
        let places = places_of(alloc, design.taps(), design.components().len())?;
        Ok(TapPlaces { places })
    }

    // The index of the tap with this number.
    pub(crate) fn place(&self, tap: usize) -> usize
        requires { tap < length self.now }
        ensures { result ≡ slice_index_or self.now tap result }
    {
        self.places[tap]
    }
}

// The indices of taps whose sources are below a number, by counting the taps of each source.
fn places_of(alloc: Global, taps: &[Tap], nodes: usize) -> Result<ItemList<usize>, NoMemory>
    requires { All (λ tap. tap.source.0 < nodes) taps.now }
    ensures { IfOk result (λ places. places ≡ tap_places taps.now) }
{
    let mut counts = vec![in alloc; 0_usize; nodes]?;
    let mut places = ItemList::new(alloc);
    for tap in taps {
        let source = tap.source.0 as usize;
        let count = counts[source];
        places.push(count)?;
        counts[source] = count + 1;
    }
    Ok(places)
}
