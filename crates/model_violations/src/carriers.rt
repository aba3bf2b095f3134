//! The properties of connections, and the carriers: the connections whose properties apply to connection
//! chains.
ghost use Rattle.std.specs.Prelude.{◌≡◌, IfSome, option_map, option_copied};
ghost use Rattle.aadl_tree.specs.proof.PlaceMaps.{kept_place};
ghost use Rattle.aadl_tree.specs.proof.PackageViews.{placed};
ghost use Rattle.aadl_tree.specs.proof.DeclarationViews.{connection_view};
ghost use Rattle.component_checks.specs.proof.ChainProperties.{carried_by};
ghost use Rattle.model_violations.specs.ConnectionsAndCarriers as spec;

use aadl_instance::ConnectionAt;
use aadl_names::declarations_by_number::implementation_at;
use aadl_tree::{Connection, PackageTree};
use component_checks::{ChainProperties, Properties};
use indexmap::IndexSet;
use pals_base::NoMemory;
use std::alloc::Global;
use std::marker::Model;

/// Returns the connection with the number of its declaration and its own number there.
pub fn connection_of<'t>(tree: &'t PackageTree, place: ConnectionAt) -> Option<&'t Connection>
    ensures { option_map (connection_view kept_place) (option_copied result)
        ≡ spec.connection_of (placed tree.now) place }
{
    match implementation_at(tree, place.declaration) {
        Some(x) => x.connections.get(place.connection),
        None => None,
    }
}

/// Returns the connection with its numbers, and its properties that apply to connection chains.
#[tactic(auto, using(crate::proofs::MappedOptions::of_mapped))]
pub fn carrier_of<'t>(
    properties: &Properties<'t>,
    place: ConnectionAt,
) -> Option<(&'t Connection, ChainProperties)>
    ensures connection { option_map (λ carrier. connection_view kept_place carrier.0.now) result
        ≡ spec.connection_of (placed properties.now.uses.now.names.tree.now) place }
    ensures carried { IfSome result (λ carrier. carrier.1
        ≡ carried_by (connection_view kept_place carrier.0.now).properties) }
{
    let uses = properties.uses;
    let connection = connection_of(uses.names.tree, place)?;
    let carried = properties.of_connection(place.declaration, place.connection)?;
    Some((connection, carried))
}

/// The carriers: the connections whose properties apply to connection chains. The model is the list of their
/// numbers: the declaration's, and the connection's own number there.
pub struct Carriers {
    places: IndexSet<(usize, usize)>,
}

impl Drop for Carriers {
    fn drop(self) {
        let Carriers { places: _ } = self;
    }
}

impl Model for Carriers {
    ghost use Rattle.std.specs.Prelude.{ℕ, List};

    ghost Value = { List (ℕ × ℕ) };

    ghost view = { λ carriers. carriers.places.keys };
}

impl Carriers {
    ghost use Rattle.std.specs.Prelude.{◌≡◌, ◌&&◌, ◌||◌, ℕ, nat_eq, [], OnOk};
    ghost use Rattle.model_violations.specs.ConnectionsAndCarriers.{carries};

    /// Returns an empty set. Does not allocate.
    pub fn new(alloc: Global) -> Carriers
        ensures { result ≡ [] }
    {
        Carriers {
            places: IndexSet::new(alloc),
        }
    }

    /// Adds a connection. Errors: out of memory.
    pub fn add(&mut self, place: ConnectionAt) -> Result<(), NoMemory>
        ensures { OnOk result ((n i : ℕ) → carries self.new n i
            ≡ (carries self.old n i || (nat_eq n place.declaration && nat_eq i place.connection))) }
    {
        self.places.insert((place.declaration, place.connection))?;
        Ok(())
    }

    /// Returns whether a connection is a carrier.
    pub fn has(&self, place: ConnectionAt) -> bool
        ensures { result ≡ carries self.now place.declaration place.connection }
    {
        self.places.contains(&(place.declaration, place.connection))
    }
}
