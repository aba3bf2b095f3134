//! The number of each port among the ports of its direction.
ghost use Rattle.std.specs.Prelude.{◌≡◌, ◌<◌, map, IfOk};
ghost use Rattle.aadl_tree.specs.proof.PlaceMaps.{kept_place};
ghost use Rattle.aadl_tree.specs.proof.PackageViews.{placed};
ghost use Rattle.aadl_tree.specs.proof.DeclarationViews.{feature_view};
ghost use Rattle.aadl_instance.specs.proof.PortNumberTables.{AreAmong, AreNumbers};

use aadl_tree::{Direction, Feature};
use aadl_uses::PackageConnections;
use name_faults::port_name_tables::ports_at;
use std::alloc::{AllocError, Global};
use std::marker::Model;

/// For each type, by the number of its declaration, the number of earlier ports with the same direction as each
/// of its ports. The table is per type, since a type with many ports may have many implementations. The model
/// is the list of lists.
#[derive(Drop)]
pub struct PortNumbers {
    rows: Vec<Vec<usize>>,
}

impl Model for PortNumbers {
    ghost use Rattle.std.specs.Prelude.{List, ℕ, map};

    ghost Value = { List (List ℕ) };

    ghost view = { λ numbers. map (λ row. row.items) numbers.rows.items };
}

impl PortNumbers {
    ghost use Rattle.std.specs.Prelude.{◌≡◌, ◌++◌, ◌∷◌, [], IfOk, OnOk};
    ghost use Rattle.aadl_tree.specs.proof.PackageViews.{placed};
    ghost use Rattle.aadl_instance.specs.proof.PortNumberTables.{number_in, AreNumbers};

    /// Computes the table for the types of a package. Errors: out of memory.
    pub fn of(alloc: Global, wires: &PackageConnections<'_>) -> Result<PortNumbers, AllocError>
        ensures { IfOk result (λ numbers. AreNumbers (placed wires.now.uses.names.tree.now) numbers) }
    {
        let mut numbers = PortNumbers {
            rows: Vec::new(alloc),
        };
        for number in 0..wires.uses.len() {
            let row = row_of(alloc, ports_at(wires.uses.names.tree, Some(number)))?;
            numbers.push(row)?;
        }
        Ok(numbers)
    }

    // Adds a declaration.
    fn push(&mut self, row: Vec<usize>) -> Result<(), AllocError>
        ensures { OnOk result (self.new ≡ self.old ++ row.items ∷ []) }
    {
        self.rows.push(row)?;
        Ok(())
    }

    /// Returns the number of a port of the type with a number.
    pub fn get(&self, of_type: Option<usize>, port: usize) -> usize
        ensures { result ≡ number_in self.now of_type port }
    {
        let Some(number) = of_type else {
            return 0;
        };
        match self.rows.get(number) {
            Some(row) => row.get(port).copied().unwrap_or(0),
            None => 0,
        }
    }
}

// The numbers of the ports of a type.
fn row_of(alloc: Global, ports: &[Feature]) -> Result<Vec<usize>, AllocError>
    ensures { IfOk result (λ row. AreAmong (map (feature_view kept_place) ports.now) row.items) }
{
    let mut row = Vec::new(alloc);
    let mut seen = SeenPorts {
        inward: 0,
        outward: 0,
    };
    for port in ports {
        row.push(seen.next(port.direction))?;
    }
    Ok(row)
}

/// The numbers of in ports and out ports so far.
#[derive(Drop)]
pub struct SeenPorts {
    pub inward: usize,
    pub outward: usize,
}

impl SeenPorts {
    ghost use Rattle.std.specs.Prelude.{◌≡◌, ◌<◌};
    ghost use Rattle.aadl_instance.specs.proof.PortNumberTables.{seen, with_port};

    // Counts one more port, and returns the number of earlier ports with its direction.
    fn next(&mut self, direction: Direction) -> usize
        requires inward { self.old.inward < usize.MAX }
        requires outward { self.old.outward < usize.MAX }
        ensures number { result ≡ seen self.old direction }
        ensures one { self.new ≡ with_port self.old direction }
    {
        match direction {
            Direction::In => {
                self.inward += 1;
                self.inward - 1
            }
            Direction::Out => {
                self.outward += 1;
                self.outward - 1
            }
        }
    }
}
