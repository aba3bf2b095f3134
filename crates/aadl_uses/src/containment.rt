//! The containment relation between declarations.

use std::alloc::{AllocError, Global};
use std::marker::Model;

/// For each declaration, by its number, the declarations that its subcomponents name: each a number, or `None`
/// if the name is not declared. The model is the list of these lists.
#[derive(Drop)]
pub struct Containment {
    rows: Vec<Vec<Option<usize>>>,
}

impl Model for Containment {
    ghost use Rattle.std.specs.Prelude.{map};
    ghost use Rattle.aadl_uses.specs.proof.ContainmentGraphs.{Graph};

    ghost Value = { Graph };

    ghost view = { λ graph. map (λ row. row.items) graph.rows.items };
}

impl Containment {
    ghost use Rattle.std.specs.Prelude.{◌≡◌, ◌++◌, ◌∷◌, [], length, OnOk, OnErr};
    ghost use Rattle.aadl_uses.specs.proof.ContainmentGraphs as spec;

    /// Returns the containment of an empty list of declarations. Does not allocate.
    pub fn new(alloc: Global) -> Containment
        ensures { result ≡ [] }
    {
        Containment {
            rows: Vec::new(alloc),
        }
    }

    /// Adds a declaration with the targets of its subcomponents. Errors: out of memory.
    pub fn push(&mut self, targets: Vec<Option<usize>>) -> Result<(), AllocError>
        ensures ok { OnOk result (self.new ≡ self.old ++ targets.items ∷ []) }
        ensures err { OnErr result (self.new ≡ self.old) }
    {
        self.rows.push(targets)?;
        Ok(())
    }

    /// Returns the number of declarations.
    pub fn len(&self) -> usize
        ensures { result ≡ length self.now }
    {
        self.rows.len()
    }

    /// Returns the declarations that the subcomponents of a declaration name, in order.
    pub fn targets(&self, number: usize) -> &[Option<usize>]
        ensures { result.now ≡ spec.targets_in self.now number }
    {
        match self.rows.get(number) {
            Some(targets) => targets.as_slice(),
            None => &[],
        }
    }

    /// Returns the declaration that a subcomponent of a declaration names.
    pub fn below(&self, number: usize, sub: usize) -> Option<usize>
        ensures { result ≡ spec.below_in self.now number sub }
    {
        self.targets(number).get(sub).copied().flatten()
    }
}
