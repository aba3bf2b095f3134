//! The meanings of names in a behaviour.
ghost use Rattle.std.specs.Prelude.{◌≡◌, IfOk, option_copied};
ghost use Rattle.aadl_tree.specs.proof.PlaceMaps.{kept_place};
ghost use Rattle.aadl_tree.specs.proof.NameViews.{identifier_view};
ghost use Rattle.annex_resolve.specs.NameMeanings.{entry_named, with_loop};

use aadl_tree::Identifier;
use pals_base::{ItemList, Kind, NoMemory, Text, TryClone};
use std::alloc::{AllocError, Global};

/// The meaning of a name. In ports, out ports and variables have separate numbers. The number of a loop
/// variable follows the numbers of all variables and of the enclosing loops' variables.
#[derive(Clone, Copy)]
pub enum Meaning {
    InPort(u32),
    OutPort(u32),
    Variable(u32),
    LoopVariable(u32),
}

/// A declared name: the name, its type (`None` if it is neither Integer nor Boolean), and its meaning.
#[derive(Drop)]
pub struct DeclaredName {
    pub name: Text,
    pub kind: Option<Kind>,
    pub meaning: Meaning,
}

impl TryClone for DeclaredName {
    fn try_clone(&self, alloc: Global) -> Result<DeclaredName, NoMemory> {
        Ok(DeclaredName {
            name: self.name.try_clone(alloc)?,
            kind: self.kind,
            meaning: self.meaning,
        })
    }
}

/// The names that are visible at a position.
#[derive(Drop)]
pub struct Scope {
    /// The declared names, in order.
    pub entries: ItemList<DeclaredName>,
    /// The number of the next loop's variable.
    pub next: u32,
}

impl Scope {
    /// Returns the declaration of a name, without regard to case. Of two declarations the first takes
    /// precedence.
    pub fn find(&self, name: &str) -> Option<&DeclaredName>
        ensures { option_copied result ≡ entry_named self.now name.now }
    {
        self.entries
            .iter()
            .find(|entry| entry.name.as_str().eq_ignore_ascii_case(name))
    }

    /// Returns the scope inside a loop, which also has its variable. Errors: out of memory.
    pub fn with_loop(&self, alloc: Global, variable: &Identifier) -> Result<Scope, NoMemory>
        ensures { IfOk result (λ inner. inner ≡ with_loop self.now (identifier_view kept_place variable.now)) }
    {
        let next = self.next.checked_add(1).ok_or(AllocError)?;
        let mut entries = self.entries.try_clone(alloc)?;
        entries.push(DeclaredName {
            name: Text::from_str(alloc, variable.spelling.as_str())?,
            kind: Some(Kind::Integer),
            meaning: Meaning::LoopVariable(self.next),
        })?;
        Ok(Scope { entries, next })
    }
}
