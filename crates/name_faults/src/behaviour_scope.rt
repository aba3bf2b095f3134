//! The scope of a behaviour: the role of each name.
ghost use Rattle.std.specs.Prelude.{◌≡◌};
ghost use Rattle.aadl_tree.specs.Names.{same_name};
ghost use Rattle.std.specs.List.{list_any};

use aadl_names::{NameTable, Role};
use aadl_tree::Identifier;
use pals_base::{ItemList, Text, TryClone};
use std::alloc::{AllocError, Global};
use std::marker::Model;

/// The scope of a position in a behaviour: the tables of its ports and variables in the order of precedence,
/// and the variables of the enclosing loops, the outermost first.
#[derive(Drop)]
pub struct BehaviourScope<'t> {
    alloc: Global,
    first: &'t NameTable<Role>,
    second: &'t NameTable<Role>,
    loops: ItemList<Text>,
}

impl<'t> Model for BehaviourScope<'t> {
    ghost use Rattle.name_faults.specs.proof.BehaviourScopes.{ScopeTables};

    ghost Value = { ScopeTables };

    ghost view = { λ s. record { first = s.first.now; second = s.second.now; loops = s.loops } };
}

impl<'t> BehaviourScope<'t> {
    ghost use Rattle.std.specs.Prelude.{◌≡◌, IfOk};
    ghost use Rattle.aadl_tree.specs.proof.NameViews.{identifier_view};
    ghost use Rattle.aadl_tree.specs.proof.PlaceMaps.{kept_place};
    ghost use Rattle.aadl_names.specs.NameUseFaults.{either, with_loop};
    ghost use Rattle.aadl_names.specs.proof.NameTables.{value_of};
    ghost use Rattle.name_faults.specs.proof.BehaviourScopes.{loop_roles, known_by};

    /// Creates the scope of a behaviour outside its loops.
    pub fn new(
        alloc: Global,
        first: &'t NameTable<Role>,
        second: &'t NameTable<Role>,
    ) -> BehaviourScope<'t>
        ensures { known_by result ≡ either (value_of first.now) (value_of second.now) }
    {
        BehaviourScope {
            alloc,
            first,
            second,
            loops: ItemList::new(alloc),
        }
    }

    /// Returns the scope inside a loop with this variable. Errors: out of memory.
    pub fn with_loop(&self, variable: &Identifier) -> Result<BehaviourScope<'t>, AllocError>
        ensures { IfOk result (λ scope. known_by scope
            ≡ with_loop (known_by self.now) (identifier_view kept_place variable.now)) }
    {
        let mut loops = self.loops.try_clone(self.alloc)?;
        loops.push(Text::from_str(self.alloc, variable.spelling.as_str())?)?;
        Ok(BehaviourScope {
            alloc: self.alloc,
            first: self.first,
            second: self.second,
            loops,
        })
    }

    /// Returns the role of a name. Errors: out of memory.
    pub fn role_of(&self, name: &str) -> Result<Option<Role>, AllocError>
        ensures { IfOk result (λ role. role ≡ known_by self.now name.now) }
    {
        let first = self.first.value(self.alloc, name)?;
        if first.is_some() {
            return Ok(first);
        }
        let second = self.second.value(self.alloc, name)?;
        if second.is_some() {
            return Ok(second);
        }
        Ok(self.loop_role(name))
    }

    // The role of a name as a loop variable.
    fn loop_role(&self, name: &str) -> Option<Role>
        ensures { result ≡ loop_roles self.now.loops name.now }
    {
        if is_among(self.loops.as_slice(), name) {
            Some(Role::Turns)
        } else {
            None
        }
    }
}

fn is_among(names: &[Text], name: &str) -> bool
    ensures { result ≡ list_any (λ other. same_name name.now other) names.now }
{
    names
        .iter()
        .any(|other| name.eq_ignore_ascii_case(other.as_str()))
}
