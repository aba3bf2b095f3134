//! The tree of a whole text.
ghost use Rattle.std.specs.Prelude.{map};
ghost use Rattle.aadl_tree.specs.proof.TreesOfSomeText.{IsGiven};
ghost use Rattle.aadl_tree.specs.proof.NameViews.{name_view};
ghost use Rattle.aadl_tree.specs.proof.DeclarationViews.{with_view, declaration_view};
ghost use Rattle.aadl_tree.specs.proof.PlaceMaps.{kept_place};

use crate::declarations::{Declaration, With};
use crate::names::Name;

/// A whole text: `"package" name "public" { with } { declaration } "end" name ";"`. Invariant: it is the tree
/// of some text within the nesting limit.
pub struct PackageTree {
    pub name: Name,
    pub withs: Vec<With>,
    pub declarations: Vec<Declaration>,
    pub end_name: Name,
    /// Some text has this tree.
    pub ghost given: { ∥ IsGiven (record {
      name = name_view kept_place name;
      withs = map (with_view kept_place) withs.items;
      declarations = map (declaration_view kept_place) declarations.items;
      end_name = name_view kept_place end_name;
    }) ∥₁ },
}

impl Drop for PackageTree {
    fn drop(self) {
        let PackageTree {
            name: _,
            withs: _,
            declarations: _,
            end_name: _,
        } = self;
    }
}
