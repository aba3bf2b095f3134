//! Whether two names have the same meaning.

use super::lists_and_options::{same_items, same_option};
use super::same_meaning::Same;
use crate::names::{Identifier, Identifiers, Name, Path, Reference};

impl Same for Identifier {
    ghost use Rattle.aadl_tree.specs.Names.{Identifier};
    ghost use Rattle.aadl_tree.specs.proof.NameViews.{identifier_view};
    ghost use Rattle.aadl_tree.specs.proof.PlaceMaps.{no_place};

    ghost Meaning = { Identifier (Unit {0}) };

    ghost meaning = { identifier_view no_place };

    fn same(&self, other: &Identifier) -> bool {
        self.spelling == other.spelling
    }
}

impl Same for Name {
    ghost use Rattle.aadl_tree.specs.Names.{Name};
    ghost use Rattle.aadl_tree.specs.proof.NameViews.{name_view};
    ghost use Rattle.aadl_tree.specs.proof.PlaceMaps.{no_place};

    ghost Meaning = { Name (Unit {0}) };

    ghost meaning = { name_view no_place };

    fn same(&self, other: &Name) -> bool {
        self.first.same(&other.first) && same_items(self.rest.as_slice(), other.rest.as_slice())
    }
}

impl Same for Path {
    ghost use Rattle.aadl_tree.specs.Names.{Path};
    ghost use Rattle.aadl_tree.specs.proof.NameViews.{path_view};
    ghost use Rattle.aadl_tree.specs.proof.PlaceMaps.{no_place};

    ghost Meaning = { Path (Unit {0}) };

    ghost meaning = { path_view no_place };

    fn same(&self, other: &Path) -> bool {
        self.first.same(&other.first) && same_items(self.rest.as_slice(), other.rest.as_slice())
    }
}

impl Same for Identifiers {
    ghost use Rattle.aadl_tree.specs.Names.{Identifiers};
    ghost use Rattle.aadl_tree.specs.proof.NameViews.{identifiers_view};
    ghost use Rattle.aadl_tree.specs.proof.PlaceMaps.{no_place};

    ghost Meaning = { Identifiers (Unit {0}) };

    ghost meaning = { identifiers_view no_place };

    fn same(&self, other: &Identifiers) -> bool {
        self.first.same(&other.first) && same_items(self.rest.as_slice(), other.rest.as_slice())
    }
}

impl Same for Reference {
    ghost use Rattle.aadl_tree.specs.Names.{Reference};
    ghost use Rattle.aadl_tree.specs.proof.NameViews.{reference_view};
    ghost use Rattle.aadl_tree.specs.proof.PlaceMaps.{no_place};

    ghost Meaning = { Reference (Unit {0}) };

    ghost meaning = { reference_view no_place };

    fn same(&self, other: &Reference) -> bool {
        same_items(self.qualifiers.as_slice(), other.qualifiers.as_slice())
            && self.type_name.same(&other.type_name)
            && same_option(&self.implementation, &other.implementation)
    }
}
