//! Whether two declarations have the same meaning.

use super::lists_and_options::{same_items, same_option};
use super::same_meaning::Same;
use super::values::same_associations;
use crate::declarations::{
    Connection, ConnectionEnd, Declaration, Feature, Implementation, ImplementationName,
    Subcomponent, TypeDeclaration, With,
};

impl Same for With {
    ghost use Rattle.aadl_tree.specs.Declarations.{With};
    ghost use Rattle.aadl_tree.specs.proof.DeclarationViews.{with_view};
    ghost use Rattle.aadl_tree.specs.proof.PlaceMaps.{no_place};

    ghost Meaning = { With (Unit {0}) };

    ghost meaning = { with_view no_place };

    fn same(&self, other: &With) -> bool {
        self.first.same(&other.first) && same_items(self.rest.as_slice(), other.rest.as_slice())
    }
}

impl Same for Feature {
    ghost use Rattle.aadl_tree.specs.Declarations.{Feature};
    ghost use Rattle.aadl_tree.specs.proof.DeclarationViews.{feature_view};
    ghost use Rattle.aadl_tree.specs.proof.PlaceMaps.{no_place};

    ghost Meaning = { Feature (Unit {0}) };

    ghost meaning = { feature_view no_place };

    fn same(&self, other: &Feature) -> bool {
        self.name.same(&other.name)
            && self.direction == other.direction
            && same_option(&self.data_type, &other.data_type)
            && same_associations(&self.properties, &other.properties)
    }
}

impl Same for Subcomponent {
    ghost use Rattle.aadl_tree.specs.Declarations.{Subcomponent};
    ghost use Rattle.aadl_tree.specs.proof.DeclarationViews.{subcomponent_view};
    ghost use Rattle.aadl_tree.specs.proof.PlaceMaps.{no_place};

    ghost Meaning = { Subcomponent (Unit {0}) };

    ghost meaning = { subcomponent_view no_place };

    fn same(&self, other: &Subcomponent) -> bool {
        self.name.same(&other.name)
            && self.category == other.category
            && self.classifier.same(&other.classifier)
            && same_associations(&self.properties, &other.properties)
    }
}

impl Same for ConnectionEnd {
    ghost use Rattle.aadl_tree.specs.Declarations.{ConnectionEnd};
    ghost use Rattle.aadl_tree.specs.proof.DeclarationViews.{end_view};
    ghost use Rattle.aadl_tree.specs.proof.PlaceMaps.{no_place};

    ghost Meaning = { ConnectionEnd (Unit {0}) };

    ghost meaning = { end_view no_place };

    fn same(&self, other: &ConnectionEnd) -> bool {
        self.first.same(&other.first) && same_option(&self.second, &other.second)
    }
}

impl Same for Connection {
    ghost use Rattle.aadl_tree.specs.Declarations.{Connection};
    ghost use Rattle.aadl_tree.specs.proof.DeclarationViews.{connection_view};
    ghost use Rattle.aadl_tree.specs.proof.PlaceMaps.{no_place};

    ghost Meaning = { Connection (Unit {0}) };

    ghost meaning = { connection_view no_place };

    fn same(&self, other: &Connection) -> bool {
        self.name.same(&other.name)
            && self.source.same(&other.source)
            && self.target.same(&other.target)
            && same_associations(&self.properties, &other.properties)
    }
}

impl Same for TypeDeclaration {
    ghost use Rattle.aadl_tree.specs.Declarations.{TypeDeclaration};
    ghost use Rattle.aadl_tree.specs.proof.DeclarationViews.{type_view};
    ghost use Rattle.aadl_tree.specs.proof.PlaceMaps.{no_place};

    ghost Meaning = { TypeDeclaration (Unit {0}) };

    ghost meaning = { type_view no_place };

    fn same(&self, other: &TypeDeclaration) -> bool {
        self.category == other.category
            && self.name.same(&other.name)
            && same_items(self.features.as_slice(), other.features.as_slice())
            && same_associations(&self.properties, &other.properties)
            && same_items(self.annexes.as_slice(), other.annexes.as_slice())
            && self.end_name.same(&other.end_name)
    }
}

impl Same for ImplementationName {
    ghost use Rattle.aadl_tree.specs.Declarations.{ImplementationName};
    ghost use Rattle.aadl_tree.specs.proof.DeclarationViews.{implementation_name_view};
    ghost use Rattle.aadl_tree.specs.proof.PlaceMaps.{no_place};

    ghost Meaning = { ImplementationName (Unit {0}) };

    ghost meaning = { implementation_name_view no_place };

    fn same(&self, other: &ImplementationName) -> bool {
        self.component_type.same(&other.component_type)
            && self.implementation.same(&other.implementation)
    }
}

impl Same for Implementation {
    ghost use Rattle.aadl_tree.specs.Declarations.{Implementation};
    ghost use Rattle.aadl_tree.specs.proof.DeclarationViews.{implementation_view};
    ghost use Rattle.aadl_tree.specs.proof.PlaceMaps.{no_place};

    ghost Meaning = { Implementation (Unit {0}) };

    ghost meaning = { implementation_view no_place };

    fn same(&self, other: &Implementation) -> bool {
        self.category == other.category
            && self.name.same(&other.name)
            && same_items(
                self.subcomponents.as_slice(),
                other.subcomponents.as_slice(),
            )
            && same_items(self.connections.as_slice(), other.connections.as_slice())
            && same_associations(&self.properties, &other.properties)
            && same_items(self.annexes.as_slice(), other.annexes.as_slice())
            && self.end_name.same(&other.end_name)
    }
}

impl Same for Declaration {
    ghost use Rattle.aadl_tree.specs.Declarations.{Declaration};
    ghost use Rattle.aadl_tree.specs.proof.DeclarationViews.{declaration_view};
    ghost use Rattle.aadl_tree.specs.proof.PlaceMaps.{no_place};

    ghost Meaning = { Declaration (Unit {0}) };

    ghost meaning = { declaration_view no_place };

    fn same(&self, other: &Declaration) -> bool {
        match (self, other) {
            (Declaration::Type(left), Declaration::Type(right)) => left.same(right),
            (Declaration::Implementation(left), Declaration::Implementation(right)) => {
                left.same(right)
            }
            _ => false,
        }
    }
}
