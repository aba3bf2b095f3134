//! Whether two trees have the same meaning, at any places.
ghost use Rattle.std.specs.Prelude.{◌≡◌, ◌↔◌, IsTrue};
ghost use Rattle.aadl_tree.specs.proof.PackageViews.{meaning};

mod actions;
mod annex;
mod declarations;
mod expressions;
mod lists_and_options;
mod names;
mod same_meaning;
mod values;

use crate::package::PackageTree;
pub use actions::{same_actions, same_block};
pub use expressions::same_expression;
pub use lists_and_options::{same_items, same_option};
pub use same_meaning::Same;
pub use values::{same_associations, same_value};

/// Returns whether two trees are equal except for their places. Names are compared by their spelling.
pub fn same(a: &PackageTree, b: &PackageTree) -> bool
    ensures { IsTrue result ↔ (meaning a.now ≡ meaning b.now) }
{
    a.name.same(&b.name)
        && same_items(a.withs.as_slice(), b.withs.as_slice())
        && same_items(a.declarations.as_slice(), b.declarations.as_slice())
        && a.end_name.same(&b.end_name)
}
