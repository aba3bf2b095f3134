//! From a bundle to the tree of its design text.
ghost use Rattle.std.specs.Prelude.{IfOk, IfErr};
ghost use Rattle.aadl_tree.specs.proof.PackageViews.{placed};
ghost use Rattle.bundle_designs.specs.ParsedBundles.{IsParsed};
ghost use Rattle.bundle_designs.specs.proof.Refusals.{IsTextRefusal};

use crate::bundle::split;
use crate::refusal::Refusal;
use crate::refused_text::{refused_text, undivided};
use aadl_parse::parse;
use aadl_tree::PackageTree;
use std::alloc::Global;

/// A bundle with a parsed design text.
#[derive(Drop)]
pub struct ParsedBundle<'b> {
    /// The design's text, before the divider.
    pub text: &'b [u8],
    /// The tree of that text.
    pub tree: PackageTree,
    /// The bytes after the divider.
    pub scenario: &'b [u8],
}

/// Returns the tree of a bundle's design text. Ignores the bytes after the divider. Errors: the reason why the
/// text has no tree.
pub fn parse_bundle<'b>(alloc: Global, bundle: &'b [u8]) -> Result<ParsedBundle<'b>, Refusal>
    ensures parsed { IfOk result (λ p. IsParsed bundle.now p.text.now p.scenario.now (placed p.tree)) }
    ensures refused { IfErr result (IsTextRefusal bundle.now) }
{
    let Some((text, scenario)) = split(bundle) else {
        return Err(Refusal::Text(undivided(alloc, bundle)?));
    };
    match parse(alloc, text) {
        Ok(tree) => Ok(ParsedBundle {
            text,
            tree,
            scenario,
        }),
        Err(fault) => Err(Refusal::Text(refused_text(alloc, text, fault)?)),
    }
}
