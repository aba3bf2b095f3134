//! From a bundle to the canonical text of its design.
ghost use Rattle.std.specs.Prelude.{IfOk, IfErr};
ghost use Rattle.bundle_designs.specs.CanonicalTexts.{IsPrinted};
ghost use Rattle.bundle_designs.specs.proof.Refusals.{IsTextRefusal};

use crate::parsed_bundle::parse_bundle;
use crate::refusal::Refusal;
use aadl_print::print;
use std::alloc::Global;

/// Returns the canonical text of a bundle's design. Ignores the bytes after the divider. Errors: the reason why
/// the bundle has no canonical text.
pub fn print_bundle(alloc: Global, bundle: &[u8]) -> Result<Vec<u8>, Refusal>
    ensures printed { IfOk result (λ text. IsPrinted bundle.now text.items) }
    ensures refused { IfErr result (IsTextRefusal bundle.now) }
{
    let parsed = parse_bundle(alloc, bundle)?;
    let text = print(alloc, &parsed.tree)?;
    Ok(text)
}
