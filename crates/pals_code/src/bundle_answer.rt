//! The answer to a bundle.
ghost use Rattle.std.specs.Prelude.{◌++◌, ℕ, List, IfOk, OnOk};
ghost use Rattle.pals_model.specs.RoundTexts.{line_end};
ghost use Rattle.bundle_designs.specs.AcceptedAndRefusedPackages.{IsAccepted};
ghost use Rattle.code_listing.specs.Listings.{listing};
ghost use Rattle.code_listing.specs.NumberRanges.{AllFit};
ghost use Rattle.pals_code.specs.declared.status.TheConstants.{CODE_TOO_LONG, DONE};
ghost use Rattle.pals_code.specs.BundleAnswers.{overlong_code_line, IsListingAnswer};
ghost use Rattle.pals_code.specs.proof.StatusAndText.{status_of, text_of, Says};

use crate::answer::Answer;
use bundle_designs::accept;
use code_listing::add_listing;
use design_codes::{CodesError, compile_all};
use pals_base::{NoMemory, NodeNo, Text};
use pals_model::Design;
use pals_report::add_overlong_code;
use std::alloc::{AllocError, Global};
use step_code::Code;

/// The answer to a bundle: the listing of the step code of its design below the root. The text after the
/// divider is ignored.
pub fn answer_bundle(alloc: Global, bundle: &[u8], root: &Text) -> Result<Answer, NoMemory>
    ensures { IfOk result (λ answer. IsListingAnswer root.now bundle.now (status_of answer) (text_of answer)) }
{
    match accept(alloc, bundle, root) {
        Ok(accepted) => answer_design(alloc, &accepted.design),
        Err(refusal) => Answer::refused(refusal),
    }
}

// The answer to a bundle that means this design.
fn answer_design(alloc: Global, design: &Design) -> Result<Answer, NoMemory>
    ensures { (root : List ℕ) (bundle : List ℕ) (scenario : List ℕ) → IsAccepted root bundle design.now scenario
        → IfOk result (λ answer. IsListingAnswer root bundle (status_of answer) (text_of answer)) }
{
    match compile_all(alloc, design) {
        Ok(codes) => list(alloc, design, codes.as_slice()),
        Err(CodesError::TooLong { node, length }) => code_too_long(alloc, design, node, length),
        Err(CodesError::Memory) => Err(AllocError),
    }
}

// The answer to a design with its codes.
fn list(alloc: Global, design: &Design, codes: &[Code]) -> Result<Answer, NoMemory>
    ensures answer { IfOk result (Says DONE (listing design.now codes.now)) }
    ensures fit { OnOk result (AllFit design.now.components codes.now) }
{
    let mut text = Vec::new(alloc);
    add_listing(&mut text, design, codes)?;
    Ok(Answer::Done(text))
}

// The answer to a design with a component whose code is too long.
fn code_too_long(
    alloc: Global,
    design: &Design,
    node: NodeNo,
    length: u64,
) -> Result<Answer, NoMemory>
    ensures { IfOk result (Says CODE_TOO_LONG (overlong_code_line design.now node.0 length ++ line_end)) }
{
    let mut line = Vec::new(alloc);
    add_overlong_code(&mut line, design, node, length)?;
    Ok(Answer::CodeTooLong(line))
}
