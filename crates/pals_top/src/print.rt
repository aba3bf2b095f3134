//! The command `print`: the canonical text of a design.
ghost use Rattle.std.specs.Prelude.{IfOk};
ghost use Rattle.pals_top.specs.Print.{IsPrintAnswer};
ghost use Rattle.pals_top.specs.proof.StatusAndText.{status_of, text_of};

use crate::answer::Answer;
use bundle_designs::print_bundle;
use pals_base::NoMemory;
use std::alloc::Global;

/// The answer of `print` to a bundle. The text after the divider is ignored.
pub fn answer_print(alloc: Global, bundle: &[u8]) -> Result<Answer, NoMemory>
    ensures { IfOk result (λ answer. IsPrintAnswer bundle.now (status_of answer) (text_of answer)) }
{
    match print_bundle(alloc, bundle) {
        Ok(text) => Ok(Answer::Done(text)),
        Err(refusal) => Answer::refused(refusal),
    }
}
