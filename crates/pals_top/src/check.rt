//! The command `check`: what a design is accepted with, or what is wrong with it.
ghost use Rattle.std.specs.Prelude.{IfOk};
ghost use Rattle.pals_top.specs.Check.{IsCheckAnswer};
ghost use Rattle.pals_top.specs.proof.StatusAndText.{status_of, text_of};

use crate::answer::Answer;
use bundle_designs::accept;
use pals_base::{NoMemory, Text};
use pals_report::add_check;
use std::alloc::Global;

/// The answer of `check` to a bundle. The text after the divider is ignored.
pub fn answer_check(alloc: Global, bundle: &[u8], root: &Text) -> Result<Answer, NoMemory>
    ensures { IfOk result (λ answer. IsCheckAnswer root.now bundle.now (status_of answer) (text_of answer)) }
{
    match accept(alloc, bundle, root) {
        Ok(accepted) => {
            let mut report = Vec::new(alloc);
            add_check(alloc, &mut report, &accepted.design)?;
            Ok(Answer::Done(report))
        }
        Err(refusal) => Answer::refused(refusal),
    }
}
