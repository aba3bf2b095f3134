//! The outputs for rejected design texts.
ghost use Rattle.std.specs.Prelude.{◌≡◌, ◌≢◌, ◌++◌, IfOk, OnOk};
ghost use Rattle.aadl_parse.specs.declared.text_fault.TextFault.{TextFault};
ghost use Rattle.pals_model.specs.RoundTexts.{line_end};
ghost use Rattle.bundle_designs.specs.TextFaultLines.{text_fault_line, no_divider_line};

use crate::text_faults::{add_no_divider, add_text_fault};
use aadl_parse::TextFault;
use pals_base::NoMemory;
use std::alloc::{AllocError, Global};

/// Returns the output for a bundle without a dividing line. Errors: out of memory.
pub fn undivided(alloc: Global, bundle: &[u8]) -> Result<Vec<u8>, NoMemory>
    ensures { IfOk result (λ text. text.items ≡ no_divider_line bundle.now ++ line_end) }
{
    let mut text = Vec::new(alloc);
    add_no_divider(&mut text, bundle)?;
    Ok(text)
}

/// Returns the output for a design text with this fault. An allocation failure is not a fault of a text, and is
/// returned as an error.
pub fn refused_text(alloc: Global, design: &[u8], fault: TextFault) -> Result<Vec<u8>, NoMemory>
    ensures text { IfOk result (λ text. text.items ≡ text_fault_line design.now fault ++ line_end) }
    ensures named { OnOk result (fault ≢ TextFault.Memory) }
{
    if let TextFault::Memory = fault {
        return Err(AllocError);
    }
    let mut text = Vec::new(alloc);
    add_text_fault(&mut text, design, &fault)?;
    Ok(text)
}
