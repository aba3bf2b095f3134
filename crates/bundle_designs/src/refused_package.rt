//! The outputs for packages without a design.
ghost use Rattle.std.specs.Prelude.{◌≡◌, ◌≢◌, ◌++◌, IfOk, OnOk};
ghost use Rattle.aadl_names.specs.declared.fault.PackageFault.{PackageFault};
ghost use Rattle.pals_model.specs.RoundTexts.{line_end, text_of as lines_text};
ghost use Rattle.bundle_designs.specs.PackageFaultLines.{package_fault_line};
ghost use Rattle.bundle_designs.specs.ViolationLines.{violation_lines};

use crate::package_faults::add_package_fault;
use crate::violations::add_violations;
use aadl_instance::PackageFault;
use annex_resolve::Violation;
use pals_base::NoMemory;
use std::alloc::{AllocError, Global};

/// Returns the output for a package with this fault. An allocation failure is not a fault of a package, and is
/// returned as an error.
pub fn refused_package(
    alloc: Global,
    text: &[u8],
    fault: &PackageFault,
) -> Result<Vec<u8>, NoMemory>
    ensures text { IfOk result (λ line. line.items ≡ package_fault_line text.now fault.now ++ line_end) }
    ensures named { OnOk result (fault.now ≢ PackageFault.Memory) }
{
    if let PackageFault::Memory = fault {
        return Err(AllocError);
    }
    let mut line = Vec::new(alloc);
    add_package_fault(&mut line, text, fault)?;
    Ok(line)
}

/// Returns the output for an instance model with these violations. Errors: out of memory.
pub fn refused_instance(
    alloc: Global,
    text: &[u8],
    found: &[Violation],
) -> Result<Vec<u8>, NoMemory>
    ensures { IfOk result (λ lines. lines.items ≡ lines_text (violation_lines text.now found.now)) }
{
    let mut lines = Vec::new(alloc);
    add_violations(&mut lines, text, found)?;
    Ok(lines)
}
