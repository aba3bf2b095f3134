//! The check of an instance model.
ghost use Rattle.std.specs.Prelude.{◌≡◌, [], IfOk, IfErr};
ghost use Rattle.aadl_tree.specs.proof.PackageViews.{placed};
ghost use Rattle.model_violations.specs.proof.UnsortedFindings.{shown};
ghost use Rattle.model_violations.specs.Violations.{AreViolations};
ghost use Rattle.design_laws.specs.InstanceDesigns.{IsDesignOf};
ghost use Rattle.model_checks.specs.proof.RefusedInstances.{IsRefused};

use crate::instance_design::design_parts;
use aadl_instance::Instance;
use annex_resolve::Violation;
use component_checks::Properties;
use design_laws::designs::{designs_are_there, designs_keep_their_rules};
use design_laws::instances::{behaviours_keep_their_rules, no_violations_are_no_findings};
use design_laws::names::texts_name;
use model_violations::violations;
use pals_base::{ItemList, NoMemory};
use pals_model::Design;
use std::alloc::{AllocError, Global};

/// The reason why an instance model has no design.
#[derive(Drop)]
pub enum CheckFault {
    /// All its violations, sorted by position and then by rule.
    Violations(ItemList<Violation>),
    /// Out of memory.
    Memory,
}

impl From<AllocError> for CheckFault {
    ghost use Rattle.std.specs.Prelude.{◌≡◌};
    ghost use Rattle.model_checks.specs.declared.instance_check.CheckFault.TheVariants.{Memory};

    ghost from_gives = { λ _ e. e ≡ Memory };

    fn from(_error: AllocError) -> CheckFault {
        CheckFault::Memory
    }
}

// The design of an instance model without violations.
fn accepted(
    alloc: Global,
    properties: &Properties<'_>,
    instance: &Instance<'_>,
) -> Result<Design, NoMemory>
    requires names { properties.now.uses.now.names.tree.now ≡ instance.now.wires.uses.names.tree.now }
    requires none { AreViolations (placed instance.now.wires.uses.names.tree.now) (shown instance.now) [] }
    ensures { IfOk result (λ design. IsDesignOf (placed instance.now.wires.uses.names.tree.now) (shown instance.now)
        design) }
{
    texts_name();
    no_violations_are_no_findings();
    behaviours_keep_their_rules();
    designs_are_there();
    designs_keep_their_rules();
    let Some(parts) = design_parts(alloc, properties, instance)? else {
        unreachable!();
    };
    Ok(Design::new(parts))
}

/// Returns the design of an instance model. Errors: all its violations.
pub fn check(alloc: Global, instance: &Instance<'_>) -> Result<Design, CheckFault>
    ensures accepted { IfOk result (λ _. AreViolations (placed instance.now.wires.uses.names.tree.now)
        (shown instance.now) []) }
    ensures design { IfOk result (λ design. IsDesignOf (placed instance.now.wires.uses.names.tree.now)
        (shown instance.now) design) }
    ensures refused { IfErr result (λ fault. IsRefused (placed instance.now.wires.uses.names.tree.now)
        (shown instance.now) fault) }
{
    let properties = Properties::of(alloc, &instance.wires.uses)?;
    let found = violations(alloc, &properties, instance)?;
    if !found.is_empty() {
        return Err(CheckFault::Violations(found));
    }
    let design = accepted(alloc, &properties, instance)?;
    Ok(design)
}
