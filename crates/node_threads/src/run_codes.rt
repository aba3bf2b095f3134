//! The step codes of a run, as a type parameter.
use std::marker::Brand;

/// The step codes of the nodes of one run, in their order. A type of this trait ties the jobs of the run to the bus
/// under the lock.
pub trait RunCodes {
    ghost use Rattle.std.specs.Prelude.{List};
    ghost use Rattle.step_code.specs.declared.instr.CodeParts.{CodeParts};

    ghost codes: { List CodeParts };
}

impl RunCodes for Brand {
    ghost use Rattle.std.specs.Prelude.{[]};

    ghost codes = { [] };
}
