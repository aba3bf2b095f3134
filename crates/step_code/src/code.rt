//! Code that is verified.
ghost use Rattle.std.specs.Prelude.{◌≡◌};
ghost use Rattle.step_code.specs.SuccessorsAndWeights.{weight_of};
ghost use Rattle.step_code.specs.CappedWeights.{capped};

use crate::instr::CodeParts;
use std::marker::Model;

/// Instructions whose steps always end, and never lack an operand, a slot, a port or a place.
/// Contracts see their parts. [`crate::verify`] makes code.
#[derive(Drop)]
pub struct Code {
    parts: CodeParts,
    most: u64,
}

impl Model for Code {
    ghost use Rattle.step_code.specs.declared.instr.CodeParts.{CodeParts};

    ghost Value = { CodeParts };

    ghost use Rattle.step_code.specs.contracts.instr.CodeParts.{the_row};

    ghost coded = { the_row.coded };

    ghost view = { λ code. code.parts };

    ghost use Rattle.std.specs.Prelude.{◌≡◌};
    ghost use Rattle.step_code.specs.SuccessorsAndWeights.{weight_of};
    ghost use Rattle.step_code.specs.proof.VerifierRules.{IsVerified};
    ghost use Rattle.step_code.specs.CappedWeights.{capped};

    ghost invariant = { λ code. IsVerified code.parts × (code.most ≡ capped (weight_of code.parts)) };
}

impl Code {
    ghost use Rattle.std.specs.Prelude.{◌≡◌};
    ghost use Rattle.step_code.specs.SuccessorsAndWeights.{weight_of};
    ghost use Rattle.step_code.specs.proof.VerifierRules.{IsVerified};
    ghost use Rattle.step_code.specs.CappedWeights.{capped};

    /// The code of verified parts and their weight. Does not allocate.
    pub(crate) fn new(parts: CodeParts, most: u64) -> Code
        requires verified { IsVerified parts }
        requires most { most ≡ capped (weight_of parts) }
        ensures { result ≡ parts }
    {
        Code { parts, most }
    }

    /// All parts at once.
    pub fn parts(&self) -> &CodeParts
        ensures value { result.now ≡ self.now }
        ensures verified { IsVerified self.now }
    {
        &self.parts
    }

    // The stored weight.
    fn most(&self) -> u64
        ensures { result ≡ capped (weight_of self.now) }
    {
        self.most
    }
}

/// The maximum number of instructions of one step, capped at u64's maximum. Does not
/// allocate.
pub fn most(code: &Code) -> u64
    ensures { result ≡ capped (weight_of code.now) }
{
    code.most()
}
