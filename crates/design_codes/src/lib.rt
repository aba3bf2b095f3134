//! The step code of all components of a design.
#![tactic(auto)]

ghost use Rattle.std.specs.Prelude.{IfOk, IfErr};
ghost use Rattle.pals_bus.specs.proof.StepCodesOfNodes.{AreCodes};
ghost use Rattle.step_compiler.specs.LaidOutCode.{AreLaidOut};
ghost use Rattle.design_codes.specs.OverlongCodes.{AreShort, IsCause};
ghost use Rattle.design_codes.specs.DesignBehaviours.{behaviours};

use pals_base::{ItemList, NoMemory, NodeNo};
use pals_model::Design;
use std::alloc::Global;
use step_code::Code;
use step_compiler::{CompileFault, compile};

/// Why a design has no codes.
#[derive(Clone, Copy, Debug)]
pub enum CodesError {
    /// The code of the component `node` would have `length` instructions, which is more than a code
    /// may have. It is the first such component.
    TooLong { node: NodeNo, length: u64 },
    /// There was not enough memory.
    Memory,
}

impl From<NoMemory> for CodesError {
    ghost use Rattle.std.specs.Prelude.{◌≡◌};
    ghost use Rattle.design_codes.specs.declared.CodesError.TheVariants.{Memory};

    ghost from_gives = { λ _ e. e ≡ Memory };

    fn from(_error: NoMemory) -> CodesError {
        CodesError::Memory
    }
}

/// The code of each component: it is laid out for the component's behaviour, and means what the
/// component does.
pub fn compile_all(alloc: Global, design: &Design) -> Result<ItemList<Code>, CodesError>
    ensures ok { IfOk result (AreCodes design.now) }
    ensures layout { IfOk result (AreLaidOut (behaviours design.now)) }
    ensures short { IfOk result (λ _. AreShort design.now) }
    ensures fault { IfErr result (IsCause design.now) }
{
    let mut codes = ItemList::new(alloc);
    for component in design.components() {
        match compile(alloc, &component.behaviour) {
            Ok(code) => {
                // Each code has the invariant that it is within the limit.
                let _verified = code.parts();
                codes.push(code)?;
            }
            Err(CompileFault::Memory) => return Err(CodesError::Memory),
            Err(CompileFault::CodeTooLong { length }) => {
                let node = NodeNo(codes.len() as u32);
                return Err(CodesError::TooLong { node, length });
            }
        }
    }
    Ok(codes)
}
