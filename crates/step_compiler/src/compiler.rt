//! The compiler: the step code of a behaviour, or that it is too long.
ghost use Rattle.std.specs.Prelude.{◌≡◌, length, IfOk, IfErr};
ghost use Rattle.step_code.specs.CodeLengths.{code_length};
ghost use Rattle.step_code.specs.proof.CodeMatchesBehaviour.{Means};
ghost use Rattle.step_compiler.specs.proof.CompiledCode.{compiled};
ghost use Rattle.step_compiler.specs.LaidOutCode.{IsLaidOut};
ghost use Rattle.step_compiler.specs.proof.CompileFaultCauses.{IsCauseFor};

use crate::block_order::block_order;
use crate::blocks::{entries, push_blocks, starts};
use crate::checked_numbers::count;
use crate::code_lengths::transitions_length;
use crate::compile_fault::CompileFault;
use crate::loop_depths::transitions_depth;
use pals_base::limits::INSTRUCTIONS;
use pals_base::{Behaviour, ItemList, NoMemory};
use std::alloc::Global;
use step_code::{Code, CodeFault, CodeParts, verify};

/// The code of a behaviour, the one that is laid out for it: each step of it leaves what the
/// behaviour's step leaves. Code that is longer than a component's code may be is refused, and nothing
/// else is.
pub fn compile(alloc: Global, behaviour: &Behaviour) -> Result<Code, CompileFault>
    ensures layout { IfOk result (IsLaidOut behaviour.now) }
    ensures means { IfOk result (λ code. Means code behaviour.now) }
    ensures length { IfOk result (λ code. length code.instrs ≡ code_length behaviour.now) }
    ensures fault { IfErr result (IsCauseFor behaviour.now) }
{
    let length = transitions_length(behaviour.parts().transitions.as_slice());
    if length > INSTRUCTIONS as u64 {
        return Err(CompileFault::CodeTooLong { length });
    }
    let parts = compiled(alloc, behaviour)?;
    match verify(alloc, parts) {
        Ok(code) => Ok(code),
        Err(fault) => Err(refusal(fault)),
    }
}

// The verifier does not refuse the parts of a behaviour's code: its only fault is that there is not
// enough memory.
fn refusal(fault: CodeFault) -> CompileFault
    requires { fault ≡ CodeFault.Memory }
    ensures { result ≡ CompileFault.Memory }
{
    match fault {
        CodeFault::Memory => CompileFault::Memory,
        _ => unreachable!(),
    }
}

// The parts of the code of a behaviour.
fn compiled(alloc: Global, behaviour: &Behaviour) -> Result<CodeParts, NoMemory>
    ensures { IfOk result (λ parts. parts ≡ compiled behaviour.now) }
{
    let parts = behaviour.parts();
    let order = block_order(alloc, behaviour)?;
    let starts = starts(alloc, behaviour, &order)?;
    let mut instrs = ItemList::new(alloc);
    push_blocks(&mut instrs, behaviour, &starts, &order)?;
    Ok(CodeParts {
        instrs,
        entries: entries(alloc, behaviour, &starts)?,
        vars: count(parts.vars.len())?,
        loops: transitions_depth(parts.transitions.as_slice())?,
        ins: count(parts.ins.len())?,
        outs: count(parts.outs.len())?,
    })
}
