//! The memory of a job, which goes from one job of a node to the next.
ghost use Rattle.std.specs.Prelude.{◌≡◌, length, IfOk};
ghost use Rattle.step_code.specs.proof.CodeRuns.{FitsCode};
ghost use Rattle.pals_node.specs.proof.JobMemories.{IsMemoryFor, HasMemory, IsFilled};

use pals_base::{Frame, NoMemory, PortValue, TryClone, Tuple};
use std::alloc::Global;
use step_code::Code;
use step_vm::Room;

/// The memory of a step's job: the frame before the step, its inputs, the frame and the outputs
/// after it, and the room for its code. Its contents do not matter to the next job.
#[derive(Drop)]
pub struct Memory {
    pub frame: Frame,
    pub inputs: Tuple,
    pub result: Frame,
    pub outs: Vec<PortValue>,
    pub room: Room,
}

/// The memory for a step of a code that continues from this frame with these inputs: the memory of an
/// earlier job, if there is one, and otherwise a new one.
pub fn memory_for(
    alloc: Global,
    code: &Code,
    frame: &Frame,
    inputs: &Tuple,
    spare: Option<Memory>,
) -> Result<Memory, NoMemory>
    requires frame { FitsCode code.now frame.now }
    requires inputs { length inputs.now ≡ code.now.ins }
    requires spare { HasMemory code.now spare }
    ensures { IfOk result (IsFilled code.now frame.now inputs.now) }
{
    match spare {
        None => new_memory(alloc, code, frame, inputs),
        Some(mut memory) => {
            memory.fill(code, frame, inputs);
            Ok(memory)
        }
    }
}

// New memory for a step.
fn new_memory(alloc: Global, code: &Code, frame: &Frame, inputs: &Tuple) -> Result<Memory, NoMemory>
    ensures { IfOk result (IsFilled code.now frame.now inputs.now) }
{
    let outs = code.parts().outs as usize;
    Ok(Memory {
        frame: frame.try_clone(alloc)?,
        inputs: inputs.try_clone(alloc)?,
        result: frame.try_clone(alloc)?,
        outs: vec![in alloc; PortValue::Absent; outs]?,
        room: Room::for_code(alloc, code)?,
    })
}

impl Memory {
    // Writes the frame and the inputs of a step. Does not allocate.
    fn fill(&mut self, code: &Code, frame: &Frame, inputs: &Tuple)
        requires frame { FitsCode code.now frame.now }
        requires inputs { length inputs.now ≡ code.now.ins }
        requires fits { IsMemoryFor code.now self.old }
        ensures { IsFilled code.now frame.now inputs.now self.new }
    {
        let _parts = code.parts();
        self.frame.copy_from(frame);
        self.inputs.copy_from_slice(inputs.as_slice());
        self.result.copy_from(frame);
    }
}
