//! The bus of a run before its first event.
ghost use Rattle.std.specs.Prelude.{◌≡◌, ◌≤◌, length, IfOk};
ghost use Rattle.pals_base.specs.declared.limits.TheConstants.{ROUNDS};
ghost use Rattle.pals_model.specs.Delays.{AreDelays};
ghost use Rattle.pals_bus.specs.proof.StepCodesOfNodes.{AreCodes};
ghost use Rattle.pals_bus.specs.proof.OpeningNodes.{opening_bus};

use pals_base::{ItemList, NoMemory};
use pals_bus::Bus;
use pals_model::{Delays, Design, Env};
use std::alloc::Global;
use std::sync::Arc;
use step_code::Code;

/// The bus of a run before its first event.
pub fn opened(
    alloc: Global,
    design: Design,
    codes: ItemList<Code>,
    env: Env,
    rounds: u32,
    delays: Delays,
    meeting: bool,
) -> Result<Bus, NoMemory>
    requires codes { AreCodes design codes }
    requires rounds { (1 ≤ rounds) × (rounds ≤ ROUNDS) }
    requires delays { AreDelays (length design.links) delays }
    ensures { IfOk result (λ bus. bus ≡ opening_bus
        (record { design = design; env = env; rounds = rounds; delays = delays }) codes meeting) }
{
    let design = Arc::new(alloc, design)?;
    Bus::new(alloc, design, codes, env, rounds, delays, meeting)
}
