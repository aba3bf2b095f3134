//! Which instructions are code, and what code weighs.
use crate::code_fixtures::{COUNTER, code};
use pals_base::NoMemory;
use std::alloc::Global;
use step_code::CodeFault::{self, BackJump, BadJump, BadSlot, HeightsDiffer, Underflow};
use step_code::Instr::{self, Add, Emit, End, Jump, JumpZero, Load, Push, Store};
use step_code::most;

macro_rules! start {
    ($slot:expr, $high:expr, $exit:expr) => {
        Instr::LoopStart {
            slot: $slot,
            low: 1,
            high: $high,
            exit: $exit,
        }
    };
}

macro_rules! next {
    ($slot:expr, $high:expr, $to:expr) => {
        Instr::LoopNext {
            slot: $slot,
            high: $high,
            to: $to,
        }
    };
}

// Instructions, and the weight of their code or their first fault.
type VerifyCase = (&'static [Instr], Result<u64, CodeFault>);

fn weight(alloc: Global, instrs: &[Instr]) -> Result<u64, CodeFault> {
    let code = code(alloc, instrs)?;
    Ok(most(&code))
}

// Adds the codes whose weight or first fault is another one, each in a line.
fn add_wrong(wrong: &mut String, cases: &[VerifyCase]) -> Result<(), NoMemory> {
    for (instrs, wanted) in cases {
        if weight(*wrong.allocator(), instrs) != *wanted {
            writeln!(wrong, "{instrs:?}")?;
        }
    }
    Ok(())
}

const REFUSED: [VerifyCase; 3] = [
    (&[Add, End(0)], Err(Underflow { at: 0 })),
    (&[Push(1), JumpZero(0), End(0)], Err(BackJump { at: 1 })),
    (&[Jump(9)], Err(BadJump { at: 0 })),
];

const FIRST_FAULTS: [VerifyCase; 11] = [
    // A jump into a body, and one out of it.
    (
        &[Jump(2), start!(1, 3, 4), Jump(3), next!(1, 3, 2), End(0)],
        Err(BadJump { at: 0 }),
    ),
    (
        &[start!(1, 3, 3), Jump(3), next!(1, 3, 1), End(0)],
        Err(BadJump { at: 1 }),
    ),
    // Two loops that overlap.
    (
        &[
            start!(1, 3, 3),
            start!(2, 4, 4),
            next!(1, 3, 1),
            next!(2, 4, 2),
            End(0),
        ],
        Err(BadJump { at: 0 }),
    ),
    // The slot of the loop round it.
    (
        &[
            start!(1, 3, 4),
            start!(1, 4, 3),
            next!(1, 4, 2),
            next!(1, 3, 1),
            End(0),
        ],
        Err(BadSlot { at: 1 }),
    ),
    // A body that leaves a number more than it found.
    (
        &[start!(1, 3, 3), Push(1), next!(1, 3, 1), End(0)],
        Err(HeightsDiffer { at: 2 }),
    ),
    // A LoopNext that has another high end.
    (
        &[start!(1, 3, 2), next!(1, 4, 1), End(0)],
        Err(BackJump { at: 0 }),
    ),
    // Heights belong to paths to later places, so the jump back is found first at its own place.
    (
        &[Push(1), Emit(0), Push(1), Jump(1)],
        Err(BackJump { at: 3 }),
    ),
    (&[Push(1)], Err(BadJump { at: 0 })),
    (&[Store(1), End(0)], Err(BadSlot { at: 0 })),
    (&[End(1)], Err(BadSlot { at: 0 })),
    (&[], Err(BadJump { at: 0 })),
];

const WEIGHTS: [VerifyCase; 5] = [
    (&COUNTER, Ok(9)),
    (
        &[
            start!(1, 3, 6),
            start!(2, 4, 5),
            Load(2),
            Store(0),
            next!(2, 4, 2),
            next!(1, 3, 1),
            End(0),
        ],
        Ok(44),
    ),
    // Two loops of 2^63 - 1 turns, and the same round a loop of none.
    (
        &[
            start!(1, i64::MAX, 4),
            start!(2, i64::MAX, 3),
            next!(2, i64::MAX, 2),
            next!(1, i64::MAX, 1),
            End(0),
        ],
        Ok(u64::MAX),
    ),
    (
        &[
            start!(1, i64::MAX, 4),
            start!(2, 0, 3),
            next!(2, 0, 2),
            next!(1, i64::MAX, 1),
            End(0),
        ],
        Ok(u64::MAX),
    ),
    (
        &[
            start!(1, 0, 4),
            start!(2, i64::MAX, 3),
            next!(2, i64::MAX, 2),
            next!(1, 0, 1),
            End(0),
        ],
        Ok(2),
    ),
];

/// The codes whose weight or first fault is another one than it should be, each in a line.
pub fn wrong_codes(alloc: Global) -> Result<String, NoMemory> {
    let mut wrong = String::new(alloc);
    add_wrong(&mut wrong, &REFUSED)?;
    add_wrong(&mut wrong, &FIRST_FAULTS)?;
    add_wrong(&mut wrong, &WEIGHTS)?;
    Ok(wrong)
}
