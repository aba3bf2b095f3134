//! Worked tuples that go over to another rate.
use input_adaptors::adapt;
use pals_base::Adaptor::{self, At, Average, First, Last, Latest, Max, Min, Repeat};
use pals_base::PortValue::{self, Absent, Present};
use pals_base::{NoMemory, Tuple};
use std::alloc::Global;

const SEVEN: PortValue = Present(7);

const FOUR: &[PortValue] = &[Present(1), Present(2), Absent, Present(4)];

// An adaptor, the two rates, the places of a tuple, and the places that they go over to.
type AdaptorCase = (
    Option<Adaptor>,
    u32,
    u32,
    &'static [PortValue],
    &'static [PortValue],
);

const CASES: [AdaptorCase; 16] = [
    (
        Some(Average),
        4,
        1,
        &[Present(4), Absent, Present(5), Absent],
        &[Present(4)],
    ),
    (
        Some(Average),
        4,
        1,
        &[Present(-4), Absent, Present(-5), Absent],
        &[Present(-4)],
    ),
    (
        Some(Average),
        4,
        1,
        &[Absent, Absent, Absent, Absent],
        &[Absent],
    ),
    (
        Some(Average),
        4,
        1,
        &[Present(i64::MAX), Present(i64::MAX), Absent, Absent],
        &[Present(i64::MAX)],
    ),
    (
        Some(Average),
        4,
        1,
        &[Present(i64::MIN), Present(i64::MIN), Absent, Absent],
        &[Present(i64::MIN)],
    ),
    (
        Some(First),
        1,
        4,
        &[SEVEN],
        &[SEVEN, Absent, Absent, Absent],
    ),
    (
        Some(At(3)),
        1,
        4,
        &[SEVEN],
        &[Absent, Absent, SEVEN, Absent],
    ),
    (Some(Last), 1, 4, &[SEVEN], &[Absent, Absent, Absent, SEVEN]),
    (Some(Repeat), 1, 4, &[SEVEN], &[SEVEN, SEVEN, SEVEN, SEVEN]),
    (Some(First), 4, 2, FOUR, &[Present(1), Absent]),
    (Some(Last), 4, 2, FOUR, &[Present(2), Present(4)]),
    (Some(At(2)), 4, 2, FOUR, &[Present(2), Present(4)]),
    (Some(Latest), 4, 2, FOUR, &[Present(2), Present(4)]),
    (Some(Max), 4, 2, FOUR, &[Present(2), Present(4)]),
    (Some(Min), 4, 2, FOUR, &[Present(1), Present(4)]),
    (None, 2, 2, &[Present(1), Absent], &[Present(1), Absent]),
];

fn is_adapted(alloc: Global, case: &AdaptorCase) -> Result<bool, NoMemory> {
    let (adaptor, p, q, places, wanted) = *case;
    let tuple = Tuple::from_slice(alloc, places)?;
    Ok(adapt(alloc, adaptor, p, q, &tuple)?.as_slice() == wanted)
}

/// Whether each tuple goes over to the places that it should.
pub fn are_adapted(alloc: Global) -> Result<bool, NoMemory> {
    for case in &CASES {
        if !is_adapted(alloc, case)? {
            return Ok(false);
        }
    }
    Ok(true)
}
