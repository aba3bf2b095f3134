//! Periods held to the bound, and least periods that all rates divide, by worked numbers.
use bound_checker::{backoff, least_multiple, least_period, meets};
use pals_base::{Gamma, Nanos};

const MILLI: Nanos = 1_000_000;

// A skew of 1 ms, execution of at most 3 ms, and a network of 1 to 4 ms.
const USUAL: Gamma = Gamma {
    eps: MILLI,
    alpha_min: 0,
    alpha_max: 3 * MILLI,
    mu_min: MILLI,
    mu_max: 4 * MILLI,
};

const SLOW_STEPS: Gamma = Gamma {
    eps: MILLI,
    alpha_min: 0,
    alpha_max: 6 * MILLI,
    mu_min: MILLI,
    mu_max: 4 * MILLI,
};

const SLOW_NETWORK: Gamma = Gamma {
    eps: MILLI,
    alpha_min: 0,
    alpha_max: 0,
    mu_min: 3 * MILLI,
    mu_max: 4 * MILLI,
};

// A network of up to an hour.
const HOUR: Gamma = Gamma {
    eps: MILLI,
    alpha_min: 0,
    alpha_max: 3 * MILLI,
    mu_min: MILLI,
    mu_max: 3_600_000_000_000,
};

const AT_ONCE: Gamma = Gamma {
    eps: 0,
    alpha_min: 0,
    alpha_max: 0,
    mu_min: 0,
    mu_max: 0,
};

/// Whether periods are held to the bound, at its very end.
pub fn are_usual_periods() -> bool {
    let found = [
        backoff(&USUAL),
        least_period(&USUAL, 4),
        least_period(&USUAL, 1),
    ];
    found == [1_000_000, 12_000_000, 9_000_000]
        && meets(&USUAL, 9_000_000, 1)
        && !meets(&USUAL, 8_999_999, 1)
}

/// The same where steps or messages are slow.
pub fn are_slow_periods() -> bool {
    let found = [
        least_period(&SLOW_STEPS, 4),
        backoff(&SLOW_NETWORK),
        least_period(&SLOW_NETWORK, 1),
    ];
    found == [24_000_000, 0, 6_000_000]
}

/// Whether the least period that all rates divide is found.
pub fn are_least_multiples() -> bool {
    let found = [
        least_multiple(&USUAL, &[]),
        least_multiple(&USUAL, &[1, 7]),
        least_multiple(&USUAL, &[1, 1, 2, 4]),
        least_multiple(&USUAL, &[7, 9]),
    ];
    found
        == [
            Some(9_000_000),
            Some(21_000_000),
            Some(12_000_000),
            Some(27_000_036),
        ]
}

/// The same at the ends: past an hour there is none, and with bounds of 0 it is 0.
pub fn are_least_multiples_at_the_ends() -> bool {
    let found = [
        least_multiple(&HOUR, &[1, 7]),
        least_multiple(&AT_ONCE, &[7, 9]),
    ];
    found == [None, Some(0)]
}

/// Whether rates whose least common multiple is above 2^64 have no common period.
pub fn have_no_common_period() -> bool {
    let rates = [
        64, 63, 61, 59, 55, 53, 47, 43, 41, 37, 31, 29, 23, 19, 17, 13,
    ];
    least_multiple(&USUAL, &rates).is_none()
}
