//! The greatest common divisor and the least common multiple of two numbers.
ghost use Rattle.std.specs.Prelude.{◌*◌, ◌^◌, ◌<◌};
ghost use Rattle.bound_checker.specs.proof.DivisorsAndMultiples.{IsGreatestCommonDivisor, IsLeastCommonMultiple};

// The greatest common divisor, by Euclid's algorithm.
fn gcd(a: u64, b: u64) -> u64
    ensures { IsGreatestCommonDivisor a b result }
{
    let mut high = a;
    let mut low = b;
    while low != 0 {
        let rest = high % low;
        high = low;
        low = rest;
    }
    high
}

// Returns the least common multiple, which is positive.
pub fn lcm(a: u64, b: u64) -> u64
    requires left { 0 < a }
    requires right { 0 < b }
    requires fits { a * b < 2 ^ 64 }
    ensures positive { 0 < result }
    ensures least { IsLeastCommonMultiple a b result }
{
    a / gcd(a, b) * b
}
