//! Places and counts that fit into 32 bits. For one that does not, the error is that there is not
//! enough memory.
ghost use Rattle.std.specs.Prelude.{◌≡◌, ◌+◌, ℕ, IfOk};
ghost use Rattle.step_code.specs.CappedWeights.{capped};

use pals_base::NoMemory;
use std::alloc::AllocError;

/// A number of things.
pub fn count(things: usize) -> Result<u32, NoMemory>
    ensures { IfOk result (λ count. count ≡ things) }
{
    if things <= u32::MAX as usize {
        Ok(things as u32)
    } else {
        Err(AllocError)
    }
}

/// The place `length` instructions after another.
pub fn place_behind(place: usize, length: u64) -> Result<u32, NoMemory>
    ensures { (n : ℕ) → length ≡ capped n → IfOk result (λ to. to ≡ place + n) }
{
    match (place as u64).checked_add(length) {
        Some(to) if to <= u32::MAX as u64 => Ok(to as u32),
        _ => Err(AllocError),
    }
}

/// One more loop round a place.
pub fn next_depth(depth: u32) -> Result<u32, NoMemory>
    ensures { IfOk result (λ more. more ≡ depth + 1) }
{
    depth.checked_add(1).ok_or(AllocError)
}
