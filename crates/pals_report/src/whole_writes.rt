//! Texts that are appended entirely or not at all.
ghost use Rattle.std.specs.Prelude.{◌≡◌, take, OnOk, OnErr};

use pals_base::NoMemory;

/// Removes everything from `start` on if the call failed. Returns the result of the call.
pub fn whole_or_none(
    out: &mut Vec<u8>,
    start: usize,
    written: Result<(), NoMemory>,
) -> Result<(), NoMemory>
    ensures same { result ≡ written }
    ensures ok { OnOk written (out.new.items ≡ out.old.items) }
    ensures err { OnErr written (out.new.items ≡ take start out.old.items) }
{
    if written.is_err() {
        out.truncate(start);
    }
    written
}
