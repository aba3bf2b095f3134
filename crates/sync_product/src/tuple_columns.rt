//! The tuple of one port, taken as a column from the rows of steps and cut to the places that count. The
//! calls do not allocate.
ghost use Rattle.std.specs.Prelude.{◌≡◌, length};
ghost use Rattle.pals_base.specs.Tuples.{column, cut};
ghost use Rattle.sync_product.specs.proof.Rounds.{value_if_before};

use pals_base::tuples::place;
use pals_base::{PortValue, Tuple};

/// Writes the place `port` of each row, one row a place, and absent places after the first `count`.
pub fn write_port_tuple(to: &mut Tuple, rows: &[Tuple], port: usize, count: usize)
    requires { length to.old ≡ length rows.now }
    ensures { to.new ≡ cut count (column port rows.now) }
{
    for at in 0..rows.len() {
        to.set(at, value_if_before(rows[at].as_slice(), port, at < count));
    }
}

// A place of a row if it counts, else an absent one.
fn value_if_before(row: &[PortValue], port: usize, counts: bool) -> PortValue
    ensures { result ≡ value_if_before counts port row.now }
{
    if counts {
        place(row, port)
    } else {
        PortValue::Absent
    }
}
