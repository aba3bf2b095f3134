//! The vote of three: what two of three agree on, of one value and of each place of a tuple.
ghost use Rattle.std.specs.Prelude.{◌≡◌, length};
ghost use Rattle.triple_vote.specs.Votes.{same_port, vote, votes};

use pals_base::tuples::place;
use pals_base::{PortValue, Tuple};

// Whether two ports have the same.
fn same_port(x: PortValue, y: PortValue) -> bool
    ensures { result ≡ same_port x y }
{
    match x {
        PortValue::Absent => matches!(y, PortValue::Absent),
        PortValue::Present(v) => match y {
            PortValue::Absent => false,
            PortValue::Present(w) => v == w,
        },
    }
}

/// The value that two of three agree on, and absent if no two do.
pub fn vote(x: PortValue, y: PortValue, z: PortValue) -> PortValue
    ensures { result ≡ vote x y z }
{
    if same_port(x, y) || same_port(x, z) {
        x
    } else if same_port(y, z) {
        y
    } else {
        PortValue::Absent
    }
}

/// Writes the vote of each place of three tuples. Does not allocate.
pub fn vote_into(to: &mut Tuple, x: &[PortValue], y: &[PortValue], z: &[PortValue])
    requires to { length to.old ≡ length x.now }
    requires y { length y.now ≡ length x.now }
    requires z { length z.now ≡ length x.now }
    ensures { to.new ≡ votes x.now y.now z.now }
{
    for at in 0..x.len() {
        let value = vote(place(x, at), place(y, at), place(z, at));
        to.set(at, value);
    }
}
