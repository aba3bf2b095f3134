//! Designs for scenarios. The behaviour of their threads does not matter to a scenario.
use bundle_designs::accept;
use pals_base::Text;
use pals_model::Design;
use std::io::ErrorKind::InvalidData;
use std::{fs, io};

/// The design of this name:
///
/// - `pair`: two threads of rate 1 that read each other, `p.a` and `p.b`, each with the variable `x`.
/// - `plane`: a main thread `p.m` with the root in port `goal`, and surfaces `p.l`, `p.r` and `p.t` of rates 1, 2
///   and 4.
/// - `switch`: a thread `q.s` of rate 2 with the root in ports `level`, an Integer, and `on`, a Boolean; it sends a
///   Boolean to `q.f` of rate 2, which has a root out port.
pub fn design(rt: &HostRuntime, name: &str) -> io::Result<Design> {
    let file = format!(in rt.alloc(); "{name}.pals")?;
    let bundle = fs::read(rt, file)?;
    let root = Text::from_str(rt.alloc(), "Top.impl")?;
    match accept(rt.alloc(), bundle.as_slice(), &root) {
        Ok(accepted) => Ok(accepted.design),
        Err(_refusal) => Err(io::Error::from(InvalidData)),
    }
}
