//! The names of the ports, states and slots to which the numbers of instructions refer.
ghost use Rattle.std.specs.Prelude.{◌≡◌, slice_get};
ghost use Rattle.pals_model.specs.ComponentAndLinkNames.{port_name};
ghost use Rattle.pals_model.specs.RoundTexts.{state_name};
ghost use Rattle.pals_report.specs.proof.LineWords.{word_text};
ghost use Rattle.code_listing.specs.Listings.{slot_name};

use pals_base::{PortDecl, StateDecl, VarDecl};
use pals_report::LineWord;

/// The name of a port, empty if it does not exist.
pub fn port_word(ports: &[PortDecl], port: u32) -> LineWord<'_>
    ensures { word_text result ≡ port_name (slice_get ports.now port) }
{
    match ports.get(port as usize) {
        Some(port) => LineWord::Bytes(port.name.as_bytes()),
        None => LineWord::Bytes(b""),
    }
}

/// The name of a state, empty if it does not exist.
pub fn state_word(states: &[StateDecl], state: u32) -> LineWord<'_>
    ensures { word_text result ≡ state_name (slice_get states.now state) }
{
    match states.get(state as usize) {
        Some(state) => LineWord::Bytes(state.name.as_bytes()),
        None => LineWord::Bytes(b""),
    }
}

/// The name of a slot: that of its variable, or `#` and a number for the slot of a loop.
pub fn slot_word(vars: &[VarDecl], slot: u32) -> LineWord<'_>
    ensures { word_text result ≡ slot_name vars.now slot }
{
    let slot = slot as usize;
    match vars.get(slot) {
        Some(variable) => LineWord::Bytes(variable.name.as_bytes()),
        None => LineWord::LoopSlot((slot - vars.len()) as u64),
    }
}
