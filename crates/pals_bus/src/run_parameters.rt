//! The run that a bus is of.
use pals_model::{Delays, Design, Env};
use std::sync::Arc;

/// A run: of a design, for so many rounds, with these values of the root in ports and these delays of
/// the links.
#[derive(Drop)]
pub struct Run {
    pub design: Arc<Design>,
    pub env: Env,
    pub rounds: u32,
    pub delays: Delays,
}
