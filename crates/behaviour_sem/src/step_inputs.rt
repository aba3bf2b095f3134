//! What the expressions, actions and transitions of a step read.

use pals_base::PortValue;

/// What a step reads and never changes: the held inputs, and what the in ports have in this step.
#[derive(Clone, Copy)]
pub struct StepInputs<'a> {
    pub held: &'a [i64],
    pub present: &'a [PortValue],
}
