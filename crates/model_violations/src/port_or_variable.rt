//! A port or a variable of a thread, with its type and initial value.

use pals_base::{Kind, Text};

/// A port or a variable: its name; its type, which is `None` if it is neither Integer nor Boolean; and its
/// initial value, which is 0 for a port.
#[derive(Drop)]
pub struct Declared {
    pub name: Text,
    pub kind: Option<Kind>,
    pub first: i64,
}
