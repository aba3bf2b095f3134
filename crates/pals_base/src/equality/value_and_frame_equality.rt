//! Equality of values, names and frames.

use super::Same;
use crate::basic_types::PortValue;
use crate::frames::Frame;
use crate::text::Text;

impl Same for i64 {
    fn same(&self, other: &i64) -> bool {
        *self == *other
    }
}

impl Same for u64 {
    fn same(&self, other: &u64) -> bool {
        *self == *other
    }
}

impl Same for PortValue {
    fn same(&self, other: &PortValue) -> bool {
        *self == *other
    }
}

impl Same for Text {
    fn same(&self, other: &Text) -> bool {
        self.as_str() == other.as_str()
    }
}

impl Same for Frame {
    fn same(&self, other: &Frame) -> bool {
        self.state == other.state
            && self.vars.same(&other.vars)
            && self.held.same(&other.held)
            && self.halt == other.halt
    }
}
