//! Copies of values, names and frames.

use super::TryClone;
use crate::basic_types::{NoMemory, PortValue};
use crate::frames::Frame;
use crate::item_list::ItemList;
use crate::text::Text;
use std::alloc::Global;

impl TryClone for u64 {
    fn try_clone(&self, _alloc: Global) -> Result<u64, NoMemory> {
        Ok(*self)
    }
}

impl TryClone for PortValue {
    fn try_clone(&self, _alloc: Global) -> Result<PortValue, NoMemory> {
        Ok(*self)
    }
}

impl TryClone for Text {
    fn try_clone(&self, alloc: Global) -> Result<Text, NoMemory> {
        Text::from_str(alloc, self.as_str())
    }
}

impl TryClone for Frame {
    fn try_clone(&self, alloc: Global) -> Result<Frame, NoMemory> {
        Ok(Frame {
            state: self.state,
            vars: ItemList::from_slice(alloc, self.vars.as_slice())?,
            held: ItemList::from_slice(alloc, self.held.as_slice())?,
            halt: self.halt,
        })
    }
}
