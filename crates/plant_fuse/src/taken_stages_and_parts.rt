//! Stages and parts that are taken out of their lists and put back. The calls do not allocate.
ghost use Rattle.std.specs.Prelude.{◌≡◌, ◌<◌, length, slice_set};
ghost use Rattle.plant_fuse.specs.proof.TakenElements.{TakenFrom};

use behaviour_sem::TransitionGroups;
use pals_base::{Frame, ItemList};
use pals_model::Part;
use std::alloc::Global;
use std::mem::replace;
use sync_product::component_stage::Stage;

/// Takes a stage out, and leaves one without room in its place.
pub fn take_stage(stages: &mut Vec<Stage>, at: usize) -> Stage
    requires { at < length stages.old.items }
    ensures { TakenFrom stages.old.items stages.new.items at result }
{
    let empty = no_stage(stages[at].alloc);
    replace(&mut stages[at], empty)
}

/// Puts a stage in its place.
pub fn put_stage(stages: &mut Vec<Stage>, at: usize, stage: Stage)
    requires { at < length stages.old.items }
    ensures { stages.new.items ≡ slice_set stages.old.items at stage }
{
    stages[at] = stage;
}

/// Takes a part out, and leaves one without room in its place.
pub fn take_part(alloc: Global, parts: &mut ItemList<Part>, at: usize) -> Part
    requires { at < length parts.old }
    ensures { TakenFrom parts.old parts.new at result }
{
    replace(&mut parts[at], no_part(alloc))
}

// A stage without room.
fn no_stage(alloc: Global) -> Stage {
    Stage {
        alloc,
        groups: TransitionGroups::none(),
        inputs: ItemList::new(alloc),
        outs: Vec::new(alloc),
        before: no_frame(alloc),
        rows: ItemList::new(alloc),
        sent: 0,
    }
}

// A part without room.
fn no_part(alloc: Global) -> Part {
    Part {
        frame: no_frame(alloc),
        outs: ItemList::new(alloc),
    }
}

// A frame without room.
fn no_frame(alloc: Global) -> Frame {
    Frame {
        state: 0,
        vars: ItemList::new(alloc),
        held: ItemList::new(alloc),
        halt: None,
    }
}
