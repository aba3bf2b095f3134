//! Which components have replicas, and the names of these.
ghost use Rattle.std.specs.Prelude.{◌≡◌, ◌<◌, length, map, true, slice_set, IfOk};
ghost use Rattle.pals_base.specs.UpwardNumbers.{upwards};
ghost use Rattle.analysis_fields.specs.ReplicasAndTheirFaults.{is_among};
ghost use Rattle.analysis_texts.specs.ReplicasAndRoundFaults.{replicated_in};
ghost use Rattle.analysis_texts.specs.proof.ReplicaNamesAndLines.{names_of, all_names};

use pals_base::{ItemList, NoMemory, NodeNo, Text};
use pals_model::{Component, Design};
use std::alloc::Global;

/// Whether each of the first components is among some.
pub fn replicated(alloc: Global, count: usize, replicas: &[NodeNo]) -> Result<Vec<bool>, NoMemory>
    ensures { IfOk result (λ marks. marks.items ≡ map (is_among replicas.now) (upwards 0 count)) }
{
    let mut marks = vec![in alloc; false; count]?;
    for replica in replicas {
        mark(&mut marks, *replica);
    }
    Ok(marks)
}

// Marks a component, if there is such a one.
fn mark(marks: &mut [bool], node: NodeNo)
    ensures { marks.new ≡ slice_set marks.old node.0 true }
{
    let at = node.0 as usize;
    if at < marks.len() {
        marks[at] = true;
    }
}

/// The names of the replicas of each component of a design.
pub fn replica_names(
    alloc: Global,
    design: &Design,
    replicas: &[NodeNo],
) -> Result<Vec<ItemList<Text>>, NoMemory>
    ensures { IfOk result (λ names. names.items
        ≡ all_names design.now.components (replicated_in design.now replicas.now)) }
{
    let components = design.components();
    let replicated = replicated(alloc, components.len(), replicas)?;
    all_names(alloc, components, replicated.as_slice())
}

// The names of the replicas of each of these components.
fn all_names(
    alloc: Global,
    components: &[Component],
    replicated: &[bool],
) -> Result<Vec<ItemList<Text>>, NoMemory>
    requires { length replicated.now ≡ length components.now }
    ensures { IfOk result (λ names. names.items ≡ all_names components.now replicated.now) }
{
    let mut names = Vec::new(alloc);
    for (node, component) in components.iter().enumerate() {
        names.push(names_of(alloc, &component.path, replicated[node])?)?;
    }
    Ok(names)
}

// The names of the replicas of a component of this path: the path itself if there is one replica.
fn names_of(alloc: Global, path: &Text, replicated: bool) -> Result<ItemList<Text>, NoMemory>
    ensures { IfOk result (λ names. names ≡ names_of path.now replicated) }
{
    let mut names = ItemList::new(alloc);
    if !replicated {
        names.push(Text::from_str(alloc, path.as_str())?)?;
        return Ok(names);
    }
    for replica in 1..4u32 {
        names.push(Text::new(format!(in alloc; "{path}#{replica}")?))?;
    }
    Ok(names)
}
