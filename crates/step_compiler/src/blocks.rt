//! The blocks of states, one after the other.
ghost use Rattle.std.specs.Prelude.{◌≡◌, ◌<◌, [], ◌∷◌, filter, map, nat_eq, length, IfOk, OnOk};
ghost use Rattle.std.specs.List.{All};
ghost use Rattle.step_code.specs.CappedWeights.{capped};
ghost use Rattle.step_code.specs.CodeLengths.{length_edges};
ghost use Rattle.step_compiler.specs.LaidOutCode.{states_of};
ghost use Rattle.step_compiler.specs.BlockInstructions.{block_length, start_of, blocks_code, dispatch_offset, entry_of};
ghost use Rattle.step_compiler.specs.proof.BlockLengthsAndStarts.{start_in, in_list, capped_length};
ghost use Rattle.step_compiler.specs.proof.CompiledCode.{leaving_code};
ghost use Rattle.step_compiler.specs.proof.AppendedCode.{Adds};

use crate::checked_numbers::place_behind;
use crate::code_lengths::transition_length;
use crate::list_access::item_at;
use crate::transitions::{is_complete, push_transition};
use pals_base::{Behaviour, Guard, ItemList, NoMemory, Transition};
use std::alloc::Global;
use step_code::Instr;

/// For each state the place at which its block begins. It looks at all transitions once for each
/// state, and at all states: with 64 states that is 64 looks at each transition.
#[tactic(auto, using(pals_base::proofs::UpwardNumbers::map_upwards_more))]
pub fn starts(alloc: Global, behaviour: &Behaviour, order: &[usize]) -> Result<Vec<u32>, NoMemory>
    requires { All (λ s. s < length behaviour.now.states) order.now }
    ensures { IfOk result (λ starts. starts.items ≡ map (start_of behaviour.now order.now) (states_of behaviour.now)) }
{
    let lengths = block_lengths(alloc, behaviour)?;
    let mut starts = Vec::new(alloc);
    for state in 0..behaviour.states().len() {
        starts.push(place_behind(0, start_in(&lengths, order, state))?)?;
    }
    Ok(starts)
}

// For each state the length of its block.
#[tactic(auto, using(pals_base::proofs::UpwardNumbers::map_upwards_more))]
fn block_lengths(alloc: Global, behaviour: &Behaviour) -> Result<Vec<u64>, NoMemory>
    ensures { IfOk result (λ lengths. lengths.items ≡ map (capped_length behaviour.now) (states_of behaviour.now)) }
{
    let mut lengths = Vec::new(alloc);
    for state in 0..behaviour.states().len() {
        lengths.push(block_length(behaviour.transitions(), state))?;
    }
    Ok(lengths)
}

// The length of the block of a state.
fn block_length(transitions: &[Transition], state: usize) -> u64
    ensures { result ≡ capped (length_edges (filter (λ e. nat_eq e.source state) transitions.now)) }
{
    let mut length: u64 = 0;
    for transition in transitions {
        if transition.source as usize == state {
            length = length.saturating_add(transition_length(transition));
        }
    }
    length
}

// The place at which the block of a state begins: after the blocks before it in the order.
fn start_in(lengths: &[u64], order: &[usize], state: usize) -> u64
    ensures { result ≡ capped (start_in lengths.now order.now state) }
{
    let mut place: u64 = 0;
    for earlier in order {
        if *earlier == state {
            return place;
        }
        place = place.saturating_add(item_at(lengths, *earlier, 0));
    }
    place
}

/// For each complete state the place of its dispatch transition.
#[tactic(auto, using(pals_base::proofs::UpwardNumbers::map_upwards_more))]
pub fn entries(
    alloc: Global,
    behaviour: &Behaviour,
    starts: &[u32],
) -> Result<ItemList<Option<u32>>, NoMemory>
    ensures { IfOk result (λ entries. entries
        ≡ map (entry_of behaviour.now (in_list starts.now)) (states_of behaviour.now)) }
{
    let mut entries = ItemList::new(alloc);
    for state in 0..behaviour.states().len() {
        entries.push(entry_of(behaviour, starts, state)?)?;
    }
    Ok(entries)
}

// The place of the dispatch transition of a state, where it is complete.
fn entry_of(behaviour: &Behaviour, starts: &[u32], state: usize) -> Result<Option<u32>, NoMemory>
    ensures { IfOk result (λ entry. entry ≡ entry_of behaviour.now (in_list starts.now) state) }
{
    if !is_complete(behaviour.states(), state) {
        return Ok(None);
    }
    let start = item_at(starts, state, 0) as usize;
    let place = place_behind(start, dispatch_offset(behaviour.transitions(), state))?;
    Ok(Some(place))
}

// The length of the transitions of a state before the one at the dispatch.
fn dispatch_offset(transitions: &[Transition], state: usize) -> u64
    ensures { result ≡ capped (dispatch_offset (filter (λ e. nat_eq e.source state) transitions.now)) }
{
    let mut offset: u64 = 0;
    for transition in transitions {
        if transition.source as usize == state {
            if matches!(transition.guard, Guard::Dispatch) {
                return offset;
            }
            offset = offset.saturating_add(transition_length(transition));
        }
    }
    offset
}

/// Adds the blocks of states in order.
pub fn push_blocks(
    code: &mut ItemList<Instr>,
    behaviour: &Behaviour,
    starts: &[u32],
    order: &[usize],
) -> Result<(), NoMemory>
    ensures { OnOk result (Adds code.old code.new (blocks_code behaviour.now (in_list starts.now) order.now)) }
{
    for state in order {
        push_block(code, behaviour, starts, *state)?;
    }
    Ok(())
}

// Adds the block of a state: the transitions that leave it, in the text's order.
fn push_block(
    code: &mut ItemList<Instr>,
    behaviour: &Behaviour,
    starts: &[u32],
    state: usize,
) -> Result<(), NoMemory>
    ensures { OnOk result (Adds code.old code.new
        (leaving_code behaviour.now (in_list starts.now) state behaviour.now.transitions)) }
{
    for transition in behaviour.transitions() {
        push_if_leaving(code, behaviour, starts, state, transition)?;
    }
    Ok(())
}

// Adds a transition, if it leaves the state.
fn push_if_leaving(
    code: &mut ItemList<Instr>,
    behaviour: &Behaviour,
    starts: &[u32],
    state: usize,
    transition: &Transition,
) -> Result<(), NoMemory>
    ensures { OnOk result (Adds code.old code.new
        (leaving_code behaviour.now (in_list starts.now) state (transition.now ∷ []))) }
{
    if transition.source as usize == state {
        push_transition(code, behaviour, starts, transition)
    } else {
        Ok(())
    }
}
