//! The faults of replicas, round by round.
ghost use Rattle.std.specs.Prelude.{◌≡◌, [], map, IfOk, OnOk};
ghost use Rattle.pals_base.specs.UpwardNumbers.{upwards};
ghost use Rattle.analysis_texts.specs.ReplicasAndRoundFaults.{faults_of};
ghost use Rattle.analysis_texts.specs.proof.RoundFaultTables.{with_round_fault};

use analysis_fields::RoundFault;
use pals_base::{ItemList, NoMemory};
use pals_runs::VoteFault;
use std::alloc::Global;

/// The faults of each of the first rounds, in order.
pub fn by_round(
    alloc: Global,
    faults: ItemList<RoundFault>,
    rounds: u32,
) -> Result<Vec<ItemList<VoteFault>>, NoMemory>
    ensures { IfOk result (λ table. table.items ≡ map (faults_of faults) (upwards 0 rounds)) }
{
    let mut table = no_faults(alloc, rounds)?;
    for fault in faults.into_vec() {
        add_round_fault(&mut table, fault)?;
    }
    Ok(table)
}

// An empty list for each round.
fn no_faults(alloc: Global, rounds: u32) -> Result<Vec<ItemList<VoteFault>>, NoMemory>
    ensures { IfOk result (λ table. table.items ≡ map (faults_of []) (upwards 0 rounds)) }
{
    let mut table = Vec::new(alloc);
    for _round in 0..rounds {
        table.push(ItemList::new(alloc))?;
    }
    Ok(table)
}

// Puts a fault after the faults of its round, if there is such a round.
fn add_round_fault(table: &mut Vec<ItemList<VoteFault>>, fault: RoundFault) -> Result<(), NoMemory>
    ensures { OnOk result (table.new.items ≡ with_round_fault table.old.items fault) }
{
    let RoundFault { round, fault } = fault;
    let at = round as usize;
    if at < table.len() {
        table[at].push(fault)?;
    }
    Ok(())
}
