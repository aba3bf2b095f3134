//! Parses the field of faults: the values that a replica sends on a link in a round, at most one entry for each
//! key.
ghost use Rattle.std.specs.Prelude.{◌≡◌, ◌≤◌, ◌∷◌, ◌++◌, [], map, option_copied, IfOk};
ghost use Rattle.serde_json.specs.View.{view};
ghost use Rattle.scenario_values.specs.ResultCombinators.{Answers, Shows};
ghost use Rattle.scenario_values.specs.FaultPlaces.{place_text};
ghost use Rattle.analysis_fields.specs.ReplicasAndTheirFaults.{source_in, target_in, kind_in, replicas_of};
ghost use Rattle.analysis_fields.specs.ReplicasAndTheirFaults.{fault_values};
ghost use Rattle.analysis_fields.specs.ReplicasAndTheirFaults.{replica_at, link_from, ends_of, fault_behind, fault_of};
ghost use Rattle.analysis_fields.specs.ReplicasAndTheirFaults.{copies_at, kind_at, key_of, fault_in, with_fault};
ghost use Rattle.analysis_fields.specs.ReplicasAndTheirFaults.{faults_in};

use crate::limits::REPLICAS;
use crate::replicas::is_among;
use indexmap::IndexSet;
use pals_base::limits::ROUNDS;
use pals_base::{ItemList, Kind, LinkNo, NodeNo, Tuple};
use pals_model::Link;
use pals_runs::VoteFault;
use scenario_values::json_values::{elements, is_whole, port_value, text, whole};
use scenario_values::placed_faults::{Place, out_of_range, unknown, wrong_kind};
use scenario_values::{DesignNames, ScenarioFault};
use serde_json::Value;
use std::alloc::Global;

/// The key of a replica's fault: the round, the sending replica, the receiving replica, and the link.
#[derive(Clone, Copy, PartialEq, Eq, Hash)]
pub struct FaultKey {
    round: u32,
    replica: u32,
    link: u32,
    target_replica: u32,
}

/// A replica's fault, and the round in which the replica sends it.
#[derive(Drop)]
pub struct RoundFault {
    pub round: u32,
    pub fault: VoteFault,
}

fn key_of(fault: &RoundFault) -> FaultKey
    ensures { result ≡ key_of fault.now }
{
    FaultKey {
        round: fault.round,
        replica: fault.fault.replica,
        link: fault.fault.link.0,
        target_replica: fault.fault.target_replica,
    }
}

// The source of a link, or 0 without a link.
fn source_of(link: Option<&Link>) -> u32
    ensures { result ≡ source_in (option_copied link.entry) }
{
    match link {
        None => 0,
        Some(link) => link.source.0,
    }
}

// The target of a link, or 0 without a link.
fn target_of(link: Option<&Link>) -> NodeNo
    ensures { result.0 ≡ target_in (option_copied link.entry) }
{
    match link {
        None => NodeNo(0),
        Some(link) => link.target,
    }
}

// The type of the values of a link.
fn kind_of(names: &DesignNames<'_>, link: Option<&Link>) -> Kind
    ensures { result ≡ kind_in names.now (option_copied link.entry) }
{
    match link {
        None => Kind::Integer,
        Some(link) => names.design().parts().out_kind(link.source, link.out_port),
    }
}

// The number of replicas of a component.
fn replicas_of(replicas: &[NodeNo], node: NodeNo) -> u64
    ensures value { result ≡ replicas_of replicas.now node.0 }
    ensures small { result ≤ 3 }
{
    if is_among(replicas, node) {
        REPLICAS
    } else {
        1
    }
}

fn fault_values(
    alloc: Global,
    kind: Kind,
    place: Place<'_>,
    values: &[Value],
) -> Result<Tuple, ScenarioFault>
    ensures { Answers (fault_values kind (place_text place.entry) (map view values.now)) result }
{
    let mut tuple = ItemList::new(alloc);
    for value in values {
        let port = port_value(alloc, kind, place, value)?;
        tuple.push(port)?;
    }
    Ok(tuple)
}

// The parts of a fault, which have the right JSON types.
#[derive(Clone, Copy)]
pub(crate) struct FaultParts<'v> {
    path: &'v str,
    name: &'v str,
    replica: &'v Value,
    target: &'v Value,
    round: &'v Value,
    values: &'v [Value],
}

/// The sending replica, and the link on which it sends.
#[derive(Clone, Copy)]
pub struct FaultEnds {
    source: NodeNo,
    replica: u32,
    link: LinkNo,
}

// Parses a replicated component.
#[tactic(auto, unfolding(crate::specs::ReplicasAndTheirFaults::replica_at))]
fn replica_at(
    alloc: Global,
    names: &DesignNames<'_>,
    replicas: &[NodeNo],
    place: Place<'_>,
    path: &str,
) -> Result<NodeNo, ScenarioFault>
    ensures { Answers (replica_at names.now replicas.now (place_text place.entry) path.now) result }
{
    let node = names.node(alloc, place, path)?;
    if !is_among(replicas, node) {
        return Err(unknown(alloc, place));
    }
    Ok(node)
}

// Parses a link whose source is a component.
#[tactic(auto, unfolding(crate::specs::ReplicasAndTheirFaults::link_from))]
fn link_from(
    alloc: Global,
    names: &DesignNames<'_>,
    place: Place<'_>,
    source: NodeNo,
    name: &str,
) -> Result<LinkNo, ScenarioFault>
    ensures { Answers (link_from names.now (place_text place.entry) source name.now) result }
{
    let link = names.link(alloc, place, name)?;
    if source_of(names.design().links().get(link.0 as usize)) != source.0 {
        return Err(unknown(alloc, place));
    }
    Ok(link)
}

// Parses the sending replica, and the link on which it sends.
#[tactic(auto, unfolding(crate::specs::ReplicasAndTheirFaults::ends_of))]
fn ends_of(
    alloc: Global,
    names: &DesignNames<'_>,
    replicas: &[NodeNo],
    place: Place<'_>,
    parts: &FaultParts<'_>,
) -> Result<FaultEnds, ScenarioFault>
    ensures { Answers (ends_of names.now replicas.now (place_text place.entry) parts.now.path.now parts.now.name.now
        (view parts.now.replica.now)) result }
{
    let source = replica_at(alloc, names, replicas, place, parts.path)?;
    let replica = whole(alloc, place, 1, REPLICAS, parts.replica)?;
    let link = link_from(alloc, names, place, source, parts.name)?;
    Ok(FaultEnds {
        source,
        replica: replica as u32,
        link,
    })
}

// The number of replicas that receive on a link.
#[tactic(auto, unfolding(crate::specs::ReplicasAndTheirFaults::copies_at))]
fn copies_at(names: &DesignNames<'_>, replicas: &[NodeNo], link: LinkNo) -> u64
    ensures value { result ≡ copies_at names.now replicas.now link.0 }
    ensures small { result ≤ 3 }
{
    let target = target_of(names.design().links().get(link.0 as usize));
    replicas_of(replicas, target)
}

// The type of the values of a link.
#[tactic(auto, unfolding(crate::specs::ReplicasAndTheirFaults::kind_at))]
fn kind_at(names: &DesignNames<'_>, link: LinkNo) -> Kind
    ensures { result ≡ kind_at names.now link.0 }
{
    kind_of(names, names.design().links().get(link.0 as usize))
}

// Parses the replica of the target, the round and the values, after the ends.
#[tactic(auto, unfolding(crate::specs::ReplicasAndTheirFaults::fault_behind))]
fn fault_behind(
    alloc: Global,
    names: &DesignNames<'_>,
    replicas: &[NodeNo],
    place: Place<'_>,
    ends: FaultEnds,
    parts: &FaultParts<'_>,
) -> Result<RoundFault, ScenarioFault>
    ensures { Answers (fault_behind names.now replicas.now (place_text place.entry) ends
        (view parts.now.target.now) (view parts.now.round.now) (map view parts.now.values.now)) result }
{
    let kind = kind_at(names, ends.link);
    let copies = copies_at(names, replicas, ends.link);
    let target_replica = whole(alloc, place, 1, copies, parts.target)?;
    let round = whole(alloc, place, 0, u64::from(ROUNDS), parts.round)?;
    if parts.values.len() != names.design().parts().rate(ends.source) as usize {
        return Err(out_of_range(alloc, place));
    }
    let values = fault_values(alloc, kind, place, parts.values)?;
    Ok(RoundFault {
        round: round as u32,
        fault: VoteFault {
            source: ends.source,
            replica: ends.replica,
            link: ends.link,
            target_replica: target_replica as u32,
            values,
        },
    })
}

// Parses a fault from parts with the right JSON types.
#[tactic(auto, unfolding(crate::specs::ReplicasAndTheirFaults::fault_of))]
fn fault_of(
    alloc: Global,
    names: &DesignNames<'_>,
    replicas: &[NodeNo],
    place: Place<'_>,
    parts: &FaultParts<'_>,
) -> Result<RoundFault, ScenarioFault>
    ensures { Answers (fault_of names.now replicas.now (place_text place.entry) parts.now.path.now parts.now.name.now
        (view parts.now.replica.now) (view parts.now.target.now) (view parts.now.round.now)
        (map view parts.now.values.now)) result }
{
    let ends = ends_of(alloc, names, replicas, place, parts)?;
    fault_behind(alloc, names, replicas, place, ends, parts)
}

// Parses a fault. Checks the JSON types of all parts first.
#[tactic(auto, unfolding(crate::specs::ReplicasAndTheirFaults::fault_in, crate::specs::ReplicasAndTheirFaults::fault_from))]
fn read_fault(
    alloc: Global,
    names: &DesignNames<'_>,
    replicas: &[NodeNo],
    place: Place<'_>,
    value: &Value,
) -> Result<RoundFault, ScenarioFault>
    ensures { Answers (fault_in names.now replicas.now (place_text place.entry) (view value.now)) result }
{
    let items = elements(alloc, place, value)?;
    let [path, replica, link, target, round, values] = items else {
        return Err(wrong_kind(alloc, place));
    };
    let path = text(alloc, place, path)?;
    let name = text(alloc, place, link)?;
    let values = elements(alloc, place, values)?;
    if !is_whole(replica) || !is_whole(target) || !is_whole(round) {
        return Err(wrong_kind(alloc, place));
    }
    let parts = FaultParts {
        path,
        name,
        replica,
        target,
        round,
        values,
    };
    fault_of(alloc, names, replicas, place, &parts)
}

// Adds one more fault, whose key differs from the keys of the earlier ones, which are given.
#[tactic(auto, unfolding(crate::specs::ReplicasAndTheirFaults::with_fault))]
fn next_fault(
    alloc: Global,
    names: &DesignNames<'_>,
    replicas: &[NodeNo],
    faults: &[RoundFault],
    places: &mut IndexSet<FaultKey>,
    value: &Value,
) -> Result<RoundFault, ScenarioFault>
    requires { places.old.keys ≡ map key_of faults.now }
    ensures value { Shows (λ fault. faults.now ++ fault ∷ [])
        (with_fault names.now replicas.now faults.now (view value.now)) result }
    ensures places { IfOk result (λ fault. places.new.keys ≡ map key_of (faults.now ++ fault ∷ [])) }
{
    let place = Place::Index("faults", faults.len());
    let fault = read_fault(alloc, names, replicas, place, value)?;
    let first = places.insert(key_of(&fault))?;
    if !first {
        return Err(out_of_range(alloc, place));
    }
    Ok(fault)
}

/// Returns the faults of replicas, with distinct keys. Takes time linear in the number of values. Errors: the
/// first fault of the field.
#[tactic(auto, unfolding(crate::specs::ReplicasAndTheirFaults::faults_in))]
pub fn read_faults(
    alloc: Global,
    names: &DesignNames<'_>,
    replicas: &[NodeNo],
    value: &Value,
) -> Result<ItemList<RoundFault>, ScenarioFault>
    ensures { Answers (faults_in names.now replicas.now (view value.now)) result }
{
    let items = elements(alloc, Place::Field("faults"), value)?;
    let mut faults = ItemList::new(alloc);
    let mut places = IndexSet::new(alloc);
    for item in items {
        let fault = next_fault(alloc, names, replicas, faults.as_slice(), &mut places, item)?;
        faults.push(fault)?;
    }
    Ok(faults)
}
