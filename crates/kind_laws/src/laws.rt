//! Laws of the kinds of values. Each is the contract of a function that does nothing.
ghost use Rattle.kind_laws.specs.proof.BusKinds.{BusesFit};
ghost use Rattle.kind_laws.specs.proof.FusedKinds.{SolutionsFit};
ghost use Rattle.kind_laws.specs.proof.VotedKinds.{ShownFit, VotesFit};

/// If the values of the root in ports and of faults have their types, so do the values of each frame of each
/// replica, of each tuple that a replica receives, faulty or voted, and of each root out port: a Boolean is
/// 0 or 1.
pub fn votes_keep_kinds()
    ensures rounds { VotesFit }
    ensures shown { ShownFit }
{}

/// If the values of the root in ports have their types, so do the inputs and outputs of the steps of plants,
/// controllers and all others in fused composition, and each frame between them.
pub fn fused_rounds_keep_kinds()
    ensures { SolutionsFit }
{}

/// If the values of the root in ports have their types, so do the values of each state of the bus that agrees
/// with the composition: each frame, each job, each part, each message in a slot or in flight.
pub fn buses_keep_kinds()
    ensures { BusesFit }
{}
