//! Laws of votes. Each law is the contract of a function that does nothing.
ghost use Rattle.triple_vote.specs.proof.VoteLaws.{VotesOfThree, OneNamedIsOutvoted, ReplicasAreStates};
ghost use Rattle.triple_vote.specs.proof.VoteLaws.{ReceivedAreMessages, TapsShowTuples, ReportIsThrice};
ghost use Rattle.triple_vote.specs.proof.VoteLaws.{ThriceWithoutReplicas, NoReplicasAreComposition, StandsAtVotes};
ghost use Rattle.triple_vote.specs.proof.VoteLaws.{ShowsVotes};
ghost use Rattle.triple_vote.specs.proof.CounterVotes.{OneLiarIsOutvoted, TwoLiarsAreNot, OneLiarText, TwoLiarsText};
ghost use Rattle.triple_vote.specs.proof.CounterVotes.{OneLiarIsFault, OneLiarIsAllowed};

/// What two of three agree on wins, and where no two agree there is no value.
pub fn two_of_three_win()
    ensures { VotesOfThree }
{}

/// If faults name at most one replica of each component, no two replicas are at fault towards one
/// reader.
pub fn one_named_is_outvoted()
    ensures { OneNamedIsOutvoted }
{}

/// If no two replicas are at fault towards one reader in one round, each replica is in its component's
/// state of the composition without replicas, receives its messages, and each root out port shows its
/// tuples.
pub fn votes_are_composition()
    ensures states { ReplicasAreStates }
    ensures messages { ReceivedAreMessages }
    ensures taps { TapsShowTuples }
{}

/// There the report is that of the composition with each line of a replicated component three times,
/// which without replicas is the report of the composition.
pub fn reports_are_composed()
    ensures tripled_report { ReportIsThrice }
    ensures alone { ThriceWithoutReplicas }
{}

/// Without replicas it is the composition, whatever the faults.
pub fn no_replicas_are_composition()
    ensures { NoReplicasAreComposition }
{}

/// What contracts see after each number of rounds is what *votes* has.
pub fn states_stand_at_votes()
    ensures stands { StandsAtVotes }
    ensures shown { ShowsVotes }
{}

/// Two counters, the first of them three times: one replica at fault is outvoted, and two are not.
pub fn counters_are_voted_on()
    ensures one { OneLiarIsOutvoted }
    ensures two { TwoLiarsAreNot }
    ensures one_text { OneLiarText }
    ensures two_text { TwoLiarsText }
{}

/// That one fault is such as these laws allow.
pub fn one_liar_is_allowed()
    ensures fault { OneLiarIsFault }
    ensures allowed { OneLiarIsAllowed }
{}
