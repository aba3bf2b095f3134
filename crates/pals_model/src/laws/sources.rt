//! Laws of the inputs of in ports.
ghost use Rattle.pals_model.specs.proof.CompositionLaws.Sources.{LinkIsSource, FeedIsSource, NothingIsSource};
ghost use Rattle.pals_model.specs.proof.CompositionLaws.Sources.{LinkBringsMessage, FeedBringsValue};
ghost use Rattle.pals_model.specs.proof.CompositionLaws.Sources.{NothingBringsAbsent};

/// In a design the in port of a link reads from that link, and the in port of a feed from that feed
/// and its root in port. An in port that none goes to reads from nothing.
pub fn sources_of_ports()
    ensures link { LinkIsSource }
    ensures feed { FeedIsSource }
    ensures nothing { NothingIsSource }
{}

/// A link brings its message by its adaptor, a feed the value of its root in port, as a source of
/// rate 1 gives it, and nothing brings absent places.
pub fn sources_bring_tuples()
    ensures link { LinkBringsMessage }
    ensures feed { FeedBringsValue }
    ensures nothing { NothingBringsAbsent }
{}
