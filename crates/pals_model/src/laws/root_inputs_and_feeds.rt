//! Laws of the root in ports.
ghost use Rattle.pals_model.specs.proof.CompositionLaws.RootInputsAndFeeds.{RootInputsDiffer, RootInputsAreFeeds};
ghost use Rattle.pals_model.specs.proof.CompositionLaws.RootInputsAndFeeds.{RootInputsInOrder, FeedHasRoot};
ghost use Rattle.pals_model.specs.proof.CompositionLaws.RootInputsAndFeeds.{FeedsHaveRootKind};

/// The root in ports are the names of the feeds, each once, in the order of their first feeds.
pub fn root_inputs_are_feeds()
    ensures once { RootInputsDiffer }
    ensures all { RootInputsAreFeeds }
    ensures order { RootInputsInOrder }
{}

/// Each feed reads the root in port of its name. In a design it goes to an in port of its type.
pub fn feeds_have_roots()
    ensures name { FeedHasRoot }
    ensures kind { FeedsHaveRootKind }
{}
