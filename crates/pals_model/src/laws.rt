//! Laws of the composition. The functions have empty bodies: their contracts hold for every design and
//! environment, and characterize the composition without its definition.
ghost use Rattle.pals_model.specs.proof.CompositionLaws.{OneFrameEach, OneMessageEach, StateBegins, LinksBeginAbsent};
ghost use Rattle.pals_model.specs.proof.CompositionLaws.{StateGoesOn, MessageFromSource, PartFromSteps, RunsAlone};
ghost use Rattle.pals_model.specs.proof.CompositionLaws.{DependsOnPast};
ghost use Rattle.pals_model.specs.proof.TwoCounters.{CountersCount};

mod kinds;
mod lines;
mod names;
mod partial_rounds;
mod root_inputs_and_feeds;
mod shapes;
mod sources;

pub use kinds::{rounds_keep_kinds, steps_keep_kinds};
pub use lines::{lines_have_no_line_feed, texts_split_into_lines};
pub use names::{components_have_paths, in_ports_have_names, links_have_names};
pub use partial_rounds::{round_goes_step_by_step, trap_leaves_earlier_places};
pub use root_inputs_and_feeds::{feeds_have_roots, root_inputs_are_feeds};
pub use shapes::{messages_have_rates, parts_have_shapes, rounds_have_shapes, states_have_shapes};
pub use sources::{sources_bring_tuples, sources_of_ports};

/// There is a frame for each component and a message for each link.
pub fn lengths()
    ensures frames { OneFrameEach }
    ensures messages { OneMessageEach }
{}

/// Before the first round each component has its initial frame, and each link is absent throughout.
pub fn beginning()
    ensures frames { StateBegins }
    ensures messages { LinksBeginAbsent }
{}

/// In each round a component's frame advances by its own steps.
pub fn state_goes_on()
    ensures { StateGoesOn }
{}

/// The message of a link is the outputs of its source's own steps of that round on its out port, as far
/// as they end in time to be sent.
pub fn message_from_source()
    ensures { MessageFromSource }
{}

/// A component's part of a round is the result of its own steps.
pub fn part_from_steps()
    ensures { PartFromSteps }
{}

/// A component without a link into it runs by itself on the values of the root in ports.
pub fn runs_alone()
    ensures { RunsAlone }
{}

/// The configuration after some rounds depends only on these rounds of the environment.
pub fn depends_on_past()
    ensures { DependsOnPast }
{}

/// The first three rounds of two counters, each of which counts on from the other's last value.
pub fn two_counters()
    ensures { CountersCount }
{}
