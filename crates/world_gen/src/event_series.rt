//! Event series: events that recur in a schedule at equal distances in time. All times are nanoseconds.
ghost use Rattle.std.specs.Prelude.{◌≡◌, ◌<◌, IfSome, option_map};
ghost use Rattle.world_gen.specs.proof.Schedules.{number_at_moment};
ghost use Rattle.world_gen.specs.proof.EventSeries.{HasSteps, event_of_kind, IsEventSeries, time_of, next_of};

use pals_base::{LinkNo, Nanos, NodeNo};
use pals_runs::Event;

/// What is done over and over.
#[derive(Clone, Copy)]
pub enum EventKind {
    /// A node begins a step. It makes `rate` of them in a round, and the first starts the round.
    Begin { node: NodeNo, rate: u32 },
    /// A node finishes a step.
    Finish(NodeNo),
    /// A node sends a round.
    Send(NodeNo),
    /// A link's message of a round arrives.
    Arrive(LinkNo),
}

impl EventKind {
    /// The deed of a number as an event.
    pub fn event(self, number: u32) -> Event
        requires { HasSteps self }
        ensures { result ≡ event_of_kind self number }
    {
        match self {
            EventKind::Begin { node, rate } => {
                if number % rate == 0 {
                    Event::Start(node)
                } else {
                    Event::Step(node)
                }
            }
            EventKind::Finish(node) => Event::Finish(node),
            EventKind::Send(node) => Event::Send(node),
            EventKind::Arrive(link) => Event::Arrive(link, number),
        }
    }
}

/// A deed that is done `count` times, numbered from 0: first at the time `first`, and each time
/// `every` later than before.
#[derive(Clone, Copy)]
pub struct EventSeries {
    pub event_kind: EventKind,
    pub first: Nanos,
    pub every: Nanos,
    pub count: u32,
}

impl EventSeries {
    // The time of the deed of a number.
    fn time(&self, number: u32) -> Nanos
        requires series { IsEventSeries self.now }
        requires within { number < self.now.count }
        ensures { result ≡ time_of self.now number }
    {
        self.first + u64::from(number) * self.every
    }

    // The number of the next event from a time on, or `None`.
    fn next(&self, from: Nanos) -> Option<u32>
        requires { IsEventSeries self.now }
        ensures value { result ≡ next_of self.now from }
        ensures within { IfSome result (λ number. number < self.now.count) }
    {
        let number = from.saturating_sub(self.first).div_ceil(self.every);
        if number < u64::from(self.count) {
            Some(number as u32)
        } else {
            None
        }
    }

    /// The time of the next event from a time on, or `None`.
    pub fn next_time(&self, from: Nanos) -> Option<Nanos>
        requires { IsEventSeries self.now }
        ensures { result ≡ option_map (time_of self.now) (next_of self.now from) }
    {
        self.next(from).map(|number| self.time(number))
    }

    /// The number of the event at a moment, or `None`.
    pub fn number_at(&self, moment: Nanos) -> Option<u32>
        requires { IsEventSeries self.now }
        ensures value { result ≡ number_at_moment (time_of self.now) self.now.count moment }
        ensures within { IfSome result (λ number. number < self.now.count) }
    {
        let number = self.next(moment)?;
        if self.time(number) == moment {
            Some(number)
        } else {
            None
        }
    }
}
