//! Equality of designs and of their parts, by value. Does not allocate.

use crate::design::{Component, Design, DesignParts, Feed, Link, Tap};
use pals_base::Same;

impl Same for Component {
    fn same(&self, other: &Component) -> bool {
        self.path.same(&other.path)
            && self.rate == other.rate
            && self.behaviour.same(&other.behaviour)
    }
}

impl Same for Link {
    fn same(&self, other: &Link) -> bool {
        self.source == other.source
            && self.out_port == other.out_port
            && self.target == other.target
            && self.in_port == other.in_port
            && self.adaptor == other.adaptor
    }
}

impl Same for Feed {
    fn same(&self, other: &Feed) -> bool {
        self.name.same(&other.name)
            && self.target == other.target
            && self.in_port == other.in_port
            && self.adaptor == other.adaptor
    }
}

impl Same for Tap {
    fn same(&self, other: &Tap) -> bool {
        self.name.same(&other.name)
            && self.source == other.source
            && self.out_port == other.out_port
    }
}

impl Same for DesignParts {
    fn same(&self, other: &DesignParts) -> bool {
        self.period == other.period
            && self.gamma == other.gamma
            && self.components.same(&other.components)
            && self.links.same(&other.links)
            && self.feeds.same(&other.feeds)
            && self.taps.same(&other.taps)
            && self.ignored.same(&other.ignored)
    }
}

impl Same for Design {
    fn same(&self, other: &Design) -> bool {
        self.parts().same(other.parts())
    }
}
