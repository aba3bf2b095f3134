//! Copies of designs and of their parts, in memory of their own.

use crate::design::{Component, Design, DesignParts, Feed, Link, Tap};
use pals_base::{NoMemory, TryClone};
use std::alloc::Global;

impl TryClone for Component {
    fn try_clone(&self, alloc: Global) -> Result<Component, NoMemory> {
        Ok(Component {
            path: self.path.try_clone(alloc)?,
            rate: self.rate,
            behaviour: self.behaviour.try_clone(alloc)?,
        })
    }
}

impl TryClone for Link {
    fn try_clone(&self, _alloc: Global) -> Result<Link, NoMemory> {
        Ok(Link {
            source: self.source,
            out_port: self.out_port,
            target: self.target,
            in_port: self.in_port,
            adaptor: self.adaptor,
        })
    }
}

impl TryClone for Feed {
    fn try_clone(&self, alloc: Global) -> Result<Feed, NoMemory> {
        Ok(Feed {
            name: self.name.try_clone(alloc)?,
            target: self.target,
            in_port: self.in_port,
            adaptor: self.adaptor,
        })
    }
}

impl TryClone for Tap {
    fn try_clone(&self, alloc: Global) -> Result<Tap, NoMemory> {
        Ok(Tap {
            name: self.name.try_clone(alloc)?,
            source: self.source,
            out_port: self.out_port,
        })
    }
}

impl TryClone for DesignParts {
    fn try_clone(&self, alloc: Global) -> Result<DesignParts, NoMemory> {
        Ok(DesignParts {
            period: self.period,
            gamma: self.gamma,
            components: self.components.try_clone(alloc)?,
            links: self.links.try_clone(alloc)?,
            feeds: self.feeds.try_clone(alloc)?,
            taps: self.taps.try_clone(alloc)?,
            ignored: self.ignored.try_clone(alloc)?,
        })
    }
}

impl TryClone for Design {
    fn try_clone(&self, alloc: Global) -> Result<Design, NoMemory> {
        let parts = self.parts().try_clone(alloc)?;
        Ok(Design::new(parts))
    }
}
