//! Levels of declarations by depth-first search. Declarations that lead to one another share a level. No
//! contract states this: the callers test the result.

use crate::containment::Containment;
use std::alloc::{AllocError, Global};

// The state of a declaration in the search.
#[derive(Clone, Copy)]
enum VisitMark {
    New,
    // It is open, at this position of the list of open declarations.
    Open(usize),
    // It has this level.
    Done(usize),
}

// A depth-first search along subcomponents, which visits each declaration once.
#[derive(Drop)]
struct Walk {
    marks: Vec<VisitMark>,
    // the visited declarations without a level, in the order of the visit
    open: Vec<usize>,
    // the positions in `open` at which the groups of declarations that lead to one another begin
    groups: Vec<usize>,
    // declarations whose subcomponents are not all visited, each with the number of the next subcomponent
    calls: Vec<(usize, usize)>,
    // the declarations with a level, in the order in which they received it
    finished: Vec<usize>,
    level: usize,
}

impl Walk {
    fn new(alloc: Global, len: usize) -> Result<Walk, AllocError> {
        let mut marks = Vec::new(alloc);
        for _at in 0..len {
            marks.push(VisitMark::New)?;
        }
        Ok(Walk {
            marks,
            open: Vec::new(alloc),
            groups: Vec::new(alloc),
            calls: Vec::new(alloc),
            finished: Vec::new(alloc),
            level: 0,
        })
    }

    fn mark(&mut self, number: usize, mark: VisitMark) {
        if let Some(place) = self.marks.get_mut(number) {
            *place = mark;
        }
    }

    // Visits a declaration for the first time.
    fn enter(&mut self, number: usize) -> Result<(), AllocError> {
        let at = self.open.len();
        self.mark(number, VisitMark::Open(at));
        self.open.push(number)?;
        self.groups.push(at)?;
        self.calls.push((number, 0))?;
        Ok(())
    }

    // Joins the groups from a position on.
    fn join(&mut self, at: usize) {
        for _turn in 0..u64::MAX {
            match self.groups.last() {
                Some(begin) if *begin > at => {}
                _ => return,
            }
            let _joined = self.groups.pop();
        }
    }

    // Follows a subcomponent.
    fn follow(&mut self, number: usize) -> Result<(), AllocError> {
        match self.marks.get(number).copied() {
            Some(VisitMark::New) => self.enter(number)?,
            Some(VisitMark::Open(at)) => self.join(at),
            Some(VisitMark::Done(_)) | None => {}
        }
        Ok(())
    }

    // Gives the declarations of the last group their level if the group begins with this one.
    fn leave(&mut self, number: usize) -> Result<(), AllocError> {
        let Some(begin) = self.groups.last().copied() else {
            return Ok(());
        };
        if self.open.get(begin).copied() != Some(number) {
            return Ok(());
        }
        let _left = self.groups.pop();
        for _turn in 0..u64::MAX {
            if self.open.len() <= begin {
                break;
            }
            if let Some(member) = self.open.pop() {
                self.mark(member, VisitMark::Done(self.level));
                self.finished.push(member)?;
            }
        }
        self.level = self.level.saturating_add(1);
        Ok(())
    }

    // Performs one step; returns whether there was one.
    fn step(&mut self, graph: &Containment) -> Result<bool, AllocError> {
        let Some((number, next)) = self.calls.pop() else {
            return Ok(false);
        };
        match graph.targets(number).get(next).copied() {
            Some(target) => {
                self.calls.push((number, next.saturating_add(1)))?;
                if let Some(target) = target {
                    self.follow(target)?;
                }
            }
            None => self.leave(number)?,
        }
        Ok(true)
    }

    // Continues until everything is visited.
    fn finish(&mut self, graph: &Containment) -> Result<(), AllocError> {
        for _turn in 0..u64::MAX {
            if !self.step(graph)? {
                break;
            }
        }
        Ok(())
    }
}

/// Returns a level for each declaration. Intended: declarations that lead to one another share a level, and any
/// other declaration has a higher level than the declarations that it leads to. No contract states this.
/// Errors: out of memory.
pub fn levels(alloc: Global, graph: &Containment) -> Result<Vec<usize>, AllocError> {
    let walk = walked(alloc, graph)?;
    let mut levels = Vec::new(alloc);
    for mark in &walk.marks {
        levels.push(level_of(*mark))?;
    }
    Ok(levels)
}

/// Returns the declarations in the order in which they received their levels. Intended: each follows the
/// declarations that it leads to, unless these lead back. No contract states this. Errors: out of memory.
pub fn finished(alloc: Global, graph: &Containment) -> Result<Vec<usize>, AllocError> {
    let walk = walked(alloc, graph)?;
    Ok(walk.finished)
}

// A search that has visited each declaration.
fn walked(alloc: Global, graph: &Containment) -> Result<Walk, AllocError> {
    let mut walk = Walk::new(alloc, graph.len())?;
    for number in 0..graph.len() {
        walk.follow(number)?;
        walk.finish(graph)?;
    }
    Ok(walk)
}

fn level_of(mark: VisitMark) -> usize {
    match mark {
        VisitMark::Done(level) => level,
        VisitMark::New | VisitMark::Open(_) => 0,
    }
}
