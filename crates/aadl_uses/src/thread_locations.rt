//! The threads below a root, located by the subcomponents on the path to each.
ghost use Rattle.std.specs.Prelude.{◌≡◌, All, IfOk, IsSome, map, reverse};
ghost use Rattle.aadl_tree.specs.proof.PackageViews.{placed};
ghost use Rattle.aadl_uses.specs.ContainmentAndUse as ways;
ghost use Rattle.aadl_uses.specs.ThreadLocations as spec;

use crate::Uses;
use pals_base::{ItemList, NoMemory, Text};
use std::alloc::Global;

/// A thread below a root. Numbers count in the order of the text, from 0.
pub struct ThreadAt {
    /// The names of the subcomponents on the path to the thread, separated by `.`.
    pub path: Text,
    /// The subcomponents on the path to the thread, the outermost first; the last one is the thread's own.
    pub subs: ItemList<SubAt>,
}

impl Drop for ThreadAt {
    fn drop(self) {
        let ThreadAt { path: _, subs: _ } = self;
    }
}

/// A subcomponent: the number of the declaration that contains it, and its own number there.
#[derive(Clone, Copy)]
pub struct SubAt {
    pub declaration: usize,
    pub sub: usize,
}

/// Returns the number of the implementation at the end of a path, which begins with the outermost subcomponent.
pub fn standing(uses: &Uses<'_>, root: usize, path: &[usize]) -> Option<usize>
    ensures { result ≡ ways.number_at_path (placed uses.now.names.tree.now) root (reverse path.now) }
{
    let mut here = root;
    for sub in path {
        here = uses.below(here, *sub)?;
    }
    Some(here)
}

/// Returns the thread at the end of a path, which begins with the outermost subcomponent. Precondition: the
/// path leads to an implementation. Errors: out of memory.
pub fn thread_at(
    alloc: Global,
    uses: &Uses<'_>,
    root: usize,
    path: &[usize],
) -> Result<ThreadAt, NoMemory>
    requires { IsSome (ways.number_at_path (placed uses.now.names.tree.now) root (reverse path.now)) }
    ensures { IfOk result (λ thread. thread ≡ spec.thread_at (placed uses.now.names.tree.now) root (reverse path.now)) }
{
    let mut names = String::new(alloc);
    let mut subs = ItemList::new(alloc);
    let mut here = root;
    for (at, sub) in path.iter().enumerate() {
        let Some(declared) = uses.subcomponent(here, *sub) else {
            unreachable!();
        };
        let Some(below) = uses.below(here, *sub) else {
            unreachable!();
        };
        if at > 0 {
            names.push_str(".")?;
        }
        names.push_str(declared.name.spelling.as_str())?;
        subs.push(SubAt {
            declaration: here,
            sub: *sub,
        })?;
        here = below;
    }
    Ok(ThreadAt {
        path: Text::new(names),
        subs,
    })
}

/// Returns the threads at the ends of these paths. Precondition: each path leads to an implementation. Errors:
/// out of memory.
pub fn threads_at(
    alloc: Global,
    uses: &Uses<'_>,
    root: usize,
    paths: &[Vec<usize>],
) -> Result<ItemList<ThreadAt>, NoMemory>
    requires { All (λ path. IsSome (ways.number_at_path (placed uses.now.names.tree.now) root (reverse path.items)))
        paths.now }
    ensures { IfOk result (λ threads. threads
        ≡ map (λ path. spec.thread_at (placed uses.now.names.tree.now) root (reverse path.items)) paths.now) }
{
    let mut threads = ItemList::new(alloc);
    for path in paths {
        threads.push(thread_at(alloc, uses, root, path.as_slice())?)?;
    }
    Ok(threads)
}
