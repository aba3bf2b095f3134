//! The faults of a package, each with its number and its place.

use pals_base::{NoMemory, Text, TryClone};
use std::alloc::{AllocError, AllocFailed, Global};
use std::fmt;
use thiserror::Error;

/// The first fault of a package with a root: each `at` is a byte offset in its text, and each name is
/// spelled as there.
#[derive(Error)]
pub enum PackageFault {
    /// No system implementation has the root's name.
    #[error("NoRoot")]
    NoRoot,
    /// What the name stands for is not declared.
    #[error("Unknown")]
    Unknown { name: Text, at: usize },
    /// The name is declared again.
    #[error("Twice")]
    Twice { name: Text, at: usize },
    /// Something of another kind is due here.
    #[error("WrongKind")]
    WrongKind { at: usize },
    /// The subcomponent leads back to the implementation that contains it.
    #[error("Recursive")]
    Recursive { name: Text, at: usize },
    /// The connection is on no chain between threads, or between a thread and the root's ports.
    #[error("DeadEnd")]
    DeadEnd { name: Text, at: usize },
    /// The connection goes into a port into which another one goes.
    #[error("TwoSources")]
    TwoSources { name: Text, at: usize },
    /// There is more of something than a design may have.
    #[error("TooMany")]
    TooMany { what: Text },
    /// There was not enough memory.
    #[error("Memory")]
    Memory,
}

impl Drop for PackageFault {
    fn drop(self) {
        match self {
            PackageFault::NoRoot => {}
            PackageFault::Unknown { name: _, at: _ } => {}
            PackageFault::Twice { name: _, at: _ } => {}
            PackageFault::WrongKind { at: _ } => {}
            PackageFault::Recursive { name: _, at: _ } => {}
            PackageFault::DeadEnd { name: _, at: _ } => {}
            PackageFault::TwoSources { name: _, at: _ } => {}
            PackageFault::TooMany { what: _ } => {}
            PackageFault::Memory => {}
        }
    }
}

impl PackageFault {
    ghost use Rattle.std.specs.Prelude.{◌≡◌};
    ghost use Rattle.aadl_names.specs.FirstFaults.{place_of, number_of};

    /// Its position; 0 if it has none.
    pub fn place(&self) -> usize
        ensures { result ≡ place_of self.now }
    {
        match self {
            PackageFault::NoRoot => 0,
            PackageFault::Unknown { name: _, at } => *at,
            PackageFault::Twice { name: _, at } => *at,
            PackageFault::WrongKind { at } => *at,
            PackageFault::Recursive { name: _, at } => *at,
            PackageFault::DeadEnd { name: _, at } => *at,
            PackageFault::TwoSources { name: _, at } => *at,
            PackageFault::TooMany { .. } => 0,
            PackageFault::Memory => 0,
        }
    }

    /// The number by which findings of one place are ordered.
    pub fn number(&self) -> u32
        ensures { result ≡ number_of self.now }
    {
        match self {
            PackageFault::NoRoot => 1,
            PackageFault::Unknown { .. } => 2,
            PackageFault::Twice { .. } => 3,
            PackageFault::WrongKind { .. } => 4,
            PackageFault::Recursive { .. } => 5,
            PackageFault::DeadEnd { .. } => 6,
            PackageFault::TwoSources { .. } => 7,
            PackageFault::TooMany { .. } => 8,
            PackageFault::Memory => 9,
        }
    }
}

impl TryClone for PackageFault {
    fn try_clone(&self, alloc: Global) -> Result<PackageFault, NoMemory> {
        match self {
            PackageFault::NoRoot => Ok(PackageFault::NoRoot),
            PackageFault::Unknown { name, at } => Ok(PackageFault::Unknown {
                name: name.try_clone(alloc)?,
                at: *at,
            }),
            PackageFault::Twice { name, at } => Ok(PackageFault::Twice {
                name: name.try_clone(alloc)?,
                at: *at,
            }),
            PackageFault::WrongKind { at } => Ok(PackageFault::WrongKind { at: *at }),
            PackageFault::Recursive { name, at } => Ok(PackageFault::Recursive {
                name: name.try_clone(alloc)?,
                at: *at,
            }),
            PackageFault::DeadEnd { name, at } => Ok(PackageFault::DeadEnd {
                name: name.try_clone(alloc)?,
                at: *at,
            }),
            PackageFault::TwoSources { name, at } => Ok(PackageFault::TwoSources {
                name: name.try_clone(alloc)?,
                at: *at,
            }),
            PackageFault::TooMany { what } => Ok(PackageFault::TooMany {
                what: what.try_clone(alloc)?,
            }),
            PackageFault::Memory => Ok(PackageFault::Memory),
        }
    }
}

impl fmt::Debug for PackageFault {
    fn fmt<W: fmt::Write>(&self, f: &mut fmt::Formatter<W>) -> fmt::Result {
        write!(f, "{self}")
    }
}

impl From<AllocError> for PackageFault {
    ghost use Rattle.std.specs.Prelude.{◌≡◌};
    ghost use Rattle.aadl_names.specs.declared.fault.PackageFault.TheVariants.{Memory};

    ghost from_gives = { λ _ e. e ≡ Memory };

    fn from(_error: AllocError) -> PackageFault {
        PackageFault::Memory
    }
}

impl<T: Drop> From<AllocFailed<T>> for PackageFault {
    ghost use Rattle.std.specs.Prelude.{◌≡◌};
    ghost use Rattle.aadl_names.specs.declared.fault.PackageFault.TheVariants.{Memory};

    ghost from_gives = { λ _ e. e ≡ Memory };

    fn from(_error: AllocFailed<T>) -> PackageFault {
        PackageFault::Memory
    }
}
