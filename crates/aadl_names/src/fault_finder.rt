//! A finder, which keeps the first of the faults that are found.

use crate::fault::PackageFault;
use pals_base::{Text, TryClone};
use std::alloc::{AllocError, Global};
use std::marker::Model;

/// The first finding so far, if anything was found.
#[derive(Drop)]
pub struct FaultFinder {
    alloc: Global,
    first: Option<PackageFault>,
}

impl Model for FaultFinder {
    ghost use Rattle.std.specs.Prelude.{Option};
    ghost use Rattle.aadl_names.specs.declared.fault.PackageFault.{PackageFault};

    ghost Value = { Option PackageFault };

    ghost view = { λ finder. finder.first };
}

impl FaultFinder {
    ghost use Rattle.std.specs.Prelude.{◌≡◌, OnOk, None, [], ◌∷◌};
    ghost use Rattle.aadl_names.specs.declared.fault.PackageFault.TheVariants as faults;
    ghost use Rattle.aadl_names.specs.proof.FirstFaultSoFar.{found, comes_first, as_list};
    ghost use Rattle.aadl_names.specs.DuplicateNames as spec;

    /// A finder without a finding. Does not allocate.
    pub fn new(alloc: Global) -> FaultFinder
        ensures { result ≡ None }
    {
        FaultFinder { alloc, first: None }
    }

    /// The allocator.
    pub fn alloc(&self) -> Global {
        self.alloc
    }

    // Whether a finding of the place and number would be the first.
    fn is_first(&self, at: usize, number: u32) -> bool
        ensures { result ≡ comes_first at number self.now }
    {
        match &self.first {
            None => true,
            Some(first) => at < first.place() || (at == first.place() && number < first.number()),
        }
    }

    /// What the name stands for is not declared.
    pub fn unknown(&mut self, name: &str, at: usize) -> Result<(), AllocError>
        ensures { OnOk result (self.new ≡ found self.old (faults.Unknown name.now at ∷ [])) }
    {
        if self.is_first(at, 2) {
            let name = Text::from_str(self.alloc, name)?;
            self.first = Some(PackageFault::Unknown { name, at });
        }
        Ok(())
    }

    /// The name is declared again.
    pub fn twice(&mut self, name: &str, at: usize) -> Result<(), AllocError>
        ensures { OnOk result (self.new ≡ found self.old (faults.Twice name.now at ∷ [])) }
    {
        if self.is_first(at, 3) {
            let name = Text::from_str(self.alloc, name)?;
            self.first = Some(PackageFault::Twice { name, at });
        }
        Ok(())
    }

    /// The connection is on no chain.
    pub fn dead_end(&mut self, name: &str, at: usize) -> Result<(), AllocError>
        ensures { OnOk result (self.new ≡ found self.old (faults.DeadEnd name.now at ∷ [])) }
    {
        if self.is_first(at, 6) {
            let name = Text::from_str(self.alloc, name)?;
            self.first = Some(PackageFault::DeadEnd { name, at });
        }
        Ok(())
    }

    /// The connection goes into a port into which another one goes.
    pub fn two_sources(&mut self, name: &str, at: usize) -> Result<(), AllocError>
        ensures { OnOk result (self.new ≡ found self.old (faults.TwoSources name.now at ∷ [])) }
    {
        if self.is_first(at, 7) {
            let name = Text::from_str(self.alloc, name)?;
            self.first = Some(PackageFault::TwoSources { name, at });
        }
        Ok(())
    }

    /// Something of another kind is due, where it is wrong.
    pub fn wrong_if(&mut self, wrong: bool, at: usize)
        ensures { self.new ≡ found self.old (spec.wrong_if wrong at) }
    {
        if wrong && self.is_first(at, 4) {
            self.first = Some(PackageFault::WrongKind { at });
        }
    }

    /// What was found elsewhere.
    pub fn add(&mut self, fault: &Option<PackageFault>) -> Result<(), AllocError>
        ensures { OnOk result (self.new ≡ found self.old (as_list fault.now)) }
    {
        if let Some(fault) = fault
            && self.is_first(fault.place(), fault.number())
        {
            self.first = Some(fault.try_clone(self.alloc)?);
        }
        Ok(())
    }

    /// The first finding.
    pub fn finish(self) -> Option<PackageFault>
        ensures { result ≡ self }
    {
        self.first
    }
}
