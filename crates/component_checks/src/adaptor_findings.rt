//! Checks of the adaptor of a link or a feed, and of the rates at its ends.
ghost use Rattle.std.specs.Prelude.{◌≡◌, ◌<◌, ◌++◌, OnOk};
ghost use Rattle.annex_resolve.specs.FindingRecords.{found_if};
ghost use Rattle.component_checks.specs.PeriodAndAdaptorFindings.{kind_suits, is_right};

use crate::period_findings::name_and_number;
use annex_resolve::Violation;
use annex_resolve::violation::{
    ADAPTOR_OUT_OF_RANGE, NO_ADAPTOR, RATES_DONT_DIVIDE, STRAY_ADAPTOR,
};
use pals_base::allowed_adaptors::{divides_or_divided, is_allowed, suits_kind};
use pals_base::{Adaptor, ItemList, Kind, NoMemory, Text, TryClone};
use std::alloc::Global;

// Whether the text names an adaptor that is allowed between these rates and for this type. A missing type
// allows every adaptor.
fn is_right(adaptor: Option<Adaptor>, kind: Option<Kind>, source: u32, target: u32) -> bool
    requires source { 0 < source }
    requires target { 0 < target }
    ensures { result ≡ is_right adaptor kind source target }
{
    match adaptor {
        None => false,
        Some(_) => is_allowed(adaptor, source, target) && suits(adaptor, kind),
    }
}

// Whether an adaptor is allowed for a type.
fn suits(adaptor: Option<Adaptor>, kind: Option<Kind>) -> bool
    ensures { result ≡ kind_suits adaptor kind }
{
    match kind {
        None => true,
        Some(kind) => suits_kind(adaptor, kind),
    }
}

// Appends a violation whose only detail is a name, under a condition.
fn add_named(
    alloc: Global,
    found: &mut ItemList<Violation>,
    wrong: bool,
    at: usize,
    number: u32,
    name: &Text,
) -> Result<(), NoMemory>
    ensures { OnOk result (found.new ≡ found.old ++ found_if wrong at number name.now) }
{
    if wrong {
        found.push(Violation {
            at,
            number,
            details: name.try_clone(alloc)?,
        })?;
    }
    Ok(())
}

/// The properties of a link or a feed: the position of the connection whose properties apply, its name, its
/// adaptor, and the type of the target.
#[derive(Drop)]
pub struct Carrier {
    pub at: usize,
    pub name: Text,
    /// `None` without an adaptor text; `Some(None)` if the text does not name an adaptor.
    pub adaptor: Option<Option<Adaptor>>,
    pub kind: Option<Kind>,
}

impl Carrier {
    ghost use Rattle.component_checks.specs.PeriodAndAdaptorFindings.{adaptor_findings, pair_findings};

    // For distinct rates, one of which divides the other.
    fn add_adaptor_findings(
        &self,
        alloc: Global,
        found: &mut ItemList<Violation>,
        source: u32,
        target: u32,
    ) -> Result<(), NoMemory>
        requires source { 0 < source }
        requires target { 0 < target }
        ensures { OnOk result (found.new ≡ found.old
            ++ adaptor_findings self.now.at self.now.name self.now.adaptor self.now.kind source target) }
    {
        match self.adaptor {
            None => add_named(alloc, found, true, self.at, NO_ADAPTOR, &self.name),
            Some(adaptor) => {
                let right = is_right(adaptor, self.kind, source, target);
                add_named(
                    alloc,
                    found,
                    !right,
                    self.at,
                    ADAPTOR_OUT_OF_RANGE,
                    &self.name,
                )
            }
        }
    }

    /// Appends the violations of the adaptor between two rates. Errors: out of memory.
    pub fn add_pair_findings(
        &self,
        alloc: Global,
        found: &mut ItemList<Violation>,
        source: u32,
        target: u32,
    ) -> Result<(), NoMemory>
        requires source { 0 < source }
        requires target { 0 < target }
        ensures { OnOk result (found.new ≡ found.old
            ++ pair_findings self.now.at self.now.name self.now.adaptor self.now.kind source target) }
    {
        if source == target {
            let stray = self.adaptor.is_some();
            return add_named(alloc, found, stray, self.at, STRAY_ADAPTOR, &self.name);
        }
        if divides_or_divided(source, target) {
            return self.add_adaptor_findings(alloc, found, source, target);
        }
        let details = name_and_number(alloc, self.name.as_str(), u64::from(source))?;
        let details = name_and_number(alloc, details.as_str(), u64::from(target))?;
        found.push(Violation {
            at: self.at,
            number: RATES_DONT_DIVIDE,
            details,
        })
    }
}
