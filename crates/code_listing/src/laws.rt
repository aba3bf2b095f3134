//! The law of listings. The function does nothing: its contract is the law.
ghost use Rattle.code_listing.specs.proof.ListingInjectivity.{ListingTells};

/// A listing determines its design and its code: two designs with one listing have the same period and
/// bounds, components with the same paths, rates, ports, variables, states and codes, and the same
/// links, feeds and taps.
pub fn listings_tell()
    ensures { ListingTells }
{}
