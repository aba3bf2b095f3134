//! What holds of every product. Each law is the contract of a function that does nothing.
ghost use Rattle.sync_product.specs.proof.CompositionAgreement.{DesignStays, StandsAtComposition, HasPartsOfRound};

/// After any number of rounds of any environment, a product agrees with the composition, and
/// shows the parts of its components in the last of these rounds.
pub fn products_follow_the_composition()
    ensures design { DesignStays }
    ensures configuration { StandsAtComposition }
    ensures parts { HasPartsOfRound }
{}
