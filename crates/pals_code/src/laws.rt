//! The law of the listings that the program writes. The function does nothing: its contract is the law.
ghost use Rattle.pals_code.specs.proof.ListingInjectivity.{OneListingOneDesign};

use code_listing::laws::listings_tell;
use design_laws::packages::designs_of_texts_keep_their_rules;

/// Two bundles with one listing mean the same design, as far as nodes need it, with the same step
/// code, whatever their texts and roots.
pub fn one_listing_one_design()
    ensures { OneListingOneDesign }
{
    listings_tell();
    designs_of_texts_keep_their_rules();
}
