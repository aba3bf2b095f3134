//! The design of a bundle in which nothing is wrong.
use bundle_designs::accept;
use pals_base::Text;
use pals_model::Design;
use std::alloc::Global;
use std::process::Abort;
use std::test::Fail;

/// The design of a bundle whose text is a design in which nothing is wrong.
pub fn design_of(rt: &impl Abort, alloc: Global, bundle: &str) -> Result<Design, Fail> {
    let root = Text::from_str(alloc, "Top.impl")?;
    match accept(alloc, bundle.as_bytes(), &root) {
        Ok(accepted) => Ok(accepted.design),
        Err(_refusal) => panic!(rt; "the bundle has no design"),
    }
}
