//! From a bundle of bytes to its design, or to the output for a bundle without a design.
//!
//! A bundle is the text of a design, the line `%%%`, and a scenario. [`split`] divides it, [`print_bundle`]
//! returns the canonical text of its design, and [`accept`] the design of a root. If there is no such result,
//! the error has an output that names the first fault or all violations. The crate does not parse the scenario.
#![tactic(auto)]

mod accepted_bundle;
mod bundle;
mod canonical_text;
mod cursor;
mod package_faults;
mod parsed_bundle;
mod refusal;
mod refused_package;
mod refused_text;
mod text_faults;
mod violations;

pub use accepted_bundle::{Accepted, accept};
pub use bundle::split;
pub use canonical_text::print_bundle;
pub use refusal::Refusal;
