//! Laws of the layout of code. Each is the contract of a function that does nothing.
ghost use Rattle.step_compiler.specs.proof.LayoutLaws.{HasLayout, OrderIsOne, LaidOutCodeIsOne, LaidOutCodesAreOne};

/// Each behaviour has one code that is laid out for it: there is one order of its blocks, and one code
/// in that order. So a list of behaviours has one list of codes.
pub fn layout_is_one()
    ensures exists { HasLayout }
    ensures order { OrderIsOne }
    ensures code { LaidOutCodeIsOne }
    ensures codes { LaidOutCodesAreOne }
{}
