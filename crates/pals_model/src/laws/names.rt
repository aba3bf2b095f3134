//! Laws of the names of components, in ports and links.
ghost use Rattle.pals_model.specs.proof.CompositionLaws.Names.{NodeIsFound, FoundNodeHasPath, TargetNamesDiffer};
ghost use Rattle.pals_model.specs.proof.CompositionLaws.Names.{LinkIsFound, FoundLinkHasName};

/// Each component of a design is found by its path, and what a path finds has that path.
pub fn components_have_paths()
    ensures found { NodeIsFound }
    ensures named { FoundNodeHasPath }
{}

/// No two in ports of a design have one name.
pub fn in_ports_have_names()
    ensures { TargetNamesDiffer }
{}

/// Each link of a design is found by its name, and what a name finds has that name.
pub fn links_have_names()
    ensures found { LinkIsFound }
    ensures named { FoundLinkHasName }
{}
