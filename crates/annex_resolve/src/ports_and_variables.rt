//! The ports and variables of a thread that its behaviour can name.

use pals_base::{ItemList, PortDecl, VarDecl};

/// The ports and variables of a thread, with separate numbers for in ports, out ports and variables.
#[derive(Drop)]
pub struct DeclaredValues {
    pub ins: ItemList<PortDecl>,
    pub outs: ItemList<PortDecl>,
    pub vars: ItemList<VarDecl>,
}
