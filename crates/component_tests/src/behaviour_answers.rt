//! The output for a behaviour that is read by itself: whether it has variables, and the position of its first
//! assignment.
use aadl_lex::lex;
use aadl_tree::{Action, AnnexTree};
use behaviour_parse::{ParseFault, parse_annex};
use std::alloc::{AllocError, Global};

fn annex(alloc: Global, text: &[u8]) -> Result<AnnexTree, ParseFault> {
    match lex(alloc, text) {
        Ok(tokens) => parse_annex(alloc, text, tokens.as_slice()),
        Err(_fault) => Err(ParseFault::Memory),
    }
}

// The positions of the sides of the assignment with which the first transition begins.
fn assignment(annex: &AnnexTree) -> Option<(usize, usize)> {
    let transition = annex.transitions.as_ref()?.first()?;
    let actions = transition.effect.as_ref()?.actions.as_ref()?;
    match &actions.first {
        Action::Assign { target, value } => Some((target.at, value.at())),
        _ => None,
    }
}

fn shown(alloc: Global, annex: &AnnexTree) -> Result<Vec<u8>, AllocError> {
    let variables = annex.variables.is_some();
    let (target, value) = assignment(annex).unwrap_or((0, 0));
    Ok(format!(in alloc; "variables {variables}\nassignment {target} {value}\n")?.into_bytes())
}

/// Whether a behaviour has variables, and the position of its first assignment.
pub fn behaviour(alloc: Global, text: &[u8]) -> Result<Vec<u8>, AllocError> {
    match annex(alloc, text) {
        Ok(annex) => shown(alloc, &annex),
        Err(_fault) => b"no tree\n".to_vec(alloc),
    }
}
