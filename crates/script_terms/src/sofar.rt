//! What is known while a script is read.

use crate::scopes::Scope;
use term_subst::Fresh;

/// The live bindings, and the names that are left to draw.
#[derive(Drop)]
pub struct Sofar<'a> {
    pub scope: Scope<'a>,
    pub fresh: Fresh,
}
