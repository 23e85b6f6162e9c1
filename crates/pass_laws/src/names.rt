//! The passes, and what is wrong with a list of them.

use thiserror::Error;

/// A pass over the assertions of a script. All but the last three are equivalence passes: each assertion gives way to one
/// of the same value.
#[derive(Clone, Copy, Debug, PartialEq, Eq)]
pub enum Pass {
    /// `simplify`: the simplifier.
    Simplify,
    /// `nnf`: negation normal form.
    Nnf,
    /// `aig`: and-inverter form.
    Aig,
    /// `prenex`: prenex form.
    Prenex,
    /// `reads`: reads over writes of arrays.
    Reads,
    /// `shannon`: Boolean quantifiers by Shannon's expansion.
    Shannon,
    /// `selfsub`: Boolean quantifiers by self-substitution.
    SelfSub,
    /// `rules`: the stored rules.
    Rules,
    /// `ite`: removal of `ite` over terms.
    Ite,
    /// `cnf`: clauses, with names for subformulas.
    Cnf,
    /// `ackermann`: removal of applications of functions.
    Ackermann,
}

/// Fills the places of a list that aren't used.
impl Default for Pass {
    fn default() -> Pass {
        Pass::Nnf
    }
}

/// What is wrong with a list of passes.
#[derive(Clone, Copy, Debug, PartialEq, Eq, Error)]
pub enum ListFault {
    /// A name isn't that of a pass, or there are more than 32 names.
    #[error("a name isn't that of a pass, or there are more than 32 names")]
    BadPass,
    /// `ite`, `cnf` or `ackermann` stands behind `rules`.
    #[error("ite, cnf or ackermann stands behind rules")]
    AfterRules,
}
